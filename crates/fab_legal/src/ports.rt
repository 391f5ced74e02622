//! Ports by number, and their pads.

ghost use Rattle.std.specs.Prelude.{◌≡◌, ◌≢◌, ◌<◌, ◌≤◌, ◌↔◌, IsTrue, IfOk, OnOk, length, map, AllPairs};
ghost use Rattle.std.specs.Str.{bytes_eq};
ghost use Rattle.indexmap.specs.IndexSet.{insert_key};
ghost use Rattle.fab_bits.specs.Keys.{key_names};
ghost use Rattle.fab_legal.specs.WellMade.{output_name};
ghost use Rattle.fab_legal.specs.inner.Keeping.{port_number, numbered_pad, BindsPads, HasPad};
ghost use Rattle.fab_implementation.specs.fab_netlist.specs.WellMade.{most_nets};

use crate::lines::{Binding, bind};
use fab_base::{Memory, Name};
use fab_implementation::fab_fabric::{Fabric, Site};
use fab_implementation::fab_netlist::NetId;
use fab_kinds::Kind;
use indexmap::IndexSet;
use std::alloc::Global;

/// The ports of a direction with their pads.
#[derive(Debug, Drop)]
pub struct Pads {
    /// The names, each at its number.
    pub names: IndexSet<Vec<u8>>,
    /// The lines of the ports by number.
    pub lines: Vec<(u32, Site)>,
    /// The sites of the ports by number.
    pub sites: Vec<Site>,
}

/// What lines give to ports.
#[derive(Debug, Drop)]
pub enum PadBinding {
    /// Each line is right, and each port is named.
    Bound(Pads),
    /// The first wrong line by its place.
    WrongLine(usize),
    /// The lines are right, and this is the first port that none names.
    Unnamed(usize),
}

/// The names of input ports, each at its number.
pub fn input_ports(alloc: Global, names: &[Name]) -> Result<IndexSet<Vec<u8>>, Memory>
    requires { AllPairs (λ first second. first ≢ second) names.now }
    ensures { IfOk result (λ ports. key_names ports.keys ≡ names.now) }
{
    let mut ports = IndexSet::new(alloc);
    for name in names {
        put_port(alloc, &mut ports, name)?;
    }
    Ok(ports)
}

/// The names of output ports, each at its number.
pub fn output_ports(alloc: Global, outputs: &[(Name, NetId)]) -> Result<IndexSet<Vec<u8>>, Memory>
    requires { AllPairs (λ first second. first ≢ second) (map output_name outputs.now) }
    ensures { IfOk result (λ ports. key_names ports.keys ≡ map output_name outputs.now) }
{
    let mut ports = IndexSet::new(alloc);
    for (name, _) in outputs {
        put_port(alloc, &mut ports, name)?;
    }
    Ok(ports)
}

fn put_port(alloc: Global, ports: &mut IndexSet<Vec<u8>>, name: &Name) -> Result<(), Memory>
    ensures { OnOk result (key_names ports.new.keys ≡ insert_key bytes_eq (key_names ports.old.keys) name.now) }
{
    ports.insert(name.copy(alloc)?.into_vec())?;
    Ok(())
}

// The number of a port; one past the last for other names.
fn port_number(ports: &IndexSet<Vec<u8>>, name: &Name) -> u32
    requires { length (key_names ports.now.keys) ≤ most_nets }
    ensures { result ≡ port_number (key_names ports.now.keys) name.now }
{
    match ports.get_index_of(name.bytes()) {
        Some(number) => number as u32,
        None => ports.len() as u32,
    }
}

// Lines with the numbers of their ports.
fn numbered(
    alloc: Global,
    ports: &IndexSet<Vec<u8>>,
    pads: &[(Name, Site)],
) -> Result<Vec<(u32, Site)>, Memory>
    requires { length (key_names ports.now.keys) ≤ most_nets }
    ensures { IfOk result (λ lines. lines.items ≡ map (numbered_pad (key_names ports.now.keys)) pads.now) }
{
    let mut lines = Vec::new(alloc);
    for (name, site) in pads {
        lines.push((port_number(ports, name), *site))?;
    }
    Ok(lines)
}

/// What lines give to the ports of these names.
pub fn bind_pads(
    alloc: Global,
    fabric: &Fabric,
    names: IndexSet<Vec<u8>>,
    pads: &[(Name, Site)],
) -> Result<PadBinding, Memory>
    requires few { length (key_names names.keys) ≤ most_nets }
    requires apart { AllPairs (λ first second. first ≢ second) (key_names names.keys) }
    ensures { IfOk result (BindsPads fabric.now (key_names names.keys) pads.now) }
{
    let lines = numbered(alloc, &names, pads)?;
    match bind(alloc, fabric, Kind::Io, names.len() as u32, &lines)? {
        Binding::Sites(sites) => Ok(PadBinding::Bound(Pads {
            names,
            lines,
            sites,
        })),
        Binding::WrongLine(place) => Ok(PadBinding::WrongLine(place)),
        Binding::Unnamed(number) => Ok(PadBinding::Unnamed(number as usize)),
    }
}

impl Pads {
    /// Whether a port stands on a pad.
    pub fn has(&self, pad: &(Name, Site)) -> bool
        requires few { length (key_names self.now.names.keys) ≤ most_nets }
        requires sites { length self.now.sites.items ≡ length (key_names self.now.names.keys) }
        ensures { IsTrue result ↔ HasPad (key_names self.now.names.keys) self.now.sites.items pad.now }
    {
        let number = port_number(&self.names, &pad.0) as usize;
        number < self.sites.len() && self.sites[number] == pad.1
    }
}
