//! A design with its constraints, and what is answered for implementations of it.

ghost use Rattle.std.specs.Prelude.{◌≤◌, ◌<◌, IfOk, All, length};
ghost use Rattle.fab_fabric.specs.Fabric.{wire_count};
ghost use Rattle.fab_legal.specs.WellMade.{IsWellMadePacked};

use crate::cases::{Case, Subject};
use crate::words::{headed, put_net, put_word};
use fab_base::{Fault, MAX_FILE_BYTES, Memory, Name};
use fab_blif::read_blif;
use fab_desk::Desk;
use fab_examples::fetch;
use fab_fabric::{Fabric, Wire};
use fab_impl::read_impl;
use fab_implementation::Fixed;
use fab_legal::{check, packed_is_well_made, required};
use fab_netlist::{NetId, Netlist, Packed, pack};
use fab_state::read_pcf;
use std::alloc::Global;

// The sites of the small fabric.
const LUTS: u32 = 1;

const PADS: u32 = 2;

/// A design, the fabric that it is packed for, and the pads on which its ports have to stand.
#[derive(Drop)]
pub struct Design<'a> {
    pub fabric: &'a Fabric,
    pub netlist: Netlist,
    pub fixed: Fixed,
}

/// Of each legal implementation the sinks are printed that its nets have to reach, and of the others the broken rule.
impl<'a> Subject for Design<'a> {
    fn shown(&self, alloc: Global, case: &Case) -> Result<Vec<u8>, Fault> {
        let mut out = headed(alloc, &case.file)?;
        out.push(b'\n')?;
        match self.judged(alloc, &case.file, case.text) {
            Ok(sinks) => out.extend_from_slice(&sinks)?,
            Err(fault) => out.extend_from_slice(fault.text(alloc)?.bytes())?,
        }
        Ok(out)
    }
}

/// The design of a BLIF file, with the constraints of another file.
pub fn read_design<'a, D: Desk>(
    alloc: Global,
    desk: &mut D,
    fabric: &'a Fabric,
    blif: &str,
    constraints: &str,
) -> Result<Design<'a>, Fault> {
    let bytes = fetch(alloc, desk, blif)?;
    let netlist = read_blif(alloc, &Name::of(alloc, blif.as_bytes())?, &bytes)?;
    let bytes = fetch(alloc, desk, constraints)?;
    let name = Name::of(alloc, constraints.as_bytes())?;
    let fixed = read_pcf(alloc, &name, &bytes, fabric, &netlist)?;
    Ok(Design {
        fabric,
        netlist,
        fixed,
    })
}

fn packed_design(alloc: Global, netlist: &Netlist) -> Result<Packed, Fault>
    ensures { IfOk result IsWellMadePacked }
{
    let packed = pack(alloc, netlist, LUTS, PADS)?;
    netlist.is_well_made();
    packed_is_well_made();
    Ok(packed)
}

impl<'a> Design<'a> {
    // A line for each sink, its net before its wire.
    fn sinks_text(
        &self,
        alloc: Global,
        packed: &Packed,
        sinks: &[(NetId, Wire)],
    ) -> Result<Vec<u8>, Memory>
        requires { All (λ sink. sink.1.0 < wire_count self.now.fabric.now) sinks.now }
    {
        let mut out = Vec::from_slice(alloc, b"legal\n")?;
        for (net, wire) in sinks {
            put_net(&mut out, &packed.inputs, *net)?;
            put_word(&mut out, self.fabric.wire_name(alloc, *wire)?.bytes())?;
            out.push(b'\n')?;
        }
        Ok(out)
    }

    // That the implementation which a text spells is legal, and the sinks that its nets have to reach; or why it is refused.
    fn judged(&self, alloc: Global, file: &Name, text: &[u8]) -> Result<Vec<u8>, Fault>
        requires { length text.now ≤ MAX_FILE_BYTES }
    {
        let fabric = self.fabric;
        let packed = packed_design(alloc, &self.netlist)?;
        let implementation = read_impl(alloc, file, text, fabric)?;
        let legal = check(alloc, fabric, &packed, &self.fixed, implementation)?;
        let sinks = required(alloc, fabric, &packed, legal.get())?;
        Ok(self.sinks_text(alloc, &packed, &sinks)?)
    }
}
