//! Lines that give numbered things sites.

ghost use Rattle.std.specs.Prelude.{◌<◌, ◌^◌, ◌↔◌, IfOk, IsTrue, length};
ghost use Rattle.fab_legal.specs.inner.Keeping.{Binds, Collects, FillsGap};

use fab_base::Memory;
use fab_implementation::fab_fabric::{Fabric, Site};
use fab_kinds::Kind;
use std::alloc::Global;

/// What lines give to things that are numbered from 0 on.
#[derive(Debug, Drop)]
pub enum Binding {
    /// Each line is right, and each thing is named; the sites are those of the things by number.
    Sites(Vec<Site>),
    /// The first wrong line by its place.
    WrongLine(usize),
    /// The lines are right, and this is the least number that none names.
    Unnamed(u32),
}

/// What lines give to `count` things that stand on sites of a kind.
pub fn bind(
    alloc: Global,
    fabric: &Fabric,
    kind: Kind,
    count: u32,
    lines: &[(u32, Site)],
) -> Result<Binding, Memory>
    ensures { IfOk result (Binds fabric.now kind count lines.now) }
{
    let mut sites: Vec<Option<Site>> = vec![in alloc; None; count as usize]?;
    for (place, line) in lines.iter().enumerate() {
        if !is_right(fabric, kind, &sites, *line) {
            return Ok(Binding::WrongLine(place));
        }
        sites[line.0 as usize] = Some(line.1);
    }
    all_sites(alloc, &sites)
}

// Whether a line gives a site of the kind to a thing that has none yet.
fn is_right(fabric: &Fabric, kind: Kind, sites: &[Option<Site>], line: (u32, Site)) -> bool
    ensures { IsTrue result ↔ FillsGap fabric.now kind sites.now line }
{
    let number = line.0 as usize;
    number < sites.len() && sites[number].is_none() && fabric.kind_at(line.1) == Some(kind)
}

// The sites, if there is one at each number.
fn all_sites(alloc: Global, noted: &[Option<Site>]) -> Result<Binding, Memory>
    requires { length noted.now < 2 ^ 32 }
    ensures { IfOk result (Collects noted.now) }
{
    let mut sites = Vec::new(alloc);
    for (number, site) in noted.iter().enumerate() {
        let Some(site) = site else {
            return Ok(Binding::Unnamed(number as u32));
        };
        sites.push(*site)?;
    }
    Ok(Binding::Sites(sites))
}
