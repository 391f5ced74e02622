//! Tables in place of rows.

ghost use Rattle.std.specs.Prelude.{◌≡◌, ◌≤◌, All, IfOk, length, map};
ghost use Rattle.fab_netlist.specs.Wide.{tabled, tabled_cover};
ghost use Rattle.fab_netlist.specs.WellMade.{IsWellMade};

use fab_base::Memory;
use fab_netlist::{Cover, Netlist, WideCover, WideNetlist};
use std::alloc::Global;

fn cover_with_table(alloc: Global, cover: &WideCover) -> Result<Cover, Memory>
    requires { length cover.now.inputs ≤ 4 }
    ensures { IfOk result (λ made. made ≡ tabled_cover cover.now) }
{
    Ok(Cover {
        line: cover.line,
        inputs: Vec::from_slice(alloc, &cover.inputs)?,
        output: cover.output,
        table: cover.word(0),
    })
}

fn covers_with_tables(alloc: Global, covers: &[WideCover]) -> Result<Vec<Cover>, Memory>
    requires { All (λ cover. length cover.inputs ≤ 4) covers.now }
    ensures { IfOk result (λ made. made.items ≡ map tabled_cover covers.now) }
{
    let mut made = Vec::with_capacity(alloc, covers.len())?;
    for cover in covers {
        made.push(cover_with_table(alloc, cover)?)?;
    }
    Ok(made)
}

/// The netlist with tables, of which no cover has more than four inputs.
pub(crate) fn with_tables(alloc: Global, netlist: WideNetlist) -> Result<Netlist, Memory>
    requires made { IsWellMade (tabled netlist) }
    requires narrow { All (λ cover. length cover.inputs ≤ 4) netlist.covers }
    ensures { IfOk result (λ made. made ≡ tabled netlist) }
{
    let covers = covers_with_tables(alloc, &netlist.covers)?;
    let WideNetlist {
        nets,
        inputs,
        outputs,
        latches,
        ..
    } = netlist;
    Netlist::new(alloc, nets, inputs, outputs, covers, latches)
}
