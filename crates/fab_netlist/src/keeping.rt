//! How many covers a packed design keeps.

ghost use Rattle.std.specs.Prelude.{◌≡◌, ◌<◌, ◌≤◌, length, map, count_by};
ghost use Rattle.std.specs.List.{All, flat_map};
ghost use Rattle.fab_netlist.specs.Kept.{kept, marked};
ghost use Rattle.fab_netlist.specs.Plain.{bit_at};
ghost use Rattle.fab_netlist.specs.WellMade.{IsWellMade};

use crate::netlist::{Cover, Latch, MAX_NETS, Netlist};

fn mark(nets: &[u32], marks: &mut [bool])
    requires { All (λ net. net < length marks.old) nets.now }
    ensures { marks.new ≡ marked nets.now marks.old }
{
    for net in nets {
        marks[*net as usize] = true;
    }
}

fn mark_cover_inputs(covers: &[Cover], marks: &mut [bool])
    requires { All (λ cover. All (λ net. net < length marks.old) cover.inputs) covers.now }
    ensures { marks.new ≡ marked (flat_map (λ cover. cover.inputs) covers.now) marks.old }
{
    for cover in covers {
        mark(&cover.inputs, marks);
    }
}

fn mark_latch_inputs(latches: &[Latch], marks: &mut [bool])
    requires { All (λ latch. latch.input < length marks.old) latches.now }
    ensures { marks.new ≡ marked (map (λ latch. latch.input) latches.now) marks.old }
{
    for latch in latches {
        marks[latch.input as usize] = true;
    }
}

fn count_marked(covers: &[Cover], marks: &[bool]) -> usize
    requires { All (λ cover. cover.output < length marks.now) covers.now }
    ensures { result ≡ count_by (λ cover. bit_at marks.now cover.output) covers.now }
{
    covers
        .iter()
        .filter(|cover| marks[cover.output as usize])
        .count()
}

/// How many covers are kept where a netlist is packed. A cover is dropped where its output has no reader and is no output
/// of the netlist; readers are all covers, also dropped ones, and all latches. It takes no memory.
pub fn kept(netlist: &Netlist) -> u32
    ensures { result ≡ kept netlist.now }
{
    netlist.is_well_made();
    let mut read = [false; MAX_NETS];
    mark_cover_inputs(&netlist.covers, &mut read);
    mark_latch_inputs(&netlist.latches, &mut read);
    mark(&netlist.outputs, &mut read);
    count_marked(&netlist.covers, &read) as u32
}
