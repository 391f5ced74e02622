//! Where a point leads, as far as the values that are known decide it.

ghost use Rattle.std.specs.Prelude.{◌≡◌, ◌≤◌, ◌^◌, length, IfOk};
ghost use Rattle.fab_compiled.specs.Terns.{IsView};
ghost use Rattle.fab_compiled.specs.Parts.{TellsBits};
ghost use Rattle.fab_network.specs.Network.{source_tern, IsFitSource};
ghost use Rattle.fab_network.specs.Leading.{bits_of_source, LeadsTo};

use crate::network::Source;
use fab_base::Memory;
use fab_compiled::{Lead, Part, Tree, View, follow, part_of};
use std::alloc::Global;

/// Where a source leads.
pub fn lead_of_source(trees: &[Tree], source: Source, view: &View, marks: &[bool]) -> Lead
    requires fit { IsFitSource trees.now (length view.now.leads.now) source }
    requires view { IsView view.now.terns.now view.now.leads.now }
    requires small { length view.now.leads.now ≤ 2 ^ 32 }
    requires marks { length marks.now ≡ length view.now.leads.now }
    ensures { LeadsTo view.now.terns.now view.now.leads.now marks.now (λ t. source_tern trees.now t source) result }
{
    let tree = &trees[source.tree as usize];
    follow(
        tree,
        u64::from(source.bit),
        source.first as usize,
        view,
        marks,
    )
}

/// The part of the expression of a source in which its bit stands.
pub fn part_of_source(
    alloc: Global,
    trees: &[Tree],
    source: Source,
    view: &View,
    marks: &[bool],
) -> Result<Part, Memory>
    requires fit { IsFitSource trees.now (length view.now.leads.now) source }
    requires view { IsView view.now.terns.now view.now.leads.now }
    requires small { length view.now.leads.now ≤ 2 ^ 32 }
    requires marks { length marks.now ≡ length view.now.leads.now }
    ensures { IfOk result (λ part. TellsBits view.now.terns.now view.now.leads.now marks.now (bits_of_source trees.now source) part) }
{
    let tree = &trees[source.tree as usize];
    part_of(
        alloc,
        tree,
        u64::from(source.bit),
        source.first as usize,
        view,
        marks,
    )
}
