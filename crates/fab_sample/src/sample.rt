//! A sample is drawn and printed.

ghost use Rattle.std.specs.Prelude.{◌≡◌, ◌≤◌, ◌++◌, [], ◌∷◌, IfOk, OnOk, map};
ghost use Rattle.fab_draws.specs.Draws.{draws_of};
ghost use Rattle.fab_sample.specs.Drawn.{covers, sample_latches, sample_stimulus};
ghost use Rattle.fab_sample.specs.Files.{design_files, fabric_files, sample_files};

use crate::design::{Cover, Latch, draw_covers, draw_latches};
use crate::fabric::print_fabric;
use crate::file::File;
use crate::lists::{print_edge, print_logic};
use crate::netlist::print_netlist;
use crate::side::Side;
use crate::stimulus::{draw_stimulus, print_stimulus};
use fab_base::{Memory, Name};
use rand_core::SeedableRng;
use rand_pcg::Lcg64Xsh32;
use std::alloc::Global;

/// A fabric, a design that it can hold, and what the design is to be fed.
#[derive(Debug, Drop)]
pub struct Sample {
    /// The table of the fabric, its switch lists, the netlist, and the stimulus.
    pub files: Vec<File>,
    /// The stimulus: for each cycle the bits of the inputs in their order.
    pub stimulus: Vec<Vec<bool>>,
}

/// What is drawn for a sample.
#[derive(Drop)]
struct Drawn {
    covers: Vec<Cover>,
    latches: Vec<Latch>,
    stimulus: Vec<Vec<bool>>,
}

/// Draws all covers, then all latches, then the stimulus.
fn draw(alloc: Global, size: usize, seed: u64) -> Result<Drawn, Memory>
    requires least { 2 ≤ size }
    requires most { size ≤ 16 }
    ensures covers { IfOk result (λ drawn. drawn.covers.items ≡ covers size (draws_of seed)) }
    ensures latches { IfOk result (λ drawn. drawn.latches.items ≡ sample_latches size (draws_of seed)) }
    ensures stimulus { IfOk result (λ drawn. map (λ line. line.items) drawn.stimulus.items ≡ sample_stimulus size (draws_of seed)) }
{
    let mut random = Lcg64Xsh32::seed_from_u64(seed);
    let covers = draw_covers(&mut random, alloc, size)?;
    let latches = draw_latches(&mut random, alloc, size)?;
    let stimulus = draw_stimulus(&mut random, alloc, size)?;
    Ok(Drawn {
        covers,
        latches,
        stimulus,
    })
}

/// Adds a file of this name.
fn push_file(files: &mut Vec<File>, alloc: Global, name: &[u8], text: Name) -> Result<(), Memory>
    ensures { OnOk result (files.new.items ≡ files.old.items ++ record { name = name.now; text = text } ∷ []) }
{
    let name = Name::of(alloc, name)?;
    files.push(File { name, text })?;
    Ok(())
}

/// Adds the table of the fabric and its switch lists.
fn push_fabric(files: &mut Vec<File>, alloc: Global, size: usize) -> Result<(), Memory>
    ensures { OnOk result (files.new.items ≡ files.old.items ++ fabric_files size) }
{
    push_file(files, alloc, b"sample.csv", print_fabric(alloc, size)?)?;
    push_file(
        files,
        alloc,
        b"SW.list",
        print_edge(alloc, Side::East, Side::West)?,
    )?;
    push_file(files, alloc, b"SLOG.list", print_logic(alloc)?)?;
    push_file(
        files,
        alloc,
        b"SE.list",
        print_edge(alloc, Side::West, Side::East)?,
    )
}

/// Adds the netlist and the stimulus.
fn push_design(
    files: &mut Vec<File>,
    alloc: Global,
    size: usize,
    drawn: &Drawn,
) -> Result<(), Memory>
    requires { size ≤ 16 }
    ensures { OnOk result (files.new.items
        ≡ files.old.items ++ design_files size drawn.now.covers.items drawn.now.latches.items (map (λ line. line.items) drawn.now.stimulus.items)) }
{
    push_file(
        files,
        alloc,
        b"sample.blif",
        print_netlist(alloc, size, &drawn.covers, &drawn.latches)?,
    )?;
    push_file(
        files,
        alloc,
        b"sample.stim",
        print_stimulus(alloc, size, &drawn.stimulus)?,
    )
}

/// The sample of a size and a seed. The fabric has `size` rows of `size` tiles of logic, with pads at both ends; the design has
/// as many inputs, outputs and latches as there are rows, and as many covers as there are tiles of logic.
///
/// The files are `sample.csv`, `SW.list`, `SLOG.list`, `SE.list`, `sample.blif` and `sample.stim`, in this order. The error
/// comes where memory is refused.
pub fn make(alloc: Global, size: usize, seed: u64) -> Result<Sample, Memory>
    requires least { 2 ≤ size }
    requires most { size ≤ 16 }
    ensures files { IfOk result (λ sample. sample.files.items ≡ sample_files size (draws_of seed)) }
    ensures stimulus { IfOk result (λ sample. map (λ line. line.items) sample.stimulus.items ≡ sample_stimulus size (draws_of seed)) }
{
    let drawn = draw(alloc, size, seed)?;
    let mut files = Vec::new(alloc);
    push_fabric(&mut files, alloc, size)?;
    push_design(&mut files, alloc, size, &drawn)?;
    let Drawn { stimulus, .. } = drawn;
    Ok(Sample { files, stimulus })
}
