//! The points of all lines of a state, in their order.

ghost use Rattle.std.specs.Prelude.{◌≡◌, ◌⊎◌, ◌+◌, IfOk, IfErr, IfSome};
ghost use Rattle.fab_base.specs.Reading.{fault_at, IsFaultOr};
ghost use Rattle.fab_base.specs.declared.fault.Fault.TheVariants as faults;
ghost use Rattle.fab_base.specs.declared.problem.Problem.TheVariants as problems;
ghost use Rattle.fab_syntax.specs.Plain.{plain_text};
ghost use Rattle.fab_state_points.specs.Standing.{AreAt, AreFoundData, HasStream, IsFirstAbsent, IsFoundStream, IsRefusedState, StandsAt};
ghost use Rattle.fab_state_points.specs.Entries.{reason_of};

use crate::entry::{Entry, in_entries, out_entries, register_entries};
use crate::finding::{point_of, top_input};
use fab_base::{Fault, Name, Problem, Reason};
use fab_equations::Equations;
use fab_state::State;
use fab_syntax::Shape;
use std::alloc::Global;

/// The points of `WriteData`, which takes words whole or bit by bit.
#[derive(Clone, Copy, Debug)]
pub enum DataPoints {
    /// Its one point.
    Bit(u32),
    /// The first of its 32 points.
    Word(u32),
}

impl DataPoints {
    ghost use Rattle.fab_state_points.specs.Standing.{data_width, first_data};

    /// The first of them.
    pub fn first(self) -> u32
        ensures { result ≡ first_data self }
    {
        match self {
            DataPoints::Bit(point) => point,
            DataPoints::Word(first) => first,
        }
    }

    /// How many there are.
    pub fn width(self) -> u32
        ensures { result ≡ data_width self }
    {
        match self {
            DataPoints::Bit(_) => 1,
            DataPoints::Word(_) => 32,
        }
    }
}

/// The inputs of the top that carry words.
#[derive(Clone, Copy, Debug)]
pub struct Stream {
    /// The point of `WriteStrobe`.
    pub strobe: u32,
    /// The points of `WriteData`.
    pub carrier: DataPoints,
}

/// The points of the lines of a state, each in the place of its line.
#[derive(Drop)]
pub struct StatePoints {
    pub stream: Stream,
    /// The inputs of the top that belong to input ports.
    pub ins: Vec<u32>,
    /// The outputs of the top that belong to output ports.
    pub outs: Vec<u32>,
    /// The flip-flops.
    pub ffs: Vec<u32>,
}

// The inputs that carry words, if the top has them and both clocks.
fn stream_of(equations: &Equations) -> Option<Stream>
    ensures { IsFoundStream (plain_text equations.now) result }
{
    top_input(equations, b"CLK", Shape::Scalar)?;
    top_input(equations, b"UserCLK", Shape::Scalar)?;
    let strobe = top_input(equations, b"WriteStrobe", Shape::Scalar)?;
    let carrier = data_points(equations)?;
    Some(Stream { strobe, carrier })
}

// The points of `WriteData`, if it has one bit or 32.
fn data_points(equations: &Equations) -> Option<DataPoints>
    ensures { AreFoundData (plain_text equations.now) result }
{
    if let Some(point) = top_input(equations, b"WriteData", Shape::Scalar) {
        return Some(DataPoints::Bit(point));
    }
    let first = top_input(equations, b"WriteData", Shape::Vector(32))?;
    Some(DataPoints::Word(first))
}

// Why a line is refused that has no point.
fn reason_of(entry: Entry) -> Reason
    ensures { result ≡ reason_of entry }
{
    match entry {
        Entry::Input(_) | Entry::Output(_) => Reason::NoPort,
        Entry::Register(_) => Reason::NoRegister,
    }
}

// The fault of a line behind some entries; want of memory where its number does not fit.
fn refusal(alloc: Global, file: &Name, before: usize, place: usize, entry: Entry) -> Fault
    ensures { IsFaultOr result (fault_at file.now (before + place + 1) (problems.Malformed (reason_of entry))) }
{
    let Some(line) = line_of(before, place) else {
        return Fault::Memory;
    };
    Problem::Malformed(reason_of(entry)).at(alloc, file, line)
}

// The number of an entry behind others, counted from 1, if it fits.
fn line_of(before: usize, place: usize) -> Option<u32>
    ensures { IfSome result (λ line. line ≡ before + place + 1) }
{
    let earlier = before.checked_add(place)?;
    u32::try_from(earlier.checked_add(1)?).ok()
}

// The points of lines that stand behind some entries.
fn points_of(
    alloc: Global,
    file: &Name,
    equations: &Equations,
    before: usize,
    lines: &[Entry],
) -> Result<Vec<u32>, Fault>
    ensures points { IfOk result (λ numbers. AreAt (plain_text equations.now) lines.now numbers.items) }
    ensures refused { IfErr result (λ fault. (fault ≡ faults.Memory) ⊎ IsFirstAbsent (plain_text equations.now) file.now before lines.now fault) }
{
    let mut numbers = Vec::new(alloc);
    for (place, entry) in lines.iter().enumerate() {
        match point_of(alloc, equations, *entry)? {
            Some(number) => numbers.push(number)?,
            None => return Err(refusal(alloc, file, before, place, *entry)),
        }
    }
    Ok(numbers)
}

/// The points of the lines of a state in a text.
///
/// `Malformed` with `no port` at line 1 comes where the top lacks an input `CLK`, `UserCLK` or `WriteStrobe` of one bit, or an input `WriteData` of one
/// bit, declared without a range, or of 32. Otherwise the first line that has no point is refused, for `no port` or `no register`. Lines are counted as the state is printed, where
/// the first is the header; so they are the entries of `entry_line`. Want of memory is also the answer where such a number does not fit.
pub fn state_points(
    alloc: Global,
    file: &Name,
    equations: &Equations,
    state: &State,
) -> Result<StatePoints, Fault>
    ensures stands { IfOk result (λ points. StandsAt (plain_text equations.now) state.now points) }
    ensures refused { IfErr result (λ fault. IsRefusedState file.now (plain_text equations.now) state.now fault) }
{
    let Some(stream) = stream_of(equations) else {
        return Err(Problem::Malformed(Reason::NoPort).at(alloc, file, 1));
    };
    let ins = points_of(alloc, file, equations, 1, &in_entries(alloc, &state.ins)?)?;
    let outs = points_of(
        alloc,
        file,
        equations,
        1 + state.ins.len(),
        &out_entries(alloc, &state.outs)?,
    )?;
    let ffs = points_of(
        alloc,
        file,
        equations,
        1 + state.ins.len() + state.outs.len(),
        &register_entries(alloc, &state.ffs)?,
    )?;
    Ok(StatePoints {
        stream,
        ins,
        outs,
        ffs,
    })
}
