//! The jobs of the command line.

use fab_base::Name;

/// What a command line asks for. The names stand in the order in which the work of the command takes them.
#[derive(Debug, Drop)]
pub enum Job {
    /// `matrix LIST OUT`: the module of a switch list.
    Matrix(Name, Name),
    /// `generate FABRIC OUT`: the text of a fabric.
    Generate(Name, Name),
    /// `assemble FABRIC BLIF IMPL BASE` with `--pcf FILE`: fabric, netlist, constraints and implementation, and what
    /// the names of the outputs begin with.
    Assemble(Name, Name, Option<Name>, Name, Name),
    /// `map FABRIC BLIF OUT` with `--pcf FILE`, `--seed N` and `--rounds N`: fabric, netlist, constraints, seed, the
    /// number of rounds, and the implementation.
    Map(Name, Name, Option<Name>, u64, u32, Name),
    /// `flow FABRIC BLIF BASE` with the same options and `--reset PORT`: fabric, netlist, constraints, seed, the number of
    /// rounds, the reset port, and what the names of the outputs begin with.
    Flow(Name, Name, Option<Name>, u64, u32, Option<Name>, Name),
    /// `bits FABRIC FASM OUT`: the bitstream of a list of features.
    Bits(Name, Name, Name),
    /// `features FABRIC BIT OUT`: the features that a bitstream spells.
    Features(Name, Name, Name),
    /// `simulate VERILOG BIT STATE STIM TRACE` with `--order SEED`: what a text shows, loaded with a bitstream, in the state of its
    /// flip-flops and with a stimulus, as a trace; with a seed its points are activated one by one, in the order that it draws.
    Simulate(Name, Name, Name, Name, Option<u64>, Name),
    /// `partial FABRIC IMPL FASM FIRST LAST OUT`: the bitstream that gives the columns from FIRST to LAST new content while the rest
    /// of the fabric runs on. The names are those of the fabric, of the implementation that runs and of the features of the new
    /// content; behind them come the two columns, and the bitstream.
    Partial(Name, Name, Name, u32, u32, Name),
    /// `timing FABRIC BLIF IMPL OUT` with `--pcf FILE`: fabric, netlist, constraints and implementation, and the longest walk of
    /// the implementation.
    Timing(Name, Name, Option<Name>, Name, Name),
    /// `serial FABRIC OUT`: the text of a fabric that is loaded bit by bit.
    Serial(Name, Name),
    /// `sample N SEED`: a fabric and a design that are made of a size and a seed, run from the files to a trace, and summed up.
    Sample(usize, u64),
}
