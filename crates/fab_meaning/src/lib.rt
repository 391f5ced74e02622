//! The meaning of a Verilog text in fab's profile. Most of it is definitions, in specs/: `Value` has the value of an expression, `Points` the
//! points of a text with their drivers, `Settled` the assignments that a text allows, `Runs` ticks and runs, `Reads` which points a driver
//! reads, `Loading` the points that loading sets, `Activation` single steps in any order, `Loaded` those that load nothing, `Ports` the ports
//! that modules of several kinds have, and `Sound` and `Ranked` what the laws ask of names and of sets of points. `laws` has what follows from
//! them.
#![tactic(auto)]

pub use fab_syntax;

pub mod laws;
