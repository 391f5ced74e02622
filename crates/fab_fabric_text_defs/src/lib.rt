//! The Verilog text of a fabric, as definitions alone.
#![tactic(auto)]
