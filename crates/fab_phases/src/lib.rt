//! The two phases of a simulation by numbers: words are loaded one by one, and then the design runs cycle by cycle.
#![tactic(auto)]

mod chain;
mod cycles;
mod enables;
mod flop_groups;
mod gathering;
mod loading;
mod ticks;
mod watched;
mod words;

pub use cycles::{ask_for_run, cycle, cycle_by, feed, open};
pub use gathering::{GatedLatch, loading_of};
pub use loading::{Latch, LoadedFlop, Loading, Run};
pub use words::{load_bits, load_words, offer, offer_bit};
