//! FASM: the features of a fabric's configuration as lines of text, read and printed.
#![tactic(auto)]

mod address;
mod feature;
mod laws;
mod leading;
mod limbs;
mod line;
mod literal;
mod numbers;
mod parts;
mod printing;
mod reading;
mod value;

pub use feature::Feature;
pub use laws::lines_are_their_parts;
pub use parts::parted;
pub use printing::print_fasm;
pub use reading::read_fasm;
