//! What is left of faults where nothing is refused.

ghost use Rattle.std.specs.Prelude.{◌≡◌};
ghost use Rattle.fab_base.specs.declared.fault.Fault.TheVariants as faults;

use fab_base::{Fault, Memory};

/// Want of memory, which is all that a command may end with that refuses nothing.
pub fn only_memory(fault: Fault) -> Memory
    requires { fault ≡ faults.Memory }
{
    match fault {
        Fault::Memory => Memory,
        _ => unreachable!(),
    }
}
