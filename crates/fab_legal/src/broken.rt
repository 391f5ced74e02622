//! What a check answers for an implementation that is not legal.

ghost use Rattle.std.specs.Prelude.{◌≡◌};
ghost use Rattle.fab_legal.specs.declared.broken.CheckFault.TheVariants as faults;

use fab_base::{Fault, Memory, Name};

/// A broken rule, and the first item that breaks it: rules 1 to 9 are those of an implementation, those from 10 on of features.
#[derive(Debug, Drop)]
pub struct Broken {
    pub rule: u8,
    /// A cell as `c5`, a site as `X1Y0.A`, a port, a wire as `X1Y0/LA_I0`, or a net as `zero`, `one`, `in a` or `cell c0`.
    pub item: Name,
}

/// Why a check gives no legal implementation.
#[derive(Debug, Drop)]
pub enum CheckFault {
    Broken(Broken),
    /// Memory was refused.
    Memory,
}

impl From<Memory> for CheckFault {
    ghost use Rattle.fab_legal.specs.declared.broken.CheckFault.TheVariants as faults;

    ghost from_gives = { λ memory fault. fault ≡ faults.Memory };

    fn from(_: Memory) -> CheckFault {
        CheckFault::Memory
    }
}

impl From<CheckFault> for Fault {
    ghost use Rattle.fab_legal.specs.Broken.{fault_of};

    ghost from_gives = { λ check fault. fault ≡ fault_of check };

    fn from(fault: CheckFault) -> Fault {
        match fault {
            CheckFault::Broken(broken) => Fault::Illegal(broken.rule, broken.item),
            CheckFault::Memory => Fault::Memory,
        }
    }
}

/// The fault of a broken rule.
pub fn broken_by(rule: u8, item: Name) -> CheckFault
    ensures { result ≡ faults.Broken (record { rule = rule; item = item }) }
{
    CheckFault::Broken(Broken { rule, item })
}
