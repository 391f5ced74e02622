//! Of a mapping no edge enters the pin T of a pad on which no port stands. The function does nothing: its contract is the law.
#![tactic(auto)]

ghost use Rattle.fab_idle_pads_laws.specs.Idle.{MappingsLeaveIdlePads};

/// The trees of a mapping lead to required sinks alone, and T of a pad without a port is none.
pub fn mappings_leave_idle_pads()
    ensures { MappingsLeaveIdlePads }
{}
