//! Ternary solutions of a Verilog text: what is known of its points where some inputs, flip-flops and latches are not known. Each function does
//! nothing: its contract is a law.
#![tactic(auto)]

ghost use Rattle.fab_solutions_laws.specs.Laws.{DemandedIsLeast, DriversFit, DriversGrow, GivenIsShown, LeastSolutionsAgree, LeastSolutionsExist, ValuesGrow};

/// Where all inputs and all held values are known, a driver gives its point what `tern_shown` says.
pub fn given_is_shown()
    ensures { GivenIsShown }
{}

/// What is known of the value of an expression stays known where more is known of its names.
pub fn values_grow()
    ensures { ValuesGrow }
{}

/// What is known of what a driver gives its point stays known where more is known of inputs, held values and points.
pub fn drivers_grow()
    ensures grow { DriversGrow }
    ensures fit { DriversFit }
{}

/// A sound text has one least solution for all inputs and held values.
pub fn least_solutions()
    ensures exist { LeastSolutionsExist }
    ensures agree { LeastSolutionsAgree }
{}

/// Points that suffice for themselves have the least solution's values as soon as what they have is in every solution.
pub fn demanded_is_least<P>()
    ensures { DemandedIsLeast P }
{}
