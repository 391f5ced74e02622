//! What follows from the definitions alone.

ghost use Rattle.std.specs.Prelude.{◌≡◌, ℕ, List};
ghost use Rattle.fab_base.specs.Report.{number_of};
ghost use Rattle.fab_base.specs.declared.fault.Fault.{Fault};
ghost use Rattle.fab_blif.specs.Blif.{IsBlif, IsContentFault, RefusesBlif, TellOneRefusal};

/// No bytes are both a file with a netlist and refused: whoever reads a refusal knows that there was no netlist to be read.
/// It is so whatever the bound for the inputs of a cover is.
pub fn refused_blif_has_no_netlist()
    ensures { (most : ℕ) (file bytes : List ℕ) (fault : Fault) → RefusesBlif most file bytes fault → ¬ IsBlif most bytes }
{}

/// A file has one first refusal, but that any cycle of covers may be named. So it is refused with one number, and for what
/// stands in it alone: it is malformed, unsupported or over a limit.
pub fn blif_is_refused_once()
    ensures one_refusal { (most : ℕ) (file bytes : List ℕ) (first second : Fault) →
        RefusesBlif most file bytes first → RefusesBlif most file bytes second → TellOneRefusal file bytes first second }
    ensures one_number { (most : ℕ) (file bytes : List ℕ) (first second : Fault) →
        RefusesBlif most file bytes first → RefusesBlif most file bytes second → number_of first ≡ number_of second }
    ensures content { (most : ℕ) (file bytes : List ℕ) (fault : Fault) → RefusesBlif most file bytes fault → IsContentFault fault }
{}
