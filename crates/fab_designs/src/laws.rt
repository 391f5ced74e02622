//! What follows from the definitions alone.

ghost use Rattle.std.specs.Prelude.{◌≡◌, ℕ, List, Contains};
ghost use Rattle.fab_base.specs.Report.{number_of};
ghost use Rattle.fab_base.specs.declared.fault.Fault.{Fault as Refusal};
ghost use Rattle.fab_desk.specs.Files.{Map};
ghost use Rattle.fab_files.specs.Files.{refuses};
ghost use Rattle.fab_model.specs.Grid.{PlainFabric};
ghost use Rattle.fab_implementation.specs.Plain.{PlainImplementation};
ghost use Rattle.fab_netlist.specs.Plain.{PlainNetlist};
ghost use Rattle.fab_netlist.specs.Packing.{packed};
ghost use Rattle.fab_legal.specs.WellMade.{ports};
ghost use Rattle.fab_state.specs.Constraints.{data_ports};
ghost use Rattle.fab_designs.specs.Designs.{DesignFiles, PlainDesign, SpellsDesign, MeetsDesign};
ghost use Rattle.fab_designs.specs.Implementations.{ReadsImplementation, MeetsImplementation};

/// Files spell at most one design, and all first refusals of them have one status number. There may be several, since a
/// cycle of covers may be named in more than one way.
pub fn designs_are_spelled_once()
    ensures one_value { (files : Map) (names : DesignFiles) (first second : PlainDesign) → SpellsDesign files names first → SpellsDesign files names second → first ≡ second }
    ensures one_number { (files : Map) (names : DesignFiles) (first second : Refusal)
        → MeetsDesign files names (refuses first) → MeetsDesign files names (refuses second) → number_of first ≡ number_of second }
{}

/// Files that spell a design are not refused.
pub fn spelled_designs_are_not_refused()
    ensures { (files : Map) (names : DesignFiles) (design : PlainDesign) (fault : Refusal) → SpellsDesign files names design → MeetsDesign files names (refuses fault) → ⊥ }
{}

/// A file spells at most one implementation on a fabric, and has at most one first refusal.
pub fn implementations_are_spelled_once()
    ensures one_value { (files : Map) (file : List ℕ) (fabric : PlainFabric) (first second : PlainImplementation)
        → ReadsImplementation files file fabric first → ReadsImplementation files file fabric second → first ≡ second }
    ensures one_refusal { (files : Map) (file : List ℕ) (fabric : PlainFabric) (first second : Refusal)
        → MeetsImplementation files file fabric (refuses first) → MeetsImplementation files file fabric (refuses second) → first ≡ second }
{}

/// A file that spells an implementation is not refused.
pub fn spelled_implementations_are_not_refused()
    ensures { (files : Map) (file : List ℕ) (fabric : PlainFabric) (implementation : PlainImplementation) (fault : Refusal)
        → ReadsImplementation files file fabric implementation → MeetsImplementation files file fabric (refuses fault) → ⊥ }
{}

/// The data ports of a netlist, which alone its constraints name, are ports of its packed design.
pub fn data_ports_are_packed()
    ensures { (netlist : PlainNetlist) (port : List ℕ) → Contains (data_ports netlist) port → Contains (ports (packed netlist)) port }
{}
