//! What follows from the definitions alone.

ghost use Rattle.fab_kinds.specs.declared.kind.Kind.{Kind};
ghost use Rattle.fab_prim.specs.Modules.{module_of_kind};
ghost use Rattle.fab_prim.specs.Works.{PrimitiveWorks};

/// The module of each kind behaves as the kind says, for laws about texts in which it stands.
pub fn primitives_work()
    ensures { (kind : Kind) → PrimitiveWorks kind (module_of_kind kind) }
{}
