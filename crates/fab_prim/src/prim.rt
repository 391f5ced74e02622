//! What a primitive is.

ghost use Rattle.std.specs.Prelude.{◌≡◌, IfOk};
ghost use Rattle.fab_kinds.specs.declared.kind.Kind.{Kind};
ghost use Rattle.fab_syntax.specs.Plain.{plain_module};
ghost use Rattle.fab_prim.specs.Modules.{module_of_kind};
ghost use Rattle.fab_prim.specs.Works.{PrimitiveWorks};

use fab_base::Memory;
use fab_kinds::Kind;
use fab_syntax::Module;
use std::alloc::Global;

/// A primitive of the fabric: a kind of BEL and its module, which behaves as the kind says.
pub trait Prim {
    ghost kind_of: { Self → Kind };

    /// Its kind.
    fn kind(&self) -> Kind
        ensures { result ≡ kind_of self.now };

    /// Its module.
    fn module(&self, alloc: Global) -> Result<Module, Memory>
        ensures module { IfOk result (λ m. plain_module m ≡ module_of_kind (kind_of self.now)) }
        ensures works { IfOk result (λ m. PrimitiveWorks (kind_of self.now) (plain_module m)) };

    /// Its law: wherever the module of its kind stands in a text, in each assignment that is settled on the instance's own points the
    /// output pins, what the flip-flop takes and, of a pad, `I_top` and `T_top` are what the kind says.
    fn works(&self)
        ensures { PrimitiveWorks (kind_of self.now) (module_of_kind (kind_of self.now)) };
}
