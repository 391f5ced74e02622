//! The expressions of a text, each compiled when it is met first.

ghost use Rattle.std.specs.Prelude.{◌≡◌, ◌≢◌, ℕ, ◌<◌, ◌++◌, [], ◌∷◌, length, slice_get, slice_set, OnOk, IfOk, IfSome, IfNone};
ghost use Rattle.fab_syntax.specs.Plain.{PlainExpr, plain_text};
ghost use Rattle.fab_values.specs.Declarations.{declarations};
ghost use Rattle.fab_values.specs.Evaluation.{IsFit};
ghost use Rattle.fab_equations.specs.Instances.{Instance, expressions, instances};
ghost use Rattle.fab_equations.specs.Numbering.{IsInstanceOfNumber};
ghost use Rattle.fab_equations.specs.Tables.{IsExpression};
ghost use Rattle.fab_equations.specs.Equations.{SourceFits};
ghost use Rattle.fab_wiring.specs.inner.Trees.{AreTrees, AreKept, HasSource, IsMade, IsTreeFor};

use fab_base::Memory;
use fab_compiled::laws::compiled_values;
use fab_compiled::{Compiled, Tree, compile};
use fab_equations::{Equations, Source as MeantSource};
use fab_network::Source;
use std::alloc::Global;

/// A compiled expression: the number of the module over whose names it is, and of its tree. An expression stands in one module alone, but no contract
/// of `Equations` says so; so the module is kept.
#[derive(Clone, Copy)]
pub struct Known {
    pub module: u32,
    pub tree: u32,
}

/// The trees so far, and for each expression of the text what is known of it.
#[derive(Drop)]
pub struct Trees {
    pub known: Vec<Option<Known>>,
    pub trees: Vec<Tree>,
}

impl Trees {
    /// No trees yet, for the expressions of a text.
    pub fn new(alloc: Global, equations: &Equations) -> Result<Trees, Memory>
        ensures { IfOk result (λ made. AreTrees (plain_text equations.now) made) }
    {
        Ok(Trees {
            known: vec![in alloc; None; equations.expressions()]?,
            trees: Vec::new(alloc),
        })
    }

    /// A source over places for one over names. Its expression is compiled unless it has been for another instance of the module.
    pub fn source(
        &mut self,
        alloc: Global,
        equations: &Equations,
        meant: MeantSource,
    ) -> Result<Source, Memory>
        requires trees { AreTrees (plain_text equations.now) self.old }
        requires there { HasSource (plain_text equations.now) meant }
        requires fits { SourceFits (plain_text equations.now) meant }
        ensures trees { OnOk result (AreTrees (plain_text equations.now) self.new) }
        ensures kept { OnOk result (AreKept self.old.trees.items self.new.trees.items) }
        ensures made { IfOk result (λ made. IsMade (plain_text equations.now) self.new.trees.items meant made) }
    {
        equations.text_is_sound();
        compiled_values();
        let tree = self.tree(alloc, equations, meant.instance, meant.expr)?;
        Ok(Source {
            tree,
            first: equations.points_of(meant.instance).start,
            bit: meant.bit,
        })
    }

    // The tree of an expression over the names of an instance.
    fn tree(
        &mut self,
        alloc: Global,
        equations: &Equations,
        instance: u32,
        expr: u32,
    ) -> Result<u32, Memory>
        requires trees { AreTrees (plain_text equations.now) self.old }
        requires instance { instance < length (instances (plain_text equations.now)) }
        requires expr { expr < length (expressions (plain_text equations.now)) }
        requires fit { (i : Instance) (e : PlainExpr) → IsInstanceOfNumber (plain_text equations.now) instance i → IsExpression (plain_text equations.now) expr e → IsFit (declarations i.here) e }
        ensures trees { OnOk result (AreTrees (plain_text equations.now) self.new) }
        ensures kept { OnOk result (AreKept self.old.trees.items self.new.trees.items) }
        ensures tree { IfOk result (λ tree. (i : Instance) → IsInstanceOfNumber (plain_text equations.now) instance i → IsTreeFor (plain_text equations.now) self.new.trees.items i expr tree) }
    {
        let module = equations.module_of(instance);
        if let Some(tree) = self.find(module, expr) {
            return Ok(tree);
        }
        equations.text_is_sound();
        let Compiled { tree, width: _ } = compile(
            alloc,
            equations,
            instance,
            equations.expr(expr),
        )?;
        self.add(module, expr, Box::into_inner(tree))
    }

    // The tree of an expression over the names of a module, if there is one.
    fn find(&self, module: u32, expr: u32) -> Option<u32>
        requires { expr < length self.now.known.items }
        ensures found { IfSome result (λ tree. slice_get self.now.known.items expr ≡ Some (Some (record { «module» = «module»; tree = tree }))) }
        ensures absent { IfNone result ((tree : ℕ) → slice_get self.now.known.items expr ≢ Some (Some (record { «module» = «module»; tree = tree }))) }
    {
        let known = self.known[expr as usize]?;
        if known.module == module {
            Some(known.tree)
        } else {
            None
        }
    }

    // One more tree, of an expression over the names of a module.
    fn add(&mut self, module: u32, expr: u32, tree: Tree) -> Result<u32, Memory>
        requires { expr < length self.old.known.items }
        ensures known { IfOk result (λ number. self.new.known.items ≡ slice_set self.old.known.items expr (Some (record { «module» = «module»; tree = number }))) }
        ensures trees { OnOk result (self.new.trees.items ≡ self.old.trees.items ++ tree ∷ []) }
        ensures number { IfOk result (λ number. number ≡ length self.old.trees.items) }
    {
        let number = self.trees.len();
        self.trees.push(tree)?;
        let Ok(number) = u32::try_from(number) else {
            return Err(Memory);
        };
        self.known[expr as usize] = Some(Known {
            module,
            tree: number,
        });
        Ok(number)
    }

    /// The trees alone.
    pub fn into_trees(self) -> Vec<Tree>
        ensures { result ≡ self.trees }
    {
        let Trees { known: _, trees } = self;
        trees
    }
}
