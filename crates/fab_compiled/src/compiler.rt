//! Expressions compiled: places for names.

ghost use Rattle.std.specs.Prelude.{◌≡◌, ◌+◌, ◌^◌, ◌<◌, ℕ, List, [], length, map, IfOk, Some};
ghost use Rattle.fab_syntax.specs.Plain.{concatenation, more, none, plain_expr, plain_exprs, plain_text, PlainExpr, PlainExprs};
ghost use Rattle.fab_values.specs.Declarations.{declarations, found_in, Declaration};
ghost use Rattle.fab_values.specs.Evaluation.{IsFit, AreFit};
ghost use Rattle.fab_values.specs.declared.names.Local.{Local};
ghost use Rattle.fab_equations.specs.Instances.{Instance, instances};
ghost use Rattle.fab_equations.specs.Numbering.{IsInstanceOfNumber};
ghost use Rattle.fab_compiled.specs.Compiling.{IsCompiled, AreCompiled, IsPlaceOf, IsJoined, IsOperation, tree_is_constant};
ghost use Rattle.fab_compiled.specs.inner.Joining.{AreJoined};

use crate::tree::Tree;
use fab_base::Memory;
use fab_equations::Equations;
use fab_syntax::{Expr, Op, Word};
use fab_values::bits_of_shape;
use std::alloc::Global;

/// How many parts of a concatenation make a group.
const GROUP: usize = 128;

/// A compiled expression, and how many bits it has.
#[derive(Drop)]
pub struct Compiled {
    pub tree: Box<Tree>,
    pub width: u64,
}

/// Where the bits of a name begin among the points of an instance, and how many they are.
#[derive(Clone, Copy)]
struct Place {
    first: u32,
    count: u32,
}

/// An expression over the names of an instance with their places in it. Want of memory is also the answer where its width does not fit 64 bits.
#[cycle(compile)]
pub fn compile(
    alloc: Global,
    equations: &Equations,
    instance: u32,
    expr: &Expr,
) -> Result<Compiled, Memory>
    requires instance { instance < length (instances (plain_text equations.now)) }
    requires fit { (i : Instance) → IsInstanceOfNumber (plain_text equations.now) instance i → IsFit (declarations i.here) (plain_expr expr.now) }
    ensures { IfOk result (λ made. (i : Instance) → IsInstanceOfNumber (plain_text equations.now) instance i → IsCompiled (declarations i.here) (plain_expr expr.now) made.tree.value made.width) }
{
    match expr {
        Expr::Const(word) => constant(alloc, word),
        Expr::Var(name) => {
            let place = place_of(equations, instance, name.bytes());
            boxed(
                alloc,
                Tree::Bits(place.first, place.count),
                u64::from(place.count),
            )
        }
        Expr::Pick(name, index) => {
            let place = place_of(equations, instance, name.bytes());
            let index = compile(alloc, equations, instance, index)?;
            boxed(
                alloc,
                Tree::Pick(place.first, index.width as u32, index.tree),
                1,
            )
        }
        Expr::Part(name, high, low) => {
            let place = place_of(equations, instance, name.bytes());
            let count = *high + 1 - *low;
            boxed(
                alloc,
                Tree::Bits(place.first + *low, count),
                u64::from(count),
            )
        }
        Expr::Cat(parts) => {
            let parts: &[Expr] = parts;
            parts_fit(equations, instance, expr, parts);
            compile_parts(alloc, equations, instance, parts)
        }
        Expr::Not(inner) => {
            let inner = compile(alloc, equations, instance, inner)?;
            boxed(alloc, Tree::Not(inner.tree), inner.width)
        }
        Expr::Two(op, left, right) => {
            let left = compile(alloc, equations, instance, left)?;
            let right = compile(alloc, equations, instance, right)?;
            operation(alloc, *op, left, right)
        }
        Expr::Cond(test, yes, no) => {
            let test = compile(alloc, equations, instance, test)?;
            let yes = compile(alloc, equations, instance, yes)?;
            let no = compile(alloc, equations, instance, no)?;
            boxed(alloc, Tree::Cond(test.tree, yes.tree, no.tree), yes.width)
        }
    }
}

// That the parts of a concatenation are fit where it is.
fn parts_fit(equations: &Equations, instance: u32, expr: &Expr, parts: &[Expr])
    requires fit { (i : Instance) → IsInstanceOfNumber (plain_text equations.now) instance i → IsFit (declarations i.here) (plain_expr expr.now) }
    requires parts { plain_expr expr.now ≡ concatenation (plain_exprs (map plain_expr parts.now)) }
    ensures { (i : Instance) → IsInstanceOfNumber (plain_text equations.now) instance i → AreFit (declarations i.here) (plain_exprs (map plain_expr parts.now)) }
{}

// A concatenation, from its least significant part on.
#[cycle(compile)]
fn compile_parts(
    alloc: Global,
    equations: &Equations,
    instance: u32,
    parts: &[Expr],
) -> Result<Compiled, Memory>
    requires instance { instance < length (instances (plain_text equations.now)) }
    requires fit { (i : Instance) → IsInstanceOfNumber (plain_text equations.now) instance i → AreFit (declarations i.here) (plain_exprs (map plain_expr parts.now)) }
    ensures { IfOk result (λ made. (i : Instance) → IsInstanceOfNumber (plain_text equations.now) instance i →
        AreCompiled (declarations i.here) (plain_exprs (map plain_expr parts.now)) made.tree.value made.width) }
{
    let mut joined = Joined::new(alloc)?;
    let mut end = parts.len();
    while end > 0 {
        end -= 1;
        let high = compile(alloc, equations, instance, &parts[end])?;
        joined = joined.with(alloc, high)?;
    }
    joined.close(alloc)
}

/// Parts of a concatenation that are joined one behind the other. The most significant ones wait in a group, and full groups are joined one behind
/// the other. So the way down to a part passes the parts of its group and the groups above it, and not all parts above it.
#[derive(Drop)]
struct Joined {
    low: Compiled,
    group: Compiled,
    /// How many parts the group has.
    count: usize,
}

impl Joined {
    // No parts.
    fn new(alloc: Global) -> Result<Joined, Memory>
        ensures { IfOk result (λ made. (ds : List Declaration) → AreJoined ds none made.low.tree.value made.low.width made.group.tree.value made.group.width) }
    {
        let low = nothing(alloc)?;
        let group = nothing(alloc)?;
        Ok(Joined {
            low,
            group,
            count: 0,
        })
    }

    // One part more, more significant than the others.
    fn with(self, alloc: Global, high: Compiled) -> Result<Joined, Memory>
        ensures { IfOk result (λ made. (ds : List Declaration) (e : PlainExpr) (es : PlainExprs) →
            AreJoined ds es self.low.tree.value self.low.width self.group.tree.value self.group.width → IsCompiled ds e high.tree.value high.width →
            AreJoined ds (more e es) made.low.tree.value made.low.width made.group.tree.value made.group.width) }
    {
        let group = join(alloc, self.group, high)?;
        let joined = Joined {
            low: self.low,
            group,
            count: self.count.saturating_add(1),
        };
        if joined.count < GROUP {
            Ok(joined)
        } else {
            joined.flush(alloc)
        }
    }

    // The group is joined to those before it.
    fn flush(self, alloc: Global) -> Result<Joined, Memory>
        ensures { IfOk result (λ made. (ds : List Declaration) (es : PlainExprs) →
            AreJoined ds es self.low.tree.value self.low.width self.group.tree.value self.group.width →
            AreJoined ds es made.low.tree.value made.low.width made.group.tree.value made.group.width) }
    {
        let low = join(alloc, self.low, self.group)?;
        let group = nothing(alloc)?;
        Ok(Joined {
            low,
            group,
            count: 0,
        })
    }

    // All parts in one. A group alone stands as it is.
    fn close(self, alloc: Global) -> Result<Compiled, Memory>
        ensures { IfOk result (λ made. (ds : List Declaration) (es : PlainExprs) →
            AreJoined ds es self.low.tree.value self.low.width self.group.tree.value self.group.width → AreCompiled ds es made.tree.value made.width) }
    {
        if self.low.width == 0 {
            Ok(self.group)
        } else {
            join(alloc, self.low, self.group)
        }
    }
}

// No bits.
fn nothing(alloc: Global) -> Result<Compiled, Memory>
    ensures tree { IfOk result (λ made. tree_is_constant [] made.tree.value) }
    ensures width { IfOk result (λ made. made.width ≡ 0) }
{
    boxed(alloc, Tree::Const(Vec::new(alloc)), 0)
}

// Two parts of a concatenation, the less significant one first.
fn join(alloc: Global, low: Compiled, high: Compiled) -> Result<Compiled, Memory>
    ensures { IfOk result (λ made. IsJoined low.tree.value low.width high.tree.value high.width made.tree.value made.width) }
{
    let Some(width) = low.width.checked_add(high.width) else {
        return Err(Memory);
    };
    boxed(alloc, Tree::Cat(low.tree, low.width, high.tree), width)
}

// An operation on two operands.
fn operation(alloc: Global, op: Op, left: Compiled, right: Compiled) -> Result<Compiled, Memory>
    ensures { IfOk result (λ made. IsOperation op left.tree.value left.width right.tree.value made.tree.value made.width) }
{
    match op {
        Op::And => boxed(alloc, Tree::And(left.tree, right.tree), left.width),
        Op::Or => boxed(alloc, Tree::Or(left.tree, right.tree), left.width),
        Op::Xor => boxed(alloc, Tree::Xor(left.tree, right.tree), left.width),
        Op::Equal => boxed(alloc, Tree::Equal(left.width, left.tree, right.tree), 1),
        Op::Minus => boxed(
            alloc,
            Tree::Minus(left.width, left.tree, right.tree),
            left.width,
        ),
    }
}

// A constant.
fn constant(alloc: Global, word: &Word) -> Result<Compiled, Memory>
    ensures tree { IfOk result (λ made. tree_is_constant word.now made.tree.value) }
    ensures width { IfOk result (λ made. made.width ≡ length word.now) }
{
    let bits = word.bits();
    boxed(
        alloc,
        Tree::Const(Vec::from_slice(alloc, bits)?),
        bits.len() as u64,
    )
}

// A tree on the heap, with its width.
fn boxed(alloc: Global, tree: Tree, width: u64) -> Result<Compiled, Memory>
    ensures tree { IfOk result (λ made. made.tree.value ≡ tree) }
    ensures width { IfOk result (λ made. made.width ≡ width) }
{
    let tree = Box::new(alloc, tree)?;
    Ok(Compiled { tree, width })
}

// Where a name of an instance is declared.
fn place_of(equations: &Equations, instance: u32, name: &[u8]) -> Place
    requires instance { instance < length (instances (plain_text equations.now)) }
    requires declared { (i : Instance) → IsInstanceOfNumber (plain_text equations.now) instance i → (local : Local) × (found_in (declarations i.here) name.now ≡ Some local) }
    ensures place { (i : Instance) → IsInstanceOfNumber (plain_text equations.now) instance i → IsPlaceOf (found_in (declarations i.here) name.now) result }
    ensures small { result.first + result.count < 2 ^ 32 }
{
    let Some(declared) = equations.local(instance, name) else {
        unreachable!()
    };
    Place {
        first: declared.first - equations.points_of(instance).start,
        count: bits_of_shape(declared.shape),
    }
}
