//! A walk of least price from a net's tree, or from one of its roots, to one of several goals.
ghost use Rattle.std.specs.Prelude.{◌≡◌, ℕ, ◌+◌, ◌<◌, ◌≤◌, ◌||◌, true, false, ◌++◌, IsTrue, OnOk, IfOk, IfSome, IfNone};
ghost use Rattle.std.specs.Bool.{OnTrue, OnFalse};
ghost use Rattle.std.specs.List.{All, Contains};
ghost use Rattle.fab_astar.specs.Walks.{has, AddsLeast, HasNoWalk};
ghost use Rattle.fab_astar.specs.Scene.{IsScene, IsGraph, IsBound, ArePrices, left, scene_of};
ghost use Rattle.fab_astar.specs.State.{IsShaped, IsSeen, AreTraced, IsWalkedBack};
ghost use Rattle.fab_astar.specs.Tables.{state_of, count_of, price_of, prices, counts, is_held, AreTables, IsKept};

use crate::explore::{due_by, explore, left, seed};
use crate::field::Field;
use crate::tables::Tables;
use fab_base::Memory;

/// The first goal that the tree has.
fn goal_in_tree(tables: &Tables, goals: &[u32]) -> Option<u32>
    requires { All (λ w. w < count_of tables.now) goals.now }
    ensures goal { IfSome result (Contains goals.now) }
    ensures held { IfSome result (λ goal. is_held tables.now goal ≡ true) }
    ensures none { IfNone result (All (λ goal. is_held tables.now goal ≡ false) goals.now) }
{
    for goal in goals {
        if tables.is_held(*goal) {
            return Some(*goal);
        }
    }
    None
}

/// A goal that is a root of price 1, for a net of many roots, where no goal is in the tree.
fn cheap_root(tables: &Tables, roots: &[u32], goals: &[u32]) -> Option<u32>
    requires { All (λ w. w < count_of tables.now) goals.now }
    ensures goal { IfSome result (Contains goals.now) }
    ensures root { IfSome result (Contains roots.now) }
    ensures price { IfSome result (λ goal. price_of tables.now goal ≡ 1) }
{
    if roots.len() < 2 {
        return None;
    }
    for goal in goals {
        if tables.price(*goal) == 1 && roots.binary_search(goal).is_ok() {
            return Some(*goal);
        }
    }
    None
}

/// Where the bound aims, if it is one for walks to these goals.
fn guide_to<F: Field>(field: &F, aim: u32, goals: &[u32]) -> Option<u32>
    requires { All (λ w. w < (F.graph field.now).nodes) goals.now }
    ensures { (goal : ℕ) → Contains goals.now goal → left (F.rest field.now) result goal ≤ 1 }
{
    for goal in goals {
        if field.rest(aim, *goal) > 1 {
            return None;
        }
    }
    Some(aim)
}

/// When a signal from the first root is due where a bound aims, at the soonest.
fn soonest<F: Field>(field: &F, guide: Option<u32>, roots: &[u32]) -> u32
    requires { All (λ w. w < (F.graph field.now).nodes) roots.now }
{
    match roots.first() {
        Some(root) => due_by(field, guide, *root, 0),
        None => 0,
    }
}

/// Appends the walk to a goal that the search reached, the goal first.
fn walk_back<F: Field>(
    _field: &F,
    _guide: Option<u32>,
    tables: &Tables,
    _roots: &[u32],
    goal: u32,
    tree: &mut Vec<u32>,
) -> Result<(), Memory>
    requires scene { IsScene (scene_of (F.graph _field.now) (F.rest _field.now) _guide tree.old.items (prices tables.now)) }
    requires count { count_of tables.now ≡ (F.graph _field.now).nodes }
    requires shape { IsShaped (F.graph _field.now).nodes (state_of tables.now) }
    requires traced { AreTraced (scene_of (F.graph _field.now) (F.rest _field.now) _guide tree.old.items (prices tables.now))
        (tree.old.items ++ _roots.now) (state_of tables.now) }
    requires seen { IsSeen (state_of tables.now) goal }
    ensures { OnOk result (IsWalkedBack (scene_of (F.graph _field.now) (F.rest _field.now) _guide tree.old.items (prices tables.now))
        (tree.old.items ++ _roots.now) (state_of tables.now) goal tree.old.items tree.new.items) }
{
    let mut at = goal;
    'back: loop {
        tree.push(at)?;
        let before = tables.before(at);
        if before == at {
            return Ok(());
        }
        at = before;
    }
}

/// Takes nodes into the tree that grows now.
fn hold_all(tables: &mut Tables, nodes: &[u32])
    requires tables { AreTables tables.old }
    requires nodes { All (λ w. w < count_of tables.old) nodes.now }
    ensures tables { AreTables tables.new }
    ensures count { count_of tables.new ≡ count_of tables.old }
    ensures price { prices tables.new ≡ prices tables.old }
    ensures users { counts tables.new ≡ counts tables.old }
    ensures held { (w : ℕ) → is_held tables.new w ≡ (is_held tables.old w || has nodes.now w) }
{
    for node in nodes {
        tables.hold(*node);
    }
}

/// Seeks a walk and appends it, the goal first; whether there is one.
fn seek<F: Field>(
    field: &F,
    tables: &mut Tables,
    roots: &[u32],
    goals: &[u32],
    aim: u32,
    tree: &mut Vec<u32>,
) -> Result<bool, Memory>
    requires graph { IsGraph (F.graph field.now) }
    requires bound { IsBound (F.graph field.now) (F.rest field.now) }
    requires prices { ArePrices (F.graph field.now).nodes (price_of tables.old) }
    requires tables { AreTables tables.old }
    requires count { count_of tables.old ≡ (F.graph field.now).nodes }
    requires held { (node : ℕ) → is_held tables.old node ≡ has tree.old.items node }
    requires tree { All (λ w. w < (F.graph field.now).nodes) tree.old.items }
    requires roots { All (λ w. w < (F.graph field.now).nodes) roots.now }
    requires goals { All (λ w. w < (F.graph field.now).nodes) goals.now }
    ensures tables { OnOk result (AreTables tables.new) }
    ensures kept { OnOk result (IsKept tables.old tables.new) }
    ensures found { IfOk result (λ found. OnTrue found (AddsLeast (F.graph field.now) roots.now (price_of tables.old) goals.now tree.old.items tree.new.items)) }
    ensures inside { OnOk result (All (λ w. w < (F.graph field.now).nodes) tree.new.items) }
    ensures none { IfOk result (λ found. OnFalse found (HasNoWalk (F.graph field.now) tree.old.items (tree.old.items ++ roots.now) goals.now)) }
    ensures same { IfOk result (λ found. OnFalse found (tree.new.items ≡ tree.old.items)) }
{
    let guide = guide_to(field, aim, goals);
    tables.begin(soonest(field, guide, roots));
    seed(field, guide, tables, tree, &[], tree)?;
    seed(field, guide, tables, tree, tree, roots)?;
    let Some(goal) = explore(field, guide, tables, tree, roots, goals)? else {
        return Ok(false);
    };
    walk_back(field, guide, tables, roots, goal, tree)?;
    Ok(true)
}

/// Appends a least walk to one of the goals, the goal first; whether there is one. Mostly no search is needed: a walk of one node is
/// least where the tree has a goal, and where none of them is in the tree and a root of price 1 is one.
fn reach<F: Field>(
    field: &F,
    tables: &mut Tables,
    roots: &[u32],
    goals: &[u32],
    aim: u32,
    tree: &mut Vec<u32>,
) -> Result<bool, Memory>
    requires graph { IsGraph (F.graph field.now) }
    requires bound { IsBound (F.graph field.now) (F.rest field.now) }
    requires prices { ArePrices (F.graph field.now).nodes (price_of tables.old) }
    requires tables { AreTables tables.old }
    requires count { count_of tables.old ≡ (F.graph field.now).nodes }
    requires held { (node : ℕ) → is_held tables.old node ≡ has tree.old.items node }
    requires tree { All (λ w. w < (F.graph field.now).nodes) tree.old.items }
    requires roots { All (λ w. w < (F.graph field.now).nodes) roots.now }
    requires goals { All (λ w. w < (F.graph field.now).nodes) goals.now }
    ensures tables { OnOk result (AreTables tables.new) }
    ensures kept { OnOk result (IsKept tables.old tables.new) }
    ensures found { IfOk result (λ found. OnTrue found (AddsLeast (F.graph field.now) roots.now (price_of tables.old) goals.now tree.old.items tree.new.items)) }
    ensures inside { OnOk result (All (λ w. w < (F.graph field.now).nodes) tree.new.items) }
    ensures none { IfOk result (λ found. OnFalse found (HasNoWalk (F.graph field.now) tree.old.items (tree.old.items ++ roots.now) goals.now)) }
    ensures same { IfOk result (λ found. OnFalse found (tree.new.items ≡ tree.old.items)) }
{
    if let Some(goal) = goal_in_tree(tables, goals) {
        tree.push(goal)?;
        return Ok(true);
    }
    if let Some(goal) = cheap_root(tables, roots, goals) {
        tree.push(goal)?;
        return Ok(true);
    }
    seek(field, tables, roots, goals, aim, tree)
}

/// Lets a tree grow by a walk of least price to one of the goals, from the tree or one of the roots, with its last node first. The tables
/// hold the nodes of the tree. Answers whether there is such a walk; the number tells where the bound on what is left aims.
pub fn least_walk<F: Field>(
    field: &F,
    tables: &mut Tables,
    roots: &[u32],
    goals: &[u32],
    aim: u32,
    tree: &mut Vec<u32>,
) -> Result<bool, Memory>
    requires graph { IsGraph (F.graph field.now) }
    requires bound { IsBound (F.graph field.now) (F.rest field.now) }
    requires prices { ArePrices (F.graph field.now).nodes (price_of tables.old) }
    requires tables { AreTables tables.old }
    requires count { count_of tables.old ≡ (F.graph field.now).nodes }
    requires held { (node : ℕ) → is_held tables.old node ≡ has tree.old.items node }
    requires tree { All (λ w. w < (F.graph field.now).nodes) tree.old.items }
    requires roots { All (λ w. w < (F.graph field.now).nodes) roots.now }
    requires goals { All (λ w. w < (F.graph field.now).nodes) goals.now }

    ensures tables { OnOk result (AreTables tables.new) }
    ensures count { OnOk result (count_of tables.new ≡ count_of tables.old) }
    ensures price { OnOk result (prices tables.new ≡ prices tables.old) }
    ensures users { OnOk result (counts tables.new ≡ counts tables.old) }
    ensures held { IfOk result (λ found. OnTrue found ((node : ℕ) → is_held tables.new node ≡ has tree.new.items node)) }
    ensures inside { OnOk result (All (λ w. w < (F.graph field.now).nodes) tree.new.items) }

    ensures found { IfOk result (λ found. OnTrue found (AddsLeast (F.graph field.now) roots.now (price_of tables.old) goals.now tree.old.items tree.new.items)) }
    ensures none { IfOk result (λ found. OnFalse found (HasNoWalk (F.graph field.now) tree.old.items (tree.old.items ++ roots.now) goals.now)) }
{
    let from = tree.len();
    if !reach(field, tables, roots, goals, aim, tree)? {
        return Ok(false);
    }
    hold_all(tables, &tree[from..]);
    Ok(true)
}
