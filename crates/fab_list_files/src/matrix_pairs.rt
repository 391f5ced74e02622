//! The pairs of the command `matrix`: no name is an output and an input.

ghost use Rattle.std.specs.Prelude.{◌≡◌, ◌∷◌, ◌++◌, ◌||◌, [], ℕ, IfOk, OnOk, List};
ghost use Rattle.std.specs.List.{list_any};
ghost use Rattle.std.specs.Str.{bytes_eq};
ghost use Rattle.fab_tables.specs.Lists.{Pair};
ghost use Rattle.fab_bits.specs.Keys.{key_names};
ghost use Rattle.fab_list_files.specs.Keys.{crosses_sides, HasSides};
ghost use Rattle.fab_list_files.specs.Sides.{crosses, has_input, has_output};

use crate::listing::ListState;
use crate::pair_set::PairSet;
use fab_base::{Memory, Name, Reason};
use indexmap::IndexSet;
use std::alloc::Global;
use std::marker::Model;
use std::mem;

/// So many pairs are compared each with each.
const FEW_PAIRS: usize = 8;

/// The names on the two sides of some pairs.
#[derive(Drop)]
struct Sides {
    outputs: IndexSet<Vec<u8>>,
    inputs: IndexSet<Vec<u8>>,
}

impl Model for Sides {
    ghost use Rattle.fab_bits.specs.Keys.{key_names};
    ghost use Rattle.fab_list_files.specs.Keys.{PlainSides};

    ghost Value = { PlainSides };

    ghost view = { λ sides. record { outputs = key_names sides.outputs.keys; inputs = key_names sides.inputs.keys } };
}

fn has_name(names: &IndexSet<Vec<u8>>, name: &Name) -> bool
    ensures { result ≡ list_any (bytes_eq name.now) (key_names names.now.keys) }
{
    names.contains(name.bytes())
}

/// Adds a name to a set, and copies it only where it is new.
fn add_name(names: &mut IndexSet<Vec<u8>>, alloc: Global, name: &Name) -> Result<(), Memory>
    ensures { OnOk result ((other : List ℕ) → list_any (bytes_eq other) (key_names names.new.keys)
        ≡ (list_any (bytes_eq other) (key_names names.old.keys) || bytes_eq other name.now)) }
{
    if has_name(names, name) {
        return Ok(());
    }
    names.insert(name.copy(alloc)?.into_vec())?;
    Ok(())
}

impl Sides {
    fn new(alloc: Global) -> Sides
        ensures { HasSides result [] }
    {
        Sides {
            outputs: IndexSet::new(alloc),
            inputs: IndexSet::new(alloc),
        }
    }

    fn add(&mut self, alloc: Global, pair: &(Name, Name)) -> Result<(), Memory>
        ensures { (pairs : List Pair) → HasSides self.old pairs → OnOk result (HasSides self.new (pairs ++ pair.now ∷ [])) }
    {
        let (output, input) = pair;
        add_name(&mut self.outputs, alloc, output)?;
        add_name(&mut self.inputs, alloc, input)?;
        Ok(())
    }

    fn add_all(&mut self, alloc: Global, new: &[(Name, Name)]) -> Result<(), Memory>
        ensures { (pairs : List Pair) → HasSides self.old pairs → OnOk result (HasSides self.new (pairs ++ new.now)) }
    {
        for pair in new {
            self.add(alloc, pair)?;
        }
        Ok(())
    }

    /// Whether the output of a pair is an input here, or its input an output.
    fn crosses(&self, pair: &(Name, Name)) -> bool
        ensures { result ≡ crosses_sides self.now pair.now }
    {
        has_name(&self.inputs, &pair.0) || has_name(&self.outputs, &pair.1)
    }
}

/// Whether some of the new pairs crosses pairs of which these are the sides.
fn any_crosses(sides: &Sides, new: &[(Name, Name)]) -> bool
    ensures { result ≡ list_any (crosses_sides sides.now) new.now }
{
    new.iter().any(|pair| sides.crosses(pair))
}

fn has_output(pairs: &[(Name, Name)], name: &[u8]) -> bool
    ensures { result ≡ has_output pairs.now name.now }
{
    pairs.iter().any(|pair| name == pair.0.bytes())
}

fn has_input(pairs: &[(Name, Name)], name: &[u8]) -> bool
    ensures { result ≡ has_input pairs.now name.now }
{
    pairs.iter().any(|pair| name == pair.1.bytes())
}

fn crosses(pairs: &[(Name, Name)], pair: &(Name, Name)) -> bool
    ensures { result ≡ crosses pairs.now pair.now }
{
    has_input(pairs, pair.0.bytes()) || has_output(pairs, pair.1.bytes())
}

/// Whether some of the new pairs crosses another of them. Most rows have one pair, for which it takes no sets.
fn cross_one_another(alloc: Global, new: &[(Name, Name)]) -> Result<bool, Memory>
    ensures { IfOk result (λ any. any ≡ list_any (crosses new.now) new.now) }
{
    if new.len() <= FEW_PAIRS {
        return Ok(new.iter().any(|pair| crosses(new, pair)));
    }
    let mut fresh = Sides::new(alloc);
    fresh.add_all(alloc, new)?;
    Ok(any_crosses(&fresh, new))
}

/// The pairs so far, and the names on their two sides.
#[derive(Drop)]
pub struct MatrixPairs {
    pairs: PairSet,
    sides: Sides,
}

impl Model for MatrixPairs {
    ghost use Rattle.std.specs.Prelude.{List};
    ghost use Rattle.fab_tables.specs.Lists.{Pair};
    ghost use Rattle.fab_list_files.specs.Keys.{HasSides};

    ghost Value = { List Pair };

    ghost view = { λ matrix. matrix.pairs };

    ghost invariant = { λ matrix. HasSides matrix.sides matrix.pairs };
}

impl MatrixPairs {
    /// No pairs.
    pub fn new(alloc: Global) -> MatrixPairs
        ensures { result ≡ [] }
    {
        MatrixPairs {
            pairs: PairSet::new(alloc),
            sides: Sides::new(alloc),
        }
    }

    /// The pairs.
    pub fn into_pairs(self, alloc: Global) -> Result<Vec<(Name, Name)>, Memory>
        ensures { IfOk result (λ pairs. pairs.items ≡ self) }
    {
        self.pairs.into_pairs(alloc)
    }
}

impl ListState for MatrixPairs {
    ghost use Rattle.fab_list_files.specs.Sides.{on_both_sides};

    ghost known = { λ _. on_both_sides };

    ghost pairs = { λ matrix. matrix };

    fn judge(&self, alloc: Global, new: &[(Name, Name)]) -> Result<Option<Reason>, Memory> {
        if any_crosses(&self.sides, new) || cross_one_another(alloc, new)? {
            return Ok(Some(Reason::BothSides));
        }
        Ok(None)
    }

    fn add(&mut self, alloc: Global, new: Vec<(Name, Name)>) -> Result<(), Memory> {
        let MatrixPairs {
            mut pairs,
            mut sides,
        } = mem::replace(self, MatrixPairs::new(alloc));
        sides.add_all(alloc, &new)?;
        pairs.add_all(new)?;
        *self = MatrixPairs { pairs, sides };
        Ok(())
    }
}
