//! The pairs of a tile's switch list.

ghost use Rattle.std.specs.Prelude.{◌≡◌, [], IfOk};
ghost use Rattle.std.specs.List.{list_all};
ghost use Rattle.fab_read.specs.Tiles.{is_known, number_pair, pairs_by_number};

use fab_base::{Memory, Name, Reason};
use fab_list_files::{ListState, PairSet};
use fab_model::Pair;
use fab_tables::MatrixNames;
use std::alloc::Global;
use std::marker::Model;

/// A pair by number, where the tile has its output and its input.
fn number_pair(names: &MatrixNames, pair: &(Name, Name)) -> Option<Pair>
    ensures { result ≡ number_pair names.now pair.now }
{
    let output = names.output(pair.0.bytes())?;
    let input = names.input(pair.1.bytes())?;
    Some(Pair { output, input })
}

fn is_known(names: &MatrixNames, pair: &(Name, Name)) -> bool
    ensures { result ≡ is_known names.now pair.now }
{
    number_pair(names, pair).is_some()
}

fn are_known(names: &MatrixNames, pairs: &[(Name, Name)]) -> bool
    ensures { result ≡ list_all (is_known names.now) pairs.now }
{
    pairs.iter().all(|pair| is_known(names, pair))
}

/// Pairs by number.
pub fn pairs_by_number(
    alloc: Global,
    names: &MatrixNames,
    pairs: &[(Name, Name)],
) -> Result<Vec<Pair>, Memory>
    ensures { IfOk result (λ found. found.items ≡ pairs_by_number names.now pairs.now) }
{
    Ok(
        pairs
            .iter()
            .filter_map(|pair| number_pair(names, pair))
            .collect(alloc)?,
    )
}

/// The pairs so far, whose names the tile has.
#[derive(Drop)]
pub struct TilePairs<'n, 't> {
    names: &'n MatrixNames<'t>,
    pairs: PairSet,
}

impl<'n, 't> Model for TilePairs<'n, 't> {
    ghost use Rattle.fab_read.specs.inner.Following.{KnownPairs};

    ghost Value = { KnownPairs };

    ghost view = { λ known. record { tile = known.names.now; pairs = known.pairs } };
}

impl<'n, 't> TilePairs<'n, 't> {
    /// No pairs.
    pub fn new(alloc: Global, names: &'n MatrixNames<'t>) -> TilePairs<'n, 't>
        ensures { result ≡ record { tile = names.now; pairs = [] } }
    {
        TilePairs {
            names,
            pairs: PairSet::new(alloc),
        }
    }

    /// The pairs.
    pub fn into_pairs(self, alloc: Global) -> Result<Vec<(Name, Name)>, Memory>
        ensures { IfOk result (λ pairs. pairs.items ≡ self.entry.pairs) }
    {
        self.pairs.into_pairs(alloc)
    }
}

impl<'n, 't> ListState for TilePairs<'n, 't> {
    ghost use Rattle.fab_read.specs.Tiles.{known_in};

    ghost known = { λ known. known_in known.tile };

    ghost pairs = { λ known. known.pairs };

    fn judge(&self, _: Global, new: &[(Name, Name)]) -> Result<Option<Reason>, Memory> {
        if are_known(self.names, new) {
            Ok(None)
        } else {
            Ok(Some(Reason::UnknownName))
        }
    }

    fn add(&mut self, _: Global, new: Vec<(Name, Name)>) -> Result<(), Memory> {
        self.pairs.add_all(new)
    }
}
