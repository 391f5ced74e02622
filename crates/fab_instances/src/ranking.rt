//! An order of used models, and a rank for each, by Tarjan's search for strongly connected components. Nothing is proved of
//! the search: what rests on the order and the ranks is tried first.
//!
//! In the graph of models each leads to those of which it has instances. Models that use one another make a strongly connected
//! component; a model that does not use itself makes one alone. Tarjan's search finds components in reverse topological order.

ghost use Rattle.std.specs.Prelude.{◌≡◌, ◌<◌, ℕ, IfOk, slice_index, length};

use crate::uses::instance_of;
use fab_base::Memory;
use fab_blif_models::Model;
use indexmap::IndexSet;
use std::alloc::Global;

/// A model, and the number of its component, by the order in which they are found.
#[derive(Clone, Copy)]
pub(crate) struct Member {
    pub place: usize,
    component: usize,
}

/// An order of used models, and their ranks.
#[derive(Drop)]
pub(crate) struct Ranking {
    /// Used models, component by component, each component behind those that it has instances of.
    pub order: Vec<Member>,
    /// For each model a rank, which is 0 where it is not used: one for a component, and lower than those of the components
    /// that it has instances of.
    pub ranks: Vec<usize>,
}

/// A model whose lines are gone through.
#[derive(Clone, Copy)]
struct Visit {
    place: usize,
    /// Tarjan's index: how many models were open when it was met, with itself.
    index: usize,
    /// The line that comes next.
    next: usize,
}

/// A search of the models that the first one uses.
#[derive(Drop)]
struct Search {
    /// Models from the first one on, each of which has an instance of the next one.
    path: Vec<Visit>,
    /// Tarjan's stack: models that were met, whose components are not known yet.
    open: Vec<usize>,
    /// For each model its low link: the least index of an open model that it is known to use, or its own; 0 where it was not
    /// met, and the greatest number where its component is known.
    low_links: Vec<usize>,
    /// Models whose components are known.
    order: Vec<Member>,
    /// How many components are known.
    components: usize,
}

fn number_at(numbers: &[usize], place: usize) -> usize {
    numbers.get(place).copied().unwrap_or(usize::MAX)
}

fn set_number(numbers: &mut [usize], place: usize, number: usize) {
    if let Some(slot) = numbers.get_mut(place) {
        *slot = number;
    }
}

impl Search {
    fn new(alloc: Global, count: usize) -> Result<Search, Memory> {
        Ok(Search {
            path: Vec::new(alloc),
            open: Vec::new(alloc),
            low_links: vec![in alloc; 0; count]?,
            order: Vec::new(alloc),
            components: 0,
        })
    }

    /// Begins with the lines of a model.
    fn meet(&mut self, place: usize) -> Result<(), Memory> {
        self.open.push(place)?;
        let index = self.open.len();
        set_number(&mut self.low_links, place, index);
        self.path.push(Visit {
            place,
            index,
            next: 0,
        })?;
        Ok(())
    }

    /// Goes on with the next line of a model.
    fn go_on(
        &mut self,
        models: &[Model],
        places: &IndexSet<Vec<u8>>,
        visit: Visit,
    ) -> Result<(), Memory> {
        let Some(model) = models.get(visit.place) else {
            return Ok(());
        };
        let Some(line) = model.statements.get(visit.next) else {
            return self.leave(visit);
        };
        if let Some(inner) = instance_of(places, &line.body) {
            let low_link = number_at(&self.low_links, inner);
            if low_link == 0 {
                // The line is looked at again when the model is done.
                self.path.push(visit)?;
                return self.meet(inner);
            }
            let low_link = number_at(&self.low_links, visit.place).min(low_link);
            set_number(&mut self.low_links, visit.place, low_link);
        }
        self.path.push(Visit {
            next: visit.next + 1,
            ..visit
        })?;
        Ok(())
    }

    /// Ends with a model. Where it uses no open model that was met before it, it is the root of a component: the open models
    /// from it on.
    fn leave(&mut self, visit: Visit) -> Result<(), Memory> {
        if number_at(&self.low_links, visit.place) < visit.index {
            return Ok(());
        }
        let component = self.components;
        while let Some(place) = self.open.pop() {
            set_number(&mut self.low_links, place, usize::MAX);
            self.order.push(Member { place, component })?;
            if place == visit.place {
                break;
            }
        }
        self.components = component.saturating_add(1);
        Ok(())
    }
}

/// At most so many steps a search takes: one for each line and each model, and one more for a model that a line meets.
fn most_steps(models: &[Model]) -> usize {
    let mut steps = 0usize;
    for model in models {
        steps = steps
            .saturating_add(model.statements.len())
            .saturating_add(2);
    }
    steps
}

/// The ranks of so many models.
fn ranks_of(alloc: Global, count: usize, order: &[Member]) -> Result<Vec<usize>, Memory>
    requires some { 0 < count }
    ensures { IfOk result (λ ranks. (place : ℕ) → slice_index ranks.items place < count) }
{
    let mut ranks = vec![in alloc; 0; count]?;
    for member in order {
        if let Some(slot) = ranks.get_mut(member.place) {
            *slot = count.saturating_sub(member.component.saturating_add(1));
        }
    }
    Ok(ranks)
}

/// Ranks used models.
pub(crate) fn ranking_of(
    alloc: Global,
    models: &[Model],
    places: &IndexSet<Vec<u8>>,
) -> Result<Ranking, Memory>
    requires some { 0 < length models.now }
    ensures { IfOk result (λ ranking. (place : ℕ) → slice_index ranking.ranks.items place < length models.now) }
{
    let mut search = Search::new(alloc, models.len())?;
    search.meet(0)?;
    for _step in 0..most_steps(models) {
        let Some(visit) = search.path.pop() else {
            break;
        };
        search.go_on(models, places, visit)?;
    }
    let order = search.order;
    let ranks = ranks_of(alloc, models.len(), &order)?;
    Ok(Ranking { order, ranks })
}
