//! The lines of models, and the least one at which something is found.

ghost use Rattle.std.specs.Prelude.{◌≡◌, ◌++◌, None, false, IfOk, OnOk, length, map, option_map, slice_index_or};
ghost use Rattle.fab_blif_models.specs.Plain.{plain_models, plain_statement};
ghost use Rattle.fab_instances.specs.Uses.{instance_in, lines_before, sooner, soonest_of, unknown_in};
ghost use Rattle.fab_bits.specs.Keys.{key_names};

use crate::names::place_of;
use fab_base::{Memory, Name};
use fab_blif_models::{Body, Model, Statement};
use indexmap::IndexSet;
use std::alloc::Global;

pub(crate) fn is_marked(marks: &[bool], place: usize) -> bool
    ensures { result ≡ slice_index_or marks.now place false }
{
    marks.get(place).copied().unwrap_or(false)
}

fn push_lines<'a>(model: &'a Model, lines: &mut Vec<&'a Statement>) -> Result<(), Memory>
    ensures { OnOk result (map (λ line. plain_statement line.now) lines.new.items
        ≡ map (λ line. plain_statement line.now) lines.old.items ++ map plain_statement model.now.statements.items) }
{
    for statement in &model.statements {
        lines.push(statement)?;
    }
    Ok(())
}

/// The lines of the models that are marked.
pub(crate) fn lines_of<'a>(
    alloc: Global,
    models: &'a [Model],
    marks: &[bool],
) -> Result<Vec<&'a Statement>, Memory>
    ensures { IfOk result (λ lines. map (λ line. plain_statement line.now) lines.items
        ≡ lines_before (plain_models models.now) marks.now (length models.now)) }
{
    let mut lines = Vec::new(alloc);
    for (place, model) in models.iter().enumerate() {
        if is_marked(marks, place) {
            push_lines(model, &mut lines)?;
        }
    }
    Ok(lines)
}

/// What is found at the lesser line; at one line, what is found first.
pub(crate) fn sooner<'a>(
    first: Option<(u32, &'a Name)>,
    second: Option<(u32, &'a Name)>,
) -> Option<(u32, &'a Name)>
    ensures { option_map (λ found. (found.0, found.1.now)) result
        ≡ sooner (option_map (λ found. (found.0, found.1.now)) first.entry) (option_map (λ found. (found.0, found.1.now)) second.entry) }
{
    match first {
        None => second,
        Some(first) => match second {
            None => Some(first),
            Some(second) => Some(if second.0 < first.0 { second } else { first }),
        },
    }
}

fn unknown_in<'a>(places: &IndexSet<Vec<u8>>, line: &'a Statement) -> Option<(u32, &'a Name)>
    ensures { option_map (λ found. (found.0, found.1.now)) result ≡ unknown_in (key_names places.now.keys) (plain_statement line.now) }
{
    let Body::Instance(name, _) = &line.body else {
        return None;
    };
    match place_of(places, name) {
        None => Some((line.line, name)),
        Some(_) => None,
    }
}

/// The least line that is an instance of a model that the file does not have.
pub(crate) fn soonest_unknown<'a>(
    places: &IndexSet<Vec<u8>>,
    lines: &[&'a Statement],
) -> Option<(u32, &'a Name)>
    ensures { option_map (λ found. (found.0, found.1.now)) result
        ≡ soonest_of (unknown_in (key_names places.now.keys)) None (map (λ line. plain_statement line.now) lines.now) }
{
    let mut found = None;
    for line in lines {
        found = sooner(found, unknown_in(places, line));
    }
    found
}

fn instance_in<'a>(
    places: &IndexSet<Vec<u8>>,
    place: usize,
    line: &'a Statement,
) -> Option<(u32, &'a Name)>
    ensures { option_map (λ found. (found.0, found.1.now)) result ≡ instance_in (key_names places.now.keys) place (plain_statement line.now) }
{
    let Body::Instance(name, _) = &line.body else {
        return None;
    };
    match place_of(places, name) {
        None => None,
        Some(inner) => if inner == place {
            Some((line.line, name))
        } else {
            None
        },
    }
}

/// The least line that is an instance of the model at a place.
pub(crate) fn soonest_instance<'a>(
    places: &IndexSet<Vec<u8>>,
    place: usize,
    lines: &[&'a Statement],
) -> Option<(u32, &'a Name)>
    ensures { option_map (λ found. (found.0, found.1.now)) result
        ≡ soonest_of (instance_in (key_names places.now.keys) place) None (map (λ line. plain_statement line.now) lines.now) }
{
    let mut found = None;
    for line in lines {
        found = sooner(found, instance_in(places, place, line));
    }
    found
}
