//! Which models of a file are used.

ghost use Rattle.std.specs.Prelude.{◌≡◌, ◌<◌, ℕ, [], IfOk, OnOk, IfSome, length, map};
ghost use Rattle.fab_blif_models.specs.Plain.{plain_body, plain_models, plain_statement};
ghost use Rattle.fab_instances.specs.Places.{model_names};
ghost use Rattle.fab_instances.specs.Uses.{MarksUsed, MarksUses, inner_of, marked_all, marked_by};
ghost use Rattle.fab_bits.specs.Keys.{key_names};

use crate::names::place_of;
use fab_base::Memory;
use fab_blif_models::{Body, Model, Statement};
use indexmap::IndexSet;
use std::alloc::Global;

/// The model of which a line is an instance, if it is one of a model of the file.
pub(crate) fn instance_of(places: &IndexSet<Vec<u8>>, body: &Body) -> Option<usize>
    ensures place { result ≡ inner_of (key_names places.now.keys) (plain_body body.now) }
    ensures within { IfSome result (λ place. place < length places.now.keys) }
{
    match body {
        Body::Instance(name, _) => place_of(places, name),
        Body::Inputs(_) | Body::Outputs(_) | Body::Clock(_) => None,
        Body::Cover { .. } | Body::Latch { .. } => None,
    }
}

/// Marks the model of which a line is an instance, and puts it on a list where it was not marked.
fn mark_instance(
    places: &IndexSet<Vec<u8>>,
    statement: &Statement,
    marks: &mut [bool],
    todo: &mut Vec<usize>,
) -> Result<(), Memory>
    requires { length marks.old ≡ length places.now.keys }
    ensures { OnOk result (record { marks = marks.new; todo = todo.new.items }
        ≡ marked_by (key_names places.now.keys) (record { marks = marks.old; todo = todo.old.items }) (plain_statement statement.now)) }
{
    match instance_of(places, &statement.body) {
        None => Ok(()),
        Some(place) => {
            if !marks[place] {
                marks[place] = true;
                todo.push(place)?;
            }
            Ok(())
        }
    }
}

/// Marks the models of which a model has instances.
fn mark_instances(
    places: &IndexSet<Vec<u8>>,
    model: &Model,
    marks: &mut [bool],
    todo: &mut Vec<usize>,
) -> Result<(), Memory>
    requires { length marks.old ≡ length places.now.keys }
    ensures { OnOk result (record { marks = marks.new; todo = todo.new.items }
        ≡ marked_all (key_names places.now.keys) (record { marks = marks.old; todo = todo.old.items }) (map plain_statement model.now.statements.items)) }
{
    for statement in &model.statements {
        mark_instance(places, statement, marks, todo)?;
    }
    Ok(())
}

/// The models that a model uses, directly or through others; itself only if it does so.
pub(crate) fn uses(
    alloc: Global,
    models: &[Model],
    places: &IndexSet<Vec<u8>>,
    start: usize,
) -> Result<Vec<bool>, Memory>
    requires start { start < length models.now }
    requires places { key_names places.now.keys ≡ model_names (plain_models models.now) }
    ensures size { IfOk result (λ marks. length marks.items ≡ length models.now) }
    ensures uses { IfOk result (λ marks. MarksUses (plain_models models.now) start marks.items) }
{
    let mut marks = vec![in alloc; false; models.len()]?;
    let mut todo = Vec::new(alloc);
    mark_instances(places, &models[start], &mut marks, &mut todo)?;
    while let Some(place) = todo.pop() {
        mark_instances(places, &models[place], &mut marks, &mut todo)?;
    }
    Ok(marks)
}

/// The first model and those that it uses.
pub(crate) fn used_models(
    alloc: Global,
    models: &[Model],
    places: &IndexSet<Vec<u8>>,
) -> Result<Vec<bool>, Memory>
    requires some { 0 < length models.now }
    requires places { key_names places.now.keys ≡ model_names (plain_models models.now) }
    ensures size { IfOk result (λ used. length used.items ≡ length models.now) }
    ensures used { IfOk result (λ used. MarksUsed (plain_models models.now) used.items) }
{
    let mut used = uses(alloc, models, places, 0)?;
    used[0] = true;
    Ok(used)
}
