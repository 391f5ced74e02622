//! What the lines of a model say, and the models so far.

ghost use Rattle.std.specs.Prelude.{◌≡◌, ◌≤◌, ◌++◌, ◌∷◌, [], true, map, option_map, IfOk, OnOk};
ghost use Rattle.fab_blif_models.specs.inner.Following.{pushed, pushed_row, rowed, with_body, with_cube, with_statements, models_after};
ghost use Rattle.fab_lines.specs.Items.{with_last};
ghost use Rattle.fab_blif_models.specs.Plain.{plain_body, plain_model, plain_models, plain_statement};
ghost use Rattle.fab_blif_models.specs.Spelled.{body_of, buffer_of, control_of, cover_of, initial_of, inner_words, instance_of, latch_of};

use crate::cover::{is_on_set, pattern_of, row_of};
use crate::judging::{has_initial, has_type};
use crate::model::{Body, Model, Statement};
use crate::words::{Kind, names_of, words_from, words_up_to};
use fab_base::{Memory, Name};
use fab_lines::word_at;
use fab_netlist::Cube;
use std::alloc::Global;

fn control_of(alloc: Global, words: &[&[u8]]) -> Result<Option<Name>, Memory>
    ensures { IfOk result (λ name. name ≡ control_of (map (λ w. w.now) words.now)) }
{
    let control = word_at(words, 4);
    if !has_type(words.len()) || control == b"NIL".as_slice() {
        return Ok(None);
    }
    Ok(Some(Name::of(alloc, control)?))
}

fn initial_of(words: &[&[u8]]) -> u8
    ensures { result ≡ initial_of (map (λ w. w.now) words.now) }
{
    if !has_initial(words.len()) {
        return 3;
    }
    match word_at(words, words.len().saturating_sub(1)) {
        [] => 0,
        [digit, ..] => digit.saturating_sub(b'0'),
    }
}

/// The words between the first and the last.
fn inner_words<'a, 'b>(words: &'a [&'b [u8]]) -> &'a [&'b [u8]]
    ensures { map (λ w. w.now) result.now ≡ inner_words (map (λ w. w.now) words.now) }
{
    words_up_to(words_from(words, 1), words.len().saturating_sub(2))
}

fn cover_of(alloc: Global, words: &[&[u8]]) -> Result<Body, Memory>
    ensures { IfOk result (λ body. plain_body body ≡ cover_of (map (λ w. w.now) words.now) true []) }
{
    let inputs = names_of(alloc, inner_words(words))?;
    let output = Name::of(alloc, word_at(words, words.len().saturating_sub(1)))?;
    Ok(Body::Cover {
        inputs,
        output,
        on: true,
        rows: Vec::new(alloc),
    })
}

fn latch_of(alloc: Global, words: &[&[u8]]) -> Result<Body, Memory>
    ensures { IfOk result (λ body. plain_body body ≡ latch_of (map (λ w. w.now) words.now)) }
{
    Ok(Body::Latch {
        input: Name::of(alloc, word_at(words, 1))?,
        output: Name::of(alloc, word_at(words, 2))?,
        control: control_of(alloc, words)?,
        initial: initial_of(words),
    })
}

fn buffer_of(alloc: Global, words: &[&[u8]]) -> Result<Body, Memory>
    ensures { IfOk result (λ body. plain_body body ≡ buffer_of (map (λ w. w.now) words.now)) }
{
    let mut inputs = Vec::new(alloc);
    inputs.push(Name::of(alloc, word_at(words, 1))?)?;
    let output = Name::of(alloc, word_at(words, 2))?;
    let mut rows = Vec::new(alloc);
    rows.push(Cube { care: 1, value: 1 })?;
    Ok(Body::Cover {
        inputs,
        output,
        on: true,
        rows,
    })
}

/// What a line says, a cover as yet without rows.
fn body_of(alloc: Global, kind: Kind, words: &[&[u8]]) -> Result<Option<Body>, Memory>
    ensures { IfOk result (λ body. option_map plain_body body ≡ body_of kind (map (λ w. w.now) words.now) []) }
{
    let body = match kind {
        Kind::Inputs => Body::Inputs(names_of(alloc, words_from(words, 1))?),
        Kind::Outputs => Body::Outputs(names_of(alloc, words_from(words, 1))?),
        Kind::Clock => Body::Clock(Name::of(alloc, word_at(words, 1))?),
        Kind::Names => cover_of(alloc, words)?,
        Kind::Latch => latch_of(alloc, words)?,
        Kind::Instance => instance_of(alloc, words)?,
        Kind::Buffer => buffer_of(alloc, words)?,
        _ => return Ok(None),
    };
    Ok(Some(body))
}

fn instance_of(alloc: Global, words: &[&[u8]]) -> Result<Body, Memory>
    ensures { IfOk result (λ body. plain_body body ≡ instance_of (map (λ w. w.now) words.now)) }
{
    let model = Name::of(alloc, word_at(words, 1))?;
    let joins = names_of(alloc, words_from(words, 2))?;
    Ok(Body::Instance(model, joins))
}

/// Puts a statement at the end of the last model.
fn push_statement(models: &mut Vec<Model>, number: u32, body: Body) -> Result<(), Memory>
    ensures { OnOk result (plain_models models.new.items ≡ pushed number (plain_body body) (plain_models models.old.items)) }
{
    let Some(last) = models.pop() else {
        return Ok(());
    };
    let Model {
        line,
        name,
        mut statements,
    } = last;
    statements.push(Statement { line: number, body })?;
    models.push(Model {
        line,
        name,
        statements,
    })?;
    Ok(())
}

/// What a line says with one row more, where it is a cover.
fn rowed(body: Body, on: bool, row: Cube) -> Result<Body, Memory>
    ensures { IfOk result (λ made. plain_body made ≡ rowed on row (plain_body body)) }
{
    match body {
        Body::Cover {
            inputs,
            output,
            mut rows,
            ..
        } => {
            rows.push(row)?;
            Ok(Body::Cover {
                inputs,
                output,
                on,
                rows,
            })
        }
        other => Ok(other),
    }
}

/// Gives the last statement a row.
fn row_last(statements: &mut Vec<Statement>, on: bool, row: Cube) -> Result<(), Memory>
    ensures { OnOk result (map plain_statement statements.new.items ≡ with_last (with_cube on row) (map plain_statement statements.old.items)) }
{
    let Some(last) = statements.pop() else {
        return Ok(());
    };
    let Statement { line, body } = last;
    let body = rowed(body, on, row)?;
    statements.push(Statement { line, body })?;
    Ok(())
}

/// Gives the last statement of the last model a row.
fn push_row(models: &mut Vec<Model>, on: bool, row: Cube) -> Result<(), Memory>
    ensures { OnOk result (plain_models models.new.items ≡ pushed_row on row (plain_models models.old.items)) }
{
    let Some(last) = models.pop() else {
        return Ok(());
    };
    let Model {
        line,
        name,
        mut statements,
    } = last;
    row_last(&mut statements, on, row)?;
    models.push(Model {
        line,
        name,
        statements,
    })?;
    Ok(())
}

/// Follows a line of this kind that is not refused, where a cover has at most so many inputs, and the rows of the open one
/// are of an on-set or an off-set.
pub fn follow(
    models: &mut Vec<Model>,
    alloc: Global,
    most: usize,
    number: u32,
    on: Option<bool>,
    kind: Kind,
    words: &[&[u8]],
) -> Result<(), Memory>
    requires { most ≤ 16 }
    ensures { OnOk result (plain_models models.new.items ≡ models_after most (plain_models models.old.items) number on kind (map (λ w. w.now) words.now)) }
{
    match kind {
        Kind::Model => push_model(models, alloc, number, word_at(words, 1)),
        Kind::Row => push_row(models, is_on_set(on), row_of(most, pattern_of(words))),
        _ => push_body(models, number, body_of(alloc, kind, words)?),
    }
}

fn push_model(
    models: &mut Vec<Model>,
    alloc: Global,
    number: u32,
    name: &[u8],
) -> Result<(), Memory>
    ensures { OnOk result (plain_models models.new.items ≡ plain_models models.old.items ++ record { line = number; name = name.now; statements = [] } ∷ []) }
{
    let name = Name::of(alloc, name)?;
    models.push(Model {
        line: number,
        name,
        statements: Vec::new(alloc),
    })?;
    Ok(())
}

fn push_body(models: &mut Vec<Model>, number: u32, body: Option<Body>) -> Result<(), Memory>
    ensures { OnOk result (plain_models models.new.items ≡ with_body number (option_map plain_body body) (plain_models models.old.items)) }
{
    match body {
        Some(body) => push_statement(models, number, body),
        None => Ok(()),
    }
}
