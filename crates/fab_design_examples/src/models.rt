//! The models of a BLIF file as their lines spell them.

use crate::cases::{Case, Subject};
use crate::words::{headed, put_names, put_number, put_word};
use fab_base::{Fault, Memory, Name};
use fab_blif_models::{Body, Model, Statement, read_models};
use fab_netlist::Cube;
use std::alloc::Global;

/// Each model is printed in a line, by the numbers of its lines and what they say. Their covers have at most four inputs.
#[derive(Drop)]
pub struct Models;

impl Subject for Models {
    fn shown(&self, alloc: Global, case: &Case) -> Result<Vec<u8>, Fault> {
        let models = read_models(alloc, &case.file, case.text, 4)?;
        let mut out = headed(alloc, &case.file)?;
        out.push(b'\n')?;
        for model in &models {
            put_model(&mut out, model)?;
        }
        Ok(out)
    }
}

fn put_model(out: &mut Vec<u8>, model: &Model) -> Result<(), Memory> {
    put_number(out, u128::from(model.line))?;
    put_word(out, model.name.bytes())?;
    for statement in &model.statements {
        put_statement(out, statement)?;
    }
    out.push(b'\n')?;
    Ok(())
}

fn put_statement(out: &mut Vec<u8>, statement: &Statement) -> Result<(), Memory> {
    out.push(b';')?;
    put_number(out, u128::from(statement.line))?;
    put_body(out, &statement.body)
}

fn put_body(out: &mut Vec<u8>, body: &Body) -> Result<(), Memory> {
    match body {
        Body::Inputs(names) => put_list(out, b"inputs", names),
        Body::Outputs(names) => put_list(out, b"outputs", names),
        Body::Clock(name) => {
            put_word(out, b"clock")?;
            put_word(out, name.bytes())
        }
        Body::Cover {
            inputs,
            output,
            on,
            rows,
        } => {
            put_list(out, b"cover", inputs)?;
            put_word(out, b">")?;
            put_word(out, output.bytes())?;
            put_rows(out, *on, rows)
        }
        Body::Latch {
            input,
            output,
            control,
            initial,
        } => {
            put_latch(out, input, output, control.as_ref())?;
            put_number(out, u128::from(*initial))
        }
        Body::Instance(model, joins) => {
            put_word(out, b"instance")?;
            put_list(out, model.bytes(), joins)
        }
    }
}

fn put_list(out: &mut Vec<u8>, word: &[u8], names: &[Name]) -> Result<(), Memory> {
    put_word(out, word)?;
    put_names(out, names)
}

/// Whether rows are of an on-set, and of each the inputs that it looks at and their values, as numbers.
pub fn put_rows(out: &mut Vec<u8>, on: bool, rows: &[Cube]) -> Result<(), Memory> {
    if on {
        put_word(out, b"on")?;
    } else {
        put_word(out, b"off")?;
    }
    for row in rows {
        put_number(out, u128::from(row.care))?;
        put_number(out, u128::from(row.value))?;
    }
    Ok(())
}

fn put_latch(
    out: &mut Vec<u8>,
    input: &Name,
    output: &Name,
    control: Option<&Name>,
) -> Result<(), Memory> {
    put_word(out, b"latch")?;
    put_word(out, input.bytes())?;
    put_word(out, output.bytes())?;
    match control {
        Some(control) => put_word(out, control.bytes()),
        None => Ok(()),
    }
}
