//! Where the models of a BLIF file stand, and how the words of instances are cut.

use crate::cases::{Case, Subject};
use crate::words::{headed, put_number, put_word};
use fab_base::{Fault, Memory, Name};
use fab_blif_models::read_models;
use fab_instances::{index_models, place_of, sides};
use fab_lines::last_line;
use indexmap::IndexSet;
use std::alloc::Global;

/// The names of the models are printed in the order of their places, and then the place of each word behind the name of the
/// case.
#[derive(Drop)]
pub struct Places;

impl Subject for Places {
    fn shown(&self, alloc: Global, case: &Case) -> Result<Vec<u8>, Fault> {
        let models = read_models(alloc, &case.file, case.text, 16)?;
        let places = index_models(alloc, &case.file, last_line(case.text), &models)?;
        let mut out = headed(alloc, &case.file)?;
        for name in places.as_slice() {
            put_word(&mut out, name)?;
        }
        for word in case.words.split(|byte| *byte == b' ') {
            if !word.is_empty() {
                put_place(&mut out, &places, &Name::of(alloc, word)?)?;
            }
        }
        out.push(b'\n')?;
        Ok(out)
    }
}

fn put_place(out: &mut Vec<u8>, places: &IndexSet<Vec<u8>>, name: &Name) -> Result<(), Memory> {
    out.push(b';')?;
    put_word(out, name.bytes())?;
    match place_of(places, name) {
        Some(place) => put_number(out, place as u128),
        None => put_word(out, b"none"),
    }
}

/// The name of the case is printed with its two sides, parted by its first `=`.
#[derive(Drop)]
pub struct Sides;

impl Subject for Sides {
    fn shown(&self, alloc: Global, case: &Case) -> Result<Vec<u8>, Fault> {
        let mut out = headed(alloc, &case.file)?;
        match sides(case.file.bytes()) {
            Some((formal, actual)) => {
                put_word(&mut out, formal)?;
                put_word(&mut out, actual)?;
            }
            None => put_word(&mut out, b"none")?,
        }
        out.push(b'\n')?;
        Ok(out)
    }
}
