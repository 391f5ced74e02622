//! The features of a FASM text.

use crate::cases::{Case, Subject};
use crate::words::{headed, put_number, put_word};
use fab_base::{Fault, Memory};
use fab_fasm::{Feature, print_fasm, read_fasm};
use std::alloc::Global;

/// It is printed how many features a text has; a line for each, with the number of its line, its name, the numbers of its bits
/// and its value; and the text as which they are printed.
#[derive(Drop)]
pub struct Features;

impl Subject for Features {
    fn shown(&self, alloc: Global, case: &Case) -> Result<Vec<u8>, Fault> {
        let features = read_fasm(alloc, &case.file, case.text)?;
        let mut out = headed(alloc, &case.file)?;
        put_number(&mut out, features.len() as u128)?;
        out.push(b'\n')?;
        for feature in &features {
            put_feature(&mut out, feature)?;
        }
        out.extend_from_slice(&print_fasm(alloc, &features)?)?;
        Ok(out)
    }
}

fn put_feature(out: &mut Vec<u8>, feature: &Feature) -> Result<(), Memory> {
    put_number(out, u128::from(feature.line))?;
    put_word(out, feature.name.bytes())?;
    put_number(out, u128::from(feature.high))?;
    put_number(out, u128::from(feature.low))?;
    put_number(out, feature.value)?;
    out.push(b'\n')?;
    Ok(())
}
