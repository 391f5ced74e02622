//! What is asked of fabrics: each question is a line of words. `set` and `clear` change the configuration bits for those behind them.

ghost use Rattle.fab_fabric.specs.Bits.{AreBitsOf};

use crate::cases::Case;
use crate::shown::{numbers_of, parts_of};
use crate::streams::put_streams;
use crate::tiles::put_tiles;
use crate::wires::put_wires;
use fab_base::{Fault, Name};
use fab_examples::{Stop, report_of};
use fab_fabric::{Bits, Fabric};
use fab_read::read_fabric;
use std::alloc::Global;

/// Sets these bits of the tile at a place, as far as it has them.
fn set_all(fabric: &Fabric, bits: &mut Bits, x: u32, y: u32, numbers: &[u32], value: bool)
    requires { AreBitsOf fabric.now bits.old }
    ensures { AreBitsOf fabric.now bits.new }
{
    for number in numbers {
        if (*number as usize) < bits.tile(x, y).len() {
            bits.set(x, y, *number, value);
        }
    }
}

/// Sets bits by the numbers of a column, a row, and bits of the tile there.
fn set_words(
    alloc: Global,
    fabric: &Fabric,
    bits: &mut Bits,
    words: &[&[u8]],
    value: bool,
) -> Result<(), Stop>
    requires { AreBitsOf fabric.now bits.old }
    ensures { AreBitsOf fabric.now bits.new }
{
    let numbers = numbers_of(alloc, words)?;
    match numbers.as_slice() {
        [x, y, numbers @ ..] => {
            set_all(fabric, bits, *x, *y, numbers, value);
            Ok(())
        }
        _ => Err(Stop::Fault(Fault::Usage)),
    }
}

/// Puts the answer to a question.
fn put_answer(
    alloc: Global,
    out: &mut Vec<u8>,
    fabric: &Fabric,
    bits: &mut Bits,
    words: &[&[u8]],
) -> Result<(), Stop>
    requires { AreBitsOf fabric.now bits.old }
    ensures { AreBitsOf fabric.now bits.new }
{
    let (verb, rest) = words.split_first().ok_or(Stop::Fault(Fault::Usage))?;
    match *verb {
        b"set" => set_words(alloc, fabric, bits, rest, true),
        b"clear" => set_words(alloc, fabric, bits, rest, false),
        b"words" => put_streams(alloc, out, fabric, bits, words),
        b"read" => put_streams(alloc, out, fabric, bits, words),
        b"bytes" => put_streams(alloc, out, fabric, bits, words),
        b"tile" => put_tiles(alloc, out, fabric, rest),
        _ => put_wires(alloc, out, fabric, bits, verb, rest),
    }
}

/// Puts a question and its answer.
fn put_question(
    alloc: Global,
    out: &mut Vec<u8>,
    fabric: &Fabric,
    bits: &mut Bits,
    question: &[u8],
) -> Result<(), Stop>
    requires { AreBitsOf fabric.now bits.old }
    ensures { AreBitsOf fabric.now bits.new }
{
    out.extend_from_slice(b"  ")?;
    out.extend_from_slice(question)?;
    out.push(b':')?;
    let words = parts_of(alloc, question, b' ')?;
    put_answer(alloc, out, fabric, bits, &words)
}

/// Puts the questions, each with its answer.
fn put_questions(
    alloc: Global,
    out: &mut Vec<u8>,
    fabric: &Fabric,
    bits: &mut Bits,
    asked: &[Name],
) -> Result<(), Stop>
    requires { AreBitsOf fabric.now bits.old }
{
    for question in asked {
        put_question(alloc, out, fabric, bits, question.bytes())?;
        out.push(b'\n')?;
    }
    Ok(())
}

/// The questions of a case, each with its answer.
fn answers(alloc: Global, fabric: &Fabric, asked: &[Name]) -> Result<Vec<u8>, Stop> {
    let mut bits = Bits::new(alloc, fabric)?;
    let mut out = Vec::new(alloc);
    put_questions(alloc, &mut out, fabric, &mut bits, asked)?;
    Ok(out)
}

/// What is asked of a case's fabric with the answers, or the report of its refusal.
pub fn asked_text(alloc: Global, case: &mut Case) -> Result<Vec<u8>, Stop> {
    let mut desk = case.take_desk(alloc)?;
    match read_fabric(alloc, &mut desk, &case.front) {
        Ok(fabric) => answers(alloc, &fabric, &case.asked),
        Err(fault) => Ok(report_of(alloc, fault)?),
    }
}
