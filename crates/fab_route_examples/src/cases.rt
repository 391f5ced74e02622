//! Designs to be placed and routed, many in one file. A case begins with `%` and words between single blanks: the files of the fabric
//! and of the netlist, a number of rounds, and seeds. Behind its line stand all answers that may come, each behind a line that begins
//! with `@`.

ghost use Rattle.std.specs.Prelude.{◌≤◌, ◌<◌, IfOk, length};

use crate::answers::answer;
use crate::verdicts::put_verdict;
use fab_base::{Memory, Name};
use fab_blif::read_blif;
use fab_desk::{Desk, Sink};
use fab_examples::{Stop, fetch};
use fab_fabric::Fabric;
use fab_lines::{capped_number, first_line};
use fab_netlist::Netlist;
use fab_read::read_fabric;
use std::alloc::Global;
use std::str;

/// What a case asks for, and the answers that may come.
#[derive(Drop)]
struct Case<'a> {
    title: String,
    fabric: Fabric,
    netlist: Netlist,
    rounds: u32,
    answers: &'a [u8],
}

fn words_of(alloc: Global, line: &[u8]) -> Result<Vec<&[u8]>, Memory> {
    let mut words = Vec::new(alloc);
    for word in line.split(|byte| *byte == b' ') {
        words.push(word)?;
    }
    Ok(words)
}

fn rounds_of(word: &[u8]) -> Result<u32, Stop>
    ensures some { IfOk result (λ rounds. 1 ≤ rounds) }
    ensures few { IfOk result (λ rounds. rounds ≤ 64) }
{
    match capped_number(word) {
        Some(number) if 1 <= number && number <= 64 => Ok(number as u32),
        _ => Err(Stop::Data),
    }
}

/// Whether a text is one of those that stand behind lines that begin with `@`.
fn is_among(answers: &[u8], text: &[u8]) -> bool {
    for piece in answers.split(|byte| *byte == b'@') {
        if !piece.is_empty() && first_line(piece).1 == text {
            return true;
        }
    }
    false
}

fn netlist_of<D: Desk>(alloc: Global, desk: &mut D, file: &[u8]) -> Result<Netlist, Stop> {
    let bytes = fetch(alloc, desk, str::from_utf8(file)?)?;
    Ok(read_blif(alloc, &Name::of(alloc, file)?, &bytes)?)
}

fn title_of(alloc: Global, fabric: &[u8], blif: &[u8], rounds: u32) -> Result<String, Stop> {
    let (fabric, blif) = (str::from_utf8(fabric)?, str::from_utf8(blif)?);
    Ok(format!(in alloc; "{blif} on {fabric}, rounds {rounds}")?)
}

fn put_seeds<S: Sink>(alloc: Global, out: &mut S, case: &Case, seeds: &[&[u8]]) -> Result<(), Stop>
    requires some { 1 ≤ case.now.rounds }
    requires few { case.now.rounds ≤ 64 }
{
    for word in seeds {
        let seed = capped_number(word).ok_or(Stop::Data)?;
        let text = answer(alloc, &case.fabric, &case.netlist, seed, case.rounds)?;
        let title = format!(in alloc; "{}, seed {seed}", case.title.as_str())?;
        put_verdict(
            alloc,
            out,
            title.as_str(),
            is_among(case.answers, &text),
            &text,
        )?;
    }
    Ok(())
}

fn put_case<D: Desk, S: Sink>(
    alloc: Global,
    desk: &mut D,
    out: &mut S,
    piece: &[u8],
) -> Result<(), Stop>
    requires { 0 < length piece.now }
{
    let (title, answers) = first_line(piece);
    let words = words_of(alloc, title)?;
    let [fabric, blif, rounds, seeds @ ..] = words.as_slice() else {
        return Err(Stop::Data);
    };
    let rounds = rounds_of(rounds)?;
    let title = title_of(alloc, fabric, blif, rounds)?;
    let file = Name::of(alloc, fabric)?;
    let netlist = netlist_of(alloc, desk, blif)?;
    let fabric = read_fabric(alloc, desk, &file)?;
    let case = Case {
        title,
        fabric,
        netlist,
        rounds,
        answers,
    };
    put_seeds(alloc, out, &case, seeds)
}

/// Prints for each seed of the cases of a file whether its answer is one that may come.
pub fn put_cases<D: Desk, S: Sink>(
    alloc: Global,
    desk: &mut D,
    out: &mut S,
    file: &str,
) -> Result<(), Stop> {
    let bytes = fetch(alloc, desk, file)?;
    for piece in bytes.split(|byte| *byte == b'%') {
        if !piece.is_empty() {
            put_case(alloc, desk, out, piece)?;
        }
    }
    Ok(())
}
