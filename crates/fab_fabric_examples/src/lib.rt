//! Fabrics from their files to their bitstreams: words and texts, switch lists and fabrics with the files that they name, and what is asked of
//! fabrics that were read. All cases stand in files beside the program that runs them.
#![tactic(auto)]

mod asked;
mod cases;
mod fabrics;
mod lists;
mod runs;
mod shown;
mod streams;
mod summary;
mod texts;
mod tiles;
mod wires;
mod words;

use cases::{Subject, print_cases};
use fab_desk::{Desk, Sink};
use fab_examples::Stop;
use std::alloc::Global;

/// The files of cases, and what each is read as.
const FILES: [(&str, Subject); 14] = [
    ("words.cases", Subject::Words),
    ("texts.cases", Subject::Texts),
    ("list_pairs.cases", Subject::Lists),
    ("list_rows.cases", Subject::Lists),
    ("list_bytes.cases", Subject::Lists),
    ("list_files.cases", Subject::Lists),
    ("fabric_good.cases", Subject::Fabrics),
    ("fabric_files.cases", Subject::Fabrics),
    ("fabric_blocks.cases", Subject::Fabrics),
    ("fabric_rows.cases", Subject::Fabrics),
    ("fabric_tiles.cases", Subject::Fabrics),
    ("fabric_lines.cases", Subject::Fabrics),
    ("wires.cases", Subject::Asked),
    ("streams.cases", Subject::Asked),
];

/// Puts what is made of each case of fabrics from their files to their bitstreams, in the order of their files.
///
/// `Stop` comes where a file of the cases is not there or not as it should be, and where nothing can be put.
pub fn put_fabric_examples<D: Desk, S: Sink>(
    alloc: Global,
    desk: &mut D,
    out: &mut S,
) -> Result<(), Stop> {
    for (file, subject) in &FILES {
        print_cases(alloc, desk, out, file, *subject)?;
    }
    Ok(())
}
