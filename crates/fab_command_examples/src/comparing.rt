//! How a call ended, beside what its case expects.

use crate::cases::{Case, Expected, Form};
use fab_base::Status;
use fab_desk::{MemDesk, MemSink};

/// What a call left.
#[derive(Drop)]
pub struct Ending {
    pub status: Status,
    pub desk: MemDesk,
    pub sink: MemSink,
}

/// Whether bytes are the same, but for each `?` of what is expected.
fn are_like(expected: &[u8], found: &[u8]) -> bool {
    let mut pairs = expected.iter().zip(found.iter());
    expected.len() == found.len() && pairs.all(|(wanted, byte)| *wanted == b'?' || *wanted == *byte)
}

fn fits(expected: &Expected, found: &[u8]) -> bool {
    let bytes = expected.bytes.as_slice();
    match expected.form {
        Form::Same => found == bytes,
        Form::Like => are_like(bytes, found),
        Form::Front => found.starts_with(bytes),
        Form::Tail => found.ends_with(bytes),
    }
}

impl Ending {
    /// The bytes of an output: a file by its name, or the report.
    pub fn output(&self, name: &str) -> Option<&[u8]> {
        if name.is_empty() {
            return Some(self.sink.bytes());
        }
        self.desk.file(name)
    }

    fn meets(&self, expected: &Expected) -> bool {
        match self.output(expected.name.as_str()) {
            Some(found) => fits(expected, found),
            None => false,
        }
    }

    /// The name of the first output that is not as it is expected to be.
    fn unlike_output<'a>(&self, case: &'a Case) -> Option<&'a str> {
        for expected in &case.expected {
            if !self.meets(expected) {
                return Some(expected.name.as_str());
            }
        }
        None
    }

    /// The name of the first file that is not to stand, and does.
    fn surplus<'a>(&self, case: &'a Case) -> Option<&'a str> {
        for name in &case.absent {
            if self.desk.file(name.as_str()).is_some() {
                return Some(name.as_str());
            }
        }
        None
    }

    /// Whether the report is empty, or the case says what it is to be.
    fn has_expected_report(&self, case: &Case) -> bool {
        self.sink.bytes().is_empty()
            || case
                .expected
                .iter()
                .any(|expected| expected.name.is_empty())
    }

    /// What is not as the case has it: the name of a file, or nothing for the status and the report.
    pub fn difference<'a>(&self, case: &'a Case) -> Option<&'a str> {
        if u64::from(self.status.0) != case.status || !self.has_expected_report(case) {
            return Some("");
        }
        match self.unlike_output(case) {
            Some(name) => Some(name),
            None => self.surplus(case),
        }
    }
}
