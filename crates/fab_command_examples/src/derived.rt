//! Cases that come of another one: a call of the desk fails, or a file ends early.

use crate::cases::{Call, Case, Cut, Expected, Request, Unit};
use fab_examples::Stop;
use std::alloc::Global;

/// Copies of files, by name.
pub fn copied(alloc: Global, files: &[(String, Vec<u8>)]) -> Result<Vec<(String, Vec<u8>)>, Stop> {
    let mut copies = Vec::new(alloc);
    for file in files {
        copies.push((
            String::from_str(alloc, file.0.as_str())?,
            Vec::from_slice(alloc, &file.1)?,
        ))?;
    }
    Ok(copies)
}

// Whether one of the calls stores a file of this name.
fn is_stored(calls: &[Call], name: &str) -> bool {
    calls.iter().any(|call| matches!(call.request, Request::Store) && call.name.as_str() == name)
}

// The number of the line that the last byte is of, or ends.
fn last_line(front: &[u8]) -> usize {
    let before = &front[..front.len().saturating_sub(1)];
    before.split(|byte| *byte == b'\n').count()
}

// Why the word is wrong that a front of a bitstream does not hold whole.
fn reason_of(front: &[u8]) -> &'static str {
    if front.len() % 4 == 0 {
        "stream"
    } else {
        "word"
    }
}

// Whether a front is as good as the whole file, by what is behind it.
fn is_whole(unit: Unit, behind: &[u8]) -> bool {
    matches!(unit, Unit::Lines) && behind == b"\n".as_slice()
}

impl Case {
    // Takes an output of another case: it is to be the same, or it is not to stand.
    fn take_output(&mut self, alloc: Global, output: &Expected, stands: bool) -> Result<(), Stop> {
        let name = String::from_str(alloc, output.name.as_str())?;
        if !stands {
            self.absent.push(name)?;
            return Ok(());
        }
        let bytes = Vec::from_slice(alloc, &output.bytes)?;
        let form = output.form;
        self.expected.push(Expected { name, form, bytes })?;
        Ok(())
    }

    // Takes of the outputs of another case those that these calls store; the others are not to stand.
    fn take_stored(&mut self, alloc: Global, whole: &Case, calls: &[Call]) -> Result<(), Stop> {
        for output in &whole.expected {
            let stands = is_stored(calls, output.name.as_str());
            self.take_output(alloc, output, stands)?;
        }
        Ok(())
    }

    // Takes all outputs of another case, or that none is to stand.
    fn take_outputs(&mut self, alloc: Global, whole: &Case, stand: bool) -> Result<(), Stop> {
        for output in &whole.expected {
            self.take_output(alloc, output, stand)?;
        }
        Ok(())
    }

    // Takes the status of a call that fails, and its report; or that the sink fails too.
    fn take_fault(&mut self, alloc: Global, call: &Call, is_told: bool) -> Result<(), Stop> {
        let (status, verb) = match call.request {
            Request::Fetch => (11, "read"),
            Request::Store => (12, "write"),
        };
        self.status = status;
        if !is_told {
            self.failing_puts.push(1)?;
            return Ok(());
        }
        let name = call.name.as_str();
        let line = format!(in alloc; "{verb} fault {name}")?;
        self.add_report(alloc, line.as_bytes())
    }

    fn take_failing(
        &mut self,
        alloc: Global,
        whole: &Case,
        place: usize,
        is_told: bool,
    ) -> Result<(), Stop> {
        let call = whole.calls.get(place).ok_or(Stop::Data)?;
        self.files = copied(alloc, &whole.files)?;
        self.failing_calls.push(place as u64 + 1)?;
        self.take_fault(alloc, call, is_told)?;
        self.take_stored(alloc, whole, &whole.calls[..place])
    }

    // Takes the refusal of a front of a file: its whole report, or what stands in front of a reason.
    fn take_refusal(&mut self, alloc: Global, cut: &Cut, front: &[u8]) -> Result<(), Stop> {
        let name = cut.name.as_str();
        self.status = 4;
        match cut.unit {
            Unit::Words => {
                let word = front.len() / 4 + 1;
                let reason = reason_of(front);
                let line = format!(in alloc; "malformed {name}:{word} {reason}")?;
                self.add_report(alloc, line.as_bytes())
            }
            Unit::Lines => {
                let line = last_line(front);
                let report = format!(in alloc; "malformed {name}:{line} ")?;
                self.add(b'[', String::new(alloc), report.into_bytes())
            }
        }
    }

    fn take_cut(
        &mut self,
        alloc: Global,
        whole: &Case,
        cut: &Cut,
        front: &[u8],
        behind: &[u8],
    ) -> Result<(), Stop> {
        self.files = copied(alloc, &whole.files)?;
        // of two files of one name the last counts
        let name = String::from_str(alloc, cut.name.as_str())?;
        self.add(b'<', name, Vec::from_slice(alloc, front)?)?;
        let is_good = is_whole(cut.unit, behind);
        if !is_good {
            self.take_refusal(alloc, cut, front)?;
        }
        self.take_outputs(alloc, whole, is_good)
    }

    /// The case in which the call at a place fails, and the sink too where that is not told.
    pub fn with_fault(&self, alloc: Global, place: usize, is_told: bool) -> Result<Case, Stop> {
        let mut case = Case::new(alloc);
        case.take_failing(alloc, self, place, is_told)?;
        Ok(case)
    }

    /// The case in which a file ends behind its front.
    pub fn with_front(
        &self,
        alloc: Global,
        cut: &Cut,
        front: &[u8],
        behind: &[u8],
    ) -> Result<Case, Stop> {
        let mut case = Case::new(alloc);
        case.take_cut(alloc, self, cut, front, behind)?;
        Ok(case)
    }
}
