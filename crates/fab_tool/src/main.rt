//! fab: embedded FPGA fabrics, and designs on them.
#![tactic(auto)]

use fab_commands::run;
use fab_desk::{FileDesk, OutSink};
use fab_progress::{ErrProgress, is_asked_for};
use std::env;
use std::io::{ErrorKind, IsTerminal};
use std::process::ExitCode;

fn main(rt: HostRuntime) -> ExitCode {
    let alloc = rt.alloc();
    let all = match env::args(&rt) {
        Ok(all) => all,
        Err(error) if error.kind() == ErrorKind::OutOfMemory => return ExitCode::from(13),
        Err(_) => return ExitCode::from(1),
    };
    let mut words = Vec::new(alloc);
    for word in all.skip(1) {
        if words.push(word).is_err() {
            return ExitCode::from(13);
        }
    }
    let mut desk = FileDesk::new(&rt);
    let is_wanted = rt.stderr().is_terminal() || is_asked_for(&rt);
    let mut progress = ErrProgress::new(alloc, &rt, is_wanted);
    let mut out = OutSink::new(&rt);
    let status = run(alloc, &words, &mut desk, &mut progress, &mut out);
    ExitCode::from(status.0)
}
