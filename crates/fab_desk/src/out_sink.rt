//! The sink over standard output. What was printed is not told.

ghost use Rattle.std.specs.Prelude.{◌≡◌, None};

use crate::outside::{Sink, SinkFault};
use crate::write::write_whole;
use std::io;
use std::marker::Model;

/// Standard output, with a count of the calls that failed. Contracts see it as that count.
#[derive(Drop)]
pub struct OutSink<'a, R: Print> {
    rt: &'a R,
    faults: u64,
}

impl<'a, R: Print> Model for OutSink<'a, R> {
    ghost use Rattle.std.specs.Prelude.{ℕ};

    ghost Value = { ℕ };

    ghost view = { λ sink. sink.faults };
}

impl<'a, R: Print> OutSink<'a, R> {
    /// A sink over standard output. No call has failed yet.
    pub fn new(rt: &'a R) -> OutSink<'a, R>
        ensures { result ≡ 0 }
    {
        OutSink { rt, faults: 0 }
    }
}

impl<R: Print> Sink for OutSink<'_, R> {
    ghost so_far = { λ _. None };

    ghost faults = { λ sink. sink };

    fn put(&mut self, bytes: &[u8]) -> Result<(), SinkFault> {
        if write_whole(&mut io::writer(self.rt), bytes) {
            Ok(())
        } else {
            Err(SinkFault::counted(&mut self.faults))
        }
    }
}

#[cfg(test)]
mod tests {
    use super::*;
    use std::test::Fail;

    #[test]
    fn prints_a_piece(rt: HostRuntime) -> Result<(), Fail> {
        OutSink::new(&rt).put(b"a piece\n")?;
        Ok(())
    }
}
