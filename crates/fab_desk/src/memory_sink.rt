//! The sink in memory, for tests: its bytes are known, and chosen calls fail.

ghost use Rattle.std.specs.Prelude.{◌≡◌, ◌≢◌, ◌<◌, ◌≤◌, ◌++◌, [], Some, Err, OnOk, OnErr, if◌then◌else◌};
ghost use Rattle.std.specs.Bool.{OnTrue, OnFalse};
ghost use Rattle.fab_desk.specs.Memory.{is_listed, one_more, sink_failure};

use crate::outside::{Sink, SinkFault};
use std::alloc::Global;
use std::marker::Model;

/// A sink whose bytes stand in memory, and which takes nothing at chosen calls. Calls of `put` are counted from 1.
#[derive(Drop)]
pub struct MemSink {
    bytes: Vec<u8>,
    failing: Vec<u64>,
    calls: u64,
    faults: u64,
}

impl Model for MemSink {
    ghost use Rattle.fab_desk.specs.Memory.{MemorySink};

    ghost Value = { MemorySink };

    ghost view = { λ sink. record { bytes = sink.bytes.items; failing = sink.failing.items; calls = sink.calls; faults = sink.faults } };
}

impl MemSink {
    /// An empty sink, which fails at the calls of these numbers.
    pub fn new(alloc: Global, failing: Vec<u64>) -> MemSink
        ensures { result ≡ record { bytes = []; failing = failing.items; calls = 0; faults = 0 } }
    {
        MemSink {
            bytes: Vec::new(alloc),
            failing,
            calls: 0,
            faults: 0,
        }
    }

    /// The bytes so far.
    pub fn bytes(&self) -> &[u8]
        ensures { result.now ≡ self.now.bytes }
    {
        &self.bytes
    }
}

impl Sink for MemSink {
    ghost so_far = { λ sink. Some sink.bytes };

    ghost faults = { λ sink. sink.faults };

    fn put(&mut self, bytes: &[u8]) -> Result<(), SinkFault>
        ensures failing { self.new.failing ≡ self.old.failing }
        ensures calls { self.new.calls ≡ one_more self.old.calls }
        ensures faults { self.new.faults ≡ (if is_listed self.old.failing self.new.calls then one_more self.old.faults else self.old.faults) }
        ensures rises { self.old.faults ≤ self.new.faults }
        ensures failed { result ≡ Err SinkFault.Failed → self.old.faults < self.new.faults }
        ensures listed { OnTrue (is_listed self.old.failing self.new.calls) (result ≡ Err (sink_failure self.old.faults)) }
        ensures unlisted { OnFalse (is_listed self.old.failing self.new.calls) (result ≢ Err SinkFault.Failed) }
        ensures ok { OnOk result (self.new.bytes ≡ self.old.bytes ++ bytes.now) }
        ensures err { OnErr result (self.new.bytes ≡ self.old.bytes) }
    {
        self.calls = self.calls.saturating_add(1);
        if self.failing.contains(&self.calls) {
            return Err(SinkFault::counted(&mut self.faults));
        }
        self.bytes.extend_from_slice(bytes)?;
        Ok(())
    }
}

#[cfg(test)]
mod tests {
    use super::*;
    use std::test::Fail;

    #[test]
    fn takes_pieces_in_order(rt: HostRuntime) -> Result<(), Fail> {
        let alloc = rt.alloc();
        let mut sink = MemSink::new(alloc, vec![in alloc; 2]?);
        sink.put(b"one ")?;
        assert_eq!(rt; sink.put(b"two "), Err(SinkFault::Failed));
        sink.put(b"three")?;
        assert_eq!(rt; sink.bytes(), b"one three".as_slice());
        Ok(())
    }
}
