//! A sink into a vector: it tells what it took.
ghost use Rattle.std.specs.Prelude.{◌≡◌, ◌<◌, [], length, Some};
ghost use Rattle.relay_links.specs.FailingCalls.{after_call};
ghost use Rattle.relay_links.specs.Sink.{Pushes};
ghost use Rattle.relay_links.specs.VecSink.{sink_state, sink_calls, IsSinkAnswer};

use crate::failing_calls::FailingCalls;
use crate::sink::{Sink, Wrote};
use std::alloc::Global;

/// Takes all that it is offered. The calls with the listed numbers, counted from 1, fail and take
/// nothing.
#[derive(Drop)]
pub struct VecSink {
    bytes: Vec<u8>,
    calls: FailingCalls,
    faults: u64,
}

impl VecSink {
    /// A sink that has taken nothing.
    pub fn new(alloc: Global, fails: Vec<u64>) -> VecSink
        ensures state { sink_state result ≡ record { taken = Some []; faults = 0 } }
        ensures calls { sink_calls result ≡ record { numbers = fails; count = 0 } }
    {
        VecSink {
            bytes: Vec::new(alloc),
            calls: FailingCalls::new(fails),
            faults: 0,
        }
    }

    /// The bytes that it took, in order.
    pub fn bytes(&self) -> &[u8]
        ensures { (sink_state self.now).taken ≡ Some result.now }
    {
        self.bytes.as_slice()
    }
}

impl Sink for VecSink {
    ghost state = { sink_state };

    fn write(&mut self, part: &[u8]) -> Wrote
        requires { 0 < length part.now }
        ensures state { Pushes (sink_state self.old) part.now (sink_state self.new) result }
        ensures exact { IsSinkAnswer self.old (length part.now) result }
        ensures calls { sink_calls self.new ≡ after_call (sink_calls self.old) }
    {
        let faults = self.faults;
        if self.calls.next_fails() {
            self.faults = faults.saturating_add(1);
            return Wrote::Failed;
        }
        match self.bytes.extend_from_slice(part) {
            Ok(()) => Wrote::Took(part.len()),
            Err(_) => Wrote::OutOfMemory,
        }
    }

    fn faults(&self) -> u64 {
        self.faults
    }
}
