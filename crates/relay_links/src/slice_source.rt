//! A source over a slice: it tells what it gave and what is left.
ghost use Rattle.std.specs.Prelude.{◌≡◌, ◌<◌, ◌≤◌, [], length, Some, false, IsTrue, if◌then◌else◌};
ghost use Rattle.relay_links.specs.FailingCalls.{after_call};
ghost use Rattle.relay_links.specs.Source.{Pulls};

use crate::failing_calls::FailingCalls;
use crate::room::give;
use crate::source::{Read, Source};

/// Gives the bytes of a slice. The calls with the listed numbers, counted from 1, fail and give
/// nothing; once it has answered its end, each read answers that.
#[derive(Drop)]
pub struct SliceSource<'a> {
    bytes: &'a [u8],
    at: usize,
    ended: bool,
    calls: FailingCalls,
    faults: u64,
    ghost ends_last: { IsTrue ended → length bytes.now ≤ at },
}

impl<'a> SliceSource<'a> {
    ghost use Rattle.relay_links.specs.SliceSource.{source_state, source_calls};

    /// A source that has given nothing.
    pub fn new(bytes: &'a [u8], fails: Vec<u64>) -> SliceSource<'a>
        ensures state { source_state result
            ≡ record { given = Some []; left = Some bytes.now; ended = false; faults = 0 } }
        ensures calls { source_calls result ≡ record { numbers = fails; count = 0 } }
    {
        SliceSource {
            bytes,
            at: 0,
            ended: false,
            calls: FailingCalls::new(fails),
            faults: 0,
        }
    }
}

impl<'a> Source for SliceSource<'a> {
    ghost use Rattle.relay_links.specs.SliceSource.{source_state, source_calls, source_answer};

    ghost state = { source_state };

    fn read(&mut self, room: &mut [u8]) -> Read
        requires { 0 < length room.old }
        ensures state { Pulls (source_state self.old) room.new (source_state self.new) result }
        ensures exact { result ≡ source_answer self.old (length room.old) }
        ensures calls { source_calls self.new ≡ (if (source_state self.old).ended
            then source_calls self.old else after_call (source_calls self.old)) }
    {
        let faults = self.faults;
        if self.ended {
            return Read::End;
        }
        if self.calls.next_fails() {
            self.faults = faults.saturating_add(1);
            return Read::Failed;
        }
        if self.bytes.len() <= self.at {
            self.ended = true;
            return Read::End;
        }
        let count = give(self.bytes, self.at, room);
        self.at += count;
        Read::Bytes(count)
    }

    fn faults(&self) -> u64 {
        self.faults
    }
}
