//! What a side of a duplex tells of its answers.
ghost use Rattle.std.specs.Prelude.{◌≡◌};
ghost use Rattle.relay_core.specs.Told.{paused, failed, written};

use relay_links::Put;
use relay_tasks::{Error, ErrorSource, Fail, Pause};

/// How many of a side's answers were NotReady, how many Silent and how many errors, and the last
/// error. Each count stands still at its last value, and each answer raises its own count alone.
#[derive(Clone, Copy, Debug, PartialEq, Eq)]
pub struct Told {
    /// Answers NotReady.
    pub waits: u64,
    /// Answers Silent.
    pub silences: u64,
    /// Errors; out of memory is none.
    pub errors: u64,
    /// The last error.
    pub last: Option<Error>,
}

impl Told {
    /// Nothing was told yet.
    pub const NOTHING: Told = Told {
        waits: 0,
        silences: 0,
        errors: 0,
        last: None,
    };

    /// One more answer that something has to be waited for.
    pub fn paused(self, pause: Pause) -> Told
        ensures { result ≡ paused pause self }
    {
        match pause {
            Pause::NotReady => Told {
                waits: self.waits.saturating_add(1),
                ..self
            },
            Pause::Silent => Told {
                silences: self.silences.saturating_add(1),
                ..self
            },
        }
    }

    /// One more error; out of memory is none.
    pub fn failed(self, fail: Fail) -> Told
        ensures { result ≡ failed fail self }
    {
        match fail {
            Fail::OutOfMemory => self,
            Fail::Error(error) => Told {
                errors: self.errors.saturating_add(1),
                last: Some(error),
                ..self
            },
        }
    }

    /// One more answer of a write to that side.
    pub fn written(self, side: ErrorSource, put: Put) -> Told
        ensures { result ≡ written side put self }
    {
        match put {
            Put::Took(_) => self,
            Put::NotReady => self.paused(Pause::NotReady),
            Put::Silent => self.paused(Pause::Silent),
            Put::Failed(fault) => {
                let error = Error::of_fault(fault);
                self.failed(Fail::Error(Error {
                    esource: side,
                    ..error
                }))
            }
            Put::OutOfMemory => self,
        }
    }
}
