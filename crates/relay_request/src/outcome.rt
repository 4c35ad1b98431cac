//! How a request ended.

ghost use Rattle.std.specs.Prelude.{◌≡◌};
ghost use Rattle.relay_request.specs.Endings.{error_of};
ghost use Rattle.relay_request.specs.Request.{ended_after, kept_of};

use crate::record::{AttemptList, RunRecord};
use relay_tasks::Error;

/// How a request ended for its client.
///
/// - `NoRequest`: the client ended before any byte of a request.
/// - `Refused`: no hook was called; the error is what was wrong with the request, or the fault of
///   the client's link.
/// - `Served`: the request was relayed, or failed while it was; `reuse` says that the client's
///   connection goes back for another request.
/// - `TurnLimit`: the request has not ended, and no more turns were given or could help.
/// - `OutOfMemory`: out of memory ended it early.
#[derive(Clone, Copy, Debug, PartialEq, Eq)]
pub enum Outcome {
    NoRequest,
    Refused { error: Option<Error> },
    Served { error: Option<Error>, reuse: bool },
    TurnLimit,
    OutOfMemory,
}

impl Outcome {
    /// The error that the outcome gives, if it gives one.
    pub fn error(&self) -> Option<Error>
        ensures { result ≡ error_of self.now }
    {
        match self {
            Outcome::NoRequest | Outcome::TurnLimit | Outcome::OutOfMemory => None,
            Outcome::Refused { error } => *error,
            Outcome::Served { error, reuse: _ } => *error,
        }
    }
}

/// The requests that ended so far, and one more, where its client was served or refused.
pub fn count_ended(ended: u64, outcome: Outcome) -> u64
    ensures { result ≡ ended_after ended outcome }
{
    match outcome {
        Outcome::NoRequest | Outcome::TurnLimit | Outcome::OutOfMemory => ended,
        Outcome::Refused { .. } | Outcome::Served { .. } => ended.saturating_add(1),
    }
}

/// The value that is kept for the next request of a connection: none but of one that was served.
pub fn kept_of<K: Drop>(outcome: Outcome, kept: Option<K>) -> Option<K>
    ensures { result ≡ kept_of outcome kept }
{
    match outcome {
        Outcome::Served { .. } => kept,
        Outcome::NoRequest | Outcome::Refused { .. } => None,
        Outcome::TurnLimit | Outcome::OutOfMemory => None,
    }
}

/// An ended request: its outcome, and what was done for it.
#[derive(Drop)]
pub struct Processed {
    pub outcome: Outcome,
    pub history: RunRecord,
}

/// How a request ended, and its attempts.
#[derive(Drop)]
pub struct Ending {
    pub outcome: Outcome,
    pub attempts: AttemptList,
}
