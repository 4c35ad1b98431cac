//! What a request still owes its client, and the answer that is written for it (RFC 9110, section
//! 15).
ghost use Rattle.std.specs.Prelude.{◌≡◌};
ghost use Rattle.relay_request.specs.Owed.{outcome_owed, outcome_failed, outcome_written};

use crate::outcome::Outcome;
use relay_tasks::{Error, Fault};

/// How a request ends once its generated answer was written.
///
/// - `Refused`: nothing of it was relayed, for that error where there is one.
/// - `Ahead`: hooks ended it before its attempts: they answered it, or stopped it with that error.
/// - `Served`: its attempt failed with that error.
#[derive(Clone, Copy)]
pub enum Owed {
    Refused(Option<Error>),
    Ahead(Option<Error>),
    Served(Error),
}

impl Owed {
    /// The outcome of a request whose answer was written whole. `again` says that its client may
    /// ask for more; behind an error none does.
    pub fn outcome_written(self, again: bool) -> Outcome
        ensures { result ≡ outcome_written self again }
    {
        match self {
            Owed::Refused(error) => Outcome::Refused { error },
            Owed::Ahead(None) => Outcome::Served {
                error: None,
                reuse: again,
            },
            Owed::Ahead(Some(error)) | Owed::Served(error) => served(Some(error)),
        }
    }

    /// The outcome of one whose client may not.
    pub fn outcome(self) -> Outcome
        ensures { result ≡ outcome_owed self }
    {
        self.outcome_written(false)
    }

    /// The outcome of a request where a write of its answer failed so. One that failed before keeps
    /// its own error.
    pub fn outcome_failed(self, fault: Fault) -> Outcome
        ensures { result ≡ outcome_failed self fault }
    {
        match self {
            Owed::Refused(_) => Outcome::Refused {
                error: Some(Error::of_fault(fault).into_down()),
            },
            Owed::Ahead(None) => served(Some(Error::of_fault(fault).into_down())),
            Owed::Ahead(Some(error)) | Owed::Served(error) => served(Some(error)),
        }
    }
}

/// The outcome of a request that ended with that error or without one, and whose client does not go
/// back.
fn served(error: Option<Error>) -> Outcome
    ensures { result ≡ outcome_owed (Owed.Ahead error) }
{
    Outcome::Served {
        error,
        reuse: false,
    }
}
