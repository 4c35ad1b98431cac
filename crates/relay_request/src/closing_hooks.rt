//! The hooks at the end of a request: which is called next, and the outcome that is given (RFC
//! 9110, section 3.7).
ghost use Rattle.std.specs.Prelude.{◌≡◌};
ghost use Rattle.relay_request.specs.ClosingHooks.{calls_next, failed_with, given, is_gone, kept_in};

use crate::outcome::Outcome;
use relay_closing::{Cause, End, Place, Stage};
use relay_tasks::Error;

/// Whether a hook is called next; `goes_back` says that the client may ask for more.
pub(crate) fn calls_next<K>(place: &Place<K>, goes_back: bool) -> bool
    ensures { result ≡ calls_next place.now goes_back }
{
    match place {
        Place::At(Stage::Failing(_) | Stage::Told(_) | Stage::Reporting(_)) => true,
        Place::At(Stage::Ending(_)) => true,
        Place::At(Stage::Logged(_)) => goes_back,
        Place::Ended(_) | Place::Lost => false,
    }
}

/// Where the end stands once an error was told, or none: one of a request that had none is final.
pub(crate) fn failed_with<K>(place: Place<K>, error: Option<Error>) -> Place<K>
    ensures { result ≡ failed_with place error }
{
    match (place, error) {
        (Place::At(Stage::Ending(Cause::Finished)), Some(error)) => {
            Place::At(Stage::Failing(error))
        }
        (place, _) => place,
    }
}

/// Whether the client is gone: it was not to be kept behind `logging`.
fn is_gone<K>(place: &Place<K>) -> bool
    ensures { result ≡ is_gone place.now }
{
    match place {
        Place::At(_) => false,
        Place::Ended(End::Gone(_)) => true,
        Place::Ended(End::Kept(_, _)) => false,
        Place::Lost => false,
    }
}

/// The outcome that is given of a request that came to that one, where its end stands there: turns
/// or memory ran out in its hooks, or not; and a client that is gone does not go back.
pub(crate) fn given<K>(place: &Place<K>, came: Outcome) -> Outcome
    ensures { result ≡ given place.now came }
{
    match came {
        Outcome::Served { error, reuse } => {
            if calls_next(place, reuse) {
                Outcome::TurnLimit
            } else if place.is_lost() {
                Outcome::OutOfMemory
            } else {
                Outcome::Served {
                    error,
                    reuse: reuse && !is_gone(place),
                }
            }
        }
        Outcome::NoRequest => Outcome::NoRequest,
        Outcome::Refused { error } => Outcome::Refused { error },
        Outcome::TurnLimit => Outcome::TurnLimit,
        Outcome::OutOfMemory => Outcome::OutOfMemory,
    }
}

/// The value that is kept for the next request of the connection, or none.
pub(crate) fn kept_in<K>(place: Place<K>) -> Option<K>
    ensures { result ≡ kept_in place }
{
    match place {
        Place::At(_stage) => None,
        Place::Ended(End::Gone(_cause)) => None,
        Place::Ended(End::Kept(_cause, kept)) => kept,
        Place::Lost => None,
    }
}
