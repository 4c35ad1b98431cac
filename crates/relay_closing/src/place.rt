//! Where the end of a request stands: which hook is called next, or how it ended.
ghost use Rattle.std.specs.Prelude.{◌≡◌, IsSome, IsTrue};
ghost use Rattle.relay_session.specs.Reading.{head_of};
ghost use Rattle.relay_modules.specs.declared.seen.Seen.{Seen};
ghost use Rattle.relay_closing.specs.Place.{begun, error_of, is_lost, may_go_on};

use bytes::Bytes;
use relay_hooks::FailToProxy;
use relay_tasks::Error;

/// A final error, and what `fail_to_proxy` answered to it.
#[derive(Clone, Copy, Debug, PartialEq, Eq)]
pub struct Failure {
    pub error: Error,
    pub answer: FailToProxy,
}

/// What ended a request.
///
/// `Finished`: no error. `Hidden`: that error, which is not to be written to the log of errors.
/// `Reported`: that error, which is to be written there with that line on the request.
#[derive(Drop)]
pub enum Cause {
    Finished,
    Hidden(Failure),
    Reported(Failure, Bytes),
}

impl Cause {
    /// The error, or none.
    pub fn error(&self) -> Option<Error>
        ensures { result ≡ error_of self.now }
    {
        match self {
            Cause::Finished => None,
            Cause::Hidden(failure) => Some(failure.error),
            Cause::Reported(failure, _) => Some(failure.error),
        }
    }
}

/// Which hook is called next, with what was answered before it.
///
/// `Failing`: an error is final, and `fail_to_proxy` is called with it. `Told`: the client was
/// answered for it, and `suppress_error_log` is. `Reporting`: it is to be written, and
/// `request_summary` is. `Ending`: `logging` is. `Logged`: that was, and left the keepalive flag
/// on; where the client goes back `persist_connection_context` is.
#[derive(Drop)]
pub enum Stage {
    Failing(Error),
    Told(Failure),
    Reporting(Failure),
    Ending(Cause),
    Logged(Cause),
}

/// How a request ended: its client does not go back; or it does, and that value is kept for the
/// next request of its connection, or none.
#[derive(Drop)]
pub enum End<K> {
    Gone(Cause),
    Kept(Cause, Option<K>),
}

/// Where the end of a request stands: at that stage, at its end, or where memory was wanted.
#[derive(Drop)]
pub enum Place<K> {
    At(Stage),
    Ended(End<K>),
    Lost,
}

impl<K> Place<K> {
    /// Whether memory was wanted.
    pub fn is_lost(&self) -> bool
        ensures { result ≡ is_lost self.now }
    {
        match self {
            Place::At(_) | Place::Ended(_) => false,
            Place::Lost => true,
        }
    }
}

/// Where the end of a request begins, with its final error or none.
///
/// It may begin with an error where one is final, where an attempt failed behind which another
/// might have followed, and where an answer could not be written; and with none where messages are
/// relayed, or an answer was queued (`may_begin`).
pub fn begin_closing<K>(error: Option<Error>) -> Place<K>
    ensures place { result ≡ begun error }
    ensures ready { (seen : Seen) → IsSome (head_of seen.downstream.reading)
        → IsTrue (may_go_on result seen) }
{
    match error {
        Some(error) => Place::At(Stage::Failing(error)),
        None => Place::At(Stage::Ending(Cause::Finished)),
    }
}
