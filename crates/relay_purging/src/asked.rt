//! What the purger is asked, and its answer as the filter is told it.
ghost use Rattle.std.specs.Prelude.{◌≡◌};
ghost use Rattle.relay_purging.specs.Asked.{AsksFor};
ghost use Rattle.relay_session.specs.Summary.{first_host};

use relay_hooks::PurgeStatus;
use relay_links::Purger;
use relay_tasks::{PurgeAction, Purged, RequestHeader};

/// Asks the purger once, for the target of that head at its host, and answers what that came to; or
/// nothing where memory was wanted.
pub(crate) fn ask<P: Purger>(
    purger: &mut P,
    action: PurgeAction,
    head: &RequestHeader,
) -> Option<PurgeStatus>
    ensures { AsksFor (P.state purger.old) action head.now (P.state purger.new) result }
{
    match purger.purge(action, host_of(head), head.raw_path()) {
        Purged::NoCache => Some(PurgeStatus::NoCache),
        Purged::Found => Some(PurgeStatus::Found),
        Purged::NotFound => Some(PurgeStatus::NotFound),
        Purged::Failed(fault) => Some(PurgeStatus::Error(fault)),
        Purged::OutOfMemory => None,
    }
}

/// The value of the first Host field, or nothing where there is none.
fn host_of(head: &RequestHeader) -> &[u8]
    ensures { result.now ≡ first_host head.now }
{
    match head.headers().get("host") {
        Some(value) => value.as_bytes(),
        None => b"",
    }
}
