//! Where the opening of a request stands: which hook is called next, or how it ended.
ghost use Rattle.std.specs.Prelude.{◌≡◌};
ghost use Rattle.relay_opening.specs.Place.{behind, behind_say, failed};

use relay_tasks::{Error, Fail, Result};

/// How the hooks before the attempts ended.
///
/// `Attempts`: the request goes to an upstream. `Answered`: `request_filter` queued its answer.
/// `Purge`: it is a purge, of which its caller makes what it can. `Declined`: it goes to no
/// upstream; what was queued ends with a final answer, the hook's or else the relay's own 502.
/// `Unwritten`: it goes to no upstream either, and the 502 could not be queued, since a write to
/// the client had failed with that error, or memory was wanted. `Failed`: a hook or the modules
/// failed with that error.
#[derive(Clone, Copy, Debug, PartialEq, Eq)]
pub enum End {
    Attempts,
    Answered,
    Purge,
    Declined,
    Unwritten(Fail),
    Failed(Error),
}

/// What was called last, as far as it decides what is called next.
///
/// `Made`: the context was made, and that value was kept from the request before it, or none.
/// `Handed`: the value was handed over. `Early`: `early_request_filter` let the request go on.
/// `Spawning`: it was asked for subrequests, and the modules stand where they are made. `Headed`:
/// the modules filtered the head. `Filtered`: `request_filter` let the request go on. `Sending`: it
/// is no purge.
#[derive(Drop)]
pub enum Called<K> {
    Made(Option<K>),
    Handed,
    Early,
    Spawning,
    Headed,
    Filtered,
    Sending,
}

/// Where the opening stands: behind that call, at its end, or where memory was wanted, and of the
/// session nothing more is known than its log, which is as before the turn.
#[derive(Drop)]
pub enum Place<K> {
    Behind(Called<K>),
    Ended(End),
    Lost,
}

/// Where a call that failed leads.
pub(crate) fn failed<K>(why: Fail) -> Place<K>
    ensures { result ≡ failed why }
{
    match why {
        Fail::OutOfMemory => Place::Lost,
        Fail::Error(error) => Place::Ended(End::Failed(error)),
    }
}

/// Where a call that answers nothing leads.
pub(crate) fn behind<K: Drop>(answer: Result<()>, well: Place<K>) -> Place<K>
    ensures { result ≡ behind answer well }
{
    match answer {
        Ok(()) => well,
        Err(why) => failed(why),
    }
}

/// Where a call that says yes or no leads.
pub(crate) fn behind_say<K: Drop>(answer: Result<bool>, yes: Place<K>, no: Place<K>) -> Place<K>
    ensures { result ≡ behind_say answer yes no }
{
    match answer {
        Ok(say) => { if say { yes } else { no } }
        Err(why) => failed(why),
    }
}
