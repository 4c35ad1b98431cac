//! The turns of a purge, each of which calls one hook and enters it.
ghost use Rattle.std.specs.Prelude.{◌≡◌, false, IfOk, IsOkUnless, IsSome, IsTrue, OnErr, Option};
ghost use Rattle.relay_session.specs.Reading.{head_of};
ghost use Rattle.relay_modules.specs.Module.{AllowsMade};
ghost use Rattle.relay_hooks.specs.Session.{is_answered};
ghost use Rattle.relay_calls.specs.Log.{IsAllowed};
ghost use Rattle.relay_purging.specs.Asked.{IsAsked};
ghost use Rattle.relay_purging.specs.Purging.{AsksAction, PurgesTo, may_go_on};

use crate::answer::{answer, purge_head, refuse};
use crate::asked::ask;
use relay_hooks::{ProxyHttp, Session};
use relay_links::Purger;
use relay_phases::{call_purge_action, call_purge_response_filter};
use relay_tasks::{Fail, PurgeAction, Result};

/// How a purge ended.
///
/// `Answered`: its answer was queued, whole. `Unwritten`: it was not, since a write to the client
/// had failed with that error, or memory was wanted. `Lost`: memory was wanted before the filter of
/// the answer had its entry.
#[derive(Clone, Copy, Debug, PartialEq, Eq)]
pub enum End {
    Answered,
    Unwritten(Fail),
    Lost,
}

/// Asks what a purge does with what is kept, which is the first turn behind `is_purge`.
///
/// Fails out of memory alone, and then no entry is new.
pub fn ask_action<SV: ProxyHttp>(
    app: &SV,
    session: &mut Session<SV::Modules>,
    ctx: &SV::CTX,
) -> Result<PurgeAction>
    requires { IsSome (head_of session.old.seen.downstream.reading) }
    ensures asks { (made : Option SV.Modules) → IfOk result (λ action.
        AsksAction (IsAllowed (SV.allows app.now) (AllowsMade SV.Modules.allows made)) action
        session.old.seen (SV.mark_of app.now ctx.now) session.new.seen) }
    ensures ready { is_answered session.old.seen ≡ false
        → IsTrue (may_go_on result session.new.seen) }
    ensures memory { IsOkUnless result Fail.OutOfMemory }
    ensures lost { OnErr result (session.new.seen.log ≡ session.old.seen.log) }
    ensures modules { session.new.modules ≡ session.old.modules }
{
    call_purge_action(app, session, ctx)
}

/// Asks the purger, once, to do that with what is kept for the request's target at its host; has
/// the head of the answer filtered; and queues the answer, which is that head without a body, or
/// the relay's own 500 where the filter failed.
///
/// Where memory is wanted the purger may have been asked without an entry of the filter.
pub fn purge<SV: ProxyHttp, P: Purger>(
    app: &SV,
    purger: &mut P,
    session: &mut Session<SV::Modules>,
    ctx: &mut SV::CTX,
    action: PurgeAction,
) -> End
    requires read { IsSome (head_of session.old.seen.downstream.reading) }
    requires open_to { is_answered session.old.seen ≡ false }
    ensures purges { (made : Option SV.Modules)
        → PurgesTo (IsAllowed (SV.allows app.now) (AllowsMade SV.Modules.allows made)) action
        (P.state purger.old) (P.state purger.new) session.old.seen (SV.mark_of app.now ctx.old)
        session.new.seen (SV.mark_of app.now ctx.new) result }
    ensures asked { IsAsked (P.state purger.old) action session.old.seen (P.state purger.new) }
    ensures modules { session.new.modules ≡ session.old.modules }
{
    let Some(status) = ask(purger, action, session.req_header()) else {
        return End::Lost;
    };
    let Ok(head) = purge_head(session.seen.alloc, status) else {
        return End::Lost;
    };
    let mut head = head;
    match call_purge_response_filter(app, session, ctx, &status, &mut head) {
        Ok(()) => answer(&mut session.seen, head),
        Err(Fail::Error(_)) => refuse(&mut session.seen),
        Err(Fail::OutOfMemory) => End::Lost,
    }
}
