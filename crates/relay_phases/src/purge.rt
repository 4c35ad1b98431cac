//! The hooks of a purge (RFC 9110, section 15, for its answer).
//!
//! A call may be out of memory before it is made, and behind it: then the log is as before.
ghost use Rattle.std.specs.Prelude.{◌≡◌, None, IsSome, IsOkUnless, OnOk, true, false};
ghost use Rattle.relay_session.specs.Reading.{head_of};
ghost use Rattle.relay_hooks.specs.Call.{answered, changed};
ghost use Rattle.relay_hooks.specs.Laws.{IsBodiless};
ghost use Rattle.relay_hooks.specs.Purge.{purge_head, purged_of};
ghost use Rattle.relay_hooks.specs.Session.{request_head};
ghost use Rattle.relay_calls.specs.Calls.{CallsOf, Enters};
ghost use Rattle.relay_phases.specs.Looks.{Looks, Stays};

use crate::item::begin_with_head;
use crate::settled::{changed, only};
use relay_calls::{Told, begin, head_item, log_call};
use relay_hooks::{ProxyHttp, PurgeStatus, Session};
use relay_tasks::{Fail, Hook, Item, PurgeAction, Purged, ResponseHeader, Result};

/// Asks whether the request is a purge.
///
/// Fails out of memory alone.
pub fn call_is_purge<SV: ProxyHttp>(
    app: &SV,
    session: &mut Session<SV::Modules>,
    ctx: &SV::CTX,
) -> Result<bool>
    requires { IsSome (head_of session.old.seen.downstream.reading) }
    ensures calls { Enters (answered Item.Answer result)
        (Looks (SV.allows app.now) Hook.IsPurge
        (Item.Request (request_head session.old.seen)) (SV.mark_of app.now ctx.now)
        session.old.seen session.new.seen) session.old.seen session.new.seen }
    ensures memory { IsOkUnless result Fail.OutOfMemory }
    ensures modules { session.new.modules ≡ session.old.modules }
{
    let mark = app.mark(ctx);
    let begun = begin_with_head(&mut session.seen, Hook::IsPurge, mark)?;
    let say = app.is_purge(session, ctx);
    log_call(&mut session.seen, begun, only(Item::Answer(say)), mark)?;
    Ok(say)
}

/// Asks what the purge does with what is kept.
///
/// Fails out of memory alone.
pub fn call_purge_action<SV: ProxyHttp>(
    app: &SV,
    session: &mut Session<SV::Modules>,
    ctx: &SV::CTX,
) -> Result<PurgeAction>
    requires { IsSome (head_of session.old.seen.downstream.reading) }
    ensures calls { Enters (answered Item.Action result)
        (Looks (SV.allows app.now) Hook.PurgeAction
        (Item.Request (request_head session.old.seen)) (SV.mark_of app.now ctx.now)
        session.old.seen session.new.seen) session.old.seen session.new.seen }
    ensures memory { IsOkUnless result Fail.OutOfMemory }
    ensures modules { session.new.modules ≡ session.old.modules }
{
    let mark = app.mark(ctx);
    let begun = begin_with_head(&mut session.seen, Hook::PurgeAction, mark)?;
    let action = app.purge_action(session, ctx);
    log_call(&mut session.seen, begun, only(Item::Action(action)), mark)?;
    Ok(action)
}

/// Calls the filter of the head of a purge's answer, which has no body.
///
/// The error of the filter, which stands in its entry; what it left stays.
pub fn call_purge_response_filter<SV: ProxyHttp>(
    app: &SV,
    session: &mut Session<SV::Modules>,
    ctx: &mut SV::CTX,
    status: &PurgeStatus,
    answer: &mut ResponseHeader,
) -> Result<()>
    requires read { IsSome (head_of session.old.seen.downstream.reading) }
    requires answer { answer.old ≡ purge_head status.now }
    ensures calls { Enters (changed (Item.Response answer.new true) result)
        (CallsOf None false Stays (SV.allows app.now) Hook.PurgeResponseFilter
        (Item.Status (purged_of status.now)) session.old.seen (SV.mark_of app.now ctx.old)
        session.new.seen (SV.mark_of app.now ctx.new)) session.old.seen session.new.seen }
    ensures bodiless { OnOk result (IsBodiless answer.new) }
    ensures modules { session.new.modules ≡ session.old.modules }
{
    let input = status_item(status);
    let mark = app.mark(ctx);
    let begun = begin(&mut session.seen, Hook::PurgeResponseFilter, mark, input);
    let alloc = session.seen.alloc;
    let done = app.purge_response_filter(alloc, session, ctx, status, answer);
    let made = head_item(alloc, answer, true)?;
    let outcome = changed(made.item, &done)?;
    log_call(&mut session.seen, begun, outcome, app.mark(ctx))?;
    done
}

/// What a purge came to, as the purger answered it.
fn status_item(status: &PurgeStatus) -> Told
    ensures { result.item ≡ Item.Status (purged_of status.now) }
{
    let purged = match status {
        PurgeStatus::NoCache => Purged::NoCache,
        PurgeStatus::Found => Purged::Found,
        PurgeStatus::NotFound => Purged::NotFound,
        PurgeStatus::Error(fault) => Purged::Failed(*fault),
    };
    Told {
        item: Item::Status(purged),
    }
}
