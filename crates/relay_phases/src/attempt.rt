//! The hooks of an attempt: its peer, its link, its head, and its error (RFC 9110, section 9.2.2).
//!
//! A call may be out of memory before it is made, and behind it: then the log is as before.
ghost use Rattle.std.specs.Prelude.{◌≡◌, Some, None, IsSome, IsOkUnless, true, false};
ghost use Rattle.relay_session.specs.Reading.{head_of};
ghost use Rattle.relay_hooks.specs.Call.{answered, changed};
ghost use Rattle.relay_hooks.specs.Session.{Leaves, request_head};
ghost use Rattle.relay_calls.specs.Calls.{Calls, CallsOf, Enters};
ghost use Rattle.relay_phases.specs.Looks.{Looks};

use crate::item::{begin_with_head, error_item, peer_item, request_item};
use crate::settled::{changed, only, settle};
use relay_calls::{begin, log_call};
use relay_hooks::{ProxyHttp, ProxyWarnLogContext, Session};
use relay_tasks::{Error, Fail, Hook, Injected, Item, Peer, RequestHeader, Result};

/// Asks for the peer that the next attempt is to reach.
///
/// The error of the hook, which stands in its entry.
pub fn call_upstream_peer<SV: ProxyHttp>(
    app: &SV,
    session: &mut Session<SV::Modules>,
    ctx: &mut SV::CTX,
) -> Result<Peer>
    requires { IsSome (head_of session.old.seen.downstream.reading) }
    ensures calls { Enters (answered (λ peer. Item.Addressed peer false) result)
        (Calls (SV.allows app.now) Hook.UpstreamPeer
        (Item.Request (request_head session.old.seen)) session.old.seen
        (SV.mark_of app.now ctx.old) session.new.seen (SV.mark_of app.now ctx.new))
        session.old.seen session.new.seen }
{
    let begun = begin_with_head(&mut session.seen, Hook::UpstreamPeer, app.mark(ctx))?;
    let alloc = session.seen.alloc;
    let settled = settle(app.upstream_peer(alloc, session, ctx))?;
    let outcome = settled.named()?;
    log_call(&mut session.seen, begun, outcome, app.mark(ctx))?;
    settled.into_answer()
}

/// Treats the error of an attempt that did not reach its peer.
///
/// Fails out of memory alone.
pub fn call_fail_to_connect<SV: ProxyHttp>(
    app: &SV,
    session: &mut Session<SV::Modules>,
    ctx: &mut SV::CTX,
    peer: &Peer,
    error: Error,
) -> Result<Error>
    requires { IsSome (head_of session.old.seen.downstream.reading) }
    ensures calls { Enters (answered Item.Failure result)
        (CallsOf (Some peer.now) false Leaves (SV.allows app.now) Hook.FailToConnect
        (Item.Failure error) session.old.seen (SV.mark_of app.now ctx.old) session.new.seen
        (SV.mark_of app.now ctx.new)) session.old.seen session.new.seen }
    ensures memory { IsOkUnless result Fail.OutOfMemory }
{
    let input = error_item(error);
    let begun = begin(&mut session.seen, Hook::FailToConnect, app.mark(ctx), input);
    let treated = app.fail_to_connect(session, peer, ctx, error);
    let outcome = only(Item::Failure(treated));
    log_call(&mut session.seen, begun, outcome, app.mark(ctx))?;
    Ok(treated)
}

/// Tells that the attempt has a link to its peer; `reused` says that it had been used before.
///
/// The error of the hook, which stands in its entry.
pub fn call_connected_to_upstream<SV: ProxyHttp>(
    app: &SV,
    session: &mut Session<SV::Modules>,
    ctx: &mut SV::CTX,
    peer: &Peer,
    reused: bool,
) -> Result<()>
    requires { IsSome (head_of session.old.seen.downstream.reading) }
    ensures calls { Enters (changed Item.Nothing result)
        (CallsOf (Some peer.now) reused Leaves (SV.allows app.now) Hook.ConnectedToUpstream
        (Item.Addressed peer.now reused) session.old.seen (SV.mark_of app.now ctx.old)
        session.new.seen (SV.mark_of app.now ctx.new)) session.old.seen session.new.seen }
{
    let input = peer_item(peer, reused)?;
    let mark = app.mark(ctx);
    let begun = begin(&mut session.seen, Hook::ConnectedToUpstream, mark, input);
    let alloc = session.seen.alloc;
    let answer = app.connected_to_upstream(alloc, session, reused, peer, ctx);
    let outcome = changed(Item::Nothing, &answer)?;
    log_call(&mut session.seen, begun, outcome, app.mark(ctx))?;
    answer
}

/// Calls the filter of the head that is sent upstream.
///
/// The error of the filter, which stands in its entry; what it left stays.
pub fn call_upstream_request_filter<SV: ProxyHttp>(
    app: &SV,
    session: &mut Session<SV::Modules>,
    ctx: &mut SV::CTX,
    head: &mut RequestHeader,
) -> Result<()>
    requires { IsSome (head_of session.old.seen.downstream.reading) }
    ensures calls { Enters (changed (Item.Request head.new) result)
        (Calls (SV.allows app.now) Hook.UpstreamRequestFilter (Item.Request head.old)
        session.old.seen (SV.mark_of app.now ctx.old) session.new.seen
        (SV.mark_of app.now ctx.new)) session.old.seen session.new.seen }
{
    let input = request_item(head)?;
    let mark = app.mark(ctx);
    let begun = begin(&mut session.seen, Hook::UpstreamRequestFilter, mark, input);
    let alloc = session.seen.alloc;
    let answer = app.upstream_request_filter(alloc, session, head, ctx);
    let made = request_item(head)?;
    let outcome = changed(made.item, &answer)?;
    log_call(&mut session.seen, begun, outcome, app.mark(ctx))?;
    answer
}

/// Asks for the messages that go in front of those of a custom client or upstream.
///
/// The error of the hook, which stands in its entry.
pub fn call_custom_forwarding<SV: ProxyHttp>(
    app: &SV,
    session: &mut Session<SV::Modules>,
    ctx: &mut SV::CTX,
) -> Result<Injected>
    requires { IsSome (head_of session.old.seen.downstream.reading) }
    ensures calls { Enters (answered Item.Injected result)
        (Calls (SV.allows app.now) Hook.CustomForwarding
        (Item.Request (request_head session.old.seen)) session.old.seen
        (SV.mark_of app.now ctx.old) session.new.seen (SV.mark_of app.now ctx.new))
        session.old.seen session.new.seen }
{
    let begun = begin_with_head(&mut session.seen, Hook::CustomForwarding, app.mark(ctx))?;
    let alloc = session.seen.alloc;
    let settled = settle(app.custom_forwarding(alloc, session, ctx))?;
    let outcome = settled.injected(alloc)?;
    log_call(&mut session.seen, begun, outcome, app.mark(ctx))?;
    settled.into_answer()
}

/// Treats the error of an attempt that had reached its peer; `client_reused` says that its link had
/// been used before.
///
/// Fails out of memory alone.
pub fn call_error_while_proxy<SV: ProxyHttp>(
    app: &SV,
    session: &mut Session<SV::Modules>,
    ctx: &mut SV::CTX,
    peer: &Peer,
    error: Error,
    client_reused: bool,
) -> Result<Error>
    requires { IsSome (head_of session.old.seen.downstream.reading) }
    ensures calls { Enters (answered Item.Failure result)
        (CallsOf (Some peer.now) client_reused Leaves (SV.allows app.now) Hook.ErrorWhileProxy
        (Item.Failure error) session.old.seen (SV.mark_of app.now ctx.old) session.new.seen
        (SV.mark_of app.now ctx.new)) session.old.seen session.new.seen }
    ensures memory { IsOkUnless result Fail.OutOfMemory }
{
    let input = error_item(error);
    let mark = app.mark(ctx);
    let begun = begin(&mut session.seen, Hook::ErrorWhileProxy, mark, input);
    let treated = app.error_while_proxy(peer, session, error, ctx, client_reused);
    let outcome = only(Item::Failure(treated));
    log_call(&mut session.seen, begun, outcome, app.mark(ctx))?;
    Ok(treated)
}

/// Asks whether the error of an attempt behind which another follows is not to be written.
///
/// Fails out of memory alone.
pub fn call_suppress_proxy_warn_log<SV: ProxyHttp>(
    app: &SV,
    session: &mut Session<SV::Modules>,
    ctx: &SV::CTX,
    error: &Error,
) -> Result<bool>
    requires { IsSome (head_of session.old.seen.downstream.reading) }
    ensures calls { Enters (answered Item.Answer result)
        (Looks (SV.allows app.now) Hook.SuppressProxyWarnLog (Item.Failure error.now)
        (SV.mark_of app.now ctx.now) session.old.seen session.new.seen) session.old.seen
        session.new.seen }
    ensures memory { IsOkUnless result Fail.OutOfMemory }
    ensures modules { session.new.modules ≡ session.old.modules }
{
    let mark = app.mark(ctx);
    let input = error_item(*error);
    let begun = begin(&mut session.seen, Hook::SuppressProxyWarnLog, mark, input);
    let context = ProxyWarnLogContext::UpstreamRetry;
    let say = app.suppress_proxy_warn_log(session, ctx, error, context);
    log_call(&mut session.seen, begun, only(Item::Answer(say)), mark)?;
    Ok(say)
}
