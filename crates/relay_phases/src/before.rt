//! The hooks before an attempt: the context of the request, and the filters that may answer the
//! request themselves (RFC 9110, section 3.7).
//!
//! A call may be out of memory before it is made, and behind it: then the log is as before.
ghost use Rattle.std.specs.Prelude.{◌≡◌, None, IsSome, IsOkUnless, true, false};
ghost use Rattle.relay_session.specs.Reading.{head_of};
ghost use Rattle.relay_hooks.specs.Call.{answered, changed};
ghost use Rattle.relay_hooks.specs.Laws.{AnswersOnYes, AnswersOnNo};
ghost use Rattle.relay_hooks.specs.Session.{request_head, is_answered};
ghost use Rattle.relay_calls.specs.Calls.{Calls, CallsOf, Enters};
ghost use Rattle.relay_phases.specs.Looks.{Looks, MakesContext};

use crate::item::begin_with_head;
use crate::settled::{changed, only, said};
use relay_calls::{Told, begin, log_call, nothing};
use relay_hooks::{ProxyHttp, Session};
use relay_tasks::{Fail, Hook, Item, Result};

/// Makes the context of the request.
///
/// Fails out of memory alone.
pub fn call_new_ctx<SV: ProxyHttp>(app: &SV, session: &mut Session<SV::Modules>) -> Result<SV::CTX>
    requires { IsSome (head_of session.old.seen.downstream.reading) }
    ensures calls { MakesContext (λ mark. Looks (SV.allows app.now) Hook.NewCtx Item.Nothing mark
        session.old.seen session.new.seen) (SV.mark_of app.now) result session.old.seen
        session.new.seen }
    ensures memory { IsOkUnless result Fail.OutOfMemory }
{
    let ctx = app.new_ctx();
    let mark = app.mark(&ctx);
    let begun = begin(&mut session.seen, Hook::NewCtx, mark, nothing());
    log_call(&mut session.seen, begun, only(Item::Nothing), mark)?;
    Ok(ctx)
}

/// Hands over what the request before this one on the client's connection left.
///
/// Fails out of memory alone.
pub fn call_on_connection_reuse<SV: ProxyHttp>(
    app: &SV,
    session: &mut Session<SV::Modules>,
    ctx: &mut SV::CTX,
    previous: SV::Kept,
) -> Result<()>
    requires { IsSome (head_of session.old.seen.downstream.reading) }
    ensures calls { Enters (changed Item.Nothing result)
        (Calls (SV.allows app.now) Hook.OnConnectionReuse (Item.Kept true) session.old.seen
        (SV.mark_of app.now ctx.old) session.new.seen (SV.mark_of app.now ctx.new))
        session.old.seen session.new.seen }
    ensures memory { IsOkUnless result Fail.OutOfMemory }
{
    let input = Told {
        item: Item::Kept(true),
    };
    let begun = begin(
        &mut session.seen,
        Hook::OnConnectionReuse,
        app.mark(ctx),
        input,
    );
    app.on_connection_reuse(session, ctx, previous);
    log_call(&mut session.seen, begun, only(Item::Nothing), app.mark(ctx))
}

/// Calls the first filter of the request, before the modules.
///
/// The error of the filter, which stands in its entry.
pub fn call_early_request_filter<SV: ProxyHttp>(
    app: &SV,
    session: &mut Session<SV::Modules>,
    ctx: &mut SV::CTX,
) -> Result<()>
    requires { IsSome (head_of session.old.seen.downstream.reading) }
    ensures calls { Enters (changed Item.Nothing result)
        (Calls (SV.allows app.now) Hook.EarlyRequestFilter
        (Item.Request (request_head session.old.seen)) session.old.seen
        (SV.mark_of app.now ctx.old) session.new.seen (SV.mark_of app.now ctx.new))
        session.old.seen session.new.seen }
{
    let begun = begin_with_head(&mut session.seen, Hook::EarlyRequestFilter, app.mark(ctx))?;
    let alloc = session.seen.alloc;
    let answer = app.early_request_filter(alloc, session, ctx);
    let outcome = changed(Item::Nothing, &answer)?;
    log_call(&mut session.seen, begun, outcome, app.mark(ctx))?;
    answer
}

/// Calls the filter that may answer the request itself, with true, before it may be a purge.
///
/// The error of the filter, which stands in its entry.
pub fn call_request_filter<SV: ProxyHttp>(
    app: &SV,
    session: &mut Session<SV::Modules>,
    ctx: &mut SV::CTX,
) -> Result<bool>
    requires read { IsSome (head_of session.old.seen.downstream.reading) }
    requires open_to { is_answered session.old.seen ≡ false }
    ensures calls { Enters (answered Item.Answer result)
        (CallsOf None false (AnswersOnYes result) (SV.allows app.now) Hook.RequestFilter
        (Item.Request (request_head session.old.seen)) session.old.seen
        (SV.mark_of app.now ctx.old) session.new.seen (SV.mark_of app.now ctx.new))
        session.old.seen session.new.seen }
{
    let begun = begin_with_head(&mut session.seen, Hook::RequestFilter, app.mark(ctx))?;
    let alloc = session.seen.alloc;
    let answer = app.request_filter(alloc, session, ctx);
    let outcome = said(&answer)?;
    log_call(&mut session.seen, begun, outcome, app.mark(ctx))?;
    answer
}

/// Calls the filter that lets the request go to an upstream, with true, or answers it itself.
///
/// The error of the filter, which stands in its entry.
pub fn call_proxy_upstream_filter<SV: ProxyHttp>(
    app: &SV,
    session: &mut Session<SV::Modules>,
    ctx: &mut SV::CTX,
) -> Result<bool>
    requires read { IsSome (head_of session.old.seen.downstream.reading) }
    requires open_to { is_answered session.old.seen ≡ false }
    ensures calls { Enters (answered Item.Answer result)
        (CallsOf None false (AnswersOnNo result) (SV.allows app.now) Hook.ProxyUpstreamFilter
        (Item.Request (request_head session.old.seen)) session.old.seen
        (SV.mark_of app.now ctx.old) session.new.seen (SV.mark_of app.now ctx.new))
        session.old.seen session.new.seen }
{
    let begun = begin_with_head(&mut session.seen, Hook::ProxyUpstreamFilter, app.mark(ctx))?;
    let alloc = session.seen.alloc;
    let answer = app.proxy_upstream_filter(alloc, session, ctx);
    let outcome = said(&answer)?;
    log_call(&mut session.seen, begun, outcome, app.mark(ctx))?;
    answer
}
