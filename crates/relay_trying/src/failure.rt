//! What comes of an attempt that failed: its error is treated, and where another attempt may follow
//! it is asked for the warning.
ghost use Rattle.std.specs.Prelude.{◌≡◌, false, IfOk, IsOkUnless, IsSome, IsTrue, OnErr};
ghost use Rattle.relay_session.specs.Reading.{head_of};
ghost use Rattle.relay_phases.specs.Order.{Station, named};
ghost use Rattle.relay_trying.specs.Trying.{Summarizes, Treats, Warns, may_break, may_go_on};

use bytes::Bytes;
use relay_hooks::{ProxyHttp, Session};
use relay_phases::{
    call_error_while_proxy, call_fail_to_connect, call_request_summary,
    call_suppress_proxy_warn_log,
};
use relay_tasks::{Error, Fail, Hook, Peer, Result};

/// Has the application treat the error of an attempt that did not reach its peer, and answers the
/// error as it made it.
///
/// Fails out of memory alone, and then no entry is new.
pub fn treat_refusal<SV: ProxyHttp>(
    app: &SV,
    session: &mut Session<SV::Modules>,
    ctx: &mut SV::CTX,
    peer: &Peer,
    error: Error,
) -> Result<Error>
    requires { IsSome (head_of session.old.seen.downstream.reading) }
    ensures treats { IfOk result (λ treated. Treats (SV.allows app.now) Hook.FailToConnect
        peer.now false named error session.old.seen (SV.mark_of app.now ctx.old)
        session.new.seen (SV.mark_of app.now ctx.new) treated) }
    ensures ready { IsTrue (may_go_on result session.new.seen) }
    ensures memory { IsOkUnless result Fail.OutOfMemory }
    ensures lost { OnErr result (session.new.seen.log ≡ session.old.seen.log) }
{
    call_fail_to_connect(app, session, ctx, peer, error)
}

/// Has the application treat the error of an attempt that had its link, and answers the error as it
/// made it; `reused` says that the link had been used before.
///
/// Fails out of memory alone, and then no entry is new.
pub fn treat_failure<SV: ProxyHttp>(
    app: &SV,
    session: &mut Session<SV::Modules>,
    ctx: &mut SV::CTX,
    peer: &Peer,
    error: Error,
    reused: bool,
) -> Result<Error>
    requires { IsSome (head_of session.old.seen.downstream.reading) }
    ensures treats { (from : Station) → IsTrue (may_break from)
        → IfOk result (λ treated. Treats (SV.allows app.now) Hook.ErrorWhileProxy
        peer.now reused from error session.old.seen (SV.mark_of app.now ctx.old)
        session.new.seen (SV.mark_of app.now ctx.new) treated) }
    ensures ready { IsTrue (may_go_on result session.new.seen) }
    ensures memory { IsOkUnless result Fail.OutOfMemory }
    ensures lost { OnErr result (session.new.seen.log ≡ session.old.seen.log) }
{
    call_error_while_proxy(app, session, ctx, peer, error, reused)
}

/// Asks whether the error is not to be written as a warning, now that another attempt follows.
///
/// Fails out of memory alone, and then no entry is new.
pub fn warn<SV: ProxyHttp>(
    app: &SV,
    session: &mut Session<SV::Modules>,
    ctx: &SV::CTX,
    error: &Error,
) -> Result<bool>
    requires { IsSome (head_of session.old.seen.downstream.reading) }
    ensures warns { IfOk result (λ say. Warns (SV.allows app.now) error.now session.old.seen
        (SV.mark_of app.now ctx.now) session.new.seen say) }
    ensures ready { IsTrue (may_go_on result session.new.seen) }
    ensures memory { IsOkUnless result Fail.OutOfMemory }
    ensures lost { OnErr result (session.new.seen.log ≡ session.old.seen.log) }
    ensures modules { session.new.modules ≡ session.old.modules }
{
    call_suppress_proxy_warn_log(app, session, ctx, error)
}

/// Asks for the request in one line, where the warning is to be written.
///
/// Fails out of memory alone, and then no entry is new.
pub fn summarize<SV: ProxyHttp>(
    app: &SV,
    session: &mut Session<SV::Modules>,
    ctx: &SV::CTX,
) -> Result<Bytes>
    requires { IsSome (head_of session.old.seen.downstream.reading) }
    ensures summarizes { IfOk result (λ summary. Summarizes (SV.allows app.now) session.old.seen
        (SV.mark_of app.now ctx.now) session.new.seen summary) }
    ensures ready { IsTrue (may_go_on result session.new.seen) }
    ensures memory { IsOkUnless result Fail.OutOfMemory }
    ensures lost { OnErr result (session.new.seen.log ≡ session.old.seen.log) }
    ensures modules { session.new.modules ≡ session.old.modules }
{
    call_request_summary(app, session, ctx)
}
