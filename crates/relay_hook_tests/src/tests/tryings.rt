//! The hooks of an attempt that fails, each called once, one behind the other.
ghost use Rattle.std.specs.Prelude.{IsSome, OnOk};
ghost use Rattle.relay_session.specs.Reading.{head_of};

use crate::tests::scripted::app_of;
use crate::tests::support::{defaults, expect, hook_at, release, unmade};
use http::Method;
use relay_hooks::{ProxyHttp, Session};
use relay_script::Action;
use relay_tasks::{Error, ErrorType, Hook, Peer, PhaseLog, RequestHeader, Result, RetryType};
use relay_trying::{
    filter_head, name_peer, summarize, tell_connected, treat_failure, treat_refusal, warn,
};
use std::alloc::Global;

/// What came of the error of an attempt: the error as it was treated, and whether the line on the
/// request is that of `GET /a`, or none where the error is hidden.
#[derive(Clone, Copy, Debug, PartialEq, Eq)]
struct Told {
    treated: Error,
    is_line: Option<bool>,
}

/// The same, with the hooks that the log tells.
type Came = (Told, [Option<Hook>; 6]);

/// An attempt of a GET for `/a` that fails with that error, behind its link or before it.
fn tried<A: ProxyHttp + Drop>(
    app: Result<A>,
    alloc: Global,
    error: Error,
    links: bool,
) -> Result<Came> {
    let app = app?;
    let mut session = unmade(alloc)?;
    let mut ctx = app.new_ctx();
    let told = run(&app, &mut session, &mut ctx, error, links);
    let hooks = hooks_of(session.phase_log());
    release(session);
    release(ctx);
    Ok((told?, hooks))
}

/// The first hooks that a log tells.
fn hooks_of(log: &PhaseLog) -> [Option<Hook>; 6] {
    [
        hook_at(log, 0),
        hook_at(log, 1),
        hook_at(log, 2),
        hook_at(log, 3),
        hook_at(log, 4),
        hook_at(log, 5),
    ]
}

/// Names the peer, fails as is asked, and has the error treated and warned of.
fn run<A: ProxyHttp>(
    app: &A,
    session: &mut Session<A::Modules>,
    ctx: &mut A::CTX,
    error: Error,
    links: bool,
) -> Result<Told>
    requires { IsSome (head_of session.old.seen.downstream.reading) }
{
    let peer = name_peer(app, session, ctx)?;
    let treated = if links {
        send_head(app, session, ctx, &peer)?;
        treat_failure(app, session, ctx, &peer, error, true)?
    } else {
        treat_refusal(app, session, ctx, &peer, error)?
    };
    let is_line = if warn(app, session, ctx, &treated)? {
        None
    } else {
        let line = summarize(app, session, ctx)?;
        Some(line.as_slice() == b"GET /a, Host: h".as_slice())
    };
    Ok(Told { treated, is_line })
}

/// Tells of a link that had been used before, and filters the head.
fn send_head<A: ProxyHttp>(
    app: &A,
    session: &mut Session<A::Modules>,
    ctx: &mut A::CTX,
    peer: &Peer,
) -> Result<()>
    requires { IsSome (head_of session.old.seen.downstream.reading) }
    ensures { OnOk result (IsSome (head_of session.new.seen.downstream.reading)) }
{
    let head = RequestHeader::build(session.seen.alloc, &Method::GET, b"/a")?;
    tell_connected(app, session, ctx, peer, true)?;
    release(filter_head(app, session, ctx, head)?);
    Ok(())
}

/// An error that may be tried again where its link had been used before.
fn stale() -> Error {
    let mut error = Error::new_up(ErrorType::ReadError);
    error.retry = RetryType::ReusedOnly;
    error
}

#[test]
fn treats_the_error_of_a_used_link(rt: HostRuntime) {
    let mut treated = stale();
    treated.set_retry(true);
    let told = Told {
        treated,
        is_line: Some(true),
    };
    let hooks = [
        Some(Hook::UpstreamPeer),
        Some(Hook::ConnectedToUpstream),
        Some(Hook::UpstreamRequestFilter),
        Some(Hook::ErrorWhileProxy),
        Some(Hook::SuppressProxyWarnLog),
        Some(Hook::RequestSummary),
    ];
    expect(
        &rt,
        tried(defaults(), rt.alloc(), stale(), true),
        Ok((told, hooks)),
    );
}

#[test]
fn treats_a_refusal_and_hides_it(rt: HostRuntime) {
    let alloc = rt.alloc();
    let app = app_of(alloc, Hook::SuppressProxyWarnLog, Action::Say(true));
    let mut treated = Error::new_up(ErrorType::ConnectError);
    treated.set_retry(true);
    let told = Told {
        treated,
        is_line: None,
    };
    let hooks = [
        Some(Hook::UpstreamPeer),
        Some(Hook::FailToConnect),
        Some(Hook::SuppressProxyWarnLog),
        None,
        None,
        None,
    ];
    expect(&rt, tried(app, alloc, treated, false), Ok((told, hooks)));
}
