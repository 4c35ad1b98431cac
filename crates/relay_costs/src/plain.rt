//! The same calls of the same request with no log: what the hooks take by themselves.
ghost use Rattle.std.specs.Prelude.{OnOk};
ghost use Rattle.relay_hooks.specs.Session.{IsReady};

use crate::heads::{Request, peer, release};
use bytes::Bytes;
use relay_hooks::{Defaults, NoModules, ProxyHttp, Session};
use relay_tasks::{Error, ErrorType, Fail, ResponseHeader, Result};
use std::alloc::Global;

/// Calls the hooks of so many requests, one after the other.
pub(crate) fn call_requests(alloc: Global, requests: usize) -> Result<()> {
    let mut request = Request::new(alloc)?;
    let app = Defaults::new(peer());
    let answer = call_each(alloc, &app, &mut request, requests);
    release(request);
    answer
}

/// Calls the hooks of so many requests over the one that is lent.
fn call_each(alloc: Global, app: &Defaults, request: &mut Request, requests: usize) -> Result<()> {
    for _ in 0..requests {
        call_request(alloc, app, request)?;
    }
    Ok(())
}

/// Calls the hooks of a request.
fn call_request(alloc: Global, app: &Defaults, request: &mut Request) -> Result<()> {
    request.make_new(alloc)?;
    let Request { session, got } = request;
    before_the_attempt(alloc, app, session)?;
    in_the_attempt(alloc, app, session)?;
    with_the_head(alloc, app, session, got)?;
    with_the_body(alloc, app, session)?;
    at_the_end(app, session)
}

/// A call is made only where the head stands that the client sent, and nothing is noted of a call.
fn is_ready(session: &Session<NoModules>) -> Result<()>
    ensures { OnOk result (IsReady session.now.seen) }
{
    let seen = &session.seen;
    if seen.downstream.has_head() && !seen.touched && seen.wrote.is_empty() {
        Ok(())
    } else {
        Err(Fail::Error(Error::new(ErrorType::InternalError)))
    }
}

/// The calls before a peer is named.
fn before_the_attempt(
    alloc: Global,
    app: &Defaults,
    session: &mut Session<NoModules>,
) -> Result<()> {
    app.new_ctx();
    is_ready(session)?;
    app.early_request_filter(alloc, session, &mut ())?;
    is_ready(session)?;
    app.allow_spawning_subrequest(session, &());
    is_ready(session)?;
    if !session.seen.view().final_head {
        app.request_filter(alloc, session, &mut ())?;
    }
    is_ready(session)?;
    app.is_purge(session, &());
    if !session.seen.view().final_head {
        app.proxy_upstream_filter(alloc, session, &mut ())?;
    }
    Ok(())
}

/// The calls up to the end of the request's body, which has no bytes. The head that is sent is a
/// copy of the client's.
fn in_the_attempt(alloc: Global, app: &Defaults, session: &mut Session<NoModules>) -> Result<()> {
    is_ready(session)?;
    let peer = app.upstream_peer(alloc, session, &mut ())?;
    is_ready(session)?;
    app.connected_to_upstream(alloc, session, false, &peer, &mut ())?;
    is_ready(session)?;
    let mut sent = session.req_header().copy()?;
    app.upstream_request_filter(alloc, session, &mut sent, &mut ())?;
    is_ready(session)?;
    app.request_body_filter(alloc, session, &mut None, true, &mut ())?;
    Ok(())
}

/// The calls for the head of the response.
fn with_the_head(
    alloc: Global,
    app: &Defaults,
    session: &mut Session<NoModules>,
    got: &mut ResponseHeader,
) -> Result<()> {
    is_ready(session)?;
    app.upstream_response_filter(alloc, session, got, &mut ())?;
    is_ready(session)?;
    app.response_filter(alloc, session, got, &mut ())?;
    Ok(())
}

/// The calls for its body, which is one piece.
fn with_the_body(alloc: Global, app: &Defaults, session: &mut Session<NoModules>) -> Result<()> {
    let mut piece = Some(Bytes::from_static(b"hi"));
    is_ready(session)?;
    app.upstream_response_body_filter(alloc, session, &mut piece, true, &mut ())?;
    is_ready(session)?;
    app.response_body_filter(alloc, session, &mut piece, true, &mut ())?;
    Ok(())
}

/// The calls at the end.
fn at_the_end(app: &Defaults, session: &mut Session<NoModules>) -> Result<()> {
    is_ready(session)?;
    app.logging(session, None, &mut ());
    is_ready(session)?;
    app.persist_connection_context(session, &());
    Ok(())
}
