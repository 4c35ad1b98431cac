//! The calls of a request in order, each through the wrapper that enters it in the log.
use crate::heads::{Request, peer, release, stands};
use bytes::Bytes;
use relay_calls::{
    call_request_body_filter, call_response_body_filter, call_response_filter,
    call_upstream_response_body_filter, call_upstream_response_filter,
};
use relay_hooks::{Defaults, NoModules, Session};
use relay_phases::{
    call_allow_spawning_subrequest, call_connected_to_upstream, call_early_request_filter,
    call_is_purge, call_logging, call_new_ctx, call_persist_connection_context,
    call_proxy_upstream_filter, call_request_filter, call_upstream_peer,
    call_upstream_request_filter,
};
use relay_tasks::{ResponseHeader, Result};
use std::alloc::Global;

/// Logs so many requests, one after the other, and answers how many entries the last one has; 0
/// where there is none.
pub(crate) fn log_requests(alloc: Global, requests: usize) -> Result<usize> {
    let mut request = Request::new(alloc)?;
    let app = Defaults::new(peer());
    let entries = log_each(alloc, &app, &mut request, requests);
    release(request);
    entries
}

/// Logs so many requests over the one that is lent.
fn log_each(
    alloc: Global,
    app: &Defaults,
    request: &mut Request,
    requests: usize,
) -> Result<usize> {
    let mut entries = 0;
    for _ in 0..requests {
        entries = log_request(alloc, app, request)?;
    }
    Ok(entries)
}

/// Logs a request, and answers how many entries it has.
fn log_request(alloc: Global, app: &Defaults, request: &mut Request) -> Result<usize> {
    request.make_new(alloc)?;
    let Request { session, got } = request;
    before_the_attempt(app, session)?;
    in_the_attempt(app, session)?;
    with_the_head(app, session, got)?;
    with_the_body(app, session)?;
    at_the_end(app, session)?;
    Ok(session.seen.log.len())
}

/// The calls before a peer is named.
fn before_the_attempt(app: &Defaults, session: &mut Session<NoModules>) -> Result<()> {
    stands(session)?;
    call_new_ctx(app, session)?;
    stands(session)?;
    call_early_request_filter(app, session, &mut ())?;
    stands(session)?;
    call_allow_spawning_subrequest(app, session, &())?;
    stands(session)?;
    if !session.seen.view().final_head {
        call_request_filter(app, session, &mut ())?;
    }
    stands(session)?;
    call_is_purge(app, session, &())?;
    stands(session)?;
    if !session.seen.view().final_head {
        call_proxy_upstream_filter(app, session, &mut ())?;
    }
    Ok(())
}

/// The calls up to the end of the request's body, which has no bytes. The head that is sent is a
/// copy of the client's.
fn in_the_attempt(app: &Defaults, session: &mut Session<NoModules>) -> Result<()> {
    stands(session)?;
    let peer = call_upstream_peer(app, session, &mut ())?;
    stands(session)?;
    call_connected_to_upstream(app, session, &mut (), &peer, false)?;
    stands(session)?;
    let mut sent = session.req_header().copy()?;
    call_upstream_request_filter(app, session, &mut (), &mut sent)?;
    stands(session)?;
    call_request_body_filter(app, session, &mut (), &mut None, true)
}

/// The calls for the head of the response.
fn with_the_head(
    app: &Defaults,
    session: &mut Session<NoModules>,
    got: &mut ResponseHeader,
) -> Result<()> {
    stands(session)?;
    call_upstream_response_filter(app, session, &mut (), got, false)?;
    stands(session)?;
    call_response_filter(app, session, &mut (), got, false)
}

/// The calls for its body, which is one piece.
fn with_the_body(app: &Defaults, session: &mut Session<NoModules>) -> Result<()> {
    let mut piece = Some(Bytes::from_static(b"hi"));
    stands(session)?;
    call_upstream_response_body_filter(app, session, &mut (), &mut piece, true)?;
    stands(session)?;
    call_response_body_filter(app, session, &mut (), &mut piece, true)?;
    Ok(())
}

/// The calls at the end.
fn at_the_end(app: &Defaults, session: &mut Session<NoModules>) -> Result<()> {
    stands(session)?;
    call_logging(app, session, &mut (), None)?;
    stands(session)?;
    call_persist_connection_context(app, session, &())?;
    Ok(())
}
