//! Each hook, and each filter of the modules through its wrapper, called once over a session of its
//! own: that of a request for `/a` without a body, of which nothing was answered. What comes of it
//! is a plain value.
ghost use Rattle.std.specs.Prelude.{IfOk, IsSome};
ghost use Rattle.relay_hooks.specs.Session.{IsReady};

use crate::tests::support::{peer, release};
use bytes::Bytes;
use http::Method;
use http_header::{HeaderMap, VIA};
use relay_calls::{
    call_module_request_body, call_module_response_body, call_module_response_done,
    call_module_response_header, call_module_response_trailer,
};
use relay_h1::Framing;
use relay_hooks::{FailToProxy, ProxyHttp, ProxyWarnLogContext, PurgeStatus, Session};
use relay_session::{HttpSession, generated_head};
use relay_tasks::{Error, Fail, PurgeAction, RequestHeader, ResponseHeader, Result};
use std::alloc::Global;

/// The session of a request with that method, of which modules were made.
fn session_of<A: ProxyHttp>(app: &A, alloc: Global, method: &Method) -> Result<Session<A::Modules>>
    ensures ready { IfOk result (λ session. IsReady session.seen) }
    ensures made { IfOk result (λ session. IsSome session.modules) }
{
    let modules = app.init_downstream_modules(alloc)?;
    let head = RequestHeader::build(alloc, method, b"/a")?;
    let client = HttpSession::begun_http1(alloc, head, Framing::Empty);
    Ok(Session::new_h1_with_modules(alloc, client, modules))
}

/// What an application says of a request and of an error that it is only shown.
#[derive(Clone, Copy, Debug, PartialEq, Eq)]
pub(crate) struct Answers {
    pub(crate) spawns: bool,
    pub(crate) keeps: bool,
    pub(crate) hides_error: bool,
    pub(crate) hides_warning: bool,
    pub(crate) purges: bool,
    pub(crate) action: PurgeAction,
}

/// What the application that decides nothing says.
pub(crate) const NOTHING: Answers = Answers {
    spawns: false,
    keeps: false,
    hides_error: false,
    hides_warning: false,
    purges: false,
    action: PurgeAction::Delete,
};

/// The hooks that change nothing.
pub(crate) fn answers_of<A: ProxyHttp + Drop>(
    app: Result<A>,
    alloc: Global,
    error: &Error,
) -> Result<Answers> {
    let app = app?;
    let session = session_of(&app, alloc, &Method::GET)?;
    let ctx = app.new_ctx();
    let context = ProxyWarnLogContext::UpstreamRetry;
    let answers = Answers {
        spawns: app.allow_spawning_subrequest(&session, &ctx),
        keeps: app.persist_connection_context(&session, &ctx).is_some(),
        hides_error: app.suppress_error_log(&session, &ctx, error),
        hides_warning: app.suppress_proxy_warn_log(&session, &ctx, error, context),
        purges: app.is_purge(&session, &ctx),
        action: app.purge_action(&session, &ctx),
    };
    release(session);
    Ok(answers)
}

/// Whether the summary of a POST is that text.
pub(crate) fn request_summary<A: ProxyHttp + Drop>(
    app: Result<A>,
    alloc: Global,
    want: &[u8],
) -> Result<bool> {
    let app = app?;
    let session = session_of(&app, alloc, &Method::POST)?;
    let ctx = app.new_ctx();
    let answer = app.request_summary(alloc, &session, &ctx);
    release(session);
    let text = answer?;
    Ok(text.as_slice() == want)
}

pub(crate) fn early_request_filter<A: ProxyHttp + Drop>(
    app: Result<A>,
    alloc: Global,
) -> Result<()> {
    let app = app?;
    let mut session = session_of(&app, alloc, &Method::GET)?;
    let mut ctx = app.new_ctx();
    let answer = app.early_request_filter(alloc, &mut session, &mut ctx);
    release(session);
    answer
}

/// Whether the peer is the one with the address `h`.
pub(crate) fn upstream_peer<A: ProxyHttp + Drop>(app: Result<A>, alloc: Global) -> Result<bool> {
    let app = app?;
    let mut session = session_of(&app, alloc, &Method::GET)?;
    let mut ctx = app.new_ctx();
    let answer = app.upstream_peer(alloc, &mut session, &mut ctx);
    release(session);
    let peer = answer?;
    Ok(peer.address.as_slice() == b"h".as_slice())
}

pub(crate) fn connected_to_upstream<A: ProxyHttp + Drop>(
    app: Result<A>,
    alloc: Global,
) -> Result<()> {
    let app = app?;
    let mut session = session_of(&app, alloc, &Method::GET)?;
    let mut ctx = app.new_ctx();
    let answer = app.connected_to_upstream(alloc, &mut session, true, &peer(), &mut ctx);
    release(session);
    answer
}

/// What it answers, and how many tasks it queued.
pub(crate) fn request_filter<A: ProxyHttp + Drop>(
    app: Result<A>,
    alloc: Global,
) -> Result<(bool, usize)> {
    let app = app?;
    let mut session = session_of(&app, alloc, &Method::GET)?;
    let answer = filter_request(&app, alloc, &mut session);
    release(session);
    answer
}

fn filter_request<A: ProxyHttp>(
    app: &A,
    alloc: Global,
    session: &mut Session<A::Modules>,
) -> Result<(bool, usize)>
    requires { IsReady session.old.seen }
{
    if session.seen.downstream.response_written() {
        return Err(Fail::OutOfMemory);
    }
    let mut ctx = app.new_ctx();
    let answers = app.request_filter(alloc, session, &mut ctx)?;
    Ok((answers, session.seen.wrote.len()))
}

/// What it answers, and how many tasks it queued.
pub(crate) fn proxy_upstream_filter<A: ProxyHttp + Drop>(
    app: Result<A>,
    alloc: Global,
) -> Result<(bool, usize)> {
    let app = app?;
    let mut session = session_of(&app, alloc, &Method::GET)?;
    let answer = filter_upstream(&app, alloc, &mut session);
    release(session);
    answer
}

fn filter_upstream<A: ProxyHttp>(
    app: &A,
    alloc: Global,
    session: &mut Session<A::Modules>,
) -> Result<(bool, usize)>
    requires { IsReady session.old.seen }
{
    if session.seen.downstream.response_written() {
        return Err(Fail::OutOfMemory);
    }
    let mut ctx = app.new_ctx();
    let goes_on = app.proxy_upstream_filter(alloc, session, &mut ctx)?;
    Ok((goes_on, session.seen.wrote.len()))
}

/// The first byte of a piece.
fn first_of(piece: Option<Bytes>) -> Option<u8> {
    match piece {
        Some(bytes) => bytes.as_slice().first().copied(),
        None => None,
    }
}

/// The first byte of what is left of the piece `hi`.
pub(crate) fn request_body_filter<A: ProxyHttp + Drop>(
    app: Result<A>,
    alloc: Global,
) -> Result<Option<u8>> {
    let app = app?;
    let mut session = session_of(&app, alloc, &Method::GET)?;
    let mut ctx = app.new_ctx();
    let mut piece = Some(Bytes::from_static(b"hi"));
    let answer = app.request_body_filter(alloc, &mut session, &mut piece, true, &mut ctx);
    release(session);
    let first = first_of(piece);
    answer?;
    Ok(first)
}

/// The delay, and the first byte of what is left of the piece `hi`.
pub(crate) fn upstream_response_body_filter<A: ProxyHttp + Drop>(
    app: Result<A>,
    alloc: Global,
) -> Result<(Option<u64>, Option<u8>)> {
    let app = app?;
    let mut session = session_of(&app, alloc, &Method::GET)?;
    let mut ctx = app.new_ctx();
    let mut piece = Some(Bytes::from_static(b"hi"));
    let answer = app.upstream_response_body_filter(alloc, &mut session, &mut piece, true, &mut ctx);
    release(session);
    let first = first_of(piece);
    Ok((answer?, first))
}

/// The delay, and the first byte of what is left of the piece `hi`.
pub(crate) fn response_body_filter<A: ProxyHttp + Drop>(
    app: Result<A>,
    alloc: Global,
) -> Result<(Option<u64>, Option<u8>)> {
    let app = app?;
    let mut session = session_of(&app, alloc, &Method::GET)?;
    let mut ctx = app.new_ctx();
    let mut piece = Some(Bytes::from_static(b"hi"));
    let answer = app.response_body_filter(alloc, &mut session, &mut piece, true, &mut ctx);
    release(session);
    let first = first_of(piece);
    Ok((answer?, first))
}

/// What became of a head: the status of a response's, and whether it has the field Via.
#[derive(Clone, Copy, Debug, PartialEq, Eq)]
pub(crate) struct Told {
    pub(crate) status: u16,
    pub(crate) via: bool,
}

fn of_request(head: RequestHeader) -> bool {
    head.headers().contains_key(VIA)
}

fn of_response(head: ResponseHeader) -> Told {
    Told {
        status: head.status(),
        via: head.headers().contains_key(VIA),
    }
}

/// Whether the head that goes upstream has the field Via.
pub(crate) fn upstream_request_filter<A: ProxyHttp + Drop>(
    app: Result<A>,
    alloc: Global,
) -> Result<bool> {
    let app = app?;
    let mut session = session_of(&app, alloc, &Method::GET)?;
    let answer = filter_request_head(&app, alloc, &mut session);
    release(session);
    answer
}

fn filter_request_head<A: ProxyHttp>(
    app: &A,
    alloc: Global,
    session: &mut Session<A::Modules>,
) -> Result<bool>
    requires { IsReady session.old.seen }
{
    let mut head = RequestHeader::build(alloc, &Method::GET, b"/b")?;
    let mut ctx = app.new_ctx();
    let left = app.upstream_request_filter(alloc, session, &mut head, &mut ctx);
    let via = of_request(head);
    left?;
    Ok(via)
}

/// What becomes of a head with the status 204.
pub(crate) fn upstream_response_filter<A: ProxyHttp + Drop>(
    app: Result<A>,
    alloc: Global,
) -> Result<Told> {
    let app = app?;
    let mut session = session_of(&app, alloc, &Method::GET)?;
    let answer = filter_upstream_head(&app, alloc, &mut session);
    release(session);
    answer
}

fn filter_upstream_head<A: ProxyHttp>(
    app: &A,
    alloc: Global,
    session: &mut Session<A::Modules>,
) -> Result<Told>
    requires { IsReady session.old.seen }
{
    let mut head = ResponseHeader::build(alloc, 204)?;
    let mut ctx = app.new_ctx();
    let left = app.upstream_response_filter(alloc, session, &mut head, &mut ctx);
    let told = of_response(head);
    left?;
    Ok(told)
}

/// What becomes of a head with the status 204.
pub(crate) fn response_filter<A: ProxyHttp + Drop>(app: Result<A>, alloc: Global) -> Result<Told> {
    let app = app?;
    let mut session = session_of(&app, alloc, &Method::GET)?;
    let answer = filter_head(&app, alloc, &mut session);
    release(session);
    answer
}

fn filter_head<A: ProxyHttp>(
    app: &A,
    alloc: Global,
    session: &mut Session<A::Modules>,
) -> Result<Told>
    requires { IsReady session.old.seen }
{
    let mut head = ResponseHeader::build(alloc, 204)?;
    let mut ctx = app.new_ctx();
    let left = app.response_filter(alloc, session, &mut head, &mut ctx);
    let told = of_response(head);
    left?;
    Ok(told)
}

/// How many fields are left of none.
pub(crate) fn upstream_response_trailer_filter<A: ProxyHttp + Drop>(
    app: Result<A>,
    alloc: Global,
) -> Result<usize> {
    let app = app?;
    let mut session = session_of(&app, alloc, &Method::GET)?;
    let mut ctx = app.new_ctx();
    let mut trailers = HeaderMap::new(alloc);
    let answer = app.upstream_response_trailer_filter(alloc, &mut session, &mut trailers, &mut ctx);
    release(session);
    let count = trailers.len();
    release(trailers);
    answer?;
    Ok(count)
}

/// Whether bytes end the body in the place of trailer fields.
pub(crate) fn response_trailer_filter<A: ProxyHttp + Drop>(
    app: Result<A>,
    alloc: Global,
) -> Result<bool> {
    let app = app?;
    let mut session = session_of(&app, alloc, &Method::GET)?;
    let mut ctx = app.new_ctx();
    let mut trailers = HeaderMap::new(alloc);
    let answer = app.response_trailer_filter(alloc, &mut session, &mut trailers, &mut ctx);
    release(session);
    release(trailers);
    Ok(answer?.is_some())
}

/// How many messages go to the upstream and to the client in front of theirs.
pub(crate) fn custom_forwarding<A: ProxyHttp + Drop>(
    app: Result<A>,
    alloc: Global,
) -> Result<(usize, usize)> {
    let app = app?;
    let mut session = session_of(&app, alloc, &Method::GET)?;
    let mut ctx = app.new_ctx();
    let answer = app.custom_forwarding(alloc, &mut session, &mut ctx);
    release(session);
    let injected = answer?;
    Ok((injected.to_upstream.len(), injected.to_downstream.len()))
}

/// The first byte of what goes on of the message `m` of a custom client.
pub(crate) fn downstream_message<A: ProxyHttp + Drop>(
    app: Result<A>,
    alloc: Global,
) -> Result<Option<u8>> {
    let app = app?;
    let mut session = session_of(&app, alloc, &Method::GET)?;
    let mut ctx = app.new_ctx();
    let message = Bytes::from_static(b"m");
    let answer = app.downstream_custom_message_proxy_filter(
        alloc,
        &mut session,
        message,
        &mut ctx,
        true,
    );
    release(session);
    Ok(first_of(answer?))
}

/// The first byte of what goes on of the message `m` of a custom upstream.
pub(crate) fn upstream_message<A: ProxyHttp + Drop>(
    app: Result<A>,
    alloc: Global,
) -> Result<Option<u8>> {
    let app = app?;
    let mut session = session_of(&app, alloc, &Method::GET)?;
    let mut ctx = app.new_ctx();
    let message = Bytes::from_static(b"m");
    let answer = app.upstream_custom_message_proxy_filter(
        alloc,
        &mut session,
        message,
        &mut ctx,
        true,
    );
    release(session);
    Ok(first_of(answer?))
}

/// The mark behind the call.
pub(crate) fn logging<A: ProxyHttp + Drop>(
    app: Result<A>,
    alloc: Global,
    error: &Error,
) -> Result<u64> {
    let app = app?;
    let mut session = session_of(&app, alloc, &Method::GET)?;
    let mut ctx = app.new_ctx();
    app.logging(&mut session, Some(error), &mut ctx);
    let answer = app.mark(&ctx);
    release(session);
    Ok(answer)
}

/// The mark behind the call.
pub(crate) fn on_connection_reuse<A: ProxyHttp + Drop>(
    app: Result<A>,
    alloc: Global,
    previous: A::Kept,
) -> Result<u64> {
    let app = app?;
    let mut session = session_of(&app, alloc, &Method::GET)?;
    let mut ctx = app.new_ctx();
    app.on_connection_reuse(&mut session, &mut ctx, previous);
    let answer = app.mark(&ctx);
    release(session);
    Ok(answer)
}

/// The error of an attempt behind the hook, for GET, which may be repeated, or for POST.
pub(crate) fn error_while_proxy<A: ProxyHttp + Drop>(
    app: Result<A>,
    alloc: Global,
    repeats: bool,
    error: Error,
    reused: bool,
) -> Result<Error> {
    let method = if repeats { Method::GET } else { Method::POST };
    let app = app?;
    let mut session = session_of(&app, alloc, &method)?;
    let mut ctx = app.new_ctx();
    let answer = app.error_while_proxy(&peer(), &mut session, error, &mut ctx, reused);
    release(session);
    Ok(answer)
}

pub(crate) fn fail_to_connect<A: ProxyHttp + Drop>(
    app: Result<A>,
    alloc: Global,
    error: Error,
) -> Result<Error> {
    let app = app?;
    let mut session = session_of(&app, alloc, &Method::GET)?;
    let mut ctx = app.new_ctx();
    let answer = app.fail_to_connect(&mut session, &peer(), &mut ctx, error);
    release(session);
    Ok(answer)
}

/// What it answers, and how many tasks it queued.
pub(crate) fn fail_to_proxy<A: ProxyHttp + Drop>(
    app: Result<A>,
    alloc: Global,
    error: &Error,
) -> Result<(FailToProxy, usize)> {
    let app = app?;
    let mut session = session_of(&app, alloc, &Method::GET)?;
    let answer = fail(&app, alloc, &mut session, error);
    release(session);
    answer
}

fn fail<A: ProxyHttp>(
    app: &A,
    alloc: Global,
    session: &mut Session<A::Modules>,
    error: &Error,
) -> Result<(FailToProxy, usize)>
    requires { IsReady session.old.seen }
{
    let mut ctx = app.new_ctx();
    let told = app.fail_to_proxy(alloc, session, error, &mut ctx)?;
    Ok((told, session.seen.wrote.len()))
}

/// What becomes of the answer to a purge that found something.
pub(crate) fn purge_response_filter<A: ProxyHttp + Drop>(
    app: Result<A>,
    alloc: Global,
) -> Result<Told> {
    let app = app?;
    let session = session_of(&app, alloc, &Method::GET)?;
    let answer = filter_purge(&app, alloc, &session);
    release(session);
    answer
}

fn filter_purge<A: ProxyHttp>(app: &A, alloc: Global, session: &Session<A::Modules>) -> Result<Told>
    requires { IsReady session.now.seen }
{
    let mut head = generated_head(alloc, 200, 0)?;
    let mut ctx = app.new_ctx();
    let found = PurgeStatus::Found;
    let left = app.purge_response_filter(alloc, session, &mut ctx, &found, &mut head);
    let told = of_response(head);
    left?;
    Ok(told)
}

// ---- the filters of the modules, through their wrappers

/// The first byte of what is left of the piece `hi` of the request, and how many calls were
/// entered.
pub(crate) fn module_request_body<A: ProxyHttp + Drop>(
    app: Result<A>,
    alloc: Global,
) -> Result<(Option<u8>, usize)> {
    let app = app?;
    let mut session = session_of(&app, alloc, &Method::GET)?;
    let ctx = app.new_ctx();
    let mut piece = Some(Bytes::from_static(b"hi"));
    let answer = call_module_request_body(&app, &mut session, &ctx, &mut piece, true);
    let entries = session.seen.log.len();
    release(session);
    let first = first_of(piece);
    answer?;
    Ok((first, entries))
}

/// The same of a piece of the response.
pub(crate) fn module_response_body<A: ProxyHttp + Drop>(
    app: Result<A>,
    alloc: Global,
) -> Result<(Option<u8>, usize)> {
    let app = app?;
    let mut session = session_of(&app, alloc, &Method::GET)?;
    let ctx = app.new_ctx();
    let mut piece = Some(Bytes::from_static(b"hi"));
    let answer = call_module_response_body(&app, &mut session, &ctx, &mut piece, true);
    let entries = session.seen.log.len();
    release(session);
    let first = first_of(piece);
    answer?;
    Ok((first, entries))
}

/// What becomes of a head with the status 204, and how many calls were entered.
pub(crate) fn module_response_header<A: ProxyHttp + Drop>(
    app: Result<A>,
    alloc: Global,
) -> Result<(Told, usize)> {
    let app = app?;
    let mut session = session_of(&app, alloc, &Method::GET)?;
    let answer = pass_head(&app, alloc, &mut session);
    let entries = session.seen.log.len();
    release(session);
    Ok((answer?, entries))
}

fn pass_head<A: ProxyHttp>(
    app: &A,
    alloc: Global,
    session: &mut Session<A::Modules>,
) -> Result<Told>
    requires ready { IsReady session.old.seen }
    requires made { IsSome session.old.modules }
{
    let mut head = ResponseHeader::build(alloc, 204)?;
    let ctx = app.new_ctx();
    let left = call_module_response_header(app, session, &ctx, &mut head, true);
    let told = of_response(head);
    left?;
    Ok(told)
}

/// Whether bytes end the body in the place of trailer fields, and how many calls were entered.
pub(crate) fn module_response_trailer<A: ProxyHttp + Drop>(
    app: Result<A>,
    alloc: Global,
) -> Result<(bool, usize)> {
    let app = app?;
    let mut session = session_of(&app, alloc, &Method::GET)?;
    let ctx = app.new_ctx();
    let mut trailers = Some(HeaderMap::new(alloc));
    let answer = call_module_response_trailer(&app, &mut session, &ctx, &mut trailers);
    let entries = session.seen.log.len();
    release(session);
    release(trailers);
    Ok((answer?.is_some(), entries))
}

/// The same at the end of a response.
pub(crate) fn module_response_done<A: ProxyHttp + Drop>(
    app: Result<A>,
    alloc: Global,
) -> Result<(bool, usize)> {
    let app = app?;
    let mut session = session_of(&app, alloc, &Method::GET)?;
    let ctx = app.new_ctx();
    let answer = call_module_response_done(&app, &mut session, &ctx);
    let entries = session.seen.log.len();
    release(session);
    Ok((answer?.is_some(), entries))
}
