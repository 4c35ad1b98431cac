//! A call by its name, and what came of it as a plain value. Each call at an application is dear to
//! prove where that is known, so a file of tests makes one for all rows of a kind.
use crate::tests::calls::{self, Told};
use relay_hooks::ProxyHttp;
use relay_tasks::Result;
use std::alloc::Global;

/// What came of a call.
///
/// `Went`: it answers nothing. `Says`: a yes or no. `Queued`: that, and how many tasks it queued.
/// `Injected`: how many messages go to the upstream and to the client. `Head`: what became of a
/// head. `Left`: the first byte of what is left of a piece. `Delayed`: the delay, and that byte.
/// `Count`: how many fields are left.
#[derive(Clone, Copy, Debug, PartialEq, Eq)]
pub(crate) enum Came {
    Went,
    Says(bool),
    Queued(bool, usize),
    Injected(usize, usize),
    Head(Told),
    Left(Option<u8>),
    Delayed(Option<u64>, Option<u8>),
    Count(usize),
}

/// The hooks that decide where a request goes.
#[derive(Clone, Copy)]
pub(crate) enum Deciding {
    EarlyRequestFilter,
    RequestFilter,
    ProxyUpstreamFilter,
    UpstreamPeer,
    ConnectedToUpstream,
    CustomForwarding,
}

pub(crate) fn decided<A: ProxyHttp + Drop>(
    app: Result<A>,
    alloc: Global,
    hook: Deciding,
) -> Result<Came> {
    match hook {
        Deciding::EarlyRequestFilter => went(calls::early_request_filter(app, alloc)),
        Deciding::RequestFilter => queued(calls::request_filter(app, alloc)),
        Deciding::ProxyUpstreamFilter => queued(calls::proxy_upstream_filter(app, alloc)),
        Deciding::UpstreamPeer => says(calls::upstream_peer(app, alloc)),
        Deciding::ConnectedToUpstream => went(calls::connected_to_upstream(app, alloc)),
        Deciding::CustomForwarding => injected(calls::custom_forwarding(app, alloc)),
    }
}

/// The filters of heads.
#[derive(Clone, Copy)]
pub(crate) enum OfHead {
    UpstreamRequest,
    UpstreamResponse,
    Response,
    PurgeResponse,
}

pub(crate) fn head_left<A: ProxyHttp + Drop>(
    app: Result<A>,
    alloc: Global,
    filter: OfHead,
) -> Result<Came> {
    match filter {
        OfHead::UpstreamRequest => says(calls::upstream_request_filter(app, alloc)),
        OfHead::UpstreamResponse => head(calls::upstream_response_filter(app, alloc)),
        OfHead::Response => head(calls::response_filter(app, alloc)),
        OfHead::PurgeResponse => head(calls::purge_response_filter(app, alloc)),
    }
}

/// The filters of pieces, of trailer fields and of messages.
#[derive(Clone, Copy)]
pub(crate) enum OfBody {
    Request,
    UpstreamResponse,
    Response,
    UpstreamTrailer,
    ResponseTrailer,
    DownstreamMessage,
    UpstreamMessage,
}

pub(crate) fn body_left<A: ProxyHttp + Drop>(
    app: Result<A>,
    alloc: Global,
    filter: OfBody,
) -> Result<Came> {
    match filter {
        OfBody::Request => left(calls::request_body_filter(app, alloc)),
        OfBody::UpstreamResponse => delayed(calls::upstream_response_body_filter(app, alloc)),
        OfBody::Response => delayed(calls::response_body_filter(app, alloc)),
        OfBody::UpstreamTrailer => count(calls::upstream_response_trailer_filter(app, alloc)),
        OfBody::ResponseTrailer => says(calls::response_trailer_filter(app, alloc)),
        OfBody::DownstreamMessage => left(calls::downstream_message(app, alloc)),
        OfBody::UpstreamMessage => left(calls::upstream_message(app, alloc)),
    }
}

/// The filters of the modules.
#[derive(Clone, Copy)]
pub(crate) enum OfModules {
    RequestBody,
    ResponseHeader,
    ResponseBody,
    ResponseTrailer,
    ResponseDone,
}

/// What came of the call, and how many were entered.
pub(crate) fn entered<A: ProxyHttp + Drop>(
    app: Result<A>,
    alloc: Global,
    filter: OfModules,
) -> Result<(Came, usize)> {
    match filter {
        OfModules::RequestBody => piece_of(calls::module_request_body(app, alloc)),
        OfModules::ResponseHeader => head_of(calls::module_response_header(app, alloc)),
        OfModules::ResponseBody => piece_of(calls::module_response_body(app, alloc)),
        OfModules::ResponseTrailer => answer_of(calls::module_response_trailer(app, alloc)),
        OfModules::ResponseDone => answer_of(calls::module_response_done(app, alloc)),
    }
}

fn went(answer: Result<()>) -> Result<Came> {
    answer?;
    Ok(Came::Went)
}

fn says(answer: Result<bool>) -> Result<Came> {
    Ok(Came::Says(answer?))
}

fn queued(answer: Result<(bool, usize)>) -> Result<Came> {
    let (say, count) = answer?;
    Ok(Came::Queued(say, count))
}

fn injected(answer: Result<(usize, usize)>) -> Result<Came> {
    let (up, down) = answer?;
    Ok(Came::Injected(up, down))
}

fn head(answer: Result<Told>) -> Result<Came> {
    Ok(Came::Head(answer?))
}

fn left(answer: Result<Option<u8>>) -> Result<Came> {
    Ok(Came::Left(answer?))
}

fn delayed(answer: Result<(Option<u64>, Option<u8>)>) -> Result<Came> {
    let (delay, first) = answer?;
    Ok(Came::Delayed(delay, first))
}

fn count(answer: Result<usize>) -> Result<Came> {
    Ok(Came::Count(answer?))
}

fn piece_of(answer: Result<(Option<u8>, usize)>) -> Result<(Came, usize)> {
    let (first, entries) = answer?;
    Ok((Came::Left(first), entries))
}

fn head_of(answer: Result<(Told, usize)>) -> Result<(Came, usize)> {
    let (told, entries) = answer?;
    Ok((Came::Head(told), entries))
}

fn answer_of(answer: Result<(bool, usize)>) -> Result<(Came, usize)> {
    let (say, entries) = answer?;
    Ok((Came::Says(say), entries))
}
