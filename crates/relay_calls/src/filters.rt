//! The filters of an application that run while a message is relayed, each called and entered.
//!
//! Each call copies what the filter is given before it is made, and what the filter left behind it.
//! So it may be out of memory with no call made, and behind a call: then the log is as before.
ghost use Rattle.std.specs.Prelude.{◌≡◌, Some, IsSome};
ghost use Rattle.relay_tasks.specs.declared.log.Item.TheVariants as item;
ghost use Rattle.relay_session.specs.Reading.{head_of};
ghost use Rattle.relay_modules.specs.Module.{AllowsMade};
ghost use Rattle.relay_hooks.specs.Call.{changed, delayed, ended_by};
ghost use Rattle.relay_hooks.specs.Laws.{KeepsKindUnless};
ghost use Rattle.relay_calls.specs.Calls.{Calls, Enters};
ghost use Rattle.relay_calls.specs.Log.{IsAllowed, WalksOn};

use crate::answer::{delay_of, error_of, reply_of};
use crate::entry::{Outcome, begin, log_call};
use crate::item::{fields_item, head_item, piece_item, trailed_item};
use bytes::Bytes;
use http_header::HeaderMap;
use relay_hooks::{ProxyHttp, Session};
use relay_tasks::{Fail, Hook, ResponseHeader, Result};

/// Calls the filter of the pieces of the request's body; `end` says that the body ends with the
/// piece.
///
/// The error of the filter, which stands in its entry; what it left stays.
pub fn call_request_body_filter<SV: ProxyHttp>(
    app: &SV,
    session: &mut Session<SV::Modules>,
    ctx: &mut SV::CTX,
    body: &mut Option<Bytes>,
    end: bool,
) -> Result<()>
    requires { IsSome (head_of session.old.seen.downstream.reading) }
    ensures calls { Enters (changed (item.Piece body.new end) result)
        (Calls (SV.allows app.now) Hook.RequestBodyFilter (item.Piece body.old end)
        session.old.seen (SV.mark_of app.now ctx.old)
        session.new.seen (SV.mark_of app.now ctx.new)) session.old.seen session.new.seen }
    ensures walks { Enters (changed (item.Piece body.new end) result)
        (λ _. WalksOn (IsAllowed (SV.allows app.now)
        (AllowsMade SV.Modules.allows session.old.modules))
        session.old.seen (SV.mark_of app.now ctx.old)
        session.new.seen (SV.mark_of app.now ctx.new)) session.old.seen session.new.seen }
{
    let input = piece_item(body, end)?;
    let begun = begin(
        &mut session.seen,
        Hook::RequestBodyFilter,
        app.mark(ctx),
        input,
    );
    let alloc = session.seen.alloc;
    let answer = app.request_body_filter(alloc, session, body, end, ctx);
    let error = error_of(&answer)?;
    let left = piece_item(body, end)?;
    let outcome = Outcome {
        output: left.item,
        error,
        delay: None,
    };
    log_call(&mut session.seen, begun, outcome, app.mark(ctx))?;
    answer
}

/// Calls the filter of the heads as they came from the upstream; `end` says that the response ends
/// with the head.
///
/// The error of the filter, which stands in its entry; what it left stays.
pub fn call_upstream_response_filter<SV: ProxyHttp>(
    app: &SV,
    session: &mut Session<SV::Modules>,
    ctx: &mut SV::CTX,
    head: &mut ResponseHeader,
    end: bool,
) -> Result<()>
    requires { IsSome (head_of session.old.seen.downstream.reading) }
    ensures calls { Enters (changed (item.Response head.new end) result)
        (Calls (SV.allows app.now) Hook.UpstreamResponseFilter (item.Response head.old end)
        session.old.seen (SV.mark_of app.now ctx.old)
        session.new.seen (SV.mark_of app.now ctx.new)) session.old.seen session.new.seen }
    ensures kind { KeepsKindUnless result head.old head.new }
{
    let input = head_item(session.seen.alloc, head, end)?;
    let begun = begin(
        &mut session.seen,
        Hook::UpstreamResponseFilter,
        app.mark(ctx),
        input,
    );
    let alloc = session.seen.alloc;
    let answer = app.upstream_response_filter(alloc, session, head, ctx);
    let error = error_of(&answer)?;
    let left = head_item(session.seen.alloc, head, end)?;
    let outcome = Outcome {
        output: left.item,
        error,
        delay: None,
    };
    log_call(&mut session.seen, begun, outcome, app.mark(ctx))?;
    answer
}

/// Calls the filter of the heads that go to the client; `end` says that the response ends with the
/// head.
///
/// The error of the filter, which stands in its entry; what it left stays.
pub fn call_response_filter<SV: ProxyHttp>(
    app: &SV,
    session: &mut Session<SV::Modules>,
    ctx: &mut SV::CTX,
    head: &mut ResponseHeader,
    end: bool,
) -> Result<()>
    requires { IsSome (head_of session.old.seen.downstream.reading) }
    ensures calls { Enters (changed (item.Response head.new end) result)
        (Calls (SV.allows app.now) Hook.ResponseFilter (item.Response head.old end)
        session.old.seen (SV.mark_of app.now ctx.old)
        session.new.seen (SV.mark_of app.now ctx.new)) session.old.seen session.new.seen }
    ensures kind { KeepsKindUnless result head.old head.new }
{
    let input = head_item(session.seen.alloc, head, end)?;
    let begun = begin(
        &mut session.seen,
        Hook::ResponseFilter,
        app.mark(ctx),
        input,
    );
    let alloc = session.seen.alloc;
    let answer = app.response_filter(alloc, session, head, ctx);
    let error = error_of(&answer)?;
    let left = head_item(session.seen.alloc, head, end)?;
    let outcome = Outcome {
        output: left.item,
        error,
        delay: None,
    };
    log_call(&mut session.seen, begun, outcome, app.mark(ctx))?;
    answer
}

/// Calls the filter of the pieces of the response's body as they came from the upstream; `end` says
/// that the body ends with the piece. It answers the filter's delay in milliseconds, or none.
///
/// The error of the filter, which stands in its entry; what it left stays.
pub fn call_upstream_response_body_filter<SV: ProxyHttp>(
    app: &SV,
    session: &mut Session<SV::Modules>,
    ctx: &mut SV::CTX,
    body: &mut Option<Bytes>,
    end: bool,
) -> Result<Option<u64>>
    requires { IsSome (head_of session.old.seen.downstream.reading) }
    ensures calls { Enters (delayed (item.Piece body.new end) result)
        (Calls (SV.allows app.now) Hook.UpstreamResponseBodyFilter (item.Piece body.old end)
        session.old.seen (SV.mark_of app.now ctx.old)
        session.new.seen (SV.mark_of app.now ctx.new)) session.old.seen session.new.seen }
{
    let input = piece_item(body, end)?;
    let begun = begin(
        &mut session.seen,
        Hook::UpstreamResponseBodyFilter,
        app.mark(ctx),
        input,
    );
    let alloc = session.seen.alloc;
    let answer = app.upstream_response_body_filter(alloc, session, body, end, ctx);
    let error = error_of(&answer)?;
    let left = piece_item(body, end)?;
    let outcome = Outcome {
        output: left.item,
        error,
        delay: delay_of(&answer),
    };
    log_call(&mut session.seen, begun, outcome, app.mark(ctx))?;
    answer
}

/// Calls the filter of the pieces of the response's body that go to the client; `end` says that the
/// body ends with the piece. It answers the filter's delay in milliseconds, or none.
///
/// The error of the filter, which stands in its entry; what it left stays.
pub fn call_response_body_filter<SV: ProxyHttp>(
    app: &SV,
    session: &mut Session<SV::Modules>,
    ctx: &mut SV::CTX,
    body: &mut Option<Bytes>,
    end: bool,
) -> Result<Option<u64>>
    requires { IsSome (head_of session.old.seen.downstream.reading) }
    ensures calls { Enters (delayed (item.Piece body.new end) result)
        (Calls (SV.allows app.now) Hook.ResponseBodyFilter (item.Piece body.old end)
        session.old.seen (SV.mark_of app.now ctx.old)
        session.new.seen (SV.mark_of app.now ctx.new)) session.old.seen session.new.seen }
{
    let input = piece_item(body, end)?;
    let begun = begin(
        &mut session.seen,
        Hook::ResponseBodyFilter,
        app.mark(ctx),
        input,
    );
    let alloc = session.seen.alloc;
    let answer = app.response_body_filter(alloc, session, body, end, ctx);
    let error = error_of(&answer)?;
    let left = piece_item(body, end)?;
    let outcome = Outcome {
        output: left.item,
        error,
        delay: delay_of(&answer),
    };
    log_call(&mut session.seen, begun, outcome, app.mark(ctx))?;
    answer
}

/// Calls the filter of the trailer fields as they came from the upstream.
///
/// The error of the filter, which stands in its entry; what it left stays.
pub fn call_upstream_response_trailer_filter<SV: ProxyHttp>(
    app: &SV,
    session: &mut Session<SV::Modules>,
    ctx: &mut SV::CTX,
    trailers: &mut HeaderMap,
) -> Result<()>
    requires { IsSome (head_of session.old.seen.downstream.reading) }
    ensures calls { Enters (changed (item.Trailers (Some trailers.new)) result)
        (Calls (SV.allows app.now) Hook.UpstreamResponseTrailerFilter
        (item.Trailers (Some trailers.old))
        session.old.seen (SV.mark_of app.now ctx.old)
        session.new.seen (SV.mark_of app.now ctx.new)) session.old.seen session.new.seen }
{
    let input = fields_item(session.seen.alloc, trailers)?;
    let begun = begin(
        &mut session.seen,
        Hook::UpstreamResponseTrailerFilter,
        app.mark(ctx),
        input,
    );
    let alloc = session.seen.alloc;
    let answer = app.upstream_response_trailer_filter(alloc, session, trailers, ctx);
    let error = error_of(&answer)?;
    let left = fields_item(session.seen.alloc, trailers)?;
    let outcome = Outcome {
        output: left.item,
        error,
        delay: None,
    };
    log_call(&mut session.seen, begun, outcome, app.mark(ctx))?;
    answer
}

/// Calls the filter of the trailer fields that go to the client. Bytes that it answers end the body
/// in their place.
///
/// The error of the filter, which stands in its entry; what it left stays.
pub fn call_response_trailer_filter<SV: ProxyHttp>(
    app: &SV,
    session: &mut Session<SV::Modules>,
    ctx: &mut SV::CTX,
    trailers: &mut HeaderMap,
) -> Result<Option<Bytes>>
    requires { IsSome (head_of session.old.seen.downstream.reading) }
    ensures calls { Enters (ended_by trailers.new result)
        (Calls (SV.allows app.now) Hook.ResponseTrailerFilter (item.Trailers (Some trailers.old))
        session.old.seen (SV.mark_of app.now ctx.old)
        session.new.seen (SV.mark_of app.now ctx.new)) session.old.seen session.new.seen }
{
    let input = fields_item(session.seen.alloc, trailers)?;
    let begun = begin(
        &mut session.seen,
        Hook::ResponseTrailerFilter,
        app.mark(ctx),
        input,
    );
    let alloc = session.seen.alloc;
    let reply = reply_of(app.response_trailer_filter(alloc, session, trailers, ctx))?;
    let error = reply.error;
    let left = trailed_item(alloc, trailers, &reply.bytes)?;
    let outcome = Outcome {
        output: left.item,
        error,
        delay: None,
    };
    log_call(&mut session.seen, begun, outcome, app.mark(ctx))?;
    match error {
        Some(error) => Err(Fail::Error(error)),
        None => Ok(reply.bytes),
    }
}
