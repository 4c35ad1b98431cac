//! The filters of the modules that run while a message is relayed, each called and entered. They
//! are called only where modules were made: before that no module filters, and no entry says so.
//!
//! A call leaves the context, and its entry has its mark. It may be out of memory as with the
//! filters of an application.
ghost use Rattle.std.specs.Prelude.{◌≡◌, IsSome};
ghost use Rattle.relay_session.specs.Reading.{head_of};
ghost use Rattle.relay_h1.specs.ClientHead.{is_informational};
ghost use Rattle.relay_modules.specs.Module.{ModuleCall, AllowsMade, request_body, response_header, response_body, response_trailer, response_done};
ghost use Rattle.relay_calls.specs.Calls.{Enters};
ghost use Rattle.relay_calls.specs.Log.{IsAllowed, WalksOn};
ghost use Rattle.relay_calls.specs.Modules.{CallsModule, called, replied};

use crate::answer::{error_of, reply_of};
use crate::entry::{Outcome, begin, log_call};
use crate::item::{head_item, nothing, piece_item, piece_or, trailers_item};
use bytes::Bytes;
use http_header::HeaderMap;
use relay_hooks::{HttpModule, ProxyHttp, Session};
use relay_tasks::{Fail, Hook, ResponseHeader, Result};

/// Calls the modules' filter of the pieces of the request's body; `end` says that the body ends
/// with the piece.
///
/// The error of the filter, which stands in its entry; what it left stays.
pub fn call_module_request_body<SV: ProxyHttp>(
    app: &SV,
    session: &mut Session<SV::Modules>,
    ctx: &SV::CTX,
    body: &mut Option<Bytes>,
    end: bool,
) -> Result<()>
    requires read { IsSome (head_of session.old.seen.downstream.reading) }
    requires made { IsSome session.old.modules }
    ensures calls { Enters (called (λ error. request_body body.old body.new end error) result)
        (CallsModule (AllowsMade SV.Modules.allows session.old.modules) session.old.seen
        (SV.mark_of app.now ctx.now) session.new.seen)
        session.old.seen session.new.seen }
    ensures walks { Enters (called (λ error. request_body body.old body.new end error) result)
        (λ _. WalksOn (IsAllowed (SV.allows app.now)
        (AllowsMade SV.Modules.allows session.old.modules))
        session.old.seen (SV.mark_of app.now ctx.now)
        session.new.seen (SV.mark_of app.now ctx.now)) session.old.seen session.new.seen }
    ensures stands { IsSome session.new.modules }
    ensures narrows { (call : ModuleCall) → AllowsMade SV.Modules.allows session.new.modules call
        → AllowsMade SV.Modules.allows session.old.modules call }
{
    let input = piece_item(body, end)?;
    let mark = app.mark(ctx);
    let begun = begin(&mut session.seen, Hook::ModuleRequestBody, mark, input);
    let answer = match &mut session.modules {
        Some(modules) => modules.request_body_filter(body, end),
        None => unreachable!(),
    };
    let error = error_of(&answer)?;
    let left = piece_item(body, end)?;
    let outcome = Outcome {
        output: left.item,
        error,
        delay: None,
    };
    log_call(&mut session.seen, begun, outcome, mark)?;
    answer
}

/// Calls the modules' filter of the heads of the response; `end` says that the response ends with
/// the head.
///
/// The error of the filter, which stands in its entry; what it left stays.
pub fn call_module_response_header<SV: ProxyHttp>(
    app: &SV,
    session: &mut Session<SV::Modules>,
    ctx: &SV::CTX,
    head: &mut ResponseHeader,
    end: bool,
) -> Result<()>
    requires read { IsSome (head_of session.old.seen.downstream.reading) }
    requires made { IsSome session.old.modules }
    ensures calls { Enters (called (λ error. response_header head.old head.new end error) result)
        (CallsModule (AllowsMade SV.Modules.allows session.old.modules) session.old.seen
        (SV.mark_of app.now ctx.now) session.new.seen)
        session.old.seen session.new.seen }
    ensures stands { IsSome session.new.modules }
    ensures narrows { (call : ModuleCall) → AllowsMade SV.Modules.allows session.new.modules call
        → AllowsMade SV.Modules.allows session.old.modules call }
    ensures kind { is_informational head.new.status ≡ is_informational head.old.status }
{
    let input = head_item(session.seen.alloc, head, end)?;
    let mark = app.mark(ctx);
    let begun = begin(&mut session.seen, Hook::ModuleResponseHeader, mark, input);
    let answer = match &mut session.modules {
        Some(modules) => modules.response_header_filter(head, end),
        None => unreachable!(),
    };
    let error = error_of(&answer)?;
    let left = head_item(session.seen.alloc, head, end)?;
    let outcome = Outcome {
        output: left.item,
        error,
        delay: None,
    };
    log_call(&mut session.seen, begun, outcome, mark)?;
    answer
}

/// Calls the modules' filter of the pieces of the response's body; `end` says that the body ends
/// with the piece.
///
/// The error of the filter, which stands in its entry; what it left stays.
pub fn call_module_response_body<SV: ProxyHttp>(
    app: &SV,
    session: &mut Session<SV::Modules>,
    ctx: &SV::CTX,
    body: &mut Option<Bytes>,
    end: bool,
) -> Result<()>
    requires read { IsSome (head_of session.old.seen.downstream.reading) }
    requires made { IsSome session.old.modules }
    ensures calls { Enters (called (λ error. response_body body.old body.new end error) result)
        (CallsModule (AllowsMade SV.Modules.allows session.old.modules) session.old.seen
        (SV.mark_of app.now ctx.now) session.new.seen)
        session.old.seen session.new.seen }
    ensures stands { IsSome session.new.modules }
    ensures narrows { (call : ModuleCall) → AllowsMade SV.Modules.allows session.new.modules call
        → AllowsMade SV.Modules.allows session.old.modules call }
{
    let input = piece_item(body, end)?;
    let mark = app.mark(ctx);
    let begun = begin(&mut session.seen, Hook::ModuleResponseBody, mark, input);
    let answer = match &mut session.modules {
        Some(modules) => modules.response_body_filter(body, end),
        None => unreachable!(),
    };
    let error = error_of(&answer)?;
    let left = piece_item(body, end)?;
    let outcome = Outcome {
        output: left.item,
        error,
        delay: None,
    };
    log_call(&mut session.seen, begun, outcome, mark)?;
    answer
}

/// Calls the modules' filter of the trailer fields of the response. Bytes that it answers end the
/// body in their place.
///
/// The error of the filter, which stands in its entry; what it left stays.
pub fn call_module_response_trailer<SV: ProxyHttp>(
    app: &SV,
    session: &mut Session<SV::Modules>,
    ctx: &SV::CTX,
    trailers: &mut Option<HeaderMap>,
) -> Result<Option<Bytes>>
    requires read { IsSome (head_of session.old.seen.downstream.reading) }
    requires made { IsSome session.old.modules }
    ensures calls { Enters (replied
        (λ answer error. response_trailer trailers.old trailers.new answer error) result)
        (CallsModule (AllowsMade SV.Modules.allows session.old.modules) session.old.seen
        (SV.mark_of app.now ctx.now) session.new.seen)
        session.old.seen session.new.seen }
    ensures stands { IsSome session.new.modules }
    ensures narrows { (call : ModuleCall) → AllowsMade SV.Modules.allows session.new.modules call
        → AllowsMade SV.Modules.allows session.old.modules call }
{
    let input = trailers_item(session.seen.alloc, trailers)?;
    let mark = app.mark(ctx);
    let begun = begin(&mut session.seen, Hook::ModuleResponseTrailer, mark, input);
    let answer = match &mut session.modules {
        Some(modules) => modules.response_trailer_filter(trailers),
        None => unreachable!(),
    };
    let reply = reply_of(answer)?;
    let error = reply.error;
    let left = piece_or(&reply.bytes, trailers_item(session.seen.alloc, trailers)?)?;
    let outcome = Outcome {
        output: left.item,
        error,
        delay: None,
    };
    log_call(&mut session.seen, begun, outcome, mark)?;
    match error {
        Some(error) => Err(Fail::Error(error)),
        None => Ok(reply.bytes),
    }
}

/// Calls the modules' filter of the end of a response. Bytes that it answers end the body.
///
/// The error of the filter, which stands in its entry.
pub fn call_module_response_done<SV: ProxyHttp>(
    app: &SV,
    session: &mut Session<SV::Modules>,
    ctx: &SV::CTX,
) -> Result<Option<Bytes>>
    requires read { IsSome (head_of session.old.seen.downstream.reading) }
    requires made { IsSome session.old.modules }
    ensures calls { Enters (replied response_done result)
        (CallsModule (AllowsMade SV.Modules.allows session.old.modules) session.old.seen
        (SV.mark_of app.now ctx.now) session.new.seen)
        session.old.seen session.new.seen }
    ensures stands { IsSome session.new.modules }
    ensures narrows { (call : ModuleCall) → AllowsMade SV.Modules.allows session.new.modules call
        → AllowsMade SV.Modules.allows session.old.modules call }
{
    let input = nothing();
    let mark = app.mark(ctx);
    let begun = begin(&mut session.seen, Hook::ModuleResponseDone, mark, input);
    let answer = match &mut session.modules {
        Some(modules) => modules.response_done_filter(),
        None => unreachable!(),
    };
    let reply = reply_of(answer)?;
    let error = reply.error;
    let left = piece_or(&reply.bytes, nothing())?;
    let outcome = Outcome {
        output: left.item,
        error,
        delay: None,
    };
    log_call(&mut session.seen, begun, outcome, mark)?;
    match error {
        Some(error) => Err(Fail::Error(error)),
        None => Ok(reply.bytes),
    }
}
