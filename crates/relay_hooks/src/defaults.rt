//! The default hooks as functions: what an application does that decides nothing itself (RFC 9110,
//! sections 9.2.2 and 15.6).
ghost use Rattle.std.specs.Prelude.{◌≡◌, false, IfOk, OnOk, OnErr, IsOkUnless, IsSome};
ghost use Rattle.relay_tasks.specs.Head.{IsStatus};
ghost use Rattle.relay_session.specs.Reading.{head_of};
ghost use Rattle.relay_session.specs.Summary.{request_summary};
ghost use Rattle.relay_modules.specs.Seen.{view_of};
ghost use Rattle.relay_hooks.specs.DefaultAnswer.{is_idempotent, marked_for_retry, code_or_500, client_code, code_by_source, answer_code};
ghost use Rattle.relay_hooks.specs.DefaultLaw.{is_owed, AnswersIf, AnswersOn};
ghost use Rattle.relay_hooks.specs.Session.{request_head, is_answered};

use crate::failing::FailToProxy;
use http::Method;
use relay_modules::{HttpModule, Session};
use relay_tasks::{Error, ErrorSource, ErrorType, Fail, Result};
use std::alloc::Global;

/// Whether a request with that method may be sent again: GET, HEAD, OPTIONS, TRACE, PUT and DELETE.
pub fn is_idempotent(method: &Method) -> bool
    ensures { result ≡ is_idempotent method.now }
{
    let name = method.as_str();
    name == "GET"
        || name == "HEAD"
        || name == "OPTIONS"
        || name == "TRACE"
        || name == "PUT"
        || name == "DELETE"
}

/// The error of an attempt that had reached its peer, marked: never to be tried again where the
/// method may not be repeated or not all of the request's body was kept, and else by its own mark,
/// now that it is known whether the link had been used before.
pub fn error_while_proxy<M>(session: &Session<M>, mut error: Error, client_reused: bool) -> Error
    requires { IsSome (head_of session.now.seen.downstream.reading) }
    ensures { result ≡ marked_for_retry (request_head session.now.seen).method
        (view_of session.now.seen).truncated client_reused error }
{
    let repeats = is_idempotent(session.seen.req_header().method());
    if repeats && !session.seen.view().truncated {
        error.retry.decide_reuse(client_reused);
    } else {
        error.set_retry(false);
    }
    error
}

/// The status with which an error is answered, or 0 for no answer. `HTTPStatus` names it (500 where
/// it names none). Else it is 502 for the upstream's errors, 500 for the relay's own and for those
/// of no side, and for the client's 0 where it reads no more, as after a failed read or write or
/// behind its end, and 400 for the others.
pub fn answer_code(error: &Error) -> u16
    ensures { result ≡ answer_code error.now.esource error.now.etype }
{
    match error.etype {
        ErrorType::HTTPStatus(code) => code_or_500(code),
        ErrorType::InvalidHTTPHeader
        | ErrorType::ReadError
        | ErrorType::ReadTimedout
        | ErrorType::WriteError
        | ErrorType::WriteTimedout
        | ErrorType::ConnectionClosed
        | ErrorType::ConnectError
        | ErrorType::PrematureBodyEnd
        | ErrorType::H2Error
        | ErrorType::H2Downgrade
        | ErrorType::InvalidH2
        | ErrorType::InternalError
        | ErrorType::FileReadError
        | ErrorType::Custom(_) => code_by_source(error.esource, error.etype),
    }
}

/// A status that an application named, or 500 where it is none.
fn code_or_500(code: u16) -> u16
    ensures { result ≡ code_or_500 code }
{
    if 100 <= code && code < 1000 {
        code
    } else {
        500
    }
}

/// The status of an error that names none, by whose it is.
fn code_by_source(side: ErrorSource, etype: ErrorType) -> u16
    ensures { result ≡ code_by_source side etype }
{
    match side {
        ErrorSource::Upstream => 502,
        ErrorSource::Downstream => client_code(etype),
        ErrorSource::Internal | ErrorSource::Unset => 500,
    }
}

/// The status of a client's own error, or 0 where there is no one to answer.
fn client_code(etype: ErrorType) -> u16
    ensures { result ≡ client_code etype }
{
    match etype {
        ErrorType::ReadError | ErrorType::WriteError | ErrorType::ConnectionClosed => 0,
        ErrorType::InvalidHTTPHeader
        | ErrorType::ReadTimedout
        | ErrorType::WriteTimedout
        | ErrorType::ConnectError
        | ErrorType::PrematureBodyEnd
        | ErrorType::H2Error
        | ErrorType::H2Downgrade
        | ErrorType::InvalidH2
        | ErrorType::InternalError
        | ErrorType::FileReadError
        | ErrorType::HTTPStatus(_)
        | ErrorType::Custom(_) => 400,
    }
}

/// Answers the client for a final error with the status of `answer_code`, where that is one and no
/// final head was queued; where a write failed before, nothing is queued. The client's connection
/// is not to be kept.
pub fn fail_to_proxy<M: HttpModule>(session: &mut Session<M>, error: &Error) -> Result<FailToProxy>
    ensures tells { IfOk result (λ told. told ≡ record {
      error_code = answer_code error.now.esource error.now.etype;
      can_reuse_downstream = false;
    }) }
    ensures answers { OnOk result (AnswersIf
        (is_owed (answer_code error.now.esource error.now.etype) (is_answered session.old.seen))
        (answer_code error.now.esource error.now.etype) session.old.seen session.new.seen) }
    ensures memory { IsOkUnless result Fail.OutOfMemory }
    ensures kept { OnErr result (session.new.seen ≡ session.old.seen) }
    ensures modules { session.new.modules ≡ session.old.modules }
{
    let error_code = answer_code(error);
    if error_code > 0 && !session.seen.downstream.response_written() {
        answer(session, error_code)?;
    }
    Ok(FailToProxy {
        error_code,
        can_reuse_downstream: false,
    })
}

/// Queues the answer with that status, where no write failed before.
fn answer<M: HttpModule>(session: &mut Session<M>, code: u16) -> Result<()>
    requires status { IsStatus code }
    requires owed { is_answered session.old.seen ≡ false }
    ensures answers { OnOk result (AnswersOn session.old.seen.downstream.writing.output code
        session.old.seen session.new.seen) }
    ensures memory { IsOkUnless result Fail.OutOfMemory }
    ensures kept { OnErr result (session.new.seen ≡ session.old.seen) }
    ensures modules { session.new.modules ≡ session.old.modules }
{
    match session.respond_error(code) {
        Ok(()) | Err(Fail::Error(_)) => Ok(()),
        Err(Fail::OutOfMemory) => Err(Fail::OutOfMemory),
    }
}

/// The request in one line: its method, its target, and its first Host or nothing.
pub fn request_summary<M>(alloc: Global, session: &Session<M>) -> Result<Vec<u8>>
    requires { IsSome (head_of session.now.seen.downstream.reading) }
    ensures ok { IfOk result (λ text.
        text.items ≡ request_summary (request_head session.now.seen)) }
    ensures memory { IsOkUnless result Fail.OutOfMemory }
{
    session.seen.downstream.request_summary(alloc)
}
