//! What the bytes that were read so far are: not yet a head, a head, or refused for good
//! (RFC 9112, sections 2 and 6).
ghost use Rattle.std.specs.Prelude.{◌≡◌, ◌≤◌, length};
ghost use Rattle.relay_tasks.specs.Error.{refused};
ghost use Rattle.relay_h1.specs.Head.{IsOneHead, most_bytes};
ghost use Rattle.relay_h1.specs.Verdict.{JudgesRequest, JudgesResponse, LocatesHead, fail_from, AdmitsRequest, AdmitsResponse, settled};

use crate::ahead::Ahead;
use crate::framing::{Framing, request_framing, response_framing};
use crate::head::{MAX_HEAD, read_one_request, read_one_response};
use http::Method;
use http_header::CONTENT_LENGTH;
use relay_tasks::{
    Context, Error, ErrorSource, ErrorType, Fail, RequestHeader, ResponseHeader, Result,
};
use std::alloc::Global;

/// A request head that was read, with its framing.
#[derive(Drop)]
pub struct RequestRead {
    pub head: RequestHeader,
    pub framing: Framing,
    /// How many bytes the head has.
    pub len: usize,
}

/// A response head that was read, with its framing settled.
#[derive(Drop)]
pub struct ResponseRead {
    pub head: ResponseHeader,
    pub framing: Framing,
    /// How many bytes the head has.
    pub len: usize,
}

/// The request head at the front of the bytes ahead, none as long as it has not come whole. The
/// bytes stay.
///
/// `InvalidHTTPHeader` of the source `Downstream`, about `HeadTooLong` (no head ends in the first
/// 65,536 bytes), `HeadGrammar` (the text up to the end is no request head) or `BadFraming` (its
/// framing fields are refused). What the head says of its authority is not looked at here.
pub fn judge_request(alloc: Global, ahead: &mut Ahead) -> Result<Option<RequestRead>>
    ensures verdict { JudgesRequest ahead.old result }
    ensures same { ahead.new ≡ ahead.old }
{
    match locate_head(ahead) {
        Ok(Some(len)) => match admit_request(alloc, &ahead.bytes()[..len]) {
            Ok(read) => Ok(Some(read)),
            Err(fail) => Err(fail_from(fail, ErrorSource::Downstream)),
        },
        Ok(None) => Ok(None),
        Err(error) => Err(Fail::Error(error.into_down())),
    }
}

/// How long the head at the front is; none as long as none ends, unless it is too long.
fn locate_head(ahead: &mut Ahead) -> std::result::Result<Option<usize>, Error>
    ensures place { LocatesHead ahead.old result }
    ensures same { ahead.new ≡ ahead.old }
{
    match ahead.head_end() {
        Some(len) if len > MAX_HEAD => Err(too_long()),
        Some(len) => Ok(Some(len)),
        None if ahead.len() < MAX_HEAD => Ok(None),
        None => Err(too_long()),
    }
}

fn too_long() -> Error
    ensures { result ≡ refused Context.HeadTooLong }
{
    Error::explain(ErrorType::InvalidHTTPHeader, Context::HeadTooLong)
}

/// Reads the text of a request head and frames it.
fn admit_request(alloc: Global, text: &[u8]) -> Result<RequestRead>
    requires short { length text.now ≤ most_bytes }
    requires ends { IsOneHead text.now }
    ensures { AdmitsRequest text.now result }
{
    let head = read_one_request(alloc, text)?;
    match request_framing(&head) {
        Ok(framing) => Ok(RequestRead {
            head,
            framing,
            len: text.len(),
        }),
        Err(error) => Err(Fail::Error(error)),
    }
}

/// The failure, as one of that side.
fn fail_from(fail: Fail, side: ErrorSource) -> Fail
    ensures { result ≡ fail_from fail side }
{
    match fail {
        Fail::OutOfMemory => Fail::OutOfMemory,
        Fail::Error(error) => Fail::Error(Error {
            esource: side,
            ..error
        }),
    }
}

/// The response head at the front of the bytes ahead, none as long as it has not come whole, read
/// as the response to a request of that method; `asked` is whether the request asked for an
/// upgrade. The bytes stay.
///
/// `InvalidHTTPHeader` of the source `Upstream`, about `HeadTooLong` (no head ends in the first
/// 65,536 bytes), `HeadGrammar` (the text up to the end is no response head) or `BadFraming` (its
/// framing fields are refused).
pub fn judge_response(
    alloc: Global,
    ahead: &mut Ahead,
    method: &Method,
    asked: bool,
) -> Result<Option<ResponseRead>>
    ensures verdict { JudgesResponse method.now asked ahead.old result }
    ensures same { ahead.new ≡ ahead.old }
{
    match locate_head(ahead) {
        Ok(Some(len)) => match admit_response(alloc, &ahead.bytes()[..len], method, asked) {
            Ok(read) => Ok(Some(read)),
            Err(fail) => Err(fail_from(fail, ErrorSource::Upstream)),
        },
        Ok(None) => Ok(None),
        Err(error) => Err(Fail::Error(error.into_up())),
    }
}

/// Reads the text of a response head, frames it and settles its framing fields.
fn admit_response(alloc: Global, text: &[u8], method: &Method, asked: bool) -> Result<ResponseRead>
    requires short { length text.now ≤ most_bytes }
    requires ends { IsOneHead text.now }
    ensures { AdmitsResponse method.now asked text.now result }
{
    let mut head = read_one_response(alloc, text)?;
    match response_framing(method, asked, &head) {
        Ok(framing) => {
            settle(framing, &mut head);
            Ok(ResponseRead {
                head,
                framing,
                len: text.len(),
            })
        }
        Err(error) => Err(Fail::Error(error)),
    }
}

pub(crate) fn settle(framing: Framing, head: &mut ResponseHeader)
    ensures { head.new ≡ settled framing head.old }
{
    match framing {
        Framing::Chunked => {
            let _ = head.remove_header(&CONTENT_LENGTH);
        }
        Framing::Empty | Framing::Length(_) | Framing::UntilClose | Framing::Tunnel => {}
    }
}
