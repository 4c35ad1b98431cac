//! The request: its heads, those of the exchange in `examples/one_get.json`, and the session of its
//! client.
ghost use Rattle.std.specs.Prelude.{IsSome, OnOk};
ghost use Rattle.relay_session.specs.Reading.{head_of};

use bytes::Bytes;
use http::{Method, Version};
use http_header::{CONTENT_LENGTH, HOST, HeaderValue};
use relay_h1::Framing;
use relay_hooks::{NoModules, Session};
use relay_session::HttpSession;
use relay_tasks::{Error, ErrorType, Fail, Peer, PhaseLog, RequestHeader, ResponseHeader, Result};
use std::alloc::Global;

/// A client's session behind its head, and the head of the response.
#[derive(Drop)]
pub(crate) struct Request {
    pub(crate) session: Session<NoModules>,
    pub(crate) got: ResponseHeader,
}

impl Request {
    /// A request of which nothing was logged.
    pub(crate) fn new(alloc: Global) -> Result<Request> {
        let got = response_head(alloc)?;
        let client = HttpSession::begun_http1(alloc, request_head(alloc)?, Framing::Empty);
        Ok(Request {
            session: Session::new_h1_with_modules(alloc, client, NoModules),
            got,
        })
    }

    /// Lets go of the log and of what the heads have shared, as a next request has no log, and
    /// heads that have shared nothing.
    pub(crate) fn make_new(&mut self, alloc: Global) -> Result<()> {
        self.session.seen.log = PhaseLog::new(alloc);
        stands(&self.session)?;
        self.session.req_header_mut().set_send_end_stream(true);
        self.session.seen.begin_call();
        self.got.set_version(Version::HTTP_11);
        Ok(())
    }
}

/// Lets go of a request. To drop one is dear to prove, so it is done in no other place.
pub(crate) fn release(_request: Request) {}

/// A call is made only where the head stands that the client sent.
pub(crate) fn stands(session: &Session<NoModules>) -> Result<()>
    ensures { OnOk result (IsSome (head_of session.now.seen.downstream.reading)) }
{
    if session.seen.downstream.has_head() {
        Ok(())
    } else {
        Err(Fail::Error(Error::new(ErrorType::InternalError)))
    }
}

/// The peer that the application names.
pub(crate) fn peer() -> Peer {
    Peer {
        address: Bytes::from_static(b"127.0.0.1:80"),
        tls: false,
        allows_h1: true,
    }
}

/// The head of a GET.
fn request_head(alloc: Global) -> Result<RequestHeader> {
    let mut head = RequestHeader::build(alloc, &Method::GET, b"/a")?;
    head.insert_header(HOST, HeaderValue::from_static("h.example"))?;
    Ok(head)
}

/// The head of a response of two bytes.
fn response_head(alloc: Global) -> Result<ResponseHeader> {
    let mut head = ResponseHeader::build(alloc, 200)?;
    head.insert_header(CONTENT_LENGTH, HeaderValue::from_static("2"))?;
    Ok(head)
}
