//! A response that is changed while it passes: the body of a text goes on in upper case, piece by
//! piece, and a field of its head says so (RFC 9110, section 7.7).
//!
//! Upper case keeps the length, so Content-Length may stay. Who changes the length removes that
//! field in `upstream_response_filter`: the relay frames behind that hook, and sends a client of
//! HTTP/1.1 a body of no stated length in chunks. Removed in `response_filter`, it leaves a body
//! that lasts until the connection ends, which serves no further request then. (An ETag of the
//! peer's is that of another body, and would have to go as well.)
ghost use Rattle.std.specs.Prelude.{◌≡◌, map, IfOk, IsOkUnless};
ghost use Rattle.std.specs.Char.{to_ascii_uppercase};
ghost use Rattle.relay_examples.specs.UpperCase.{is_text};

use crate::memory::{REQUEST, Scene};
use bytes::Bytes;
use http_header::{CONTENT_ENCODING, CONTENT_TYPE, HeaderMap, HeaderName, HeaderValue};
use relay_hooks::{
    FailToProxy, NoModules, ProxyHttp, ProxyWarnLogContext, PurgeStatus, Session, defaults,
};
use relay_tasks::{
    Error, Fail, Injected, Peer, PurgeAction, RequestHeader, ResponseHeader, Result,
};
use std::alloc::{AllocError, Global};

/// A text that comes in two reads, of which the first ends inside its body.
pub(crate) const SCENE: Scene = Scene {
    requests: &[REQUEST],
    response: &[
        "HTTP/1.1 200 OK\r\nContent-Type: text/plain\r\nContent-Length: 13\r\n\r\nHello, ",
        "world!",
    ],
    refused: 0,
};

/// An application that writes texts in upper case. Its relation is that, exactly: the entry of
/// each call in the log tells a piece that it left so, a head to which it added the field, or what
/// `Defaults` does (`IsUpperCase`).
#[derive(Drop)]
pub struct UpperCase {
    peer: Peer,
}

/// What is kept for one request: whether the head that passed last is that of a text. Its mark in
/// the log is 1 then, and else 0, so that the entry of a piece shows what it belongs to.
#[derive(Drop)]
pub struct Passing {
    is_text: bool,
}

impl UpperCase {
    ghost use Rattle.std.specs.Prelude.{◌≡◌};

    /// The application that relays to that peer.
    pub fn new(peer: Peer) -> UpperCase
        ensures { result.peer ≡ peer }
    {
        UpperCase { peer }
    }
}

/// Whether the body behind a head is a text of which the bytes are the letters: it is not coded.
fn is_text(head: &ResponseHeader) -> bool
    ensures { result ≡ is_text head.now }
{
    let fields = head.headers();
    match (fields.get(CONTENT_TYPE), fields.get(CONTENT_ENCODING)) {
        (Some(media_type), None) => media_type.as_bytes().starts_with(b"text/"),
        (Some(_), Some(_)) | (None, _) => false,
    }
}

/// The piece with its ASCII letters in upper case.
fn upper_case(alloc: Global, piece: &Bytes) -> Result<Bytes>
    ensures ok { IfOk result (λ upper. upper ≡ map to_ascii_uppercase piece.now) }
    ensures memory { IsOkUnless result Fail.OutOfMemory }
{
    let text = piece.as_slice().to_ascii_uppercase(alloc)?;
    Ok(Bytes::from_vec(text).map_err(AllocError::from)?)
}

impl ProxyHttp for UpperCase {
    ghost use Rattle.relay_examples.specs.UpperCase.{IsUpperCase, text_mark};

    type CTX = Passing;

    type Kept = ();

    type Modules = NoModules;

    ghost allows = { λ app st e. IsUpperCase app.peer st e };

    ghost mark_of = { λ _ passing. text_mark passing.is_text };

    fn mark(&self, passing: &Passing) -> u64 {
        if passing.is_text { 1 } else { 0 }
    }

    fn new_ctx(&self) -> Passing {
        Passing { is_text: false }
    }

    /// Says in the head of a text that its body is in upper case.
    fn response_filter(
        &self,
        _alloc: Global,
        _session: &mut Session<NoModules>,
        head: &mut ResponseHeader,
        passing: &mut Passing,
    ) -> Result<()> {
        passing.is_text = is_text(head);
        if passing.is_text {
            let name = HeaderName::from_static("x-case");
            head.insert_header(name, HeaderValue::from_static("upper"))?;
        }
        Ok(())
    }

    /// Writes a piece of a text in upper case. No delay is asked for.
    fn response_body_filter(
        &self,
        alloc: Global,
        _session: &mut Session<NoModules>,
        body: &mut Option<Bytes>,
        _end: bool,
        passing: &mut Passing,
    ) -> Result<Option<u64>> {
        if passing.is_text {
            if let Some(piece) = body {
                *piece = upper_case(alloc, piece)?;
            }
        }
        Ok(None)
    }

    // All else is as by default: `Defaults` of relay_hooks has the same bodies.

    fn upstream_peer(
        &self,
        _alloc: Global,
        _session: &mut Session<NoModules>,
        _ctx: &mut Passing,
    ) -> Result<Peer> {
        self.peer.copy()
    }

    fn init_downstream_modules(&self, _alloc: Global) -> Result<NoModules> {
        Ok(NoModules)
    }

    fn early_request_filter(
        &self,
        _alloc: Global,
        _session: &mut Session<NoModules>,
        _ctx: &mut Passing,
    ) -> Result<()> {
        Ok(())
    }

    fn allow_spawning_subrequest(&self, _session: &Session<NoModules>, _ctx: &Passing) -> bool {
        false
    }

    fn request_filter(
        &self,
        _alloc: Global,
        _session: &mut Session<NoModules>,
        _ctx: &mut Passing,
    ) -> Result<bool> {
        Ok(false)
    }

    fn request_body_filter(
        &self,
        _alloc: Global,
        _session: &mut Session<NoModules>,
        _body: &mut Option<Bytes>,
        _end: bool,
        _ctx: &mut Passing,
    ) -> Result<()> {
        Ok(())
    }

    fn proxy_upstream_filter(
        &self,
        _alloc: Global,
        _session: &mut Session<NoModules>,
        _ctx: &mut Passing,
    ) -> Result<bool> {
        Ok(true)
    }

    fn upstream_request_filter(
        &self,
        _alloc: Global,
        _session: &mut Session<NoModules>,
        _head: &mut RequestHeader,
        _ctx: &mut Passing,
    ) -> Result<()> {
        Ok(())
    }

    fn upstream_response_filter(
        &self,
        _alloc: Global,
        _session: &mut Session<NoModules>,
        _head: &mut ResponseHeader,
        _ctx: &mut Passing,
    ) -> Result<()> {
        Ok(())
    }

    fn custom_forwarding(
        &self,
        alloc: Global,
        _session: &mut Session<NoModules>,
        _ctx: &mut Passing,
    ) -> Result<Injected> {
        Ok(Injected::new(alloc))
    }

    fn downstream_custom_message_proxy_filter(
        &self,
        _alloc: Global,
        _session: &mut Session<NoModules>,
        message: Bytes,
        _ctx: &mut Passing,
        _final_hop: bool,
    ) -> Result<Option<Bytes>> {
        Ok(Some(message))
    }

    fn upstream_custom_message_proxy_filter(
        &self,
        _alloc: Global,
        _session: &mut Session<NoModules>,
        message: Bytes,
        _ctx: &mut Passing,
        _final_hop: bool,
    ) -> Result<Option<Bytes>> {
        Ok(Some(message))
    }

    fn upstream_response_body_filter(
        &self,
        _alloc: Global,
        _session: &mut Session<NoModules>,
        _body: &mut Option<Bytes>,
        _end: bool,
        _ctx: &mut Passing,
    ) -> Result<Option<u64>> {
        Ok(None)
    }

    fn upstream_response_trailer_filter(
        &self,
        _alloc: Global,
        _session: &mut Session<NoModules>,
        _trailers: &mut HeaderMap,
        _ctx: &mut Passing,
    ) -> Result<()> {
        Ok(())
    }

    fn response_trailer_filter(
        &self,
        _alloc: Global,
        _session: &mut Session<NoModules>,
        _trailers: &mut HeaderMap,
        _ctx: &mut Passing,
    ) -> Result<Option<Bytes>> {
        Ok(None)
    }

    fn logging(
        &self,
        _session: &mut Session<NoModules>,
        _error: Option<&Error>,
        _ctx: &mut Passing,
    ) {}

    fn persist_connection_context(
        &self,
        _session: &Session<NoModules>,
        _ctx: &Passing,
    ) -> Option<()> {
        None
    }

    fn on_connection_reuse(
        &self,
        _session: &mut Session<NoModules>,
        _ctx: &mut Passing,
        _previous: (),
    ) {}

    fn suppress_error_log(
        &self,
        _session: &Session<NoModules>,
        _ctx: &Passing,
        _error: &Error,
    ) -> bool {
        false
    }

    fn suppress_proxy_warn_log(
        &self,
        _session: &Session<NoModules>,
        _ctx: &Passing,
        _error: &Error,
        _context: ProxyWarnLogContext,
    ) -> bool {
        false
    }

    fn error_while_proxy(
        &self,
        _peer: &Peer,
        session: &mut Session<NoModules>,
        error: Error,
        _ctx: &mut Passing,
        client_reused: bool,
    ) -> Error {
        defaults::error_while_proxy(session, error, client_reused)
    }

    fn fail_to_connect(
        &self,
        _session: &mut Session<NoModules>,
        _peer: &Peer,
        _ctx: &mut Passing,
        error: Error,
    ) -> Error {
        error
    }

    fn fail_to_proxy(
        &self,
        _alloc: Global,
        session: &mut Session<NoModules>,
        error: &Error,
        _ctx: &mut Passing,
    ) -> Result<FailToProxy> {
        defaults::fail_to_proxy(session, error)
    }

    fn connected_to_upstream(
        &self,
        _alloc: Global,
        _session: &mut Session<NoModules>,
        _reused: bool,
        _peer: &Peer,
        _ctx: &mut Passing,
    ) -> Result<()> {
        Ok(())
    }

    fn request_summary(
        &self,
        alloc: Global,
        session: &Session<NoModules>,
        _ctx: &Passing,
    ) -> Result<Vec<u8>> {
        defaults::request_summary(alloc, session)
    }

    fn is_purge(&self, _session: &Session<NoModules>, _ctx: &Passing) -> bool {
        false
    }

    fn purge_action(&self, _session: &Session<NoModules>, _ctx: &Passing) -> PurgeAction {
        PurgeAction::Delete
    }

    fn purge_response_filter(
        &self,
        _alloc: Global,
        _session: &Session<NoModules>,
        _ctx: &mut Passing,
        _status: &PurgeStatus,
        _answer: &mut ResponseHeader,
    ) -> Result<()> {
        Ok(())
    }
}
