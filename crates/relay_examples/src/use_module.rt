//! A module that guards requests: one without the secret in its field Authorization is answered
//! 403, and no peer is asked (RFC 9110, sections 11.6.2 and 15.5.4). An application makes it.
ghost use Rattle.std.specs.Prelude.{◌≡◌};
ghost use Rattle.relay_examples.specs.Guard.{is_let_in};

use crate::memory::{REQUEST, RESPONSE, Scene};
use bytes::Bytes;
use http_header::{AUTHORIZATION, HeaderMap};
use relay_hooks::{
    FailToProxy, HttpModule, ProxyHttp, ProxyWarnLogContext, PurgeStatus, Session, defaults,
};
use relay_tasks::{
    Error, ErrorType, Fail, Injected, Peer, PurgeAction, RequestHeader, ResponseHeader, Result,
};
use std::alloc::Global;

/// A request without the secret, and one with it.
pub(crate) const SCENE: Scene = Scene {
    requests: &[
        REQUEST,
        "GET /b HTTP/1.1\r\nHost: h.example\r\nAuthorization: secret\r\n\r\n",
    ],
    response: &[RESPONSE],
    refused: 0,
};

/// A module that refuses the head of a request without the secret, and leaves all else
/// (`Guards`). So where the log tells of the call without an error, the request has the secret.
#[derive(Drop)]
pub struct Guard;

/// An application whose requests have that module, and which else decides nothing.
#[derive(Drop)]
pub struct Guarded {
    peer: Peer,
}

impl Guarded {
    ghost use Rattle.std.specs.Prelude.{◌≡◌};

    /// The application that relays to that peer.
    pub fn new(peer: Peer) -> Guarded
        ensures { result.peer ≡ peer }
    {
        Guarded { peer }
    }
}

/// Whether the head has the secret.
fn is_let_in(head: &RequestHeader) -> bool
    ensures { result ≡ is_let_in head.now }
{
    match head.headers().get(AUTHORIZATION) {
        Some(value) => value.as_bytes() == b"secret".as_slice(),
        None => false,
    }
}

impl HttpModule for Guard {
    ghost use Rattle.relay_examples.specs.Guard.{Guards};

    ghost allows = { λ _ call. Guards call };

    /// Refuses a head without the secret. The error names the status with which the client is
    /// answered.
    fn request_header_filter(&mut self, head: &mut RequestHeader) -> Result<()> {
        if is_let_in(head) {
            return Ok(());
        }
        Err(Fail::Error(Error::new_down(ErrorType::HTTPStatus(403))))
    }

    fn request_body_filter(&mut self, _body: &mut Option<Bytes>, _end: bool) -> Result<()> {
        Ok(())
    }

    fn response_header_filter(&mut self, _head: &mut ResponseHeader, _end: bool) -> Result<()> {
        Ok(())
    }

    fn response_body_filter(&mut self, _body: &mut Option<Bytes>, _end: bool) -> Result<()> {
        Ok(())
    }

    fn response_trailer_filter(
        &mut self,
        _trailers: &mut Option<HeaderMap>,
    ) -> Result<Option<Bytes>> {
        Ok(None)
    }

    fn response_done_filter(&mut self) -> Result<Option<Bytes>> {
        Ok(None)
    }
}

impl ProxyHttp for Guarded {
    ghost use Rattle.relay_hooks.specs.DefaultLaw.{IsDefault};

    type CTX = ();

    type Kept = ();

    type Modules = Guard;

    ghost allows = { λ app st e. IsDefault app.peer st e };

    ghost mark_of = { λ _ _. 0 };

    fn mark(&self, _ctx: &()) -> u64 {
        0
    }

    fn new_ctx(&self) {}

    /// A guard of its own for each request.
    fn init_downstream_modules(&self, _alloc: Global) -> Result<Guard> {
        Ok(Guard)
    }

    // All else is as by default: `Defaults` of relay_hooks has the same bodies.

    fn upstream_peer(
        &self,
        _alloc: Global,
        _session: &mut Session<Guard>,
        _ctx: &mut (),
    ) -> Result<Peer> {
        self.peer.copy()
    }

    fn early_request_filter(
        &self,
        _alloc: Global,
        _session: &mut Session<Guard>,
        _ctx: &mut (),
    ) -> Result<()> {
        Ok(())
    }

    fn allow_spawning_subrequest(&self, _session: &Session<Guard>, _ctx: &()) -> bool {
        false
    }

    fn request_filter(
        &self,
        _alloc: Global,
        _session: &mut Session<Guard>,
        _ctx: &mut (),
    ) -> Result<bool> {
        Ok(false)
    }

    fn request_body_filter(
        &self,
        _alloc: Global,
        _session: &mut Session<Guard>,
        _body: &mut Option<Bytes>,
        _end: bool,
        _ctx: &mut (),
    ) -> Result<()> {
        Ok(())
    }

    fn proxy_upstream_filter(
        &self,
        _alloc: Global,
        _session: &mut Session<Guard>,
        _ctx: &mut (),
    ) -> Result<bool> {
        Ok(true)
    }

    fn upstream_request_filter(
        &self,
        _alloc: Global,
        _session: &mut Session<Guard>,
        _head: &mut RequestHeader,
        _ctx: &mut (),
    ) -> Result<()> {
        Ok(())
    }

    fn upstream_response_filter(
        &self,
        _alloc: Global,
        _session: &mut Session<Guard>,
        _head: &mut ResponseHeader,
        _ctx: &mut (),
    ) -> Result<()> {
        Ok(())
    }

    fn response_filter(
        &self,
        _alloc: Global,
        _session: &mut Session<Guard>,
        _head: &mut ResponseHeader,
        _ctx: &mut (),
    ) -> Result<()> {
        Ok(())
    }

    fn custom_forwarding(
        &self,
        alloc: Global,
        _session: &mut Session<Guard>,
        _ctx: &mut (),
    ) -> Result<Injected> {
        Ok(Injected::new(alloc))
    }

    fn downstream_custom_message_proxy_filter(
        &self,
        _alloc: Global,
        _session: &mut Session<Guard>,
        message: Bytes,
        _ctx: &mut (),
        _final_hop: bool,
    ) -> Result<Option<Bytes>> {
        Ok(Some(message))
    }

    fn upstream_custom_message_proxy_filter(
        &self,
        _alloc: Global,
        _session: &mut Session<Guard>,
        message: Bytes,
        _ctx: &mut (),
        _final_hop: bool,
    ) -> Result<Option<Bytes>> {
        Ok(Some(message))
    }

    fn upstream_response_body_filter(
        &self,
        _alloc: Global,
        _session: &mut Session<Guard>,
        _body: &mut Option<Bytes>,
        _end: bool,
        _ctx: &mut (),
    ) -> Result<Option<u64>> {
        Ok(None)
    }

    fn upstream_response_trailer_filter(
        &self,
        _alloc: Global,
        _session: &mut Session<Guard>,
        _trailers: &mut HeaderMap,
        _ctx: &mut (),
    ) -> Result<()> {
        Ok(())
    }

    fn response_body_filter(
        &self,
        _alloc: Global,
        _session: &mut Session<Guard>,
        _body: &mut Option<Bytes>,
        _end: bool,
        _ctx: &mut (),
    ) -> Result<Option<u64>> {
        Ok(None)
    }

    fn response_trailer_filter(
        &self,
        _alloc: Global,
        _session: &mut Session<Guard>,
        _trailers: &mut HeaderMap,
        _ctx: &mut (),
    ) -> Result<Option<Bytes>> {
        Ok(None)
    }

    fn logging(&self, _session: &mut Session<Guard>, _error: Option<&Error>, _ctx: &mut ()) {}

    fn persist_connection_context(&self, _session: &Session<Guard>, _ctx: &()) -> Option<()> {
        None
    }

    fn on_connection_reuse(&self, _session: &mut Session<Guard>, _ctx: &mut (), _previous: ()) {}

    fn suppress_error_log(&self, _session: &Session<Guard>, _ctx: &(), _error: &Error) -> bool {
        false
    }

    fn suppress_proxy_warn_log(
        &self,
        _session: &Session<Guard>,
        _ctx: &(),
        _error: &Error,
        _context: ProxyWarnLogContext,
    ) -> bool {
        false
    }

    fn error_while_proxy(
        &self,
        _peer: &Peer,
        session: &mut Session<Guard>,
        error: Error,
        _ctx: &mut (),
        client_reused: bool,
    ) -> Error {
        defaults::error_while_proxy(session, error, client_reused)
    }

    fn fail_to_connect(
        &self,
        _session: &mut Session<Guard>,
        _peer: &Peer,
        _ctx: &mut (),
        error: Error,
    ) -> Error {
        error
    }

    fn fail_to_proxy(
        &self,
        _alloc: Global,
        session: &mut Session<Guard>,
        error: &Error,
        _ctx: &mut (),
    ) -> Result<FailToProxy> {
        defaults::fail_to_proxy(session, error)
    }

    fn connected_to_upstream(
        &self,
        _alloc: Global,
        _session: &mut Session<Guard>,
        _reused: bool,
        _peer: &Peer,
        _ctx: &mut (),
    ) -> Result<()> {
        Ok(())
    }

    fn request_summary(
        &self,
        alloc: Global,
        session: &Session<Guard>,
        _ctx: &(),
    ) -> Result<Vec<u8>> {
        defaults::request_summary(alloc, session)
    }

    fn is_purge(&self, _session: &Session<Guard>, _ctx: &()) -> bool {
        false
    }

    fn purge_action(&self, _session: &Session<Guard>, _ctx: &()) -> PurgeAction {
        PurgeAction::Delete
    }

    fn purge_response_filter(
        &self,
        _alloc: Global,
        _session: &Session<Guard>,
        _ctx: &mut (),
        _status: &PurgeStatus,
        _answer: &mut ResponseHeader,
    ) -> Result<()> {
        Ok(())
    }
}
