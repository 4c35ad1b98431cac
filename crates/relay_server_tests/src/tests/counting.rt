//! An application that counts its calls, and a module that writes a number for each piece.

use bytes::Bytes;
use http_header::HeaderMap;
use relay_hooks::{
    FailToProxy, HttpModule, ProxyHttp, ProxyWarnLogContext, PurgeStatus, Session, defaults,
};
use relay_tasks::{
    Error, Fail, Injected, Peer, PurgeAction, RequestHeader, ResponseHeader, Result,
};
use std::alloc::Global;

/// The digits that the first pieces become.
const DIGITS: [&str; 9] = ["1", "2", "3", "4", "5", "6", "7", "8", "9"];

/// A module that writes the digit k for the k-th piece of a response, counted from 1, and leaves
/// all else, as it does pieces for which there is no digit.
#[derive(Drop)]
pub(super) struct Digits {
    pieces: usize,
}

/// What is kept for one request: how many calls of hooks were handed it to be changed. It stands
/// still at its last value.
#[derive(Drop)]
pub(super) struct Visit {
    calls: u64,
}

/// An application that counts its calls and else decides nothing, but a delay for each piece of a
/// response that goes to the client, and whether another attempt follows each that failed. Its mark
/// is always 0, and tells nothing of the count. What its connection keeps is the count of its last
/// request.
#[derive(Drop)]
pub(super) struct Counting {
    delay: Option<u64>,
    tries_again: bool,
}

impl Counting {
    /// The application that asks for that delay, in milliseconds, or for none.
    pub(super) fn new(delay: Option<u64>) -> Counting {
        Counting {
            delay,
            tries_again: false,
        }
    }

    /// The application that marks the error of each attempt for another one.
    pub(super) fn trying_again() -> Counting {
        Counting {
            delay: None,
            tries_again: true,
        }
    }
}

impl Visit {
    /// Counts a call.
    fn count(&mut self) {
        self.calls = self.calls.saturating_add(1);
    }
}

impl HttpModule for Digits {
    ghost allows = { λ _ _. Unit {0} };

    fn request_header_filter(&mut self, _head: &mut RequestHeader) -> Result<()> {
        Ok(())
    }

    fn request_body_filter(&mut self, _body: &mut Option<Bytes>, _end: bool) -> Result<()> {
        Ok(())
    }

    fn response_header_filter(&mut self, _head: &mut ResponseHeader, _end: bool) -> Result<()> {
        Ok(())
    }

    fn response_body_filter(&mut self, body: &mut Option<Bytes>, _end: bool) -> Result<()> {
        if body.is_some() {
            if let Some(digit) = DIGITS.get(self.pieces) {
                *body = Some(Bytes::from_static(digit.as_bytes()));
            }
            self.pieces = self.pieces.saturating_add(1);
        }
        Ok(())
    }

    fn response_trailer_filter(
        &mut self,
        _trailers: &mut Option<HeaderMap>,
    ) -> Result<Option<Bytes>> {
        Ok(None)
    }

    fn response_done_filter(&mut self) -> Result<Option<Bytes>> {
        Ok(None)
    }
}

impl ProxyHttp for Counting {
    type CTX = Visit;

    type Kept = u64;

    type Modules = Digits;

    ghost allows = { λ _ _ _. Unit {0} };

    ghost mark_of = { λ _ _. 0 };

    fn mark(&self, _visit: &Visit) -> u64 {
        0
    }

    fn new_ctx(&self) -> Visit {
        Visit { calls: 0 }
    }

    fn init_downstream_modules(&self, _alloc: Global) -> Result<Digits> {
        Ok(Digits { pieces: 0 })
    }

    fn upstream_peer(
        &self,
        _alloc: Global,
        _session: &mut Session<Digits>,
        visit: &mut Visit,
    ) -> Result<Peer> {
        visit.count();
        Ok(Peer {
            address: Bytes::from_static(b"a"),
            tls: false,
            allows_h1: true,
        })
    }

    fn early_request_filter(
        &self,
        _alloc: Global,
        _session: &mut Session<Digits>,
        visit: &mut Visit,
    ) -> Result<()> {
        visit.count();
        Ok(())
    }

    fn allow_spawning_subrequest(&self, _session: &Session<Digits>, _visit: &Visit) -> bool {
        false
    }

    fn request_filter(
        &self,
        _alloc: Global,
        _session: &mut Session<Digits>,
        visit: &mut Visit,
    ) -> Result<bool> {
        visit.count();
        Ok(false)
    }

    fn request_body_filter(
        &self,
        _alloc: Global,
        _session: &mut Session<Digits>,
        _body: &mut Option<Bytes>,
        _end: bool,
        visit: &mut Visit,
    ) -> Result<()> {
        visit.count();
        Ok(())
    }

    fn proxy_upstream_filter(
        &self,
        _alloc: Global,
        _session: &mut Session<Digits>,
        visit: &mut Visit,
    ) -> Result<bool> {
        visit.count();
        Ok(true)
    }

    fn upstream_request_filter(
        &self,
        _alloc: Global,
        _session: &mut Session<Digits>,
        _head: &mut RequestHeader,
        visit: &mut Visit,
    ) -> Result<()> {
        visit.count();
        Ok(())
    }

    fn upstream_response_filter(
        &self,
        _alloc: Global,
        _session: &mut Session<Digits>,
        _head: &mut ResponseHeader,
        visit: &mut Visit,
    ) -> Result<()> {
        visit.count();
        Ok(())
    }

    fn response_filter(
        &self,
        _alloc: Global,
        _session: &mut Session<Digits>,
        _head: &mut ResponseHeader,
        visit: &mut Visit,
    ) -> Result<()> {
        visit.count();
        Ok(())
    }

    fn custom_forwarding(
        &self,
        alloc: Global,
        _session: &mut Session<Digits>,
        visit: &mut Visit,
    ) -> Result<Injected> {
        visit.count();
        Ok(Injected::new(alloc))
    }

    fn downstream_custom_message_proxy_filter(
        &self,
        _alloc: Global,
        _session: &mut Session<Digits>,
        message: Bytes,
        visit: &mut Visit,
        _final_hop: bool,
    ) -> Result<Option<Bytes>> {
        visit.count();
        Ok(Some(message))
    }

    fn upstream_custom_message_proxy_filter(
        &self,
        _alloc: Global,
        _session: &mut Session<Digits>,
        message: Bytes,
        visit: &mut Visit,
        _final_hop: bool,
    ) -> Result<Option<Bytes>> {
        visit.count();
        Ok(Some(message))
    }

    fn upstream_response_body_filter(
        &self,
        _alloc: Global,
        _session: &mut Session<Digits>,
        _body: &mut Option<Bytes>,
        _end: bool,
        visit: &mut Visit,
    ) -> Result<Option<u64>> {
        visit.count();
        Ok(None)
    }

    fn upstream_response_trailer_filter(
        &self,
        _alloc: Global,
        _session: &mut Session<Digits>,
        _trailers: &mut HeaderMap,
        visit: &mut Visit,
    ) -> Result<()> {
        visit.count();
        Ok(())
    }

    fn response_body_filter(
        &self,
        _alloc: Global,
        _session: &mut Session<Digits>,
        _body: &mut Option<Bytes>,
        _end: bool,
        visit: &mut Visit,
    ) -> Result<Option<u64>> {
        visit.count();
        Ok(self.delay)
    }

    fn response_trailer_filter(
        &self,
        _alloc: Global,
        _session: &mut Session<Digits>,
        _trailers: &mut HeaderMap,
        visit: &mut Visit,
    ) -> Result<Option<Bytes>> {
        visit.count();
        Ok(None)
    }

    fn logging(&self, _session: &mut Session<Digits>, _error: Option<&Error>, visit: &mut Visit) {
        visit.count();
    }

    fn persist_connection_context(&self, _session: &Session<Digits>, visit: &Visit) -> Option<u64> {
        Some(visit.calls)
    }

    fn on_connection_reuse(
        &self,
        _session: &mut Session<Digits>,
        visit: &mut Visit,
        _previous: u64,
    ) {
        visit.count();
    }

    fn suppress_error_log(
        &self,
        _session: &Session<Digits>,
        _visit: &Visit,
        _error: &Error,
    ) -> bool {
        false
    }

    fn suppress_proxy_warn_log(
        &self,
        _session: &Session<Digits>,
        _visit: &Visit,
        _error: &Error,
        _context: ProxyWarnLogContext,
    ) -> bool {
        false
    }

    fn error_while_proxy(
        &self,
        _peer: &Peer,
        session: &mut Session<Digits>,
        error: Error,
        visit: &mut Visit,
        client_reused: bool,
    ) -> Error {
        visit.count();
        let mut error = defaults::error_while_proxy(session, error, client_reused);
        if self.tries_again {
            error.set_retry(true);
        }
        error
    }

    fn fail_to_connect(
        &self,
        _session: &mut Session<Digits>,
        _peer: &Peer,
        visit: &mut Visit,
        error: Error,
    ) -> Error {
        visit.count();
        error
    }

    fn fail_to_proxy(
        &self,
        _alloc: Global,
        session: &mut Session<Digits>,
        error: &Error,
        visit: &mut Visit,
    ) -> Result<FailToProxy> {
        visit.count();
        defaults::fail_to_proxy(session, error)
    }

    fn connected_to_upstream(
        &self,
        _alloc: Global,
        _session: &mut Session<Digits>,
        _reused: bool,
        _peer: &Peer,
        visit: &mut Visit,
    ) -> Result<()> {
        visit.count();
        Ok(())
    }

    fn request_summary(
        &self,
        alloc: Global,
        session: &Session<Digits>,
        _visit: &Visit,
    ) -> Result<Vec<u8>> {
        defaults::request_summary(alloc, session)
    }

    fn is_purge(&self, _session: &Session<Digits>, _visit: &Visit) -> bool {
        false
    }

    fn purge_action(&self, _session: &Session<Digits>, _visit: &Visit) -> PurgeAction {
        PurgeAction::Delete
    }

    /// No request is a purge.
    fn purge_response_filter(
        &self,
        _alloc: Global,
        _session: &Session<Digits>,
        visit: &mut Visit,
        _status: &PurgeStatus,
        _answer: &mut ResponseHeader,
    ) -> Result<()> {
        visit.count();
        Err(Fail::OutOfMemory)
    }
}
