//! The application that decides nothing itself: each of its hooks is the default.

use crate::defaults;
use crate::failing::{FailToProxy, ProxyWarnLogContext};
use crate::hooks::ProxyHttp;
use crate::purge::PurgeStatus;
use bytes::Bytes;
use http_header::HeaderMap;
use relay_modules::{NoModules, Session};
use relay_tasks::{Error, Injected, Peer, PurgeAction, RequestHeader, ResponseHeader, Result};
use std::alloc::Global;

/// An application that relays each request to one peer, and leaves it as it came. Its relation is
/// each default, exactly; its context is empty, and its mark 0.
#[derive(Drop)]
pub struct Defaults {
    peer: Peer,
}

impl Defaults {
    ghost use Rattle.std.specs.Prelude.{◌≡◌};

    /// The application that relays to that peer.
    pub fn new(peer: Peer) -> Defaults
        ensures { result.peer ≡ peer }
    {
        Defaults { peer }
    }
}

impl ProxyHttp for Defaults {
    ghost use Rattle.relay_hooks.specs.DefaultLaw.{IsDefault};

    type CTX = ();

    type Kept = ();

    type Modules = NoModules;

    ghost allows = { λ app st e. IsDefault app.peer st e };

    ghost mark_of = { λ _ _. 0 };

    fn mark(&self, _ctx: &()) -> u64 {
        0
    }

    fn new_ctx(&self) {}

    fn upstream_peer(
        &self,
        _alloc: Global,
        _session: &mut Session<NoModules>,
        _ctx: &mut (),
    ) -> Result<Peer> {
        self.peer.copy()
    }

    fn init_downstream_modules(&self, _alloc: Global) -> Result<NoModules> {
        Ok(NoModules)
    }

    fn early_request_filter(
        &self,
        _alloc: Global,
        _session: &mut Session<NoModules>,
        _ctx: &mut (),
    ) -> Result<()> {
        Ok(())
    }

    fn allow_spawning_subrequest(&self, _session: &Session<NoModules>, _ctx: &()) -> bool {
        false
    }

    fn request_filter(
        &self,
        _alloc: Global,
        _session: &mut Session<NoModules>,
        _ctx: &mut (),
    ) -> Result<bool> {
        Ok(false)
    }

    fn request_body_filter(
        &self,
        _alloc: Global,
        _session: &mut Session<NoModules>,
        _body: &mut Option<Bytes>,
        _end: bool,
        _ctx: &mut (),
    ) -> Result<()> {
        // the piece goes on as it is
        Ok(())
    }

    fn proxy_upstream_filter(
        &self,
        _alloc: Global,
        _session: &mut Session<NoModules>,
        _ctx: &mut (),
    ) -> Result<bool> {
        Ok(true)
    }

    fn upstream_request_filter(
        &self,
        _alloc: Global,
        _session: &mut Session<NoModules>,
        _head: &mut RequestHeader,
        _ctx: &mut (),
    ) -> Result<()> {
        Ok(())
    }

    fn upstream_response_filter(
        &self,
        _alloc: Global,
        _session: &mut Session<NoModules>,
        _head: &mut ResponseHeader,
        _ctx: &mut (),
    ) -> Result<()> {
        Ok(())
    }

    fn response_filter(
        &self,
        _alloc: Global,
        _session: &mut Session<NoModules>,
        _head: &mut ResponseHeader,
        _ctx: &mut (),
    ) -> Result<()> {
        Ok(())
    }

    fn custom_forwarding(
        &self,
        alloc: Global,
        _session: &mut Session<NoModules>,
        _ctx: &mut (),
    ) -> Result<Injected> {
        Ok(Injected::new(alloc))
    }

    fn downstream_custom_message_proxy_filter(
        &self,
        _alloc: Global,
        _session: &mut Session<NoModules>,
        message: Bytes,
        _ctx: &mut (),
        _final_hop: bool,
    ) -> Result<Option<Bytes>> {
        Ok(Some(message))
    }

    fn upstream_custom_message_proxy_filter(
        &self,
        _alloc: Global,
        _session: &mut Session<NoModules>,
        message: Bytes,
        _ctx: &mut (),
        _final_hop: bool,
    ) -> Result<Option<Bytes>> {
        Ok(Some(message))
    }

    fn upstream_response_body_filter(
        &self,
        _alloc: Global,
        _session: &mut Session<NoModules>,
        _body: &mut Option<Bytes>,
        _end: bool,
        _ctx: &mut (),
    ) -> Result<Option<u64>> {
        Ok(None)
    }

    fn upstream_response_trailer_filter(
        &self,
        _alloc: Global,
        _session: &mut Session<NoModules>,
        _trailers: &mut HeaderMap,
        _ctx: &mut (),
    ) -> Result<()> {
        Ok(())
    }

    fn response_body_filter(
        &self,
        _alloc: Global,
        _session: &mut Session<NoModules>,
        _body: &mut Option<Bytes>,
        _end: bool,
        _ctx: &mut (),
    ) -> Result<Option<u64>> {
        Ok(None)
    }

    fn response_trailer_filter(
        &self,
        _alloc: Global,
        _session: &mut Session<NoModules>,
        _trailers: &mut HeaderMap,
        _ctx: &mut (),
    ) -> Result<Option<Bytes>> {
        Ok(None)
    }

    fn logging(&self, _session: &mut Session<NoModules>, _error: Option<&Error>, _ctx: &mut ()) {}

    fn persist_connection_context(&self, _session: &Session<NoModules>, _ctx: &()) -> Option<()> {
        None
    }

    fn on_connection_reuse(
        &self,
        _session: &mut Session<NoModules>,
        _ctx: &mut (),
        _previous: (),
    ) {}

    fn suppress_error_log(&self, _session: &Session<NoModules>, _ctx: &(), _error: &Error) -> bool {
        false
    }

    fn suppress_proxy_warn_log(
        &self,
        _session: &Session<NoModules>,
        _ctx: &(),
        _error: &Error,
        _context: ProxyWarnLogContext,
    ) -> bool {
        false
    }

    fn error_while_proxy(
        &self,
        _peer: &Peer,
        session: &mut Session<NoModules>,
        error: Error,
        _ctx: &mut (),
        client_reused: bool,
    ) -> Error {
        defaults::error_while_proxy(session, error, client_reused)
    }

    fn fail_to_connect(
        &self,
        _session: &mut Session<NoModules>,
        _peer: &Peer,
        _ctx: &mut (),
        error: Error,
    ) -> Error {
        error
    }

    fn fail_to_proxy(
        &self,
        _alloc: Global,
        session: &mut Session<NoModules>,
        error: &Error,
        _ctx: &mut (),
    ) -> Result<FailToProxy> {
        defaults::fail_to_proxy(session, error)
    }

    fn connected_to_upstream(
        &self,
        _alloc: Global,
        _session: &mut Session<NoModules>,
        _reused: bool,
        _peer: &Peer,
        _ctx: &mut (),
    ) -> Result<()> {
        Ok(())
    }

    fn request_summary(
        &self,
        alloc: Global,
        session: &Session<NoModules>,
        _ctx: &(),
    ) -> Result<Vec<u8>> {
        defaults::request_summary(alloc, session)
    }

    fn is_purge(&self, _session: &Session<NoModules>, _ctx: &()) -> bool {
        false
    }

    fn purge_action(&self, _session: &Session<NoModules>, _ctx: &()) -> PurgeAction {
        PurgeAction::Delete
    }

    fn purge_response_filter(
        &self,
        _alloc: Global,
        _session: &Session<NoModules>,
        _ctx: &mut (),
        _status: &PurgeStatus,
        _answer: &mut ResponseHeader,
    ) -> Result<()> {
        Ok(())
    }
}
