//! An application made of filters: what they do not change is as by default.

use crate::defaults;
use crate::failing::{FailToProxy, ProxyWarnLogContext};
use crate::filters::Filters;
use crate::hooks::ProxyHttp;
use crate::purge::PurgeStatus;
use bytes::Bytes;
use http_header::HeaderMap;
use relay_modules::{NoModules, Session};
use relay_tasks::{Error, Injected, Peer, PurgeAction, RequestHeader, ResponseHeader, Result};
use std::alloc::Global;

/// The application of these filters, over the default hooks. Its relation says that its calls keep
/// the laws of hooks; its mark is the number of calls that were handed the context, and stands
/// still at its last value.
#[derive(Drop)]
pub struct App<F> {
    filters: F,
}

/// A context of filters, and how many calls were handed it.
#[derive(Drop)]
pub struct Counted<C> {
    calls: u64,
    user: C,
}

impl<F> App<F> {
    ghost use Rattle.std.specs.Prelude.{◌≡◌};

    /// The application of these filters.
    pub fn new(filters: F) -> App<F>
        ensures { result.filters ≡ filters }
    {
        App { filters }
    }
}

impl<C> Counted<C> {
    ghost use Rattle.std.specs.Prelude.{◌≡◌};
    ghost use Rattle.relay_links.specs.Count.{up};

    /// What the filters keep.
    pub fn user(&self) -> &C
        ensures { result.now ≡ self.now.user }
    {
        &self.user
    }

    /// Counts a call.
    fn count(&mut self)
        ensures { self.new ≡ record self.old { calls = up self.old.calls } }
    {
        self.calls = self.calls.saturating_add(1);
    }
}

impl<F: Filters> ProxyHttp for App<F> {
    ghost use Rattle.relay_hooks.specs.Lawful.{IsLawful};

    type CTX = Counted<F::CTX>;

    type Kept = ();

    type Modules = NoModules;

    ghost allows = { λ _ st e. IsLawful st e };

    ghost mark_of = { λ _ ctx. ctx.calls };

    fn mark(&self, ctx: &Counted<F::CTX>) -> u64 {
        ctx.calls
    }

    fn new_ctx(&self) -> Counted<F::CTX> {
        Counted {
            calls: 0,
            user: self.filters.new_ctx(),
        }
    }

    fn upstream_peer(
        &self,
        alloc: Global,
        session: &mut Session<NoModules>,
        ctx: &mut Counted<F::CTX>,
    ) -> Result<Peer> {
        ctx.count();
        self.filters.upstream_peer(alloc, session, &mut ctx.user)
    }

    fn init_downstream_modules(&self, _alloc: Global) -> Result<NoModules> {
        Ok(NoModules)
    }

    fn early_request_filter(
        &self,
        _alloc: Global,
        _session: &mut Session<NoModules>,
        ctx: &mut Counted<F::CTX>,
    ) -> Result<()> {
        ctx.count();
        Ok(())
    }

    fn allow_spawning_subrequest(
        &self,
        _session: &Session<NoModules>,
        _ctx: &Counted<F::CTX>,
    ) -> bool {
        false
    }

    fn request_filter(
        &self,
        alloc: Global,
        session: &mut Session<NoModules>,
        ctx: &mut Counted<F::CTX>,
    ) -> Result<bool> {
        ctx.count();
        self.filters.request_filter(alloc, session, &mut ctx.user)
    }

    fn request_body_filter(
        &self,
        alloc: Global,
        session: &mut Session<NoModules>,
        body: &mut Option<Bytes>,
        end: bool,
        ctx: &mut Counted<F::CTX>,
    ) -> Result<()> {
        ctx.count();
        self.filters
            .request_body_filter(alloc, session, body, end, &mut ctx.user)
    }

    fn proxy_upstream_filter(
        &self,
        _alloc: Global,
        _session: &mut Session<NoModules>,
        ctx: &mut Counted<F::CTX>,
    ) -> Result<bool> {
        ctx.count();
        Ok(true)
    }

    fn upstream_request_filter(
        &self,
        alloc: Global,
        session: &mut Session<NoModules>,
        head: &mut RequestHeader,
        ctx: &mut Counted<F::CTX>,
    ) -> Result<()> {
        ctx.count();
        self.filters
            .upstream_request_filter(alloc, session, head, &mut ctx.user)
    }

    fn upstream_response_filter(
        &self,
        alloc: Global,
        session: &mut Session<NoModules>,
        head: &mut ResponseHeader,
        ctx: &mut Counted<F::CTX>,
    ) -> Result<()> {
        ctx.count();
        self.filters
            .upstream_response_filter(alloc, session, head, &mut ctx.user)
    }

    fn response_filter(
        &self,
        alloc: Global,
        session: &mut Session<NoModules>,
        head: &mut ResponseHeader,
        ctx: &mut Counted<F::CTX>,
    ) -> Result<()> {
        ctx.count();
        self.filters
            .response_filter(alloc, session, head, &mut ctx.user)
    }

    fn custom_forwarding(
        &self,
        alloc: Global,
        _session: &mut Session<NoModules>,
        ctx: &mut Counted<F::CTX>,
    ) -> Result<Injected> {
        ctx.count();
        Ok(Injected::new(alloc))
    }

    fn downstream_custom_message_proxy_filter(
        &self,
        _alloc: Global,
        _session: &mut Session<NoModules>,
        message: Bytes,
        ctx: &mut Counted<F::CTX>,
        _final_hop: bool,
    ) -> Result<Option<Bytes>> {
        ctx.count();
        Ok(Some(message))
    }

    fn upstream_custom_message_proxy_filter(
        &self,
        _alloc: Global,
        _session: &mut Session<NoModules>,
        message: Bytes,
        ctx: &mut Counted<F::CTX>,
        _final_hop: bool,
    ) -> Result<Option<Bytes>> {
        ctx.count();
        Ok(Some(message))
    }

    fn upstream_response_body_filter(
        &self,
        _alloc: Global,
        _session: &mut Session<NoModules>,
        _body: &mut Option<Bytes>,
        _end: bool,
        ctx: &mut Counted<F::CTX>,
    ) -> Result<Option<u64>> {
        ctx.count();
        Ok(None)
    }

    fn upstream_response_trailer_filter(
        &self,
        _alloc: Global,
        _session: &mut Session<NoModules>,
        _trailers: &mut HeaderMap,
        ctx: &mut Counted<F::CTX>,
    ) -> Result<()> {
        ctx.count();
        Ok(())
    }

    fn response_body_filter(
        &self,
        alloc: Global,
        session: &mut Session<NoModules>,
        body: &mut Option<Bytes>,
        end: bool,
        ctx: &mut Counted<F::CTX>,
    ) -> Result<Option<u64>> {
        ctx.count();
        self.filters
            .response_body_filter(alloc, session, body, end, &mut ctx.user)
    }

    fn response_trailer_filter(
        &self,
        _alloc: Global,
        _session: &mut Session<NoModules>,
        _trailers: &mut HeaderMap,
        ctx: &mut Counted<F::CTX>,
    ) -> Result<Option<Bytes>> {
        ctx.count();
        Ok(None)
    }

    fn logging(
        &self,
        session: &mut Session<NoModules>,
        error: Option<&Error>,
        ctx: &mut Counted<F::CTX>,
    ) {
        ctx.count();
        self.filters.logging(session, error, &mut ctx.user);
    }

    fn persist_connection_context(
        &self,
        _session: &Session<NoModules>,
        _ctx: &Counted<F::CTX>,
    ) -> Option<()> {
        None
    }

    fn on_connection_reuse(
        &self,
        _session: &mut Session<NoModules>,
        ctx: &mut Counted<F::CTX>,
        _previous: (),
    ) {
        ctx.count();
    }

    fn suppress_error_log(
        &self,
        _session: &Session<NoModules>,
        _ctx: &Counted<F::CTX>,
        _error: &Error,
    ) -> bool {
        false
    }

    fn suppress_proxy_warn_log(
        &self,
        _session: &Session<NoModules>,
        _ctx: &Counted<F::CTX>,
        _error: &Error,
        _context: ProxyWarnLogContext,
    ) -> bool {
        false
    }

    fn error_while_proxy(
        &self,
        _peer: &Peer,
        session: &mut Session<NoModules>,
        error: Error,
        ctx: &mut Counted<F::CTX>,
        client_reused: bool,
    ) -> Error {
        ctx.count();
        defaults::error_while_proxy(session, error, client_reused)
    }

    fn fail_to_connect(
        &self,
        _session: &mut Session<NoModules>,
        _peer: &Peer,
        ctx: &mut Counted<F::CTX>,
        error: Error,
    ) -> Error {
        ctx.count();
        error
    }

    fn fail_to_proxy(
        &self,
        _alloc: Global,
        session: &mut Session<NoModules>,
        error: &Error,
        ctx: &mut Counted<F::CTX>,
    ) -> Result<FailToProxy> {
        ctx.count();
        defaults::fail_to_proxy(session, error)
    }

    fn connected_to_upstream(
        &self,
        _alloc: Global,
        _session: &mut Session<NoModules>,
        _reused: bool,
        _peer: &Peer,
        ctx: &mut Counted<F::CTX>,
    ) -> Result<()> {
        ctx.count();
        Ok(())
    }

    fn request_summary(
        &self,
        alloc: Global,
        session: &Session<NoModules>,
        _ctx: &Counted<F::CTX>,
    ) -> Result<Vec<u8>> {
        defaults::request_summary(alloc, session)
    }

    fn is_purge(&self, _session: &Session<NoModules>, _ctx: &Counted<F::CTX>) -> bool {
        false
    }

    fn purge_action(&self, _session: &Session<NoModules>, _ctx: &Counted<F::CTX>) -> PurgeAction {
        PurgeAction::Delete
    }

    fn purge_response_filter(
        &self,
        _alloc: Global,
        _session: &Session<NoModules>,
        ctx: &mut Counted<F::CTX>,
        _status: &PurgeStatus,
        _answer: &mut ResponseHeader,
    ) -> Result<()> {
        ctx.count();
        Ok(())
    }
}
