//! The application of a script: each hook does what its rules say, and where none stands for it
//! what it does by default.
ghost use Rattle.std.specs.Prelude.{◌≡◌, Some, IfErr, IfOk, is_some};
ghost use Rattle.relay_tasks.specs.declared.hook.Hook.TheVariants as hook;
ghost use Rattle.relay_tasks.specs.declared.log.Item.TheVariants as item;
ghost use Rattle.relay_links.specs.Count.{up};
ghost use Rattle.relay_scripted.specs.NoRules.{DoesDefault};

use crate::decision::{Reply, answer, kept, pass, reply_of, said};
use crate::modules::ScriptModules;
use bytes::Bytes;
use http_header::HeaderMap;
use relay_hooks::{FailToProxy, ProxyHttp, ProxyWarnLogContext, PurgeStatus, Session, defaults};
use relay_script::{CheckedRules, apply_rules, filter_response, run_rules};
use relay_tasks::{
    Error, Hook, Injected, Peer, PurgeAction, RequestHeader, ResponseHeader, Result,
};
use std::alloc::Global;

/// An application whose behaviour is a list of rules that keep all conditions. Its relation is
/// those rules (`IsScripted`). Its context is the number of calls that were handed it, which is its
/// mark as well, and stands still at its last value.
#[derive(Drop)]
pub struct ScriptProxy {
    rules: CheckedRules,
    peer: Peer,
}

impl ScriptProxy {
    /// The application of these rules. Each attempt asks for that peer. Where no rule stands for a
    /// hook, its calls do what those of `Defaults` do, but that they are counted.
    pub fn new(rules: CheckedRules, peer: Peer) -> ScriptProxy
        ensures rules { result.rules ≡ rules }
        ensures peer { result.peer ≡ peer }
        ensures default { DoesDefault rules peer }
    {
        ScriptProxy { rules, peer }
    }
}

/// Counts a call that is handed the context.
fn count(ctx: &mut u64)
    ensures { ctx.new ≡ up ctx.old }
{
    *ctx = ctx.saturating_add(1);
}

impl ProxyHttp for ScriptProxy {
    ghost use Rattle.relay_hooks.specs.Call.{Asked, MadeModules, answered, only};
    ghost use Rattle.relay_hooks.specs.Laws.{AnswersOnNo, AnswersOnYes};
    ghost use Rattle.relay_hooks.specs.Session.{IsReady, MayAnswer, moment, request_head};
    ghost use Rattle.relay_scripted.specs.Decision.{failure_of, kept_by, reply_of};
    ghost use Rattle.relay_scripted.specs.Reply.{FailsAs};
    ghost use Rattle.relay_scripted.specs.Scripted.{IsScripted};

    type CTX = u64;

    type Kept = u64;

    type Modules = ScriptModules;

    ghost allows = { λ app st e. IsScripted app.rules app.peer st e };

    ghost mark_of = { λ _ ctx. ctx };

    fn mark(&self, ctx: &u64) -> u64 {
        *ctx
    }

    fn new_ctx(&self) -> u64 {
        0
    }

    fn upstream_peer(
        &self,
        _alloc: Global,
        _session: &mut Session<ScriptModules>,
        ctx: &mut u64,
    ) -> Result<Peer> {
        count(ctx);
        pass(&self.rules, Hook::UpstreamPeer)?;
        self.peer.copy()
    }

    fn init_downstream_modules(&self, _alloc: Global) -> Result<ScriptModules>
        ensures allowed { MadeModules (IsScripted self.now.rules self.now.peer) result }
        ensures made { IfOk result (λ modules. modules.rules ≡ self.now.rules) }
    {
        pass(&self.rules, Hook::InitDownstreamModules)?;
        ScriptModules::new(&self.rules)
    }

    fn early_request_filter(
        &self,
        _alloc: Global,
        _session: &mut Session<ScriptModules>,
        ctx: &mut u64,
    ) -> Result<()> {
        count(ctx);
        pass(&self.rules, Hook::EarlyRequestFilter)?;
        Ok(())
    }

    fn allow_spawning_subrequest(&self, _session: &Session<ScriptModules>, _ctx: &u64) -> bool {
        said(&self.rules, Hook::AllowSpawningSubrequest, false)
    }

    fn request_filter(
        &self,
        _alloc: Global,
        session: &mut Session<ScriptModules>,
        ctx: &mut u64,
    ) -> Result<bool>
        requires { MayAnswer session.old.seen }
        ensures allowed { Asked (IsScripted self.now.rules self.now.peer) hook.RequestFilter
            (item.Request (request_head session.old.seen)) (moment session.old.seen ctx.old)
            (answered item.Answer result) (moment session.new.seen ctx.new) }
        ensures answers { AnswersOnYes result session.old.seen session.new.seen }
        ensures fails { IfErr result (FailsAs (reply_of self.now.rules hook.RequestFilter)
            (failure_of self.now.rules hook.RequestFilter)
            session.old.seen.downstream.writing.output) }
    {
        count(ctx);
        match reply_of(&self.rules, Hook::RequestFilter) {
            Reply::Status(code) => {
                answer(session, code)?;
                Ok(true)
            }
            Reply::Nothing => {
                pass(&self.rules, Hook::RequestFilter)?;
                Ok(false)
            }
        }
    }

    fn request_body_filter(
        &self,
        _alloc: Global,
        _session: &mut Session<ScriptModules>,
        body: &mut Option<Bytes>,
        _end: bool,
        ctx: &mut u64,
    ) -> Result<()> {
        count(ctx);
        run_rules(self.rules.as_slice(), Hook::RequestBodyFilter, body)
    }

    fn proxy_upstream_filter(
        &self,
        _alloc: Global,
        session: &mut Session<ScriptModules>,
        ctx: &mut u64,
    ) -> Result<bool>
        requires { MayAnswer session.old.seen }
        ensures allowed { Asked (IsScripted self.now.rules self.now.peer) hook.ProxyUpstreamFilter
            (item.Request (request_head session.old.seen)) (moment session.old.seen ctx.old)
            (answered item.Answer result) (moment session.new.seen ctx.new) }
        ensures answers { AnswersOnNo result session.old.seen session.new.seen }
        ensures fails { IfErr result (FailsAs (reply_of self.now.rules hook.ProxyUpstreamFilter)
            (failure_of self.now.rules hook.ProxyUpstreamFilter)
            session.old.seen.downstream.writing.output) }
    {
        count(ctx);
        match reply_of(&self.rules, Hook::ProxyUpstreamFilter) {
            Reply::Status(status) => {
                answer(session, status)?;
                Ok(false)
            }
            Reply::Nothing => {
                pass(&self.rules, Hook::ProxyUpstreamFilter)?;
                Ok(said(&self.rules, Hook::ProxyUpstreamFilter, true))
            }
        }
    }

    fn upstream_request_filter(
        &self,
        _alloc: Global,
        _session: &mut Session<ScriptModules>,
        head: &mut RequestHeader,
        ctx: &mut u64,
    ) -> Result<()> {
        count(ctx);
        run_rules(self.rules.as_slice(), Hook::UpstreamRequestFilter, head)
    }

    fn upstream_response_filter(
        &self,
        _alloc: Global,
        _session: &mut Session<ScriptModules>,
        head: &mut ResponseHeader,
        ctx: &mut u64,
    ) -> Result<()> {
        count(ctx);
        filter_response(&self.rules, Hook::UpstreamResponseFilter, head)
    }

    fn response_filter(
        &self,
        _alloc: Global,
        _session: &mut Session<ScriptModules>,
        head: &mut ResponseHeader,
        ctx: &mut u64,
    ) -> Result<()> {
        count(ctx);
        filter_response(&self.rules, Hook::ResponseFilter, head)
    }

    fn custom_forwarding(
        &self,
        alloc: Global,
        _session: &mut Session<ScriptModules>,
        ctx: &mut u64,
    ) -> Result<Injected> {
        count(ctx);
        let mut injected = Injected::new(alloc);
        run_rules(self.rules.as_slice(), Hook::CustomForwarding, &mut injected)?;
        Ok(injected)
    }

    fn downstream_custom_message_proxy_filter(
        &self,
        _alloc: Global,
        _session: &mut Session<ScriptModules>,
        message: Bytes,
        ctx: &mut u64,
        _final_hop: bool,
    ) -> Result<Option<Bytes>> {
        count(ctx);
        pass(&self.rules, Hook::DownstreamCustomMessageProxyFilter)?;
        Ok(Some(message))
    }

    fn upstream_custom_message_proxy_filter(
        &self,
        _alloc: Global,
        _session: &mut Session<ScriptModules>,
        message: Bytes,
        ctx: &mut u64,
        _final_hop: bool,
    ) -> Result<Option<Bytes>> {
        count(ctx);
        pass(&self.rules, Hook::UpstreamCustomMessageProxyFilter)?;
        Ok(Some(message))
    }

    fn upstream_response_body_filter(
        &self,
        _alloc: Global,
        _session: &mut Session<ScriptModules>,
        body: &mut Option<Bytes>,
        _end: bool,
        ctx: &mut u64,
    ) -> Result<Option<u64>> {
        count(ctx);
        run_rules(
            self.rules.as_slice(),
            Hook::UpstreamResponseBodyFilter,
            body,
        )?;
        Ok(None)
    }

    fn upstream_response_trailer_filter(
        &self,
        _alloc: Global,
        _session: &mut Session<ScriptModules>,
        _trailers: &mut HeaderMap,
        ctx: &mut u64,
    ) -> Result<()> {
        count(ctx);
        pass(&self.rules, Hook::UpstreamResponseTrailerFilter)?;
        Ok(())
    }

    fn response_body_filter(
        &self,
        _alloc: Global,
        _session: &mut Session<ScriptModules>,
        body: &mut Option<Bytes>,
        _end: bool,
        ctx: &mut u64,
    ) -> Result<Option<u64>> {
        count(ctx);
        run_rules(self.rules.as_slice(), Hook::ResponseBodyFilter, body)?;
        Ok(None)
    }

    fn response_trailer_filter(
        &self,
        _alloc: Global,
        _session: &mut Session<ScriptModules>,
        _trailers: &mut HeaderMap,
        ctx: &mut u64,
    ) -> Result<Option<Bytes>> {
        count(ctx);
        pass(&self.rules, Hook::ResponseTrailerFilter)?;
        Ok(None)
    }

    fn logging(
        &self,
        _session: &mut Session<ScriptModules>,
        _error: Option<&Error>,
        ctx: &mut u64,
    ) {
        count(ctx);
    }

    fn persist_connection_context(&self, session: &Session<ScriptModules>, ctx: &u64) -> Option<u64>
        requires { IsReady session.now.seen }
        ensures allowed { Asked (IsScripted self.now.rules self.now.peer)
            hook.PersistConnectionContext (item.Request (request_head session.now.seen))
            (moment session.now.seen ctx.now) (Some (only (item.Kept (is_some result))))
            (moment session.now.seen ctx.now) }
        ensures kept { result ≡ kept_by self.now.rules }
    {
        kept(&self.rules)
    }

    fn on_connection_reuse(
        &self,
        _session: &mut Session<ScriptModules>,
        ctx: &mut u64,
        _previous: u64,
    ) {
        count(ctx);
    }

    fn suppress_error_log(
        &self,
        _session: &Session<ScriptModules>,
        _ctx: &u64,
        _error: &Error,
    ) -> bool {
        said(&self.rules, Hook::SuppressErrorLog, false)
    }

    fn suppress_proxy_warn_log(
        &self,
        _session: &Session<ScriptModules>,
        _ctx: &u64,
        _error: &Error,
        _context: ProxyWarnLogContext,
    ) -> bool {
        said(&self.rules, Hook::SuppressProxyWarnLog, false)
    }

    fn error_while_proxy(
        &self,
        _peer: &Peer,
        session: &mut Session<ScriptModules>,
        error: Error,
        ctx: &mut u64,
        client_reused: bool,
    ) -> Error {
        count(ctx);
        let mut error = defaults::error_while_proxy(session, error, client_reused);
        apply_rules(self.rules.as_slice(), Hook::ErrorWhileProxy, &mut error);
        error
    }

    fn fail_to_connect(
        &self,
        _session: &mut Session<ScriptModules>,
        _peer: &Peer,
        ctx: &mut u64,
        mut error: Error,
    ) -> Error {
        count(ctx);
        apply_rules(self.rules.as_slice(), Hook::FailToConnect, &mut error);
        error
    }

    fn fail_to_proxy(
        &self,
        _alloc: Global,
        session: &mut Session<ScriptModules>,
        error: &Error,
        ctx: &mut u64,
    ) -> Result<FailToProxy> {
        count(ctx);
        defaults::fail_to_proxy(session, error)
    }

    fn connected_to_upstream(
        &self,
        _alloc: Global,
        _session: &mut Session<ScriptModules>,
        _reused: bool,
        _peer: &Peer,
        ctx: &mut u64,
    ) -> Result<()> {
        count(ctx);
        pass(&self.rules, Hook::ConnectedToUpstream)?;
        Ok(())
    }

    fn request_summary(
        &self,
        alloc: Global,
        session: &Session<ScriptModules>,
        _ctx: &u64,
    ) -> Result<Vec<u8>> {
        defaults::request_summary(alloc, session)
    }

    fn is_purge(&self, _session: &Session<ScriptModules>, _ctx: &u64) -> bool {
        said(&self.rules, Hook::IsPurge, false)
    }

    fn purge_action(&self, _session: &Session<ScriptModules>, _ctx: &u64) -> PurgeAction {
        PurgeAction::Delete
    }

    fn purge_response_filter(
        &self,
        _alloc: Global,
        _session: &Session<ScriptModules>,
        ctx: &mut u64,
        _status: &PurgeStatus,
        answer: &mut ResponseHeader,
    ) -> Result<()> {
        count(ctx);
        run_rules(self.rules.as_slice(), Hook::PurgeResponseFilter, answer)
    }
}
