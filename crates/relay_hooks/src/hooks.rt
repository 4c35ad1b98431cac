//! The application: its hooks, in the order in which the original names them, and what each
//! promises (RFC 9110, sections 3.7 and 7.6).
ghost use Rattle.std.specs.Prelude.{◌≡◌, ℕ, Bool, true, false, Some, OnOk, IsOkUnless, option_copied, is_some};
ghost use Rattle.relay_tasks.specs.declared.hook.Hook.TheVariants as hook;
ghost use Rattle.relay_tasks.specs.declared.log.Item.TheVariants as item;
ghost use Rattle.relay_tasks.specs.declared.log.LogEntry.{LogEntry};
ghost use Rattle.relay_hooks.specs.Standing.{Standing};
ghost use Rattle.relay_hooks.specs.Call.{Asked, AskedOf, MadeContext, MadeModules, changed, delayed, answered, ended_by, only, failure};
ghost use Rattle.relay_hooks.specs.Session.{IsReady, MayAnswer, Leaves, request_head, moment};
ghost use Rattle.relay_hooks.specs.Laws.{LeavesUnless, AnswersOnYes, AnswersOnNo, AnswersOnce, KeepsKindUnless, IsBodiless};
ghost use Rattle.relay_hooks.specs.Purge.{purge_head, purged_of};

use crate::failing::{FailToProxy, ProxyWarnLogContext};
use crate::purge::PurgeStatus;
use bytes::Bytes;
use http_header::HeaderMap;
use relay_modules::{HttpModule, Session};
use relay_tasks::{
    Error, Fail, Injected, Peer, PurgeAction, RequestHeader, ResponseHeader, Result,
};
use std::alloc::Global;

/// An application over the proxy: its hooks.
///
/// It states which calls it allows: `allows st e` says that, where `st` stood before a call, the
/// call may be told by the log entry `e`. Each hook promises that what it answers is allowed
/// (clause `allowed`), out of memory aside: an entry that is allowed can come only from an answer
/// of the hook. And each keeps the laws of its kind: what it may queue (`leaves`, `answers`), and
/// what it may do to a head (`kind`, `bodiless`). `mark_of` is a number that a context shows; a
/// context whose number moves with each call makes each call stand out in the log.
///
/// No hook has a body here: it would be proved once, for all applications, and so could not be
/// proved to be a call that each of them allows. `App` has bodies.
pub trait ProxyHttp {
    /// What the application keeps for one request.
    type CTX: Drop;

    /// What it keeps from one request of a connection for the next.
    type Kept: Drop;

    /// The modules of a request.
    type Modules: HttpModule + Drop;

    ghost allows: { Self → Standing → LogEntry → Type 0 };

    ghost mark_of: { Self → Self.CTX → ℕ };

    /// The mark of a context.
    fn mark(&self, ctx: &Self::CTX) -> u64
        ensures { result ≡ mark_of self.now ctx.now };

    /// A context for a request whose head was accepted.
    fn new_ctx(&self) -> Self::CTX
        ensures allowed { MadeContext (allows self.now) (mark_of self.now result) };

    /// The peer that the next attempt is to reach.
    fn upstream_peer(
        &self,
        alloc: Global,
        session: &mut Session<Self::Modules>,
        ctx: &mut Self::CTX,
    ) -> Result<Peer>
        requires { IsReady session.old.seen }
        ensures allowed { Asked (allows self.now) hook.UpstreamPeer
            (item.Request (request_head session.old.seen))
            (moment session.old.seen (mark_of self.now ctx.old))
            (answered (λ peer. item.Addressed peer false) result)
            (moment session.new.seen (mark_of self.now ctx.new)) }
        ensures leaves { LeavesUnless result session.old.seen session.new.seen };

    /// The modules of a request. Its call has no entry of its own: an error of it stands in that of
    /// `allow_spawning_subrequest`.
    fn init_downstream_modules(&self, alloc: Global) -> Result<Self::Modules>
        ensures allowed { MadeModules (allows self.now) result };

    /// Called first, before the modules.
    fn early_request_filter(
        &self,
        alloc: Global,
        session: &mut Session<Self::Modules>,
        ctx: &mut Self::CTX,
    ) -> Result<()>
        requires { IsReady session.old.seen }
        ensures allowed { Asked (allows self.now) hook.EarlyRequestFilter
            (item.Request (request_head session.old.seen))
            (moment session.old.seen (mark_of self.now ctx.old)) (changed item.Nothing result)
            (moment session.new.seen (mark_of self.now ctx.new)) }
        ensures leaves { LeavesUnless result session.old.seen session.new.seen };

    /// Whether the request may have subrequests.
    fn allow_spawning_subrequest(&self, session: &Session<Self::Modules>, ctx: &Self::CTX) -> bool
        requires { IsReady session.now.seen }
        ensures allowed { Asked (allows self.now) hook.AllowSpawningSubrequest
            (item.Request (request_head session.now.seen))
            (moment session.now.seen (mark_of self.now ctx.now)) (Some (only (item.Answer result)))
            (moment session.now.seen (mark_of self.now ctx.now)) };

    /// Answers the request itself, with true; or lets it go on, with false.
    fn request_filter(
        &self,
        alloc: Global,
        session: &mut Session<Self::Modules>,
        ctx: &mut Self::CTX,
    ) -> Result<bool>
        requires { MayAnswer session.old.seen }
        ensures allowed { Asked (allows self.now) hook.RequestFilter
            (item.Request (request_head session.old.seen))
            (moment session.old.seen (mark_of self.now ctx.old)) (answered item.Answer result)
            (moment session.new.seen (mark_of self.now ctx.new)) }
        ensures answers { AnswersOnYes result session.old.seen session.new.seen };

    /// Changes a piece of the request's body; `end` says that the body ends with it.
    fn request_body_filter(
        &self,
        alloc: Global,
        session: &mut Session<Self::Modules>,
        body: &mut Option<Bytes>,
        end: bool,
        ctx: &mut Self::CTX,
    ) -> Result<()>
        requires { IsReady session.old.seen }
        ensures allowed { Asked (allows self.now) hook.RequestBodyFilter (item.Piece body.old end)
            (moment session.old.seen (mark_of self.now ctx.old))
            (changed (item.Piece body.new end) result)
            (moment session.new.seen (mark_of self.now ctx.new)) }
        ensures leaves { LeavesUnless result session.old.seen session.new.seen };

    /// Lets the request go to an upstream, with true; or answers it itself, with false. Where it
    /// then queued no final head, the client is answered with 502.
    fn proxy_upstream_filter(
        &self,
        alloc: Global,
        session: &mut Session<Self::Modules>,
        ctx: &mut Self::CTX,
    ) -> Result<bool>
        requires { MayAnswer session.old.seen }
        ensures allowed { Asked (allows self.now) hook.ProxyUpstreamFilter
            (item.Request (request_head session.old.seen))
            (moment session.old.seen (mark_of self.now ctx.old)) (answered item.Answer result)
            (moment session.new.seen (mark_of self.now ctx.new)) }
        ensures answers { AnswersOnNo result session.old.seen session.new.seen };

    /// Changes the head that is sent upstream.
    fn upstream_request_filter(
        &self,
        alloc: Global,
        session: &mut Session<Self::Modules>,
        head: &mut RequestHeader,
        ctx: &mut Self::CTX,
    ) -> Result<()>
        requires { IsReady session.old.seen }
        ensures allowed { Asked (allows self.now) hook.UpstreamRequestFilter
            (item.Request head.old) (moment session.old.seen (mark_of self.now ctx.old))
            (changed (item.Request head.new) result)
            (moment session.new.seen (mark_of self.now ctx.new)) }
        ensures leaves { LeavesUnless result session.old.seen session.new.seen };

    /// Changes a head as it came from the upstream. An informational head stays one.
    fn upstream_response_filter(
        &self,
        alloc: Global,
        session: &mut Session<Self::Modules>,
        head: &mut ResponseHeader,
        ctx: &mut Self::CTX,
    ) -> Result<()>
        requires { IsReady session.old.seen }
        ensures allowed { (end : Bool) → Asked (allows self.now) hook.UpstreamResponseFilter
            (item.Response head.old end) (moment session.old.seen (mark_of self.now ctx.old))
            (changed (item.Response head.new end) result)
            (moment session.new.seen (mark_of self.now ctx.new)) }
        ensures leaves { LeavesUnless result session.old.seen session.new.seen }
        ensures kind { KeepsKindUnless result head.old head.new };

    /// Changes a head before it goes to the client. An informational head stays one.
    fn response_filter(
        &self,
        alloc: Global,
        session: &mut Session<Self::Modules>,
        head: &mut ResponseHeader,
        ctx: &mut Self::CTX,
    ) -> Result<()>
        requires { IsReady session.old.seen }
        ensures allowed { (end : Bool) → Asked (allows self.now) hook.ResponseFilter
            (item.Response head.old end) (moment session.old.seen (mark_of self.now ctx.old))
            (changed (item.Response head.new end) result)
            (moment session.new.seen (mark_of self.now ctx.new)) }
        ensures leaves { LeavesUnless result session.old.seen session.new.seen }
        ensures kind { KeepsKindUnless result head.old head.new };

    /// Messages that go in front of those of a custom client or upstream.
    fn custom_forwarding(
        &self,
        alloc: Global,
        session: &mut Session<Self::Modules>,
        ctx: &mut Self::CTX,
    ) -> Result<Injected>
        requires { IsReady session.old.seen }
        ensures allowed { Asked (allows self.now) hook.CustomForwarding
            (item.Request (request_head session.old.seen))
            (moment session.old.seen (mark_of self.now ctx.old)) (answered item.Injected result)
            (moment session.new.seen (mark_of self.now ctx.new)) }
        ensures leaves { LeavesUnless result session.old.seen session.new.seen };

    /// A message of a custom client: what goes on of it, or none. `final_hop` says that the
    /// upstream is not custom.
    fn downstream_custom_message_proxy_filter(
        &self,
        alloc: Global,
        session: &mut Session<Self::Modules>,
        message: Bytes,
        ctx: &mut Self::CTX,
        final_hop: bool,
    ) -> Result<Option<Bytes>>
        requires { IsReady session.old.seen }
        ensures allowed { Asked (allows self.now) hook.DownstreamCustomMessageProxyFilter
            (item.Message (Some message) final_hop)
            (moment session.old.seen (mark_of self.now ctx.old))
            (answered (λ left. item.Message left final_hop) result)
            (moment session.new.seen (mark_of self.now ctx.new)) }
        ensures leaves { LeavesUnless result session.old.seen session.new.seen };

    /// A message of a custom upstream: what goes on of it, or none. `final_hop` says that the
    /// client is not custom.
    fn upstream_custom_message_proxy_filter(
        &self,
        alloc: Global,
        session: &mut Session<Self::Modules>,
        message: Bytes,
        ctx: &mut Self::CTX,
        final_hop: bool,
    ) -> Result<Option<Bytes>>
        requires { IsReady session.old.seen }
        ensures allowed { Asked (allows self.now) hook.UpstreamCustomMessageProxyFilter
            (item.Message (Some message) final_hop)
            (moment session.old.seen (mark_of self.now ctx.old))
            (answered (λ left. item.Message left final_hop) result)
            (moment session.new.seen (mark_of self.now ctx.new)) }
        ensures leaves { LeavesUnless result session.old.seen session.new.seen };

    /// Changes a piece of the response's body as it came from the upstream. It answers a delay in
    /// milliseconds, or none.
    fn upstream_response_body_filter(
        &self,
        alloc: Global,
        session: &mut Session<Self::Modules>,
        body: &mut Option<Bytes>,
        end: bool,
        ctx: &mut Self::CTX,
    ) -> Result<Option<u64>>
        requires { IsReady session.old.seen }
        ensures allowed { Asked (allows self.now) hook.UpstreamResponseBodyFilter
            (item.Piece body.old end) (moment session.old.seen (mark_of self.now ctx.old))
            (delayed (item.Piece body.new end) result)
            (moment session.new.seen (mark_of self.now ctx.new)) }
        ensures leaves { LeavesUnless result session.old.seen session.new.seen };

    /// Changes the trailer fields as they came from the upstream.
    fn upstream_response_trailer_filter(
        &self,
        alloc: Global,
        session: &mut Session<Self::Modules>,
        trailers: &mut HeaderMap,
        ctx: &mut Self::CTX,
    ) -> Result<()>
        requires { IsReady session.old.seen }
        ensures allowed { Asked (allows self.now) hook.UpstreamResponseTrailerFilter
            (item.Trailers (Some trailers.old))
            (moment session.old.seen (mark_of self.now ctx.old))
            (changed (item.Trailers (Some trailers.new)) result)
            (moment session.new.seen (mark_of self.now ctx.new)) }
        ensures leaves { LeavesUnless result session.old.seen session.new.seen };

    /// Changes a piece of the response's body before it goes to the client. It answers a delay in
    /// milliseconds, or none.
    fn response_body_filter(
        &self,
        alloc: Global,
        session: &mut Session<Self::Modules>,
        body: &mut Option<Bytes>,
        end: bool,
        ctx: &mut Self::CTX,
    ) -> Result<Option<u64>>
        requires { IsReady session.old.seen }
        ensures allowed { Asked (allows self.now) hook.ResponseBodyFilter
            (item.Piece body.old end) (moment session.old.seen (mark_of self.now ctx.old))
            (delayed (item.Piece body.new end) result)
            (moment session.new.seen (mark_of self.now ctx.new)) }
        ensures leaves { LeavesUnless result session.old.seen session.new.seen };

    /// Changes the trailer fields before they go to the client. Bytes that it answers end the body
    /// in their place.
    fn response_trailer_filter(
        &self,
        alloc: Global,
        session: &mut Session<Self::Modules>,
        trailers: &mut HeaderMap,
        ctx: &mut Self::CTX,
    ) -> Result<Option<Bytes>>
        requires { IsReady session.old.seen }
        ensures allowed { Asked (allows self.now) hook.ResponseTrailerFilter
            (item.Trailers (Some trailers.old))
            (moment session.old.seen (mark_of self.now ctx.old)) (ended_by trailers.new result)
            (moment session.new.seen (mark_of self.now ctx.new)) }
        ensures leaves { LeavesUnless result session.old.seen session.new.seen };

    /// Called once at the end of each request, with the final error or none.
    fn logging(
        &self,
        session: &mut Session<Self::Modules>,
        error: Option<&Error>,
        ctx: &mut Self::CTX,
    )
        requires { IsReady session.old.seen }
        ensures allowed { Asked (allows self.now) hook.Logging (failure (option_copied error.entry))
            (moment session.old.seen (mark_of self.now ctx.old)) (Some (only item.Nothing))
            (moment session.new.seen (mark_of self.now ctx.new)) }
        ensures leaves { Leaves session.old.seen session.new.seen };

    /// What is kept for the next request of the client's connection. Called where it goes back.
    fn persist_connection_context(
        &self,
        session: &Session<Self::Modules>,
        ctx: &Self::CTX,
    ) -> Option<Self::Kept>
        requires { IsReady session.now.seen }
        ensures allowed { Asked (allows self.now) hook.PersistConnectionContext
            (item.Request (request_head session.now.seen))
            (moment session.now.seen (mark_of self.now ctx.now))
            (Some (only (item.Kept (is_some result))))
            (moment session.now.seen (mark_of self.now ctx.now)) };

    /// Called before the other hooks where the request before it on this connection left a value.
    fn on_connection_reuse(
        &self,
        session: &mut Session<Self::Modules>,
        ctx: &mut Self::CTX,
        previous: Self::Kept,
    )
        requires { IsReady session.old.seen }
        ensures allowed { Asked (allows self.now) hook.OnConnectionReuse (item.Kept true)
            (moment session.old.seen (mark_of self.now ctx.old)) (Some (only item.Nothing))
            (moment session.new.seen (mark_of self.now ctx.new)) }
        ensures leaves { Leaves session.old.seen session.new.seen };

    /// Whether the final error is not to be written to the log.
    fn suppress_error_log(
        &self,
        session: &Session<Self::Modules>,
        ctx: &Self::CTX,
        error: &Error,
    ) -> bool
        requires { IsReady session.now.seen }
        ensures allowed { Asked (allows self.now) hook.SuppressErrorLog (item.Failure error.now)
            (moment session.now.seen (mark_of self.now ctx.now)) (Some (only (item.Answer result)))
            (moment session.now.seen (mark_of self.now ctx.now)) };

    /// Whether the error of an attempt behind which another follows is not to be written to the
    /// log.
    fn suppress_proxy_warn_log(
        &self,
        session: &Session<Self::Modules>,
        ctx: &Self::CTX,
        error: &Error,
        context: ProxyWarnLogContext,
    ) -> bool
        requires { IsReady session.now.seen }
        ensures allowed { Asked (allows self.now) hook.SuppressProxyWarnLog
            (item.Failure error.now) (moment session.now.seen (mark_of self.now ctx.now))
            (Some (only (item.Answer result)))
            (moment session.now.seen (mark_of self.now ctx.now)) };

    /// The error of an attempt that had reached its peer, marked for another attempt or not.
    /// `client_reused` says that the attempt's link had been used before.
    fn error_while_proxy(
        &self,
        peer: &Peer,
        session: &mut Session<Self::Modules>,
        error: Error,
        ctx: &mut Self::CTX,
        client_reused: bool,
    ) -> Error
        requires { IsReady session.old.seen }
        ensures allowed { AskedOf (Some peer.now) client_reused (allows self.now)
            hook.ErrorWhileProxy (item.Failure error)
            (moment session.old.seen (mark_of self.now ctx.old)) (Some (only (item.Failure result)))
            (moment session.new.seen (mark_of self.now ctx.new)) }
        ensures leaves { Leaves session.old.seen session.new.seen };

    /// The error of an attempt that did not reach its peer, marked for another attempt or not.
    fn fail_to_connect(
        &self,
        session: &mut Session<Self::Modules>,
        peer: &Peer,
        ctx: &mut Self::CTX,
        error: Error,
    ) -> Error
        requires { IsReady session.old.seen }
        ensures allowed { AskedOf (Some peer.now) false (allows self.now) hook.FailToConnect
            (item.Failure error) (moment session.old.seen (mark_of self.now ctx.old))
            (Some (only (item.Failure result)))
            (moment session.new.seen (mark_of self.now ctx.new)) }
        ensures leaves { Leaves session.old.seen session.new.seen };

    /// Answers the client for a final error, where no final head was queued. It has no error of its
    /// own.
    fn fail_to_proxy(
        &self,
        alloc: Global,
        session: &mut Session<Self::Modules>,
        error: &Error,
        ctx: &mut Self::CTX,
    ) -> Result<FailToProxy>
        requires { IsReady session.old.seen }
        ensures allowed { Asked (allows self.now) hook.FailToProxy (item.Failure error.now)
            (moment session.old.seen (mark_of self.now ctx.old))
            (answered (λ told. item.Code told.error_code told.can_reuse_downstream) result)
            (moment session.new.seen (mark_of self.now ctx.new)) }
        ensures answers { AnswersOnce result session.old.seen session.new.seen }
        ensures memory { IsOkUnless result Fail.OutOfMemory };

    /// Called once an attempt has a link to its peer; `reused` says that it had been used before.
    fn connected_to_upstream(
        &self,
        alloc: Global,
        session: &mut Session<Self::Modules>,
        reused: bool,
        peer: &Peer,
        ctx: &mut Self::CTX,
    ) -> Result<()>
        requires { IsReady session.old.seen }
        ensures allowed { AskedOf (Some peer.now) reused (allows self.now) hook.ConnectedToUpstream
            (item.Addressed peer.now reused)
            (moment session.old.seen (mark_of self.now ctx.old)) (changed item.Nothing result)
            (moment session.new.seen (mark_of self.now ctx.new)) }
        ensures leaves { LeavesUnless result session.old.seen session.new.seen };

    /// The request in one line, for a log. It has no error of its own.
    fn request_summary(
        &self,
        alloc: Global,
        session: &Session<Self::Modules>,
        ctx: &Self::CTX,
    ) -> Result<Vec<u8>>
        requires { IsReady session.now.seen }
        ensures allowed { Asked (allows self.now) hook.RequestSummary
            (item.Request (request_head session.now.seen))
            (moment session.now.seen (mark_of self.now ctx.now))
            (answered (λ text. item.Text text.items) result)
            (moment session.now.seen (mark_of self.now ctx.now)) }
        ensures memory { IsOkUnless result Fail.OutOfMemory };

    /// Whether the request asks to purge what is kept for its target.
    fn is_purge(&self, session: &Session<Self::Modules>, ctx: &Self::CTX) -> bool
        requires { IsReady session.now.seen }
        ensures allowed { Asked (allows self.now) hook.IsPurge
            (item.Request (request_head session.now.seen))
            (moment session.now.seen (mark_of self.now ctx.now)) (Some (only (item.Answer result)))
            (moment session.now.seen (mark_of self.now ctx.now)) };

    /// What a purge does with what is kept.
    fn purge_action(&self, session: &Session<Self::Modules>, ctx: &Self::CTX) -> PurgeAction
        requires { IsReady session.now.seen }
        ensures allowed { Asked (allows self.now) hook.PurgeAction
            (item.Request (request_head session.now.seen))
            (moment session.now.seen (mark_of self.now ctx.now)) (Some (only (item.Action result)))
            (moment session.now.seen (mark_of self.now ctx.now)) };

    /// Changes the head of a purge's answer, which has no body.
    fn purge_response_filter(
        &self,
        alloc: Global,
        session: &Session<Self::Modules>,
        ctx: &mut Self::CTX,
        status: &PurgeStatus,
        answer: &mut ResponseHeader,
    ) -> Result<()>
        requires ready { IsReady session.now.seen }
        requires answer { answer.old ≡ purge_head status.now }
        ensures allowed { Asked (allows self.now) hook.PurgeResponseFilter
            (item.Status (purged_of status.now))
            (moment session.now.seen (mark_of self.now ctx.old))
            (changed (item.Response answer.new true) result)
            (moment session.now.seen (mark_of self.now ctx.new)) }
        ensures bodiless { OnOk result (IsBodiless answer.new) };
}
