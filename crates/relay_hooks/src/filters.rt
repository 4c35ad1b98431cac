//! The hooks that most applications change, each with a body that changes nothing.
ghost use Rattle.relay_hooks.specs.Session.{IsReady, MayAnswer};
ghost use Rattle.relay_hooks.specs.Laws.{AnswersOnYes, KeepsKindUnless};

use bytes::Bytes;
use relay_modules::{NoModules, Session};
use relay_tasks::{Error, Peer, RequestHeader, ResponseHeader, Result};
use std::alloc::Global;

/// What an application changes of the requests and responses that pass. `App` makes a `ProxyHttp`
/// of it. Each method has a body, which changes nothing: write those that you change.
pub trait Filters {
    /// What the application keeps for one request.
    type CTX: Drop;

    /// A context for a request whose head was accepted.
    fn new_ctx(&self) -> Self::CTX;

    /// The peer that the next attempt is to reach: one without an address, for a connector that
    /// knows where to go.
    fn upstream_peer(
        &self,
        _alloc: Global,
        _session: &Session<NoModules>,
        _ctx: &mut Self::CTX,
    ) -> Result<Peer>
        requires { IsReady _session.now.seen }
    {
        Ok(Peer {
            address: Bytes::new(),
            tls: false,
            allows_h1: true,
        })
    }

    /// Answers the request itself, with true and one whole final answer that is queued; or lets it
    /// go on, with false.
    fn request_filter(
        &self,
        _alloc: Global,
        session: &mut Session<NoModules>,
        _ctx: &mut Self::CTX,
    ) -> Result<bool>
        requires { MayAnswer session.old.seen }
        ensures { AnswersOnYes result session.old.seen session.new.seen }
    {
        Ok(false)
    }

    /// Changes a piece of the request's body; `end` says that the body ends with it.
    fn request_body_filter(
        &self,
        _alloc: Global,
        _session: &Session<NoModules>,
        _body: &mut Option<Bytes>,
        _end: bool,
        _ctx: &mut Self::CTX,
    ) -> Result<()>
        requires { IsReady _session.now.seen }
    {
        Ok(())
    }

    /// Changes the head that is sent upstream.
    fn upstream_request_filter(
        &self,
        _alloc: Global,
        _session: &Session<NoModules>,
        _head: &mut RequestHeader,
        _ctx: &mut Self::CTX,
    ) -> Result<()>
        requires { IsReady _session.now.seen }
    {
        Ok(())
    }

    /// Changes a head as it came from the upstream. An informational head stays one.
    fn upstream_response_filter(
        &self,
        _alloc: Global,
        _session: &Session<NoModules>,
        head: &mut ResponseHeader,
        _ctx: &mut Self::CTX,
    ) -> Result<()>
        requires { IsReady _session.now.seen }
        ensures { KeepsKindUnless result head.old head.new }
    {
        Ok(())
    }

    /// Changes a head before it goes to the client. An informational head stays one.
    fn response_filter(
        &self,
        _alloc: Global,
        _session: &Session<NoModules>,
        head: &mut ResponseHeader,
        _ctx: &mut Self::CTX,
    ) -> Result<()>
        requires { IsReady _session.now.seen }
        ensures { KeepsKindUnless result head.old head.new }
    {
        // the head goes on to the client as it is
        Ok(())
    }

    /// Changes a piece of the response's body before it goes to the client. It answers a delay in
    /// milliseconds, or none.
    fn response_body_filter(
        &self,
        _alloc: Global,
        _session: &Session<NoModules>,
        _body: &mut Option<Bytes>,
        _end: bool,
        _ctx: &mut Self::CTX,
    ) -> Result<Option<u64>>
        requires { IsReady _session.now.seen }
    {
        Ok(None)
    }

    /// Called once at the end of each request, with the final error or none.
    fn logging(&self, _session: &Session<NoModules>, _error: Option<&Error>, _ctx: &mut Self::CTX)
        requires { IsReady _session.now.seen }
    {}
}
