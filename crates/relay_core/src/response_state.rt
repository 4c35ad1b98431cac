//! How far the response to the client has come.
ghost use Rattle.std.specs.Prelude.{◌≡◌, ◌||◌, false, true, IsTrue};
ghost use Rattle.relay_core.specs.State.{is_response_done};

/// The response to the client: done where the upstream and the cache are both done with it. Only
/// `enable_cached_response` clears a flag.
#[derive(Clone, Copy, Debug, PartialEq, Eq)]
pub struct ResponseStateMachine {
    upstream_done: bool,
    cached_done: bool,
}

impl ResponseStateMachine {
    /// A response that the upstream has not ended, and that no cache takes part in.
    pub fn new() -> ResponseStateMachine
        ensures upstream { result.upstream_done ≡ false }
        ensures cache { result.cached_done ≡ true }
    {
        ResponseStateMachine {
            upstream_done: false,
            cached_done: true,
        }
    }

    /// Whether nothing more of the response comes.
    pub fn is_done(&self) -> bool
        ensures { result ≡ is_response_done self.now }
    {
        self.upstream_done && self.cached_done
    }

    /// Whether the upstream is done with it.
    pub fn upstream_done(&self) -> bool
        ensures { result ≡ self.now.upstream_done }
    {
        self.upstream_done
    }

    /// Whether the cache is done with it, which it is where none takes part.
    pub fn cached_done(&self) -> bool
        ensures { result ≡ self.now.cached_done }
    {
        self.cached_done
    }

    /// Lets a cache take part: the response then waits for it too.
    pub fn enable_cached_response(&mut self)
        ensures { self.new ≡ record self.old { cached_done = false } }
    {
        self.cached_done = false;
    }

    /// The upstream is done with the response, where `done` says so; else nothing changes.
    pub fn maybe_set_upstream_done(&mut self, done: bool)
        ensures exact { self.new
            ≡ record self.old { upstream_done = self.old.upstream_done || done } }
        ensures kept { IsTrue self.old.upstream_done → self.new.upstream_done ≡ true }
    {
        self.upstream_done = self.upstream_done || done;
    }

    /// The cache is done with the response, where `done` says so; else nothing changes.
    pub fn maybe_set_cache_done(&mut self, done: bool)
        ensures exact { self.new ≡ record self.old { cached_done = self.old.cached_done || done } }
        ensures kept { IsTrue self.old.cached_done → self.new.cached_done ≡ true }
    {
        self.cached_done = self.cached_done || done;
    }
}
