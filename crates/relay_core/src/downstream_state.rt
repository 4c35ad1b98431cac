//! How far the client's request has come.
ghost use Rattle.std.specs.Prelude.{◌≡◌, IsTrue, true};
ghost use Rattle.relay_core.specs.State.{begun, can_poll, is_reading, is_done, is_errored, finished, reset_to_reading};

/// The client's request: being read, read to its end, or given up. `Errored` is terminal: no call
/// leaves it.
#[derive(Clone, Copy, Debug, PartialEq, Eq)]
pub enum DownstreamStateMachine {
    /// More of the request may come.
    Reading,
    /// The request has ended.
    ReadingFinished,
    /// The client failed; it is not asked again.
    Errored,
}

impl DownstreamStateMachine {
    /// A request that has ended, or one that is being read.
    pub fn new(finished: bool) -> DownstreamStateMachine
        ensures { result ≡ begun finished }
    {
        if finished {
            DownstreamStateMachine::ReadingFinished
        } else {
            DownstreamStateMachine::Reading
        }
    }

    /// Whether the client may be asked: it did not fail.
    pub fn can_poll(&self) -> bool
        ensures { result ≡ can_poll self.now }
    {
        !self.is_errored()
    }

    /// Whether more of the request may come.
    pub fn is_reading(&self) -> bool
        ensures { result ≡ is_reading self.now }
    {
        match self {
            DownstreamStateMachine::Reading => true,
            DownstreamStateMachine::ReadingFinished => false,
            DownstreamStateMachine::Errored => false,
        }
    }

    /// Whether nothing more of the request comes.
    pub fn is_done(&self) -> bool
        ensures { result ≡ is_done self.now }
    {
        !self.is_reading()
    }

    /// Whether the client failed.
    pub fn is_errored(&self) -> bool
        ensures { result ≡ is_errored self.now }
    {
        match self {
            DownstreamStateMachine::Reading => false,
            DownstreamStateMachine::ReadingFinished => false,
            DownstreamStateMachine::Errored => true,
        }
    }

    /// Ends a request that is being read, where `set` says so. Any other state stays.
    pub fn maybe_finished(&mut self, set: bool)
        ensures exact { self.new ≡ finished self.old set }
        ensures terminal { IsTrue (is_errored self.old) → is_errored self.new ≡ true }
    {
        if set && self.is_reading() {
            *self = DownstreamStateMachine::ReadingFinished;
        }
    }

    /// Opens a request that has ended again, as an accepted upgrade does. Any other state stays.
    pub fn reset(&mut self)
        ensures exact { self.new ≡ reset_to_reading self.old }
        ensures terminal { IsTrue (is_errored self.old) → is_errored self.new ≡ true }
    {
        *self = match *self {
            DownstreamStateMachine::Reading => DownstreamStateMachine::Reading,
            DownstreamStateMachine::ReadingFinished => DownstreamStateMachine::Reading,
            DownstreamStateMachine::Errored => DownstreamStateMachine::Errored,
        };
    }

    /// Gives the client up.
    pub fn to_errored(&mut self)
        ensures { self.new ≡ DownstreamStateMachine.Errored }
    {
        *self = DownstreamStateMachine::Errored;
    }
}
