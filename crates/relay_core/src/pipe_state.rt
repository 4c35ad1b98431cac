//! The word that the two halves of a duplex share.
ghost use Rattle.std.specs.Prelude.{◌≡◌};
ghost use Rattle.relay_core.specs.State.{is_complete};

/// What became of a duplex. It leaves `Active` where the client's half is done, or a half failed.
#[derive(Clone, Copy, Debug, PartialEq, Eq)]
pub enum PipeState {
    /// Both halves go on.
    Active,
    /// The client's half is done; the upstream half may still have bytes to send.
    DownstreamComplete,
    /// A half failed, and neither writes anything more.
    Failed,
}

impl PipeState {
    /// Whether the client's half is done.
    pub fn is_downstream_complete(&self) -> bool
        ensures { result ≡ is_complete self.now }
    {
        match self {
            PipeState::Active => false,
            PipeState::DownstreamComplete => true,
            PipeState::Failed => false,
        }
    }
}
