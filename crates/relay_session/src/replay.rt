//! The bytes of a request's body that are kept, so that another attempt sends them again from the
//! first one on (RFC 9110, section 9.2.2).
ghost use Rattle.std.specs.Prelude.{◌≡◌, List, [], ◌++◌, ℕ, IfOk, IsOkUnless, OnErr, OnOk};
ghost use Rattle.relay_session.specs.Replay.{Keeps, is_kept, retry_buffer};

use bytes::Bytes;
use relay_tasks::{Fail, Result};
use std::alloc::Global;
use std::marker::Model;

/// How many bytes of a body are kept at most.
const MOST_KEPT: usize = 65_536;

/// What is kept of the bytes of a body that were given out.
#[derive(Drop)]
pub(crate) enum Replay {
    /// All of them.
    Kept(Run),
    /// None: they are more than are kept.
    Truncated,
    /// None: memory was wanted to keep them.
    Lost,
}

/// Bytes that were copied one behind the other, so that a body that comes in small pieces takes no
/// more memory than another. It is seen as the list of them.
#[derive(Drop)]
pub(crate) struct Run {
    bytes: Vec<u8>,
}

impl Model for Run {
    ghost use Rattle.std.specs.Prelude.{List, ℕ};

    ghost Value = { List ℕ };

    ghost view = { λ run. run.bytes.items };
}

impl Run {
    /// No bytes. It has taken no memory.
    fn new(alloc: Global) -> Run
        ensures { result ≡ [] }
    {
        Run {
            bytes: Vec::new(alloc),
        }
    }

    /// Copies that piece behind them.
    ///
    /// Fails out of memory alone; then nothing was copied.
    fn push(&mut self, piece: &[u8]) -> Result<()>
        ensures ok { OnOk result (self.new ≡ self.old ++ piece.now) }
        ensures memory { IsOkUnless result Fail.OutOfMemory }
        ensures kept { OnErr result (self.new ≡ self.old) }
    {
        self.bytes.extend_from_slice(piece)?;
        Ok(())
    }
}

impl Replay {
    /// Nothing was given out yet. It has taken no memory.
    pub(crate) fn new(alloc: Global) -> Replay
        ensures { result ≡ Replay.Kept [] }
    {
        Replay::Kept(Run::new(alloc))
    }

    /// Keeps one more piece, which was given out behind the others.
    pub(crate) fn keep(&mut self, piece: &Bytes)
        ensures { (body : List ℕ) → Keeps body self.old → Keeps (body ++ piece.now) self.new }
    {
        let Replay::Kept(run) = self else {
            return;
        };
        if piece.len() > MOST_KEPT.saturating_sub(run.bytes.len()) {
            *self = Replay::Truncated;
            return;
        }
        if run.push(piece.as_slice()).is_err() {
            *self = Replay::Lost;
        }
    }

    /// Whether all of them are kept.
    pub(crate) fn is_kept(&self) -> bool
        ensures { result ≡ is_kept self.now }
    {
        match self {
            Replay::Kept(_) => true,
            Replay::Truncated | Replay::Lost => false,
        }
    }

    /// What is kept, for another attempt. None where nothing is.
    ///
    /// Fails out of memory alone.
    pub(crate) fn retry_buffer(&self, alloc: Global) -> Result<Option<Bytes>>
        ensures ok { IfOk result (λ bytes. bytes ≡ retry_buffer self.now) }
        ensures memory { IsOkUnless result Fail.OutOfMemory }
    {
        match self {
            Replay::Kept(run) if run.bytes.is_empty() => Ok(None),
            Replay::Kept(run) => Ok(Some(Bytes::copy_from_slice(alloc, run.bytes.as_slice())?)),
            Replay::Truncated | Replay::Lost => Ok(None),
        }
    }
}
