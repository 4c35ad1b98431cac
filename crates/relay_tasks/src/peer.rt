//! Where a request is sent to, and what a purger is asked and answers.
ghost use Rattle.std.specs.Prelude.{◌≡◌, IfOk, IsOkUnless};

use crate::error::{Fail, Result};
use crate::fault::Fault;
use bytes::Bytes;

/// The peer that an attempt asks the connector for: an address whose form the connector knows,
/// whether TLS is spoken there, and whether HTTP/1 may be spoken in place of HTTP/2.
#[derive(Drop)]
pub struct Peer {
    pub address: Bytes,
    pub tls: bool,
    pub allows_h1: bool,
}

impl Peer {
    /// An equal peer. It shares the bytes of the address.
    pub fn copy(&self) -> Result<Peer>
        ensures ok { IfOk result (λ copy. copy ≡ self.now) }
        ensures memory { IsOkUnless result Fail.OutOfMemory }
    {
        let address = self.address.clone()?;
        Ok(Peer {
            address,
            tls: self.tls,
            allows_h1: self.allows_h1,
        })
    }
}

/// What a purger does with what it keeps for a target.
#[derive(Clone, Copy, Debug, PartialEq, Eq)]
pub enum PurgeAction {
    Delete,
    Expire,
}

/// A purger's answer. `Failed` comes only where its count of faults rose; `OutOfMemory` says that
/// nothing was purged.
#[derive(Clone, Copy, Debug, PartialEq, Eq)]
pub enum Purged {
    NoCache,
    Found,
    NotFound,
    Failed(Fault),
    OutOfMemory,
}
