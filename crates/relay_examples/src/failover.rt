//! A peer that cannot be reached: the request goes to another one in its next attempt. Nothing of
//! it was sent before, so that is safe for every method (RFC 9110, section 9.2.2).

use crate::memory::{REQUEST, RESPONSE, Scene};
use bytes::Bytes;
use relay_hooks::{Filters, NoModules, Session};
use relay_tasks::{Peer, Result};
use std::alloc::Global;

/// A request whose first link is refused.
pub(crate) const SCENE: Scene = Scene {
    requests: &[REQUEST],
    response: &[RESPONSE],
    refused: 1,
};

/// What is kept for one request: whether its first peer was named.
#[derive(Drop)]
pub struct Tries {
    has_named_first: bool,
}

/// An application with a first peer, and one that stands in for it.
#[derive(Drop)]
pub struct Failover;

impl Filters for Failover {
    type CTX = Tries;

    fn new_ctx(&self) -> Tries {
        Tries {
            has_named_first: false,
        }
    }

    /// Called for each attempt: where the connector refuses a link with a fault that lets another
    /// one follow, this names the peer of that.
    fn upstream_peer(
        &self,
        _alloc: Global,
        _session: &Session<NoModules>,
        tries: &mut Tries,
    ) -> Result<Peer> {
        let address = if tries.has_named_first {
            "second.example:80"
        } else {
            "first.example:80"
        };
        tries.has_named_first = true;
        Ok(Peer {
            address: Bytes::from_static(address.as_bytes()),
            tls: false,
            allows_h1: true,
        })
    }
}
