//! What one hook finds out, another finds in the context: those who ask for the new version, by a
//! field of their request, have a peer of their own.

use crate::memory::{REQUEST, RESPONSE, Scene};
use bytes::Bytes;
use relay_hooks::{Filters, NoModules, Session};
use relay_tasks::{Peer, Result};
use std::alloc::Global;

/// A request that asks for no version, and one that asks for the new one.
pub(crate) const SCENE: Scene = Scene {
    requests: &[
        REQUEST,
        "GET /b HTTP/1.1\r\nHost: h.example\r\nVersion: new\r\n\r\n",
    ],
    response: &[RESPONSE],
    refused: 0,
};

/// What is kept for one request: whether it asks for the new version.
#[derive(Drop)]
pub struct Visit {
    asks_for_new: bool,
}

/// An application with a peer for each version.
#[derive(Drop)]
pub struct Versions;

impl Filters for Versions {
    type CTX = Visit;

    fn new_ctx(&self) -> Visit {
        Visit {
            asks_for_new: false,
        }
    }

    fn request_filter(
        &self,
        _alloc: Global,
        session: &mut Session<NoModules>,
        visit: &mut Visit,
    ) -> Result<bool> {
        visit.asks_for_new = session.req_header().headers().contains_key("version");
        Ok(false)
    }

    fn upstream_peer(
        &self,
        _alloc: Global,
        _session: &Session<NoModules>,
        visit: &mut Visit,
    ) -> Result<Peer> {
        let address = if visit.asks_for_new {
            "new.example:80"
        } else {
            "old.example:80"
        };
        Ok(Peer {
            address: Bytes::from_static(address.as_bytes()),
            tls: false,
            allows_h1: true,
        })
    }
}
