//! Requests between clients and peers in memory.

use crate::CONF;
use bytes::Bytes;
use relay_connector::{AnyScript, PeerScript, ScriptConnector, Upstream};
use relay_h1::Connection;
use relay_hooks::ProxyHttp;
use relay_links::{CountDelay, MemoryPurger, ReadItem, RoundRobin, ScriptLink, ShutdownAt};
use relay_proxy::{Outside, RunRecord, http_proxy};
use relay_tasks::{Purged, RetryType};
use std::alloc::{AllocError, Global};
use std::{io, str};

/// A request that asks for nothing but a target.
pub(crate) const REQUEST: &str = "GET /a HTTP/1.1\r\nHost: h.example\r\n\r\n";

/// A response with a short body.
pub(crate) const RESPONSE: &str = "HTTP/1.1 200 OK\r\nContent-Length: 2\r\n\r\nhi";

/// What the links of a use give.
pub struct Scene {
    /// What each client asks.
    pub requests: &'static [&'static str],
    /// The reads of a link to a peer: what each peer answers.
    pub response: &'static [&'static str],
    /// How many links are refused before the first is given.
    pub refused: usize,
}

/// One request, which is answered.
pub(crate) const SCENE: Scene = Scene {
    requests: &[REQUEST],
    response: &[RESPONSE],
    refused: 0,
};

/// The most turns that a request may take.
const TURNS: u64 = 1_000;

/// Relays the requests of a scene, each of a client of its own. Prints the outcome of each, the
/// peers of its attempts and what its client was written, and then what each peer was sent.
pub fn relay_each<R: Print, SV: ProxyHttp + Drop>(
    rt: &R,
    alloc: Global,
    application: SV,
    scene: &Scene,
) -> io::Result<()> {
    let connector = connector_to(alloc, scene)?;
    let purger = MemoryPurger::new(alloc, Purged::NotFound);
    let mut proxy = http_proxy(alloc, CONF, application, connector, purger);
    for request in scene.requests {
        let mut client = Connection::new(alloc, link_of(alloc, &[*request])?);
        let mut outside = Outside {
            schedule: RoundRobin::new(),
            shutdown: ShutdownAt::new(None),
            delay: CountDelay::new(),
        };
        let processed = proxy.process_new_http(&mut client, &mut outside, TURNS);
        println!(rt; "outcome {:?}", processed.outcome)?;
        print_peers(rt, &processed.history)?;
        println!(rt; "written {:?}", text_of(client.link().taken()))?;
    }
    for returned in proxy.connector().returned() {
        println!(rt; "sent {:?}", text_of(sent_over(&returned.link)))?;
    }
    Ok(())
}

/// Prints which peer each attempt was to reach.
fn print_peers<R: Print>(rt: &R, history: &RunRecord) -> io::Result<()> {
    for at in 0..history.attempts.len() {
        if let Some(attempt) = history.attempts.get(at) {
            println!(rt; "peer {:?}", text_of(&attempt.peer.address))?;
        }
    }
    Ok(())
}

/// A link that gives texts, one a read, and then is silent. It takes all that it is written.
fn link_of(alloc: Global, reads: &[&'static str]) -> Result<ScriptLink, AllocError> {
    let mut items = Vec::new(alloc);
    for text in reads {
        items.push(ReadItem::Bytes(Bytes::from_static(text.as_bytes())))?;
    }
    Ok(ScriptLink::new(alloc, items, Vec::new(alloc)))
}

/// A connector that refuses the links of a scene that are to be refused, each with a fault that
/// lets another attempt follow, and then hands out one for each request.
fn connector_to(alloc: Global, scene: &Scene) -> Result<ScriptConnector, AllocError> {
    let mut peers = Vec::new(alloc);
    for _ in 0..scene.refused {
        let refusal = Some(RetryType::Decided(true));
        peers.push(peer_script(alloc, scene.response, refusal)?)?;
    }
    for _ in scene.requests {
        peers.push(peer_script(alloc, scene.response, None)?)?;
    }
    ScriptConnector::new(alloc, peers).ok().ok_or(AllocError)
}

/// A peer that answers so; or one to which a link is refused, with a fault of that mark.
fn peer_script(
    alloc: Global,
    response: &[&'static str],
    connect: Option<RetryType>,
) -> Result<PeerScript, AllocError> {
    Ok(PeerScript {
        name: Bytes::from_static(b"a"),
        link: Upstream::H1(link_of(alloc, response)?),
        connect,
        again: false,
    })
}

/// The bytes that were sent over a link: none, where it carries messages.
fn sent_over(link: &AnyScript) -> &[u8] {
    match link {
        Upstream::H1(link) => link.taken(),
        Upstream::H2(_) | Upstream::Custom(_) => &[],
    }
}

/// The bytes as a text.
fn text_of(bytes: &[u8]) -> &str {
    str::from_utf8(bytes).unwrap_or("no text")
}
