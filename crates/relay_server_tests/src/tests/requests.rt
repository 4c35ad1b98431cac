//! Whole requests behind an application that counts, each in one call.
use super::counting::Counting;
use super::support::link;
use bytes::Bytes;
use relay_connector::{AnyScript, PeerScript, ScriptConnector, Upstream};
use relay_h1::Connection;
use relay_links::{CountDelay, MemoryPurger, RoundRobin, ScriptLink, ShutdownAt};
use relay_proxy::{HttpProxy, Outside, ServerConf, http_proxy};
use relay_tasks::Purged;
use std::alloc::Global;
use std::test::Fail;

/// A request whose body comes in three pieces, and an answer whose body does.
const ASKED: [&str; 4] = [
    "POST /c HTTP/1.1\r\nHost: h.example\r\nContent-Length: 3\r\n\r\n",
    "a",
    "a",
    "a",
];

const ANSWERED: [&str; 4] = [
    "HTTP/1.1 200 OK\r\nContent-Length: 3\r\n\r\n",
    "a",
    "a",
    "a",
];

/// The most turns that a request may take.
pub(super) const TURNS: u64 = 1_000;

pub(super) type Proxy = HttpProxy<Counting, ScriptConnector, MemoryPurger>;

pub(super) type Client = Connection<ScriptLink, u64>;

/// What came of a request: whether its pieces were numbered, what its connection keeps, and how
/// many delays were handed over, for how long in all.
#[derive(Clone, Copy, Debug, PartialEq, Eq)]
struct Came {
    is_numbered: bool,
    kept: Option<u64>,
    delays: u64,
    millis: u64,
}

/// The entry of a link, which is one that is used again or not.
pub(super) fn entry(link: AnyScript, again: bool) -> PeerScript {
    PeerScript {
        name: Bytes::from_static(b"a"),
        link,
        connect: None,
        again,
    }
}

/// A link to a peer that answers one request.
pub(super) fn answering(alloc: Global) -> Result<AnyScript, Fail> {
    Ok(Upstream::H1(link(alloc, &ANSWERED)?))
}

/// How each proxy is set up: each request makes two attempts at most.
const CONF: ServerConf = ServerConf { max_retries: 2 };

/// The connector that hands out the links of these entries.
fn connector_of(alloc: Global, entries: Vec<PeerScript>) -> Result<ScriptConnector, Fail> {
    Ok(
        ScriptConnector::new(alloc, entries)
            .ok()
            .ok_or("no memory")?,
    )
}

/// A proxy of that application over the links of these entries, whose requests make modules.
pub(super) fn proxy_over(
    alloc: Global,
    application: Counting,
    entries: Vec<PeerScript>,
) -> Result<Proxy, Fail> {
    let connector = connector_of(alloc, entries)?;
    let purger = MemoryPurger::new(alloc, Purged::NotFound);
    Ok(http_proxy(alloc, CONF, application, connector, purger))
}

/// The same, whose requests make none.
pub(super) fn bare_over(
    alloc: Global,
    application: Counting,
    entries: Vec<PeerScript>,
) -> Result<Proxy, Fail> {
    let connector = connector_of(alloc, entries)?;
    let purger = MemoryPurger::new(alloc, Purged::NotFound);
    Ok(HttpProxy::new(alloc, application, CONF, connector, purger))
}

/// A proxy of an application that asks for that delay, whose peer answers one request.
pub(super) fn proxy(alloc: Global, delay: Option<u64>) -> Result<Proxy, Fail> {
    let mut entries = Vec::new(alloc);
    entries.push(entry(answering(alloc)?, false))?;
    proxy_over(alloc, Counting::new(delay), entries)
}

/// The client that asks.
pub(super) fn client(alloc: Global) -> Result<Client, Fail> {
    Ok(Connection::new(alloc, link(alloc, &ASKED)?))
}

/// What a request asks beside its links.
pub(super) fn outside() -> Outside<RoundRobin, ShutdownAt, CountDelay> {
    Outside {
        schedule: RoundRobin::new(),
        shutdown: ShutdownAt::new(None),
        delay: CountDelay::new(),
    }
}

/// Whether what the client was written ends in the digits of three pieces behind a head.
pub(super) fn is_numbered(client: &Client) -> bool {
    client.link().taken().ends_with(b"\r\n\r\n123")
}

/// What comes of the request where the application asks for that delay.
fn relayed(alloc: Global, delay: Option<u64>) -> Result<Came, Fail> {
    let mut proxy = proxy(alloc, delay)?;
    let mut client = client(alloc)?;
    let mut outside = outside();
    let _ = proxy.process_new_http(&mut client, &mut outside, TURNS);
    Ok(Came {
        is_numbered: is_numbered(&client),
        kept: client.kept().copied(),
        delays: outside.delay.calls(),
        millis: outside.delay.total(),
    })
}

#[test]
fn counts_the_calls_that_get_the_context(rt: HostRuntime) -> Result<(), Fail> {
    let came = relayed(rt.alloc(), None)?;
    assert_eq!(rt;
        came,
        Came {
            is_numbered: true,
            kept: Some(18),
            delays: 0,
            millis: 0
        }
    );
    Ok(())
}

#[test]
fn delays_each_piece_once(rt: HostRuntime) -> Result<(), Fail> {
    let came = relayed(rt.alloc(), Some(5))?;
    assert_eq!(rt;
        came,
        Came {
            is_numbered: true,
            kept: Some(18),
            delays: 3,
            millis: 15
        }
    );
    Ok(())
}
