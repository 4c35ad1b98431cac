//! Serving clients in memory.
use super::support::{ANSWER, MemoryPoller, REQUEST, SENT, WRITTEN, link};
use bytes::Bytes;
use relay_connector::{AnyScript, PeerScript, ScriptConnector, Upstream};
use relay_links::{MemoryPurger, Poller, ScriptLink};
use relay_proxy::{Defaults, HttpProxy, ServerConf};
use relay_server::{ServeEnd, serve_with};
use relay_tasks::{Peer, Purged};
use std::alloc::Global;
use std::collections::VecDeque;
use std::str;
use std::test::Fail;

type Proxy = HttpProxy<Defaults, ScriptConnector, MemoryPurger>;

/// A proxy whose peer answers so many requests, each on a connection of its own.
fn proxy(alloc: Global, answers: usize) -> Result<Proxy, Fail> {
    let mut entries = Vec::new(alloc);
    for _ in 0..answers {
        entries.push(PeerScript {
            name: Bytes::from_static(b"a"),
            link: Upstream::H1(link(alloc, &[ANSWER])?),
            connect: None,
            again: false,
        })?;
    }
    let connector = ScriptConnector::new(alloc, entries)
        .ok()
        .ok_or("no memory")?;
    let purger = MemoryPurger::new(alloc, Purged::NotFound);
    let application = Defaults::new(Peer {
        address: Bytes::from_static(b"a"),
        tls: false,
        allows_h1: true,
    });
    let conf = ServerConf { max_retries: 2 };
    Ok(HttpProxy::new(alloc, application, conf, connector, purger))
}

/// So many clients, each of which gives these texts.
fn clients(
    alloc: Global,
    count: usize,
    texts: &[&'static str],
) -> Result<VecDeque<ScriptLink>, Fail> {
    let mut waiting = VecDeque::new(alloc);
    for _ in 0..count {
        waiting.push_back(link(alloc, texts)?)?;
    }
    Ok(waiting)
}

fn taken(link: &ScriptLink) -> &str {
    str::from_utf8(link.taken()).unwrap_or("no text")
}

/// What was sent over a link to the peer.
fn sent(link: &AnyScript) -> &str {
    match link {
        Upstream::H1(link) => taken(link),
        Upstream::H2(_) | Upstream::Custom(_) => "messages",
    }
}

/// What the connection took that was closed first.
fn first_taken(poller: &MemoryPoller) -> &str {
    match poller.closed.first() {
        Some(link) => taken(link),
        None => "nobody",
    }
}

#[test]
fn serves_two_clients_one_request_each(rt: HostRuntime) -> Result<(), Fail> {
    let alloc = rt.alloc();
    let mut proxy = proxy(alloc, 2)?;
    let mut poller = MemoryPoller::new(alloc, clients(alloc, 2, &[REQUEST])?);
    let end = serve_with(&rt, alloc, &mut proxy, &mut poller, 80, 2);
    assert_eq!(rt;
        end,
        ServeEnd {
            status: 0,
            served: 2
        }
    );
    assert_eq!(rt; proxy.requests_ended(), 2);
    assert_eq!(rt; poller.closed.len(), 2);
    for client in poller.closed.iter() {
        assert_eq!(rt; taken(client), WRITTEN);
    }
    assert_eq!(rt; proxy.connector().returned().len(), 2);
    for returned in proxy.connector().returned() {
        assert_eq!(rt; sent(&returned.link), SENT);
    }
    Ok(())
}

#[test]
fn answers_seven_where_the_port_is_not_to_be_had(rt: HostRuntime) -> Result<(), Fail> {
    let alloc = rt.alloc();
    let mut proxy = proxy(alloc, 1)?;
    let mut poller = MemoryPoller::new(alloc, clients(alloc, 1, &[REQUEST])?);
    poller.listens = false;
    let end = serve_with(&rt, alloc, &mut proxy, &mut poller, 80, 1);
    assert_eq!(rt;
        end,
        ServeEnd {
            status: 7,
            served: 0
        }
    );
    assert_eq!(rt; (poller.faults(), poller.waiting.len()), (1, 1));
    Ok(())
}

#[test]
fn opens_at_most_64_connections(rt: HostRuntime) -> Result<(), Fail> {
    let alloc = rt.alloc();
    let mut proxy = proxy(alloc, 0)?;
    let mut poller = MemoryPoller::new(alloc, clients(alloc, 66, &["GET /a"])?);
    let end = serve_with(&rt, alloc, &mut proxy, &mut poller, 80, 1);
    assert_eq!(rt;
        end,
        ServeEnd {
            status: 7,
            served: 0
        }
    );
    assert_eq!(rt; (poller.closed.len(), poller.waiting.len()), (64, 2));
    Ok(())
}

#[test]
fn silent_clients_give_way(rt: HostRuntime) -> Result<(), Fail> {
    let alloc = rt.alloc();
    let mut proxy = proxy(alloc, 2)?;
    let mut poller = MemoryPoller::new(alloc, clients(alloc, 64, &[])?);
    poller.late = clients(alloc, 2, &[REQUEST])?;
    let end = serve_with(&rt, alloc, &mut proxy, &mut poller, 80, 2);
    assert_eq!(rt;
        end,
        ServeEnd {
            status: 0,
            served: 2
        }
    );
    assert_eq!(rt; poller.closed.len(), 66);
    Ok(())
}

#[test]
fn the_one_that_is_idle_for_longest_gives_way(rt: HostRuntime) -> Result<(), Fail> {
    let alloc = rt.alloc();
    let mut proxy = proxy(alloc, 64)?;
    let mut waiting = clients(alloc, 63, &[REQUEST])?;
    waiting.push_back(link(alloc, &[])?)?;
    let mut poller = MemoryPoller::new(alloc, waiting);
    poller.late = clients(alloc, 1, &[REQUEST])?;
    let end = serve_with(&rt, alloc, &mut proxy, &mut poller, 80, 64);
    assert_eq!(rt; end.status, 0);
    // The silent one came last, and became idle first.
    assert_eq!(rt; first_taken(&poller), "");
    Ok(())
}

#[test]
fn a_request_under_way_does_not_give_way(rt: HostRuntime) -> Result<(), Fail> {
    let alloc = rt.alloc();
    let mut proxy = proxy(alloc, 2)?;
    let mut waiting = clients(alloc, 63, &["GET /a"])?;
    waiting.push_back(link(alloc, &[REQUEST])?)?;
    let mut poller = MemoryPoller::new(alloc, waiting);
    poller.late = clients(alloc, 1, &[REQUEST])?;
    let end = serve_with(&rt, alloc, &mut proxy, &mut poller, 80, 2);
    assert_eq!(rt; end.status, 0);
    // The one between two requests gave way, though all others came before it.
    assert_eq!(rt; first_taken(&poller), WRITTEN);
    Ok(())
}

#[test]
fn serves_the_65th_client_once_another_has_gone(rt: HostRuntime) -> Result<(), Fail> {
    let alloc = rt.alloc();
    let mut proxy = proxy(alloc, 66)?;
    let asks_to_close = "GET /a HTTP/1.1\r\nHost: h.example\r\nConnection: close\r\n\r\n";
    let mut poller = MemoryPoller::new(alloc, clients(alloc, 66, &[asks_to_close])?);
    let end = serve_with(&rt, alloc, &mut proxy, &mut poller, 80, 66);
    assert_eq!(rt;
        end,
        ServeEnd {
            status: 0,
            served: 66
        }
    );
    for client in poller.closed.iter() {
        assert_eq!(rt; taken(client), WRITTEN);
    }
    Ok(())
}
