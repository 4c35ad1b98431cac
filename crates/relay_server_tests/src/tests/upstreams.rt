//! Requests over a link of messages, over which nothing is relayed yet, and over links that are
//! used again.
use super::counting::Counting;
use super::requests::{
    Client, Proxy, TURNS, answering, client, entry, is_numbered, outside, proxy_over,
};
use super::support::REQUEST;
use bytes::Bytes;
use relay_connector::{AnyScript, PeerScript, Returned, Upstream};
use relay_h1::Connection;
use relay_links::{ReadItem, ScriptLink};
use relay_messages::ScriptMessages;
use relay_proxy::Processed;
use relay_tasks::{Error, ErrorType, Hook, PhaseLog};
use std::alloc::Global;
use std::test::Fail;

/// The hooks that an attempt over a link of messages comes to, in order.
const UNRELAYED: [Hook; 3] = [
    Hook::ConnectedToUpstream,
    Hook::ErrorWhileProxy,
    Hook::FailToProxy,
];

/// What the client of a GET is written.
const WRITTEN: &str = "HTTP/1.1 200 OK\r\ncontent-length: 3\r\n\r\n123";

/// What came of an attempt: whether its link had been used before, whether that is kept, and its
/// error.
type Tried = (bool, bool, Option<Error>);

/// The error of a request that is not relayed, for what its link to the peer carries.
fn unrelayed() -> Error {
    Error::new_up(ErrorType::Custom(1))
}

/// The same, marked for another attempt.
fn marked() -> Error {
    let mut error = unrelayed();
    error.set_retry(true);
    error
}

/// The entry of a link of messages, which has none.
fn messages(alloc: Global) -> PeerScript {
    let link = ScriptMessages::new(alloc, Vec::new(alloc), Vec::new(alloc));
    entry(Upstream::H2(link), false)
}

/// A client that asks twice, the second time once it has its first answer.
fn asking_twice(alloc: Global) -> Result<Client, Fail> {
    let first = ReadItem::Bytes(Bytes::from_static(REQUEST.as_bytes()));
    let second = ReadItem::Bytes(Bytes::from_static(REQUEST.as_bytes()));
    let mut items = Vec::new(alloc);
    items.push(first)?;
    items.push(ReadItem::After(WRITTEN.len() as u32))?;
    items.push(second)?;
    Ok(Connection::new(alloc, ScriptLink::new(alloc, items, Vec::new(alloc))))
}

/// Processes one request of that client.
fn process(proxy: &mut Proxy, client: &mut Client) -> Processed {
    proxy.process_new_http(client, &mut outside(), TURNS)
}

/// What came of the attempt at that place.
fn tried(processed: &Processed, at: usize) -> Option<Tried> {
    let attempt = processed.history.attempts.get(at)?;
    Some((attempt.reused, attempt.kept, attempt.error))
}

/// The calls of a log that are of these hooks, in order.
pub(super) fn calls_of(alloc: Global, log: &PhaseLog, hooks: &[Hook]) -> Result<Vec<Hook>, Fail> {
    let mut calls = Vec::new(alloc);
    for line in log.lines() {
        if hooks.contains(&line.hook) {
            calls.push(line.hook)?;
        }
    }
    Ok(calls)
}

/// Whether the first of these is a link of messages that took nothing and is not kept.
fn is_untouched(returned: &[Returned<AnyScript>]) -> bool {
    match returned.first() {
        Some(
            Returned {
                link: Upstream::H2(link),
                keep,
                ..
            },
        ) => !keep && link.taken().is_empty(),
        Some(_) | None => false,
    }
}

#[test]
fn answers_502_where_the_link_carries_messages(rt: HostRuntime) -> Result<(), Fail> {
    let alloc = rt.alloc();
    let mut entries = Vec::new(alloc);
    entries.push(messages(alloc))?;
    let mut proxy = proxy_over(alloc, Counting::new(None), entries)?;
    let mut client = client(alloc)?;
    let processed = process(&mut proxy, &mut client);
    assert!(rt;
        client
            .link()
            .taken()
            .starts_with(b"HTTP/1.1 502 Bad Gateway\r\n")
    );
    assert_eq!(rt; processed.outcome.error(), Some(unrelayed()));
    assert_eq!(rt;
        tried(&processed, 0),
        Some((false, false, Some(unrelayed())))
    );
    assert_eq!(rt; tried(&processed, 1), None);
    let calls = calls_of(alloc, &processed.history.log, &UNRELAYED)?;
    assert_eq!(rt; calls.as_slice(), UNRELAYED.as_slice());
    assert!(rt; is_untouched(proxy.connector().returned()));
    Ok(())
}

#[test]
fn tries_again_behind_a_link_of_messages(rt: HostRuntime) -> Result<(), Fail> {
    let alloc = rt.alloc();
    let mut entries = Vec::new(alloc);
    entries.push(messages(alloc))?;
    entries.push(entry(answering(alloc)?, false))?;
    let mut proxy = proxy_over(alloc, Counting::trying_again(), entries)?;
    let mut client = client(alloc)?;
    let processed = process(&mut proxy, &mut client);
    assert!(rt; client.link().taken().starts_with(b"HTTP/1.1 200 OK\r\n"));
    assert!(rt; is_numbered(&client));
    assert_eq!(rt; processed.outcome.error(), None);
    assert_eq!(rt; tried(&processed, 0), Some((false, false, Some(marked()))));
    assert_eq!(rt; tried(&processed, 1), Some((false, true, None)));
    assert!(rt; is_untouched(proxy.connector().returned()));
    Ok(())
}

#[test]
fn uses_a_link_again_for_the_next_request(rt: HostRuntime) -> Result<(), Fail> {
    let alloc = rt.alloc();
    let mut entries = Vec::new(alloc);
    for again in [false, true] {
        entries.push(entry(answering(alloc)?, again))?;
    }
    let mut proxy = proxy_over(alloc, Counting::new(None), entries)?;
    let mut client = asking_twice(alloc)?;
    for reused in [false, true] {
        let processed = process(&mut proxy, &mut client);
        assert_eq!(rt; tried(&processed, 0), Some((reused, true, None)));
        assert!(rt; client.link().taken().ends_with(WRITTEN.as_bytes()));
    }
    assert_eq!(rt; client.link().taken().len(), 2 * WRITTEN.len());
    Ok(())
}
