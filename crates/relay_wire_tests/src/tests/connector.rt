use bytes::Bytes;
use relay_connector::*;
use relay_links::{ByteLink, Got, Put, ReadItem, ScriptLink};
use relay_messages::ScriptMessages;
use relay_tasks::{Fault, FaultKind, Peer, RetryType};
use std::alloc::Global;

const REFUSED: Fault = Fault {
    kind: FaultKind::Connect,
    retry: RetryType::Decided(true),
};

const NOTHING_LEFT: Fault = Fault {
    kind: FaultKind::Connect,
    retry: RetryType::Decided(false),
};

fn peer() -> Peer {
    Peer {
        address: Bytes::from_static(b"one"),
        tls: false,
        allows_h1: true,
    }
}

/// A link of bytes that ends at once.
fn bytes(alloc: Global) -> Option<AnyScript> {
    let read = vec![in alloc; ReadItem::End].ok()?;
    Some(Upstream::H1(ScriptLink::new(alloc, read, Vec::new(alloc))))
}

/// A link of messages that has none.
fn messages(alloc: Global) -> AnyScript {
    let link = ScriptMessages::new(alloc, Vec::new(alloc), Vec::new(alloc));
    Upstream::H2(link)
}

fn entry(link: AnyScript, connect: Option<RetryType>, again: bool) -> PeerScript {
    PeerScript {
        name: Bytes::from_static(b"one"),
        link,
        connect,
        again,
    }
}

/// An entry whose link is new.
fn new(alloc: Global) -> Option<PeerScript> {
    Some(entry(bytes(alloc)?, None, false))
}

/// An entry whose link was used before.
fn again(alloc: Global) -> Option<PeerScript> {
    Some(entry(bytes(alloc)?, None, true))
}

/// Asks for a link, as a caller that is generic over connectors does, and hands it back; whether it
/// was used before.
fn turn<C: Connector>(connector: &mut C, keep: bool) -> Result<bool, Fault> {
    let (link, reused) = connector.get(&peer())?;
    connector.release(peer(), link, keep);
    Ok(reused)
}

fn hands_out_its_entries(alloc: Global) -> Option<bool> {
    let refuses = entry(bytes(alloc)?, Some(REFUSED.retry), false);
    let peers = vec![in alloc; new(alloc)?, refuses].ok()?;
    let mut connector = ScriptConnector::new(alloc, peers).ok()?;
    let taken = turn(&mut connector, true) == Ok(false);
    let refused = turn(&mut connector, true) == Err(REFUSED);
    let past = turn(&mut connector, true) == Err(NOTHING_LEFT);
    let kept = connector.returned().len() == 1 && connector.faults() == 2;
    Some(taken && refused && past && kept)
}

#[test]
fn a_connector_hands_out_its_entries_and_keeps_what_comes_back(rt: HostRuntime) {
    assert!(rt; hands_out_its_entries(rt.alloc()) == Some(true));
}

fn hands_out_again_once(alloc: Global) -> Option<bool> {
    let peers = vec![in alloc; new(alloc)?, again(alloc)?, again(alloc)?].ok()?;
    let mut connector = ScriptConnector::new(alloc, peers).ok()?;
    let taken = turn(&mut connector, true) == Ok(false);
    let reused = turn(&mut connector, false) == Ok(true);
    let used_up = turn(&mut connector, true) == Err(NOTHING_LEFT);
    Some(taken && reused && used_up && connector.faults() == 1)
}

#[test]
fn a_link_that_came_back_is_handed_out_again_once(rt: HostRuntime) {
    assert!(rt; hands_out_again_once(rt.alloc()) == Some(true));
}

fn refuses_where_none_is_kept(alloc: Global) -> Option<bool> {
    let peers = vec![in alloc; again(alloc)?, new(alloc)?, again(alloc)?].ok()?;
    let mut connector = ScriptConnector::new(alloc, peers).ok()?;
    let none = turn(&mut connector, true) == Err(NOTHING_LEFT);
    let taken = turn(&mut connector, false) == Ok(false);
    let let_go = turn(&mut connector, true) == Err(NOTHING_LEFT);
    Some(none && taken && let_go && connector.faults() == 2)
}

#[test]
fn where_no_link_is_kept_none_is_handed_out_again(rt: HostRuntime) {
    assert!(rt; refuses_where_none_is_kept(rt.alloc()) == Some(true));
}

/// Whether a link of messages came back, to be kept, and no other.
fn has_messages_back(connector: &ScriptConnector) -> bool {
    let returned = connector.returned();
    returned.len() == 1 && returned[0].keep && matches!(&returned[0].link, Upstream::H2(_))
}

fn hands_out_messages(alloc: Global) -> Option<bool> {
    let peers = vec![in alloc; entry(messages(alloc), None, false)].ok()?;
    let mut connector = ScriptConnector::new(alloc, peers).ok()?;
    let (link, reused) = connector.get(&peer()).ok()?;
    let handed = matches!(&link, Upstream::H2(_)) && !reused;
    connector.release(peer(), link, true);
    Some(handed && has_messages_back(&connector))
}

#[test]
fn a_link_of_messages_is_handed_out_and_comes_back(rt: HostRuntime) {
    assert!(rt; hands_out_messages(rt.alloc()) == Some(true));
}

/// What a link reads and writes as one of bytes.
fn speaks(link: &mut AnyScript) -> (Got, Put) {
    let got = link.read(&mut [0; 3]);
    (got, link.write(b"ab"))
}

fn speaks_by_its_kind(alloc: Global) -> Option<bool> {
    let mut link = bytes(alloc)?;
    let mut other = messages(alloc);
    let bytes = speaks(&mut link) == (Got::End, Put::Took(2)) && link.used() == 2;
    let none = speaks(&mut other) == (Got::Silent, Put::Silent) && other.used() == 0;
    Some(bytes && none && link.faults() == 0 && other.faults() == 0)
}

#[test]
fn a_link_of_messages_is_silent_as_one_of_bytes(rt: HostRuntime) {
    assert!(rt; speaks_by_its_kind(rt.alloc()) == Some(true));
}

fn prefers(alloc: Global) -> Option<bool> {
    let peers = vec![in alloc; new(alloc)?].ok()?;
    let mut connector = ScriptConnector::new(alloc, peers).ok()?;
    connector.prefer_h1(&peer());
    let quiet = connector.unexpected_data_connection_count() == 0 && connector.faults() == 0;
    Some(quiet && turn(&mut connector, true) == Ok(false))
}

#[test]
fn a_connector_that_is_told_of_http_1_goes_on(rt: HostRuntime) {
    assert!(rt; prefers(rt.alloc()) == Some(true));
}
