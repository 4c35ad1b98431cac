ghost use Rattle.std.specs.Prelude.{◌≡◌, ◌+◌, ◌≤◌, IfSome, vec_len};
ghost use Rattle.relay_tcp.specs.TcpConnector.{links_out};

use bytes::Bytes;
use mio::net::{TcpListener, TcpStream};
use mio::{Events, Interest, Poll, Token};
use relay_connector::{Connector, Upstream};
use relay_links::{ByteLink, Got, Put};
use relay_tasks::{Fault, FaultKind, Peer, RetryType};
use relay_tcp::*;
use std::alloc::Global;
use std::net::{Ipv4Addr, SocketAddr};
use std::sync::Arc;
use std::test::Fail;
use std::time::Duration;
use std::{io, thread};

type Checked = Result<(), Fail>;

// How often a call is made again, a millisecond later each time.
const ROUNDS: usize = 1000;

// How many links a poll can tell of at once.
const SLOTS: usize = 256;

// How many idle links a connector keeps.
const MOST_IDLE: usize = 64;

fn peer() -> Peer {
    peer_at(b"any", false)
}

fn peer_at(address: &'static [u8], tls: bool) -> Peer {
    Peer {
        address: Bytes::from_static(address),
        tls,
        allows_h1: true,
    }
}

fn pause(rt: &HostRuntime) {
    thread::sleep(rt, Duration::from_millis(20));
}

/// A poll, and what it has told.
#[derive(Drop)]
struct Waiting {
    poll: Poll,
    events: Events<Global>,
    readiness: Arc<Readiness>,
}

impl Waiting {
    fn new(rt: &HostRuntime) -> io::Result<Waiting> {
        let poll = Poll::new(rt)?;
        let readiness = Readiness::new(rt.alloc(), poll.registry().try_clone()?)?;
        Ok(Waiting {
            poll,
            events: Events::with_capacity(rt.alloc(), 8)?,
            readiness,
        })
    }

    /// Waits so long at most, and tells what happened; whether it could wait.
    fn wait(&mut self, millis: u64) -> bool {
        let longest = Duration::from_millis(millis);
        let waited = self.poll.poll(&mut self.events, Some(longest)).is_ok();
        for event in self.events.iter() {
            self.readiness.tell(event);
        }
        waited
    }
}

fn listen(rt: &HostRuntime) -> io::Result<TcpListener> {
    TcpListener::bind(rt, SocketAddr::from((Ipv4Addr::LOCALHOST, 0)))
}

/// A connector to that address, whose connections are waited for there.
fn connector(
    rt: &HostRuntime,
    address: SocketAddr,
    waiting: &Waiting,
) -> Result<TcpConnector<HostRuntime>, Fail> {
    let connector = TcpConnector::new(rt, address, Arc::try_clone(&waiting.readiness)?);
    Ok(connector.ok().ok_or("memory")?)
}

/// A listener, a connector to it or elsewhere, and the poll that waits for its links, but not for
/// their far ends.
#[derive(Drop)]
struct Bench {
    waiting: Waiting,
    listener: TcpListener,
    connector: TcpConnector<HostRuntime>,
}

fn set_up_to(rt: &HostRuntime, listener: TcpListener, address: SocketAddr) -> Result<Bench, Fail> {
    let waiting = Waiting::new(rt)?;
    let connector = connector(rt, address, &waiting)?;
    Ok(Bench {
        waiting,
        listener,
        connector,
    })
}

fn set_up(rt: &HostRuntime) -> Result<Bench, Fail> {
    let listener = listen(rt)?;
    let address = listener.local_addr()?;
    set_up_to(rt, listener, address)
}

/// The next connection, as a link that is marked as reused.
fn accept(rt: &HostRuntime, listener: &TcpListener) -> Option<TcpLink> {
    for _ in 0..ROUNDS {
        if let Ok((stream, _)) = listener.accept() {
            return Some(TcpLink::new(stream, true));
        }
        thread::sleep(rt, Duration::from_millis(1));
    }
    None
}

/// A new link of that connector, and its far end.
fn connect(
    rt: &HostRuntime,
    listener: &TcpListener,
    connector: &mut TcpConnector<HostRuntime>,
) -> Option<(TcpLink, TcpLink)>
    ensures ok { IfSome result (λ _. links_out connector.new ≡ links_out connector.old + 1) }
    ensures grows { links_out connector.old ≤ links_out connector.new }
{
    match connector.get(&peer()) {
        Ok((Upstream::H1(near), false)) => Some((near, accept(rt, listener)?)),
        Ok(_) | Err(_) => None,
    }
}

/// The next link, which was used before.
fn reconnect(connector: &mut TcpConnector<HostRuntime>) -> Option<TcpLink>
    ensures { IfSome result (λ _. links_out connector.new ≡ links_out connector.old + 1) }
{
    match connector.get(&peer()) {
        Ok((Upstream::H1(near), true)) => Some(near),
        Ok(_) | Err(_) => None,
    }
}

/// Opens a link and hands it back, to be kept or not; its far end.
fn release_new(rt: &HostRuntime, bench: &mut Bench, keep: bool) -> Option<TcpLink> {
    let (near, far) = connect(rt, &bench.listener, &mut bench.connector)?;
    bench.connector.release(peer(), Upstream::H1(near), keep);
    Some(far)
}

/// Whether the next link to that peer was used before; none where it is refused. It goes back, and
/// is not kept.
fn reuses(bench: &mut Bench, peer: Peer) -> Option<bool> {
    match bench.connector.get(&peer) {
        Ok((near, reused)) => {
            bench.connector.release(peer, near, false);
            Some(reused)
        }
        Err(_) => None,
    }
}

/// The first answer other than `NotReady` in so many reads, and the room. After each read that was
/// not ready a millisecond is waited.
fn read_four(waiting: &mut Waiting, link: &mut TcpLink, rounds: usize) -> (Got, [u8; 4]) {
    let mut room = [0; 4];
    for _ in 0..rounds {
        let got = link.read(&mut room);
        if got != Got::NotReady || !waiting.wait(1) {
            return (got, room);
        }
    }
    (Got::NotReady, room)
}

/// Whether what one link writes the other one reads.
fn reaches(waiting: &mut Waiting, from: &mut TcpLink, to: &mut TcpLink) -> bool {
    let took = from.write(b"ping");
    let got = read_four(waiting, to, ROUNDS);
    took == Put::Took(4) && got == (Got::Bytes(4), *b"ping")
}

/// Whether the link ends, and stays so.
fn ends(waiting: &mut Waiting, link: &mut TcpLink) -> bool {
    let first = read_four(waiting, link, ROUNDS).0;
    let second = link.read(&mut [0; 4]);
    first == Got::End && second == Got::End && link.faults() == 0
}

fn talks(rt: &HostRuntime, bench: &mut Bench) -> Option<bool> {
    let (mut near, mut far) = connect(rt, &bench.listener, &mut bench.connector)?;
    let silent = read_four(&mut bench.waiting, &mut near, 1).0 == Got::NotReady;
    let there = reaches(&mut bench.waiting, &mut near, &mut far);
    let back = reaches(&mut bench.waiting, &mut far, &mut near);
    bench.connector.release(peer(), Upstream::H1(near), false);
    Some(silent && there && back && ends(&mut bench.waiting, &mut far))
}

#[test]
fn what_one_end_writes_the_other_reads_and_a_release_ends_it(rt: HostRuntime) -> Checked {
    let mut bench = set_up(&rt)?;
    assert!(rt; talks(&rt, &mut bench) == Some(true));
    Ok(())
}

/// Whether the kept link is handed out unused and reaches its far end. It goes back, to be kept.
fn reaches_again(bench: &mut Bench, far: &mut TcpLink) -> bool {
    let Some(mut near) = reconnect(&mut bench.connector) else {
        return false;
    };
    let unused = near.used() == 0 && near.faults() == 0;
    let there = reaches(&mut bench.waiting, &mut near, far);
    let back = reaches(&mut bench.waiting, far, &mut near);
    bench.connector.release(peer(), Upstream::H1(near), true);
    unused && there && back
}

fn hands_out_again(rt: &HostRuntime, bench: &mut Bench) -> Option<bool> {
    let mut far = release_new(rt, bench, true)?;
    let first = reaches_again(bench, &mut far);
    let second = reaches_again(bench, &mut far);
    Some(first && second && bench.listener.accept().is_err())
}

#[test]
fn a_kept_link_is_handed_out_again(rt: HostRuntime) -> Checked {
    let mut bench = set_up(&rt)?;
    assert!(rt; hands_out_again(&rt, &mut bench) == Some(true));
    Ok(())
}

fn prefers_h1(rt: &HostRuntime, bench: &mut Bench) -> Option<bool> {
    let _far = release_new(rt, bench, true)?;
    bench.connector.prefer_h1(&peer());
    Some(reuses(bench, peer()) == Some(true) && bench.connector.faults() == 0)
}

#[test]
fn a_connector_that_is_told_of_http_1_keeps_its_links(rt: HostRuntime) -> Checked {
    let mut bench = set_up(&rt)?;
    assert!(rt; prefers_h1(&rt, &mut bench) == Some(true));
    Ok(())
}

fn tells_peers_apart(rt: &HostRuntime, bench: &mut Bench) -> Option<bool> {
    let _far = release_new(rt, bench, true)?;
    let other = reuses(bench, peer_at(b"other", false));
    let front = reuses(bench, peer_at(b"an", false));
    let secret = reuses(bench, peer_at(b"any", true));
    let same = reuses(bench, peer());
    let no = Some(false);
    Some(other == no && front == no && secret == no && same == Some(true))
}

#[test]
fn a_link_to_another_peer_is_not_handed_out(rt: HostRuntime) -> Checked {
    let mut bench = set_up(&rt)?;
    assert!(rt; tells_peers_apart(&rt, &mut bench) == Some(true));
    Ok(())
}

fn closes_what_is_not_kept(rt: &HostRuntime, bench: &mut Bench) -> Option<bool> {
    let mut far = release_new(rt, bench, false)?;
    let end = ends(&mut bench.waiting, &mut far);
    Some(end && reuses(bench, peer()) == Some(false))
}

#[test]
fn a_link_that_is_not_to_be_kept_is_not_handed_out(rt: HostRuntime) -> Checked {
    let mut bench = set_up(&rt)?;
    assert!(rt; closes_what_is_not_kept(&rt, &mut bench) == Some(true));
    Ok(())
}

/// Opens two links and keeps them in that order; their far ends.
fn keep_two(rt: &HostRuntime, bench: &mut Bench) -> Option<(TcpLink, TcpLink)> {
    let (older, first) = connect(rt, &bench.listener, &mut bench.connector)?;
    let (newer, second) = connect(rt, &bench.listener, &mut bench.connector)?;
    bench.connector.release(peer(), Upstream::H1(older), true);
    bench.connector.release(peer(), Upstream::H1(newer), true);
    Some((first, second))
}

fn hands_out_what_stands(rt: &HostRuntime, bench: &mut Bench) -> Option<bool> {
    let (mut standing, closed) = keep_two(rt, bench)?;
    drop(closed);
    pause(rt);
    // The one that was kept before it stands.
    let mut next = reconnect(&mut bench.connector)?;
    let stands = reaches(&mut bench.waiting, &mut next, &mut standing);
    let fresh = reuses(bench, peer()) == Some(false);
    Some(stands && fresh && bench.connector.unexpected_data_connection_count() == 0)
}

#[test]
fn a_link_that_the_peer_closed_is_not_handed_out(rt: HostRuntime) -> Checked {
    let mut bench = set_up(&rt)?;
    assert!(rt; hands_out_what_stands(&rt, &mut bench) == Some(true));
    Ok(())
}

fn closes_where_bytes_came(rt: &HostRuntime, bench: &mut Bench) -> Option<bool> {
    let mut far = release_new(rt, bench, true)?;
    let took = far.write(b"more") == Put::Took(4);
    pause(rt);
    let fresh = reuses(bench, peer()) == Some(false);
    let counted = bench.connector.unexpected_data_connection_count() == 1;
    // It was closed, with its bytes unread.
    let got = read_four(&mut bench.waiting, &mut far, ROUNDS).0;
    Some(took && fresh && counted && (got == Got::End || got == Got::Failed(UNREAD)))
}

#[test]
fn a_link_on_which_bytes_came_is_not_handed_out(rt: HostRuntime) -> Checked {
    let mut bench = set_up(&rt)?;
    assert!(rt; closes_where_bytes_came(&rt, &mut bench) == Some(true));
    Ok(())
}

/// A connector, and links of it that are out.
#[derive(Drop)]
struct Holding {
    connector: TcpConnector<HostRuntime>,
    near: Vec<TcpLink>,
    ghost out: { vec_len near ≤ links_out connector },
}

impl Holding {
    /// Takes one more link; its far end.
    fn connect(&mut self, rt: &HostRuntime, listener: &TcpListener) -> Option<TcpLink> {
        let (near, far) = connect(rt, listener, &mut self.connector)?;
        self.near.push(near).ok()?;
        Some(far)
    }

    /// Takes so many links; their far ends.
    fn connect_all(
        &mut self,
        rt: &HostRuntime,
        listener: &TcpListener,
        count: usize,
    ) -> Option<Vec<TcpLink>> {
        let mut far = Vec::new(rt.alloc());
        for _ in 0..count {
            far.push(self.connect(rt, listener)?).ok()?;
        }
        Some(far)
    }

    /// Hands back so many links, to be kept, the last one first.
    fn release(&mut self, count: usize) {
        for _ in 0..count {
            if let Some(link) = self.near.pop() {
                self.connector.release(peer(), Upstream::H1(link), true);
            }
        }
    }
}

/// Whether the next link that is handed out reaches that far end.
fn hands_out(
    waiting: &mut Waiting,
    connector: &mut TcpConnector<HostRuntime>,
    far: &mut TcpLink,
) -> bool {
    match reconnect(connector) {
        Some(mut near) => reaches(waiting, &mut near, far),
        None => false,
    }
}

/// Whether the links that are handed out reach these far ends, in order.
fn hands_out_all(
    waiting: &mut Waiting,
    connector: &mut TcpConnector<HostRuntime>,
    far: Vec<TcpLink>,
) -> bool {
    for mut other in far {
        if !hands_out(waiting, connector, &mut other) {
            return false;
        }
    }
    true
}

/// Whether the far end of the oldest link ends where one link more is kept than may be.
fn ends_with_one_more(waiting: &mut Waiting, holding: &mut Holding, mut oldest: TcpLink) -> bool {
    holding.release(MOST_IDLE);
    let stands = read_four(waiting, &mut oldest, 10).0 == Got::NotReady;
    holding.release(1);
    stands && ends(waiting, &mut oldest)
}

/// The far ends of the links that are kept, where the oldest one gave way.
fn close_the_oldest(
    rt: &HostRuntime,
    waiting: &mut Waiting,
    listener: &TcpListener,
    holding: &mut Holding,
) -> Option<Vec<TcpLink>> {
    let far = holding.connect_all(rt, listener, MOST_IDLE)?;
    let oldest = holding.connect(rt, listener)?;
    if !ends_with_one_more(waiting, holding, oldest) {
        return None;
    }
    Some(far)
}

fn keeps_the_others(rt: &HostRuntime, bench: Bench) -> Option<bool> {
    let Bench {
        mut waiting,
        listener,
        connector,
    } = bench;
    let near = Vec::new(rt.alloc());
    let mut holding = Holding { connector, near };
    let far = close_the_oldest(rt, &mut waiting, &listener, &mut holding)?;
    // The others are handed out from the last one on.
    let Holding { mut connector, .. } = holding;
    Some(hands_out_all(&mut waiting, &mut connector, far))
}

#[test]
fn of_too_many_kept_links_the_oldest_is_closed(rt: HostRuntime) -> Checked {
    let bench = set_up(&rt)?;
    assert!(rt; keeps_the_others(&rt, bench) == Some(true));
    Ok(())
}

/// Whether a link waits to be told of bytes that have come.
fn is_told_apart(rt: &HostRuntime, near: &mut TcpLink, far: &mut TcpLink) -> bool {
    let took = far.write(b"pong");
    thread::sleep(rt, Duration::from_millis(1));
    let got = near.read(&mut [0; 4]);
    took == Put::Took(4) && got == Got::NotReady
}

/// Whether a link reads what has come once a poll has told of it.
fn reads_once_told(waiting: &mut Waiting, near: &mut TcpLink) -> bool {
    let waited = waiting.wait(1000);
    let got = near.read(&mut [0; 16]);
    waited && got == Got::Bytes(4)
}

fn is_told_where_kept(rt: &HostRuntime, bench: &mut Bench) -> Option<bool> {
    let mut far = release_new(rt, bench, true)?;
    let mut near = reconnect(&mut bench.connector)?;
    // It is still waited for, and does not ask before it is told.
    let apart = is_told_apart(rt, &mut near, &mut far);
    Some(apart && reads_once_told(&mut bench.waiting, &mut near))
}

#[test]
fn a_kept_link_is_told_of(rt: HostRuntime) -> Checked {
    let mut bench = set_up(&rt)?;
    assert!(rt; is_told_where_kept(&rt, &mut bench) == Some(true));
    Ok(())
}

fn is_told_twice(rt: &HostRuntime, bench: &mut Bench) -> Option<bool> {
    let (mut near, mut far) = connect(rt, &bench.listener, &mut bench.connector)?;
    let first = is_told_apart(rt, &mut near, &mut far);
    let one = reads_once_told(&mut bench.waiting, &mut near);
    let second = is_told_apart(rt, &mut near, &mut far);
    let two = reads_once_told(&mut bench.waiting, &mut near);
    Some(first && one && second && two && near.used() == 4 && near.faults() == 0)
}

#[test]
fn a_link_asks_its_socket_once_a_poll_has_told(rt: HostRuntime) -> Checked {
    let mut bench = set_up(&rt)?;
    assert!(rt; is_told_twice(&rt, &mut bench) == Some(true));
    Ok(())
}

fn ends_behind_bytes(rt: &HostRuntime, bench: &mut Bench) -> Option<bool> {
    let (mut near, mut far) = connect(rt, &bench.listener, &mut bench.connector)?;
    let took = far.write(b"last") == Put::Took(4);
    drop(far);
    pause(rt);
    let bytes = reads_once_told(&mut bench.waiting, &mut near);
    Some(took && bytes && near.read(&mut [0; 4]) == Got::End)
}

#[test]
fn an_end_that_came_with_the_last_bytes_is_read(rt: HostRuntime) -> Checked {
    let mut bench = set_up(&rt)?;
    assert!(rt; ends_behind_bytes(&rt, &mut bench) == Some(true));
    Ok(())
}

/// Reads until nothing is there.
fn drain(link: &mut TcpLink) {
    let mut room = [0; 4096];
    for _ in 0..ROUNDS * ROUNDS {
        if link.read(&mut room) == Got::NotReady {
            return;
        }
    }
}

/// Writes until nothing is taken, and then once more; whether it came so far.
fn fills(link: &mut TcpLink) -> bool {
    for _ in 0..ROUNDS * ROUNDS {
        if link.write(&[7; 4096]) == Put::NotReady {
            return true;
        }
    }
    false
}

/// The first answer other than `NotReady` of a write, a millisecond after each that was not.
fn write_later(waiting: &mut Waiting, near: &mut TcpLink, far: &mut TcpLink) -> Put {
    for _ in 0..ROUNDS {
        waiting.wait(1);
        let put = near.write(&[7; 4096]);
        if put != Put::NotReady {
            return put;
        }
        drain(far);
    }
    Put::NotReady
}

fn writes_on_once_told(rt: &HostRuntime, bench: &mut Bench) -> Option<bool> {
    let (mut near, mut far) = connect(rt, &bench.listener, &mut bench.connector)?;
    let full = fills(&mut near);
    drain(&mut far);
    // There is room again, and nothing was told yet.
    let untold = near.write(&[7; 4096]) == Put::NotReady;
    let put = write_later(&mut bench.waiting, &mut near, &mut far);
    Some(full && untold && put == Put::Took(4096))
}

#[test]
fn a_write_goes_on_once_a_poll_has_told_of_room(rt: HostRuntime) -> Checked {
    let mut bench = set_up(&rt)?;
    assert!(rt; writes_on_once_told(&rt, &mut bench) == Some(true));
    Ok(())
}

/// Whether a new link has a slot.
fn has_slot(rt: &HostRuntime, bench: &mut Bench) -> Option<bool> {
    let (mut near, mut far) = connect(rt, &bench.listener, &mut bench.connector)?;
    Some(is_told_apart(rt, &mut near, &mut far))
}

fn gives_slots_back(rt: &HostRuntime, bench: &mut Bench) -> Option<bool> {
    for _ in 0..SLOTS + 2 {
        if !has_slot(rt, bench)? {
            return Some(false);
        }
    }
    Some(true)
}

#[test]
fn a_link_gives_its_slot_back(rt: HostRuntime) -> Checked {
    let mut bench = set_up(&rt)?;
    assert!(rt; gives_slots_back(&rt, &mut bench) == Some(true));
    Ok(())
}

/// Links that have all slots.
fn seat_all(rt: &HostRuntime, bench: &mut Bench) -> Option<Vec<TcpLink>> {
    let mut seated = Vec::new(rt.alloc());
    for _ in 0..SLOTS {
        let (near, _) = connect(rt, &bench.listener, &mut bench.connector)?;
        seated.push(near).ok()?;
    }
    Some(seated)
}

fn asks_without_slot(rt: &HostRuntime, bench: &mut Bench) -> Option<bool> {
    let _seated = seat_all(rt, bench)?;
    let (mut near, mut far) = connect(rt, &bench.listener, &mut bench.connector)?;
    let apart = is_told_apart(rt, &mut near, &mut far);
    // A wait ends at once for it, as for any other.
    let took = far.write(b"pong") == Put::Took(4);
    Some(!apart && took && reads_once_told(&mut bench.waiting, &mut near))
}

#[test]
fn a_link_without_a_slot_asks_at_each_call(rt: HostRuntime) -> Checked {
    let mut bench = set_up(&rt)?;
    assert!(rt; asks_without_slot(&rt, &mut bench) == Some(true));
    Ok(())
}

/// Whether a poll finds that the link can be written to.
fn is_waited_for(rt: &HostRuntime, link: &mut TcpLink) -> io::Result<bool> {
    let mut events = Events::with_capacity(rt.alloc(), 4)?;
    let mut poll = Poll::new(rt)?;
    poll.registry()
        .register(link.stream(), Token(7), Interest::WRITABLE)?;
    poll.poll(&mut events, Some(Duration::from_secs(1)))?;
    match events.iter().next() {
        Some(event) => Ok(event.is_writable()),
        None => Ok(false),
    }
}

#[test]
fn a_poll_waits_for_a_link(rt: HostRuntime) -> Checked {
    let listener = listen(&rt)?;
    let mut link = TcpLink::new(TcpStream::connect(&rt, listener.local_addr()?)?, false);
    assert!(rt; is_waited_for(&rt, &mut link)?);
    Ok(())
}

const UNREAD: Fault = Fault {
    kind: FaultKind::Read,
    retry: RetryType::ReusedOnly,
};

const UNWRITTEN: Fault = Fault {
    kind: FaultKind::Write,
    retry: RetryType::ReusedOnly,
};

const UNCONNECTED: Fault = Fault {
    kind: FaultKind::Connect,
    retry: RetryType::Decided(false),
};

/// Whether the link's first read and its first write are faults.
fn is_broken(waiting: &mut Waiting, mut link: TcpLink) -> bool {
    let got = read_four(waiting, &mut link, ROUNDS).0;
    let put = link.write(b"ping");
    got == Got::Failed(UNREAD) && put == Put::Failed(UNWRITTEN) && link.faults() == 2
}

fn fails(bench: &mut Bench) -> bool {
    match bench.connector.get(&peer()) {
        Ok((Upstream::H1(link), _)) => is_broken(&mut bench.waiting, link),
        Ok(_) => false,
        Err(fault) => fault == UNCONNECTED,
    }
}

#[test]
fn where_nothing_listens_each_call_is_a_fault(rt: HostRuntime) -> Checked {
    let listener = listen(&rt)?;
    let closed = listen(&rt)?.local_addr()?;
    let mut bench = set_up_to(&rt, listener, closed)?;
    assert!(rt; fails(&mut bench));
    Ok(())
}

fn refuses(connector: &mut TcpConnector<HostRuntime>) -> bool {
    match connector.get(&peer()) {
        Ok(_) => false,
        Err(fault) => fault == UNCONNECTED && connector.faults() == 1,
    }
}

#[test]
fn an_address_of_no_host_is_refused_at_once(rt: HostRuntime) -> Checked {
    let everyone = SocketAddr::from((Ipv4Addr::BROADCAST, 9));
    let mut bench = set_up_to(&rt, listen(&rt)?, everyone)?;
    assert!(rt; refuses(&mut bench.connector));
    Ok(())
}
