//! The server: clients are accepted, each open connection gets one turn in its turn, and where all
//! of them wait the poller sleeps (RFC 9112, section 9). Where no seat is free, one that is idle
//! gives way.
ghost use Rattle.std.specs.Prelude.{◌≡◌, ◌≢◌, ◌⊎◌, ◌↔◌, ◌+◌, ◌≤◌, ◌<◌, [], ◌∷◌, length, Some, true, false};
ghost use Rattle.std.specs.List.{position};
ghost use Rattle.relay_links.specs.Count.{Rose, last_count};
ghost use Rattle.relay_links.specs.Told.{more};
ghost use Rattle.relay_request.specs.Calls.{allowed_by};
ghost use Rattle.relay_request.specs.Turn.{links_held};
ghost use Rattle.relay_server.specs.Idle.{is_idle, GivesWay, IsPutLast, KeepsOrder, IsReplaced};
ghost use Rattle.relay_server.specs.Listening.{ListensAt};
ghost use Rattle.relay_server.specs.Serving.{Books, books, CountRises, all_held, HaveEnded, Serves, EndsOne, ServesOn};

use crate::floor::{Floor, MOST_OPEN};
use crate::open_connection::{AfterRequest, OpenConnection};
use relay_connector::{Connector, LinkOf};
use relay_links::{ByteLink, Listening, Polled, Poller, Purger};
use relay_proxy::{HttpProxy, ProxyHttp, RunStep};
use std::alloc::Global;
use std::sync::Wait;

/// How many milliseconds a wait takes at most.
const LONGEST_WAIT: u32 = 100;

/// How many rounds go by before the poller is asked what else may go on, while something moves in
/// each of them.
const ROUNDS_UNASKED: u8 = 16;

/// How serving ended.
#[derive(Clone, Copy, Debug, PartialEq, Eq)]
pub struct ServeEnd {
    /// 0 where all requests ended that were asked for, 5 when out of memory, and 7 where the port
    /// is not to be had or can not be waited for.
    pub status: u8,
    /// How many requests ended: those that were served or refused.
    pub served: u64,
}

/// Serves the clients that come to a port, until so many requests have ended. It may wait for ever.
///
/// At most 64 connections are open. A further client takes the place of the one that has been idle
/// for longest, of whose request no byte has come; where none is idle it waits. Each open
/// connection that may move gets one turn in its turn, and where all wait for the outside the
/// poller sleeps for 100 milliseconds at most. A connection that is reused begins its next request.
///
/// Once so many requests have ended, the requests under way are given up and all connections
/// closed. A connection for which there is no memory is closed at once.
pub fn serve_with<R: Wait, SV: ProxyHttp, K: Connector, P: Purger, O: Poller>(
    rt: &R,
    alloc: Global,
    proxy: &mut HttpProxy<SV, K, P>,
    poller: &mut O,
    port: u16,
    requests: u64,
) -> ServeEnd
    // All that were asked for ended.
    ensures done { (result.status ≡ 0) ↔ (result.served ≡ requests) }
    // The poller failed.
    ensures failed { result.status ≡ 7
        → Rose (O.fault_count poller.old) (O.fault_count poller.new) }
    ensures statuses { (result.status ≡ 0) ⊎ ((result.status ≡ 5) ⊎ (result.status ≡ 7)) }
    // It listens at that port and at no other, or it served nobody.
    ensures listens { ListensAt (O.ports poller.old) (O.ports poller.new) port result.served }
    // The number is what the proxy counted.
    ensures served { proxy.old.requests_ended + result.served ≡ proxy.new.requests_ended }
    // Each request that was counted came to its end as the proxy promises, by calls of hooks that
    // the application allows, and gave its link back.
    ensures requests { HaveEnded ⟦<LinkOf<K> as ByteLink>⟧.state ⟦<LinkOf<K> as ByteLink>⟧.start
        (allowed_by (SV.allows proxy.old.inner) SV.Modules.allows)
        (books K.returned K.fault_count proxy.old) proxy.new.requests_ended
        (K.returned proxy.new.connector) [] }
    ensures out { K.out proxy.new.connector ≡ K.out proxy.old.connector }
    ensures same { proxy.new ≡ record proxy.old {
      connector = proxy.new.connector;
      purger = proxy.new.purger;
      requests_ended = proxy.new.requests_ended;
    } }
{
    let before = proxy.requests_ended();
    let Ok(mut floor) = Floor::new(alloc) else {
        return end_of(Stop::OutOfMemory, 0, requests);
    };
    let stop = serve_floor(rt, alloc, proxy, poller, &mut floor, port, requests);
    give_all_up(proxy, poller, &mut floor);
    floor.destroy();
    end_of(stop, proxy.requests_ended() - before, requests)
}

/// Why serving stops.
#[derive(Clone, Copy, PartialEq, Eq)]
enum Stop {
    /// So many requests have ended.
    Done,
    /// The port is not to be had, or can not be waited for.
    Failed,
    OutOfMemory,
}

/// The end, by why serving stopped and how many requests ended.
fn end_of(stop: Stop, served: u64, requests: u64) -> ServeEnd
    requires { stop ≡ Stop.Done → served ≡ requests }
    ensures served { result.served ≡ served }
    ensures done { (result.status ≡ 0) ↔ (served ≡ requests) }
    ensures failed { result.status ≡ 7 → stop ≡ Stop.Failed }
    ensures statuses { (result.status ≡ 0) ⊎ ((result.status ≡ 5) ⊎ (result.status ≡ 7)) }
{
    if served == requests {
        return ServeEnd { status: 0, served };
    }
    match stop {
        Stop::Done => unreachable!(),
        Stop::Failed => ServeEnd { status: 7, served },
        Stop::OutOfMemory => ServeEnd { status: 5, served },
    }
}

/// Serves until so many more requests have ended, or the poller failed.
fn serve_floor<R: Wait, SV: ProxyHttp, K: Connector, P: Purger, O: Poller>(
    rt: &R,
    alloc: Global,
    proxy: &mut HttpProxy<SV, K, P>,
    poller: &mut O,
    floor: &mut Floor<SV, K, O::Stream>,
    port: u16,
    requests: u64,
) -> Stop
    requires { floor.old ≡ [] }
    ensures goes { ServesOn ⟦<LinkOf<K> as ByteLink>⟧.state ⟦<LinkOf<K> as ByteLink>⟧.start
        O.Stream.state SV.allows
        SV.Modules.allows SV.mark_of K.returned K.out K.fault_count
        proxy.old proxy.new floor.old floor.new }
    ensures done { result ≡ Stop.Done
        → proxy.old.requests_ended + requests ≡ proxy.new.requests_ended }
    ensures failed { result ≡ Stop.Failed
        → Rose (O.fault_count poller.old) (O.fault_count poller.new) }
    ensures memory { result ≢ Stop.OutOfMemory }
    ensures polled { O.fault_count poller.old ≤ O.fault_count poller.new }
    ensures listens { (O.ports poller.new ≡ more (O.ports poller.old) (port ∷ []))
        ⊎ ((O.ports poller.new ≡ O.ports poller.old)
        × (proxy.new.requests_ended ≡ proxy.old.requests_ended)) }
{
    let before = proxy.requests_ended();
    if requests == 0 {
        return Stop::Done;
    }
    if poller.listen(port) == Listening::Failed {
        return Stop::Failed;
    }
    let mut woken = true;
    let mut round: u8 = 0;
    for _ in rt.forever() {
        accept_all(alloc, proxy, poller, floor);
        let moving = go_round(alloc, proxy, poller, floor, before, requests, woken);
        if proxy.requests_ended() - before == requests {
            return Stop::Done;
        }
        let came = replace_idle(alloc, proxy, poller, floor);
        let busy = moving || came;
        round = round.wrapping_add(1);
        woken = !busy || round % ROUNDS_UNASKED == 0;
        if woken && poller.wait(longest_wait(busy)) == Polled::Failed {
            return Stop::Failed;
        }
    }
    unreachable!()
}

/// How many milliseconds a wait takes at most: none while a connection may move on.
fn longest_wait(busy: bool) -> u32 {
    if busy { 0 } else { LONGEST_WAIT }
}

/// Accepts the clients that wait, as long as there is room.
fn accept_all<SV: ProxyHttp, K: Connector, P: Purger, O: Poller>(
    alloc: Global,
    proxy: &mut HttpProxy<SV, K, P>,
    poller: &mut O,
    floor: &mut Floor<SV, K, O::Stream>,
)
    requires few { length floor.old ≤ 64 }
    ensures goes { ServesOn ⟦<LinkOf<K> as ByteLink>⟧.state ⟦<LinkOf<K> as ByteLink>⟧.start
        O.Stream.state SV.allows
        SV.Modules.allows SV.mark_of K.returned K.out K.fault_count
        proxy.old proxy.new floor.old floor.new }
    ensures few { length floor.new ≤ 64 }
    ensures polled { O.fault_count poller.old ≤ O.fault_count poller.new }
    ensures ports { O.ports poller.new ≡ O.ports poller.old }
{
    for _seat in floor.len()..MOST_OPEN {
        let Some(link) = poller.accept() else {
            return;
        };
        let connection = OpenConnection::begin(alloc, proxy, link);
        keep(alloc, proxy, poller, floor, connection);
    }
}

/// Where no seat is free and a client waits, the connection that has been idle for longest gives
/// way to it; whether one did. After a round each connection was asked for its next byte in vain.
fn replace_idle<SV: ProxyHttp, K: Connector, P: Purger, O: Poller>(
    alloc: Global,
    proxy: &mut HttpProxy<SV, K, P>,
    poller: &mut O,
    floor: &mut Floor<SV, K, O::Stream>,
) -> bool
    requires few { length floor.old ≤ 64 }
    requires held { all_held ⟦<LinkOf<K> as ByteLink>⟧.state ⟦<LinkOf<K> as ByteLink>⟧.start
        floor.old ≤ K.out proxy.old.connector }
    ensures goes { ServesOn ⟦<LinkOf<K> as ByteLink>⟧.state ⟦<LinkOf<K> as ByteLink>⟧.start
        O.Stream.state SV.allows
        SV.Modules.allows SV.mark_of K.returned K.out K.fault_count
        proxy.old proxy.new floor.old floor.new }
    ensures stays { result ≡ false → floor.new ≡ floor.old }
    // Who gives way was idle, the first one that was.
    ensures replaced { result ≡ true → IsReplaced floor.old floor.new }
    ensures few { length floor.new ≤ 64 }
    ensures polled { O.fault_count poller.old ≤ O.fault_count poller.new }
    ensures ports { O.ports poller.new ≡ O.ports poller.old }
{
    if floor.len() < MOST_OPEN {
        return false;
    }
    let Some(place) = floor.longest_idle() else {
        return false;
    };
    let Some(link) = poller.accept() else {
        return false;
    };
    give_way(proxy, poller, floor, place);
    let connection = OpenConnection::begin(alloc, proxy, link);
    keep(alloc, proxy, poller, floor, connection);
    true
}

/// Closes the connection that has been idle for longest. No request is counted.
fn give_way<SV: ProxyHttp, K: Connector, P: Purger, O: Poller>(
    proxy: &mut HttpProxy<SV, K, P>,
    poller: &mut O,
    floor: &mut Floor<SV, K, O::Stream>,
    place: usize,
)
    requires idle { position is_idle floor.old ≡ Some place }
    requires held { all_held ⟦<LinkOf<K> as ByteLink>⟧.state ⟦<LinkOf<K> as ByteLink>⟧.start
        floor.old ≤ K.out proxy.old.connector }
    ensures goes { ServesOn ⟦<LinkOf<K> as ByteLink>⟧.state ⟦<LinkOf<K> as ByteLink>⟧.start
        O.Stream.state SV.allows
        SV.Modules.allows SV.mark_of K.returned K.out K.fault_count
        proxy.old proxy.new floor.old floor.new }
    ensures gives_way { GivesWay floor.old floor.new }
    ensures fewer { length floor.new + 1 ≡ length floor.old }
    ensures uncounted { proxy.new.requests_ended ≡ proxy.old.requests_ended }
    ensures polled { O.fault_count poller.old ≤ O.fault_count poller.new }
    ensures ports { O.ports poller.new ≡ O.ports poller.old }
{
    match floor.take(place) {
        Some(connection) => poller.close(Box::into_inner(connection).give_up(proxy)),
        None => unreachable!(),
    }
}

/// Puts a connection last. Where there is no memory for it, it is given up.
fn keep<SV: ProxyHttp, K: Connector, P: Purger, O: Poller>(
    alloc: Global,
    proxy: &mut HttpProxy<SV, K, P>,
    poller: &mut O,
    floor: &mut Floor<SV, K, O::Stream>,
    connection: OpenConnection<SV, K, O::Stream>,
)
    requires room { length floor.old < 64 }
    requires held { links_held ⟦<LinkOf<K> as ByteLink>⟧.state ⟦<LinkOf<K> as ByteLink>⟧.start
        connection.phase
        ≤ K.out proxy.old.connector }
    ensures goes { ServesOn ⟦<LinkOf<K> as ByteLink>⟧.state ⟦<LinkOf<K> as ByteLink>⟧.start
        O.Stream.state SV.allows
        SV.Modules.allows SV.mark_of K.returned K.out K.fault_count
        proxy.old proxy.new (connection ∷ floor.old) floor.new }
    ensures last { IsPutLast floor.old floor.new }
    ensures few { length floor.new ≤ length floor.old + 1 }
    ensures polled { O.fault_count poller.old ≤ O.fault_count poller.new }
    ensures ports { O.ports poller.new ≡ O.ports poller.old }
{
    match Box::new(alloc, connection) {
        Ok(connection) => floor.put_last(connection),
        Err(failed) => poller.close(failed.value.give_up(proxy)),
    }
}

/// One turn of each open connection that may move, or of fewer where so many requests have ended;
/// whether one may move on.
fn go_round<SV: ProxyHttp, K: Connector, P: Purger, O: Poller>(
    alloc: Global,
    proxy: &mut HttpProxy<SV, K, P>,
    poller: &mut O,
    floor: &mut Floor<SV, K, O::Stream>,
    before: u64,
    requests: u64,
    woken: bool,
) -> bool
    requires few { length floor.old ≤ 64 }
    requires held { all_held ⟦<LinkOf<K> as ByteLink>⟧.state ⟦<LinkOf<K> as ByteLink>⟧.start
        floor.old ≤ K.out proxy.old.connector }
    requires counted { (before ≤ proxy.old.requests_ended)
        × (proxy.old.requests_ended ≤ last_count) }
    ensures goes { ServesOn ⟦<LinkOf<K> as ByteLink>⟧.state ⟦<LinkOf<K> as ByteLink>⟧.start
        O.Stream.state SV.allows
        SV.Modules.allows SV.mark_of K.returned K.out K.fault_count
        proxy.old proxy.new floor.old floor.new }
    ensures few { length floor.new ≤ 64 }
    ensures polled { O.fault_count poller.old ≤ O.fault_count poller.new }
    ensures ports { O.ports poller.new ≡ O.ports poller.old }
{
    let mut moving = false;
    let mut place: usize = 0;
    for _turn in 0..floor.len() {
        match take_turn(alloc, proxy, poller, floor, place, woken) {
            Turn::Moved => moving = true,
            Turn::Waits => {
                moving = true;
                place += 1;
            }
            Turn::Still => place += 1,
        }
        if proxy.requests_ended() - before == requests {
            return moving;
        }
    }
    moving
}

/// What a turn of a connection says.
#[derive(Clone, Copy, PartialEq, Eq)]
enum Turn {
    /// It moved: it is last now, or was closed.
    Moved,
    /// It waited in its place, and the next turn may ask another link.
    Waits,
    /// It is still, in its place.
    Still,
}

/// One turn of the connection at a place. One that is still takes no turn until it is woken.
fn take_turn<SV: ProxyHttp, K: Connector, P: Purger, O: Poller>(
    alloc: Global,
    proxy: &mut HttpProxy<SV, K, P>,
    poller: &mut O,
    floor: &mut Floor<SV, K, O::Stream>,
    place: usize,
    woken: bool,
) -> Turn
    requires few { length floor.old ≤ 64 }
    requires held { all_held ⟦<LinkOf<K> as ByteLink>⟧.state ⟦<LinkOf<K> as ByteLink>⟧.start
        floor.old ≤ K.out proxy.old.connector }
    ensures goes { ServesOn ⟦<LinkOf<K> as ByteLink>⟧.state ⟦<LinkOf<K> as ByteLink>⟧.start
        O.Stream.state SV.allows
        SV.Modules.allows SV.mark_of K.returned K.out K.fault_count
        proxy.old proxy.new floor.old floor.new }
    ensures order { KeepsOrder result place floor.old floor.new }
    ensures few { length floor.new ≤ 64 }
    ensures polled { O.fault_count poller.old ≤ O.fault_count poller.new }
    ensures ports { O.ports poller.new ≡ O.ports poller.old }
{
    if !woken && floor.is_still(place) {
        return Turn::Still;
    }
    let Some(mut connection) = floor.take(place) else {
        return Turn::Still;
    };
    connection.wake(woken);
    match connection.step(proxy) {
        RunStep::Ended => {
            end_taken(alloc, proxy, poller, floor, Box::into_inner(connection));
            Turn::Moved
        }
        RunStep::Moved => {
            floor.put_last(connection);
            Turn::Moved
        }
        RunStep::Waited(_) => {
            let still = connection.is_still();
            floor.put(place, connection);
            if still { Turn::Still } else { Turn::Waits }
        }
    }
}

/// Ends the request of the connection that was taken out. It is put last where its next request has
/// begun, and else closed.
fn end_taken<SV: ProxyHttp, K: Connector, P: Purger, O: Poller>(
    alloc: Global,
    proxy: &mut HttpProxy<SV, K, P>,
    poller: &mut O,
    floor: &mut Floor<SV, K, O::Stream>,
    connection: OpenConnection<SV, K, O::Stream>,
)
    requires room { length floor.old < 64 }
    requires held { links_held ⟦<LinkOf<K> as ByteLink>⟧.state ⟦<LinkOf<K> as ByteLink>⟧.start
        connection.phase
        ≤ K.out proxy.old.connector }
    ensures serves { (before : Books _)
        → EndsOne ⟦<LinkOf<K> as ByteLink>⟧.state ⟦<LinkOf<K> as ByteLink>⟧.start O.Stream.state
        (allowed_by (SV.allows proxy.old.inner) SV.Modules.allows)
        (SV.mark_of proxy.old.inner) before
        (books K.returned K.fault_count proxy.old) connection floor.old
        → Serves ⟦<LinkOf<K> as ByteLink>⟧.state ⟦<LinkOf<K> as ByteLink>⟧.start O.Stream.state
        (allowed_by (SV.allows proxy.new.inner) SV.Modules.allows)
        (SV.mark_of proxy.new.inner) before
        (books K.returned K.fault_count proxy.new) floor.new }
    ensures held { K.out proxy.new.connector
        + all_held ⟦<LinkOf<K> as ByteLink>⟧.state ⟦<LinkOf<K> as ByteLink>⟧.start (connection ∷
        floor.old)
        ≡ K.out proxy.old.connector + all_held ⟦<LinkOf<K> as ByteLink>⟧.state
        ⟦<LinkOf<K> as ByteLink>⟧.start floor.new }
    ensures counted { CountRises proxy.old.requests_ended proxy.new.requests_ended }
    ensures same { proxy.new ≡ record proxy.old {
      connector = proxy.new.connector;
      purger = proxy.new.purger;
      requests_ended = proxy.new.requests_ended;
    } }
    ensures last { IsPutLast floor.old floor.new }
    ensures few { length floor.new ≤ length floor.old + 1 }
    ensures polled { O.fault_count poller.old ≤ O.fault_count poller.new }
    ensures ports { O.ports poller.new ≡ O.ports poller.old }
{
    match connection.end(proxy) {
        AfterRequest::Goes(connection) => keep(alloc, proxy, poller, floor, connection),
        AfterRequest::Ends(link) => poller.close(link),
    }
}

/// Gives all connections up, and closes them.
fn give_all_up<SV: ProxyHttp, K: Connector, P: Purger, O: Poller>(
    proxy: &mut HttpProxy<SV, K, P>,
    poller: &mut O,
    floor: &mut Floor<SV, K, O::Stream>,
)
    requires held { all_held ⟦<LinkOf<K> as ByteLink>⟧.state ⟦<LinkOf<K> as ByteLink>⟧.start
        floor.old ≤ K.out proxy.old.connector }
    ensures goes { ServesOn ⟦<LinkOf<K> as ByteLink>⟧.state ⟦<LinkOf<K> as ByteLink>⟧.start
        O.Stream.state SV.allows
        SV.Modules.allows SV.mark_of K.returned K.out K.fault_count
        proxy.old proxy.new floor.old floor.new }
    ensures empty { floor.new ≡ [] }
    // None of them is counted.
    ensures uncounted { (before : Books _) → Serves ⟦<LinkOf<K> as ByteLink>⟧.state
        ⟦<LinkOf<K> as ByteLink>⟧.start O.Stream.state
        (allowed_by (SV.allows proxy.old.inner) SV.Modules.allows)
        (SV.mark_of proxy.old.inner) before
        (books K.returned K.fault_count proxy.old) floor.old
        → proxy.new.requests_ended ≡ proxy.old.requests_ended }
    ensures polled { O.fault_count poller.old ≤ O.fault_count poller.new }
    ensures ports { O.ports poller.new ≡ O.ports poller.old }
{
    while let Some(connection) = floor.take_first() {
        poller.close(Box::into_inner(connection).give_up(proxy));
    }
}
