//! A connector that opens a TCP connection to a fixed address, whatever the peer is, and keeps
//! links that come back to be used again. Its links are of bytes. It tells no list of all that came
//! back; its faults it tells, since they are all the same.
ghost use Rattle.std.specs.Prelude.{◌≡◌, ◌+◌, ◌≤◌, ◌<◌, [], ◌∷◌, length, None, IfOk, IfErr, OnOk, IsOkUnless, is_ok, if◌then◌else◌};
ghost use Rattle.relay_links.specs.Count.{last_count, up, Rose};
ghost use Rattle.relay_links.specs.Link.{IsHandedOut};
ghost use Rattle.relay_links.specs.Told.{Gains};
ghost use Rattle.relay_connector.specs.Connector.{IsConnectFault};
ghost use Rattle.relay_connector.specs.Upstream.{IsHandedOver};
ghost use Rattle.relay_messages.specs.NoMessages.{no_state, no_start};
ghost use Rattle.relay_tcp.specs.IdleLinks.{CountsUnasked};
ghost use Rattle.relay_tcp.specs.TcpLink.{tcp_state, tcp_start};
ghost use Rattle.relay_tcp.specs.TcpConnector.{links_out, links_kept, gets_failed, times_preferred, links_unasked, faults_answered, any_state, any_start, IsNew, OpensSocket, HandsOut, kept_after, reused_of};

use crate::idle::IdleLinks;
use crate::readiness::{Origin, Readiness, Seat, watch};
use crate::tcp_link::TcpLink;
use mio::net::TcpStream;
use relay_connector::{Connector, Upstream};
use relay_messages::NoMessages;
use relay_tasks::{Fault, FaultKind, Peer, RetryType};
use std::io;
use std::net::{Net, SocketAddr};
use std::sync::Arc;

/// A link as the connector hands it out: one of bytes.
pub type TcpUpstream = Upstream<TcpLink, NoMessages, NoMessages>;

/// Hands out the last link to the peer that came back to be kept, where one is idle, and else
/// connects to its address. It keeps 64 idle links at most. Each connection is watched by a poll,
/// also while it is idle.
#[derive(Drop)]
pub struct TcpConnector<R> {
    rt: R,
    address: SocketAddr,
    readiness: Arc<Readiness>,
    idle: IdleLinks,
    out: u64,
    faults: u64,
    preferred: u64,
}

impl<R: Net + Clone + Drop> TcpConnector<R> {
    ghost use Rattle.relay_tasks.specs.declared.error.Fail.{Fail};

    /// A connector to that address, with a copy of the runtime, whose connections are watched
    /// there. It fails only where there is no memory for the copy, or for the links to keep.
    pub fn new(
        rt: &R,
        address: SocketAddr,
        readiness: Arc<Readiness>,
    ) -> relay_tasks::Result<TcpConnector<R>>
        ensures ok { IfOk result (λ connector. IsNew connector address) }
        ensures err { IsOkUnless result Fail.OutOfMemory }
    {
        let idle = IdleLinks::new(readiness.allocator())?;
        Ok(TcpConnector {
            rt: rt.clone()?,
            address,
            readiness,
            idle,
            out: 0,
            faults: 0,
            preferred: 0,
        })
    }
}

impl<R: Net> TcpConnector<R> {
    /// A connection to the address, which may not stand yet. It sends small writes at once, and is
    /// waited for.
    fn open(&self) -> io::Result<(TcpStream, Seat)> {
        let mut stream = TcpStream::connect(&self.rt, self.address)?;
        stream.set_nodelay(true)?;
        let seat = watch(&self.readiness, &mut stream, Origin::Connecting)?;
        Ok((stream, seat))
    }
}

impl<R: Net + Clone + Drop> Connector for TcpConnector<R> {
    type Byte = TcpLink;

    type Message = NoMessages;

    type Custom = NoMessages;

    ghost returned = { λ _. None };

    ghost stock = { λ _. None };

    ghost refusals = { faults_answered };

    ghost out = { links_out };

    ghost fault_count = { gets_failed };

    ghost preferred = { times_preferred };

    ghost unexpected = { links_unasked };

    /// A link of bytes, `Upstream::H1`: one that was kept, or a new one, whose connection may not
    /// stand yet: a fault in making it is then answered by the link. `Connect` where the system
    /// refuses at once, or where 2^64 - 1 links are out.
    fn get(&mut self, peer: &Peer) -> Result<(TcpUpstream, bool), Fault>
        ensures handed { IfOk result (λ got.
            IsHandedOut (any_state got.0) (any_start got.0) got.1) }
        ensures over { IfOk result (λ got. IsHandedOver tcp_state tcp_start no_state no_start
            no_state no_start got.0 got.1) }
        ensures out { links_out self.new
            ≡ (if is_ok result then links_out self.old + 1 else links_out self.old) }
        ensures calm { OnOk result (faults_answered self.new ≡ faults_answered self.old) }
        ensures refused { IfErr result (λ fault.
            Gains (faults_answered self.old) (fault ∷ []) (faults_answered self.new)) }
        ensures no_fault { OnOk result (gets_failed self.new ≡ gets_failed self.old) }
        ensures fault { IfErr result IsConnectFault }
        ensures rose { IfErr result (λ _. Rose (gets_failed self.old) (gets_failed self.new)) }
        ensures fits { (gets_failed self.old ≤ last_count) × (gets_failed self.new ≤ last_count) }
        ensures preferred { times_preferred self.new ≡ times_preferred self.old }
        ensures socket { OpensSocket (gets_failed self.old) (gets_failed self.new) result }
        ensures pool { HandsOut peer.now (links_kept self.old) result (links_kept self.new) }
        ensures unasked { CountsUnasked (links_unasked self.old) (links_kept self.old)
            (reused_of result) (links_unasked self.new) (links_kept self.new) }
        ensures few { length (links_kept self.new) ≤ 64 }
        ensures address { self.new.address ≡ self.old.address }
    {
        let faults = self.faults;
        let Some(out) = self.out.checked_add(1) else {
            self.faults = faults.saturating_add(1);
            return Err(REFUSED);
        };
        if let Some(link) = self.idle.take(peer) {
            self.out = out;
            return Ok((Upstream::H1(link), true));
        }
        match self.open() {
            Ok((stream, seat)) => {
                self.out = out;
                Ok((Upstream::H1(TcpLink::watched(stream, seat, false)), false))
            }
            Err(_) => {
                self.faults = faults.saturating_add(1);
                Err(REFUSED)
            }
        }
    }

    /// Keeps the link, or closes it. Past the bound the one that has been idle for longest is
    /// closed. A link of messages, which `get` hands out none of, is let go of.
    fn release(&mut self, peer: Peer, link: TcpUpstream, keep: bool)
        requires { 0 < links_out self.old }
        ensures out { links_out self.new + 1 ≡ links_out self.old }
        ensures refusals { faults_answered self.new ≡ faults_answered self.old }
        ensures faults { gets_failed self.new ≡ gets_failed self.old }
        ensures preferred { times_preferred self.new ≡ times_preferred self.old }
        ensures pool { links_kept self.new ≡ kept_after (links_kept self.old) peer link keep }
        ensures unasked { links_unasked self.new ≡ links_unasked self.old }
        ensures few { length (links_kept self.new) ≤ 64 }
        ensures address { self.new.address ≡ self.old.address }
    {
        self.out -= 1;
        match link {
            Upstream::H1(link) if keep => self.idle.keep(peer, link),
            Upstream::H1(_) | Upstream::H2(_) | Upstream::Custom(_) => {}
        }
    }

    /// Counts the call: the links are of HTTP/1 anyway.
    fn prefer_h1(&mut self, _peer: &Peer)
        ensures preferred { times_preferred self.new ≡ up (times_preferred self.old) }
        ensures out { links_out self.new ≡ links_out self.old }
        ensures refusals { faults_answered self.new ≡ faults_answered self.old }
        ensures faults { gets_failed self.new ≡ gets_failed self.old }
        ensures pool { links_kept self.new ≡ links_kept self.old }
        ensures unasked { links_unasked self.new ≡ links_unasked self.old }
        ensures address { self.new.address ≡ self.old.address }
    {
        self.preferred = self.preferred.saturating_add(1);
    }

    /// How many links were let go of, as one was looked for, because bytes had come on them.
    fn unexpected_data_connection_count(&self) -> u64 {
        self.idle.unasked()
    }

    fn faults(&self) -> u64 {
        self.faults
    }
}

/// The fault of a connection that was refused at once: another attempt would meet it too.
const REFUSED: Fault = Fault {
    kind: FaultKind::Connect,
    retry: RetryType::Decided(false),
};
