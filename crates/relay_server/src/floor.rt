//! The connections that are open at a time: those that moved longest ago come first.
ghost use Rattle.std.specs.Prelude.{◌≡◌, ◌≤◌, ◌<◌, ◌+◌, [], ◌∷◌, ◌++◌, IfOk, MatchOption, length, map};
ghost use Rattle.std.specs.List.{insert, position};
ghost use Rattle.relay_server.specs.Idle.{is_idle};

use crate::open_connection::OpenConnection;
use relay_connector::Connector;
use relay_links::ByteLink;
use relay_proxy::ProxyHttp;
use std::alloc::{AllocError, Global};
use std::collections::VecDeque;
use std::marker::Model;

/// How many connections are open at a time. A further client takes the place of one that is idle,
/// or waits until one of them ends.
pub(crate) const MOST_OPEN: usize = 64;

/// The open connections. One that moves goes last, and one that waits keeps its place, so that the
/// first has been still for longest.
pub(crate) struct Floor<SV: ProxyHttp, K: Connector, D> {
    connections: VecDeque<Box<OpenConnection<SV, K, D>>>,
}

impl<SV: ProxyHttp, K: Connector, D> Model for Floor<SV, K, D> {
    ghost use Rattle.std.specs.Prelude.{List, map, ◌≤◌};
    ghost use Rattle.std.specs.VecDeque.{deque_capacity};
    ghost use Rattle.relay_connector.specs.declared.upstream.Upstream.{Upstream};
    ghost use Rattle.relay_server.specs.Serving.{Visit};

    ghost Value = { List (Visit D SV.Kept (Upstream K.Byte K.Message K.Custom) SV.CTX SV.Modules) };

    ghost view = { λ f. map (λ b. b.value) f.connections.items };

    ghost invariant = { λ f. 64 ≤ deque_capacity f.connections };
}

impl<SV: ProxyHttp, K: Connector, D> Floor<SV, K, D> {
    /// Nobody is there yet; the room for 64 connections is taken.
    pub(crate) fn new(alloc: Global) -> Result<Floor<SV, K, D>, AllocError>
        ensures { IfOk result (λ floor. floor ≡ []) }
    {
        Ok(Floor {
            connections: VecDeque::with_capacity(alloc, MOST_OPEN)?,
        })
    }

    /// How many connections are open.
    pub(crate) fn len(&self) -> usize
        ensures { result ≡ length self.now }
    {
        self.connections.len()
    }

    /// Takes the first connection out.
    pub(crate) fn take_first(&mut self) -> Option<Box<OpenConnection<SV, K, D>>>
        ensures { MatchOption result ((self.old ≡ []) × (self.new ≡ []))
            (λ first. self.old ≡ first.value ∷ self.new) }
    {
        self.connections.pop_front()
    }

    /// Takes the connection at a place out.
    pub(crate) fn take(&mut self, place: usize) -> Option<Box<OpenConnection<SV, K, D>>>
        ensures taken { MatchOption result (self.new ≡ self.old)
            (λ taken. self.old ≡ insert self.new place taken.value) }
        ensures fewer { MatchOption result (length self.old ≤ place)
            (λ _. (place ≤ length self.new) × (length self.new + 1 ≡ length self.old)) }
    {
        self.connections.remove(place)
    }

    /// Puts a connection at a place.
    pub(crate) fn put(&mut self, place: usize, connection: Box<OpenConnection<SV, K, D>>)
        requires room { length self.old < 64 }
        requires within { place ≤ length self.old }
        ensures put { self.new ≡ insert self.old place connection.value }
        ensures more { length self.new ≡ length self.old + 1 }
    {
        match self.connections.insert(place, connection) {
            Ok(()) => {}
            Err(_failed) => unreachable!(),
        }
    }

    /// Puts a connection last.
    pub(crate) fn put_last(&mut self, connection: Box<OpenConnection<SV, K, D>>)
        requires { length self.old < 64 }
        ensures { self.new ≡ self.old ++ connection.value ∷ [] }
    {
        self.connections.push_back_reserved(connection);
    }

    /// Ends a floor on which nobody is left.
    pub(crate) fn destroy(self)
        requires { self ≡ [] }
    {
        let Floor { connections } = self;
        connections.destroy_empty();
    }
}

impl<SV: ProxyHttp, K: Connector, D: ByteLink> Floor<SV, K, D> {
    /// Whether no turn of the connection at a place can move anything until the outside has been
    /// waited for.
    pub(crate) fn is_still(&self, place: usize) -> bool {
        match self.connections.get(place) {
            Some(connection) => connection.is_still(),
            None => false,
        }
    }

    /// The place of the connection that has been idle for longest, the first one that is idle.
    pub(crate) fn longest_idle(&self) -> Option<usize>
        ensures { result ≡ position is_idle self.now }
    {
        for place in 0..self.connections.len() {
            if self.connections[place].is_idle() {
                return Some(place);
            }
        }
        None
    }
}
