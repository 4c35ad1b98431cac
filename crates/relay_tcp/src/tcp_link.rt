//! A link over a TCP connection that does not block. It tells no content.
ghost use Rattle.std.specs.Prelude.{◌≡◌, ◌<◌, true, false, length};
ghost use Rattle.std.specs.Borrow.{sem};
ghost use Rattle.relay_links.specs.Link.{IsHandedOut, Reads, Writes};
ghost use Rattle.relay_tcp.specs.TcpLink.{tcp_state, tcp_start, IsUnused, IsSameConnection, LendsStream, ReadsSocket, WritesSocket};

use crate::answer::{Sight, read_answer, write_answer};
use crate::readiness::{Seat, Side};
use mio::net::TcpStream;
use relay_links::{ByteLink, Got, Put};
use std::io::{Read, Write};

/// A link over a stream that does not block. It is never silent: where the socket would block it
/// answers `NotReady`, and does not ask the socket where its seat says so. Its drop closes the
/// connection.
#[derive(Drop)]
pub struct TcpLink {
    stream: TcpStream,
    // What the poll has told. A link without one asks the socket at each call.
    seat: Option<Seat>,
    ended: bool,
    waits: u64,
    used: u64,
    faults: u64,
    reused: bool,
}

impl TcpLink {
    /// A link over that stream, which its maker has set not to block. It has answered nothing;
    /// `reused` says whether the connection carried a request before. Each call asks the socket.
    pub fn new(stream: TcpStream, reused: bool) -> TcpLink
        ensures unused { IsUnused result reused }
        ensures handed { IsHandedOut (tcp_state result) (tcp_start result) reused }
    {
        TcpLink::over(stream, None, reused)
    }

    /// The same over a stream that is watched: `seat` is what `watch` gave for it. A call asks the
    /// socket where the poll has told that it may move something.
    pub fn watched(stream: TcpStream, seat: Seat, reused: bool) -> TcpLink
        ensures unused { IsUnused result reused }
        ensures handed { IsHandedOut (tcp_state result) (tcp_start result) reused }
    {
        TcpLink::over(stream, Some(seat), reused)
    }

    fn over(stream: TcpStream, seat: Option<Seat>, reused: bool) -> TcpLink
        ensures stream { result.stream ≡ stream }
        ensures seat { result.seat ≡ seat }
        ensures unused { IsUnused result reused }
        ensures handed { IsHandedOut (tcp_state result) (tcp_start result) reused }
    {
        TcpLink {
            stream,
            seat,
            ended: false,
            waits: 0,
            used: 0,
            faults: 0,
            reused,
        }
    }

    /// What the connection shows, as far as the system tells now: whether it is open, and whether
    /// something came on it that was not read. Its bytes stay, and so does what the seat knows.
    pub(crate) fn look(&self) -> Sight
        ensures was_open { result ≡ Sight.Idle → self.now.ended ≡ false }
        ensures faultless { result ≡ Sight.Idle → self.now.faults ≡ 0 }
    {
        if self.ended || self.faults > 0 {
            return Sight::Over;
        }
        Sight::of(&self.stream.peek(&mut [0]))
    }

    /// A link over the same connection that has answered nothing, marked as reused.
    pub(crate) fn again(self) -> TcpLink
        ensures connection { IsSameConnection self result }
        ensures unused { IsUnused result true }
    {
        TcpLink::over(self.stream, self.seat, true)
    }

    /// Whether the socket is to be asked.
    fn asks(&self, side: Side) -> bool {
        match &self.seat {
            Some(seat) => seat.asks(side),
            None => true,
        }
    }

    /// The stream, so that a poll can wait for it. The link's counts stay as they are, whatever is
    /// done to the stream. Let a watched link keep its own, registered as it is.
    pub fn stream(&mut self) -> &mut TcpStream
        ensures* writes_back { sem 𝓛 (LendsStream self.entry result) }
        ensures value { result.now ≡ self.old.stream }
    {
        &mut self.stream
    }
}

impl ByteLink for TcpLink {
    ghost state = { tcp_state };

    ghost start = { tcp_start };

    fn read(&mut self, room: &mut [u8]) -> Got
        requires { 0 < length room.old }
        ensures answer { Reads (tcp_state self.old) room.new (tcp_state self.new) result }
        ensures start { tcp_start self.new ≡ tcp_start self.old }
        ensures socket { ReadsSocket (tcp_state self.old) (tcp_state self.new) result }
    {
        let (waits, used, faults) = (self.waits, self.used, self.faults);
        self.used = used.saturating_add(1);
        if self.ended {
            return Got::End;
        }
        if !self.asks(Side::Read) {
            self.waits = waits.saturating_add(1);
            return Got::NotReady;
        }
        let read = self.stream.read(room);
        if let Some(seat) = &self.seat {
            seat.note_read(&read, room.len());
        }
        let got = read_answer(read);
        match got {
            Got::Bytes(_) | Got::Silent => {}
            Got::NotReady => self.waits = waits.saturating_add(1),
            Got::End => self.ended = true,
            Got::Failed(_) => self.faults = faults.saturating_add(1),
        }
        got
    }

    fn write(&mut self, part: &[u8]) -> Put
        requires { 0 < length part.now }
        ensures answer { Writes (tcp_state self.old) part.now (tcp_state self.new) result }
        ensures start { tcp_start self.new ≡ tcp_start self.old }
        ensures socket { WritesSocket (tcp_state self.old) (tcp_state self.new) result }
    {
        let (waits, used, faults) = (self.waits, self.used, self.faults);
        self.used = used.saturating_add(1);
        if !self.asks(Side::Write) {
            self.waits = waits.saturating_add(1);
            return Put::NotReady;
        }
        let written = self.stream.write(part);
        if let Some(seat) = &mut self.seat {
            seat.note_write(&written, part.len(), &mut self.stream);
        }
        let put = write_answer(written);
        match put {
            Put::Took(_) | Put::Silent | Put::OutOfMemory => {}
            Put::NotReady => self.waits = waits.saturating_add(1),
            Put::Failed(_) => self.faults = faults.saturating_add(1),
        }
        put
    }

    fn faults(&self) -> u64 {
        self.faults
    }

    fn used(&self) -> u64 {
        self.used
    }
}
