//! What a poll has told of each socket that it waits for, so that a link which can not move is not
//! asked.
//!
//! A bit that is set wrongly costs one call. No bit stays clear while its socket can move and the
//! poll has nothing to tell:
//!
//! - The poll tells each change once. A bit is cleared before the socket is asked, and set again
//!   unless the answer shows that all was moved; what comes after that answer is a change. So a
//!   second read in a round asks again only where the first one filled its room.
//! - A short answer shows nothing once an end, a failure or urgent bytes were told: their change
//!   is past, and they may lie behind the bytes that were moved. From then on each call asks.
//! - Room to write is waited for from the first write on that found too little, and asking for
//!   that reports again what is ready. Where it is refused, the bit stays set.
//! - Events are told as soon as a wait returns, and a closed socket causes none. One that is told
//!   to a slot which was freed and taken meanwhile only sets bits.
use crate::answer::stays_ready;
use mio::event::Event;
use mio::net::TcpStream;
use mio::{Interest, Registry, Token};
use std::alloc::Global;
use std::io;
use std::sync::Arc;
use std::sync::atomic::AtomicU32;
use std::sync::atomic::Ordering::SeqCst;

/// How many sockets are told apart. Those beyond them are asked at each call.
pub(crate) const SLOTS: usize = 256;

/// The slot is a socket's.
const IN_USE: u32 = 1;

const READABLE: u32 = 2;

const WRITABLE: u32 = 4;

/// Each call asks the socket, until it is closed.
const ALWAYS: u32 = 8;

/// What a call moves: bytes in, or bytes out.
#[derive(Clone, Copy)]
pub(crate) enum Side {
    Read,
    Write,
}

impl Side {
    /// The bit of a slot that says whether such a call may move something.
    fn bit(self) -> u32 {
        match self {
            Side::Read => READABLE,
            Side::Write => WRITABLE,
        }
    }
}

/// Where a socket comes from.
#[derive(Clone, Copy, Debug, PartialEq, Eq)]
pub enum Origin {
    /// It was accepted: something to read may be there.
    Accepted,
    /// It is being connected: the poll tells when something is to be read.
    Connecting,
}

/// A poll's sockets, and what it has told of each. Poller, connector and links share it.
#[derive(Drop)]
pub struct Readiness {
    registry: Registry,
    // By their tokens. The first one is nobody's.
    slots: Vec<AtomicU32>,
}

impl Readiness {
    /// Nothing is watched yet. It fails, as `OutOfMemory`, where there is no memory. Token 0 is
    /// left to a listener of the caller's.
    pub fn new(alloc: Global, registry: Registry) -> io::Result<Arc<Readiness>> {
        let mut slots = Vec::with_capacity(alloc, SLOTS + 1)?;
        slots.push(AtomicU32::new(IN_USE))?;
        for _ in 0..SLOTS {
            slots.push(AtomicU32::new(0))?;
        }
        Ok(Arc::new(alloc, Readiness { registry, slots })?)
    }

    /// The allocator that its table is from.
    pub(crate) fn allocator(&self) -> Global {
        *self.slots.allocator()
    }

    /// Notes what a wait gave. Call it for each event before a link is asked again; those of token
    /// 0 change nothing.
    pub fn tell(&self, event: &Event) {
        if let Some(slot) = self.slots.get(event.token().0) {
            slot.fetch_or(told_bits(event), SeqCst);
        }
    }

    /// Takes the first free slot, with these bits; a number beyond the table where none is free.
    fn take_slot(&self, first: u32) -> usize {
        for (token, slot) in self.slots.iter().enumerate() {
            if slot.fetch_or(IN_USE, SeqCst) & IN_USE == 0 {
                slot.store(IN_USE | first, SeqCst);
                return token;
            }
        }
        self.slots.len()
    }
}

/// The bits that an event sets.
fn told_bits(event: &Event) -> u32 {
    let mut bits = 0;
    if event.is_readable() {
        bits |= READABLE;
    }
    if event.is_writable() {
        bits |= WRITABLE;
    }
    if event.is_read_closed()
        || event.is_write_closed()
        || event.is_error()
        || event.is_priority()
    {
        bits |= ALWAYS;
    }
    bits
}

/// Has the poll wait for a socket until it is closed, and takes a slot for it. Room to write is
/// waited for once a write asks for it, and at once where no slot is free. Each change is told
/// once.
pub fn watch(
    readiness: &Arc<Readiness>,
    stream: &mut TcpStream,
    origin: Origin,
) -> io::Result<Seat> {
    let first = match origin {
        Origin::Accepted => READABLE | WRITABLE,
        Origin::Connecting => WRITABLE,
    };
    let readiness = Arc::try_clone(readiness)?;
    let token = readiness.take_slot(first);
    let awaits_room = token >= readiness.slots.len();
    let seat = Seat {
        readiness,
        token,
        awaits_room,
    };
    let interest = interest(awaits_room);
    seat.readiness
        .registry
        .register(stream, Token(token), interest)?;
    Ok(seat)
}

/// What is waited for: bytes to read, urgent ones too, and room to write where it is asked for.
fn interest(room: bool) -> Interest {
    let reads = Interest::READABLE | Interest::PRIORITY;
    if room {
        reads | Interest::WRITABLE
    } else {
        reads
    }
}

/// A socket's slot, which its drop gives back. A link drops its socket first; in the other order
/// the slot's next socket could be told events of this one, which cost it calls and nothing else.
pub struct Seat {
    readiness: Arc<Readiness>,
    // The number of its slot, and one beyond the table where none was free.
    token: usize,
    // Whether the poll waits for room to write.
    awaits_room: bool,
}

impl Seat {
    /// Whether the socket is to be asked. Note the answer then: until that the bit is clear.
    pub(crate) fn asks(&self, side: Side) -> bool {
        match self.readiness.slots.get(self.token) {
            Some(slot) => slot.fetch_and(!side.bit(), SeqCst) & (side.bit() | ALWAYS) != 0,
            None => true,
        }
    }

    /// Notes what a read into so much room gave.
    pub(crate) fn note_read(&self, read: &io::Result<usize>, room: usize) {
        if stays_ready(read, room) {
            self.set(Side::Read);
        }
    }

    /// Notes what a write of so many bytes to its socket gave.
    pub(crate) fn note_write(
        &mut self,
        written: &io::Result<usize>,
        part: usize,
        stream: &mut TcpStream,
    ) {
        if stays_ready(written, part) || !self.await_room(stream) {
            self.set(Side::Write);
        }
    }

    fn set(&self, side: Side) {
        if let Some(slot) = self.readiness.slots.get(self.token) {
            slot.fetch_or(side.bit(), SeqCst);
        }
    }

    /// Has the poll wait for room to write from now on; whether it does.
    fn await_room(&mut self, stream: &mut TcpStream) -> bool {
        if !self.awaits_room {
            let token = Token(self.token);
            let registry = &self.readiness.registry;
            self.awaits_room = registry.reregister(stream, token, interest(true)).is_ok();
        }
        self.awaits_room
    }
}

impl Drop for Seat {
    fn drop(self) {
        let Seat {
            readiness,
            token,
            awaits_room: _,
        } = self;
        if let Some(slot) = readiness.slots.get(token) {
            slot.store(0, SeqCst);
        }
    }
}
