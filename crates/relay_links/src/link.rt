//! A link: a connection that gives and takes bytes, and what each of its answers means.
ghost use Rattle.std.specs.Prelude.{◌≡◌, ◌<◌, length};
ghost use Rattle.relay_links.specs.Link.{LinkState, LinkStart, Reads, Writes};

use relay_tasks::Fault;

/// What an upstream link carries: the bytes of HTTP/1, or whole messages, as HTTP/2 and custom
/// protocols have them.
#[derive(Clone, Copy, Debug, PartialEq, Eq)]
pub enum UpKind {
    H1,
    H2,
    Custom,
}

/// The answer of a read of a link. `Bytes` has a number from 1 to the length of the room.
#[derive(Clone, Copy, Debug, PartialEq, Eq)]
pub enum Got {
    /// That many bytes were given, at the start of the room.
    Bytes(usize),
    /// Nothing came now; a later read may give something.
    NotReady,
    /// No read gives anything until the link takes a byte. Nothing changed.
    Silent,
    /// The link has given all; each later read answers this too.
    End,
    /// The read failed by `Read` or `ReadTimedout`, and the count of faults rose.
    Failed(Fault),
}

/// The answer of a write to a link. `Took` has a number from 1 to the length of the part.
#[derive(Clone, Copy, Debug, PartialEq, Eq)]
pub enum Put {
    /// That many bytes were taken, from the start of the part.
    Took(usize),
    /// Nothing was taken now; a later write may take something.
    NotReady,
    /// No write takes anything until the link gives a byte. Nothing changed.
    Silent,
    /// The write failed by `Write` or `WriteTimedout`, and the count of faults rose.
    Failed(Fault),
    /// There was no memory: the link took nothing.
    OutOfMemory,
}

/// A link that gives and takes bytes. It means its state, and the state at which its connector
/// handed it out, which no call changes.
pub trait ByteLink {
    ghost state: { Self → LinkState };

    ghost start: { Self → LinkStart };

    /// Reads into the start of the room, which is not empty.
    fn read(&mut self, room: &mut [u8]) -> Got
        requires { 0 < length room.old }
        ensures answer { Reads (state self.old) room.new (state self.new) result }
        ensures start { start self.new ≡ start self.old };

    /// Offers the part, which is not empty, and takes some of its start.
    fn write(&mut self, part: &[u8]) -> Put
        requires { 0 < length part.now }
        ensures answer { Writes (state self.old) part.now (state self.new) result }
        ensures start { start self.new ≡ start self.old };

    /// How many calls failed; the count stands still at its last value.
    fn faults(&self) -> u64
        ensures { result ≡ (state self.now).faults };

    /// How many answers were other than `Silent`; the count stands still at its last value.
    fn used(&self) -> u64
        ensures { result ≡ (state self.now).used };
}
