//! A source of bytes that waits: a read gives something, ends, or fails.
ghost use Rattle.std.specs.Prelude.{◌≡◌, ◌<◌, length};
ghost use Rattle.relay_links.specs.Source.{SourceState, Pulls};

/// The answer of a read of a source. `Bytes` has a number from 1 to the length of the room.
#[derive(Clone, Copy, Debug, PartialEq, Eq)]
pub enum Read {
    /// That many bytes were given, at the start of the room.
    Bytes(usize),
    /// The source has given all; each later read answers this too.
    End,
    /// The read failed, and the count of faults rose.
    Failed,
}

/// Gives bytes. It means the bytes given and left, where it tells them.
pub trait Source {
    ghost state: { Self → SourceState };

    /// Reads into the start of the room, which is not empty.
    fn read(&mut self, room: &mut [u8]) -> Read
        requires { 0 < length room.old }
        ensures { Pulls (state self.old) room.new (state self.new) result };

    /// How many calls failed; the count stands still at its last value.
    fn faults(&self) -> u64
        ensures { result ≡ (state self.now).faults };
}
