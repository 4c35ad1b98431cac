//! A sink of bytes that waits: a write takes something or fails.
ghost use Rattle.std.specs.Prelude.{◌≡◌, ◌<◌, length};
ghost use Rattle.relay_links.specs.Sink.{SinkState, Pushes};

/// The answer of a write to a sink. `Took` has a number from 1 to the length of the part.
#[derive(Clone, Copy, Debug, PartialEq, Eq)]
pub enum Wrote {
    /// That many bytes were taken, from the start of the part.
    Took(usize),
    /// The write failed, took nothing, and the count of faults rose.
    Failed,
    /// There was no memory: the sink took nothing.
    OutOfMemory,
}

/// Takes bytes. It means the bytes taken, where it tells them.
pub trait Sink {
    ghost state: { Self → SinkState };

    /// Offers the part, which is not empty, and takes some of its start.
    fn write(&mut self, part: &[u8]) -> Wrote
        requires { 0 < length part.now }
        ensures { Pushes (state self.old) part.now (state self.new) result };

    /// How many calls failed; the count stands still at its last value.
    fn faults(&self) -> u64
        ensures { result ≡ (state self.now).faults };
}
