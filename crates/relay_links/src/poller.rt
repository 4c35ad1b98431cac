//! The poller: it listens at a port, hands out the connections of the clients, and sleeps until one
//! of them may go on.
ghost use Rattle.std.specs.Prelude.{◌≡◌, ℕ, ◌≤◌, List, Option};
ghost use Rattle.relay_links.specs.Count.{Rose};
ghost use Rattle.relay_links.specs.Poller.{listened};

use crate::link::ByteLink;

/// Whether a port is listened at.
#[derive(Clone, Copy, Debug, PartialEq, Eq)]
pub enum Listening {
    Ready,
    /// The port is not to be had.
    Failed,
}

/// How a wait ended.
#[derive(Clone, Copy, Debug, PartialEq, Eq)]
pub enum Polled {
    /// A connection may go on, a client may wait to be accepted, or the time is up.
    Ready,
    /// The outside can not be waited for.
    Failed,
}

/// Listens for clients, and waits for their connections. It means how many of its calls failed, and
/// at which ports it listens, where it tells them.
pub trait Poller {
    /// The clients' links.
    type Stream: ByteLink;

    ghost fault_count: { Self → ℕ };

    ghost ports: { Self → Option (List ℕ) };

    /// Listens at a port of this host as well. Where it failed the count of faults rose, and the
    /// ports are as they were.
    fn listen(&mut self, port: u16) -> Listening
        ensures ports { ports self.new ≡ listened result (ports self.old) port }
        ensures failed { result ≡ Listening.Failed
            → Rose (fault_count self.old) (fault_count self.new) }
        ensures grows { fault_count self.old ≤ fault_count self.new };

    /// The link of a client that waits to be accepted, and `None` where nobody waits.
    fn accept(&mut self) -> Option<Self::Stream>
        ensures ports { ports self.new ≡ ports self.old }
        ensures grows { fault_count self.old ≤ fault_count self.new };

    /// Takes back a link that was accepted, and ends its connection.
    fn close(&mut self, stream: Self::Stream)
        ensures ports { ports self.new ≡ ports self.old }
        ensures grows { fault_count self.old ≤ fault_count self.new };

    /// Sleeps until a link may go on or a client waits, and for so many milliseconds at most. The
    /// count of faults rose where it failed.
    fn wait(&mut self, millis: u32) -> Polled
        ensures ports { ports self.new ≡ ports self.old }
        ensures failed { result ≡ Polled.Failed
            → Rose (fault_count self.old) (fault_count self.new) }
        ensures grows { fault_count self.old ≤ fault_count self.new };

    /// How many calls failed; the count stands still at its last value.
    fn faults(&self) -> u64
        ensures { result ≡ fault_count self.now };
}
