//! A poller that says on standard error where it serves.

use relay_links::{Listening, Polled, Poller};

/// A poller over another, which tells on standard error at which port it listens, and for which
/// peer. In all else it is that other poller.
#[derive(Drop)]
pub struct Announcer<'a, R, O> {
    pub rt: &'a R,
    pub poller: O,
    pub peer: u16,
}

impl<'a, R: Eprint, O: Poller> Poller for Announcer<'a, R, O> {
    type Stream = O::Stream;

    ghost fault_count = { λ announcer. O.fault_count announcer.poller };

    ghost ports = { λ announcer. O.ports announcer.poller };

    fn listen(&mut self, port: u16) -> Listening {
        let listening = self.poller.listen(port);
        if listening == Listening::Ready {
            // Serving goes on also where nobody can be told.
            let _ = eprintln!(self.rt; "serving 127.0.0.1:{port} for 127.0.0.1:{}", self.peer);
        }
        listening
    }

    fn accept(&mut self) -> Option<O::Stream> {
        self.poller.accept()
    }

    fn close(&mut self, stream: O::Stream) {
        self.poller.close(stream);
    }

    fn wait(&mut self, millis: u32) -> Polled {
        self.poller.wait(millis)
    }

    fn faults(&self) -> u64 {
        self.poller.faults()
    }
}
