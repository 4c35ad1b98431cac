//! What the tests of the server share: one request and its answer, and links and a poller in memory.
ghost use Rattle.std.specs.Prelude.{None};

use bytes::Bytes;
use relay_links::{Listening, Polled, Poller, ReadItem, ScriptLink};
use std::alloc::Global;
use std::collections::VecDeque;
use std::test::Fail;

/// A request, and what the peer is sent of it.
pub(super) const REQUEST: &str = "GET /a HTTP/1.1\r\nHost: h.example\r\n\r\n";

pub(super) const SENT: &str = "GET /a HTTP/1.1\r\nhost: h.example\r\n\r\n";

/// A peer's answer, and what the client is written of it.
pub(super) const ANSWER: &str = "HTTP/1.1 200 OK\r\nContent-Length: 2\r\n\r\nhi";

pub(super) const WRITTEN: &str = "HTTP/1.1 200 OK\r\ncontent-length: 2\r\n\r\nhi";

/// A link that gives these texts, and is then silent.
pub(super) fn link(alloc: Global, texts: &[&'static str]) -> Result<ScriptLink, Fail> {
    let mut items = Vec::new(alloc);
    for text in texts {
        items.push(ReadItem::Bytes(Bytes::from_static(text.as_bytes())))?;
    }
    Ok(ScriptLink::new(alloc, items, Vec::new(alloc)))
}

/// A poller over links in memory. It keeps each link that is closed, and its waits fail after so
/// many.
#[derive(Drop)]
pub(super) struct MemoryPoller {
    pub(super) listens: bool,
    pub(super) waiting: VecDeque<ScriptLink>,
    /// They come while it waits for the fourth time.
    pub(super) late: VecDeque<ScriptLink>,
    pub(super) closed: Vec<ScriptLink>,
    pub(super) waits_left: u64,
    pub(super) faults: u64,
}

impl MemoryPoller {
    /// A poller at which these clients wait.
    pub(super) fn new(alloc: Global, waiting: VecDeque<ScriptLink>) -> MemoryPoller {
        MemoryPoller {
            listens: true,
            waiting,
            late: VecDeque::new(alloc),
            closed: Vec::new(alloc),
            waits_left: 10,
            faults: 0,
        }
    }
}

impl Poller for MemoryPoller {
    type Stream = ScriptLink;

    ghost fault_count = { λ poller. poller.faults };

    ghost ports = { λ _. None };

    fn listen(&mut self, _port: u16) -> Listening {
        if self.listens {
            return Listening::Ready;
        }
        self.faults = self.faults.saturating_add(1);
        Listening::Failed
    }

    fn accept(&mut self) -> Option<ScriptLink> {
        self.waiting.pop_front()
    }

    fn close(&mut self, stream: ScriptLink) {
        let _ = self.closed.push(stream);
    }

    fn wait(&mut self, _millis: u32) -> Polled {
        if self.waits_left > 0 {
            self.waits_left -= 1;
            if self.waits_left == 6 {
                let _ = self.waiting.append(&mut self.late);
            }
            return Polled::Ready;
        }
        self.faults = self.faults.saturating_add(1);
        Polled::Failed
    }

    fn faults(&self) -> u64 {
        self.faults
    }
}
