//! Connections that were ended here, until their clients have ended them too (RFC 9112, section
//! 9.6).
//!
//! The system resets a connection that is closed while bytes of the client are unread, and then the
//! client may lose what it was written last. So the write side is shut alone, what still comes is
//! read and dropped, and the connection is closed once the client has ended it.

use crate::tcp_link::TcpLink;
use relay_links::{ByteLink, Got};
use std::alloc::{AllocError, Global};
use std::collections::VecDeque;

/// How many connections linger at a time. The one that has lingered longest gives way.
const MOST: usize = 64;

/// In how many waits a client may end its side.
const WAITS: u32 = 100;

/// How many reads a connection gets at each wait, of 4,096 bytes each.
const READS: usize = 16;

/// A connection whose write side is shut, and for how many more waits its client may go on.
#[derive(Drop)]
struct Farewell {
    link: TcpLink,
    waits_left: u32,
}

impl Farewell {
    /// Drops what came; whether the client may go on.
    fn goes_on(&mut self) -> bool {
        let mut room = [0; 4096];
        for _ in 0..READS {
            match self.link.read(&mut room) {
                Got::Bytes(_) => {}
                Got::NotReady => break,
                Got::Silent | Got::End | Got::Failed(_) => return false,
            }
        }
        self.waits_left = self.waits_left.saturating_sub(1);
        self.waits_left > 0
    }
}

/// The connections that linger.
#[derive(Drop)]
pub(crate) struct Lingering {
    farewells: VecDeque<Farewell>,
}

impl Lingering {
    /// Nobody lingers yet; the room is taken.
    pub(crate) fn new(alloc: Global) -> Result<Lingering, AllocError> {
        Ok(Lingering {
            farewells: VecDeque::with_capacity(alloc, MOST)?,
        })
    }

    /// Keeps a connection whose write side is shut, unless its client has ended.
    pub(crate) fn keep(&mut self, link: TcpLink) {
        let mut farewell = Farewell {
            link,
            waits_left: WAITS,
        };
        if !farewell.goes_on() {
            return;
        }
        if self.farewells.len() >= MOST {
            let _ = self.farewells.pop_front();
        }
        // Without room it is closed.
        let _ = self.farewells.push_back(farewell);
    }

    /// Drops what came on each, and closes those whose clients have ended or had their time.
    pub(crate) fn drain(&mut self) {
        for _ in 0..self.farewells.len() {
            let Some(mut farewell) = self.farewells.pop_front() else {
                return;
            };
            if farewell.goes_on() {
                let _ = self.farewells.push_back(farewell);
            }
        }
    }
}
