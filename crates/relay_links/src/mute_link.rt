//! A link that tells no content: it takes everything, keeps nothing, and gives nothing.
ghost use Rattle.std.specs.Prelude.{◌≡◌, None, false};
ghost use Rattle.relay_links.specs.MuteLink.{mute_state, mute_start};
ghost use Rattle.relay_links.specs.Link.{IsHandedOut};

use crate::link::{ByteLink, Got, Put};

/// A link whose far side has ended and takes everything. It tells no content.
#[derive(Drop)]
pub struct MuteLink {
    ended: bool,
    used: u64,
    reused: bool,
}

impl MuteLink {
    /// A link that has answered nothing.
    pub fn new(reused: bool) -> MuteLink
        ensures { IsHandedOut (mute_state result) (mute_start result) reused }
    {
        MuteLink {
            ended: false,
            used: 0,
            reused,
        }
    }
}

impl ByteLink for MuteLink {
    ghost state = { mute_state };

    ghost start = { mute_start };

    fn read(&mut self, _room: &mut [u8]) -> Got {
        self.used = self.used.saturating_add(1);
        self.ended = true;
        Got::End
    }

    fn write(&mut self, part: &[u8]) -> Put {
        self.used = self.used.saturating_add(1);
        Put::Took(part.len())
    }

    fn faults(&self) -> u64 {
        0
    }

    fn used(&self) -> u64 {
        self.used
    }
}
