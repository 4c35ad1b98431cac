//! A link to an upstream peer, by what it carries.
ghost use Rattle.std.specs.Prelude.{◌≡◌};
ghost use Rattle.relay_links.specs.Link.{IsSound};
ghost use Rattle.relay_connector.specs.Upstream.{is_of_bytes, upstream_state, upstream_start, message_state};

use relay_links::{ByteLink, Got, Put};
use relay_messages::{CustomLink, MessageLink};

/// A link as a connector hands it out: of the bytes of HTTP/1, of the messages of HTTP/2, or of
/// those of a custom protocol. As a link of bytes a link of messages has none: it is silent both
/// ways, and no call of it is made.
#[derive(Drop)]
pub enum Upstream<L, M, C> {
    H1(L),
    H2(M),
    Custom(C),
}

impl<L, M, C> Upstream<L, M, C> {
    /// Whether it carries the bytes of HTTP/1.
    pub fn carries_bytes(&self) -> bool
        ensures { result ≡ is_of_bytes self.now }
    {
        match self {
            Upstream::H1(_) => true,
            Upstream::H2(_) | Upstream::Custom(_) => false,
        }
    }
}

impl<L: ByteLink, M: MessageLink, C: CustomLink> ByteLink for Upstream<L, M, C> {
    ghost state = { upstream_state L.state M.state C.state };

    ghost start = { upstream_start L.start M.start C.start };

    fn read(&mut self, room: &mut [u8]) -> Got {
        match self {
            Upstream::H1(link) => link.read(room),
            Upstream::H2(link) => {
                count(link);
                Got::Silent
            }
            Upstream::Custom(link) => {
                count(link);
                Got::Silent
            }
        }
    }

    fn write(&mut self, part: &[u8]) -> Put {
        match self {
            Upstream::H1(link) => link.write(part),
            Upstream::H2(link) => {
                count(link);
                Put::Silent
            }
            Upstream::Custom(link) => {
                count(link);
                Put::Silent
            }
        }
    }

    fn faults(&self) -> u64 {
        match self {
            Upstream::H1(link) => link.faults(),
            Upstream::H2(link) => link.faults(),
            Upstream::Custom(link) => link.faults(),
        }
    }

    fn used(&self) -> u64 {
        match self {
            Upstream::H1(link) => link.used(),
            Upstream::H2(link) => link.used(),
            Upstream::Custom(link) => link.used(),
        }
    }
}

/// Reads the counts of a link of messages, for the proof alone: they are 64-bit numbers.
fn count<M: MessageLink>(link: &M)
    ensures { IsSound (message_state (M.state link.now)) }
{
    let _faults = link.faults();
    let _used = link.used();
}
