//! Links that came back and are kept, to be handed out again.
ghost use Rattle.std.specs.Prelude.{◌≡◌, ◌≤◌, [], IfOk, vec_len, vec_capacity};
ghost use Rattle.relay_tcp.specs.IdleLinks.{is_for, with_last, TakesLast, CountsUnasked, taken_of};

use crate::answer::Sight;
use crate::tcp_link::TcpLink;
use relay_tasks::Peer;
use std::alloc::{AllocError, Global};

/// How many links are kept at a time. The one that has been idle for longest gives way.
const MOST: usize = 64;

/// A link that came back, and the peer that it is for.
#[derive(Drop)]
struct IdleLink {
    peer: Peer,
    link: TcpLink,
}

impl IdleLink {
    /// Whether it goes to the address of that peer, and TLS is spoken on it as there.
    fn is_for(&self, peer: &Peer) -> bool
        ensures { result ≡ is_for peer.now self.now }
    {
        self.peer.tls == peer.tls && self.peer.address == peer.address
    }
}

/// The links that are kept, and how many others were let go of because bytes had come on them; the
/// count stands still at its last value.
#[derive(Drop)]
pub(crate) struct IdleLinks {
    // The one that has been idle for longest comes first.
    links: Vec<IdleLink>,
    unasked: u64,
    ghost few: { vec_len links ≤ 64 },
    ghost room: { 64 ≤ vec_capacity links },
}

impl IdleLinks {
    /// No link is kept yet; the room is taken.
    pub(crate) fn new(alloc: Global) -> Result<IdleLinks, AllocError>
        ensures empty { IfOk result (λ idle. idle.links.items ≡ []) }
        ensures unasked { IfOk result (λ idle. idle.unasked ≡ 0) }
    {
        Ok(IdleLinks {
            links: Vec::with_capacity(alloc, MOST)?,
            unasked: 0,
        })
    }

    /// How many links were let go of because bytes had come on them.
    pub(crate) fn unasked(&self) -> u64
        ensures { result ≡ self.now.unasked }
    {
        self.unasked
    }

    /// Keeps a link as the last one. It takes no memory.
    pub(crate) fn keep(&mut self, peer: Peer, link: TcpLink)
        ensures kept { self.new.links.items
            ≡ with_last self.old.links.items (record { peer = peer; link = link }) }
        ensures unasked { self.new.unasked ≡ self.old.unasked }
    {
        if self.links.len() >= MOST {
            let _ = self.links.remove(0);
        }
        match self.links.push(IdleLink { peer, link }) {
            Ok(()) => {}
            Err(_) => unreachable!(),
        }
    }

    /// The last link to that peer, of those that are open and on which nothing came. The links to
    /// the peer behind it are closed, and those of them that bytes came on are counted.
    pub(crate) fn take(&mut self, peer: &Peer) -> Option<TcpLink>
        ensures last { TakesLast peer.now self.old.links.items result self.new.links.items }
        ensures unasked { CountsUnasked self.old.unasked self.old.links.items (taken_of result)
            self.new.unasked self.new.links.items }
    {
        let mut at = self.links.len();
        while at > 0 {
            at -= 1;
            if self.links[at].is_for(peer) {
                let IdleLink { peer: _, link } = self.links.remove(at);
                match link.look() {
                    Sight::Idle => return Some(link.again()),
                    Sight::Unasked => self.unasked = self.unasked.saturating_add(1),
                    Sight::Over => {}
                }
            }
        }
        None
    }
}
