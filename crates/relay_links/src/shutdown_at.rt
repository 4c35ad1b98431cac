//! A shutdown watch in memory: set from a look on.
ghost use Rattle.std.specs.Prelude.{◌≡◌, ◌≤◌, IsTrue, false};
ghost use Rattle.relay_links.specs.Count.{last_count, up, Rose};
ghost use Rattle.relay_links.specs.ShutdownAt.{set_from, looks, times_seen, is_set_at};

use crate::watch::ShutdownWatch;

/// Set from that look on, counted from 1, and never where there is none.
#[derive(Drop)]
pub struct ShutdownAt {
    look: Option<u64>,
    looks: u64,
    seen: u64,
}

impl ShutdownAt {
    /// A watch that nobody has looked at.
    pub fn new(look: Option<u64>) -> ShutdownAt
        ensures look { set_from result ≡ look }
        ensures looks { looks result ≡ 0 }
        ensures seen { times_seen result ≡ 0 }
    {
        ShutdownAt {
            look,
            looks: 0,
            seen: 0,
        }
    }
}

impl ShutdownWatch for ShutdownAt {
    ghost sighted = { times_seen };

    fn is_set(&mut self) -> bool
        ensures risen { IsTrue result → Rose (times_seen self.old) (times_seen self.new) }
        ensures same { result ≡ false → times_seen self.new ≡ times_seen self.old }
        ensures fits { (times_seen self.old ≤ last_count) × (times_seen self.new ≤ last_count) }
        ensures exact { result ≡ is_set_at (set_from self.old) (up (looks self.old)) }
        ensures looks { looks self.new ≡ up (looks self.old) }
        ensures look { set_from self.new ≡ set_from self.old }
    {
        let seen = self.seen;
        self.looks = self.looks.saturating_add(1);
        match self.look {
            Some(look) if look <= self.looks => {
                self.seen = seen.saturating_add(1);
                true
            }
            Some(_) | None => false,
        }
    }

    fn sightings(&self) -> u64 {
        self.seen
    }
}
