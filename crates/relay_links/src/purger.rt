//! The purger: it drops what a cache keeps for a target.
ghost use Rattle.std.specs.Prelude.{◌≡◌};
ghost use Rattle.relay_links.specs.Purger.{PurgerState, Purges};

use bytes::Bytes;
use relay_tasks::{PurgeAction, Purged};

/// A call of a purger: what was asked, and the answer.
#[derive(Drop)]
pub struct PurgeCall {
    pub action: PurgeAction,
    pub host: Bytes,
    pub target: Bytes,
    pub answer: Purged,
}

/// Drops or expires what a cache keeps. It means the list of its calls, each with what was asked
/// and answered, where it tells that list.
pub trait Purger {
    ghost state: { Self → PurgerState };

    /// Purges what is kept for the target at the host. The count of faults rose where it failed;
    /// when out of memory nothing changed.
    fn purge(&mut self, action: PurgeAction, host: &[u8], target: &[u8]) -> Purged
        ensures { Purges (state self.old) action host.now target.now (state self.new) result };

    /// How many calls failed; the count stands still at its last value.
    fn faults(&self) -> u64
        ensures { result ≡ (state self.now).faults };
}
