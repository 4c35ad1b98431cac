//! The schedule: which of the enabled branches is taken next.
ghost use Rattle.std.specs.Prelude.{◌≡◌, Option};
ghost use Rattle.relay_links.specs.declared.branch.Branch.{Branch};

use crate::branch::Branch;
use crate::branch_set::BranchSet;

/// Picks a branch of those that are enabled. It means its last answer; it may name a branch that is
/// not enabled, or none.
pub trait Schedule {
    ghost last_pick: { Self → Option Branch };

    /// The branch to take next.
    fn pick(&mut self, enabled: BranchSet) -> Option<Branch>
        ensures { last_pick self.new ≡ result };

    /// The answer of the last pick, and none before the first.
    fn last(&self) -> Option<Branch>
        ensures { result ≡ last_pick self.now };
}
