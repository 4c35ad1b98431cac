//! A set of branches, as those that may be taken in a turn.
ghost use Rattle.std.specs.Prelude.{◌≡◌, ◌||◌, [], find};
ghost use Rattle.relay_links.specs.Branch.{has, with_branch, is_same_branch};
ghost use Rattle.relay_links.specs.declared.branch.Branch.{Branch};

use crate::branch::{BRANCHES, Branch};
use std::marker::Model;

/// A set of branches. A contract sees the list of its branches, in their order.
#[derive(Drop)]
pub struct BranchSet {
    bits: u16,
}

impl Model for BranchSet {
    ghost use Rattle.std.specs.Prelude.{List, ◌<◌, ◌^◌};
    ghost use Rattle.relay_links.specs.declared.branch.Branch.{Branch};
    ghost use Rattle.relay_links.specs.Branch.{branches_of};

    ghost Value = { List Branch };

    ghost view = { λ s. branches_of s.bits };
}

impl BranchSet {
    /// The empty set.
    pub fn new() -> BranchSet
        ensures { result ≡ [] }
    {
        BranchSet { bits: 0 }
    }

    /// Puts the branch into the set.
    pub fn insert(&mut self, branch: Branch)
        ensures members { self.new ≡ with_branch self.old branch }
        ensures has { (b : Branch) → has self.new b ≡ (has self.old b || is_same_branch branch b) }
    {
        self.bits |= 1 << branch.place();
    }

    /// Whether the branch is in the set.
    pub fn contains(&self, branch: Branch) -> bool
        ensures { result ≡ has self.now branch }
    {
        (self.bits >> branch.place()) & 1 == 1
    }

    /// The first branch of the set, in the order.
    pub fn first(&self) -> Option<Branch>
        ensures { result ≡ find (has self.now) BRANCHES }
    {
        BRANCHES
            .iter()
            .copied()
            .find(|branch| self.contains(*branch))
    }
}
