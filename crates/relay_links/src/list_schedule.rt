//! Schedules in memory: a list of branches, and one that goes round.
ghost use Rattle.std.specs.Prelude.{◌≡◌, ◌+◌, ◌∷◌, [], Some, None, find, slice_get, option_to_list, drop};
ghost use Rattle.relay_links.specs.Branch.{has};
ghost use Rattle.relay_links.specs.ListSchedule.{branches_left, last_of_list};

use crate::branch::Branch;
use crate::branch_set::BranchSet;
use crate::schedule::Schedule;

/// Names the branches of a list, one for each pick, whatever is enabled, and then none.
#[derive(Drop)]
pub struct ListSchedule {
    branches: Vec<Branch>,
    at: usize,
    last: Option<Branch>,
}

impl ListSchedule {
    /// A schedule that has picked nothing.
    pub fn new(branches: Vec<Branch>) -> ListSchedule
        ensures left { branches_left result ≡ branches.items }
        ensures last { last_of_list result ≡ None }
    {
        ListSchedule {
            branches,
            at: 0,
            last: None,
        }
    }
}

impl Schedule for ListSchedule {
    ghost last_pick = { last_of_list };

    fn pick(&mut self, _enabled: BranchSet) -> Option<Branch>
        ensures last { last_of_list self.new ≡ result }
        ensures exact { result ≡ slice_get (branches_left self.old) 0 }
        ensures left { branches_left self.new ≡ drop 1 (branches_left self.old) }
    {
        self.last = None;
        if self.at < self.branches.len() {
            self.last = Some(self.branches[self.at]);
            self.at += 1;
        }
        self.last
    }

    fn last(&self) -> Option<Branch> {
        self.last
    }
}
