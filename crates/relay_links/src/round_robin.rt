//! A schedule that goes round the branches.
ghost use Rattle.std.specs.Prelude.{◌≡◌, None, find};
ghost use Rattle.relay_links.specs.Branch.{has};
ghost use Rattle.relay_links.specs.RoundRobin.{last_of_round, places_up_to, round_from};

use crate::branch::{BRANCHES, Branch};
use crate::branch_set::BranchSet;
use crate::schedule::Schedule;

/// Names the first enabled branch behind its last answer in the order, going round; where none is
/// enabled it names none, and begins anew.
#[derive(Drop)]
pub struct RoundRobin {
    last: Option<Branch>,
}

impl RoundRobin {
    /// A schedule that has picked nothing.
    pub fn new() -> RoundRobin
        ensures { last_of_round result ≡ None }
    {
        RoundRobin { last: None }
    }
}

/// How many branches stand up to that answer, in the order.
fn places_up_to(last: Option<Branch>) -> usize
    ensures { result ≡ places_up_to last }
{
    match last {
        None => 0,
        Some(branch) => branch.place() as usize + 1,
    }
}

impl Schedule for RoundRobin {
    ghost last_pick = { last_of_round };

    fn pick(&mut self, enabled: BranchSet) -> Option<Branch>
        ensures last { last_of_round self.new ≡ result }
        ensures exact { result ≡ find (has enabled) (round_from (last_of_round self.old)) }
    {
        let start = places_up_to(self.last);
        let (front, behind) = BRANCHES.split_at(start);
        self.last = behind
            .iter()
            .chain(front.iter())
            .copied()
            .find(|branch| enabled.contains(*branch));
        self.last
    }

    fn last(&self) -> Option<Branch> {
        self.last
    }
}
