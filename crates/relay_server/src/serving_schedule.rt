//! The schedule of a request that is served: the branches of the duplex in turn, but the head of
//! its response waits for what came with it.
ghost use Rattle.std.specs.Prelude.{◌≡◌};
ghost use Rattle.relay_links.specs.RoundRobin.{last_of_round};

use relay_links::{Branch, BranchSet, RoundRobin, Schedule};

/// Whether something of the response could be taken yet.
#[derive(Clone, Copy, PartialEq, Eq)]
enum Response {
    Awaited,
    Begun,
}

/// Goes round the branches, as `RoundRobin` does, and departs from it once: where a read of the
/// upstream has brought the first that can be taken, it names that read again. So a head and the
/// bytes that came with it are taken together, and written at once. That read moved something, so
/// what waits is still asked in turn.
#[derive(Drop)]
pub struct ServingSchedule {
    round: RoundRobin,
    response: Response,
}

impl ServingSchedule {
    /// A schedule that has picked nothing, for one request.
    pub fn new() -> ServingSchedule {
        ServingSchedule {
            round: RoundRobin::new(),
            response: Response::Awaited,
        }
    }

    /// Whether something of the response can be taken for the first time.
    fn begins(&self, enabled: &BranchSet) -> bool {
        self.response == Response::Awaited && enabled.contains(Branch::DownTake)
    }

    /// Whether a read of the upstream was named last and can be named again.
    fn may_read_on(&self, enabled: &BranchSet) -> bool {
        self.round.last() == Some(Branch::UpRead) && enabled.contains(Branch::UpRead)
    }
}

impl Schedule for ServingSchedule {
    ghost last_pick = { λ schedule. last_of_round schedule.round };

    fn pick(&mut self, enabled: BranchSet) -> Option<Branch>
        ensures { last_of_round self.new.round ≡ result }
    {
        if self.begins(&enabled) {
            self.response = Response::Begun;
            if self.may_read_on(&enabled) {
                return self.round.last();
            }
        }
        self.round.pick(enabled)
    }

    fn last(&self) -> Option<Branch> {
        self.round.last()
    }
}
