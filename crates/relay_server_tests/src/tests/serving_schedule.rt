//! The schedule of a request that is served.
use relay_links::{Branch, BranchSet, Schedule};
use relay_server::ServingSchedule;
use std::test::Fail;

/// What a schedule names where both links may be read, and the response be taken or not.
fn pick(schedule: &mut ServingSchedule, may_take: bool) -> Option<Branch> {
    let mut enabled = BranchSet::new();
    enabled.insert(Branch::UpRead);
    enabled.insert(Branch::DownRead);
    if may_take {
        enabled.insert(Branch::DownTake);
    }
    schedule.pick(enabled)
}

#[test]
fn reads_on_once_behind_the_first_that_can_be_taken(rt: HostRuntime) -> Result<(), Fail> {
    let mut schedule = ServingSchedule::new();
    for want in [Branch::UpRead, Branch::DownRead, Branch::UpRead] {
        assert_eq!(rt; pick(&mut schedule, false), Some(want));
    }
    for want in [
        Branch::UpRead,
        Branch::DownRead,
        Branch::DownTake,
        Branch::UpRead,
        Branch::DownRead,
        Branch::DownTake,
    ] {
        assert_eq!(rt; pick(&mut schedule, true), Some(want));
        assert_eq!(rt; schedule.last(), Some(want));
    }
    Ok(())
}
