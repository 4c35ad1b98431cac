//! How much work a turn was, and a request so far.
ghost use Rattle.std.specs.Prelude.{◌<◌, ◌≡◌, ◌↔◌, if◌then◌else◌, IsTrue};
ghost use Rattle.relay_request.specs.Uses.{one_use, one_task, work_by};
ghost use Rattle.relay_request.specs.Work.{turns_after, total_work};

use relay_links::Branch;

/// How much work a turn was.
#[derive(Clone, Copy)]
pub struct Work {
    /// Answers of links, `Silent` aside.
    pub used: u64,
    /// Heads and pieces that were put.
    pub moved: u64,
    /// Sides that ended, and refusals.
    pub ended: u64,
    /// Calls of hooks.
    pub called: u64,
}

impl Work {
    pub const NONE: Work = Work {
        used: 0,
        moved: 0,
        ended: 0,
        called: 0,
    };

    pub const USED: Work = Work {
        used: 1,
        moved: 0,
        ended: 0,
        called: 0,
    };

    pub const MOVED: Work = Work {
        used: 0,
        moved: 1,
        ended: 0,
        called: 0,
    };

    pub const ENDED: Work = Work {
        used: 0,
        moved: 0,
        ended: 1,
        called: 0,
    };

    pub const USED_AND_ENDED: Work = Work {
        used: 1,
        moved: 0,
        ended: 1,
        called: 0,
    };

    pub const CALLED: Work = Work {
        used: 0,
        moved: 0,
        ended: 0,
        called: 1,
    };

    /// The head that is sent was filtered by a hook, and put.
    pub const SENT: Work = Work {
        used: 0,
        moved: 1,
        ended: 0,
        called: 1,
    };

    /// The head of a request was judged, and its first hook called.
    pub const BEGUN: Work = Work {
        used: 0,
        moved: 0,
        ended: 1,
        called: 1,
    };

    /// An attempt was given no link, and a hook was told so.
    pub const REFUSED: Work = Work {
        used: 0,
        moved: 0,
        ended: 1,
        called: 1,
    };
}

impl Work {
    ghost use Rattle.relay_request.specs.Work.{total_work, added_work, Grows};

    /// Whether a turn did any work.
    fn is_some(&self) -> bool
        ensures { IsTrue result ↔ (0 < total_work self.now) }
    {
        self.used > 0 || self.moved > 0 || self.ended > 0 || self.called > 0
    }

    /// The work so far and that of one more turn. Each number stands still at its last value.
    pub fn plus(self, turn: Work) -> Work
        ensures sum { result ≡ added_work self turn }
        ensures grows { Grows self result }
        ensures idle { total_work turn ≡ 0 → result ≡ self }
    {
        Work {
            used: self.used.saturating_add(turn.used),
            moved: self.moved.saturating_add(turn.moved),
            ended: self.ended.saturating_add(turn.ended),
            called: self.called.saturating_add(turn.called),
        }
    }
}

/// The turns so far and one more, where that did some work. The number stands still at its last
/// value.
pub fn count_turn(turns: u64, work: Work) -> u64
    ensures { result ≡ turns_after turns work }
{
    if work.is_some() {
        turns.saturating_add(1)
    } else {
        turns
    }
}

/// The work of a turn of an exchange that moved, by the branch that was taken; none where the
/// request's head was being sent. A write is a use of its link; a read is one where the link was
/// asked, and else the task that it put.
pub fn work_of(branch: Option<Branch>, asked: bool) -> Work
    ensures one { total_work result ≡ 1 }
    ensures uncalled { result.called ≡ 0 }
    ensures exact { result ≡ work_by branch asked }
{
    match branch {
        None => Work::USED,
        Some(Branch::UpWrite | Branch::DownWrite) => Work::USED,
        Some(Branch::UpRead | Branch::DownRead) => used_or_moved(asked),
        Some(Branch::UpTake | Branch::DownTake | Branch::DownDrop) => Work::MOVED,
        Some(Branch::MessageUp | Branch::MessageDown) => Work::MOVED,
        Some(Branch::DownEnd | Branch::DownClosed | Branch::UpFinish | Branch::DownFinish) => {
            Work::ENDED
        }
    }
}

/// A use of a link, where it was asked, and else a task.
fn used_or_moved(asked: bool) -> Work
    ensures one { total_work result ≡ 1 }
    ensures uncalled { result.called ≡ 0 }
    ensures exact { result ≡ (if asked then one_use else one_task) }
{
    if asked { Work::USED } else { Work::MOVED }
}

/// The work of a turn with which an exchange failed: an end, and a use where a link was asked.
pub fn work_of_failure(asked: bool) -> Work
    ensures some { 0 < total_work result }
    ensures used { result.used ≡ (if asked then 1 else 0) }
    ensures unmoved { result.moved ≡ 0 }
    ensures end { result.ended ≡ 1 }
    ensures uncalled { result.called ≡ 0 }
{
    if asked {
        Work::USED_AND_ENDED
    } else {
        Work::ENDED
    }
}
