//! An upstream of these tests.
ghost use Rattle.std.specs.Prelude.{◌≡◌, false, true, None, Some};
ghost use Rattle.relay_links.specs.Count.{last_count};
ghost use Rattle.relay_links.specs.MuteLink.{mute_state, mute_start};
ghost use Rattle.relay_links.specs.declared.link.UpKind.TheVariants.{H1};

use super::support::{NOTHING_TOLD, push, tell};
use bytes::Bytes;
use relay_core::{Told, Up};
use relay_links::{Put, UpKind};
use relay_tasks::{Error, Fail, HttpTask, Result, TaskList, Took};
use std::alloc::Global;

/// An upstream that gives pieces with these bytes, the last first, and then the end. It takes each
/// task, or refuses each with an error.
#[derive(Drop)]
pub(super) struct Upstream {
    pieces: Vec<&'static str>,
    refuses: Option<Error>,
    pub(super) got: TaskList,
    pending: bool,
    told: Told,
    unsent: Option<Error>,
}

impl Up for Upstream {
    ghost state = { λ u. record {
      kind = H1;
      upgraded = false;
      pending = u.pending;
      told = u.told;
      read_failed = false;
      send_failed = u.unsent;
    } };

    ghost past = { λ u s q. q.lost ≡ false → q.taken ≡ u.got };

    ghost blames = { λ u s q e. u.refuses ≡ Some e };

    // Its count of uses stands at its last value.
    ghost link = { λ _. record (mute_state (record {
      ended = false;
      used = last_count;
      reused = false;
    })) {
      silent_on_read = true;
      silent_on_write = true;
    } };

    ghost start = { λ _. mute_start (record { ended = false; used = 0; reused = false }) };

    // A read leaves what was given.
    ghost cuts = { λ old new answer. new.got ≡ old.got };

    ghost unread = { λ u s q read e blamed. blamed };

    fn kind(&self) -> UpKind {
        UpKind::H1
    }

    fn upgraded(&self) -> bool {
        false
    }

    fn read_task(&mut self) -> Took<HttpTask> {
        match self.pieces.pop() {
            Some(bytes) => Took::Item(HttpTask::Body(
                Some(Bytes::from_static(bytes.as_bytes())),
                false,
            )),
            None => Took::Item(HttpTask::Done),
        }
    }

    fn take_piece(&mut self, task: HttpTask) -> Result<()> {
        if let Some(error) = self.refuses {
            self.unsent = Some(error);
            self.told = tell(self.told, error);
            return Err(Fail::Error(error));
        }
        if push(&mut self.got, task) {
            self.pending = true;
            return Ok(());
        }
        Err(Fail::OutOfMemory)
    }

    fn has_pending(&self) -> bool {
        self.pending
    }

    fn write_pending(&mut self) -> Put {
        self.pending = false;
        Put::Took(1)
    }

    fn told(&self) -> Told {
        self.told
    }
}

/// An upstream that has these pieces to give, and refuses with that error or not.
pub(super) fn serving(
    alloc: Global,
    pieces: Vec<&'static str>,
    refuses: Option<Error>,
) -> Upstream {
    Upstream {
        pieces,
        refuses,
        got: TaskList::new(alloc),
        pending: false,
        told: NOTHING_TOLD,
        unsent: None,
    }
}
