//! The answer of a purge: its head as it is filtered, and how it is queued (RFC 9110, section 15;
//! RFC 9112, section 6.3).
ghost use Rattle.std.specs.Prelude.{◌≡◌, false, IfOk, IsOkUnless};
ghost use Rattle.relay_hooks.specs.Laws.{IsBodiless};
ghost use Rattle.relay_hooks.specs.Purge.{purge_head};
ghost use Rattle.relay_hooks.specs.Session.{is_answered};
ghost use Rattle.relay_session.specs.Generated.{generated_head};
ghost use Rattle.relay_purging.specs.Queued.{QueuesBehind};

use crate::turn::End;
use relay_hooks::PurgeStatus;
use relay_modules::Seen;
use relay_session::generated_head;
use relay_tasks::{Fail, HttpTask, ResponseHeader, Result, TaskList};
use std::alloc::Global;

/// The head with which a purge is answered that came to that, before its filter.
///
/// Fails out of memory alone.
pub(crate) fn purge_head(alloc: Global, status: PurgeStatus) -> Result<ResponseHeader>
    ensures head { IfOk result (λ head. head ≡ purge_head status) }
    ensures memory { IsOkUnless result Fail.OutOfMemory }
{
    let code = match status {
        PurgeStatus::NoCache => 405,
        PurgeStatus::Found => 200,
        PurgeStatus::NotFound => 404,
        PurgeStatus::Error(_) => 500,
    };
    generated_head(alloc, code, 0)
}

/// Queues that head as the whole answer, with no body behind it.
pub(crate) fn answer(seen: &mut Seen, head: ResponseHeader) -> End
    requires bodiless { IsBodiless head }
    requires open_to { is_answered seen.old ≡ false }
    ensures { QueuesBehind head seen.old seen.new result }
{
    let mut tasks = TaskList::new(seen.alloc);
    if let Err(why) = tasks.push(HttpTask::Header(head, true)) {
        return End::Unwritten(why);
    }
    match seen.queue_tasks(tasks) {
        Ok(_) => End::Answered,
        Err(why) => End::Unwritten(why),
    }
}

/// Queues the relay's own 500, in the place of the head that its filter left.
pub(crate) fn refuse(seen: &mut Seen) -> End
    requires { is_answered seen.old ≡ false }
    ensures { QueuesBehind (generated_head 500 0) seen.old seen.new result }
{
    match generated_head(seen.alloc, 500, 0) {
        Ok(head) => answer(seen, head),
        Err(why) => End::Unwritten(why),
    }
}
