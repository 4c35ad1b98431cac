//! The check of a batch before any of its tasks is queued: the framing of its final head (RFC 9112,
//! section 6.3).
ghost use Rattle.std.specs.Prelude.{◌≡◌};
ghost use Rattle.relay_session.specs.TaskWire.{batch_refusal, unframed_in, unframed_head, settles};

use crate::task_text::{Place, Request, framing_of};
use relay_tasks::{Error, HttpTask, TaskList};

/// The refusal of a batch by where the response stands: that of the framing of its first final
/// head, where no final head was queued before.
pub(crate) fn batch_refusal(request: &Request, place: Place, tasks: &TaskList) -> Option<Error>
    ensures { result ≡ batch_refusal request.now place tasks.now }
{
    match place {
        Place::NoHead => unframed_in(request, tasks),
        Place::Body(_) | Place::Done => None,
    }
}

fn unframed_in(request: &Request, tasks: &TaskList) -> Option<Error>
    ensures { result ≡ unframed_in request.now tasks.now }
{
    for at in 0..tasks.len() {
        let Some(task) = tasks.get(at) else {
            return None;
        };
        if settles(task) {
            return unframed_head(request, task);
        }
    }
    None
}

/// Whether the task decides: a final head, by its framing; a failure lets pass what stands before
/// it.
fn settles(task: &HttpTask) -> bool
    ensures { result ≡ settles task.now }
{
    match task {
        HttpTask::Header(head, _) => !head.is_informational(),
        HttpTask::Failed(_) => true,
        HttpTask::Body(_, _) | HttpTask::UpgradedBody(_, _) => false,
        HttpTask::Trailer(_) | HttpTask::Done => false,
    }
}

/// The refusal of the framing of a final head.
fn unframed_head(request: &Request, task: &HttpTask) -> Option<Error>
    ensures { result ≡ unframed_head request.now task.now }
{
    match task {
        HttpTask::Header(head, _) => match framing_of(request, head) {
            Ok(_) => None,
            Err(error) => Some(error),
        },
        HttpTask::Body(_, _) | HttpTask::UpgradedBody(_, _) => None,
        HttpTask::Trailer(_) | HttpTask::Done | HttpTask::Failed(_) => None,
    }
}
