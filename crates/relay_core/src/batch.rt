//! Batches of the response: a failure goes to the client alone, other tasks go up to four together.
ghost use Rattle.std.specs.Prelude.{◌≡◌, ◌++◌, ◌<◌, length, OnOk, OnErr, IfOk, IsOkUnless, IsTrue};
ghost use Rattle.std.specs.List.{list_any};
ghost use Rattle.relay_tasks.specs.Task.{is_end};
ghost use Rattle.relay_core.specs.Batch.{plain_front, behind_plain, batch_of, rest_of, Loses};

use crate::pipe::Pipe;
use relay_tasks::{Fail, Result, TaskList};
use std::alloc::Global;

/// Takes the tasks that go to the client together out of the pipe, which holds some. Without memory
/// some of them are lost.
pub(crate) fn next_batch(alloc: Global, pipe: &mut Pipe) -> Result<TaskList>
    requires { 0 < length pipe.old.tasks }
    ensures tasks { IfOk result (λ tasks. tasks ≡ batch_of pipe.old.tasks) }
    ensures rest { OnOk result (pipe.new ≡ record pipe.old { tasks = rest_of pipe.old.tasks }) }
    ensures memory { IsOkUnless result Fail.OutOfMemory }
    ensures err { OnErr result (Loses pipe.old pipe.new) }
{
    let alone = !pipe.begins_plain();
    let mut tasks = TaskList::new(alloc);
    tasks.push(pipe.take_held())?;
    if alone {
        return Ok(tasks);
    }
    move_plain(pipe, &mut tasks)?;
    Ok(tasks)
}

/// Moves the tasks up to the first failure behind the others. Without memory some are lost.
fn move_plain(pipe: &mut Pipe, tasks: &mut TaskList) -> Result<()>
    ensures tasks { OnOk result (tasks.new ≡ tasks.old ++ plain_front pipe.old.tasks) }
    ensures rest { OnOk result
        (pipe.new ≡ record pipe.old { tasks = behind_plain pipe.old.tasks }) }
    ensures memory { IsOkUnless result Fail.OutOfMemory }
    ensures err { OnErr result (Loses pipe.old pipe.new) }
{
    while pipe.begins_plain() {
        let task = pipe.take_held();
        tasks.push(task)?;
    }
    Ok(())
}

/// Whether a task of the list ends its response.
pub(crate) fn has_end(tasks: &TaskList) -> bool
    ensures { result ≡ list_any is_end tasks.now }
{
    for at in 0..tasks.len() {
        if let Some(task) = tasks.get(at) {
            if task.is_end() {
                return true;
            }
        }
    }
    false
}
