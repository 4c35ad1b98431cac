//! Tasks in order, taken from the front.
ghost use Rattle.std.specs.Prelude.{◌≡◌, ◌++◌, ◌∷◌, [], length, slice_get, IfOk, OnOk, OnErr, IsOkUnless, MatchOption, option_copied, ◌==◌};

use crate::error::{Fail, Result};
use crate::task::HttpTask;
use std::alloc::{AllocError, Global};
use std::collections::VecDeque;
use std::marker::Model;

/// Tasks in order. A contract sees their list.
#[derive(Drop)]
pub struct TaskList {
    tasks: VecDeque<HttpTask>,
}

impl Model for TaskList {
    ghost use Rattle.std.specs.Prelude.{List};
    ghost use Rattle.relay_tasks.specs.declared.task.HttpTask.{HttpTask};

    ghost Value = { List HttpTask };

    ghost view = { λ l. l.tasks.items };
}

impl TaskList {
    /// An empty list, which has taken no memory.
    pub fn new(alloc: Global) -> TaskList
        ensures { result ≡ [] }
    {
        TaskList {
            tasks: VecDeque::new(alloc),
        }
    }

    /// Adds the task at the end. Without memory the list stays as it was, and the task is gone.
    pub fn push(&mut self, task: HttpTask) -> Result<()>
        ensures ok { OnOk result (self.new ≡ self.old ++ task ∷ []) }
        ensures memory { IsOkUnless result Fail.OutOfMemory }
        ensures err { OnErr result (self.new ≡ self.old) }
    {
        self.tasks.push_back(task).map_err(AllocError::from)?;
        Ok(())
    }

    /// Takes the first task, in a time that does not grow with the list.
    pub fn take_first(&mut self) -> Option<HttpTask>
        ensures { MatchOption result ((self.old ≡ []) × (self.new ≡ [])) (λ task. self.old
            ≡ task ∷ self.new) }
    {
        self.tasks.pop_front()
    }

    /// How many tasks there are.
    pub fn len(&self) -> usize
        ensures { result ≡ length self.now }
    {
        self.tasks.len()
    }

    /// Whether there is no task.
    pub fn is_empty(&self) -> bool
        ensures { result ≡ (length self.now == 0) }
    {
        self.tasks.is_empty()
    }

    /// The task at that place, counted from 0.
    pub fn get(&self, at: usize) -> Option<&HttpTask>
        ensures { option_copied result ≡ slice_get self.now at }
    {
        self.tasks.get(at)
    }

    /// An equal list.
    pub fn copy(&self) -> Result<TaskList>
        ensures ok { IfOk result (λ copy. copy ≡ self.now) }
        ensures memory { IsOkUnless result Fail.OutOfMemory }
    {
        let mut copy = TaskList::new(*self.tasks.allocator());
        for task in self.tasks.iter() {
            copy.push(task.copy()?)?;
        }
        Ok(copy)
    }
}
