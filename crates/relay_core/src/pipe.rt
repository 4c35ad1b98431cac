//! A pipe: up to four tasks on their way from one half of a duplex to the other.
ghost use Rattle.std.specs.Prelude.{◌≡◌, ◌≤◌, ◌<◌, ◌∷◌, length, [], false, true};
ghost use Rattle.relay_core.specs.Pipe.{Puts, Takes, with_task, is_empty, has_room, begins_plain, is_failure};

use relay_tasks::HttpTask;
use std::marker::Model;

/// How many tasks a pipe holds at most.
pub const PIPE_PLACES: usize = 4;

/// A pipe with four places, which move up on each take, so that no call takes memory. A contract
/// sees the tasks held, and whether the pipe was closed or failed.
#[derive(Drop)]
pub struct Pipe {
    first: Option<HttpTask>,
    second: Option<HttpTask>,
    third: Option<HttpTask>,
    fourth: Option<HttpTask>,
    closed: bool,
    failed: bool,
}

impl Model for Pipe {
    ghost use Rattle.relay_core.specs.Pipe.{Held, held_in, HasNoGap};

    ghost Value = { Held };

    ghost view = { λ p. record {
      tasks = held_in p.first p.second p.third p.fourth;
      closed = p.closed;
      failed = p.failed;
    } };

    ghost invariant = { λ p. HasNoGap p.first p.second p.third p.fourth };
}

impl Pipe {
    /// An open pipe that holds nothing.
    pub fn new() -> Pipe
        ensures tasks { result.tasks ≡ [] }
        ensures open { result.closed ≡ false }
        ensures sound { result.failed ≡ false }
    {
        Pipe {
            first: None,
            second: None,
            third: None,
            fourth: None,
            closed: false,
            failed: false,
        }
    }

    /// Puts the task behind those that are held. It comes back exactly where four are held or the
    /// pipe is closed, and the pipe is then as it was.
    pub fn put(&mut self, task: HttpTask) -> Result<(), HttpTask>
        ensures { Puts self.old task self.new result }
    {
        if self.closed || self.len() == PIPE_PLACES {
            return Err(task);
        }
        self.add(task);
        Ok(())
    }

    /// Puts the task behind those that are held, where there is room.
    pub fn add(&mut self, task: HttpTask)
        requires room { length self.old.tasks < PIPE_PLACES }
        ensures { self.new ≡ with_task self.old task }
    {
        if self.first.is_none() {
            self.first = Some(task);
        } else if self.second.is_none() {
            self.second = Some(task);
        } else if self.third.is_none() {
            self.third = Some(task);
        } else {
            self.fourth = Some(task);
        }
    }

    /// Takes the first task, and moves the others up. None exactly where none is held. A closed
    /// pipe still gives what it holds.
    pub fn take(&mut self) -> Option<HttpTask>
        ensures { Takes self.old self.new result }
    {
        let task = self.first.take();
        self.first = self.second.take();
        self.second = self.third.take();
        self.third = self.fourth.take();
        task
    }

    /// Takes the first task, where one is held.
    pub fn take_held(&mut self) -> HttpTask
        requires { 0 < length self.old.tasks }
        ensures { self.old ≡ record self.new { tasks = result ∷ self.new.tasks } }
    {
        match self.take() {
            Some(task) => task,
            None => unreachable!(),
        }
    }

    /// How many tasks are held, at most four.
    pub fn len(&self) -> usize
        ensures count { result ≡ length self.now.tasks }
        ensures places { result ≤ PIPE_PLACES }
    {
        if self.first.is_none() {
            0
        } else if self.second.is_none() {
            1
        } else if self.third.is_none() {
            2
        } else if self.fourth.is_none() {
            3
        } else {
            PIPE_PLACES
        }
    }

    /// Whether nothing is held.
    pub fn is_empty(&self) -> bool
        ensures { result ≡ is_empty self.now }
    {
        self.first.is_none()
    }

    /// Whether a task can be put.
    pub fn has_room(&self) -> bool
        ensures { result ≡ has_room self.now }
    {
        !self.closed && self.fourth.is_none()
    }

    /// Whether the first task that is held is no failure.
    pub fn begins_plain(&self) -> bool
        ensures { result ≡ begins_plain self.now.tasks }
    {
        match &self.first {
            Some(task) => !is_failure(task),
            None => false,
        }
    }

    /// Closes the pipe: nothing more is put into it.
    pub fn close(&mut self)
        ensures { self.new ≡ record self.old { closed = true } }
    {
        self.closed = true;
    }

    /// Whether the pipe was closed.
    pub fn is_closed(&self) -> bool
        ensures { result ≡ self.now.closed }
    {
        self.closed
    }

    /// Marks the pipe as failed.
    pub fn fail(&mut self)
        ensures { self.new ≡ record self.old { failed = true } }
    {
        self.failed = true;
    }

    /// Whether the pipe was marked as failed.
    pub fn is_failed(&self) -> bool
        ensures { result ≡ self.now.failed }
    {
        self.failed
    }
}

/// Whether the task says that the upstream failed.
pub(crate) fn is_failure(task: &HttpTask) -> bool
    ensures { result ≡ is_failure task.now }
{
    match task {
        HttpTask::Header(_, _) => false,
        HttpTask::Body(_, _) => false,
        HttpTask::UpgradedBody(_, _) => false,
        HttpTask::Trailer(_) => false,
        HttpTask::Done => false,
        HttpTask::Failed(_) => true,
    }
}
