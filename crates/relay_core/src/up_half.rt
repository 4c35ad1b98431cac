//! The upstream half of a duplex: one function for each of its branches.
ghost use Rattle.std.specs.Prelude.{◌≡◌, ◌<◌, length, IsTrue, true, false};
ghost use Rattle.std.specs.List.{list_any};
ghost use Rattle.relay_tasks.specs.Task.{is_end};
ghost use Rattle.relay_links.specs.Count as count;
ghost use Rattle.relay_core.specs.Asked.{Brings};
ghost use Rattle.relay_core.specs.Pipe.{has_room};
ghost use Rattle.relay_core.specs.Past.{Origin, UpPast};
ghost use Rattle.relay_core.specs.Steps.{UpWrites, UpWritesOn, UpTakes, UpTakesOn, UpReads, UpReadsOn, UpEnds};
ghost use Rattle.relay_core.specs.Uses.{IsUsed, StepUses};
ghost use Rattle.relay_core.specs.Table.{failed, with_send_error, after_up_write, step_of_up_write, after_piece, step_of_up_take, ends_request, ends_tunnel, with_task_read, custom_error, step_of_half};

use crate::duplex::Duplex;
use crate::pipe_state::PipeState;
use crate::step::Step;
use crate::up::Up;
use relay_links::{Put, UpKind};
use relay_tasks::{Error, Fail, HttpTask, Pause, Result, Took};

impl Duplex {
    /// One write to the upstream. A fault is kept as the send error.
    pub(crate) fn up_write<U: Up>(&mut self, up: &mut U) -> Step
        requires { IsTrue (U.state up.old).pending }
        ensures start { U.start up.new ≡ U.start up.old }
        ensures exact { UpWrites self.old (U.state up.old) self.new (U.state up.new) result }
        ensures goes { (s : Origin) (q : UpPast) → U.past up.old s q
            → UpWritesOn (U.past up.new s) (U.blames up.old s) (U.blames up.new s) q
            self.old (U.state up.old) self.new (U.state up.new) result }
        ensures waits { result ≡ Step.Waited Pause.NotReady
            → (U.link up.new).waits ≡ count.up (U.link up.old).waits }
        ensures silent { result ≡ Step.Waited Pause.Silent
            → (U.link up.new ≡ U.link up.old) × ((U.link up.new).silent_on_write ≡ true) }
        ensures asks { StepUses (U.link up.old) (U.link up.new) result }
        ensures gains { result ≡ Step.Moved → IsUsed (U.link up.old) (U.link up.new) }
    {
        let answer = up.write_pending();
        self.after_up_write(answer)
    }

    fn after_up_write(&mut self, answer: Put) -> Step
        ensures duplex { self.new ≡ after_up_write self.old answer }
        ensures step { result ≡ step_of_up_write answer }
    {
        match answer {
            Put::Took(_) => Step::Moved,
            Put::NotReady => Step::Waited(Pause::NotReady),
            Put::Silent => Step::Waited(Pause::Silent),
            Put::Failed(fault) => {
                self.keep_send_error(Error::of_fault(fault).into_up());
                Step::Moved
            }
            Put::OutOfMemory => self.fail(Fail::OutOfMemory),
        }
    }

    /// Nothing more can be sent: the error is kept, and the request is done.
    fn keep_send_error(&mut self, error: Error)
        ensures { self.new ≡ with_send_error self.old error }
    {
        self.send_error = Some(error);
        self.upstream_request_done = true;
    }

    /// A half failed: no branch is enabled from now on.
    pub(crate) fn fail(&mut self, why: Fail) -> Step
        ensures duplex { self.new ≡ failed self.old }
        ensures step { result ≡ Step.Failed why }
    {
        self.word = PipeState::Failed;
        self.requests.fail();
        self.responses.fail();
        Step::Failed(why)
    }

    /// Gives the first piece of the request pipe to the upstream. A piece that it refuses leaves a
    /// send error.
    pub(crate) fn up_take<U: Up>(&mut self, up: &mut U, tunnel: bool) -> Step
        requires { 0 < length self.old.requests.tasks }
        ensures start { U.start up.new ≡ U.start up.old }
        ensures unasked { U.link up.new ≡ U.link up.old }
        ensures exact { UpTakes tunnel self.old (U.state up.old) self.new (U.state up.new) result }
        ensures goes { (s : Origin) (q : UpPast) → U.past up.old s q
            → UpTakesOn (U.past up.new s) (U.blames up.old s) (U.blames up.new s) q tunnel
            self.old (U.state up.old) self.new (U.state up.new) result }
    {
        let piece = self.requests.take_held();
        let ends_request = ends_request(&piece, tunnel);
        let ends_tunnel = ends_tunnel(&piece, tunnel);
        let answer = up.take_piece(piece);
        self.upstream_request_done = self.upstream_request_done || ends_request;
        self.upstream_response_done = self.upstream_response_done || ends_tunnel;
        self.after_piece(answer)
    }

    fn after_piece(&mut self, answer: Result<()>) -> Step
        ensures duplex { self.new ≡ after_piece self.old answer }
        ensures step { result ≡ step_of_up_take answer }
    {
        match answer {
            Ok(()) => Step::Moved,
            Err(Fail::Error(error)) => {
                self.keep_send_error(error);
                Step::Moved
            }
            Err(Fail::OutOfMemory) => self.fail(Fail::OutOfMemory),
        }
    }

    /// Reads a task of the response and puts it; a read error is put as `Failed`, with the send
    /// error where one is kept.
    pub(crate) fn up_read<U: Up>(&mut self, up: &mut U, tunnel: bool) -> Step
        requires { IsTrue (has_room self.old.responses) }
        ensures start { U.start up.new ≡ U.start up.old }
        ensures exact { UpReads tunnel self.old (U.state up.old) self.new (U.state up.new) result }
        ensures goes { (s : Origin) (q : UpPast) → U.past up.old s q
            → UpReadsOn (U.past up.new s) (U.blames up.old s) (U.blames up.new s) q tunnel
            self.old (U.state up.old) self.new (U.state up.new) result }
        ensures waits { result ≡ Step.Waited Pause.NotReady
            → (U.link up.new).waits ≡ count.up (U.link up.old).waits }
        ensures silent { result ≡ Step.Waited Pause.Silent
            → (U.link up.new ≡ U.link up.old) × ((U.link up.new).silent_on_read ≡ true) }
        ensures asks { StepUses (U.link up.old) (U.link up.new) result }
        ensures brings { (s : Origin) (q : UpPast) → U.past up.old s q
            → list_any is_end q.read ≡ false → result ≡ Step.Moved
            → Brings self.old self.new (U.link up.old) (U.link up.new) }
    {
        match up.read_task() {
            Took::Item(task) => self.put_response(task, tunnel),
            Took::More => Step::Moved,
            Took::Waited(pause) => Step::Waited(pause),
            Took::End => unreachable!(),
            Took::Failed(Fail::Error(error)) => {
                let told = self.send_error.unwrap_or(error);
                self.put_response(HttpTask::Failed(told), tunnel)
            }
            Took::Failed(Fail::OutOfMemory) => self.fail(Fail::OutOfMemory),
        }
    }

    /// Puts a task of the response. With its end the response is done, in a tunnel the request too.
    fn put_response(&mut self, task: HttpTask, tunnel: bool) -> Step
        requires { IsTrue (has_room self.old.responses) }
        ensures duplex { self.new ≡ with_task_read self.old tunnel task }
        ensures step { result ≡ Step.Moved }
    {
        let end = task.is_end();
        self.responses.add(task);
        self.upstream_response_done = self.upstream_response_done || end;
        self.upstream_request_done = self.upstream_request_done || (end && tunnel);
        Step::Moved
    }

    /// Ends the upstream half and closes both pipes. A custom upstream that was not sent its
    /// request whole fails instead.
    pub(crate) fn up_finish(&mut self) -> Step
        ensures { UpEnds self.old self.new result }
    {
        match self.custom_error() {
            Some(error) => self.fail(Fail::Error(error)),
            None => {
                self.upstream_finished = true;
                self.requests.close();
                self.responses.close();
                half_finished(self.client_finished)
            }
        }
    }

    fn custom_error(&self) -> Option<Error>
        ensures { result ≡ custom_error self.now.kind self.now.send_error }
    {
        match self.kind {
            UpKind::H1 => None,
            UpKind::H2 => None,
            UpKind::Custom => self.send_error,
        }
    }
}

/// What a half that finishes answers, the other having finished or not.
pub(crate) fn half_finished(other: bool) -> Step
    ensures { result ≡ step_of_half other }
{
    if other { Step::Finished } else { Step::Moved }
}

/// Whether the upstream's request ends with the piece. An end that was put before an accepted 101
/// and is taken after it does not count.
fn ends_request(piece: &HttpTask, tunnel: bool) -> bool
    ensures { result ≡ ends_request tunnel piece.now }
{
    match piece {
        HttpTask::Header(_, end) => *end,
        HttpTask::Body(_, end) => *end && !tunnel,
        HttpTask::UpgradedBody(_, end) => *end,
        HttpTask::Trailer(_) => true,
        HttpTask::Done => true,
        HttpTask::Failed(_) => true,
    }
}

/// Whether a tunnel ends with the piece.
fn ends_tunnel(piece: &HttpTask, tunnel: bool) -> bool
    ensures { result ≡ ends_tunnel tunnel piece.now }
{
    match piece {
        HttpTask::Header(_, _) => false,
        HttpTask::Body(_, _) => false,
        HttpTask::UpgradedBody(_, end) => *end && tunnel,
        HttpTask::Trailer(_) => false,
        HttpTask::Done => false,
        HttpTask::Failed(_) => false,
    }
}
