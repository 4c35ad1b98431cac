//! The client's half of a duplex: one function for each of its branches.
ghost use Rattle.std.specs.Prelude.{◌≡◌, ◌<◌, ◌⊎◌, length, IsTrue, true, false};
ghost use Rattle.relay_links.specs.Count.{up};
ghost use Rattle.relay_core.specs.Causes.{says_failed};
ghost use Rattle.relay_core.specs.Down.{Lasting, may_read};
ghost use Rattle.relay_core.specs.Pipe.{has_room};
ghost use Rattle.relay_core.specs.Past.{Origin, DownPast};
ghost use Rattle.relay_core.specs.Steps.{DownWrites, DownWritesOn, DownTakes, DownTakesOn, GivesBatch, GivesBatchOn, DownDrops, DownReads, DownReadsOn, DownEnds, DownEndsOn, Becomes};
ghost use Rattle.relay_core.specs.Uses.{IsUsed, ReadsInside, StepUses};
ghost use Rattle.relay_core.specs.Table.{after_down_write, step_of_down_write, with_upgrade, with_response_done, with_request_done, with_piece_read, with_client_finished};

use crate::batch::{has_end, next_batch};
use crate::down::Down;
use crate::duplex::Duplex;
use crate::piece::Piece;
use crate::pipe_state::PipeState;
use crate::step::Step;
use crate::up_half::half_finished;
use relay_links::Put;
use relay_tasks::{Error, Fail, Pause, TaskList, Took};

impl Duplex {
    /// One write to the client.
    pub(crate) fn down_write<C, D: Down<C>>(&mut self, client: &mut C, down: &mut D) -> Step
        requires { IsTrue (D.state down.old).pending }
        ensures start { D.start client.new ≡ D.start client.old }
        ensures lasts { Lasting D.lasts down.old down.new }
        ensures exact { DownWrites self.old (D.state down.old) self.new (D.state down.new) result }
        ensures goes { (s : Origin) (p : DownPast) → D.past down.old client.old s p
            → DownWritesOn (D.past down.new client.new s) (D.blames down.new client.new s) p
            self.old (D.state down.old) self.new (D.state down.new) result }
        ensures waits { result ≡ Step.Waited Pause.NotReady
            → (D.link client.new).waits ≡ up (D.link client.old).waits }
        ensures silent { result ≡ Step.Waited Pause.Silent
            → (D.link client.new ≡ D.link client.old)
            × ((D.link client.new).silent_on_write ≡ true) }
        ensures asks { StepUses (D.link client.old) (D.link client.new) result }
        ensures gains { result ≡ Step.Moved → IsUsed (D.link client.old) (D.link client.new) }
        ensures calm { says_failed result ≡ false
            → (D.link client.new).faults ≡ (D.link client.old).faults }
    {
        let answer = down.write_pending(client);
        self.after_down_write(answer)
    }

    fn after_down_write(&mut self, answer: Put) -> Step
        ensures duplex { self.new ≡ after_down_write self.old answer }
        ensures step { result ≡ step_of_down_write answer }
    {
        match answer {
            Put::Took(_) => Step::Moved,
            Put::NotReady => Step::Waited(Pause::NotReady),
            Put::Silent => Step::Waited(Pause::Silent),
            Put::Failed(fault) => self.fail(Fail::Error(Error::of_fault(fault).into_down())),
            Put::OutOfMemory => self.fail(Fail::OutOfMemory),
        }
    }

    /// Gives the tasks of the response pipe that go together to the client.
    pub(crate) fn down_take<C, D: Down<C>>(&mut self, down: &mut D) -> Step
        requires { 0 < length self.old.responses.tasks }
        ensures exact { DownTakes self.old (D.state down.old) self.new (D.state down.new) result }
        ensures lasts { Lasting D.lasts down.old down.new }
        ensures goes { (client : C) (s : Origin) (p : DownPast) → D.past down.old client s p
            → DownTakesOn (D.past down.new client s) (D.blames down.new client s)
            (D.refuses down.new client s) p self.old (D.state down.old) self.new
            (D.state down.new) result }
    {
        match next_batch(self.alloc, &mut self.responses) {
            Ok(tasks) => self.give_batch(down, tasks),
            Err(why) => self.fail(why),
        }
    }

    fn give_batch<C, D: Down<C>>(&mut self, down: &mut D, tasks: TaskList) -> Step
        ensures exact { GivesBatch self.old (D.state down.old) tasks self.new (D.state down.new)
            result }
        ensures lasts { Lasting D.lasts down.old down.new }
        ensures goes { (client : C) (s : Origin) (p : DownPast) → D.past down.old client s p
            → GivesBatchOn (D.past down.new client s) (D.blames down.new client s)
            (D.refuses down.new client s) p self.old (D.state down.old) tasks self.new
            (D.state down.new) result }
    {
        let was_upgraded = down.upgraded();
        let end = has_end(&tasks);
        match down.take_batch(tasks, self.kind) {
            Ok(done) => {
                let upgraded = down.upgraded();
                self.accept_upgrade(!was_upgraded && upgraded);
                self.client_response.maybe_set_upstream_done(end || done);
                self.client_request.maybe_finished(end && upgraded);
                Step::Moved
            }
            Err(why) => self.fail(why),
        }
    }

    /// After a 101 was accepted, the client's request is read again, and so is the upstream's where
    /// no send error is kept.
    fn accept_upgrade(&mut self, accepted: bool)
        ensures { self.new ≡ with_upgrade self.old accepted }
    {
        if accepted {
            self.client_request.reset();
            self.upstream_request_done = self.upstream_request_done && self.send_error.is_some();
        }
    }

    /// Drops the first task of the response pipe.
    pub(crate) fn down_drop(&mut self) -> Step
        requires { 0 < length self.old.responses.tasks }
        ensures { DownDrops self.old self.new result }
    {
        let _task = self.responses.take_held();
        Step::Moved
    }

    /// The response is done, since no more of it comes.
    pub(crate) fn down_end(&mut self) -> Step
        ensures { Becomes (with_response_done self.old true) self.new result }
    {
        self.client_response.maybe_set_upstream_done(true);
        Step::Moved
    }

    /// The request is done, since no more of it is wanted.
    pub(crate) fn down_closed(&mut self) -> Step
        ensures { Becomes (with_request_done self.old true) self.new result }
    {
        self.client_request.maybe_finished(true);
        Step::Moved
    }

    /// Reads a piece of the request and puts it.
    pub(crate) fn down_read<C, D: Down<C>>(&mut self, client: &mut C, down: &mut D) -> Step
        requires room { IsTrue (has_room self.old.requests) }
        requires readable { IsTrue (may_read (D.state down.old)) }
        ensures start { D.start client.new ≡ D.start client.old }
        ensures lasts { Lasting D.lasts down.old down.new }
        ensures exact { DownReads self.old (D.state down.old) self.new (D.state down.new) result }
        ensures goes { (s : Origin) (p : DownPast) → D.past down.old client.old s p
            → DownReadsOn (D.past down.new client.new s) (D.blames down.new client.new s) p
            self.old (D.state down.old) self.new (D.state down.new) result }
        ensures waits { result ≡ Step.Waited Pause.NotReady
            → (D.link client.new).waits ≡ up (D.link client.old).waits }
        ensures silent { result ≡ Step.Waited Pause.Silent
            → (D.link client.new ≡ D.link client.old)
            × ((D.link client.new).silent_on_read ≡ true) }
        ensures asks { StepUses (D.link client.old) (D.link client.new) result }
        ensures gains { (s : Origin) (p : DownPast) → D.past down.old client.old s p
            → result ≡ Step.Moved → IsUsed (D.link client.old) (D.link client.new)
            ⊎ ReadsInside self.old (D.state down.old) self.new (D.state down.new) }
        ensures calm { says_failed result ≡ false
            → (D.link client.new).faults ≡ (D.link client.old).faults }
    {
        let upgraded = down.upgraded();
        match down.read_piece(client, self.client_request.is_done()) {
            Took::Item(piece) => self.put_piece(piece, upgraded),
            Took::More => Step::Moved,
            Took::Waited(pause) => Step::Waited(pause),
            Took::End => unreachable!(),
            Took::Failed(why) => self.fail(why),
        }
    }

    /// Puts a piece of the request, unless it is empty and not the end. With the client's end the
    /// request is done, in a tunnel the response too.
    fn put_piece(&mut self, piece: Piece, upgraded: bool) -> Step
        requires { IsTrue (has_room self.old.requests) }
        ensures duplex { self.new ≡ with_piece_read self.old upgraded piece }
        ensures step { result ≡ Step.Moved }
    {
        let end = piece.client_end;
        if let Some(task) = piece.into_task(upgraded) {
            self.requests.add(task);
        }
        self.client_request.maybe_finished(end);
        self.client_response
            .maybe_set_upstream_done(end && upgraded);
        Step::Moved
    }

    /// Ends the response's body; with nothing pending then, the client's half has finished.
    pub(crate) fn down_finish<C, D: Down<C>>(&mut self, down: &mut D) -> Step
        ensures exact { DownEnds self.old (D.state down.old) self.new (D.state down.new) result }
        ensures lasts { Lasting D.lasts down.old down.new }
        ensures goes { (client : C) (s : Origin) (p : DownPast) → D.past down.old client s p
            → DownEndsOn (D.past down.new client s) (D.cannot_end down.new client s) p self.old
            (D.state down.old) self.new (D.state down.new) result }
    {
        match down.finish() {
            Ok(()) => {
                if down.has_pending() {
                    return Step::Moved;
                }
                self.finish_client();
                half_finished(self.upstream_finished)
            }
            Err(why) => self.fail(why),
        }
    }

    /// The client's half has finished: the word says so, and the response pipe is closed.
    fn finish_client(&mut self)
        ensures { self.new ≡ with_client_finished self.old }
    {
        self.client_finished = true;
        self.word = PipeState::DownstreamComplete;
        self.responses.close();
    }
}
