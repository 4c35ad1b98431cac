//! The client's side of a duplex over its session: pieces of the request are read from the client,
//! and the tasks of the response are queued for it (RFC 9112, sections 6, 7 and 9).
ghost use Rattle.std.specs.Prelude.{◌≡◌, ◌&&◌, ◌||◌, ◌⊎◌, not, List, ℕ};
ghost use Rattle.relay_links.specs.Link.{LinkState};
ghost use Rattle.relay_core.specs.Past.{Origin};
ghost use Rattle.relay_session.specs.Response.{is_over};
ghost use Rattle.relay_session.specs.TaskWire.{ends_short};
ghost use Rattle.relay_sides.specs.Client.{IsSide, IsLasting, BeginsBehind, begun_past, put_again, ClientBlames, ClientRefuses, CannotEnd, Queues, state_of, fault_in, piece_answer, told_read, failure_in_front};

use bytes::Bytes;
use relay_core::{Down, Piece, Told};
use relay_links::{Put, UpKind};
use relay_session::{Front, HttpSession};
use relay_tasks::{
    Context, Error, ErrorSource, ErrorType, Fail, Fault, HttpTask, Result, TaskList, Took,
};
use std::alloc::Global;
use std::mem;

/// The client's side over the session of one request whose head was read. The session has no link:
/// the client, which has it, is handed to each call that reads or writes.
///
/// `done` says that batches left the response over, `finished` that the response's end was asked
/// for: no batch is queued behind it. `broken` is the fault of the first write that failed: it
/// stays pending, and each later write answers it without the client.
#[derive(Drop)]
pub struct ClientSide {
    alloc: Global,
    session: HttpSession,
    told: Told,
    done: bool,
    finished: bool,
    broken: Option<Fault>,
}

impl ClientSide {
    /// The side over that session, whose head was read, with nothing told. Where the session begins
    /// behind the bytes that came, so does the side: what is kept of the body was put, and its end,
    /// where it has ended.
    pub fn new(alloc: Global, session: HttpSession) -> ClientSide
        ensures session { result.session ≡ session }
        ensures told { result.told ≡ Told.NOTHING }
        ensures begins { (s : Origin) (came : List ℕ) (link : LinkState) (ahead : List ℕ)
            → BeginsBehind s came link ahead session
            → IsSide s (begun_past came (put_again session)) link ahead result.session result.told
            result.done result.finished result.broken }
    {
        ClientSide {
            alloc,
            session,
            told: Told::NOTHING,
            done: false,
            finished: false,
            broken: None,
        }
    }

    /// The session.
    pub fn session(&self) -> &HttpSession
        ensures { result.now ≡ self.now.session }
    {
        &self.session
    }

    /// The session alone.
    pub fn into_session(self) -> HttpSession
        ensures { result ≡ self.session }
    {
        let ClientSide {
            alloc: _,
            session,
            told: _,
            done: _,
            finished: _,
            broken: _,
        } = self;
        session
    }

    /// Puts that session in the place of its own, which the caller has then: so hooks may be lent
    /// the side's own session.
    pub fn swap_session(&mut self, session: &mut HttpSession)
        ensures given { self.new ≡ record self.old { session = session.old } }
        ensures taken { session.new ≡ self.old.session }
    {
        mem::swap(&mut self.session, session);
    }

    /// Whether nothing more of the response comes: it is done, or its end was asked for.
    pub fn is_answered(&self) -> bool
        ensures { result ≡ (self.now.done || self.now.finished) }
    {
        either(self.done, self.finished)
    }

    /// Queues the tasks for the client, none behind an end of the response that was asked for. A
    /// failure in front is answered with its error.
    fn queue(&mut self, tasks: TaskList) -> Result<bool>
        ensures queues { Queues self.old.session self.new.session tasks self.old.finished result }
        ensures rest { self.new ≡ record self.old { session = self.new.session } }
    {
        if let Some(error) = failure_in_front(&tasks) {
            return Err(Fail::Error(error));
        }
        if self.finished {
            return Err(Fail::Error(ends_short()));
        }
        self.session.response_duplex_vec(tasks)
    }

    /// Whether the response is over, without its end having been asked for.
    fn is_over(&self) -> bool
        ensures { result ≡ (not self.now.finished && is_over self.now.session.writing.place) }
    {
        !self.finished && self.session.response_done()
    }
}

/// The piece that an answer of the session is: the end comes with the last bytes, or alone.
fn piece_answer(took: Took<Bytes>, done: bool) -> Took<Piece>
    ensures { result ≡ piece_answer took done }
{
    match took {
        Took::Item(bytes) => Took::Item(Piece {
            bytes: Some(bytes),
            upstream_end: done,
            client_end: done,
        }),
        Took::More => Took::More,
        Took::Waited(pause) => Took::Waited(pause),
        Took::End => Took::Item(Piece {
            bytes: None,
            upstream_end: true,
            client_end: true,
        }),
        Took::Failed(why) => Took::Failed(why),
    }
}

/// One more answer of a read.
fn told_read(told: Told, took: &Took<Piece>) -> Told
    ensures { result ≡ told_read took.now told }
{
    match took {
        Took::Item(_) | Took::More | Took::End => told,
        Took::Waited(pause) => told.paused(*pause),
        Took::Failed(why) => told.failed(*why),
    }
}

/// The error of a failure in front.
fn failure_in_front(tasks: &TaskList) -> Option<Error>
    ensures { result ≡ failure_in_front tasks.now }
{
    match tasks.get(0) {
        Some(HttpTask::Failed(error)) => Some(*error),
        Some(_) | None => None,
    }
}

/// The fault of a write that failed.
fn fault_in(put: Put) -> Option<Fault>
    ensures { result ≡ fault_in put }
{
    match put {
        Put::Failed(fault) => Some(fault),
        Put::Took(_) | Put::NotReady | Put::Silent | Put::OutOfMemory => None,
    }
}

/// One of two flags stands.
pub(crate) fn either(first: bool, second: bool) -> bool
    ensures { result ≡ first || second }
{
    first || second
}

/// The response was ended before its last task.
fn ends_short() -> Error
    ensures { result ≡ ends_short }
{
    Error::explain(ErrorType::PrematureBodyEnd, Context::BodyShort).into_down()
}

impl<F: Front> Down<F> for ClientSide {
    ghost state = { λ side. state_of side.session side.told side.done side.finished side.broken };

    ghost past = { λ side client s p. IsSide s p (F.state client) (F.ahead client) side.session
        side.told side.done side.finished side.broken };

    ghost blames = { λ side client s p e. ClientBlames s p (F.state client) e };

    ghost refuses = { λ side client s p left e.
        ClientRefuses s p (F.state client) side.told left e };

    // A write failed before, or the response cannot end where it stands.
    ghost cannot_end = { λ side client s p e.
        ClientBlames s p (F.state client) e ⊎ CannotEnd s p side.told e };

    ghost link = { F.state };

    ghost start = { F.start };

    ghost lasts = { λ old new. IsLasting old.session new.session };

    fn may_read(&self) -> bool {
        !(self.session.is_body_done() && either(self.done, self.finished))
    }

    fn body_done(&self) -> bool {
        self.session.is_body_done()
    }

    fn upgraded(&self) -> bool {
        false
    }

    fn read_piece(&mut self, client: &mut F, _idle: bool) -> Took<Piece> {
        if !self.session.has_head() {
            return Took::More;
        }
        let was_done = self.session.is_body_done();
        let took = self.session.read_body_or_idle(self.alloc, client, was_done);
        let piece = piece_answer(took, self.session.is_body_done());
        self.told = told_read(self.told, &piece);
        piece
    }

    fn take_batch(&mut self, tasks: TaskList, _kind: UpKind) -> Result<bool> {
        match self.queue(tasks) {
            Ok(over) => {
                self.done = either(self.done, over);
                Ok(self.done)
            }
            Err(why) => {
                // What stood in front of a task that was refused may have ended the response.
                self.done = either(self.done, self.is_over());
                self.told = self.told.failed(why);
                Err(why)
            }
        }
    }

    fn has_pending(&self) -> bool {
        either(self.session.has_pending(), self.broken.is_some())
    }

    fn write_pending(&mut self, client: &mut F) -> Put {
        match self.broken {
            Some(fault) => {
                let failed = Put::Failed(fault);
                self.told = self.told.written(ErrorSource::Downstream, failed);
                failed
            }
            None => {
                let put = self.session.write_pending(client);
                self.told = self.told.written(ErrorSource::Downstream, put);
                self.broken = fault_in(put);
                put
            }
        }
    }

    fn finish(&mut self) -> Result<()> {
        if self.finished {
            return Ok(());
        }
        match self.session.finish_body() {
            Ok(()) => {
                self.finished = true;
                Ok(())
            }
            Err(why) => {
                self.told = self.told.failed(why);
                Err(why)
            }
        }
    }

    fn told(&self) -> Told {
        self.told
    }
}
