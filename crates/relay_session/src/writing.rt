//! How the response to a client is written: its heads, its body, its end (RFC 9112, sections 4, 6
//! and 7). What is written waits in a queue until the link takes it.
ghost use Rattle.std.specs.Prelude.{◌≡◌, ℕ, ◌&&◌, List, [], ◌∷◌, ◌++◌, take, length, ◌==◌, ◌≤◌, not, true, false, Some, Err, IfOk, IfErr, OnOk, OnErr, IsOkUnless};
ghost use Rattle.relay_tasks.specs.declared.task.HttpTask.{HttpTask};
ghost use Rattle.relay_tasks.specs.Head.{IsStatus};
ghost use Rattle.relay_links.specs.Count.{last_count};
ghost use Rattle.relay_h1.specs.Move.{taken};
ghost use Rattle.relay_session.specs.Asked.{is_head, lets_ask};
ghost use Rattle.relay_session.specs.TaskWire.{bytes_of, head_at, head_refusal_at, piece_at, piece_refusal_at, refusal};
ghost use Rattle.relay_session.specs.TaskSteps.{HeadGoesOnAt, PieceGoesOnAt};
ghost use Rattle.relay_session.specs.Generated.{answer_tasks, body_answer_tasks, AnswersText, IsKeptFault, IsFaultOrMemory};
ghost use Rattle.relay_session.specs.Response.{Holds, IsQueued, AreQueued, Takes, passed, IsFailure, FailsOn, error_of, has_head, is_over, is_unqueued, is_written_out, pending, MayWrite, WritesPending, LeavesOpen, IsOpen, StopsAt, FailsWithin, FailsBatch};

use crate::batch::batch_refusal;
use crate::front::Front;
use crate::generated::{answer_with_body, generated_head};
use crate::task_text::{Asks, Place, Pushed, Request, push_head_at, push_piece_at};
use bytes::Bytes;
use relay_h1::{BodyWriter, Output};
use relay_links::Put;
use relay_tasks::{Error, Fail, Fault, HttpTask, ResponseHeader, Result, TaskList};
use std::alloc::Global;

/// What waits for the client's link, or the fault of the first write that failed.
#[derive(Drop)]
enum Outgoing {
    Open(Output),
    Broken(Fault),
}

/// The response side of one session: where the response stands, and the text that waits for the
/// client's link. From the first write that fails each call answers that fault, and nothing waits.
#[derive(Drop)]
pub struct Writing {
    request: Request,
    place: Place,
    output: Outgoing,
    body_bytes: u64,
    closes: bool,
}

impl Writing {
    /// The response to that request, before its first task. It has taken no memory.
    pub fn new(alloc: Global, request: Request) -> Writing
        ensures request { result.request ≡ request }
        ensures place { result.place ≡ Place.NoHead }
        ensures output { result.output ≡ Outgoing.Open [] }
        ensures starts { Holds result [] [] }
    {
        Writing {
            request,
            place: Place::NoHead,
            output: Outgoing::Open(Output::new(Vec::new(alloc))),
            body_bytes: 0,
            closes: false,
        }
    }

    /// From now on the response answers that request. What was queued before stays.
    pub(crate) fn answer_to(&mut self, request: Request)
        ensures value { self.new ≡ record self.old { request = request } }
        ensures starts { (sent : List ℕ) → Holds self.old [] sent → Holds self.new [] sent }
    {
        self.request = request;
    }

    /// Whether the request that it answers lets its client ask for more, once its body is done.
    pub(crate) fn lets_ask(&self) -> bool
        ensures { result ≡ lets_ask self.now.request }
    {
        self.request.lets_ask()
    }

    /// Whether the request that it answers is a HEAD.
    pub(crate) fn answers_head(&self) -> bool
        ensures { result ≡ is_head self.now.request.method }
    {
        match self.request.method {
            Asks::Head => true,
            Asks::Other => false,
        }
    }

    /// Whether bytes wait for the link.
    pub fn has_pending(&self) -> bool
        ensures { result ≡ not (length (pending self.now.output) == 0) }
    {
        match &self.output {
            Outgoing::Open(queue) => !queue.is_empty(),
            Outgoing::Broken(_) => false,
        }
    }

    /// One write to the client of the bytes that wait, which `has_pending` tells: it is offered
    /// those in front. What it takes leaves them. Where the write fails, its fault is kept and what
    /// waited is dropped; from then on this answers that fault without a write.
    pub fn write_pending<F: Front>(&mut self, client: &mut F) -> Put
        requires { MayWrite self.old.output }
        ensures answer { WritesPending self.old.output (F.state client.old)
            (F.state client.new) result self.new.output }
        ensures keeps { (tasks : List HttpTask) (sent : List ℕ) → Holds self.old tasks sent
            → Holds self.new tasks (sent ++ take (taken result) (pending self.old.output)) }
        ensures start { F.start client.new ≡ F.start client.old }
        ensures ahead { F.ahead client.new ≡ F.ahead client.old }
        ensures rest { self.new ≡ record self.old { output = self.new.output } }
    {
        match &mut self.output {
            Outgoing::Broken(fault) => Put::Failed(*fault),
            Outgoing::Open(queue) => {
                let put = client.write_out(queue);
                self.keep_fault(put);
                put
            }
        }
    }

    /// Keeps the fault of a write that failed, and drops what waited.
    fn keep_fault(&mut self, put: Put)
        requires { IsOpen self.old.output }
        ensures output { LeavesOpen (pending self.old.output) put self.new.output }
        ensures rest { self.new ≡ record self.old { output = self.new.output } }
    {
        match put {
            Put::Failed(fault) => self.output = Outgoing::Broken(fault),
            Put::Took(_) | Put::NotReady | Put::Silent | Put::OutOfMemory => {}
        }
    }

    /// Whether a final head was queued.
    pub fn response_written(&self) -> bool
        ensures { result ≡ has_head self.now.place }
    {
        match self.place {
            Place::NoHead => false,
            Place::Body(_) | Place::Done => true,
        }
    }

    /// Whether the response stands as it did before its first task: no final head was queued,
    /// nothing waits, and no write failed. Informational heads may have been written.
    pub fn is_as_begun(&self) -> bool
        ensures { result ≡ is_unqueued self.now }
    {
        !self.response_written() && self.is_written_out()
    }

    /// Whether nothing waits, and no write failed.
    fn is_written_out(&self) -> bool
        ensures { result ≡ is_written_out self.now.output }
    {
        match &self.output {
            Outgoing::Open(queue) => queue.is_empty(),
            Outgoing::Broken(_) => false,
        }
    }

    /// Whether the response is over: a final head was queued, and its end was too or its framing
    /// takes no more bytes.
    pub fn response_done(&self) -> bool
        ensures { result ≡ is_over self.now.place }
    {
        match self.place {
            Place::NoHead => false,
            Place::Body(rest) => BodyWriter::new(rest).is_done(),
            Place::Done => true,
        }
    }

    /// Whether what was queued closes the client's connection, which then serves no further request:
    /// the final head, as the client gets it, has the connection option `close`, or its body lasts
    /// until the connection ends (RFC 9112, sections 6.3 and 9.6).
    pub fn response_closes(&self) -> bool
        ensures { result ≡ self.now.closes }
    {
        self.closes
    }

    /// How many bytes of the body were queued; the count stands still at its last value.
    pub fn body_bytes_sent(&self) -> u64
        ensures { result ≡ self.now.body_bytes }
    {
        self.body_bytes
    }

    /// Queues a head. An informational head gives its text, and nothing for a client of HTTP/1.0;
    /// the first final head gives its text as the client gets it; a head behind that gives nothing.
    ///
    /// `InvalidHTTPHeader`, of the relay's own side: exactly where the framing of the first final
    /// head is refused. `WriteError` or `WriteTimedout`, of the client's side: exactly where a
    /// write failed so before. Then, and where memory is wanted, the response stays as it was.
    pub fn write_response_header(&mut self, head: ResponseHeader) -> Result<()>
        ensures ok { OnOk result (IsQueued self.old (HttpTask.Header head false) self.new) }
        ensures err { IfErr result (IsFailure self.old.output
            (refusal self.old.request self.old.place (HttpTask.Header head false))) }
        ensures kept { OnErr result (self.new ≡ self.old) }
    {
        // read, so that its range is known
        let _bytes = self.body_bytes;
        self.queue_head(head, false)
    }

    /// Queues a piece of the body in the framing of the final head, and the end where the body ends
    /// with it: none past a length, and none before the final head or behind the end.
    ///
    /// `PrematureBodyEnd`, of the client's side: exactly where the end comes short of a length. The
    /// piece is queued then too, and the body stays open. `WriteError` or `WriteTimedout`, of the
    /// client's side: exactly where a write failed so before. Then, and where memory is wanted, the
    /// response stays as it was.
    pub fn write_response_body(&mut self, piece: Bytes, end: bool) -> Result<()>
        ensures ok { OnOk result
            (IsQueued self.old (HttpTask.Body (Some piece) end) self.new) }
        ensures err { IfErr result
            (FailsOn self.old.output self.old (HttpTask.Body (Some piece) end) self.new) }
    {
        self.queue_piece(piece, end)
    }

    /// Queues the end of the body: the last chunk where it is chunked. It gives nothing before the
    /// final head and behind the end.
    ///
    /// Refused as in `write_response_body`; the response then stays as it was.
    pub fn finish_body(&mut self) -> Result<()>
        ensures ok { OnOk result (IsQueued self.old HttpTask.Done self.new) }
        ensures err { IfErr result (IsFailure self.old.output
            (refusal self.old.request self.old.place HttpTask.Done)) }
        ensures kept { OnErr result (self.new ≡ self.old) }
    {
        // read, so that its range is known
        let _bytes = self.body_bytes;
        self.queue_end()
    }

    /// Queues the answer with that status, from 100 to 999, that has no body, as the relay makes it
    /// itself. Behind a final head it gives nothing and is Ok.
    ///
    /// `WriteError` or `WriteTimedout`, of the client's side: exactly where a write failed so
    /// before. Then, and where memory is wanted, the response stays as it was.
    pub fn respond_error(&mut self, code: u16) -> Result<()>
        requires { IsStatus code }
        ensures ok { OnOk result
            (AreQueued self.old (answer_tasks self.old.place code) self.new) }
        ensures text { OnOk result (AnswersText code self.old self.new) }
        ensures err { IfErr result (IsFaultOrMemory self.old.output) }
        ensures kept { OnErr result (self.new ≡ self.old) }
    {
        let alloc = self.ready()?;
        if self.response_written() {
            return Ok(());
        }
        let head = generated_head(alloc, code, 0)?;
        self.queue_head(head, true)
    }

    /// Queues the answer with that status, from 100 to 999, and that body, as the relay makes it
    /// itself; the body is not written where the answer has none, as for HEAD. Behind a final head
    /// it gives nothing and is Ok.
    ///
    /// `WriteError` or `WriteTimedout`, of the client's side: exactly where a write failed so
    /// before; the response then stays as it was. Where memory is wanted, the head may be queued.
    pub fn respond_error_with_body(&mut self, code: u16, body: Bytes) -> Result<()>
        requires { IsStatus code }
        ensures ok { OnOk result
            (AreQueued self.old (body_answer_tasks self.old.place code body) self.new) }
        ensures err { IfErr result (FailsWithin self.old.output self.old
            (body_answer_tasks self.old.place code body) self.new) }
        ensures memory { IfErr result (IsFaultOrMemory self.old.output) }
    {
        let alloc = self.ready()?;
        if self.response_written() {
            return Ok(());
        }
        let tasks = answer_with_body(alloc, code, body)?;
        self.queue_tasks(tasks)
    }

    /// The allocator, where no write has failed.
    fn ready(&self) -> Result<Global>
        ensures ok { OnOk result (IsOpen self.now.output) }
        ensures fits { OnOk result (self.now.body_bytes ≤ last_count) }
        ensures err { IfErr result (IsFaultOrMemory self.now.output) }
        ensures fault { IfErr result (IsKeptFault self.now.output) }
    {
        let _bytes = self.body_bytes;
        match &self.output {
            Outgoing::Open(queue) => Ok(queue.allocator()),
            Outgoing::Broken(fault) => Err(Fail::Error(error_of(*fault))),
        }
    }

    /// Queues the tasks in order, each as the calls above do; trailer fields give nothing and end
    /// the body. Answers whether the response is over then.
    ///
    /// `InvalidHTTPHeader`, of the relay's own side: exactly where the framing of the first final
    /// head is refused, and no failed task stands before it. This is looked at first, and none of
    /// the tasks is queued then. Else the first task that is refused ends the call, by the error of
    /// a `Failed` task or as in the calls above. What it and the tasks before it gave is queued; so
    /// is what the tasks before it gave where memory is wanted. `WriteError` or `WriteTimedout`, of
    /// the client's side: exactly where a write failed so before; the response then stays as it
    /// was.
    pub fn response_duplex_vec(&mut self, tasks: TaskList) -> Result<bool>
        ensures over { IfOk result (λ over. over ≡ is_over self.new.place) }
        ensures ok { OnOk result (AreQueued self.old tasks self.new) }
        ensures err { IfErr result (FailsBatch self.old.output self.old tasks self.new) }
    {
        if let Outgoing::Broken(fault) = &self.output {
            return Err(Fail::Error(error_of(*fault)));
        }
        if let Some(error) = batch_refusal(&self.request, self.place, &tasks) {
            return Err(Fail::Error(error));
        }
        self.queue_tasks(tasks)?;
        Ok(self.response_done())
    }

    /// Queues the tasks in order, up to the first that is refused.
    fn queue_tasks(&mut self, mut tasks: TaskList) -> Result<()>
        requires { IsOpen self.old.output }
        ensures ok { OnOk result (AreQueued self.old tasks self.new) }
        ensures err { IfErr result (StopsAt self.old tasks self.new) }
    {
        // read, so that its range is known
        let _bytes = self.body_bytes;
        while let Some(task) = tasks.take_first() {
            self.queue_task(task)?;
        }
        Ok(())
    }

    /// Queues a task.
    fn queue_task(&mut self, task: HttpTask) -> Result<()>
        ensures ok { OnOk result (IsQueued self.old task self.new) }
        ensures err { IfErr result (FailsOn self.old.output self.old task self.new) }
    {
        // read, so that its range is known
        let _bytes = self.body_bytes;
        match task {
            HttpTask::Header(head, ends) => self.queue_head(head, ends),
            HttpTask::Body(piece, ends) => self.queue_piece(bytes_of(piece), ends),
            HttpTask::UpgradedBody(piece, ends) => self.queue_piece(bytes_of(piece), ends),
            HttpTask::Trailer(_) => self.queue_end(),
            HttpTask::Done => self.queue_end(),
            HttpTask::Failed(error) => Err(self.failure(error)),
        }
    }

    /// The failure of a call on which that error came.
    fn failure(&self, error: Error) -> Fail
        ensures { IsFailure self.now.output (Some error) result }
    {
        match &self.output {
            Outgoing::Open(_) => Fail::Error(error),
            Outgoing::Broken(fault) => Fail::Error(error_of(*fault)),
        }
    }

    fn queue_head(&mut self, head: ResponseHeader, ends: bool) -> Result<()>
        ensures { Takes self.old.output (head_at self.old.request self.old.place head ends)
            (head_refusal_at self.old.request self.old.place head ends)
            (HeadGoesOnAt self.old.request self.old.place head ends) self.old self.new result }
    {
        match &mut self.output {
            Outgoing::Broken(fault) => Err(Fail::Error(error_of(*fault))),
            Outgoing::Open(queue) => {
                let pushed = push_head_at(&self.request, self.place, queue, head, ends)?;
                self.place = pushed.place;
                self.closes |= pushed.closes;
                self.body_bytes = self.body_bytes.saturating_add(pushed.counted);
                passed(pushed.refused)
            }
        }
    }

    fn queue_piece(&mut self, piece: Bytes, ends: bool) -> Result<()>
        ensures { Takes self.old.output (piece_at self.old.place piece ends)
            (piece_refusal_at self.old.place piece ends)
            (PieceGoesOnAt self.old.place piece ends) self.old self.new result }
    {
        match &mut self.output {
            Outgoing::Broken(fault) => Err(Fail::Error(error_of(*fault))),
            Outgoing::Open(queue) => {
                let pushed = push_piece_at(self.place, queue, piece, ends)?;
                self.place = pushed.place;
                self.closes |= pushed.closes;
                self.body_bytes = self.body_bytes.saturating_add(pushed.counted);
                passed(pushed.refused)
            }
        }
    }

    /// Queues the end of the body.
    fn queue_end(&mut self) -> Result<()>
        ensures { Takes self.old.output (piece_at self.old.place [] true)
            (piece_refusal_at self.old.place [] true)
            (PieceGoesOnAt self.old.place [] true) self.old self.new result }
    {
        self.queue_piece(Bytes::new(), true)
    }
}

/// Ok where there is no refusal.
fn passed(refused: Option<Error>) -> Result<()>
    ensures { result ≡ passed refused }
{
    match refused {
        None => Ok(()),
        Some(error) => Err(Fail::Error(error)),
    }
}

/// The error of a session whose write failed so.
fn error_of(fault: Fault) -> Error
    ensures { result ≡ error_of fault }
{
    Error::of_fault(fault).into_down()
}

/// The bytes of a piece, which may be none.
fn bytes_of(piece: Option<Bytes>) -> Bytes
    ensures { result ≡ bytes_of piece }
{
    match piece {
        Some(bytes) => bytes,
        None => Bytes::new(),
    }
}
