//! A session without its modules: what hooks may see and change of it.
ghost use Rattle.std.specs.Prelude.{◌≡◌, ◌++◌, [], true, false, None, Some, IsSome, IfOk, IfErr, OnOk, IsOkUnless};
ghost use Rattle.std.specs.Borrow.{sem};
ghost use Rattle.relay_tasks.specs.Head.{IsStatus};
ghost use Rattle.relay_session.specs.Reading.{head_of};
ghost use Rattle.relay_session.specs.Generated.{answer_tasks, body_answer_tasks, AnswersText};
ghost use Rattle.relay_session.specs.Response.{is_over};

use bytes::Bytes;
use relay_session::{HttpSession, answer_with_body, generated_head};
use relay_tasks::{Fail, HttpTask, PhaseLog, RequestHeader, Result, SharedRequest, TaskList, View};
use std::alloc::Global;
use std::mem;

/// What is counted of the last attempt: the bytes of the response's body that were received, and
/// those of the request's body that were sent where its link tells.
#[derive(Clone, Copy, Debug, PartialEq, Eq)]
pub struct Upstream {
    pub received: u64,
    pub sent: Option<u64>,
}

/// A session without its modules.
///
/// `touched` says that the request's head was lent to be changed since it was last cleared.
/// `keepalive` says whether the client may be kept for a next request. `kept` are the tasks that
/// wait for `write_downstream_proxy_tasks`, `wrote` those that calls of `Session` queued since it
/// was last cleared.
#[derive(Drop)]
pub struct Seen {
    pub alloc: Global,
    pub downstream: HttpSession,
    pub touched: bool,
    pub keepalive: bool,
    pub log: PhaseLog,
    pub kept: TaskList,
    pub wrote: TaskList,
    pub tasks_enabled: bool,
    pub headers_mutated: bool,
    pub shutting_down: bool,
    pub may_spawn: bool,
    pub upstream: Upstream,
}

impl Seen {
    ghost use Rattle.relay_modules.specs.Seen.{IsNew, view_of, Queues, CannotQueue, Notes, FailsToNote, Responds, RespondsWith};
    ghost use Rattle.relay_modules.specs.Lent.{LendsHead};

    /// A session before its request, or behind a head that its caller read. The client may be kept,
    /// the task API is off, and nothing was counted. It has taken no memory.
    pub fn new(alloc: Global, downstream: HttpSession) -> Seen
        ensures { IsNew downstream result }
    {
        Seen {
            alloc,
            downstream,
            touched: false,
            keepalive: true,
            log: PhaseLog::new(alloc),
            kept: TaskList::new(alloc),
            wrote: TaskList::new(alloc),
            tasks_enabled: false,
            headers_mutated: false,
            shutting_down: false,
            may_spawn: false,
            upstream: Upstream {
                received: 0,
                sent: None,
            },
        }
    }

    /// What a log entry shows of the session. It offers no upgrade.
    #[inline(always)]
    pub fn view(&self) -> View
        ensures { result ≡ view_of self.now }
    {
        View {
            final_head: self.downstream.response_written(),
            truncated: self.downstream.retry_buffer_truncated(),
            upgraded: false,
        }
    }

    /// The request's head.
    pub fn req_header(&self) -> &RequestHeader
        requires { IsSome (head_of self.now.downstream.reading) }
        ensures { head_of self.now.downstream.reading ≡ Some result.now }
    {
        self.downstream.req_header()
    }

    /// The request's head as it stands, to be held by many: it is copied by the first call behind a
    /// change, and by no other.
    ///
    /// Fails out of memory alone.
    #[inline(always)]
    pub fn share_req_header(&mut self) -> Result<SharedRequest>
        requires { IsSome (head_of self.old.downstream.reading) }
        ensures ok { IfOk result (λ shared. head_of self.old.downstream.reading ≡ Some shared) }
        ensures memory { IsOkUnless result Fail.OutOfMemory }
        ensures same { self.new ≡ self.old }
    {
        self.downstream.share_req_header()
    }

    /// The request's head, to be changed; the session counts as touched from now on. The response
    /// answers the request as it came.
    pub fn req_header_mut(&mut self) -> &mut RequestHeader
        requires { IsSome (head_of self.old.downstream.reading) }
        ensures* writes_back { sem 𝓛 (LendsHead self.entry result) }
        ensures value { head_of self.old.downstream.reading ≡ Some result.now }
    {
        self.touched = true;
        self.downstream.req_header_mut()
    }

    /// What a call of a hook begins with: the head counts as untouched, and nothing as queued.
    #[inline(always)]
    pub fn begin_call(&mut self)
        ensures { self.new ≡ record self.old { touched = false; wrote = [] } }
    {
        self.touched = false;
        if !self.wrote.is_empty() {
            self.wrote = TaskList::new(self.alloc);
        }
    }

    /// The tasks that were noted as queued, of which none is noted then.
    #[inline(always)]
    pub fn take_wrote(&mut self) -> TaskList
        ensures tasks { result ≡ self.old.wrote }
        ensures rest { self.new ≡ record self.old { wrote = [] } }
    {
        mem::replace(&mut self.wrote, TaskList::new(self.alloc))
    }

    /// Queues the tasks of a response in order, and answers whether the response is over then. They
    /// are not noted.
    ///
    /// Refused as in `HttpSession::response_duplex_vec`, which says what stays queued.
    pub fn queue_tasks(&mut self, tasks: TaskList) -> Result<bool>
        ensures over { IfOk result (λ over. over ≡ is_over self.new.downstream.writing.place) }
        ensures ok { OnOk result (Queues tasks self.old self.new) }
        ensures err { IfErr result (CannotQueue tasks self.old self.new) }
    {
        self.downstream.response_duplex_vec(tasks)
    }

    /// As `queue_tasks`, and notes the tasks where they were queued. Memory for the note comes
    /// first, so where it is wanted nothing is queued.
    pub(crate) fn note_tasks(&mut self, tasks: TaskList) -> Result<bool>
        ensures over { IfOk result (λ over. over ≡ is_over self.new.downstream.writing.place) }
        ensures ok { OnOk result (Notes tasks self.old self.new) }
        ensures err { IfErr result (FailsToNote tasks self.old self.new) }
    {
        let wrote = noted(&self.wrote, &tasks)?;
        let over = self.queue_tasks(tasks)?;
        self.wrote = wrote;
        Ok(over)
    }

    /// Queues the answer with that status, from 100 to 999, that has no body, as the relay makes it
    /// itself, and notes it. Behind a final head it gives nothing and is Ok.
    pub(crate) fn respond_error(&mut self, code: u16) -> Result<()>
        requires { IsStatus code }
        ensures answers { Responds (answer_tasks self.old.downstream.writing.place code) result
            self.old self.new }
        ensures text { OnOk result (AnswersText code self.old.downstream.writing
            self.new.downstream.writing) }
    {
        let answer = self.answer(code)?;
        let wrote = noted(&self.wrote, &answer)?;
        self.downstream.respond_error(code)?;
        self.wrote = wrote;
        Ok(())
    }

    /// As `respond_error`, with that body.
    pub(crate) fn respond_error_with_body(&mut self, code: u16, body: Bytes) -> Result<()>
        requires { IsStatus code }
        ensures answers { RespondsWith
            (body_answer_tasks self.old.downstream.writing.place code body) result self.old
            self.new }
    {
        let answer = self.answer_with_body(code, &body)?;
        let wrote = noted(&self.wrote, &answer)?;
        self.downstream.respond_error_with_body(code, body)?;
        self.wrote = wrote;
        Ok(())
    }

    /// The tasks of an answer without a body.
    fn answer(&self, code: u16) -> Result<TaskList>
        requires { IsStatus code }
        ensures ok { IfOk result (λ tasks. tasks
            ≡ answer_tasks self.now.downstream.writing.place code) }
        ensures memory { IsOkUnless result Fail.OutOfMemory }
    {
        let mut tasks = TaskList::new(self.alloc);
        if self.downstream.response_written() {
            return Ok(tasks);
        }
        let head = generated_head(self.alloc, code, 0)?;
        tasks.push(HttpTask::Header(head, true))?;
        Ok(tasks)
    }

    /// The tasks of an answer with that body.
    fn answer_with_body(&self, code: u16, body: &Bytes) -> Result<TaskList>
        requires { IsStatus code }
        ensures ok { IfOk result (λ tasks. tasks
            ≡ body_answer_tasks self.now.downstream.writing.place code body.now) }
        ensures memory { IsOkUnless result Fail.OutOfMemory }
    {
        if self.downstream.response_written() {
            return Ok(TaskList::new(self.alloc));
        }
        answer_with_body(self.alloc, code, body.clone()?)
    }
}

/// Those tasks, with more behind them.
fn noted(wrote: &TaskList, more: &TaskList) -> Result<TaskList>
    ensures ok { IfOk result (λ all. all ≡ wrote.now ++ more.now) }
    ensures memory { IsOkUnless result Fail.OutOfMemory }
{
    let mut all = wrote.copy()?;
    let mut rest = more.copy()?;
    while let Some(task) = rest.take_first() {
        all.push(task)?;
    }
    Ok(all)
}
