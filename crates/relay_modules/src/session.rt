//! The session that hooks are given: the client's, and the modules of its request.
ghost use Rattle.std.specs.Prelude.{◌≡◌, ◌==◌, ◌&&◌, ◌∷◌, [], not, length, true, false, None, Some, IsSome, IfOk, IfErr, OnOk, OnErr};
ghost use Rattle.std.specs.Borrow.{sem};
ghost use Rattle.relay_tasks.specs.Head.{IsStatus};
ghost use Rattle.relay_session.specs.Reading.{head_of};
ghost use Rattle.relay_session.specs.Generated.{answer_tasks, body_answer_tasks, AnswersText};
ghost use Rattle.relay_session.specs.Response.{is_over};
ghost use Rattle.relay_modules.specs.Module.{ModuleCall, AllowsMade};
ghost use Rattle.relay_modules.specs.Filtering.{WritesBatch, FailsToWrite, KeepsTask, FailsToKeep, FiltersRequest};
ghost use Rattle.relay_modules.specs.Seen.{IsNew, Responds, RespondsWith, FailsToNote, WritesKept, is_due, keeps_none};

use crate::filtering::{filter_task, filter_tasks};
use crate::module::{HttpModule, NoModules};
use crate::seen::Seen;
use bytes::Bytes;
use relay_session::HttpSession;
use relay_tasks::{
    Context, Error, ErrorType, Fail, HttpTask, PhaseLog, RequestHeader, ResponseHeader, Result,
    TaskList,
};
use std::alloc::Global;
use std::mem;

/// The session of a request: what hooks see of it, and its modules once they were made. A call that
/// takes tasks passes them through the modules first; before they were made no module filters, and
/// tasks pass as they are.
#[derive(Drop)]
pub struct Session<M> {
    pub seen: Seen,
    pub modules: Option<M>,
}

impl Session<NoModules> {
    /// The session of a client on an HTTP/1 link, without modules.
    pub fn new_h1(alloc: Global, downstream: HttpSession) -> Session<NoModules>
        ensures { IsNew downstream result.seen }
    {
        Session::new_h1_with_modules(alloc, downstream, NoModules)
    }
}

impl<M: HttpModule> Session<M> {
    ghost use Rattle.relay_modules.specs.Lent.{lends_head, lends_client};

    /// The session of a client on an HTTP/1 link, with those modules. The client may be kept, the
    /// task API is off, and nothing was counted.
    pub fn new_h1_with_modules(alloc: Global, downstream: HttpSession, modules: M) -> Session<M>
        ensures seen { IsNew downstream result.seen }
        ensures modules { result.modules ≡ Some modules }
    {
        Session {
            seen: Seen::new(alloc, downstream),
            modules: Some(modules),
        }
    }

    /// The session of a client on an HTTP/1 link, of which no modules were made yet: as behind
    /// `new_h1_with_modules`, but that no module filters.
    pub fn new_h1_unmade(alloc: Global, downstream: HttpSession) -> Session<M>
        ensures seen { IsNew downstream result.seen }
        ensures modules { result.modules ≡ None }
    {
        Session {
            seen: Seen::new(alloc, downstream),
            modules: None,
        }
    }

    /// The client's session.
    pub fn as_downstream(&self) -> &HttpSession
        ensures { result.now ≡ self.now.seen.downstream }
    {
        &self.seen.downstream
    }

    /// The request's head.
    pub fn req_header(&self) -> &RequestHeader
        requires { IsSome (head_of self.now.seen.downstream.reading) }
        ensures { head_of self.now.seen.downstream.reading ≡ Some result.now }
    {
        self.seen.req_header()
    }

    /// The client's session, to be changed. What it queues by itself passes no module and is not
    /// noted.
    pub fn as_downstream_mut(&mut self) -> &mut HttpSession
        ensures* writes_back { sem 𝓛 (lends_client M.row self.entry result) }
        ensures value { result.now ≡ self.old.seen.downstream }
    {
        let seen = &mut self.seen;
        &mut seen.downstream
    }

    /// The request's head, to be changed; the session counts as touched from now on. The response
    /// answers the request as it came.
    pub fn req_header_mut(&mut self) -> &mut RequestHeader
        requires { IsSome (head_of self.old.seen.downstream.reading) }
        ensures* writes_back { sem 𝓛 (lends_head M.row self.entry result) }
        ensures value { head_of self.old.seen.downstream.reading ≡ Some result.now }
    {
        self.seen.req_header_mut()
    }

    /// The calls of hooks and modules so far.
    pub fn phase_log(&self) -> &PhaseLog
        ensures { result.now ≡ self.now.seen.log }
    {
        &self.seen.log
    }

    /// Passes the head of the request through the modules. The session counts as touched then.
    ///
    /// The error of the filter; what it made of the head stands.
    pub fn filter_request_header(&mut self) -> Result<()>
        requires { IsSome (head_of self.old.seen.downstream.reading) }
        ensures filters { FiltersRequest (AllowsMade M.allows self.old.modules) result self.old.seen
            self.new.seen }
        ensures narrows { (call : ModuleCall) → AllowsMade M.allows self.new.modules call
            → AllowsMade M.allows self.old.modules call }
    {
        let Session { seen, modules } = self;
        modules.request_header_filter(seen.req_header_mut())
    }

    /// Passes a head of the response through the modules, and queues what they made of it. `end`
    /// says that the response ends with it.
    ///
    /// Refused as in `write_response_tasks`.
    pub fn write_response_header(&mut self, head: ResponseHeader, end: bool) -> Result<()>
        ensures ok { OnOk result (WritesBatch (AllowsMade M.allows self.old.modules)
            (HttpTask.Header head end ∷ []) self.old.seen self.new.seen) }
        ensures err { IfErr result (FailsToWrite (AllowsMade M.allows self.old.modules)
            (HttpTask.Header head end ∷ []) self.old.seen self.new.seen) }
        ensures narrows { (call : ModuleCall) → AllowsMade M.allows self.new.modules call
            → AllowsMade M.allows self.old.modules call }
    {
        self.write_one(HttpTask::Header(head, end))
    }

    /// As `write_response_header`, and the head stays with its caller.
    pub fn write_response_header_ref(&mut self, head: &ResponseHeader, end: bool) -> Result<()>
        ensures ok { OnOk result (WritesBatch (AllowsMade M.allows self.old.modules)
            (HttpTask.Header head.now end ∷ []) self.old.seen self.new.seen) }
        ensures err { IfErr result (FailsToWrite (AllowsMade M.allows self.old.modules)
            (HttpTask.Header head.now end ∷ []) self.old.seen self.new.seen) }
        ensures narrows { (call : ModuleCall) → AllowsMade M.allows self.new.modules call
            → AllowsMade M.allows self.old.modules call }
    {
        let head = head.copy()?;
        self.write_one(HttpTask::Header(head, end))
    }

    /// Passes a piece of the response's body through the modules, and queues what they made of it,
    /// with the end of the body where `end` says so. No piece without the end gives nothing.
    ///
    /// Refused as in `write_response_tasks`.
    pub fn write_response_body(&mut self, body: Option<Bytes>, end: bool) -> Result<()>
        ensures ok { OnOk result (WritesBatch (AllowsMade M.allows self.old.modules)
            (HttpTask.Body body end ∷ []) self.old.seen self.new.seen) }
        ensures err { IfErr result (FailsToWrite (AllowsMade M.allows self.old.modules)
            (HttpTask.Body body end ∷ []) self.old.seen self.new.seen) }
        ensures narrows { (call : ModuleCall) → AllowsMade M.allows self.new.modules call
            → AllowsMade M.allows self.old.modules call }
    {
        self.write_one(HttpTask::Body(body, end))
    }

    /// A batch of one task.
    fn write_one(&mut self, task: HttpTask) -> Result<()>
        ensures ok { OnOk result (WritesBatch (AllowsMade M.allows self.old.modules) (task ∷ [])
            self.old.seen self.new.seen) }
        ensures err { IfErr result (FailsToWrite (AllowsMade M.allows self.old.modules)
            (task ∷ []) self.old.seen self.new.seen) }
        ensures narrows { (call : ModuleCall) → AllowsMade M.allows self.new.modules call
            → AllowsMade M.allows self.old.modules call }
    {
        let mut tasks = TaskList::new(self.seen.alloc);
        tasks.push(task)?;
        self.write_response_tasks(tasks)?;
        Ok(())
    }

    /// Passes the tasks of a response through the modules, all of them in order, and then queues
    /// what the modules made of them: all of it or nothing. Answers whether the response is over
    /// then.
    ///
    /// The error of the first filter that answers one, or the refusal of what it made
    /// (`filter_task`); once all passed, as in `Seen::queue_tasks`. Then, and where memory is
    /// wanted, the modules alone have changed.
    pub fn write_response_tasks(&mut self, tasks: TaskList) -> Result<bool>
        ensures over { IfOk result
            (λ over. over ≡ is_over self.new.seen.downstream.writing.place) }
        ensures ok { OnOk result (WritesBatch (AllowsMade M.allows self.old.modules) tasks
            self.old.seen self.new.seen) }
        ensures err { IfErr result (FailsToWrite (AllowsMade M.allows self.old.modules)
            tasks self.old.seen self.new.seen) }
        ensures narrows { (call : ModuleCall) → AllowsMade M.allows self.new.modules call
            → AllowsMade M.allows self.old.modules call }
    {
        let made = filter_tasks(self.seen.alloc, &mut self.modules, tasks)?;
        self.seen.note_tasks(made)
    }

    /// Queues the answer with that status, from 100 to 999, that has no body, as the relay makes it
    /// itself; no module sees it. Behind a final head it gives nothing and is Ok.
    ///
    /// Refused as in `HttpSession::respond_error`.
    pub fn respond_error(&mut self, code: u16) -> Result<()>
        requires { IsStatus code }
        ensures answers { Responds
            (answer_tasks self.old.seen.downstream.writing.place code) result self.old.seen
            self.new.seen }
        ensures text { OnOk result (AnswersText code self.old.seen.downstream.writing
            self.new.seen.downstream.writing) }
        ensures modules { self.new.modules ≡ self.old.modules }
    {
        self.seen.respond_error(code)
    }

    /// Queues the answer with that status, from 100 to 999, and that body, as the relay makes it
    /// itself; no module sees it. Behind a final head it gives nothing and is Ok.
    ///
    /// Refused as in `HttpSession::respond_error_with_body`.
    pub fn respond_error_with_body(&mut self, code: u16, body: Bytes) -> Result<()>
        requires { IsStatus code }
        ensures answers { RespondsWith
            (body_answer_tasks self.old.seen.downstream.writing.place code body) result
            self.old.seen self.new.seen }
        ensures modules { self.new.modules ≡ self.old.modules }
    {
        self.seen.respond_error_with_body(code, body)
    }

    /// Turns the task API on or off. It is off at first.
    pub fn set_proxy_tasks_enabled(&mut self, enabled: bool)
        ensures { self.new
            ≡ record self.old { seen = record self.old.seen { tasks_enabled = enabled } } }
    {
        self.seen.tasks_enabled = enabled;
    }

    /// Whether tasks wait for `write_downstream_proxy_tasks`.
    pub fn has_pending_downstream_tasks(&self) -> bool
        ensures { result ≡ not (length self.now.seen.kept == 0) }
    {
        !self.seen.kept.is_empty()
    }

    /// Passes a task through the modules, and keeps what they made of it for
    /// `write_downstream_proxy_tasks`.
    ///
    /// `WriteError` of the relay's own side, about `NoTaskApi`: exactly where the task API is off;
    /// no module sees the task then. Else the error of the filter, or the refusal of what it made
    /// (`filter_task`). Then, and where memory is wanted, nothing is kept of it.
    pub fn send_downstream_proxy_task(&mut self, task: HttpTask) -> Result<()>
        ensures ok { OnOk result (KeepsTask (AllowsMade M.allows self.old.modules) task
            self.old.seen self.new.seen) }
        ensures err { IfErr result (FailsToKeep (AllowsMade M.allows self.old.modules) task
            self.old.seen) }
        ensures kept { OnErr result (self.new.seen ≡ self.old.seen) }
        ensures off { self.old.seen.tasks_enabled ≡ false → self.new.modules ≡ self.old.modules }
        ensures narrows { (call : ModuleCall) → AllowsMade M.allows self.new.modules call
            → AllowsMade M.allows self.old.modules call }
    {
        if !self.seen.tasks_enabled {
            let error = Error::explain(ErrorType::WriteError, Context::NoTaskApi);
            return Err(Fail::Error(error.into_in()));
        }
        let made = filter_task(&mut self.modules, task)?;
        self.seen.kept.push(made)
    }

    /// Queues the tasks that were kept, and keeps none then. Answers whether the response is over,
    /// and false where none was kept or the task API is off; nothing changes then.
    ///
    /// Refused as in `Seen::queue_tasks`; the tasks that were kept are gone then.
    pub fn write_downstream_proxy_tasks(&mut self) -> Result<bool>
        ensures over { IfOk result (λ over. over
            ≡ (is_due self.old.seen && is_over self.new.seen.downstream.writing.place)) }
        ensures ok { OnOk result (WritesKept (is_due self.old.seen) self.old.seen self.new.seen) }
        ensures err { IfErr result (FailsToNote self.old.seen.kept (keeps_none self.old.seen)
            self.new.seen) }
        ensures modules { self.new.modules ≡ self.old.modules }
    {
        if !self.seen.tasks_enabled || self.seen.kept.is_empty() {
            return Ok(false);
        }
        let kept = mem::replace(&mut self.seen.kept, TaskList::new(self.seen.alloc));
        self.seen.note_tasks(kept)
    }

    /// Sets whether the client may be kept for a next request.
    pub fn set_keepalive(&mut self, on: bool)
        ensures { self.new ≡ record self.old { seen = record self.old.seen { keepalive = on } } }
    {
        self.seen.keepalive = on;
    }

    /// Says that the upstream's head was changed for the cache.
    pub fn mark_upstream_headers_mutated_for_cache(&mut self)
        ensures { self.new
            ≡ record self.old { seen = record self.old.seen { headers_mutated = true } } }
    {
        self.seen.headers_mutated = true;
    }

    /// Whether `mark_upstream_headers_mutated_for_cache` was called.
    pub fn upstream_headers_mutated_for_cache(&self) -> bool
        ensures { result ≡ self.now.seen.headers_mutated }
    {
        self.seen.headers_mutated
    }

    /// How many bytes of the response's body the last attempt received.
    pub fn upstream_body_bytes_received(&self) -> u64
        ensures { result ≡ self.now.seen.upstream.received }
    {
        self.seen.upstream.received
    }

    /// How many bytes of the request's body the last attempt sent, where its link tells.
    pub fn upstream_body_bytes_sent(&self) -> Option<u64>
        ensures { result ≡ self.now.seen.upstream.sent }
    {
        self.seen.upstream.sent
    }

    /// How long writes of the last attempt waited, which is not measured: 0.
    pub fn upstream_write_pending_time(&self) -> u64
        ensures { result ≡ 0 }
    {
        0
    }

    /// Whether the process was told to end when the request began.
    pub fn is_process_shutting_down(&self) -> bool
        ensures { result ≡ self.now.seen.shutting_down }
    {
        self.seen.shutting_down
    }

    /// Whether the request may make requests of its own.
    pub fn may_spawn_subrequest(&self) -> bool
        ensures { result ≡ self.now.seen.may_spawn }
    {
        self.seen.may_spawn
    }
}
