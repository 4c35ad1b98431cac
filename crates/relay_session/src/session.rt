//! The session of one request with its client, without the client's link (RFC 9112, section 9.2):
//! the request that is read, and the response that answers it.
ghost use Rattle.std.specs.Prelude.{◌≡◌, ◌↔◌, ℕ, List, [], ◌∷◌, ◌++◌, take, drop, ◌&&◌, ◌==◌, ◌<◌, ◌≤◌, ◌⊎◌, not, true, false, length, min, Some, None, IsSome, IsTrue, IfOk, IfErr, OnOk, OnErr, IsOkUnless};
ghost use Rattle.std.specs.Borrow.{sem};
ghost use Rattle.relay_tasks.specs.declared.task.HttpTask.{HttpTask};
ghost use Rattle.relay_tasks.specs.Head.{RequestHead, IsStatus};
ghost use Rattle.relay_links.specs.Count.{last_count};
ghost use Rattle.relay_h1.specs.BodyReader.{first_state, is_done};
ghost use Rattle.relay_h1.specs.Move.{taken};
ghost use Rattle.relay_h1.specs.Verdict.{HasRequest};
ghost use Rattle.relay_session.specs.Front.{Watches, ends_with_head};
ghost use Rattle.relay_session.specs.declared.writing.Outgoing.TheVariants.{Open};
ghost use Rattle.relay_session.specs.HeadLent.{LendsSessionHead};
ghost use Rattle.relay_session.specs.Asked.{is_head, request_of, unread};
ghost use Rattle.relay_session.specs.Session.{AnswersRead, AnswersTo, may_begin_again, lets_ask_again};
ghost use Rattle.relay_session.specs.Replay.{most_kept, retry_buffer};
ghost use Rattle.relay_session.specs.declared.replay.Replay.TheVariants as Replay;
ghost use Rattle.relay_session.specs.Reading.{head_of, with_head, replay_of, is_body_done, is_body_empty, is_kept, is_truncated, received, RequestSoFar, IsWhole, IsItem, ReadsOn, ReadsRest, ReadsLink, EndsBy};
ghost use Rattle.relay_session.specs.Summary.{without_body_fields, request_summary};
ghost use Rattle.relay_session.specs.TaskWire.{refusal};
ghost use Rattle.relay_session.specs.Generated.{answer_tasks, body_answer_tasks, AnswersText, IsFaultOrMemory};
ghost use Rattle.relay_session.specs.Response.{Holds, IsQueued, AreQueued, IsFailure, FailsOn, has_head, is_over, pending, MayWrite, WritesPending, FailsWithin, FailsBatch};

use crate::front::Front;
use crate::reading::Reading;
use crate::summary::request_summary;
use crate::task_text::Request;
use crate::writing::Writing;
use bytes::Bytes;
use relay_h1::Framing;
use relay_links::Put;
use relay_tasks::{Fail, RequestHeader, ResponseHeader, Result, SharedRequest, TaskList, Took};
use std::alloc::Global;

/// The session of one request with its client. What it knows of the request is told by all bytes
/// that the client gave since the session began, those that were ahead then first. The response
/// answers that request, as it came.
///
/// The calls of the response queue its text, and `write_pending` offers to the client what waits.
/// From the first write that fails each of them answers that fault, and nothing waits.
#[derive(Drop)]
pub struct HttpSession {
    reading: Reading,
    writing: Writing,
}

impl HttpSession {
    /// The session of a client on an HTTP/1 link, before its request. It has taken no memory.
    pub fn new_http1(alloc: Global) -> HttpSession
        ensures head { head_of result.reading ≡ None }
        ensures starts { (ahead : List ℕ) → RequestSoFar ahead [] ahead result.reading }
        ensures answers { (given : List ℕ) → AnswersRead given result.reading result.writing }
        ensures response { Holds result.writing [] [] }
    {
        HttpSession {
            reading: Reading::new(),
            writing: Writing::new(alloc, Request::unread()),
        }
    }

    /// The session of a client on an HTTP/1 link whose request has that head, with that framing: its
    /// caller read it and judged it, and has consumed it. The body is to be read, unless the framing
    /// has none. It has taken no memory.
    pub fn begun_http1(alloc: Global, head: RequestHeader, framing: Framing) -> HttpSession
        ensures head { head_of result.reading ≡ Some head }
        ensures done { is_body_done result.reading ≡ is_done (first_state framing) }
        ensures kept { is_kept result.reading ≡ true }
        ensures empty { is_body_empty result.reading ≡ ends_with_head framing }
        ensures starts { (given : List ℕ) (len : ℕ) → HasRequest given head framing len
            → RequestSoFar given [] (drop len given) result.reading }
        ensures whole { (given : List ℕ) (len : ℕ) → HasRequest given head framing len
            → is_body_done result.reading ≡ true → IsWhole given [] (drop len given) }
        ensures answers { result.writing.request ≡ request_of head }
        ensures response { Holds result.writing [] [] }
        ensures output { result.writing.output ≡ Open [] }
    {
        let request = Request::of(&head);
        HttpSession {
            reading: Reading::of_request(alloc, head, framing),
            writing: Writing::new(alloc, request),
        }
    }

    /// Reads the head. `Item` once it stands, and at each later call, which does nothing; `More`
    /// where bytes came and it is still open; `End` where the client ended before any byte. Once
    /// it stands the response answers its request; what was queued before answers a request of
    /// HTTP/1.1 that is no HEAD.
    ///
    /// All of the source `Downstream`: `InvalidHTTPHeader` (the head is refused),
    /// `ConnectionClosed` (the client ended inside it), and the fault of the link. Where memory is
    /// wanted, what came stays ahead.
    pub fn read_request<F: Front>(&mut self, alloc: Global, client: &mut F) -> Took<()>
        ensures goes { (given body : List ℕ)
            → RequestSoFar given body (F.ahead client.old) self.old.reading
            → ReadsOn (F.state client.old) (F.state client.new) given body (F.ahead client.new)
            self.old.reading self.new.reading result }
        ensures begins { head_of self.old.reading ≡ None → IsSome (head_of self.new.reading)
            → IsItem result }
        ensures again { IsSome (head_of self.old.reading)
            → IsItem result × (self.new ≡ self.old) × (client.new ≡ client.old) }
        ensures answers { (given body : List ℕ) (reads : ReadsOn (F.state client.old)
            (F.state client.new) given body (F.ahead client.new) self.old.reading self.new.reading
            result) → AnswersRead given self.old.reading self.old.writing
            → AnswersRead (given ++ reads.came) self.new.reading self.new.writing }
        ensures sets { head_of self.old.reading ≡ None
            → AnswersTo (head_of self.new.reading) self.old.writing self.new.writing }
        ensures response { (sent : List ℕ) → Holds self.old.writing [] sent
            → Holds self.new.writing [] sent }
        ensures start { F.start client.new ≡ F.start client.old }
    {
        if self.reading.has_head() {
            return Took::Item(());
        }
        let took = self.reading.read_request(alloc, client);
        self.answer_head();
        took
    }

    /// Once a head was read, the response answers its request.
    fn answer_head(&mut self)
        ensures reading { self.new.reading ≡ self.old.reading }
        ensures sets { AnswersTo (head_of self.old.reading) self.old.writing self.new.writing }
        ensures response { (sent : List ℕ) → Holds self.old.writing [] sent
            → Holds self.new.writing [] sent }
    {
        if self.reading.has_head() {
            self.writing
                .answer_to(Request::of(self.reading.req_header()));
        }
    }

    /// Reads the body: a piece, one byte at least; `More` where bytes came that hold none; `End`
    /// where the body has ended. With `idle`, a client whose body has ended is to be still: it is
    /// read, and nothing that it sends is consumed.
    ///
    /// All of the source `Downstream`: `InvalidHTTPHeader` (the body is broken), `ConnectionClosed`
    /// (the client ended inside its body; or it is to be still, and sent more or ended), and the
    /// fault of the link. Where memory is wanted, no byte of the body is lost.
    pub fn read_body_or_idle<F: Front>(
        &mut self,
        alloc: Global,
        client: &mut F,
        idle: bool,
    ) -> Took<Bytes>
        requires { IsSome (head_of self.old.reading) }
        ensures goes { (given body : List ℕ)
            → RequestSoFar given body (F.ahead client.old) self.old.reading
            → ReadsRest (F.state client.old) (F.state client.new) given body (F.ahead client.old)
            (F.ahead client.new) (idle && is_body_done self.old.reading) self.new.reading result }
        ensures link { ReadsLink (F.state client.old) (F.state client.new) result }
        ensures ends { idle && is_body_done self.old.reading ≡ false
            → EndsBy result (is_body_done self.new.reading) }
        ensures watches { idle && is_body_done self.old.reading ≡ true
            → Watches (F.state client.old) (F.state client.new) (F.ahead client.old)
            (F.ahead client.new) result }
        ensures head { head_of self.new.reading ≡ head_of self.old.reading }
        ensures empty { is_body_empty self.new.reading ≡ is_body_empty self.old.reading }
        ensures still { idle && is_body_done self.old.reading ≡ true → self.new ≡ self.old }
        ensures answers { (given came : List ℕ)
            → AnswersRead given self.old.reading self.old.writing
            → AnswersRead (given ++ came) self.new.reading self.new.writing }
        ensures response { self.new ≡ record self.old { reading = self.new.reading } }
        ensures start { F.start client.new ≡ F.start client.old }
    {
        self.reading.read_body_or_idle(alloc, client, idle)
    }

    /// Whether a head was read.
    pub fn has_head(&self) -> bool
        ensures { IsTrue result ↔ IsSome (head_of self.now.reading) }
    {
        self.reading.has_head()
    }

    /// The head that was read.
    pub fn req_header(&self) -> &RequestHeader
        requires { IsSome (head_of self.now.reading) }
        ensures { head_of self.now.reading ≡ Some result.now }
    {
        self.reading.req_header()
    }

    /// The head that was read, to be changed. How far the request has come stays, and the response
    /// answers the request as it came.
    pub fn req_header_mut(&mut self) -> &mut RequestHeader
        requires { IsSome (head_of self.old.reading) }
        ensures* writes_back { sem 𝓛 (LendsSessionHead self.entry result) }
        ensures value { head_of self.old.reading ≡ Some result.now }
        ensures keeps { (given body ahead : List ℕ) (head : RequestHead)
            → RequestSoFar given body ahead self.old.reading
            → RequestSoFar given body ahead (with_head self.old.reading head) }
        ensures answers { (given : List ℕ) (head : RequestHead)
            → AnswersRead given self.old.reading self.old.writing
            → AnswersRead given (with_head self.old.reading head) self.old.writing }
    {
        self.reading.req_header_mut()
    }

    /// The head that was read as it stands, to be held by many: it is copied by the first call
    /// behind a change, and by no other.
    ///
    /// Fails out of memory alone.
    #[inline(always)]
    pub fn share_req_header(&mut self) -> Result<SharedRequest>
        requires { IsSome (head_of self.old.reading) }
        ensures ok { IfOk result (λ shared. head_of self.old.reading ≡ Some shared) }
        ensures memory { IsOkUnless result Fail.OutOfMemory }
        ensures same { self.new ≡ self.old }
    {
        self.reading.share_req_header()
    }

    /// Removes Content-Length and Transfer-Encoding from the head that was read. How far the
    /// request has come stays, and the response answers the request as it came.
    pub fn clear_request_body_headers(&mut self)
        requires { IsSome (head_of self.old.reading) }
        ensures cleared { (head : RequestHead) → head_of self.old.reading ≡ Some head
            → self.new.reading ≡ with_head self.old.reading (without_body_fields head) }
        ensures some { IsSome (head_of self.new.reading) }
        ensures keeps { (given body ahead : List ℕ)
            → RequestSoFar given body ahead self.old.reading
            → RequestSoFar given body ahead self.new.reading }
        ensures answers { (given : List ℕ) → AnswersRead given self.old.reading self.old.writing
            → AnswersRead given self.new.reading self.new.writing }
        ensures response { self.new ≡ record self.old { reading = self.new.reading } }
    {
        self.reading.clear_body_fields()
    }

    /// The request in one line, for a log: its method, its target, and its first Host or nothing.
    /// The fields are those that stand in the head now.
    pub fn request_summary(&self, alloc: Global) -> Result<Vec<u8>>
        requires { IsSome (head_of self.now.reading) }
        ensures ok { IfOk result (λ text. (head : RequestHead)
            → head_of self.now.reading ≡ Some head → text.items ≡ request_summary head) }
        ensures memory { IsOkUnless result Fail.OutOfMemory }
    {
        request_summary(alloc, self.reading.req_header())
    }

    /// Whether the body has ended, and all of it was given out.
    pub fn is_body_done(&self) -> bool
        ensures value { result ≡ is_body_done self.now.reading }
        ensures told { (given body ahead : List ℕ) → RequestSoFar given body ahead self.now.reading
            → result ≡ true → IsWhole given body ahead }
    {
        self.reading.is_body_done()
    }

    /// Whether the head says that its body has no bytes. A body in chunks may have some.
    pub fn is_body_empty(&self) -> bool
        ensures { result ≡ is_body_empty self.now.reading }
    {
        self.reading.is_body_empty()
    }

    /// Whether the request lets its client ask for more on the connection: its body is done, it was
    /// of HTTP/1.1, and no Connection field had the option `close` (RFC 9112, section 9.3). The version
    /// and the option are those of the head as it came, whatever `req_header_mut` did since.
    pub fn lets_ask_again(&self) -> bool
        ensures { result ≡ lets_ask_again self.now }
    {
        self.reading.is_body_done() && self.writing.lets_ask()
    }

    /// Whether the request is a HEAD, by the head as it came, whatever `req_header_mut` did since.
    pub fn answers_head(&self) -> bool
        ensures { result ≡ is_head self.now.writing.request.method }
    {
        self.writing.answers_head()
    }

    /// Whether another attempt at the request may begin with the session: all bytes of the body that
    /// were given out are kept; no final head was queued, nothing waits, and no write failed.
    /// Informational heads may have been written (RFC 9110, sections 9.2.2 and 15.2).
    pub fn may_begin_again(&self) -> bool
        ensures { result ≡ may_begin_again self.now }
    {
        self.reading.is_kept() && self.writing.is_as_begun()
    }

    /// The bytes of the body that were given out so far, for another attempt to send them first.
    /// None where there are none, or where they are kept no longer.
    ///
    /// Fails out of memory alone.
    pub fn get_retry_buffer(&self, alloc: Global) -> Result<Option<Bytes>>
        ensures ok { IfOk result (λ bytes. bytes ≡ retry_buffer (replay_of self.now.reading)) }
        ensures memory { IsOkUnless result Fail.OutOfMemory }
    {
        self.reading.get_retry_buffer(alloc)
    }

    /// Whether bytes of the body were given out that are kept no longer: they are more than 65,536,
    /// or memory was wanted to keep them.
    pub fn retry_buffer_truncated(&self) -> bool
        ensures value { result ≡ is_truncated self.now.reading }
        ensures over { (given body ahead : List ℕ) → RequestSoFar given body ahead self.now.reading
            → result ≡ true → (most_kept < length body)
            ⊎ (replay_of self.now.reading ≡ Replay.Lost) }
        ensures within { (given body ahead : List ℕ)
            → RequestSoFar given body ahead self.now.reading
            → result ≡ false → length body ≤ most_kept }
    {
        self.reading.is_truncated()
    }

    /// How many bytes of the body were given out; the count stands still at its last value.
    pub fn body_bytes_received(&self) -> u64
        ensures value { result ≡ received self.now.reading }
        ensures told { (given body ahead : List ℕ) → RequestSoFar given body ahead self.now.reading
            → result ≡ min (length body) last_count }
    {
        self.reading.body_bytes_received()
    }

    /// Queues a head of the response. An informational head gives its text, and nothing for a
    /// client of HTTP/1.0; the first final head gives its text as the client gets it; a head behind
    /// that gives nothing.
    ///
    /// `InvalidHTTPHeader`, of the relay's own side: exactly where the framing of the first final
    /// head is refused. `WriteError` or `WriteTimedout`, of the client's side: exactly where a
    /// write failed so before. Then, and where memory is wanted, the session stays as it was.
    pub fn write_response_header(&mut self, head: ResponseHeader) -> Result<()>
        ensures ok { OnOk result
            (IsQueued self.old.writing (HttpTask.Header head false) self.new.writing) }
        ensures err { IfErr result (IsFailure self.old.writing.output
            (refusal self.old.writing.request self.old.writing.place
            (HttpTask.Header head false))) }
        ensures kept { OnErr result (self.new ≡ self.old) }
        ensures reading { self.new ≡ record self.old { writing = self.new.writing } }
    {
        self.writing.write_response_header(head)
    }

    /// Queues a piece of the response's body in the framing of the final head, and the end where
    /// the body ends with it: none past a length, and none before the final head or behind the end.
    ///
    /// `PrematureBodyEnd`, of the client's side: exactly where the end comes short of a length. The
    /// piece is queued then too, and the body stays open. `WriteError` or `WriteTimedout`, of the
    /// client's side: exactly where a write failed so before. Then, and where memory is wanted, the
    /// session stays as it was.
    pub fn write_response_body(&mut self, piece: Bytes, end: bool) -> Result<()>
        ensures ok { OnOk result
            (IsQueued self.old.writing (HttpTask.Body (Some piece) end) self.new.writing) }
        ensures err { IfErr result (FailsOn self.old.writing.output self.old.writing
            (HttpTask.Body (Some piece) end) self.new.writing) }
        ensures reading { self.new ≡ record self.old { writing = self.new.writing } }
    {
        self.writing.write_response_body(piece, end)
    }

    /// Queues the end of the response's body: the last chunk where it is chunked. It gives nothing
    /// before the final head and behind the end.
    ///
    /// Refused as in `write_response_body`; the session then stays as it was.
    pub fn finish_body(&mut self) -> Result<()>
        ensures ok { OnOk result
            (IsQueued self.old.writing HttpTask.Done self.new.writing) }
        ensures err { IfErr result (IsFailure self.old.writing.output
            (refusal self.old.writing.request self.old.writing.place HttpTask.Done)) }
        ensures kept { OnErr result (self.new ≡ self.old) }
        ensures reading { self.new ≡ record self.old { writing = self.new.writing } }
    {
        self.writing.finish_body()
    }

    /// Queues the tasks of a response in order, each as the calls above do; trailer fields give
    /// nothing and end the body. Answers whether the response is over then.
    ///
    /// `InvalidHTTPHeader`, of the relay's own side: exactly where the framing of the first final
    /// head is refused, and no failed task stands before it. This is looked at first, and none of
    /// the tasks is queued then. Else the first task that is refused ends the call, by the error of
    /// a `Failed` task or as in the calls above. What it and the tasks before it gave is queued; so
    /// is what the tasks before it gave where memory is wanted. `WriteError` or `WriteTimedout`, of
    /// the client's side: exactly where a write failed so before; the response then stays as it
    /// was.
    pub fn response_duplex_vec(&mut self, tasks: TaskList) -> Result<bool>
        ensures over { IfOk result (λ over. over ≡ is_over self.new.writing.place) }
        ensures ok { OnOk result (AreQueued self.old.writing tasks self.new.writing) }
        ensures err { IfErr result (FailsBatch self.old.writing.output self.old.writing tasks
            self.new.writing) }
        ensures reading { self.new ≡ record self.old { writing = self.new.writing } }
    {
        self.writing.response_duplex_vec(tasks)
    }

    /// Queues the answer with that status, from 100 to 999, that has no body, as the relay makes it
    /// itself. Behind a final head it gives nothing and is Ok. No head need have been read.
    ///
    /// `WriteError` or `WriteTimedout`, of the client's side: exactly where a write failed so
    /// before. Then, and where memory is wanted, the session stays as it was.
    pub fn respond_error(&mut self, code: u16) -> Result<()>
        requires { IsStatus code }
        ensures ok { OnOk result (AreQueued self.old.writing
            (answer_tasks self.old.writing.place code) self.new.writing) }
        ensures text { OnOk result (AnswersText code self.old.writing self.new.writing) }
        ensures err { IfErr result (IsFaultOrMemory self.old.writing.output) }
        ensures kept { OnErr result (self.new ≡ self.old) }
        ensures reading { self.new ≡ record self.old { writing = self.new.writing } }
    {
        self.writing.respond_error(code)
    }

    /// Queues the answer with that status, from 100 to 999, and that body, as the relay makes it
    /// itself; the body is not written where the answer has none, as for HEAD. Behind a final head
    /// it gives nothing and is Ok. No head need have been read.
    ///
    /// `WriteError` or `WriteTimedout`, of the client's side: exactly where a write failed so
    /// before; the response then stays as it was. Where memory is wanted, the head may be queued.
    pub fn respond_error_with_body(&mut self, code: u16, body: Bytes) -> Result<()>
        requires { IsStatus code }
        ensures ok { OnOk result (AreQueued self.old.writing
            (body_answer_tasks self.old.writing.place code body) self.new.writing) }
        ensures err { IfErr result (FailsWithin self.old.writing.output self.old.writing
            (body_answer_tasks self.old.writing.place code body) self.new.writing) }
        ensures memory { IfErr result (IsFaultOrMemory self.old.writing.output) }
        ensures reading { self.new ≡ record self.old { writing = self.new.writing } }
    {
        self.writing.respond_error_with_body(code, body)
    }

    /// One write to the client of the bytes that wait, which `has_pending` tells: it is offered
    /// those in front. What it takes leaves them. Where the write fails, its fault is kept and what
    /// waited is dropped; from then on this answers that fault without a write.
    pub fn write_pending<F: Front>(&mut self, client: &mut F) -> Put
        requires { MayWrite self.old.writing.output }
        ensures answer { WritesPending self.old.writing.output (F.state client.old)
            (F.state client.new) result self.new.writing.output }
        ensures keeps { (tasks : List HttpTask) (sent : List ℕ) → Holds self.old.writing tasks sent
            → Holds self.new.writing tasks
            (sent ++ take (taken result) (pending self.old.writing.output)) }
        ensures start { F.start client.new ≡ F.start client.old }
        ensures ahead { F.ahead client.new ≡ F.ahead client.old }
        ensures rest { self.new.writing
            ≡ record self.old.writing { output = self.new.writing.output } }
        ensures reading { self.new ≡ record self.old { writing = self.new.writing } }
    {
        self.writing.write_pending(client)
    }

    /// Whether bytes wait for the link.
    pub fn has_pending(&self) -> bool
        ensures { result ≡ not (length (pending self.now.writing.output) == 0) }
    {
        self.writing.has_pending()
    }

    /// Whether a final head of the response was queued.
    pub fn response_written(&self) -> bool
        ensures { result ≡ has_head self.now.writing.place }
    {
        self.writing.response_written()
    }

    /// Whether the response is over: a final head was queued, and its end was too or its framing
    /// takes no more bytes.
    pub fn response_done(&self) -> bool
        ensures { result ≡ is_over self.now.writing.place }
    {
        self.writing.response_done()
    }

    /// Whether what was queued of the response closes the client's connection, which then serves no
    /// further request: the final head, as the client gets it, has the connection option `close`, or
    /// its body lasts until the connection ends (RFC 9112, sections 6.3 and 9.6).
    pub fn response_closes(&self) -> bool
        ensures { result ≡ self.now.writing.closes }
    {
        self.writing.response_closes()
    }

    /// How many bytes of the response's body were queued; the count stands still at its last value.
    pub fn body_bytes_sent(&self) -> u64
        ensures { result ≡ self.now.writing.body_bytes }
    {
        self.writing.body_bytes_sent()
    }
}
