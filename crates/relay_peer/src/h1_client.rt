//! The peer's side of one request on an HTTP/1 link: its head and body are written, and the
//! response is read (RFC 9112, sections 3 to 9).
ghost use Rattle.std.specs.Prelude.{◌≡◌, ◌↔◌, ◌++◌, ◌<◌, ◌||◌, ℕ, List, [], Bool, true, false, length, take, None, unwrap_or, IfOk, IfErr, OnOk, OnErr, IsErrOf, IsOkUnless, IsTrue, option_copied};
ghost use Rattle.relay_tasks.specs.Error.{IsMemoryOr};
ghost use Rattle.relay_links.specs.Count.{up};
ghost use Rattle.relay_h1.specs.BodyWire.{count_of, is_short};
ghost use Rattle.relay_h1.specs.Framing.{request_framing};
ghost use Rattle.relay_h1.specs.Move.{WritesOut, taken};
ghost use Rattle.relay_h1.specs.Verdict.{refused_from};
ghost use Rattle.relay_peer.specs.RequestWriting.{Sent, nothing, SentSoFar, with_head, with_piece, with_end, rest_of, head_in, method_of, IsSentWhole, short_request};
ghost use Rattle.relay_peer.specs.ResponseReading.{ToldResponse, untold, ReadSoFar, ReadsTask, IsReadWhole, is_item, is_over, body_len, is_error, counted};
ghost use Rattle.relay_peer.specs.H1Client.{is_fault, may_keep_client};

use crate::request_writing::{RequestPlace, RequestWriting};
use crate::response_reading::ResponseReading;
use bytes::Bytes;
use http::Method;
use relay_h1::Ahead;
use relay_links::{ByteLink, Put};
use relay_tasks::{Context, ErrorSource, Fail, HttpTask, Pause, RequestHeader, Result, Took};
use std::alloc::Global;

/// One request on a link to a peer: what of it was queued, and how far its response was read.
#[derive(Drop)]
pub struct H1Client<L> {
    link: L,
    request: RequestWriting,
    response: ResponseReading,
    received: u64,
    sent: u64,
    failed: bool,
    // Whether both sides ask for an upgrade.
    asked: bool,
}

impl<L> H1Client<L> {
    /// A client on the link: nothing is queued, and nothing was read.
    pub fn new(alloc: Global, link: L) -> H1Client<L>
        ensures link { result.link ≡ link }
        ensures sent { SentSoFar nothing [] result.request }
        ensures read { (method : List ℕ) (upgrade closed : Bool)
            → ReadSoFar method upgrade closed [] untold result.response }
        ensures counts { (result.received ≡ 0) × (result.sent ≡ 0) }
        ensures failed { result.failed ≡ false }
        ensures asked { result.asked ≡ false }
    {
        H1Client {
            link,
            request: RequestWriting::new(alloc),
            response: ResponseReading::new(alloc),
            received: 0,
            sent: 0,
            failed: false,
            asked: false,
        }
    }

    /// Queues the head of the request; its body is framed as the head says. A head behind one
    /// writes nothing. When out of memory nothing is queued, and the head is gone.
    ///
    /// `InvalidHTTPHeader` of the source `Internal`, about `BadFraming`: exactly where
    /// `request_framing` refuses the head. Nothing is queued then.
    pub fn write_request_header(&mut self, head: RequestHeader) -> Result<()>
        ensures keeps { OnOk result ((sent : Sent) (taken : List ℕ)
            → SentSoFar sent taken self.old.request
            → SentSoFar (with_head sent head) taken self.new.request) }
        ensures refused { IsErrOf result
            (Fail.Error (refused_from ErrorSource.Internal Context.BadFraming))
            ↔ (request_framing head ≡ None) }
        ensures causes { IfErr result
            (IsMemoryOr (refused_from ErrorSource.Internal Context.BadFraming)) }
        ensures same { self.new ≡ record self.old { request = self.new.request } }
        ensures err { OnErr result (self.new ≡ self.old) }
    {
        self.request.write_head(head)
    }

    /// Queues a piece of the body in its framing, and gives how many of its bytes belong to the
    /// body: none past its length. None exactly where the body takes no more bytes, or no head was
    /// queued; nothing is queued then. When out of memory nothing changes.
    pub fn write_body(&mut self, piece: Bytes) -> Result<Option<u64>>
        ensures keeps { OnOk result ((sent : Sent) (taken : List ℕ)
            → SentSoFar sent taken self.old.request
            → SentSoFar (with_piece sent piece) taken self.new.request) }
        ensures count { IfOk result (λ count. count ≡ count_of (rest_of self.old.request.request)
            piece) }
        ensures sent { IfOk result (λ count. self.new.sent ≡ counted self.old.sent
            (unwrap_or count 0)) }
        ensures memory { IsOkUnless result Fail.OutOfMemory }
        ensures same { self.new ≡ record self.old {
          request = self.new.request;
          sent = self.new.sent;
        } }
        ensures err { OnErr result (self.new ≡ self.old) }
    {
        let count = self.request.write_body(piece)?;
        self.sent = self.sent.saturating_add(count.unwrap_or(0));
        Ok(count)
    }

    /// Queues the end of the body: the last chunk, where it comes in chunks. It is Ok and queues
    /// nothing where the body had ended, or no head was queued.
    ///
    /// `PrematureBodyEnd` of the source `Upstream`, about `BodyShort`: exactly where bytes of the
    /// body's length are missing. Then, and where memory is wanted, nothing changes.
    pub fn finish_body(&mut self) -> Result<()>
        ensures keeps { OnOk result ((sent : Sent) (taken : List ℕ)
            → SentSoFar sent taken self.old.request
            → SentSoFar (with_end sent) taken self.new.request) }
        ensures short { IsErrOf result (Fail.Error short_request)
            ↔ IsTrue (is_short (rest_of self.old.request.request)) }
        ensures causes { IfErr result (IsMemoryOr short_request) }
        ensures same { self.new ≡ record self.old { request = self.new.request } }
        ensures err { OnErr result (self.new ≡ self.old) }
    {
        self.request.finish()
    }

    /// The head of the request, once one was queued.
    pub fn request_header(&self) -> Option<&RequestHeader>
        ensures { option_copied result ≡ head_in self.now.request.request }
    {
        match &self.request.request {
            RequestPlace::NoHead => None,
            RequestPlace::Sending(sending) => Some(&sending.head),
        }
    }

    /// Whether something is queued that the link has not taken.
    pub fn has_pending(&self) -> bool
        ensures { IsTrue result ↔ (0 < length self.now.request.unsent) }
    {
        self.request.has_unsent()
    }

    /// How many bytes of the response's body were read. The count stands still at its last value.
    pub fn body_bytes_received(&self) -> u64
        ensures { result ≡ self.now.received }
    {
        self.received
    }

    /// How many bytes of the request's body were queued. The count stands still at its last value.
    pub fn body_bytes_sent(&self) -> u64
        ensures { result ≡ self.now.sent }
    {
        self.sent
    }

    /// Whether the link may be kept for a next request: request and response have both ended, all
    /// was taken, the response is of HTTP/1.1 and its body did not last until the link ends,
    /// neither head has the option `close`, no byte past the response was read, no read answered
    /// an error and no write failed.
    pub fn may_keep(&self) -> bool
        ensures exact { result ≡ may_keep_client self.now }
        ensures request { (sent : Sent) (taken : List ℕ) → SentSoFar sent taken self.now.request
            → result ≡ true → IsSentWhole sent taken }
        ensures response { (method given : List ℕ) (upgrade closed : Bool) (told : ToldResponse)
            → ReadSoFar method upgrade closed given told self.now.response → result ≡ true
            → IsReadWhole method upgrade closed given told }
    {
        self.request.may_keep() && (self.response.may_keep() && !self.failed)
    }
}

impl<L> H1Client<L> {
    /// The link.
    pub fn link(&self) -> &L
        ensures { result.now ≡ self.now.link }
    {
        &self.link
    }

    /// Reads into that buffer from now on, and leaves its own in its place, where neither has bytes
    /// ahead. What can be seen of both stays as it was.
    pub fn swap_room(&mut self, room: &mut Ahead)
        ensures same { self.new ≡ self.old }
        ensures room { room.new ≡ room.old }
    {
        self.response.swap_room(room);
    }

    /// The link alone. What is queued and what was read ahead is dropped.
    pub fn into_link(self) -> L
        ensures { result ≡ self.link }
    {
        let H1Client {
            link,
            request: _request,
            response: _response,
            received: _,
            sent: _,
            failed: _,
            asked: _,
        } = self;
        link
    }
}

impl<L: ByteLink> H1Client<L> {
    /// One write to the link of all that is queued, which is some. What it takes leaves the queue.
    pub fn write_pending(&mut self) -> Put
        requires { 0 < length self.old.request.unsent }
        ensures answer { WritesOut (L.state self.old.link) (L.state self.new.link)
            self.old.request.unsent self.new.request.unsent result }
        ensures start { L.start self.new.link ≡ L.start self.old.link }
        ensures keeps { (sent : Sent) (gone : List ℕ) → SentSoFar sent gone self.old.request
            → SentSoFar sent (gone ++ take (taken result) self.old.request.unsent)
            self.new.request }
        ensures failed { self.new.failed ≡ (self.old.failed || is_fault result) }
        ensures same { self.new ≡ record self.old {
          link = self.new.link;
          request = self.new.request;
          failed = self.new.failed;
        } }
    {
        let put = self.request.write_to(&mut self.link);
        self.failed = self.failed || is_fault(put);
        put
    }

    /// The next task of the response: one that stands in the bytes that were read ahead, else one
    /// that stands there after one read of the link, of up to 16,384 bytes. A head that only
    /// informs, the final head, a piece of the body, or the end alone: a final head whose body is
    /// empty carries the end, and so does a piece that completes a length; `Done` follows a body
    /// in chunks, and one that lasts until the link ends.
    ///
    /// `More`: the link gave bytes in this call, and no task, no end and no refusal stands.
    /// `Waited`: the link answered so in this call; one that is silent stays so. `End`: the
    /// response had ended; the link is not asked. Errors are of the source `Upstream`:
    /// - `InvalidHTTPHeader`, about `HeadTooLong`, `HeadGrammar` or `BadFraming`: a head or the
    ///   body is broken at the next place.
    /// - The error of the link's fault.
    /// - `ConnectionClosed`, about `UpstreamClosed`: the link ended inside the response. Its mark
    ///   is `ReusedOnly` where no byte of the response had come, else `Decided(false)`.
    ///
    /// Out of memory aside, each of these comes exactly where the bytes and the link say so. After
    /// an error, and when out of memory, what was told stays, and a next call goes on from there.
    pub fn read_response_task(&mut self, alloc: Global) -> Took<HttpTask>
        ensures reads { ReadsTask (method_of self.old.request.request) self.old.asked
            (L.state self.old.link) (L.state self.new.link) self.old.response self.new.response
            result }
        ensures start { L.start self.new.link ≡ L.start self.old.link }
        ensures waits { result ≡ Took.Waited Pause.NotReady
            → (L.state self.new.link).waits ≡ up (L.state self.old.link).waits }
        ensures used { result ≡ Took.Waited Pause.NotReady
            → (L.state self.new.link).used ≡ up (L.state self.old.link).used }
        ensures silent { result ≡ Took.Waited Pause.Silent
            → (L.state self.new.link ≡ L.state self.old.link)
            × ((L.state self.new.link).silent_on_read ≡ true) }
        ensures ends { is_item result ≡ false
            → is_over self.new.response.place ≡ is_over self.old.response.place }
        ensures received { self.new.received ≡ counted self.old.received (body_len result) }
        ensures failed { self.new.failed ≡ (self.old.failed || is_error result) }
        ensures same { self.new ≡ record self.old {
          link = self.new.link;
          response = self.new.response;
          received = self.new.received;
          failed = self.new.failed;
        } }
    {
        let took = self.read_task(alloc);
        self.received = self.received.saturating_add(body_len(&took));
        self.failed = self.failed || is_error(&took);
        took
    }

    /// The next task of the response to the method of the request. A response that comes before any
    /// request is read as one to GET.
    fn read_task(&mut self, alloc: Global) -> Took<HttpTask>
        ensures reads { ReadsTask (method_of self.old.request.request) self.old.asked
            (L.state self.old.link) (L.state self.new.link) self.old.response self.new.response
            result }
        ensures start { L.start self.new.link ≡ L.start self.old.link }
        ensures waits { result ≡ Took.Waited Pause.NotReady
            → (L.state self.new.link).waits ≡ up (L.state self.old.link).waits }
        ensures used { result ≡ Took.Waited Pause.NotReady
            → (L.state self.new.link).used ≡ up (L.state self.old.link).used }
        ensures silent { result ≡ Took.Waited Pause.Silent
            → (L.state self.new.link ≡ L.state self.old.link)
            × ((L.state self.new.link).silent_on_read ≡ true) }
        ensures ends { is_item result ≡ false
            → is_over self.new.response.place ≡ is_over self.old.response.place }
        ensures same { self.new ≡ record self.old {
          link = self.new.link;
          response = self.new.response;
        } }
    {
        match &self.request.request {
            RequestPlace::NoHead => {
                self.response
                    .read_task(alloc, &Method::GET, self.asked, &mut self.link)
            }
            RequestPlace::Sending(sending) => {
                self.response
                    .read_task(alloc, sending.head.method(), self.asked, &mut self.link)
            }
        }
    }
}

fn is_fault(put: Put) -> bool
    ensures { result ≡ is_fault put }
{
    match put {
        Put::Failed(_) => true,
        Put::Took(_) | Put::NotReady | Put::Silent | Put::OutOfMemory => false,
    }
}

fn is_error(took: &Took<HttpTask>) -> bool
    ensures { result ≡ is_error took.now }
{
    match took {
        Took::Failed(Fail::Error(_)) => true,
        Took::Item(_)
        | Took::More
        | Took::Waited(_)
        | Took::End
        | Took::Failed(Fail::OutOfMemory) => false,
    }
}

/// How many bytes of the body the answer has.
fn body_len(took: &Took<HttpTask>) -> u64
    ensures { result ≡ body_len took.now }
{
    match took {
        Took::Item(task) => task_len(task),
        Took::More | Took::Waited(_) | Took::End | Took::Failed(_) => 0,
    }
}

fn task_len(task: &HttpTask) -> u64
    ensures { result ≡ body_len (Took.Item task.now) }
{
    match task {
        HttpTask::Body(Some(piece), _) | HttpTask::UpgradedBody(Some(piece), _) => {
            piece.len() as u64
        }
        HttpTask::Header(_, _)
        | HttpTask::Body(None, _)
        | HttpTask::UpgradedBody(None, _)
        | HttpTask::Trailer(_)
        | HttpTask::Done
        | HttpTask::Failed(_) => 0,
    }
}
