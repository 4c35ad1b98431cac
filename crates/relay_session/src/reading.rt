//! How the request of a client is read: its head, and its body piece by piece (RFC 9112, sections
//! 2, 3, 6 and 7).
ghost use Rattle.std.specs.Prelude.{◌≡◌, ◌↔◌, ◌<◌, ◌≤◌, ◌⊎◌, ℕ, List, [], ◌&&◌, ◌||◌, ◌==◌, not, ◌++◌, true, false, length, drop, min, None, Some, IsSome, IsTrue, IfOk, IsOkUnless};
ghost use Rattle.std.specs.Borrow.{sem};
ghost use Rattle.relay_tasks.specs.Head.{RequestHead};
ghost use Rattle.relay_links.specs.Count.{last_count};
ghost use Rattle.relay_h1.specs.declared.framing.Framing.{Framing};
ghost use Rattle.relay_h1.specs.BodyReader.{is_done};
ghost use Rattle.relay_h1.specs.Framing.{request_framing};
ghost use Rattle.relay_h1.specs.Verdict.{HasRequest};
ghost use Rattle.relay_session.specs.Front.{Watches};
ghost use Rattle.relay_session.specs.HeadLent.{LendsHead};
ghost use Rattle.relay_session.specs.Summary.{without_body_fields};
ghost use Rattle.relay_session.specs.Replay.{most_kept, retry_buffer};
ghost use Rattle.relay_session.specs.Reading.{head_of, with_head, replay_of, is_body_done, is_body_empty, is_kept, is_truncated, received, begun, RequestSoFar, IsInBody, IsWhole, IsItem, ReadsOn, ReadsRest, ReadsLink, EndsBy};

use crate::front::{Front, ends_with_head};
use crate::replay::Replay;
use bytes::Bytes;
use http_header::{CONTENT_LENGTH, TRANSFER_ENCODING};
use relay_h1::{BodyReader, Framing, request_framing};
use relay_tasks::{Fail, RequestHeader, Result, SharedRequest, Took};
use std::alloc::Global;

/// The request side of one session.
#[derive(Drop)]
pub(crate) enum Reading {
    /// The head has not come whole.
    Head,
    /// The head was read, and the body behind it is read.
    Body(BegunRequest),
}

/// A request whose head was read.
#[derive(Drop)]
pub(crate) struct BegunRequest {
    head: RequestHeader,
    framing: Framing,
    body: BodyReader,
    // The bytes of the body that were given out, up to the last u64.
    received: u64,
    // What is kept of them, to be sent again.
    replay: Replay,
}

impl Reading {
    /// Nothing was read yet.
    pub(crate) fn new() -> Reading
        ensures head { result ≡ Reading.Head }
        ensures starts { (ahead : List ℕ) → RequestSoFar ahead [] ahead result }
    {
        Reading::Head
    }

    /// A request whose head was read, before its body is read.
    pub(crate) fn of_request(alloc: Global, head: RequestHeader, framing: Framing) -> Reading
        ensures value { result ≡ Reading.Body (begun head framing) }
        ensures starts { (given : List ℕ) (len : ℕ) → HasRequest given head framing len
            → RequestSoFar given [] (drop len given) result }
        ensures whole { (given : List ℕ) (len : ℕ) → HasRequest given head framing len
            → is_body_done result ≡ true → IsWhole given [] (drop len given) }
    {
        Reading::Body(BegunRequest {
            head,
            framing,
            body: BodyReader::new(framing),
            received: 0,
            replay: Replay::new(alloc),
        })
    }

    /// Reads the head. `Item` once it stands, and at each later call, which does nothing; `End`
    /// where the client ended before any byte.
    ///
    /// All of the source `Downstream`: `InvalidHTTPHeader` (the head is refused),
    /// `ConnectionClosed` (the client ended inside it), and the fault of the link. Where memory is
    /// wanted, what came stays ahead.
    pub(crate) fn read_request<F: Front>(&mut self, alloc: Global, client: &mut F) -> Took<()>
        ensures goes { (given body : List ℕ)
            → RequestSoFar given body (F.ahead client.old) self.old
            → ReadsOn (F.state client.old) (F.state client.new) given body (F.ahead client.new)
            self.old self.new result }
        ensures begins { head_of self.old ≡ None → IsSome (head_of self.new) → IsItem result }
        ensures again { IsSome (head_of self.old)
            → IsItem result × (self.new ≡ self.old) × (client.new ≡ client.old) }
        ensures start { F.start client.new ≡ F.start client.old }
    {
        if self.has_head() {
            return Took::Item(());
        }
        match client.read_head(alloc) {
            Took::Item((head, _ends)) => {
                *self = begun(alloc, head);
                Took::Item(())
            }
            Took::More => Took::More,
            Took::Waited(pause) => Took::Waited(pause),
            Took::End => Took::End,
            Took::Failed(fail) => Took::Failed(fail),
        }
    }

    /// Reads the body: a piece, one byte at least; `End` where the body has ended. With `idle`, a
    /// client whose body has ended is to be still: it is read, and nothing that it sends is
    /// consumed.
    ///
    /// All of the source `Downstream`: `InvalidHTTPHeader` (the body is broken), `ConnectionClosed`
    /// (the client ended inside its body; or it is to be still, and sent more or ended), and the
    /// fault of the link. Where memory is wanted, no byte of the body is lost.
    pub(crate) fn read_body_or_idle<F: Front>(
        &mut self,
        alloc: Global,
        client: &mut F,
        idle: bool,
    ) -> Took<Bytes>
        requires { IsSome (head_of self.old) }
        ensures goes { (given body : List ℕ)
            → RequestSoFar given body (F.ahead client.old) self.old
            → ReadsRest (F.state client.old) (F.state client.new) given body (F.ahead client.old)
            (F.ahead client.new) (idle && is_body_done self.old) self.new result }
        ensures link { ReadsLink (F.state client.old) (F.state client.new) result }
        ensures ends { idle && is_body_done self.old ≡ false
            → EndsBy result (is_body_done self.new) }
        ensures watches { idle && is_body_done self.old ≡ true → Watches (F.state client.old)
            (F.state client.new) (F.ahead client.old) (F.ahead client.new) result }
        ensures head { head_of self.new ≡ head_of self.old }
        ensures empty { is_body_empty self.new ≡ is_body_empty self.old }
        ensures still { idle && is_body_done self.old ≡ true → self.new ≡ self.old }
        ensures start { F.start client.new ≡ F.start client.old }
    {
        match self {
            Reading::Head => unreachable!(),
            Reading::Body(request) => request.read(alloc, client, idle),
        }
    }

    /// Whether a head was read.
    pub(crate) fn has_head(&self) -> bool
        ensures { IsTrue result ↔ IsSome (head_of self.now) }
    {
        match self {
            Reading::Head => false,
            Reading::Body(_) => true,
        }
    }

    /// The head that was read.
    pub(crate) fn req_header(&self) -> &RequestHeader
        requires { IsSome (head_of self.now) }
        ensures { head_of self.now ≡ Some result.now }
    {
        match self {
            Reading::Head => unreachable!(),
            Reading::Body(request) => &request.head,
        }
    }

    /// The head that was read, to be changed. How far the request has come stays.
    pub(crate) fn req_header_mut(&mut self) -> &mut RequestHeader
        requires { IsSome (head_of self.old) }
        ensures* writes_back { sem 𝓛 (LendsHead self.entry result) }
        ensures value { head_of self.old ≡ Some result.now }
        ensures keeps { (given body ahead : List ℕ) (head : RequestHead)
            → RequestSoFar given body ahead self.old
            → RequestSoFar given body ahead (with_head self.old head) }
    {
        match self {
            Reading::Head => unreachable!(),
            Reading::Body(request) => &mut request.head,
        }
    }

    /// The head that was read as it stands, to be held by many.
    pub(crate) fn share_req_header(&mut self) -> Result<SharedRequest>
        requires { IsSome (head_of self.old) }
        ensures ok { IfOk result (λ shared. head_of self.old ≡ Some shared) }
        ensures memory { IsOkUnless result Fail.OutOfMemory }
        ensures same { self.new ≡ self.old }
    {
        match self {
            Reading::Head => unreachable!(),
            Reading::Body(request) => request.head.share(),
        }
    }

    /// Removes Content-Length and Transfer-Encoding from the head that was read. How far the
    /// request has come stays.
    pub(crate) fn clear_body_fields(&mut self)
        requires { IsSome (head_of self.old) }
        ensures cleared { (head : RequestHead) → head_of self.old ≡ Some head
            → self.new ≡ with_head self.old (without_body_fields head) }
        ensures some { IsSome (head_of self.new) }
        ensures keeps { (given body ahead : List ℕ) → RequestSoFar given body ahead self.old
            → RequestSoFar given body ahead self.new }
    {
        match self {
            Reading::Head => unreachable!(),
            Reading::Body(request) => clear_body_fields(&mut request.head),
        }
    }

    /// Whether the body has ended, and all of it was given out.
    pub(crate) fn is_body_done(&self) -> bool
        ensures value { result ≡ is_body_done self.now }
        ensures told { (given body ahead : List ℕ) → RequestSoFar given body ahead self.now
            → result ≡ true → IsWhole given body ahead }
    {
        match self {
            Reading::Head => false,
            Reading::Body(request) => request.body.is_done(),
        }
    }

    /// Whether the head says that its body has no bytes. A body in chunks may have some.
    pub(crate) fn is_body_empty(&self) -> bool
        ensures { result ≡ is_body_empty self.now }
    {
        match self {
            Reading::Head => false,
            Reading::Body(request) => ends_with_head(request.framing),
        }
    }

    /// Whether all bytes of the body that were given out are kept, so that they can be sent again.
    pub(crate) fn is_kept(&self) -> bool
        ensures { result ≡ is_kept self.now }
    {
        match self {
            Reading::Head => false,
            Reading::Body(request) => request.replay.is_kept(),
        }
    }

    /// Whether bytes of the body were given out that are kept no longer.
    pub(crate) fn is_truncated(&self) -> bool
        ensures value { result ≡ is_truncated self.now }
        ensures over { (given body ahead : List ℕ) → RequestSoFar given body ahead self.now
            → result ≡ true → (most_kept < length body) ⊎ (replay_of self.now ≡ Replay.Lost) }
        ensures within { (given body ahead : List ℕ) → RequestSoFar given body ahead self.now
            → result ≡ false → length body ≤ most_kept }
    {
        match self {
            Reading::Head => false,
            Reading::Body(request) => !request.replay.is_kept(),
        }
    }

    /// The bytes of the body that were given out and are kept. None where there are none.
    ///
    /// Fails out of memory alone.
    pub(crate) fn get_retry_buffer(&self, alloc: Global) -> Result<Option<Bytes>>
        ensures ok { IfOk result (λ bytes. bytes ≡ retry_buffer (replay_of self.now)) }
        ensures memory { IsOkUnless result Fail.OutOfMemory }
    {
        match self {
            Reading::Head => Ok(None),
            Reading::Body(request) => request.replay.retry_buffer(alloc),
        }
    }

    /// How many bytes of the body were given out; the count stands still at its last value.
    pub(crate) fn body_bytes_received(&self) -> u64
        ensures value { result ≡ received self.now }
        ensures told { (given body ahead : List ℕ) → RequestSoFar given body ahead self.now
            → result ≡ min (length body) last_count }
    {
        match self {
            Reading::Head => 0,
            Reading::Body(request) => request.received,
        }
    }
}

/// Removes Content-Length and Transfer-Encoding.
fn clear_body_fields(head: &mut RequestHeader)
    ensures { head.new ≡ without_body_fields head.old }
{
    let _ = head.remove_header(&CONTENT_LENGTH);
    let _ = head.remove_header(&TRANSFER_ENCODING);
}

/// A request with that head, which has a framing, before its body is read.
fn begun(alloc: Global, head: RequestHeader) -> Reading
    requires { IsSome (request_framing head) }
    ensures { (framing : Framing) → request_framing head ≡ Some framing
        → result ≡ Reading.Body (begun head framing) }
{
    let Ok(framing) = request_framing(&head) else {
        unreachable!()
    };
    Reading::of_request(alloc, head, framing)
}

impl BegunRequest {
    /// Reads the body, as `read_body_or_idle` does.
    fn read<F: Front>(&mut self, alloc: Global, client: &mut F, idle: bool) -> Took<Bytes>
        ensures goes { (given body : List ℕ)
            → IsInBody given body (F.ahead client.old) self.old
            → ReadsRest (F.state client.old) (F.state client.new) given body (F.ahead client.old)
            (F.ahead client.new) (idle && is_done self.old.body) (Reading.Body self.new) result }
        ensures head { self.new.head ≡ self.old.head }
        ensures framing { self.new.framing ≡ self.old.framing }
        ensures link { ReadsLink (F.state client.old) (F.state client.new) result }
        ensures ends { idle && is_done self.old.body ≡ false
            → EndsBy result (is_done self.new.body) }
        ensures watches { idle && is_done self.old.body ≡ true → Watches (F.state client.old)
            (F.state client.new) (F.ahead client.old) (F.ahead client.new) result }
        ensures still { idle && is_done self.old.body ≡ true → self.new ≡ self.old }
        ensures start { F.start client.new ≡ F.start client.old }
    {
        match client.read_piece(alloc, &mut self.body, idle) {
            Took::Item((piece, _ends)) => {
                self.received = self.received.saturating_add(piece.len() as u64);
                self.replay.keep(&piece);
                Took::Item(piece)
            }
            Took::More => Took::More,
            Took::Waited(pause) => Took::Waited(pause),
            Took::End => Took::End,
            Took::Failed(fail) => Took::Failed(fail),
        }
    }
}
