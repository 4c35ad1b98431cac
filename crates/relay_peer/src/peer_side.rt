//! The upstream's side of a duplex over the client of a peer: pieces of the request are queued for
//! its link, and the tasks of the response are read from it (RFC 9112, sections 6, 7 and 9).
ghost use Rattle.std.specs.Prelude.{◌≡◌, ◌↔◌, ◌||◌, ℕ, List, [], Bool, true, false, None, Some, OnOk, OnErr, IfErr, IsErrOf};
ghost use Rattle.relay_tasks.specs.Error.{IsMemoryOr};
ghost use Rattle.relay_tasks.specs.Head.{RequestHead};
ghost use Rattle.relay_links.specs.Link.{IsHandedOut};
ghost use Rattle.relay_h1.specs.Framing.{request_framing};
ghost use Rattle.relay_h1.specs.Verdict.{refused_from};
ghost use Rattle.relay_peer.specs.H1Client.{may_keep_client};
ghost use Rattle.relay_peer.specs.RequestWriting.{Sent, SentSoFar, head_in, IsSentWhole};
ghost use Rattle.relay_peer.specs.ResponseReading.{ReadSoFar, IsReadWhole};
ghost use Rattle.relay_peer.specs.ResponseReading as reading;
ghost use Rattle.relay_core.specs.declared.told.TheConstants.Told.{NOTHING};
ghost use Rattle.relay_core.specs.Past.{Origin};
ghost use Rattle.relay_core.specs.Up.{is_error, error_or};
ghost use Rattle.relay_peer.specs.Body.{bytes_of};
ghost use Rattle.relay_peer.specs.Peer.{IsPeerSide, PeerBlames, CutsTask, IsNew, Queues, none_passed, peer_unread, state_of, put_error};

use crate::h1_client::H1Client;
use bytes::Bytes;
use relay_core::{Told, Up};
use relay_h1::Ahead;
use relay_links::{ByteLink, Put, UpKind};
use relay_tasks::{Context, Error, ErrorSource, Fail, HttpTask, RequestHeader, Result, Took};
use std::alloc::Global;

/// The upstream's side over the client of a peer, whose request's head was queued.
#[derive(Drop)]
pub struct PeerSide<L> {
    alloc: Global,
    client: H1Client<L>,
    told: Told,
    // Why no more of the request is queued, once a piece was lost.
    lost: Option<Fail>,
    // Whether a read answered an error, and the last error with which nothing could be sent: from
    // then on nothing is pending, so that the link is written no more.
    read_failed: bool,
    send_failed: Option<Error>,
}

impl<L> PeerSide<L> {
    /// The side over a client on that link, for which nothing is queued.
    pub fn new(alloc: Global, link: L) -> PeerSide<L>
        ensures link { result.client.link ≡ link }
        ensures fresh { IsNew result }
        ensures told { result.told ≡ NOTHING }
    {
        PeerSide {
            alloc,
            client: H1Client::new(alloc, link),
            told: Told::NOTHING,
            lost: None,
            read_failed: false,
            send_failed: None,
        }
    }

    /// Whether the link may be kept for a next request, as in `H1Client::may_keep`.
    pub fn may_keep(&self) -> bool
        ensures exact { result ≡ may_keep_client self.now.client }
        ensures request { (sent : Sent) (taken : List ℕ)
            → SentSoFar sent taken self.now.client.request → result ≡ true
            → IsSentWhole sent taken }
        ensures response { (method given : List ℕ) (upgrade closed : Bool)
            (told : reading.ToldResponse)
            → ReadSoFar method upgrade closed given told self.now.client.response
            → result ≡ true → IsReadWhole method upgrade closed given told }
    {
        self.client.may_keep()
    }
}

impl<L> PeerSide<L> {
    /// The link.
    pub fn link(&self) -> &L
        ensures { result.now ≡ self.now.client.link }
    {
        self.client.link()
    }

    /// Reads into that buffer from now on, and leaves its own in its place, as
    /// `H1Client::swap_room`.
    pub fn swap_room(&mut self, room: &mut Ahead)
        ensures same { self.new ≡ self.old }
        ensures room { room.new ≡ room.old }
    {
        self.client.swap_room(room);
    }

    /// The link alone.
    pub fn into_link(self) -> L
        ensures { result ≡ self.client.link }
    {
        let PeerSide {
            alloc: _,
            client,
            told: _,
            lost: _,
            read_failed: _,
            send_failed: _,
        } = self;
        client.into_link()
    }
}

impl<L: ByteLink> PeerSide<L> {
    /// Queues the head of the request. When out of memory nothing is queued, and the head is gone.
    ///
    /// `InvalidHTTPHeader` of the source `Internal`, about `BadFraming`: exactly where
    /// `request_framing` refuses the head. Nothing is queued then.
    pub fn write_request_header(&mut self, head: RequestHeader) -> Result<()>
        ensures begins { OnOk result ((s : Origin) → head ≡ s.sent → s.asked ≡ false
            → IsNew self.old → (reused : Bool)
            → IsHandedOut (L.state self.old.client.link) (L.start self.old.client.link) reused
            → s.reused ≡ reused
            → IsPeerSide s (L.start self.new.client.link) (L.state self.new.client.link) self.new
            none_passed) }
        ensures head { OnOk result (IsNew self.old
            → head_in self.new.client.request.request ≡ Some head) }
        ensures refused { IsErrOf result
            (Fail.Error (refused_from ErrorSource.Internal Context.BadFraming))
            ↔ (request_framing head ≡ None) }
        ensures causes { IfErr result
            (IsMemoryOr (refused_from ErrorSource.Internal Context.BadFraming)) }
        ensures same { self.new ≡ record self.old {
          client = record self.old.client { request = self.new.client.request };
        } }
        ensures err { OnErr result (self.new ≡ self.old) }
    {
        self.client.write_request_header(head)
    }
}

/// One of two flags stands.
fn either(first: bool, second: bool) -> bool
    ensures { result ≡ first || second }
{
    first || second
}

/// Whether the failure is an error; out of memory is none.
fn is_error(fail: Fail) -> bool
    ensures { result ≡ is_error fail }
{
    match fail {
        Fail::OutOfMemory => false,
        Fail::Error(_) => true,
    }
}

/// The error of a failure; out of memory leaves the one before.
fn error_or(fail: Fail, before: Option<Error>) -> Option<Error>
    ensures { result ≡ error_or fail before }
{
    match fail {
        Fail::OutOfMemory => before,
        Fail::Error(error) => Some(error),
    }
}

/// The error of a write that failed, else the one before.
fn put_error(put: Put, before: Option<Error>) -> Option<Error>
    ensures { result ≡ put_error put before }
{
    match put {
        Put::Failed(fault) => Some(Error::of_fault(fault).into_up()),
        Put::Took(_) | Put::NotReady | Put::Silent | Put::OutOfMemory => before,
    }
}

/// The bytes of the body that a task brings.
fn bytes_of(task: HttpTask) -> Bytes
    ensures { result ≡ bytes_of task }
{
    match task {
        HttpTask::Body(Some(piece), _) | HttpTask::UpgradedBody(Some(piece), _) => piece,
        HttpTask::Header(_, _)
        | HttpTask::Body(None, _)
        | HttpTask::UpgradedBody(None, _)
        | HttpTask::Trailer(_)
        | HttpTask::Done
        | HttpTask::Failed(_) => Bytes::new(),
    }
}

/// Queues the bytes of a task, and the end where it carries it.
fn queue_piece<L>(client: &mut H1Client<L>, task: HttpTask) -> Result<()>
    ensures queues { (sent : Sent) (taken : List ℕ) → SentSoFar sent taken client.old.request
        → Queues sent taken task client.new.request result }
    ensures same { client.new ≡ record client.old {
      request = client.new.request;
      sent = client.new.sent;
    } }
{
    let ends = task.is_end();
    match client.write_body(bytes_of(task)) {
        Err(why) => Err(why),
        Ok(_) => { if ends { client.finish_body() } else { Ok(()) } }
    }
}

impl<L: ByteLink> Up for PeerSide<L> {
    ghost state = { λ side. state_of side };

    ghost past = { λ side s q.
        IsPeerSide s (L.start side.client.link) (L.state side.client.link) side q };

    ghost blames = { λ side s q e. (head : RequestHead)
        × (head_in side.client.request.request ≡ Some head)
        × PeerBlames (L.start side.client.link) (L.state side.client.link) head
        s.asked q e };

    ghost link = { λ side. L.state side.client.link };

    ghost start = { λ side. L.start side.client.link };

    ghost cuts = { λ old new answer. CutsTask (L.state old.client.link) (L.state new.client.link)
        old.client.response new.client.response answer };

    ghost unread = { λ side s q read e blamed. (
      blamed.0,
      blamed.1,
      peer_unread (L.start side.client.link) (L.state side.client.link) blamed.0 s.asked q read e
          blamed.2,
    ) };

    fn kind(&self) -> UpKind {
        UpKind::H1
    }

    fn upgraded(&self) -> bool {
        false
    }

    fn read_task(&mut self) -> Took<HttpTask> {
        match self.client.read_response_task(self.alloc) {
            Took::Item(task) => Took::Item(task),
            Took::More => Took::More,
            Took::End => Took::More,
            Took::Waited(pause) => {
                self.told = self.told.paused(pause);
                Took::Waited(pause)
            }
            Took::Failed(why) => {
                self.told = self.told.failed(why);
                self.read_failed = either(self.read_failed, is_error(why));
                Took::Failed(why)
            }
        }
    }

    fn take_piece(&mut self, task: HttpTask) -> Result<()> {
        match self.lost {
            Some(why) => {
                self.told = self.told.failed(why);
                self.send_failed = error_or(why, self.send_failed);
                Err(why)
            }
            None => match queue_piece(&mut self.client, task) {
                Ok(()) => Ok(()),
                Err(why) => {
                    self.lost = Some(why);
                    self.told = self.told.failed(why);
                    self.send_failed = error_or(why, self.send_failed);
                    Err(why)
                }
            },
        }
    }

    fn has_pending(&self) -> bool {
        self.client.has_pending() && self.send_failed.is_none()
    }

    fn write_pending(&mut self) -> Put {
        let put = self.client.write_pending();
        self.told = self.told.written(ErrorSource::Upstream, put);
        self.send_failed = put_error(put, self.send_failed);
        put
    }

    fn told(&self) -> Told {
        self.told
    }
}
