//! One exchange between a client and an HTTP/1 link to a peer (RFC 9112, sections 6, 7 and 9.3).
ghost use Rattle.std.specs.declared.alloc.Global.{Global};
ghost use Rattle.std.specs.Prelude.{◌≡◌, ◌↔◌, Bool, ℕ, List, [], None, false, IfOk, IfErr, IsOkUnless};
ghost use Rattle.relay_tasks.specs.Error.{IsMemoryOr};
ghost use Rattle.relay_links.specs.Link.{LinkState, IsHandedOut};
ghost use Rattle.relay_h1.specs.Framing.{request_framing};
ghost use Rattle.relay_h1.specs.Verdict.{refused_from};
ghost use Rattle.relay_core.specs.Asked.{WaitRose};
ghost use Rattle.relay_core.specs.Causes.{says_failed};
ghost use Rattle.relay_core.specs.Past.{Origin};
ghost use Rattle.relay_core.specs.Piece.{put_of};
ghost use Rattle.relay_session.specs.Reading.{head_of, is_body_done};
ghost use Rattle.relay_sides.specs.Client.{BeginsBehind, put_again};
ghost use Rattle.relay_attempt.specs.Bound.{CountsOn, HasCounted};
ghost use Rattle.relay_attempt.specs.Passed.{Passed};
ghost use Rattle.relay_attempt.specs.Head.{IsRefusedFor, link_of, may_keep};
ghost use Rattle.relay_attempt.specs.Attempt.{DownHalf, IsAttempt, UpHalf};
ghost use Rattle.relay_attempt.specs.Exchange.{IsUnderWay, Turns, MeetsSilence, IsSilent, Asks, HasMoved, down_state};

use relay_core::{Piece, Step};
use relay_exchange::{Exchange, Turn};
use relay_links::{ByteLink, Schedule};
use relay_peer::PeerSide;
use relay_session::{Front, HttpSession};
use relay_sides::{ClientSide, Filtered, is_head_request};
use relay_tasks::{Context, ErrorSource, Fail, Pause, RequestHeader, Result};
use std::alloc::Global;

/// A request whose head was read, and its response, over one link to a peer.
#[derive(Drop)]
pub struct H1Exchange<L> {
    pub(crate) down: ClientSide,
    pub(crate) exchange: Exchange<Filtered<PeerSide<L>>>,
}

/// An exchange that was not begun: the link, and why.
pub struct Unbegun<L> {
    pub link: L,
    pub why: Fail,
}

impl<L: ByteLink> H1Exchange<L> {
    /// An exchange for the session's request over that link, which was just handed out. `head` is
    /// the head that is sent, which may differ from the client's in all: the request is framed as
    /// it says, and the response towards the client as the client's says. Where they frame alike a
    /// request does not end short, and no task of a response is refused. What the session has kept
    /// of the body is put before any turn, as one piece, and with it the end of a body that has
    /// ended: so it is sent from its first byte on, as `head` frames it.
    ///
    /// `InvalidHTTPHeader` of the source `Internal`, about `BadFraming`: exactly where
    /// `request_framing` refuses the head. Then, and where memory is wanted, also for what was
    /// kept, the link comes back, and the session is dropped.
    pub fn begin(
        alloc: Global,
        session: HttpSession,
        link: L,
        head: RequestHeader,
    ) -> std::result::Result<H1Exchange<L>, Unbegun<L>>
        ensures begins { IfOk result (λ x. (s : Origin) (came : List ℕ) (client : LinkState)
            (ahead : List ℕ) (reused : Bool) → head ≡ s.sent → s.asked ≡ false
            → BeginsBehind s came client ahead session
            → IsHandedOut (L.state link) (L.start link) reused → s.reused ≡ reused
            → IsUnderWay L.state L.start s
            (record { came = came; written = []; got = []; sent = [] }) client ahead x) }
        ensures session { IfOk result (λ x. x.down.session ≡ session) }
        ensures over { IfOk result (λ x. link_of x ≡ link) }
        ensures link { IfErr result (λ unbegun. unbegun.link ≡ link) }
        ensures refused { IsRefusedFor result
            (Fail.Error (refused_from ErrorSource.Internal Context.BadFraming))
            ↔ (request_framing head ≡ None) }
        ensures causes { IfErr result (λ unbegun.
            IsMemoryOr (refused_from ErrorSource.Internal Context.BadFraming) unbegun.why) }
    {
        let of_head = is_head_request(&head);
        let mut peer = PeerSide::new(alloc, link);
        if let Err(why) = peer.write_request_header(head) {
            return Err(Unbegun {
                link: peer.into_link(),
                why,
            });
        }
        let first = match first_piece(alloc, &session) {
            Ok(first) => first,
            Err(why) => {
                return Err(Unbegun {
                    link: peer.into_link(),
                    why,
                });
            }
        };
        let body_done = session.is_body_done();
        let down = ClientSide::new(alloc, session);
        let upstream = Filtered::new(peer, of_head);
        let exchange = Exchange::begin(alloc, body_done, upstream, Some(first));
        Ok(H1Exchange { down, exchange })
    }

    /// One turn, as in `Exchange::turn`: one write of the request's head, or one branch of the
    /// duplex.
    ///
    /// `Finished`: the response was written whole, and the request was sent whole, or the peer took
    /// no more of it, or it ended short. Where one alone of both heads is a HEAD, the response may
    /// be over towards the client before its end was read. `Failed` with an error says why one of
    /// both failed: nothing more is written or sent from then on. After `Finished` and `Failed` no
    /// turn is to follow.
    pub fn turn<F: Front, H: Schedule>(&mut self, client: &mut F, schedule: &mut H) -> Turn
        ensures goes { (s : Origin) (p : Passed)
            → IsUnderWay L.state L.start s p (F.state client.old) (F.ahead client.old) self.old
            → Turns L.state L.start s (F.state client.new) (F.ahead client.new) self.new
            result.step }
        // What passed is an attempt: each side was given the front of what the other put.
        ensures attempt { (s : Origin) (p : Passed)
            → IsUnderWay L.state L.start s p (F.state client.old) (F.ahead client.old) self.old
            → IsAttempt (DownHalf s (F.state client.new) self.new.down.done)
            (UpHalf s (L.start (link_of self.new)) (L.state (link_of self.new)))
            (down_state self.new.down) }
        // It waits only where a link answered so in this turn.
        ensures waits { result.step ≡ Step.Waited Pause.NotReady
            → WaitRose (F.state client.old) (F.state client.new)
            (L.state (link_of self.old)) (L.state (link_of self.new)) }
        ensures silent { result.step ≡ Step.Waited Pause.Silent
            → IsSilent L.state L.start (F.state client.new) self.new }
        // In silence all that can be done asks a link that is silent on it, and neither link
        // changed.
        ensures quiet { result.step ≡ Step.Waited Pause.Silent
            → MeetsSilence L.state L.start (F.state client.old) (F.state client.new) self.old
            self.new }
        // A turn asks one link once, or none. One that moved asked the link of its branch, or it
        // put a task into a pipe, took some out of one, or brought an end.
        ensures asks { Asks L.state L.start result.step (F.state client.old) (F.state client.new)
            self.old self.new }
        ensures moves { (s : Origin) (p : Passed)
            → IsUnderWay L.state L.start s p (F.state client.old) (F.ahead client.old) self.old
            → result.step ≡ Step.Moved
            → HasMoved L.state L.start result.branch (F.state client.old) (F.state client.new)
            self.old self.new }
        // What was counted of it goes on with what the turn moved: the tasks are no more than twice
        // the bytes that both links gave, and each end came once.
        ensures counts { (s : Origin) (tasks ends : ℕ)
            → HasCounted L.state L.start tasks ends s (F.state client.old) (F.ahead client.old)
            self.old
            → CountsOn L.state L.start tasks ends s (F.state client.new) (F.ahead client.new)
            self.old self.new result.step }
        // A turn that does not fail leaves the count of the client's faults.
        ensures calm { says_failed result.step ≡ false
            → (F.state client.new).faults ≡ (F.state client.old).faults }
        ensures client_start { F.start client.new ≡ F.start client.old }
        ensures peer_start { L.start (link_of self.new) ≡ L.start (link_of self.old) }
        // The client's session still has the head that it had.
        ensures head { head_of self.new.down.session.reading
            ≡ head_of self.old.down.session.reading }
    {
        self.exchange.turn(client, &mut self.down, schedule)
    }

    /// The session of the request.
    pub fn session(&self) -> &HttpSession
        ensures { result.now ≡ self.now.down.session }
    {
        self.down.session()
    }

    /// Whether a final head of the response that was handed on asks for the connection to be closed
    /// (RFC 9112, section 9.6).
    pub fn asks_to_close(&self) -> bool
        ensures { result ≡ self.now.exchange.up.closes }
    {
        self.exchange.up().asks_to_close()
    }

    /// Whether the link may be kept for a next request: not while the head is being sent, and then
    /// where both the duplex and the peer's side say so.
    pub fn may_keep(&self) -> bool
        ensures { result ≡ may_keep self.now }
    {
        self.exchange.upstream_may_keep() && self.exchange.up().inner().may_keep()
    }
}

impl<L> H1Exchange<L> {
    /// The link.
    pub fn link(&self) -> &L
        ensures { result.now ≡ link_of self.now }
    {
        self.exchange.up().inner().link()
    }

    /// The link alone.
    pub fn into_link(self) -> L
        ensures { result ≡ link_of self }
    {
        let H1Exchange {
            down: _down,
            exchange,
        } = self;
        exchange.into_up().into_inner().into_link()
    }

    /// The session of the request, and the link.
    pub fn into_parts(self) -> (HttpSession, L)
        ensures session { result.0 ≡ self.down.session }
        ensures link { result.1 ≡ link_of self }
    {
        let H1Exchange { down, exchange } = self;
        let session = down.into_session();
        (session, exchange.into_up().into_inner().into_link())
    }
}

/// What is put of a body before more is read of it: what the session has kept of it, with the end,
/// where the body has ended.
///
/// Fails out of memory alone.
fn first_piece(alloc: Global, session: &HttpSession) -> Result<Piece>
    ensures ok { IfOk result (λ piece. put_of false piece ≡ put_again session.now) }
    ensures end { IfOk result (λ piece. piece.upstream_end
        ≡ is_body_done session.now.reading) }
    ensures memory { IsOkUnless result Fail.OutOfMemory }
{
    let kept = session.get_retry_buffer(alloc)?;
    let done = session.is_body_done();
    Ok(Piece {
        bytes: kept,
        upstream_end: done,
        client_end: done,
    })
}
