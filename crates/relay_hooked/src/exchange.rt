//! One exchange between a client and an HTTP/1 link to a peer behind the filters of an application,
//! which is held between turns without it, and without the session and the context that hooks are
//! shown (RFC 9112, sections 6, 7 and 9.3).
ghost use Rattle.std.specs.declared.alloc.Global.{Global};
ghost use Rattle.std.specs.Prelude.{◌≡◌, ◌↔◌, ◌+◌, ◌*◌, ◌≤◌, Bool, ℕ, List, [], None, Some, false, is_some, length, IfOk, IfErr, IsOkUnless, true, ◌⊎◌};
ghost use Rattle.relay_links.specs.Link.{IsHandedOut};
ghost use Rattle.relay_h1.specs.Framing.{request_framing};
ghost use Rattle.relay_h1.specs.Verdict.{refused_from};
ghost use Rattle.relay_core.specs.Asked.{WaitRose};
ghost use Rattle.relay_core.specs.Causes.{says_failed};
ghost use Rattle.relay_core.specs.Past.{DownPast, Origin, UpPast};
ghost use Rattle.relay_core.specs.Piece.{put_of, task_put_of};
ghost use Rattle.relay_sides.specs.Client.{BeginsBehind, begun_past, put_again};
ghost use Rattle.relay_sides.specs.Lent.{SameButHead};
ghost use Rattle.relay_calls.specs.Log.{IsAllowed};
ghost use Rattle.relay_exchange.specs.declared.exchange.Stage.TheVariants as stage;
ghost use Rattle.relay_exchange.specs.Exchange.{TellsOn};
ghost use Rattle.relay_filters.specs.Hooked.{Lasts, SameNames, Walks, is_lost, seen_by, stays_of, stood_head};
ghost use Rattle.relay_filters.specs.Request.{pieces_in};
ghost use Rattle.relay_filters.specs.Response.{SomeAllow};
ghost use Rattle.relay_attempt.specs.Attempt.{IsAttempt};
ghost use Rattle.relay_attempt.specs.Passed.{Passed};
ghost use Rattle.relay_hooked.specs.Attempt.{HookedHalf, PeerHalf};
ghost use Rattle.relay_hooked.specs.Begins.{CallsOnce, CannotPut, IsBegun, IsRefusedFor, IsUnbegun, calls_each, kept_piece};
ghost use Rattle.relay_hooked.specs.Bound.{CountsOn, HasCounted};
ghost use Rattle.relay_hooked.specs.Exchange.{Asks, HasMoved, IsBetween, IsSilent, IsUnderWay, MeetsSilence, SideHolds, Turns, TurnsBetween};
ghost use Rattle.relay_hooked.specs.Head.{core_in, filtering_of, link_of, may_keep, side_state};

use relay_core::{Piece, Step};
use relay_exchange::{Exchange, Turn};
use relay_filters::{Hooked, Rested};
use relay_h1::Ahead;
use relay_hooks::{ProxyHttp, Session};
use relay_links::{ByteLink, Schedule};
use relay_peer::PeerSide;
use relay_session::{Front, HttpSession};
use relay_sides::ClientSide;
use relay_tasks::{Context, ErrorSource, Fail, Pause, RequestHeader, Result};
use std::alloc::Global;

/// A request whose head was read, and its response, behind the filters of an application, over one
/// link to a peer. It borrows nothing: each turn is given the application, the session and the
/// context.
#[derive(Drop)]
pub struct HookedExchange<L> {
    // The rest of the client's side, which has the client's session.
    pub(crate) down: Rested,
    pub(crate) exchange: Exchange<PeerSide<L>>,
}

/// An exchange that was not begun: the client's session and the link, and why.
pub struct Unbegun<L> {
    pub client: HttpSession,
    pub link: L,
    pub why: Fail,
}

/// An exchange for the client's request behind that application, over that link, which was just
/// handed out. The calls of the application enter the log of `session`, in whose own client's
/// place a stand-in is; `ctx` is its context. `head` is the head that is sent, which may differ
/// from the client's in all: the request is framed as it says, and the response towards the
/// client as the client's says. What the client's session has kept of the body passes the filter
/// of requests as one piece, and with it the end of a body that has ended; what passes of it is
/// put before any turn. Where nothing was kept, and the body goes on, no filter is called.
///
/// `InvalidHTTPHeader` of the source `Internal`, about `BadFraming`: exactly where
/// `request_framing` refuses the head, before any call. Else the error of a filter, whose call
/// stands in the log; or memory was wanted. Then the client's session, as hooks left it, and the
/// link come back.
pub fn begin<SV: ProxyHttp, L: ByteLink, F: Front>(
    app: &SV,
    alloc: Global,
    session: &mut Session<SV::Modules>,
    ctx: &mut SV::CTX,
    client: HttpSession,
    link: L,
    head: RequestHeader,
) -> std::result::Result<HookedExchange<L>, Unbegun<L>>
    ensures begins { IfOk result (λ x. (front : F) (s : Origin) (came : List ℕ) (reused : Bool)
        → head ≡ s.sent → s.asked ≡ false → s.called ≡ session.old.seen.log
        → BeginsBehind s came (F.state front) (F.ahead front) client
        → IsHandedOut (L.state link) (L.start link) reused → s.reused ≡ reused
        → IsUnderWay L.state L.start s
        (record { came = came; written = []; got = []; sent = [] }) (F.state front)
        (F.ahead front) session.new.seen.log x) }
    // The only calls are those of the filters of requests with what is put again, the modules'
    // where they stand; where nothing is, there is none, and what hooks are shown is as it was.
    ensures calls { IfOk result (λ x. CallsOnce session.old ctx.old client
        (IsAllowed (SV.allows app.now) (SomeAllow SV.Modules.allows)) (SV.mark_of app.now)
        session.new ctx.new x.down.inner.session) }
    ensures once { IfOk result (λ x. length session.new.seen.log ≡ length session.old.seen.log
        + calls_each (is_some session.old.modules) * length (put_again client)) }
    ensures client { IfOk result (λ x. SameButHead client x.down.inner.session) }
    ensures over { IfOk result (λ x. link_of x ≡ link) }
    ensures at_first { IfOk result (λ x. x.down.at_first ≡ false) }
    ensures alive { IfOk result (λ x. is_lost x.down.stopped ≡ false) }
    ensures link_back { IfErr result (λ unbegun. unbegun.link ≡ link) }
    ensures refused { IsRefusedFor result
        (Fail.Error (refused_from ErrorSource.Internal Context.BadFraming)) session.old.seen.log
        session.new.seen.log ↔ (request_framing head ≡ None) }
    ensures causes { IfErr result (IsUnbegun session.old ctx.old client
        (IsAllowed (SV.allows app.now) (SomeAllow SV.Modules.allows)) (SV.mark_of app.now) head
        session.new ctx.new) }
{
    let mut peer = PeerSide::new(alloc, link);
    if let Err(why) = peer.write_request_header(head) {
        return Err(Unbegun {
            client,
            link: peer.into_link(),
            why,
        });
    }
    let body_done = client.is_body_done();
    match put_first::<SV, F>(app, alloc, session, ctx, client) {
        Ok(Put { down, piece }) => {
            let exchange = Exchange::begin(alloc, body_done, peer, Some(piece));
            Ok(HookedExchange { down, exchange })
        }
        Err(Unput { client, why }) => {
            Err(Unbegun {
                client,
                link: peer.into_link(),
                why,
            })
        }
    }
}

impl<L: ByteLink> HookedExchange<L> {
    /// One turn behind that application, as in `Exchange::turn`: one write of the request's head,
    /// or one branch of the duplex. The application is that of all turns, and so are the session
    /// and the context that hooks are shown.
    ///
    /// `Finished`: the response was written whole, and the request was sent whole, or the peer took
    /// no more of it, or it ended short; or the response was over towards the client before its end
    /// was given to the filters. `Failed` with an error says why one of both failed: nothing more
    /// is written or sent from then on. Where memory was wanted in a hook the turn is out of
    /// memory. After `Finished` and `Failed` no turn is to follow.
    pub fn turn<SV: ProxyHttp, F: Front, H: Schedule>(
        &mut self,
        app: &SV,
        session: &mut Session<SV::Modules>,
        ctx: &mut SV::CTX,
        client: &mut F,
        schedule: &mut H,
    ) -> Turn
        ensures goes { (s : Origin) (p : Passed)
            → IsUnderWay L.state L.start s p (F.state client.old) (F.ahead client.old)
            session.old.seen.log self.old
            → Turns L.state L.start s (F.state client.new) (F.ahead client.new)
            session.new.seen.log self.new result.step }
        // What passed is an attempt: each side was given the front of what the other put.
        ensures attempt { (s : Origin) (p : Passed)
            → IsUnderWay L.state L.start s p (F.state client.old) (F.ahead client.old)
            session.old.seen.log self.old
            → IsAttempt (HookedHalf (filtering_of s session.new.seen.log self.new.down) s
            (F.state client.new) self.new.down.ended self.new.down.inner.done)
            (PeerHalf s (L.start (link_of self.new)) (L.state (link_of self.new)))
            (side_state session.new.seen.log self.new.down) }
        // The calls of the turn stand in the log behind those before, each of them allowed, and
        // lead from the session and the context as they were to both as they are.
        ensures walks { Walks (IsAllowed (SV.allows app.now) (SomeAllow SV.Modules.allows))
            (is_lost self.old.down.stopped) (is_lost self.new.down.stopped)
            (seen_by session.old.seen self.old.down.inner.session) (SV.mark_of app.now ctx.old)
            (seen_by session.new.seen self.new.down.inner.session) (SV.mark_of app.now ctx.new) }
        // It waits only where a link answered so in this turn.
        ensures waits { result.step ≡ Step.Waited Pause.NotReady
            → WaitRose (F.state client.old) (F.state client.new) (L.state (link_of self.old))
            (L.state (link_of self.new)) }
        ensures silent { result.step ≡ Step.Waited Pause.Silent
            → IsSilent L.state (F.state client.new) self.new }
        // In silence all that can be done asks a link that is silent on it, and neither link
        // changed.
        ensures quiet { result.step ≡ Step.Waited Pause.Silent
            → MeetsSilence L.state (F.state client.old) (F.state client.new) session.new.seen.log
            self.old self.new }
        // A turn asks one link once, or none. One that moved asked the link of its branch, or it
        // put a task into a pipe, took some out of one, brought an end, or passed a piece through
        // the filters of requests.
        ensures asks { Asks L.state result.step (F.state client.old) (F.state client.new) self.old
            self.new }
        ensures moves { (s : Origin) (p : Passed)
            → IsUnderWay L.state L.start s p (F.state client.old) (F.ahead client.old)
            session.old.seen.log self.old
            → result.step ≡ Step.Moved
            → HasMoved L.state result.branch (F.state client.old) (F.state client.new)
            session.old.seen.log session.new.seen.log self.old self.new }
        // What was counted of it goes on with what the turn moved: what is moved, a piece that puts
        // nothing counted as a task, is no more than twice the bytes that both links gave, and each
        // end comes once.
        ensures counts_on { (s : Origin) (tasks ends : ℕ)
            → HasCounted L.state L.start tasks ends s (F.state client.old) (F.ahead client.old)
            session.old.seen.log self.old
            → CountsOn L.state L.start tasks ends s (F.state client.new) (F.ahead client.new)
            session.old.seen.log session.new.seen.log self.old self.new result.step }
        // A turn that does not fail takes no call of the filters of requests back.
        ensures calls { says_failed result.step ≡ false
            → length (pieces_in session.old.seen.log)
            ≤ length (pieces_in session.new.seen.log) }
        // A turn that does not fail leaves the count of the client's faults, and a client's session
        // that no hook may have left as anything.
        ensures calm { says_failed result.step ≡ false
            → (F.state client.new).faults ≡ (F.state client.old).faults }
        ensures alive { says_failed result.step ≡ false → is_lost self.new.down.stopped ≡ false }
        ensures client_start { F.start client.new ≡ F.start client.old }
        ensures peer_start { L.start (link_of self.new) ≡ L.start (link_of self.old) }
        // Nothing else takes the place of what it began with: the request had ended before its
        // first call or not, and there is a head.
        ensures at_first { self.new.down.at_first ≡ self.old.down.at_first }
        ensures head { stood_head (is_lost self.new.down.stopped) self.new.down.inner.session
            ≡ stood_head (is_lost self.old.down.stopped) self.old.down.inner.session }
    {
        let mut down = Hooked::over(app, session, ctx, &mut self.down);
        let went = turn_over(&mut self.exchange, client, &mut down, schedule);
        settled(&self.down, went)
    }

    /// The session of the client's request, which hooks were shown. Where memory was wanted in one
    /// it may be anything.
    pub fn client_session(&self) -> &HttpSession
        ensures { result.now ≡ self.now.down.inner.session }
    {
        self.down.inner().session()
    }

    /// Whether the link may be kept for a next request: not while the head is being sent, and then
    /// where both the duplex and the peer's side say so.
    pub fn may_keep(&self) -> bool
        ensures { result ≡ may_keep self.now }
    {
        self.exchange.upstream_may_keep() && self.exchange.up().may_keep()
    }
}

impl<L> HookedExchange<L> {
    /// Whether modules stood for each batch that passed its filters so far.
    pub fn modules_stood(&self) -> bool
        ensures { result ≡ self.now.down.stood }
    {
        self.down.modules_stood()
    }

    /// The link.
    pub fn link(&self) -> &L
        ensures { result.now ≡ link_of self.now }
    {
        self.exchange.up().link()
    }

    /// Reads the response into that buffer from now on, and leaves its own in its place, where
    /// neither has bytes ahead. What can be seen of both stays as it was.
    pub fn swap_room(&mut self, room: &mut Ahead)
        ensures same { self.new ≡ self.old }
        ensures room { room.new ≡ room.old }
    {
        self.exchange.up_mut().swap_room(room);
    }

    /// The session of the client's request, and the link.
    pub fn into_parts(self) -> (HttpSession, L)
        ensures client { result.0 ≡ self.down.inner.session }
        ensures link { result.1 ≡ link_of self }
    {
        let HookedExchange { down, exchange } = self;
        let client = down.into_inner().into_session();
        (client, exchange.into_up().into_link())
    }

    /// The link alone.
    pub fn into_link(self) -> L
        ensures { result ≡ link_of self }
    {
        let HookedExchange {
            down: _down,
            exchange,
        } = self;
        exchange.into_up().into_link()
    }
}

/// One turn of that exchange over that side, which goes on holding what it was made over.
fn turn_over<SV: ProxyHttp, L: ByteLink, F: Front, H: Schedule>(
    exchange: &mut Exchange<PeerSide<L>>,
    client: &mut F,
    down: &mut Hooked<'_, SV>,
    schedule: &mut H,
) -> Turn
    ensures goes { (s : Origin) (p : DownPast) (q : UpPast)
        → IsBetween L.state L.start s (F.state client.old) (F.ahead client.old)
        down.old.session.now.seen.log
        (record { down = down.old.side.now; exchange = exchange.old }) p q
        → TurnsBetween L.state L.start s (F.state client.new) (F.ahead client.new)
        down.new.session.now.seen.log (is_some down.new.session.now.modules)
        (record { down = down.new.side.now; exchange = exchange.new }) p q
        (core_in down.old.session.now.seen.log
        (record { down = down.old.side.now; exchange = exchange.old })) result.step }
    ensures bodies { result.step ≡ Step.Finished → exchange.new.stage ≡ stage.Bodies }
    ensures waits { result.step ≡ Step.Waited Pause.NotReady
        → WaitRose (F.state client.old) (F.state client.new)
        (L.state exchange.old.up.client.link) (L.state exchange.new.up.client.link) }
    ensures silent { result.step ≡ Step.Waited Pause.Silent
        → IsSilent L.state (F.state client.new)
        (record { down = down.new.side.now; exchange = exchange.new }) }
    ensures quiet { result.step ≡ Step.Waited Pause.Silent
        → MeetsSilence L.state (F.state client.old) (F.state client.new)
        down.new.session.now.seen.log
        (record { down = down.old.side.now; exchange = exchange.old })
        (record { down = down.new.side.now; exchange = exchange.new }) }
    ensures asks { Asks L.state result.step (F.state client.old) (F.state client.new)
        (record { down = down.old.side.now; exchange = exchange.old })
        (record { down = down.new.side.now; exchange = exchange.new }) }
    ensures moves { (s : Origin) (p : DownPast) (q : UpPast)
        → IsBetween L.state L.start s (F.state client.old) (F.ahead client.old)
        down.old.session.now.seen.log
        (record { down = down.old.side.now; exchange = exchange.old }) p q
        → result.step ≡ Step.Moved
        → HasMoved L.state result.branch (F.state client.old) (F.state client.new)
        down.old.session.now.seen.log down.new.session.now.seen.log
        (record { down = down.old.side.now; exchange = exchange.old })
        (record { down = down.new.side.now; exchange = exchange.new }) }
    ensures errors { TellsOn down.old.side.now.told down.new.side.now.told result.step }
    ensures calls { says_failed result.step ≡ false
        → length (pieces_in down.old.session.now.seen.log)
        ≤ length (pieces_in down.new.session.now.seen.log) }
    ensures calm { says_failed result.step ≡ false
        → (F.state client.new).faults ≡ (F.state client.old).faults }
    ensures client_start { F.start client.new ≡ F.start client.old }
    ensures peer_start { L.start exchange.new.up.client.link
        ≡ L.start exchange.old.up.client.link }
    ensures lasts { Lasts (IsAllowed (SV.allows down.old.app.now) (SomeAllow SV.Modules.allows))
        (stays_of down.old.app.now down.old.side.now) (stays_of down.new.app.now down.new.side.now)
        (is_lost down.old.side.now.stopped) (is_lost down.new.side.now.stopped)
        (seen_by down.old.session.now.seen down.old.side.now.inner.session)
        (SV.mark_of down.old.app.now down.old.ctx.now)
        (seen_by down.new.session.now.seen down.new.side.now.inner.session)
        (SV.mark_of down.new.app.now down.new.ctx.now) }
    ensures same_session { down.new.session.ghost_name ≡ down.old.session.ghost_name }
    ensures same_ctx { down.new.ctx.ghost_name ≡ down.old.ctx.ghost_name }
    ensures same_side { down.new.side.ghost_name ≡ down.old.side.ghost_name }
{
    exchange.turn(client, down, schedule)
}

/// What a turn came to that left this: where memory was wanted in a hook, that, whatever the duplex
/// answered.
fn settled(left: &Rested, turn: Turn) -> Turn
    ensures branch { result.branch ≡ turn.branch }
    ensures lost { is_lost left.now.stopped ≡ true → result.step ≡ Step.Failed Fail.OutOfMemory }
    ensures alive { is_lost left.now.stopped ≡ false → result.step ≡ turn.step }
    ensures either { (result.step ≡ turn.step) ⊎ (result.step ≡ Step.Failed Fail.OutOfMemory) }
{
    if left.is_lost() {
        return Turn {
            step: Step::Failed(Fail::OutOfMemory),
            branch: turn.branch,
        };
    }
    turn
}

/// What the session has kept of a body as one piece, with the end, where the body has ended.
///
/// Fails out of memory alone.
fn kept_of(alloc: Global, session: &HttpSession) -> Result<Piece>
    ensures ok { IfOk result (λ piece. piece ≡ kept_piece session.now) }
    ensures memory { IsOkUnless result Fail.OutOfMemory }
{
    let kept = session.get_retry_buffer(alloc)?;
    let done = session.is_body_done();
    Ok(Piece {
        bytes: kept,
        upstream_end: done,
        client_end: done,
    })
}

/// Whether the piece puts a task: it is not empty, or the end.
fn puts(piece: &Piece) -> bool
    ensures { result ≡ is_some (task_put_of false piece.now) }
{
    !piece.is_empty() || piece.upstream_end
}

/// The client's side behind filters, and what is put before any turn.
struct Put {
    down: Rested,
    piece: Piece,
}

/// The client's session, for which nothing could be put, and why.
struct Unput {
    client: HttpSession,
    why: Fail,
}

/// The client's side behind the filters of that application, and what is put before any turn: what
/// passes of what the session has kept of the body. Where that puts nothing no filter is called.
///
/// The error of a filter, or out of memory: then the client's session comes back, as hooks left it.
fn put_first<SV: ProxyHttp, F: Front>(
    app: &SV,
    alloc: Global,
    session: &mut Session<SV::Modules>,
    ctx: &mut SV::CTX,
    client: HttpSession,
) -> std::result::Result<Put, Unput>
    ensures begins { IfOk result (λ r. (front : F) (s : Origin) (came : List ℕ)
        → s.called ≡ session.old.seen.log
        → BeginsBehind s came (F.state front) (F.ahead front) client
        → SideHolds (F.state front) (F.ahead front) session.new.seen.log s r.down
        (begun_past came (put_of false r.piece))) }
    ensures begun { IfOk result (λ r. IsBegun client r.down r.piece) }
    ensures calls { IfOk result (λ r. CallsOnce session.old ctx.old client
        (IsAllowed (SV.allows app.now) (SomeAllow SV.Modules.allows)) (SV.mark_of app.now)
        session.new ctx.new r.down.inner.session) }
    ensures causes { IfErr result (λ unput. CannotPut session.old ctx.old client
        (IsAllowed (SV.allows app.now) (SomeAllow SV.Modules.allows)) (SV.mark_of app.now)
        unput.why session.new ctx.new unput.client) }
{
    let kept = match kept_of(alloc, &client) {
        Ok(kept) => kept,
        Err(why) => return Err(Unput { client, why }),
    };
    let of_head = client.answers_head();
    let inner = ClientSide::new(alloc, client);
    if !puts(&kept) {
        let down = Rested::begin::<F>(inner, session.phase_log(), false, of_head);
        return Ok(Put { down, piece: kept });
    }
    let (down, passed) = Rested::begin_again::<SV, F>(app, session, ctx, inner, kept, of_head);
    match passed {
        Ok(piece) => Ok(Put { down, piece }),
        Err(why) => {
            let client = down.into_inner().into_session();
            Err(Unput { client, why })
        }
    }
}
