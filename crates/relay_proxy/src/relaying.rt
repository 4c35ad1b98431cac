//! The attempt: one turn of its exchange, and what becomes of the client and of the link once it
//! has ended (RFC 9112, section 9.3).
ghost use Rattle.std.specs.Prelude.{◌≡◌, ◌⊎◌, ◌+◌, ◌++◌, ◌<◌, All, List, ℕ, [], ◌∷◌, length, None, Some, true, false, if◌then◌else◌};
ghost use Rattle.std.specs.Global.{Box};
ghost use Rattle.relay_connector.specs.Connector.{handed};
ghost use Rattle.relay_tasks.specs.declared.log.LogEntry.{LogEntry};
ghost use Rattle.relay_core.specs.Asked.{WaitRose};
ghost use Rattle.relay_core.specs.Causes.{says_failed};
ghost use Rattle.relay_core.specs.Past.{Origin};
ghost use Rattle.relay_filters.specs.Hooked.{Walks, is_lost, seen_by};
ghost use Rattle.relay_filters.specs.Response.{IsFilterCall};
ghost use Rattle.relay_attempt.specs.Passed.{Passed};
ghost use Rattle.relay_hooked.specs.Bound.{CountsOn, HasCounted};
ghost use Rattle.relay_hooked.specs.Exchange.{IsUnderWay, Turns, MeetsSilence, Asks, HasMoved};
ghost use Rattle.relay_hooked.specs.Head.{link_of, may_keep};
ghost use Rattle.relay_request.specs.Bound.{LeavesLink, PhaseCounts, TurnedCounts};
ghost use Rattle.relay_request.specs.Leaving.{LeavesBy};
ghost use Rattle.relay_closing.specs.Place.{begun};
ghost use Rattle.relay_purging.specs.Told.{purges_in};
ghost use Rattle.relay_request.specs.Calls.{BreaksOff, CallsSoFar, EntersCalls, GrowsCalls, allowed_by, closed_with, log_of};
ghost use Rattle.relay_request.specs.declared.calls.At.{At};
ghost use Rattle.relay_request.specs.Passed.{World, Start, TellsClient, called_to};
ghost use Rattle.relay_request.specs.Phases.{IsLeased, LeavesSession, RunSoFar};
ghost use Rattle.relay_request.specs.Refusals.{attempts_in};
ghost use Rattle.relay_request.specs.Relaying.{is_relaying, TurnsOver, TurnsWithin};
ghost use Rattle.relay_request.specs.Reuse.{client_reusable};
ghost use Rattle.relay_request.specs.Stock.{items_held};
ghost use Rattle.relay_request.specs.Turn.{world_of, DoesWork, is_over, is_end, held_state, links_held, Advances, HandsOn, HasCause};
ghost use Rattle.relay_request.specs.Uses.{LinkUses, MovedBy, OwesAnswer, PhaseUses, TurnCounts, TurnUses};
ghost use Rattle.relay_request.specs.Work.{total_work};

use relay_core::Step;
use relay_exchange::Turn;
use relay_h1::{Ahead, Connection};
use relay_hooked::HookedExchange;
use relay_hooks::{HttpModule, ProxyHttp, Session};
use relay_links::{ByteLink, Schedule};
use relay_request::{
    Attempt, Calls, Did, Lease, Next, Outcome, Phase, RunStep, Uses, Work, has_risen, work_of,
    work_of_failure,
};
use relay_session::HttpSession;
use relay_tasks::{Error, Fail, Pause};
use std::alloc::Global;

/// What one turn of an exchange came to, and whether a count of uses of both links rose in it.
#[derive(Clone, Copy)]
struct Turned {
    turn: Turn,
    asked: bool,
}

/// One turn of a phase that relays, where it stands, behind the filters of that application. The
/// schedule picks the branch of the duplex. As the request began, `first` calls of the client's link
/// had failed.
pub(crate) fn relay<SV: ProxyHttp, D: ByteLink, U: Drop, L: ByteLink, H: Schedule>(
    alloc: Global,
    hooks: &SV,
    first: u64,
    calls: &mut Calls<SV::Modules, SV::Kept, SV::CTX>,
    client: &mut Connection<D, U>,
    schedule: &mut H,
    room: &mut Ahead,
    phase: &mut Phase<L, SV::CTX>,
) -> Did
    requires { is_relaying phase.old ≡ true }
    ensures run { (s : Start) (p : Passed) (faults : ℕ) → s.first ≡ first
        → CallsSoFar (allowed_by (SV.allows hooks.now) SV.Modules.allows) (SV.mark_of hooks.now)
        calls.old phase.old
        → RunSoFar {C = SV.CTX} L.state L.start (called_to s (log_of calls.old)) p
        (world_of D.state client.old faults) [] phase.old
        → Advances {C = SV.CTX} L.state L.start (called_to s (log_of calls.new))
        (world_of D.state client.new faults) phase.new }
    ensures calls { (s : Start) (p : Passed) (faults : ℕ) → s.first ≡ first
        → CallsSoFar (allowed_by (SV.allows hooks.now) SV.Modules.allows) (SV.mark_of hooks.now)
        calls.old phase.old
        → RunSoFar {C = SV.CTX} L.state L.start (called_to s (log_of calls.old)) p
        (world_of D.state client.old faults) [] phase.old
        → CallsSoFar (allowed_by (SV.allows hooks.now) SV.Modules.allows) (SV.mark_of hooks.now)
        calls.new phase.new }
    ensures cause { (faults : ℕ) → HasCause {C = SV.CTX} L.state L.start (log_of calls.old)
        (world_of D.state client.old faults) (world_of D.state client.new faults) phase.old
        phase.new result.step
        ⊎ ((result.step ≡ RunStep.Moved)
        × (length (log_of calls.old) < length (log_of calls.new))) }
    ensures hands_on { HandsOn phase.new result.step }
    ensures work { DoesWork result.step result.work }
    ensures uncalled { result.work.called ≡ 0 }
    ensures called { GrowsCalls calls.old calls.new result.work }
    ensures enters { (es : List LogEntry) × (log_of calls.new ≡ log_of calls.old ++ es)
        × All IsFilterCall es }
    ensures purged { purges_in (log_of calls.new) ≡ purges_in (log_of calls.old) }
    ensures uses { (s : Origin) (p : Passed) (a : Box (Attempt L SV.CTX))
        → phase.old ≡ Phase.Relay a
        → IsUnderWay L.state L.start s p (D.state client.old.link) client.old.ahead
        (log_of calls.old) a.value.exchange
        → TurnUses result.work.used (D.state client.old.link) (D.state client.new.link)
        (held_state L.state phase.old) (λ link. held_state L.state phase.new ≡ Some link) }
    ensures counts { (s : Origin) (p : Passed) (a : Box (Attempt L SV.CTX)) (n : ℕ)
        → phase.old ≡ Phase.Relay a
        → IsUnderWay L.state L.start s p (D.state client.old.link) client.old.ahead
        (log_of calls.old) a.value.exchange
        → LinkUses L.state L.start n (link_of a.value.exchange)
        → TurnCounts L.state L.start n (D.state client.old.link) (D.state client.new.link)
        result.work.used [] phase.new }
    ensures bounds { (s : Start) (tasks ends : ℕ)
        → CallsSoFar (allowed_by (SV.allows hooks.now) SV.Modules.allows) (SV.mark_of hooks.now)
        calls.old phase.old
        → PhaseCounts {C = SV.CTX} L.state L.start tasks ends (called_to s (log_of calls.old))
        (D.state client.old.link) client.old.ahead [] phase.old
        → TurnedCounts {C = SV.CTX} L.state L.start (result.work.moved + tasks)
        (result.work.ended + ends) (called_to s (log_of calls.new)) (D.state client.new.link)
        client.new.ahead [] phase.new }
    ensures moves { (faults : ℕ) (a : Box (Attempt L SV.CTX)) → phase.old ≡ Phase.Relay a
        → result.step ≡ RunStep.Moved → MovedBy {C = SV.CTX} L.state L.start (log_of calls.old)
        (world_of D.state client.old faults) (world_of D.state client.new faults) result.work
        a.value.exchange phase.new ⊎ (OwesAnswer phase.new
        ⊎ (length (log_of calls.old) < length (log_of calls.new))) }
    ensures over { is_over phase.new ≡ is_end result.step }
    ensures linked { links_held L.state L.start phase.new ≡ links_held L.state L.start phase.old }
    ensures items { items_held L.start phase.new ≡ items_held L.start phase.old }
    ensures tries { attempts_in phase.new ≡ attempts_in phase.old }
    ensures kept { client.new.kept ≡ client.old.kept }
    ensures client_start { D.start client.new.link ≡ D.start client.old.link }
    ensures room { room.new ≡ room.old }
{
    let Turned { turn, asked } = turn_within(hooks, calls, phase, client, schedule, room);
    match turn.step {
        Step::Moved => Did {
            step: RunStep::Moved,
            work: work_of(turn.branch, asked),
        },
        Step::Waited(Pause::NotReady) => Did {
            step: RunStep::Waited(Pause::NotReady),
            work: Work::USED,
        },
        Step::Waited(Pause::Silent) => Did {
            step: RunStep::Waited(Pause::Silent),
            work: Work::NONE,
        },
        Step::Finished => close_finished(first, calls, client, phase),
        Step::Failed(why) => leave_failed(alloc, phase, why, asked),
    }
}

/// The end of an attempt whose exchange has finished: its link is to go back.
fn close_finished<M: HttpModule + Drop, K: Drop, D: ByteLink, U, L: ByteLink, C: Drop>(
    first: u64,
    calls: &mut Calls<M, K, C>,
    client: &Connection<D, U>,
    phase: &mut Phase<L, C>,
) -> Did
    requires { is_relaying phase.old ≡ true }
    ensures closes { (a : Box (Attempt L C)) → phase.old ≡ Phase.Relay a
        → let x = a.value.exchange in phase.new ≡ Phase.Close (link_of x) a.value.lease (may_keep x)
        (Outcome.Served None
        (client_reusable x client.now.ahead first (D.state client.now.link).faults)) }
    ensures calls { (a : Box (Attempt L C)) → phase.old ≡ Phase.Relay a
        → calls.new ≡ closed_with
        (record calls.old { at = At.Closing a.value.context (begun None) })
        a.value.exchange.down.inner.session None }
    ensures log { log_of calls.new ≡ log_of calls.old }
    ensures leaves { (a : Box (Attempt L C)) → phase.old ≡ Phase.Relay a
        → LeavesLink (link_of a.value.exchange) a.value.lease phase.new }
    ensures over { is_over phase.new ≡ true }
    ensures linked { links_held L.state L.start phase.new ≡ links_held L.state L.start phase.old }
    ensures items { items_held L.start phase.new ≡ items_held L.start phase.old }
    ensures step { result.step ≡ RunStep.Ended }
    ensures work { result.work ≡ Work.ENDED }
{
    let Attempt {
        exchange,
        lease,
        context,
    } = Box::into_inner(phase.take_attempt());
    let keep = exchange.may_keep();
    let reuse = is_client_reusable(&exchange, client, first);
    let served = Outcome::Served { error: None, reuse };
    let (downstream, link) = exchange.into_parts();
    calls.begin_end(context);
    calls.take_client(downstream, None);
    phase.put(Phase::Close(link, lease, keep, served));
    Did {
        step: RunStep::Ended,
        work: Work::ENDED,
    }
}

/// The end of an attempt whose exchange failed, a link having been asked in that turn or not: the
/// application is to treat its error, and its link is not kept.
fn leave_failed<L: ByteLink, C: Drop>(
    alloc: Global,
    phase: &mut Phase<L, C>,
    why: Fail,
    asked: bool,
) -> Did
    requires { is_relaying phase.old ≡ true }
    ensures run { (a : Box (Attempt L C)) (s : Start) (p : Passed) (w : World)
        → phase.old ≡ Phase.Relay a → TellsClient s p w
        → let link = link_of a.value.exchange in
        IsLeased s p (L.state link) (L.start link) a.value.lease
        → LeavesBy s p w.client w.ahead (L.state link) (L.start link)
        a.value.exchange.down.inner.session why → Advances {C = C} L.state L.start s w phase.new }
    ensures calls { (a : Box (Attempt L C)) → phase.old ≡ Phase.Relay a
        → BreaksOff a.value.context a.value.exchange.down.inner.session phase.new }
    ensures lost { why ≡ Fail.OutOfMemory → is_over phase.new ≡ true }
    ensures owes { result.step ≡ RunStep.Moved → OwesAnswer phase.new }
    ensures step { (result.step ≡ RunStep.Moved) ⊎ (result.step ≡ RunStep.Ended) }
    ensures held { (a : Box (Attempt L C)) → phase.old ≡ Phase.Relay a
        → held_state L.state phase.new ≡ Some (L.state (link_of a.value.exchange)) }
    ensures last { (a : Box (Attempt L C)) (n : ℕ) → phase.old ≡ Phase.Relay a
        → LinkUses L.state L.start n (link_of a.value.exchange)
        → PhaseUses L.state L.start n [] phase.new }
    ensures over { is_over phase.new ≡ is_end result.step }
    ensures linked { links_held L.state L.start phase.new ≡ links_held L.state L.start phase.old }
    ensures items { items_held L.start phase.new ≡ items_held L.start phase.old }
    ensures work { 0 < total_work result.work }
    ensures uncalled { result.work.called ≡ 0 }
    ensures used { result.work.used ≡ (if asked then 1 else 0) }
    ensures unmoved { result.work.moved ≡ 0 }
    ensures end { result.work.ended ≡ 1 }
    ensures leaves { (a : Box (Attempt L C)) → phase.old ≡ Phase.Relay a
        → LeavesLink (link_of a.value.exchange) a.value.lease phase.new }
{
    let Attempt {
        exchange,
        lease,
        context,
    } = Box::into_inner(phase.take_attempt());
    let (session, link) = exchange.into_parts();
    let work = work_of_failure(asked);
    phase.go_on(leave(alloc, context, session, link, lease, why, work))
}

/// What a failed exchange leaves: its error is to be treated; out of memory the request ends.
fn leave<L: ByteLink, C: Drop>(
    alloc: Global,
    context: C,
    session: HttpSession,
    link: L,
    lease: Lease,
    why: Fail,
    work: Work,
) -> Next<L, C>
    ensures run { (s : Start) (p : Passed) (w : World) → TellsClient s p w
        → IsLeased s p (L.state link) (L.start link) lease
        → LeavesBy s p w.client w.ahead (L.state link) (L.start link) session why
        → Advances {C = C} L.state L.start s w result.phase }
    ensures calls { BreaksOff context session result.phase }
    ensures lost { why ≡ Fail.OutOfMemory → is_over result.phase ≡ true }
    ensures owes { result.step ≡ RunStep.Moved → OwesAnswer result.phase }
    ensures step { (result.step ≡ RunStep.Moved) ⊎ (result.step ≡ RunStep.Ended) }
    ensures held { held_state L.state result.phase ≡ Some (L.state link) }
    ensures leaves { LeavesLink link lease result.phase }
    ensures last { (n : ℕ) → LinkUses L.state L.start n link
        → PhaseUses L.state L.start n [] result.phase }
    ensures over { is_over result.phase ≡ is_end result.step }
    ensures linked { links_held L.state L.start result.phase ≡ 1 }
    ensures items { items_held L.start result.phase ≡ handed (L.start link) ∷ [] }
    ensures work { result.work ≡ work }
{
    match why {
        Fail::OutOfMemory => closed(link, lease, work),
        Fail::Error(error) => break_off(alloc, context, session, link, lease, error, work),
    }
}

/// The same of an exchange that failed with that error. Where there is no memory for the session,
/// the request ends.
fn break_off<L: ByteLink, C: Drop>(
    alloc: Global,
    context: C,
    session: HttpSession,
    link: L,
    lease: Lease,
    error: Error,
    work: Work,
) -> Next<L, C>
    ensures run { (s : Start) (p : Passed) (w : World) → TellsClient s p w
        → IsLeased s p (L.state link) (L.start link) lease
        → LeavesSession s p w.client w.ahead (L.state link) (L.start link) session error
        → Advances {C = C} L.state L.start s w result.phase }
    ensures calls { BreaksOff context session result.phase }
    ensures owes { result.step ≡ RunStep.Moved → OwesAnswer result.phase }
    ensures step { (result.step ≡ RunStep.Moved) ⊎ (result.step ≡ RunStep.Ended) }
    ensures held { held_state L.state result.phase ≡ Some (L.state link) }
    ensures leaves { LeavesLink link lease result.phase }
    ensures last { (n : ℕ) → LinkUses L.state L.start n link
        → PhaseUses L.state L.start n [] result.phase }
    ensures over { is_over result.phase ≡ is_end result.step }
    ensures linked { links_held L.state L.start result.phase ≡ 1 }
    ensures items { items_held L.start result.phase ≡ handed (L.start link) ∷ [] }
    ensures work { result.work ≡ work }
{
    match Box::new(alloc, session) {
        Ok(session) => Next {
            phase: Phase::Broken(context, session, link, lease, false, error),
            step: RunStep::Moved,
            work,
        },
        Err(_failed) => closed(link, lease, work),
    }
}

/// A request that ended out of memory over a link that is to go back, not kept.
fn closed<L, C>(link: L, lease: Lease, work: Work) -> Next<L, C>
    ensures phase { result.phase ≡ Phase.Close link lease false Outcome.OutOfMemory }
    ensures step { result.step ≡ RunStep.Ended }
    ensures work { result.work ≡ work }
{
    Next {
        phase: Phase::Close(link, lease, false, Outcome::OutOfMemory),
        step: RunStep::Ended,
        work,
    }
}

/// One turn of the exchange of a phase that relays, where it stands.
fn turn_within<SV: ProxyHttp, D: ByteLink, U: Drop, L: ByteLink, H: Schedule>(
    hooks: &SV,
    calls: &mut Calls<SV::Modules, SV::Kept, SV::CTX>,
    phase: &mut Phase<L, SV::CTX>,
    client: &mut Connection<D, U>,
    schedule: &mut H,
    room: &mut Ahead,
) -> Turned
    requires { is_relaying phase.old ≡ true }
    ensures turns { TurnsWithin {C = SV.CTX} L.state L.start (D.state client.old.link)
        (D.state client.new.link) client.old.ahead client.new.ahead (log_of calls.old)
        (log_of calls.new) phase.old phase.new result.turn result.asked }
    ensures enters { (a b : Box (Attempt L SV.CTX)) → phase.old ≡ Phase.Relay a
        → phase.new ≡ Phase.Relay b
        → EntersCalls (allowed_by (SV.allows hooks.now) SV.Modules.allows) (SV.mark_of hooks.now)
        (is_lost a.value.exchange.down.stopped) (is_lost b.value.exchange.down.stopped) calls.old
        a.value.exchange.down.inner.session a.value.context calls.new
        b.value.exchange.down.inner.session b.value.context }
    ensures entries { (es : List LogEntry) × (log_of calls.new ≡ log_of calls.old ++ es)
        × All IsFilterCall es }
    ensures relaying { is_relaying phase.new ≡ true }
    ensures going { is_over phase.new ≡ false }
    ensures linked { links_held L.state L.start phase.new ≡ links_held L.state L.start phase.old }
    ensures items { items_held L.start phase.new ≡ items_held L.start phase.old }
    ensures tries { attempts_in phase.new ≡ attempts_in phase.old }
    ensures kept { client.new.kept ≡ client.old.kept }
    ensures client_start { D.start client.new.link ≡ D.start client.old.link }
    ensures room { room.new ≡ room.old }
{
    match phase {
        Phase::Relay(attempt) => turn_counted(hooks, calls, attempt, client, schedule, room),
        Phase::ReadHead => unreachable!(),
        Phase::Connect(_, _, _) => unreachable!(),
        Phase::Unlinked(_, _, _, _) => unreachable!(),
        Phase::Prepare(_, _, _, _) => unreachable!(),
        Phase::Broken(_, _, _, _, _, _) => unreachable!(),
        Phase::Again(_, _, _, _, _, _) => unreachable!(),
        Phase::Fail(_, _, _, _, _) => unreachable!(),
        Phase::Close(_, _, _, _) => unreachable!(),
        Phase::Answer(_, _, _) => unreachable!(),
        Phase::Ended(_, _) => unreachable!(),
    }
}

/// One turn of the exchange of an attempt over the client's connection, with its context, and
/// whether a count of uses rose in it. The response is read into `room`, which comes back unless
/// bytes stand ahead in it.
fn turn_counted<SV: ProxyHttp, D: ByteLink, U: Drop, L: ByteLink, H: Schedule>(
    hooks: &SV,
    calls: &mut Calls<SV::Modules, SV::Kept, SV::CTX>,
    attempt: &mut Attempt<L, SV::CTX>,
    client: &mut Connection<D, U>,
    schedule: &mut H,
    room: &mut Ahead,
) -> Turned
    ensures turns { TurnsOver L.state L.start (D.state client.old.link) (D.state client.new.link)
        client.old.ahead client.new.ahead (log_of calls.old) (log_of calls.new)
        attempt.old.exchange attempt.new.exchange result.turn result.asked }
    ensures enters { EntersCalls (allowed_by (SV.allows hooks.now) SV.Modules.allows)
        (SV.mark_of hooks.now) (is_lost attempt.old.exchange.down.stopped)
        (is_lost attempt.new.exchange.down.stopped) calls.old
        attempt.old.exchange.down.inner.session attempt.old.context calls.new
        attempt.new.exchange.down.inner.session attempt.new.context }
    ensures entries { (es : List LogEntry) × (log_of calls.new ≡ log_of calls.old ++ es)
        × All IsFilterCall es }
    ensures lease { attempt.new.lease ≡ attempt.old.lease }
    ensures kept { client.new.kept ≡ client.old.kept }
    ensures client_start { D.start client.new.link ≡ D.start client.old.link }
    ensures room { room.new ≡ room.old }
{
    attempt.exchange.swap_room(room);
    let before = Uses::of(client, &attempt.exchange);
    let turn = turn_over(
        hooks,
        &mut calls.session,
        &mut attempt.context,
        &mut attempt.exchange,
        client,
        schedule,
    );
    let asked = before.have_risen(Uses::of(client, &attempt.exchange));
    attempt.exchange.swap_room(room);
    Turned { turn, asked }
}

/// One turn of an exchange over the client's connection. An exchange knows nothing of the value
/// that the connection keeps, so that is set aside.
fn turn_over<SV: ProxyHttp, D: ByteLink, U: Drop, L: ByteLink, H: Schedule>(
    hooks: &SV,
    session: &mut Session<SV::Modules>,
    context: &mut SV::CTX,
    exchange: &mut HookedExchange<L>,
    client: &mut Connection<D, U>,
    schedule: &mut H,
) -> Turn
    ensures goes { (s : Origin) (p : Passed)
        → IsUnderWay L.state L.start s p (D.state client.old.link) client.old.ahead
        session.old.seen.log exchange.old
        → Turns L.state L.start s (D.state client.new.link) client.new.ahead session.new.seen.log
        exchange.new result.step }
    ensures walks { Walks (allowed_by (SV.allows hooks.now) SV.Modules.allows)
        (is_lost exchange.old.down.stopped) (is_lost exchange.new.down.stopped)
        (seen_by session.old.seen exchange.old.down.inner.session)
        (SV.mark_of hooks.now context.old)
        (seen_by session.new.seen exchange.new.down.inner.session)
        (SV.mark_of hooks.now context.new) }
    ensures waits { result.step ≡ Step.Waited Pause.NotReady
        → WaitRose (D.state client.old.link) (D.state client.new.link)
        (L.state (link_of exchange.old)) (L.state (link_of exchange.new)) }
    ensures quiet { result.step ≡ Step.Waited Pause.Silent
        → MeetsSilence L.state (D.state client.old.link) (D.state client.new.link)
        session.new.seen.log exchange.old exchange.new }
    ensures asks { Asks L.state result.step (D.state client.old.link) (D.state client.new.link)
        exchange.old exchange.new }
    ensures counts { (s : Origin) (tasks ends : ℕ)
        → HasCounted L.state L.start tasks ends s (D.state client.old.link) client.old.ahead
        session.old.seen.log exchange.old
        → CountsOn L.state L.start tasks ends s (D.state client.new.link) client.new.ahead
        session.old.seen.log session.new.seen.log exchange.old exchange.new result.step }
    ensures moves { (s : Origin) (p : Passed)
        → IsUnderWay L.state L.start s p (D.state client.old.link) client.old.ahead
        session.old.seen.log exchange.old
        → result.step ≡ Step.Moved
        → HasMoved L.state result.branch (D.state client.old.link) (D.state client.new.link)
        session.old.seen.log session.new.seen.log exchange.old exchange.new }
    ensures calm { says_failed result.step ≡ false
        → (D.state client.new.link).faults ≡ (D.state client.old.link).faults }
    ensures peer_start { L.start (link_of exchange.new)
        ≡ L.start (link_of exchange.old) }
    ensures at_first { exchange.new.down.at_first ≡ exchange.old.down.at_first }
    ensures kept { client.new.kept ≡ client.old.kept }
    ensures client_start { D.start client.new.link ≡ D.start client.old.link }
{
    let kept = client.take_kept();
    let turn = exchange.turn(hooks, session, context, client, schedule);
    let _ = client.take_kept();
    if let Some(value) = kept {
        client.set_kept(value);
    }
    turn
}

/// Whether the client may ask for more behind a finished exchange. No call of its link may have
/// failed in the request, be it in an attempt before: as it began, `first` had.
fn is_client_reusable<D: ByteLink, U, L: ByteLink>(
    exchange: &HookedExchange<L>,
    client: &Connection<D, U>,
    first: u64,
) -> bool
    ensures { result ≡ client_reusable exchange.now client.now.ahead first
        (D.state client.now.link).faults }
{
    if has_risen(first, client.link().faults()) {
        return false;
    }
    let session = exchange.client_session();
    if session.response_closes() || !client.ahead().is_empty() {
        return false;
    }
    session.lets_ask_again()
}
