//! One turn of a request, by the phase in which it stands.
ghost use Rattle.std.specs.Prelude.{◌≡◌, ◌⊎◌, ◌+◌, ◌<◌, ◌≤◌, ℕ, List, [], ◌++◌, length, Some, true, false};
ghost use Rattle.std.specs.Global.{Box};
ghost use Rattle.relay_links.specs.Told.{Gains};
ghost use Rattle.relay_attempt.specs.Passed.{Passed};
ghost use Rattle.relay_request.specs.Bound.{PhaseCounts, TurnedCounts};
ghost use Rattle.relay_request.specs.Calls.{AreMadeIn, CallsSoFar, GrowsCalls, allowed_by, is_exchanging, log_of};
ghost use Rattle.relay_request.specs.Closing.{Rests, TurnOf};
ghost use Rattle.relay_connector.specs.Connector.{Takes, links_of};
ghost use Rattle.relay_request.specs.Taken.{offers_before, offers_of_turn};
ghost use Rattle.relay_request.specs.Passed.{Start, called_to};
ghost use Rattle.relay_request.specs.Phases.{RunSoFar};
ghost use Rattle.relay_request.specs.Purging.{AsksPurger};
ghost use Rattle.relay_request.specs.Refusals.{faults_before, faults_of_turn};
ghost use Rattle.relay_request.specs.Relaying.{is_relaying};
ghost use Rattle.relay_request.specs.Stock.{items_held, all_links};
ghost use Rattle.relay_request.specs.Turn.{world_of, held_state, links_held, is_over, is_end, WorksIn, HandsOn, HasCause};
ghost use Rattle.relay_request.specs.Uses.{MovedBy, OwesAnswer, PhaseUses, TurnCounts, TurnUses};

use crate::answering::write_answer;
use crate::client_head::read_head;
use crate::failing::fail;
use crate::opening::reach;
use crate::preparing::prepare;
use crate::relaying::relay;
use crate::unlinked::answer_unlinked;
use relay_connector::{Connector, LinkOf};
use relay_h1::{Ahead, Connection};
use relay_hooks::ProxyHttp;
use relay_links::{ByteLink, Purger, Schedule};
use relay_request::{Calls, Did, Next, Phase, RunStep, Work};
use std::alloc::Global;
use std::mem;

/// One turn: one call of one link, of the connector or of a hook, one of the purger with that of a
/// hook behind it, one verdict on a head, or one branch of the duplex, with the calls of filters
/// that it makes. A request makes `most` attempts at most, and modules where `makes_modules` says
/// so; as it began, `first` calls of the client's link had failed. A phase that relays is turned
/// where it stands, since it has the most turns.
pub(crate) fn take_turn<SV: ProxyHttp, K: Connector, P: Purger, D: ByteLink, U: Drop, H: Schedule>(
    alloc: Global,
    hooks: &SV,
    connector: &mut K,
    purger: &mut P,
    most: usize,
    makes_modules: bool,
    first: u64,
    calls: &mut Calls<SV::Modules, SV::Kept, SV::CTX>,
    client: &mut Connection<D, U>,
    schedule: &mut H,
    room: &mut Ahead,
    phase: &mut Phase<LinkOf<K>, SV::CTX>,
) -> Did
    ensures turn { (s : Start) (p : Passed) (own : List _) → s.most ≡ most → s.first ≡ first
        → CallsSoFar (allowed_by (SV.allows hooks.now) SV.Modules.allows) (SV.mark_of hooks.now)
        calls.old phase.old
        → RunSoFar {C = SV.CTX} ⟦<LinkOf<K> as ByteLink>⟧.state ⟦<LinkOf<K> as ByteLink>⟧.start
        (called_to s (log_of calls.old)) p
        (world_of D.state client.old (K.fault_count connector.old)) own phase.old
        → TurnOf ⟦<LinkOf<K> as ByteLink>⟧.state ⟦<LinkOf<K> as ByteLink>⟧.start (called_to s
        (log_of calls.new))
        (world_of D.state client.new (K.fault_count connector.new)) own
        phase.old phase.new }
    ensures calls { (s : Start) (p : Passed) (own : List _) → s.most ≡ most → s.first ≡ first
        → CallsSoFar (allowed_by (SV.allows hooks.now) SV.Modules.allows) (SV.mark_of hooks.now)
        calls.old phase.old
        → RunSoFar {C = SV.CTX} ⟦<LinkOf<K> as ByteLink>⟧.state ⟦<LinkOf<K> as ByteLink>⟧.start
        (called_to s (log_of calls.old)) p
        (world_of D.state client.old (K.fault_count connector.old)) own phase.old
        → CallsSoFar (allowed_by (SV.allows hooks.now) SV.Modules.allows) (SV.mark_of hooks.now)
        calls.new phase.new }
    ensures called { GrowsCalls calls.old calls.new result.work }
    ensures once { is_exchanging phase.old ≡ false
        → length (log_of calls.new) ≤ 1 + length (log_of calls.old) }
    ensures purger { CallsSoFar (allowed_by (SV.allows hooks.now) SV.Modules.allows)
        (SV.mark_of hooks.now) calls.old phase.old
        → AsksPurger (P.state purger.old) (P.state purger.new) (log_of calls.old)
        (log_of calls.new) phase.new }
    ensures still { is_over phase.old ≡ true → log_of calls.new ≡ log_of calls.old }
    ensures cause { HasCause ⟦<LinkOf<K> as ByteLink>⟧.state ⟦<LinkOf<K> as ByteLink>⟧.start
        (log_of calls.old)
        (world_of D.state client.old (K.fault_count connector.old))
        (world_of D.state client.new (K.fault_count connector.new))
        phase.old phase.new result.step
        ⊎ ((result.step ≡ RunStep.Moved)
        × (length (log_of calls.old) < length (log_of calls.new))) }
    ensures hands_on { HandsOn phase.new result.step }
    ensures rests { Rests (world_of D.state client.old (K.fault_count connector.old))
        (world_of D.state client.new (K.fault_count connector.new)) phase.old phase.new
        result.step }
    ensures work { WorksIn phase.old result.step result.work }
    ensures uses { (s : Start) (p : Passed) (own : List _)
        → CallsSoFar (allowed_by (SV.allows hooks.now) SV.Modules.allows) (SV.mark_of hooks.now)
        calls.old phase.old
        → RunSoFar {C = SV.CTX} ⟦<LinkOf<K> as ByteLink>⟧.state ⟦<LinkOf<K> as ByteLink>⟧.start
        (called_to s (log_of calls.old)) p
        (world_of D.state client.old (K.fault_count connector.old)) own phase.old
        → TurnUses result.work.used (D.state client.old.link) (D.state client.new.link)
        (held_state ⟦<LinkOf<K> as ByteLink>⟧.state phase.old)
        (λ link. held_state ⟦<LinkOf<K> as ByteLink>⟧.state phase.new ≡ Some link) }
    ensures counts { (s : Start) (p : Passed) (own : List _) (n : ℕ)
        → CallsSoFar (allowed_by (SV.allows hooks.now) SV.Modules.allows) (SV.mark_of hooks.now)
        calls.old phase.old
        → RunSoFar {C = SV.CTX} ⟦<LinkOf<K> as ByteLink>⟧.state ⟦<LinkOf<K> as ByteLink>⟧.start
        (called_to s (log_of calls.old)) p
        (world_of D.state client.old (K.fault_count connector.old)) own phase.old
        → PhaseUses ⟦<LinkOf<K> as ByteLink>⟧.state ⟦<LinkOf<K> as ByteLink>⟧.start n own phase.old
        → TurnCounts ⟦<LinkOf<K> as ByteLink>⟧.state ⟦<LinkOf<K> as ByteLink>⟧.start n
        (D.state client.old.link)
        (D.state client.new.link) result.work.used own phase.new }
    ensures bounds { (s : Start) (p : Passed) (own : List _) (tasks ends : ℕ) → s.most ≡ most
        → CallsSoFar (allowed_by (SV.allows hooks.now) SV.Modules.allows) (SV.mark_of hooks.now)
        calls.old phase.old
        → RunSoFar {C = SV.CTX} ⟦<LinkOf<K> as ByteLink>⟧.state ⟦<LinkOf<K> as ByteLink>⟧.start
        (called_to s (log_of calls.old)) p
        (world_of D.state client.old (K.fault_count connector.old)) own phase.old
        → PhaseCounts {C = SV.CTX} ⟦<LinkOf<K> as ByteLink>⟧.state ⟦<LinkOf<K> as ByteLink>⟧.start
        tasks ends
        (called_to s (log_of calls.old)) (D.state client.old.link) client.old.ahead own phase.old
        → TurnedCounts {C = SV.CTX} ⟦<LinkOf<K> as ByteLink>⟧.state ⟦<LinkOf<K> as ByteLink>⟧.start
        (result.work.moved + tasks)
        (result.work.ended + ends) (called_to s (log_of calls.new)) (D.state client.new.link)
        client.new.ahead own phase.new }
    ensures moves { (a : Box _) → phase.old ≡ Phase.Relay a → result.step ≡ RunStep.Moved
        → MovedBy {C = SV.CTX} ⟦<LinkOf<K> as ByteLink>⟧.state ⟦<LinkOf<K> as ByteLink>⟧.start
        (log_of calls.old)
        (world_of D.state client.old (K.fault_count connector.old))
        (world_of D.state client.new (K.fault_count connector.new)) result.work a.value.exchange
        phase.new ⊎ (OwesAnswer phase.new
        ⊎ (length (log_of calls.old) < length (log_of calls.new))) }
    ensures over { is_over phase.new ≡ is_end result.step }
    ensures out { K.out connector.new + links_held ⟦<LinkOf<K> as ByteLink>⟧.state
        ⟦<LinkOf<K> as ByteLink>⟧.start phase.old
        ≡ K.out connector.old + links_held ⟦<LinkOf<K> as ByteLink>⟧.state
        ⟦<LinkOf<K> as ByteLink>⟧.start phase.new }
    ensures returned { K.returned connector.new ≡ K.returned connector.old }
    ensures refusals { Gains (K.refusals connector.old) (faults_of_turn phase.old phase.new)
        (K.refusals connector.new) }
    ensures offers { Takes (K.stock connector.old)
        (offers_of_turn ⟦<LinkOf<K> as ByteLink>⟧.start phase.old phase.new) (K.stock connector.new) }
    // What the request took goes on by what the turn took.
    ensures carries { is_over phase.old ≡ false → offers_before ⟦<LinkOf<K> as ByteLink>⟧.start []
        phase.old
        ++ offers_of_turn ⟦<LinkOf<K> as ByteLink>⟧.start phase.old phase.new
        ≡ offers_before ⟦<LinkOf<K> as ByteLink>⟧.start [] phase.new }
    // And so do the faults with which it was refused a link.
    ensures tells { is_over phase.old ≡ false
        → faults_before [] phase.old ++ faults_of_turn phase.old phase.new
        ≡ faults_before [] phase.new }
    ensures faults { K.fault_count connector.old ≤ K.fault_count connector.new }
    ensures kept { client.new.kept ≡ client.old.kept }
    ensures client_start { D.start client.new.link ≡ D.start client.old.link }
    ensures room { room.new ≡ room.old }
    ensures links { all_links ⟦<LinkOf<K> as ByteLink>⟧.start (K.returned connector.new)
        (items_held ⟦<LinkOf<K> as ByteLink>⟧.start phase.new)
        ≡ all_links ⟦<LinkOf<K> as ByteLink>⟧.start (K.returned connector.old)
        (items_held ⟦<LinkOf<K> as ByteLink>⟧.start phase.old
        ++ links_of (offers_of_turn ⟦<LinkOf<K> as ByteLink>⟧.start phase.old phase.new)) }
    ensures made { AreMadeIn makes_modules phase.old calls.old calls.new }
{
    if phase.is_relaying() {
        return relay(alloc, hooks, first, calls, client, schedule, room, phase);
    }
    move_on(
        alloc,
        hooks,
        connector,
        purger,
        most,
        makes_modules,
        calls,
        client,
        phase,
    )
}

/// One turn of a phase that does not relay. It is taken out of its place, and the next is put
/// there.
fn move_on<SV: ProxyHttp, K: Connector, P: Purger, D: ByteLink, U: Drop>(
    alloc: Global,
    hooks: &SV,
    connector: &mut K,
    purger: &mut P,
    most: usize,
    makes_modules: bool,
    calls: &mut Calls<SV::Modules, SV::Kept, SV::CTX>,
    client: &mut Connection<D, U>,
    phase: &mut Phase<LinkOf<K>, SV::CTX>,
) -> Did
    requires { is_relaying phase.old ≡ false }
    ensures turn { (s : Start) (p : Passed) (own : List _) → s.most ≡ most
        → CallsSoFar (allowed_by (SV.allows hooks.now) SV.Modules.allows) (SV.mark_of hooks.now)
        calls.old phase.old
        → RunSoFar {C = SV.CTX} ⟦<LinkOf<K> as ByteLink>⟧.state ⟦<LinkOf<K> as ByteLink>⟧.start
        (called_to s (log_of calls.old)) p
        (world_of D.state client.old (K.fault_count connector.old)) own phase.old
        → TurnOf ⟦<LinkOf<K> as ByteLink>⟧.state ⟦<LinkOf<K> as ByteLink>⟧.start (called_to s
        (log_of calls.new))
        (world_of D.state client.new (K.fault_count connector.new)) own
        phase.old phase.new }
    ensures calls { CallsSoFar (allowed_by (SV.allows hooks.now) SV.Modules.allows)
        (SV.mark_of hooks.now) calls.old phase.old
        → CallsSoFar (allowed_by (SV.allows hooks.now) SV.Modules.allows) (SV.mark_of hooks.now)
        calls.new phase.new }
    ensures called { GrowsCalls calls.old calls.new result.work }
    ensures once { is_exchanging phase.old ≡ false
        → length (log_of calls.new) ≤ 1 + length (log_of calls.old) }
    ensures purger { CallsSoFar (allowed_by (SV.allows hooks.now) SV.Modules.allows)
        (SV.mark_of hooks.now) calls.old phase.old
        → AsksPurger (P.state purger.old) (P.state purger.new) (log_of calls.old)
        (log_of calls.new) phase.new }
    ensures still { is_over phase.old ≡ true → log_of calls.new ≡ log_of calls.old }
    ensures cause { HasCause ⟦<LinkOf<K> as ByteLink>⟧.state ⟦<LinkOf<K> as ByteLink>⟧.start
        (log_of calls.old)
        (world_of D.state client.old (K.fault_count connector.old))
        (world_of D.state client.new (K.fault_count connector.new))
        phase.old phase.new result.step }
    ensures hands_on { HandsOn phase.new result.step }
    ensures rests { Rests (world_of D.state client.old (K.fault_count connector.old))
        (world_of D.state client.new (K.fault_count connector.new)) phase.old phase.new
        result.step }
    ensures work { WorksIn phase.old result.step result.work }
    ensures uses { (s : Start) (p : Passed) (own : List _)
        → RunSoFar {C = SV.CTX} ⟦<LinkOf<K> as ByteLink>⟧.state ⟦<LinkOf<K> as ByteLink>⟧.start s p
        (world_of D.state client.old (K.fault_count connector.old)) own phase.old
        → TurnUses result.work.used (D.state client.old.link) (D.state client.new.link)
        (held_state ⟦<LinkOf<K> as ByteLink>⟧.state phase.old)
        (λ link. held_state ⟦<LinkOf<K> as ByteLink>⟧.state phase.new ≡ Some link) }
    ensures counts { (s : Start) (p : Passed) (own : List _) (n : ℕ)
        → RunSoFar {C = SV.CTX} ⟦<LinkOf<K> as ByteLink>⟧.state ⟦<LinkOf<K> as ByteLink>⟧.start s p
        (world_of D.state client.old (K.fault_count connector.old)) own phase.old
        → PhaseUses ⟦<LinkOf<K> as ByteLink>⟧.state ⟦<LinkOf<K> as ByteLink>⟧.start n own phase.old
        → TurnCounts ⟦<LinkOf<K> as ByteLink>⟧.state ⟦<LinkOf<K> as ByteLink>⟧.start n
        (D.state client.old.link)
        (D.state client.new.link) result.work.used own phase.new }
    ensures bounds { (s : Start) (p : Passed) (own : List _) (tasks ends : ℕ) → s.most ≡ most
        → CallsSoFar (allowed_by (SV.allows hooks.now) SV.Modules.allows) (SV.mark_of hooks.now)
        calls.old phase.old
        → RunSoFar {C = SV.CTX} ⟦<LinkOf<K> as ByteLink>⟧.state ⟦<LinkOf<K> as ByteLink>⟧.start
        (called_to s (log_of calls.old)) p
        (world_of D.state client.old (K.fault_count connector.old)) own phase.old
        → PhaseCounts {C = SV.CTX} ⟦<LinkOf<K> as ByteLink>⟧.state ⟦<LinkOf<K> as ByteLink>⟧.start
        tasks ends
        (called_to s (log_of calls.old)) (D.state client.old.link) client.old.ahead own phase.old
        → TurnedCounts {C = SV.CTX} ⟦<LinkOf<K> as ByteLink>⟧.state ⟦<LinkOf<K> as ByteLink>⟧.start
        (result.work.moved + tasks)
        (result.work.ended + ends) (called_to s (log_of calls.new)) (D.state client.new.link)
        client.new.ahead own phase.new }
    ensures over { is_over phase.new ≡ is_end result.step }
    ensures out { K.out connector.new + links_held ⟦<LinkOf<K> as ByteLink>⟧.state
        ⟦<LinkOf<K> as ByteLink>⟧.start phase.old
        ≡ K.out connector.old + links_held ⟦<LinkOf<K> as ByteLink>⟧.state
        ⟦<LinkOf<K> as ByteLink>⟧.start phase.new }
    ensures returned { K.returned connector.new ≡ K.returned connector.old }
    ensures refusals { Gains (K.refusals connector.old) (faults_of_turn phase.old phase.new)
        (K.refusals connector.new) }
    ensures offers { Takes (K.stock connector.old)
        (offers_of_turn ⟦<LinkOf<K> as ByteLink>⟧.start phase.old phase.new) (K.stock connector.new) }
    // What the request took goes on by what the turn took.
    ensures carries { is_over phase.old ≡ false → offers_before ⟦<LinkOf<K> as ByteLink>⟧.start []
        phase.old
        ++ offers_of_turn ⟦<LinkOf<K> as ByteLink>⟧.start phase.old phase.new
        ≡ offers_before ⟦<LinkOf<K> as ByteLink>⟧.start [] phase.new }
    // And so do the faults with which it was refused a link.
    ensures tells { is_over phase.old ≡ false
        → faults_before [] phase.old ++ faults_of_turn phase.old phase.new
        ≡ faults_before [] phase.new }
    ensures faults { K.fault_count connector.old ≤ K.fault_count connector.new }
    ensures kept { client.new.kept ≡ client.old.kept }
    ensures client_start { D.start client.new.link ≡ D.start client.old.link }
    ensures links { all_links ⟦<LinkOf<K> as ByteLink>⟧.start (K.returned connector.new)
        (items_held ⟦<LinkOf<K> as ByteLink>⟧.start phase.new)
        ≡ all_links ⟦<LinkOf<K> as ByteLink>⟧.start (K.returned connector.old)
        (items_held ⟦<LinkOf<K> as ByteLink>⟧.start phase.old
        ++ links_of (offers_of_turn ⟦<LinkOf<K> as ByteLink>⟧.start phase.old phase.new)) }
    ensures made { AreMadeIn makes_modules phase.old calls.old calls.new }
{
    match mem::replace(phase, Phase::ReadHead) {
        Phase::ReadHead => phase.go_on(read_head(alloc, hooks, calls, client)),
        Phase::Connect(context, session, tries) => {
            phase.go_on(reach(
                hooks,
                connector,
                purger,
                most,
                makes_modules,
                calls,
                context,
                session,
                tries,
            ))
        }
        Phase::Unlinked(context, session, attempts, error) => {
            phase.go_on(answer_unlinked(hooks, calls, context, session, attempts, error))
        }
        Phase::Prepare(context, session, link, lease) => {
            phase.go_on(prepare::<SV, LinkOf<K>, Connection<D, U>>(
                alloc, hooks, calls, context, session, link, lease,
            ))
        }
        Phase::Relay(_attempt) => unreachable!(),
        Phase::Broken(context, session, link, lease, keep, error) => {
            phase.go_on(fail(
                hooks, most, calls, client, context, session, link, lease, keep, error,
            ))
        }
        Phase::Again(context, session, link, lease, keep, error) => phase.go_on(Next {
            phase: Phase::Again(context, session, link, lease, keep, error),
            step: RunStep::Moved,
            work: Work::ENDED,
        }),
        Phase::Fail(link, lease, keep, session, error) => phase.go_on(Next {
            phase: Phase::Fail(link, lease, keep, session, error),
            step: RunStep::Moved,
            work: Work::ENDED,
        }),
        Phase::Answer(session, owed, attempts) => {
            phase.go_on(write_answer(calls, client, session, owed, attempts))
        }
        Phase::Close(link, lease, keep, outcome) => phase.go_on(Next {
            phase: Phase::Close(link, lease, keep, outcome),
            step: RunStep::Ended,
            work: Work::NONE,
        }),
        Phase::Ended(outcome, attempts) => phase.go_on(Next {
            phase: Phase::Ended(outcome, attempts),
            step: RunStep::Ended,
            work: Work::NONE,
        }),
    }
}
