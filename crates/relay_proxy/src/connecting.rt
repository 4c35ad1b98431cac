//! The connector: asked for a link to the peer that was named, of which the application is told,
//! and over which the attempt then goes. Where it refuses one the application treats the error, and
//! another attempt follows where that lets one, while the request may make a further attempt (RFC
//! 9110, section 9.2.2): nothing of the request was sent then.
ghost use Rattle.std.specs.Prelude.{◌≡◌, ◌⊎◌, ◌↔◌, ◌+◌, ◌≤◌, [], ◌∷◌, ◌++◌, length, ℕ, List, IsTrue, false};
ghost use Rattle.std.specs.Global.{Box};
ghost use Rattle.relay_connector.specs.declared.upstream.Upstream.{Upstream};
ghost use Rattle.relay_tasks.specs.declared.ErrorSource.TheVariants as side;
ghost use Rattle.relay_connector.specs.Connector.{IsConnectFault, handed};
ghost use Rattle.relay_connector.specs.Upstream.{SpeaksBytes};
ghost use Rattle.relay_links.specs.Count.{last_count, Rose};
ghost use Rattle.relay_links.specs.Link.{LinkState, IsHandedOut};
ghost use Rattle.relay_attempt.specs.Passed.{Passed};
ghost use Rattle.relay_request.specs.declared.calls.At.{At};
ghost use Rattle.relay_request.specs.Bound.{CountsLink};
ghost use Rattle.relay_request.specs.Calls.{CallsSoFar, CountsCalls, IsUnended, allowed_by, is_calling, log_of};
ghost use Rattle.relay_request.specs.Taken.{TakesAfter};
ghost use Rattle.relay_request.specs.Passed.{World, Start, opened_to};
ghost use Rattle.relay_request.specs.Phases.{RunSoFar};
ghost use Rattle.relay_request.specs.Sent.{unrelayed};
ghost use Rattle.relay_request.specs.Refusals.{faults_before, faults_told};
ghost use Rattle.relay_request.specs.Stock.{items_held};
ghost use Rattle.relay_request.specs.Uses.{PhaseUses};
ghost use Rattle.relay_request.specs.Tries.{MayTry, tries_in, unlinked_record};
ghost use Rattle.relay_request.specs.Turn.{world_with, DoesWork, is_over, is_end, links_held, Advances, HasCause};

use crate::preparing::{closed, fail_ahead};
use relay_connector::{Connector, LinkOf};
use relay_hooks::{HttpModule, ProxyHttp};
use relay_links::ByteLink;
use relay_request::{
    AttemptList, AttemptRecord, AttemptRoom, Calls, Lease, Next, Outcome, Phase, RunStep, Work,
    tell_link, treat_unlinked,
};
use relay_session::HttpSession;
use relay_tasks::{Error, ErrorType, Fail, Fault, Peer};
use std::alloc::Global;

/// A request that ended without a link, when out of memory.
pub(crate) fn out_of_memory<L, C>(alloc: Global) -> Next<L, C>
    ensures phase { result.phase ≡ Phase.Ended Outcome.OutOfMemory [] }
    ensures step { result.step ≡ RunStep.Ended }
    ensures work { result.work ≡ Work.ENDED }
{
    Next {
        phase: Phase::Ended(Outcome::OutOfMemory, AttemptList::new(alloc)),
        step: RunStep::Ended,
        work: Work::ENDED,
    }
}

/// A request that ended without a link, behind those attempts, when out of memory.
pub(crate) fn lacks_memory<L, C>(attempts: AttemptList) -> Next<L, C>
    ensures phase { result.phase ≡ Phase.Ended Outcome.OutOfMemory attempts }
    ensures step { result.step ≡ RunStep.Ended }
    ensures work { result.work ≡ Work.ENDED }
{
    Next {
        phase: Phase::Ended(Outcome::OutOfMemory, attempts),
        step: RunStep::Ended,
        work: Work::ENDED,
    }
}

/// What is known of an attempt to which the connector gave no link: the peer, twice, since the
/// application is told of it and it is recorded; room for the record; and the connector's fault.
#[derive(Drop)]
struct Lacking {
    peer: Peer,
    recorded: Peer,
    room: AttemptRoom,
    fault: Fault,
}

impl Lacking {
    /// The attempts so far, and this one, with that error.
    fn record(self, error: Error) -> AttemptList
        ensures { result ≡ self.room.items.items ++ unlinked_record self.recorded self.fault error
            ∷ [] }
    {
        let Lacking {
            peer: _,
            recorded,
            room,
            fault,
        } = self;
        room.fill(AttemptRecord {
            peer: recorded,
            reused: false,
            kept: false,
            error: Some(error),
            fault: Some(fault),
        })
    }
}

/// Asks the connector for a link to the peer that was named, behind those attempts, and tells the
/// application of the link, or that there is none. Room for the attempt's record is made first, and
/// both peers. Where the connector gives none another attempt may follow, while the request has
/// made less than `most`; else the client is to be answered.
pub(crate) fn connect<SV: ProxyHttp, K: Connector>(
    app: &SV,
    connector: &mut K,
    most: usize,
    calls: &mut Calls<SV::Modules, SV::Kept, SV::CTX>,
    context: SV::CTX,
    session: Box<HttpSession>,
    tries: AttemptList,
) -> Next<LinkOf<K>, SV::CTX>
    requires { is_calling calls.old.at ≡ false }
    ensures run { (s : Start) (p : Passed) (client : LinkState) (ahead : List ℕ) → s.most ≡ most
        → CallsSoFar {L = Upstream K.Byte K.Message K.Custom} (allowed_by (SV.allows app.now)
        SV.Modules.allows)
        (SV.mark_of app.now) calls.old (Phase.Connect context session tries)
        → RunSoFar {C = SV.CTX} ⟦<LinkOf<K> as ByteLink>⟧.state ⟦<LinkOf<K> as ByteLink>⟧.start
        (opened_to s (log_of calls.old)) p
        (world_with client ahead (K.fault_count connector.old)) []
        (Phase.Connect context session tries)
        → Advances {C = SV.CTX} ⟦<LinkOf<K> as ByteLink>⟧.state ⟦<LinkOf<K> as ByteLink>⟧.start
        (opened_to s (log_of calls.new))
        (world_with client ahead (K.fault_count connector.new)) result.phase }
    ensures calls { CallsSoFar {L = Upstream K.Byte K.Message K.Custom} (allowed_by (SV.allows
        app.now) SV.Modules.allows)
        (SV.mark_of app.now) calls.old (Phase.Connect context session tries)
        → CallsSoFar {L = Upstream K.Byte K.Message K.Custom} (allowed_by (SV.allows app.now)
        SV.Modules.allows)
        (SV.mark_of app.now) calls.new result.phase }
    ensures cause { (log : List _) (client : LinkState) (ahead : List ℕ)
        → HasCause ⟦<LinkOf<K> as ByteLink>⟧.state ⟦<LinkOf<K> as ByteLink>⟧.start log
        (world_with client ahead (K.fault_count connector.old))
        (world_with client ahead (K.fault_count connector.new))
        (Phase.Connect context session tries) result.phase result.step }
    ensures work { DoesWork result.step result.work }
    ensures called { CountsCalls calls.old calls.new result.work }
    ensures counts { CountsLink tries result.phase result.work }
    ensures unused { result.work.used ≡ 0 }
    ensures step { (result.step ≡ RunStep.Moved) ⊎ (result.step ≡ RunStep.Ended) }
    ensures over { is_over result.phase ≡ is_end result.step }
    ensures out { K.out connector.new
        ≡ K.out connector.old + links_held ⟦<LinkOf<K> as ByteLink>⟧.state
        ⟦<LinkOf<K> as ByteLink>⟧.start result.phase }
    ensures returned { K.returned connector.new ≡ K.returned connector.old }
    // A link that was given was not asked yet.
    ensures fresh { PhaseUses ⟦<LinkOf<K> as ByteLink>⟧.state ⟦<LinkOf<K> as ByteLink>⟧.start 0 []
        result.phase }
    ensures asks { TakesAfter (faults_told tries) (faults_before [] result.phase)
        (items_held ⟦<LinkOf<K> as ByteLink>⟧.start result.phase) (K.refusals connector.old)
        (K.refusals connector.new) (K.stock connector.old) (K.stock connector.new) }
    ensures faults { K.fault_count connector.old ≤ K.fault_count connector.new }
    ensures unended { IsUnended (log_of calls.old) → IsUnended (log_of calls.new) }
{
    let room = match AttemptRoom::behind(tries) {
        Ok(room) => room,
        Err(tries) => return lacks_memory(tries),
    };
    let Some(peer) = calls.peer() else {
        return lacks_memory(room.into_tries());
    };
    let Some(recorded) = calls.peer() else {
        return lacks_memory(room.into_tries());
    };
    match connector.get(&peer) {
        Ok((link, reused)) => {
            let lease = Lease {
                peer,
                recorded,
                reused,
                room,
            };
            let speaks = link.carries_bytes();
            tell(app, calls, context, session, link, lease, speaks)
        }
        Err(fault) => {
            let lacking = Lacking {
                peer,
                recorded,
                room,
                fault,
            };
            refused_link(app, most, calls, context, session, lacking)
        }
    }
}

/// Tells the application of a link that was just handed out, behind which the head is made. Where
/// it fails, or the link carries messages, over which nothing is relayed yet, the link is to go
/// back, not kept, and the error is to be treated.
fn tell<SV: ProxyHttp, L: ByteLink>(
    app: &SV,
    calls: &mut Calls<SV::Modules, SV::Kept, SV::CTX>,
    context: SV::CTX,
    session: Box<HttpSession>,
    link: L,
    lease: Lease,
    speaks: bool,
) -> Next<L, SV::CTX>
    ensures run { (s : Start) (p : Passed) (w : World)
        → CallsSoFar {L = L} (allowed_by (SV.allows app.now) SV.Modules.allows)
        (SV.mark_of app.now) calls.old (Phase.Connect context session (tries_in lease))
        → RunSoFar {C = SV.CTX} L.state L.start (opened_to s (log_of calls.old)) p w []
        (Phase.Connect context session (tries_in lease))
        → calls.old.at ≡ At.Named lease.peer → lease.recorded ≡ lease.peer
        → IsHandedOut (L.state link) (L.start link) lease.reused
        → (IsTrue speaks ↔ SpeaksBytes (L.start link))
        → Advances L.state L.start (opened_to s (log_of calls.new)) w result.phase }
    ensures calls { calls.old.at ≡ At.Named lease.peer
        → CallsSoFar {L = L} (allowed_by (SV.allows app.now) SV.Modules.allows)
        (SV.mark_of app.now) calls.old (Phase.Connect context session (tries_in lease))
        → CallsSoFar {L = L} (allowed_by (SV.allows app.now) SV.Modules.allows)
        (SV.mark_of app.now) calls.new result.phase }
    ensures cause { (log : List _) (w x : World) → HasCause L.state L.start log w x
        (Phase.Connect context session (tries_in lease)) result.phase result.step }
    ensures work { DoesWork result.step result.work }
    ensures called { CountsCalls calls.old calls.new result.work }
    ensures counts { CountsLink (tries_in lease) result.phase result.work }
    ensures unused { result.work.used ≡ 0 }
    ensures step { (result.step ≡ RunStep.Moved) ⊎ (result.step ≡ RunStep.Ended) }
    ensures over { is_over result.phase ≡ is_end result.step }
    ensures linked { links_held L.state L.start result.phase ≡ 1 }
    ensures items { items_held L.start result.phase ≡ handed (L.start link) ∷ [] }
    ensures fresh { IsHandedOut (L.state link) (L.start link) lease.reused
        → PhaseUses L.state L.start 0 [] result.phase }
    ensures unended { IsUnended (log_of calls.old) → IsUnended (log_of calls.new) }
{
    let mut context = context;
    let mut session = session;
    match tell_link(
        app,
        calls,
        &mut context,
        &mut session,
        &lease.peer,
        lease.reused,
    ) {
        Ok(()) if speaks => Next {
            phase: Phase::Prepare(context, session, link, lease),
            step: RunStep::Moved,
            work: Work::CALLED,
        },
        Ok(()) => fail_ahead(context, session, link, lease, false, unspoken()),
        Err(Fail::Error(error)) => fail_ahead(context, session, link, lease, false, error),
        Err(Fail::OutOfMemory) => closed(link, lease, false, Outcome::OutOfMemory),
    }
}

/// The error of an attempt over a link that carries messages: nothing is relayed over one yet.
fn unspoken() -> Error
    ensures { result ≡ unrelayed side.Upstream }
{
    Error::new_up(ErrorType::Custom(1))
}

/// An attempt to which the connector gave no link, with that fault: the application treats its
/// error, and it is recorded with that. Another attempt follows where one may; else the client is
/// to be answered. Room for the record was made before.
fn refused_link<SV: ProxyHttp, L: ByteLink>(
    app: &SV,
    most: usize,
    calls: &mut Calls<SV::Modules, SV::Kept, SV::CTX>,
    context: SV::CTX,
    session: Box<HttpSession>,
    lacking: Lacking,
) -> Next<L, SV::CTX>
    ensures run { (s : Start) (p : Passed) (w : World) (failed : ℕ) → s.most ≡ most
        → w.connect_faults ≤ last_count → Rose w.connect_faults failed
        → IsConnectFault lacking.fault
        → CallsSoFar {L = L} (allowed_by (SV.allows app.now) SV.Modules.allows)
        (SV.mark_of app.now) calls.old
        (Phase.Connect context session lacking.room.items.items)
        → calls.old.at ≡ At.Named lacking.peer → lacking.recorded ≡ lacking.peer
        → RunSoFar {C = SV.CTX} L.state L.start (opened_to s (log_of calls.old)) p w []
        (Phase.Connect context session lacking.room.items.items)
        → Advances {C = SV.CTX} L.state L.start (opened_to s (log_of calls.new))
        (world_with w.client w.ahead failed) result.phase }
    ensures calls { calls.old.at ≡ At.Named lacking.peer
        → CallsSoFar {L = L} (allowed_by (SV.allows app.now) SV.Modules.allows)
        (SV.mark_of app.now) calls.old
        (Phase.Connect context session lacking.room.items.items)
        → CallsSoFar {L = L} (allowed_by (SV.allows app.now) SV.Modules.allows)
        (SV.mark_of app.now) calls.new result.phase }
    ensures cause { (log : List _) (w x : World) → HasCause L.state L.start log w x
        (Phase.Connect context session lacking.room.items.items) result.phase result.step }
    ensures step { (result.step ≡ RunStep.Moved) ⊎ (result.step ≡ RunStep.Ended) }
    ensures over { is_over result.phase ≡ is_end result.step }
    ensures unlinked { links_held L.state L.start result.phase ≡ 0 }
    ensures no_items { items_held L.start result.phase ≡ [] }
    ensures told { faults_before [] result.phase
        ≡ faults_told lacking.room.items.items ++ lacking.fault ∷ [] }
    ensures work { DoesWork result.step result.work }
    ensures called { CountsCalls calls.old calls.new result.work }
    ensures counts { CountsLink lacking.room.items.items result.phase result.work }
    ensures unused { result.work.used ≡ 0 }
    ensures fresh { PhaseUses L.state L.start 0 [] result.phase }
    ensures unended { IsUnended (log_of calls.old) → IsUnended (log_of calls.new) }
{
    let mut context = context;
    let mut session = session;
    let raised = Error::of_fault(lacking.fault);
    match treat_unlinked(
        app,
        calls,
        &mut context,
        &mut session,
        &lacking.peer,
        raised,
    ) {
        Ok(treated) => {
            let error = treated.into_up();
            let attempts = lacking.record(error);
            go_on(most, calls, context, session, attempts, error)
        }
        Err(_) => lacks_memory(lacking.record(raised.into_up())),
    }
}

/// What follows an attempt that was given no link, for that error: another attempt, where one may;
/// or the answer to its client.
fn go_on<M: HttpModule + Drop, K: Drop, L, C: Drop>(
    most: usize,
    calls: &mut Calls<M, K, C>,
    context: C,
    session: Box<HttpSession>,
    attempts: AttemptList,
    error: Error,
) -> Next<L, C>
    ensures again { MayTry most (length attempts) error
        → (result.phase ≡ Phase.Connect context session attempts)
        × (calls.new ≡ record calls.old { at = At.Repeatable error }) }
    ensures ends { ¬ (MayTry most (length attempts) error)
        → (result.phase ≡ Phase.Unlinked context session attempts error)
        × (calls.new ≡ calls.old) }
    ensures follows { (result.phase ≡ Phase.Connect context session attempts)
        ⊎ (result.phase ≡ Phase.Unlinked context session attempts error) }
    ensures log { log_of calls.new ≡ log_of calls.old }
    ensures step { result.step ≡ RunStep.Moved }
    ensures work { result.work ≡ Work.REFUSED }
{
    if may_try(most, attempts.len(), &error) {
        calls.repeat(error);
        return Next {
            phase: Phase::Connect(context, session, attempts),
            step: RunStep::Moved,
            work: Work::REFUSED,
        };
    }
    Next {
        phase: Phase::Unlinked(context, session, attempts, error),
        step: RunStep::Moved,
        work: Work::REFUSED,
    }
}

/// Whether a further attempt may be made behind so many, the last of which failed with that error.
pub(crate) fn may_try(most: usize, made: usize, error: &Error) -> bool
    ensures { IsTrue result ↔ MayTry most made error.now }
{
    error.retry() && made < most
}
