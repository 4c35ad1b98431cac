//! The hooks up to the peer that an attempt is to reach: one is called a turn, until that is named,
//! or they answer the request or stop it (RFC 9110, section 3.7).
ghost use Rattle.std.specs.Prelude.{◌≡◌, ◌⊎◌, ◌+◌, ◌≤◌, ◌<◌, [], ℕ, List, None, Some, true, false};
ghost use Rattle.std.specs.Global.{Box};
ghost use Rattle.relay_connector.specs.declared.upstream.Upstream.{Upstream};
ghost use Rattle.relay_links.specs.Link.{LinkState};
ghost use Rattle.relay_session.specs.Asked.{request_of};
ghost use Rattle.relay_session.specs.declared.session.HttpSession.{HttpSession};
ghost use Rattle.relay_session.specs.declared.task_text.Place.{Place};
ghost use Rattle.relay_session.specs.declared.writing.Outgoing.{Outgoing};
ghost use Rattle.relay_tasks.specs.Head.{RequestHead};
ghost use Rattle.relay_tasks.specs.declared.log.LogEntry.{LogEntry};
ghost use Rattle.relay_attempt.specs.Passed.{Passed};
ghost use Rattle.relay_request.specs.Bound.{CountsCall, CountsLink};
ghost use Rattle.relay_request.specs.Calls.{AreMadeBy, CallsSoFar, CountsCalls, IsUnended, Owing, allowed_by, final_at, is_calling, log_of};
ghost use Rattle.relay_request.specs.Passed.{World, Start, called_to, opened_to};
ghost use Rattle.relay_request.specs.Phases.{RunSoFar};
ghost use Rattle.relay_request.specs.Purging.{AsksPurger};
ghost use Rattle.relay_request.specs.Sent.{IsUntreated};
ghost use Rattle.relay_request.specs.Stock.{items_held};
ghost use Rattle.relay_request.specs.Relayable.{IsAccepted};
ghost use Rattle.relay_request.specs.Refusals.{attempts_in, faults_before, faults_told};
ghost use Rattle.relay_request.specs.Taken.{TakesAfter};
ghost use Rattle.relay_request.specs.Tries.{AreTries};
ghost use Rattle.relay_request.specs.Turn.{world_with, DoesWork, is_connecting, is_over, is_end, links_held, Advances, HasCause};
ghost use Rattle.relay_request.specs.Uses.{OwesAnswer, PhaseUses};

use crate::answering::owe;
use crate::connecting::{connect, lacks_memory};
use crate::purging::purge;
use relay_connector::{Connector, LinkOf};
use relay_hooks::ProxyHttp;
use relay_links::{ByteLink, Purger};
use relay_request::{
    AttemptList, Calls, Next, Opened, Owed, Phase, RunStep, Work, answer_error, call_next,
};
use relay_session::HttpSession;
use relay_tasks::Error;

/// Calls the hook that comes next, while no peer is named, or has the application answer the error
/// with which one stopped the request, or the purger asked for a purge; and then asks the connector
/// for a link to the peer. `makes_modules` says that the request has modules.
pub(crate) fn reach<SV: ProxyHttp, K: Connector, P: Purger>(
    app: &SV,
    connector: &mut K,
    purger: &mut P,
    most: usize,
    makes_modules: bool,
    calls: &mut Calls<SV::Modules, SV::Kept, SV::CTX>,
    context: SV::CTX,
    session: Box<HttpSession>,
    tries: AttemptList,
) -> Next<LinkOf<K>, SV::CTX>
    ensures run { (s : Start) (p : Passed) (client : LinkState) (ahead : List ℕ) → s.most ≡ most
        → CallsSoFar {L = Upstream K.Byte K.Message K.Custom} (allowed_by (SV.allows app.now)
        SV.Modules.allows)
        (SV.mark_of app.now) calls.old (Phase.Connect context session tries)
        → RunSoFar {C = SV.CTX} ⟦<LinkOf<K> as ByteLink>⟧.state ⟦<LinkOf<K> as ByteLink>⟧.start
        (called_to s (log_of calls.old)) p
        (world_with client ahead (K.fault_count connector.old)) []
        (Phase.Connect context session tries)
        → Advances {C = SV.CTX} ⟦<LinkOf<K> as ByteLink>⟧.state ⟦<LinkOf<K> as ByteLink>⟧.start
        (called_to s (log_of calls.new))
        (world_with client ahead (K.fault_count connector.new)) result.phase }
    ensures calls { CallsSoFar {L = Upstream K.Byte K.Message K.Custom} (allowed_by (SV.allows
        app.now) SV.Modules.allows)
        (SV.mark_of app.now) calls.old (Phase.Connect context session tries)
        → CallsSoFar {L = Upstream K.Byte K.Message K.Custom} (allowed_by (SV.allows app.now)
        SV.Modules.allows)
        (SV.mark_of app.now) calls.new result.phase }
    ensures cause { (log : List _) (client : LinkState) (ahead : List ℕ)
        → HasCause ⟦<LinkOf<K> as ByteLink>⟧.state ⟦<LinkOf<K> as ByteLink>⟧.start log
        (world_with client ahead (K.fault_count connector.old))
        (world_with client ahead (K.fault_count connector.new))
        (Phase.Connect context session tries) result.phase result.step }
    ensures work { DoesWork result.step result.work }
    ensures counts { CountsCall tries result.phase result.work
        ⊎ CountsLink tries result.phase result.work }
    ensures called { CountsCalls calls.old calls.new result.work }
    ensures unused { result.work.used ≡ 0 }
    ensures step { (result.step ≡ RunStep.Moved) ⊎ (result.step ≡ RunStep.Ended) }
    ensures over { is_over result.phase ≡ is_end result.step }
    ensures out { K.out connector.new
        ≡ K.out connector.old + links_held ⟦<LinkOf<K> as ByteLink>⟧.state
        ⟦<LinkOf<K> as ByteLink>⟧.start result.phase }
    ensures returned { K.returned connector.new ≡ K.returned connector.old }
    ensures fresh { PhaseUses ⟦<LinkOf<K> as ByteLink>⟧.state ⟦<LinkOf<K> as ByteLink>⟧.start 0 []
        result.phase }
    ensures asks { TakesAfter (faults_told tries) (faults_before [] result.phase)
        (items_held ⟦<LinkOf<K> as ByteLink>⟧.start result.phase) (K.refusals connector.old)
        (K.refusals connector.new) (K.stock connector.old) (K.stock connector.new) }
    ensures faults { K.fault_count connector.old ≤ K.fault_count connector.new }
    ensures purger { CallsSoFar {L = Upstream K.Byte K.Message K.Custom} (allowed_by (SV.allows
        app.now) SV.Modules.allows)
        (SV.mark_of app.now) calls.old (Phase.Connect context session tries)
        → AsksPurger (P.state purger.old) (P.state purger.new) (log_of calls.old)
        (log_of calls.new) result.phase }
    ensures made { AreMadeBy makes_modules calls.old calls.new }
{
    if let Some(error) = calls.final_error() {
        return answer(app, calls, context, session, tries, error);
    }
    if let Some(action) = calls.purge() {
        return purge(app, purger, calls, context, session, tries, action);
    }
    if calls.is_calling() {
        return open(app, makes_modules, calls, context, session, tries);
    }
    connect(app, connector, most, calls, context, session, tries)
}

/// Calls the hook that comes next, and no other.
fn open<SV: ProxyHttp, L: ByteLink>(
    app: &SV,
    makes_modules: bool,
    calls: &mut Calls<SV::Modules, SV::Kept, SV::CTX>,
    context: SV::CTX,
    session: Box<HttpSession>,
    tries: AttemptList,
) -> Next<L, SV::CTX>
    requires { is_calling calls.old.at ≡ true }
    ensures run { (s : Start) (p : Passed) (w : World)
        → CallsSoFar {L = L} (allowed_by (SV.allows app.now) SV.Modules.allows)
        (SV.mark_of app.now) calls.old (Phase.Connect context session tries)
        → RunSoFar {C = SV.CTX} L.state L.start (opened_to s (log_of calls.old)) p w []
        (Phase.Connect context session tries)
        → Advances L.state L.start (opened_to s (log_of calls.new)) w result.phase }
    ensures calls { CallsSoFar {L = L} (allowed_by (SV.allows app.now) SV.Modules.allows)
        (SV.mark_of app.now) calls.old (Phase.Connect context session tries)
        → CallsSoFar {L = L} (allowed_by (SV.allows app.now) SV.Modules.allows)
        (SV.mark_of app.now) calls.new result.phase }
    ensures cause { (log : List _) (w : World) → HasCause L.state L.start log w w
        (Phase.Connect context session tries) result.phase result.step }
    ensures work { DoesWork result.step result.work }
    ensures counts { CountsCall tries result.phase result.work }
    ensures called { CountsCalls calls.old calls.new result.work }
    ensures unused { result.work.used ≡ 0 }
    ensures step { (result.step ≡ RunStep.Moved) ⊎ (result.step ≡ RunStep.Ended) }
    ensures over { is_over result.phase ≡ is_end result.step }
    ensures unlinked { links_held L.state L.start result.phase ≡ 0 }
    ensures no_items { items_held L.start result.phase ≡ [] }
    ensures attempts { attempts_in result.phase ≡ tries }
    // The end of the request does not begin with it.
    ensures unended { IsUnended (log_of calls.old) → IsUnended (log_of calls.new) }
    ensures made { AreMadeBy makes_modules calls.old calls.new }
{
    let mut context = context;
    let mut session = session;
    match call_next(app, calls, &mut context, &mut session, makes_modules) {
        Opened::GoesOn => Next {
            phase: Phase::Connect(context, session, tries),
            step: RunStep::Moved,
            work: Work::CALLED,
        },
        Opened::Answered => {
            calls.begin_end(context);
            owe(calls, session, Owed::Ahead(None), tries)
        }
        Opened::OutOfMemory => lacks_memory(tries),
    }
}

/// Has the application answer the error with which a hook stopped the request: the client is owed
/// what it queued, and the request ends where that is nothing.
fn answer<SV: ProxyHttp, L: ByteLink>(
    app: &SV,
    calls: &mut Calls<SV::Modules, SV::Kept, SV::CTX>,
    context: SV::CTX,
    session: Box<HttpSession>,
    tries: AttemptList,
    error: Error,
) -> Next<L, SV::CTX>
    requires { final_at calls.old.at ≡ Some error }
    ensures run { (s : Start) (p : Passed) (w : World)
        → CallsSoFar {L = L} (allowed_by (SV.allows app.now) SV.Modules.allows)
        (SV.mark_of app.now) calls.old (Phase.Connect context session tries)
        → RunSoFar {C = SV.CTX} L.state L.start (called_to s (log_of calls.old)) p w []
        (Phase.Connect context session tries)
        → Advances L.state L.start (called_to s (log_of calls.new)) w result.phase }
    ensures calls { CallsSoFar {L = L} (allowed_by (SV.allows app.now) SV.Modules.allows)
        (SV.mark_of app.now) calls.old (Phase.Connect context session tries)
        → CallsSoFar {L = L} (allowed_by (SV.allows app.now) SV.Modules.allows)
        (SV.mark_of app.now) calls.new result.phase }
    ensures cause { (log : List _) (w : World) → HasCause L.state L.start log w w
        (Phase.Connect context session tries) result.phase result.step }
    ensures work { DoesWork result.step result.work }
    ensures counts { CountsCall tries result.phase result.work }
    ensures called { CountsCalls calls.old calls.new result.work }
    ensures unused { result.work.used ≡ 0 }
    ensures step { (result.step ≡ RunStep.Moved) ⊎ (result.step ≡ RunStep.Ended) }
    ensures over { is_over result.phase ≡ is_end result.step }
    ensures unlinked { links_held L.state L.start result.phase ≡ 0 }
    ensures no_items { items_held L.start result.phase ≡ [] }
    ensures attempts { attempts_in result.phase ≡ tries }
{
    let mut session = session;
    match answer_error(app, calls, context, &mut session, error) {
        Ok(()) => owe(calls, session, Owed::Ahead(Some(error)), tries),
        Err(_) => lacks_memory(tries),
    }
}
