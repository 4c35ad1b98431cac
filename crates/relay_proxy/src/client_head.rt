//! The client's head: read, judged, and refused where it must be (RFC 9112, sections 2 and 3).
ghost use Rattle.std.specs.Prelude.{◌≡◌, ◌≤◌, ℕ, List, [], length, None, false};
ghost use Rattle.relay_tasks.specs.Head.{IsStatus};
ghost use Rattle.relay_h1.specs.Verdict.{IsOpen, HasRequest};
ghost use Rattle.relay_h1.specs.Wire.{generated};
ghost use Rattle.relay_authority.specs.Entry.{Entered};
ghost use Rattle.relay_request.specs.Relayable.{IsConnect};
ghost use Rattle.relay_request.specs.Bound.{CountsHead};
ghost use Rattle.relay_request.specs.Endings.{IsTurnedDown, ended_outcome};
ghost use Rattle.relay_attempt.specs.Passed.{Passed};
ghost use Rattle.relay_request.specs.Calls.{CallsSoFar, CountsCalls, IsUncalled, IsUncalledEnd, IsUnended, allowed_by, log_of};
ghost use Rattle.relay_request.specs.Passed.{World, Start, opened_to};
ghost use Rattle.relay_request.specs.Phases.{RunSoFar};
ghost use Rattle.relay_request.specs.Refusals.{attempts_in};
ghost use Rattle.relay_request.specs.Stock.{items_held};
ghost use Rattle.relay_request.specs.Uses.{ClientUses};
ghost use Rattle.relay_request.specs.Turn.{world_of, DoesWork, is_connecting, is_over, is_end, links_held, Advances, HasCause};

use crate::connecting::out_of_memory;
use crate::relayable::{is_connect, names_upgrade};
use relay_authority::check_entry;
use relay_h1::{Connection, RequestRead};
use relay_hooks::ProxyHttp;
use relay_links::{ByteLink, Got};
use relay_request::{AttemptList, Calls, Next, Outcome, Owed, Phase, RunStep, Work, begin_calls};
use relay_session::HttpSession;
use relay_tasks::{Context, Error, ErrorType, Fail, Pause};
use std::alloc::Global;

/// The client's head: judged where it stands, else its link is read once.
pub(crate) fn read_head<SV: ProxyHttp, D: ByteLink, U, L: ByteLink>(
    alloc: Global,
    hooks: &SV,
    calls: &mut Calls<SV::Modules, SV::Kept, SV::CTX>,
    client: &mut Connection<D, U>,
) -> Next<L, SV::CTX>
    ensures run { (s : Start) (p : Passed) (faults : ℕ) → log_of calls.old ≡ []
        → RunSoFar {C = SV.CTX} L.state L.start (opened_to s (log_of calls.old)) p
        (world_of D.state client.old faults) [] (Phase.ReadHead)
        → Advances L.state L.start (opened_to s (log_of calls.new))
        (world_of D.state client.new faults) result.phase }
    ensures calls { log_of calls.old ≡ [] → CallsSoFar {L = L}
        (allowed_by (SV.allows hooks.now) SV.Modules.allows) (SV.mark_of hooks.now) calls.new
        result.phase }
    ensures called { CountsCalls calls.old calls.new result.work }
    ensures cause { (log : List _) (faults : ℕ) → HasCause {C = SV.CTX} L.state L.start log
        (world_of D.state client.old faults) (world_of D.state client.new faults)
        (Phase.ReadHead) result.phase result.step }
    ensures work { DoesWork result.step result.work }
    ensures counts { CountsHead result.phase result.work }
    ensures over { is_over result.phase ≡ is_end result.step }
    ensures unlinked { links_held L.state L.start result.phase ≡ 0 }
    ensures no_items { items_held L.start result.phase ≡ [] }
    ensures no_attempts { attempts_in result.phase ≡ [] }
    ensures uses { ClientUses result.work.used (D.state client.old.link) (D.state client.new.link) }
    ensures kept { client.new.kept ≡ client.old.kept }
    ensures client_start { D.start client.new.link ≡ D.start client.old.link }
    ensures unended { IsUnended (log_of calls.old) → IsUnended (log_of calls.new) }
{
    match client.judge_request(alloc) {
        Ok(None) => await_head(alloc, client),
        Ok(Some(read)) => take_head(alloc, hooks, calls, client, read),
        Err(Fail::Error(error)) => give_answer(alloc, 400, Some(error)),
        Err(Fail::OutOfMemory) => out_of_memory(alloc),
    }
}

/// One read of the client's link, for more of its head.
fn await_head<D: ByteLink, U, L: ByteLink, C>(
    alloc: Global,
    client: &mut Connection<D, U>,
) -> Next<L, C>
    ensures run { (s : Start) (p : Passed) (faults : ℕ)
        → RunSoFar {C = C} L.state L.start s p (world_of D.state client.old faults) []
        (Phase.ReadHead)
        → IsOpen client.old.ahead
        → Advances L.state L.start s (world_of D.state client.new faults)
        result.phase }
    ensures cause { (log : List _) (faults : ℕ) → IsOpen client.old.ahead
        → HasCause {C = C} L.state L.start log
        (world_of D.state client.old faults) (world_of D.state client.new faults)
        (Phase.ReadHead) result.phase result.step }
    ensures work { DoesWork result.step result.work }
    ensures uncalled { result.work.called ≡ 0 }
    ensures unopened { is_connecting result.phase ≡ false }
    ensures refuses { IsUncalled result.phase }
    ensures counts { CountsHead result.phase result.work }
    ensures over { is_over result.phase ≡ is_end result.step }
    ensures unlinked { links_held L.state L.start result.phase ≡ 0 }
    ensures no_items { items_held L.start result.phase ≡ [] }
    ensures no_attempts { attempts_in result.phase ≡ [] }
    ensures uses { ClientUses result.work.used (D.state client.old.link) (D.state client.new.link) }
    ensures kept { client.new.kept ≡ client.old.kept }
    ensures client_start { D.start client.new.link ≡ D.start client.old.link }
{
    match client.read_more() {
        Err(_) => out_of_memory(alloc),
        Ok(Got::Bytes(_)) => Next {
            phase: Phase::ReadHead,
            step: RunStep::Moved,
            work: Work::USED,
        },
        Ok(Got::NotReady) => Next {
            phase: Phase::ReadHead,
            step: RunStep::Waited(Pause::NotReady),
            work: Work::USED,
        },
        Ok(Got::Silent) => Next {
            phase: Phase::ReadHead,
            step: RunStep::Waited(Pause::Silent),
            work: Work::NONE,
        },
        Ok(Got::End) => Next {
            phase: Phase::Ended(end_of_client(client.ahead()), AttemptList::new(alloc)),
            step: RunStep::Ended,
            work: Work::USED_AND_ENDED,
        },
        Ok(Got::Failed(fault)) => {
            let error = Error::of_fault(fault).into_down();
            Next {
                phase: Phase::Ended(
                    Outcome::Refused { error: Some(error) },
                    AttemptList::new(alloc),
                ),
                step: RunStep::Ended,
                work: Work::USED_AND_ENDED,
            }
        }
    }
}

/// The outcome where the client ended, by what had come of its head.
fn end_of_client(came: &[u8]) -> Outcome
    ensures outcome { result ≡ ended_outcome came.now }
    ensures refuses { IsUncalledEnd result }
{
    if came.is_empty() {
        Outcome::NoRequest
    } else {
        let error = Error::explain(ErrorType::ConnectionClosed, Context::ClientClosed);
        Outcome::Refused {
            error: Some(error.into_down()),
        }
    }
}

/// A head that is valid: the entry check refuses it, or it asks for a tunnel, which is refused, or
/// it is looked at further.
fn take_head<SV: ProxyHttp, D: ByteLink, U, L: ByteLink>(
    alloc: Global,
    hooks: &SV,
    calls: &mut Calls<SV::Modules, SV::Kept, SV::CTX>,
    client: &mut Connection<D, U>,
    read: RequestRead,
) -> Next<L, SV::CTX>
    requires { read.len ≤ length client.old.ahead }
    ensures run { (s : Start) (p : Passed) (faults : ℕ) → log_of calls.old ≡ []
        → RunSoFar {C = SV.CTX} L.state L.start (opened_to s (log_of calls.old)) p
        (world_of D.state client.old faults) [] (Phase.ReadHead)
        → HasRequest client.old.ahead read.head read.framing read.len
        → Advances L.state L.start (opened_to s (log_of calls.new))
        (world_of D.state client.new faults) result.phase }
    ensures calls { log_of calls.old ≡ [] → CallsSoFar {L = L}
        (allowed_by (SV.allows hooks.now) SV.Modules.allows) (SV.mark_of hooks.now) calls.new
        result.phase }
    ensures called { CountsCalls calls.old calls.new result.work }
    ensures cause { (log : List _) (faults : ℕ) → HasCause {C = SV.CTX} L.state L.start log
        (world_of D.state client.old faults) (world_of D.state client.new faults)
        (Phase.ReadHead) result.phase result.step }
    ensures work { DoesWork result.step result.work }
    ensures counts { CountsHead result.phase result.work }
    ensures over { is_over result.phase ≡ is_end result.step }
    ensures unlinked { links_held L.state L.start result.phase ≡ 0 }
    ensures no_items { items_held L.start result.phase ≡ [] }
    ensures no_attempts { attempts_in result.phase ≡ [] }
    ensures uses { ClientUses result.work.used (D.state client.old.link) (D.state client.new.link) }
    ensures kept { client.new.kept ≡ client.old.kept }
    ensures client_start { D.start client.new.link ≡ D.start client.old.link }
    ensures unended { IsUnended (log_of calls.old) → IsUnended (log_of calls.new) }
{
    if let Err(error) = check_entry(&read.head) {
        return give_answer(alloc, 400, Some(error.into_down()));
    }
    if is_connect(&read.head) {
        return give_answer(alloc, 405, None);
    }
    accept_head(alloc, hooks, calls, client, read)
}

/// A head that passed the entry check and is no request for a tunnel: it is taken from what is
/// ahead, and a session begins behind it. One that names Upgrade is not relayed.
fn accept_head<SV: ProxyHttp, D: ByteLink, U, L: ByteLink>(
    alloc: Global,
    hooks: &SV,
    calls: &mut Calls<SV::Modules, SV::Kept, SV::CTX>,
    client: &mut Connection<D, U>,
    read: RequestRead,
) -> Next<L, SV::CTX>
    requires { read.len ≤ length client.old.ahead }
    ensures run { (s : Start) (p : Passed) (faults : ℕ) → log_of calls.old ≡ []
        → RunSoFar {C = SV.CTX} L.state L.start (opened_to s (log_of calls.old)) p
        (world_of D.state client.old faults) [] (Phase.ReadHead)
        → HasRequest client.old.ahead read.head read.framing read.len
        → Entered read.head None
        → ¬ (IsConnect read.head)
        → Advances L.state L.start (opened_to s (log_of calls.new))
        (world_of D.state client.new faults) result.phase }
    ensures calls { log_of calls.old ≡ [] → CallsSoFar {L = L}
        (allowed_by (SV.allows hooks.now) SV.Modules.allows) (SV.mark_of hooks.now) calls.new
        result.phase }
    ensures called { CountsCalls calls.old calls.new result.work }
    ensures cause { (log : List _) (faults : ℕ) → HasCause {C = SV.CTX} L.state L.start log
        (world_of D.state client.old faults) (world_of D.state client.new faults)
        (Phase.ReadHead) result.phase result.step }
    ensures work { DoesWork result.step result.work }
    ensures counts { CountsHead result.phase result.work }
    ensures over { is_over result.phase ≡ is_end result.step }
    ensures unlinked { links_held L.state L.start result.phase ≡ 0 }
    ensures no_items { items_held L.start result.phase ≡ [] }
    ensures no_attempts { attempts_in result.phase ≡ [] }
    ensures uses { ClientUses result.work.used (D.state client.old.link) (D.state client.new.link) }
    ensures kept { client.new.kept ≡ client.old.kept }
    ensures client_start { D.start client.new.link ≡ D.start client.old.link }
    ensures unended { IsUnended (log_of calls.old) → IsUnended (log_of calls.new) }
{
    if names_upgrade(&read.head) {
        let error = Error::new_down(ErrorType::Custom(1));
        return Next {
            phase: Phase::Ended(
                Outcome::Refused { error: Some(error) },
                AttemptList::new(alloc),
            ),
            step: RunStep::Ended,
            work: Work::ENDED,
        };
    }
    let mut session = HttpSession::begun_http1(alloc, read.head, read.framing);
    let Ok(context) = begin_calls(hooks, calls, &mut session) else {
        return out_of_memory(alloc);
    };
    let Ok(session) = Box::new(alloc, session) else {
        return out_of_memory(alloc);
    };
    client.consume(read.len);
    Next {
        phase: Phase::Connect(context, session, AttemptList::new(alloc)),
        step: RunStep::Moved,
        work: Work::BEGUN,
    }
}

/// A head that is refused or asks for a tunnel: the generated answer with that status is made.
fn give_answer<L: ByteLink, C>(alloc: Global, status: u16, error: Option<Error>) -> Next<L, C>
    requires { IsStatus status }
    ensures run { (s : Start) (p : Passed) (w : World)
        → RunSoFar {C = C} L.state L.start s p w [] (Phase.ReadHead)
        → IsTurnedDown w.ahead (generated status) error
        → Advances L.state L.start s w
        result.phase }
    ensures cause { (log : List _) (w x : World) → HasCause {C = C} L.state L.start log w x
        (Phase.ReadHead) result.phase result.step }
    ensures work { DoesWork result.step result.work }
    ensures uncalled { result.work.called ≡ 0 }
    ensures unopened { is_connecting result.phase ≡ false }
    ensures refuses { IsUncalled result.phase }
    ensures counts { CountsHead result.phase result.work }
    ensures over { is_over result.phase ≡ is_end result.step }
    ensures unlinked { links_held L.state L.start result.phase ≡ 0 }
    ensures no_items { items_held L.start result.phase ≡ [] }
    ensures no_attempts { attempts_in result.phase ≡ [] }
    ensures unused { result.work.used ≡ 0 }
{
    let mut session = HttpSession::new_http1(alloc);
    let Ok(()) = session.respond_error(status) else {
        return out_of_memory(alloc);
    };
    let Ok(session) = Box::new(alloc, session) else {
        return out_of_memory(alloc);
    };
    Next {
        phase: Phase::Answer(session, Owed::Refused(error), AttemptList::new(alloc)),
        step: RunStep::Moved,
        work: Work::ENDED,
    }
}
