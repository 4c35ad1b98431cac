//! The generated answer of a request, and what was queued before it: written to the client (RFC
//! 9110, section 15).
ghost use Rattle.std.specs.Prelude.{◌≡◌, ◌⊎◌, ◌<◌, ◌&&◌, ◌++◌, ℕ, List, [], length, take, false, true};
ghost use Rattle.relay_tasks.specs.declared.task.HttpTask.{HttpTask};
ghost use Rattle.relay_attempt.specs.Passed.{Passed};
ghost use Rattle.relay_h1.specs.Move.{taken};
ghost use Rattle.relay_session.specs.Response.{pending, Holds, MayWrite, WritesPending};
ghost use Rattle.relay_request.specs.Bound.{CountsAnswer, CountsCall};
ghost use Rattle.relay_request.specs.Calls.{Owing, closed_with, is_closing_at, log_of};
ghost use Rattle.relay_request.specs.Endings.{error_of};
ghost use Rattle.relay_request.specs.Owed.{is_served, outcome_owed, outcome_written};
ghost use Rattle.relay_request.specs.Passed.{Start};
ghost use Rattle.relay_request.specs.Phases.{RunSoFar};
ghost use Rattle.relay_request.specs.Refusals.{attempts_in};
ghost use Rattle.relay_request.specs.Reuse.{may_ask_again};
ghost use Rattle.relay_request.specs.Stock.{items_held};
ghost use Rattle.relay_request.specs.Turn.{world_of, DoesWork, is_connecting, is_over, is_end, links_held, AdvancesOn, HasCause};
ghost use Rattle.relay_request.specs.Uses.{ClientUses, OwesAnswer};

use relay_h1::Connection;
use relay_hooks::HttpModule;
use relay_links::{ByteLink, Put};
use relay_request::{AttemptList, Calls, Next, Outcome, Owed, Phase, RunStep, Work};
use relay_session::HttpSession;
use relay_tasks::Pause;

/// One write of what waits for the client. Where nothing does, the request ends.
pub(crate) fn write_answer<
    M: HttpModule + Drop,
    K: Drop,
    D: ByteLink,
    U: Drop,
    L: ByteLink,
    C: Drop,
>(
    calls: &mut Calls<M, K, C>,
    client: &mut Connection<D, U>,
    session: Box<HttpSession>,
    owed: Owed,
    attempts: AttemptList,
) -> Next<L, C>
    ensures run { (s : Start) (p : Passed) (own : List _) (faults : ℕ)
        → RunSoFar {C = C} L.state L.start s p (world_of D.state client.old faults) own
        (Phase.Answer session owed attempts)
        → AdvancesOn L.state L.start s (world_of D.state client.new faults) own
        result.phase }
    ensures cause { (log : List _) (faults : ℕ) → HasCause {C = C} L.state L.start log
        (world_of D.state client.old faults) (world_of D.state client.new faults)
        (Phase.Answer session owed attempts) result.phase result.step }
    ensures work { DoesWork result.step result.work }
    ensures uncalled { result.work.called ≡ 0 }
    ensures calls { Owing session.value owed calls.old calls.new result.phase }
    ensures log { log_of calls.new ≡ log_of calls.old }
    ensures counts { CountsAnswer result.phase result.work }
    ensures gives { (D.state client.new.link).given ≡ (D.state client.old.link).given }
    ensures over { is_over result.phase ≡ is_end result.step }
    ensures unlinked { links_held L.state L.start result.phase ≡ 0 }
    ensures no_items { items_held L.start result.phase ≡ [] }
    ensures attempts { attempts_in result.phase ≡ attempts }
    ensures uses { ClientUses result.work.used (D.state client.old.link) (D.state client.new.link) }
    ensures kept { client.new.kept ≡ client.old.kept }
    ensures client_start { D.start client.new.link ≡ D.start client.old.link }
{
    if !session.has_pending() {
        return ended(calls, session, owed.outcome(), attempts, Work::ENDED);
    }
    write_on(calls, client, session, owed, attempts)
}

/// One write of what waits for the client: one byte at least.
fn write_on<M: HttpModule + Drop, K: Drop, D: ByteLink, U: Drop, L: ByteLink, C: Drop>(
    calls: &mut Calls<M, K, C>,
    client: &mut Connection<D, U>,
    session: Box<HttpSession>,
    owed: Owed,
    attempts: AttemptList,
) -> Next<L, C>
    requires { 0 < length (pending session.value.writing.output) }
    ensures run { (s : Start) (p : Passed) (own : List _) (faults : ℕ)
        → RunSoFar {C = C} L.state L.start s p (world_of D.state client.old faults) own
        (Phase.Answer session owed attempts)
        → AdvancesOn L.state L.start s (world_of D.state client.new faults) own
        result.phase }
    ensures cause { (log : List _) (faults : ℕ) → HasCause {C = C} L.state L.start log
        (world_of D.state client.old faults) (world_of D.state client.new faults)
        (Phase.Answer session owed attempts) result.phase result.step }
    ensures work { DoesWork result.step result.work }
    ensures uncalled { result.work.called ≡ 0 }
    ensures calls { Owing session.value owed calls.old calls.new result.phase }
    ensures log { log_of calls.new ≡ log_of calls.old }
    ensures counts { CountsAnswer result.phase result.work }
    ensures gives { (D.state client.new.link).given ≡ (D.state client.old.link).given }
    ensures over { is_over result.phase ≡ is_end result.step }
    ensures unlinked { links_held L.state L.start result.phase ≡ 0 }
    ensures no_items { items_held L.start result.phase ≡ [] }
    ensures attempts { attempts_in result.phase ≡ attempts }
    ensures uses { ClientUses result.work.used (D.state client.old.link) (D.state client.new.link) }
    ensures kept { client.new.kept ≡ client.old.kept }
    ensures client_start { D.start client.new.link ≡ D.start client.old.link }
{
    let mut session = session;
    match offer(&mut session, client) {
        Put::Took(_) => took(calls, session, owed, attempts, client.ahead().is_empty()),
        Put::NotReady => Next {
            phase: Phase::Answer(session, owed, attempts),
            step: RunStep::Waited(Pause::NotReady),
            work: Work::USED,
        },
        Put::Silent => Next {
            phase: Phase::Answer(session, owed, attempts),
            step: RunStep::Waited(Pause::Silent),
            work: Work::NONE,
        },
        Put::Failed(fault) => {
            ended(
                calls,
                session,
                owed.outcome_failed(fault),
                attempts,
                Work::USED,
            )
        }
        Put::OutOfMemory => Next {
            phase: Phase::Ended(Outcome::OutOfMemory, attempts),
            step: RunStep::Ended,
            work: Work::USED,
        },
    }
}

/// The client took some: more waits, or the answer was written whole. `still` says that none of its
/// bytes is ahead.
fn took<M: HttpModule + Drop, K: Drop, L: ByteLink, C: Drop>(
    calls: &mut Calls<M, K, C>,
    session: Box<HttpSession>,
    owed: Owed,
    attempts: AttemptList,
    still: bool,
) -> Next<L, C>
    ensures calls { Owing session.value owed calls.old calls.new result.phase }
    ensures log { log_of calls.new ≡ log_of calls.old }
    ensures left { 0 < length (pending session.value.writing.output)
        → (result.phase ≡ Phase.Answer session owed attempts) × (result.step ≡ RunStep.Moved) }
    ensures whole { pending session.value.writing.output ≡ []
        → (result.phase
        ≡ Phase.Ended (outcome_written owed (still && may_ask_again session.value)) attempts)
        × (result.step ≡ RunStep.Ended) }
    ensures step { (result.step ≡ RunStep.Moved) ⊎ (result.step ≡ RunStep.Ended) }
    ensures over { is_over result.phase ≡ is_end result.step }
    ensures unlinked { links_held L.state L.start result.phase ≡ 0 }
    ensures no_items { items_held L.start result.phase ≡ [] }
    ensures attempts { attempts_in result.phase ≡ attempts }
    ensures work { result.work ≡ Work.USED }
{
    if session.has_pending() {
        return Next {
            phase: Phase::Answer(session, owed, attempts),
            step: RunStep::Moved,
            work: Work::USED,
        };
    }
    let outcome = owed.outcome_written(still && may_ask_again(&session));
    ended(calls, session, outcome, attempts, Work::USED)
}

/// Whether the client may ask for more behind a response that was written out: its request lets it,
/// and the response is over and does not close the connection.
fn may_ask_again(session: &HttpSession) -> bool
    ensures { result ≡ may_ask_again session.now }
{
    session.lets_ask_again() && (session.response_done() && !session.response_closes())
}

/// A request that has ended, with no link to hand back. Nothing more is written to its client.
fn ended<M: HttpModule + Drop, K: Drop, L, C: Drop>(
    calls: &mut Calls<M, K, C>,
    session: Box<HttpSession>,
    outcome: Outcome,
    attempts: AttemptList,
    work: Work,
) -> Next<L, C>
    ensures phase { result.phase ≡ Phase.Ended outcome attempts }
    ensures calls { calls.new ≡ closed_with calls.old session.value (error_of outcome) }
    ensures step { result.step ≡ RunStep.Ended }
    ensures work { result.work ≡ work }
{
    calls.take_client(Box::into_inner(session), outcome.error());
    Next {
        phase: Phase::Ended(outcome, attempts),
        step: RunStep::Ended,
        work,
    }
}

/// What a request comes to that owes its client that, behind a call of a hook: what waits is to be
/// written, and where nothing does the request has ended.
pub(crate) fn owe<M: HttpModule + Drop, K: Drop, L: ByteLink, C: Drop>(
    calls: &mut Calls<M, K, C>,
    session: Box<HttpSession>,
    owed: Owed,
    attempts: AttemptList,
) -> Next<L, C>
    requires { is_served owed ≡ true }
    ensures some { 0 < length (pending session.value.writing.output)
        → (result.phase ≡ Phase.Answer session owed attempts) × (result.step ≡ RunStep.Moved) }
    ensures none { pending session.value.writing.output ≡ []
        → (result.phase ≡ Phase.Ended (outcome_owed owed) attempts)
        × (result.step ≡ RunStep.Ended) }
    ensures owes { result.step ≡ RunStep.Moved → OwesAnswer result.phase }
    ensures calls { Owing session.value owed calls.old calls.new result.phase }
    ensures stays { is_closing_at calls.old.at ≡ true → is_closing_at calls.new.at ≡ true }
    ensures step { (result.step ≡ RunStep.Moved) ⊎ (result.step ≡ RunStep.Ended) }
    ensures counts { CountsCall attempts result.phase result.work }
    ensures over { is_over result.phase ≡ is_end result.step }
    ensures unlinked { links_held L.state L.start result.phase ≡ 0 }
    ensures no_items { items_held L.start result.phase ≡ [] }
    ensures attempts { attempts_in result.phase ≡ attempts }
    ensures unopened { is_connecting result.phase ≡ false }
    ensures work { result.work ≡ Work.CALLED }
{
    if !session.has_pending() {
        return ended(calls, session, owed.outcome(), attempts, Work::CALLED);
    }
    Next {
        phase: Phase::Answer(session, owed, attempts),
        step: RunStep::Moved,
        work: Work::CALLED,
    }
}

/// Offers what waits to the client, once. A session knows nothing of the value that the connection
/// keeps, so that is set aside.
pub(crate) fn offer<D: ByteLink, U: Drop>(
    session: &mut HttpSession,
    client: &mut Connection<D, U>,
) -> Put
    requires { MayWrite session.old.writing.output }
    ensures answer { WritesPending session.old.writing.output (D.state client.old.link)
        (D.state client.new.link) result session.new.writing.output }
    ensures same { session.new ≡ record session.old {
      writing = record session.old.writing {
        output = session.new.writing.output;
      };
    } }
    ensures keeps { (tasks : List HttpTask) (sent : List ℕ)
        → Holds session.old.writing tasks sent → Holds session.new.writing tasks
        (sent ++ take (taken result) (pending session.old.writing.output)) }
    ensures ahead { client.new.ahead ≡ client.old.ahead }
    ensures kept { client.new.kept ≡ client.old.kept }
    ensures client_start { D.start client.new.link ≡ D.start client.old.link }
{
    let kept = client.take_kept();
    let put = session.write_pending(client);
    let _ = client.take_kept();
    if let Some(value) = kept {
        client.set_kept(value);
    }
    put
}
