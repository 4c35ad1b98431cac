//! An attempt that failed: the application treats its error; and then another attempt follows, or
//! the application answers the client for what it made of it (RFC 9110, sections 9.2.2 and 15).
ghost use Rattle.std.specs.Prelude.{◌≡◌, ◌⊎◌, ◌↔◌, ◌+◌, ◌≤◌, List, [], ◌∷◌, length, ℕ, None, Some, true, false, IsTrue};
ghost use Rattle.relay_connector.specs.Connector.{handed};
ghost use Rattle.relay_tasks.specs.Error.{may_retry};
ghost use Rattle.relay_session.specs.Session.{may_begin_again};
ghost use Rattle.relay_attempt.specs.Passed.{Passed};
ghost use Rattle.relay_request.specs.Bound.{CountsTreat, LeavesLink};
ghost use Rattle.relay_request.specs.Calls.{CallsSoFar, CountsCalls, IsUnended, Owing, allowed_by, log_of, treated_at};
ghost use Rattle.relay_request.specs.Leaving.{Answers, WritesAhead};
ghost use Rattle.relay_request.specs.Legs.{RepeatsOn};
ghost use Rattle.relay_request.specs.Passed.{World, Start, called_to, opened_to};
ghost use Rattle.relay_request.specs.Phases.{RunSoFar, waits_to_begin};
ghost use Rattle.relay_request.specs.Refusals.{attempts_in};
ghost use Rattle.relay_request.specs.Relaying.{is_closing};
ghost use Rattle.relay_request.specs.Stock.{items_held};
ghost use Rattle.relay_request.specs.Tries.{MayTry, tries_in};
ghost use Rattle.relay_request.specs.Uses.{ClientUses, LinkUses, OwesAnswer, PhaseUses};
ghost use Rattle.relay_request.specs.Turn.{DoesWork, held_state, is_over, is_end, links_held, world_of, Advances, HandsOn, HasCause};

use crate::answering::offer;
use crate::connecting::may_try;
use crate::preparing::closed;
use relay_h1::Connection;
use relay_hooks::{HttpModule, ProxyHttp};
use relay_links::{ByteLink, Put};
use relay_request::{
    Calls, Lease, Next, Opened, Outcome, Owed, Phase, RunStep, Work, answer_error, call_next, treat,
};
use relay_session::HttpSession;
use relay_tasks::{Error, Pause};

/// The turn of an attempt that failed with that error: the application treats it. Where it was
/// treated another attempt follows, where one may: the error is marked so, the request has made
/// fewer attempts than `most`, and its session lets another one begin. What waits for the client is
/// written before, where that alone keeps another one from beginning. Else the application answers
/// the client. The link is to go back then.
pub(crate) fn fail<SV: ProxyHttp, D: ByteLink, U: Drop, L: ByteLink>(
    app: &SV,
    most: usize,
    calls: &mut Calls<SV::Modules, SV::Kept, SV::CTX>,
    client: &mut Connection<D, U>,
    context: SV::CTX,
    session: Box<HttpSession>,
    link: L,
    lease: Lease,
    keep: bool,
    error: Error,
) -> Next<L, SV::CTX>
    ensures run { (s : Start) (p : Passed) (faults : ℕ) → s.most ≡ most
        → CallsSoFar {L = L} (allowed_by (SV.allows app.now) SV.Modules.allows)
        (SV.mark_of app.now) calls.old (Phase.Broken context session link lease keep error)
        → RunSoFar {C = SV.CTX} L.state L.start (called_to s (log_of calls.old)) p
        (world_of D.state client.old faults) []
        (Phase.Broken context session link lease keep error)
        → Advances {C = SV.CTX} L.state L.start (called_to s (log_of calls.new))
        (world_of D.state client.new faults) result.phase
        ⊎ RepeatsOn {C = SV.CTX} L.state L.start (called_to s (log_of calls.new))
        (world_of D.state client.new faults) result.phase }
    ensures calls { CallsSoFar {L = L} (allowed_by (SV.allows app.now) SV.Modules.allows)
        (SV.mark_of app.now) calls.old (Phase.Broken context session link lease keep error)
        → CallsSoFar {L = L} (allowed_by (SV.allows app.now) SV.Modules.allows)
        (SV.mark_of app.now) calls.new result.phase }
    ensures cause { (log : List _) (faults : ℕ) → HasCause L.state L.start log
        (world_of D.state client.old faults) (world_of D.state client.new faults)
        (Phase.Broken context session link lease keep error) result.phase result.step }
    ensures work { DoesWork result.step result.work }
    ensures called { CountsCalls calls.old calls.new result.work }
    ensures counts { CountsTreat (tries_in lease) result.phase result.work }
    ensures leaves { LeavesLink link lease result.phase }
    ensures uses { ClientUses result.work.used (D.state client.old.link) (D.state client.new.link) }
    ensures gives { (D.state client.new.link).given ≡ (D.state client.old.link).given }
    ensures ahead { client.new.ahead ≡ client.old.ahead }
    ensures kept { client.new.kept ≡ client.old.kept }
    ensures client_start { D.start client.new.link ≡ D.start client.old.link }
    ensures step { HandsOn result.phase result.step }
    ensures over { is_over result.phase ≡ is_end result.step }
    ensures held { held_state L.state result.phase ≡ Some (L.state link) }
    ensures tries { attempts_in result.phase ≡ tries_in lease }
    ensures linked { links_held L.state L.start result.phase ≡ 1 }
    ensures items { items_held L.start result.phase ≡ handed (L.start link) ∷ [] }
    ensures asked { (n : ℕ) → LinkUses L.state L.start n link
        → PhaseUses L.state L.start n [] result.phase }
{
    let Some(treated) = calls.treated() else {
        return treat_broken(app, calls, context, session, link, lease, keep, error);
    };
    match behind_treated(most, lease.room.made(), &treated, &session) {
        Behind::Repeats => repeat(
            app, calls, context, session, link, lease, keep, error, treated,
        ),
        Behind::Writes => write_ahead(client, context, session, link, lease, keep, error),
        Behind::Answers => answer_broken(
            app, calls, context, session, link, lease, keep, error, treated,
        ),
    }
}

/// What follows an attempt whose error was treated: another one; what waits for the client is
/// written, since that alone keeps another one from beginning; or the application answers the
/// client.
#[derive(Clone, Copy)]
enum Behind {
    Repeats,
    Writes,
    Answers,
}

/// What follows the last of so many attempts, which failed with that error, as it was treated.
/// Another one may where the error is marked so and the request has made fewer than `most`, and
/// does where its session stands so that another may begin with it.
fn behind_treated(most: usize, made: usize, error: &Error, session: &HttpSession) -> Behind
    ensures repeats { result ≡ Behind.Repeats
        → MayTry most made error.now × (may_begin_again session.now ≡ true) }
    ensures writes { result ≡ Behind.Writes → waits_to_begin session.now ≡ true }
    ensures answers { result ≡ Behind.Answers → MayTry most made error.now
        → (may_begin_again session.now ≡ false) × (waits_to_begin session.now ≡ false) }
{
    if !may_try(most, made, error) {
        return Behind::Answers;
    }
    if session.may_begin_again() {
        return Behind::Repeats;
    }
    if waits_to_begin(session) {
        return Behind::Writes;
    }
    Behind::Answers
}

/// Whether informational heads wait for the client, and nothing else keeps another attempt from
/// beginning with the session.
fn waits_to_begin(session: &HttpSession) -> bool
    ensures { result ≡ waits_to_begin session.now }
{
    !session.retry_buffer_truncated() && (!session.response_written() && session.has_pending())
}

/// One write of what waits for the client of an attempt that failed, behind which another one may
/// follow: one byte at least. Where the write fails none does.
fn write_ahead<D: ByteLink, U: Drop, L: ByteLink, C: Drop>(
    client: &mut Connection<D, U>,
    context: C,
    session: Box<HttpSession>,
    link: L,
    lease: Lease,
    keep: bool,
    error: Error,
) -> Next<L, C>
    requires { waits_to_begin session.value ≡ true }
    ensures run { (s : Start) (p : Passed) (faults : ℕ)
        → RunSoFar {C = C} L.state L.start s p (world_of D.state client.old faults) []
        (Phase.Broken context session link lease keep error)
        → Advances {C = C} L.state L.start s (world_of D.state client.new faults) result.phase }
    ensures comes { WritesAhead context session.value link lease keep error result.phase }
    ensures cause { (log : List _) (faults : ℕ) → HasCause {C = C} L.state L.start log
        (world_of D.state client.old faults) (world_of D.state client.new faults)
        (Phase.Broken context session link lease keep error) result.phase result.step }
    ensures work { DoesWork result.step result.work }
    ensures counts { CountsTreat (tries_in lease) result.phase result.work }
    ensures called { result.work.called ≡ 0 }
    ensures uses { ClientUses result.work.used (D.state client.old.link) (D.state client.new.link) }
    ensures gives { (D.state client.new.link).given ≡ (D.state client.old.link).given }
    ensures ahead { client.new.ahead ≡ client.old.ahead }
    ensures kept { client.new.kept ≡ client.old.kept }
    ensures client_start { D.start client.new.link ≡ D.start client.old.link }
    ensures step { HandsOn result.phase result.step }
    ensures over { is_over result.phase ≡ is_end result.step }
{
    let mut session = session;
    let (step, work) = match offer(&mut session, client) {
        Put::Took(_) | Put::Failed(_) => (RunStep::Moved, Work::USED),
        Put::NotReady => (RunStep::Waited(Pause::NotReady), Work::USED),
        Put::Silent => (RunStep::Waited(Pause::Silent), Work::NONE),
        Put::OutOfMemory => {
            return Next {
                phase: Phase::Close(link, lease, false, Outcome::OutOfMemory),
                step: RunStep::Ended,
                work: Work::USED,
            };
        }
    };
    Next {
        phase: Phase::Broken(context, session, link, lease, keep, error),
        step,
        work,
    }
}

/// Another attempt follows the one that failed with that error, as it was treated: the application
/// is asked whether its warning is not to be written. The link is to go back then.
fn repeat<SV: ProxyHttp, L: ByteLink>(
    app: &SV,
    calls: &mut Calls<SV::Modules, SV::Kept, SV::CTX>,
    context: SV::CTX,
    session: Box<HttpSession>,
    link: L,
    lease: Lease,
    keep: bool,
    error: Error,
    treated: Error,
) -> Next<L, SV::CTX>
    requires treated { treated_at calls.old.at ≡ Some treated }
    requires begun { may_begin_again session.value ≡ true }
    ensures run { (s : Start) (p : Passed) (w : World)
        → MayTry s.most (1 + length (tries_in lease)) treated
        → CallsSoFar {L = L} (allowed_by (SV.allows app.now) SV.Modules.allows)
        (SV.mark_of app.now) calls.old (Phase.Broken context session link lease keep error)
        → RunSoFar {C = SV.CTX} L.state L.start (called_to s (log_of calls.old)) p w []
        (Phase.Broken context session link lease keep error)
        → Advances {C = SV.CTX} L.state L.start (called_to s (log_of calls.new)) w result.phase
        ⊎ RepeatsOn {C = SV.CTX} L.state L.start (called_to s (log_of calls.new)) w result.phase }
    ensures calls { may_retry treated.retry ≡ true
        → CallsSoFar {L = L} (allowed_by (SV.allows app.now) SV.Modules.allows)
        (SV.mark_of app.now) calls.old (Phase.Broken context session link lease keep error)
        → CallsSoFar {L = L} (allowed_by (SV.allows app.now) SV.Modules.allows)
        (SV.mark_of app.now) calls.new result.phase }
    ensures cause { (log : List _) (w x : World) → HasCause L.state L.start log w x
        (Phase.Broken context session link lease keep error) result.phase result.step }
    ensures work { DoesWork result.step result.work }
    ensures called { CountsCalls calls.old calls.new result.work }
    ensures counts { CountsTreat (tries_in lease) result.phase result.work }
    ensures leaves { LeavesLink link lease result.phase }
    ensures unused { result.work.used ≡ 0 }
    ensures step { (result.step ≡ RunStep.Moved) ⊎ (result.step ≡ RunStep.Ended) }
    ensures over { is_over result.phase ≡ is_end result.step }
    ensures held { held_state L.state result.phase ≡ Some (L.state link) }
    ensures tries { attempts_in result.phase ≡ tries_in lease }
    ensures linked { links_held L.state L.start result.phase ≡ 1 }
    ensures items { items_held L.start result.phase ≡ handed (L.start link) ∷ [] }
    ensures asked { (n : ℕ) → LinkUses L.state L.start n link
        → PhaseUses L.state L.start n [] result.phase }
{
    let mut context = context;
    let mut session = session;
    calls.repeat(treated);
    // It is asked for the warning, behind which no modules are made.
    match call_next(app, calls, &mut context, &mut session, false) {
        Opened::GoesOn => Next {
            phase: Phase::Again(context, session, link, lease, keep, treated),
            step: RunStep::Moved,
            work: Work::CALLED,
        },
        Opened::Answered | Opened::OutOfMemory => {
            closed(link, lease, false, Outcome::OutOfMemory)
        }
    }
}

/// Has the application treat the error of an attempt. It is to be answered then.
fn treat_broken<SV: ProxyHttp, L: ByteLink>(
    app: &SV,
    calls: &mut Calls<SV::Modules, SV::Kept, SV::CTX>,
    context: SV::CTX,
    session: Box<HttpSession>,
    link: L,
    lease: Lease,
    keep: bool,
    error: Error,
) -> Next<L, SV::CTX>
    requires { treated_at calls.old.at ≡ None }
    ensures run { (s : Start) (p : Passed) (w : World)
        → RunSoFar {C = SV.CTX} L.state L.start (opened_to s (log_of calls.old)) p w []
        (Phase.Broken context session link lease keep error)
        → Advances {C = SV.CTX} L.state L.start (opened_to s (log_of calls.new)) w result.phase }
    ensures calls { CallsSoFar {L = L} (allowed_by (SV.allows app.now) SV.Modules.allows)
        (SV.mark_of app.now) calls.old (Phase.Broken context session link lease keep error)
        → CallsSoFar {L = L} (allowed_by (SV.allows app.now) SV.Modules.allows)
        (SV.mark_of app.now) calls.new result.phase }
    ensures cause { (log : List _) (w x : World) → HasCause L.state L.start log w x
        (Phase.Broken context session link lease keep error) result.phase result.step }
    ensures work { DoesWork result.step result.work }
    ensures called { CountsCalls calls.old calls.new result.work }
    ensures counts { CountsTreat (tries_in lease) result.phase result.work }
    ensures leaves { LeavesLink link lease result.phase }
    ensures unused { result.work.used ≡ 0 }
    ensures step { (result.step ≡ RunStep.Moved) ⊎ (result.step ≡ RunStep.Ended) }
    ensures over { is_over result.phase ≡ is_end result.step }
    ensures held { held_state L.state result.phase ≡ Some (L.state link) }
    ensures tries { attempts_in result.phase ≡ tries_in lease }
    ensures linked { links_held L.state L.start result.phase ≡ 1 }
    ensures items { items_held L.start result.phase ≡ handed (L.start link) ∷ [] }
    ensures asked { (n : ℕ) → LinkUses L.state L.start n link
        → PhaseUses L.state L.start n [] result.phase }
    ensures unended { IsUnended (log_of calls.old) → IsUnended (log_of calls.new) }
{
    let mut context = context;
    let mut session = session;
    match treat(
        app,
        calls,
        &mut context,
        &mut session,
        &lease.peer,
        error,
        lease.reused,
    ) {
        Ok(_treated) => Next {
            phase: Phase::Broken(context, session, link, lease, keep, error),
            step: RunStep::Moved,
            work: Work::CALLED,
        },
        Err(_) => closed(link, lease, false, Outcome::OutOfMemory),
    }
}

/// Has the application answer the error of an attempt as it was treated. Its link is to go back,
/// and the client is owed what was queued for it; where nothing waits, the request ends.
fn answer_broken<SV: ProxyHttp, L: ByteLink>(
    app: &SV,
    calls: &mut Calls<SV::Modules, SV::Kept, SV::CTX>,
    context: SV::CTX,
    session: Box<HttpSession>,
    link: L,
    lease: Lease,
    keep: bool,
    error: Error,
    treated: Error,
) -> Next<L, SV::CTX>
    requires { treated_at calls.old.at ≡ Some treated }
    ensures run { (s : Start) (p : Passed) (w : World)
        → (MayTry s.most (1 + length (tries_in lease)) treated
        → (may_begin_again session.value ≡ false) × (waits_to_begin session.value ≡ false))
        → CallsSoFar {L = L} (allowed_by (SV.allows app.now) SV.Modules.allows)
        (SV.mark_of app.now) calls.old (Phase.Broken context session link lease keep error)
        → RunSoFar {C = SV.CTX} L.state L.start (called_to s (log_of calls.old)) p w []
        (Phase.Broken context session link lease keep error)
        → Advances {C = SV.CTX} L.state L.start (called_to s (log_of calls.new)) w result.phase }
    ensures calls { CallsSoFar {L = L} (allowed_by (SV.allows app.now) SV.Modules.allows)
        (SV.mark_of app.now) calls.old (Phase.Broken context session link lease keep error)
        → CallsSoFar {L = L} (allowed_by (SV.allows app.now) SV.Modules.allows)
        (SV.mark_of app.now) calls.new result.phase }
    ensures cause { (log : List _) (w x : World) → HasCause L.state L.start log w x
        (Phase.Broken context session link lease keep error) result.phase result.step }
    ensures work { DoesWork result.step result.work }
    ensures called { CountsCalls calls.old calls.new result.work }
    ensures counts { CountsTreat (tries_in lease) result.phase result.work }
    ensures leaves { LeavesLink link lease result.phase }
    ensures unused { result.work.used ≡ 0 }
    ensures step { (result.step ≡ RunStep.Moved) ⊎ (result.step ≡ RunStep.Ended) }
    ensures over { is_over result.phase ≡ is_end result.step }
    ensures held { held_state L.state result.phase ≡ Some (L.state link) }
    ensures tries { attempts_in result.phase ≡ tries_in lease }
    ensures linked { links_held L.state L.start result.phase ≡ 1 }
    ensures items { items_held L.start result.phase ≡ handed (L.start link) ∷ [] }
    ensures asked { (n : ℕ) → LinkUses L.state L.start n link
        → PhaseUses L.state L.start n [] result.phase }
{
    let mut session = session;
    match answer_error(app, calls, context, &mut session, treated) {
        Ok(()) => owe(calls, session, link, lease, keep, treated),
        Err(_) => closed(link, lease, false, Outcome::OutOfMemory),
    }
}

/// What an attempt comes to whose error was answered: what waits for the client is to be written.
fn owe<M: HttpModule + Drop, K: Drop, L: ByteLink, C: Drop>(
    calls: &mut Calls<M, K, C>,
    session: Box<HttpSession>,
    link: L,
    lease: Lease,
    keep: bool,
    error: Error,
) -> Next<L, C>
    ensures comes { Answers session.value.writing link lease keep error result.phase }
    ensures calls { Owing session.value (Owed.Served error) calls.old calls.new
        result.phase }
    ensures closing { is_closing result.phase ≡ true }
    ensures owes { result.step ≡ RunStep.Moved → OwesAnswer result.phase }
    ensures leaves { LeavesLink link lease result.phase }
    ensures work { DoesWork result.step result.work }
    ensures called { result.work.called ≤ 1 }
    ensures counts { CountsTreat (tries_in lease) result.phase result.work }
    ensures unused { result.work.used ≡ 0 }
    ensures step { (result.step ≡ RunStep.Moved) ⊎ (result.step ≡ RunStep.Ended) }
    ensures over { is_over result.phase ≡ is_end result.step }
    ensures held { held_state L.state result.phase ≡ Some (L.state link) }
    ensures tries { attempts_in result.phase ≡ tries_in lease }
    ensures linked { links_held L.state L.start result.phase ≡ 1 }
    ensures items { items_held L.start result.phase ≡ handed (L.start link) ∷ [] }
    ensures asked { (n : ℕ) → LinkUses L.state L.start n link
        → PhaseUses L.state L.start n [] result.phase }
{
    if !session.has_pending() {
        calls.take_client(Box::into_inner(session), Some(error));
        return Next {
            phase: Phase::Close(link, lease, keep, Owed::Served(error).outcome()),
            step: RunStep::Ended,
            work: Work::CALLED,
        };
    }
    Next {
        phase: Phase::Fail(link, lease, keep, session, error),
        step: RunStep::Moved,
        work: Work::CALLED,
    }
}
