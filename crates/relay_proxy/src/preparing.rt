//! The head of an attempt: it is filtered by the application and made as it is sent, over a link of
//! which nothing was asked yet; and the attempt's exchange begins with it (RFC 9110, section 7.6;
//! RFC 9112, section 3.2).
ghost use Rattle.std.specs.Prelude.{◌≡◌, ◌⊎◌, ◌≤◌, List, [], ◌∷◌, ◌++◌, ℕ, All, true, false, None, Some, IsSome, IfErr, IfOk};
ghost use Rattle.std.specs.Global.{Box};
ghost use Rattle.relay_connector.specs.Connector.{handed};
ghost use Rattle.relay_attempt.specs.Passed.{Passed};
ghost use Rattle.relay_authority.specs.Stage.{Makes};
ghost use Rattle.relay_h1.specs.Framing.{request_framing};
ghost use Rattle.relay_tasks.specs.declared.log.LogEntry.{LogEntry};
ghost use Rattle.relay_hooked.specs.Head.{link_of};
ghost use Rattle.relay_filters.specs.Response.{IsFilterCall};
ghost use Rattle.relay_purging.specs.Told.{purges_in};
ghost use Rattle.relay_request.specs.Bound.{CountsSend};
ghost use Rattle.relay_request.specs.Calls.{BeginsCalls, CallsSoFar, GrowsCalls, IsUnended, allowed_by, log_of};
ghost use Rattle.relay_request.specs.Endings.{IsInOrder};
ghost use Rattle.relay_request.specs.Passed.{HasFiltered, World, Start, opened_to, TellsClient};
ghost use Rattle.relay_request.specs.Phases.{IsRelaying, RunSoFar};
ghost use Rattle.relay_request.specs.Preparing.{MakesHead, Readies, Settles};
ghost use Rattle.relay_request.specs.Sent.{Sends, unframed};
ghost use Rattle.relay_request.specs.Refusals.{attempts_in};
ghost use Rattle.relay_request.specs.Stock.{items_held};
ghost use Rattle.relay_request.specs.Tries.{tries_in};
ghost use Rattle.relay_request.specs.Uses.{LinkUses, PhaseUses};
ghost use Rattle.relay_request.specs.Turn.{world_with, DoesWork, held_state, is_over, is_end, links_held, Advances, HasCause};

use relay_authority::{Client, Upstream, ready_head, sent_head};
use relay_h1::request_framing;
use relay_hooked::Unbegun;
use relay_hooks::ProxyHttp;
use relay_links::ByteLink;
use relay_request::{Attempt, Calls, Lease, Next, Outcome, Phase, RunStep, Work, filter};
use relay_session::{Front, HttpSession};
use relay_tasks::{Error, Fail, RequestHeader, Result};
use std::alloc::Global;

/// Makes the head that is sent: ready for the application's filter, filtered, and settled; and
/// begins the exchange with it, as over such a front to the client. A refusal on this way is the
/// error of the attempt, whose link nobody asked.
pub(crate) fn prepare<SV: ProxyHttp, L: ByteLink, F: Front>(
    alloc: Global,
    app: &SV,
    calls: &mut Calls<SV::Modules, SV::Kept, SV::CTX>,
    context: SV::CTX,
    session: Box<HttpSession>,
    link: L,
    lease: Lease,
) -> Next<L, SV::CTX>
    ensures run { (s : Start) (p : Passed) (front : F) (faults : ℕ)
        → let w = world_with (F.state front) (F.ahead front) faults in
        CallsSoFar {L = L} (allowed_by (SV.allows app.now) SV.Modules.allows)
        (SV.mark_of app.now) calls.old (Phase.Prepare context session link lease)
        → RunSoFar {C = SV.CTX} L.state L.start (opened_to s (log_of calls.old)) p w []
        (Phase.Prepare context session link lease)
        → Advances L.state L.start (opened_to s (log_of calls.new)) w result.phase }
    ensures calls { CallsSoFar {L = L} (allowed_by (SV.allows app.now) SV.Modules.allows)
        (SV.mark_of app.now) calls.old (Phase.Prepare context session link lease)
        → CallsSoFar {L = L} (allowed_by (SV.allows app.now) SV.Modules.allows)
        (SV.mark_of app.now) calls.new result.phase }
    ensures cause { (log : List LogEntry) (w x : World) → HasCause L.state L.start log w x
        (Phase.Prepare context session link lease) result.phase result.step }
    ensures work { DoesWork result.step result.work }
    ensures called { GrowsCalls calls.old calls.new result.work }
    ensures counts { CountsSend (tries_in lease) result.phase result.work }
    ensures unused { result.work.used ≡ 0 }
    ensures step { (result.step ≡ RunStep.Moved) ⊎ (result.step ≡ RunStep.Ended) }
    ensures over { is_over result.phase ≡ is_end result.step }
    ensures held { held_state L.state result.phase ≡ Some (L.state link) }
    ensures tries { attempts_in result.phase ≡ tries_in lease }
    ensures linked { links_held L.state L.start result.phase ≡ 1 }
    ensures items { items_held L.start result.phase ≡ handed (L.start link) ∷ [] }
    ensures asked { (n : ℕ) → LinkUses L.state L.start n link
        → PhaseUses L.state L.start n [] result.phase }
    ensures unended { IsUnended (log_of calls.old) → IsUnended (log_of calls.new) }
    ensures purged { purges_in (log_of calls.new) ≡ purges_in (log_of calls.old) }
{
    let mut context = context;
    let mut session = session;
    match sent_of(alloc, app, calls, &mut context, &mut session) {
        Ok(sent) => { begin::<SV, L, F>(alloc, app, calls, context, session, sent, link, lease) }
        Err(Fail::Error(error)) => fail_ahead(context, session, link, lease, true, error),
        Err(Fail::OutOfMemory) => closed(link, lease, false, Outcome::OutOfMemory),
    }
}

/// The head that is sent of the session's: made ready, filtered, and settled. One whose body has no
/// framing is refused.
fn sent_of<SV: ProxyHttp>(
    alloc: Global,
    app: &SV,
    calls: &mut Calls<SV::Modules, SV::Kept, SV::CTX>,
    context: &mut SV::CTX,
    client: &mut HttpSession,
) -> Result<RequestHeader>
    ensures makes { MakesHead (allowed_by (SV.allows app.now) SV.Modules.allows) calls.old
        client.old
        (SV.mark_of app.now context.old) calls.new client.new (SV.mark_of app.now context.new)
        result }
    ensures at { calls.new.at ≡ calls.old.at }
    ensures framed { IfOk result (λ head. IsSome (request_framing head)) }
{
    let ready = readied(alloc, client)?;
    let filtered = filter(app, calls, context, client, ready)?;
    settled(alloc, client, filtered)
}

/// A copy of the session's head, made ready for the filter. Out of memory also where there is no
/// head, which cannot be where this is called.
fn readied(alloc: Global, client: &HttpSession) -> Result<RequestHeader>
    ensures { Makes (Readies client.now) result }
{
    if !client.has_head() {
        return Err(Fail::OutOfMemory);
    }
    let Ok(copy) = client.req_header().copy() else {
        return Err(Fail::OutOfMemory);
    };
    ready_head(alloc, copy, Upstream::H1, false)
}

/// The head that the filter left, as it is sent beside the session's own.
fn settled(alloc: Global, client: &HttpSession, filtered: RequestHeader) -> Result<RequestHeader>
    ensures settles { Makes (Settles client.now filtered) result }
    ensures framed { IfOk result (λ head. IsSome (request_framing head)) }
{
    if !client.has_head() {
        return Err(Fail::OutOfMemory);
    }
    let asks = Client {
        custom: false,
        has_body: !client.is_body_empty(),
    };
    match sent_head(alloc, client.req_header(), filtered, Upstream::H1, asks) {
        Ok(sent) => framed(sent),
        Err(why) => Err(why),
    }
}

/// A head whose body has a framing; one without is refused, for the relay's own side.
fn framed(sent: RequestHeader) -> Result<RequestHeader>
    ensures ok { IfOk result (λ head. (head ≡ sent) × IsSome (request_framing sent)) }
    ensures framed { IfOk result (λ head. IsSome (request_framing head)) }
    ensures err { IfErr result (λ why. (why ≡ Fail.Error unframed)
        × (request_framing sent ≡ None)) }
{
    match request_framing(&sent) {
        Ok(_) => Ok(sent),
        Err(error) => Err(Fail::Error(error.into_in())),
    }
}

/// An attempt that failed with that error before its head was sent, whose link nobody asked, and
/// which is kept then or not: the application is to treat the error.
pub(crate) fn fail_ahead<L: ByteLink, C>(
    context: C,
    session: Box<HttpSession>,
    link: L,
    lease: Lease,
    keep: bool,
    error: Error,
) -> Next<L, C>
    ensures phase { result.phase ≡ Phase.Broken context session link lease keep error }
    ensures step { result.step ≡ RunStep.Moved }
    ensures work { result.work ≡ Work.ENDED }
{
    Next {
        phase: Phase::Broken(context, session, link, lease, keep, error),
        step: RunStep::Moved,
        work: Work::ENDED,
    }
}

/// A request that ended over a link that is to go back, kept or not.
pub(crate) fn closed<L, C>(link: L, lease: Lease, keep: bool, outcome: Outcome) -> Next<L, C>
    ensures phase { result.phase ≡ Phase.Close link lease keep outcome }
    ensures step { result.step ≡ RunStep.Ended }
    ensures work { result.work ≡ Work.ENDED }
{
    Next {
        phase: Phase::Close(link, lease, keep, outcome),
        step: RunStep::Ended,
        work: Work::ENDED,
    }
}

/// Begins the attempt's exchange over its link, with the head that is sent. Its body has a framing.
/// What was kept of the client's body passes the filters of requests first, the modules' and then
/// the application's; where it does not, their error is that of the attempt, whose link nobody
/// asked.
fn begin<SV: ProxyHttp, L: ByteLink, F: Front>(
    alloc: Global,
    app: &SV,
    calls: &mut Calls<SV::Modules, SV::Kept, SV::CTX>,
    context: SV::CTX,
    session: Box<HttpSession>,
    head: RequestHeader,
    link: L,
    lease: Lease,
) -> Next<L, SV::CTX>
    requires { IsSome (request_framing head) }
    ensures run { (s : Start) (p : Passed) (front : F) (faults : ℕ)
        → let w = world_with (F.state front) (F.ahead front) faults in
        (run : RunSoFar {C = SV.CTX} L.state L.start (opened_to s (log_of calls.old)) p w []
        (Phase.Prepare context session link lease))
        → Sends (log_of calls.old) run.holds.1.connecting.head head
        → HasFiltered (log_of calls.old)
        → Advances {C = SV.CTX} L.state L.start (opened_to s (log_of calls.new)) w result.phase }
    ensures calls { BeginsCalls {L = L} (allowed_by (SV.allows app.now) SV.Modules.allows)
        (SV.mark_of app.now) calls.old session.value context calls.new result.phase }
    ensures enters { (es : List LogEntry) × (log_of calls.new ≡ log_of calls.old ++ es)
        × All IsFilterCall es }
    ensures cause { (log : List LogEntry) (w x : World) (context : SV.CTX)
        (session : Box HttpSession) → HasCause L.state L.start log w x
        (Phase.Prepare context session link lease) result.phase result.step }
    ensures work { DoesWork result.step result.work }
    ensures called { result.work.called ≤ 1 }
    ensures counts { CountsSend (tries_in lease) result.phase result.work }
    ensures unused { result.work.used ≡ 0 }
    ensures step { (result.step ≡ RunStep.Moved) ⊎ (result.step ≡ RunStep.Ended) }
    ensures over { is_over result.phase ≡ is_end result.step }
    ensures held { held_state L.state result.phase ≡ Some (L.state link) }
    ensures tries { attempts_in result.phase ≡ tries_in lease }
    ensures linked { links_held L.state L.start result.phase ≡ 1 }
    ensures items { items_held L.start result.phase ≡ handed (L.start link) ∷ [] }
    ensures asked { (n : ℕ) → LinkUses L.state L.start n link
        → PhaseUses L.state L.start n [] result.phase }
{
    let mut context = context;
    let client = Box::into_inner(session);
    let session = &mut calls.session;
    match relay_hooked::begin::<SV, L, F>(app, alloc, session, &mut context, client, link, head) {
        Ok(exchange) => hold(
            alloc,
            Attempt {
                exchange,
                lease,
                context,
            },
        ),
        Err(unbegun) => break_unbegun(alloc, context, unbegun, lease),
    }
}

/// An attempt whose exchange was not begun: the filter's error is to be treated, and the link is
/// kept. Where memory was wanted the link is to go back.
fn break_unbegun<L: ByteLink, C: Drop>(
    alloc: Global,
    context: C,
    unbegun: Unbegun<L>,
    lease: Lease,
) -> Next<L, C>
    ensures comes { ((stays : Box HttpSession) × (e : Error) × (stays.value ≡ unbegun.client)
        × (unbegun.why ≡ Fail.Error e)
        × (result.phase ≡ Phase.Broken context stays unbegun.link lease true e))
        ⊎ (result.phase ≡ Phase.Close unbegun.link lease false Outcome.OutOfMemory) }
    ensures cause { (log : List LogEntry) (w x : World) (context : C) (session : Box HttpSession)
        (link : L) → HasCause L.state L.start log w x (Phase.Prepare context session link lease)
        result.phase result.step }
    ensures work { DoesWork result.step result.work }
    ensures called { result.work.called ≡ 0 }
    ensures counts { CountsSend (tries_in lease) result.phase result.work }
    ensures unused { result.work.used ≡ 0 }
    ensures step { (result.step ≡ RunStep.Moved) ⊎ (result.step ≡ RunStep.Ended) }
    ensures over { is_over result.phase ≡ is_end result.step }
    ensures held { held_state L.state result.phase ≡ Some (L.state unbegun.link) }
    ensures tries { attempts_in result.phase ≡ tries_in lease }
    ensures linked { links_held L.state L.start result.phase ≡ 1 }
    ensures items { items_held L.start result.phase ≡ handed (L.start unbegun.link) ∷ [] }
    ensures asked { (n : ℕ) → LinkUses L.state L.start n unbegun.link
        → PhaseUses L.state L.start n [] result.phase }
{
    let Unbegun { client, link, why } = unbegun;
    match why {
        Fail::OutOfMemory => closed(link, lease, false, Outcome::OutOfMemory),
        Fail::Error(error) => match Box::new(alloc, client) {
            Ok(session) => fail_ahead(context, session, link, lease, true, error),
            Err(_) => closed(link, lease, false, Outcome::OutOfMemory),
        },
    }
}

/// Holds an attempt whose exchange was begun. Where there is no memory for it, its link is to go
/// back.
fn hold<L: ByteLink, C: Drop>(alloc: Global, attempt: Attempt<L, C>) -> Next<L, C>
    ensures run { (s : Start) (p : Passed) (w : World) → TellsClient s p w → IsInOrder s p
        → w.client.faults ≡ s.faults → IsRelaying L.state L.start s p w attempt
        → Advances {C = C} L.state L.start s w result.phase }
    ensures comes { ((a : Box (Attempt L C)) × (a.value ≡ attempt)
        × (result.phase ≡ Phase.Relay a))
        ⊎ (result.phase ≡ Phase.Close (link_of attempt.exchange) attempt.lease false
        Outcome.OutOfMemory) }
    ensures cause { (log : List LogEntry) (w x : World) (context : C) (session : Box HttpSession)
        (link : L) → HasCause L.state L.start log w x
        (Phase.Prepare context session link attempt.lease) result.phase result.step }
    ensures work { DoesWork result.step result.work }
    ensures called { result.work.called ≤ 1 }
    ensures counts { CountsSend (tries_in attempt.lease) result.phase result.work }
    ensures unused { result.work.used ≡ 0 }
    ensures step { (result.step ≡ RunStep.Moved) ⊎ (result.step ≡ RunStep.Ended) }
    ensures over { is_over result.phase ≡ is_end result.step }
    ensures held { held_state L.state result.phase
        ≡ Some (L.state (link_of attempt.exchange)) }
    ensures tries { attempts_in result.phase ≡ tries_in attempt.lease }
    ensures linked { links_held L.state L.start result.phase ≡ 1 }
    ensures items { items_held L.start result.phase
        ≡ handed (L.start (link_of attempt.exchange)) ∷ [] }
    ensures asked { (n : ℕ) → LinkUses L.state L.start n (link_of attempt.exchange)
        → PhaseUses L.state L.start n [] result.phase }
{
    match Box::new(alloc, attempt) {
        Ok(attempt) => Next {
            phase: Phase::Relay(attempt),
            step: RunStep::Moved,
            work: Work::SENT,
        },
        Err(failed) => {
            let Attempt {
                exchange,
                lease,
                context: _,
            } = failed.value;
            closed(exchange.into_link(), lease, false, Outcome::OutOfMemory)
        }
    }
}
