//! A request to whose last attempt the connector gave no link: the application answers the client
//! for its error (RFC 9110, section 15.6.3).
ghost use Rattle.std.specs.Prelude.{◌≡◌, ◌⊎◌, List, []};
ghost use Rattle.relay_attempt.specs.Passed.{Passed};
ghost use Rattle.relay_request.specs.Bound.{CountsCall};
ghost use Rattle.relay_request.specs.Calls.{CallsSoFar, CountsCalls, allowed_by, log_of};
ghost use Rattle.relay_request.specs.Passed.{World, Start, called_to};
ghost use Rattle.relay_request.specs.Phases.{RunSoFar};
ghost use Rattle.relay_request.specs.Refusals.{attempts_in};
ghost use Rattle.relay_request.specs.Stock.{items_held};
ghost use Rattle.relay_request.specs.Turn.{DoesWork, is_over, is_end, links_held, Advances, HasCause};

use crate::answering::owe;
use crate::connecting::lacks_memory;
use relay_hooks::ProxyHttp;
use relay_links::ByteLink;
use relay_request::{AttemptList, Calls, Next, Owed, Phase, RunStep, answer_error};
use relay_session::HttpSession;
use relay_tasks::Error;

/// Has the application answer the client for that error, which is that of the last attempt. The
/// client is owed what it queued, and the request ends where that is nothing.
pub(crate) fn answer_unlinked<SV: ProxyHttp, L: ByteLink>(
    app: &SV,
    calls: &mut Calls<SV::Modules, SV::Kept, SV::CTX>,
    context: SV::CTX,
    session: Box<HttpSession>,
    attempts: AttemptList,
    error: Error,
) -> Next<L, SV::CTX>
    ensures run { (s : Start) (p : Passed) (w : World)
        → CallsSoFar {L = L} (allowed_by (SV.allows app.now) SV.Modules.allows)
        (SV.mark_of app.now) calls.old (Phase.Unlinked context session attempts error)
        → RunSoFar {C = SV.CTX} L.state L.start (called_to s (log_of calls.old)) p w []
        (Phase.Unlinked context session attempts error)
        → Advances L.state L.start (called_to s (log_of calls.new)) w result.phase }
    ensures calls { CallsSoFar {L = L} (allowed_by (SV.allows app.now) SV.Modules.allows)
        (SV.mark_of app.now) calls.old (Phase.Unlinked context session attempts error)
        → CallsSoFar {L = L} (allowed_by (SV.allows app.now) SV.Modules.allows)
        (SV.mark_of app.now) calls.new result.phase }
    ensures cause { (log : List _) (w x : World) → HasCause L.state L.start log w x
        (Phase.Unlinked context session attempts error) result.phase result.step }
    ensures work { DoesWork result.step result.work }
    ensures counts { CountsCall attempts result.phase result.work }
    ensures called { CountsCalls calls.old calls.new result.work }
    ensures unused { result.work.used ≡ 0 }
    ensures step { (result.step ≡ RunStep.Moved) ⊎ (result.step ≡ RunStep.Ended) }
    ensures over { is_over result.phase ≡ is_end result.step }
    ensures unlinked { links_held L.state L.start result.phase ≡ 0 }
    ensures no_items { items_held L.start result.phase ≡ [] }
    ensures attempts { attempts_in result.phase ≡ attempts }
{
    let mut session = session;
    match answer_error(app, calls, context, &mut session, error) {
        Ok(()) => owe(calls, session, Owed::Served(error), attempts),
        Err(_) => lacks_memory(attempts),
    }
}
