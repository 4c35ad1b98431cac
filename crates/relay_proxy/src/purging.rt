//! A purge: the purger is asked for it, and its answer is owed to the client (RFC 9110, section 15;
//! RFC 9111, section 4.4).
ghost use Rattle.std.specs.Prelude.{◌≡◌, ◌⊎◌, List, [], Some};
ghost use Rattle.relay_attempt.specs.Passed.{Passed};
ghost use Rattle.relay_request.specs.Bound.{CountsCall};
ghost use Rattle.relay_request.specs.Calls.{CallsSoFar, CountsCalls, IsUnended, allowed_by, log_of, purge_at};
ghost use Rattle.relay_request.specs.Passed.{World, Start, opened_to};
ghost use Rattle.relay_request.specs.Phases.{RunSoFar};
ghost use Rattle.relay_request.specs.Purging.{AsksPurger};
ghost use Rattle.relay_request.specs.Refusals.{attempts_in};
ghost use Rattle.relay_request.specs.Stock.{items_held};
ghost use Rattle.relay_request.specs.Turn.{DoesWork, is_over, is_end, links_held, Advances, HasCause};

use crate::answering::owe;
use crate::connecting::lacks_memory;
use relay_hooks::ProxyHttp;
use relay_links::{ByteLink, Purger};
use relay_purging::End;
use relay_request::{AttemptList, Calls, Next, Owed, Phase, RunStep, call_purger};
use relay_session::HttpSession;
use relay_tasks::PurgeAction;

/// Asks the purger to do that with what is kept for the request's target. The client is owed its
/// answer, as one that hooks answered, and the end of the request begins with that. No write to the
/// client has failed so far, so an answer that could not be queued wanted memory.
pub(crate) fn purge<SV: ProxyHttp, P: Purger, L: ByteLink>(
    app: &SV,
    purger: &mut P,
    calls: &mut Calls<SV::Modules, SV::Kept, SV::CTX>,
    context: SV::CTX,
    session: Box<HttpSession>,
    tries: AttemptList,
    action: PurgeAction,
) -> Next<L, SV::CTX>
    requires { purge_at calls.old.at ≡ Some action }
    ensures run { (s : Start) (p : Passed) (w : World)
        → CallsSoFar {L = L} (allowed_by (SV.allows app.now) SV.Modules.allows)
        (SV.mark_of app.now) calls.old (Phase.Connect context session tries)
        → RunSoFar {C = SV.CTX} L.state L.start (opened_to s (log_of calls.old)) p w []
        (Phase.Connect context session tries)
        → Advances L.state L.start (opened_to s (log_of calls.new)) w result.phase }
    ensures calls { CallsSoFar {L = L} (allowed_by (SV.allows app.now) SV.Modules.allows)
        (SV.mark_of app.now) calls.old (Phase.Connect context session tries)
        → CallsSoFar {L = L} (allowed_by (SV.allows app.now) SV.Modules.allows)
        (SV.mark_of app.now) calls.new result.phase }
    ensures cause { (log : List _) (w : World) → HasCause L.state L.start log w w
        (Phase.Connect context session tries) result.phase result.step }
    ensures work { DoesWork result.step result.work }
    ensures counts { CountsCall tries result.phase result.work }
    ensures called { CountsCalls calls.old calls.new result.work }
    ensures unused { result.work.used ≡ 0 }
    ensures step { (result.step ≡ RunStep.Moved) ⊎ (result.step ≡ RunStep.Ended) }
    ensures over { is_over result.phase ≡ is_end result.step }
    ensures unlinked { links_held L.state L.start result.phase ≡ 0 }
    ensures no_items { items_held L.start result.phase ≡ [] }
    ensures attempts { attempts_in result.phase ≡ tries }
    // The end of the request does not begin with it.
    ensures unended { IsUnended (log_of calls.old) → IsUnended (log_of calls.new) }
    ensures purger { CallsSoFar {L = L} (allowed_by (SV.allows app.now) SV.Modules.allows)
        (SV.mark_of app.now) calls.old (Phase.Connect context session tries)
        → AsksPurger (P.state purger.old) (P.state purger.new) (log_of calls.old)
        (log_of calls.new) result.phase }
{
    let mut context = context;
    let mut session = session;
    match call_purger(app, purger, calls, &mut context, &mut session, action) {
        End::Answered => {
            calls.begin_end(context);
            owe(calls, session, Owed::Ahead(None), tries)
        }
        End::Unwritten(_) | End::Lost => lacks_memory(tries),
    }
}
