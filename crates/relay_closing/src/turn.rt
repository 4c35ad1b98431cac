//! One turn of the hooks at the end of a request: the hook that comes next, called and entered.
ghost use Rattle.std.specs.Prelude.{◌≡◌, IsSome, IsTrue, Option};
ghost use Rattle.relay_session.specs.Reading.{head_of};
ghost use Rattle.relay_modules.specs.Module.{AllowsMade};
ghost use Rattle.relay_modules.specs.declared.seen.Seen.{Seen};
ghost use Rattle.relay_calls.specs.Log.{IsAllowed};
ghost use Rattle.relay_phases.specs.Order.{Station};
ghost use Rattle.relay_closing.specs.Closes.{ClosesSoFar, TurnsOn};
ghost use Rattle.relay_closing.specs.Place.{begins_at, logged, may_begin, may_go_on};

use crate::place::{Cause, End, Failure, Place, Stage};
use relay_hooks::{ProxyHttp, Session};
use relay_phases::{
    call_fail_to_proxy, call_logging, call_persist_connection_context, call_request_summary,
    call_suppress_error_log,
};

/// Calls the hook that comes next, and answers where the end of the request stands then.
///
/// `goes_back` says that the client's connection may serve another request: behind `logging`
/// `persist_connection_context` is called where it does, and nothing where it does not. Where the
/// session's keepalive flag is off behind `logging`, the client is gone, and nothing more is called
/// (RFC 9112, section 9.6). Once the request has ended nothing is called. The context is that of the
/// request, and `app` the application to which it belongs; each turn is given the same.
pub fn take_turn<SV: ProxyHttp>(
    app: &SV,
    session: &mut Session<SV::Modules>,
    ctx: &mut SV::CTX,
    place: Place<SV::Kept>,
    goes_back: bool,
) -> Place<SV::Kept>
    requires { IsTrue (may_go_on place session.old.seen) }
    ensures turns { (made : Option SV.Modules) (start : Station)
        → IsTrue (may_begin start place)
        → TurnsOn (IsAllowed (SV.allows app.now) (AllowsMade SV.Modules.allows made)) start
        goes_back place
        session.old.seen (SV.mark_of app.now ctx.old) session.new.seen
        (SV.mark_of app.now ctx.new) result }
    ensures closes { (made : Option SV.Modules) (start : Station) (first : Seen) (mark : _)
        → ClosesSoFar (IsAllowed (SV.allows app.now) (AllowsMade SV.Modules.allows made)) start
        first mark place
        session.old.seen (SV.mark_of app.now ctx.old)
        → ClosesSoFar (IsAllowed (SV.allows app.now) (AllowsMade SV.Modules.allows made)) start
        first mark result
        session.new.seen (SV.mark_of app.now ctx.new) }
    ensures ready { IsTrue (may_go_on result session.new.seen) }
{
    match place {
        Place::At(stage) => call_next(app, session, ctx, stage, goes_back),
        Place::Ended(end) => Place::Ended(end),
        Place::Lost => Place::Lost,
    }
}

/// Calls the hook that comes next at that stage.
fn call_next<SV: ProxyHttp>(
    app: &SV,
    session: &mut Session<SV::Modules>,
    ctx: &mut SV::CTX,
    stage: Stage,
    goes_back: bool,
) -> Place<SV::Kept>
    requires { IsSome (head_of session.old.seen.downstream.reading) }
    ensures turns { (made : Option SV.Modules) (start : Station)
        → IsTrue (begins_at start stage)
        → TurnsOn (IsAllowed (SV.allows app.now) (AllowsMade SV.Modules.allows made)) start
        goes_back (Place.At stage)
        session.old.seen (SV.mark_of app.now ctx.old) session.new.seen
        (SV.mark_of app.now ctx.new) result }
{
    match stage {
        Stage::Failing(error) => match call_fail_to_proxy(app, session, ctx, &error) {
            Ok(answer) => Place::At(Stage::Told(Failure { error, answer })),
            Err(_) => Place::Lost,
        },
        Stage::Told(failure) => match call_suppress_error_log(app, session, ctx, &failure.error) {
            Ok(true) => Place::At(Stage::Ending(Cause::Hidden(failure))),
            Ok(false) => Place::At(Stage::Reporting(failure)),
            Err(_) => Place::Lost,
        },
        Stage::Reporting(failure) => match call_request_summary(app, session, ctx) {
            Ok(summary) => Place::At(Stage::Ending(Cause::Reported(failure, summary))),
            Err(_) => Place::Lost,
        },
        Stage::Ending(cause) => match call_logging(app, session, ctx, cause.error()) {
            Ok(()) => logged(cause, session.seen.keepalive),
            Err(_) => Place::Lost,
        },
        Stage::Logged(cause) => {
            if !goes_back {
                return Place::Ended(End::Gone(cause));
            }
            match call_persist_connection_context(app, session, ctx) {
                Ok(kept) => Place::Ended(End::Kept(cause, kept)),
                Err(_) => Place::Lost,
            }
        }
    }
}

/// Where the end stands behind `logging`: the client may be kept, or it is gone.
fn logged<K>(cause: Cause, stays: bool) -> Place<K>
    ensures { result ≡ logged cause stays }
{
    if stays {
        Place::At(Stage::Logged(cause))
    } else {
        Place::Ended(End::Gone(cause))
    }
}
