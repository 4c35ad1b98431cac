//! One turn of the hooks before the attempts: the hook that comes next, called and entered.
ghost use Rattle.std.specs.Prelude.{◌≡◌, ◌+◌, true, false, is_some, length, IfOk, IsOkUnless, IsSome, IsTrue, OnErr, OnOk, Option};
ghost use Rattle.relay_session.specs.Reading.{head_of};
ghost use Rattle.relay_modules.specs.Module.{AllowsMade};
ghost use Rattle.relay_modules.specs.declared.seen.Seen.{Seen};
ghost use Rattle.relay_hooks.specs.Session.{is_answered, request_head};
ghost use Rattle.relay_calls.specs.Log.{IsAllowed};
ghost use Rattle.relay_phases.specs.Looks.{Looks};
ghost use Rattle.relay_phases.specs.Modules.{MakesModules};
ghost use Rattle.relay_phases.specs.Order.{sending};
ghost use Rattle.relay_opening.specs.Opens.{OpensSoFar, TurnsOn, TurnsTo};
ghost use Rattle.relay_opening.specs.Refusal.{Refuses};
ghost use Rattle.relay_opening.specs.Place.{AreMade, Includes, NoCalls, StandBehind, TurnAllows, may_go_on};

use crate::place::{Called, End, Place, behind, behind_say, failed};
use relay_hooks::{HttpModule, ProxyHttp, Session};
use relay_phases::{
    call_allow_spawning_subrequest, call_early_request_filter, call_is_purge,
    call_module_request_header, call_new_ctx, call_on_connection_reuse, call_proxy_upstream_filter,
    call_request_filter, make_modules,
};
use relay_tasks::{Fail, Hook, Item, Result};

/// Makes the context of the request, which is the first turn, and answers it with where the opening
/// stands then. `kept` is the value that was kept from the request before it on the client's
/// connection.
///
/// Fails out of memory alone, and the log is then as before.
pub fn begin_opening<SV: ProxyHttp>(
    app: &SV,
    session: &mut Session<SV::Modules>,
    kept: Option<SV::Kept>,
) -> Result<(SV::CTX, Place<SV::Kept>)>
    requires read { IsSome (head_of session.old.seen.downstream.reading) }
    requires open_to { is_answered session.old.seen ≡ false }
    ensures opens { IfOk result (λ begun. OpensSoFar (IsAllowed (SV.allows app.now) NoCalls)
        session.old.seen (SV.mark_of app.now begun.0) begun.1
        session.new.seen (SV.mark_of app.now begun.0)) }
    ensures place { IfOk result (λ begun. begun.1 ≡ Place.Behind (Called.Made kept)) }
    ensures ready { IfOk result (λ begun. IsTrue (may_go_on begun.1 session.new.seen)) }
    ensures memory { IsOkUnless result Fail.OutOfMemory }
    ensures lost { OnErr result (session.new.seen.log ≡ session.old.seen.log) }
    ensures once { OnOk result (length session.new.seen.log
        ≡ length session.old.seen.log + 1) }
{
    let ctx = call_new_ctx(app, session)?;
    Ok((ctx, Place::Behind(Called::Made(kept))))
}

/// Calls the hook that comes next, and no other, and answers where the opening stands then. Once
/// it has ended nothing is called, and the place is the same again.
///
/// `makes_modules` says that the request has modules, which are made behind
/// `allow_spawning_subrequest`; else the modules stay as they are there. The context is that of the
/// request, and `app` the application to which it belongs; each turn is given the same.
pub fn take_turn<SV: ProxyHttp>(
    app: &SV,
    session: &mut Session<SV::Modules>,
    ctx: &mut SV::CTX,
    place: Place<SV::Kept>,
    makes_modules: bool,
) -> Place<SV::Kept>
    requires { IsTrue (may_go_on place session.old.seen) }
    ensures turns { TurnsOn (IsAllowed (SV.allows app.now)
        (TurnAllows SV.Modules.allows place session.old.modules))
        (is_some session.old.modules) place
        session.old.seen (SV.mark_of app.now ctx.old) session.new.seen
        (SV.mark_of app.now ctx.new) result }
    ensures opens { (made : Option SV.Modules) (first : Seen) (mark : _)
        → Includes SV.Modules.allows place session.old.modules
        (AllowsMade SV.Modules.allows made)
        → OpensSoFar (IsAllowed (SV.allows app.now) (AllowsMade SV.Modules.allows made))
        first mark place
        session.old.seen (SV.mark_of app.now ctx.old)
        → OpensSoFar (IsAllowed (SV.allows app.now) (AllowsMade SV.Modules.allows made))
        first mark result
        session.new.seen (SV.mark_of app.now ctx.new) }
    ensures ready { IsTrue (may_go_on result session.new.seen) }
    ensures made { AreMade makes_modules place result session.old.modules session.new.modules }
{
    match place {
        Place::Behind(last) => call_next(app, session, ctx, last, makes_modules),
        Place::Ended(end) => Place::Ended(end),
        Place::Lost => Place::Lost,
    }
}

/// Calls the hook that comes behind the last.
fn call_next<SV: ProxyHttp>(
    app: &SV,
    session: &mut Session<SV::Modules>,
    ctx: &mut SV::CTX,
    last: Called<SV::Kept>,
    makes_modules: bool,
) -> Place<SV::Kept>
    requires read { IsSome (head_of session.old.seen.downstream.reading) }
    requires open_to { is_answered session.old.seen ≡ false }
    ensures turns { TurnsOn (IsAllowed (SV.allows app.now)
        (TurnAllows SV.Modules.allows (Place.Behind last) session.old.modules))
        (is_some session.old.modules)
        (Place.Behind last) session.old.seen
        (SV.mark_of app.now ctx.old) session.new.seen (SV.mark_of app.now ctx.new) result }
    ensures made { AreMade makes_modules (Place.Behind last) result session.old.modules
        session.new.modules }
{
    match last {
        Called::Made(Some(kept)) => {
            let answer = call_on_connection_reuse(app, session, ctx, kept);
            behind(answer, Place::Behind(Called::Handed))
        }
        Called::Made(None) => {
            let answer = call_early_request_filter(app, session, ctx);
            behind(answer, Place::Behind(Called::Early))
        }
        Called::Handed => {
            let answer = call_early_request_filter(app, session, ctx);
            behind(answer, Place::Behind(Called::Early))
        }
        Called::Early => {
            let answer = ask_and_make(app, session, ctx, makes_modules);
            behind_say(
                answer,
                Place::Behind(Called::Spawning),
                Place::Behind(Called::Spawning),
            )
        }
        Called::Spawning => {
            if session.modules.is_some() {
                let answer = call_module_request_header(session, app.mark(ctx));
                return behind(answer, Place::Behind(Called::Headed));
            }
            let answer = call_request_filter(app, session, ctx);
            behind_say(
                answer,
                Place::Ended(End::Answered),
                Place::Behind(Called::Filtered),
            )
        }
        Called::Headed => {
            let answer = call_request_filter(app, session, ctx);
            behind_say(
                answer,
                Place::Ended(End::Answered),
                Place::Behind(Called::Filtered),
            )
        }
        Called::Filtered => {
            let answer = call_is_purge(app, session, ctx);
            behind_say(
                answer,
                Place::Ended(End::Purge),
                Place::Behind(Called::Sending),
            )
        }
        Called::Sending => decide(app, session, ctx),
    }
}

/// Asks whether the request may have subrequests, and makes its modules behind that where it has
/// any.
fn ask_and_make<SV: ProxyHttp>(
    app: &SV,
    session: &mut Session<SV::Modules>,
    ctx: &SV::CTX,
    makes_modules: bool,
) -> Result<bool>
    requires { IsSome (head_of session.old.seen.downstream.reading) }
    ensures calls { MakesModules (Looks (SV.allows app.now) Hook.AllowSpawningSubrequest
        (Item.Request (request_head session.old.seen)) (SV.mark_of app.now ctx.now)
        session.old.seen session.new.seen) result session.old.seen session.new.seen }
    ensures made { OnOk result (StandBehind makes_modules session.old.modules
        session.new.modules) }
{
    if makes_modules {
        make_modules(app, session, ctx)
    } else {
        call_allow_spawning_subrequest(app, session, ctx)
    }
}

/// Asks whether the request goes to an upstream. Where it does not, and no final head was queued,
/// the relay's 502 is.
fn decide<SV: ProxyHttp>(
    app: &SV,
    session: &mut Session<SV::Modules>,
    ctx: &mut SV::CTX,
) -> Place<SV::Kept>
    requires read { IsSome (head_of session.old.seen.downstream.reading) }
    requires open_to { is_answered session.old.seen ≡ false }
    ensures turns { TurnsTo (IsAllowed (SV.allows app.now) NoCalls)
        Hook.ProxyUpstreamFilter sending session.old.seen
        (SV.mark_of app.now ctx.old) session.new.seen (SV.mark_of app.now ctx.new) result }
{
    match call_proxy_upstream_filter(app, session, ctx) {
        Ok(true) => Place::Ended(End::Attempts),
        Ok(false) => Place::Ended(refuse(session)),
        Err(why) => failed(why),
    }
}

/// Queues the relay's 502, where no final head was queued.
fn refuse<M: HttpModule>(session: &mut Session<M>) -> End
    ensures { Refuses result session.old.seen session.new.seen }
{
    if session.seen.downstream.response_written() {
        return End::Declined;
    }
    match session.respond_error(502) {
        Ok(()) => End::Declined,
        Err(why) => End::Unwritten(why),
    }
}
