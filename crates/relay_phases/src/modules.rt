//! The modules of a request: they are made, and filter its head (RFC 9110, section 3.7).
//!
//! A call may be out of memory before it is made, and behind it: then the log is as before.
ghost use Rattle.std.specs.Prelude.{◌≡◌, Err, IsSome, OnOk, IsOkUnless};
ghost use Rattle.relay_tasks.specs.declared.error.Error.{Error};
ghost use Rattle.relay_session.specs.Reading.{head_of};
ghost use Rattle.relay_modules.specs.Module.{ModuleCall, AllowsMade};
ghost use Rattle.relay_hooks.specs.Call.{answered};
ghost use Rattle.relay_hooks.specs.Session.{request_head};
ghost use Rattle.relay_calls.specs.Calls.{Enters};
ghost use Rattle.relay_phases.specs.Looks.{Looks};
ghost use Rattle.relay_phases.specs.Modules.{CallsOnHead, MakesModules, told_error};

use crate::item::{begin_with_head, session_item};
use crate::settled::{changed, failed, only};
use relay_calls::log_call;
use relay_hooks::{HttpModule, ProxyHttp, Session};
use relay_tasks::{Fail, Hook, Item, Result};

/// Asks whether the request may have subrequests.
///
/// Fails out of memory alone.
pub fn call_allow_spawning_subrequest<SV: ProxyHttp>(
    app: &SV,
    session: &mut Session<SV::Modules>,
    ctx: &SV::CTX,
) -> Result<bool>
    requires { IsSome (head_of session.old.seen.downstream.reading) }
    ensures calls { Enters (answered Item.Answer result)
        (Looks (SV.allows app.now) Hook.AllowSpawningSubrequest
        (Item.Request (request_head session.old.seen)) (SV.mark_of app.now ctx.now)
        session.old.seen session.new.seen) session.old.seen session.new.seen }
    ensures memory { IsOkUnless result Fail.OutOfMemory }
    ensures modules { session.new.modules ≡ session.old.modules }
{
    let mark = app.mark(ctx);
    let begun = begin_with_head(&mut session.seen, Hook::AllowSpawningSubrequest, mark)?;
    let say = app.allow_spawning_subrequest(session, ctx);
    log_call(&mut session.seen, begun, only(Item::Answer(say)), mark)?;
    Ok(say)
}

/// As `call_allow_spawning_subrequest`, and makes the modules of the request behind it. That call
/// has no entry of its own.
///
/// The error of that call, which stands in the entry of the question; the modules are then those
/// before.
pub fn make_modules<SV: ProxyHttp>(
    app: &SV,
    session: &mut Session<SV::Modules>,
    ctx: &SV::CTX,
) -> Result<bool>
    requires { IsSome (head_of session.old.seen.downstream.reading) }
    ensures calls { MakesModules (Looks (SV.allows app.now) Hook.AllowSpawningSubrequest
        (Item.Request (request_head session.old.seen)) (SV.mark_of app.now ctx.now)
        session.old.seen session.new.seen) result session.old.seen session.new.seen }
    ensures made { OnOk result (IsSome session.new.modules) }
    ensures kept { (error : Error) → result ≡ Err (Fail.Error error)
        → session.new.modules ≡ session.old.modules }
{
    let mark = app.mark(ctx);
    let begun = begin_with_head(&mut session.seen, Hook::AllowSpawningSubrequest, mark)?;
    let say = app.allow_spawning_subrequest(session, ctx);
    let alloc = session.seen.alloc;
    match app.init_downstream_modules(alloc) {
        Ok(modules) => {
            session.modules = Some(modules);
            log_call(&mut session.seen, begun, only(Item::Answer(say)), mark)?;
            Ok(say)
        }
        Err(Fail::Error(error)) => {
            let outcome = failed(Item::Answer(say), error);
            log_call(&mut session.seen, begun, outcome, mark)?;
            Err(Fail::Error(error))
        }
        Err(Fail::OutOfMemory) => Err(Fail::OutOfMemory),
    }
}

/// Passes the head of the request through the modules, which were made. `mark` is that of the
/// context, which the call leaves.
///
/// The error of the filter, which stands in its entry; what it left of the head stays.
pub fn call_module_request_header<M: HttpModule>(session: &mut Session<M>, mark: u64) -> Result<()>
    requires read { IsSome (head_of session.old.seen.downstream.reading) }
    requires made { IsSome session.old.modules }
    ensures calls { Enters (told_error result)
        (CallsOnHead (AllowsMade M.allows session.old.modules) session.old.seen mark
        session.new.seen)
        session.old.seen session.new.seen }
    ensures narrows { (call : ModuleCall) → AllowsMade M.allows session.new.modules call
        → AllowsMade M.allows session.old.modules call }
{
    let begun = begin_with_head(&mut session.seen, Hook::ModuleRequestHeader, mark)?;
    let answer = session.filter_request_header();
    let made = session_item(&mut session.seen)?;
    let outcome = changed(made.item, &answer)?;
    log_call(&mut session.seen, begun, outcome, mark)?;
    answer
}
