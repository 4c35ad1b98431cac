//! The hooks at the end of a request, called one a turn up to its end.
ghost use Rattle.std.specs.Prelude.{IsSome};
ghost use Rattle.relay_session.specs.Reading.{head_of};

use crate::tests::scripted::app_of;
use crate::tests::support::{defaults, expect, hook_at, release, unmade};
use relay_closing::{Cause, End, Place, begin_closing, take_turn};
use relay_hooks::{HttpModule, ProxyHttp, Session};
use relay_script::Action;
use relay_tasks::{Error, ErrorType, Fail, Hook, PhaseLog, Result};
use std::alloc::Global;

/// How a request ended; `Reported` says whether the line on it is that of `GET /a`.
#[derive(Clone, Copy, Debug, PartialEq, Eq)]
enum Told {
    Finished,
    Hidden,
    Reported(bool),
}

/// What came of the end of a request: how it ended, whether it tells the error that it was given
/// and `logging` was called once, the status with which the client was answered, whether a final
/// head was queued, the hooks that the log tells, and whether a value is kept.
#[derive(Clone, Copy, Debug, PartialEq, Eq)]
struct Came {
    told: Told,
    is_told: bool,
    code: u16,
    answered: bool,
    hooks: [Option<Hook>; 5],
    keeps: bool,
}

/// The end of a GET for `/a` with that error or none; out of memory where that is out of reach.
fn closed<A: ProxyHttp + Drop>(
    app: Result<A>,
    alloc: Global,
    error: Option<Error>,
    goes_back: bool,
) -> Result<Came> {
    let app = app?;
    let mut session = unmade(alloc)?;
    let mut ctx = app.new_ctx();
    let place = run(&app, &mut session, &mut ctx, error, goes_back);
    let came = came_of(&session, error, place);
    release(session);
    release(ctx);
    came
}

/// Takes six turns, of which at least the last calls nothing.
fn run<A: ProxyHttp>(
    app: &A,
    session: &mut Session<A::Modules>,
    ctx: &mut A::CTX,
    error: Option<Error>,
    goes_back: bool,
) -> Place<A::Kept>
    requires { IsSome (head_of session.old.seen.downstream.reading) }
{
    let place = take_turn(app, session, ctx, begin_closing(error), goes_back);
    let place = take_turn(app, session, ctx, place, goes_back);
    let place = take_turn(app, session, ctx, place, goes_back);
    let place = take_turn(app, session, ctx, place, goes_back);
    let place = take_turn(app, session, ctx, place, goes_back);
    take_turn(app, session, ctx, place, goes_back)
}

/// What came of an end.
fn came_of<M: HttpModule, K: Drop>(
    session: &Session<M>,
    error: Option<Error>,
    place: Place<K>,
) -> Result<Came> {
    match place {
        Place::At(_) => Err(Fail::OutOfMemory),
        Place::Lost => Err(Fail::OutOfMemory),
        Place::Ended(End::Gone(cause)) => Ok(told_of(session, error, &cause, false)),
        Place::Ended(End::Kept(cause, kept)) => {
            Ok(told_of(session, error, &cause, kept.is_some()))
        }
    }
}

fn told_of<M: HttpModule>(
    session: &Session<M>,
    error: Option<Error>,
    cause: &Cause,
    keeps: bool,
) -> Came {
    let (told, code) = match cause {
        Cause::Finished => (Told::Finished, 0),
        Cause::Hidden(failure) => (Told::Hidden, failure.answer.error_code),
        Cause::Reported(failure, line) => {
            let is_line = line.as_slice() == b"GET /a, Host: h".as_slice();
            (Told::Reported(is_line), failure.answer.error_code)
        }
    };
    let log = session.phase_log();
    Came {
        told,
        is_told: cause.error() == error && is_logged_once(log),
        code,
        answered: session.as_downstream().response_written(),
        hooks: hooks_of(log),
        keeps,
    }
}

/// The first hooks that a log tells.
fn hooks_of(log: &PhaseLog) -> [Option<Hook>; 5] {
    [
        hook_at(log, 0),
        hook_at(log, 1),
        hook_at(log, 2),
        hook_at(log, 3),
        hook_at(log, 4),
    ]
}

/// Whether `logging` was called once.
fn is_logged_once(log: &PhaseLog) -> bool {
    let mut calls = 0_usize;
    for line in log.lines() {
        if line.hook == Hook::Logging {
            calls = calls.saturating_add(1);
        }
    }
    calls == 1
}

/// The hooks for an error, the last of which is called where the client goes back.
const HOOKS: [Option<Hook>; 5] = [
    Some(Hook::FailToProxy),
    Some(Hook::SuppressErrorLog),
    Some(Hook::RequestSummary),
    Some(Hook::Logging),
    Some(Hook::PersistConnectionContext),
];

#[test]
fn answers_an_error_by_its_code(rt: HostRuntime) {
    let error = Error::new_up(ErrorType::ConnectError);
    let came = Came {
        told: Told::Reported(true),
        is_told: true,
        code: 502,
        answered: true,
        hooks: HOOKS,
        keeps: false,
    };
    expect(
        &rt,
        closed(defaults(), rt.alloc(), Some(error), true),
        Ok(came),
    );
}

#[test]
fn leaves_an_error_of_the_client_unanswered(rt: HostRuntime) {
    let error = Error::new_down(ErrorType::ReadError);
    let came = Came {
        told: Told::Reported(true),
        is_told: true,
        code: 0,
        answered: false,
        hooks: HOOKS,
        keeps: false,
    };
    expect(
        &rt,
        closed(defaults(), rt.alloc(), Some(error), true),
        Ok(came),
    );
}

#[test]
fn hides_an_error(rt: HostRuntime) {
    let alloc = rt.alloc();
    let error = Error::new(ErrorType::HTTPStatus(403));
    let app = app_of(alloc, Hook::SuppressErrorLog, Action::Say(true));
    let came = Came {
        told: Told::Hidden,
        is_told: true,
        code: 403,
        answered: true,
        hooks: [
            Some(Hook::FailToProxy),
            Some(Hook::SuppressErrorLog),
            Some(Hook::Logging),
            None,
            None,
        ],
        keeps: false,
    };
    expect(&rt, closed(app, alloc, Some(error), false), Ok(came));
}

/// The value that is kept of a GET whose hook keeps 5.
fn kept_of(alloc: Global) -> Result<Option<u64>> {
    let app = app_of(alloc, Hook::PersistConnectionContext, Action::Keep(5))?;
    let mut session = unmade(alloc)?;
    let mut ctx = app.new_ctx();
    let place = run(&app, &mut session, &mut ctx, None, true);
    release(session);
    release(ctx);
    match place {
        Place::Ended(End::Kept(_, kept)) => Ok(kept),
        Place::At(_) | Place::Lost | Place::Ended(End::Gone(_)) => Err(Fail::OutOfMemory),
    }
}

#[test]
fn keeps_a_value(rt: HostRuntime) {
    let alloc = rt.alloc();
    let app = app_of(alloc, Hook::PersistConnectionContext, Action::Keep(5));
    let came = Came {
        told: Told::Finished,
        is_told: true,
        code: 0,
        answered: false,
        hooks: [
            Some(Hook::Logging),
            Some(Hook::PersistConnectionContext),
            None,
            None,
            None,
        ],
        keeps: true,
    };
    expect(&rt, closed(app, alloc, None, true), Ok(came));
    expect(&rt, kept_of(alloc), Ok(Some(5)));
}
