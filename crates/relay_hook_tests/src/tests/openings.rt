//! The hooks before the attempts, called one a turn up to their end.
ghost use Rattle.std.specs.Prelude.{◌≡◌, false, IsSome};
ghost use Rattle.relay_session.specs.Reading.{head_of};
ghost use Rattle.relay_hooks.specs.Session.{is_answered};

use crate::tests::scripted::app_of;
use crate::tests::support::{defaults, expect, release, unmade};
use relay_hooks::{HttpModule, ProxyHttp, Session};
use relay_opening::{End, Place, begin_opening, take_turn};
use relay_script::Action;
use relay_tasks::{Fail, Hook, Result};
use std::alloc::Global;

/// How the hooks ended, how many calls the log tells, and whether a final head was queued.
#[derive(Clone, Copy, Debug, PartialEq, Eq)]
struct Came {
    end: End,
    calls: usize,
    answered: bool,
}

/// The hooks of a GET for `/a`, called up to their end; out of memory where that is out of reach.
fn opened<A: ProxyHttp + Drop>(app: Result<A>, alloc: Global, makes_modules: bool) -> Result<Came> {
    let app = app?;
    let mut session = unmade(alloc)?;
    let came = run(&app, &mut session, makes_modules);
    release(session);
    came
}

/// Begins, and takes seven turns, of which at least the last calls nothing.
fn run<A: ProxyHttp>(
    app: &A,
    session: &mut Session<A::Modules>,
    makes_modules: bool,
) -> Result<Came>
    requires read { IsSome (head_of session.old.seen.downstream.reading) }
    requires open_to { is_answered session.old.seen ≡ false }
{
    let (mut ctx, place) = begin_opening(app, session, None)?;
    let place = take_turn(app, session, &mut ctx, place, makes_modules);
    let place = take_turn(app, session, &mut ctx, place, makes_modules);
    let place = take_turn(app, session, &mut ctx, place, makes_modules);
    let place = take_turn(app, session, &mut ctx, place, makes_modules);
    let place = take_turn(app, session, &mut ctx, place, makes_modules);
    let place = take_turn(app, session, &mut ctx, place, makes_modules);
    let place = take_turn(app, session, &mut ctx, place, makes_modules);
    release(ctx);
    came_of(session, place)
}

/// What came of the turns.
fn came_of<M: HttpModule, K: Drop>(session: &Session<M>, place: Place<K>) -> Result<Came> {
    match place {
        Place::Behind(_) => Err(Fail::OutOfMemory),
        Place::Lost => Err(Fail::OutOfMemory),
        Place::Ended(end) => Ok(Came {
            end,
            calls: session.phase_log().len(),
            answered: session.as_downstream().response_written(),
        }),
    }
}

/// An end behind so many calls.
fn ends_as(end: End, calls: usize, answered: bool) -> Result<Came> {
    Ok(Came {
        end,
        calls,
        answered,
    })
}

#[test]
fn lets_a_request_go_to_its_upstream(rt: HostRuntime) {
    let went = opened(defaults(), rt.alloc(), false);
    expect(&rt, went, ends_as(End::Attempts, 6, false));
}

#[test]
fn calls_the_modules_where_they_are_made(rt: HostRuntime) {
    let alloc = rt.alloc();
    let app = app_of(alloc, Hook::IsPurge, Action::Say(true));
    expect(&rt, opened(app, alloc, true), ends_as(End::Purge, 6, false));
}

#[test]
fn ends_with_an_answer(rt: HostRuntime) {
    let alloc = rt.alloc();
    let refuses = Action::Answer {
        code: 403,
        say: true,
    };
    let app = app_of(alloc, Hook::RequestFilter, refuses);
    expect(
        &rt,
        opened(app, alloc, false),
        ends_as(End::Answered, 4, true),
    );
    let app = app_of(alloc, Hook::ProxyUpstreamFilter, Action::Say(false));
    expect(
        &rt,
        opened(app, alloc, false),
        ends_as(End::Declined, 6, true),
    );
}
