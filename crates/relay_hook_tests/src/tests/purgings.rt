//! The two turns of a purge, one behind the other: what the purger is asked, and what the client is
//! written.
ghost use Rattle.std.specs.Prelude.{IsSome};
ghost use Rattle.relay_session.specs.Reading.{head_of};

use crate::tests::scripted::{failing, setting};
use crate::tests::support::{defaults, expect, hook_at, is_written, release, unmade};
use relay_hooks::{ProxyHttp, Session};
use relay_links::MemoryPurger;
use relay_purging::{End, ask_action, purge};
use relay_tasks::{Fail, Fault, FaultKind, Hook, PurgeAction, Purged, Result, RetryType};
use std::alloc::Global;

/// What came of a purge: its end, whether the purger was asked once to delete `/a` at `h`, the
/// hooks that the log tells, and whether the client is written that text.
#[derive(Clone, Copy, Debug, PartialEq, Eq)]
struct Came {
    end: End,
    is_asked: bool,
    hooks: [Option<Hook>; 3],
    is_written: bool,
}

/// A purge of `/a` at `h`, of which the purger answers that; out of memory where that is out of
/// reach.
fn purged<A: ProxyHttp + Drop>(
    app: Result<A>,
    alloc: Global,
    answer: Purged,
    want: &'static [u8],
) -> Result<Came> {
    let app = app?;
    let mut session = unmade(alloc)?;
    let mut purger = MemoryPurger::new(alloc, answer);
    let mut ctx = app.new_ctx();
    let came = run(&app, &mut purger, &mut session, &mut ctx, want);
    release(session);
    release(purger);
    release(ctx);
    came
}

/// Takes both turns; out of memory where no second one may come.
fn run<A: ProxyHttp>(
    app: &A,
    purger: &mut MemoryPurger,
    session: &mut Session<A::Modules>,
    ctx: &mut A::CTX,
    want: &'static [u8],
) -> Result<Came>
    requires { IsSome (head_of session.old.seen.downstream.reading) }
{
    let action = ask_action(app, session, ctx)?;
    if !session.seen.downstream.has_head() || session.seen.downstream.response_written() {
        return Err(Fail::OutOfMemory);
    }
    let end = purge(app, purger, session, ctx, action);
    let log = session.phase_log();
    let hooks = [hook_at(log, 0), hook_at(log, 1), hook_at(log, 2)];
    Ok(Came {
        end,
        is_asked: is_asked(purger),
        hooks,
        is_written: is_written(session.seen.alloc, &mut session.seen.downstream, want),
    })
}

/// Whether it was asked once to delete `/a` at `h`.
fn is_asked(purger: &MemoryPurger) -> bool {
    match purger.calls() {
        [call] => {
            call.action == PurgeAction::Delete
                && call.host.as_slice() == b"h".as_slice()
                && call.target.as_slice() == b"/a".as_slice()
        }
        _ => false,
    }
}

/// A purge that was answered, and its client written what is wanted.
fn answered() -> Result<Came> {
    Ok(Came {
        end: End::Answered,
        is_asked: true,
        hooks: [
            Some(Hook::PurgeAction),
            Some(Hook::PurgeResponseFilter),
            None,
        ],
        is_written: true,
    })
}

const FOUND: &[u8] = b"HTTP/1.1 200 OK\r\nserver: Pingora\r\ncontent-length: 0\r\n\
    cache-control: private, no-store\r\n\r\n";

const VIA_RELAY: &[u8] = b"HTTP/1.1 200 OK\r\nserver: Pingora\r\ncontent-length: 0\r\n\
    cache-control: private, no-store\r\nvia: relay\r\n\r\n";

const NOT_FOUND: &[u8] = b"HTTP/1.1 404 Not Found\r\nserver: Pingora\r\ncontent-length: 0\r\n\
    cache-control: private, no-store\r\n\r\n";

const NO_CACHE: &[u8] = b"HTTP/1.1 405 Method Not Allowed\r\nserver: Pingora\r\n\
    content-length: 0\r\ncache-control: private, no-store\r\n\r\n";

const FAILED: &[u8] = b"HTTP/1.1 500 Internal Server Error\r\nserver: Pingora\r\n\
    content-length: 0\r\ncache-control: private, no-store\r\n\r\n";

#[test]
fn answers_by_what_the_purger_came_to(rt: HostRuntime) {
    let alloc = rt.alloc();
    let failed = Purged::Failed(Fault {
        kind: FaultKind::Connect,
        retry: RetryType::Decided(false),
    });
    expect(
        &rt,
        purged(defaults(), alloc, Purged::Found, FOUND),
        answered(),
    );
    expect(
        &rt,
        purged(defaults(), alloc, Purged::NotFound, NOT_FOUND),
        answered(),
    );
    expect(
        &rt,
        purged(defaults(), alloc, Purged::NoCache, NO_CACHE),
        answered(),
    );
    expect(&rt, purged(defaults(), alloc, failed, FAILED), answered());
}

#[test]
fn answers_as_the_filter_left_it(rt: HostRuntime) {
    let alloc = rt.alloc();
    let app = setting(alloc, Hook::PurgeResponseFilter);
    expect(
        &rt,
        purged(app, alloc, Purged::Found, VIA_RELAY),
        answered(),
    );
    let app = failing(alloc, Hook::PurgeResponseFilter);
    expect(&rt, purged(app, alloc, Purged::Found, FAILED), answered());
}

#[test]
fn asks_nothing_more_out_of_memory(rt: HostRuntime) {
    let came = Came {
        end: End::Lost,
        is_asked: false,
        hooks: [Some(Hook::PurgeAction), None, None],
        is_written: true,
    };
    expect(
        &rt,
        purged(defaults(), rt.alloc(), Purged::OutOfMemory, b""),
        Ok(came),
    );
}
