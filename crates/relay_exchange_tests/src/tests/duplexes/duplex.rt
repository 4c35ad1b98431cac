//! Exchanges under a schedule, with ample memory.
use super::client::{Client, sending};
use super::upstream::{Upstream, serving};
use relay_core::*;
use relay_links::{RoundRobin, Schedule, UpKind};
use relay_tasks::{Error, ErrorType, Fail};
use std::alloc::{AllocError, Global};

/// Takes as many steps by that schedule, and answers as the last.
fn run<C, D: Down<C>, U: Up, H: Schedule>(
    duplex: &mut Duplex,
    client: &mut C,
    down: &mut D,
    up: &mut U,
    schedule: &mut H,
    turns: usize,
) -> Step {
    let mut last = Step::Moved;
    for _ in 0..turns {
        match duplex.choose(down, up, schedule) {
            Some(branch) => last = duplex.step(client, down, up, branch),
            None => return last,
        }
    }
    last
}

/// A duplex whose client has more to send.
fn begun(alloc: Global) -> Duplex {
    Duplex::new(alloc, UpKind::H1, false)
}

/// How an exchange ends: the last answer, whether both halves have finished, whether one failed,
/// and whether the upstream's link may be kept.
type Ends = (Step, bool, bool, bool);

/// How the exchange of these sides ends.
fn ends(alloc: Global, down: &mut Client, up: &mut Upstream) -> Ends {
    let mut duplex = begun(alloc);
    let mut schedule = RoundRobin::new();
    let last = run(&mut duplex, &mut (), down, up, &mut schedule, 100);
    let failed = duplex.state() == PipeState::Failed;
    (
        last,
        duplex.is_finished(),
        failed,
        duplex.upstream_may_keep(),
    )
}

/// How an upload beside a download ends, and how many tasks the upstream got.
fn ends_of_both(alloc: Global) -> std::result::Result<(Ends, usize), AllocError> {
    let sent = vec![in alloc; "c", "b", "a"]?;
    let served = vec![in alloc; "y", "x"]?;
    let mut down = sending(alloc, sent, None);
    let mut up = serving(alloc, served, None);
    let ends = ends(alloc, &mut down, &mut up);
    Ok((ends, up.got.len()))
}

#[test]
fn an_upload_and_a_download_run_to_their_end(rt: HostRuntime) {
    // three pieces and the end
    let wanted = Ok(((Step::Finished, true, false, true), 4));
    assert!(rt; ends_of_both(rt.alloc()) == wanted);
}

/// How an upload ends whose client breaks off with that error, and how many tasks it put.
fn ends_with(alloc: Global, closed: Error) -> std::result::Result<(Ends, usize), AllocError> {
    let sent = vec![in alloc; "a"]?;
    let mut down = sending(alloc, sent, Some(closed));
    let mut up = serving(alloc, Vec::new(alloc), None);
    let ends = ends(alloc, &mut down, &mut up);
    Ok((ends, down.put.len()))
}

#[test]
fn a_client_that_breaks_off_fails_the_step(rt: HostRuntime) {
    let closed = Error::new_down(ErrorType::ConnectionClosed);
    // no end is put
    let wanted = Ok(((Step::Failed(Fail::Error(closed)), false, true, false), 1));
    assert!(rt; ends_with(rt.alloc(), closed) == wanted);
}
