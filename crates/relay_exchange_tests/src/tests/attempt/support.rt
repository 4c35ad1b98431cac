//! A run of an exchange to its end, as a plain value.
use super::super::scripts::{Gives, has_taken, link};
use relay_attempt::{H1Exchange, Unbegun};
use relay_core::Step;
use relay_exchange::Turn;
use relay_h1::Connection;
use relay_links::{ListSchedule, ScriptLink};
use relay_session::HttpSession;
use relay_tasks::{ErrorSource, ErrorType, Fail, Pause, Result, Took};
use std::alloc::Global;

type Client = Connection<ScriptLink, ()>;

/// A peer's answer, and what the client is written of it.
pub(super) const ANSWER: &str = "HTTP/1.1 200 OK\r\nContent-Length: 2\r\n\r\nhi";

pub(super) const ANSWERED: &str = "HTTP/1.1 200 OK\r\ncontent-length: 2\r\n\r\nhi";

/// What came of an exchange.
#[derive(Clone, Copy, Drop, PartialEq)]
pub(super) enum Ending {
    /// It was relayed whole, and the peer's link may be kept.
    Relayed,
    /// Both links are silent.
    Silent,
    /// Its client closed the connection, and the peer's link may not be kept.
    Closed,
    /// Anything else, or other texts than were wanted.
    Other,
}

/// What the client and the peer give, and what they are to take.
#[derive(Clone, Copy, Drop)]
pub(super) struct Case<'a> {
    pub(super) from_client: &'a [Gives],
    pub(super) from_peer: &'a [Gives],
    pub(super) written: &'static str,
    pub(super) sent: &'static str,
}

/// Reads the head of the client's request.
fn read_head(alloc: Global, session: &mut HttpSession, client: &mut Client) {
    for _ in 0..1000 {
        match session.read_request(alloc, client) {
            Took::More | Took::Waited(Pause::NotReady) => {}
            Took::Item(()) | Took::Waited(Pause::Silent) | Took::End | Took::Failed(_) => return,
        }
    }
}

/// Reads the body of that session so many times.
fn read_body(alloc: Global, session: &mut HttpSession, client: &mut Client, reads: usize) {
    for _ in 0..reads {
        if session.has_head() {
            let _ = session.read_body_or_idle(alloc, client, false);
        }
    }
}

/// An exchange of that session at that peer; none where it does not begin.
fn begun(
    alloc: Global,
    session: HttpSession,
    peer: ScriptLink,
) -> Result<Option<H1Exchange<ScriptLink>>> {
    if !session.has_head() {
        return Ok(None);
    }
    let head = session.req_header().copy()?;
    match H1Exchange::begin(alloc, session, peer, head) {
        Ok(exchange) => Ok(Some(exchange)),
        Err(Unbegun { link: _, why: _ }) => Ok(None),
    }
}

/// Takes turns until it ends, both links are silent, or 2000 were taken. The last answer.
fn run(
    exchange: &mut H1Exchange<ScriptLink>,
    client: &mut Client,
    schedule: &mut ListSchedule,
) -> Step {
    for _ in 0..2000 {
        let Turn { step, branch: _ } = exchange.turn(client, schedule);
        match step {
            Step::Moved | Step::Waited(Pause::NotReady) => {}
            Step::Waited(Pause::Silent) | Step::Finished | Step::Failed(_) => return step,
        }
    }
    Step::Moved
}

/// What that is of an exchange which ended so.
fn ended(step: Step, keep: bool) -> Ending {
    match step {
        Step::Finished if keep => Ending::Relayed,
        Step::Waited(Pause::Silent) => Ending::Silent,
        Step::Failed(Fail::Error(error)) if !keep => {
            if error.etype() == ErrorType::ConnectionClosed
                && error.esource() == ErrorSource::Downstream
            {
                return Ending::Closed;
            }
            Ending::Other
        }
        Step::Finished | Step::Failed(_) | Step::Moved | Step::Waited(Pause::NotReady) => {
            Ending::Other
        }
    }
}

/// What comes of that case by that schedule, where the body was read so many times before it
/// begins.
pub(super) fn exchange_by(
    alloc: Global,
    case: Case<'_>,
    reads: usize,
    schedule: ListSchedule,
) -> Result<Ending> {
    let mut schedule = schedule;
    let mut client = Connection::new(alloc, link(alloc, case.from_client)?);
    let mut session = HttpSession::new_http1(alloc);
    read_head(alloc, &mut session, &mut client);
    read_body(alloc, &mut session, &mut client, reads);
    let Some(begun) = begun(alloc, session, link(alloc, case.from_peer)?)? else {
        return Ok(Ending::Other);
    };
    let mut exchange = begun;
    let step = run(&mut exchange, &mut client, &mut schedule);
    let keep = exchange.may_keep();
    let sent = has_taken(&exchange.into_link(), case.sent);
    if sent && has_taken(client.link(), case.written) {
        return Ok(ended(step, keep));
    }
    Ok(Ending::Other)
}

/// The same where no branch is named.
pub(super) fn exchange_behind(alloc: Global, case: Case<'_>, reads: usize) -> Ending {
    exchange_by(alloc, case, reads, ListSchedule::new(Vec::new(alloc))).unwrap_or(Ending::Other)
}

/// The same where nothing of the body was read.
pub(super) fn exchange(alloc: Global, case: Case<'_>) -> Ending {
    exchange_behind(alloc, case, 0)
}
