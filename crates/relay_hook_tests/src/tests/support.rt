//! What the tests share: how a row is asserted, the application that decides nothing, a session
//! before its modules, and what a client is written.
ghost use Rattle.std.specs.Prelude.{◌≡◌, false, IfOk, IsSome};
ghost use Rattle.relay_session.specs.Reading.{head_of};
ghost use Rattle.relay_hooks.specs.Session.{is_answered};

use bytes::Bytes;
use http::Method;
use http_header::{HOST, HeaderValue};
use relay_h1::{Connection, Framing};
use relay_hooks::{Defaults, HttpModule, Session};
use relay_links::{Put, ScriptLink};
use relay_session::HttpSession;
use relay_tasks::{Hook, Peer, PhaseLog, RequestHeader, Result};
use std::alloc::Global;
use std::fmt::Debug;
use std::process::Abort;

/// Asserts what came of a row. A test calls this in place of an assertion of its own, each of which
/// is dear to prove.
pub(crate) fn expect<T: PartialEq + Debug + Drop>(
    rt: &impl Abort,
    came: Result<T>,
    want: Result<T>,
) {
    assert_eq!(rt; came, want);
}

/// Lets go of a value. To drop a session is dear to prove, so no other place does.
pub(crate) fn release<T: Drop>(_value: T) {}

pub(crate) fn peer() -> Peer {
    Peer {
        address: Bytes::from_static(b"h"),
        tls: true,
        allows_h1: true,
    }
}

/// The application that decides nothing.
pub(crate) fn defaults() -> Result<Defaults> {
    Ok(Defaults::new(peer()))
}

/// The session of a GET for `/a` at `h`, of which no modules were made.
pub(crate) fn unmade<M: HttpModule>(alloc: Global) -> Result<Session<M>>
    ensures read { IfOk result (λ session. IsSome (head_of session.seen.downstream.reading)) }
    ensures open_to { IfOk result (λ session. is_answered session.seen ≡ false) }
{
    let mut head = RequestHeader::build(alloc, &Method::GET, b"/a")?;
    head.insert_header(HOST, HeaderValue::from_static("h"))?;
    let client = HttpSession::begun_http1(alloc, head, Framing::Empty);
    Ok(Session::new_h1_unmade(alloc, client))
}

/// The hook that the log tells at that place.
pub(crate) fn hook_at(log: &PhaseLog, at: usize) -> Option<Hook> {
    match log.lines().get(at) {
        Some(line) => Some(line.hook),
        None => None,
    }
}

/// Whether a client that takes all is written that text.
pub(crate) fn is_written(alloc: Global, session: &mut HttpSession, want: &[u8]) -> bool {
    if !session.has_pending() {
        return want.is_empty();
    }
    let link = ScriptLink::new(alloc, Vec::new(alloc), Vec::new(alloc));
    let mut client: Connection<ScriptLink, u8> = Connection::new(alloc, link);
    let put = session.write_pending(&mut client);
    put == Put::Took(want.len()) && client.link().taken() == want
}
