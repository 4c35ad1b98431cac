//! A body that is kept, and one that is kept no longer: what the session says of it, and what the
//! application that decides nothing makes of the error of an attempt.
ghost use Rattle.std.specs.Prelude.{IfOk, IsSome, OnOk};
ghost use Rattle.relay_session.specs.Reading.{head_of};

use crate::tests::support::{defaults, expect, peer, release};
use bytes::Bytes;
use http::Method;
use relay_h1::{Connection, Framing};
use relay_hooks::{ProxyHttp, Session};
use relay_links::{ReadItem, ScriptLink};
use relay_session::HttpSession;
use relay_tasks::{Error, ErrorType, Fail, RequestHeader, Result, Took};
use relay_trying::treat_failure;
use std::alloc::{AllocError, Global};

type Client = Connection<ScriptLink, ()>;

/// One byte more than is kept of a body.
const LONG: usize = 65_537;

/// A client that sends so many bytes.
fn client(alloc: Global) -> std::result::Result<Client, AllocError> {
    let bytes = vec![in alloc; 0u8; LONG]?;
    let items = vec![in alloc; ReadItem::Bytes(Bytes::copy_from_slice(alloc, &bytes)?)]?;
    Ok(Connection::new(alloc, ScriptLink::new(alloc, items, Vec::new(alloc))))
}

/// The session of a PUT of so many bytes, once so many pieces of 16,384 came; the last piece may
/// be shorter.
fn put_behind(alloc: Global, pieces: usize) -> Result<HttpSession>
    ensures { IfOk result (λ session. IsSome (head_of session.reading)) }
{
    let head = RequestHeader::build(alloc, &Method::PUT, b"/a")?;
    let mut client = client(alloc)?;
    let mut session = HttpSession::begun_http1(alloc, head, Framing::Length(LONG as u64));
    read(alloc, &mut session, &mut client, pieces)?;
    Ok(session)
}

/// Reads so many pieces; out of memory where they do not come.
fn read(alloc: Global, session: &mut HttpSession, client: &mut Client, pieces: usize) -> Result<()>
    requires { IsSome (head_of session.old.reading) }
    ensures { OnOk result (IsSome (head_of session.new.reading)) }
{
    for _ in 0..pieces {
        if !session.has_head() {
            return Err(Fail::OutOfMemory);
        }
        let took = session.read_body_or_idle(alloc, client, false);
        if !matches!(took, Took::Item(_)) {
            return Err(Fail::OutOfMemory);
        }
    }
    if !session.has_head() {
        return Err(Fail::OutOfMemory);
    }
    Ok(())
}

/// Whether another attempt may follow the error of an attempt behind the hook, and whether the
/// body is kept no longer.
fn treated<A: ProxyHttp + Drop>(
    app: Result<A>,
    alloc: Global,
    pieces: usize,
) -> Result<(bool, bool)> {
    let app = app?;
    let client = put_behind(alloc, pieces)?;
    let mut session = Session::new_h1_unmade(alloc, client);
    let mut ctx = app.new_ctx();
    let mut error = Error::new_up(ErrorType::ReadError);
    error.set_retry(true);
    let treated = treat_failure(&app, &mut session, &mut ctx, &peer(), error, false);
    let truncated = session.as_downstream().retry_buffer_truncated();
    release(session);
    release(ctx);
    Ok((treated?.retry(), truncated))
}

#[test]
fn tries_again_while_the_body_is_kept(rt: HostRuntime) {
    let alloc = rt.alloc();
    expect(&rt, treated(defaults(), alloc, 0), Ok((true, false)));
    expect(&rt, treated(defaults(), alloc, 4), Ok((true, false)));
    expect(&rt, treated(defaults(), alloc, 5), Ok((false, true)));
}
