//! What a session keeps of a body, to be sent again: all bytes that came, where they are at most
//! 65,536, and none where they are more.
use bytes::Bytes;
use relay_h1::Connection;
use relay_links::{ReadItem, ScriptLink};
use relay_session::HttpSession;
use relay_tasks::{Result, Took};
use std::alloc::{AllocError, Global};

type Client = Connection<ScriptLink, ()>;

/// The bytes of a body from that place on, so many. Each tells its place.
fn part(alloc: Global, from: usize, len: usize) -> Result<Bytes> {
    let mut bytes = Vec::new(alloc);
    for place in from..from.saturating_add(len) {
        bytes.push((place % 251) as u8).map_err(AllocError::from)?;
    }
    Ok(Bytes::from_vec(bytes).map_err(AllocError::from)?)
}

/// The head of a request whose body has that length.
fn head(alloc: Global, len: usize) -> Result<Bytes> {
    let head = format!(in alloc; "PUT / HTTP/1.1\r\nHost: h\r\nContent-Length: {len}\r\n\r\n")?;
    Ok(Bytes::copy_from_slice(alloc, head.as_bytes())?)
}

/// A client that puts a body, and sends it in two parts of these lengths behind its head. One read
/// gives bytes of one part, 16,384 at most.
fn client(alloc: Global, first: usize, second: usize) -> Result<Client> {
    let mut items = Vec::new(alloc);
    items
        .push(ReadItem::Bytes(head(alloc, first.saturating_add(second))?))
        .map_err(AllocError::from)?;
    items
        .push(ReadItem::Bytes(part(alloc, 0, first)?))
        .map_err(AllocError::from)?;
    items
        .push(ReadItem::Bytes(part(alloc, first, second)?))
        .map_err(AllocError::from)?;
    Ok(Connection::new(alloc, ScriptLink::new(alloc, items, Vec::new(alloc))))
}

/// Whether the head and so many pieces of the body come.
fn reads(alloc: Global, session: &mut HttpSession, client: &mut Client, pieces: usize) -> bool {
    if !matches!(session.read_request(alloc, client), Took::Item(())) {
        return false;
    }
    for _ in 0..pieces {
        if !session.has_head()
            || !matches!(
                session.read_body_or_idle(alloc, client, false),
                Took::Item(_)
            )
        {
            return false;
        }
    }
    true
}

/// How many bytes these are, where they are the first of the body; none where they are others.
fn first_bytes(alloc: Global, bytes: &Bytes) -> Result<Option<usize>> {
    let len = bytes.len();
    if len > 0 && part(alloc, 0, len)?.as_slice() == bytes.as_slice() {
        return Ok(Some(len));
    }
    Ok(None)
}

/// How many bytes are kept, which are the first of the body; none where they are others.
fn kept(alloc: Global, session: &HttpSession) -> Result<Option<usize>> {
    match session.get_retry_buffer(alloc)? {
        Some(bytes) => first_bytes(alloc, &bytes),
        None => Ok(Some(0)),
    }
}

/// Whether the session has kept so many bytes, and another attempt may begin with it.
fn holds(alloc: Global, session: &HttpSession, len: usize) -> bool {
    kept(alloc, session) == Ok(Some(len))
        && !session.retry_buffer_truncated()
        && session.may_begin_again()
}

/// Whether the session has kept nothing of more bytes than are kept.
fn is_truncated(alloc: Global, session: &HttpSession) -> bool {
    kept(alloc, session) == Ok(Some(0))
        && session.retry_buffer_truncated()
        && !session.may_begin_again()
}

/// A body in two parts, of which so many pieces are read, and how many bytes of it are kept; none
/// where it is truncated.
#[derive(Clone, Copy, Drop)]
struct Upload {
    first: usize,
    second: usize,
    pieces: usize,
    kept: Option<usize>,
}

/// Whether that is kept.
fn keeps(alloc: Global, upload: Upload) -> Result<bool> {
    let mut client = client(alloc, upload.first, upload.second)?;
    let mut session = HttpSession::new_http1(alloc);
    if !reads(alloc, &mut session, &mut client, upload.pieces) {
        return Ok(false);
    }
    match upload.kept {
        Some(len) => Ok(holds(alloc, &session, len)),
        None => Ok(is_truncated(alloc, &session)),
    }
}

/// Whether so many bytes are kept of a body in two such parts, behind so many pieces.
fn are_kept(alloc: Global, first: usize, second: usize, pieces: usize, len: usize) -> bool {
    let kept = Some(len);
    keeps(
        alloc,
        Upload {
            first,
            second,
            pieces,
            kept,
        },
    ) == Ok(true)
}

/// Whether none are kept of it, as they are too many.
fn are_too_many(alloc: Global, first: usize, second: usize, pieces: usize) -> bool {
    let kept = None;
    keeps(
        alloc,
        Upload {
            first,
            second,
            pieces,
            kept,
        },
    ) == Ok(true)
}

#[test]
fn keeps_each_piece_that_came(rt: HostRuntime) {
    assert!(rt; are_kept(rt.alloc(), 2, 3, 0, 0));
    assert!(rt; are_kept(rt.alloc(), 2, 3, 1, 2));
    assert!(rt; are_kept(rt.alloc(), 2, 3, 2, 5));
}

#[test]
fn keeps_65536_bytes(rt: HostRuntime) {
    // pieces of 16,384, the last of which completes as many
    assert!(rt; are_kept(rt.alloc(), 65_535, 1, 4, 65_535));
    assert!(rt; are_kept(rt.alloc(), 65_535, 1, 5, 65_536));
    assert!(rt; are_kept(rt.alloc(), 100, 65_436, 5, 65_536));
}

#[test]
fn keeps_nothing_of_65537_bytes(rt: HostRuntime) {
    // they are kept until the piece that passes the limit, whatever its length
    assert!(rt; are_kept(rt.alloc(), 65_536, 1, 4, 65_536));
    assert!(rt; are_too_many(rt.alloc(), 65_536, 1, 5));
    assert!(rt; are_too_many(rt.alloc(), 100, 65_437, 5));
    // and what comes behind it is not kept either
    assert!(rt; are_too_many(rt.alloc(), 65_537, 1, 6));
}
