//! A client's side over a link in memory.
use super::super::scripts::{Gives, has_taken, link};
use bytes::Bytes;
use http_header::{CONTENT_LENGTH, HeaderValue};
use relay_core::{Down, Piece};
use relay_h1::Connection;
use relay_links::{Put, ScriptLink, UpKind};
use relay_session::HttpSession;
use relay_sides::ClientSide;
use relay_tasks::{Context, Fail, HttpTask, ResponseHeader, Result, TaskList, Took};
use std::alloc::Global;

type Client = Connection<ScriptLink, ()>;

/// A client that sends these texts, ends, and takes all.
fn client(alloc: Global, first: &'static str, second: &'static str) -> Result<Client> {
    let script = &[Gives::Text(first), Gives::Text(second), Gives::End];
    Ok(Connection::new(alloc, link(alloc, script)?))
}

/// The side of that client's request.
fn side_of(alloc: Global, client: &mut Client) -> ClientSide {
    let mut session = HttpSession::new_http1(alloc);
    let _ = session.read_request(alloc, client);
    ClientSide::new(alloc, session)
}

/// A piece in a word.
fn piece_word(piece: &Piece) -> &'static str {
    if !piece.client_end {
        "piece"
    } else if piece.is_empty() {
        "end"
    } else {
        "last"
    }
}

/// What a read gives, in a word.
fn word(took: &Took<Piece>) -> &'static str {
    match took {
        Took::Item(piece) => piece_word(piece),
        Took::More => "more",
        Took::Waited(_) => "waits",
        Took::End => "over",
        Took::Failed(Fail::OutOfMemory) => "memory",
        Took::Failed(Fail::Error(error)) => {
            if error.context == Context::ClientClosed {
                "closed"
            } else if error.context == Context::ClientSentMore {
                "sent more"
            } else {
                "failed"
            }
        }
    }
}

/// Whether a read gives that word, where the client may be read.
fn gives(side: &mut ClientSide, client: &mut Client, want: &str) -> bool {
    Down::<Client>::may_read(side) && word(&side.read_piece(client, false)) == want
}

/// Whether two reads of the request that these texts are give these words.
fn reads(alloc: Global, texts: [&'static str; 2], first: &str, second: &str) -> Result<bool> {
    let mut client = client(alloc, texts[0], texts[1])?;
    let mut side = side_of(alloc, &mut client);
    Ok(gives(&mut side, &mut client, first) && gives(&mut side, &mut client, second))
}

#[test]
fn reads_a_body_to_its_end(rt: HostRuntime) {
    let texts = [
        "PUT / HTTP/1.1\r\nHost: h\r\nContent-Length: 4\r\n\r\nab",
        "cd",
    ];
    assert!(rt; reads(rt.alloc(), texts, "piece", "last") == Ok(true));
    let texts = [
        "PUT / HTTP/1.1\r\nHost: h\r\nTransfer-Encoding: chunked\r\n\r\n2\r\nab\r\n",
        "0\r\n\r\n",
    ];
    assert!(rt; reads(rt.alloc(), texts, "piece", "end") == Ok(true));
}

#[test]
fn tells_a_client_that_sends_less_or_more(rt: HostRuntime) {
    let texts = [
        "PUT / HTTP/1.1\r\nHost: h\r\nContent-Length: 4\r\n\r\n",
        "ab",
    ];
    assert!(rt; reads(rt.alloc(), texts, "piece", "closed") == Ok(true));
    let texts = [
        "PUT / HTTP/1.1\r\nHost: h\r\nContent-Length: 2\r\n\r\nab",
        "cd",
    ];
    assert!(rt; reads(rt.alloc(), texts, "last", "sent more") == Ok(true));
}

/// A response of five bytes whose body is one piece.
fn tasks(alloc: Global) -> Result<TaskList> {
    let mut head = ResponseHeader::build(alloc, 200)?;
    head.insert_header(CONTENT_LENGTH, HeaderValue::from_static("5"))?;
    let mut tasks = TaskList::new(alloc);
    tasks.push(HttpTask::Header(head, false))?;
    tasks.push(HttpTask::Body(Some(Bytes::from_static(b"hello")), false))?;
    Ok(tasks)
}

/// Whether all that waits is written, and then nothing waits.
fn writes(side: &mut ClientSide, client: &mut Client) -> bool {
    Down::<Client>::has_pending(side)
        && matches!(side.write_pending(client), Put::Took(_))
        && !Down::<Client>::has_pending(side)
}

/// Whether a batch is taken that ends the response.
fn takes(alloc: Global, side: &mut ClientSide) -> Result<bool> {
    Down::<Client>::take_batch(side, tasks(alloc)?, UpKind::H1)
}

/// Whether the response is finished, and nothing more waits.
fn finishes(side: &mut ClientSide) -> Result<bool> {
    Down::<Client>::finish(side)?;
    Ok(!Down::<Client>::has_pending(side) && Down::<Client>::told(side).errors == 0)
}

/// Whether a batch is taken and written, and its response finished.
fn writes_batch(alloc: Global) -> Result<bool> {
    let mut client = client(alloc, "GET / HTTP/1.1\r\nHost: h\r\n\r\n", "")?;
    let mut side = side_of(alloc, &mut client);
    let want = "HTTP/1.1 200 OK\r\ncontent-length: 5\r\n\r\nhello";
    Ok(
        takes(alloc, &mut side)?
            && writes(&mut side, &mut client)
            && finishes(&mut side)?
            && has_taken(client.link(), want),
    )
}

#[test]
fn writes_a_batch(rt: HostRuntime) {
    assert!(rt; writes_batch(rt.alloc()) == Ok(true));
}

/// Whether these are the bytes that a session has kept of its body.
fn has_kept(alloc: Global, session: &HttpSession, want: &str) -> Result<bool> {
    match session.get_retry_buffer(alloc)? {
        Some(bytes) => Ok(bytes.as_slice() == want.as_bytes()),
        None => Ok(false),
    }
}

/// Whether a read over that session gives that word, and the session that it leaves, which has kept
/// these bytes.
fn read_on(
    alloc: Global,
    session: HttpSession,
    client: &mut Client,
    want: &str,
    kept: &str,
) -> Result<(bool, HttpSession)> {
    let mut side = ClientSide::new(alloc, session);
    let is_given = gives(&mut side, client, want);
    let session = side.into_session();
    let has_kept = has_kept(alloc, &session, kept)?;
    Ok((is_given && has_kept, session))
}

/// Whether two sides, one behind the other, read the two pieces of a body, and both are kept.
fn read_by_two_sides(alloc: Global) -> Result<bool> {
    let head = "PUT / HTTP/1.1\r\nHost: h\r\nContent-Length: 4\r\n\r\nab";
    let mut client = client(alloc, head, "cd")?;
    let session = side_of(alloc, &mut client).into_session();
    let (first, session) = read_on(alloc, session, &mut client, "piece", "ab")?;
    let (second, _session) = read_on(alloc, session, &mut client, "last", "abcd")?;
    Ok(first && second)
}

#[test]
fn goes_on_with_what_another_side_read(rt: HostRuntime) {
    assert!(rt; read_by_two_sides(rt.alloc()) == Ok(true));
}
