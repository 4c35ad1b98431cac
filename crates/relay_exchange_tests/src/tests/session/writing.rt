//! Responses that are queued without a session.
use super::super::scripts::{has_taken, link};
use bytes::Bytes;
use http::Version;
use http_header::{CONTENT_LENGTH, HeaderName, HeaderValue, TRANSFER_ENCODING};
use relay_h1::Connection;
use relay_links::{Put, ScriptLink};
use relay_session::{Asks, Request, Writing};
use relay_tasks::{HttpTask, ResponseHeader, Result, TaskList};
use std::alloc::Global;

/// The response to a request of that method and version.
fn response(alloc: Global, method: Asks, version: Version) -> Writing {
    let request = Request {
        method,
        version,
        asked: false,
        close: false,
    };
    Writing::new(alloc, request)
}

/// A final head with one field.
fn head(alloc: Global, name: HeaderName, value: HeaderValue) -> Result<ResponseHeader> {
    let mut head = ResponseHeader::build(alloc, 200)?;
    head.insert_header(name, value)?;
    Ok(head)
}

/// Whether a link that takes all takes just that of what waits.
fn writes(alloc: Global, writing: &mut Writing, want: &str) -> Result<bool> {
    let mut client: Connection<ScriptLink, u8> = Connection::new(alloc, link(alloc, &[])?);
    if !writing.has_pending() {
        return Ok(false);
    }
    let put = writing.write_pending(&mut client);
    Ok(put == Put::Took(want.len()) && !writing.has_pending() && has_taken(client.link(), want))
}

/// Adds a head with that status, of chunks where it is a final one.
fn push_head(alloc: Global, tasks: &mut TaskList, status: u16) -> Result<()> {
    let mut head = ResponseHeader::build(alloc, status)?;
    if status == 200 {
        head.insert_header(TRANSFER_ENCODING, HeaderValue::from_static("chunked"))?;
    }
    tasks.push(HttpTask::Header(head, false))
}

/// Adds a piece that ends nothing.
fn push_piece(tasks: &mut TaskList, bytes: &'static [u8]) -> Result<()> {
    tasks.push(HttpTask::Body(Some(Bytes::from_static(bytes)), false))
}

/// Adds what follows the piece of the response: it gives nothing but the end.
fn push_rest(alloc: Global, tasks: &mut TaskList) -> Result<()> {
    push_piece(tasks, b"")?;
    push_head(alloc, tasks, 500)?;
    tasks.push(HttpTask::UpgradedBody(None, false))?;
    tasks.push(HttpTask::Trailer(None))?;
    push_piece(tasks, b"late")?;
    tasks.push(HttpTask::Done)
}

/// The tasks of a response in chunks, behind an informational head, with what gives nothing.
fn chunked_tasks(alloc: Global) -> Result<TaskList> {
    let mut tasks = TaskList::new(alloc);
    push_head(alloc, &mut tasks, 103)?;
    push_head(alloc, &mut tasks, 200)?;
    push_piece(&mut tasks, b"hello")?;
    push_rest(alloc, &mut tasks)?;
    Ok(tasks)
}

/// Whether they are written so.
fn writes_chunks(alloc: Global) -> Result<bool> {
    let mut writing = response(alloc, Asks::Other, Version::HTTP_11);
    let ends = writing.response_duplex_vec(chunked_tasks(alloc)?)?;
    let want =
        "HTTP/1.1 103 Early Hints\r\n\r\nHTTP/1.1 200 OK\r\ntransfer-encoding: chunked\r\n\r\n\
        5\r\nhello\r\n0\r\n\r\n";
    Ok(ends && writing.body_bytes_sent() == 5 && writes(alloc, &mut writing, want)?)
}

#[test]
fn writes_a_response_in_chunks(rt: HostRuntime) {
    assert!(rt; writes_chunks(rt.alloc()) == Ok(true));
}

/// Queues a piece of the body; whether the response is done behind it.
fn ends_with(writing: &mut Writing, piece: &'static [u8], end: bool) -> Result<bool> {
    writing.write_response_body(Bytes::from_static(piece), end)?;
    Ok(writing.response_done())
}

/// Whether a response is queued call by call: a piece before its head gives nothing, and one longer
/// than what is left of the length is cut.
fn queues(alloc: Global, writing: &mut Writing) -> Result<bool> {
    let early = ends_with(writing, b"early", true)? || writing.response_written();
    let seven = HeaderValue::from_static("7");
    writing.write_response_header(head(alloc, CONTENT_LENGTH, seven)?)?;
    let is_open = writing.response_written() && !ends_with(writing, b"hello", false)?;
    let ends = ends_with(writing, b"world", false)?;
    writing.finish_body()?;
    Ok(!early && is_open && ends && writing.body_bytes_sent() == 7)
}

/// Whether it is written so.
fn writes_call_by_call(alloc: Global) -> Result<bool> {
    let mut writing = response(alloc, Asks::Other, Version::HTTP_11);
    let want = "HTTP/1.1 200 OK\r\ncontent-length: 7\r\n\r\nhellowo";
    Ok(queues(alloc, &mut writing)? && writes(alloc, &mut writing, want)?)
}

#[test]
fn writes_a_response_call_by_call(rt: HostRuntime) {
    assert!(rt; writes_call_by_call(rt.alloc()) == Ok(true));
}

/// Whether a response in chunks closes the connection of a client of that version.
fn closes(alloc: Global, version: Version) -> Result<bool> {
    let mut writing = response(alloc, Asks::Other, version);
    let chunked = HeaderValue::from_static("chunked");
    writing.write_response_header(head(alloc, TRANSFER_ENCODING, chunked)?)?;
    Ok(writing.response_closes())
}

#[test]
fn tells_which_responses_close_the_connection(rt: HostRuntime) {
    assert!(rt; closes(rt.alloc(), Version::HTTP_11) == Ok(false));
    assert!(rt; closes(rt.alloc(), Version::HTTP_10) == Ok(true));
}

/// Whether the first of two errors is answered.
fn answers_first(alloc: Global) -> Result<bool> {
    let mut writing = response(alloc, Asks::Other, Version::HTTP_11);
    writing.respond_error(502)?;
    writing.respond_error(500)?;
    let want = "HTTP/1.1 502 Bad Gateway\r\nserver: Pingora\r\ncontent-length: 0\r\n\
        cache-control: private, no-store\r\n\r\n";
    Ok(writing.response_done() && writes(alloc, &mut writing, want)?)
}

#[test]
fn answers_errors(rt: HostRuntime) {
    assert!(rt; answers_first(rt.alloc()) == Ok(true));
}

/// Whether an error with a body is answered so.
fn answers_with_body(alloc: Global, method: Asks, version: Version, want: &str) -> Result<bool> {
    let mut writing = response(alloc, method, version);
    writing.respond_error_with_body(404, Bytes::from_static(b"nothing here"))?;
    Ok(writing.response_done() && writes(alloc, &mut writing, want)?)
}

#[test]
fn answers_errors_with_a_body_but_to_head(rt: HostRuntime) {
    let bare = "HTTP/1.1 404 Not Found\r\nserver: Pingora\r\ncontent-length: 12\r\n\
        cache-control: private, no-store\r\n\r\n";
    assert!(rt; answers_with_body(rt.alloc(), Asks::Head, Version::HTTP_11, bare) == Ok(true));
    let whole = "HTTP/1.1 404 Not Found\r\nserver: Pingora\r\ncontent-length: 12\r\n\
        cache-control: private, no-store\r\n\r\nnothing here";
    assert!(rt; answers_with_body(rt.alloc(), Asks::Other, Version::HTTP_10, whole) == Ok(true));
}
