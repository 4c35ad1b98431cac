//! Requests that are read and answered by a session.
use super::super::scripts::{Gives, has_taken, link};
use bytes::Bytes;
use http_header::{CONTENT_LENGTH, HeaderValue};
use relay_h1::{Connection, Framing, Output};
use relay_links::{Put, ScriptLink};
use relay_session::{Front, HttpSession};
use relay_tasks::{HttpTask, RequestHeader, ResponseHeader, Result, TaskList, Took};
use std::alloc::{AllocError, Global};

type Client = Connection<ScriptLink, u8>;

/// A client that sends that text, and ends.
fn client(alloc: Global, text: &'static str) -> Result<Client> {
    let link = link(alloc, &[Gives::Text(text), Gives::End])?;
    Ok(Connection::new(alloc, link))
}

/// A session that has read the head of that client's request, where it is one.
fn session_of(alloc: Global, client: &mut Client) -> HttpSession {
    let mut session = HttpSession::new_http1(alloc);
    let _ = session.read_request(alloc, client);
    session
}

/// Whether that is what the client has taken once all that waits was written.
fn writes(session: &mut HttpSession, client: &mut Client, want: &str) -> bool {
    if session.has_pending() && !matches!(session.write_pending(client), Put::Took(_)) {
        return false;
    }
    !session.has_pending() && has_taken(client.link(), want)
}

/// Whether one read gives all of a body of three bytes, behind a head that was read.
fn reads_body(alloc: Global, session: &mut HttpSession, client: &mut Client) -> bool {
    session.has_head()
        && !session.is_body_empty()
        && !session.is_body_done()
        && matches!(
            session.read_body_or_idle(alloc, client, false),
            Took::Item(_)
        )
        && session.is_body_done()
        && session.body_bytes_received() == 3
}

/// Whether the head of a request is read, and then its body.
fn reads_request(alloc: Global, session: &mut HttpSession, client: &mut Client) -> bool {
    !session.has_head()
        && matches!(session.read_request(alloc, client), Took::Item(()))
        && reads_body(alloc, session, client)
}

/// Queues the head of a response of five bytes.
fn queue_head(alloc: Global, session: &mut HttpSession) -> Result<()> {
    let mut head = ResponseHeader::build(alloc, 200)?;
    head.insert_header(CONTENT_LENGTH, HeaderValue::from_static("5"))?;
    session.write_response_header(head)
}

/// Queues two bytes in a batch, which do not end the response by themselves.
fn queue_batch(alloc: Global, session: &mut HttpSession) -> Result<bool> {
    let mut tasks = TaskList::new(alloc);
    tasks.push(HttpTask::Body(Some(Bytes::from_static(b"lo")), false))?;
    session.response_duplex_vec(tasks)
}

/// Whether a response is queued, by each call that queues a part of one.
fn queues_response(alloc: Global, session: &mut HttpSession) -> Result<bool> {
    queue_head(alloc, session)?;
    let is_open = session.response_written() && !session.response_done();
    session.write_response_body(Bytes::from_static(b"hel"), false)?;
    let ends = queue_batch(alloc, session)?;
    session.finish_body()?;
    Ok(is_open && ends && session.body_bytes_sent() == 5)
}

/// Whether a request is read whole, and its response is written whole.
fn serves(alloc: Global) -> Result<bool> {
    let text = "PUT / HTTP/1.1\r\nHost: h\r\nContent-Length: 3\r\n\r\nabc";
    let mut client = client(alloc, text)?;
    let mut session = HttpSession::new_http1(alloc);
    let want = "HTTP/1.1 200 OK\r\ncontent-length: 5\r\n\r\nhello";
    Ok(
        reads_request(alloc, &mut session, &mut client)
            && queues_response(alloc, &mut session)?
            && writes(&mut session, &mut client, want),
    )
}

#[test]
fn reads_a_request_and_writes_its_response(rt: HostRuntime) {
    assert!(rt; serves(rt.alloc()) == Ok(true));
}

/// Whether the body is read behind a head that its caller read.
fn goes_on(alloc: Global, head: RequestHeader, client: &mut Client) -> bool {
    let mut session = HttpSession::begun_http1(alloc, head, Framing::Length(3));
    reads_body(alloc, &mut session, client)
}

/// Whether a body is read behind a head that its caller read.
fn goes_on_behind_a_head(alloc: Global) -> Result<bool> {
    let text = "PUT / HTTP/1.1\r\nHost: h\r\nContent-Length: 3\r\n\r\nabc";
    let mut client = client(alloc, text)?;
    match client.read_head(alloc) {
        Took::Item((head, _ends)) => Ok(goes_on(alloc, head, &mut client)),
        Took::More | Took::Waited(_) | Took::End | Took::Failed(_) => Ok(false),
    }
}

#[test]
fn goes_on_behind_a_head_that_its_caller_read(rt: HostRuntime) {
    assert!(rt; goes_on_behind_a_head(rt.alloc()) == Ok(true));
}

/// Whether a GET is answered with an error and its body.
fn answers_get(alloc: Global) -> Result<bool> {
    let mut client = client(alloc, "GET / HTTP/1.1\r\nHost: h\r\n\r\n")?;
    let mut session = session_of(alloc, &mut client);
    session.respond_error_with_body(404, Bytes::from_static(b"gone"))?;
    let want = "HTTP/1.1 404 Not Found\r\nserver: Pingora\r\ncontent-length: 4\r\n\
        cache-control: private, no-store\r\n\r\ngone";
    Ok(writes(&mut session, &mut client, want))
}

#[test]
fn answers_get_with_its_body(rt: HostRuntime) {
    assert!(rt; answers_get(rt.alloc()) == Ok(true));
}

/// Whether the head of a request is summed up, also without the fields of its body.
fn sums_up(alloc: Global, session: &mut HttpSession) -> Result<bool> {
    if !session.has_head() {
        return Ok(false);
    }
    session.clear_request_body_headers();
    let is_cleared = !session
        .req_header()
        .headers()
        .contains_key("content-length");
    session.req_header_mut().set_send_end_stream(false);
    let summary = session.request_summary(alloc)?;
    Ok(is_cleared && summary.as_slice() == b"PUT /a, Host: h".as_slice())
}

/// The same of an upload.
fn sums_an_upload_up(alloc: Global) -> Result<bool> {
    let text = "PUT /a HTTP/1.1\r\nHost: h\r\nContent-Length: 3\r\n\r\nabc";
    let mut client = client(alloc, text)?;
    let mut session = session_of(alloc, &mut client);
    sums_up(alloc, &mut session)
}

#[test]
fn sums_a_request_up(rt: HostRuntime) {
    assert!(rt; sums_an_upload_up(rt.alloc()) == Ok(true));
}

/// Whether a head is refused, and answered so.
fn refuses(alloc: Global) -> Result<bool> {
    let mut client = client(alloc, "GET\r\n\r\n")?;
    let mut session = HttpSession::new_http1(alloc);
    let is_refused = matches!(session.read_request(alloc, &mut client), Took::Failed(_));
    session.respond_error(400)?;
    let want = "HTTP/1.1 400 Bad Request\r\nserver: Pingora\r\ncontent-length: 0\r\n\
        cache-control: private, no-store\r\n\r\n";
    Ok(
        is_refused
            && !session.has_head()
            && session.response_done()
            && writes(&mut session, &mut client, want),
    )
}

#[test]
fn refuses_a_head_that_never_stood(rt: HostRuntime) {
    assert!(rt; refuses(rt.alloc()) == Ok(true));
}

/// Whether the client of that request may ask again.
fn lets_ask_again(alloc: Global, text: &'static str) -> Result<bool> {
    let mut client = client(alloc, text)?;
    Ok(session_of(alloc, &mut client).lets_ask_again())
}

#[test]
fn lets_its_client_ask_again(rt: HostRuntime) {
    let text = "GET / HTTP/1.1\r\nHost: h\r\n\r\n";
    assert!(rt; lets_ask_again(rt.alloc(), text) == Ok(true));
    let text = "GET / HTTP/1.1\r\nHost: h\r\nConnection: te, Close\r\n\r\n";
    assert!(rt; lets_ask_again(rt.alloc(), text) == Ok(false));
}

/// Whether ten bytes are written to a client, by one use of its link.
fn writes_out(alloc: Global) -> Result<bool> {
    let mut client = client(alloc, "")?;
    let bytes = Vec::from_slice(alloc, b"0123456789").map_err(AllocError::from)?;
    let mut output = Output::new(bytes);
    Ok(
        !output.is_empty()
            && Front::write_out(&mut client, &mut output) == Put::Took(10)
            && output.is_empty()
            && client.is_clear()
            && client.used() == 1
            && client.faults() == 0,
    )
}

#[test]
fn writes_to_a_client(rt: HostRuntime) {
    assert!(rt; writes_out(rt.alloc()) == Ok(true));
}
