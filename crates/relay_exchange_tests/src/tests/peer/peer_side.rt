//! The side of a peer in an exchange.
use super::super::scripts::{Gives, has_taken, link};
use super::super::words::tells;
use bytes::Bytes;
use http::Method;
use http_header::{CONTENT_LENGTH, HeaderValue};
use relay_core::Up;
use relay_links::ScriptLink;
use relay_peer::PeerSide;
use relay_tasks::{HttpTask, RequestHeader, Result};
use std::alloc::Global;

type Side = PeerSide<ScriptLink>;

/// A side whose link gives that text and then ends, and takes all.
fn side(alloc: Global, text: &'static str) -> Result<Side> {
    Ok(PeerSide::new(alloc, link(alloc, &[Gives::Text(text), Gives::End])?))
}

/// The head of a POST of three bytes to `/`.
fn post(alloc: Global) -> Result<RequestHeader> {
    let mut head = RequestHeader::build(alloc, &Method::POST, b"/")?;
    head.insert_header(CONTENT_LENGTH, HeaderValue::from_static("3"))?;
    Ok(head)
}

/// Writes what waits, if anything does.
fn write(side: &mut Side) {
    if side.has_pending() {
        side.write_pending();
    }
}

/// Writes a POST whose body comes in two pieces, the second of which ends it.
fn write_post(alloc: Global, side: &mut Side) -> Result<()> {
    side.write_request_header(post(alloc)?)?;
    side.take_piece(HttpTask::Body(Some(Bytes::from_static(b"ab")), false))?;
    side.take_piece(HttpTask::Body(Some(Bytes::from_static(b"c")), true))?;
    write(side);
    Ok(())
}

/// Whether it is written so.
fn writes_post(alloc: Global) -> Result<bool> {
    let mut side = side(alloc, "")?;
    write_post(alloc, &mut side)?;
    let want = "POST / HTTP/1.1\r\ncontent-length: 3\r\n\r\nabc";
    Ok(!side.has_pending() && has_taken(&side.into_link(), want))
}

#[test]
fn writes_a_request_by_its_length(rt: HostRuntime) {
    assert!(rt; writes_post(rt.alloc()) == Ok(true));
}

/// Queues a GET.
fn ask(alloc: Global, side: &mut Side) -> Result<()> {
    side.write_request_header(RequestHeader::build(alloc, &Method::GET, b"/")?)?;
    side.take_piece(HttpTask::Done)
}

/// Whether the link may be kept only once what waits was written.
fn keeps_once_written(side: &mut Side) -> bool {
    let is_early = side.may_keep();
    write(side);
    !is_early && side.may_keep()
}

/// Whether a response is read, and the link may be kept once the request was written.
fn reads_response(alloc: Global) -> Result<bool> {
    let text = "HTTP/1.1 100 Continue\r\n\r\nHTTP/1.1 200 OK\r\ncontent-length: 2\r\n\r\nab";
    let mut side = side(alloc, text)?;
    ask(alloc, &mut side)?;
    let told = tells(alloc, &mut side, 4, " informs head piece and end")?;
    Ok(told && side.told().errors == 0 && keeps_once_written(&mut side))
}

#[test]
fn reads_a_response_by_its_length(rt: HostRuntime) {
    assert!(rt; reads_response(rt.alloc()) == Ok(true));
}
