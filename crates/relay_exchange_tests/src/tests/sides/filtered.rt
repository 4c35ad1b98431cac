//! The side of a peer behind what a response is framed and refused by.
use super::super::scripts::{Gives, link};
use super::super::words::tells;
use http::Method;
use relay_core::Up;
use relay_links::ScriptLink;
use relay_peer::PeerSide;
use relay_sides::{Filtered, is_head_request};
use relay_tasks::{RequestHeader, Result};
use std::alloc::Global;

type Side = Filtered<PeerSide<ScriptLink>>;

/// A side over a link that gives that text and then ends, whose request is a GET that was queued.
fn filtered(alloc: Global, text: &'static str) -> Result<Side> {
    let mut side = PeerSide::new(alloc, link(alloc, &[Gives::Text(text), Gives::End])?);
    side.write_request_header(RequestHeader::build(alloc, &Method::GET, b"/")?)?;
    Ok(Filtered::new(side, false))
}

/// Whether a request of that method is a HEAD.
fn is_head(alloc: Global, method: &Method) -> Result<bool> {
    Ok(is_head_request(&RequestHeader::build(alloc, method, b"/")?))
}

#[test]
fn tells_a_head_request_by_its_method(rt: HostRuntime) {
    assert!(rt; is_head(rt.alloc(), &Method::HEAD) == Ok(true));
    assert!(rt; is_head(rt.alloc(), &Method::GET) == Ok(false));
}

/// Whether so many reads of a side over that text give these words.
fn hands_on(alloc: Global, text: &'static str, reads: u8, want: &str) -> Result<bool> {
    let mut side = filtered(alloc, text)?;
    tells(alloc, &mut side, reads, want)
}

#[test]
fn hands_a_response_on(rt: HostRuntime) {
    let text = "HTTP/1.1 100 Continue\r\n\r\nHTTP/1.1 200 OK\r\ncontent-length: 2\r\n\r\nab";
    assert!(rt; hands_on(rt.alloc(), text, 3, " informs head piece and end") == Ok(true));
    let text = "HTTP/1.1 200 OK\r\n\r\nab";
    assert!(rt; hands_on(rt.alloc(), text, 4, " chunked head piece done") == Ok(true));
}

/// Whether a response asks to close, by its side, which was read so often.
fn closes(alloc: Global, text: &'static str, reads: u8) -> Result<bool> {
    let mut side = filtered(alloc, text)?;
    for _ in 0..reads {
        let _ = side.read_task();
    }
    Ok(side.asks_to_close())
}

#[test]
fn tells_that_a_final_head_asks_to_close(rt: HostRuntime) {
    let text = "HTTP/1.1 200 OK\r\nconnection: close\r\ncontent-length: 0\r\n\r\n";
    assert!(rt; closes(rt.alloc(), text, 2) == Ok(true));
    let text = "HTTP/1.1 103 Early Hints\r\nconnection: close\r\n\r\nHTTP/1.1 200 OK\r\n\r\n";
    assert!(rt; closes(rt.alloc(), text, 3) == Ok(false));
}

/// Whether a head that switches protocols is refused, by this side alone.
fn refuses(alloc: Global, side: &mut Side) -> Result<bool> {
    let told = tells(alloc, side, 2, " switches switches")?;
    Ok(told && side.told().errors == 2 && side.inner().told().errors == 0)
}

/// The same of a side over a link that gives such a head.
fn refuses_switch(alloc: Global) -> Result<bool> {
    let mut side = filtered(alloc, "HTTP/1.1 101 Switching Protocols\r\n\r\n")?;
    refuses(alloc, &mut side)
}

#[test]
fn hands_no_switch_of_protocols_on(rt: HostRuntime) {
    assert!(rt; refuses_switch(rt.alloc()) == Ok(true));
}
