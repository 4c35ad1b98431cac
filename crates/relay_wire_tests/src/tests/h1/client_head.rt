use http::{Method, Version};
use relay_h1::*;
use relay_tasks::{ResponseHeader, Result};
use std::alloc::Global;
use std::test::Fail as Failed;

type Checked = std::result::Result<(), Failed>;

fn head_of(alloc: Global, text: &str) -> Result<ResponseHeader> {
    HeadReader::read_response(alloc, text.as_bytes())
}

/// Whether the head is written so.
fn is_written(alloc: Global, head: &ResponseHeader, want: &str) -> bool {
    let mut out = Vec::new(alloc);
    write_response_head(&mut out, head).is_ok() && out.as_slice() == want.as_bytes()
}

/// Whether the head goes to a client of that version in that framing, written so.
fn goes(
    alloc: Global,
    version: Version,
    head: &str,
    framing: Option<Framing>,
    written: &str,
) -> Result<bool> {
    let mut head = head_of(alloc, head)?;
    let asked = client_framing(&Method::GET, version, false, &head).ok();
    let made = frame_for_client(&Method::GET, version, false, &mut head).ok();
    Ok(asked == framing && made == framing && is_written(alloc, &head, written))
}

#[test]
fn frames_for_clients_of_http_11(rt: HostRuntime) -> Checked {
    let head = "HTTP/1.1 200 OK\r\nContent-Length: 2\r\nTransfer-Encoding: chunked\r\n\r\n";
    let written = "HTTP/1.1 200 OK\r\ntransfer-encoding: chunked\r\n\r\n";
    let framing = Some(Framing::Chunked);
    assert!(rt; goes(rt.alloc(), Version::HTTP_11, head, framing, written)?);
    Ok(())
}

#[test]
fn frames_for_clients_of_http_10(rt: HostRuntime) -> Checked {
    let close = Some(Framing::UntilClose);
    let length = Some(Framing::Length(2));
    let empty = Some(Framing::Empty);
    for (head, framing, written) in [
        (
            "HTTP/1.1 200 OK\r\nTransfer-Encoding: chunked\r\n\r\n",
            close,
            "HTTP/1.1 200 OK\r\n\r\n",
        ),
        (
            "HTTP/1.1 200 OK\r\nContent-Length: 2\r\nTransfer-Encoding: chunked\r\n\r\n",
            close,
            "HTTP/1.1 200 OK\r\n\r\n",
        ),
        (
            "HTTP/1.1 200 OK\r\nContent-Length: 2\r\n\r\n",
            length,
            "HTTP/1.1 200 OK\r\ncontent-length: 2\r\n\r\n",
        ),
        (
            "HTTP/1.1 304 Not Modified\r\nTransfer-Encoding: chunked\r\n\r\n",
            empty,
            "HTTP/1.1 304 Not Modified\r\n\r\n",
        ),
        (
            "HTTP/1.1 200 OK\r\nTransfer-Encoding: gzip\r\n\r\n",
            None,
            "HTTP/1.1 200 OK\r\ntransfer-encoding: gzip\r\n\r\n",
        ),
    ] {
        assert!(rt; goes(rt.alloc(), Version::HTTP_10, head, framing, written)?);
    }
    Ok(())
}

/// Whether a head of that status goes to clients of HTTP/1.1 and of HTTP/1.0.
fn sent_to(alloc: Global, status: u16) -> Result<(bool, bool)> {
    let head = ResponseHeader::build(alloc, status)?;
    let to_11 = is_sent_to(Version::HTTP_11, &head);
    Ok((to_11, is_sent_to(Version::HTTP_10, &head)))
}

#[test]
fn sends_informational_heads_to_http_11_alone(rt: HostRuntime) -> Checked {
    assert!(rt; sent_to(rt.alloc(), 103)? == (true, false));
    assert!(rt; sent_to(rt.alloc(), 101)? == (true, true));
    Ok(())
}

/// Whether the head lacks a framing, and is chunked once that was added.
fn is_made_chunked(alloc: Global) -> Result<bool> {
    let mut head = head_of(alloc, "HTTP/1.0 200 OK\r\n\r\n")?;
    let lacks = lacks_framing(&Method::GET, false, &head);
    let added = add_chunked(&mut head);
    let framing = response_framing(&Method::GET, false, &head).ok();
    Ok(lacks && added.is_ok() && framing == Some(Framing::Chunked))
}

#[test]
fn adds_chunked_where_nothing_says_the_end(rt: HostRuntime) -> Checked {
    assert!(rt; is_made_chunked(rt.alloc())?);
    Ok(())
}
