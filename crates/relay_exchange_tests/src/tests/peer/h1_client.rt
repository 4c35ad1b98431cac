//! The client of a peer.
use super::super::scripts::{Gives, has_taken, link};
use super::super::words::word;
use bytes::Bytes;
use http::Method;
use http_header::{CONTENT_LENGTH, HeaderValue};
use relay_links::ScriptLink;
use relay_peer::H1Client;
use relay_tasks::{RequestHeader, Result};
use std::alloc::Global;

type Client = H1Client<ScriptLink>;

/// The head of a POST of two bytes to `/`.
fn post(alloc: Global) -> Result<RequestHeader> {
    let mut head = RequestHeader::build(alloc, &Method::POST, b"/")?;
    head.insert_header(CONTENT_LENGTH, HeaderValue::from_static("2"))?;
    Ok(head)
}

/// Sends that request with its body.
fn send(client: &mut Client, head: RequestHeader) -> Result<()> {
    client.write_request_header(head)?;
    client.write_body(Bytes::from_static(b"xy"))?;
    client.finish_body()?;
    if client.has_pending() {
        client.write_pending();
    }
    Ok(())
}

/// Whether so many reads of a response give these words.
fn reads(alloc: Global, client: &mut Client, reads: u8, want: &str) -> Result<bool> {
    let mut told = String::new(alloc);
    for _ in 0..reads {
        told.push_str(word(&client.read_response_task(alloc)))?;
    }
    Ok(told.as_str() == want)
}

/// Whether a request and its response are relayed by their lengths, and the link may be kept.
fn relays(alloc: Global) -> Result<bool> {
    let text = "HTTP/1.1 100 Continue\r\n\r\nHTTP/1.1 200 OK\r\ncontent-length: 3\r\n\r\nab";
    let script = &[Gives::Text(text), Gives::Text("c"), Gives::End];
    let mut client = H1Client::new(alloc, link(alloc, script)?);
    send(&mut client, post(alloc)?)?;
    let told = reads(
        alloc,
        &mut client,
        5,
        " informs head piece piece and end end",
    )?;
    Ok(
        told && client.may_keep()
            && client.body_bytes_sent() == 2
            && has_taken(
                &client.into_link(),
                "POST / HTTP/1.1\r\ncontent-length: 2\r\n\r\nxy",
            ),
    )
}

#[test]
fn relays_lengths_and_may_keep_its_link(rt: HostRuntime) {
    assert!(rt; relays(rt.alloc()) == Ok(true));
}

/// Whether a body in chunks is read that comes byte by byte over a link that stays open.
fn reads_slowly(alloc: Global) -> Result<bool> {
    let text =
        "HTTP/1.1 200 OK\r\ntransfer-encoding: chunked\r\n\r\n2\r\nab\r\n1\r\nc\r\n0\r\n\r\n";
    let mut client = H1Client::new(alloc, link(alloc, &[Gives::ByteByByte(text)])?);
    let told = reads(
        alloc,
        &mut client,
        66,
        " chunked head piece piece piece done end",
    )?;
    Ok(told && client.body_bytes_received() == 3)
}

#[test]
fn reads_chunks_byte_by_byte(rt: HostRuntime) {
    assert!(rt; reads_slowly(rt.alloc()) == Ok(true));
}
