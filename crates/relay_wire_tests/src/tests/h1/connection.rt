use bytes::Bytes;
use http::Method;
use relay_h1::*;
use relay_links::{Got, Put, ReadItem, ScriptLink, WriteItem};
use relay_tasks::{Context, ErrorSource, Fail, Result};
use std::alloc::{AllocError, Global};
use std::test::Fail as Failed;

type Checked = std::result::Result<(), Failed>;

type Made<T> = std::result::Result<T, AllocError>;

type Client = Connection<ScriptLink, u8>;

/// A connection whose link gives these pieces, and takes eight bytes and then five.
fn connection(alloc: Global, first: &'static [u8], second: &'static [u8]) -> Made<Client> {
    let read = vec![in alloc;
        ReadItem::Bytes(Bytes::from_static(first)),
        ReadItem::Bytes(Bytes::from_static(second)),
        ReadItem::End,
    ]?;
    let write = vec![in alloc; WriteItem::Take(8), WriteItem::Take(5)]?;
    Ok(Connection::new(alloc, ScriptLink::new(alloc, read, write)))
}

/// What the bytes ahead are judged to be.
#[derive(Clone, Copy, PartialEq, Eq)]
enum Seen {
    More,
    Head(Framing, usize),
    Refused(Context, ErrorSource),
    NoMemory,
}

/// Reads once, and judges what is ahead.
fn read(client: &mut Client, alloc: Global) -> Seen {
    if client.read_more().is_err() {
        return Seen::NoMemory;
    }
    match client.judge_request(alloc) {
        Ok(None) => Seen::More,
        Ok(Some(read)) => Seen::Head(read.framing, read.len),
        Err(Fail::Error(error)) => Seen::Refused(error.context, error.esource),
        Err(Fail::OutOfMemory) => Seen::NoMemory,
    }
}

fn reads_in_pieces(alloc: Global) -> Made<bool> {
    let mut client = connection(
        alloc,
        b"PUT / HTTP/1.1\r\nHost: h\r\nContent-Length: 9\r\n\r",
        b"\n123456789",
    )?;
    let first = read(&mut client, alloc);
    let second = read(&mut client, alloc);
    let len = client.ahead().len();
    client.consume(len.min(46));
    let head = Seen::Head(Framing::Length(9), 46);
    Ok(first == Seen::More && second == head && client.ahead() == b"123456789".as_slice())
}

#[test]
fn reads_a_request_in_pieces(rt: HostRuntime) -> Checked {
    assert!(rt; reads_in_pieces(rt.alloc())?);
    Ok(())
}

/// How many bytes the link takes of what waits.
fn write(client: &mut Client, output: &mut Output) -> Option<usize> {
    if output.is_empty() {
        return None;
    }
    match client.write_out(output) {
        Put::Took(count) => Some(count),
        Put::NotReady | Put::Silent | Put::Failed(_) | Put::OutOfMemory => None,
    }
}

fn writes_out(alloc: Global) -> Made<bool> {
    let mut output = Output::new(Vec::from_slice(alloc, b"0123456789")?);
    let mut client = connection(alloc, b"", b"")?;
    let first = write(&mut client, &mut output);
    let second = write(&mut client, &mut output);
    let _link = client.into_link();
    Ok(first == Some(8) && second == Some(2) && output.is_empty())
}

#[test]
fn writes_what_waits(rt: HostRuntime) -> Checked {
    assert!(rt; writes_out(rt.alloc())?);
    Ok(())
}

fn gathers(alloc: Global) -> bool {
    let mut body = BodyWriter::new(Framing::UntilClose);
    let mut output = Output::new(Vec::new(alloc));
    let first = output.push_piece(&mut body, Bytes::from_static(b"01234"));
    let second = output.push_piece(&mut body, Bytes::from_static(b"abc"));
    output.truncate(7);
    first.is_ok() && second.is_ok() && output.front_bytes() == b"01234ab".as_slice()
}

#[test]
fn gathers_what_comes_behind_a_piece(rt: HostRuntime) {
    assert!(rt; gathers(rt.alloc()));
}

fn keeps(alloc: Global) -> Made<bool> {
    let mut client = connection(alloc, b"", b"")?;
    client.set_kept(7);
    let kept = client.kept().copied();
    let taken = client.take_kept();
    Ok(kept == Some(7) && taken == Some(7) && client.take_kept().is_none())
}

#[test]
fn keeps_a_value_between_requests(rt: HostRuntime) -> Checked {
    assert!(rt; keeps(rt.alloc())?);
    Ok(())
}

fn is_chunked(read: Result<Option<ResponseRead>>) -> bool {
    match read {
        Ok(Some(read)) => {
            read.framing == Framing::Chunked && !read.head.headers().contains_key("content-length")
        }
        Ok(None) | Err(_) => false,
    }
}

fn settles(alloc: Global) -> Made<bool> {
    let text = b"HTTP/1.1 200 OK\r\nContent-Length: 5\r\nTransfer-Encoding: chunked\r\n\r\n";
    let read = vec![in alloc; ReadItem::Bytes(Bytes::from_static(text))]?;
    let mut link = ScriptLink::new(alloc, read, Vec::new(alloc));
    let mut ahead = Ahead::new(alloc);
    let got = ahead.read_from(&mut link);
    let is_chunked = is_chunked(judge_response(alloc, &mut ahead, &Method::GET, false));
    Ok(got.is_ok() && is_chunked)
}

#[test]
fn settles_a_chunked_response(rt: HostRuntime) -> Checked {
    assert!(rt; settles(rt.alloc())?);
    Ok(())
}

fn judged(alloc: Global, text: &'static [u8]) -> Made<Seen> {
    let mut client = connection(alloc, text, b"")?;
    Ok(read(&mut client, alloc))
}

#[test]
fn refuses_heads_for_their_reasons(rt: HostRuntime) -> Checked {
    for (text, why) in [
        (
            b"GET / HTTP/1.0\r\nTransfer-Encoding: chunked\r\n\r\n".as_slice(),
            Context::BadFraming,
        ),
        (
            b"GET / HTTP/1.1\r\nHost: a\r\nContent-Length: x\r\n\r\n".as_slice(),
            Context::BadFraming,
        ),
        (b"GET /\r\n\r\n".as_slice(), Context::HeadGrammar),
    ] {
        let refused = Seen::Refused(why, ErrorSource::Downstream);
        assert!(rt; judged(rt.alloc(), text)? == refused);
    }
    Ok(())
}
