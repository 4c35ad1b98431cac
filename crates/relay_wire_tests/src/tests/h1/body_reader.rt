use bytes::Bytes;
use relay_h1::*;
use relay_links::{Got, ReadItem, ScriptLink};
use relay_tasks::{Context, ErrorType, Fail};
use std::alloc::{AllocError, Global};
use std::test::Fail as Failed;

type Checked = std::result::Result<(), Failed>;

type Made<T> = std::result::Result<T, AllocError>;

/// How the reading of a text ended.
#[derive(Clone, Copy, PartialEq, Eq)]
enum Last {
    End,
    More,
    Broken(Context),
    NoMemory,
    Endless,
}

const BROKEN: Last = Last::Broken(Context::BadFraming);

/// A reader, the bytes ahead of it, the link that gives them, and the body so far.
#[derive(Drop)]
struct Reading {
    reader: BodyReader,
    ahead: Ahead,
    link: ScriptLink,
    body: Vec<u8>,
}

impl Reading {
    /// A reading of the text, which the link gives in two parts.
    fn of(alloc: Global, framing: Framing, first: &[u8], second: &[u8]) -> Made<Reading> {
        let read = vec![in alloc;
            ReadItem::Bytes(Bytes::copy_from_slice(alloc, first)?),
            ReadItem::Bytes(Bytes::copy_from_slice(alloc, second)?),
            ReadItem::End,
        ]?;
        Ok(Reading {
            reader: BodyReader::new(framing),
            ahead: Ahead::new(alloc),
            link: ScriptLink::new(alloc, read, Vec::new(alloc)),
            body: Vec::new(alloc),
        })
    }

    /// Takes all that the text gives.
    fn run(&mut self, alloc: Global) -> Made<Last> {
        for _ in 0..200 {
            match self.reader.take(alloc, &mut self.ahead) {
                Cut::Piece(piece, end) => {
                    self.body.extend_from_slice(piece.as_slice())?;
                    if end {
                        return Ok(Last::End);
                    }
                }
                Cut::End => return Ok(Last::End),
                Cut::More => match self.ahead.read_from(&mut self.link)? {
                    Got::Bytes(_) => {}
                    Got::NotReady | Got::Silent | Got::End | Got::Failed(_) => {
                        return Ok(Last::More);
                    }
                },
                Cut::Failed(Fail::Error(error)) => return Ok(Last::Broken(error.context)),
                Cut::Failed(Fail::OutOfMemory) => return Ok(Last::NoMemory),
            }
        }
        Ok(Last::Endless)
    }
}

/// Whether the text has that body, and its reading ends so.
fn reads(alloc: Global, framing: Framing, text: &[u8], body: &[u8], last: Last) -> Made<bool> {
    let mut reading = Reading::of(alloc, framing, text, b"")?;
    let ended = reading.run(alloc)?;
    Ok(ended == last && reading.body.as_slice() == body)
}

const CHUNKS: &[u8] = b"4;name=\"a b\"\r\nWiki\r\n6 \t\r\npedia \r\nE\r\nin \r\n\r\nchunks.\r\n\
000;x\r\nExpires: never\r\nX:\r\n\r\nGET";

/// Whether the text of chunks is read, where the link gives it in two parts that are cut there.
fn reads_chunks(alloc: Global, at: usize) -> Made<bool> {
    let (first, second) = CHUNKS.split_at(at.min(CHUNKS.len()));
    let mut reading = Reading::of(alloc, Framing::Chunked, first, second)?;
    let ended = reading.run(alloc)?;
    Ok(
        ended == Last::End
            && reading.body.as_slice() == b"Wikipedia in \r\n\r\nchunks.".as_slice()
            && b"GET".starts_with(reading.ahead.bytes()),
    )
}

#[test]
fn reads_a_chunked_body_at_every_cut(rt: HostRuntime) -> Checked {
    for at in 0..=CHUNKS.len() {
        assert!(rt; reads_chunks(rt.alloc(), at)?, "at {at}");
    }
    Ok(())
}

/// Whether of five bytes these are read, their reading ends so, and so many bytes are left.
fn reads_five(alloc: Global, text: &str, body: &str, last: Last, left: usize) -> Made<bool> {
    let mut reading = Reading::of(alloc, Framing::Length(5), text.as_bytes(), b"")?;
    let ended = reading.run(alloc)?;
    Ok(
        ended == last
            && reading.reader.is_done() == (last == Last::End)
            && reading.ahead.len() == left
            && reading.body.as_slice() == body.as_bytes(),
    )
}

#[test]
fn reads_a_length(rt: HostRuntime) -> Checked {
    assert!(rt; reads_five(rt.alloc(), "hello, world", "hello", Last::End, 7)?);
    assert!(rt; reads_five(rt.alloc(), "hell", "hell", Last::More, 0)?);
    Ok(())
}

const NO_SIZES: [&str; 10] = [
    "00000000000000005\r\nhello\r\n0\r\n\r\n",
    "\r\n",
    "+5\r\n",
    "-5\r\n",
    "0x5\r\n",
    "5 5\r\n",
    " 5\r\n",
    "g\r\n",
    ";a\r\n",
    "5;a\nb\r\n",
];

#[test]
fn refuses_what_is_no_size(rt: HostRuntime) -> Checked {
    for text in NO_SIZES {
        assert!(rt; reads(rt.alloc(), Framing::Chunked, text.as_bytes(), b"", BROKEN)?);
    }
    Ok(())
}

/// Texts of chunks, the body that each has, and how its reading ends.
const SIZES: [(&str, &str, Last); 11] = [
    ("0000000000000005\r\nhello\r\n0\r\n\r\n", "hello", Last::End),
    ("FFFFFFFFFFFFFFFF\r\nhello", "hello", Last::More),
    ("5\n", "", Last::More),
    ("1\r\na\r\n+\r\n", "a", BROKEN),
    ("1\r\na", "a", Last::More),
    ("1\r\na\r", "a", Last::More),
    ("1\r\nab", "a", Last::More),
    ("1\r\nab\n", "a", BROKEN),
    ("1\r\na\r\r", "a", BROKEN),
    ("1\r\na\n\n", "a", BROKEN),
    ("1\r\na0\r\n\r\n", "a", BROKEN),
];

/// Whether the text of chunks has that body, and its reading ends so.
fn has_chunks(alloc: Global, text: &str, body: &str, last: Last) -> bool {
    matches!(
        reads(
            alloc,
            Framing::Chunked,
            text.as_bytes(),
            body.as_bytes(),
            last
        ),
        Ok(true)
    )
}

#[test]
fn reads_sizes_and_asks_for_cr_lf(rt: HostRuntime) {
    for (text, body, last) in SIZES {
        assert!(rt; has_chunks(rt.alloc(), text, body, last), "at {text:?}");
    }
}

/// Whether a chunk line of so many bytes, with its CR LF, is read so.
fn reads_line(alloc: Global, len: usize, body: &[u8], last: Last) -> Made<bool> {
    let mut text = Vec::from_slice(alloc, b"5;")?;
    text.resize(len.saturating_sub(2), b'x')?;
    text.extend_from_slice(b"\r\nhello\r\n0\r\n\r\n")?;
    reads(alloc, Framing::Chunked, text.as_slice(), body, last)
}

#[test]
fn keeps_the_limit_of_a_chunk_line(rt: HostRuntime) -> Checked {
    assert!(rt; reads_line(rt.alloc(), 1_024, b"hello", Last::End)?);
    assert!(rt; reads_line(rt.alloc(), 1_025, b"", BROKEN)?);
    Ok(())
}

/// Whether a trailer line of so many bytes, with its CR LF, is read so.
fn reads_trailer(alloc: Global, len: usize, last: Last) -> Made<bool> {
    let mut text = Vec::from_slice(alloc, b"0\r\n")?;
    text.resize(len.saturating_add(1), b'x')?;
    text.extend_from_slice(b"\r\n\r\n")?;
    reads(alloc, Framing::Chunked, text.as_slice(), b"", last)
}

#[test]
fn keeps_the_limit_of_the_trailer(rt: HostRuntime) -> Checked {
    assert!(rt; reads_trailer(rt.alloc(), 65_536, Last::End)?);
    assert!(rt; reads_trailer(rt.alloc(), 65_537, BROKEN)?);
    Ok(())
}

/// Texts behind which a stream ends, and what that is refused as, if it is.
const ENDS: [(Framing, &str, Option<ErrorType>); 9] = [
    (Framing::Empty, "", None),
    (Framing::Length(5), "", CLOSED),
    (Framing::Length(5), "hell", CLOSED),
    (Framing::Length(5), "hello", None),
    (Framing::UntilClose, "hello", None),
    (Framing::Tunnel, "hello", None),
    (Framing::Chunked, "", CLOSED),
    (Framing::Chunked, "5\r\nhello\r\n0\r\n", CLOSED),
    (Framing::Chunked, "5\r\nhello\r\n0\r\n\r\n", None),
];

const CLOSED: Option<ErrorType> = Some(ErrorType::ConnectionClosed);

/// What the end of the stream behind the text is refused as, if it is.
fn end_of(alloc: Global, framing: Framing, text: &str) -> Made<Option<ErrorType>> {
    let mut reading = Reading::of(alloc, framing, text.as_bytes(), b"")?;
    reading.run(alloc)?;
    match reading.reader.end_of_stream() {
        Ok(()) => Ok(None),
        Err(error) => Ok(Some(error.etype)),
    }
}

#[test]
fn ends_with_the_stream_where_it_may(rt: HostRuntime) -> Checked {
    for (framing, text, why) in ENDS {
        assert!(rt; end_of(rt.alloc(), framing, text)? == why, "at {text:?}");
    }
    Ok(())
}

#[test]
fn reads_until_the_close(rt: HostRuntime) -> Checked {
    let text = b"0\r\n\r\nand more".as_slice();
    assert!(rt; reads(rt.alloc(), Framing::UntilClose, text, text, Last::More)?);
    assert!(rt; reads(rt.alloc(), Framing::Tunnel, text, text, Last::More)?);
    Ok(())
}
