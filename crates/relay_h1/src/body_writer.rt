//! The text that a body is sent as, in its framing (RFC 9112, sections 6 and 7).
ghost use Rattle.std.specs.Prelude.{◌≡◌, ℕ, true, ◌+◌, ◌≤◌, ◌↔◌, List, [], ◌∷◌, ◌++◌, length, vec_len, vec_capacity, IfOk, IfErr, OnOk, OnErr, IsOkUnless, IsErrOf, IsNone, IsTrue};
ghost use Rattle.relay_tasks.specs.Error.{explained, IsMemoryOr};
ghost use Rattle.relay_h1.specs.BodyWire.{body_part, piece_text, after_piece, chunk_text, end_text, body_text, is_full, is_raw, is_short, count_of, short_body, HasWritten, ReadsBackOpen, ReadsBackWhole};
ghost use Rattle.relay_h1.specs.declared.framing.Framing.{Framing};

use crate::framing::Framing;
use crate::size_line::SizeLine;
use bytes::Bytes;
use relay_tasks::{Context, Error, ErrorType, Fail, Result};
use std::alloc::AllocError;
use std::marker::Model;

/// The last chunk, and the empty line behind it.
const LAST_CHUNK: &[u8] = b"0\r\n\r\n";

const CHUNK_END: &[u8] = b"\r\n";

/// Writes a body in its framing, seen as the framing of what is left of it: `Length` counts down,
/// and an ended body is `Empty`.
#[derive(Drop)]
pub struct BodyWriter {
    rest: Framing,
}

impl Model for BodyWriter {
    ghost use Rattle.relay_h1.specs.declared.framing.Framing.{Framing};

    ghost Value = { Framing };

    ghost view = { λ w. w.rest };
}

impl BodyWriter {
    /// A writer for a body that is framed so.
    pub fn new(framing: Framing) -> BodyWriter
        ensures rest { result ≡ framing }
        ensures starts { HasWritten framing [] [] result }
    {
        BodyWriter { rest: framing }
    }

    /// Appends the text of a piece, and gives how many of its bytes belong to the body: all of
    /// them, but none past a `Length`. None exactly where the body is done; nothing is written
    /// then. An empty piece counts 0 and writes nothing.
    ///
    /// Where memory is wanted, `out` and the writer stay as they were.
    pub fn write(&mut self, out: &mut Vec<u8>, piece: &[u8]) -> Result<Option<u64>>
        ensures text { OnOk result
            (out.new.items ≡ out.old.items ++ piece_text self.old piece.now) }
        ensures counted { IfOk result (λ count. count ≡ count_of self.old piece.now) }
        ensures rest { OnOk result (self.new ≡ after_piece self.old piece.now) }
        ensures so_far { OnOk result ((framing : Framing) (pieces : List (List ℕ)) (text : List ℕ)
            → HasWritten framing pieces text self.old
            → HasWritten framing (pieces ++ piece.now ∷ []) (text ++ piece_text self.old piece.now)
            self.new) }
        ensures reads_back { OnOk result ((framing : Framing) (pieces : List (List ℕ))
            (text : List ℕ) → HasWritten framing pieces text self.new
            → ReadsBackOpen framing pieces text self.new) }
        ensures err { OnErr result (out.new.items ≡ out.old.items) }
        ensures kept { OnErr result (self.new ≡ self.old) }
        ensures memory { IsOkUnless result Fail.OutOfMemory }
    {
        push_part(self.rest, out, body_part(self.rest, piece))?;
        let count = self.count_of(piece);
        self.go_past(piece);
        Ok(count)
    }

    /// The text of a piece, where that is the piece itself, cut where the body ends. The writer
    /// goes on as by `write`, and no byte is copied.
    pub(crate) fn pass(&mut self, mut piece: Bytes) -> Bytes
        requires { is_raw self.old ≡ true }
        ensures text { result ≡ piece_text self.old piece }
        ensures rest { self.new ≡ after_piece self.old piece }
        ensures so_far { (framing : Framing) (pieces : List (List ℕ)) (text : List ℕ)
            → HasWritten framing pieces text self.old
            → HasWritten framing (pieces ++ piece ∷ []) (text ++ piece_text self.old piece)
            self.new }
    {
        let len = body_part(self.rest, piece.as_slice()).len();
        self.go_past(piece.as_slice());
        piece.truncate(len);
        piece
    }

    /// Whether the text of a piece is the piece itself, as far as it belongs to the body.
    pub(crate) fn is_raw(&self) -> bool
        ensures { result ≡ is_raw self.now }
    {
        match self.rest {
            Framing::Chunked => false,
            Framing::Empty | Framing::Length(_) | Framing::UntilClose | Framing::Tunnel => true,
        }
    }

    /// How many bytes of the piece belong to the body, and none where the body is done.
    pub(crate) fn count_of(&self, piece: &[u8]) -> Option<u64>
        ensures { result ≡ count_of self.now piece.now }
    {
        if is_full(self.rest) {
            return None;
        }
        Some(body_part(self.rest, piece).len() as u64)
    }

    /// Goes on behind the piece.
    fn go_past(&mut self, piece: &[u8])
        ensures rest { self.new ≡ after_piece self.old piece.now }
        ensures so_far { (framing : Framing) (pieces : List (List ℕ)) (text : List ℕ)
            → HasWritten framing pieces text self.old
            → HasWritten framing (pieces ++ piece.now ∷ []) (text ++ piece_text self.old piece.now)
            self.new }
        ensures reads_back { (framing : Framing) (pieces : List (List ℕ)) (text : List ℕ)
            → HasWritten framing pieces text self.new
            → ReadsBackOpen framing pieces text self.new }
    {
        self.rest = after_piece(self.rest, piece);
    }

    /// Appends the text of the end, and ends the body. It is Ok and writes nothing where the body
    /// had ended.
    ///
    /// `PrematureBodyEnd`, about `BodyShort`: exactly where bytes of a `Length` are missing. Then,
    /// and where memory is wanted, `out` and the writer stay as they were.
    pub fn finish(&mut self, out: &mut Vec<u8>) -> Result<()>
        ensures text { OnOk result (out.new.items ≡ out.old.items ++ end_text self.old) }
        ensures rest { OnOk result (self.new ≡ Framing.Empty) }
        ensures whole { OnOk result ((framing : Framing) (pieces : List (List ℕ)) (text : List ℕ)
            → HasWritten framing pieces text self.old
            → text ++ end_text self.old ≡ body_text framing pieces) }
        ensures reads_back { OnOk result ((framing : Framing) (pieces : List (List ℕ))
            (text : List ℕ) → HasWritten framing pieces text self.old
            → ReadsBackWhole framing pieces (text ++ end_text self.old)) }
        ensures short { IsErrOf result (Fail.Error short_body) ↔ IsTrue (is_short self.old) }
        ensures causes { IfErr result (IsMemoryOr short_body) }
        ensures err { OnErr result (out.new.items ≡ out.old.items) }
        ensures kept { OnErr result (self.new ≡ self.old) }
    {
        if is_short(self.rest) {
            return Err(Fail::Error(Error::explain(
                ErrorType::PrematureBodyEnd,
                Context::BodyShort,
            )));
        }
        push_end(self.rest, out)?;
        self.rest = Framing::Empty;
        Ok(())
    }

    /// Whether the body takes no more bytes: it has ended, or its length is reached.
    pub fn is_done(&self) -> bool
        ensures { result ≡ is_full self.now }
    {
        is_full(self.rest)
    }

    /// The bytes that follow are raw: an upgrade was accepted.
    pub fn upgrade(&mut self)
        ensures rest { self.new ≡ Framing.Tunnel }
        ensures starts { HasWritten Framing.Tunnel [] [] self.new }
    {
        self.rest = Framing::Tunnel;
    }
}

fn is_full(rest: Framing) -> bool
    ensures { result ≡ is_full rest }
{
    match rest {
        Framing::Empty => true,
        Framing::Length(left) => left == 0,
        Framing::Chunked | Framing::UntilClose | Framing::Tunnel => false,
    }
}

fn is_short(rest: Framing) -> bool
    ensures { result ≡ is_short rest }
{
    match rest {
        Framing::Length(left) => left != 0,
        Framing::Empty | Framing::Chunked | Framing::UntilClose | Framing::Tunnel => false,
    }
}

fn body_part(rest: Framing, piece: &[u8]) -> &[u8]
    ensures { result.now ≡ body_part rest piece.now }
{
    match rest {
        Framing::Empty => b"",
        Framing::Length(left) if left < piece.len() as u64 => &piece[..left as usize],
        Framing::Length(_) | Framing::Chunked | Framing::UntilClose | Framing::Tunnel => piece,
    }
}

fn after_piece(rest: Framing, part: &[u8]) -> Framing
    ensures { result ≡ after_piece rest part.now }
{
    match rest {
        Framing::Length(left) => Framing::Length(left.saturating_sub(part.len() as u64)),
        Framing::Empty => Framing::Empty,
        Framing::Chunked => Framing::Chunked,
        Framing::UntilClose => Framing::UntilClose,
        Framing::Tunnel => Framing::Tunnel,
    }
}

/// Appends body bytes in their framing.
fn push_part(rest: Framing, out: &mut Vec<u8>, part: &[u8]) -> std::result::Result<(), AllocError>
    requires { body_part rest part.now ≡ part.now }
    ensures ok { OnOk result (out.new.items ≡ out.old.items ++ piece_text rest part.now) }
    ensures err { OnErr result (out.new.items ≡ out.old.items) }
{
    match rest {
        Framing::Chunked => push_chunk(out, part),
        Framing::Empty | Framing::Length(_) | Framing::UntilClose | Framing::Tunnel => {
            out.extend_from_slice(part)
        }
    }
}

/// Appends the bytes as one chunk, and nothing for none.
fn push_chunk(out: &mut Vec<u8>, bytes: &[u8]) -> std::result::Result<(), AllocError>
    ensures ok { OnOk result (out.new.items ≡ out.old.items ++ chunk_text bytes.now) }
    ensures err { OnErr result (out.new.items ≡ out.old.items) }
{
    if bytes.is_empty() {
        return Ok(());
    }
    let size = SizeLine::new(bytes.len() as u64);
    let line = size.as_bytes();
    out.reserve(chunk_len(line, bytes)?)?;
    push_reserved(out, line);
    push_reserved(out, bytes);
    push_reserved(out, CHUNK_END);
    Ok(())
}

/// How many bytes a chunk has, with its line and its end.
fn chunk_len(line: &[u8], bytes: &[u8]) -> std::result::Result<usize, AllocError>
    requires { length line.now ≤ 18 }
    ensures { IfOk result (λ len. len ≡ length line.now + length bytes.now + 2) }
{
    bytes
        .len()
        .checked_add(line.len() + CHUNK_END.len())
        .ok_or(AllocError)
}

/// Appends bytes for which there is room.
fn push_reserved(out: &mut Vec<u8>, bytes: &[u8])
    requires { vec_len out.old + length bytes.now ≤ vec_capacity out.old }
    ensures items { out.new.items ≡ out.old.items ++ bytes.now }
    ensures len { vec_len out.new ≡ vec_len out.old + length bytes.now }
    ensures capacity { vec_capacity out.old ≤ vec_capacity out.new }
{
    out.extend_from_slice(bytes).unwrap();
}

fn push_end(rest: Framing, out: &mut Vec<u8>) -> std::result::Result<(), AllocError>
    ensures ok { OnOk result (out.new.items ≡ out.old.items ++ end_text rest) }
    ensures err { OnErr result (out.new.items ≡ out.old.items) }
{
    match rest {
        Framing::Chunked => out.extend_from_slice(LAST_CHUNK),
        Framing::Empty | Framing::Length(_) | Framing::UntilClose | Framing::Tunnel => Ok(()),
    }
}
