//! The bytes that wait for a link to take them.
ghost use Rattle.std.specs.Prelude.{◌≡◌, ◌↔◌, ◌≤◌, ◌<◌, ◌==◌, ◌++◌, ◌∷◌, [], ℕ, List, length, take, drop, IfOk, IfErr, OnOk, OnErr, IsOkUnless, IsErrOf, IsTrue};
ghost use Rattle.relay_tasks.specs.Error.{IsMemoryOr};
ghost use Rattle.relay_h1.specs.BodyWire.{piece_text, after_piece, count_of, end_text, body_text, is_short, short_body, HasWritten, ReadsBackWhole};
ghost use Rattle.relay_h1.specs.Move.{WritesOut, taken};
ghost use Rattle.relay_h1.specs.Wire.{request_text, response_text};
ghost use Rattle.relay_h1.specs.declared.framing.Framing.{Framing};

use crate::body_writer::BodyWriter;
use crate::wire::{write_request_head, write_response_head};
use bytes::Bytes;
use relay_links::{ByteLink, Put};
use relay_tasks::{Fail, RequestHeader, ResponseHeader, Result};
use std::alloc::{AllocError, Global};
use std::marker::Model;

/// Bytes that wait for a link, seen as the list of those that it has not taken. What comes later
/// stands behind them. Where memory is wanted, a call that pushes changes nothing.
///
/// A piece of a body that comes where nothing waits is kept as it is, and offered so. What comes
/// behind it is gathered with it: a write is offered all that waits.
#[derive(Drop)]
pub struct Output {
    // A piece that waits alone, in front of what was gathered.
    piece: Bytes,
    // What was taken stands before `start`, until room is needed or all was taken.
    bytes: Vec<u8>,
    start: usize,
}

impl Model for Output {
    ghost use Rattle.std.specs.Prelude.{List, ℕ, ◌≡◌, ◌≤◌, ◌<◌, ◌++◌, length, drop};

    ghost Value = { List ℕ };

    ghost view = { λ o. o.piece ++ drop o.start o.bytes.items };

    ghost invariant = { λ o. (o.start ≤ length o.bytes.items)
        × (0 < length o.piece → o.start ≡ length o.bytes.items) };
}

impl Output {
    /// These bytes.
    pub fn new(bytes: Vec<u8>) -> Output
        ensures { result ≡ bytes.items }
    {
        Output {
            piece: Bytes::new(),
            bytes,
            start: 0,
        }
    }

    /// Its allocator.
    pub fn allocator(&self) -> Global {
        *self.bytes.allocator()
    }

    /// How many bytes wait.
    pub fn len(&self) -> usize
        ensures { result ≡ length self.now }
    {
        self.piece.len() + (self.bytes.len() - self.start)
    }

    /// Whether no byte waits.
    pub fn is_empty(&self) -> bool
        ensures { result ≡ (length self.now == 0) }
    {
        self.piece.is_empty() && self.start == self.bytes.len()
    }

    /// The bytes that wait, which the next write is offered.
    pub fn front_bytes(&self) -> &[u8]
        ensures { result.now ≡ self.now }
    {
        if self.piece.is_empty() {
            &self.bytes.as_slice()[self.start..]
        } else {
            self.piece.as_slice()
        }
    }

    /// Drops the first `n` bytes.
    #[tactic(auto, using(crate::proofs::OutputLemmas::drop_of_piece, crate::proofs::OutputLemmas::drop_past_piece))]
    pub(crate) fn drop_bytes(&mut self, n: usize)
        requires { n ≤ length self.old }
        ensures { self.new ≡ drop n self.old }
    {
        if n < self.piece.len() {
            self.piece.advance(n);
            return;
        }
        self.start += n - self.piece.len();
        self.piece = Bytes::new();
        self.forget_taken();
    }

    /// Drops the bytes behind the first `n`.
    #[tactic(auto, using(crate::proofs::OutputLemmas::take_of_piece, crate::proofs::OutputLemmas::take_past_piece))]
    pub fn truncate(&mut self, n: usize)
        ensures { self.new ≡ take n self.old }
    {
        if n <= self.piece.len() {
            self.piece.truncate(n);
            self.bytes.truncate(self.start);
            return;
        }
        let behind = n - self.piece.len();
        if behind < self.bytes.len() - self.start {
            self.bytes.truncate(self.start + behind);
        }
    }

    /// Queues the text of a request's head. Its request line names HTTP/1.1, whatever the version.
    pub fn push_request_head(&mut self, head: &RequestHeader) -> Result<()>
        ensures ok { OnOk result (self.new ≡ self.old ++ request_text head.now) }
        ensures err { OnErr result (self.new ≡ self.old) }
        ensures memory { IsOkUnless result Fail.OutOfMemory }
    {
        gather(&mut self.piece, &mut self.bytes, &mut self.start)?;
        write_request_head(&mut self.bytes, head)
    }

    /// Queues the text of a response's head.
    pub fn push_response_head(&mut self, head: &ResponseHeader) -> Result<()>
        ensures ok { OnOk result (self.new ≡ self.old ++ response_text head.now) }
        ensures err { OnErr result (self.new ≡ self.old) }
        ensures memory { IsOkUnless result Fail.OutOfMemory }
    {
        gather(&mut self.piece, &mut self.bytes, &mut self.start)?;
        write_response_head(&mut self.bytes, head)
    }

    /// Queues the text of a piece of a body, as `BodyWriter::write` does. Where nothing waits and
    /// its bytes are its text, no byte is copied.
    pub fn push_piece(&mut self, body: &mut BodyWriter, piece: Bytes) -> Result<Option<u64>>
        ensures text { OnOk result (self.new ≡ self.old ++ piece_text body.old piece) }
        ensures counted { IfOk result (λ count. count ≡ count_of body.old piece) }
        ensures rest { OnOk result (body.new ≡ after_piece body.old piece) }
        ensures so_far { OnOk result ((framing : Framing) (pieces : List (List ℕ)) (text : List ℕ)
            → HasWritten framing pieces text body.old
            → HasWritten framing (pieces ++ piece ∷ []) (text ++ piece_text body.old piece)
            body.new) }
        ensures err { OnErr result ((self.new ≡ self.old) × (body.new ≡ body.old)) }
        ensures memory { IsOkUnless result Fail.OutOfMemory }
    {
        if self.piece.is_empty() && self.start == self.bytes.len() && body.is_raw() {
            let count = body.count_of(&piece);
            self.piece = body.pass(piece);
            return Ok(count);
        }
        gather(&mut self.piece, &mut self.bytes, &mut self.start)?;
        body.write(&mut self.bytes, piece.as_slice())
    }

    /// Queues the text of the end of a body, as `BodyWriter::finish` does.
    #[tactic(auto, using(crate::proofs::BodyWireLemmas::never_short))]
    pub fn push_end(&mut self, body: &mut BodyWriter) -> Result<()>
        ensures text { OnOk result (self.new ≡ self.old ++ end_text body.old) }
        ensures rest { OnOk result (body.new ≡ Framing.Empty) }
        ensures whole { OnOk result ((framing : Framing) (pieces : List (List ℕ)) (text : List ℕ)
            → HasWritten framing pieces text body.old
            → text ++ end_text body.old ≡ body_text framing pieces) }
        ensures reads_back { OnOk result ((framing : Framing) (pieces : List (List ℕ))
            (text : List ℕ) → HasWritten framing pieces text body.old
            → ReadsBackWhole framing pieces (text ++ end_text body.old)) }
        ensures short { IsErrOf result (Fail.Error short_body) ↔ IsTrue (is_short body.old) }
        ensures causes { IfErr result (IsMemoryOr short_body) }
        ensures err { OnErr result ((self.new ≡ self.old) × (body.new ≡ body.old)) }
    {
        // A raw body ends with no text, so a piece that waits alone stays so.
        if !body.is_raw() {
            gather(&mut self.piece, &mut self.bytes, &mut self.start)?;
        }
        body.finish(&mut self.bytes)
    }

    /// One write to the link of all the bytes that wait. What it takes leaves them.
    pub fn write_to<L: ByteLink>(&mut self, link: &mut L) -> Put
        requires { 0 < length self.old }
        ensures answer { WritesOut (L.state link.old) (L.state link.new) self.old self.new result }
        ensures start { L.start link.new ≡ L.start link.old }
    {
        let put = link.write(self.front_bytes());
        self.drop_bytes(taken(put));
        put
    }

    /// Forgets the bytes that were taken, once these are all.
    fn forget_taken(&mut self)
        ensures { self.new ≡ self.old }
    {
        if self.start == self.bytes.len() {
            self.bytes.clear();
            self.start = 0;
        }
    }
}

/// Puts a piece that waits alone to the text, so that what comes is gathered behind it.
fn gather(
    piece: &mut Bytes,
    bytes: &mut Vec<u8>,
    start: &mut usize,
) -> std::result::Result<(), AllocError>
    requires within { start.old ≤ length bytes.old.items }
    requires alone { 0 < length piece.old → start.old ≡ length bytes.old.items }
    ensures gathered { OnOk result (piece.new ≡ []) }
    ensures same { piece.new ++ drop start.new bytes.new.items
        ≡ piece.old ++ drop start.old bytes.old.items }
    ensures within { start.new ≤ length bytes.new.items }
    ensures alone { 0 < length piece.new → start.new ≡ length bytes.new.items }
{
    if piece.is_empty() {
        make_room(bytes, start);
        return Ok(());
    }
    bytes.clear();
    *start = 0;
    bytes.extend_from_slice(piece.as_slice())?;
    *piece = Bytes::new();
    Ok(())
}

/// Forgets the bytes that were taken, where they are more than those that wait.
fn make_room(bytes: &mut Vec<u8>, start: &mut usize)
    requires { start.old ≤ length bytes.old.items }
    ensures same { drop start.new bytes.new.items ≡ drop start.old bytes.old.items }
    ensures within { start.new ≤ length bytes.new.items }
{
    let waiting = bytes.len() - *start;
    if *start <= waiting {
        return;
    }
    bytes.as_mut_slice().copy_within(*start.., 0);
    bytes.truncate(waiting);
    *start = 0;
}

/// How many bytes a write took.
pub(crate) fn taken(put: Put) -> usize
    ensures { result ≡ taken put }
{
    match put {
        Put::Took(n) => n,
        Put::NotReady | Put::Silent | Put::Failed(_) | Put::OutOfMemory => 0,
    }
}
