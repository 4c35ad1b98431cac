//! Reads the body behind a head, piece by piece (RFC 9112, sections 6.3 and 7.1).
ghost use Rattle.std.specs.Prelude.{◌≡◌, ◌↔◌, ℕ, ◌+◌, ◌≤◌, true, ◌||◌, List, [], ◌++◌, length, take, drop, IfSome, IfNone, OnOk, OnErr};
ghost use Rattle.relay_tasks.specs.Error.{refused};
ghost use Rattle.relay_h1.specs.Body.{ended_text, begins_with_crlf, crlf_end, trailer_end, IsLineOf};
ghost use Rattle.relay_h1.specs.BodyReader.{Reads, first_state, is_done, is_of, Takes, Passes, run, run_front, after_run, IsInRun, IsLine, TakesRun, Answers, IsExact, piece_of, SoFar, Tells, may_end, EndsThere};

use crate::ahead::Ahead;
use crate::framing::Framing;
use bytes::Bytes;
use httparse::{Status, parse_chunk_size};
use relay_tasks::{Context, Error, ErrorType, Fail};
use std::alloc::Global;
use std::marker::Model;

/// How many bytes a chunk line may have with its CR LF.
pub const MAX_LINE: usize = 1_024;

/// How many bytes the trailer lines may have, without the empty line behind them.
pub const MAX_TRAILER: usize = 65_536;

/// What one call takes of a body.
#[derive(Drop)]
pub enum Cut {
    /// Bytes of the body, one at least, and whether the body ends with them.
    Piece(Bytes, bool),
    /// The body has ended.
    End,
    /// The bytes ahead hold no byte of the body and no end.
    More,
    /// The body is broken, or memory is wanted.
    Failed(Fail),
}

/// Where the reader is in a body.
#[derive(Clone, Copy)]
pub(crate) enum State {
    /// Before a chunk line.
    ChunkLine,
    /// Inside a chunk, with so many bytes to come.
    Chunk(u64),
    /// Behind the bytes of a chunk.
    ChunkEnd,
    /// Behind the line of the last chunk.
    Trailer,
    /// Inside a body, with so many bytes to come.
    Length(u64),
    /// Inside a body that ends where the connection does.
    UntilClose,
    /// Inside a tunnel.
    Tunnel,
    /// Behind the body.
    Done,
}

/// What stands at the front of the bytes ahead, where the framing before it was passed.
#[derive(Clone, Copy)]
pub(crate) enum BodyFront {
    /// Bytes of the body.
    Run,
    /// The end of the body.
    End,
    /// Not enough to tell.
    More,
    /// What is no text of a body.
    Broken,
}

/// What stands at the front before a chunk.
#[derive(Clone, Copy)]
pub(crate) enum Line {
    /// A line that has not ended.
    Open,
    /// A line that is too long, or no chunk line.
    Broken,
    /// A chunk line of so many bytes, and the size that it gives.
    Chunk(usize, u64),
}

/// Where the reader is behind the framing that it passed, and what stands there.
#[derive(Clone, Copy)]
pub(crate) struct Passed {
    state: State,
    front: BodyFront,
}

/// Reads the body of one message out of the bytes that were read ahead.
#[derive(Drop)]
pub struct BodyReader {
    state: State,
}

impl Model for BodyReader {
    ghost use Rattle.relay_h1.specs.declared.body_reader.State.{State};

    ghost Value = { State };

    ghost view = { λ r. r.state };
}

impl BodyReader {
    /// A reader of a body with that framing, at its start.
    pub fn new(framing: Framing) -> BodyReader
        ensures place { result ≡ first_state framing }
        ensures starts { (ahead : List ℕ) → SoFar framing ahead [] result ahead }
    {
        BodyReader {
            state: first_state(framing),
        }
    }

    /// Takes the longest run of body bytes at the front of the bytes ahead, of one chunk at most.
    /// What stands before it, as the line of its chunk, is passed. A piece that completes a body
    /// with a length says that the body ends with it. Where the body has ended, `End` comes at each
    /// call, and nothing is taken any more.
    ///
    /// `InvalidHTTPHeader`, about `BadFraming`: the body is broken, and no byte of it stands before
    /// that place. The caller sets the side. Where memory is wanted for a piece, its bytes stay
    /// ahead, and what stands before them may be passed already.
    pub fn take(&mut self, alloc: Global, ahead: &mut Ahead) -> Cut
        ensures answer { Answers self.old ahead.old self.new ahead.new result }
        ensures exact { IsExact self.old ahead.old result }
        ensures takes { Takes self.old ahead.old (piece_of result) self.new ahead.new }
        ensures keeps { (framing : Framing) (given body : List ℕ)
            → SoFar framing given body self.old ahead.old
            → SoFar framing given (body ++ piece_of result) self.new ahead.new }
        ensures tells { (framing : Framing) (given body : List ℕ)
            → SoFar framing given body self.old ahead.old
            → Tells framing given (body ++ piece_of result) (length ahead.new) result }
    {
        let passed = pass_framing(self.state, ahead);
        self.state = passed.state;
        match passed.front {
            BodyFront::Run => self.take_run(alloc, ahead),
            BodyFront::End => Cut::End,
            BodyFront::More => Cut::More,
            BodyFront::Broken => Cut::Failed(Fail::Error(broken())),
        }
    }

    fn take_run(&mut self, alloc: Global, ahead: &mut Ahead) -> Cut
        ensures { TakesRun self.old ahead.old self.new ahead.new result }
    {
        let run = run(self.state, ahead.bytes());
        let len = run.len();
        match Bytes::copy_from_slice(alloc, run) {
            Ok(piece) => {
                ahead.consume(len);
                self.state = after_run(self.state, len);
                Cut::Piece(piece, self.is_done())
            }
            Err(_) => Cut::Failed(Fail::OutOfMemory),
        }
    }

    /// No byte comes any more. What ends with the stream has ended then.
    ///
    /// `ConnectionClosed`: the body has a length or comes in chunks, and has not ended. Then the
    /// reader stays as it is. The caller sets the side.
    pub fn end_of_stream(&mut self) -> std::result::Result<(), Error>
        ensures answer { (framing : Framing) → is_of framing self.old ≡ true
            → EndsThere (may_end framing || is_done self.old) result }
        ensures ok { OnOk result (self.new ≡ State.Done) }
        ensures err { OnErr result (self.new ≡ self.old) }
    {
        match self.state {
            State::Length(0) | State::UntilClose | State::Tunnel | State::Done => {
                self.state = State::Done;
                Ok(())
            }
            State::ChunkLine
            | State::Chunk(_)
            | State::ChunkEnd
            | State::Trailer
            | State::Length(_) => Err(Error::new(ErrorType::ConnectionClosed)),
        }
    }

    /// Whether the body has ended.
    pub fn is_done(&self) -> bool
        ensures place { result ≡ is_done self.now }
        ensures told { (result ≡ true) ↔ Reads self.now [] (ended_text [] 0) }
    {
        is_done(self.state)
    }
}

fn broken() -> Error
    ensures { result ≡ refused Context.BadFraming }
{
    Error::explain(ErrorType::InvalidHTTPHeader, Context::BadFraming)
}

fn first_state(framing: Framing) -> State
    ensures { result ≡ first_state framing }
{
    match framing {
        Framing::Empty => State::Done,
        Framing::Length(n) => State::Length(n),
        Framing::Chunked => State::ChunkLine,
        Framing::UntilClose => State::UntilClose,
        Framing::Tunnel => State::Tunnel,
    }
}

fn is_done(state: State) -> bool
    ensures { result ≡ is_done state }
{
    match state {
        State::Done => true,
        State::Length(left) => left == 0,
        State::ChunkLine
        | State::Chunk(_)
        | State::ChunkEnd
        | State::Trailer
        | State::UntilClose
        | State::Tunnel => false,
    }
}

/// The run of body bytes at the front, of one chunk at most.
fn run<'a>(state: State, bytes: &'a [u8]) -> &'a [u8]
    ensures { result.now ≡ run state bytes.now }
{
    match state {
        State::Chunk(left) | State::Length(left) => front(bytes, left),
        State::UntilClose | State::Tunnel => bytes,
        State::ChunkLine | State::ChunkEnd | State::Trailer | State::Done => &[],
    }
}

/// Where the reader is behind so many bytes of the run.
fn after_run(state: State, n: usize) -> State
    ensures { result ≡ after_run state n }
{
    match state {
        State::Chunk(left) => State::Chunk(left.saturating_sub(n as u64)),
        State::Length(left) => State::Length(left.saturating_sub(n as u64)),
        State::ChunkLine
        | State::ChunkEnd
        | State::Trailer
        | State::UntilClose
        | State::Tunnel
        | State::Done => state,
    }
}

/// Passes the framing before the next byte of the body.
fn pass_framing(state: State, ahead: &mut Ahead) -> Passed
    ensures { Passes state ahead.old result ahead.new }
{
    match state {
        State::ChunkLine => pass_line(ahead),
        State::Chunk(0) => pass_chunk_end(ahead),
        State::Chunk(left) => stay_in_run(State::Chunk(left), ahead),
        State::ChunkEnd => pass_chunk_end(ahead),
        State::Trailer => pass_trailer(ahead),
        State::Length(0) => stay(State::Length(0), BodyFront::End),
        State::Length(left) => stay_in_run(State::Length(left), ahead),
        State::UntilClose => stay_in_run(State::UntilClose, ahead),
        State::Tunnel => stay_in_run(State::Tunnel, ahead),
        State::Done => stay(State::Done, BodyFront::End),
    }
}

/// No framing stands inside a run.
fn stay_in_run(state: State, ahead: &Ahead) -> Passed
    requires { IsInRun state }
    ensures { Passes state ahead.now result ahead.now }
{
    stay(state, run_front(ahead))
}

/// What stands at the front inside a run.
fn run_front(ahead: &Ahead) -> BodyFront
    ensures { result ≡ run_front ahead.now }
{
    if ahead.is_empty() {
        return BodyFront::More;
    }
    BodyFront::Run
}

/// Passes the CR LF behind the bytes of a chunk, and what comes before the next byte.
fn pass_chunk_end(ahead: &mut Ahead) -> Passed
    ensures { Passes State.ChunkEnd ahead.old result ahead.new }
{
    if ahead.len() < 2 {
        return stay(State::ChunkEnd, BodyFront::More);
    }
    if !begins_with_crlf(ahead.bytes()) {
        return stay(State::ChunkEnd, BodyFront::Broken);
    }
    ahead.consume(2);
    pass_line(ahead)
}

/// Passes a chunk line, and the trailer section where it is that of the last chunk.
fn pass_line(ahead: &mut Ahead) -> Passed
    ensures { Passes State.ChunkLine ahead.old result ahead.new }
{
    match find_line(ahead.bytes()) {
        Line::Open => stay(State::ChunkLine, BodyFront::More),
        Line::Broken => stay(State::ChunkLine, BodyFront::Broken),
        Line::Chunk(len, 0) => {
            ahead.consume(len);
            pass_trailer(ahead)
        }
        Line::Chunk(len, size) => {
            ahead.consume(len);
            stay_in_run(State::Chunk(size), ahead)
        }
    }
}

/// Passes the trailer section.
fn pass_trailer(ahead: &mut Ahead) -> Passed
    ensures { Passes State.Trailer ahead.old result ahead.new }
{
    match trailer_end(ahead) {
        Some(len) if len > MAX_TRAILER + 2 => stay(State::Trailer, BodyFront::Broken),
        Some(len) => {
            ahead.consume(len);
            stay(State::Done, BodyFront::End)
        }
        None if ahead.len() < MAX_TRAILER + 2 => stay(State::Trailer, BodyFront::More),
        None => stay(State::Trailer, BodyFront::Broken),
    }
}

fn stay(state: State, front: BodyFront) -> Passed
    ensures { result ≡ record { state = state; front = front } }
{
    Passed { state, front }
}

/// The place after the trailer section, where that has ended.
fn trailer_end(ahead: &mut Ahead) -> Option<usize>
    ensures place { result ≡ trailer_end ahead.old }
    ensures same { ahead.new ≡ ahead.old }
{
    if begins_with_crlf(ahead.bytes()) {
        return Some(2);
    }
    ahead.head_end()
}

fn begins_with_crlf(bytes: &[u8]) -> bool
    ensures { result ≡ begins_with_crlf bytes.now }
{
    bytes.starts_with(b"\r\n")
}

/// What stands at the front before a chunk. Of the bytes, no more than a line may have are looked
/// at.
fn find_line(bytes: &[u8]) -> Line
    ensures { IsLine bytes.now result }
{
    match crlf_end(front(bytes, MAX_LINE as u64)) {
        Some(len) => match line_size(front(bytes, len as u64)) {
            Some(size) => Line::Chunk(len, size),
            None => Line::Broken,
        },
        None if bytes.len() < MAX_LINE => Line::Open,
        None => Line::Broken,
    }
}

/// The place after the first CR LF.
fn crlf_end(bytes: &[u8]) -> Option<usize>
    ensures { result ≡ crlf_end bytes.now }
{
    let mut at = 0;
    while bytes.len() - at >= 2 {
        if has_crlf_at(bytes, at) {
            return Some(at + 2);
        }
        at += 1;
    }
    None
}

fn has_crlf_at(bytes: &[u8], at: usize) -> bool
    requires { at + 2 ≤ length bytes.now }
    ensures { result ≡ begins_with_crlf (drop at bytes.now) }
{
    bytes[at] == b'\r' && bytes[at + 1] == b'\n'
}

/// The size that a chunk line gives, where the text is one.
fn line_size(text: &[u8]) -> Option<u64>
    ensures size { IfSome result (IsLineOf text.now) }
    ensures none { IfNone result ((size : ℕ) → ¬ (IsLineOf text.now size)) }
{
    match parse_chunk_size(text) {
        Ok(Status::Complete((len, size))) if len == text.len() => Some(size),
        Ok(Status::Complete(_) | Status::Partial) | Err(_) => None,
    }
}

/// The first `most` of the bytes, or all where there are fewer.
fn front(bytes: &[u8], most: u64) -> &[u8]
    ensures { result.now ≡ take most bytes.now }
{
    if bytes.len() as u64 <= most {
        return bytes;
    }
    &bytes[..most as usize]
}
