//! A link with the bytes that were read ahead from it, and what is kept for its next request.
ghost use Rattle.std.specs.Prelude.{◌≡◌, ◌≤◌, ◌<◌, ◌++◌, ℕ, List, [], length, drop, None, Some, IfOk, OnErr, option_copied};
ghost use Rattle.relay_h1.specs.Move.{ReadsMore, WritesOut};
ghost use Rattle.relay_h1.specs.BodyReader.{Answers, IsExact, Takes, piece_of, SoFar, Tells};
ghost use Rattle.relay_h1.specs.declared.framing.Framing.{Framing};
ghost use Rattle.relay_h1.specs.Verdict.{JudgesRequest};

use crate::ahead::Ahead;
use crate::body_reader::{BodyReader, Cut};
use crate::output::Output;
use crate::verdict::{RequestRead, judge_request};
use relay_links::{ByteLink, Got, Put};
use relay_tasks::Result;
use std::alloc::{AllocError, Global};

/// A link, the bytes that were read ahead from it, and the value that is kept for the next
/// request on it.
#[derive(Drop)]
pub struct Connection<D, U> {
    link: D,
    ahead: Ahead,
    kept: Option<U>,
}

impl<D, U> Connection<D, U> {
    /// A connection over the link: nothing is read ahead, and nothing is kept.
    pub fn new(alloc: Global, link: D) -> Connection<D, U>
        ensures link { result.link ≡ link }
        ensures ahead { result.ahead ≡ [] }
        ensures kept { result.kept ≡ None }
    {
        Connection {
            link,
            ahead: Ahead::new(alloc),
            kept: None,
        }
    }

    /// The link.
    pub fn link(&self) -> &D
        ensures { result.now ≡ self.now.link }
    {
        &self.link
    }

    /// The bytes that were read ahead.
    pub fn ahead(&self) -> &[u8]
        ensures { result.now ≡ self.now.ahead }
    {
        self.ahead.bytes()
    }

    /// The value that is kept for the next request.
    pub fn kept(&self) -> Option<&U>
        ensures { option_copied result ≡ self.now.kept }
    {
        self.kept.as_ref()
    }

    /// Takes the kept value out.
    pub fn take_kept(&mut self) -> Option<U>
        ensures value { result ≡ self.old.kept }
        ensures after { self.new ≡ record self.old { kept = None } }
    {
        self.kept.take()
    }

    /// Drops the first `n` of the bytes that were read ahead.
    pub fn consume(&mut self, n: usize)
        requires { n ≤ length self.old.ahead }
        ensures { self.new ≡ record self.old { ahead = drop n self.old.ahead } }
    {
        self.ahead.consume(n);
    }

    /// The request head at the front of the bytes that were read ahead, as in `judge_request`.
    pub fn judge_request(&mut self, alloc: Global) -> Result<Option<RequestRead>>
        ensures verdict { JudgesRequest self.old.ahead result }
        ensures same { self.new ≡ self.old }
    {
        judge_request(alloc, &mut self.ahead)
    }
}

impl<D, U> Connection<D, U> {
    /// Takes a piece of the body at the front of the bytes that were read ahead, as
    /// `BodyReader::take` does.
    pub fn take_body(&mut self, alloc: Global, reader: &mut BodyReader) -> Cut
        ensures answer { Answers reader.old self.old.ahead reader.new self.new.ahead result }
        ensures exact { IsExact reader.old self.old.ahead result }
        ensures takes { Takes reader.old self.old.ahead (piece_of result) reader.new
            self.new.ahead }
        ensures keeps { (framing : Framing) (given body : List ℕ)
            → SoFar framing given body reader.old self.old.ahead
            → SoFar framing given (body ++ piece_of result) reader.new self.new.ahead }
        ensures tells { (framing : Framing) (given body : List ℕ)
            → SoFar framing given body reader.old self.old.ahead
            → Tells framing given (body ++ piece_of result) (length self.new.ahead) result }
        ensures same { self.new ≡ record self.old { ahead = self.new.ahead } }
    {
        reader.take(alloc, &mut self.ahead)
    }
}

impl<D, U: Drop> Connection<D, U> {
    /// Keeps the value for the next request, in place of the one that was kept.
    pub fn set_kept(&mut self, value: U)
        ensures { self.new ≡ record self.old { kept = Some value } }
    {
        self.kept = Some(value);
    }

    /// The link alone. What was read ahead and what was kept is dropped.
    pub fn into_link(self) -> D
        ensures { result ≡ self.link }
    {
        let Connection {
            link,
            ahead: _,
            kept: _,
        } = self;
        link
    }
}

impl<D: ByteLink, U> Connection<D, U> {
    /// One read of the link, behind the bytes that were read ahead. Where memory is wanted,
    /// nothing changes and the link is not called.
    pub fn read_more(&mut self) -> std::result::Result<Got, AllocError>
        ensures ok { IfOk result
            (ReadsMore (D.state self.old.link) (D.state self.new.link) self.old.ahead
            self.new.ahead) }
        ensures start { D.start self.new.link ≡ D.start self.old.link }
        ensures kept { self.new.kept ≡ self.old.kept }
        ensures err { OnErr result (self.new ≡ self.old) }
    {
        self.ahead.read_from(&mut self.link)
    }

    /// One write of all the bytes that wait in the output, which are some. What the link takes
    /// leaves them.
    pub fn write_out(&mut self, output: &mut Output) -> Put
        requires { 0 < length output.old }
        ensures answer { WritesOut (D.state self.old.link) (D.state self.new.link) output.old
            output.new result }
        ensures start { D.start self.new.link ≡ D.start self.old.link }
        ensures same { (self.new.ahead ≡ self.old.ahead) × (self.new.kept ≡ self.old.kept) }
    {
        output.write_to(&mut self.link)
    }
}
