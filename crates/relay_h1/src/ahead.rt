//! The bytes that were read from a link and not consumed yet.
ghost use Rattle.std.specs.Prelude.{◌≡◌, ◌≤◌, ◌==◌, ◌+◌, [], length, drop, take, vec_len, IfOk, OnOk, OnErr};
ghost use Rattle.relay_h1.specs.HeadEnd.{head_end};
ghost use Rattle.relay_links.specs.Link.{Reads};
ghost use Rattle.relay_h1.specs.Move.{ReadsMore, given, read_size};

use crate::head::find_from;
use relay_links::{ByteLink, Got};
use std::alloc::{AllocError, Global};
use std::marker::Model;

/// How many bytes one read of a link asks for.
pub const READ_SIZE: usize = 16_384;

/// The bytes that were read ahead from one link, seen as the list of those not consumed yet.
#[derive(Drop)]
pub struct Ahead {
    // All of it is initialised; the bytes ahead lie from `start` to `end`.
    buffer: Vec<u8>,
    start: usize,
    end: usize,
    // How many bytes at the front are known to begin no CR LF CR LF.
    searched: usize,
}

impl Model for Ahead {
    ghost use Rattle.std.specs.Prelude.{List, ℕ, slice_range};
    ghost use Rattle.relay_h1.specs.Ahead.{IsAhead};

    ghost Value = { List ℕ };

    ghost view = { λ a. slice_range a.buffer.items a.start a.end };

    ghost invariant = { λ a. IsAhead a.buffer.items a.start a.end a.searched };
}

impl Ahead {
    /// No bytes. It takes no memory before it is read into.
    pub fn new(alloc: Global) -> Ahead
        ensures { result ≡ [] }
    {
        Ahead {
            buffer: Vec::new(alloc),
            start: 0,
            end: 0,
            searched: 0,
        }
    }

    /// The bytes, in the order in which the link gave them.
    pub fn bytes(&self) -> &[u8]
        ensures { result.now ≡ self.now }
    {
        &self.buffer.as_slice()[self.start..self.end]
    }

    /// How many bytes there are.
    pub fn len(&self) -> usize
        ensures { result ≡ length self.now }
    {
        self.end - self.start
    }

    /// Whether there are none.
    pub fn is_empty(&self) -> bool
        ensures { result ≡ (length self.now == 0) }
    {
        self.start == self.end
    }

    /// Drops the first `n` bytes.
    pub fn consume(&mut self, n: usize)
        requires { n ≤ length self.old }
        ensures { self.new ≡ drop n self.old }
    {
        self.start += n;
        self.searched = self.searched.saturating_sub(n);
    }

    /// The place after the first CR LF CR LF. Over all calls each byte is looked at once, but for
    /// the last three of those that were there at the call before.
    pub fn head_end(&mut self) -> Option<usize>
        ensures place { result ≡ head_end self.old }
        ensures same { self.new ≡ self.old }
    {
        match find_from(self.bytes(), self.searched) {
            Some(place) => Some(place),
            None => {
                self.searched = (self.end - self.start).saturating_sub(3);
                None
            }
        }
    }

    /// One read of the link, for up to 16,384 bytes. Their memory is taken first: where it is
    /// wanted, nothing changes and the link is not called.
    pub fn read_from<L: ByteLink>(&mut self, link: &mut L) -> Result<Got, AllocError>
        ensures ok { IfOk result
            (ReadsMore (L.state link.old) (L.state link.new) self.old self.new) }
        ensures start { L.start link.new ≡ L.start link.old }
        ensures err { OnErr result ((self.new ≡ self.old) × (link.new ≡ link.old)) }
    {
        self.move_to_front();
        let end = self.end;
        grow_to(&mut self.buffer, end + READ_SIZE)?;
        let got = read_behind(link, &mut self.buffer, end);
        self.end += given(got);
        Ok(got)
    }

    /// Moves the bytes to the front of the buffer, where the room behind them is too small.
    fn move_to_front(&mut self)
        ensures { self.new ≡ self.old }
    {
        if self.start == 0 || self.buffer.len() - self.end >= READ_SIZE {
            return;
        }
        self.buffer
            .as_mut_slice()
            .copy_within(self.start..self.end, 0);
        self.end -= self.start;
        self.start = 0;
    }
}

/// One read of the link into the buffer, behind its first `end` bytes.
fn read_behind<L: ByteLink>(link: &mut L, buffer: &mut Vec<u8>, end: usize) -> Got
    requires { end + READ_SIZE ≤ vec_len buffer.old }
    ensures answer { ReadsMore (L.state link.old) (L.state link.new)
        (take end buffer.old.items) (take (end + given result) buffer.new.items) result }
    ensures start { L.start link.new ≡ L.start link.old }
    ensures within { end + given result ≤ vec_len buffer.new }
{
    ask(link, &mut buffer.as_mut_slice()[end..end + READ_SIZE])
}

/// One read of the link. Each has room for `READ_SIZE` bytes.
fn ask<L: ByteLink>(link: &mut L, room: &mut [u8]) -> Got
    requires { length room.old ≡ read_size }
    ensures answer { Reads (L.state link.old) room.new (L.state link.new) result }
    ensures start { L.start link.new ≡ L.start link.old }
{
    link.read(room)
}

/// How many bytes a read gave.
fn given(got: Got) -> usize
    ensures { result ≡ given got }
{
    match got {
        Got::Bytes(n) => n,
        Got::NotReady | Got::Silent | Got::End | Got::Failed(_) => 0,
    }
}

/// Lengthens the buffer to `size` at least, by zeros at its end.
fn grow_to(buffer: &mut Vec<u8>, size: usize) -> Result<(), AllocError>
    ensures ok { OnOk result (size ≤ vec_len buffer.new) }
    ensures front { take (vec_len buffer.old) buffer.new.items ≡ buffer.old.items }
    ensures err { OnErr result (buffer.new.items ≡ buffer.old.items) }
{
    if buffer.len() >= size {
        return Ok(());
    }
    buffer.resize(size, 0)
}
