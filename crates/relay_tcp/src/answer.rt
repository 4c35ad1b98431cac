//! What a call of a socket means: the answer of a link that follows from what the socket gave.
ghost use Rattle.std.specs.Prelude.{◌≡◌};
ghost use Rattle.relay_tcp.specs.Answer.{trouble_of, would_block, stays_ready, sight_of, AnswersRead, AnswersWrite};

use relay_links::{Got, Put};
use relay_tasks::{Fault, FaultKind, RetryType};
use std::io;
use std::io::ErrorKind;

/// Why a call of a socket moved nothing.
#[derive(Clone, Copy)]
enum Trouble {
    /// Nothing moved now; a later call may move something.
    Wait,
    /// The far side did not answer in time.
    TimedOut,
    /// The connection is not there, or is broken.
    Broken,
}

impl Trouble {
    /// `Wait` where the call would block or was interrupted, `TimedOut` where it was timed out, and
    /// `Broken` for each other kind.
    fn of(kind: ErrorKind) -> Trouble
        ensures { result ≡ trouble_of kind }
    {
        match kind {
            ErrorKind::WouldBlock | ErrorKind::Interrupted => Trouble::Wait,
            ErrorKind::TimedOut => Trouble::TimedOut,
            _ => Trouble::Broken,
        }
    }
}

/// What a read of a socket means: 0 bytes are the end.
pub(crate) fn read_answer(read: io::Result<usize>) -> Got
    ensures { AnswersRead read result }
{
    match read {
        Ok(0) => Got::End,
        Ok(count) => Got::Bytes(count),
        Err(error) => match Trouble::of(error.kind()) {
            Trouble::Wait => Got::NotReady,
            Trouble::TimedOut => Got::Failed(of_link(FaultKind::ReadTimedout)),
            Trouble::Broken => Got::Failed(of_link(FaultKind::Read)),
        },
    }
}

/// What a write to a socket means: 0 bytes taken are a fault.
pub(crate) fn write_answer(written: io::Result<usize>) -> Put
    ensures { AnswersWrite written result }
{
    match written {
        Ok(0) => Put::Failed(of_link(FaultKind::Write)),
        Ok(count) => Put::Took(count),
        Err(error) => match Trouble::of(error.kind()) {
            Trouble::Wait => Put::NotReady,
            Trouble::TimedOut => Put::Failed(of_link(FaultKind::WriteTimedout)),
            Trouble::Broken => Put::Failed(of_link(FaultKind::Write)),
        },
    }
}

/// Whether a socket may move more at once, as far as a call shows that was offered so many bytes or
/// so much room. It may not after a call that would block, nor after one that moved fewer: these
/// leave nothing to read, or no room to write. An interrupted call shows nothing, and a fault or an
/// end is met again.
pub(crate) fn stays_ready(moved: &io::Result<usize>, offered: usize) -> bool
    ensures { result ≡ stays_ready moved.now offered }
{
    match moved {
        Ok(0) => true,
        Ok(count) => *count == offered,
        Err(error) => !would_block(error.kind()),
    }
}

/// What a look at an idle connection shows.
#[derive(Clone, Copy)]
pub(crate) enum Sight {
    /// It is open, and nothing came on it.
    Idle,
    /// Bytes came on it, which nobody had asked for.
    Unasked,
    /// It ended, or failed.
    Over,
}

impl Sight {
    /// By what a look at its first byte gave. An end, bytes and a failure are met at once; else the
    /// look would have to wait.
    pub(crate) fn of(seen: &io::Result<usize>) -> Sight
        ensures { result ≡ sight_of seen.now }
    {
        match seen {
            Ok(0) => Sight::Over,
            Ok(_) => Sight::Unasked,
            Err(error) if would_block(error.kind()) => Sight::Idle,
            Err(_) => Sight::Over,
        }
    }
}

/// Whether nothing can be moved until the poll tells of a change.
fn would_block(kind: ErrorKind) -> bool
    ensures { result ≡ would_block kind }
{
    match kind {
        ErrorKind::WouldBlock => true,
        _ => false,
    }
}

/// A fault of a link: another attempt may help where the connection had been used before.
fn of_link(kind: FaultKind) -> Fault
    ensures { result ≡ record { kind = kind; retry = RetryType.ReusedOnly } }
{
    Fault {
        kind,
        retry: RetryType::ReusedOnly,
    }
}
