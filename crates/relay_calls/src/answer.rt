//! The answer of a filter, taken apart: its error, and what it answered beside. Out of memory is
//! split off, since such a call has no entry.
ghost use Rattle.std.specs.Prelude.{◌≡◌};
ghost use Rattle.relay_calls.specs.Calls.{outcome_of, delay_of, reply_of};

use bytes::Bytes;
use relay_tasks::{Error, Fail, Result};

/// What a filter of trailer fields answered: the bytes that end the body in their place, or its
/// error.
#[derive(Drop)]
pub struct Reply {
    pub bytes: Option<Bytes>,
    pub error: Option<Error>,
}

/// The error of an answer, or none. Fails out of memory alone, where the answer does.
#[inline(always)]
pub fn error_of<T>(answer: &Result<T>) -> Result<Option<Error>>
    ensures { result ≡ outcome_of answer.now }
{
    match answer {
        Ok(_) => Ok(None),
        Err(Fail::Error(error)) => Ok(Some(*error)),
        Err(Fail::OutOfMemory) => Err(Fail::OutOfMemory),
    }
}

/// The delay in milliseconds that a filter of pieces answered, or none.
#[inline(always)]
pub(crate) fn delay_of(answer: &Result<Option<u64>>) -> Option<u64>
    ensures { result ≡ delay_of answer.now }
{
    match answer {
        Ok(delay) => *delay,
        Err(_) => None,
    }
}

/// The bytes and the error of an answer. Fails out of memory alone, where the answer does.
pub(crate) fn reply_of(answer: Result<Option<Bytes>>) -> Result<Reply>
    ensures { result ≡ reply_of answer }
{
    match answer {
        Ok(bytes) => Ok(Reply { bytes, error: None }),
        Err(Fail::Error(error)) => Ok(Reply {
            bytes: None,
            error: Some(error),
        }),
        Err(Fail::OutOfMemory) => Err(Fail::OutOfMemory),
    }
}
