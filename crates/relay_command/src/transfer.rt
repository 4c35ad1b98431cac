//! Reading a source to its end, and writing a text to a sink.
ghost use Rattle.std.specs.Prelude.{◌<◌, length};
ghost use Rattle.relay_command.specs.Transfer.{ReadsIn, PullsIn, WritesOut};

use relay_links::{Read, Sink, Source, Wrote};
use std::alloc::Global;

/// How many bytes of a source are read at most.
pub const INPUT_LIMIT: usize = 16_777_216;

/// What reading a source came to.
#[derive(Drop)]
pub enum Input {
    /// The source has ended, and these are all its bytes.
    Whole(Vec<u8>),
    /// The source gave more bytes than are read.
    TooLong,
    /// A read failed.
    Failed,
    OutOfMemory,
}

/// What one read of a source came to.
#[derive(Clone, Copy, PartialEq, Eq)]
enum Pulled {
    /// Some bytes came.
    More,
    /// The source has ended.
    End,
    /// The read failed.
    Failed,
    OutOfMemory,
}

/// What writing a text to a sink came to.
#[derive(Clone, Copy, Debug, PartialEq, Eq)]
pub enum Output {
    /// The sink took all of it.
    Done,
    /// A write failed.
    Failed,
    OutOfMemory,
}

/// Reads the source to its end.
pub fn read_all<S: Source>(alloc: Global, source: &mut S) -> Input
    ensures { ReadsIn (S.state source.old) (S.state source.new) result }
{
    let mut room = [0; 16384];
    let mut text = Vec::new(alloc);
    while text.len() <= INPUT_LIMIT {
        match pull(source, &mut room, &mut text) {
            Pulled::More => {}
            Pulled::End => return Input::Whole(text),
            Pulled::Failed => return Input::Failed,
            Pulled::OutOfMemory => return Input::OutOfMemory,
        }
    }
    Input::TooLong
}

/// Reads once; what comes goes to the end of the text.
fn pull<S: Source>(source: &mut S, room: &mut [u8], text: &mut Vec<u8>) -> Pulled
    requires { 0 < length room.old }
    ensures { PullsIn (S.state source.old) (S.state source.new)
        text.old.items text.new.items result }
{
    match source.read(room) {
        Read::Bytes(count) => {
            if text.extend_from_slice(&room[..count]).is_err() {
                return Pulled::OutOfMemory;
            }
            Pulled::More
        }
        Read::End => Pulled::End,
        Read::Failed => Pulled::Failed,
    }
}

/// Writes all of the text to the sink.
pub fn write_all<T: Sink>(sink: &mut T, text: &[u8]) -> Output
    ensures { WritesOut (T.state sink.old) (T.state sink.new) text.now result }
{
    let mut done = 0;
    while done < text.len() {
        match sink.write(&text[done..]) {
            Wrote::Took(count) => done += count,
            Wrote::Failed => return Output::Failed,
            Wrote::OutOfMemory => return Output::OutOfMemory,
        }
    }
    Output::Done
}
