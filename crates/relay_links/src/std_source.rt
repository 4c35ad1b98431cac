//! A source over a reader, as standard input. It tells no content.
ghost use Rattle.std.specs.Prelude.{◌≡◌, None, false};
ghost use Rattle.relay_links.specs.StdSource.{reader_state};

use crate::source::{Read, Source};
use std::io;

/// Gives what a reader gives. It tells no content, and counts each error of the reader.
#[derive(Drop)]
pub struct StdSource<R> {
    reader: R,
    ended: bool,
    faults: u64,
}

impl<R: io::Read + Drop> StdSource<R> {
    /// A source over that reader, as `rt.reader()`.
    pub fn new(reader: R) -> StdSource<R>
        ensures { reader_state result
            ≡ record { given = None; left = None; ended = false; faults = 0 } }
    {
        StdSource {
            reader,
            ended: false,
            faults: 0,
        }
    }
}

impl<R: io::Read + Drop> Source for StdSource<R> {
    ghost state = { reader_state };

    fn read(&mut self, room: &mut [u8]) -> Read {
        let faults = self.faults;
        if self.ended {
            return Read::End;
        }
        match self.reader.read(room) {
            Ok(0) => {
                self.ended = true;
                Read::End
            }
            Ok(count) => Read::Bytes(count),
            Err(_) => {
                self.faults = faults.saturating_add(1);
                Read::Failed
            }
        }
    }

    fn faults(&self) -> u64 {
        self.faults
    }
}
