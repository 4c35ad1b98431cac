//! A sink into a writer, as standard output. It tells no content.
ghost use Rattle.std.specs.Prelude.{◌≡◌, None};
ghost use Rattle.relay_links.specs.StdSink.{writer_state};

use crate::sink::{Sink, Wrote};
use std::io;

/// Puts what it takes into a writer. It tells no content, and counts each error of the writer; a
/// writer that takes nothing counts as one.
#[derive(Drop)]
pub struct StdSink<W> {
    writer: W,
    faults: u64,
}

impl<W: io::Write + Drop> StdSink<W> {
    /// A sink into that writer, as `io::writer(&rt)`.
    pub fn new(writer: W) -> StdSink<W>
        ensures { writer_state result ≡ record { taken = None; faults = 0 } }
    {
        StdSink { writer, faults: 0 }
    }
}

impl<W: io::Write + Drop> Sink for StdSink<W> {
    ghost state = { writer_state };

    fn write(&mut self, part: &[u8]) -> Wrote {
        let faults = self.faults;
        match self.writer.write(part) {
            Ok(0) | Err(_) => {
                self.faults = faults.saturating_add(1);
                Wrote::Failed
            }
            Ok(count) => Wrote::Took(count),
        }
    }

    fn faults(&self) -> u64 {
        self.faults
    }
}
