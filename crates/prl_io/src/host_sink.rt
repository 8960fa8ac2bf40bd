//! Standard output or error, or any other writer.

ghost use Rattle.std.specs.Prelude.{None, ◌≡◌, ◌+◌, length};

use super::mentions::Mentions;
use super::writing::{Failed, Sink};
use std::io::Write;

/// A writer that is flushed at each write. The bytes that were written are not known. A fault is each
/// error of a write or a flush, and a write that takes no byte of a piece that has some.
#[derive(Drop)]
pub struct HostSink<W: Write + Drop> {
    writer: W,
    failed: Mentions,
}

impl<W: Write + Drop> HostSink<W> {
    /// A sink over this writer. It takes no memory.
    pub fn new(writer: W) -> HostSink<W>
        ensures { (⟦<HostSink<W> as Sink>⟧.seen result).faults ≡ 0 }
    {
        HostSink {
            writer,
            failed: Mentions::new(),
        }
    }

    fn fault(&mut self, piece: &[u8]) -> Failed
        ensures { length self.new.failed.all ≡ length self.old.failed.all + 1 }
    {
        self.failed = Mentions::one_more(&self.failed, piece);
        Failed
    }
}

impl<W: Write + Drop> Sink for HostSink<W> {
    ghost seen = { λ s. record { written = None; faults = length s.failed.all } };

    fn write(&mut self, piece: &[u8]) -> Result<usize, Failed> {
        let count = match self.writer.write(piece) {
            Ok(count) => count,
            Err(_) => return Err(self.fault(piece)),
        };
        if count == 0 && !piece.is_empty() {
            return Err(self.fault(piece));
        }
        match self.writer.flush() {
            Ok(()) => Ok(count),
            Err(_) => Err(self.fault(piece)),
        }
    }
}
