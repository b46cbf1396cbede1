//! A writer that stores text in memory.
ghost use Rattle.std.specs.Prelude.{◌≡◌, [], Some};
ghost use Rattle.bufr_text.specs.Prelude.{Writes};
ghost use Rattle.bufr_c.specs.Moving.{moved};

use bufr_bits::{Failed, Sink};
use bufr_frame::RunFault;
use bufr_text::LineWriter;
use std::alloc::Global;

/// The size, in octets, of the block in which the beginning of a line is assembled.
const LINE: usize = 64;

/// A [`Sink`] that stores text in memory. A write fails only if memory runs out.
#[derive(Drop)]
pub(crate) struct TextOut {
    pub(crate) octets: Vec<u8>,
    failures: u64,
    flushes: u64,
    all_flushed: bool,
}

impl TextOut {
    pub(crate) fn new(alloc: Global) -> TextOut
        ensures { result.octets.items ≡ [] }
    {
        TextOut {
            octets: Vec::new(alloc),
            failures: 0,
            flushes: 0,
            all_flushed: true,
        }
    }

    /// Clears the text without freeing its memory.
    pub(crate) fn clear(&mut self)
        ensures { self.new.octets.items ≡ [] }
    {
        self.octets.clear();
    }
}

impl Sink for TextOut {
    ghost taken = { λ t. Some t.octets.items };

    ghost failures = { λ t. t.failures };

    ghost empty_writes = { λ _. 0 };

    ghost flushes = { λ t. record { made = t.flushes; failed = 0 } };

    ghost all_flushed = { λ t. t.all_flushed };

    fn write(&mut self, buf: &[u8]) -> Result<usize, Failed> {
        if self.octets.extend_from_slice(buf).is_err() {
            self.failures = self.failures.saturating_add(1);
            return Err(Failed);
        }
        self.all_flushed = self.all_flushed && buf.is_empty();
        Ok(buf.len())
    }

    fn flush(&mut self) -> Result<(), Failed> {
        self.flushes = self.flushes.saturating_add(1);
        self.all_flushed = true;
        Ok(())
    }
}

/// Writes a line that reports offset 0, replacing the 0 with `offset`. Writes nothing if the line
/// has fewer than eight octets.
pub(crate) fn write_moved<W: Sink>(line: &[u8], offset: u64, out: &mut W) -> Result<(), RunFault>
    ensures { Writes (W.taken out.old) (W.taken out.new) (moved offset line.now) result }
{
    if line.len() < 8 {
        return Ok(());
    }
    let mut block = [0; LINE];
    let mut writer = LineWriter::new(&mut block, out);
    writer.push_named(&line[..7], offset);
    writer.push(&line[8..]);
    writer.flush_buf();
    let outcome = writer.status();
    let _ = writer.into_sink();
    outcome
}
