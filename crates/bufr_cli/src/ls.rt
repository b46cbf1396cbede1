//! The command `bufr ls`, which lists the messages in a stream.
ghost use Rattle.std.specs.Prelude.{false, refl};
ghost use Rattle.bufr_frame.specs.Prelude.{MakesReads};
ghost use Rattle.bufr_cli.specs.Prelude.{LeavesDevices, event_pieces, ls_piece, input_of, writers_of};

use crate::fault_line::{StreamFault, write_fault};
use crate::outcome::{Tally, Verdict};
use crate::run_events::{MessageWriter, run_events};
use bufr_bits::{Sink, Source};
use bufr_frame::{Message, RunFault};
use bufr_text::write_ls;
use std::alloc::Global;

/// A message writer that writes one line per message.
#[derive(Drop)]
struct LsRun;

impl MessageWriter for LsRun {
    ghost piece = { λ _. ls_piece };

    ghost takes_memory = { λ _. false };

    ghost strays = { λ _ offset cause. refl };

    #[inline(never)]
    // rule: one-fault-a-message
    fn write_message<W: Sink, E: Sink>(
        &mut self,
        offset: u64,
        octets: &[u8],
        w: &mut W,
        e: &mut E,
    ) -> Result<Verdict, RunFault> {
        match Message::parse(octets) {
            Ok(message) => {
                write_ls(offset, &message, w)?;
                Ok(Verdict::Accepted)
            }
            Err(fault) => {
                write_fault(offset, StreamFault::Section(fault), e)?;
                Ok(Verdict::Refused)
            }
        }
    }
}

/// Lists the messages in `r`, writing one line to `w` for each message.
///
/// Messages are listed in stream order, each as soon as enough input has been read to identify it.
/// For each stray `BUFR`, and for each message that cannot be split into its sections, a fault line
/// is written to `e` instead. At the end, both writers are flushed (`w` first).
///
/// ```
/// let mut r = Device::new(b"BUFR".as_slice());
/// let mut w = Device::new(Vec::new(rt.alloc()));
/// let mut e = Device::new(Vec::new(rt.alloc()));
/// let tally = run_ls(rt.alloc(), &mut r, &mut w, &mut e)?; // `e` contains `offset 0: 1 cut`
/// assert_eq!(rt; tally.refused, 1);
/// ```
///
/// # Errors
///
/// [`RunFault::Read`] if a read fails, [`RunFault::InputTooLong`] if the end of input is not
/// reached within 2^32 reads, and [`RunFault::Memory`] if memory runs out. In each case, the lines
/// for all messages and strays found so far have been written. [`RunFault::Write`] if a writer
/// fails or accepts no octets. In that case, the output may be truncated.
// rule: input-without-bufr
pub fn run_ls<R: Source, W: Sink, E: Sink>(
    alloc: Global,
    r: &mut R,
    w: &mut W,
    e: &mut E,
) -> Result<Tally, RunFault>
    // If the run completes and its whole input is known, the run writes exactly the pieces for that
    // input, and the tally counts them.
    ensures leaves { LeavesDevices (event_pieces ls_piece)
        (input_of R.Source r.old) (input_of R.Source r.new)
        (writers_of W.Sink w.old E.Sink e.old) (writers_of W.Sink w.new E.Sink e.new) result }
    ensures reads { MakesReads (R.reads r.old) (R.reads r.new) result }
{
    run_events(alloc, LsRun, r, w, e)
}
