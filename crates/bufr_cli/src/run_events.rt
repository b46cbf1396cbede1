//! The loop that passes each message in a stream to a message writer and reports stray `BUFR`
//! words.
ghost use Rattle.std.specs.Prelude.{◌≡◌, ◌≤◌, ℕ, Bool, length};
ghost use Rattle.bufr_frame.specs.Prelude.{StreamEvent, FrameAt, StrayAt, cause_report};
ghost use Rattle.bufr_frame.specs.declared.fault.Cause.{Cause};
ghost use Rattle.bufr_cli.specs.Prelude.{Piece, OnErrors, BlamesWriter, LeavesDevices, LeavesPiece, NeedsOctets, RunReads, StopsPiece, WritesEvents, event_pieces, fault_line, input_of, writers_of};

use crate::fault_line::write_stray;
use crate::outcome::{Tally, Verdict};
use crate::run_pieces::{PieceWriter, RunStep, run_pieces};
use bufr_bits::{Sink, Source};
use bufr_frame::{Event, Finder, RunFault};
use std::alloc::Global;

/// A type that writes the output for the messages in a stream. The fault lines for stray `BUFR`
/// words are written by `run_events`.
pub trait MessageWriter {
    /// The output for a message or a stray `BUFR`.
    ghost piece: { Self → StreamEvent → Piece };

    /// Whether writing a message may allocate memory.
    ghost takes_memory: { Self → Bool };

    /// The output for a stray `BUFR` is its fault line.
    ghost strays: { (s : Self) (offset : ℕ) (cause : Cause)
        → piece s (StrayAt offset cause) ≡ OnErrors (fault_line offset (cause_report cause)) };

    /// Writes the output for the message in `octets`, which begins at `offset` in the stream. The
    /// verdict indicates whether the output was written to `w` (accepted) or to `e` (rejected).
    ///
    /// # Errors
    ///
    /// [`RunFault::Write`] if a writer fails or accepts no octets, and [`RunFault::Memory`] if
    /// memory runs out. In either case, the output for the message may be truncated.
    fn write_message<W: Sink, E: Sink>(
        &mut self,
        offset: u64,
        octets: &[u8],
        w: &mut W,
        e: &mut E,
    ) -> Result<Verdict, RunFault>
        requires { 12 ≤ length octets.now }
        ensures reports { LeavesPiece (writers_of W.Sink w.old E.Sink e.old)
            (writers_of W.Sink w.new E.Sink e.new)
            (piece self.old (FrameAt offset octets.now)) result }
        ensures stops { StopsPiece (takes_memory self.old) result }
        ensures same { piece self.new ≡ piece self.old }
        ensures memory { takes_memory self.new ≡ takes_memory self.old }
        ensures counts { BlamesWriter (writers_of W.Sink w.old E.Sink e.old)
            (writers_of W.Sink w.new E.Sink e.new) result }
        ensures output_flushes { W.flushes w.new ≡ W.flushes w.old }
        ensures errors_flushes { E.flushes e.new ≡ E.flushes e.old };
}

/// The finder and the message writer that a run uses.
#[derive(Drop)]
struct EventRun<T> {
    finder: Finder,
    writer: T,
}

impl<T: MessageWriter> PieceWriter for EventRun<T> {
    ghost pieces = { λ s. event_pieces (T.piece s.writer) };

    ghost takes_memory = { λ s. T.takes_memory s.writer };

    ghost reads = { λ s. s.finder.reads };

    ghost reaches = { λ s so. WritesEvents (T.piece s.writer) s.finder so };

    ghost needs_read = { λ s. NeedsOctets s.finder };

    #[inline(always)]
    fn write_next<W: Sink, E: Sink>(&mut self, w: &mut W, e: &mut E) -> Result<RunStep, RunFault> {
        let verdict = match self.finder.next_held() {
            None => return Ok(RunStep::Read),
            Some(Err(fault)) => return Err(fault),
            Some(Ok(Event::Done)) => return Ok(RunStep::End),
            Some(Ok(Event::Stray(offset, cause))) => {
                write_stray(offset, cause, e)?;
                Verdict::Refused
            }
            Some(Ok(Event::Frame(offset, octets))) => {
                self.writer.write_message(offset, octets, w, e)?
            }
        };
        Ok(RunStep::Piece(verdict))
    }

    fn read_more<R: Source>(&mut self, r: &mut R) -> Result<(), RunFault> {
        self.finder.read_more(r)
    }
}

/// Writes the output for each message or stray `BUFR` in `r` as soon as enough input has been read
/// to identify it.
pub(crate) fn run_events<T: MessageWriter + Drop, R: Source, W: Sink, E: Sink>(
    alloc: Global,
    writer: T,
    r: &mut R,
    w: &mut W,
    e: &mut E,
) -> Result<Tally, RunFault>
    ensures leaves { LeavesDevices (event_pieces (T.piece writer)) (input_of R.Source r.old)
        (input_of R.Source r.new) (writers_of W.Sink w.old E.Sink e.old)
        (writers_of W.Sink w.new E.Sink e.new) result }
    ensures reads { RunReads (T.takes_memory writer) (R.reads r.old) (R.reads r.new) result }
{
    let mut run = EventRun {
        finder: Finder::new(alloc),
        writer,
    };
    run_pieces(&mut run, r, w, e)
}
