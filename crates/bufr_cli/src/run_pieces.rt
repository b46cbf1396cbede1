//! The main loop of a run, which writes the output one piece at a time.
ghost use Rattle.std.specs.Prelude.{◌≡◌, ◌≢◌, ◌≤◌, ℕ, Bool, true, false, Ok, Err, OnOk, IfErr};
ghost use Rattle.std.specs.Io.KnownBytes.{Keeps};
ghost use Rattle.bufr_bits.specs.Prelude.{counted};
ghost use Rattle.bufr_frame.specs.Prelude.{AddsReads, read_failures_after};
ghost use Rattle.bufr_cli.specs.Prelude.{BlamesWriter, CountsCalls, CountsRead, FlushesIf, FlushesBoth, FlushesWritten, LeavesDevices, Progress, ReadsOctets, RunPieces, RunReads, StopsPiece, TakesStep, input_of, no_progress, unflushed_after, writer_of, writers_of};

use crate::outcome::{Tally, Verdict};
use bufr_bits::{Sink, Source};
use bufr_frame::RunFault;

/// The result of one step of a run.
#[derive(Clone, Copy)]
pub enum RunStep {
    /// A piece of output was written.
    Piece(Verdict),
    /// A read is needed before the next step.
    Read,
    /// There are no more pieces to write.
    End,
}

/// A type that writes the output for an input, one piece at a time.
pub trait PieceWriter {
    /// The pieces of output to write for an input.
    ghost pieces: { Self → RunPieces };

    /// Whether writing a piece may allocate memory.
    ghost takes_memory: { Self → Bool };

    /// The number of reads made so far.
    ghost reads: { Self → ℕ };

    /// Whether the given `Progress` describes the input read and the output written so far.
    ghost reaches: { Self → Progress → Type 0 };

    /// Whether a read is needed before the next piece can be written.
    ghost needs_read: { Self → Type 0 };

    /// Writes the next piece if enough input has been read to determine it.
    ///
    /// # Errors
    ///
    /// [`RunFault::Write`] if a writer fails or accepts no octets, and [`RunFault::Memory`] if
    /// memory runs out. In either case, the piece may be truncated.
    fn write_next<W: Sink, E: Sink>(&mut self, w: &mut W, e: &mut E) -> Result<RunStep, RunFault>
        requires begun { (so : Progress) × reaches self.old so }
        ensures next { (so : Progress) → reaches self.old so
            → TakesStep (pieces self.old) (reaches self.new) so
            (writers_of W.Sink w.old E.Sink e.old) (writers_of W.Sink w.new E.Sink e.new) result }
        ensures needs { result ≡ Ok RunStep.Read → needs_read self.new }
        ensures stops { StopsPiece (takes_memory self.old) result }
        ensures unread { reads self.new ≡ reads self.old }
        ensures same { pieces self.new ≡ pieces self.old }
        ensures memory { takes_memory self.new ≡ takes_memory self.old }
        ensures counts { BlamesWriter (writers_of W.Sink w.old E.Sink e.old)
            (writers_of W.Sink w.new E.Sink e.new) result }
        ensures output_flushes { W.flushes w.new ≡ W.flushes w.old }
        ensures errors_flushes { E.flushes e.new ≡ E.flushes e.old };

    /// Reads once from `r`, which must be the same input in every call. Call this function only if
    /// a read is needed.
    ///
    /// # Errors
    ///
    /// [`RunFault::Read`] if the read fails, [`RunFault::InputTooLong`] if 2^32 reads have already
    /// been made, and [`RunFault::Memory`] if memory runs out. If this function fails, it has read
    /// no octets.
    fn read_more<R: Source>(&mut self, r: &mut R) -> Result<(), RunFault>
        requires { needs_read self.old }
        ensures reads_on { (so : Progress) → so.left ≡ R.left r.old → reaches self.old so
            → ReadsOctets (reaches self.new) so (R.left r.new) result }
        ensures counts { AddsReads (R.reads r.old) (R.reads r.new) (reads self.old)
            (reads self.new) }
        ensures made { CountsRead (reads self.old) (reads self.new) result }
        ensures failed { R.failures r.new ≡ read_failures_after (R.failures r.old) result }
        ensures sure { R.waits r.old ≡ false → result ≢ Err RunFault.Read }
        ensures same { pieces self.new ≡ pieces self.old }
        ensures memory { takes_memory self.new ≡ takes_memory self.old };
}

/// Flushes a writer.
pub(crate) fn flush<W: Sink>(w: &mut W) -> Result<(), RunFault>
    ensures keeps { Keeps (W.taken w.old) (W.taken w.new) }
    ensures made { (W.flushes w.new).made ≤ counted (W.flushes w.old).made 1 }
    ensures failed { OnOk result ((W.flushes w.new).failed ≡ (W.flushes w.old).failed) }
    ensures all_flushed { OnOk result (W.all_flushed w.new ≡ true) }
    ensures err { IfErr result (λ fault. fault ≡ RunFault.Write) }
    ensures counts { CountsCalls (writer_of W.Sink w.old) (writer_of W.Sink w.new) result }
{
    match w.flush() {
        Ok(()) => Ok(()),
        Err(_) => Err(RunFault::Write),
    }
}

/// Flushes the output and then the error output.
fn flush_both<W: Sink, E: Sink>(w: &mut W, e: &mut E) -> Result<(), RunFault>
    ensures flushed { FlushesBoth (writers_of W.Sink w.old E.Sink e.old)
        (writers_of W.Sink w.new E.Sink e.new) result }
{
    flush(w)?;
    flush(e)
}

/// Records which writers still have unflushed output from this run.
#[derive(Clone, Copy)]
pub(crate) struct Unflushed {
    output: bool,
    errors: bool,
}

impl Unflushed {
    fn note(&mut self, verdict: Verdict)
        ensures { self.new ≡ unflushed_after self.old verdict }
    {
        match verdict {
            Verdict::Accepted => self.output = true,
            Verdict::Refused => self.errors = true,
        }
    }
}

/// Flushes a writer if something was written to it.
fn flush_if<W: Sink>(written: bool, w: &mut W) -> Result<(), RunFault>
    ensures { FlushesIf written (writer_of W.Sink w.old) (writer_of W.Sink w.new) result }
{
    if written {
        return flush(w);
    }
    Ok(())
}

/// If the next read from `r` may block, flushes each writer that has been written to since its last
/// flush.
fn flush_before_read<R: Source, W: Sink, E: Sink>(
    r: &R,
    unflushed: &mut Unflushed,
    w: &mut W,
    e: &mut E,
) -> Result<(), RunFault>
    ensures { FlushesWritten (R.waits r.now) unflushed.old unflushed.new
        (writers_of W.Sink w.old E.Sink e.old) (writers_of W.Sink w.new E.Sink e.new) result }
{
    if r.may_wait() {
        flush_if(unflushed.output, w)?;
        flush_if(unflushed.errors, e)?;
        *unflushed = Unflushed {
            output: false,
            errors: false,
        };
    }
    Ok(())
}

/// Writes each piece of output as soon as enough input has been read from `r` to determine it.
/// Before a read that may block, flushes each writer that has been written to since its last flush.
/// At the end, flushes both writers.
// rule: output-in-order, fault-line-not-written, input-not-read, reader-gone
pub(crate) fn run_pieces<P: PieceWriter, R: Source, W: Sink, E: Sink>(
    next: &mut P,
    r: &mut R,
    w: &mut W,
    e: &mut E,
) -> Result<Tally, RunFault>
    requires fresh { P.reaches next.old (no_progress (R.left r.old)) }
    requires unread { P.reads next.old ≡ 0 }
    ensures leaves { LeavesDevices (P.pieces next.old) (input_of R.Source r.old)
        (input_of R.Source r.new) (writers_of W.Sink w.old E.Sink e.old)
        (writers_of W.Sink w.new E.Sink e.new) result }
    ensures reads { RunReads (P.takes_memory next.old) (R.reads r.old) (R.reads r.new) result }
{
    let mut tally = Tally {
        accepted: 0,
        refused: 0,
    };
    let mut unflushed = Unflushed {
        output: false,
        errors: false,
    };
    loop {
        match next.write_next(w, e)? {
            RunStep::Piece(verdict) => {
                tally.count(verdict);
                unflushed.note(verdict);
            }
            RunStep::Read => {
                flush_before_read(r, &mut unflushed, w, e)?;
                next.read_more(r)?;
            }
            RunStep::End => break,
        }
    }
    flush_both(w, e)?;
    Ok(tally)
}
