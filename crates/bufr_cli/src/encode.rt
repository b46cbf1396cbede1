//! The command `bufr encode`, which encodes the documents in a dump as messages.
ghost use Rattle.std.specs.Prelude.{◌≡◌, true};
ghost use Rattle.bufr_text.specs.Prelude.{Complete};
ghost use Rattle.bufr_text.specs.declared.encode.Form.TheVariants.{AsWritten};
ghost use Rattle.bufr_cli.specs.Prelude.{LeavesDevices, result_piece, document_pieces, BlamesWriter, EncodesDocuments, LeavesPiece, NeedsText, StopsPiece, input_of, writers_of};

use crate::fault_line::{write_document_fault, write_read_fault};
use crate::outcome::{Tally, Verdict};
use crate::run_pieces::{PieceWriter, RunStep, run_pieces};
use bufr_bits::{Sink, Source};
use bufr_frame::RunFault;
use bufr_tables::{TableB, TableD};
use bufr_text::{Document, DocumentFault, DumpReader, Form, ReadFault, encode_by, write_all};
use bufr_walk::{Steps, TemplateCache};
use std::alloc::Global;

/// The state of a run, including the document reader, the form of the messages, and a template
/// cache.
#[derive(Drop)]
struct EncodeRun<'a> {
    alloc: Global,
    reader: DumpReader,
    form: Form,
    templates: TemplateCache<'a>,
    /// The verdict on the most recent document. The run stops if this document was rejected.
    last: Verdict,
}

/// Encodes a document and writes the message to `w`. If the document is rejected, writes a fault
/// line to `e` instead.
fn write_document<W: Sink, E: Sink>(
    run: &mut EncodeRun<'_>,
    document: &Document,
    w: &mut W,
    e: &mut E,
) -> Result<Verdict, RunFault>
    ensures reader { run.new.reader ≡ run.old.reader }
    ensures form { run.new.form ≡ run.old.form }
    ensures table_b { run.new.templates.table_b ≡ run.old.templates.table_b }
    ensures table_d { run.new.templates.table_d ≡ run.old.templates.table_d }
    ensures reports { LeavesPiece (writers_of W.Sink w.old E.Sink e.old)
        (writers_of W.Sink w.new E.Sink e.new)
        (result_piece run.old.form run.old.templates.table_b run.old.templates.table_d
        (Complete document.now)) result }
    ensures stops { StopsPiece true result }
    ensures counts { BlamesWriter (writers_of W.Sink w.old E.Sink e.old)
        (writers_of W.Sink w.new E.Sink e.new) result }
    ensures output_flushes { W.flushes w.new ≡ W.flushes w.old }
    ensures errors_flushes { E.flushes e.new ≡ E.flushes e.old }
{
    let mut steps = Steps::new();
    let encoded = encode_by(
        run.alloc,
        document,
        run.form,
        &mut run.templates,
        &mut steps,
    );
    match encoded {
        Ok(octets) => {
            write_all(octets.as_slice(), w)?;
            Ok(Verdict::Accepted)
        }
        Err(DocumentFault::Memory) => Err(RunFault::Memory),
        Err(fault) => {
            write_document_fault(fault, e)?;
            Ok(Verdict::Refused)
        }
    }
}

impl<'a> PieceWriter for EncodeRun<'a> {
    ghost pieces = { λ s. document_pieces s.form s.templates.table_b s.templates.table_d };

    ghost takes_memory = { λ _. true };

    ghost reads = { λ s. s.reader.reads };

    ghost reaches = { λ s so. EncodesDocuments s.form s.templates.table_b s.templates.table_d
        s.last s.reader so };

    ghost needs_read = { λ s. NeedsText s.last s.reader };

    // rule: document-read-first, first-refusal-ends
    fn write_next<W: Sink, E: Sink>(&mut self, w: &mut W, e: &mut E) -> Result<RunStep, RunFault> {
        if let Verdict::Refused = self.last {
            return Ok(RunStep::End);
        }
        match self.reader.next_held() {
            None => Ok(RunStep::Read),
            Some(Ok(None)) => Ok(RunStep::End),
            Some(Ok(Some(document))) => {
                let verdict = write_document(self, &document, w, e)?;
                self.reader.reuse(document);
                self.last = verdict;
                Ok(RunStep::Piece(verdict))
            }
            Some(Err(ReadFault::Run(fault))) => Err(fault),
            Some(Err(fault)) => {
                write_read_fault(fault, e)?;
                self.last = Verdict::Refused;
                Ok(RunStep::Piece(Verdict::Refused))
            }
        }
    }

    fn read_more<R: Source>(&mut self, r: &mut R) -> Result<(), RunFault> {
        match self.reader.read_more(r) {
            Err(ReadFault::Run(fault)) => Err(fault),
            // A read can fail only with a run fault.
            _ => Ok(()),
        }
    }
}

/// Encodes the documents in `r` using the given tables and form, and writes the messages to `w`.
///
/// Documents are encoded in input order. Each message is written to `w` as soon as the `end` line
/// of its document has been read. At the first invalid document, a fault line is written to `e`
/// instead of a message, and the run stops. At the end, both writers are flushed (`w` first).
///
/// ```
/// let table_b = TableB::read(rt.alloc(), b"fxy,name,unit,scale,reference,width\n")?;
/// let table_d = TableD::read(rt.alloc(), b"fxy,member\n")?;
/// let mut r = Device::new(b"subset 1\n".as_slice());
/// let mut w = Device::new(Vec::new(rt.alloc()));
/// let mut e = Device::new(Vec::new(rt.alloc()));
/// let form = Form::Plain;
/// let tally = run_encode_form(rt.alloc(), &mut r, &mut w, &mut e, &table_b, &table_d, form)?;
/// assert_eq!(rt; tally.refused, 1); // `e` contains `line 1: 50 line`
/// ```
///
/// # Errors
///
/// [`RunFault::Read`] if a read fails, and [`RunFault::InputTooLong`] if the end of input is not
/// reached within 2^32 reads. In either case, the messages for all complete documents have been
/// written. [`RunFault::Write`] if a writer fails or accepts no octets, and [`RunFault::Memory`] if
/// memory runs out. In either case, the output may be truncated.
pub fn run_encode_form<R: Source, W: Sink, E: Sink>(
    alloc: Global,
    r: &mut R,
    w: &mut W,
    e: &mut E,
    table_b: &TableB,
    table_d: &TableD,
    form: Form,
) -> Result<Tally, RunFault>
    // If the run completes and its whole input is known, the run writes exactly the pieces for that
    // input, and the tally counts them.
    ensures { LeavesDevices (document_pieces form table_b.now table_d.now)
        (input_of R.Source r.old) (input_of R.Source r.new)
        (writers_of W.Sink w.old E.Sink e.old) (writers_of W.Sink w.new E.Sink e.new) result }
{
    let mut run = EncodeRun {
        alloc,
        reader: DumpReader::new(alloc),
        form,
        templates: TemplateCache::new(alloc, table_b, table_d),
        last: Verdict::Accepted,
    };
    run_pieces(&mut run, r, w, e)
}

/// Encodes each document in `r` in the form that the document specifies, using the given tables,
/// and writes the messages to `w`.
///
/// This function is equivalent to [`run_encode_form`] with [`Form::AsWritten`].
///
/// ```
/// let table_b = TableB::read(rt.alloc(), b"fxy,name,unit,scale,reference,width\n")?;
/// let table_d = TableD::read(rt.alloc(), b"fxy,member\n")?;
/// let mut r = Device::new(b"subset 1\n".as_slice());
/// let mut w = Device::new(Vec::new(rt.alloc()));
/// let mut e = Device::new(Vec::new(rt.alloc()));
/// let tally = run_encode(rt.alloc(), &mut r, &mut w, &mut e, &table_b, &table_d)?;
/// assert_eq!(rt; tally.refused, 1); // `e` contains `line 1: 50 line`
/// ```
///
/// # Errors
///
/// Returns the same errors as [`run_encode_form`].
pub fn run_encode<R: Source, W: Sink, E: Sink>(
    alloc: Global,
    r: &mut R,
    w: &mut W,
    e: &mut E,
    table_b: &TableB,
    table_d: &TableD,
) -> Result<Tally, RunFault>
    // If the run completes and its whole input is known, the run writes exactly the pieces for that
    // input, and the tally counts them.
    ensures { LeavesDevices (document_pieces AsWritten table_b.now table_d.now)
        (input_of R.Source r.old) (input_of R.Source r.new)
        (writers_of W.Sink w.old E.Sink e.old) (writers_of W.Sink w.new E.Sink e.new) result }
{
    run_encode_form(alloc, r, w, e, table_b, table_d, Form::AsWritten)
}
