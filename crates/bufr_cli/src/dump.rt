//! The command `bufr dump`, which writes the messages in a stream as text.
ghost use Rattle.std.specs.Prelude.{◌≡◌, true, Ok, OnOk, refl};
ghost use Rattle.bufr_cli.specs.Prelude.{LeavesDevices, event_pieces, dump_or_report, dump_piece, text_or_fault, BlamesWriter, input_of, writers_of, StopsPiece, LeavesPiece};

use crate::fault_line::{StreamFault, write_fault};
use crate::outcome::{Tally, Verdict};
use crate::run_events::{MessageWriter, run_events};
use bufr_bits::{Sink, Source};
use bufr_frame::{Message, RunFault};
use bufr_tables::{Fxy, TableB, TableD, Template};
use bufr_text::{DumpMemory, write_dump_by};
use bufr_walk::{Steps, TemplateCache, WalkFault, read_by};
use std::alloc::{AllocError, Global};
use std::mem;

/// Sets `list` to the descriptors of `message`.
fn set_descriptors(list: &mut Vec<Fxy>, message: &Message<'_>) -> Result<(), AllocError>
    ensures { OnOk result (list.new.items ≡ message.now.descriptors) }
{
    list.clear();
    let words = message.descriptors();
    list.reserve(words.len())?;
    for word in words {
        list.push(Fxy::from_word(word))?;
    }
    Ok(())
}

/// State that is reused between messages, because consecutive messages often have the same
/// descriptors.
#[derive(Drop)]
struct DumpRun<'a> {
    templates: TemplateCache<'a>,
    memory: DumpMemory<'a>,
    /// The descriptors of the most recent message.
    descriptors: Vec<Fxy>,
}

/// A message and its template, borrowed for the same lifetime.
struct Expanded<'a, 'o> {
    message: &'a Message<'o>,
    template: &'a Template,
}

/// Dumps a message to `w`, using the template selected in `run`. If the message is rejected, writes
/// a fault line to `e` instead.
// rule: refused-messages-write-nothing
fn dump_selected<W: Sink, E: Sink>(
    offset: u64,
    message: &Message<'_>,
    run: &mut DumpRun<'_>,
    w: &mut W,
    e: &mut E,
) -> Result<Verdict, RunFault>
    requires list { run.old.templates.list ≡ message.now.descriptors }
    requires cached { run.old.memory.specs ≡ run.old.templates.table_b }
    ensures specs { run.new.memory.specs ≡ run.old.memory.specs }
    ensures templates { run.new.templates ≡ run.old.templates }
    ensures reports { LeavesPiece (writers_of W.Sink w.old E.Sink e.old)
        (writers_of W.Sink w.new E.Sink e.new)
        (text_or_fault offset
        (dump_or_report run.old.templates.table_b run.old.templates.table_d (Ok message.now)))
        result }
    ensures stops { StopsPiece true result }
    ensures counts { BlamesWriter (writers_of W.Sink w.old E.Sink e.old)
        (writers_of W.Sink w.new E.Sink e.new) result }
    ensures output_flushes { W.flushes w.new ≡ W.flushes w.old }
    ensures errors_flushes { E.flushes e.new ≡ E.flushes e.old }
{
    match run.templates.answer() {
        Ok(template) => {
            // `read_by` borrows the message and the template for the same lifetime.
            let Expanded { message, template } = Expanded { message, template };
            let mut steps = Steps::new();
            match read_by(message, template, &mut run.memory.specs, &mut steps) {
                Ok(reading) => {
                    write_dump_by(&mut run.memory, message, &reading, &mut steps, w)?;
                    Ok(Verdict::Accepted)
                }
                Err(WalkFault::Memory) => Err(RunFault::Memory),
                Err(fault) => {
                    write_fault(offset, StreamFault::Data(&fault), e)?;
                    Ok(Verdict::Refused)
                }
            }
        }
        Err(fault) => {
            write_fault(offset, StreamFault::Template(fault), e)?;
            Ok(Verdict::Refused)
        }
    }
}

impl<'a> MessageWriter for DumpRun<'a> {
    ghost piece = { λ d. dump_piece d.templates.table_b d.templates.table_d };

    ghost takes_memory = { λ _. true };

    ghost strays = { λ _ offset cause. refl };

    #[inline(never)]
    // rule: one-fault-a-message, list-before-data
    fn write_message<W: Sink, E: Sink>(
        &mut self,
        offset: u64,
        octets: &[u8],
        w: &mut W,
        e: &mut E,
    ) -> Result<Verdict, RunFault> {
        match Message::parse(octets) {
            Ok(message) => {
                set_descriptors(&mut self.descriptors, &message)?;
                self.templates.select(&self.descriptors)?;
                let mut specs = self.templates.take_specs();
                mem::swap(&mut self.memory.specs, &mut specs);
                let outcome = dump_selected(offset, &message, self, w, e);
                mem::swap(&mut self.memory.specs, &mut specs);
                self.templates.put_specs(specs);
                outcome
            }
            Err(fault) => {
                write_fault(offset, StreamFault::Section(fault), e)?;
                Ok(Verdict::Refused)
            }
        }
    }
}

/// Reads messages from `r` and writes their dumps to `w`, using the given tables.
///
/// Messages are dumped in stream order, each as soon as enough input has been read to identify it.
/// For each stray `BUFR` and each rejected message, a fault line is written to `e`, and nothing is
/// written to `w`. At the end, both writers are flushed (`w` first).
///
/// Only the first fault in a message is reported. Sections are checked first, then descriptors
/// ([`TemplateFault`]), and then data ([`WalkFault`]).
///
/// ```
/// let table_b = TableB::read(rt.alloc(), b"fxy,name,unit,scale,reference,width\n")?;
/// let table_d = TableD::read(rt.alloc(), b"fxy,member\n")?;
/// let mut r = Device::new(b"BUFR".as_slice());
/// let mut w = Device::new(Vec::new(rt.alloc()));
/// let mut e = Device::new(Vec::new(rt.alloc()));
/// let tally = run_dump(rt.alloc(), &mut r, &mut w, &mut e, &table_b, &table_d)?;
/// assert_eq!(rt; tally.refused, 1); // `e` contains `offset 0: 1 cut`
/// ```
///
/// # Errors
///
/// [`RunFault::Read`] if a read fails, and [`RunFault::InputTooLong`] if the end of input is not
/// reached within 2^32 reads. In either case, the output for all messages and strays found so far
/// has been written. [`RunFault::Write`] if a writer fails or accepts no octets, and
/// [`RunFault::Memory`] if memory runs out. In either case, the output may be truncated.
pub fn run_dump<R: Source, W: Sink, E: Sink>(
    alloc: Global,
    r: &mut R,
    w: &mut W,
    e: &mut E,
    table_b: &TableB,
    table_d: &TableD,
) -> Result<Tally, RunFault>
    // If the run completes and its whole input is known, the run writes exactly the pieces for that
    // input, and the tally counts them.
    ensures { LeavesDevices (event_pieces (dump_piece table_b.now table_d.now))
        (input_of R.Source r.old) (input_of R.Source r.new)
        (writers_of W.Sink w.old E.Sink e.old) (writers_of W.Sink w.new E.Sink e.new) result }
{
    let dumping = DumpRun {
        templates: TemplateCache::new(alloc, table_b, table_d),
        memory: DumpMemory::new(alloc, table_b),
        descriptors: Vec::new(alloc),
    };
    run_events(alloc, dumping, r, w, e)
}
