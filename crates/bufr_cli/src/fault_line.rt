//! Writes fault lines for stray `BUFR` words and rejected messages in a stream, and for invalid
//! lines and documents in a dump.
ghost use Rattle.std.specs.Prelude.{◌≡◌, [], ◌∷◌, ◌++◌, IfErr, codes, decimal};
ghost use Rattle.bufr_frame.specs.Prelude.{cause_report, section_report};
ghost use Rattle.bufr_tables.specs.Prelude.{fxy_text, template_report};
ghost use Rattle.bufr_walk.specs.Prelude.{data_report, spot_text};
ghost use Rattle.bufr_fill.specs.Prelude.{expected_text, item_report};
ghost use Rattle.bufr_text.specs.Prelude.{line_report, Pushes, Writes};
ghost use Rattle.bufr_cli.specs.Prelude.{fault_line, stream_report, document_line, line_of_read_fault, refusal_line, OnlyWrites, writer_of};
ghost use Rattle.std.specs.List.{concat};

use bufr_bits::Sink;
use bufr_fill::{Expected, ItemFault, WalkRefusal};
use bufr_frame::{Cause, RunFault, SectionFault};
use bufr_tables::{Fxy, TemplateFault};
use bufr_text::{DocumentFault, LineWriter, ReadFault, TextLineFault};
use bufr_walk::{Spot, WalkFault};

/// The size, in octets, of the block in which a fault line is assembled. The longest fault line
/// reports a data fault and is 107 octets long.
const LINE: usize = 112;

/// The size, in octets, of the block in which the fault line for a stray `BUFR` is assembled. Such
/// a line is at most 44 octets long.
const STRAY_LINE: usize = 48;

/// The reason why a message in a stream is rejected.
#[derive(Clone, Copy)]
pub(crate) enum StreamFault<'f> {
    /// The message cannot be split into its sections.
    Section(SectionFault),
    /// The descriptors of the message cannot be expanded into a template.
    Template(&'f TemplateFault),
    /// The data of the message cannot be read.
    Data(&'f WalkFault),
}

#[inline(always)]
fn push_number<E: Sink>(line: &mut LineWriter<'_, '_, E>, number: u8)
    ensures { Pushes line.old (concat (codes ": " ∷ decimal number ∷ codes " " ∷ [])) line.new }
{
    line.push_named(b": ", u64::from(number));
    line.push(b" ");
}

/// Pushes the start of a fault line (a word such as `line`, a position, and the fault number).
#[inline(always)]
// rule: stream-fault-line
fn push_prefix<E: Sink>(line: &mut LineWriter<'_, '_, E>, word: &[u8], position: u64, number: u8)
    ensures { Pushes line.old (concat (word.now ∷ decimal position ∷ codes ": " ∷ decimal number
        ∷ codes " " ∷ [])) line.new }
{
    line.push_named(word, position);
    push_number(line, number);
}

fn push_descriptor<E: Sink>(line: &mut LineWriter<'_, '_, E>, text: &[u8], fxy: Fxy)
    ensures { Pushes line.old (concat (text.now ∷ fxy_text fxy ∷ [])) line.new }
{
    line.push(text);
    line.push(&fxy.text());
}

#[inline(always)]
// rule: fault-1, fault-2, fault-3
fn push_stray<E: Sink>(line: &mut LineWriter<'_, '_, E>, cause: Cause)
    ensures { Pushes line.old (concat (codes ": " ∷ decimal (cause_report cause).0 ∷ codes " "
        ∷ ((cause_report cause).1 ++ codes "\n" ∷ []))) line.new }
{
    match cause {
        Cause::Cut => line.push(b": 1 cut\n"),
        Cause::ShortLength => line.push(b": 2 short length\n"),
        Cause::NoEnd => line.push(b": 3 no end\n"),
    }
}

#[inline(never)]
// rule: fault-10, fault-11, fault-12, fault-13, fault-14
fn push_section_fault<E: Sink>(line: &mut LineWriter<'_, '_, E>, fault: SectionFault)
    ensures { Pushes line.old (concat (section_report fault).1) line.new }
{
    match fault {
        SectionFault::Edition(edition) => line.push_named(b"edition ", u64::from(edition)),
        SectionFault::SectionShort(section) => {
            line.push_named(b"section ", u64::from(section));
            line.push(b" short");
        }
        SectionFault::SectionPast(section) => {
            line.push_named(b"section ", u64::from(section));
            line.push(b" past the end");
        }
        SectionFault::SectionsEnd => line.push(b"sections do not meet the end"),
        SectionFault::Edition3Long => line.push(b"edition 3 length"),
    }
}

/// Pushes the description of a template fault. [`TemplateFault::Memory`] has no description.
#[inline(never)]
// rule: fault-20, fault-21, fault-22, fault-23, fault-24, fault-25, fault-26, fault-27, fault-28
fn push_template_fault<E: Sink>(line: &mut LineWriter<'_, '_, E>, fault: &TemplateFault)
    ensures { Pushes line.old (concat (template_report fault.now).1) line.new }
{
    match fault {
        TemplateFault::UnknownElement(fxy) => push_descriptor(line, b"unknown element ", *fxy),
        TemplateFault::UnknownSequence(fxy) => push_descriptor(line, b"unknown sequence ", *fxy),
        TemplateFault::Operator(fxy) => push_descriptor(line, b"operator ", *fxy),
        TemplateFault::GroupShape(fxy) => push_descriptor(line, b"group shape ", *fxy),
        TemplateFault::NoFactor(fxy) => push_descriptor(line, b"no factor ", *fxy),
        TemplateFault::EmptyGroup(fxy) => push_descriptor(line, b"empty group ", *fxy),
        TemplateFault::Depth(fxy) => push_descriptor(line, b"depth ", *fxy),
        TemplateFault::TemplateSize(fxy) => push_descriptor(line, b"template size ", *fxy),
        TemplateFault::LocalShape(fxy) => push_descriptor(line, b"local shape ", *fxy),
        TemplateFault::Memory => {}
    }
}

/// Pushes the name of a data fault, followed by its location (subset, descriptor and bit).
// rule: stream-fault-place
fn push_spot<E: Sink>(line: &mut LineWriter<'_, '_, E>, name: &[u8], spot: Spot)
    ensures { Pushes line.old (concat (spot_text name.now spot)) line.new }
{
    line.push(name);
    line.push_named(b" at subset ", u64::from(spot.subset));
    push_descriptor(line, b" descriptor ", spot.fxy);
    line.push_named(b" bit ", spot.bit);
}

/// Pushes the description of a data fault. [`WalkFault::Memory`] has no description.
#[inline(never)]
// rule: fault-30, fault-31, fault-32, fault-33, fault-34, fault-35
fn push_walk_fault<E: Sink>(line: &mut LineWriter<'_, '_, E>, fault: &WalkFault)
    ensures { Pushes line.old (concat (data_report fault.now).1) line.new }
{
    match fault {
        WalkFault::DataEnd(spot) => push_spot(line, b"data end", *spot),
        WalkFault::Width(spot) => push_spot(line, b"width", *spot),
        WalkFault::Defining(spot) => push_spot(line, b"defining", *spot),
        WalkFault::UnequalFactor(spot) => push_spot(line, b"unequal factor", *spot),
        WalkFault::Increment(spot) => push_spot(line, b"increment", *spot),
        WalkFault::TooManyValues(spot) => push_spot(line, b"too many values", *spot),
        WalkFault::Memory => {}
    }
}

#[inline(always)]
fn push_fault<E: Sink>(line: &mut LineWriter<'_, '_, E>, offset: u64, fault: StreamFault<'_>)
    ensures { Pushes line.old (fault_line offset (stream_report fault.entry)) line.new }
{
    line.push_named(b"offset ", offset);
    match fault {
        StreamFault::Section(fault) => {
            push_number(line, fault.number());
            push_section_fault(line, fault);
            line.push(b"\n");
        }
        StreamFault::Template(fault) => {
            push_number(line, fault.number());
            push_template_fault(line, fault);
            line.push(b"\n");
        }
        StreamFault::Data(fault) => {
            push_number(line, fault.number());
            push_walk_fault(line, fault);
            line.push(b"\n");
        }
    }
}

/// Writes the fault line for the stray `BUFR` at `offset`. Offsets are counted in octets from 0.
#[inline(always)]
pub(crate) fn write_stray<E: Sink>(offset: u64, cause: Cause, e: &mut E) -> Result<(), RunFault>
    ensures writes { Writes (E.taken e.old) (E.taken e.new)
        (fault_line offset (cause_report cause)) result }
    ensures counts { OnlyWrites (writer_of E.Sink e.old) (writer_of E.Sink e.new) result }
{
    let mut block = [0; STRAY_LINE];
    let mut line = LineWriter::new(&mut block, e);
    line.push_named(b"offset ", offset);
    push_stray(&mut line, cause);
    line.flush_buf();
    let outcome = line.status();
    let _ = line.into_sink();
    outcome
}

/// Writes the fault line for the rejected message at `offset`. Offsets are counted in octets from
/// 0.
pub(crate) fn write_fault<E: Sink>(
    offset: u64,
    fault: StreamFault<'_>,
    e: &mut E,
) -> Result<(), RunFault>
    ensures writes { Writes (E.taken e.old) (E.taken e.new)
        (fault_line offset (stream_report fault.entry)) result }
    ensures counts { OnlyWrites (writer_of E.Sink e.old) (writer_of E.Sink e.new) result }
{
    let mut block = [0; LINE];
    let mut line = LineWriter::new(&mut block, e);
    push_fault(&mut line, offset, fault);
    line.flush_buf();
    let outcome = line.status();
    let _ = line.into_sink();
    outcome
}

/// Pushes a fault line with a line number (counted from 1), the fault number and the description.
fn push_line<E: Sink>(line: &mut LineWriter<'_, '_, E>, position: u64, number: u8, text: &[u8])
    ensures { Pushes line.old (document_line position (number, text.now ∷ [])) line.new }
{
    push_prefix(line, b"line ", position, number);
    line.push(text);
    line.push(b"\n");
}

// rule: fault-51
fn push_expected<E: Sink>(line: &mut LineWriter<'_, '_, E>, expected: Expected)
    ensures { Pushes line.old (concat (codes "expected " ∷ expected_text expected)) line.new }
{
    match expected {
        Expected::Item(fxy) => push_descriptor(line, b"expected ", fxy),
        Expected::Reference(fxy) => push_descriptor(line, b"expected R ", fxy),
        Expected::EndOfSubset => line.push(b"expected end of subset"),
    }
}

/// Pushes the fault number of a failed template walk and the descriptor at which the walk failed.
// rule: fault-62
fn push_walk<E: Sink>(line: &mut LineWriter<'_, '_, E>, refusal: &WalkRefusal)
    ensures { Pushes line.old (concat (item_report (ItemFault.Walk refusal.now)).1) line.new }
{
    line.push_named(b"walk ", u64::from(refusal.number()));
    push_descriptor(line, b" descriptor ", refusal.fxy());
}

fn push_item_fault<E: Sink>(line: &mut LineWriter<'_, '_, E>, fault: &ItemFault)
    ensures { Pushes line.old (concat (item_report fault.now).1) line.new }
{
    match fault {
        ItemFault::WrongDescriptor(expected) => push_expected(line, *expected),
        ItemFault::Number => line.push(b"number"),
        ItemFault::OutOfRange => line.push(b"out of range"),
        ItemFault::TextLong => line.push(b"text long"),
        ItemFault::MissingForbidden => line.push(b"missing forbidden"),
        ItemFault::UnequalFactor => line.push(b"unequal factor"),
        ItemFault::Increment => line.push(b"increment"),
        ItemFault::Walk(refusal) => push_walk(line, refusal),
    }
}

fn push_document_fault<E: Sink>(line: &mut LineWriter<'_, '_, E>, fault: DocumentFault)
    ensures { Pushes line.old (refusal_line fault) line.new }
{
    let number = fault.number();
    match &fault {
        DocumentFault::Item(position, why) => {
            push_prefix(line, b"line ", *position, number);
            push_item_fault(line, why);
            line.push(b"\n");
        }
        DocumentFault::Template(position, why) => {
            push_prefix(line, b"line ", *position, number);
            line.push_named(b"template ", u64::from(why.number()));
            line.push(b" ");
            push_template_fault(line, why);
            line.push(b"\n");
        }
        DocumentFault::TooLong(position) => push_line(line, *position, number, b"too long"),
        DocumentFault::Memory => {}
    }
}

/// Writes the fault line for a document that cannot be encoded. Nothing is written for
/// [`DocumentFault::Memory`].
///
/// # Errors
///
/// [`RunFault::Write`] if the writer fails or accepts no octets. In that case, the line may be
/// truncated.
// rule: fault-lines-of-encoding
pub fn write_document_fault<E: Sink>(fault: DocumentFault, e: &mut E) -> Result<(), RunFault>
    ensures writes { Writes (E.taken e.old) (E.taken e.new) (refusal_line fault) result }
    ensures counts { OnlyWrites (writer_of E.Sink e.old) (writer_of E.Sink e.new) result }
{
    let mut block = [0; LINE];
    let mut line = LineWriter::new(&mut block, e);
    push_document_fault(&mut line, fault);
    line.flush_buf();
    let outcome = line.status();
    let _ = line.into_sink();
    outcome
}

/// Returns the description of a fault in a dump line.
fn text_of(fault: TextLineFault) -> &'static [u8]
    ensures { result.now ∷ [] ≡ (line_report fault).1 }
{
    match fault {
        TextLineFault::NotAllowed => b"line",
        TextLineFault::SubsetCount => b"subset count",
        TextLineFault::HeaderRange => b"header range",
    }
}

fn push_read_fault<E: Sink>(line: &mut LineWriter<'_, '_, E>, fault: ReadFault)
    ensures { Pushes line.old (line_of_read_fault fault) line.new }
{
    match fault {
        ReadFault::Line(position, why) => push_line(line, position, why.number(), text_of(why)),
        ReadFault::Run(_) => {}
    }
}

/// Writes the fault line for an invalid line in a dump. Nothing is written for [`ReadFault::Run`].
///
/// # Errors
///
/// [`RunFault::Write`] if the writer fails or accepts no octets. In that case, the line may be
/// truncated.
// rule: fault-lines-of-reading
pub fn write_read_fault<E: Sink>(fault: ReadFault, e: &mut E) -> Result<(), RunFault>
    ensures writes { Writes (E.taken e.old) (E.taken e.new) (line_of_read_fault fault) result }
    ensures err { IfErr result (λ why. why ≡ RunFault.Write) }
    ensures counts { OnlyWrites (writer_of E.Sink e.old) (writer_of E.Sink e.new) result }
{
    let mut block = [0; LINE];
    let mut line = LineWriter::new(&mut block, e);
    push_read_fault(&mut line, fault);
    line.flush_buf();
    let outcome = line.status();
    let _ = line.into_sink();
    outcome
}
