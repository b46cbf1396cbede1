//! Functions that write the dump of a message.
ghost use Rattle.std.specs.Prelude.{◌≡◌, ◌++◌, [], ◌∷◌, drop, map, take, unwrap_or, ◌≤◌, ◌*◌, vec_len, OnOk};
ghost use Rattle.bufr_frame.specs.Prelude.{words_left};
ghost use Rattle.bufr_text.specs.Prelude.{descriptors_line, head_lines, text_of_lines, dump_value_of, form_text, item_text, dump_text_of, dump_items, descriptors_text, hex_text, runs_of, Pushes, CountsFaults, MakesSteps, WritesPrefix, PushesCall, AreGathered};
ghost use Rattle.bufr_tables.specs.Prelude.{fxy_text, places};
ghost use Rattle.bufr_walk.specs.Prelude.{seen, seen_value, calls_of, turns_shown, values_read, data_of};

use crate::alike::{AlikeLines, TEXT};
use crate::header::KEYS;
use crate::line_writer::{LineWriter, PAGE};
use bufr_bits::Sink;
use bufr_frame::{Message, RunFault, Words};
use bufr_tables::{Entry, Fxy, TableB};
use bufr_walk::{ItemView, Reading, ShowFault, SpecCache, Steps, Value, Visitor};
use std::alloc::{AllocError, Global};

/// The maximum number of octets in one `local1` or `section2` line.
const OCTETS: usize = 32;

/// The maximum number of descriptors in one `descriptors` line.
const DESCRIPTORS: usize = 8;

/// Pushes octets in hexadecimal, on lines that begin with `word`. Every line except the last
/// contains exactly 32 octets.
#[inline(always)]
// rule: text-local1
fn push_octet_lines<W: Sink>(lines: &mut LineWriter<'_, '_, W>, word: &[u8], octets: &[u8])
    ensures { Pushes lines.old
        (text_of_lines (map (λ run. word.now ++ hex_text run) (runs_of 32 octets.now))) lines.new }
{
    let mut rest = octets;
    while !rest.is_empty() {
        let (run, left) = rest.split_at(rest.len().min(OCTETS));
        lines.push(word);
        lines.push_hex(run);
        lines.push(b"\n");
        lines.end_line();
        rest = left;
    }
}

/// Pushes up to eight descriptors from `words`, each preceded by a space.
fn push_descriptors<W: Sink>(lines: &mut LineWriter<'_, '_, W>, words: &mut Words<'_>)
    ensures pushes { Pushes lines.old (descriptors_text (take 8 (words_left words.old))) lines.new }
    ensures words { words_left words.new ≡ drop 8 (words_left words.old) }
{
    'words: for _done in 0..DESCRIPTORS {
        let Some(word) = words.next() else {
            return;
        };
        lines.push(b" ");
        lines.push(&Fxy::from_word(word).text());
    }
}

/// Pushes the lines that list the descriptors. Every line except the last contains exactly eight
/// descriptors.
// rule: text-descriptors
fn push_descriptor_lines<W: Sink>(lines: &mut LineWriter<'_, '_, W>, message: &Message<'_>)
    ensures { Pushes lines.old
        (text_of_lines (map descriptors_line (runs_of 8 message.now.descriptors))) lines.new }
{
    let mut words = message.descriptors();
    while !words.is_empty() {
        lines.push(b"descriptors");
        push_descriptors(lines, &mut words);
        lines.push(b"\n");
        lines.end_line();
    }
}

/// Pushes the lines before the subsets (`message`, one line for each key, the octets for local use,
/// section 2, and the descriptors).
// rule: text-header, text-header-of-edition-3, text-section2
pub(crate) fn push_head_lines<W: Sink>(lines: &mut LineWriter<'_, '_, W>, message: &Message<'_>)
    ensures { Pushes lines.old (text_of_lines (head_lines message.now)) lines.new }
{
    let head = message.head();
    lines.push(b"message");
    lines.push_named(KEYS[0].0, u64::from(head.edition));
    lines.push_named(KEYS[1].0, u64::from(head.master));
    lines.push_named(KEYS[2].0, u64::from(head.centre));
    lines.push_named(KEYS[3].0, u64::from(head.subcentre));
    lines.push_named(KEYS[4].0, u64::from(head.update));
    lines.push_named(KEYS[5].0, u64::from(head.category));
    lines.push_named(KEYS[6].0, u64::from(head.subcategory));
    lines.push_named(KEYS[7].0, u64::from(head.local_subcategory));
    lines.push_named(KEYS[8].0, u64::from(head.master_version));
    lines.push_named(KEYS[9].0, u64::from(head.local_version));
    lines.push_named(KEYS[10].0, u64::from(head.year));
    lines.push_named(KEYS[11].0, u64::from(head.month));
    lines.push_named(KEYS[12].0, u64::from(head.day));
    lines.push_named(KEYS[13].0, u64::from(head.hour));
    lines.push_named(KEYS[14].0, u64::from(head.minute));
    lines.push_named(KEYS[15].0, u64::from(head.second));
    lines.push_named(KEYS[16].0, u64::from(message.observed()));
    lines.push_named(KEYS[17].0, u64::from(message.compressed()));
    lines.push_named(KEYS[18].0, u64::from(message.section2().is_some()));
    lines.push_named(KEYS[19].0, u64::from(message.subsets()));
    lines.push(b"\n");
    push_octet_lines(lines, b"local1 ", message.local1());
    push_octet_lines(lines, b"section2 ", message.section2().unwrap_or(b""));
    push_descriptor_lines(lines, message);
}

/// Pushes a descriptor followed by a space. If `entry` is the Table B entry for the descriptor, the
/// text is copied from that entry.
#[inline(always)]
fn push_descriptor<W: Sink>(lines: &mut LineWriter<'_, '_, W>, fxy: Fxy, entry: Option<Entry<'_>>)
    ensures { Pushes lines.old (fxy_text fxy ++ 32 ∷ []) lines.new }
{
    match entry {
        Some(entry) if entry.fxy() == fxy => lines.push(entry.line_start()),
        _ => {
            lines.push(&fxy.text());
            lines.push(b" ");
        }
    }
}

/// Pushes the descriptor and the value of an item. For a redefined reference value, `R ` is pushed
/// first.
#[inline(always)]
// rule: text-missing, text-number, text-reference
fn push_any_form<W: Sink>(
    lines: &mut LineWriter<'_, '_, W>,
    fxy: Fxy,
    entry: Option<Entry<'_>>,
    value: Value<'_>,
)
    ensures { Pushes lines.old
        (form_text fxy (dump_value_of (seen_value value.entry))) lines.new }
{
    match value {
        Value::Number(number, scale) => {
            push_descriptor(lines, fxy, entry);
            lines.push_scaled(number, scale);
        }
        Value::Text(octets) => {
            push_descriptor(lines, fxy, entry);
            lines.push(b"\"");
            lines.push_quoted(octets);
        }
        Value::Missing => {
            push_descriptor(lines, fxy, entry);
            lines.push(b"MISSING");
        }
        Value::Reference(reference) => {
            lines.push(b"R ");
            push_descriptor(lines, fxy, entry);
            lines.push_scaled(i128::from(reference), 0);
        }
    }
}

/// Pushes the complete line for an item of any kind.
#[inline(never)]
// rule: text-comment
fn push_any_item<W: Sink>(
    lines: &mut LineWriter<'_, '_, W>,
    fxy: Fxy,
    entry: Option<Entry<'_>>,
    value: Value<'_>,
)
    ensures { Pushes lines.old (item_text
        (seen (record { fxy = fxy; entry = entry.entry; value = value.entry })) ++ 10 ∷ [])
        lines.new }
{
    push_any_form(lines, fxy, entry, value);
    match entry {
        Some(entry) => lines.push(entry.comment()),
        None => lines.push(b"\n"),
    }
}

/// State that is reused between messages dumped with the same table, such as cached field specs and
/// a buffer for lines.
///
/// ```
/// let mut memory = DumpMemory::new(alloc, &table_b);
/// write_dump_by(&mut memory, &message, &reading, &mut steps, &mut w)?;
/// ```
#[derive(Drop)]
pub struct DumpMemory<'t> {
    /// The allocator used for dumps.
    pub alloc: Global,
    /// The cached field specs, which describe how to read the fields of a template.
    pub specs: SpecCache<'t>,
    /// The block in which lines are buffered. The block is empty until the first dump.
    block: Vec<u8>,
    /// The lines shared by all subsets of the last message.
    alike: AlikeLines,
}

impl<'t> DumpMemory<'t> {
    /// Creates an empty `DumpMemory` for dumping messages with `table`. This function does not
    /// allocate.
    pub fn new(alloc: Global, table: &'t TableB) -> DumpMemory<'t>
        ensures { result.specs ≡ table.now }
    {
        DumpMemory {
            alloc,
            specs: SpecCache::new(alloc, table),
            block: Vec::new(alloc),
            alike: AlikeLines::new(alloc),
        }
    }

    /// Resizes the block to 81,920 octets.
    fn make_room(&mut self) -> Result<(), AllocError>
        ensures same { self.new.specs ≡ self.old.specs }
        ensures block { OnOk result (vec_len self.new.block ≡ 81920) }
    {
        self.block.resize(PAGE + TEXT, 0)
    }

    /// Prepares to dump `reading` by resizing the block and collecting the shared lines.
    fn prepare(&mut self, reading: &Reading<'_>) -> Result<(), AllocError>
        ensures same { self.new.specs ≡ self.old.specs }
        ensures gathered { OnOk result (AreGathered reading.now self.new.alike.text.items
            self.new.alike.stretches.items) }
    {
        self.make_room()?;
        let (first, _) = self.block.as_mut_slice().split_at_mut(TEXT);
        self.alike.gather(reading, first);
        Ok(())
    }
}

impl<'b, 'w, W: Sink> Visitor for LineWriter<'b, 'w, W> {
    type Fault = RunFault;

    ghost sees = { λ s call r t. PushesCall s call r t };

    // rule: text-subset
    fn subset(&mut self, number: u16) -> Result<(), RunFault> {
        self.push_named(b"subset ", u64::from(number));
        self.push(b"\n");
        self.end_line();
        self.status()
    }

    #[inline(always)]
    // rule: one-write-a-line
    fn item(&mut self, item: &ItemView<'_>) -> Result<(), RunFault> {
        let (fxy, entry, value) = (item.fxy, item.entry, item.value);
        // Most items are numbers that fit in 64 bits and have a Table B entry.
        if let Value::Number(number, scale) = value
            && let Some(entry) = entry
            && entry.fxy() == fxy
            && let Ok(number) = i64::try_from(number)
        {
            self.push_number_line(entry, number, scale);
        } else if let Value::Missing = value
            && let Some(entry) = entry
            && entry.fxy() == fxy
        {
            self.push_missing_line(entry);
        } else {
            push_any_item(self, fxy, entry, value);
        }
        self.end_line();
        self.status()
    }
}

/// Writes the dump of a message, which consists of the header, the octets for local use, section 2,
/// the descriptors, the subsets with one line for each item, and an `end` line. If an item was read
/// using a Table B entry, its line ends with a comment that contains the name and unit from that
/// entry.
///
/// Lines are buffered, and are written when at least 65,536 octets have accumulated and at the end
/// of the dump. Every write ends at a line boundary. Like [`Reading::show`], sets `steps` to the
/// number of steps taken to walk the template.
///
/// ```
/// let reading = read_message(alloc, &message, &template, &table, &mut steps)?;
/// write_dump(alloc, &message, &reading, &mut steps, &mut w)?;
/// ```
///
/// # Errors
///
/// [`RunFault::Write`] if the writer fails or accepts nothing, and [`RunFault::Memory`] if memory
/// runs out. In both cases, the writer has accepted a prefix of the dump.
pub fn write_dump<W: Sink>(
    alloc: Global,
    message: &Message<'_>,
    reading: &Reading<'_>,
    steps: &mut Steps,
    w: &mut W,
) -> Result<(), RunFault>
    requires { reading.now.source ≡ data_of message.now }
    // If the result is `Ok`, the writer accepted the whole dump. Otherwise, the writer accepted a
    // prefix of the dump.
    ensures writes { WritesPrefix (W.taken w.old) (W.taken w.new) (dump_text_of message.now
        (dump_items reading.now.table reading.now.source.subsets (values_read reading.now)))
        result }
    // If the result is `Ok`, `steps` counts all steps taken to walk the template. Otherwise,
    // `steps` counts either the steps before a call to the visitor, or all steps.
    ensures steps { MakesSteps (calls_of reading.now) (turns_shown reading.now) result steps.new }
    ensures counts { CountsFaults (W.failures w.old) (W.failures w.new) (W.empty_writes w.old)
        (W.empty_writes w.new) result }
    ensures flushes { W.flushes w.new ≡ W.flushes w.old }
    ensures bounded { steps.new ≤ places reading.now.template * reading.now.bits }
{
    let mut memory = DumpMemory::new(alloc, reading.table());
    write_dump_by(&mut memory, message, reading, steps, w)
}

/// Like [`write_dump`], but reuses state from earlier messages. `memory` must have been created for
/// the table that `reading` uses.
///
/// # Errors
///
/// Returns the same errors as [`write_dump`].
// rule: text-lines-in-order
pub fn write_dump_by<W: Sink>(
    memory: &mut DumpMemory<'_>,
    message: &Message<'_>,
    reading: &Reading<'_>,
    steps: &mut Steps,
    w: &mut W,
) -> Result<(), RunFault>
    requires reads { reading.now.source ≡ data_of message.now }
    requires cached { memory.old.specs ≡ reading.now.table }
    ensures same { memory.new.specs ≡ memory.old.specs }
    // If the result is `Ok`, the writer accepted the whole dump. Otherwise, the writer accepted a
    // prefix of the dump.
    ensures writes { WritesPrefix (W.taken w.old) (W.taken w.new) (dump_text_of message.now
        (dump_items reading.now.table reading.now.source.subsets (values_read reading.now)))
        result }
    // If the result is `Ok`, `steps` counts all steps taken to walk the template. Otherwise,
    // `steps` counts either the steps before a call to the visitor, or all steps.
    ensures steps { MakesSteps (calls_of reading.now) (turns_shown reading.now) result steps.new }
    ensures counts { CountsFaults (W.failures w.old) (W.failures w.new) (W.empty_writes w.old)
        (W.empty_writes w.new) result }
    ensures flushes { W.flushes w.new ≡ W.flushes w.old }
    ensures bounded { steps.new ≤ places reading.now.template * reading.now.bits }
{
    *steps = Steps::new();
    memory.prepare(reading)?;
    let mut lines = LineWriter::new(memory.block.as_mut_slice(), w);
    push_head_lines(&mut lines, message);
    match memory
        .alike
        .show(reading, &mut memory.specs, &mut lines, steps)
    {
        Ok(()) => {
            lines.push(b"end\n");
            lines.flush_buf();
            let outcome = lines.status();
            let _ = lines.into_sink();
            outcome
        }
        Err(ShowFault::Visitor(fault)) => {
            let _ = lines.into_sink();
            Err(fault)
        }
        Err(ShowFault::Memory) => {
            let first = lines.status();
            let _ = lines.into_sink();
            first?;
            Err(RunFault::Memory)
        }
    }
}
