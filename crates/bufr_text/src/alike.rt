//! Dump lines that are the same in every subset of a compressed message, and are formatted only
//! once. Not all such lines are collected (see [`AlikeLines::gather`]).
ghost use Rattle.std.specs.Prelude.{◌≡◌, ◌≤◌, ◌<◌, ◌*◌, List, [], Ok, true, length, IfOk};
ghost use Rattle.bufr_tables.specs.Prelude.{Row, places};
ghost use Rattle.bufr_text.specs.Prelude.{PushesCall, item_lines, PushesAlike, AreStretches, AreGathered};
ghost use Rattle.bufr_walk.specs.Prelude.{Shows, Item, Content, item_calls, without_turns, range_calls, packed_calls, calls_of, turns_shown};

use crate::line_writer::{LineWriter, NoSink};
use bufr_bits::Sink;
use bufr_frame::RunFault;
use bufr_walk::{PackedItems, Reading, ShowFault, SpecCache, Steps, Visitor};
use std::alloc::Global;

/// The number of octets reserved for one line. A line is at most 2,061 octets long, including up to
/// 4 * 255 octets for a string and up to 512 octets each for the name and the unit.
const LINE: usize = 2_560;

/// The maximum combined length, in octets, of a message's shared lines.
pub(crate) const TEXT: usize = 16_384;

/// The maximum number of [`Stretch`]es per subset, not counting the last one.
const MAX_STRETCHES: usize = 1_024;

/// A part of a subset, consisting of shared lines followed by other items. The lines end at index
/// `end` of the shared text, and the items are at indices `from..to`.
#[derive(Clone, Copy)]
pub(crate) struct Stretch {
    end: usize,
    from: usize,
    to: usize,
}

/// Returns whether more than an eighth of the items are the same in every subset. If only a few
/// items are the same, collecting their lines is not worth the effort.
fn are_enough_alike(items: &PackedItems<'_, '_>) -> bool {
    let mut alike: usize = 0;
    'items: for index in 0..items.len() {
        if items.is_alike(index) {
            alike = alike.saturating_add(1);
        }
    }
    alike > items.len() / 8
}

/// Pushes the lines of consecutive items, starting at index `from`. Stops at the first item whose
/// value may differ between subsets, or when at least `room` octets are buffered. Returns the index
/// after the last item pushed.
fn push_alike(
    items: &PackedItems<'_, '_>,
    from: usize,
    room: usize,
    lines: &mut LineWriter<'_, '_, NoSink>,
) -> Result<usize, ShowFault<RunFault>>
    requires within { from ≤ length items.now.items }
    requires some { 0 < items.now.subsets }
    requires status { lines.old.status ≡ Ok tt }
    ensures { IfOk result (λ to. PushesAlike items.now from to lines.old lines.new) }
{
    let mut to = from;
    'items: while to < items.len() && items.is_alike(to) && lines.held().len() < room {
        items.show(to, to + 1, 0, lines)?;
        to += 1;
    }
    Ok(to)
}

/// Skips the item at index `from` and any items directly after it whose values may differ between
/// subsets. Returns the index of the next item.
fn skip_different(items: &PackedItems<'_, '_>, from: usize) -> usize
    requires { from < length items.now.items }
    ensures more { from < result }
    ensures within { result ≤ length items.now.items }
{
    let len = items.len();
    let mut to = from + 1;
    'items: while to < len && !items.is_alike(to) {
        to += 1;
    }
    to
}

/// Pushes item lines that have already been formatted.
#[inline(always)]
fn push_made<W: Sink>(
    text: &[u8],
    lines: &mut LineWriter<'_, '_, W>,
) -> Result<(), ShowFault<RunFault>>
    requires { lines.old.status ≡ Ok tt }
    ensures { (table : List Row) (items : List (Item Content)) → text.now ≡ item_lines table items
        → Shows PushesCall lines.old (item_calls table 0 without_turns items) 0 result
        lines.new 0 }
{
    if text.is_empty() {
        return Ok(());
    }
    lines.push(text);
    lines.end_line();
    match lines.status() {
        Ok(()) => Ok(()),
        Err(fault) => Err(ShowFault::Visitor(fault)),
    }
}

/// The shared lines of a message (at most 16,384 octets) and the [`Stretch`]es that make up each
/// subset (at most 1,025). `stretches` is empty if the data are not compressed, if there are no
/// subsets, or if memory ran out.
#[derive(Drop)]
pub(crate) struct AlikeLines {
    text: Vec<u8>,
    stretches: Vec<Stretch>,
}

impl AlikeLines {
    /// Creates an empty collection of shared lines. This function does not allocate.
    pub(crate) fn new(alloc: Global) -> AlikeLines {
        AlikeLines {
            text: Vec::new(alloc),
            stretches: Vec::new(alloc),
        }
    }

    /// Replaces the shared lines with those of another message. The new lines are formatted in
    /// `block`. If too few items are the same in every subset, or if there is only one subset, a
    /// single [`Stretch`] contains all items. If memory runs out, `stretches` is left empty.
    #[inline(never)]
    pub(crate) fn gather(&mut self, reading: &Reading<'_>, block: &mut [u8])
        ensures gathered { AreGathered reading.now self.new.text.items self.new.stretches.items }
        ensures short { length self.new.text.items ≤ 16384 }
        ensures few { length self.new.stretches.items ≤ 1025 }
    {
        self.text.clear();
        self.stretches.clear();
        let Some(items) = reading.packed() else {
            return;
        };
        if items.subsets() == 0 {
            return;
        }
        let worth = items.subsets() > 1 && are_enough_alike(&items);
        let room = if worth { TEXT - LINE } else { 0 };
        if !self.gather_items(&items, room, block) {
            self.stretches.clear();
        }
    }

    /// Collects the shared lines of the given items. Returns `false` if memory runs out.
    fn gather_items(&mut self, items: &PackedItems<'_, '_>, room: usize, block: &mut [u8]) -> bool
        requires some { 0 < items.now.subsets }
        requires text { self.old.text.items ≡ [] }
        requires stretches { self.old.stretches.items ≡ [] }
        ensures stretches { result ≡ true
            → AreStretches items.now self.new.text.items 0 0 self.new.stretches.items }
        ensures short { length self.new.text.items ≤ 16384 }
        ensures few { length self.new.stretches.items ≤ 1025 }
    {
        let len = items.len();
        let mut sink = NoSink {
            empty_writes: 0,
            flushes: 0,
        };
        let mut lines = LineWriter::new(block, &mut sink);
        let mut at = 0;
        'stretches: while at < len {
            let Ok(from) = push_alike(items, at, room, &mut lines) else {
                return false;
            };
            let end = lines.held().len();
            let to = if from < len && end < room && self.stretches.len() < MAX_STRETCHES {
                skip_different(items, from)
            } else {
                len
            };
            if self.stretches.push(Stretch { end, from, to }).is_err() {
                return false;
            }
            at = to;
        }
        let text = lines.held();
        text.len() <= TEXT && self.text.extend_from_slice(text).is_ok()
    }

    /// Pushes the lines of one subset. Subsets are counted from 0.
    #[inline(always)]
    fn show_subset<W: Sink>(
        &self,
        items: &PackedItems<'_, '_>,
        subset: u16,
        lines: &mut LineWriter<'_, '_, W>,
    ) -> Result<(), ShowFault<RunFault>>
        requires stretches { AreStretches items.now self.now.text.items 0 0
            self.now.stretches.items }
        requires subset { subset < items.now.subsets }
        requires status { lines.old.status ≡ Ok tt }
        ensures { Shows PushesCall lines.old
            (range_calls items.now subset 0 (length items.now.items)) 0 result lines.new 0 }
    {
        let text = self.text.as_slice();
        let mut at = 0;
        'stretches: for index in 0..self.stretches.len() {
            let stretch = self.stretches[index];
            push_made(&text[at..stretch.end], lines)?;
            items.show(stretch.from, stretch.to, subset, lines)?;
            at = stretch.end;
        }
        Ok(())
    }

    /// Pushes the lines of all subsets.
    #[inline(always)]
    fn show_all<W: Sink>(
        &self,
        items: &PackedItems<'_, '_>,
        lines: &mut LineWriter<'_, '_, W>,
    ) -> Result<(), ShowFault<RunFault>>
        requires { AreStretches items.now self.now.text.items 0 0 self.now.stretches.items }
        ensures { Shows PushesCall lines.old (packed_calls items.now) 0 result lines.new 0 }
    {
        'subsets: for subset in 0..items.subsets() {
            match lines.subset(subset + 1) {
                Ok(()) => self.show_subset(items, subset, lines)?,
                Err(fault) => return Err(ShowFault::Visitor(fault)),
            }
        }
        Ok(())
    }

    /// Like [`Reading::show_by`] with `lines` as the visitor, but does not format the shared lines
    /// of `reading` again.
    pub(crate) fn show<W: Sink>(
        &self,
        reading: &Reading<'_>,
        specs: &mut SpecCache<'_>,
        lines: &mut LineWriter<'_, '_, W>,
        steps: &mut Steps,
    ) -> Result<(), ShowFault<RunFault>>
        requires cached { specs.old ≡ reading.now.table }
        requires gathered { AreGathered reading.now self.now.text.items self.now.stretches.items }
        ensures same { specs.new ≡ specs.old }
        ensures shown { Shows PushesCall lines.old (calls_of reading.now) (turns_shown reading.now)
            result lines.new steps.new }
        ensures bounded { steps.new ≤ places reading.now.template * reading.now.bits }
    {
        if !self.stretches.is_empty()
            && let Some(items) = reading.packed()
        {
            *steps = Steps::new();
            return self.show_all(&items, lines);
        }
        reading.show_by(specs, lines, steps)
    }
}
