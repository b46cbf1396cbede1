//! A writer that converts the items of a dump to compressed data.
ghost use Rattle.std.specs.Prelude.{◌≡◌, ◌==◌, ◌≤◌, ◌<◌, ◌+◌, ◌*◌, ◌/◌, ◌^◌, IfOk, Ok, length, ℕ, Bool, slice_get, Some, List, ◌-◌, ◌++◌, ◌∷◌, ◌%◌, [], true, false, take, unwrap_or, vec_len, OnOk};
ghost use Rattle.bufr_walk.specs.Prelude.{IsFor, is_reference, max_values, numbers, texts};
ghost use Rattle.bufr_fill.specs.Prelude.{item_row, cells_at, row_contents, RowCell, unlike_line, same, lowest, increment_for, packed_over, subsets_of, AreContentsOf, padded_contents, IsRangeOf, entry_or_end, cell_line, ReturnsRow, PutAcross, number_or, spread, trimmed, most_need, PacksItem, FitsIncrement, AreShort, least_from, ends_of, first_line_at, EndsAllSubsets, entry_with, padded_content, IsContentOf, raw_limit, FieldContent, StartsPackedOut, PackedFills, spaced, AreTransposed};
ghost use Rattle.std.specs.Str.{bytes_eq};
ghost use Rattle.std.specs.List.{flat_map, list_all};
ghost use Rattle.bufr_bits.specs.Prelude.{bits_in, bits_of, padding};
ghost use Rattle.bufr_tables.specs.Prelude.{is_character};
ghost use Rattle.std.proofs.Common.{ap};

use crate::draft::{Entries, StoredEntry};
use crate::fault::{DraftFault, Expected, ItemFault, WalkRefusal};
use crate::field_value::{
    FieldContent, field_content, is_all_255, put_content, put_full, raw_limit, taken_of,
    with_spaces,
};
use bufr_bits::BitWriter;
use bufr_walk::{Fields, MAX_VALUES, Role, Spec, Taken};
use std::alloc::{AllocError, Global};
use std::marker::Model;

/// A writer that converts the items of a dump to compressed data. In compressed data, each item
/// contains the values for all subsets.
///
/// An item consists of a base, a 6-bit number `k` and, if `k` is greater than 0, an increment of
/// `k` bits (`k` octets for strings) for each subset. A single walk processes the items of all
/// subsets (FM 94 BUFR, section 4, compression).
///
/// In contracts, a writer consists of its subsets, the number of items taken from each subset, and
/// the bits written for those items. If a call fails, even with [`DraftFault::Memory`], the writer
/// is left unchanged.
#[derive(Drop)]
pub struct PackedOut<'s> {
    entries: &'s Entries,
    ends: &'s [usize],
    index: usize,
    /// Copies of the entries in the current block of [`ROWS`] rows, stored row by row.
    transposed: Vec<StoredEntry>,
    /// The field contents of the current row, one for each subset. The memory is reused for each
    /// row.
    contents: Vec<FieldContent<'s>>,
    out: BitWriter,
}

impl<'s> Model for PackedOut<'s> {
    ghost use Rattle.std.specs.Prelude.{length};
    ghost use Rattle.bufr_fill.specs.Draft.{subsets_of};
    ghost use Rattle.bufr_fill.specs.Writers.{PackedOutModel, IsPackedOut};

    ghost Value = { PackedOutModel };

    ghost view = { λ s. record {
      subsets = subsets_of s.entries.now;
      index = s.index;
      bits = s.out.bits;
    } };

    ghost invariant = { λ s. IsPackedOut s.entries.now s.ends.now s.transposed.items s.index
        (length s.out.bits) };
}

/// Writes one compressed item, which contains the values of a field in all subsets. If the values
/// are numbers, the base is the smallest of them. The increment width `k` is as small as possible.
#[tactic(auto, using(crate::proofs::RowLemmas::is_content_at))]
// rule: packs-factors-and-references, fault-59, packs-equal, packs-all-missing
fn pack_row(
    row: Row<'_, '_>,
    spec: &Spec,
    contents: &[FieldContent<'_>],
    range: NumberRange,
    out: &mut BitWriter,
) -> Result<Taken, DraftFault>
    requires values { (row.index + 1) * length row.ends.now ≤ max_values }
    requires given { row_contents spec.now (cells_at row.index (subsets_of row.entries.now))
        ≡ Ok (padded_contents (spec.now.width / 8) contents.now) }
    requires all { AreContentsOf spec.now contents.now }
    requires range { IsRangeOf range contents.now }
    requires many { length contents.now ≡ length row.ends.now }
    requires room { length out.old.bits + (2046 + 504 * length row.ends.now) ≤ 2 ^ 63 }
    ensures put { PutAcross out.old.bits out.new.bits spec.now
        (item_row row.entry.index (subsets_of row.entry.entries.now))
        (2046 + 504 * length row.entry.ends.now) result }
    ensures shape { IfOk result (λ t. IsFor spec.now t) }
{
    if are_alike(contents[0], contents, range, spec) {
        out.reserve(u64::from(spec.width()) + 6)?;
        put_content(out, contents[0], spec);
        out.put(0, 6);
        return Ok(taken_of(contents[0], spec));
    }
    match spec.role() {
        Role::Factor => {
            let line = unlike_line(row, spec, contents);
            Err(DraftFault::Item(line, ItemFault::UnequalFactor))
        }
        Role::Reference => Err(DraftFault::Item(row.first_line(), ItemFault::Increment)),
        Role::Element | Role::Inserted => {
            if spec.is_text() {
                let k = octets_needed(contents, spec);
                if k > 63 {
                    return Err(DraftFault::Item(row.first_line(), ItemFault::Increment));
                }
                pack_texts(out, contents, k, spec)?;
            } else {
                pack_numbers(out, contents, range, spec)?;
            }
            Ok(taken_of(contents[0], spec))
        }
    }
}

impl<'s> PackedOut<'s> {
    /// Creates a writer for the entries of a dump. The entries are the items of all subsets and the
    /// lines that end the subsets. The number of entries must be at most 2^45. Returns `None` if
    /// there are no subsets, because no bits are written in that case.
    ///
    /// # Errors
    ///
    /// This function does not allocate, so it never fails. Memory is allocated only when an item is
    /// written.
    pub fn new(alloc: Global, entries: &'s Entries) -> Result<Option<PackedOut<'s>>, AllocError>
        requires few { length entries.now ≤ 2 ^ 45 }
        ensures { IfOk result (λ out. StartsPackedOut (subsets_of entries.now) out) }
    {
        let ends = entries.ends();
        if ends.is_empty() {
            return Ok(None);
        }
        Ok(Some(PackedOut {
            entries,
            ends,
            index: 0,
            transposed: Vec::new(alloc),
            contents: Vec::new(alloc),
            out: BitWriter::new(alloc),
        }))
    }

    /// Returns the line number of the next item in the first subset. If the first subset has no
    /// items left, the result is the number of the line that ends it.
    pub fn line(&self) -> u64
        ensures { result ≡ first_line_at self.now.index self.now.subsets }
    {
        let row = Row {
            entries: self.entries,
            ends: self.ends,
            index: self.index,
        };
        row.first_line()
    }

    /// Checks that no items remain in any subset.
    ///
    /// # Errors
    ///
    /// [`ItemFault::WrongDescriptor`] if any items remain. The fault contains the line number of
    /// the next item in the first subset that still has items.
    pub fn end(&self) -> Result<(), DraftFault>
        ensures { EndsAllSubsets self.now.index self.now.subsets result }
    {
        let row = Row {
            entries: self.entries,
            ends: self.ends,
            index: self.index,
        };
        all_at_end(row)
    }

    /// Returns the written bits, packed into octets. The last octet is padded with zero bits. This
    /// function does not allocate.
    pub fn into_octets(self) -> Vec<u8>
        ensures bits { bits_of result.items ≡ self.entry.bits ++ padding (length self.entry.bits) }
        ensures len { vec_len result ≡ (length self.entry.bits + 7) / 8 }
    {
        self.out.into_octets()
    }
}

impl<'s> Fields for PackedOut<'s> {
    type Fault = DraftFault;

    ghost used = { λ s. length s.bits };

    ghost takes = { PackedFills };

    ghost advances = { λ s spec t next h. h.put.forth };

    ghost refuses = { λ s spec e next h. ap (λ c. length c.bits) h.1 };

    // rule: fault-order-of-subsets
    fn take(&mut self, spec: &Spec) -> Result<Taken, DraftFault> {
        let row = Row {
            entries: self.entries,
            ends: self.ends,
            index: self.index,
        };
        if (row.index as u64 + 1) * row.ends.len() as u64 > MAX_VALUES {
            let why = WalkRefusal::TooManyValues(spec.fxy());
            return Err(DraftFault::Item(row.first_line(), ItemFault::Walk(why)));
        }
        if row.index % ROWS == 0 {
            transpose(row, &mut self.transposed)?;
        }
        let range = read_row(row, &self.transposed, spec, &mut self.contents)?;
        let taken = pack_row(row, spec, &self.contents, range, &mut self.out)?;
        self.index += 1;
        Ok(taken)
    }

    fn bits(&self) -> u64 {
        self.out.len_bits()
    }
}

/// A row consists of the entries at the same index in each subset. `ends` contains the indices of
/// the entries that end subsets.
#[derive(Clone, Copy)]
pub(crate) struct Row<'a, 'b> {
    entries: &'a Entries,
    ends: &'b [usize],
    index: usize,
    ghost few: { length entries.now ≤ 2 ^ 45 },
    ghost ends_are: { ends.now ≡ ends_of 0 entries.now },
    ghost some: { 0 < length ends.now },
    ghost near: { index ≤ 2 ^ 45 },
}

impl<'a, 'b> Row<'a, 'b> {
    /// Finds a subset's entry in this row, or the entry that ends the subset if the subset is too
    /// short.
    #[inline(always)]
    fn find(self, subset: usize) -> (StoredEntry, &'a [u8])
        requires { subset < length self.ends.now }
        ensures { (c : RowCell)
            → slice_get (cells_at self.entry.index (subsets_of self.entry.entries.now)) subset
            ≡ Some c → entry_with result.0 result.1.now ≡ entry_or_end c.draft c.end_line }
    {
        let start = if subset == 0 {
            0
        } else {
            self.ends[subset - 1] + 1
        };
        self.entries
            .entry_at(self.ends[subset].min(start + self.index))
    }

    /// Like [`Row::find`], but returns the copy in `transposed` if the entry has been copied and
    /// has no octets in the block.
    #[inline(always)]
    fn find_transposed(self, transposed: &[StoredEntry], subset: usize) -> (StoredEntry, &'a [u8])
        requires within { subset < length self.ends.now }
        requires transposed { AreTransposed self.entries.now (self.index - self.index % 8)
            (length self.ends.now) transposed.now }
        ensures { (c : RowCell)
            → slice_get (cells_at self.entry.index (subsets_of self.entry.entries.now)) subset
            ≡ Some c → entry_with result.0 result.1.now ≡ entry_or_end c.draft c.end_line }
    {
        match transposed.get(self.index % ROWS * self.ends.len() + subset) {
            Some(entry) if !entry.has_octets() => (*entry, &[]),
            _ => self.find(subset),
        }
    }

    /// Returns the line number of a subset's entry in this row.
    fn line_of(self, subset: usize) -> u64
        requires { subset < length self.ends.now }
        ensures { (c : RowCell)
            → slice_get (cells_at self.entry.index (subsets_of self.entry.entries.now)) subset
            ≡ Some c → result ≡ cell_line c }
    {
        let (entry, _octets) = self.find(subset);
        entry.line
    }

    /// Returns the line number of the first subset's entry in this row.
    fn first_line(self) -> u64
        ensures { result ≡ first_line_at self.entry.index (subsets_of self.entry.entries.now) }
    {
        self.line_of(0)
    }
}

/// The number of rows whose entries are copied at once.
const ROWS: usize = 8;

/// A document with at least this many entries is considered large. Its entries occupy at least 1
/// MiB, so they may not fit in the CPU caches.
const MANY: usize = 32_768;

/// Copies the entries of the next [`ROWS`] rows (or of all remaining rows, if there are fewer), so
/// that the entries of each row are contiguous. In a large document, the entries of a row are
/// stored so far apart that almost every read misses the CPU caches. Nothing is copied if the
/// document is small or if its first subset has fewer than [`ROWS`] items.
#[inline(never)]
fn transpose(row: Row<'_, '_>, transposed: &mut Vec<StoredEntry>) -> Result<(), AllocError>
    ensures { OnOk result (AreTransposed row.entry.entries.now row.entry.index
        (length row.entry.ends.now) transposed.new.items) }
{
    let subsets = row.ends.len();
    let items = row.ends[0];
    if row.entries.len() < MANY || items < ROWS || items <= row.index {
        transposed.clear();
        return Ok(());
    }
    let rows = ROWS.min(items - row.index);
    let (first, _octets) = row.find(0);
    transposed.resize(rows * subsets, first)?;
    for subset in 0..subsets {
        for ahead in 0..rows {
            let next = Row {
                entries: row.entries,
                ends: row.ends,
                index: row.index + ahead,
            };
            let (entry, _octets) = next.find(subset);
            transposed[ahead * subsets + subset] = entry;
        }
    }
    Ok(())
}

/// Converts the entries of a row to field contents, and returns the range of the numbers in the
/// row.
fn read_row<'a>(
    row: Row<'a, '_>,
    transposed: &[StoredEntry],
    spec: &Spec,
    contents: &mut Vec<FieldContent<'a>>,
) -> Result<NumberRange, DraftFault>
    requires { AreTransposed row.entries.now (row.index - row.index % 8) (length row.ends.now)
        transposed.now }
    ensures { ReturnsRow (spec.now.width / 8) spec.now (cells_at row.entry.index
        (subsets_of row.entry.entries.now)) contents.new.items result }
{
    let spec = *spec;
    contents.clear();
    contents.reserve(row.ends.len())?;
    let mut range = NumberRange::new();
    for subset in 0..row.ends.len() {
        let (entry, octets) = row.find_transposed(transposed, subset);
        let content = field_content(&entry, octets, &spec)?;
        range = range.with(content);
        contents.push_reserved(content);
    }
    Ok(range)
}

/// Returns the line number of the first item in a row whose content differs from that of the first
/// subset's item, or 0 if there is none.
// rule: fault-58
fn unlike_line(row: Row<'_, '_>, spec: &Spec, contents: &[FieldContent<'_>]) -> u64
    requires all { AreContentsOf spec.now contents.now }
    requires many { length contents.now ≡ length row.ends.now }
    ensures { result ≡ unlike_line (padded_contents (spec.now.width / 8) contents.now)
        (cells_at row.entry.index (subsets_of row.entry.entries.now)) }
{
    for subset in 0..row.ends.len() {
        if !is_same(contents[0], contents[subset], spec) {
            return row.line_of(subset);
        }
    }
    0
}

/// Checks that no subset has an item in this row. If there are any items, the fault contains the
/// line number of the first one.
fn all_at_end(row: Row<'_, '_>) -> Result<(), DraftFault>
    ensures { EndsAllSubsets row.entry.index (subsets_of row.entry.entries.now) result }
{
    for subset in 0..row.ends.len() {
        let (entry, _octets) = row.find(subset);
        if !entry.is_end() {
            let why = ItemFault::WrongDescriptor(Expected::EndOfSubset);
            return Err(DraftFault::Item(entry.line, why));
        }
    }
    Ok(())
}

fn are_spaces(octets: &[u8]) -> bool
    ensures { result ≡ list_all (λ octet. octet == 32) octets.now }
{
    octets.iter().all(|octet| *octet == b' ')
}

/// Returns whether `longer` equals `text` followed by spaces.
#[inline(never)]
fn is_spaced(text: &[u8], longer: &[u8]) -> bool
    requires { length text.now ≤ length longer.now }
    ensures { (count : ℕ) → length longer.now ≤ count
        → result ≡ bytes_eq (spaced count longer.now) (spaced count text.now) }
{
    let (start, rest) = longer.split_at(text.len());
    start == text && are_spaces(rest)
}

/// Returns whether the contents of two fields are equal. Trailing spaces are ignored.
#[tactic(auto, using(crate::proofs::RowLemmas::same_references, crate::proofs::RowLemmas::other_references, crate::proofs::RowLemmas::same_spaced, crate::proofs::RowLemmas::spaced_other))]
#[inline(always)]
fn is_same(one: FieldContent<'_>, other: FieldContent<'_>, spec: &Spec) -> bool
    requires one { IsContentOf spec.now one }
    requires other { IsContentOf spec.now other }
    ensures { result ≡ same (padded_content (spec.now.width / 8) one.entry)
        (padded_content (spec.now.width / 8) other.entry) }
{
    match (one, other) {
        (FieldContent::Number(a), FieldContent::Number(b)) => a == b,
        (FieldContent::Text(a), FieldContent::Text(b)) if a.len() == b.len() => a == b,
        (FieldContent::Text(a), FieldContent::Text(b)) if a.len() < b.len() => is_spaced(a, b),
        (FieldContent::Text(a), FieldContent::Text(b)) => is_spaced(b, a),
        (FieldContent::Missing, FieldContent::Missing) => true,
        (FieldContent::Reference(a), FieldContent::Reference(b)) => a == b,
        _ => false,
    }
}

/// Returns whether all of `contents` are the same as `first`.
#[tactic(auto, using(crate::proofs::RowLemmas::is_content_at, crate::proofs::RowLemmas::alike_more, crate::proofs::RowLemmas::alike_not, crate::proofs::RowLemmas::alike_done))]
fn are_alike(
    first: FieldContent<'_>,
    contents: &[FieldContent<'_>],
    range: NumberRange,
    spec: &Spec,
) -> bool
    requires first { IsContentOf spec.now first }
    requires contents { AreContentsOf spec.now contents.now }
    requires range { IsRangeOf range contents.now }
    ensures { result ≡ list_all (same (padded_content (spec.now.width / 8) first.entry))
        (padded_contents (spec.now.width / 8) contents.now) }
{
    if range.base() != range.greatest {
        return false;
    }
    for other in contents {
        if !is_same(first, *other, spec) {
            return false;
        }
    }
    true
}

/// Returns the number in a field's content, or `other` if the content is not a number.
#[inline(always)]
fn number_or(other: u64, content: FieldContent<'_>) -> u64
    ensures { result ≡ number_or other content.entry }
{
    match content {
        FieldContent::Number(raw) => raw,
        FieldContent::Text(_) | FieldContent::Missing | FieldContent::Reference(_) => other,
    }
}

/// The smallest and greatest numbers in the fields of a row. If there are no numbers, `least` is
/// 2^64 - 1 and `greatest` is 0.
#[derive(Clone, Copy)]
pub(crate) struct NumberRange {
    least: u64,
    greatest: u64,
}

impl NumberRange {
    /// Creates an empty range.
    pub(crate) fn new() -> NumberRange
        ensures { IsRangeOf result [] }
    {
        NumberRange {
            least: u64::MAX,
            greatest: 0,
        }
    }

    /// Extends the range to include the number in a field's content. If the content is not a
    /// number, the range is unchanged.
    #[inline(always)]
    pub(crate) fn with(self, content: FieldContent<'_>) -> NumberRange
        ensures { (contents : List FieldContent) → IsRangeOf self contents
            → IsRangeOf result (contents ++ content.entry ∷ []) }
    {
        NumberRange {
            least: number_or(u64::MAX, content).min(self.least),
            greatest: number_or(0, content).max(self.greatest),
        }
    }

    /// Returns the smallest number in the range, or 0 if the range is empty.
    fn base(self) -> u64
        ensures { (count : ℕ) (contents : List FieldContent) → IsRangeOf self contents
            → result ≡ unwrap_or (lowest (padded_contents count contents)) 0 }
    {
        if self.least <= self.greatest {
            self.least
        } else {
            0
        }
    }
}

/// Returns the smallest `k` from 1 to 63 for which `spread` fits in a `k`-bit increment without
/// being read as missing. Returns 64 if no such `k` exists.
#[tactic(auto, using(crate::proofs::RowLemmas::least_here, crate::proofs::RowLemmas::least_later, crate::proofs::RowLemmas::least_end))]
// rule: packs-class-31
fn least_bits(spread: u64, may_be_missing: bool) -> u32
    ensures { result ≡ least_from may_be_missing spread 1 }
{
    for k in 1..64u32 {
        if spread < raw_limit(may_be_missing, k) {
            return k;
        }
    }
    64
}

/// Returns the increment for a field, which is the difference between the field's number and the
/// base. If the content of the field is not a number, the increment consists of `k` ones.
#[tactic(auto, using(crate::proofs::FieldLemmas::ones_bits))]
fn increment_of(content: FieldContent<'_>, base: u64, k: u32) -> u64
    requires narrow { k ≤ 63 }
    requires short { FitsIncrement base k content }
    ensures bits { (width count : ℕ) (m : Bool) → bits_in result k
        ≡ increment_for (numbers width m) base k (padded_content count content.entry) }
    ensures below { result < 2 ^ k }
{
    match content {
        FieldContent::Number(raw) => raw.saturating_sub(base),
        FieldContent::Text(_) => (1u64 << k) - 1,
        FieldContent::Missing => (1u64 << k) - 1,
        FieldContent::Reference(_) => (1u64 << k) - 1,
    }
}

/// Writes a `k`-bit increment for each subset.
#[tactic(auto, using(crate::proofs::RowLemmas::short_at, crate::proofs::RowLemmas::flat_done))]
fn put_increments(out: &mut BitWriter, contents: &[FieldContent<'_>], base: u64, k: u32)
    requires narrow { k ≤ 63 }
    requires short { AreShort base k contents.now }
    requires room { length contents.now * k ≤ out.old.room }
    ensures bits { (width count : ℕ) (m : Bool) → out.new.bits ≡ out.old.bits
        ++ flat_map (increment_for (numbers width m) base k) (padded_contents count contents.now) }
    ensures len { length out.new.bits ≡ length out.old.bits + length contents.now * k }
{
    for content in contents {
        out.put(increment_of(*content, base, k), k);
    }
}

/// Writes a numeric item whose values are not all equal. The base (the smallest number) is followed
/// by `k` and the increments.
// rule: packs-numbers
fn pack_numbers(
    out: &mut BitWriter,
    contents: &[FieldContent<'_>],
    range: NumberRange,
    spec: &Spec,
) -> Result<(), AllocError>
    requires number { is_character spec.now.kind ≡ false }
    requires element { is_reference spec.now.role ≡ false }
    requires contents { AreContentsOf spec.now contents.now }
    requires range { IsRangeOf range contents.now }
    requires room { length out.old.bits + (69 + 63 * length contents.now) ≤ 2 ^ 63 }
    ensures { PacksItem out.old.bits out.new.bits (packed_over spec.now
        (padded_contents (spec.now.width / 8) contents.now)) (69 + 63 * length contents.now)
        result }
{
    let width = spec.width();
    let base = range.base();
    let k = least_bits(range.greatest.saturating_sub(base), spec.may_be_missing());
    out.reserve(u64::from(width) + 6 + contents.len() as u64 * u64::from(k))?;
    out.put(base, width);
    out.put(u64::from(k), 6);
    put_increments(out, contents, base, k);
    Ok(())
}

/// Returns the length of a string without its trailing spaces.
#[tactic(auto, using(crate::proofs::RowLemmas::trimmed_here, crate::proofs::RowLemmas::trimmed_later, crate::proofs::RowLemmas::trimmed_all))]
fn trimmed_len(octets: &[u8]) -> usize
    ensures value { result ≡ trimmed octets.now }
    ensures within { result ≤ length octets.now }
{
    for spaces in 0..octets.len() {
        if octets[octets.len() - 1 - spaces] != b' ' {
            return octets.len() - spaces;
        }
    }
    0
}

/// Returns the smallest `k` greater than 0 for which every string, without its trailing spaces,
/// fits in `k` octets and is not read as missing.
#[tactic(auto, using(crate::proofs::RowLemmas::eighth_most, crate::proofs::RowLemmas::need_more, crate::proofs::RowLemmas::need_done, crate::proofs::RowLemmas::is_content_at))]
// rule: packs-texts-not-missing
fn octets_needed(contents: &[FieldContent<'_>], spec: &Spec) -> usize
    requires { AreContentsOf spec.now contents.now }
    ensures { result ≡ most_need contents.now }
{
    // This call is needed only for the proof: its contract implies that a string has at most 255
    // octets.
    let _width = spec.width();
    let mut most: usize = 1;
    for content in contents {
        if let FieldContent::Text(octets) = *content {
            let len = trimmed_len(octets);
            let needed = if is_all_255(&octets[..len]) {
                len + 1
            } else {
                len
            };
            most = needed.max(most);
        }
    }
    most
}

/// Writes the first `k` octets of a string. A shorter string is padded with spaces. A missing value
/// is written as all ones.
#[tactic(auto, using(crate::proofs::RowLemmas::eighth_most))]
fn put_prefix(out: &mut BitWriter, content: FieldContent<'_>, k: usize, spec: &Spec)
    requires few { k ≤ spec.now.width / 8 }
    requires content { IsContentOf spec.now content }
    requires room { 8 * k ≤ out.old.room }
    ensures bits { out.new.bits ≡ out.old.bits ++ increment_for (texts (spec.now.width / 8)) 0 k
        (padded_content (spec.now.width / 8) content.entry) }
    ensures len { length out.new.bits ≡ length out.old.bits + 8 * k }
    ensures room { out.old.room ≤ out.new.room + 8 * k }
{
    // This call is needed only for the proof: its contract implies that a string has at most 255
    // octets.
    let _width = spec.width();
    match content {
        FieldContent::Text(octets) => out.put_octets(&with_spaces(octets)[..k]),
        _ => put_full(out, k),
    }
}

/// Writes the first `k` octets of each string.
fn put_prefixes(out: &mut BitWriter, contents: &[FieldContent<'_>], k: usize, spec: &Spec)
    requires few { k ≤ spec.now.width / 8 }
    requires contents { AreContentsOf spec.now contents.now }
    requires room { length contents.now * (8 * k) ≤ out.old.room }
    ensures bits { out.new.bits ≡ out.old.bits
        ++ flat_map (increment_for (texts (spec.now.width / 8)) 0 k)
        (padded_contents (spec.now.width / 8) contents.now) }
    ensures len { length out.new.bits ≡ length out.old.bits + length contents.now * (8 * k) }
{
    for content in contents {
        put_prefix(out, *content, k, spec);
    }
}

/// Writes a text item whose values are not all equal. The base consists of zero bits and is
/// followed by `k` and the first `k` octets of each string.
#[tactic(auto, using(crate::proofs::RowLemmas::zero_bits))]
// rule: packs-texts
fn pack_texts(
    out: &mut BitWriter,
    contents: &[FieldContent<'_>],
    k: usize,
    spec: &Spec,
) -> Result<(), AllocError>
    requires k { k ≡ most_need contents.now }
    requires short { k ≤ 63 }
    requires text { is_character spec.now.kind ≡ true }
    requires element { is_reference spec.now.role ≡ false }
    requires contents { AreContentsOf spec.now contents.now }
    requires room { length out.old.bits + (2046 + 504 * length contents.now) ≤ 2 ^ 63 }
    ensures { PacksItem out.old.bits out.new.bits (packed_over spec.now
        (padded_contents (spec.now.width / 8) contents.now)) (2046 + 504 * length contents.now)
        result }
{
    let width = spec.width();
    out.reserve(u64::from(width) + 6 + contents.len() as u64 * (8 * k as u64))?;
    let zeros = [0u8; 255];
    out.put_octets(&zeros[..(width / 8) as usize]);
    out.put(k as u64, 6);
    put_prefixes(out, contents, k, spec);
    Ok(())
}
