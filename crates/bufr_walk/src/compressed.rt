//! Functions that read compressed data and pass the items to a visitor. In compressed data, each
//! item encodes one value per subset.
ghost use Rattle.std.specs.Prelude.{unwrap_or, option_map, ◌≡◌, ◌≤◌, ◌<◌, ◌+◌, ◌*◌, ◌^◌, false, true, length, IfSome, ◌-◌, ◌/◌, ◌++◌, drop, MatchResult, IfOk, ◌==◌, ◌&&◌, ◌||◌, not, nat_lt, take, get_or, replicate};
ghost use Rattle.bufr_bits.specs.Prelude.{bits_at, number_of, bits_of, octets_of};
ghost use Rattle.bufr_tables.specs.Prelude.{is_character};
ghost use Rattle.bufr_walk.specs.Prelude.{ones, numbers, coding_of, step_of, increments, are_valid, IsSeen, IsUnseen, stored_call, stored_content, fits_at, IsFor, is_reference, missing, number, shown, seen_value, Shows, IndexedItem, new_packed_in, PackedTakes, refuses_packed, IsSameInAll, range_calls, packed_calls};
ghost use Rattle.std.specs.List.{list_all};
ghost use Rattle.std.proofs.Common.{arith, ap};

use crate::fault::{DataFault, ShowFault};
use crate::item_index::{IndexedItem, ItemIndex};
use crate::plain::{
    answer_at, copy_octets, number_at, ones_at, raw_at, show_missing, show_value, value_at,
};
use crate::spec::{Role, Spec, Taken};
use crate::visitor::{ItemView, Value, Visitor, plain_number};
use crate::walker::Fields;
use bufr_bits::BitSlice;
use bufr_tables::{Kind, TableB};
use std::alloc::Global;
use std::marker::Model;

/// Returns whether a `k`-bit increment is valid. An increment is valid if it represents a missing
/// value or if the sum of the base and the increment fits in the field.
// rule: compressed-past-width, compressed-class-31
fn stays_within(spec: &Spec, base: u64, k: u32, increment: u64) -> bool
    requires k { k ≤ 63 }
    requires number { is_character spec.now.kind ≡ false }
    requires base { base < 2 ^ 63 }
    requires increment { increment < 2 ^ k }
    ensures { result ≡ (spec.now.may_be_missing && (increment == ones k)
        || not (nat_lt (ones spec.now.width) (base + increment))) }
{
    let missing = spec.may_be_missing() && increment == (1 << k) - 1;
    missing || base + increment <= (1 << spec.width()) - 1
}

/// Returns whether the increments of a numeric item are valid. If the base represents a missing
/// value, every increment is valid.
// rule: compressed-all-missing
fn are_number_increments_valid(
    bits: &BitSlice<'_>,
    at: u64,
    subsets: u16,
    spec: &Spec,
    k: u32,
) -> bool
    requires increment { k ≤ 63 }
    requires number { is_character spec.now.kind ≡ false }
    requires within { at + (spec.now.width + 6) + subsets * k ≤ 8 * length (octets_of bits.now) }
    ensures { result ≡ are_valid (numbers spec.now.width spec.now.may_be_missing) k subsets
        (bits_at (octets_of bits.now) at spec.now.width)
        (drop (at + (spec.now.width + 6)) (bits_of (octets_of bits.now))) }
{
    let width = spec.width();
    let base = raw_at(bits, at, width);
    let missing = base.all_ones && spec.may_be_missing();
    if missing {
        return true;
    }
    // In almost all cases, even the greatest `k`-bit increment fits, and then all increments fit.
    if base.number + ((1 << k) - 1) <= (1 << width) - 1 {
        return true;
    }
    let mut increment_at = at + (u64::from(width) + 6);
    for subset in 0..subsets {
        let increment = number_at(bits, increment_at, k);
        let stays = stays_within(spec, base.number, k, increment);
        if !stays {
            return false;
        }
        increment_at += u64::from(k);
    }
    true
}

/// Returns whether all `k`-bit increments are equal to `first`. The increments are contiguous and
/// begin at bit `at`.
fn are_equal(bits: &BitSlice<'_>, at: u64, subsets: u16, k: u32, first: u64) -> bool
    requires increment { k ≤ 63 }
    requires within { at + subsets * k ≤ 8 * length (octets_of bits.now) }
    ensures { result ≡ list_all (λ i. number_of i == first)
        (increments subsets k (drop at (bits_of (octets_of bits.now)))) }
{
    let mut increment_at = at;
    for subset in 0..subsets {
        let increment = number_at(bits, increment_at, k);
        if increment != first {
            return false;
        }
        increment_at += u64::from(k);
    }
    true
}

/// Returns the width of each increment in bits. If the field is text, `k` is the number of octets
/// in each increment. The result is 0 for a redefined reference value, which has no increments.
fn increment_bits_of(spec: &Spec, k: u32) -> u32
    requires { k ≤ 63 }
    ensures value { result ≡ step_of (coding_of spec.now) k }
    ensures most { result ≤ 504 }
{
    if spec.is_reference() {
        0
    } else if spec.is_text() {
        8 * k
    } else {
        k
    }
}

/// A valid item, as returned by [`valid_item_at`].
#[derive(Clone, Copy)]
struct ItemBits {
    /// The part of the item's value that affects the walk.
    answer: Taken,
    /// The increment width `k`, in bits or, if the field is text, in octets.
    step: u8,
    /// The base, or 0 if the field is text.
    base: u64,
    /// The index of the first bit after the item.
    end: u64,
}

/// Reads the item that begins at bit `at` and checks that it is valid.
// rule: compressed-item, compressed-increments-there, fault-30-before-34, fault-34-before-33
// rule: compressed-equal, compressed-references, compressed-factors
// rule: compressed-text-past-width, compressed-text-base
fn valid_item_at(
    bits: &BitSlice<'_>,
    at: u64,
    subsets: u16,
    spec: &Spec,
) -> Result<ItemBits, DataFault>
    requires subsets { 1 ≤ subsets }
    requires within { at ≤ 8 * length (octets_of bits.now) }
    ensures seen { MatchResult result (λ s. IsSeen (bits_of (octets_of bits.now)) at subsets
        spec.now s) (λ e. IsUnseen (bits_of (octets_of bits.now)) at subsets spec.now e) }
    ensures shape { IfOk result (λ s. IsFor spec.now s.answer) }
    ensures near { IfOk result (λ s. s.end ≤ at + 2550 * subsets) }
{
    let width = u64::from(spec.width());
    let left = bits.len_bits() - at;
    if left < width + 6 {
        return Err(DataFault::DataEnd(spec.fxy()));
    }
    let k = number_at(bits, at + width, 6) as u32;
    let size = width + 6 + u64::from(subsets) * u64::from(increment_bits_of(spec, k));
    if left < size {
        return Err(DataFault::DataEnd(spec.fxy()));
    }
    let answer = if k == 0 {
        answer_at(bits, at, spec)
    } else {
        let reference = spec.is_reference();
        if reference {
            return Err(DataFault::Increment(spec.fxy()));
        }
        let valid = match spec.kind() {
            Kind::Character => k <= spec.width() / 8,
            Kind::Coded | Kind::Numeric => are_number_increments_valid(bits, at, subsets, spec, k),
        };
        if !valid {
            return Err(DataFault::Increment(spec.fxy()));
        }
        match spec.role() {
            Role::Factor => {
                let suffix = at + (width + 6);
                let first = number_at(bits, suffix, k);
                let equal = are_equal(bits, suffix, subsets, k, first);
                if !equal {
                    return Err(DataFault::UnequalFactor(spec.fxy()));
                }
                Taken::Count(number_at(bits, at, spec.width()) + first)
            }
            Role::Element | Role::Inserted => Taken::Plain,
            Role::Reference => unreachable!(),
        }
    };
    Ok(ItemBits {
        answer,
        step: k as u8,
        base: if spec.is_text() {
            0
        } else {
            number_at(bits, at, spec.width())
        },
        end: at + size,
    })
}

/// The maximum number of values (items times subsets) in a compressed message. We chose this limit,
/// which applies to both reading and writing; FM 94 BUFR sets none.
pub const MAX_VALUES: u64 = 134_217_728;

/// A reader for the fields of compressed data. In compressed data, each item encodes one value per
/// subset. An item consists of a base, a 6-bit increment width `k` and, if `k` is not 0, an
/// increment for each subset. The reader builds an index of the items (FM 94 BUFR, section 4,
/// compression).
#[derive(Drop)]
pub struct PackedIn<'a> {
    bits: BitSlice<'a>,
    pub(crate) at: u64,
    subsets: u16,
    pub(crate) kept: ItemIndex,
}

impl<'a> Model for PackedIn<'a> {
    ghost use Rattle.bufr_bits.specs.Prelude.{bits_of, octets_of};
    ghost use Rattle.bufr_walk.specs.Readers.{PackedCursor, IsPackedIn, packed_view};

    ghost Value = { PackedCursor };

    ghost view = { λ s. packed_view (bits_of (octets_of s.bits)) s.at s.subsets s.kept };

    ghost invariant = { λ s. IsPackedIn (bits_of (octets_of s.bits)) s.at s.subsets s.kept };
}

impl<'a> PackedIn<'a> {
    /// Creates a reader that starts at bit 0 of compressed data. The data must contain at least one
    /// subset.
    pub fn new(alloc: Global, bits: BitSlice<'a>, subsets: u16) -> PackedIn<'a>
        requires { 1 ≤ subsets }
        ensures { result ≡ new_packed_in (bits_of (octets_of bits.entry)) subsets }
    {
        PackedIn {
            bits,
            at: 0,
            subsets,
            kept: ItemIndex::new(alloc),
        }
    }
}

impl<'a> Fields for PackedIn<'a> {
    type Fault = DataFault;

    ghost used = { λ s. s.at };

    ghost takes = { PackedTakes };

    ghost advances = { λ s spec t next h. Prim.omega (arith, h.forth) };

    ghost refuses = { λ s spec e next h. ap (λ c. c.at) (refuses_packed s spec e next h) };

    // rule: too-many-values, compressed-fault-order
    fn take(&mut self, spec: &Spec) -> Result<Taken, DataFault> {
        let items = self.kept.len() as u64 + 1;
        if items * u64::from(self.subsets) > MAX_VALUES {
            return Err(DataFault::TooManyValues(spec.fxy()));
        }
        let seen = valid_item_at(&self.bits, self.at, self.subsets, spec)?;
        let item = IndexedItem {
            spec: *spec,
            base: seen.base,
            at_low: (self.at % (1 << 32)) as u32,
            at_high: (self.at >> 32) as u16,
            step: seen.step,
        };
        self.kept.keep(item)?;
        self.at = seen.end;
        Ok(seen.answer)
    }

    fn bits(&self) -> u64 {
        self.at
    }
}

/// Compressed data, the number of subsets in it, and the table used to read it.
#[derive(Clone, Copy)]
pub(crate) struct PackedData<'a> {
    pub(crate) bits: BitSlice<'a>,
    pub(crate) subsets: u16,
    pub(crate) table: &'a TableB,
}

/// Returns the raw number of an item in one subset, before the reference value is added, or `None`
/// if the value is missing. Subsets are counted from 0.
#[inline(always)]
// rule: compressed-equal, compressed-all-missing, compressed-missing-increment
// rule: compressed-sum-of-ones, compressed-class-31
fn number_of(pack: &PackedData<'_>, item: &IndexedItem, subset: u16) -> Option<u64>
    requires fits { fits_at (bits_of (octets_of pack.now.bits)) pack.now.subsets item.now ≡ true }
    requires subset { subset < pack.now.subsets }
    requires number { is_character item.now.spec.kind ≡ false }
    requires value { is_reference item.now.spec.role ≡ false }
    ensures value { unwrap_or (option_map number result) missing
        ≡ stored_content (bits_of (octets_of pack.now.bits)) pack.now.subsets item.now subset }
    ensures below { IfSome result (λ raw. raw < 2 ^ item.now.spec.width) }
{
    let width = item.spec.width();
    let may_be_missing = item.spec.may_be_missing();
    if item.step == 0 {
        if may_be_missing && item.base == (1 << width) - 1 {
            return None;
        }
        return Some(item.base);
    }
    let k = u32::from(item.step);
    let increment_at = item.at() + (u64::from(width) + 6) + u64::from(subset) * u64::from(k);
    let increment = number_at(&pack.bits, increment_at, k);
    let sum = item.base + increment;
    if !may_be_missing {
        return Some(sum);
    }
    // If all bits of the base are ones, the value is missing for every increment. Otherwise, the
    // sum cannot exceed the greatest number that fits in the field.
    if increment == (1 << k) - 1 || sum >= (1 << width) - 1 {
        return None;
    }
    Some(sum)
}

/// Fills `text[from..count]` with spaces.
#[tactic(auto, using(crate::proofs::PackedShowing::pad_none, crate::proofs::PackedShowing::pad_more))]
fn pad(text: &mut [u8; 255], from: usize, count: usize)
    requires few { count ≤ 255 }
    requires order { from ≤ count }
    ensures { take count text.new ≡ take from text.old ++ replicate (count - from) 32 }
{
    'spaces: for index in from..count {
        text[index] = b' ';
    }
}

/// Returns an item's value in one subset. Subsets are counted from 0. If a string cannot be
/// borrowed from the data, it is copied to `text`.
// rule: compressed-text, compressed-text-missing
fn value_of<'a: 't, 't>(
    pack: &PackedData<'a>,
    item: &IndexedItem,
    subset: u16,
    text: &'t mut [u8; 255],
) -> Value<'t>
    requires fits { fits_at (bits_of (octets_of pack.now.bits)) pack.now.subsets item.now ≡ true }
    requires subset { subset < pack.now.subsets }
    ensures { seen_value result ≡ shown item.now.spec
        (stored_content (bits_of (octets_of pack.now.bits)) pack.now.subsets item.now subset) }
{
    if item.step == 0 {
        return value_at(&pack.bits, item.at(), &item.spec, text);
    }
    if !item.spec.is_text() {
        return match number_of(pack, item, subset) {
            Some(raw) => Value::Number(i128::from(raw) + item.spec.reference(), item.spec.scale()),
            None => Value::Missing,
        };
    }
    let width = item.spec.width();
    let k = u32::from(item.step);
    let increment_at = item.at() + (u64::from(width) + 6) + u64::from(subset) * u64::from(8 * k);
    let missing = ones_at(&pack.bits, increment_at, 8 * k);
    if missing {
        return Value::Missing;
    }
    let count = (width / 8) as usize;
    copy_octets(&pack.bits, increment_at, k as usize, text);
    pad(text, k as usize, count);
    Value::Text(&text[..count])
}

/// The slow path of [`show_item`], for items that are not plain numbers. This function takes an
/// index rather than the item itself, because passing the item would copy it again.
#[inline(never)]
fn show_other<V: Visitor>(
    pack: &PackedData<'_>,
    kept: &ItemIndex,
    index: usize,
    subset: u16,
    visitor: &mut V,
) -> Result<(), V::Fault>
    requires index { index < length kept.now }
    requires fit { list_all (fits_at (bits_of (octets_of pack.now.bits)) pack.now.subsets)
        (drop index kept.now) ≡ true }
    requires subset { subset < pack.now.subsets }
    ensures { (item : IndexedItem) → item ≡ get_or kept.now index item → V.sees visitor.old
        (stored_call pack.now.table.now (bits_of (octets_of pack.now.bits)) pack.now.subsets item
        subset) result visitor.new }
{
    let item = kept.item(index);
    let mut text = [0u8; 255];
    let value = value_of(pack, &item, subset, &mut text);
    show_value(pack.table, &item.spec, value, visitor)
}

/// Passes an item, with its value in one subset, to a visitor. Subsets are counted from 0.
#[inline(always)]
fn show_item<V: Visitor>(
    pack: &PackedData<'_>,
    kept: &ItemIndex,
    index: usize,
    subset: u16,
    visitor: &mut V,
) -> Result<(), V::Fault>
    requires index { index < length kept.now }
    requires fit { list_all (fits_at (bits_of (octets_of pack.now.bits)) pack.now.subsets)
        (drop index kept.now) ≡ true }
    requires subset { subset < pack.now.subsets }
    ensures { (item : IndexedItem) → item ≡ get_or kept.now index item → V.sees visitor.old
        (stored_call pack.now.table.now (bits_of (octets_of pack.now.bits)) pack.now.subsets item
        subset) result visitor.new }
{
    let item = kept.item(index);
    let fxy = item.spec.fxy();
    if item.spec.is_plain()
        && let Some(entry) = pack.table.get(fxy)
    {
        let Some(raw) = number_of(pack, &item, subset) else {
            return show_missing(fxy, entry, visitor);
        };
        // Pass the descriptor from the entry, so that a visitor's comparison of the two descriptors
        // can be optimized away.
        return visitor.item(&ItemView {
            fxy: entry.fxy(),
            entry: Some(entry),
            value: plain_number(&item.spec, raw),
        });
    }
    show_other(pack, kept, index, subset, visitor)
}

/// The items of compressed data, as returned by [`Reading::packed`]. Each item encodes one value
/// per subset.
///
/// [`Reading::packed`]: crate::Reading::packed
#[derive(Drop)]
pub struct PackedItems<'r, 'a> {
    pub(crate) data: PackedData<'a>,
    pub(crate) kept: &'r ItemIndex,
}

impl<'r, 'a> Model for PackedItems<'r, 'a> {
    ghost use Rattle.std.specs.Prelude.{◌≡◌, true};
    ghost use Rattle.std.specs.List.{list_all};
    ghost use Rattle.bufr_bits.specs.Prelude.{bits_of, octets_of};
    ghost use Rattle.bufr_walk.specs.Reading.{PackedValues};
    ghost use Rattle.bufr_walk.specs.Readers.{fits_at, packed_values};

    ghost Value = { PackedValues };

    ghost view = { λ p. packed_values p.data.table.now (bits_of (octets_of p.data.bits))
        p.data.subsets p.kept.now };

    ghost invariant = { λ p. list_all (fits_at (bits_of (octets_of p.data.bits)) p.data.subsets)
        p.kept.now ≡ true };
}

impl<'r, 'a> PackedItems<'r, 'a> {
    /// Returns the number of items in each subset.
    #[inline(always)]
    pub fn len(&self) -> usize
        ensures { result ≡ length self.now.items }
    {
        self.kept.len()
    }

    /// Returns the number of subsets.
    #[inline(always)]
    pub fn subsets(&self) -> u16
        ensures { result ≡ self.now.subsets }
    {
        self.data.subsets
    }

    /// Returns whether the item at the given index has no increments. Such an item has the same
    /// value in every subset.
    #[inline(always)]
    // rule: compressed-equal
    pub fn is_alike(&self, index: usize) -> bool
        requires { index < length self.now.items }
        ensures { result ≡ true → IsSameInAll self.now index }
    {
        self.kept.item(index).step == 0
    }

    /// Passes items `from..to` of one subset to a visitor. Items and subsets are counted from 0.
    ///
    /// # Errors
    ///
    /// [`ShowFault::Visitor`] if the visitor returns a fault.
    // This function is not inlined, so that its loop contains the code that formats the line of an
    // item.
    #[inline(never)]
    pub fn show<V: Visitor>(
        &self,
        from: usize,
        to: usize,
        subset: u16,
        visitor: &mut V,
    ) -> Result<(), ShowFault<V::Fault>>
        requires order { from ≤ to }
        requires within { to ≤ length self.now.items }
        requires subset { subset < self.now.subsets }
        ensures { Shows V.sees visitor.old (range_calls self.now subset from to) 0 result
            visitor.new 0 }
    {
        let (data, kept) = (self.data, self.kept);
        'items: for index in from..to {
            match show_item(&data, kept, index, subset, visitor) {
                Ok(()) => {}
                Err(fault) => return Err(ShowFault::Visitor(fault)),
            }
        }
        Ok(())
    }

    /// Passes all subsets and their items to a visitor.
    #[tactic(auto, using(crate::proofs::PackedShowing::subsets_start, crate::proofs::PackedShowing::subsets_done))]
    #[inline(never)]
    pub(crate) fn show_all<V: Visitor>(&self, visitor: &mut V) -> Result<(), ShowFault<V::Fault>>
        ensures { Shows V.sees visitor.old (packed_calls self.now) 0 result visitor.new 0 }
    {
        let len = self.len();
        'subsets: for subset in 0..self.subsets() {
            match visitor.subset(subset + 1) {
                Ok(()) => self.show(0, len, subset, visitor)?,
                Err(fault) => return Err(ShowFault::Visitor(fault)),
            }
        }
        Ok(())
    }
}
