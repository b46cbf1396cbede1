//! Functions that read plain (uncompressed) data and pass the items to a visitor.
ghost use Rattle.std.specs.Prelude.{◌≡◌, ◌≤◌, ◌<◌, ◌+◌, ◌-◌, ◌*◌, ◌^◌, length, take, drop, if◌then◌else◌, ◌==◌, pos, neg_ℤ, false, IfOk, IfErr, ◌/◌, Result, Some, None, Ok, Err, MatchResult};
ghost use Rattle.bufr_bits.specs.Prelude.{number_of, bits_at, bits_of, are_all_ones, octets_of};
ghost use Rattle.bufr_walk.specs.Prelude.{IsFor, answer_of, content_in, signed_by, octets_in, Content, shown, next_item, counted_item, bits_before, data_in, ReadsData, plain, read_pass, passes_apart, stop_of, items_by_pass, turns_in, PaysBits, reading_of, rest_of, ItemsGo, item_call, view_of, subset_calls, seen_value, Shows, PlainTakes, past, shown_missing};
ghost use Rattle.bufr_tables.specs.Prelude.{places, row_of_entry};
ghost use Rattle.std.proofs.Common.{arith, ap};
ghost use Rattle.bufr_walk.specs.Readers.{ShowingTakes, refusal_keeps, stage, view};

use crate::fault::{DataFault, ShowFault, WalkFault, fault_at};
use crate::spec::{Role, Spec, Taken};
use crate::spec_cache::SpecCache;
use crate::visitor::{ItemView, Value, Visitor, plain_number};
use crate::walker::{Fields, Frame, Steps, WalkStop, walk_with};
use arrayvec::ArrayVec;
use bufr_bits::BitSlice;
use bufr_tables::{Entry, Fxy, TableB, Template};
use std::marker::Model;

/// Returns the `width`-bit number that begins at bit `at`. The bits must lie within the data. If
/// `width` is 0, the number is 0.
#[inline(always)]
pub(crate) fn number_at(bits: &BitSlice<'_>, at: u64, width: u32) -> u64
    requires few { width ≤ 63 }
    requires within { at + width ≤ 8 * length (octets_of bits.now) }
    ensures value { result ≡ number_of (bits_at (octets_of bits.now) at width) }
    ensures below { result < 2 ^ width }
{
    if width == 0 {
        return 0;
    }
    bits.number(at, width)
}

/// A number read from a field, and whether all bits of the field are ones.
#[derive(Clone, Copy)]
pub(crate) struct RawNumber {
    /// The unsigned number in the field.
    pub(crate) number: u64,
    /// Whether all bits of the field are ones.
    pub(crate) all_ones: bool,
}

/// Reads the `width`-bit number that begins at bit `at`. The width must be 1 to 63, and the bits
/// must lie within the data.
#[inline(always)]
pub(crate) fn raw_at(bits: &BitSlice<'_>, at: u64, width: u32) -> RawNumber
    requires some { 1 ≤ width }
    requires few { width ≤ 63 }
    requires within { at + width ≤ 8 * length (octets_of bits.now) }
    ensures number { result.number ≡ number_of (bits_at (octets_of bits.now) at width) }
    ensures below { result.number < 2 ^ width }
    ensures ones { result.all_ones ≡ are_all_ones (bits_at (octets_of bits.now) at width) }
{
    let number = bits.number(at, width);
    RawNumber {
        number,
        all_ones: number == (1 << width) - 1,
    }
}

/// Returns `size`, or `-size` if `sign` is 1.
// rule: reads-minus-zero
fn signed(sign: u64, size: u64) -> i64
    requires { size < 2 ^ 62 }
    ensures { result ≡ (if sign == 1 then neg_ℤ (pos size) else pos size) }
{
    let size = size as i64;
    if sign == 1 { -size } else { size }
}

/// Returns the `width`-bit signed number that begins at bit `at`. The first bit is the sign, and
/// the other bits are the magnitude.
#[tactic(auto, using(crate::proofs::PlainLemmas::signed_parts, crate::proofs::PlainLemmas::small_power))]
// rule: new-reference
pub(crate) fn signed_at(bits: &BitSlice<'_>, at: u64, width: u32) -> i64
    requires some { 1 ≤ width }
    requires few { width ≤ 63 }
    requires within { at + width ≤ 8 * length (octets_of bits.now) }
    ensures { result ≡ signed_by (bits_at (octets_of bits.now) at width) }
{
    let sign = number_at(bits, at, 1);
    let size = number_at(bits, at + 1, width - 1);
    signed(sign, size)
}

/// Returns the field's value if the field is a replication factor or redefines a reference value,
/// and [`Taken::Plain`] otherwise. The field must lie within the data.
#[inline(always)]
#[tactic(auto, using(crate::proofs::ShownLemmas::plain_answer, crate::proofs::ShownLemmas::plain_for, crate::proofs::PlainLemmas::answer_element, crate::proofs::PlainLemmas::answer_inserted, crate::proofs::PlainLemmas::answer_factor, crate::proofs::PlainLemmas::answer_reference, crate::proofs::PlainLemmas::some_width, crate::proofs::PlainLemmas::factor_width, crate::proofs::PlainLemmas::reference_width))]
pub(crate) fn answer_at(bits: &BitSlice<'_>, at: u64, spec: &Spec) -> Taken
    requires { at + spec.now.width ≤ 8 * length (octets_of bits.now) }
    ensures value { result ≡ answer_of spec.now
        (content_in spec.now (bits_at (octets_of bits.now) at spec.now.width)) }
    ensures shape { IsFor spec.now result }
{
    if spec.is_plain() {
        return Taken::Plain;
    }
    let width = spec.width();
    match spec.role {
        Role::Element | Role::Inserted => Taken::Plain,
        Role::Factor => Taken::Count(number_at(bits, at, width)),
        Role::Reference => Taken::Reference(signed_at(bits, at, width)),
    }
}

/// Returns whether the `width` bits that begin at bit `at` are all ones. The bits must lie within
/// the data.
pub(crate) fn ones_at(bits: &BitSlice<'_>, at: u64, width: u32) -> bool
    requires { at + width ≤ 8 * length (octets_of bits.now) }
    ensures { result ≡ are_all_ones (bits_at (octets_of bits.now) at width) }
{
    match bits.all_ones(at, width) {
        Some(ones) => ones,
        None => unreachable!(),
    }
}

/// Copies `count` octets of the data, beginning at bit `at`, to `text`. `at` need not be a multiple
/// of 8.
pub(crate) fn copy_octets(bits: &BitSlice<'_>, at: u64, count: usize, text: &mut [u8; 255])
    requires few { count ≤ 255 }
    requires within { at + 8 * count ≤ 8 * length (octets_of bits.now) }
    ensures { take count text.new ≡ octets_in count (drop at (bits_of (octets_of bits.now))) }
{
    let mut copied = 0;
    'fours: while copied + 4 <= count {
        let word = bits.number(at + 8 * copied as u64, 32);
        text[copied] = (word >> 24) as u8;
        text[copied + 1] = ((word >> 16) % 256) as u8;
        text[copied + 2] = ((word >> 8) % 256) as u8;
        text[copied + 3] = (word % 256) as u8;
        copied += 4;
    }
    'octets: for index in copied..count {
        text[index] = bits.number(at + 8 * index as u64, 8) as u8;
    }
}

/// Returns the value of the field that begins at bit `at`. If a string cannot be borrowed from the
/// data, it is copied to `text`.
#[tactic(auto, using(crate::proofs::ShownLemmas::reference_shown, crate::proofs::ShownLemmas::missing_shown, crate::proofs::ShownLemmas::number_shown))]
// rule: value, missing, missing-inserted-text
pub(crate) fn value_at<'a: 't, 't>(
    bits: &BitSlice<'a>,
    at: u64,
    spec: &Spec,
    text: &'t mut [u8; 255],
) -> Value<'t>
    requires { at + spec.now.width ≤ 8 * length (octets_of bits.now) }
    ensures { seen_value result
        ≡ shown spec.now (content_in spec.now (bits_at (octets_of bits.now) at spec.now.width)) }
{
    let width = spec.width();
    if spec.is_text() {
        let missing = ones_at(bits, at, width);
        if missing {
            return Value::Missing;
        }
        let count = (width / 8) as usize;
        if let Some(octets) = bits.octets(at, count) {
            return Value::Text(octets);
        }
        copy_octets(bits, at, count, text);
        return Value::Text(&text[..count]);
    }
    if spec.is_reference() {
        return Value::Reference(signed_at(bits, at, width));
    }
    let raw = raw_at(bits, at, width);
    let missing = raw.all_ones && spec.may_be_missing();
    if missing {
        return Value::Missing;
    }
    Value::Number(i128::from(raw.number) + spec.reference(), spec.scale())
}

/// A reader for the fields of plain data. Contracts model a reader as the data bits and the number
/// of bits read so far (FM 94 BUFR, section 4).
#[derive(Drop)]
pub struct PlainIn<'a> {
    bits: BitSlice<'a>,
    at: u64,
}

impl<'a> Model for PlainIn<'a> {
    ghost use Rattle.std.specs.Prelude.{◌≤◌, length};
    ghost use Rattle.bufr_bits.specs.Prelude.{bits_of, octets_of};
    ghost use Rattle.bufr_walk.specs.Readers.{Cursor};

    ghost Value = { Cursor };

    ghost view = { λ s. record { bits = bits_of (octets_of s.bits); at = s.at } };

    ghost invariant = { λ s. s.at ≤ length (bits_of (octets_of s.bits)) };
}

impl<'a> PlainIn<'a> {
    /// Creates a reader that starts at bit 0 of plain data.
    pub fn new(bits: BitSlice<'a>) -> PlainIn<'a>
        ensures { result ≡ record { bits = bits_of (octets_of bits.entry); at = 0 } }
    {
        PlainIn { bits, at: 0 }
    }

    /// Returns the [`Taken`] value of the next field without advancing the reader. Returns
    /// [`DataFault::DataEnd`] if the field extends past the end of the data.
    #[tactic(auto, using(crate::proofs::PlainLemmas::taken_here, crate::proofs::PlainLemmas::ends_here, crate::proofs::PlainLemmas::bits_length))]
    #[inline(always)]
    // rule: field-past-end
    pub(crate) fn peek(&self, spec: &Spec) -> Result<Taken, DataFault>
        ensures found { MatchResult result (λ t. PlainTakes self.now spec.now (Ok t)
            (past self.now spec.now)) (λ e. PlainTakes self.now spec.now (Err e) self.now) }
        ensures shape { IfOk result (λ t. IsFor spec.now t) }
        ensures within { IfOk result (λ t. self.now.at + spec.now.width ≤ length self.now.bits) }
        ensures small { IfOk result (λ t. self.now.at + spec.now.width < 2 ^ 64) }
    {
        let width = spec.width();
        if self.bits.len_bits() - self.at < u64::from(width) {
            return Err(DataFault::DataEnd(spec.fxy));
        }
        Ok(answer_at(&self.bits, self.at, spec))
    }
}

impl<'a> Fields for PlainIn<'a> {
    type Fault = DataFault;

    ghost used = { λ s. s.at };

    ghost takes = { PlainTakes };

    ghost advances = { λ s spec t next h. Prim.omega (arith, h.some, ap (λ c. c.at) h.next) };

    ghost refuses = { λ s spec e next h. ap (λ c. c.at) h.1 };

    #[inline(always)]
    fn take(&mut self, spec: &Spec) -> Result<Taken, DataFault> {
        let answer = self.peek(spec)?;
        self.at += u64::from(spec.width());
        Ok(answer)
    }

    fn bits(&self) -> u64 {
        self.at
    }
}

/// Reads all subsets and returns the number of bits that they occupy.
// rule: operators-end-with-subset, subsets-without-padding, bits-left-over
pub(crate) fn read_plain(
    bits: BitSlice<'_>,
    subsets: u16,
    template: &Template,
    cache: &mut SpecCache<'_>,
    steps: &mut Steps,
) -> Result<u64, WalkFault>
    requires { steps.old ≡ 0 }
    ensures same { cache.new ≡ cache.old }
    ensures reads { ReadsData (counted_item cache.old template.now)
        (data_in false subsets (octets_of bits.entry)) result steps.new }
    ensures paid { IfOk result (λ used. PaysBits (reading_of (next_item cache.old template.now)
        (data_in false subsets (octets_of bits.entry))).values used) }
    ensures accepted { IfOk result (λ used. steps.new ≤ places template.now * used) }
    ensures refused { IfErr result (λ why. steps.new
        ≤ places template.now * (bits_before why (length (bits_of (octets_of bits.entry))) + 1)) }
{
    let mut fields = PlainIn::new(bits);
    let mut open_groups = ArrayVec::new();
    'subsets: for done in 0..subsets {
        let outcome = walk_with(template, cache, &mut open_groups, &mut fields, steps);
        let at = fields.at;
        match outcome {
            Ok(()) => {}
            Err(why) => return Err(fault_at(why, done + 1, at)),
        }
    }
    Ok(fields.at)
}

/// Passes an item with the given value to a visitor.
// rule: text-no-comment
pub(crate) fn show_value<V: Visitor>(
    table: &TableB,
    spec: &Spec,
    value: Value<'_>,
    visitor: &mut V,
) -> Result<(), V::Fault>
    ensures { (content : Content) → seen_value value.entry ≡ shown spec.now content
        → V.sees visitor.old (item_call (view_of table.now spec.now content)) result visitor.new }
{
    let fxy = spec.fxy;
    let entry = if spec.listed() { table.get(fxy) } else { None };
    visitor.item(&ItemView { fxy, entry, value })
}

/// Passes an item whose value is missing to a visitor. This function is not inlined, to keep the
/// code for numbers small.
#[inline(never)]
pub(crate) fn show_missing<V: Visitor>(
    fxy: Fxy,
    entry: Entry<'_>,
    visitor: &mut V,
) -> Result<(), V::Fault>
    ensures { V.sees visitor.old (item_call (view fxy (Some (row_of_entry entry.entry))
        shown_missing)) result visitor.new }
{
    visitor.item(&ItemView {
        fxy,
        entry: Some(entry),
        value: Value::Missing,
    })
}

/// The slow path of [`show_field`], for fields that are not plain numbers.
#[inline(never)]
fn show_other<V: Visitor>(
    input: &PlainIn<'_>,
    table: &TableB,
    spec: &Spec,
    text: &mut [u8; 255],
    visitor: &mut V,
) -> Result<(), V::Fault>
    requires { input.now.at + spec.now.width ≤ length input.now.bits }
    ensures { V.sees visitor.old (item_call (view_of table.now spec.now
        (content_in spec.now (take spec.now.width (rest_of input.now))))) result visitor.new }
{
    let value = value_at(&input.bits, input.at, spec, text);
    show_value(table, spec, value, visitor)
}

/// Passes the next item to a visitor. This function is not inlined, to keep the loop over the
/// fields small.
#[tactic(auto, using(crate::proofs::ShownLemmas::plain_shown, crate::proofs::ShownLemmas::plain_missing))]
#[inline(never)]
fn show_field<V: Visitor>(
    input: &PlainIn<'_>,
    table: &TableB,
    spec: &Spec,
    text: &mut [u8; 255],
    visitor: &mut V,
) -> Result<(), V::Fault>
    requires { input.now.at + spec.now.width ≤ length input.now.bits }
    ensures { V.sees visitor.old (item_call (view_of table.now spec.now
        (content_in spec.now (take spec.now.width (rest_of input.now))))) result visitor.new }
{
    let fxy = spec.fxy;
    if spec.is_plain()
        && let Some(entry) = table.get(fxy)
    {
        let raw = raw_at(&input.bits, input.at, spec.width());
        if raw.all_ones && spec.may_be_missing {
            return show_missing(fxy, entry, visitor);
        }
        return visitor.item(&ItemView {
            fxy,
            entry: Some(entry),
            value: plain_number(spec, raw.number),
        });
    }
    show_other(input, table, spec, text, visitor)
}

/// The reason why [`ShowFields`] could not process a field.
#[derive(Drop)]
pub(crate) enum ShowStop<E> {
    DataEnd,
    Visitor(E),
}

/// Fields that are read from plain data and passed to a visitor. The reader advances only after the
/// visitor accepts a field.
#[derive(Drop)]
pub(crate) struct ShowFields<'i, 't, 'v, 'b, V: Visitor> {
    input: &'i mut PlainIn<'b>,
    table: &'t TableB,
    visitor: &'v mut V,
    /// A buffer for strings that do not begin at an octet boundary.
    text: [u8; 255],
}

impl<'i, 't, 'v, 'b, V: Visitor> Fields for ShowFields<'i, 't, 'v, 'b, V> {
    type Fault = ShowStop<V::Fault>;

    ghost used = { λ s. s.input.now.at };

    ghost takes = { λ s spec r t. ShowingTakes V.sees
        (stage s.input.now s.visitor.now s.table.now s.input.ghost_name s.visitor.ghost_name) spec r
        (stage t.input.now t.visitor.now t.table.now t.input.ghost_name t.visitor.ghost_name) };

    ghost advances = { λ s spec answer next h.
        Prim.omega (arith, h.is_taken.some, ap (λ c. c.at) h.is_taken.next) };

    ghost refuses = { λ s spec e next h. refusal_keeps V.sees
        (stage s.input.now s.visitor.now s.table.now s.input.ghost_name s.visitor.ghost_name) spec e
        (stage next.input.now next.visitor.now next.table.now next.input.ghost_name
        next.visitor.ghost_name) h };

    #[inline(always)]
    fn take(&mut self, spec: &Spec) -> Result<Taken, ShowStop<V::Fault>> {
        let answer = match self.input.peek(spec) {
            Ok(answer) => answer,
            Err(_) => return Err(ShowStop::DataEnd),
        };
        match show_field(self.input, self.table, spec, &mut self.text, self.visitor) {
            Ok(()) => {
                let input = &mut *self.input;
                input.at += u64::from(spec.width());
                Ok(answer)
            }
            Err(fault) => Err(ShowStop::Visitor(fault)),
        }
    }

    fn bits(&self) -> u64 {
        self.input.bits()
    }
}

/// Walks over the template once and passes the items of one subset to a visitor.
fn walk_showing<V: Visitor>(
    template: &Template,
    cache: &mut SpecCache<'_>,
    open_groups: &mut ArrayVec<Frame, 32>,
    fields: &mut ShowFields<'_, '_, '_, '_, V>,
    steps: &mut Steps,
) -> Result<(), ShowFault<V::Fault>>
    requires same { fields.old.table.now ≡ cache.old }
    requires readable { (read_pass plain (λ items. false) (next_item cache.old template.now)
        (rest_of fields.old.input.now)).stop ≡ None }
    ensures same { cache.new ≡ cache.old }
    ensures input { fields.new.input.ghost_name ≡ fields.old.input.ghost_name }
    ensures visitor { fields.new.visitor.ghost_name ≡ fields.old.visitor.ghost_name }
    ensures shown { ItemsGo V.sees cache.old (counted_item cache.old template.now)
        fields.old.input.now fields.old.visitor.now steps.old result fields.new.input.now
        fields.new.visitor.now steps.new }
{
    match walk_with(template, cache, open_groups, fields, steps) {
        Ok(()) => Ok(()),
        Err(why) => match why {
            WalkStop::Field(ShowStop::Visitor(fault)) => Err(ShowFault::Visitor(fault)),
            WalkStop::Memory => Err(ShowFault::Memory),
            _ => unreachable!(),
        },
    }
}

/// The reader and the stack of open groups that are reused for every subset.
#[derive(Drop)]
struct PlainWalks<'b> {
    input: PlainIn<'b>,
    open_groups: ArrayVec<Frame, 32>,
}

/// Passes the items of one subset to a visitor.
fn show_items<V: Visitor>(
    template: &Template,
    cache: &mut SpecCache<'_>,
    walks: &mut PlainWalks<'_>,
    visitor: &mut V,
    steps: &mut Steps,
) -> Result<(), ShowFault<V::Fault>>
    requires { (read_pass plain (λ items. false) (next_item cache.old template.now)
        (rest_of walks.old.input)).stop ≡ None }
    ensures same { cache.new ≡ cache.old }
    ensures shown { ItemsGo V.sees cache.old (counted_item cache.old template.now) walks.old.input
        visitor.old steps.old result walks.new.input visitor.new steps.new }
{
    let table = cache.table;
    let mut fields = ShowFields {
        input: &mut walks.input,
        table,
        visitor,
        text: [0; 255],
    };
    walk_showing(template, cache, &mut walks.open_groups, &mut fields, steps)
}

/// Plain data, the number of subsets in it, and its template.
#[derive(Drop)]
pub(crate) struct PlainData<'a> {
    pub bits: BitSlice<'a>,
    pub subsets: u16,
    pub template: &'a Template,
}

/// Passes all subsets and their items to a visitor.
pub(crate) fn show_plain<V: Visitor>(
    given: &PlainData<'_>,
    cache: &mut SpecCache<'_>,
    visitor: &mut V,
    steps: &mut Steps,
) -> Result<(), ShowFault<V::Fault>>
    requires steps { steps.old ≡ 0 }
    requires readable { stop_of (passes_apart (next_item cache.old given.now.template.now)
        given.now.subsets (bits_of (octets_of given.now.bits))) ≡ None }
    ensures same { cache.new ≡ cache.old }
    ensures shown { let all = items_by_pass (passes_apart
        (next_item cache.old given.now.template.now) given.now.subsets
        (bits_of (octets_of given.now.bits))) in
        Shows V.sees visitor.old
        (subset_calls cache.old (counted_item cache.old given.now.template.now) 0 1 all)
        (turns_in answer_of (counted_item cache.old given.now.template.now) all) result
        visitor.new steps.new }
{
    let mut walks = PlainWalks {
        input: PlainIn::new(given.bits),
        open_groups: ArrayVec::new(),
    };
    'subsets: for done in 0..given.subsets {
        match visitor.subset(done + 1) {
            Ok(()) => show_items(given.template, cache, &mut walks, visitor, steps)?,
            Err(fault) => return Err(ShowFault::Visitor(fault)),
        }
    }
    Ok(())
}
