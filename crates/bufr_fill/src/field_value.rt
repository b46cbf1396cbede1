//! Functions that convert document items to field contents, and field contents to bits.
ghost use Rattle.std.specs.Prelude.{◌≡◌, ℕ, List, ◌≤◌, ◌<◌, ◌-◌, ◌/◌, ◌^◌, ◌==◌, ◌++◌, false, length, replicate, unsigned_abs, Some, IfOk, ◌+◌, ◌*◌, true, OnOk, OnErr, pos};
ghost use Rattle.std.specs.List.{list_all};
ghost use Rattle.bufr_tables.specs.Prelude.{is_character};
ghost use Rattle.bufr_walk.specs.Prelude.{is_reference, IsFor, number, reference, bits_for, answer_of};
ghost use Rattle.bufr_bits.specs.Prelude.{decimal_value_of};
ghost use Rattle.bufr_fill.specs.Prelude.{raw_of, reference_of, is_marked, wrong_for, content_by_form, returned, padded_content, IsContentOf, raw_limit, entry_with, is_of, draft, value_by, entry_content, at_line};

use crate::draft::{StoredEntry, ValueKind};
use crate::fault::{DraftFault, Expected, ItemFault};
use bufr_bits::{BitWriter, NumberFault, ShortDecimal, decimal_read};
use bufr_tables::Fxy;
use bufr_walk::{Role, Spec, Taken};
use std::alloc::AllocError;

/// The content of a field, converted from an item of a document.
#[derive(Clone, Copy)]
pub(crate) enum FieldContent<'a> {
    /// The number to store in the field, with the reference value already subtracted.
    Number(u64),
    /// The octets of a string, which is padded with spaces when it is written.
    Text(&'a [u8]),
    /// A missing value, which is encoded as all ones.
    Missing,
    /// A redefined reference value.
    Reference(i64),
}

/// Returns the exclusive upper bound on the numbers in a field of `width` bits. If the field's
/// value can be missing, the bound also excludes the number whose bits are all ones.
pub(crate) fn raw_limit(may_be_missing: bool, width: u32) -> u64
    requires narrow { width ≤ 63 }
    ensures { result ≡ raw_limit may_be_missing width }
{
    if may_be_missing {
        (1u64 << width) - 1
    } else {
        1u64 << width
    }
}

/// Subtracts the field's reference value from a decimal value. `read` is the result of parsing the
/// decimal value with the field's scale. Returns a fault if the value cannot be parsed or if the
/// result does not fit in the field.
#[inline(always)]
// rule: fault-52, fault-53
fn raw_of_read(read: Result<i128, NumberFault>, spec: &Spec) -> Result<u64, ItemFault>
    requires { is_character spec.now.kind ≡ false }
    ensures is { returned number result ≡ raw_of spec.now read }
    ensures below { IfOk result (λ raw. raw < raw_limit spec.now.may_be_missing spec.now.width) }
{
    let value = match read {
        Ok(value) => value,
        Err(NumberFault::Syntax | NumberFault::Inexact) => return Err(ItemFault::Number),
        Err(NumberFault::Large) => return Err(ItemFault::OutOfRange),
    };
    let limit = raw_limit(spec.may_be_missing(), spec.width());
    let Some(raw) = value.checked_sub(spec.reference()) else {
        return Err(ItemFault::OutOfRange);
    };
    match u64::try_from(raw) {
        Ok(raw) if raw < limit => Ok(raw),
        _ => Err(ItemFault::OutOfRange),
    }
}

/// Returns whether every octet is 255.
pub(crate) fn is_all_255(octets: &[u8]) -> bool
    ensures { result ≡ list_all (λ octet. octet == 255) octets.now }
{
    octets.iter().all(|octet| *octet == 255)
}

/// Converts a decimal string to the number that is stored in the field.
// This function is not inlined, so that the caller does not reserve space for its results when the
// value is a short decimal number.
#[inline(never)]
fn raw_of_digits(digits: &[u8], spec: &Spec) -> Result<u64, ItemFault>
    requires { is_character spec.now.kind ≡ false }
    ensures is { returned number result
        ≡ raw_of spec.now (decimal_value_of digits.now spec.now.scale) }
    ensures below { IfOk result (λ raw. raw < raw_limit spec.now.may_be_missing spec.now.width) }
{
    raw_of_read(decimal_read(digits, spec.scale()), spec)
}

/// Converts a decimal string to a redefined reference value.
#[inline(never)]
fn reference_of_digits(digits: &[u8], spec: &Spec) -> Result<i64, ItemFault>
    requires { is_reference spec.now.role ≡ true }
    ensures is { returned reference result
        ≡ reference_of spec.now (decimal_value_of digits.now (pos 0)) }
    ensures below { IfOk result (λ value. unsigned_abs value < 2 ^ (spec.now.width - 1)) }
{
    let value = match decimal_read(digits, 0) {
        Ok(value) => value,
        Err(NumberFault::Large) => return Err(ItemFault::OutOfRange),
        Err(_) => return Err(ItemFault::Number),
    };
    // The magnitude must fit in the bits that follow the sign bit.
    if value.unsigned_abs() >= 1u128 << (spec.width() - 1) {
        return Err(ItemFault::OutOfRange);
    }
    Ok(value as i64)
}

/// Converts the value of an item to the content of its field.
#[inline(always)]
#[tactic(auto, using(crate::proofs::FieldLemmas::all_of_spaced))]
// rule: fault-52, fault-53, fault-54, fault-55, fault-order-of-an-item
fn content_by_form<'a>(
    kind: ValueKind,
    digits: usize,
    octets: &'a [u8],
    spec: &Spec,
) -> Result<FieldContent<'a>, ItemFault>
    requires mark { is_reference spec.now.role ≡ is_marked (value_by kind digits octets.now) }
    ensures is { returned (padded_content (spec.now.width / 8)) result
        ≡ content_by_form (value_by kind digits octets.now) spec.now }
    ensures content { IfOk result (λ d. IsContentOf spec.now d) }
{
    let count = (spec.width() / 8) as usize;
    match kind {
        ValueKind::Decimal { places, negative } => {
            if spec.is_text() {
                return Err(ItemFault::Number);
            }
            let number = ShortDecimal {
                digits: digits as u64,
                places,
                negative,
            };
            let read = number.scaled(spec.scale());
            Ok(FieldContent::Number(raw_of_read(read, spec)?))
        }
        ValueKind::Number if spec.is_text() => Err(ItemFault::Number),
        ValueKind::Number => Ok(FieldContent::Number(raw_of_digits(octets, spec)?)),
        ValueKind::Text if !spec.is_text() => Err(ItemFault::Number),
        ValueKind::Text if octets.len() > count => Err(ItemFault::TextLong),
        ValueKind::Text => {
            if is_all_255(octets) && octets.len() == count {
                return Err(ItemFault::OutOfRange);
            }
            Ok(FieldContent::Text(octets))
        }
        ValueKind::Missing if spec.may_be_missing() => Ok(FieldContent::Missing),
        ValueKind::Missing => Err(ItemFault::MissingForbidden),
        ValueKind::Reference => Ok(FieldContent::Reference(reference_of_digits(octets, spec)?)),
    }
}

/// Returns whether an item belongs to a field. The item and the field must have the same
/// descriptor, and the item must have the mark `R` if and only if the field redefines a reference
/// value.
#[inline(always)]
// rule: fault-51
fn is_of(fxy: Fxy, kind: ValueKind, spec: &Spec) -> bool
    ensures { (line digits : ℕ) (octets : List ℕ)
        → result ≡ is_of spec.now (draft line fxy (value_by kind digits octets)) }
{
    match kind {
        ValueKind::Reference => fxy == spec.fxy() && spec.is_reference(),
        _ => fxy == spec.fxy() && !spec.is_reference(),
    }
}

/// Returns the fault for a line that does not contain the expected item.
pub(crate) fn wrong_item(spec: &Spec, line: u64) -> DraftFault
    ensures { result ≡ at_line line (wrong_for spec.now) }
{
    let expected = if spec.is_reference() {
        Expected::Reference(spec.fxy())
    } else {
        Expected::Item(spec.fxy())
    };
    DraftFault::Item(line, ItemFault::WrongDescriptor(expected))
}

/// Converts an entry of a document to the content of a field.
#[inline(always)]
// rule: fault-order-of-an-item
pub(crate) fn field_content<'a>(
    entry: &StoredEntry,
    octets: &'a [u8],
    spec: &Spec,
) -> Result<FieldContent<'a>, DraftFault>
    ensures is { returned (padded_content (spec.now.width / 8)) result
        ≡ entry_content spec.now (entry_with entry.now octets.now) }
    ensures content { IfOk result (λ d. IsContentOf spec.now d) }
{
    let Some(kind) = entry.kind else {
        return Err(wrong_item(spec, entry.line));
    };
    if !is_of(entry.fxy, kind, spec) {
        return Err(wrong_item(spec, entry.line));
    }
    match content_by_form(kind, entry.start, octets, spec) {
        Ok(content) => Ok(content),
        Err(why) => Err(DraftFault::Item(entry.line, why)),
    }
}

/// Returns a copy of the octets, padded with spaces to 255 octets.
#[tactic(auto, using(crate::proofs::FieldLemmas::spaced_whole))]
pub(crate) fn with_spaces(octets: &[u8]) -> [u8; 255]
    requires { length octets.now ≤ 255 }
    ensures { result ≡ octets.now ++ replicate (255 - length octets.now) 32 }
{
    let mut all = [b' '; 255];
    all[..octets.len()].copy_from_slice(octets);
    all
}

/// Appends `count` octets with the value 255.
#[tactic(auto, using(crate::proofs::FieldLemmas::full_bits))]
pub(crate) fn put_full(out: &mut BitWriter, count: usize)
    requires most { count ≤ 255 }
    requires room { 8 * count ≤ out.old.room }
    ensures bits { out.new.bits ≡ out.old.bits ++ replicate (8 * count) true }
    ensures len { length out.new.bits ≡ length out.old.bits + 8 * count }
    ensures room { out.old.room ≤ out.new.room + 8 * count }
{
    let ones = [255u8; 255];
    out.put_octets(&ones[..count]);
}

/// Encodes the content of a field and appends the bits to `out`. Space for the bits must already be
/// reserved in `out`.
#[inline(always)]
#[tactic(auto, using(crate::proofs::FieldLemmas::top_below, crate::proofs::FieldLemmas::spaced_prefix, crate::proofs::FieldLemmas::eighths_ones, crate::proofs::FieldLemmas::ones_bits, crate::proofs::FieldLemmas::negative_bits, crate::proofs::FieldLemmas::positive_bits))]
// rule: writes-plus-zero
pub(crate) fn put_content(out: &mut BitWriter, content: FieldContent<'_>, spec: &Spec)
    requires content { IsContentOf spec.now content }
    requires room { spec.now.width ≤ out.old.room }
    ensures bits { out.new.bits
        ≡ out.old.bits
        ++ bits_for spec.now.width (padded_content (spec.now.width / 8) content.entry) }
    ensures len { length out.new.bits ≡ length out.old.bits + spec.now.width }
    ensures room { out.old.room ≤ out.new.room + spec.now.width }
{
    let width = spec.width();
    match content {
        FieldContent::Number(raw) => out.put(raw, width),
        FieldContent::Text(octets) => {
            out.put_octets(&with_spaces(octets)[..(width / 8) as usize]);
        }
        FieldContent::Missing if spec.is_text() => put_full(out, (width / 8) as usize),
        FieldContent::Missing => out.put((1u64 << width) - 1, width),
        FieldContent::Reference(value) if value < 0 => {
            out.put((1u64 << (width - 1)) + value.unsigned_abs(), width);
        }
        FieldContent::Reference(value) => out.put(value.unsigned_abs(), width),
    }
}

/// Reserves space for the content of a field, encodes it, and appends the bits.
#[inline(always)]
#[tactic(auto, using(crate::proofs::FieldLemmas::top_below))]
pub(crate) fn push_content(
    out: &mut BitWriter,
    content: FieldContent<'_>,
    spec: &Spec,
) -> Result<(), AllocError>
    requires content { IsContentOf spec.now content }
    requires room { length out.old.bits + 2040 ≤ 2 ^ 63 }
    ensures ok { OnOk result (out.new.bits ≡ out.old.bits
        ++ bits_for spec.now.width (padded_content (spec.now.width / 8) content.entry)) }
    ensures some { OnOk result (length out.old.bits < length out.new.bits) }
    ensures most { OnOk result (length out.new.bits ≤ length out.old.bits + 2040) }
    ensures err { OnErr result (out.new.bits ≡ out.old.bits) }
{
    let width = spec.width();
    if let FieldContent::Number(raw) = content {
        return out.push(raw, width);
    }
    out.reserve(u64::from(width))?;
    put_content(out, content, spec);
    Ok(())
}

/// Returns the part of a field's content that affects the walk.
#[inline(always)]
#[tactic(auto, using(crate::proofs::FieldLemmas::answer_count, crate::proofs::FieldLemmas::answer_reference, crate::proofs::FieldLemmas::answer_element, crate::proofs::FieldLemmas::answer_inserted))]
pub(crate) fn taken_of(content: FieldContent<'_>, spec: &Spec) -> Taken
    ensures gives { result
        ≡ answer_of spec.now (padded_content (spec.now.width / 8) content.entry) }
    ensures shape { IsFor spec.now result }
{
    match (spec.role(), content) {
        (Role::Factor, FieldContent::Number(raw)) => Taken::Count(raw),
        (Role::Factor, _) => Taken::Count(0),
        (Role::Reference, FieldContent::Reference(value)) => Taken::Reference(value),
        (Role::Reference, _) => Taken::Reference(0),
        (Role::Element | Role::Inserted, _) => Taken::Plain,
    }
}
