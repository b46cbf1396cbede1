//! Conversion between decimal text and scaled integers. An integer v with scale s represents the
//! number v / 10^s.
ghost use Rattle.std.specs.Prelude.{◌≡◌, ◌≤◌, ◌<◌, ◌+◌, ◌*◌, ◌^◌, ◌++◌, ◌==◌, ℕ, true, false, length, replicate, take, get_or, vec_len, vec_capacity, IfSome, MatchOption, OnOk, OnErr};
ghost use Rattle.std.specs.Char.{is_ascii_digit};
ghost use Rattle.std.specs.List.{list_all, position};
ghost use Rattle.std.specs.Str.Parse.{digits_value, digits_value_after, starts_with_minus};
ghost use Rattle.bufr_bits.specs.Device.{capped, capped_ok};
ghost use Rattle.bufr_bits.specs.Decimal.{decimal_text_of, pointed, sign_of, decimal_value_of, unsigned_part, is_unsigned, all_digits, is_digits, IsParts, positive_scale, negative_scale, whole_quotient, signed, IsPlainDecimal, short_text, is_decimal_octet, continues_number, searched_octets};

use crate::bit_writer::put;
use itoa::Buffer;
use std::alloc::AllocError;
use thiserror::Error;

/// The reason why text cannot be read as a number with a given scale. If several faults apply, the
/// one listed first is reported.
#[derive(Clone, Copy, Debug, PartialEq, Eq, Error)]
pub enum NumberFault {
    /// The text is not a decimal number (an optional `-`, one or more digits and, optionally, a
    /// decimal point followed by one or more digits).
    #[error("not a decimal number")]
    Syntax,
    /// The number multiplied by 10^scale is not an integer.
    #[error("more places than the scale has")]
    Inexact,
    /// The number multiplied by 10^scale does not fit in an `i128`.
    #[error("too large")]
    Large,
}

/// Appends the number `v` / 10^`scale` to `out` as decimal text. If the scale is positive, a
/// decimal point precedes the last `scale` digits. Leading zeros are added if necessary, so that at
/// least one digit precedes the point. If the scale is negative, `-scale` zeros follow the digits,
/// unless `v` is 0. A negative number begins with `-`.
///
/// ```
/// let mut out = Vec::new(rt.alloc());
/// decimal_text(-5, 2, &mut out)?;
/// out.push(b' ')?;
/// decimal_text(288, -2, &mut out)?;
/// assert_eq!(rt; out.as_slice(), b"-0.05 28800".as_slice());
/// ```
///
/// # Errors
///
/// [`AllocError`] if `out` cannot grow. In that case, `out` is left unchanged.
// rule: decimal-zeros-after
pub fn decimal_text(v: i128, scale: i16, out: &mut Vec<u8>) -> Result<(), AllocError>
    ensures ok { OnOk result (out.new.items ≡ out.old.items ++ decimal_text_of v scale) }
    ensures err { OnErr result (out.new.items ≡ out.old.items) }
{
    let size = v.unsigned_abs();
    let mut buffer = Buffer::new();
    let digits = buffer.format(size).as_bytes();
    let (places, power) = powers_of(scale);
    out.reserve(digits.len() + places + power + 3)?;
    push_sign(out, v);
    if places > 0 {
        push_with_point(out, digits, places);
    } else {
        put(out, digits);
        if size > 0 {
            put_zero_digits(out, power);
        }
    }
    Ok(())
}

fn put_zero_digits(out: &mut Vec<u8>, count: usize)
    requires { vec_len out.old + count ≤ vec_capacity out.old }
    ensures items { out.new.items ≡ out.old.items ++ replicate count 48 }
    ensures len { vec_len out.new ≡ vec_len out.old + count }
    ensures capacity { vec_capacity out.old ≤ vec_capacity out.new }
{
    let len = out.len();
    if out.resize(len + count, b'0').is_err() {
        unreachable!();
    }
}

/// Splits `scale` into the exponents of two powers of ten. A parsed number is multiplied by the
/// first power and divided by the second. At least one of the exponents is 0.
fn powers_of(scale: i16) -> (usize, usize)
    ensures up { result.0 ≡ positive_scale scale }
    ensures down { result.1 ≡ negative_scale scale }
    ensures few { result.0 + result.1 ≤ 2 ^ 15 }
{
    let size = scale.unsigned_abs() as usize;
    if scale < 0 { (0, size) } else { (size, 0) }
}

// rule: decimal-sign
fn push_sign(out: &mut Vec<u8>, v: i128)
    requires { vec_len out.old + 1 ≤ vec_capacity out.old }
    ensures items { out.new.items ≡ out.old.items ++ sign_of v }
    ensures len { vec_len out.new ≤ vec_len out.old + 1 }
    ensures capacity { vec_capacity out.old ≤ vec_capacity out.new }
{
    if v < 0 {
        put(out, b"-");
    }
}

/// Appends digits and inserts a decimal point before the last `places` digits. Leading zeros are
/// added if necessary, so that at least one digit precedes the point.
// rule: decimal-point
fn push_with_point(out: &mut Vec<u8>, digits: &[u8], places: usize)
    requires { vec_len out.old + length digits.now + places + 2 ≤ vec_capacity out.old }
    ensures { out.new.items ≡ out.old.items ++ pointed places digits.now }
{
    if digits.len() <= places {
        put(out, b"0.");
        put_zero_digits(out, places - digits.len());
        put(out, digits);
    } else {
        let (whole, fraction) = digits.split_at(digits.len() - places);
        put(out, whole);
        put(out, b".");
        put(out, fraction);
    }
}

/// Parses a decimal number and returns it multiplied by 10^`scale`. The number consists of an
/// optional `-`, one or more digits, and optionally a decimal point followed by one or more digits.
/// This function does not allocate.
///
/// ```
/// assert_eq!(rt; decimal_read(b"288.15", 2), Ok(28815));
/// assert_eq!(rt; decimal_read(b"28800", -2), Ok(288));
/// assert_eq!(rt; decimal_read(b"288.155", 2), Err(NumberFault::Inexact));
/// ```
///
/// # Errors
///
/// [`NumberFault::Syntax`] if the text does not have the form described above,
/// [`NumberFault::Inexact`] if the result is not an integer, or [`NumberFault::Large`] if the
/// result does not fit in an `i128`. If several of these apply, the first one is returned.
// rule: inexact-before-too-large
pub fn decimal_read(text: &[u8], scale: i16) -> Result<i128, NumberFault>
    ensures { result ≡ decimal_value_of text.now scale }
{
    let (negative, body) = without_sign(text);
    let Some((whole, fraction)) = parts_of(body) else {
        return Err(NumberFault::Syntax);
    };
    let (up, down) = powers_of(scale);
    let number = scaled(whole, fraction, up, down)?;
    apply_sign(negative, number)
}

fn without_sign(text: &[u8]) -> (bool, &[u8])
    ensures sign { result.0 ≡ starts_with_minus text.now }
    ensures body { result.1.now ≡ unsigned_part text.now }
{
    match text {
        [b'-', body @ ..] => (true, body),
        _ => (false, text),
    }
}

/// Splits an unsigned decimal number into the digits before and after the point. Returns `None` if
/// `body` is not an unsigned decimal number.
// rule: decimal-form
fn parts_of(body: &[u8]) -> Option<(&[u8], &[u8])>
    ensures { MatchOption result (is_unsigned body.now ≡ false)
        (λ parts. IsParts body.now parts.0.now parts.1.now) }
{
    match point_of(body) {
        Some(point) => {
            let (whole, fraction) = (&body[..point], &body[point + 1..]);
            (is_digits(whole) && is_digits(fraction)).then_some((whole, fraction))
        }
        None => is_digits(body).then_some((body, &[])),
    }
}

fn point_of(body: &[u8]) -> Option<usize>
    ensures { result ≡ position (λ c. c == 46) body.now }
{
    body.iter().position(|c| *c == b'.')
}

fn is_digits(text: &[u8]) -> bool
    ensures { result ≡ is_digits text.now }
{
    !text.is_empty() && all_digits(text)
}

fn all_digits(text: &[u8]) -> bool
    ensures { result ≡ all_digits text.now }
{
    text.iter().all(|c| c.is_ascii_digit())
}

/// Multiplies a number by 10^`up` and divides it by 10^`down`. `whole` and `fraction` are the
/// digits before and after the decimal point. At least one of the exponents must be 0. The result
/// is capped at `u128::MAX`. Returns [`NumberFault::Inexact`] if the result is not an integer.
fn scaled(whole: &[u8], fraction: &[u8], up: usize, down: usize) -> Result<u128, NumberFault>
    requires whole { all_digits whole.now ≡ true }
    requires fraction { all_digits fraction.now ≡ true }
    requires one { 0 < down → up ≡ 0 }
    ensures { result ≡ capped_ok (whole_quotient (digits_value 10 (whole.now ++ fraction.now)
        * 10 ^ up) (10 ^ (length fraction.now + down))) }
{
    let (kept, cut) = whole.split_at(whole.len().saturating_sub(down));
    let (moved, left) = fraction.split_at(up.min(fraction.len()));
    if !are_zeros(cut) {
        return Err(NumberFault::Inexact);
    }
    if !are_zeros(left) {
        return Err(NumberFault::Inexact);
    }
    let number = extend_with_digits(extend_with_digits(0, kept), moved);
    Ok(times_ten(number, up - moved.len()))
}

fn are_zeros(digits: &[u8]) -> bool
    ensures { result ≡ list_all (λ d. d == 48) digits.now }
{
    digits.iter().all(|digit| *digit == b'0')
}

/// Appends decimal digits to `number` and returns the resulting number, capped at `u128::MAX`.
fn extend_with_digits(number: u128, digits: &[u8]) -> u128
    requires { all_digits digits.now ≡ true }
    ensures { (n : ℕ) → number ≡ capped n → result ≡ capped (digits_value_after 10 n digits.now) }
{
    let mut value = number;
    for digit in digits {
        value = value
            .saturating_mul(10)
            .saturating_add(u128::from(*digit - b'0'));
    }
    value
}

/// Returns `number` multiplied by 10^`times`, capped at `u128::MAX`.
fn times_ten(number: u128, times: usize) -> u128
    ensures { (n : ℕ) → number ≡ capped n → result ≡ capped (n * 10 ^ times) }
{
    let mut value = number;
    'turns: for _turn in 0..times {
        value = value.saturating_mul(10);
    }
    value
}

/// Returns `number`, negated if `negative` is `true`. Returns [`NumberFault::Large`] if the signed
/// number does not fit in an `i128`.
fn apply_sign(negative: bool, number: u128) -> Result<i128, NumberFault>
    ensures { (n : ℕ) → number ≡ capped n → result ≡ signed negative n }
{
    let signed = if negative {
        0i128.checked_sub_unsigned(number)
    } else {
        0i128.checked_add_unsigned(number)
    };
    signed.ok_or(NumberFault::Large)
}

/// Every number with at most this many decimal digits fits in a `u64`.
const MAX_DIGITS: usize = 19;

/// A decimal number that was parsed from text. The digits of the number fit in a `u64` when read as
/// one integer. The number of digits after the decimal point is preserved.
///
/// ```
/// let (number, len) = ShortDecimal::prefix(b"-0.50  # K").ok_or("a number")?;
/// assert_eq!(rt; (number.digits, number.places, len), (50, 2, 5));
/// assert_eq!(rt; number.scaled(1), Ok(-5));
/// ```
#[derive(Clone, Copy, Debug, PartialEq, Eq)]
pub struct ShortDecimal {
    /// All digits of the number, read as one integer without the decimal point.
    pub digits: u64,
    /// The number of digits after the decimal point.
    pub places: u8,
    /// Whether the number is negative.
    pub negative: bool,
}

impl ShortDecimal {
    /// Parses the number at the start of `text`, and returns it along with its length in octets. At
    /// most 19 octets after the sign are examined, so any further digits of a longer number are not
    /// parsed. Returns `None` if the text does not begin with a number, if
    /// [`decimal_text`](crate::decimal_text) would write the number differently, or if no digit
    /// follows the point within those octets.
    #[inline(always)]
    pub fn prefix(text: &[u8]) -> Option<(ShortDecimal, usize)>
        ensures some { IfSome result (λ found. 0 < found.1) }
        ensures within { IfSome result (λ found. found.1 ≤ length text.now) }
        ensures text { IfSome result (λ found. take found.1 text.now ≡ short_text found.0) }
        ensures octets { IfSome result
            (λ found. list_all is_decimal_octet (take found.1 text.now) ≡ true) }
        // If the octet after the number was examined, that octet does not continue the number.
        ensures longest { IfSome result (λ found. found.1 < searched_octets text.now
            → continues_number found.0.places (get_or text.now found.1 0) ≡ false) }
    {
        let (negative, body) = without_sign(text);
        let (digits, places, count) = unsigned_prefix(body)?;
        let number = ShortDecimal {
            digits,
            places,
            negative,
        };
        if !negative {
            return Some((number, count));
        }
        if digits == 0 {
            return None;
        }
        Some((number, count + 1))
    }

    /// Returns the number multiplied by 10^`scale`. [`decimal_read`](crate::decimal_read) returns
    /// the same result for the text of the number.
    ///
    /// # Errors
    ///
    /// [`NumberFault::Inexact`] if the result is not an integer, or [`NumberFault::Large`] if the
    /// result does not fit in an `i128`.
    #[inline(always)]
    pub fn scaled(self, scale: i16) -> Result<i128, NumberFault>
        ensures { result ≡ decimal_value_of (short_text self) scale }
    {
        let digits = u128::from(self.digits);
        if i16::from(self.places) == scale {
            return Ok(short_signed(self.negative, self.digits));
        }
        let (up, down) = powers_of(scale);
        let less = usize::from(self.places) + down;
        if less <= up {
            return apply_sign(self.negative, times_ten(digits, up - less));
        }
        let size = by_ten(self.digits, less - up)?;
        Ok(short_signed(self.negative, size))
    }
}

/// Parses the unsigned decimal number at the start of `body`. Returns the digits as one integer,
/// the number of digits after the point, and the number's length in octets.
#[inline(always)]
fn unsigned_prefix(body: &[u8]) -> Option<(u64, u8, usize)>
    ensures some { IfSome result (λ found. 0 < found.2) }
    ensures within { IfSome result (λ found. found.2 ≤ length body.now) }
    ensures plain { IfSome result
        (λ found. IsPlainDecimal (take found.2 body.now) found.0 found.1) }
    ensures longest { IfSome result (λ found. found.2 < 19
        → continues_number found.1 (get_or body.now found.2 0) ≡ false) }
{
    let window = &body[..body.len().min(MAX_DIGITS)];
    let (whole, count) = read_digits(0, window);
    if count == 0 {
        return None;
    }
    if window[0] == b'0' && count > 1 {
        return None;
    }
    if count == window.len() {
        return Some((whole, 0, count));
    }
    if window[count] != b'.' {
        return Some((whole, 0, count));
    }
    let fraction = &window[count + 1..];
    let (number, places) = read_digits(whole, fraction);
    if places == 0 {
        return None;
    }
    Some((number, places as u8, count + 1 + places))
}

/// Parses the digits at the start of `text` and appends them to the decimal digits of `number`.
/// Returns the resulting number and how many digits were appended.
fn read_digits(number: u64, text: &[u8]) -> (u64, usize)
    requires { (number + 1) * 10 ^ length text.now ≤ 2 ^ 64 }
    ensures count { result.1 ≤ length text.now }
    ensures digits { all_digits (take result.1 text.now) ≡ true }
    ensures value { result.0 ≡ digits_value_after 10 number (take result.1 text.now) }
    ensures stops { is_ascii_digit (get_or text.now result.1 0) ≡ false }
{
    let mut value = number;
    let mut count = 0;
    for octet in text {
        if !octet.is_ascii_digit() {
            break;
        }
        value = value * 10 + u64::from(*octet - b'0');
        count += 1;
    }
    (value, count)
}

/// Divides `number` by 10^`times`. Returns [`NumberFault::Inexact`] if the quotient is not an
/// integer.
fn by_ten(number: u64, times: usize) -> Result<u64, NumberFault>
    ensures { result ≡ whole_quotient number (10 ^ times) }
{
    let mut value = number;
    for _turn in 0..times {
        if value % 10 != 0 {
            return Err(NumberFault::Inexact);
        }
        value /= 10;
    }
    Ok(value)
}

fn short_signed(negative: bool, number: u64) -> i128
    ensures { Ok result ≡ signed negative number }
{
    let size = i128::from(number);
    if negative { -size } else { size }
}

/// Law: Writing a number as text and reading the text back with the same scale returns the original
/// number.
pub fn decimal_reads_back(v: i128, scale: i16)
    ensures { decimal_value_of (decimal_text_of v scale) scale ≡ Ok v }
{}
