//! Functions that write numbers directly to the free space in a block.
//!
//! Functions with a `free` argument return the index after the text that they wrote, or `None` if
//! they cannot write all of it.
#![tactic(auto, using(crate::proofs::NumberLemmas::number_steps))]

ghost use Rattle.std.specs.Prelude.{◌≡◌, ◌≤◌, ◌<◌, ◌+◌, ◌/◌, ◌%◌, ◌++◌, [], ◌∷◌, decimal, take, ◌==◌, codes};
ghost use Rattle.bufr_bits.specs.Prelude.{decimal_text_of, pointed, unsigned_text};
ghost use Rattle.bufr_tables.specs.Prelude.{row_of_entry, row_comment, row_line_start};
ghost use Rattle.bufr_text.specs.Prelude.{Puts};

use bufr_tables::Entry;
use itoa::Buffer;

/// The maximum number of decimal digits in a `u64`.
const DIGITS: usize = 20;

/// The number of octets reserved for a 64-bit number with a scale of -1, 0, 1, 2 or 5.
const NUMBER: usize = 24;

/// The size, in octets, of the block that is copied for the descriptor at the start of a line. The
/// block is one octet longer than the descriptor and the space after it.
const START: usize = 8;

/// The size, in octets, of the block that is copied for a comment. Few comments are longer.
const COMMENT: usize = 80;

/// The number of octets reserved for the line of a numeric item. This is slightly more than a line
/// needs.
const LINE: usize = 128;

/// The two decimal digits of each number below 100.
static PAIRS: [u8; 200] =
    *b"00010203040506070809101112131415161718192021222324252627282930313233343536373839404142434445464748495051525354555657585960616263646566676869707172737475767778798081828384858687888990919293949596979899";

/// Returns the two decimal digits of a number below 100.
#[inline(always)]
pub(crate) fn pair(value: u64) -> (u8, u8)
    requires { value < 100 }
    ensures tens { result.0 ≡ 48 + value / 10 }
    ensures ones { result.1 ≡ 48 + value % 10 }
{
    let from = value as usize * 2;
    (PAIRS[from], PAIRS[from + 1])
}

/// Writes octets to `free`, starting at index `at`. Returns `None` if there is not enough room.
#[inline(always)]
pub(crate) fn put<const N: usize>(octets: [u8; N], free: &mut [u8], at: usize) -> Option<usize>
    ensures { Puts free.old at octets.entry free.new result }
{
    if at > free.len() || free.len() - at < N {
        return None;
    }
    free[at..at + N].copy_from_slice(&octets);
    Some(at + N)
}

/// Writes the first `len` octets of `text` to `free`, starting at index `at`, by copying a block of
/// `N` octets. Returns `None` if `text` or the free space has fewer than `N` octets, or if `len`
/// exceeds `N`.
#[inline(always)]
fn put_block<const N: usize>(text: &[u8], len: usize, free: &mut [u8], at: usize) -> Option<usize>
    ensures { Puts free.old at (take len text.now) free.new result }
{
    if at > free.len() || free.len() - at < N || len > N {
        return None;
    }
    let (block, _) = text.split_first_chunk::<N>()?;
    let block = *block;
    free[at..at + N].copy_from_slice(&block);
    Some(at + len)
}

/// Writes the two digits of a number below 100 to `free`, starting at index `at`.
#[inline(always)]
fn put_pair(value: u64, free: &mut [u8], at: usize) -> Option<usize>
    requires { value < 100 }
    ensures { Puts free.old at ((48 + value / 10) ∷ (48 + value % 10) ∷ []) free.new result }
{
    let (tens, ones) = pair(value);
    put([tens, ones], free, at)
}

/// Writes the digits of a number below 10,000 to `free`, starting at index `at`.
#[inline(always)]
fn put_four(value: u64, free: &mut [u8], at: usize) -> Option<usize>
    requires { value < 10000 }
    ensures { Puts free.old at (decimal value) free.new result }
{
    if value < 10 {
        return put([b'0' + value as u8], free, at);
    }
    if value < 100 {
        return put_pair(value, free, at);
    }
    let at = if value < 1_000 {
        put([b'0' + (value / 100) as u8], free, at)?
    } else {
        put_pair(value / 100, free, at)?
    };
    put_pair(value % 100, free, at)
}

/// Writes the digits of a number to the start of `free`. The number must have at least five digits.
#[inline(never)]
fn fill_long(value: u64, free: &mut [u8]) -> Option<usize>
    requires { 10000 ≤ value }
    ensures { Puts free.old 0 (decimal value) free.new result }
{
    if value >= 100_000_000 || free.len() < DIGITS {
        let mut buffer = Buffer::new();
        let digits = buffer.format(value).as_bytes();
        if digits.len() > free.len() {
            return None;
        }
        free[..digits.len()].copy_from_slice(digits);
        return Some(digits.len());
    }
    let at = put_four(value / 10_000, free, 0)?;
    let at = put_pair(value / 100 % 100, free, at)?;
    put_pair(value % 100, free, at)
}

/// Writes the digits of a number to `free`, starting at index `at`.
#[inline(always)]
fn put_decimal(value: u64, free: &mut [u8], at: usize) -> Option<usize>
    ensures { Puts free.old at (decimal value) free.new result }
{
    if value < 10_000 {
        return put_four(value, free, at);
    }
    if at > free.len() {
        return None;
    }
    Some(at + fill_long(value, &mut free[at..])?)
}

/// Writes a name, followed by the digits of a number, to the start of `free`. Returns `None` if
/// there is not enough room for the name and 20 digits.
#[inline(always)]
pub(crate) fn fill_named(name: &[u8], value: u64, free: &mut [u8]) -> Option<usize>
    ensures { Puts free.old 0 (name.now ++ decimal value) free.new result }
{
    if name.len() + DIGITS > free.len() {
        return None;
    }
    free[..name.len()].copy_from_slice(name);
    // Most numbers in a header have one or two digits.
    if value < 10 {
        return put([b'0' + value as u8], free, name.len());
    }
    if value < 100 {
        return put_pair(value, free, name.len());
    }
    put_decimal(value, free, name.len())
}

/// Writes `value / 10` with one decimal place to `free`, starting at index `at`.
#[inline(always)]
fn put_tenths(value: u64, free: &mut [u8], at: usize) -> Option<usize>
    ensures { Puts free.old at (pointed 1 (decimal value)) free.new result }
{
    let at = put_decimal(value / 10, free, at)?;
    put([b'.', b'0' + (value % 10) as u8], free, at)
}

/// Writes `value / 100` with two decimal places to `free`, starting at index `at`.
#[inline(always)]
fn put_hundredths(value: u64, free: &mut [u8], at: usize) -> Option<usize>
    ensures { Puts free.old at (pointed 2 (decimal value)) free.new result }
{
    let at = put_decimal(value / 100, free, at)?;
    let (tens, ones) = pair(value % 100);
    put([b'.', tens, ones], free, at)
}

/// Writes `value / 10^scale` in decimal to the start of `free`. Returns `None` if there is not
/// enough room, if the scale is not -1, 0, 1, 2 or 5, or if the value is 0 and the scale is -1.
#[inline(never)]
fn fill_scaled(value: u64, scale: i16, free: &mut [u8]) -> Option<usize>
    ensures { Puts free.old 0 (unsigned_text value scale) free.new result }
{
    if free.len() < NUMBER {
        return None;
    }
    if scale == 0 {
        return put_decimal(value, free, 0);
    }
    if scale == 1 {
        return put_tenths(value, free, 0);
    }
    if scale == 2 {
        return put_hundredths(value, free, 0);
    }
    if scale == 5 {
        let at = put_decimal(value / 100_000, free, 0)?;
        let first = b'0' + (value / 10_000 % 10) as u8;
        let (second, third) = pair(value / 100 % 100);
        let (fourth, fifth) = pair(value % 100);
        return put([b'.', first, second, third, fourth, fifth], free, at);
    }
    if scale == -1 && value > 0 {
        let at = put_decimal(value, free, 0)?;
        return put([b'0'], free, at);
    }
    None
}

/// Writes the line for a numeric item to the start of `free`. `entry` is the table entry that was
/// used to read the item. Returns `None` if there is not enough room, if the comment is longer than
/// 80 octets, if the table ends less than 80 octets after the start of the comment, or if
/// `fill_scaled` cannot write the number.
#[inline(always)]
// rule: decimal-sign
pub(crate) fn fill_number_line(
    entry: Entry<'_>,
    number: i64,
    scale: i16,
    free: &mut [u8],
) -> Option<usize>
    ensures { Puts free.old 0 (row_line_start (row_of_entry entry.entry)
        ++ (decimal_text_of number scale ++ row_comment (row_of_entry entry.entry)))
        free.new result }
{
    let (row, len) = entry.line_on();
    // These checks let the compiler remove most of the checks in the calls below.
    if row.len() < 7 + COMMENT || len > COMMENT || free.len() < LINE {
        return None;
    }
    let at = put_block::<START>(row, 7, free, 0)?;
    let at = if number < 0 {
        put([b'-'], free, at)?
    } else {
        at
    };
    let size = number.unsigned_abs();
    let at = if scale == 0 && size < 10_000 {
        put_four(size, free, at)?
    } else if scale == 1 && size < 100_000 {
        put_tenths(size, free, at)?
    } else if scale == 2 && size < 1_000_000 {
        put_hundredths(size, free, at)?
    } else {
        at + fill_scaled(size, scale, &mut free[at..])?
    };
    put_block::<COMMENT>(&row[7..], len, free, at)
}

/// Writes the line for a missing value to the start of `free`. `entry` is the table entry that was
/// used to read the value. Returns `None` if there is not enough room, if the comment is longer
/// than 80 octets, or if the table ends less than 80 octets after the start of the comment.
#[inline(always)]
pub(crate) fn fill_missing_line(entry: Entry<'_>, free: &mut [u8]) -> Option<usize>
    ensures { Puts free.old 0 (row_line_start (row_of_entry entry.entry)
        ++ (codes "MISSING" ++ row_comment (row_of_entry entry.entry))) free.new result }
{
    let (row, len) = entry.line_on();
    // These checks let the compiler remove most of the checks in the calls below.
    if row.len() < 7 + COMMENT || len > COMMENT || free.len() < LINE {
        return None;
    }
    let at = put_block::<START>(row, 7, free, 0)?;
    let at = put(*b"MISSING", free, at)?;
    put_block::<COMMENT>(&row[7..], len, free, at)
}
