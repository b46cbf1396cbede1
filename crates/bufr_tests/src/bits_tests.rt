//! Tests for bit strings, readers and writers, and decimal text.
ghost use Rattle.std.specs.Prelude.{◌≤◌, length};

use crate::support::{Runtime, assert_same, joined, ok, repeated};
use bufr_bits::{
    BitSlice, BitWriter, Device, End, Failed, NumberFault, ScriptIn, ScriptOut, ShortDecimal, Sink,
    Source, decimal_read, decimal_text,
};
use std::io::{self, Read, Write};

const NINE: &[u8] = &[0x01, 0x23, 0x45, 0x67, 0x89, 0xAB, 0xCD, 0xEF, 0x01];

/// Returns the number that `get` should return, computed bit by bit.
fn bit_by_bit(octets: &[u8], at: u64, width: u32) -> Option<u64> {
    let mut value = 0u64;
    for bit in at..at.saturating_add(u64::from(width)) {
        let octet = octets.get((bit / 8) as usize)?;
        value = value.wrapping_mul(2) + u64::from((*octet >> (7 - bit % 8)) & 1);
    }
    Some(value)
}

fn assert_number(rt: &impl Runtime, octets: &[u8], at: u64, width: u32, want: Option<u64>)
    requires few { length octets.now ≤ 100000 }
    requires narrow { width ≤ 63 }
{
    let found = BitSlice::new(octets).get(at, width);
    assert_same(rt, &found, &want, &(at, width));
}

fn assert_octet(rt: &impl Runtime, octets: &[u8], at: u64, want: Option<u8>)
    requires { length octets.now ≤ 100000 }
{
    assert_same(rt, &BitSlice::new(octets).octet(at), &want, &at);
}

fn assert_ones(rt: &impl Runtime, octets: &[u8], at: u64, width: u32, want: Option<bool>)
    requires { length octets.now ≤ 100000 }
{
    let ones = BitSlice::new(octets).all_ones(at, width);
    assert_same(rt, &ones, &want, &(at, width));
}

#[test]
// rule: bit-order, field-number
fn reads_numbers_at_every_offset_and_width(rt: HostRuntime) {
    assert_same(&rt, &BitSlice::new(NINE).len_bits(), &72, &"length");
    for at in 0..74 {
        for width in 0..64 {
            if at <= 72 || width > 0 {
                assert_number(&rt, NINE, at, width, bit_by_bit(NINE, at, width));
            }
        }
    }
}

#[rattlefmt::skip]
const NUMBERS_AT_THE_ENDS: &[(u64, u32, Option<u64>)] = &[
    (4, 60, Some(0x0123_4567_89AB_CDEF)), (7, 63, Some(0x48D1_59E2_6AF3_7BC0)),
    (9, 63, Some(0x2345_6789_ABCD_EF01)), (10, 63, None),
    (72, 0, Some(0)), (73, 0, None), (u64::MAX, 1, None),
];

const OCTETS_AT_THE_ENDS: &[(u64, Option<u8>)] = &[(3, Some(0x09)), (64, Some(0x01)), (65, None)];

/// Each row contains a bit offset, an octet count, and the expected result of `octets`.
#[rattlefmt::skip]
const BORROWED_OCTETS: &[(u64, usize, Option<&[u8]>)] = &[
    (56, 2, Some(b"\xEF\x01")), (72, 0, Some(b"")), (57, 1, None), (64, 2, None), (80, 0, None),
];

#[test]
// rule: past-last-bit
fn returns_none_past_last_bit(rt: HostRuntime) {
    for (at, width, want) in NUMBERS_AT_THE_ENDS {
        assert_number(&rt, NINE, *at, *width, *want);
    }
    for (at, want) in OCTETS_AT_THE_ENDS {
        assert_octet(&rt, NINE, *at, *want);
    }
    for (at, count, want) in BORROWED_OCTETS {
        let octets = BitSlice::new(NINE).octets(*at, *count);
        assert_same(&rt, &octets, want, &(at, count));
    }
}

/// Fields of a 16-bit string in which only the last bit is zero. Each row contains a field's bit
/// offset and width, and the expected result of `all_ones` (`None` if the field extends past the
/// last bit).
#[rattlefmt::skip]
const ONES_AND_A_ZERO: &[(u64, u32, Option<bool>)] = &[
    (0, 15, Some(true)), (0, 16, Some(false)), (1, 16, None), (16, 0, Some(true)),
    (u64::MAX, u32::MAX, None),
];

/// `all_ones` detects a single zero bit in a field of any width.
#[test]
fn detects_single_zero_bit_among_ones(rt: HostRuntime) {
    for (at, width, want) in ONES_AND_A_ZERO {
        assert_ones(&rt, &[0xFF, 0xFE], *at, *width, *want);
    }
    let mut octets = [0xFFu8; 40];
    assert_ones(&rt, &octets, 3, 317, Some(true));
    octets[20] = 0xF7;
    for at in 0..172 {
        for width in 0..148 {
            let ones = at + u64::from(width) <= 164 || at > 164;
            assert_ones(&rt, &octets, at, width, Some(ones));
        }
    }
}

fn push_lowest(rt: &impl Runtime, writer: &mut BitWriter, value: u64, width: u32)
    requires { width ≤ 63 }
{
    assert!(rt; writer.len_bits() < 100_000);
    ok(rt, writer.push(value % (1 << width), width));
}

fn push_octets(rt: &impl Runtime, writer: &mut BitWriter, octets: &[u8])
    requires { length octets.now ≤ 100 }
{
    assert!(rt; writer.len_bits() < 100_000);
    ok(rt, writer.push_octets(octets));
}

/// `put` and `put_octets` write bits into space that was reserved with `reserve`.
#[test]
fn writes_bits_into_reserved_space(rt: HostRuntime) {
    let mut writer = BitWriter::new(rt.alloc());
    if writer.reserve(91).is_ok() {
        writer.put(0x5_2FFD, 20);
        writer.put_octets(&[0xA5]);
        writer.put(1, 63);
    }
    let octets = writer.into_octets();
    assert_number(&rt, &octets, 0, 28, Some(0x52_FFDA5));
    assert_number(&rt, &octets, 28, 63, Some(1));
    assert_number(&rt, &octets, 91, 5, Some(0));
}

/// Values to push at each width. Bits that do not fit in the width are dropped.
const PUSHED: &[u64] = &[0, 1, u64::MAX, 0x5A5A_5A5A_5A5A_5A5A];

/// Pushes the values in `PUSHED` at each width from 0 to 63, followed each time by the octets in
/// `NINE`. Returns the writer.
fn pushed_at_each_width(rt: &impl Runtime) -> BitWriter {
    let mut writer = BitWriter::new(rt.alloc());
    for width in 0..64u32 {
        for value in PUSHED {
            push_lowest(rt, &mut writer, *value, width);
        }
        push_octets(rt, &mut writer, NINE);
    }
    writer
}

fn assert_width(rt: &impl Runtime, octets: &[u8], at: u64, width: u32) -> u64
    requires few { length octets.now ≤ 100000 }
    requires narrow { width ≤ 63 }
{
    let mut at = at;
    for value in PUSHED {
        assert_number(rt, octets, at, width, Some(*value % (1 << width)));
        at = at.saturating_add(u64::from(width));
    }
    for octet in NINE {
        assert_octet(rt, octets, at, Some(*octet));
        at = at.saturating_add(8);
    }
    at
}

#[test]
fn pushes_values_of_every_bit_width(rt: HostRuntime) {
    let writer = pushed_at_each_width(&rt);
    let length = writer.len_bits();
    let octets = writer.into_octets();
    assert_same(&rt, &(octets.len() as u64), &length.div_ceil(8), &"octets");
    assert!(rt; octets.len() < 100_000);
    let mut at = 0u64;
    for width in 0..64u32 {
        at = assert_width(&rt, &octets, at, width);
    }
    assert_same(&rt, &at, &length, &"length");
}

/// A reader and writer whose reads, writes and flushes are all interrupted.
#[derive(Drop)]
struct Broken;

impl Read for Broken {
    fn read(&mut self, _buf: &mut [u8]) -> io::Result<usize> {
        Err(io::ErrorKind::Interrupted.into())
    }
}

impl Write for Broken {
    fn write(&mut self, _buf: &[u8]) -> io::Result<usize> {
        Err(io::ErrorKind::Interrupted.into())
    }

    fn flush(&mut self) -> io::Result<()> {
        Err(io::ErrorKind::Interrupted.into())
    }
}

fn assert_reads<R: Source>(
    rt: &impl Runtime,
    source: &mut R,
    buf: &mut [u8],
    reads: &[Result<usize, Failed>],
) {
    for want in reads {
        assert_same(rt, &source.read(buf), want, &reads);
    }
}

fn assert_writes<W: Sink>(
    rt: &impl Runtime,
    sink: &mut W,
    writes: &[(&[u8], Result<usize, Failed>)],
) {
    for (octets, want) in writes {
        assert_same(rt, &sink.write(octets), want, octets);
    }
}

fn assert_flush<W: Sink>(rt: &impl Runtime, sink: &mut W, want: Result<(), Failed>) {
    assert_same(rt, &sink.flush(), &want, &"flush");
}

#[test]
fn scripted_reader_fails_at_given_offset(rt: HostRuntime) {
    let mut source = ScriptIn::new(b"abcdefg", 3, Some(5));
    let mut buf = [0u8; 4];
    let reads = [Ok(3), Ok(2), Err(Failed), Err(Failed)];
    assert_reads(&rt, &mut source, &mut buf, &reads);
    assert_same(&rt, &buf, b"dec\0", &"octets");
}

/// Successive writes to a scripted writer, each with its expected result.
const WRITES: &[(&[u8], Result<usize, Failed>)] = &[
    (b"", Ok(0)),
    (b"abcd", Ok(3)),
    (b"def", Ok(2)),
];

/// Each row contains the behavior of a full scripted writer, and the expected results of a write
/// and a flush.
#[rattlefmt::skip]
const ENDS: &[(End, Result<usize, Failed>, Result<(), Failed>)] = &[
    (End::Zero, Ok(0), Ok(())),
    (End::Fail, Err(Failed), Ok(())),
    (End::Flush, Err(Failed), Err(Failed)),
];

/// The writer has space for five octets, and accepts at most three octets per write.
#[test]
fn scripted_writer_stops_when_full(rt: HostRuntime) {
    for (end, last, flushed) in ENDS {
        let mut sink = ok(&rt, ScriptOut::new(rt.alloc(), 5, 3, *end));
        assert_writes(&rt, &mut sink, WRITES);
        assert_writes(&rt, &mut sink, &[(b"fg", *last)]);
        assert_flush(&rt, &mut sink, *flushed);
        assert_same(&rt, &sink.taken(), &b"abcde".as_slice(), end);
    }
}

#[test]
fn device_fails_if_its_reader_or_writer_fails(rt: HostRuntime) {
    let mut source = Device::new(b"abc".as_slice());
    assert_reads(&rt, &mut source, &mut [0u8; 2], &[Ok(2), Ok(1), Ok(0)]);
    let mut sink = Device::new(Vec::new(rt.alloc()));
    assert_writes(&rt, &mut sink, &[(b"abc", Ok(3))]);
    assert_flush(&rt, &mut sink, Ok(()));
    let mut broken = Device::new(Broken);
    assert_reads(&rt, &mut broken, &mut [0u8; 2], &[Err(Failed)]);
    assert_writes(&rt, &mut broken, &[(b"abc", Err(Failed))]);
    assert_flush(&rt, &mut broken, Err(Failed));
}

fn assert_read(rt: &impl Runtime, text: &[u8], scale: i16, want: Result<i128, NumberFault>) {
    assert_same(rt, &decimal_read(text, scale), &want, &(text, scale));
}

fn push_text(rt: &impl Runtime, v: i128, scale: i16, out: &mut Vec<u8>) {
    ok(rt, decimal_text(v, scale, out));
}

fn assert_text(rt: &impl Runtime, v: i128, scale: i16, want: &[u8]) {
    let mut out = Vec::new(rt.alloc());
    push_text(rt, v, scale, &mut out);
    push_text(rt, v, scale, &mut out);
    let twice = joined(rt, &[want, want]);
    assert_same(rt, &out.as_slice(), &twice.as_slice(), &(v, scale));
    assert_read(rt, want, scale, Ok(v));
}

#[rattlefmt::skip]
const TEXTS: &[(i128, i16, &[u8])] = &[
    (-5, 2, b"-0.05"), (288, -2, b"28800"), (0, 2, b"0.00"), (0, -2, b"0"), (0, 0, b"0"),
    (28815, 2, b"288.15"), (28800, 2, b"288.00"), (100, 2, b"1.00"), (99, 2, b"0.99"),
    (-1, -3, b"-1000"),
    (i128::MIN, 0, b"-170141183460469231731687303715884105728"),
    (i128::MAX, 38, b"1.70141183460469231731687303715884105727"),
];

/// The smallest and largest `i128` values. Each row contains a number, its sign, and its 39 digits.
#[rattlefmt::skip]
const ENDS_OF_NUMBERS: &[(i128, &[u8], &[u8])] = &[
    (i128::MIN, b"-", b"170141183460469231731687303715884105728"),
    (i128::MAX, b"", b"170141183460469231731687303715884105727"),
];

fn assert_long_texts(rt: &impl Runtime, v: i128, sign: &[u8], digits: &[u8]) {
    let zeros = repeated(rt, b"0", 300);
    assert_text(rt, v, -300, &joined(rt, &[sign, digits, &zeros]));
    let zeros = repeated(rt, b"0", 261);
    assert_text(rt, v, 300, &joined(rt, &[sign, b"0.", &zeros, digits]));
}

#[test]
// rule: decimal-point, decimal-zeros-after, decimal-sign
fn writes_decimals_and_reads_them_back(rt: HostRuntime) {
    for (v, scale, want) in TEXTS {
        assert_text(&rt, *v, *scale, want);
    }
    for (v, sign, digits) in ENDS_OF_NUMBERS {
        assert_long_texts(&rt, *v, sign, digits);
    }
}

/// Pairs of a string and a scale that should be rejected, grouped by the expected fault.
#[rattlefmt::skip]
const REFUSED: &[(NumberFault, &[(&[u8], i16)])] = &[
    (NumberFault::Syntax, &[
        (b"1e3", 0), (b"-", 0), (b"", 0), (b"--1", 0), (b"+1", 0), (b" 1", 0), (b"1.", 0),
        (b".5", 1), (b".", 0), (b"1.2.3", 2), (b"1.x", 1), (b"12.5x", 1), (b"-.5", 1),
        (b".999999999999999999", 0), (b"999999999999999999.", 0),
        (b".9999999999999999999", 0), (b"9999999999999999999.", 0),
    ]),
    (NumberFault::Inexact, &[
        (b"28850", -2), (&[b'9'; 40], -1), (b"288.155", 2), (b"1", -300), (b"12000", -4),
        (b"99999999999999999.9", 0),
    ]),
    (NumberFault::Large, &[
        (&[b'9'; 39], 0), (&[b'9'; 40], 0), (b"5", 300),
        (b"170141183460469231731687303715884105728", 0),
        (b"-170141183460469231731687303715884105729", 0),
    ]),
];

/// Valid pairs of a string and a scale, each with the expected number. Many of the numbers are
/// close to the limits of 64-bit integers.
#[rattlefmt::skip]
const READ: &[(&[u8], i16, i128)] = &[
    (b"28800", -2, 288), (b"-0", 0, 0), (b"-0.00", 2, 0), (b"007.50", 1, 75), (b"-000.10", 1, -1),
    (b"288.15", 2, 28815), (b"288.1500", 2, 28815), (b"0", 300, 0), (b"0.0", -300, 0),
    (b"12000.0", -3, 12), (b"0000000000000000001", 0, 1), (b"00000000000000000001", 0, 1),
    (b"0000000000000000000000000000000000000000000000000000001", 0, 1),
    (b"170141183460469231731687303715884105727", 0, i128::MAX),
    (b"-170141183460469231731687303715884105728", 0, i128::MIN),
    (&[b'9'; 18], 0, 999_999_999_999_999_999),
    (&[b'9'; 19], 0, 9_999_999_999_999_999_999),
    (&[b'9'; 20], 0, 99_999_999_999_999_999_999),
    (&[b'9'; 38], 0, 99_999_999_999_999_999_999_999_999_999_999_999_999),
    (b"-9999999999999999999", 0, -9_999_999_999_999_999_999),
    (b"-18446744073709551616", 0, -18_446_744_073_709_551_616),
    (b"999999999999999.999", 3, 999_999_999_999_999_999),
    (b"9999999999999999.9", 1, 99_999_999_999_999_999),
    (b"-9.9999999999999999", 16, -99_999_999_999_999_999),
    (b"99999999999999999", 2, 9_999_999_999_999_999_900),
    (b"99999999999999999", 3, 99_999_999_999_999_999_000),
    (b"5", 18, 5_000_000_000_000_000_000), (b"5", 19, 50_000_000_000_000_000_000),
    (b"120000000000000000", -1, 12_000_000_000_000_000),
    (b"120000000000000000", -2, 1_200_000_000_000_000),
];

#[test]
// rule: decimal-form, inexact-before-too-large
fn accepts_valid_decimals_and_rejects_invalid_ones(rt: HostRuntime) {
    for (text, scale, v) in READ {
        assert_read(&rt, text, *scale, Ok(*v));
    }
    for (fault, texts) in REFUSED {
        for (text, scale) in *texts {
            assert_read(&rt, text, *scale, Err(*fault));
        }
    }
}

/// Each row contains a string and the length in octets of the short decimal at its start. The
/// length is 0 if the string does not start with a short decimal.
#[rattlefmt::skip]
const PREFIXES: &[(&[u8], usize)] = &[
    (b"0", 1), (b"10  # K", 2), (b"-0.50 ", 5), (b"0.05x", 4), (b"1-2", 1), (b"1.5.", 3),
    (b"999999999999999999", 18), (b"0.99999999999999999", 19),
    (b"12345678901234567890", 19), (b"123456789012345678.5", 0),
    (b"", 0), (b"-", 0), (b"MISSING", 0), (b"00", 0), (b"01.5", 0), (b"-0", 0), (b"-0.0", 0),
    (b".5", 0), (b"1.", 0), (b"1. ", 0),
];

/// Asserts that the short decimal at the start of `text` is `want` octets long, and that
/// `decimal_read` reads the same number from those octets.
fn assert_prefix(rt: &impl Runtime, text: &[u8], want: usize) {
    let Some((number, len)) = ShortDecimal::prefix(text) else {
        return assert_same(rt, &want, &0, &text);
    };
    assert_same(rt, &len, &want, &text);
    for scale in [-1, 0, 1, 2, 20] {
        let read = decimal_read(&text[..len], scale);
        assert_same(rt, &number.scaled(scale), &read, &(text, scale));
    }
}

#[test]
fn parses_short_decimal_at_start_of_text(rt: HostRuntime) {
    for (text, want) in PREFIXES {
        assert_prefix(&rt, text, *want);
    }
}
