//! Tests for functions that allocate memory. Each function returns its complete result, or reports
//! that memory ran out.
//!
//! `tests/failed_allocations.py` makes each allocation of each test fail in turn. Therefore, a test
//! also passes if it cannot allocate memory for its own values.

use crate::frame_tests::HEAD_4;
use crate::messages::{self, LOCAL_USE};
use crate::support::{Runtime, assert_same, assert_that, build, ok, read_b, read_d};
use bufr_bits::{BitSlice, BitWriter, End, ScriptIn, ScriptOut, Sink, decimal_text};
use bufr_cli::{LineFault, parse_line, read_all};
use bufr_frame::{RunFault, WriteFault, write_message};
use bufr_tables::{Fxy, TableFault, TemplateFault};
use std::alloc::AllocError;
use std::fmt::Debug;
use std::process::Abort;

/// Returns the result of a call, or `None` if memory ran out. Asserts that the call did not fail
/// for any other reason.
fn whole<T, E: Debug + PartialEq + Drop>(
    rt: &impl Abort,
    answer: Result<T, E>,
    want_of_memory: E,
) -> Option<T> {
    match answer {
        Ok(value) => Some(value),
        Err(fault) => {
            assert_same(rt, &fault, &want_of_memory, &"fault");
            None
        }
    }
}

/// Appends a number to `out`. If memory runs out, asserts that nothing was appended, and tries
/// again.
fn write_number(rt: &impl Abort, out: &mut Vec<u8>) {
    let before = out.len();
    if decimal_text(-28_815, 2, out).is_err() {
        assert_same(rt, &out.len(), &before, &"octets");
        ok(rt, decimal_text(-28_815, 2, out));
    }
}

#[test]
fn appending_decimal_text_changes_nothing_if_allocation_fails(rt: HostRuntime) {
    let mut out = Vec::new(rt.alloc());
    for _ in 0..4 {
        write_number(&rt, &mut out);
    }
    let want = b"-288.15-288.15-288.15-288.15".as_slice();
    assert_same(&rt, &out.as_slice(), &want, &"numbers");
}

/// Pushes the low 40 bits of `value`. If memory runs out, asserts that nothing was pushed, and
/// tries again.
fn push_number(rt: &impl Abort, writer: &mut BitWriter, value: u64) {
    let before = writer.len_bits();
    assert!(rt; before < 100_000);
    if writer.push(value % (1 << 40), 40).is_err() {
        assert!(rt; writer.len_bits() == before);
        ok(rt, writer.push(value % (1 << 40), 40));
    }
}

/// Returns a 40-bit number that is different for each index.
fn number_at(index: u64) -> u64 {
    index.wrapping_mul(0x0001_2345_6789) % (1 << 40)
}

#[test]
fn pushing_bits_changes_nothing_if_allocation_fails(rt: HostRuntime) {
    let mut writer = BitWriter::new(rt.alloc());
    for index in 0..50 {
        push_number(&rt, &mut writer, number_at(index));
    }
    let octets = writer.into_octets();
    assert!(rt; octets.len() == 250);
    for index in 0..50u64 {
        let found = BitSlice::new(&octets).get(40 * index, 40);
        assert_same(&rt, &found, &Some(number_at(index)), &index);
    }
}

/// Pushes the octets of a message. If memory runs out, asserts that nothing was pushed, and tries
/// again.
fn push_message(rt: &impl Abort, writer: &mut BitWriter) {
    let before = writer.len_bits();
    assert!(rt; before < 100_000);
    if writer.push_octets(LOCAL_USE).is_err() {
        assert!(rt; writer.len_bits() == before);
        ok(rt, writer.push_octets(LOCAL_USE));
    }
}

#[test]
fn pushing_octets_changes_nothing_if_allocation_fails(rt: HostRuntime) {
    let mut writer = BitWriter::new(rt.alloc());
    for _ in 0..5 {
        push_message(&rt, &mut writer);
    }
    let octets = writer.into_octets();
    for message in octets.as_slice().chunks(LOCAL_USE.len()) {
        assert_same(&rt, &message, &LOCAL_USE, &"message");
    }
    assert_same(&rt, &octets.len(), &(5 * LOCAL_USE.len()), &"octets");
}

#[test]
fn scripted_writer_reports_failed_allocation(rt: HostRuntime) {
    let writer = ScriptOut::new(rt.alloc(), 1000, 600, End::Fail);
    if let Some(mut writer) = whole(&rt, writer, AllocError) {
        let taken = (writer.write(&[1; 700]), writer.write(&[1; 700]));
        assert_same(&rt, &taken, &(Ok(600), Ok(400)), &"room");
    }
}

#[test]
fn write_message_reports_failed_allocation(rt: HostRuntime) {
    let message = write_message(
        rt.alloc(),
        &HEAD_4,
        b"\xAB\xCD",
        Some(b"\x01\x02"),
        &[0x0101],
        1,
        true,
        false,
        b"\x14",
    );
    if let Some(octets) = whole(&rt, message, WriteFault::Memory) {
        assert_same(&rt, &octets.as_slice(), &LOCAL_USE, &"message");
    }
}

/// Returns the descriptors of 32 nested groups. The innermost group contains one element.
fn thirty_two_groups() -> [Fxy; 33] {
    let mut descriptors = [Fxy::from_word(0x0101); 33];
    for place in 0..32u16 {
        descriptors[usize::from(place)] = Fxy::from_word(0x4001 + ((32 - place) << 8));
    }
    descriptors
}

#[test]
fn template_expansion_reports_failed_allocation(rt: HostRuntime) {
    let table_b = read_b(rt.alloc(), messages::table_b());
    let table_d = read_d(rt.alloc(), messages::table_d());
    let table_b = whole(&rt, table_b, TableFault::Memory);
    let table_d = whole(&rt, table_d, TableFault::Memory);
    let (Some(table_b), Some(table_d)) = (table_b, table_d) else {
        return;
    };
    let template = build(rt.alloc(), &thirty_two_groups(), &table_b, &table_d);
    if let Some(template) = whole(&rt, template, TemplateFault::Memory) {
        let found = (template.places(), template.depth());
        assert_same(&rt, &found, &(66, 32), &"places and depth");
    }
}

#[test]
fn read_all_reports_failed_allocation(rt: HostRuntime) {
    let input = [0x5A; 40_000];
    let mut r = ScriptIn::new(&input, 3000, None);
    let octets = read_all(rt.alloc(), &mut r);
    if let Some(octets) = whole(&rt, octets, RunFault::Memory) {
        assert_that(&rt, octets.as_slice() == input.as_slice(), &octets.len());
    }
}

/// Command lines, each with the end of the expected result (a file name, the help text or a usage
/// error).
#[rattlefmt::skip]
static LINES: &[(&[&str], &str)] = &[
    (&["bufr", "encode", "-B", "b.csv", "-D", "d.csv", "--form", "plain", "x.txt"], "x.txt"),
    (&["bufr", "ls", "--help"], "  bufr ls bulletins.bufr 2> faults.txt\n"),
    (&["bufr", "ls", "a", "b"], "For more information, try '--help'.\n"),
];

fn assert_line(rt: &impl Runtime, words: &[&str], end: &str) {
    match parse_line(rt.alloc(), words) {
        Ok(job) => assert_same(rt, &job.file, &Some(end), &words),
        Err(LineFault::Help(text)) => assert_that(rt, text.as_str().ends_with(end), &text),
        Err(LineFault::Usage(text)) => assert_that(rt, text.as_str().ends_with(end), &text),
        Err(LineFault::Memory) => {}
    }
}

#[test]
fn parse_line_reports_failed_allocation(rt: HostRuntime) {
    for (words, end) in LINES {
        assert_line(&rt, *words, *end);
    }
}
