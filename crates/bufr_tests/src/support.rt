//! Functions shared by the tests. The functions make assertions, and convert strings to octets,
//! tables and templates.
//!
//! The functions here have no contracts, which keeps the proofs of the tests small.

use crate::messages;
use bufr_frame::Message;
use bufr_tables::{Fxy, TableB, TableD, TableFault, Template, TemplateFault};
use std::alloc::Global;
use std::fmt::Debug;
use std::process::Abort;

/// The runtime of a test, which can allocate memory and abort the test if an assertion fails.
pub(crate) trait Runtime: Abort + AllocGlobal {}

impl<R: Abort + AllocGlobal> Runtime for R {}

/// Unwraps a result that must be `Ok`. In a test, `?` would add another case to the proof.
pub(crate) fn ok<T, E: Drop>(rt: &impl Abort, answer: Result<T, E>) -> T {
    match answer {
        Ok(value) => value,
        Err(_) => panic!(rt; "a call failed"),
    }
}

/// Unwraps an option that must be `Some`.
pub(crate) fn some<T>(rt: &impl Abort, option: Option<T>) -> T {
    match option {
        Some(value) => value,
        None => panic!(rt; "a value is missing"),
    }
}

pub(crate) fn assert_same<T: Debug + PartialEq, C: Debug>(
    rt: &impl Abort,
    found: &T,
    want: &T,
    case: &C,
) {
    assert_eq!(rt; found, want, "for {case:?}");
}

pub(crate) fn assert_that<C: Debug>(rt: &impl Abort, holds: bool, case: &C) {
    assert!(rt; holds, "for {case:?}");
}

fn octet_of(rt: &impl Abort, high: char, low: char) -> u8 {
    let high = some(rt, high.to_digit(16));
    let low = some(rt, low.to_digit(16));
    ok(rt, u8::try_from(high.wrapping_mul(16).wrapping_add(low)))
}

/// Converts pairs of hexadecimal digits to octets. Spaces between the digits are ignored.
pub(crate) fn from_hex(rt: &impl Runtime, digits: &str) -> Vec<u8> {
    let mut octets = Vec::new(rt.alloc());
    let mut first = None;
    for digit in digits.chars() {
        if digit == ' ' {
            continue;
        }
        first = match first {
            None => Some(digit),
            Some(high) => {
                ok(rt, octets.push(octet_of(rt, high, digit)));
                None
            }
        };
    }
    assert_that(rt, first.is_none(), &digits);
    octets
}

/// Concatenates the parts.
pub(crate) fn joined(rt: &impl Runtime, parts: &[&[u8]]) -> Vec<u8> {
    let mut octets = Vec::new(rt.alloc());
    for part in parts {
        ok(rt, octets.extend_from_slice(part));
    }
    octets
}

/// Repeats `part` the given number of times.
pub(crate) fn repeated(rt: &impl Runtime, part: &[u8], times: usize) -> Vec<u8> {
    let mut octets = Vec::new(rt.alloc());
    for _ in 0..times {
        ok(rt, octets.extend_from_slice(part));
    }
    octets
}

fn descriptor_of(rt: &impl Abort, digits: &str) -> Fxy {
    some(rt, Fxy::read(digits.as_bytes()))
}

/// Parses a string of six-digit descriptors that are separated by spaces.
pub(crate) fn descriptors_of(rt: &impl Runtime, text: &str) -> Vec<Fxy> {
    let mut descriptors = Vec::new(rt.alloc());
    for digits in text.split_whitespace() {
        ok(rt, descriptors.push(descriptor_of(rt, digits)));
    }
    descriptors
}

/// Parses a string of six-digit descriptors that are separated by spaces, and returns their 16-bit
/// words.
pub(crate) fn words_of(rt: &impl Runtime, text: &str) -> Vec<u16> {
    let mut words = Vec::new(rt.alloc());
    for digits in text.split_whitespace() {
        ok(rt, words.push(descriptor_of(rt, digits).word()));
    }
    words
}

pub(crate) fn read_b(alloc: Global, text: &[u8]) -> Result<TableB, TableFault> {
    TableB::read(alloc, text)
}

pub(crate) fn read_d(alloc: Global, text: &[u8]) -> Result<TableD, TableFault> {
    TableD::read(alloc, text)
}

/// Returns Table B for the test messages.
pub(crate) fn table_b(rt: &impl Runtime) -> TableB {
    ok(rt, read_b(rt.alloc(), messages::table_b()))
}

/// Returns Table D for the test messages.
pub(crate) fn table_d(rt: &impl Runtime) -> TableD {
    ok(rt, read_d(rt.alloc(), messages::table_d()))
}

pub(crate) fn build(
    alloc: Global,
    descriptors: &[Fxy],
    table_b: &TableB,
    table_d: &TableD,
) -> Result<Template, TemplateFault> {
    Template::build(alloc, descriptors, table_b, table_d)
}

/// Builds the template for the descriptors in a string, using the tables for the test messages.
pub(crate) fn template_of(rt: &impl Runtime, text: &str) -> Template {
    let descriptors = descriptors_of(rt, text);
    let (table_b, table_d) = (table_b(rt), table_d(rt));
    ok(rt, build(rt.alloc(), &descriptors, &table_b, &table_d))
}

/// Builds the template for a message, using the tables for the test messages.
pub(crate) fn template_for(rt: &impl Runtime, message: &Message<'_>) -> Template {
    let mut descriptors = Vec::new(rt.alloc());
    for word in message.descriptors() {
        ok(rt, descriptors.push(Fxy::from_word(word)));
    }
    ok(
        rt,
        build(rt.alloc(), &descriptors, &table_b(rt), &table_d(rt)),
    )
}

/// Parses a message, which must be valid.
pub(crate) fn parsed<'a>(rt: &impl Abort, octets: &'a [u8]) -> Message<'a> {
    assert!(rt; octets.len() >= 12);
    ok(rt, Message::parse(octets))
}
