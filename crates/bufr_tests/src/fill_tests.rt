//! Tests for writing items as plain or compressed data, and for faults in items.

use crate::support::{Runtime, assert_same, assert_that, from_hex, ok, table_b, template_of};
use bufr_bits::ShortDecimal;
use bufr_fill::{
    DraftFault, DraftItem, DraftValue, Entries, Expected, ItemFault, PackedOut, PlainOut,
    WalkRefusal, laws,
};
use bufr_tables::{Fxy, TableB, Template};
use bufr_walk::{Fields, Steps, WalkStop, walk};

/// Returns the items of two subsets, each with one 7-bit element. The first number is given as a
/// short decimal, and the second as a string of digits.
fn two_items(rt: &impl Runtime, digits: u64) -> Entries {
    let mut entries = Entries::new(rt.alloc());
    let fxy = Fxy::from_word(257);
    let number = ShortDecimal {
        digits,
        places: 0,
        negative: false,
    };
    ok(rt, entries.push_decimal(22, fxy, number));
    ok(rt, entries.push_end(23));
    let form = DraftValue::Number(b"011");
    ok(
        rt,
        entries.push_item(DraftItem {
            line: 24,
            fxy,
            form,
        }),
    );
    ok(rt, entries.push_end(25));
    entries
}

/// Returns the fault number and the line number of the invalid item (0 if memory ran out).
fn fault_of(fault: DraftFault) -> (u8, u64) {
    let line = match fault {
        DraftFault::Item(line, _) => line,
        DraftFault::Memory => 0,
    };
    (fault.number(), line)
}

/// Returns the fault number and the line number for the fault that stopped a walk. For faults 31
/// and 32, the line number is `next` (the line of the next entry).
fn stop_of(stop: WalkStop<DraftFault>, next: u64) -> (u8, u64) {
    match stop {
        WalkStop::Width(_) => (31, next),
        WalkStop::Defining(_) => (32, next),
        WalkStop::Field(fault) => fault_of(fault),
        WalkStop::Memory => (73, 0),
    }
}

/// Writes the items of two subsets as plain data. Returns the data or the fault, and the number of
/// bits in the subsets that were written completely.
fn write_plain(
    rt: &impl Runtime,
    entries: &Entries,
    template: &Template,
    table: &TableB,
) -> (Result<Vec<u8>, (u8, u64)>, u64) {
    assert!(rt; entries.len() <= 100);
    let (mut out, mut bits) = (PlainOut::new(rt.alloc(), entries), 0);
    let mut steps = Steps::new();
    for _subset in 0..2 {
        match walk(rt.alloc(), template, table, &mut out, &mut steps) {
            Ok(()) => bits = out.bits(),
            Err(stop) => return (Err(stop_of(stop, out.line())), bits),
        }
        match out.end_subset() {
            Ok(()) => {}
            Err(fault) => return (Err(fault_of(fault)), bits),
        }
    }
    (Ok(out.into_octets()), bits)
}

/// Writes the items of all subsets as compressed data. Returns the data or the fault, and the
/// number of bits.
fn write_compressed(
    rt: &impl Runtime,
    entries: &Entries,
    template: &Template,
    table: &TableB,
) -> (Result<Vec<u8>, (u8, u64)>, u64) {
    assert!(rt; entries.len() <= 100);
    let Some(mut out) = ok(rt, PackedOut::new(rt.alloc(), entries)) else {
        return (Ok(Vec::new(rt.alloc())), 0);
    };
    let mut steps = Steps::new();
    match walk(rt.alloc(), template, table, &mut out, &mut steps) {
        Ok(()) => {}
        Err(stop) => return (Err(stop_of(stop, out.line())), 0),
    }
    let bits = out.bits();
    match out.end() {
        Ok(()) => (Ok(out.into_octets()), bits),
        Err(fault) => (Err(fault_of(fault)), bits),
    }
}

#[test]
fn writing_laws_can_be_called() {
    laws::data_round_trip();
    laws::items_are_packed_with_the_least_k();
    laws::written_data_are_read();
    laws::items_determine_the_data();
    laws::alike_drafts_have_the_same_data();
    laws::data_are_written_in_the_other_form();
    laws::walks_write_as_defined();
    laws::faults_are_as_defined();
}

/// Asserts that the given data and the given number of bits were written.
fn assert_written(
    rt: &impl Runtime,
    written: &(Result<Vec<u8>, (u8, u64)>, u64),
    digits: &str,
    bits: u64,
) {
    match &written.0 {
        Ok(octets) => assert_same(rt, octets, &from_hex(rt, digits), &"octets"),
        Err(fault) => assert_that(rt, false, fault),
    }
    assert_same(rt, &written.1, &bits, &"bits");
}

#[test]
fn writes_items_as_plain_and_compressed_data(rt: HostRuntime) {
    let (template, table) = (template_of(&rt, "001001"), table_b(&rt));
    let entries = two_items(&rt, 10);
    assert_same(&rt, &entries.len(), &4, &"entries");
    let plain = write_plain(&rt, &entries, &template, &table);
    assert_written(&rt, &plain, "142C", 14);
    let compressed = write_compressed(&rt, &entries, &template, &table);
    assert_written(&rt, &compressed, "141080", 17);
}

#[test]
fn rejects_number_reserved_for_missing_values(rt: HostRuntime) {
    let (template, table) = (template_of(&rt, "001001"), table_b(&rt));
    let entries = two_items(&rt, 127);
    let plain = write_plain(&rt, &entries, &template, &table);
    assert_that(&rt, plain.0 == Err((53, 22)), &plain.1);
    let compressed = write_compressed(&rt, &entries, &template, &table);
    assert_that(&rt, compressed.0 == Err((53, 22)), &compressed.1);
}

#[test]
fn returns_fault_numbers_for_items(rt: HostRuntime) {
    let fxy = Fxy::from_word(257);
    let many = WalkRefusal::TooManyValues(fxy);
    let rows = [
        (ItemFault::WrongDescriptor(Expected::Item(fxy)), 51, 51),
        (ItemFault::Number, 52, 52),
        (ItemFault::OutOfRange, 53, 53),
        (ItemFault::TextLong, 54, 54),
        (ItemFault::MissingForbidden, 55, 55),
        (ItemFault::UnequalFactor, 58, 58),
        (ItemFault::Increment, 59, 59),
        (ItemFault::Walk(many), 62, 35),
    ];
    for (fault, in_document, alone) in rows {
        assert_same(&rt, &fault.number(), &in_document, &fault);
        assert_same(&rt, &DraftFault::Item(1, fault).number(), &alone, &fault);
    }
    assert_same(&rt, &DraftFault::Memory.number(), &73, &"memory");
    assert_same(&rt, &(many.number(), many.fxy()), &(35, fxy), &many);
}
