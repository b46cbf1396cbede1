//! Tests for reading the data of messages.

ghost use Rattle.std.specs.Prelude.{◌≤◌, length};

use crate::messages::{PACKED, PLAIN, THIRTY_TWO_GROUPS, message_of};
use crate::support::{
    Runtime, assert_same, from_hex, joined, ok, parsed, some, table_b, template_of,
};
use bufr_bits::BitSlice;
use bufr_tables::{Fxy, TableB, Template};
use bufr_walk::{
    DataFault, Fields, ItemView, PackedIn, Reading, Spot, Steps, Value, Visitor, WalkFault,
    WalkStop, read_message, walk,
};
use std::alloc::{AllocError, Global};

/// A visitor that describes subsets and items as text. A `#` follows each item that is shown with
/// its Table B entry.
#[derive(Drop)]
struct Lines {
    alloc: Global,
    text: String,
}

impl Visitor for Lines {
    type Fault = AllocError;

    ghost sees = { λ s call r t. Unit {0} };

    fn subset(&mut self, number: u16) -> Result<(), AllocError> {
        let line = format!(in self.alloc; " {number}:")?;
        self.text.push_str(line.as_str())
    }

    fn item(&mut self, item: &ItemView<'_>) -> Result<(), AllocError> {
        let line = line_of(self.alloc, item)?;
        self.text.push_str(line.as_str())?;
        if item.entry.is_some() {
            self.text.push_str(" #")?;
        }
        Ok(())
    }
}

/// Describes an item as text. The text contains the descriptor, followed by a number and its scale,
/// the hexadecimal digits of a string, a reference value, or `missing`.
fn line_of(alloc: Global, item: &ItemView<'_>) -> Result<String, AllocError> {
    match item.value {
        Value::Number(number, scale) => { format!(in alloc; " {} {number}e{scale}", item.fxy) }
        Value::Text(octets) => line_of_text(alloc, item.fxy, octets),
        Value::Missing => format!(in alloc; " {} missing", item.fxy),
        Value::Reference(number) => format!(in alloc; " {} R{number}", item.fxy),
    }
}

/// Returns the descriptor of a string item, followed by the string in hexadecimal digits.
fn line_of_text(alloc: Global, fxy: Fxy, octets: &[u8]) -> Result<String, AllocError> {
    let mut line = format!(in alloc; " {fxy} \"")?;
    for octet in octets {
        push_octet(alloc, &mut line, *octet)?;
    }
    line.push('"')?;
    Ok(line)
}

fn push_octet(alloc: Global, line: &mut String, octet: u8) -> Result<(), AllocError> {
    line.push_str(format!(in alloc; "{octet:02X}")?.as_str())
}

/// A visitor that counts subsets and items. The visitor accepts up to `most` items, and rejects the
/// next item.
#[derive(Drop)]
struct Counts {
    subsets: u64,
    items: u64,
    most: u64,
}

impl Visitor for Counts {
    type Fault = u64;

    ghost sees = { λ s call r t. Unit {0} };

    fn subset(&mut self, _number: u16) -> Result<(), u64> {
        self.subsets = u64::wrapping_add(self.subsets, 1);
        Ok(())
    }

    fn item(&mut self, _item: &ItemView<'_>) -> Result<(), u64> {
        if self.items == self.most {
            return Err(self.items);
        }
        self.items = u64::wrapping_add(self.items, 1);
        Ok(())
    }
}

fn spot_of(fault: WalkFault) -> Option<Spot> {
    match fault {
        WalkFault::DataEnd(spot) => Some(spot),
        WalkFault::Width(spot) => Some(spot),
        WalkFault::Defining(spot) => Some(spot),
        WalkFault::UnequalFactor(spot) => Some(spot),
        WalkFault::Increment(spot) => Some(spot),
        WalkFault::TooManyValues(spot) => Some(spot),
        WalkFault::Memory => None,
    }
}

/// The names of faults 30 to 35. The description of a fault begins with its name.
#[rattlefmt::skip]
const NAMES: [&str; 6] = [
    "data end", "width", "defining", "unequal factor", "increment", "too many values",
];

/// Returns the fault number, subset, descriptor, bit offset and number of steps as text.
fn refused(rt: &impl Runtime, fault: &WalkFault, steps: &Steps) -> String {
    let (number, count) = (fault.number(), steps.count());
    let Some(spot) = spot_of(*fault) else {
        return ok(rt, format!(in rt.alloc(); "{number}"));
    };
    let (subset, fxy, bit) = (spot.subset, spot.fxy, spot.bit);
    let name = some(rt, NAMES.get(usize::from(number) - 30));
    let line = format!(in rt.alloc(); "{name} at subset {subset} descriptor {fxy} bit {bit}");
    let shown = ok(rt, format!(in rt.alloc(); "{fault}"));
    assert_same(rt, &shown.as_str(), &ok(rt, line).as_str(), &number);
    let text = format!(in rt.alloc(); "{number} at {subset} {fxy} {bit} steps {count}");
    ok(rt, text)
}

/// Returns the number of bits read and the number of steps taken as text. If the `Reading` stores
/// items, the text also contains their number.
fn measures(rt: &impl Runtime, reading: &Reading<'_>, steps: &Steps) -> String {
    let (bits, count, held) = (reading.bits(), steps.count(), reading.held());
    let mut text = ok(rt, format!(in rt.alloc(); "bits {bits} steps {count}"));
    if held > 0 {
        let held = ok(rt, format!(in rt.alloc(); " held {held}"));
        ok(rt, text.push_str(held.as_str()));
    }
    text
}

/// Like [`measures`], but also describes the subsets and items. Showing the items must take as many
/// steps as reading the message, or no steps if the `Reading` stores the items.
fn shown(rt: &impl Runtime, reading: &Reading<'_>, steps: &mut Steps) -> String {
    let mut lines = Lines {
        alloc: rt.alloc(),
        text: measures(rt, reading, steps),
    };
    if reading.subsets() > 0 {
        ok(rt, lines.text.push(';'));
    }
    let want = if reading.held() > 0 { 0 } else { steps.count() };
    if reading.show(rt.alloc(), &mut lines, steps).is_err() {
        ok(rt, lines.text.push_str(" out of memory"));
    }
    if steps.count() != want {
        ok(rt, lines.text.push_str(" other steps"));
    }
    lines.text
}

/// A message, its template, and Table B.
#[derive(Drop)]
struct Case {
    octets: Vec<u8>,
    template: Template,
    table: TableB,
}

impl Case {
    fn new(rt: &impl Runtime, subsets: u16, flags: u8, descriptors: &str, payload: &[u8]) -> Case {
        Case {
            octets: message_of(rt, subsets, flags, descriptors, payload),
            template: template_of(rt, descriptors),
            table: table_b(rt),
        }
    }

    /// Reads the message. Returns the number of bits and steps, or the fault. If `show` is set, the
    /// result also contains the subsets and items of the message.
    fn outcome(&self, rt: &impl Runtime, show: bool) -> String {
        let message = parsed(rt, &self.octets);
        let mut steps = Steps::new();
        let (template, table) = (&self.template, &self.table);
        match read_message(rt.alloc(), &message, template, table, &mut steps) {
            Ok(reading) if show => shown(rt, &reading, &mut steps),
            Ok(reading) => measures(rt, &reading, &steps),
            Err(fault) => refused(rt, &fault, &steps),
        }
    }

    /// Shows the items to a visitor that accepts up to `most` items. Returns the numbers of subsets
    /// and items that were shown, and the number of steps.
    fn count_to(&self, rt: &impl Runtime, most: u64) -> (u64, u64, u64) {
        let message = parsed(rt, &self.octets);
        let mut steps = Steps::new();
        let mut counts = Counts {
            subsets: 0,
            items: 0,
            most,
        };
        let (template, table) = (&self.template, &self.table);
        let answer = read_message(rt.alloc(), &message, template, table, &mut steps);
        let reading = ok(rt, answer);
        // The result is ignored because the counts show where the visitor rejected an item.
        let _ = reading.show(rt.alloc(), &mut counts, &mut steps);
        (counts.subsets, counts.items, steps.count())
    }
}

/// Each row contains a name, the number of subsets, the flags, the descriptor list, the data in
/// hexadecimal digits, and the expected result. If the data can be read, the result contains the
/// numbers of bits and steps, and the items. Otherwise, the result contains the fault number, the
/// subset, the descriptor, the bit offset and the number of steps.
#[rattlefmt::skip]
const READINGS: &[(&str, u16, u8, &str, &str, &str)] = &[
    ("one_block_number", 1, PLAIN, "001001", "14", "bits 7 steps 2; 1: 001001 10e0 #"),
    ("one_temperature", 1, PLAIN, "012101", "708F", "bits 16 steps 2; 1: 012101 28815e2 #"),
    ("one_temperature_missing", 1, PLAIN, "012101", "FFFF", "bits 16 steps 2; 1: 012101 missing #"),
    ("delayed_twice", 1, PLAIN, "101000 031001 001001", "02142C", "bits 22 steps 7; 1: 031001 2e0 # 001001 10e0 # 001001 11e0 #"),
    ("delayed_none", 1, PLAIN, "101000 031001 001001", "00", "bits 8 steps 3; 1: 031001 0e0 #"),
    ("short_factor", 1, PLAIN, "101000 031000 001001", "8A", "bits 8 steps 5; 1: 031000 1e0 # 001001 10e0 #"),
    ("width_and_scale_changed", 1, PLAIN, "201132 202129 012101 201000 202000 012101", "46599708F0", "bits 36 steps 7; 1: 012101 288153e3 # 012101 28815e2 #"),
    ("redefined_reference", 1, PLAIN, "203010 012101 203255 012101", "E41C23C0", "bits 26 steps 5; 1: 012101 R-400 012101 28415e2 #"),
    ("increased_precision", 1, PLAIN, "207001 012101 020003", "46599028", "bits 29 steps 4; 1: 012101 288153e3 # 020003 5e0 #"),
    ("width_of_one", 1, PLAIN, "201122 001001", "00", "bits 1 steps 3; 1: 001001 0e0 #"),
    ("width_of_one_missing", 1, PLAIN, "201122 001001", "80", "bits 1 steps 3; 1: 001001 missing #"),
    ("sequence", 1, PLAIN, "360192", "14E11E", "bits 23 steps 3; 1: 001001 10e0 # 012101 28815e2 #"),
    ("local_descriptor", 1, PLAIN, "206012 063255", "0F50", "bits 12 steps 3; 1: 063255 245e0"),
    ("inserted_text", 1, PLAIN, "205004", "225C0AFE", "bits 32 steps 2; 1: 205004 \"225C0AFE\""),
    ("thirty_two_groups", 1, PLAIN, THIRTY_TWO_GROUPS, "14", "bits 7 steps 66; 1: 001001 10e0 #"),
    ("negative_latitude", 1, PLAIN, "005002", "4646", "bits 15 steps 2; 1: 005002 -5e2 #"),
    ("no_subsets", 0, PLAIN, "001001", "", "bits 0 steps 0"),
    ("text_width", 1, PLAIN, "208003 001015", "414243", "bits 24 steps 3; 1: 001015 \"414243\" #"),
    ("compressed_missing", 2, PACKED, "012101", "708F05", "bits 24 steps 2 held 1; 1: 012101 28815e2 # 2: 012101 missing #"),
    ("compressed_name", 2, PACKED, "001015", "00000000000000000000000000000000000000001105090C83FFFFFFFC", "bits 230 steps 2 held 1; 1: 001015 \"4142432020202020202020202020202020202020\" # 2: 001015 missing #"),
    ("increment_to_missing", 2, PACKED, "001001", "FC1080", "bits 17 steps 2 held 1; 1: 001001 126e0 # 2: 001001 missing #"),
    ("inserted_missing", 1, PLAIN, "205001", "FF", "bits 8 steps 2; 1: 205001 missing"),
    ("references_dropped", 1, PLAIN,
        "203010 012101 001001 203255 203000 012101 001001", "E4005708F140",
        "bits 43 steps 8; 1: 012101 R-400 001001 R5 012101 28815e2 # 001001 10e0 #"),
    ("changes_cancelled", 1, PLAIN,
        "207001 208003 207000 208000 012101 001015", "708F4141414141414141414141414141414141414141",
        "bits 176 steps 7; 1: 012101 28815e2 # 001015 \
         \"4141414141414141414141414141414141414141\" #"),
    ("later_change_replaces", 1, PLAIN,
        "201130 202130 207002 201132 202129 207001 012101", "2BF7FA",
        "bits 24 steps 8; 1: 012101 2881530e4 #"),
    ("changes_add", 1, PLAIN, "201130 202129 207002 005002", "0DB9AC", "bits 24 steps 5; 1: 005002 -500e5 #"),
    ("precision_of_a_reference", 1, PLAIN,
        "201132 207001 203010 012101 203255 012101", "E4011D4E40",
        "bits 34 steps 7; 1: 012101 R-400 012101 288153e3 #"),
    ("figures_take_a_reference", 1, PLAIN,
        "207001 201132 203010 020003 203255 020003 203000 020003", "E400A050",
        "bits 28 steps 9; 1: 020003 R-400 020003 -395e0 # 020003 5e0 #"),
    ("references_kept", 1, PLAIN,
        "203010 012101 203255 203008 001001 203255 012101 001001", "E4015C23C500",
        "bits 41 steps 9; 1: 012101 R-400 001001 R5 012101 28415e2 # 001001 15e0 #"),
    ("given_width_is_used_up", 1, PLAIN, "206012 063255 001001", "0F5140",
        "bits 19 steps 4; 1: 063255 245e0 001001 10e0 #"),
    ("figures_of_ones", 1, PLAIN, "031021", "FC", "bits 6 steps 2; 1: 031021 63e0 #"),
    ("given_class_31", 1, PLAIN, "206012 031021 206004 031255", "FFFF",
        "bits 16 steps 5; 1: 031021 4095e0 031255 15e0"),
    ("defining_inserted", 1, PLAIN, "203010 205001", "41", "32 at 1 205001 0 steps 2"),
    ("operator_while_defining", 1, PLAIN, "203010 012101 201132 012101", "E400", "32 at 1 201132 10 steps 3"),
    ("defining_again", 1, PLAIN, "203010 012101 203008 012101", "E400", "32 at 1 203008 10 steps 3"),
    ("defining_delayed", 1, PLAIN, "203010 101000 031001 001001", "02142C", "32 at 1 031001 0 steps 3"),
    ("defining_passes_a_group", 1, PLAIN,
        "203010 102002 012101 020003 203255 012101", "E400199202708F",
        "bits 56 steps 11; 1: 012101 R-400 020003 R1 012101 R-100 020003 R-2 012101 28715e2 #"),
    ("no_definitions_to_end", 1, PLAIN, "203255 001001 203010 012101", "15C800",
        "bits 17 steps 5; 1: 001001 10e0 # 012101 R-400"),
    ("defining_before_the_width", 1, PLAIN, "203010 206064 063255", "00", "32 at 1 206064 0 steps 2"),
    ("reference_defined_again", 1, PLAIN,
        "203010 012101 001001 012101 203255 012101 001001", "E4014191C23C50",
        "bits 53 steps 8; 1: 012101 R-400 001001 R20 012101 R100 012101 28915e2 # 001001 30e0 #"),
    ("each_subset_from_the_beginning", 2, PLAIN, "012101 201132", "708F708F",
        "bits 32 steps 6; 1: 012101 28815e2 # 2: 012101 28815e2 #"),
    ("third_subset_past_the_end", 3, PLAIN, "001001 012101", "14E11E29C23C5387", "30 at 3 012101 53 steps 8"),
    ("subsets_of_other_counts", 2, PLAIN, "101000 031001 001001", "01140428A0",
        "bits 37 steps 12; 1: 031001 1e0 # 001001 10e0 # 2: 031001 2e0 # 001001 10e0 # 001001 \
         20e0 #"),
    ("last_bit", 1, PLAIN, "205001 012101", "41708F", "bits 24 steps 3; 1: 205001 \"41\" 012101 28815e2 #"),
    ("one_bit_past", 1, PLAIN, "205001 201129 012101", "41708F", "30 at 1 012101 8 steps 3"),
    ("base_of_all_ones_data_end", 2, PACKED, "012101", "FFFF80", "30 at 0 012101 0 steps 1"),
    ("text_of_255", 2, PACKED, "205002", "FFFF0BFFFFFFF8",
        "bits 54 steps 2 held 1; 1: 205002 missing 2: 205002 \"FFFE\""),
    ("increment_past_the_width", 2, PACKED, "001001", "FC1100", "34 at 0 001001 0 steps 1"),
    ("compressed_data_end", 2, PACKED, "001001", "FC10", "30 at 0 001001 0 steps 1"),
    ("compressed_group_of_three", 2, PACKED,
        "103000 031001 001001 012101 205001", "0200504CE11E00002828450070800850C0",
        "bits 136 steps 11 held 7; 1: 031001 2e0 # 001001 11e0 # 012101 28815e2 # 205001 \"41\" \
         001001 20e0 # 012101 28800e2 # 205001 \"43\" 2: 031001 2e0 # 001001 12e0 # 012101 \
         28815e2 # 205001 \"42\" 001001 20e0 # 012101 28801e2 # 205001 \"43\""),
    ("compressed_references_in_turn", 2, PACKED,
        "104000 031001 203010 001001 203255 001001", "0300050050003802826014016000",
        "bits 105 steps 18 held 7; 1: 031001 3e0 # 001001 R5 001001 15e0 # 001001 R7 001001 \
         18e0 # 001001 R5 001001 16e0 # 2: 031001 3e0 # 001001 R5 001001 15e0 # 001001 R7 \
         001001 19e0 # 001001 R5 001001 16e0 #"),
    ("second_item_past_the_end", 1, PLAIN, "001001 012101", "14E1", "30 at 1 012101 7 steps 2"),
    ("second_of_two_subsets_past_the_end", 2, PLAIN, "001001 012101", "14E11E29", "30 at 2 012101 30 steps 5"),
    ("two_subsets", 2, PLAIN, "001001 012101", "14E11E29C23C",
        "bits 46 steps 6; 1: 001001 10e0 # 012101 28815e2 # 2: 001001 10e0 # 012101 28815e2 #"),
];

fn assert_row(rt: &impl Runtime, row: &(&str, u16, u8, &str, &str, &str)) {
    let (name, subsets, flags, descriptors, payload, want) = *row;
    let case = Case::new(rt, subsets, flags, descriptors, &from_hex(rt, payload));
    assert_same(rt, &case.outcome(rt, true).as_str(), &want, &name);
}

#[test]
// rule: value, missing, missing-inserted-text, factor-by-entry, 2-01-y, 2-02-y, 2-03-y, 2-03-000
// rule: new-reference, 2-05-y, 2-06-y, 2-07-y, 2-08-y, cancel-2-01-and-2-02, cancel-2-07-and-2-08
// rule: later-operator-replaces, 2-01-2-02-2-07-add-up, 2-07-y-of-a-new-reference
// rule: new-reference-of-quantities, new-reference-of-figures, figures-unchanged, 2-03-y-again
// rule: last-reference-counts, operators-end-with-subset, 2-06-y-used-up, 2-06-y-of-class-31
// rule: defining-no-text, defining-no-inserted-text, defining-no-other-operator
// rule: defining-no-delayed-group, defining-fixed-groups, 2-03-255-alone, widths
// rule: fault-32-before-31, subsets-without-padding, field-past-end, compressed-increments-there
// rule: compressed-missing-increment, compressed-sum-of-ones, compressed-text
// rule: compressed-text-missing, compressed-text-base, class-31-never-missing, passes-by-count
fn reads_data_or_reports_faults(rt: HostRuntime) {
    for row in READINGS {
        assert_row(&rt, row);
    }
}

/// Each row contains a name, the number of subsets, the flags, the descriptor list, the first two
/// octets of the data, the length of the data in octets, and the expected result. If the test also
/// shows the items, the expected numbers of subsets and items follow.
#[rattlefmt::skip]
const LIMITS: &[(&str, u16, u8, &str, ([u8; 2], usize), &str, Option<(u64, u64)>)] = &[
    ("one_item_too_many", 65535, PACKED, "101000 031002 001001", ([0x08, 0x00], 3330),
        "35 at 0 001001 26633 steps 4097", None),
    ("as_many_items_as_may_be", 65535, PACKED, "101000 031002 001001", ([0x07, 0xFF], 3330),
        "bits 26633 steps 4097 held 2048", None),
    ("a_width_before_one_item_too_many", 65535, PACKED, "101000 031002 001001 201121 001001",
        ([0x07, 0xFF], 3330), "31 at 0 001001 26633 steps 4098", None),
    ("factors_of_zero", 1, PLAIN, "103000 031001 101000 031001 001001", ([0xFF, 0x00], 256),
        "bits 2048 steps 768", Some((1, 256))),
    ("as_many_subsets_as_may_be", 65535, PLAIN, "031000", ([0x00, 0x00], 8192),
        "bits 65535 steps 131070", Some((65535, 65535))),
    ("as_many_compressed_subsets_as_may_be", 65535, PACKED, "001001", ([0x14, 0x00], 2),
        "bits 13 steps 2 held 1", Some((65535, 65535))),
    ("many_fields", 2, PLAIN, "102205 101005 001001", ([0x14, 0x00], 1794), "bits 14350 steps 4924", Some((2, 2050))),
];

/// Returns `first`, padded with zeros to `len` octets.
fn octets_with(rt: &impl Runtime, first: &[u8], len: usize) -> Vec<u8> {
    let mut octets = joined(rt, &[first]);
    ok(rt, octets.resize(len, 0));
    octets
}

#[test]
// rule: too-many-values, compressed-fault-order
fn reads_data_up_to_size_limits(rt: HostRuntime) {
    for (name, subsets, flags, descriptors, (first, len), want, counts) in LIMITS {
        let payload = octets_with(&rt, first, *len);
        let case = Case::new(&rt, *subsets, *flags, descriptors, &payload);
        assert_same(&rt, &case.outcome(&rt, false).as_str(), want, name);
        if let Some(counts) = counts {
            let (shown_subsets, shown_items, _) = case.count_to(&rt, u64::MAX);
            assert_same(&rt, &(shown_subsets, shown_items), counts, name);
        }
    }
}

#[test]
fn reads_255_octet_string(rt: HostRuntime) {
    let payload = octets_with(&rt, &[], 258);
    let case = Case::new(&rt, 1, PLAIN, "201129 012101 205255", &payload);
    assert_same(&rt, &case.outcome(&rt, true).len(), &554, &"characters");
}

/// Each row contains the number of items that the visitor accepts, and the expected numbers of
/// subsets, items and steps. The message has two subsets.
#[rattlefmt::skip]
const REFUSED_ITEMS: &[(u64, (u64, u64, u64))] = &[
    (0, (1, 0, 1)), (2, (1, 2, 5)), (3, (2, 3, 8)), (4, (2, 4, 10)), (6, (2, 6, 14)),
];

#[test]
fn stops_when_visitor_rejects_item(rt: HostRuntime) {
    let payload = octets_with(&rt, &[0x14], 8);
    let case = Case::new(&rt, 2, PLAIN, "012101 101002 001001", &payload);
    for (most, want) in REFUSED_ITEMS {
        assert_same(&rt, &case.count_to(&rt, *most), want, most);
    }
}

/// Items of compressed subsets. Each row contains a name, the number of subsets, the descriptor
/// list, the data in hexadecimal digits, the expected fault number (0 if there is no fault), and
/// the number of bits in the items that can be read.
#[rattlefmt::skip]
const PACKED_ITEMS: &[(&str, u16, &str, &str, (u8, u64))] = &[
    ("a_number_and_missing", 2, "001001", "FC1080", (0, 17)),
    ("a_sum_past_the_width", 2, "001001", "FC1100", (34, 0)),
    ("no_increments", 2, "001001", "1400", (0, 13)),
    ("no_increments_of_most_subsets", 65535, "001001", "1400", (0, 13)),
    ("missing_with_increments", 2, "001001", "FE0900", (0, 15)),
    ("the_increments_end", 2, "001001", "FC10", (30, 0)),
    ("the_base_ends", 2, "001001", "FC", (30, 0)),
    ("all_ones_never_missing", 2, "206007 031021", "FE0A", (34, 0)),
    ("up_to_all_ones", 2, "206007 031021", "FC0A", (0, 15)),
    ("one_factor_of_two", 2, "101000 031001 001001", "02005002C0", (0, 40)),
    ("equal_factors_of_two", 2, "101000 031001 001001", "01071400B000", (0, 42)),
    ("factors_that_differ", 2, "101000 031001 001001", "0105", (33, 0)),
    ("a_factor_past_its_width", 2, "101000 031001 001001", "FF05", (34, 0)),
    ("a_reference", 2, "203010 012101 203255 012101", "E400708F00", (0, 38)),
    ("a_reference_with_increments", 2, "203010 012101 203255 012101", "E43F", (34, 0)),
    ("a_text_and_missing", 2, "205002", "00000507FC", (0, 38)),
    ("octets_over_the_width", 2, "205002", "00000C000000000000", (34, 0)),
    // The increments exceed the width of the string, but the end of the data is checked first.
    ("octets_past_the_data", 2, "205002", "00000C", (30, 0)),
];

/// Returns the fault number if a fault stopped the walk, or 0 if the walk completed.
fn number_of(answer: Result<(), WalkStop<DataFault>>) -> u8 {
    match answer {
        Ok(()) => 0,
        Err(WalkStop::Field(fault)) => fault.number(),
        Err(WalkStop::Width(_)) => 31,
        Err(WalkStop::Defining(_)) => 32,
        Err(WalkStop::Memory) => 73,
    }
}

/// Walks over compressed data. Returns the fault number (0 if there is no fault), and the number of
/// bits in the items that were read.
fn walked(
    alloc: Global,
    template: &Template,
    table: &TableB,
    subsets: u16,
    octets: &[u8],
) -> (u8, u64)
    requires subsets { 1 ≤ subsets }
    requires octets { length octets.now ≤ 100 }
{
    let mut fields = PackedIn::new(alloc, BitSlice::new(octets), subsets);
    let mut steps = Steps::new();
    let answer = walk(alloc, template, table, &mut fields, &mut steps);
    (number_of(answer), fields.bits())
}

#[test]
// rule: compressed-item, compressed-equal, compressed-all-missing, compressed-past-width
// rule: compressed-class-31, compressed-text-past-width, compressed-factors
// rule: compressed-references, fault-30-before-34, fault-34-before-33
fn reads_items_from_compressed_subsets(rt: HostRuntime) {
    let table = table_b(&rt);
    for (name, subsets, descriptors, payload, want) in PACKED_ITEMS {
        let octets = from_hex(&rt, payload);
        assert!(rt; octets.len() <= 100 && *subsets >= 1);
        let template = template_of(&rt, descriptors);
        let found = walked(rt.alloc(), &template, &table, *subsets, &octets);
        assert_same(&rt, &found, want, name);
    }
}

/// Checks `number` for faults that do not occur in `PACKED_ITEMS`.
#[test]
fn returns_fault_numbers_for_out_of_memory_and_too_many_values(rt: HostRuntime) {
    assert_same(&rt, &WalkFault::Memory.number(), &73, &"memory");
    assert_same(&rt, &DataFault::Memory.number(), &73, &"memory");
    let many = DataFault::TooManyValues(Fxy::from_word(257));
    assert_same(&rt, &many.number(), &35, &"values");
}
