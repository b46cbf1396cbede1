//! Tests for expanding descriptor lists into templates.

use crate::messages::THIRTY_TWO_GROUPS;
use crate::support::{
    Runtime, assert_same, build, descriptors_of, ok, read_b, table_b, table_d, template_of,
};
use bufr_tables::{Cell, Fxy, TableB, TableD, Template, TemplateFault};

/// Each row contains a name, a descriptor list, and the expected result. The result is either the
/// template's number of places and its depth, or a fault.
#[rattlefmt::skip]
const LISTS: &[(&str, &str, &str)] = &[
    ("one_block_number", "001001", "places 2 depth 0"),
    ("delayed_twice", "101000 031001 001001", "places 5 depth 1"),
    ("short_factor", "101000 031000 001001", "places 5 depth 1"),
    ("long_factor", "101000 031002 001001", "places 5 depth 1"),
    ("width_and_scale_changed", "201132 202129 012101 201000 202000 012101", "places 7 depth 0"),
    ("redefined_reference", "203010 012101 203255 012101", "places 5 depth 0"),
    ("increased_precision", "207001 012101 020003", "places 4 depth 0"),
    ("empty_group", "101255 201000", "25 empty group 101255"),
    ("empty_whole", "201000", "25 empty group 201000"),
    ("empty_list", "", "25 empty group 000000"),
    ("sequence_of_two", "360192", "places 3 depth 0"),
    ("local_descriptor", "206012 063255", "places 3 depth 0"),
    ("local_descriptor_alone", "063255", "20 unknown element 063255"),
    ("inserted_text", "205004", "places 2 depth 0"),
    ("inserted_text_in_a_group", "101002 205004", "places 4 depth 1"),
    ("text_width", "208003 001015", "places 3 depth 0"),
    ("thirty_two_groups", THIRTY_TWO_GROUPS, "places 66 depth 32"),
    ("thirty_three_groups",
        "133001 132001 131001 130001 129001 128001 127001 126001 125001 124001 123001 122001 \
         121001 120001 119001 118001 117001 116001 115001 114001 113001 112001 111001 110001 \
         109001 108001 107001 106001 105001 104001 103001 102001 101001 001001", "26 depth 101001"),
    ("thirty_two_sequences", "320002", "places 2 depth 0"),
    ("thirty_three_sequences", "320001", "26 depth 320033"),
    ("delayed_in_delayed", "103000 031001 101000 031001 001001", "places 8 depth 2"),
    ("too_few_descriptors", "102002 001001", "23 group shape 102002"),
    ("no_descriptors", "100002 001001", "23 group shape 100002"),
    ("too_few_after_the_factor", "101000 031001", "23 group shape 101000"),
    ("too_few_in_a_sequence", "330002 001001", "23 group shape 101002"),
    ("too_few_in_a_group", "101002 101002 001001", "23 group shape 101002"),
    ("element_for_a_factor", "101000 001001", "24 no factor 101000"),
    ("no_factor_left", "101000", "24 no factor 101000"),
    ("local_width_before_an_operator", "206012 201000", "28 local shape 206012"),
    ("local_width_at_the_end", "206012", "28 local shape 206012"),
    ("local_width_at_the_end_of_a_group", "101002 206012 063255", "28 local shape 206012"),
    ("local_width_at_the_end_of_a_sequence", "330001 063255", "28 local shape 206012"),
    ("local_width_before_a_group", "206012 101001 001001", "28 local shape 206012"),
    ("associated_field", "204001", "22 operator 204001"),
    ("wrong_width_of_references", "203064 012101", "22 operator 203064"),
    ("wrong_precision", "207019 012101", "22 operator 207019"),
    ("no_text", "205000", "22 operator 205000"),
    ("no_width", "206000 001001", "22 operator 206000"),
    ("unknown_sequence", "300099", "21 unknown sequence 300099"),
    ("group_of_a_sequence_of_operators", "102002 330003 201000 001001", "25 empty group 102002"),
    ("doubling_sequences", "300001", "27 template size 001001"),
    ("doubling_sequences_that_fit", "300003", "places 32769 depth 0"),
    ("doubling_groups", "310001", "27 template size 102002"),
    ("doubling_groups_that_fit", "310003", "places 49151 depth 14"),
];

/// Returns a description of the template, or of the fault if no template could be built.
fn outcome_of(rt: &impl Runtime, answer: &Result<Template, TemplateFault>) -> String {
    let text = match answer {
        Ok(template) => {
            format!(in rt.alloc(); "places {} depth {}", template.places(), template.depth())
        }
        Err(fault) => format!(in rt.alloc(); "{} {fault}", fault.number()),
    };
    ok(rt, text)
}

fn assert_list(
    rt: &impl Runtime,
    table_b: &TableB,
    table_d: &TableD,
    (name, text, want): (&str, &str, &str),
) {
    let descriptors = descriptors_of(rt, text);
    let found = outcome_of(rt, &build(rt.alloc(), &descriptors, table_b, table_d));
    assert_same(rt, &found.as_str(), &want, &name);
}

/// A Table B without replication factors.
const NO_FACTORS: &[u8] = b"\
    fxy,name,unit,scale,reference,width\n\
    001001,WMO BLOCK NUMBER,Numeric,0,0,7\n";

#[test]
// rule: delayed-replication, replication-in-one-list, 2-06-y-before-an-element
// rule: 2-06-y-unknown-element, groups-take-bits, operators-known
fn expands_descriptor_lists_or_reports_faults(rt: HostRuntime) {
    let (table_b, table_d) = (table_b(&rt), table_d(&rt));
    for row in LISTS {
        assert_list(&rt, &table_b, &table_d, *row);
    }
    let lacking = (
        "factor",
        "105000 031001 001001",
        "20 unknown element 031001",
    );
    let no_factors = ok(&rt, read_b(rt.alloc(), NO_FACTORS));
    assert_list(&rt, &no_factors, &table_d, lacking);
    let memory = outcome_of(&rt, &Err(TemplateFault::Memory));
    assert_same(&rt, &memory.as_str(), &"73 out of memory", &"memory");
}

/// Each row contains a name, a descriptor list, and the cells of its template. Each cell is
/// represented by a letter for its kind, followed by its descriptor or count, if it has one. The
/// number after a colon is the index of the cell after the group.
#[rattlefmt::skip]
const CELLS: &[(&str, &str, &str)] = &[
    ("one_block_number", "001001", "E001001 F"),
    ("delayed_twice", "101000 031001 001001", "D:4 R031001 E001001 P F"),
    ("delayed_in_delayed", "103000 031001 101000 031001 001001", "D:7 R031001 D:6 R031001 E001001 P P F"),
    ("width_and_scale_changed", "201132 202129 012101 201000 202000 012101",
        "O201132 O202129 E012101 O201000 O202000 E012101 F"),
    ("groups_and_a_sequence", "103000 031001 206012 063255 360192 101255 001001",
        "D:7 R031001 O206012 E063255 E001001 E012101 P X255:10 E001001 P F"),
    ("thirty_two_groups", THIRTY_TWO_GROUPS,
        "X1:65 X1:64 X1:63 X1:62 X1:61 X1:60 X1:59 X1:58 X1:57 X1:56 X1:55 X1:54 X1:53 X1:52 X1:51 \
         X1:50 X1:49 X1:48 X1:47 X1:46 X1:45 X1:44 X1:43 X1:42 X1:41 X1:40 X1:39 X1:38 X1:37 X1:36 \
         X1:35 X1:34 E001001 P P P P P P P P P P P P P P P P P P P P P P P P P P P P P P P P F"),
];

fn with_letter(rt: &impl Runtime, letter: &str, fxy: Fxy) -> String {
    ok(rt, format!(in rt.alloc(); "{letter}{fxy} "))
}

/// Returns a description of a cell, followed by a space unless it is the last cell.
fn text_of(rt: &impl Runtime, cell: Cell) -> String {
    let text = match cell {
        Cell::Element(fxy) => return with_letter(rt, "E", fxy),
        Cell::Operator(fxy) => return with_letter(rt, "O", fxy),
        Cell::Factor(fxy) => return with_letter(rt, "R", fxy),
        Cell::Fixed(count, after) => format!(in rt.alloc(); "X{count}:{after} "),
        Cell::Delayed(after) => format!(in rt.alloc(); "D:{after} "),
        Cell::PassEnd => String::from_str(rt.alloc(), "P "),
        Cell::Finish => String::from_str(rt.alloc(), "F"),
    };
    ok(rt, text)
}

fn cells_of(rt: &impl Runtime, template: &Template) -> String {
    let mut text = String::new(rt.alloc());
    for cell in template.cells() {
        ok(rt, text.push_str(&text_of(rt, *cell)));
    }
    text
}

#[test]
// rule: descriptor-kinds, fixed-replication, replication-before-expansion, replication-nested
fn expands_descriptor_lists_into_template_cells(rt: HostRuntime) {
    for (name, text, want) in CELLS {
        let cells = cells_of(&rt, &template_of(&rt, text));
        assert_same(&rt, &cells.as_str(), want, name);
    }
}
