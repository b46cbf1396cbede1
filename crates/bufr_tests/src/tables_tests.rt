//! Tests for descriptors and for reading tables.

use crate::messages::{HEADER_B, HEADER_D};
use crate::support::{
    Runtime, assert_same, assert_that, joined, ok, read_b, read_d, some, table_b, table_d,
};
use bufr_tables::{Entry, Fxy, Kind, TableB, TableD, TableFault};

/// Descriptors written as digits, each with its 16-bit word (`None` if the digits are invalid).
#[rattlefmt::skip]
const DESCRIPTORS: &[(&[u8], Option<u16>)] = &[
    (b"000000", Some(0)), (b"001001", Some(0x0101)), (b"012101", Some(0x0c65)),
    (b"063255", Some(0x3fff)), (b"101255", Some(0x41ff)), (b"201132", Some(0x8184)),
    (b"360192", Some(0xfcc0)), (b"363255", Some(0xffff)),
    (b"400000", None), (b"064000", None), (b"000256", None),
    (b"01210", None), (b"0121010", None), (b"01210a", None),
];

/// Each row contains a descriptor's 16-bit word, and `true` if the descriptor is a delayed
/// replication factor.
#[rattlefmt::skip]
const FACTORS: &[(u16, bool)] = &[
    (0x1eff, false), (0x1f00, true), (0x1f01, true), (0x1f02, true), (0x1f03, false),
    (0x5f01, false),
];

fn assert_descriptor(rt: &impl Runtime, digits: &[u8], want: Option<u16>) {
    assert_same(rt, &Fxy::read(digits).map(Fxy::word), &want, &digits);
    if let Some(word) = want {
        let fxy = Fxy::from_word(word);
        let found = (fxy.word(), fxy.text());
        assert_same(rt, &(found.0, found.1.as_slice()), &(word, digits), &digits);
        let shown = ok(rt, format!(in rt.alloc(); "{fxy}"));
        assert_same(rt, &shown.as_bytes(), &digits, &word);
    }
}

#[test]
// rule: descriptor-fxy
fn reads_and_prints_descriptors(rt: HostRuntime) {
    for (digits, want) in DESCRIPTORS {
        assert_descriptor(&rt, digits, *want);
    }
    for (word, want) in FACTORS {
        assert_same(&rt, &Fxy::from_word(*word).is_factor(), want, word);
    }
    let fxy = Fxy::from_word(0xfcc0);
    assert_same(&rt, &(fxy.f(), fxy.x(), fxy.y()), &(3, 60, 192), &fxy);
}

fn entry_of(table: &TableB, word: u16) -> Option<Entry<'_>> {
    table.get(Fxy::from_word(word))
}

fn members_of(table: &TableD, word: u16) -> Option<&[Fxy]> {
    table.members(Fxy::from_word(word))
}

/// Elements of Table B. Each row contains an element's descriptor (as a 16-bit word), name, unit,
/// kind, scale, reference value and data width.
#[rattlefmt::skip]
const ELEMENTS: &[(u16, &[u8], &[u8], Kind, (i16, i64, u32))] = &[
    (0x0101, b"WMO BLOCK NUMBER", b"Numeric", Kind::Numeric, (0, 0, 7)),
    (0x010f, b"STATION OR SITE NAME", b"CCITT IA5", Kind::Character, (0, 0, 160)),
    (0x0502, b"LATITUDE (COARSE ACCURACY)", b"degree", Kind::Numeric, (2, -9000, 15)),
    (0x0c65, b"AIR TEMPERATURE", b"K", Kind::Numeric, (2, 0, 16)),
    (0x1403, b"PRESENT WEATHER", b"Code table", Kind::Coded, (0, 0, 9)),
    (0x1f00, b"SHORT DELAYED DESCRIPTOR REPLICATION FACTOR", b"Numeric", Kind::Numeric, (0, 0, 1)),
    (0x1f01, b"DELAYED DESCRIPTOR REPLICATION FACTOR", b"Numeric", Kind::Numeric, (0, 0, 8)),
    (0x1f02, b"EXTENDED DELAYED DESCRIPTOR REPLICATION FACTOR", b"Numeric", Kind::Numeric, (0, 0, 16)),
];

/// Descriptors that are not in Table B. The first is an element that the table does not define, and
/// the others are not elements.
const NO_ELEMENTS: &[u16] = &[0x3fff, 0x4c65, 0x8c65, 0xcc65];

#[test]
fn looks_up_elements_in_table_b(rt: HostRuntime) {
    let table = table_b(&rt);
    for (word, name, unit, kind, (scale, reference, width)) in ELEMENTS {
        let entry = some(&rt, entry_of(&table, *word));
        let texts = (entry.fxy().word(), entry.name(), entry.unit());
        assert_same(&rt, &texts, &(*word, *name, *unit), word);
        let numbers = (
            entry.kind(),
            entry.scale(),
            entry.reference(),
            entry.width(),
        );
        assert_same(&rt, &numbers, &(*kind, *scale, *reference, *width), word);
    }
    for word in NO_ELEMENTS {
        assert_same(&rt, &entry_of(&table, *word), &None, word);
    }
}

#[test]
fn formats_element_descriptor_and_comment(rt: HostRuntime) {
    let (table, again) = (table_b(&rt), table_b(&rt));
    let found = entry_of(&table, 0x0c65);
    let entry = some(&rt, found);
    let start: &[u8] = b"012101 ";
    let comment: &[u8] = b"  # AIR TEMPERATURE [K]\n";
    let texts = (entry.line_start(), entry.comment());
    assert_same(&rt, &texts, &(start, comment), &"line");
    let (octets, len) = entry.line_on();
    let parts = (octets.get(..7), octets.get(7..len.saturating_add(7)));
    assert_same(&rt, &parts, &(Some(start), Some(comment)), &"octets");
    assert_same(&rt, &entry_of(&again, 0x0c65), &found, &"another table");
    assert_that(&rt, entry_of(&table, 0x0101) != found, &"another element");
}

/// Descriptors that are not in Table D. The first is a sequence that the table does not define, and
/// the others are not sequences.
const NO_SEQUENCES: &[u16] = &[0xffff, 0x3cc0, 0x0101];

#[test]
fn looks_up_sequences_in_table_d(rt: HostRuntime) {
    let table = table_d(&rt);
    let members = [Fxy::from_word(0x0101), Fxy::from_word(0x0c65)];
    let want = Some(members.as_slice());
    assert_same(&rt, &members_of(&table, 0xfcc0), &want, &"members");
    for word in NO_SEQUENCES {
        assert_same(&rt, &members_of(&table, *word), &None, word);
    }
}

/// Returns `read` if the table could be read, or the fault number and description otherwise.
fn outcome<T: Drop>(rt: &impl Runtime, answer: &Result<T, TableFault>) -> String {
    match answer {
        Ok(_) => ok(rt, String::from_str(rt.alloc(), "read")),
        Err(fault) => ok(rt, format!(in rt.alloc(); "{} {fault}", fault.number())),
    }
}

const LAST_IN_A_CYCLE: &str = "43 cycle 363255";

/// Rows of Table B (without the header), grouped by the expected result.
#[rattlefmt::skip]
const ROWS_OF_B: &[(&str, &[&[u8]])] = &[
    ("read", &[
        b"", b"\n\n\r\n", b"001001,A,K,0,0,63", b"001001,A,K,0,0,1",
        b"001001,A,K,0,0,00000000000000000000000000000000000000007",
        b"001001,A,K,-127,-9223372036854775808,7", b"001001,A,K,127,9223372036854775807,7",
        b"001001,A,K,-0,-0,7", b"001001,A,ccitt ia5,0,0,16", b"001001,A,CCITT IA5,0,0,8",
        b"001001,A,CCITT IA5,0,0,2040", b"001001,\"A,B\",K,0,0,7", b"001001,\xff\x80,\xb0C,0,0,7",
        b"001001,,,0,0,7", b"063255,A,K,0,0,7", b"031001,A,Code table,0,0,8",
        b"031003,A,Numeric,1,1,9",
    ]),
    ("41 row 2", &[
        // The data width is invalid.
        b"001001,A,K,0,0,64", b"001001,A,K,0,0,0", b"001001,A,K,0,0,-7", b"001001,A,K,0,0,+7",
        b"001001,A,K,0,0, 7", b"001001,A,K,0,0,", b"001001,A,K,0,0,18446744073709551623",
        b"001001,A,ccitt ia5,0,0,12", b"001001,A,CCITT IA5,0,0,0", b"001001,A,CCITT IA5,0,0,2048",
        // The scale or the reference value is invalid.
        b"001001,A,K,128,0,7", b"001001,A,K,-128,0,7", b"001001,A,K,-,0,7",
        b"001001,A,K,0,9223372036854775808,7", b"001001,A,K,0,-9223372036854775809,7",
        b"001001,A,K,0,-18446744073709551616,7", b"001001,A,K,0,1.5,7",
        b"001001,A,CCITT IA5,200,0,8",
        // The name or the unit is invalid.
        b"001001,\"A\nB\",K,0,0,7", b"001001,A\tB,K,0,0,7", b"001001,A\x7fB,K,0,0,7",
        b"001001,A,K\x1f,0,0,7",
        // The descriptor is invalid.
        b"00100,A,K,0,0,7", b"0010010,A,K,0,0,7", b" 01001,A,K,0,0,7", b"064001,A,K,0,0,7",
        b"001256,A,K,0,0,7", b"101001,A,K,0,0,7", b"301001,A,K,0,0,7", b"401001,A,K,0,0,7",
        // The width, scale, reference value or unit of a replication factor is invalid.
        b"031000,A,Numeric,0,0,8", b"031001,A,Numeric,0,0,16", b"031002,A,Numeric,0,0,8",
        b"031001,A,Numeric,1,0,8", b"031001,A,Numeric,0,-1,8", b"031001,A,CCITT IA5,0,0,8",
        // Only the first fault is reported.
        b"001001,A,K,0,0,x\n001001,A",
    ]),
    ("41 row 3", &[b"001001,A,K,0,0,7\n001001,A,K,0,0,x"]),
    ("41 row 3", &[b"001001,A,K,0,0,7\n\n\n001002,A,K,0,0,x"]),
    ("42 duplicate 001001", &[b"001001,A,K,0,0,7\n001001,A,K,0,0,7"]),
    ("45 csv", &[b"001001,A,K,0,0", b"001001,A,K,0,0,7,", b"001001,A,K,0,0,7\n001001,A"]),
];

/// Files that do not begin with the header of Table B.
#[rattlefmt::skip]
const NO_HEADERS_OF_B: &[&[u8]] = &[
    b"", b"\n", b"fxy,name,unit,scale,reference\n", b"fxy,name,unit,scale,reference,Width\n",
    b"fxy,name,unit,scale,reference, width\n", b"fxy,member\n",
];

/// Rows of Table D (without the header), grouped by the expected result.
#[rattlefmt::skip]
const ROWS_OF_D: &[(&str, &[&[u8]])] = &[
    ("read", &[
        b"", b"300001,101000\n300001,031001\n300001,201132", b"363255,363254\n363255,001001",
        // Members that occur twice or are not in the table do not form a cycle.
        b"300001,300002\n300001,300002\n300002,300003\n300002,300003\n300003,001001",
        b"300001,300002\n300002,300003",
    ]),
    ("41 row 2", &[b"300001,x", b"200001,001001", b"300001,401001"]),
    ("41 row 3", &[b"300001,300001\n300002,x"]),
    // If the rows of a sequence are not contiguous, fault 42 is reported before a cycle.
    ("42 duplicate 300001", &[b"300001,300002\n300002,300001\n300001,001001"]),
    // The fault names the first sequence in the file that contains itself.
    ("43 cycle 300001", &[
        b"300001,300001", b"300001,001001\n300001,300001", b"300001,300002\n300002,300001",
        b"300001,300002\n300002,300003\n300003,300004\n300004,300002\n300004,300001",
    ]),
    ("43 cycle 300002", &[
        b"300002,300001\n300001,300002", b"300001,300002\n300002,300003\n300003,300002",
    ]),
    ("43 cycle 300003", &[
        b"300001,300002\n300002,300003\n300003,300003",
        b"300002,300003\n300003,300004\n300004,300003\n300001,300001",
    ]),
    ("45 csv", &[b"300001", b"300001,001001,"]),
];

/// Files that do not begin with the header of Table D.
const NO_HEADERS_OF_D: &[&[u8]] = &[b"", b"fxy\n", b"fxy,members\n", HEADER_B];

fn assert_b(rt: &impl Runtime, text: &[u8], want: &str) {
    let found = outcome(rt, &read_b(rt.alloc(), text));
    assert_same(rt, &found.as_str(), &want, &text);
}

fn assert_d(rt: &impl Runtime, text: &[u8], want: &str) {
    let found = outcome(rt, &read_d(rt.alloc(), text));
    assert_same(rt, &found.as_str(), &want, &"Table D");
}

fn assert_all(rt: &impl Runtime, cases: &[(&str, &[&[u8]])], is_b: bool) {
    for (want, texts) in cases {
        for rows in *texts {
            if is_b {
                assert_b(rt, &joined(rt, &[HEADER_B, rows]), want);
            } else {
                assert_d(rt, &joined(rt, &[HEADER_D, rows]), want);
            }
        }
    }
}

#[test]
// rule: fault-40, fault-41-of-table-b, fault-41-of-table-d, fault-42, fault-43, fault-45
// rule: first-record-decides, fault-43-last
fn reads_table_rows_or_reports_faults(rt: HostRuntime) {
    assert_all(&rt, ROWS_OF_B, true);
    assert_all(&rt, ROWS_OF_D, false);
    for text in NO_HEADERS_OF_B {
        assert_b(&rt, text, "40 header");
    }
    for text in NO_HEADERS_OF_D {
        assert_d(&rt, text, "40 header");
    }
    let memory = outcome::<TableB>(&rt, &Err(TableFault::Memory));
    assert_same(&rt, &memory.as_str(), &"73 out of memory", &"memory");
}

/// Lengths of names and units in octets, each with the expected result.
const LONG_NAMES: &[(usize, &str)] = &[(512, "read"), (513, "41 row 2")];

#[test]
// rule: fault-41-of-table-b
fn limits_names_and_units_to_512_octets(rt: HostRuntime) {
    for (len, want) in LONG_NAMES {
        let long = ok(&rt, vec![in rt.alloc(); b'x'; *len]);
        let name = joined(&rt, &[HEADER_B, b"001001,", &long, b",K,0,0,8\n"]);
        assert_b(&rt, &name, want);
        let unit = joined(&rt, &[HEADER_B, b"001001,A,", &long, b",0,0,8\n"]);
        assert_b(&rt, &unit, want);
    }
}

/// Units, each with the kind of value that an element with that unit has.
#[rattlefmt::skip]
const KINDS: &[(&[u8], Kind)] = &[
    (b"CCITT IA5", Kind::Character), (b"Ccitt iA5", Kind::Character),
    (b"CCITT IA5 ", Kind::Numeric), (b"CCITT IA", Kind::Numeric),
    (b"Code table", Kind::Coded), (b"CODE TABLE 0 20 003", Kind::Coded),
    (b"Common code table C-1", Kind::Coded), (b"cOMMON CODE TABLE", Kind::Coded),
    (b"flag table", Kind::Coded), (b" Flag table", Kind::Numeric), (b"code tabl", Kind::Numeric),
    (b"Numeric", Kind::Numeric), (b"", Kind::Numeric),
];

#[test]
// rule: kind-by-unit
fn determines_element_kind_from_unit(rt: HostRuntime) {
    for (unit, kind) in KINDS {
        let text = joined(&rt, &[HEADER_B, b"001001,A,", unit, b",0,0,8\n"]);
        let table = ok(&rt, read_b(rt.alloc(), &text));
        assert_same(&rt, &some(&rt, entry_of(&table, 0x0101)).kind(), kind, unit);
    }
}

fn push_row(rt: &impl Runtime, text: &mut Vec<u8>, sequence: u16, member: u16) {
    ok(rt, text.extend_from_slice(&Fxy::from_word(sequence).text()));
    ok(rt, text.push(b','));
    ok(rt, text.extend_from_slice(&Fxy::from_word(member).text()));
    ok(rt, text.push(b'\n'));
}

/// Returns a Table D in which one sequence has 65,536 rows.
fn most_rows(rt: &impl Runtime) -> Vec<u8> {
    let mut text = joined(rt, &[HEADER_D]);
    for _ in 0..65536u32 {
        push_row(rt, &mut text, 0xc001, 0x0101);
    }
    text
}

fn count_members(table: &TableD, word: u16) -> Option<usize> {
    members_of(table, word).map(<[Fxy]>::len)
}

#[test]
// rule: fault-44
fn limits_table_d_to_65536_rows(rt: HostRuntime) {
    let mut text = most_rows(&rt);
    let table = ok(&rt, read_d(rt.alloc(), &text));
    let count = count_members(&table, 0xc001);
    assert_same(&rt, &count, &Some(65536), &"members");
    push_row(&rt, &mut text, 0xc001, 0x0101);
    assert_d(&rt, &text, "44 table size");
    push_row(&rt, &mut text, 0xc002, 0x0101);
    assert_d(&rt, &text, "44 table size");
}

/// Returns a Table D that contains all sequences from 3 00 000 to 3 63 255. Each sequence has four
/// rows, and the member in every row is the next sequence. The last sequence contains itself if
/// `cycle` is set, and an element otherwise. If `back` is set, the table lists the sequences in
/// reverse order.
fn long_chain(rt: &impl Runtime, back: bool, cycle: bool) -> Vec<u8> {
    let mut text = joined(rt, &[HEADER_D]);
    for key in 0..16384u16 {
        let sequence = if back { 0xffff - key } else { 0xc000 + key };
        let member = if sequence == 0xffff {
            if cycle { 0xffff } else { 0x0101 }
        } else {
            sequence + 1
        };
        for _ in 0..4u8 {
            push_row(rt, &mut text, sequence, member);
        }
    }
    text
}

#[test]
// rule: fault-43
fn detects_cycles_in_long_chains_of_sequences(rt: HostRuntime) {
    for back in [false, true] {
        assert_d(&rt, &long_chain(&rt, back, false), "read");
        assert_d(&rt, &long_chain(&rt, back, true), LAST_IN_A_CYCLE);
    }
}

/// Returns a Table B with 2,000 elements. The 16-bit words of the descriptors are multiples of
/// three.
fn many_elements(rt: &impl Runtime) -> Vec<u8> {
    let mut text = joined(rt, &[HEADER_B]);
    for third in 0..2000u16 {
        let digits = Fxy::from_word(third * 3).text();
        ok(rt, text.extend_from_slice(&digits));
        let entry = b",A NAME OF SOME THIRTY OCTETS,degree true,2,-9000,16\n";
        ok(rt, text.extend_from_slice(entry));
    }
    text
}

/// Returns a Table D with 1,500 sequences of ten members each. The first member of each sequence is
/// the next sequence.
fn many_sequences(rt: &impl Runtime) -> Vec<u8> {
    let mut text = joined(rt, &[HEADER_D]);
    for key in 0..1500u16 {
        push_row(rt, &mut text, 0xc000 + key, 0xc001 + key);
        for member in 1..10u16 {
            push_row(rt, &mut text, 0xc000 + key, member);
        }
    }
    text
}

#[test]
fn looks_up_entries_in_tables_of_typical_size(rt: HostRuntime) {
    let table = ok(&rt, read_b(rt.alloc(), &many_elements(&rt)));
    for word in 0..6000u16 {
        let found = entry_of(&table, word).is_some();
        assert_same(&rt, &found, &(word % 3 == 0), &word);
    }
    let table = ok(&rt, read_d(rt.alloc(), &many_sequences(&rt)));
    for key in 0..1500u16 {
        assert_same(&rt, &count_members(&table, 0xc000 + key), &Some(10), &key);
    }
}
