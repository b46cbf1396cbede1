//! Tests that call the functions as a C program would.

use crate::calls::{bufr_dump, bufr_encode, bufr_items, bufr_list, bufr_version};
use crate::rows::{Counts, MessageRow, RowBuffers, ValueRow};
use crate::texts::{CallInput, Texts};

const NONE: Texts = Texts {
    at: 0,
    output_length: 9,
    errors_length: 9,
    output_needed: 9,
    errors_needed: 9,
    accepted: 9,
    refused: 9,
    reserved: 9,
};

#[test]
fn reports_two_stray_start_markers(rt: HostRuntime) {
    let (mut lines, mut faults) = ([0; 8], [0; 33]);
    let mut texts = NONE;
    let octets = b"BUFR BUFR";
    let status = bufr_list(rt.alloc(), octets, &mut lines, &mut faults, &mut texts);
    assert_eq!(rt; (status, texts.at), (0, 9));
    assert_eq!(rt; (texts.output_length, texts.errors_length), (0, 32));
    assert_eq!(rt; (texts.accepted, texts.refused), (0, 2));
    assert_eq!(rt;
        &faults[..32],
        b"offset 0: 1 cut\noffset 5: 1 cut\n".as_slice()
    );
}

#[test]
fn stops_if_fault_report_does_not_fit_in_buffer(rt: HostRuntime) {
    let (mut lines, mut faults) = ([0; 8], [0; 31]);
    let mut texts = NONE;
    let octets = b"BUFR BUFR";
    let status = bufr_list(rt.alloc(), octets, &mut lines, &mut faults, &mut texts);
    assert_eq!(rt; (status, texts.at), (74, 4));
    assert_eq!(rt; (texts.errors_length, texts.errors_needed), (16, 16));
    let status = bufr_list(rt.alloc(), octets, &mut lines, &mut faults, &mut texts);
    assert_eq!(rt; (status, texts.at, texts.errors_length), (0, 9, 16));
    assert_eq!(rt; &faults[..16], b"offset 5: 1 cut\n".as_slice());
}

/// A message whose only item is WMO block number 10.
const BLOCK: [u8; 48] = [
    0x42, 0x55, 0x46, 0x52, 0x00, 0x00, 0x30, 0x04, 0x00, 0x00, 0x16, 0x00, 0x00, 0x62, 0x00, 0x00,
    0x00, 0x00, 0x00, 0x00, 0x00, 0x0E, 0x00, 0x07, 0xE8, 0x01, 0x02, 0x03, 0x04, 0x05, 0x00, 0x00,
    0x09, 0x00, 0x00, 0x01, 0x80, 0x01, 0x01, 0x00, 0x00, 0x05, 0x00, 0x14, 0x37, 0x37, 0x37, 0x37,
];

const TABLE_B: &[u8] =
    b"fxy,name,unit,scale,reference,width\n001001,WMO BLOCK NUMBER,Numeric,0,0,7\n";

const TABLE_D: &[u8] = b"fxy,member\n";

const BLOCK_INPUT: CallInput<'static> = CallInput {
    octets: &BLOCK,
    table_b: TABLE_B,
    table_d: TABLE_D,
    wanted: &[],
    form: 0,
    reserved: [0; 7],
};

#[test]
fn dumps_message_and_encodes_result(rt: HostRuntime) {
    let (mut text, mut faults) = ([0; 400], [0; 64]);
    let mut texts = NONE;
    let status = bufr_dump(rt.alloc(), &BLOCK_INPUT, &mut text, &mut faults, &mut texts);
    assert_eq!(rt;
        (status, texts.at, texts.accepted, texts.refused),
        (0, 48, 1, 0)
    );
    let written = &text[..texts.output_length];
    assert_eq!(rt; written.starts_with(b"message\nedition 4\n"), true);
    let last = b"subset 1\n001001 10  # WMO BLOCK NUMBER [Numeric]\nend\n";
    assert_eq!(rt; written.ends_with(last), true);
    let input = CallInput {
        octets: written,
        ..BLOCK_INPUT
    };
    let mut octets = [0; 48];
    let mut texts = NONE;
    let status = bufr_encode(rt.alloc(), &input, &mut octets, &mut faults, &mut texts);
    assert_eq!(rt;
        (status, texts.output_length, texts.errors_length),
        (0, 48, 0)
    );
    assert_eq!(rt;
        (texts.at, texts.accepted, texts.refused),
        (written.len(), 1, 0)
    );
    assert_eq!(rt; octets.as_slice(), BLOCK.as_slice());
}

#[test]
fn returns_required_buffer_sizes(rt: HostRuntime) {
    let input = CallInput {
        octets: b"subset 1\n",
        ..BLOCK_INPUT
    };
    let mut faults = [0; 15];
    let mut texts = NONE;
    let status = bufr_encode(rt.alloc(), &input, &mut [], &mut faults, &mut texts);
    assert_eq!(rt; (status, texts.at), (74, 0));
    assert_eq!(rt; (texts.output_needed, texts.errors_needed), (0, 16));
    assert_eq!(rt; (texts.output_length, texts.errors_length), (0, 0));
}

#[test]
fn rejects_invalid_form_number(rt: HostRuntime) {
    let input = CallInput {
        form: 3,
        ..BLOCK_INPUT
    };
    let mut texts = NONE;
    let status = bufr_encode(rt.alloc(), &input, &mut [], &mut [], &mut texts);
    assert_eq!(rt; status, 75);
}

const NO_ITEM: ValueRow = ValueRow {
    value: 9,
    message: 9,
    length: 9,
    subset: 9,
    fxy: 9,
    scale: 9,
    kind: 9,
    reserved: 9,
};

const NO_COUNTS: Counts = Counts {
    at: 0,
    items: 9,
    octets: 9,
    messages: 9,
    items_needed: 9,
    octets_needed: 9,
    messages_needed: 9,
    reserved: 9,
};

fn no_message() -> MessageRow {
    MessageRow::plain(9, 9, 9, 9)
}

#[test]
fn returns_item_and_its_message(rt: HostRuntime) {
    let (mut items, mut messages) = ([NO_ITEM; 2], [no_message(); 1]);
    let mut counts = NO_COUNTS;
    let alloc = rt.alloc();
    let mut rows = RowBuffers {
        items: &mut items,
        texts: &mut [],
        messages: &mut messages,
        reserved: [0; 2],
    };
    let status = bufr_items(alloc, &BLOCK_INPUT, &mut rows, &mut counts);
    assert_eq!(rt; (status, counts.at, counts.items), (0, 48, 1));
    assert_eq!(rt; (counts.octets, counts.messages), (0, 1));
    let item = ValueRow {
        value: 10,
        message: 0,
        length: 0,
        subset: 1,
        fxy: 257,
        scale: 0,
        kind: 1,
        reserved: 0,
    };
    assert_eq!(rt; items[0], item);
    let row = messages[0];
    assert_eq!(rt; (row.offset, row.length, row.fault), (0, 48, 0));
    assert_eq!(rt; (row.first, row.items, row.subsets), (0, 1, 1));
    assert_eq!(rt; (row.edition, row.centre, row.year), (4, 98, 2024));
    assert_eq!(rt; (row.observed, row.compressed), (1, 0));
}

#[test]
fn reports_stray_start_marker_and_stops_if_item_does_not_fit(rt: HostRuntime) {
    let mut octets = [0; 52];
    octets[..4].copy_from_slice(b"BUFR");
    octets[4..].copy_from_slice(&BLOCK);
    let input = CallInput {
        octets: &octets,
        ..BLOCK_INPUT
    };
    let mut messages = [no_message(); 2];
    let mut counts = NO_COUNTS;
    let alloc = rt.alloc();
    let mut rows = RowBuffers {
        items: &mut [],
        texts: &mut [],
        messages: &mut messages,
        reserved: [0; 2],
    };
    let status = bufr_items(alloc, &input, &mut rows, &mut counts);
    assert_eq!(rt; (status, counts.at, counts.messages), (74, 4, 1));
    assert_eq!(rt; (counts.items_needed, counts.octets_needed), (1, 0));
    assert_eq!(rt; counts.messages_needed, 1);
    assert_eq!(rt; messages[0], MessageRow::plain(0, 4, 0, 1));
}

#[test]
fn returns_only_requested_items(rt: HostRuntime) {
    let input = CallInput {
        wanted: &[258],
        ..BLOCK_INPUT
    };
    let mut messages = [no_message(); 1];
    let mut counts = NO_COUNTS;
    let alloc = rt.alloc();
    let mut rows = RowBuffers {
        items: &mut [],
        texts: &mut [],
        messages: &mut messages,
        reserved: [0; 2],
    };
    let status = bufr_items(alloc, &input, &mut rows, &mut counts);
    assert_eq!(rt; (status, counts.at, counts.items), (0, 48, 0));
    assert_eq!(rt; (messages[0].items, messages[0].fault), (0, 0));
}

#[test]
fn lists_message_after_leading_spaces(rt: HostRuntime) {
    let (mut lines, mut faults) = ([0; 251], [0; 64]);
    let mut octets = [b' '; 60];
    octets[12..].copy_from_slice(&BLOCK);
    let mut texts = NONE;
    let status = bufr_list(rt.alloc(), &octets, &mut lines, &mut faults, &mut texts);
    assert_eq!(rt;
        (status, texts.at, texts.accepted, texts.refused),
        (0, 60, 1, 0)
    );
    let written = &lines[..texts.output_length];
    assert_eq!(rt;
        written.starts_with(b"offset=12 length=48 edition=4 centre=98/0 "),
        true
    );
    assert_eq!(rt; written.ends_with(b" descriptors=1\n"), true);
}

#[test]
fn returns_fault_number_for_invalid_table(rt: HostRuntime) {
    let (mut text, mut faults) = ([0; 8], [0; 8]);
    let mut texts = NONE;
    let input = CallInput {
        table_b: b"",
        ..BLOCK_INPUT
    };
    let status = bufr_dump(rt.alloc(), &input, &mut text, &mut faults, &mut texts);
    assert_eq!(rt; (status, texts.output_length), (40, 0));
    let input = CallInput {
        table_d: b"fxy,member\nx\n",
        ..BLOCK_INPUT
    };
    let status = bufr_dump(rt.alloc(), &input, &mut text, &mut faults, &mut texts);
    assert_eq!(rt; (status, texts.errors_length), (145, 0));
}

#[test]
fn returns_library_version(rt: HostRuntime) {
    assert_eq!(rt; bufr_version(), 1_000);
}
