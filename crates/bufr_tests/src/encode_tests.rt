//! Tests for encoding documents. The tests check the resulting messages, the faults, and the number
//! of steps.

use crate::messages::{HEAD, PACKED, PLAIN, dump_of, message_of_hex, text_of};
use crate::runs::Command::{Dump, Encode, EncodeIn};
use crate::runs::{Command, Task, accepted, assert_run, refused, run_whole};
use crate::support::{Runtime, assert_same, assert_that, ok, some};
use crate::text_tests::{dumped, with_head};
use bufr_bits::ScriptIn;
use bufr_fill::{Expected, ItemFault, WalkRefusal};
use bufr_tables::{Fxy, TemplateFault};
use bufr_text::{Document, DocumentFault, DumpReader, Form, encode_document, encode_form, laws};
use bufr_walk::Steps;

/// The expected result of encoding a document.
#[derive(Clone, Copy)]
pub(crate) enum Want {
    /// The data of the expected message, in hexadecimal digits.
    Data(&'static str),
    /// The expected fault line, without the word `line` at its start.
    Fault(&'static str),
}

use Want::{Data, Fault};

/// A document to encode. The fields are the document's name, number of subsets, flags, descriptors
/// and items, followed by the expected result and number of steps. A `|` separates subsets, and a
/// `;` separates the items of a subset. The first item is on line 24.
pub(crate) struct Row(
    &'static str,
    u16,
    pub(crate) u8,
    pub(crate) &'static str,
    &'static str,
    pub(crate) Want,
    u64,
);

/// The descriptors of a delayed replication of one element.
const DELAYED: &str = "101000 031001 001001";

/// Descriptors that redefine the reference value of an element.
const REDEFINED: &str = "203010 012101 203255 012101";

#[rattlefmt::skip]
static ROWS: &[Row] = &[
    Row("two_subsets", 2, PLAIN, "001001", "001001 10|001001 11", Data("142C"), 4),
    Row("delayed_twice", 1, PLAIN, DELAYED, "031001 2;001001 10;001001 11", Data("02142C"), 7),
    Row("compressed_missing", 2, PACKED, "012101", "012101 288.15|012101 MISSING", Data("708F05"), 2),
    Row("no_subsets_compressed", 0, PACKED, "001001", "", Data(""), 0),
    Row("redefined_reference", 1, PLAIN, REDEFINED, "R 012101 -400;012101 284.15", Data("E41C23C0"), 5),
    Row("item_too_many_in_the_second", 2, PACKED, "001001", "001001 1|001001 1;001001 2",
        Fault("27: 51 expected end of subset"), 2),
    Row("not_whole_in_the_first", 2, PACKED, "001001", "001001 1.5|001001 200", Fault("24: 52 number"), 1),
    Row("reads_as_missing", 1, PLAIN, "012101", "012101 655.35", Fault("24: 53 out of range"), 1),
    Row("text_too_long", 1, PLAIN, "208003 001015", "001015 \"ABCD\"", Fault("24: 54 text long"), 2),
    Row("missing_factor", 1, PLAIN, DELAYED, "031001 MISSING", Fault("24: 55 missing forbidden"), 2),
    Row("operator_alone", 1, PLAIN, "201000", "001001 10", Fault("1: 56 template 25 empty group 201000"), 0),
    Row("unequal_third_factor", 3, PACKED, DELAYED,
        "031001 1;001001 1|031001 1;001001 1|031001 2;001001 1;001001 1",
        Fault("30: 58 unequal factor"), 2),
    Row("unequal_references", 2, PACKED, REDEFINED,
        "R 012101 -400;012101 284.15|R 012101 -401;012101 284.15", Fault("24: 59 increment"), 2),
    Row("width_of_none_compressed", 2, PACKED, "012101 201121 001001",
        "012101 288.15;001001 0|012101 288.15;001001 0",
        Fault("25: 62 walk 31 descriptor 001001"), 3),
];

/// The items of two subsets. The first subset contains one block number, and the second contains
/// two.
const UNEQUAL: &str = "031001 1;001001 10|031001 2;001001 10;001001 11";

/// Each row contains the requested form, the flags of the expected message, and the document to
/// encode.
#[rattlefmt::skip]
static FORMS: &[(Form, u8, Row)] = &[
    (Form::Compressed, PACKED, Row("delayed_twice", 1, PLAIN, DELAYED,
        "031001 2;001001 10;001001 11", Data("02005002C0"), 7)),
    (Form::Plain, PLAIN, Row("compressed_missing", 2, PACKED, "012101",
        "012101 288.15|012101 MISSING", Data("708FFFFF"), 4)),
    (Form::Compressed, PACKED, Row("unequal_factors", 2, PLAIN, DELAYED, UNEQUAL, Fault("27: 58 unequal factor"), 2)),
    (Form::Plain, PLAIN, Row("unequal_factors_plain", 2, PLAIN, DELAYED, UNEQUAL, Data("0114042858"), 12)),
    (Form::Compressed, PACKED, Row("unequal_references", 2, PLAIN, "203010 012101 203255",
        "R 012101 -400|R 012101 -401", Fault("24: 59 increment"), 2)),
];

impl Row {
    pub(crate) fn name(&self) -> &'static str {
        self.0
    }

    /// Returns the document as text.
    pub(crate) fn text(&self, rt: &impl Runtime) -> String {
        text_of(rt, self.1, self.2, self.3, self.4)
    }

    /// Returns the expected message with the given flags, or an empty vector if the document should
    /// be rejected.
    fn message(&self, rt: &impl Runtime, flags: u8) -> Vec<u8> {
        match self.5 {
            Data(digits) => message_of_hex(rt, self.1, flags, self.3, digits),
            Fault(_) => Vec::new(rt.alloc()),
        }
    }

    /// Returns the expected fault line, or an empty string if the document should be accepted.
    pub(crate) fn fault(&self, rt: &impl Runtime) -> String {
        match self.5 {
            Data(_) => String::new(rt.alloc()),
            Fault(line) => ok(rt, format!(in rt.alloc(); "line {line}\n")),
        }
    }
}

/// Reads the first document from `text`.
pub(crate) fn document_of(rt: &impl Runtime, text: &[u8]) -> Document {
    let mut reader = DumpReader::new(rt.alloc());
    let mut input = ScriptIn::new(text, 4096, None);
    some(rt, ok(rt, reader.next_document(&mut input)))
}

/// Encodes a document using the command, allocator and tables in `task`.
fn encode_by(
    task: &Task,
    document: &Document,
    steps: &mut Steps,
) -> Result<Vec<u8>, DocumentFault> {
    match task.command {
        EncodeIn(form) => { encode_form(task.alloc, document, form, &task.b, &task.d, steps) }
        _ => encode_document(task.alloc, document, &task.b, &task.d, steps),
    }
}

/// Encodes a document twice with the same step counter. Returns the result and the step count of
/// the second call. This count must not include the steps of the first call.
pub(crate) fn encoded(
    rt: &impl Runtime,
    command: Command,
    document: &Document,
) -> (Result<Vec<u8>, DocumentFault>, u64) {
    let task = Task::new(rt, command);
    let mut steps = Steps::new();
    let _ = encode_by(&task, document, &mut steps);
    let outcome = encode_by(&task, document, &mut steps);
    (outcome, steps.count())
}

/// Encodes a document, using the tables for the test messages.
fn encode_once(
    rt: &impl Runtime,
    command: Command,
    document: &Document,
) -> Result<Vec<u8>, DocumentFault> {
    encode_by(&Task::new(rt, command), document, &mut Steps::new())
}

/// Encodes a document, which must be valid, and returns the octets of the message.
fn octets_of(rt: &impl Runtime, command: Command, document: &Document) -> Vec<u8> {
    ok(rt, encode_once(rt, command, document))
}

/// Encodes the first document in `text`, which must be valid, and returns the octets of the
/// message.
pub(crate) fn octets_for(rt: &impl Runtime, text: &[u8]) -> Vec<u8> {
    octets_of(rt, Encode, &document_of(rt, text))
}

fn assert_outcome(
    rt: &impl Runtime,
    outcome: &Result<Vec<u8>, DocumentFault>,
    message: &[u8],
    row: &Row,
) {
    match outcome {
        Ok(octets) => assert_same(rt, &octets.as_slice(), &message, &row.name()),
        Err(fault) => {
            let (line, number) = (fault.line().unwrap_or(0), fault.number());
            let line = format!(in rt.alloc(); "line {line}: {number} {fault}\n");
            let line = ok(rt, line);
            assert_same(rt, &line.as_str(), &row.fault(rt).as_str(), &row.name())
        }
    }
}

fn assert_encoded(rt: &impl Runtime, command: Command, flags: u8, row: &Row) {
    let (text, message) = (row.text(rt), row.message(rt, flags));
    let (outcome, steps) = encoded(rt, command, &document_of(rt, text.as_bytes()));
    assert_outcome(rt, &outcome, &message, row);
    assert_same(rt, &steps, &row.6, &row.name());
    let fault = row.fault(rt);
    let run = if fault.is_empty() {
        accepted(command, row.name(), text.as_bytes(), &message)
    } else {
        refused(command, row.name(), text.as_bytes(), fault.as_bytes())
    };
    assert_run(rt, run)
}

/// Checks the result and the number of steps for every document in `ROWS`. More documents are in
/// `tests/vectors`.
#[test]
// rule: fault-lines-of-encoding
fn encodes_documents_or_reports_faults(rt: HostRuntime) {
    for row in ROWS {
        assert_encoded(&rt, Encode, row.2, row);
    }
}

fn assert_forms(rt: &impl Runtime, forms: &[(Form, u8, Row)]) {
    for (form, flags, row) in forms {
        assert_encoded(rt, EncodeIn(*form), *flags, row);
    }
}

#[test]
// rule: writes-form, form-option
fn encodes_documents_in_requested_form(rt: HostRuntime) {
    assert_forms(&rt, FORMS)
}

#[test]
fn encoding_laws_can_be_called() {
    laws::dumped_messages_are_encoded_again();
    laws::encoded_messages_are_accepted();
    laws::dumped_messages_are_encoded_in_each_form();
    laws::canonical_messages_are_encoded_to_themselves();
    laws::encoded_documents_are_read();
}

/// The lines of a document from the `observed` line to the descriptor list. The document has 65,535
/// subsets (the maximum), each with two strings.
const MANY_SUBSETS: &str =
    "observed 1\ncompressed 1\noptional 0\nsubsets 65535\ndescriptors 205255 205002\n";

/// Returns the document that contains the lines in `MANY_SUBSETS`.
fn text_of_many_subsets(rt: &impl Runtime) -> String {
    let mut text = with_head(rt, MANY_SUBSETS);
    for subset in 1..=65_535 {
        let lines = format!(in rt.alloc(); "subset {subset}\n205255 \"\"\n205002 \"\"\n");
        ok(rt, text.push_str(&ok(rt, lines)));
    }
    ok(rt, text.push_str("end\n"));
    text
}

/// The compressed message is short, but the same message in plain form would be too long.
#[test]
fn rejects_message_that_is_too_long_when_uncompressed(rt: HostRuntime) {
    let text = text_of_many_subsets(&rt);
    let document = document_of(&rt, text.as_bytes());
    let octets = octets_of(&rt, Encode, &document);
    assert_same(&rt, &octets.len(), &308, &"length");
    assert_too_long(&rt, EncodeIn(Form::Plain), &document, 1)
}

fn assert_too_long(rt: &impl Runtime, command: Command, document: &Document, line: u64) {
    let fault = some(rt, encode_once(rt, command, document).err());
    assert_that(rt, matches!(fault, DocumentFault::TooLong(_)), &fault);
    assert_same(rt, &fault.line(), &Some(line), &fault)
}

/// The lines of a document from the `observed` line to the descriptor list, without the last
/// descriptor. The document contains 65,792 strings of 255 octets, followed by a string whose
/// length depends on the last descriptor.
const MANY_TEXTS: &str = "observed 1\ncompressed 0\noptional 0\nsubsets 1\n\
    descriptors 102255 101255 205255 102003 101255 205255 205255 205255\ndescriptors ";

/// Returns the document that begins with a comment and contains the lines in `MANY_TEXTS`. `last`
/// is the descriptor of the last string.
fn text_of_many_strings(rt: &impl Runtime, last: &str) -> String {
    let head = format!(in rt.alloc(); "# a comment\n{HEAD}{MANY_TEXTS}");
    let mut text = ok(rt, head);
    ok(rt, text.push_str(last));
    ok(rt, text.push_str("\nsubset 1\n"));
    for _ in 0..65_792 {
        ok(rt, text.push_str("205255 \"\"\n"));
    }
    ok(rt, text.push_str(last));
    ok(rt, text.push_str(" \"end\"\nend\n"));
    text
}

/// The maximum length of a message is 16,777,215 octets.
#[test]
// rule: fault-60
fn encodes_message_of_maximum_length(rt: HostRuntime) {
    let text = text_of_many_strings(&rt, "205192");
    let octets = octets_for(&rt, text.as_bytes());
    assert_same(&rt, &octets.len(), &16_777_215, &"length");
    let first = octets.starts_with(b"BUFR\xFF\xFF\xFF\x04");
    assert_that(&rt, first && octets.ends_with(b" 7777"), &"ends");
}

/// If a message would be one octet longer than the maximum, nothing is written.
#[test]
fn rejects_message_that_is_one_octet_too_long(rt: HostRuntime) {
    let text = text_of_many_strings(&rt, "205193");
    let document = document_of(&rt, text.as_bytes());
    assert_too_long(&rt, Encode, &document, 2);
    let line = b"line 2: 60 too long\n";
    let run = refused(Encode, "too long", text.as_bytes(), line);
    run_whole(&rt, Encode, text.as_bytes()).assert(&rt, run, 0)
}

/// The lines after the header of a handwritten document.
const BY_HAND: &str = "observed 1\ncompressed 0\n\n# local use and section 2\noptional 1\n\
    subsets 001\nlocal1 ab\nlocal1 CD\nsection2 0102\ndescriptors 012101\ndescriptors 001015\n\
    subset 01\n012101 0288.1\n001015 \"ABC\"  # a name\nend\n";

/// The corresponding lines in the output of `dump`.
const AS_DUMPED: &str = "observed 1\ncompressed 0\noptional 1\nsubsets 1\nlocal1 ABCD\n\
    section2 0102\ndescriptors 012101 001015\nsubset 1\n012101 288.10  # AIR TEMPERATURE [K]\n\
    001015 \"ABC                 \"  # STATION OR SITE NAME [CCITT IA5]\nend\n";

/// Encoding a handwritten document and dumping the result normalizes the document. Encoding the
/// normalized document gives the same octets.
#[test]
fn normalizes_handwritten_document(rt: HostRuntime) {
    let octets = octets_for(&rt, with_head(&rt, BY_HAND).as_bytes());
    let text = dumped(&rt, &octets);
    let want = with_head(&rt, AS_DUMPED);
    assert_same(&rt, &text.taken(), &want.as_bytes(), &"text");
    assert_same(&rt, &octets_for(&rt, text.taken()), &octets, &"octets");
}

/// Compressed messages. Each row contains the number of subsets, the descriptors and the items. A
/// `|` separates subsets, and a `;` separates the items of a subset.
#[rattlefmt::skip]
const ALIKE: &[(u16, &str, &str)] = &[
    (3, "001001 012101", "001001 10;012101 MISSING|001001 10;012101 MISSING|001001 10;012101 MISSING"),
    (3, "001001 012101 020003 001001", "001001 11;012101 288.15;020003 7;001001 9|001001 11;012101 MISSING;020003 7;001001 9|001001 11;012101 290.00;020003 7;001001 9"),
    (2, "012101 001001 020003", "012101 288.15;001001 12;020003 1|012101 288.16;001001 12;020003 2"),
    (2, "001001 001001", "001001 1;001001 2|001001 3;001001 4"),
    (1, "001001 012101", "001001 13;012101 288.15"),
];

/// Lines that all subsets share are printed in the correct place in each subset. The shared lines
/// of one message do not appear in the dump of the next message.
#[test]
fn dumps_shared_lines_in_every_subset(rt: HostRuntime) {
    let (mut text, mut dump) = (String::new(rt.alloc()), String::new(rt.alloc()));
    for (subsets, descriptors, items) in ALIKE {
        let written = text_of(&rt, *subsets, PACKED, descriptors, items);
        let dumped = dump_of(&rt, *subsets, PACKED, descriptors, items);
        ok(&rt, text.push_str(written.as_str()));
        ok(&rt, dump.push_str(dumped.as_str()));
    }
    let encoded = run_whole(&rt, Encode, text.as_bytes());
    let run = accepted(Dump, "alike", encoded.output(), dump.as_bytes());
    assert_run(&rt, run.counting(5, 0));
}

fn assert_fault(rt: &impl Runtime, fault: DocumentFault, number: u8, line: Option<u64>) {
    assert_same(rt, &(fault.number(), fault.line()), &(number, line), &fault);
}

#[test]
fn returns_fault_number_and_line_for_documents(rt: HostRuntime) {
    let fxy = Fxy::from_word(0x0101);
    let template = TemplateFault::EmptyGroup(fxy);
    let item = ItemFault::WrongDescriptor(Expected::Item(fxy));
    assert_fault(&rt, DocumentFault::Item(24, item), 51, Some(24));
    assert_fault(&rt, DocumentFault::Template(1, template), 56, Some(1));
    let refusal = ItemFault::Walk(WalkRefusal::TooManyValues(fxy));
    assert_fault(&rt, DocumentFault::Item(24, refusal), 62, Some(24));
    assert_fault(&rt, DocumentFault::TooLong(1), 60, Some(1));
    assert_fault(&rt, DocumentFault::Memory, 73, None);
}
