//! Tests for reading documents, with up to 1, 3 or 4,096 octets per read.

use crate::encode_tests::document_of;
use crate::messages::{HEAD, ONE_BLOCK_NUMBER, text_of_one};
use crate::runs::Command::Encode;
use crate::runs::{assert_run, refused};
use crate::support::{Runtime, assert_same, assert_that, joined, ok, repeated, some, words_of};
use bufr_bits::{Device, ScriptIn, Source};
use bufr_frame::{Message, RunFault};
use bufr_text::{Document, DumpReader, ReadFault, TextLineFault, laws};

/// The maximum read sizes to test, in octets.
const STEPS: [usize; 3] = [1, 3, 4096];

/// The result of a call to `next_document`. `Read` contains a document's number of entries and the
/// number of its first line.
#[derive(Clone, Copy, Debug, PartialEq, Eq)]
enum Next {
    Read(usize, u64),
    Refused(u64, TextLineFault),
    Failed(RunFault),
    Done,
}

use Next::{Done, Failed, Read, Refused};
use TextLineFault::{HeaderRange, NotAllowed, SubsetCount};

/// Returns the document for `ONE_BLOCK_NUMBER` with line `number` (counted from 1) replaced by
/// `text`.
fn with_line(rt: &impl Runtime, number: usize, text: &[u8]) -> Vec<u8> {
    let document = text_of_one(rt);
    let mut octets = Vec::new(rt.alloc());
    let mut at = 0usize;
    for line in document.as_str().lines() {
        at = at.saturating_add(1);
        let (line, end): (&[u8], &[u8]) = if at == number {
            (text, b"")
        } else {
            (line.as_bytes(), b"\n")
        };
        ok(rt, octets.extend_from_slice(line));
        ok(rt, octets.extend_from_slice(end));
    }
    octets
}

/// Returns the `Read` result for a document.
fn read_as(document: &Document) -> Next {
    Read(document.entries(), document.line())
}

/// Calls the reader, and returns the result.
fn next_of<R: Source>(reader: &mut DumpReader, r: &mut R) -> Next {
    match reader.next_document(r) {
        Ok(None) => Done,
        Ok(Some(document)) => read_as(&document),
        Err(ReadFault::Line(line, fault)) => Refused(line, fault),
        Err(ReadFault::Run(fault)) => Failed(fault),
    }
}

fn assert_next<R: Source>(rt: &impl Runtime, reader: &mut DumpReader, r: &mut R, want: Next) {
    assert_same(rt, &next_of(reader, r), &want, &"next");
    let held = reader.held();
    assert_that(rt, held <= 8192, &held);
}

fn assert_read_in_steps(
    rt: &impl Runtime,
    text: &[u8],
    step: usize,
    fails_at: Option<usize>,
    wanted: &[Next],
) {
    assert!(rt; step > 0);
    let mut r = ScriptIn::new(text, step, fails_at);
    let mut reader = DumpReader::new(rt.alloc());
    assert_same(rt, &reader.held(), &0, &"held");
    for want in wanted {
        assert_next(rt, &mut reader, &mut r, *want);
    }
    let last = some(rt, wanted.last().copied());
    assert_next(rt, &mut reader, &mut r, last);
    assert_next(rt, &mut reader, &mut r, last);
}

fn assert_read(rt: &impl Runtime, text: &[u8], fails_at: Option<usize>, wanted: &[Next]) {
    for step in STEPS {
        assert_read_in_steps(rt, text, step, fails_at, wanted);
    }
}

/// Returns the fault line that `encode` prints for an invalid line.
fn line_of(rt: &impl Runtime, line: u64, fault: TextLineFault) -> String {
    let text = match fault {
        NotAllowed => "50 line",
        SubsetCount => "57 subset count",
        HeaderRange => "61 header range",
    };
    ok(rt, format!(in rt.alloc(); "line {line}: {text}\n"))
}

fn assert_document(rt: &impl Runtime, text: &[u8], want: Next) {
    match want {
        Refused(line, fault) => {
            assert_read(rt, text, None, &[want]);
            let line = line_of(rt, line, fault);
            assert_run(rt, refused(Encode, "fault", text, line.as_bytes()))
        }
        _ => assert_read(rt, text, None, &[want, Done]),
    }
}

// Each row contains a line number, the expected result, and strings to replace the line. Valid
// strings are listed next to the invalid strings that are most similar to them.
#[rattlefmt::skip]
static RULES: &[(usize, Next, &[&[u8]])] = &[
    (25, Refused(25, SubsetCount), &[b"subset 2\n001001 10\nend\n"]),
    (25, Refused(25, NotAllowed), &[b""]),
    (25, Read(2, 1), &[b"end"]),
    (24, Read(2, 1), &[
        b"001001 10\n", b"001001 10 # note\r\n", b"001001 10 #x\n", b"001001 10   #\n",
        b"001001 --.1.\n", b"001001 MISSING\n", b"R 012101 -400\n", b"363255 1\n",
        b"205004 \"a\\\"\\\\\\x0A\"\n", b"205004 \"\\xFE\"\n", b"205004 \"~ \"\n",
        b"205004 \"a\"  # note\n",
    ]),
    (24, Refused(24, NotAllowed), &[
        b"001001\t10\n", b"001001  10\n", b"  \n001001 10\n", b" # note\n001001 10\n",
        b"\r\n001001 10\n", b"001001 10\r\n", b"001001 10# note\n", b"001001 10 note\n",
        b"001001 10 \n", b"001001 +1\n", b"001001 x\n", b"001001 MISSING2\n",
        b"R 012101 MISSING\n", b"R 012101 \"x\"\n", b"364255 1\n", b"363256 1\n", b"463255 1\n",
        b"205004 \"\\xfe\"\n", b"205004 \"\\n\"\n", b"205004 \"\x7F\"\n", b"205004 \"\xFE\"\n",
        b"205004 \"a\n", b"205004 \"a\"# note\n", b"205004 \"a\"x\n",
    ]),
    (24, Read(2, 1), &[b"\n001001 10\n", b"# note\r\n001001 10\n"]),
    (24, Refused(25, NotAllowed), &[b"001001 1.5\nx\n"]),
    (24, Refused(26, NotAllowed), &[b"\n# note\nx\n"]),
    (23, Refused(23, SubsetCount), &[b"subset 2\n"]),
    (23, Refused(23, NotAllowed), &[b"subset x\n", b"subset \n"]),
    (23, Read(2, 1), &[b"subset 01\n"]),
    (22, Read(2, 1), &[b"local1 abCD\n", b"descriptors 001001 001001 001001 001001 001001 001001 001001 001001\n"]),
    (22, Refused(22, NotAllowed), &[
        b"local1 abC\n", b"local1 \n", b"section2 01\n",
        b"descriptors 001001 001001 001001 001001 001001 001001 001001 001001 001001\n",
        b"descriptors 0010010\n", b"descriptors  001001\n", b"descriptors\n",
    ]),
    (22, Read(2, 1), &[b"local1 01\nlocal1 0203\n", b"descriptors 001001\ndescriptors 001001\n"]),
    (22, Refused(23, NotAllowed), &[b"descriptors 001001\nlocal1 01\n"]),
    (4, Read(2, 1), &[b"\n# note\ncentre 98\n"]),
    (4, Refused(4, NotAllowed), &[
        b"centre \n", b"centre +98\n", b"centre -98\n", b"centre  98\n", b"centre 65536x\n",
        b"subcentre 65536\n",
    ]),
    (4, Refused(6, HeaderRange), &[b"\n# note\ncentre 65536\n"]),
    (2, Refused(12, HeaderRange), &[b"edition 3\n"]),
];

fn assert_texts(rt: &impl Runtime, number: usize, want: Next, texts: &[&[u8]]) {
    for text in texts {
        assert_document(rt, &with_line(rt, number, text), want);
    }
}

#[test]
// rule: reading-empty-lines, reading-last-line, reading-carriage-return, reading-blanks
// rule: reading-after-a-value, reading-header-order, reading-long-lists, reading-hexadecimal
// rule: reading-section2, reading-descriptor, reading-number, reading-reference, reading-quoted
// rule: reading-subsets, fault-50, fault-57, fault-61, fault-order-of-a-line
fn accepts_valid_lines_and_rejects_invalid_ones(rt: HostRuntime) {
    for (number, want, texts) in RULES {
        assert_texts(&rt, *number, *want, *texts);
    }
}

/// Returns a document without subsets. `lines` contains the document's `local1` and `section2`
/// lines.
fn with_octets(rt: &impl Runtime, lines: &[u8]) -> Vec<u8> {
    let counts: &[u8] = b"observed 1\ncompressed 0\noptional 1\nsubsets 0\n";
    let end: &[u8] = b"descriptors 001001\nend\n";
    joined(rt, &[HEAD.as_bytes(), counts, lines, end])
}

/// Returns a line that consists of a word and the given number of digits.
fn line_of_digits(rt: &impl Runtime, word: &[u8], count: usize) -> Vec<u8> {
    let digits = repeated(rt, b"9", count);
    joined(rt, &[word, &digits, b"\n"])
}

/// Asserts that a line is rejected if it contains more than 64 hexadecimal digits or an odd number
/// of digits.
fn assert_octet_lines(rt: &impl Runtime, word: &[u8]) {
    for (count, want) in [
        (64, Read(0, 1)),
        (63, Refused(22, NotAllowed)),
        (66, Refused(22, NotAllowed)),
    ] {
        let line = line_of_digits(rt, word, count);
        assert_document(rt, &with_octets(rt, &line), want);
    }
}

#[test]
// rule: reading-long-lists
fn limits_hexadecimal_lines_to_64_digits(rt: HostRuntime) {
    assert_octet_lines(&rt, b"local1 ");
    assert_octet_lines(&rt, b"section2 ")
}

// Each row contains the number of a line to replace, a word and a number of digits that form the
// new line, and the expected result.
#[rattlefmt::skip]
static LONG_LINES: &[(usize, &[u8], usize, Next)] = &[
    (4, b"centre ", 4089, Refused(4, HeaderRange)),
    (24, b"001001 ", 4089, Read(2, 1)),
    (24, b"001001 ", 4090, Refused(24, NotAllowed)),
    (24, b"001001 10\n#", 4095, Read(2, 1)),
    (24, b"001001 10\n#", 4096, Refused(25, NotAllowed)),
];

/// The maximum length of a line is 4,096 octets. A longer line is rejected before its line feed is
/// read.
#[test]
// rule: reading-longest-line, reading-header-number
fn reads_lines_with_up_to_4096_octets(rt: HostRuntime) {
    for (number, word, count, want) in LONG_LINES {
        let line = line_of_digits(&rt, word, *count);
        assert_document(&rt, &with_line(&rt, *number, &line), *want);
    }
    let note = repeated(&rt, b"#", 4097);
    assert_read(&rt, &note, Some(4097), &[Refused(1, NotAllowed)]);
}

/// The length in octets of the document for `ONE_BLOCK_NUMBER`.
const WHOLE: usize = 300;

/// Line numbers continue from document to document. Blank lines and comments are allowed between
/// documents.
#[test]
// rule: reading-between-documents, reading-line-numbers
fn reads_several_documents(rt: HostRuntime) {
    let one = text_of_one(&rt);
    let one: &[u8] = one.as_bytes();
    assert_read(&rt, b"", None, &[Done]);
    assert_read(&rt, b"\n# note\n", None, &[Done]);
    assert_read(&rt, b"end\n", None, &[Refused(1, NotAllowed)]);
    let two = joined(&rt, &[b"\n", one, b"# note\n\n", one]);
    assert_read(&rt, &two, None, &[Read(2, 2), Read(2, 29), Done]);
    let refused = joined(&rt, &[one, b"x\n", one]);
    assert_read(&rt, &refused, None, &[Read(2, 1), Refused(26, NotAllowed)]);
}

/// If a read fails after the end of a document, the reader first returns the document, and then
/// reports the fault.
#[test]
fn returns_complete_documents_before_reporting_failed_read(rt: HostRuntime) {
    let two = repeated(&rt, text_of_one(&rt).as_bytes(), 2);
    assert_read(&rt, &two, None, &[Read(2, 1), Read(2, 26), Done]);
    let fault = Failed(RunFault::Read);
    assert_read(&rt, &two, Some(WHOLE), &[Read(2, 1), fault]);
    let short = with_line(&rt, 21, b"subsets 2\n");
    let text = joined(&rt, &[&short, &two]);
    assert_read(&rt, &text, Some(WHOLE), &[Refused(25, SubsetCount)]);
}

fn assert_counts(rt: &impl Runtime, document: &Document, want: (bool, bool, u16, usize)) {
    let flags = (document.observed(), document.compressed());
    let counts = (flags.0, flags.1, document.subsets(), document.entries());
    assert_same(rt, &counts, &want, &"counts");
}

fn assert_octets(rt: &impl Runtime, document: &Document, local1: &[u8], section2: Option<&[u8]>) {
    assert_same(rt, &document.local1(), &local1, &"section 1");
    assert_same(rt, &document.section2(), &section2, &"section 2");
}

#[test]
fn reads_header_and_descriptor_list(rt: HostRuntime) {
    let document = document_of(&rt, text_of_one(&rt).as_bytes());
    let head = ok(&rt, Message::parse(ONE_BLOCK_NUMBER)).head();
    assert_same(&rt, &document.head(), &head, &"head");
    assert_same(&rt, &document.line(), &1, &"line");
    assert_counts(&rt, &document, (true, false, 1, 2));
    let words = words_of(&rt, "001001");
    assert_same(&rt, &document.descriptors(), &words.as_slice(), &"words");
    assert_octets(&rt, &document, b"", None);
}

#[test]
fn reads_octets_for_local_use(rt: HostRuntime) {
    let text = with_octets(&rt, b"local1 01\nlocal1 0203\nsection2 ab\n");
    let document = document_of(&rt, &text);
    assert_octets(&rt, &document, b"\x01\x02\x03", Some(b"\xAB"));
    assert_counts(&rt, &document, (true, false, 0, 0));
}

/// Each item counts as one entry, and so does the end of each subset.
#[test]
fn counts_items_and_subset_ends_as_entries(rt: HostRuntime) {
    let lines = b"001001 10  # note\n205001 \"\\x0A\"\n012101 MISSING\nR 012101 -400\n";
    let document = document_of(&rt, &with_line(&rt, 24, lines));
    assert_counts(&rt, &document, (true, false, 1, 5));
    let lines: &[u8] = b"observed 0\ncompressed 1\noptional 0\nsubsets 2\ndescriptors 001001\n\
        subset 1\n001001 10\nsubset 2\n001001 11\nend\n";
    let document = document_of(&rt, &joined(&rt, &[HEAD.as_bytes(), lines]));
    assert_counts(&rt, &document, (false, true, 2, 4));
}

// Faults in reading documents, each with its number and description.
#[rattlefmt::skip]
static FAULTS: &[(ReadFault, u8, &str)] = &[
    (ReadFault::Line(3, NotAllowed), 50, "line"),
    (ReadFault::Line(25, SubsetCount), 57, "subset count"),
    (ReadFault::Line(4, HeaderRange), 61, "header range"),
    (ReadFault::Run(RunFault::Memory), 73, "out of memory"),
];

#[test]
fn returns_read_fault_number_and_text(rt: HostRuntime) {
    for (fault, number, text) in FAULTS {
        let shown = ok(&rt, format!(in rt.alloc(); "{fault}"));
        assert_same(
            &rt,
            &(fault.number(), shown.as_str()),
            &(*number, *text),
            fault,
        );
    }
}

#[test]
fn document_laws_can_be_called() {
    laws::dump_text_spells_its_document();
    laws::texts_are_their_documents();
    laws::calls_compose();
    laws::documents_reported_are_the_first();
    laws::none_comes_again();
}

/// Calls a reader whose input is in memory, and returns the result.
fn next_in(reader: &mut DumpReader, unread: &mut &[u8]) -> Next {
    next_of(reader, &mut Device::new(unread))
}

/// After returning a document, the reader buffers only octets that follow the document's last line.
#[test]
fn buffers_only_octets_after_document(rt: HostRuntime) {
    let text = repeated(&rt, text_of_one(&rt).as_bytes(), 1000);
    let mut unread = text.as_slice();
    let mut reader = DumpReader::new(rt.alloc());
    let mut taken = 0usize;
    for _ in 0..1000 {
        let next = next_in(&mut reader, &mut unread);
        assert_that(&rt, matches!(next, Read(2, _)), &next);
        taken = taken.saturating_add(WHOLE);
        let read = text.len().saturating_sub(unread.len());
        assert_same(&rt, &reader.held(), &read.saturating_sub(taken), &taken);
    }
    assert_that(&rt, unread.is_empty() && reader.held() == 0, &taken);
}

/// If the last line of the input has no line feed, the reader buffers only that line.
#[test]
fn buffers_unterminated_last_line(rt: HostRuntime) {
    let text = joined(&rt, &[text_of_one(&rt).as_bytes(), b"# note"]);
    let mut r = ScriptIn::new(&text, 4096, None);
    let mut reader = DumpReader::new(rt.alloc());
    assert_next(&rt, &mut reader, &mut r, Read(2, 1));
    assert_same(&rt, &reader.held(), &6, &"held");
    assert_next(&rt, &mut reader, &mut r, Done);
    assert_same(&rt, &reader.held(), &0, &"held");
}

fn assert_reused<R: Source>(rt: &impl Runtime, reader: &mut DumpReader, r: &mut R, line: u64) {
    let document = some(rt, ok(rt, reader.next_document(r)));
    assert_same(rt, &read_as(&document), &Read(2, line), &line);
    reader.reuse(document);
}

/// A document can reuse the memory of the previous document, whether that document was longer or
/// shorter.
#[test]
fn reuses_memory_from_previous_document(rt: HostRuntime) {
    let one = text_of_one(&rt);
    let (one, short): (&[u8], _) = (one.as_bytes(), with_line(&rt, 21, b"subsets 2\n"));
    let text = joined(&rt, &[one, b"# note\n", one, &short]);
    let mut r = ScriptIn::new(&text, 3, None);
    let mut reader = DumpReader::new(rt.alloc());
    reader.reuse(document_of(&rt, &text));
    assert_reused(&rt, &mut reader, &mut r, 1);
    assert_reused(&rt, &mut reader, &mut r, 27);
    assert_next(&rt, &mut reader, &mut r, Refused(76, SubsetCount));
}
