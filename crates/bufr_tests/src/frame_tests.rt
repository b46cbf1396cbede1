//! Tests for finding messages in streams, splitting messages into sections, and writing messages.

use crate::messages::{
    COMPRESSED, EDITION_3, EDITION_3_ODD, LOCAL_USE, ONE_BLOCK_NUMBER, PACKED, PLAIN, STRAY,
    bulletins, message_of_hex,
};
use crate::runs::Command::Ls;
use crate::runs::{assert_run, refused};
use crate::support::{Runtime, assert_same, assert_that, joined, ok, parsed, repeated, some};
use bufr_bits::ScriptIn;
use bufr_frame::{
    Cause, Event, Finder, Head, InputBuffer, Message, RunFault, SectionFault, WriteFault, laws,
    read_to_end, write_message,
};
use std::alloc::Global;

/// Messages that are built from parts have the same octets as the constants in `messages`.
#[test]
fn builds_test_messages_with_expected_octets(rt: HostRuntime) {
    let one = message_of_hex(&rt, 1, PLAIN, "001001", "14");
    assert_same(&rt, &one.as_slice(), &ONE_BLOCK_NUMBER, &"plain");
    let two = message_of_hex(&rt, 2, PACKED, "012101", "708F05");
    assert_same(&rt, &two.as_slice(), &COMPRESSED, &"compressed");
    assert_same(&rt, &bulletins(&rt).len(), &305, &"bulletins");
}

/// An expected event. `Frame` contains the offset and length of a message. `Stray` contains the
/// offset of a `BUFR` that does not begin a message, and the cause. `Holds` is not an event, but
/// contains the expected number of buffered octets and the greatest length declared so far.
#[derive(Clone, Copy, Debug, PartialEq, Eq)]
enum Want {
    Frame(u64, usize),
    Stray(u64, Cause),
    Done,
    Failed,
    Holds(usize, usize),
}

use Want::{Frame, Holds, Stray};

fn has_at(stream: &[u8], offset: u64, octets: &[u8]) -> bool {
    match stream.get(offset as usize..) {
        Some(rest) => rest.starts_with(octets),
        None => false,
    }
}

/// Returns the next event. Returns `None` if a frame differs from the octets at its offset in the
/// stream, or if the finder reports a fault other than a failed read.
fn next_event(stream: &[u8], finder: &mut Finder, r: &mut ScriptIn<'_>) -> Option<Want> {
    match finder.next(r) {
        Ok(Event::Frame(offset, octets)) => {
            has_at(stream, offset, octets).then_some(Frame(offset, octets.len()))
        }
        Ok(Event::Stray(offset, cause)) => Some(Stray(offset, cause)),
        Ok(Event::Done) => Some(Want::Done),
        Err(RunFault::Read) => Some(Want::Failed),
        Err(_) => None,
    }
}

fn measures_of(finder: &Finder) -> (usize, usize) {
    (finder.held(), finder.longest())
}

fn assert_event(
    rt: &impl Runtime,
    stream: &[u8],
    finder: &mut Finder,
    r: &mut ScriptIn<'_>,
    want: Want,
) {
    let (held, longest) = measures_of(finder);
    if let Holds(_, _) = want {
        assert_same(rt, &Holds(held, longest), &want, &"measures");
    } else {
        assert_same(rt, &next_event(stream, finder, r), &Some(want), &"event");
        assert_that(rt, held <= longest.max(4096), &want);
    }
}

/// Asserts that the finder returns the events in `wanted`. Each read returns at most `step` octets
/// of the stream, and reads fail from offset `fails_at` on. After the last event in `wanted`, each
/// call reports the end of the stream or, if `fails_at` is set, a failed read.
fn assert_events_by(
    rt: &impl Runtime,
    stream: &[u8],
    (step, fails_at): (usize, Option<usize>),
    wanted: &[Want],
    longest: usize,
) {
    assert!(rt; step > 0);
    let mut r = ScriptIn::new(stream, step, fails_at);
    let mut finder = Finder::new(rt.alloc());
    assert_event(rt, stream, &mut finder, &mut r, Holds(0, 0));
    for want in wanted {
        assert_event(rt, stream, &mut finder, &mut r, *want);
    }
    let end = if fails_at.is_some() {
        Want::Failed
    } else {
        Want::Done
    };
    for _ in 0..3 {
        assert_event(rt, stream, &mut finder, &mut r, end);
    }
    assert_same(rt, &measures_of(&finder).1, &longest, &step);
}

/// The maximum read sizes to test, in octets.
const STEPS: &[usize] = &[1, 3, 65536];

fn assert_events(
    rt: &impl Runtime,
    stream: &[u8],
    fails_at: Option<usize>,
    wanted: &[Want],
    longest: usize,
) {
    for step in STEPS {
        assert_events_by(rt, stream, (*step, fails_at), wanted, longest);
    }
}

/// Each row contains the parts of a stream, the offset at which reads begin to fail, the expected
/// events, and the greatest declared length.
#[rattlefmt::skip]
const STREAMS: &[(&[&[u8]], Option<usize>, &[Want], usize)] = &[
    (&[], None, &[], 0),
    (&[STRAY, ONE_BLOCK_NUMBER, &[0; 8]], None, &[Stray(0, Cause::NoEnd), Frame(8, 48)], 64),
    (&[b"BUFR\x00\x00\x0B\x04abcd"], None, &[Stray(0, Cause::ShortLength)], 11),
    (&[b"BUFR\x00\x00\x0B\x04ab"], None, &[Stray(0, Cause::Cut)], 11),
    (&[STRAY, ONE_BLOCK_NUMBER, b"xyBUF", ONE_BLOCK_NUMBER, b"BUFR\x00\x00\x0B\x04abcBUFR"], None,
        &[Stray(0, Cause::NoEnd), Frame(8, 48), Frame(61, 48), Stray(109, Cause::ShortLength),
            Stray(120, Cause::Cut)], 64),
    // The finder returns every event that is certain before it reports the failed read.
    (&[ONE_BLOCK_NUMBER], Some(20), &[], 48),
    (&[ONE_BLOCK_NUMBER, ONE_BLOCK_NUMBER], Some(48), &[Frame(0, 48)], 48),
    (&[ONE_BLOCK_NUMBER, ONE_BLOCK_NUMBER], Some(58), &[Frame(0, 48)], 48),
    (&[ONE_BLOCK_NUMBER, b"xxBUFR\x00\x01\x00\x04abc"], Some(60), &[Frame(0, 48)], 256),
    (&[STRAY, ONE_BLOCK_NUMBER], Some(56), &[], 64),
    (&[b"BUF"], None, &[], 0),
    (&[b"BUFR\x00\x00\x30"], None, &[Stray(0, Cause::Cut)], 0),
    (&[b"BUFR\x00\x00\x30\x04"], None, &[Stray(0, Cause::Cut)], 48),
];

#[test]
// rule: first-bufr, stray-cut, stray-short-length, stray-no-end
fn finds_messages_and_stray_start_markers(rt: HostRuntime) {
    for (parts, fails_at, wanted, longest) in STREAMS {
        let stream = joined(&rt, parts);
        assert_events(&rt, &stream, *fails_at, wanted, *longest);
    }
}

/// Returns the expected events for 1,024 stray `BUFR` markers that begin `apart` octets apart. The
/// first `without_end` events have the cause `NoEnd`, and the others have the cause `Cut`.
fn strays(rt: &impl Runtime, apart: u64, without_end: u64) -> Vec<Want> {
    let mut wanted = Vec::new(rt.alloc());
    for i in 0..1024u64 {
        let cause = if i < without_end {
            Cause::NoEnd
        } else {
            Cause::Cut
        };
        ok(rt, wanted.push(Stray(i.saturating_mul(apart), cause)));
    }
    wanted
}

/// The finder interprets the three octets after each `BUFR` as a length. The finder must read to
/// the end of the stream to determine that a message is cut off.
#[test]
// rule: after-a-stray, output-waits
fn reports_each_of_1024_stray_start_markers(rt: HostRuntime) {
    let words = repeated(&rt, b"BUFR", 1024);
    assert_events(&rt, &words, None, &strays(&rt, 4, 0), 0x42_55_46);
    let words = repeated(&rt, b"BUFR\x00\x10\x00\x04", 1024);
    assert_events(&rt, &words, None, &strays(&rt, 8, 513), 4096);
}

/// Returns a message that is 5,048 octets long. Section 1 contains 5,000 octets for local use.
fn long_message(rt: &impl Runtime) -> Vec<u8> {
    let section_1 = ONE_BLOCK_NUMBER.get(11..30).unwrap_or(b"");
    let rest = ONE_BLOCK_NUMBER.get(30..).unwrap_or(b"");
    let local = repeated(rt, b"\x00", 5000);
    let lengths = b"BUFR\x00\x13\xB8\x04\x00\x13\x9E";
    joined(rt, &[lengths, section_1, &local, rest])
}

#[test]
// rule: frame
fn finds_message_longer_than_all_earlier_ones(rt: HostRuntime) {
    let (long, zeros) = (long_message(&rt), repeated(&rt, b"\x00", 10_000));
    let late = joined(&rt, &[&zeros, ONE_BLOCK_NUMBER]);
    assert_events(&rt, &late, None, &[Frame(10_000, 48)], 48);
    let growing = joined(&rt, &[ONE_BLOCK_NUMBER, &long, &zeros, ONE_BLOCK_NUMBER]);
    let wanted = [Frame(0, 48), Frame(48, 5048), Frame(15_096, 48)];
    assert_events(&rt, &growing, None, &wanted, 5048);
}

/// A message that is longer than all earlier ones stays in the buffer until the next call. Nothing
/// else is buffered.
#[test]
fn buffers_long_message_until_next_call(rt: HostRuntime) {
    let stream = joined(&rt, &[&long_message(&rt), ONE_BLOCK_NUMBER]);
    let wanted = [Frame(0, 5048), Holds(5048, 5048), Frame(5048, 48)];
    assert_events(&rt, &stream, None, &wanted, 5048);
}

#[test]
fn framing_laws_can_be_called() {
    laws::open_scan_is_prefix();
    laws::events_to_the_end_are_the_scan();
    laws::events_before_the_end_are_certain();
    laws::events_at_a_fault_are_the_open_scan();
    laws::octets_from_an_event_on_are_held();
    laws::longest_is_that_of_the_events();
    laws::longest_at_a_fault_counts_the_open_word();
    laws::steps_compose();
    laws::done_comes_again();
    laws::written_again_is_no_longer();
    laws::even_sections_are_written_no_longer();
    laws::written_again_is_not_too_long();
    laws::heads_of_messages_can_be_written();
    laws::even_payloads_have_one_layout();
    laws::shorter_payloads_make_no_longer_messages();
    laws::plain_messages_are_written_again();
}

#[rattlefmt::skip]
pub(crate) const HEAD_4: Head = Head {
    edition: 4, master: 0, centre: 98, subcentre: 0, update: 0, category: 0, subcategory: 0,
    local_subcategory: 0, master_version: 14, local_version: 0,
    year: 2024, month: 1, day: 2, hour: 3, minute: 4, second: 5,
};

#[rattlefmt::skip]
const HEAD_3: Head = Head {
    edition: 3, master: 0, centre: 98, subcentre: 0, update: 0, category: 0, subcategory: 0,
    local_subcategory: 0, master_version: 14, local_version: 0,
    year: 24, month: 1, day: 2, hour: 3, minute: 4, second: 0,
};

/// The contents of a message. The fields are the values of section 1, the octets for local use,
/// section 2, the number of subsets with the observed and compressed flags, the single descriptor,
/// and the data.
type Parts = (
    Head,
    &'static [u8],
    Option<&'static [u8]>,
    (u16, bool, bool),
    u16,
    &'static [u8],
);

/// Each row contains a message, its contents, and the message that should be written from those
/// contents.
#[rattlefmt::skip]
const MESSAGES: &[(&[u8], Parts, &[u8])] = &[
    (ONE_BLOCK_NUMBER, (HEAD_4, b"", None, (1, true, false), 0x0101, b"\x14"), ONE_BLOCK_NUMBER),
    (LOCAL_USE, (HEAD_4, b"\xAB\xCD", Some(b"\x01\x02"), (1, true, false), 0x0101, b"\x14"), LOCAL_USE),
    (COMPRESSED, (HEAD_4, b"", None, (2, true, true), 0x0c65, b"\x70\x8F\x05"), COMPRESSED),
    (EDITION_3, (HEAD_3, b"\0", None, (1, true, false), 0x0101, b"\x14\0"), EDITION_3),
    // Sections with an odd length are padded to an even length.
    (EDITION_3_ODD, (HEAD_3, b"\0", None, (1, true, false), 0x0101, b"\x14"), EDITION_3),
];

fn assert_parts(rt: &impl Runtime, message: &Message<'_>, parts: &Parts) {
    let (head, local, section_2, want, word, payload) = *parts;
    assert_same(rt, &message.head(), &head, &"section 1");
    assert_same(rt, &message.local1(), &local, &"local octets");
    assert_same(rt, &message.section2(), &section_2, &"section 2");
    let counts = (message.subsets(), message.observed(), message.compressed());
    assert_same(rt, &counts, &want, &"subsets");
    let words = (message.descriptor(0), message.descriptor(1));
    assert_same(rt, &words, &(Some(word), None), &"descriptors");
    let bits = message.payload();
    let len_bits = (payload.len() as u64).saturating_mul(8);
    assert_same(rt, &bits.len_bits(), &len_bits, &"data");
    assert_same(rt, &bits.octets(0, payload.len()), &Some(payload), &"data");
}

fn assert_descriptors(rt: &impl Runtime, message: &Message<'_>, word: u16) {
    let mut words = message.descriptors();
    let counts = (words.len(), words.is_empty());
    assert_same(rt, &counts, &(1, false), &"descriptors");
    let found = (words.next(), words.next());
    assert_same(rt, &found, &(Some(word), None), &"descriptors");
}

/// Writes a message from the contents of another message. Returns `None` if the header cannot be
/// written in the message's edition.
fn written(alloc: Global, message: &Message<'_>, word: u16, payload: &[u8]) -> Option<Vec<u8>> {
    let head = message.head();
    let fits = head.centre <= 255 && head.subcentre <= 255 && head.year <= 255;
    let lacks = head.local_subcategory == 0 && head.second == 0;
    if !(head.edition == 4 || head.edition == 3 && fits && lacks) {
        return None;
    }
    let octets = write_message(
        alloc,
        &head,
        message.local1(),
        message.section2(),
        &[word],
        message.subsets(),
        message.observed(),
        message.compressed(),
        payload,
    );
    octets.ok()
}

#[test]
// rule: section-0, section-1-of-edition-4, section-1-of-edition-3, section-2-flag, local-use
// rule: section-2, section-3, descriptors-of-section-3, section-4, section-5, edition-3-lacks
// rule: reserved-zero, least-lengths, sections-in-order, writes-no-pad-octet
fn parses_messages_and_writes_them_back(rt: HostRuntime) {
    for (octets, parts, again) in MESSAGES {
        let message = parsed(&rt, octets);
        assert_parts(&rt, &message, parts);
        assert_descriptors(&rt, &message, parts.4);
        assert_same(&rt, &message.length(), &(octets.len() as u64), octets);
        let found = written(rt.alloc(), &message, parts.4, parts.5);
        assert_same(&rt, &some(&rt, found).as_slice(), again, octets);
    }
}

/// Returns the length of a message, or the fault if the message is rejected.
fn length_of(rt: &impl Runtime, octets: &[u8]) -> Result<u64, SectionFault> {
    assert!(rt; octets.len() >= 12);
    match Message::parse(octets) {
        Ok(message) => Ok(message.length()),
        Err(fault) => Err(fault),
    }
}

/// Each row contains changes to the octets of `ONE_BLOCK_NUMBER`, the expected fault, the fault
/// number and the description.
#[rattlefmt::skip]
const FAULTS: &[(&[(usize, u8)], SectionFault, &str)] = &[
    (&[(7, 2)], SectionFault::Edition(2), "10 edition 2"),
    (&[(10, 21)], SectionFault::SectionShort(1), "11 section 1 short"),
    (&[(10, 40)], SectionFault::SectionPast(1), "12 section 1 past the end"),
    (&[(41, 4)], SectionFault::SectionsEnd, "13 sections do not meet the end"),
    (&[(17, 0x80), (32, 3)], SectionFault::SectionShort(2), "11 section 2 short"),
    (&[(17, 0x80), (32, 15)], SectionFault::SectionPast(2), "12 section 2 past the end"),
    (&[(32, 6)], SectionFault::SectionShort(3), "11 section 3 short"),
    (&[(41, 6)], SectionFault::SectionPast(4), "12 section 4 past the end"),
    (&[(32, 12)], SectionFault::SectionPast(4), "12 section 4 past the end"),
];

/// Returns `ONE_BLOCK_NUMBER` with the given changes to its octets.
fn changed(rt: &impl Runtime, changes: &[(usize, u8)]) -> Vec<u8> {
    let mut octets = joined(rt, &[ONE_BLOCK_NUMBER]);
    for (index, octet) in changes {
        *some(rt, octets.get_mut(*index)) = *octet;
    }
    octets
}

/// Asserts that parsing `octets` returns `fault`, and that `ls` reports the fault number and
/// description in `text`.
fn assert_fault(rt: &impl Runtime, octets: &[u8], fault: SectionFault, text: &str) {
    assert_same(rt, &length_of(rt, octets), &Err(fault), &text);
    let shown = ok(rt, format!(in rt.alloc(); "{} {fault}", fault.number()));
    assert_same(rt, &shown.as_str(), &text, &fault);
    let line = ok(rt, format!(in rt.alloc(); "offset 0: {text}\n"));
    assert_run(rt, refused(Ls, text, octets, line.as_bytes()))
}

#[test]
// rule: length-past-end, length-under-least, section-past-end, section-4-end
fn reports_section_faults(rt: HostRuntime) {
    for (changes, fault, text) in FAULTS {
        assert_fault(&rt, &changed(&rt, changes), *fault, text);
    }
}

/// Parses an edition 3 message that is 16,777,214 octets long. Returns the parsed length, or the
/// fault if the message is rejected. `sections` contains sections 0 to 3, and `fourth` is the
/// length field of section 4.
fn length_of_long(
    rt: &impl Runtime,
    sections: Option<&[u8]>,
    fourth: &[u8],
) -> Result<u64, SectionFault> {
    let mut octets = joined(rt, &[some(rt, sections), fourth]);
    ok(rt, octets.resize(16_777_214, 0));
    length_of(rt, &octets)
}

/// A message is rejected if padding its sections to even lengths would make it too long.
#[test]
// rule: edition-3-length
fn rejects_edition_3_message_that_is_too_long_with_padding(rt: HostRuntime) {
    let odd = length_of_long(&rt, EDITION_3_ODD.get(..35), b"\xFF\xFF\xD7");
    assert_same(&rt, &odd, &Err(SectionFault::Edition3Long), &"odd");
    let even = length_of_long(&rt, EDITION_3.get(..36), b"\xFF\xFF\xD6");
    assert_same(&rt, &even, &Ok(16_777_214), &"even");
    assert_same(&rt, &SectionFault::Edition3Long.number(), &14, &"number");
}

/// Returns the length of a message with the given number of octets for local use, or the fault if
/// the message cannot be written.
fn length_with(rt: &impl Runtime, local: usize) -> Result<usize, WriteFault> {
    let local = ok(rt, vec![in rt.alloc(); 0u8; local]);
    write_message(rt.alloc(), &HEAD_4, &local, None, &[], 1, true, false, b"").map(
        |octets| octets.len(),
    )
}

/// Each row contains a number of octets for local use, and the expected message length or fault.
#[rattlefmt::skip]
const LOCAL_LENGTHS: &[(usize, Result<usize, WriteFault>)] = &[
    (16_777_215, Err(WriteFault::TooLong)), (16_777_171, Err(WriteFault::TooLong)),
    (16_777_170, Ok(16_777_215)),
];

#[test]
// rule: greatest-length
fn refuses_to_write_messages_that_are_too_long(rt: HostRuntime) {
    for (local, want) in LOCAL_LENGTHS {
        assert_same(&rt, &length_with(&rt, *local), want, local);
    }
}

#[test]
fn reads_to_end_of_input_and_counts_reads(rt: HostRuntime) {
    let mut r = ScriptIn::new(LOCAL_USE, 9, None);
    let mut octets = Vec::new(rt.alloc());
    let mut reads = 0;
    let ran = read_to_end(&mut r, &mut octets, &mut reads);
    assert_same(&rt, &(ran, reads), &(Ok(()), 8), &"reads");
    assert_same(&rt, &octets.as_slice(), &LOCAL_USE, &"octets");
}

/// Fills the buffer twice, and skips two octets after the first read.
#[test]
fn refills_buffer_after_skipping_octets(rt: HostRuntime) {
    let mut r = ScriptIn::new(b"abcd", 3, None);
    let mut input = InputBuffer::new(rt.alloc());
    assert_same(&rt, &input.fill(&mut r, 4, 8), &Ok(()), &"first read");
    assert!(rt; !input.ended());
    assert!(rt; input.held().len() == 3);
    input.skip(2);
    assert_same(&rt, &input.fill(&mut r, 4, 8), &Ok(()), &"second read");
    assert_same(&rt, &input.held(), &b"cd".as_slice(), &"octets");
}

/// Appends an octet to the buffer at the end of the input, and checks that a failed read is
/// reported.
#[test]
fn appends_octet_to_buffer_at_end_of_input(rt: HostRuntime) {
    let mut r = ScriptIn::new(b"", 3, None);
    let mut input = InputBuffer::new(rt.alloc());
    assert_same(&rt, &input.fill(&mut r, 4, 8), &Ok(()), &"read");
    assert!(rt; input.ended());
    input.push(b'a');
    assert_same(&rt, &input.held(), &b"a".as_slice(), &"octets");
    let mut r = ScriptIn::new(b"a", 1, Some(0));
    let mut input = InputBuffer::new(rt.alloc());
    let read = input.fill(&mut r, 4, 8);
    assert_same(&rt, &read, &Err(RunFault::Read), &"read");
}
