//! Tests for complete runs of `ls`, `dump` and `encode`.

use crate::messages::{
    COMPRESSED, EDITION_3, LOCAL_USE, ONE_BLOCK_NUMBER, PLAIN, bulletins, delayed_twice,
    line_of_one, message_of_hex, messages_of_bulletins, text_of, text_of_one,
};
use crate::runs::Command::{Dump, Encode, Ls};
use crate::runs::{
    Command, Task, Watched, accepted, assert_cut_anywhere, assert_fails_to_flush, assert_ran,
    assert_run, assert_stops_after_a_stray, assert_stops_at_errors, assert_stops_at_output,
    assert_stops_at_reads, list, refused, roomy, run_whole, tally, writer,
};
use crate::support::{Runtime, assert_same, assert_that, from_hex, joined, ok};
use bufr_bits::{Device, End};
use bufr_cli::{Round, dump_encode_dump, laws};
use bufr_frame::RunFault;
use std::cell::Cell;
use std::io::{self, Read};

#[test]
// rule: fault-1
fn rejects_message_truncated_at_any_offset(rt: HostRuntime) {
    assert_cut_anywhere(&rt, Ls, "one block number", ONE_BLOCK_NUMBER);
    assert_cut_anywhere(&rt, Dump, "delayed", &delayed_twice(&rt));
    assert_cut_anywhere(&rt, Dump, "compressed", COMPRESSED);
    assert_cut_anywhere(&rt, Dump, "local use", LOCAL_USE);
    assert_cut_anywhere(&rt, Dump, "edition 3", EDITION_3)
}

/// A reader whose first two reads return one message each. At each read, the reader records how
/// many octets have been written.
#[derive(Drop)]
struct Watching<'a> {
    octets: &'a Cell<usize>,
    reads: usize,
    seen: [usize; 3],
}

impl<'a> Read for Watching<'a> {
    fn read(&mut self, buf: &mut [u8]) -> io::Result<usize> {
        if self.reads < 3 {
            self.seen[self.reads] = self.octets.get();
            self.reads += 1;
        }
        if self.reads == 3 || buf.len() < 48 {
            return Ok(0);
        }
        let mut message = ONE_BLOCK_NUMBER;
        message.read(buf)
    }
}

/// Each line is written in a single write, before the next message is read.
#[test]
fn writes_each_line_before_next_read(rt: HostRuntime) {
    let (first, second) = (line_of_one(&rt, "0").len(), line_of_one(&rt, "48").len());
    let (octets, writes, torn) = (Cell::new(0), Cell::new(0), Cell::new(false));
    let mut watching = Watching {
        octets: &octets,
        reads: 0,
        seen: [0; 3],
    };
    let mut r = Device::new(&mut watching);
    let mut w = Device::new(Watched {
        octets: &octets,
        writes: &writes,
        torn: &torn,
    });
    let mut e = writer(&rt, 1, (0, End::Fail));
    let ran = list(rt.alloc(), &mut r, &mut w, &mut e);
    assert_same(&rt, &ran, &Ok(tally(2, 0)), &"listed");
    let seen = [0, first, first.saturating_add(second)];
    assert_same(&rt, &watching.seen, &seen, &"before each read");
    assert_same(&rt, &(writes.get(), torn.get()), &(2, false), &"writes");
}

/// Empty input is accepted, both with scripted readers and writers and with those in the standard
/// library.
#[test]
// rule: input-without-bufr
fn accepts_empty_input(rt: HostRuntime) {
    let empty: &[u8] = b"";
    let mut w = Device::new(Vec::new(rt.alloc()));
    let mut e = Device::new(Vec::new(rt.alloc()));
    let ran = list(rt.alloc(), &mut Device::new(empty), &mut w, &mut e);
    assert_same(&rt, &ran, &Ok(tally(0, 0)), &"std");
    for command in [Ls, Dump, Encode] {
        assert_run(&rt, accepted(command, "nothing", b"", b"").counting(0, 0));
    }
}

/// Asserts that a run writes the expected octets before a read or a write fails. `one` is a message
/// or document, and `first` and `second` are the expected outputs for two copies of it in the
/// input.
fn assert_pair_stops(
    rt: &impl Runtime,
    command: Command,
    one: &[u8],
    (first, second): (&[u8], &[u8]),
) {
    let (input, both) = (joined(rt, &[one, one]), joined(rt, &[first, second]));
    assert_stops_at_reads(rt, accepted(command, "two", &input, &both), first);
    assert_stops_at_output(rt, accepted(command, "one", one, first))
}

/// If a read fails or is interrupted, the run still writes the lines for all complete messages. If
/// the lines do not fit in the output, the run writes as many octets as possible.
#[test]
// rule: fault-70, fault-71
fn lists_complete_messages_before_failure(rt: HostRuntime) {
    let (first, second) = (line_of_one(&rt, "0"), line_of_one(&rt, "48"));
    let lines = (first.as_bytes(), second.as_bytes());
    assert_pair_stops(&rt, Ls, ONE_BLOCK_NUMBER, lines);
}

#[test]
// rule: fault-line-not-written
fn dumps_complete_messages_before_failure(rt: HostRuntime) {
    let text = text_of_one(&rt);
    let text = text.as_bytes();
    assert_pair_stops(&rt, Dump, ONE_BLOCK_NUMBER, (text, text));
}

#[test]
fn encodes_complete_documents_before_failure(rt: HostRuntime) {
    let (text, message) = (text_of_one(&rt), ONE_BLOCK_NUMBER);
    assert_pair_stops(&rt, Encode, text.as_bytes(), (message, message))
}

#[test]
fn reports_stray_start_marker_before_next_message(rt: HostRuntime) {
    let (line, text) = (line_of_one(&rt, "8"), text_of_one(&rt));
    assert_stops_after_a_stray(&rt, Ls, ONE_BLOCK_NUMBER, line.as_bytes());
    assert_stops_after_a_stray(&rt, Dump, ONE_BLOCK_NUMBER, text.as_bytes())
}

/// Returns a document whose line 24 is invalid.
fn rejected_text(rt: &impl Runtime) -> String {
    text_of(rt, 1, PLAIN, "012101", "012101 288.155")
}

/// Even if the error output is full, the run writes a message for each document that precedes the
/// rejected one.
#[test]
fn stops_if_error_output_fails(rt: HostRuntime) {
    let line = b"offset 0: 1 cut\n";
    let run = refused(Ls, "cut", b"BUFR\x00\x00\x30\x04", line);
    assert_stops_at_errors(&rt, run, b"");
    let message = message_of_hex(&rt, 1, PLAIN, "001001", "");
    let line = b"offset 0: 30 data end at subset 1 descriptor 001001 bit 0\n";
    assert_stops_at_errors(&rt, refused(Dump, "data", &message, line), b"");
    let second = rejected_text(&rt);
    let text = joined(&rt, &[text_of_one(&rt).as_bytes(), second.as_bytes()]);
    let run = accepted(Encode, "second", &text, ONE_BLOCK_NUMBER).counting(1, 1);
    let run = run.with_errors(b"line 49: 52 number\n");
    assert_stops_at_errors(&rt, run, ONE_BLOCK_NUMBER);
    let line = b"line 24: 52 number\n";
    let run = refused(Encode, "first", second.as_bytes(), line);
    assert_stops_at_errors(&rt, run, b"")
}

/// The run stops at the first rejected document, and does not read the remaining input.
#[test]
// rule: first-refusal-ends
fn stops_at_first_rejected_document(rt: HostRuntime) {
    let (good, bad) = (text_of_one(&rt), rejected_text(&rt));
    let both = joined(&rt, &[good.as_bytes(), bad.as_bytes()]);
    let text = joined(&rt, &[&both, good.as_bytes(), b"no line\n"]);
    let second = accepted(Encode, "the second", &text, ONE_BLOCK_NUMBER).counting(1, 1);
    assert_run(&rt, second.with_errors(b"line 49: 52 number\n"));
    let line = b"line 24: 52 number\n";
    let run = refused(Encode, "a failed read", bad.as_bytes(), line);
    let mut devices = roomy(7);
    devices.fails_at = Some(bad.len());
    assert_ran(&rt, &Task::new(&rt, Encode), run, devices)
}

/// If the output cannot be flushed, the output and the error output still contain everything that
/// was written to them.
#[test]
fn keeps_written_octets_after_failed_flush(rt: HostRuntime) {
    let text = joined(&rt, &[text_of_one(&rt).as_bytes(), b"end\n"]);
    let run = accepted(Encode, "flush", &text, ONE_BLOCK_NUMBER);
    let mut run = run.with_errors(b"line 26: 50 line\n");
    run.outcome = Err(RunFault::Write);
    let mut devices = roomy(4096);
    devices.output = (48, End::Flush);
    assert_ran(&rt, &Task::new(&rt, Encode), run, devices)
}

/// At the end of the input, the run flushes both writers, even if nothing was written to them.
#[test]
fn fails_if_either_writer_cannot_be_flushed(rt: HostRuntime) {
    for command in [Ls, Dump, Encode] {
        assert_fails_to_flush(&rt, accepted(command, "nothing", b"", b""));
    }
    let (line, text) = (line_of_one(&rt, "0"), text_of_one(&rt));
    let (line, text) = (line.as_bytes(), text.as_bytes());
    assert_fails_to_flush(&rt, accepted(Ls, "one", ONE_BLOCK_NUMBER, line));
    assert_fails_to_flush(&rt, accepted(Dump, "one", ONE_BLOCK_NUMBER, text));
    assert_fails_to_flush(&rt, accepted(Encode, "one", text, ONE_BLOCK_NUMBER));
    let stray = refused(Ls, "stray", b"BUFR", b"offset 0: 1 cut\n");
    assert_fails_to_flush(&rt, stray)
}

/// The beginning of an edition 3 message, up to and including the length of section 4. The message
/// is 16,777,214 octets long, and its section 3 has an odd length.
const LONG: &str =
    "42554652FFFFFE03 000012000062000000000E00180102030400 000009000001800101 FFFFD7";

/// Like `Message::parse`, `ls` rejects a message if padding its sections to even lengths would make
/// it too long.
#[test]
// rule: fault-14
fn ls_rejects_edition_3_message_that_is_too_long_with_padding(rt: HostRuntime) {
    let mut octets = from_hex(&rt, LONG);
    ok(&rt, octets.resize(16_777_210, 0));
    ok(&rt, octets.extend_from_slice(b"7777"));
    let run = refused(Ls, "long", &octets, b"offset 0: 14 edition 3 length\n");
    run_whole(&rt, Ls, &octets).assert(&rt, run, 0)
}

#[test]
fn round_trip_laws_can_be_called() {
    laws::dumped_streams_are_built_again();
    laws::runs_close_the_round();
    laws::encoded_texts_are_dumped_in_one_spelling();
}

/// Dumps a stream, encodes the dump, and dumps the resulting messages.
fn round_trip_of(rt: &impl Runtime, stream: &[u8]) -> Round {
    let task = Task::new(rt, Dump);
    dump_encode_dump(rt.alloc(), stream, 4096, &task.b, &task.d).expect(rt, "a round")
}

/// Encoding the dump of the bulletins reproduces the four messages that were accepted. Dumping
/// these messages gives the same dump again.
#[test]
fn round_trips_stream(rt: HostRuntime) {
    let (messages, round) = (
        messages_of_bulletins(&rt),
        round_trip_of(&rt, &bulletins(&rt)),
    );
    let text = round.text.output.taken();
    assert_that(&rt, text.starts_with(b"message\nedition 4\n"), &"text");
    assert_same(&rt, &round.text.tally, &tally(4, 3), &"dumped");
    let counts = (round.messages.tally, round.again.tally);
    assert_same(&rt, &counts, &(tally(4, 0), tally(4, 0)), &"counts");
    let octets = round.messages.output.taken();
    assert_same(&rt, &octets, &messages.as_slice(), &"messages");
    assert_same(&rt, &round.again.output.taken(), &text, &"again");
    let run = accepted(Encode, "stream", text, &messages);
    assert_run(&rt, run.counting(4, 0))
}
