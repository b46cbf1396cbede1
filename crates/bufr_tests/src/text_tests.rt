//! Tests for writing the `ls` line and the dump of a message.

use crate::messages::{
    COMPRESSED, HEAD, ONE_BLOCK_NUMBER, PLAIN, delayed_twice, line_of_one, message_of,
};
use crate::runs::{Watched, writer};
use crate::support::{Runtime, assert_same, joined, ok, repeated, some, table_b, template_for};
use bufr_bits::{Device, End, ScriptOut, Sink};
use bufr_frame::{Message, RunFault};
use bufr_tables::{TableB, Template};
use bufr_text::{LineWriter, write_all, write_dump, write_ls};
use bufr_walk::{Steps, read_message};
use std::cell::Cell;

/// Parses a message. This function has no contract, which keeps the contract of `Message::parse`
/// out of the tests' proofs.
fn message_in(octets: &[u8]) -> Option<Message<'_>> {
    if octets.len() < 12 {
        return None;
    }
    Message::parse(octets).ok()
}

#[test]
// rule: listing-line
fn writes_ls_line_for_message(rt: HostRuntime) {
    let mut w = writer(&rt, 7, (4096, End::Fail));
    let message = some(&rt, message_in(ONE_BLOCK_NUMBER));
    ok(&rt, write_ls(7, &message, &mut w));
    let line = line_of_one(&rt, "7");
    assert_same(&rt, &w.taken(), &line.as_bytes(), &"line");
}

/// Writes strings and numbers with a `LineWriter` whose block is `room` octets long. Does nothing
/// if `room` is greater than 64.
fn push_each(rt: &impl Runtime, room: usize, w: &mut ScriptOut) {
    let mut block = [0; 64];
    let Some(octets) = block.get_mut(..room) else {
        return;
    };
    let mut line = LineWriter::new(octets, w);
    line.push(b"a ");
    line.push_named(b"b=", 7);
    line.push_named(b" c=", 1_024);
    line.push_padded(6, 3);
    line.push_decimal(u64::MAX);
    line.flush_buf();
    ok(rt, line.status());
}

/// The block size does not affect the line that is written.
#[test]
// rule: listing-time
fn writes_same_line_for_every_block_size(rt: HostRuntime) {
    for room in 0..64 {
        let mut w = writer(&rt, 3, (4096, End::Fail));
        ok(&rt, write_all(b"first ", &mut w));
        push_each(&rt, room, &mut w);
        let want: &[u8] = b"first a b=7 c=102400618446744073709551615";
        assert_same(&rt, &w.taken(), &want, &room);
    }
}

/// Reads the data of a message, and dumps the message.
fn dump_by<W: Sink>(
    rt: &impl Runtime,
    message: &Message<'_>,
    (template, table): (&Template, &TableB),
    steps: &mut Steps,
    w: &mut W,
) -> Result<(), RunFault> {
    let reading = read_message(rt.alloc(), message, template, table, steps).expect(rt, "data");
    write_dump(rt.alloc(), message, &reading, steps, w)
}

/// Dumps a message. Returns the result and the number of steps.
fn dump_to<W: Sink>(rt: &impl Runtime, octets: &[u8], w: &mut W) -> (Result<(), RunFault>, u64) {
    let message = some(rt, message_in(octets));
    let (template, table) = (template_for(rt, &message), table_b(rt));
    let mut steps = Steps::new();
    let outcome = dump_by(rt, &message, (&template, &table), &mut steps, w);
    (outcome, steps.count())
}

/// Returns a writer that contains the dump of a message.
pub(crate) fn dumped(rt: &impl Runtime, octets: &[u8]) -> ScriptOut {
    let mut w = writer(rt, 4096, (65_536, End::Fail));
    assert_same(rt, &dump_to(rt, octets, &mut w).0, &Ok(()), &"dumped");
    w
}

/// Returns the lines of the header, followed by `lines`.
pub(crate) fn with_head(rt: &impl Runtime, lines: &str) -> String {
    ok(rt, format!(in rt.alloc(); "{HEAD}{lines}"))
}

/// Returns a message that contains 2,000 block numbers. The message's dump does not fit in a block
/// of 65,536 octets.
fn long_message(rt: &impl Runtime) -> Vec<u8> {
    let payload = joined(rt, &[b"\x07\xD0", &repeated(rt, b"\0", 1750)]);
    message_of(rt, 1, PLAIN, "101000 031002 001001", &payload)
}

/// Each row contains a message's name, the writer's capacity in octets, and the number of steps
/// until the dump is complete or the writer is full.
const STOPS: &[(&str, usize, u64)] = &[
    ("delayed_twice", 65_536, 7),
    ("delayed_twice", 200, 7),
    ("long", 65_536, 3345),
    ("long", 131_072, 4003),
    ("compressed", 65_536, 0),
];

/// Returns the number of steps taken to dump a message to a writer with space for `room` octets.
fn steps_to(rt: &impl Runtime, name: &str, room: usize) -> u64 {
    let message = match name.as_bytes() {
        b"delayed_twice" => delayed_twice(rt),
        b"compressed" => joined(rt, &[COMPRESSED]),
        _ => long_message(rt),
    };
    dump_to(rt, &message, &mut writer(rt, 131_072, (room, End::Fail))).1
}

/// Each step processes a descriptor, the end of a repetition, or the end of the template. A dump is
/// written in blocks, so dumping stops at the end of a block if the writer is full. Dumping
/// compressed data takes no steps.
#[test]
fn counts_steps_while_dumping(rt: HostRuntime) {
    for (name, room, steps) in STOPS {
        assert_same(&rt, &steps_to(&rt, name, *room), steps, &(*name, *room));
    }
}

fn assert_writes(rt: &impl Runtime, message: &[u8], count: usize) {
    let (octets, writes, torn) = (Cell::new(0), Cell::new(0), Cell::new(false));
    let mut w = Device::new(Watched {
        octets: &octets,
        writes: &writes,
        torn: &torn,
    });
    let (outcome, _) = dump_to(rt, message, &mut w);
    assert_same(rt, &outcome, &Ok(()), &count);
    assert_same(rt, &(writes.get(), torn.get()), &(count, false), &"writes");
}

/// Each write contains only complete lines of the dump.
#[test]
// rule: one-write-a-line
fn does_not_split_dump_lines_between_writes(rt: HostRuntime) {
    assert_writes(&rt, &delayed_twice(&rt), 1);
    assert_writes(&rt, &long_message(&rt), 2);
}
