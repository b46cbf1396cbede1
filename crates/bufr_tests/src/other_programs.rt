//! Small programs that use the crates as libraries. One program lists messages, one reads the
//! values of an element, and one builds a message.

use crate::messages::{LOCAL_USE, ONE_BLOCK_NUMBER, STRAY, line_of_one, text_of_one};
use crate::runs::writer;
use crate::support::{
    Runtime, assert_same, joined, ok, parsed, some, table_b, table_d, template_for,
};
use bufr_bits::{End, ScriptIn, ScriptOut};
use bufr_frame::{Event, Finder, Message};
use bufr_tables::Fxy;
use bufr_text::{DumpReader, encode_document, write_ls};
use bufr_walk::{ItemView, Steps, Value, Visitor, read_message};
use std::alloc::AllocError;

/// Writes the line that `ls` prints for a message. The finder never returns a frame that is shorter
/// than 12 octets.
fn list_message(rt: &impl Runtime, offset: u64, octets: &[u8], output: &mut ScriptOut) {
    assert!(rt; octets.len() >= 12);
    if let Ok(message) = Message::parse(octets) {
        ok(rt, write_ls(offset, &message, output));
    }
}

/// Lists the messages in a stream. Each event before the end of the stream consumes at least one
/// octet, so a stream has no more events than octets.
fn list(rt: &impl Runtime, stream: &[u8], output: &mut ScriptOut) {
    let mut input = ScriptIn::new(stream, 4096, None);
    let mut finder = Finder::new(rt.alloc());
    for _ in 0..stream.len() {
        match ok(rt, finder.next(&mut input)) {
            Event::Frame(offset, octets) => list_message(rt, offset, octets, output),
            Event::Stray(_, _) => {}
            Event::Done => break,
        }
    }
}

#[test]
fn lists_messages_in_stream(rt: HostRuntime) {
    let parts = [b"heading", STRAY, ONE_BLOCK_NUMBER, ONE_BLOCK_NUMBER, STRAY];
    let mut output = writer(&rt, 4096, (4096, End::Fail));
    list(&rt, &joined(&rt, &parts), &mut output);
    let (first, second) = (line_of_one(&rt, "15"), line_of_one(&rt, "63"));
    let want = joined(&rt, &[first.as_bytes(), second.as_bytes()]);
    assert_same(&rt, &output.taken(), &want.as_slice(), &"lines");
}

/// A visitor that collects the numeric values of one element.
#[derive(Drop)]
struct Numbers {
    fxy: Fxy,
    found: Vec<i128>,
}

impl Visitor for Numbers {
    type Fault = AllocError;

    ghost sees = { λ s call r t. Unit {0} };

    fn subset(&mut self, _number: u16) -> Result<(), AllocError> {
        Ok(())
    }

    fn item(&mut self, item: &ItemView<'_>) -> Result<(), AllocError> {
        match item.value {
            Value::Number(number, _) if item.fxy == self.fxy => self.found.push(number)?,
            _ => {}
        }
        Ok(())
    }
}

/// Reads a message, and passes its items to a visitor.
fn show(rt: &impl Runtime, octets: &[u8], numbers: &mut Numbers) {
    let message = parsed(rt, octets);
    let (template, b) = (template_for(rt, &message), table_b(rt));
    let mut steps = Steps::new();
    let answer = read_message(rt.alloc(), &message, &template, &b, &mut steps);
    let reading = ok(rt, answer);
    ok(rt, reading.show(rt.alloc(), numbers, &mut steps));
}

#[test]
fn reads_one_element_from_every_message(rt: HostRuntime) {
    let fxy = some(&rt, Fxy::read(b"001001"));
    let found = Vec::new(rt.alloc());
    let mut numbers = Numbers { fxy, found };
    for octets in [ONE_BLOCK_NUMBER, LOCAL_USE] {
        show(&rt, octets, &mut numbers);
    }
    let found = numbers.found.as_slice();
    assert_same(&rt, &found, &[10, 10].as_slice(), &"001001");
}

/// Reads the first document from `text`, encodes it, and returns the octets of the message.
fn message_of(rt: &impl Runtime, text: &[u8]) -> Vec<u8> {
    let mut input = ScriptIn::new(text, 4096, None);
    let mut reader = DumpReader::new(rt.alloc());
    let document = some(rt, ok(rt, reader.next_document(&mut input)));
    let (b, d) = (table_b(rt), table_d(rt));
    let answer = encode_document(rt.alloc(), &document, &b, &d, &mut Steps::new());
    ok(rt, answer)
}

#[test]
fn builds_message_from_text(rt: HostRuntime) {
    let octets = message_of(&rt, text_of_one(&rt).as_bytes());
    assert_same(&rt, &octets.as_slice(), &ONE_BLOCK_NUMBER, &"001001");
}
