//! Finds the messages and stray `BUFR` words in an in-memory stream, and writes their output and
//! fault lines into the caller's buffers.
ghost use Rattle.std.specs.Prelude.{◌≡◌, ◌≤◌, ◌+◌, ◌++◌, length, take, drop, codes, OnOk, IfOk};
ghost use Rattle.bufr_frame.specs.Prelude.{StartsWithBufr};
ghost use Rattle.bufr_c.specs.Commands.{piece_by};
ghost use Rattle.bufr_c.specs.Leaving.{IsCandidate, IsRunStatus, LeavesRest, Passes, PutsText, WritesEvent};

use crate::command::{Command, EventText, Run};
use crate::texts::{DONE, NO_ROOM, OUT_OF_MEMORY, Texts};
use bufr_frame::{Cause, RunFault};
use memchr::memmem;

/// A message, or a stray `BUFR` (one that does not start a message).
#[derive(Clone, Copy)]
pub(crate) enum Candidate {
    /// A stray `BUFR`, and the reason why it does not start a message.
    Stray(Cause),
    /// A message, with its length in octets.
    Frame(usize),
}

/// Determines whether the `BUFR` at the start of `m` begins a message or is stray. The checks run
/// in order of fault number, and the first one to fail determines the fault.
pub(crate) fn classify(m: &[u8]) -> Candidate
    requires { StartsWithBufr m.now }
    ensures { IsCandidate m.now result }
{
    if m.len() < 8 {
        return Candidate::Stray(Cause::Cut);
    }
    let len = 65_536 * (m[4] as usize) + 256 * (m[5] as usize) + m[6] as usize;
    if m.len() < len {
        return Candidate::Stray(Cause::Cut);
    }
    if len < 12 {
        return Candidate::Stray(Cause::ShortLength);
    }
    if !m[len - 4..].starts_with(b"7777") {
        return Candidate::Stray(Cause::NoEnd);
    }
    Candidate::Frame(len)
}

/// Sets `text` to the output and the fault line for the message or stray `BUFR` that `m` begins
/// with. Returns the number of octets to skip before searching for the next `BUFR`.
fn set_event(
    command: &Command<'_>,
    offset: u64,
    m: &[u8],
    text: &mut EventText,
) -> Result<usize, RunFault>
    requires { StartsWithBufr m.now }
    ensures { IfOk result (λ moves. WritesEvent (piece_by command.now) offset m.now moves
        text.new) }
{
    match classify(m) {
        Candidate::Stray(cause) => {
            text.set_stray(offset, cause)?;
            Ok(4)
        }
        Candidate::Frame(len) => {
            text.set_message(command, offset, &m[..len])?;
            Ok(len)
        }
    }
}

/// Copies `values` into `to`, starting at index `at`. Returns the index just past the last copied
/// value.
pub(crate) fn put<T: Copy>(values: &[T], at: usize, to: &mut [T]) -> usize
    requires { at + length values.now ≤ length to.old }
    ensures end { result ≡ at + length values.now }
    ensures values { take result to.new ≡ take at to.old ++ values.now }
    ensures room { length to.new ≡ length to.old }
    ensures rest { drop result to.new ≡ drop result to.old }
{
    let end = at + values.len();
    to[at..end].copy_from_slice(values);
    end
}

/// Appends the output and the fault line for a message or stray `BUFR` to the caller's buffers, and
/// returns `true`. If the buffers are too small, reports the required space in `texts` and returns
/// `false` instead.
pub(crate) fn write_text(
    text: &EventText,
    output: &mut [u8],
    errors: &mut [u8],
    texts: &mut Texts,
) -> bool
    requires output { texts.old.output_length ≤ length output.old }
    requires errors { texts.old.errors_length ≤ length errors.old }
    ensures { PutsText text.now texts.old output.old errors.old texts.new output.new errors.new
        result }
{
    let output_text = text.output.octets.as_slice();
    let errors_text = text.errors.octets.as_slice();
    if output_text.len() > output.len() - texts.output_length
        || errors_text.len() > errors.len() - texts.errors_length
    {
        texts.output_needed = output_text.len();
        texts.errors_needed = errors_text.len();
        return false;
    }
    texts.output_length = put(output_text, texts.output_length, output);
    texts.errors_length = put(errors_text, texts.errors_length, errors);
    true
}

/// Writes the output and the fault lines for the messages and stray `BUFR` words in a stream,
/// starting at offset `texts.at`. Stops if the next output or fault line does not fit into its
/// buffer. Returns the status of the call.
#[tactic(auto, using(crate::proofs::EventLemmas::so_far_stopped))]
pub(crate) fn write_events(
    run: &Run<'_>,
    octets: &[u8],
    output: &mut [u8],
    errors: &mut [u8],
    texts: &mut Texts,
) -> i32
    ensures texts { Passes (piece_by run.now.command) octets.now texts.old.at output.new errors.new
        texts.new result }
    ensures rest { LeavesRest output.old errors.old texts.new output.new errors.new }
    ensures reserved { texts.new.reserved ≡ 0 }
    ensures status { IsRunStatus result }
{
    *texts = Texts::at(texts.at);
    let word = memmem::Finder::new(b"BUFR");
    let mut text = EventText::new(run.alloc);
    while texts.at < octets.len() {
        let Some(place) = word.find(&octets[texts.at..]) else {
            texts.at = octets.len();
            return DONE;
        };
        let begin = texts.at + place;
        let Ok(moves) = set_event(&run.command, begin as u64, &octets[begin..], &mut text) else {
            return OUT_OF_MEMORY;
        };
        if !write_text(&text, output, errors, texts) {
            return NO_ROOM;
        }
        texts.accepted += u64::from(text.accepted);
        texts.refused += u64::from(!text.accepted);
        texts.at = begin + moves;
    }
    DONE
}
