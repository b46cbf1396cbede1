//! Laws about round trips: `encode` accepts the output of `dump`, and dumping the encoded messages
//! gives the same text again. [`dump_encode_dump`] performs a complete round trip in memory.
ghost use Rattle.std.specs.List.{AllByRecursion, concat};
ghost use Rattle.std.specs.Prelude.{◌≡◌, List, ℕ, [], Option, Some, IfOk};
ghost use Rattle.bufr_cli.specs.Prelude.{IsDumpedInOneSpelling, RoundTrips, IsWholeRound, IsCanonicalMessage, Written, accepted_messages, rebuilt, RunsInMemory, written_by, dump_pieces, form_pieces, holding, WritesWhole, document_pieces, dump_piece, event_pieces};
ghost use Rattle.bufr_tables.specs.Prelude.{Record, Row, AreRows, Sequence};
ghost use Rattle.bufr_text.specs.Prelude.{IsOctet};
ghost use Rattle.bufr_text.specs.declared.encode.Form.{Form};
ghost use Rattle.bufr_text.specs.declared.encode.Form.TheVariants.{AsWritten};
ghost use Rattle.bufr_bits.specs.Prelude.{taken_of};

use crate::dump::run_dump;
use crate::encode::run_encode;
use crate::outcome::Tally;
use bufr_bits::{Device, End, ScriptOut};
use bufr_frame::RunFault;
use bufr_tables::{TableB, TableD};
use std::alloc::Global;

/// Law: dumps round-trip.
///
/// For any stream of octets and any valid tables, `encode` accepts the entire output of `dump`.
/// Reading an encoded message gives the same result as reading the original message. No encoded
/// message is longer than the original message, except that an edition 3 message can grow by up to
/// two octets if its section 3 or section 4 has an odd length. Dumping the encoded messages gives
/// the same text, octet for octet.
///
/// If all accepted messages are canonical, `encode` rebuilds them from the dump, octet for octet.
/// In a canonical message, all reserved bits and octets are zero, sections 3 and 4 are as short as
/// possible (in edition 3, their lengths must also be even), and no redefined reference value is
/// stored as minus zero. Compressed items are packed as `encode` would pack them. Any padding in
/// section 3 and any unused bits at the end of section 4 are zero.
// rule: encode-may-grow
pub fn dumped_streams_are_built_again()
    ensures { (records : List Record) (table_b : List Row) (table_d : List Sequence)
        (s : List ℕ) → AreRows records table_b → AllByRecursion IsOctet s
        → RoundTrips table_b table_d s × (AllByRecursion (IsCanonicalMessage table_b table_d)
        (accepted_messages table_b table_d s)
        → rebuilt table_b table_d s ≡ concat (accepted_messages table_b table_d s)) }
{}

/// Law: after `dump` and `encode`, a second `dump` writes the same text as the first.
///
/// Suppose that `dump`, `encode` and a second `dump` run to completion with the same tables, and
/// that each run after the first reads the output of the previous one. Then the two dumps are
/// identical, and only the first run can have rejected anything. Reading an encoded message gives
/// the same result as reading the original message. If all the dumped messages are canonical, the
/// encoded messages are identical to them.
pub fn runs_close_the_round()
    ensures { (records : List Record) (table_b : List Row) (table_d : List Sequence)
        (stream : List ℕ) (text messages again : Written) (e e' : Option (List ℕ))
        → AreRows records table_b → AllByRecursion IsOctet stream
        → WritesWhole (event_pieces (dump_piece table_b table_d)) (holding (Some []) e)
        (holding (Some text.output) e') text.tally stream
        → WritesWhole (document_pieces AsWritten table_b table_d) (holding (Some []) (Some []))
        (holding (Some messages.output) (Some messages.errors)) messages.tally text.output
        → WritesWhole (event_pieces (dump_piece table_b table_d)) (holding (Some []) (Some []))
        (holding (Some again.output) (Some again.errors)) again.tally messages.output
        → IsWholeRound table_b table_d stream text messages again }
{}

/// Law: encoding a text and dumping the messages gives the same text in its normal spelling.
///
/// For any text, any form and any valid tables, `dump` reports no faults in the output of `encode`.
/// The dump consists of the documents before the first rejected document or invalid line, in their
/// normal spelling (the one that `dump` uses). Encoding the dump gives the same messages again,
/// octet for octet.
pub fn encoded_texts_are_dumped_in_one_spelling()
    ensures { (form : Form) (records : List Record) (table_b : List Row) (table_d : List Sequence)
        (text : List ℕ) → AreRows records table_b
        → IsDumpedInOneSpelling form table_b table_d text }
{}

/// The output and the counts of an in-memory run.
#[derive(Drop)]
pub struct RunInMemory {
    /// The text or the messages that the run wrote.
    pub output: ScriptOut,
    /// The fault lines.
    pub errors: ScriptOut,
    /// The number of accepted messages or documents, and the number of fault lines.
    pub tally: Tally,
}

/// The maximum number of octets that an in-memory writer accepts in one write.
const STEP: usize = 65_536;

fn dump_octets(
    alloc: Global,
    stream: &[u8],
    room: usize,
    table_b: &TableB,
    table_d: &TableD,
) -> Result<RunInMemory, RunFault>
    ensures { IfOk result
        (λ ran. RunsInMemory ran (dump_pieces table_b.now table_d.now stream.now)) }
{
    let mut output = ScriptOut::new(alloc, room, STEP, End::Fail)?;
    let mut errors = ScriptOut::new(alloc, room, STEP, End::Fail)?;
    let tally = run_dump(
        alloc,
        &mut Device::new(stream),
        &mut output,
        &mut errors,
        table_b,
        table_d,
    )?;
    Ok(RunInMemory {
        output,
        errors,
        tally,
    })
}

/// The dump of a stream, the messages encoded from that dump, and the dump of the encoded messages.
#[derive(Drop)]
pub struct Round {
    /// The dump of the stream.
    pub text: RunInMemory,
    /// The messages that were encoded from the dump.
    pub messages: RunInMemory,
    /// The dump of the encoded messages.
    pub again: RunInMemory,
}

/// Dumps the messages in a stream, encodes the dump, and dumps the encoded messages.
///
/// Each in-memory writer has space for `room` octets.
///
/// ```
/// let table_b = TableB::read(rt.alloc(), b"fxy,name,unit,scale,reference,width\n")?;
/// let table_d = TableD::read(rt.alloc(), b"fxy,member\n")?;
/// let round = dump_encode_dump(rt.alloc(), b"BUFR", 4096, &table_b, &table_d)?;
/// assert_eq!(rt; round.again.output.taken(), round.text.output.taken());
/// assert_eq!(rt; round.text.tally.refused, 1);
/// ```
///
/// # Errors
///
/// [`RunFault::Write`] if `room` is too small for one of the outputs, and [`RunFault::Memory`] if
/// memory runs out.
pub fn dump_encode_dump(
    alloc: Global,
    stream: &[u8],
    room: usize,
    table_b: &TableB,
    table_d: &TableD,
) -> Result<Round, RunFault>
    ensures dump { IfOk result
        (λ round. RunsInMemory round.text (dump_pieces table_b.now table_d.now stream.now)) }
    ensures encode { IfOk result (λ round.
        RunsInMemory round.messages (form_pieces AsWritten table_b.now table_d.now
        (taken_of round.text.output))) }
    ensures dump_again { IfOk result (λ round. RunsInMemory round.again
        (dump_pieces table_b.now table_d.now (taken_of round.messages.output))) }
    // If the rows of Table B were read from records, `encode` rejects nothing, the two dumps are
    // the same text, and reading an encoded message gives the same result as reading the original
    // message.
    ensures round { (records : List Record) → AreRows records table_b.now
        → IfOk result (λ round. IsWholeRound table_b.now table_d.now stream.now
        (written_by round.text) (written_by round.messages) (written_by round.again)) }
{
    let text = dump_octets(alloc, stream, room, table_b, table_d)?;
    let mut output = ScriptOut::new(alloc, room, STEP, End::Fail)?;
    let mut errors = ScriptOut::new(alloc, room, STEP, End::Fail)?;
    let mut spelled = Device::new(text.output.taken());
    let tally = run_encode(
        alloc,
        &mut spelled,
        &mut output,
        &mut errors,
        table_b,
        table_d,
    )?;
    let messages = RunInMemory {
        output,
        errors,
        tally,
    };
    let again = dump_octets(alloc, messages.output.taken(), room, table_b, table_d)?;
    Ok(Round {
        text,
        messages,
        again,
    })
}
