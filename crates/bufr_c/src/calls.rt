//! The functions that C programs call.
ghost use Rattle.std.specs.Prelude.{◌≡◌, IfNone, IfSome, drop, pos};
ghost use Rattle.bufr_cli.specs.Prelude.{dump_piece, encode_pieces, ls_piece};
ghost use Rattle.bufr_text.specs.Prelude.{documents_of};
ghost use Rattle.bufr_c.specs.Commands.{form_by};
ghost use Rattle.bufr_c.specs.Leaving.{ByTables, CallStatus, Encodes, LeavesRest, Passes, WritesNone};
ghost use Rattle.bufr_c.specs.Rows.{LeavesRowsRest, PassesRows, SameBuffers, WritesNoRows, rows_at};

use crate::command::{Command, EventText, Run};
use crate::events::{write_events, write_text};
use crate::items::EventRows;
use crate::row_events::write_rows;
use crate::rows::{Counts, RowBuffers};
use crate::tables::read_tables;
use crate::texts::{
    CallInput, DONE, NO_ROOM, OUT_OF_MEMORY, Texts, UNKNOWN_FORM, form_by, rest_of,
};
use std::alloc::Global;

/// Returns the version of the library, encoded as 1,000,000 * major + 1,000 * minor + patch.
#[unsafe(no_mangle)]
pub extern "C" fn bufr_version() -> u32
    ensures { result ≡ 1000 }
{
    1_000
}

/// Lists the messages in a stream, starting at offset `texts.at`.
///
/// Writes a line for each accepted message to `lines`, and a fault line for each stray `BUFR` and
/// each rejected message to `faults`. Returns 0 at the end of the stream, 73 if memory runs out, or
/// 74 if the line for the next message or stray `BUFR` does not fit into its buffer.
#[unsafe(no_mangle)]
pub extern "C" fn bufr_list(
    alloc: Global,
    octets: &[u8],
    lines: &mut [u8],
    faults: &mut [u8],
    texts: &mut Texts,
) -> i32
    ensures texts { Passes ls_piece octets.now texts.old.at lines.new faults.new texts.new result }
    ensures rest { LeavesRest lines.old faults.old texts.new lines.new faults.new }
    ensures reserved { texts.new.reserved ≡ 0 }
{
    let run = Run {
        alloc,
        command: Command::List,
    };
    write_events(&run, octets, lines, faults, texts)
}

/// Dumps the messages in a stream, starting at offset `texts.at`.
///
/// Writes the dump of each accepted message to `text`, and a fault line for each stray `BUFR` and
/// each rejected message to `faults`. Returns 0 at the end of the stream, 73 if memory runs out, or
/// 74 if the dump or fault line for the next message or stray `BUFR` does not fit into its buffer.
/// Returns the fault number if Table B is invalid, or 100 plus the fault number if Table D is
/// invalid.
#[tactic(auto, using(crate::proofs::EventLemmas::unread, crate::proofs::EventLemmas::dump_read, crate::proofs::EventLemmas::ran_status))]
#[unsafe(no_mangle)]
pub extern "C" fn bufr_dump(
    alloc: Global,
    input: &CallInput<'_>,
    text: &mut [u8],
    faults: &mut [u8],
    texts: &mut Texts,
) -> i32
    ensures texts { ByTables input.now.table_b.now input.now.table_d.now result (λ b d.
        Passes (dump_piece b d) input.now.octets.now texts.old.at text.new faults.new texts.new
        result) (WritesNone texts.old.at text.old faults.old texts.new text.new faults.new) }
    ensures rest { LeavesRest text.old faults.old texts.new text.new faults.new }
    ensures reserved { texts.new.reserved ≡ 0 }
    ensures status { CallStatus input.now.table_b.now input.now.table_d.now result }
{
    *texts = Texts::at(texts.at);
    let tables = match read_tables(alloc, input) {
        Ok(tables) => tables,
        Err(status) => return status,
    };
    let run = Run {
        alloc,
        command: Command::Dump(&tables.b, &tables.d),
    };
    write_events(&run, input.octets, text, faults, texts)
}

/// Encodes documents as messages. Encoding starts at offset `texts.at` and stops at the first
/// invalid document.
///
/// Writes the messages to `messages`, and the fault line for the rejected document, if any, to
/// `faults`. Returns 0 if all output fits into the two buffers. If either buffer is too small,
/// returns 74, writes nothing, and reports the required space in `texts`. Returns 75 if
/// `input.form` is not a valid form number. If a table is invalid or memory runs out, returns the
/// same status as [`bufr_dump`].
#[tactic(auto, using(crate::proofs::EventLemmas::encode_unread, crate::proofs::EventLemmas::encode_read, crate::proofs::EventLemmas::known_status, crate::proofs::EventLemmas::known_form, crate::proofs::EventLemmas::unknown_form, crate::proofs::EventLemmas::ran_status, crate::proofs::EventLemmas::memory_status, crate::proofs::EventLemmas::stopped_73))]
#[unsafe(no_mangle)]
pub extern "C" fn bufr_encode(
    alloc: Global,
    input: &CallInput<'_>,
    messages: &mut [u8],
    faults: &mut [u8],
    texts: &mut Texts,
) -> i32
    ensures texts { IfSome (form_by input.now.form) (λ form.
        ByTables input.now.table_b.now input.now.table_d.now result (λ b d.
        Encodes (encode_pieces form b d (documents_of (drop texts.old.at input.now.octets.now)))
        input.now.octets.now texts.old.at messages.old faults.old texts.new messages.new faults.new
        result) (WritesNone texts.old.at messages.old faults.old texts.new messages.new
        faults.new)) }
    ensures status { IfSome (form_by input.now.form) (λ _.
        CallStatus input.now.table_b.now input.now.table_d.now result) }
    ensures rest { LeavesRest messages.old faults.old texts.new messages.new faults.new }
    ensures reserved { texts.new.reserved ≡ 0 }
    ensures form { IfNone (form_by input.now.form) ((result ≡ pos 75)
        × WritesNone texts.old.at messages.old faults.old texts.new messages.new faults.new) }
{
    *texts = Texts::at(texts.at);
    let Some(form) = form_by(input.form) else {
        return UNKNOWN_FORM;
    };
    let tables = match read_tables(alloc, input) {
        Ok(tables) => tables,
        Err(status) => return status,
    };
    let octets = rest_of(input.octets, texts.at);
    let mut text = EventText::new(alloc);
    let Ok(tally) = text.set_encoded(octets, &tables, form) else {
        return OUT_OF_MEMORY;
    };
    if !write_text(&text, messages, faults, texts) {
        return NO_ROOM;
    }
    texts.at = input.octets.len();
    texts.accepted = tally.accepted;
    texts.refused = tally.refused;
    DONE
}

/// Reads the items of the messages in a stream, starting at offset `counts.at`.
///
/// Writes a row for each requested item to `rows.items`, and a row for each message or stray `BUFR`
/// to `rows.messages`. Strings, and numbers that do not fit in 64 bits, are written to
/// `rows.texts`. Returns 0 at the end of the stream, 73 if memory runs out, or 74 if the rows for
/// the next message or stray `BUFR` do not fit into the buffers. If a table is invalid, returns the
/// same status as [`bufr_dump`].
#[tactic(auto, using(crate::proofs::RowLemmas::unread_rows, crate::proofs::RowLemmas::buffers_here, crate::proofs::RowLemmas::items_read, crate::proofs::EventLemmas::ran_status))]
#[unsafe(no_mangle)]
pub extern "C" fn bufr_items(
    alloc: Global,
    input: &CallInput<'_>,
    rows: &mut RowBuffers<'_>,
    counts: &mut Counts,
) -> i32
    ensures buffers { SameBuffers rows.old rows.new }
    ensures rows { ByTables input.now.table_b.now input.now.table_d.now result (λ b d.
        PassesRows b d input.now.wanted.now input.now.octets.now counts.old.at (rows_at rows.new)
        counts.new result)
        (WritesNoRows counts.old.at (rows_at rows.old) counts.new (rows_at rows.new)) }
    ensures rest { LeavesRowsRest (rows_at rows.old) counts.new (rows_at rows.new) }
    ensures reserved { counts.new.reserved ≡ 0 }
    ensures status { CallStatus input.now.table_b.now input.now.table_d.now result }
{
    *counts = Counts::at(counts.at);
    let tables = match read_tables(alloc, input) {
        Ok(tables) => tables,
        Err(status) => return status,
    };
    let mut event = EventRows::new(alloc, &tables, input.wanted);
    write_rows(&mut event, input.octets, rows, counts)
}
