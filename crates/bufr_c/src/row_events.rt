//! Finds the messages and stray `BUFR` words in an in-memory stream, and writes their rows into the
//! caller's buffers.
ghost use Rattle.std.specs.Prelude.{◌≡◌, ◌≤◌, ◌+◌, ◌++◌, length, take, drop, codes, OnOk, IfOk};
ghost use Rattle.bufr_c.specs.Leaving.{IsRunStatus};
ghost use Rattle.bufr_c.specs.Rows.{LeavesRowsRest, PassesRows, PutsRows, SameBuffers, rows_at, rows_in};

use crate::events::put;
use crate::items::EventRows;
use crate::rows::{Counts, RowBuffers};
use crate::texts::{DONE, NO_ROOM, OUT_OF_MEMORY};
use memchr::memmem;

/// Appends the rows for a message or stray `BUFR` to the caller's buffers, and returns `true`. If
/// the buffers are too small, reports the required space in `counts` and returns `false` instead.
fn put_rows(event: &EventRows<'_>, rows: &mut RowBuffers<'_>, counts: &mut Counts) -> bool
    requires items { counts.old.items ≤ length rows.old.items.now }
    requires texts { counts.old.octets ≤ length rows.old.texts.now }
    requires messages { counts.old.messages ≤ length rows.old.messages.now }
    ensures buffers { SameBuffers rows.old rows.new }
    ensures puts { PutsRows (rows_in event.now.out event.now.row) counts.old (rows_at rows.old)
        counts.new (rows_at rows.new) result }
{
    let event_items = event.out.items.as_slice();
    let event_octets = event.out.octets.as_slice();
    if event_items.len() > rows.items.len() - counts.items
        || event_octets.len() > rows.texts.len() - counts.octets
        || counts.messages == rows.messages.len()
    {
        counts.items_needed = event_items.len();
        counts.octets_needed = event_octets.len();
        counts.messages_needed = 1;
        return false;
    }
    counts.items = put(event_items, counts.items, rows.items);
    counts.octets = put(event_octets, counts.octets, rows.texts);
    counts.messages = put(&[event.row], counts.messages, rows.messages);
    true
}

/// Writes the rows for the messages and stray `BUFR` words in a stream, starting at offset
/// `counts.at`. Stops if the next rows do not fit into the buffers. Returns the status of the call.
#[tactic(auto, using(crate::proofs::RowLemmas::rows_stopped))]
pub(crate) fn write_rows(
    event: &mut EventRows<'_>,
    octets: &[u8],
    rows: &mut RowBuffers<'_>,
    counts: &mut Counts,
) -> i32
    requires items { counts.old.items ≡ 0 }
    requires octets { counts.old.octets ≡ 0 }
    requires messages { counts.old.messages ≡ 0 }
    requires reserved { counts.old.reserved ≡ 0 }
    ensures buffers { SameBuffers rows.old rows.new }
    ensures passes { PassesRows event.old.templates.table_b event.old.templates.table_d
        event.old.wanted.now octets.now counts.old.at (rows_at rows.new) counts.new result }
    ensures rest { LeavesRowsRest (rows_at rows.old) counts.new (rows_at rows.new) }
    ensures reserved { counts.new.reserved ≡ 0 }
    ensures status { IsRunStatus result }
{
    let word = memmem::Finder::new(b"BUFR");
    while counts.at < octets.len() {
        let Some(place) = word.find(&octets[counts.at..]) else {
            counts.at = octets.len();
            return DONE;
        };
        let begin = counts.at + place;
        let Ok(moves) = event.set_event(begin as u64, &octets[begin..], counts) else {
            return OUT_OF_MEMORY;
        };
        if !put_rows(event, rows, counts) {
            return NO_ROOM;
        }
        counts.at = begin + moves;
    }
    DONE
}
