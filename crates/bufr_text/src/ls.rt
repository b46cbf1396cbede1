//! The line that `bufr ls` prints for a message.
ghost use Rattle.std.specs.Prelude.{◌≡◌};
ghost use Rattle.bufr_text.specs.Prelude.{Pushes, Writes, CountsWrites, ls_line, source_texts, time_texts};
ghost use Rattle.std.specs.List.{concat};

use crate::line_writer::LineWriter;
use crate::numbers::pair;
use bufr_bits::Sink;
use bufr_frame::{Message, RunFault};

/// The size, in octets, of the block in which the line is assembled. The line is at most 251 octets
/// long.
const LINE: usize = 256;

/// Pushes the offset, length, edition, originating centre, update number, data category and table
/// versions of a message.
#[inline(always)]
fn push_source<W: Sink>(line: &mut LineWriter<'_, '_, W>, offset: u64, message: &Message<'_>)
    ensures { Pushes line.old
        (concat (source_texts offset message.now.size message.now.head)) line.new }
{
    let head = message.head();
    line.push_named(b"offset=", offset);
    line.push_named(b" length=", message.length());
    line.push_named(b" edition=", u64::from(head.edition));
    line.push_named(b" centre=", u64::from(head.centre));
    line.push_named(b"/", u64::from(head.subcentre));
    line.push_named(b" update=", u64::from(head.update));
    line.push_named(b" category=", u64::from(head.category));
    line.push_named(b"/", u64::from(head.subcategory));
    line.push_named(b"/", u64::from(head.local_subcategory));
    line.push_named(b" tables=", u64::from(head.master));
    line.push_named(b"/", u64::from(head.master_version));
    line.push_named(b"/", u64::from(head.local_version));
}

/// Pushes the time from section 1. The text is pushed in one piece unless a value has more digits
/// than usual.
#[inline(always)]
// rule: listing-time
fn push_time<W: Sink>(line: &mut LineWriter<'_, '_, W>, message: &Message<'_>)
    ensures { Pushes line.old (concat (time_texts message.now.head)) line.new }
{
    let head = message.head();
    if head.year > 9_999
        || head.month > 99
        || head.day > 99
        || head.hour > 99
        || head.minute > 99
        || head.second > 99
    {
        line.push(b" time=");
        line.push_padded(u64::from(head.year), 4);
        line.push(b"-");
        line.push_padded(u64::from(head.month), 2);
        line.push(b"-");
        line.push_padded(u64::from(head.day), 2);
        line.push(b"T");
        line.push_padded(u64::from(head.hour), 2);
        line.push(b":");
        line.push_padded(u64::from(head.minute), 2);
        line.push(b":");
        line.push_padded(u64::from(head.second), 2);
        return;
    }
    let (y1, y2) = pair(u64::from(head.year / 100));
    let (y3, y4) = pair(u64::from(head.year % 100));
    let (m1, m2) = pair(u64::from(head.month));
    let (d1, d2) = pair(u64::from(head.day));
    let (h1, h2) = pair(u64::from(head.hour));
    let (n1, n2) = pair(u64::from(head.minute));
    let (s1, s2) = pair(u64::from(head.second));
    line.push_array([
        b' ', b't', b'i', b'm', b'e', b'=', y1, y2, y3, y4, b'-', m1, m2, b'-', d1, d2, b'T', h1,
        h2, b':', n1, n2, b':', s1, s2,
    ]);
}

/// Writes the line that `bufr ls` prints for a message. `offset` is the position of the message in
/// the stream, in octets counted from 0. This function does not allocate.
///
/// ```
/// write_ls(21, &message, &mut w)?; // offset=21 length=48 edition=4 ..
/// ```
///
/// # Errors
///
/// [`RunFault::Write`] if the writer fails or accepts nothing. In that case, the writer has
/// accepted a prefix of the line.
// rule: listing-line, listing-offset-and-length, listing-flags
pub fn write_ls<W: Sink>(offset: u64, message: &Message<'_>, w: &mut W) -> Result<(), RunFault>
    ensures writes { Writes (W.taken w.old) (W.taken w.new) (ls_line offset message.now) result }
    ensures counts { CountsWrites (W.failures w.old) (W.failures w.new) (W.empty_writes w.old)
        (W.empty_writes w.new) result }
    ensures flushes { W.flushes w.new ≡ W.flushes w.old }
{
    let mut block = [0; LINE];
    let mut line = LineWriter::new(&mut block, w);
    push_source(&mut line, offset, message);
    push_time(&mut line, message);
    line.push_named(b" subsets=", u64::from(message.subsets()));
    let mut flags = *b" observed=0 compressed=0 optional=0";
    flags[10] += u8::from(message.observed());
    flags[23] += u8::from(message.compressed());
    flags[34] += u8::from(message.section2().is_some());
    line.push_array(flags);
    line.push_named(b" descriptors=", message.descriptors().len() as u64);
    line.push(b"\n");
    line.flush_buf();
    let outcome = line.status();
    let _ = line.into_sink();
    outcome
}
