//! A writer that buffers lines in a block of memory and writes them to a sink.
ghost use Rattle.std.specs.Prelude.{List, ℕ, ◌≡◌, ◌≤◌, ◌+◌, ◌++◌, [], Ok, length, take, decimal, replicate, ◌<◌, Some, drop, codes, true};
ghost use Rattle.bufr_bits.specs.Prelude.{counted, decimal_text_of};
ghost use Rattle.bufr_tables.specs.Prelude.{row_of_entry, row_comment, row_line_start};
ghost use Rattle.bufr_text.specs.Prelude.{Pushes, PushesSomehow, Writes, CountsWrites, zero_padded, Puts, escaped, hex_digit, hex_text, is_unescaped, quoted};

use crate::line::is_unescaped;
use crate::numbers::{fill_missing_line, fill_named, fill_number_line, put};
use crate::slices::suffix;
use bufr_bits::{Failed, Sink};
use bufr_frame::RunFault;
use bufr_tables::Entry;
use itoa::Buffer;
use std::marker::Model;

/// The number of buffered octets that triggers a write. If at least this many octets are buffered
/// at the end of a line, the buffered octets are written to the sink.
pub(crate) const PAGE: usize = 65_536;

/// A writer that buffers lines in a block of memory and writes them to a sink.
///
/// The block can be of any size. If the pushed octets do not fit in the block, the writer first
/// writes the buffered octets and then the pushed octets. [`LineWriter::status`] reports the first
/// fault. After a fault, nothing more is written.
#[derive(Drop)]
pub struct LineWriter<'b, 'w, W: Sink> {
    octets: &'b mut [u8],
    len: usize,
    w: &'w mut W,
    status: Result<(), RunFault>,
}

impl<'b, 'w, W: Sink> Model for LineWriter<'b, 'w, W> {
    ghost use Rattle.std.specs.Prelude.{◌≤◌, length, take};
    ghost use Rattle.bufr_text.specs.Writing.{LineModel};

    ghost Value = { LineModel };

    ghost view = { λ a. record {
      taken = W.taken a.w.now;
      failures = W.failures a.w.now;
      empty_writes = W.empty_writes a.w.now;
      whole_writes = W.whole_writes a.w.now;
      flushes = W.flushes a.w.now;
      held = take a.len a.octets.now;
      size = length a.octets.now;
      status = a.status;
      sink = a.w.ghost_name;
    } };

    ghost invariant = { λ a. a.len ≤ length a.octets.now };
}

/// Writes all of `octets` to `w`.
///
/// # Errors
///
/// [`RunFault::Write`] if a write fails or accepts no octets. In that case, a prefix of `octets`
/// has been written.
#[tactic(auto, using(crate::proofs::PushLemmas::write_steps))]
// rule: one-write-a-line
pub fn write_all<W: Sink>(octets: &[u8], w: &mut W) -> Result<(), RunFault>
    ensures writes { Writes (W.taken w.old) (W.taken w.new) octets.now result }
    ensures counts { CountsWrites (W.failures w.old) (W.failures w.new) (W.empty_writes w.old)
        (W.empty_writes w.new) result }
    // Each write is passed all the remaining octets, so at most one write accepts all of its
    // octets.
    ensures whole { W.whole_writes w.new ≤ counted (W.whole_writes w.old) 1 }
    ensures flushes { W.flushes w.new ≡ W.flushes w.old }
{
    let mut rest = octets;
    while !rest.is_empty() {
        match w.write(rest) {
            Ok(0) => return Err(RunFault::Write),
            Ok(n) => rest = &rest[n..],
            Err(_) => return Err(RunFault::Write),
        }
    }
    Ok(())
}

/// Writes the octets before index `at` to `w`.
fn write_prefix<W: Sink>(octets: &mut [u8], at: usize, w: &mut W) -> Result<(), RunFault>
    requires { at ≤ length octets.old }
    ensures writes { Writes (W.taken w.old) (W.taken w.new) (take at octets.old) result }
    ensures counts { CountsWrites (W.failures w.old) (W.failures w.new) (W.empty_writes w.old)
        (W.empty_writes w.new) result }
    ensures whole { W.whole_writes w.new ≤ counted (W.whole_writes w.old) 1 }
    ensures flushes { W.flushes w.new ≡ W.flushes w.old }
{
    write_all(&octets[..at], w)
}

/// Returns the upper-case hexadecimal digit for a number below 16.
fn hex_digit(n: u8) -> u8
    requires { n < 16 }
    ensures { result ≡ hex_digit n }
{
    if n < 10 { b'0' + n } else { b'A' - 10 + n }
}

/// Copies octets to `free`, stopping if `free` is full or the next octet must be escaped. Returns
/// the number of octets copied.
#[tactic(auto, using(crate::proofs::NumberLemmas::run_steps))]
#[inline(always)]
fn fill_run(octets: &[u8], free: &mut [u8]) -> usize
    ensures within { result ≤ length octets.now }
    ensures fills { Puts free.old 0 (take result octets.now) free.new (Some result) }
    ensures text { quoted octets.now ≡ take result octets.now ++ quoted (drop result octets.now) }
{
    let mut len = 0;
    while len < octets.len() && len < free.len() && is_unescaped(octets[len]) {
        free[len] = octets[len];
        len += 1;
    }
    len
}

/// Escapes an octet of a string if necessary. Returns the result at the start of an array, along
/// with its length (1, 2 or 4 octets).
#[inline(always)]
// rule: text-escapes
fn escape(octet: u8) -> ([u8; 4], usize)
    ensures few { result.1 ≤ 4 }
    ensures text { take result.1 result.0 ≡ escaped octet }
{
    if is_unescaped(octet) {
        return ([octet, 0, 0, 0], 1);
    }
    if octet == b'"' || octet == b'\\' {
        return ([b'\\', octet, 0, 0], 2);
    }
    let (high, low) = (hex_digit(octet / 16), hex_digit(octet % 16));
    ([b'\\', b'x', high, low], 4)
}

/// Escapes an octet of a string if necessary, and writes it to `free`, starting at index `at`.
/// There must be room for the longest escape sequence (4 octets). Returns the index after the
/// escaped octet.
#[inline(always)]
fn put_escaped(octet: u8, free: &mut [u8], at: usize) -> usize
    requires { at + 4 ≤ length free.old }
    ensures { Puts free.old at (escaped octet) free.new (Some result) }
{
    let (block, count) = escape(octet);
    free[at..at + 4].copy_from_slice(&block);
    at + count
}

/// Copies as much of a string as possible to the start of `free`, escaping octets if necessary.
/// Returns the number of octets copied from the string, and the number of octets written to `free`.
#[inline(always)]
fn fill_text(octets: &[u8], free: &mut [u8]) -> (usize, usize)
    ensures within { result.0 ≤ length octets.now }
    ensures room { result.1 ≤ length free.new }
    ensures text { quoted octets.now
        ≡ take result.1 free.new ++ quoted (drop result.0 octets.now) }
{
    // Most strings need no escapes.
    let mut taken = fill_run(octets, free);
    let mut len = taken;
    while taken < octets.len() && free.len() - len >= 4 {
        let octet = octets[taken];
        taken += 1;
        len = put_escaped(octet, free, len);
        // An octet that needs no escape is usually followed by more such octets.
        if is_unescaped(octet) {
            let run = fill_run(suffix(octets, taken), &mut free[len..]);
            taken += run;
            len += run;
        }
    }
    (taken, len)
}

impl<'b, 'w, W: Sink> LineWriter<'b, 'w, W> {
    /// Creates a writer that buffers octets in the block `octets` and writes them to the sink `w`.
    pub fn new(octets: &'b mut [u8], w: &'w mut W) -> LineWriter<'b, 'w, W>
        ensures held { result.held ≡ [] }
        ensures taken { result.taken ≡ W.taken w.old }
        ensures failures { result.failures ≡ W.failures w.old }
        ensures empty { result.empty_writes ≡ W.empty_writes w.old }
        ensures whole { result.whole_writes ≡ W.whole_writes w.old }
        ensures flushes { result.flushes ≡ W.flushes w.old }
        ensures size { result.size ≡ length octets.old }
        ensures status { result.status ≡ Ok tt }
        ensures sink { result.sink ≡ w.entry.ghost_name }
    {
        LineWriter {
            octets,
            len: 0,
            w,
            status: Ok(()),
        }
    }

    /// Writes the buffered octets to the sink, and then writes `octets`. If a write fails, the
    /// octets that were not written are lost.
    #[inline(never)]
    fn push_through(&mut self, octets: &[u8])
        ensures pushes { PushesSomehow self.old octets.now self.new }
        ensures none { self.new.held ≡ [] }
        ensures whole { self.new.whole_writes ≤ self.old.whole_writes + 2 }
    {
        self.flush_buf();
        if self.status.is_ok() {
            self.status = write_all(octets, self.w);
        }
    }

    /// Writes the buffered octets to the sink. If a write fails, the octets that were not written
    /// are lost.
    #[inline(never)]
    pub fn flush_buf(&mut self)
        ensures pushes { PushesSomehow self.old [] self.new }
        ensures none { self.new.held ≡ [] }
        ensures whole { self.new.whole_writes ≤ self.old.whole_writes + 1 }
    {
        let len = self.len;
        self.len = 0;
        if self.status.is_ok() {
            self.status = write_prefix(self.octets, len, self.w);
        }
    }

    /// Ends a line. If at least [`PAGE`] octets are buffered, writes them to the sink.
    #[inline(always)]
    pub(crate) fn end_line(&mut self)
        ensures pushes { Pushes self.old [] self.new }
        ensures page { 65536 ≤ length self.old.held → self.new.held ≡ [] }
    {
        if self.len >= PAGE {
            self.flush_buf();
        }
    }

    /// Pushes octets. The octets are buffered or, if they do not fit in the block, written to the
    /// sink.
    #[inline(always)]
    pub fn push(&mut self, octets: &[u8])
        ensures { Pushes self.old octets.now self.new }
    {
        if octets.len() <= self.octets.len() - self.len {
            let end = self.len + octets.len();
            self.octets[self.len..end].copy_from_slice(octets);
            self.len = end;
        } else {
            self.push_through(octets);
        }
    }

    /// Like [`LineWriter::push`], but never inlined.
    #[inline(never)]
    fn push_out_of_line(&mut self, octets: &[u8])
        ensures { Pushes self.old octets.now self.new }
    {
        self.push(octets);
    }

    /// Pushes an array of octets.
    #[tactic(auto, using(crate::proofs::PushLemmas::held_steps))]
    #[inline(always)]
    pub(crate) fn push_array<const N: usize>(&mut self, octets: [u8; N])
        ensures { Pushes self.old octets.entry self.new }
    {
        match put(octets, &mut self.octets[self.len..], 0) {
            Some(len) => self.len += len,
            None => self.push_out_of_line(&octets),
        }
    }

    /// Pushes a number in decimal.
    #[inline(always)]
    pub fn push_decimal(&mut self, value: u64)
        ensures { Pushes self.old (decimal value) self.new }
    {
        self.push_named(b"", value);
    }

    /// Pushes a name, followed by a number in decimal.
    #[tactic(auto, using(crate::proofs::PushLemmas::held_steps))]
    #[inline(always)]
    pub fn push_named(&mut self, name: &[u8], value: u64)
        ensures { Pushes self.old (name.now ++ decimal value) self.new }
    {
        match fill_named(name, value, &mut self.octets[self.len..]) {
            Some(len) => self.len += len,
            None => self.push_named_parts(name, value),
        }
    }

    /// Like [`LineWriter::push_named`], but pushes the name and the number separately.
    #[inline(never)]
    fn push_named_parts(&mut self, name: &[u8], value: u64)
        ensures { Pushes self.old (name.now ++ decimal value) self.new }
    {
        self.push(name);
        self.push(Buffer::new().format(value).as_bytes());
    }

    /// Pushes the line for a numeric item. The descriptor and the comment come from `entry`, the
    /// item's entry in Table B.
    #[inline(always)]
    pub(crate) fn push_number_line(&mut self, entry: Entry<'_>, number: i64, scale: i16)
        ensures { Pushes self.old (row_line_start (row_of_entry entry.entry)
            ++ (decimal_text_of number scale ++ row_comment (row_of_entry entry.entry))) self.new }
    {
        match fill_number_line(entry, number, scale, &mut self.octets[self.len..]) {
            Some(len) => self.len += len,
            None => self.push_long_line(entry, number, scale),
        }
    }

    /// Like [`LineWriter::push_number_line`], but pushes each part of the line separately.
    #[inline(never)]
    fn push_long_line(&mut self, entry: Entry<'_>, number: i64, scale: i16)
        ensures { Pushes self.old (row_line_start (row_of_entry entry.entry)
            ++ (decimal_text_of number scale ++ row_comment (row_of_entry entry.entry))) self.new }
    {
        self.push(entry.line_start());
        self.push_scaled(i128::from(number), scale);
        self.push(entry.comment());
    }

    /// Pushes `value / 10^scale` in decimal. If the scale is negative and the value is not 0,
    /// `-scale` zeros are appended.
    #[inline(never)]
    // rule: decimal-sign, decimal-point, decimal-zeros-after
    pub(crate) fn push_scaled(&mut self, value: i128, scale: i16)
        ensures { Pushes self.old (decimal_text_of value scale) self.new }
    {
        let mut buffer = Buffer::new();
        let size = value.unsigned_abs();
        let digits = buffer.format(size).as_bytes();
        let places = usize::from(scale.unsigned_abs());
        let sign: &[u8] = if value < 0 { b"-" } else { b"" };
        self.push(sign);
        if scale > 0 {
            if digits.len() <= places {
                self.push(b"0.");
                self.push_zeros(places - digits.len());
                return self.push(digits);
            }
            let (whole, fraction) = digits.split_at(digits.len() - places);
            self.push(whole);
            self.push(b".");
            return self.push(fraction);
        }
        self.push(digits);
        self.push_zeros(if size == 0 { 0 } else { places });
    }

    /// Pushes the line for an item whose value is missing. The descriptor and the comment come from
    /// `entry`, the item's entry in Table B.
    #[inline(always)]
    pub(crate) fn push_missing_line(&mut self, entry: Entry<'_>)
        ensures { Pushes self.old (row_line_start (row_of_entry entry.entry)
            ++ (codes "MISSING" ++ row_comment (row_of_entry entry.entry))) self.new }
    {
        match fill_missing_line(entry, &mut self.octets[self.len..]) {
            Some(len) => self.len += len,
            None => self.push_long_missing(entry),
        }
    }

    /// Like [`LineWriter::push_missing_line`], but pushes each part of the line separately.
    #[inline(never)]
    fn push_long_missing(&mut self, entry: Entry<'_>)
        ensures { Pushes self.old (row_line_start (row_of_entry entry.entry)
            ++ (codes "MISSING" ++ row_comment (row_of_entry entry.entry))) self.new }
    {
        self.push(entry.line_start());
        self.push(b"MISSING");
        self.push(entry.comment());
    }

    /// Pushes `count` zeros.
    #[inline(always)]
    pub(crate) fn push_zeros(&mut self, count: usize)
        ensures { Pushes self.old (replicate count 48) self.new }
    {
        for _done in 0..count {
            self.push(b"0");
        }
    }

    /// Pushes a number in decimal, padded with leading zeros to at least `digits` digits.
    #[inline(always)]
    // rule: listing-time
    pub fn push_padded(&mut self, value: u64, digits: usize)
        ensures { Pushes self.old (zero_padded digits value) self.new }
    {
        let mut buffer = Buffer::new();
        let text = buffer.format(value).as_bytes();
        self.push_zeros(digits.saturating_sub(text.len()));
        self.push(text);
    }

    /// Pushes octets in hexadecimal, with two upper-case digits per octet.
    // rule: text-hexadecimal
    pub(crate) fn push_hex(&mut self, octets: &[u8])
        ensures { Pushes self.old (hex_text octets.now) self.new }
    {
        for octet in octets {
            self.push(&[hex_digit(*octet / 16), hex_digit(*octet % 16)]);
        }
    }

    /// Pushes an octet of a string, escaped if necessary.
    #[inline(never)]
    fn push_escaped(&mut self, octet: u8)
        ensures { Pushes self.old (escaped octet) self.new }
    {
        let (block, count) = escape(octet);
        self.push(&block[..count]);
    }

    /// Pushes as much of a string as fits in the block, escaping octets if necessary. Returns the
    /// number of octets copied from the string.
    #[tactic(auto, using(crate::proofs::PushLemmas::held_steps))]
    #[inline(always)]
    fn push_start(&mut self, octets: &[u8]) -> usize
        ensures within { result ≤ length octets.now }
        ensures pushes { (text : List ℕ) × (Pushes self.old text self.new
            × (quoted octets.now ≡ text ++ quoted (drop result octets.now))) }
    {
        let (taken, len) = fill_text(octets, &mut self.octets[self.len..]);
        self.len += len;
        taken
    }

    /// Pushes the octets of a string, escaped if necessary, followed by the closing quote.
    // rule: text-quoted, text-inserted
    pub(crate) fn push_quoted(&mut self, octets: &[u8])
        ensures { Pushes self.old (quoted octets.now) self.new }
    {
        let mut rest = octets;
        while !rest.is_empty() {
            rest = suffix(rest, self.push_start(rest));
            // If the block has no room for the next octet, this push empties the block.
            if let Some((octet, more)) = rest.split_first() {
                self.push_escaped(*octet);
                rest = more;
            }
        }
        self.push(b"\"");
    }

    /// Returns `Ok` if everything pushed so far has been written or is still buffered.
    ///
    /// # Errors
    ///
    /// [`RunFault::Write`] if a write failed or accepted no octets. Nothing has been written since
    /// the failure.
    #[inline(always)]
    pub fn status(&self) -> Result<(), RunFault>
        ensures { result ≡ self.now.status }
    {
        self.status
    }

    /// Returns the sink. Any buffered octets are lost, so call [`LineWriter::flush_buf`] first.
    pub fn into_sink(self) -> &'w mut W
        ensures taken { W.taken result.now ≡ self.entry.taken }
        ensures failures { W.failures result.now ≡ self.entry.failures }
        ensures empty { W.empty_writes result.now ≡ self.entry.empty_writes }
        ensures flushes { W.flushes result.now ≡ self.entry.flushes }
        ensures sink { result.ghost_name ≡ self.entry.sink }
    {
        self.w
    }
}

/// A sink that accepts no octets. A [`LineWriter`] with this sink can only collect octets in its
/// block.
#[derive(Drop)]
pub(crate) struct NoSink {
    pub(crate) empty_writes: u64,
    pub(crate) flushes: u64,
}

impl Sink for NoSink {
    ghost taken = { λ _. Some [] };

    ghost failures = { λ _. 0 };

    ghost empty_writes = { λ s. s.empty_writes };

    ghost flushes = { λ s. record { made = s.flushes; failed = 0 } };

    ghost all_flushed = { λ _. true };

    fn write(&mut self, buf: &[u8]) -> Result<usize, Failed> {
        if !buf.is_empty() {
            self.empty_writes = self.empty_writes.saturating_add(1);
        }
        Ok(0)
    }

    fn flush(&mut self) -> Result<(), Failed> {
        self.flushes = self.flushes.saturating_add(1);
        Ok(())
    }
}

impl<'b, 'w> LineWriter<'b, 'w, NoSink> {
    /// Returns the buffered octets.
    #[inline(always)]
    pub(crate) fn held(&self) -> &[u8]
        ensures held { result.now ≡ self.now.held }
        ensures none { self.now.taken ≡ Some [] }
    {
        &self.octets[..self.len]
    }
}
