//! Reading input, either piece by piece through a buffer or all at once.
ghost use Rattle.std.specs.Prelude.{◌≡◌, ◌≢◌, ◌⊎◌, ◌≤◌, ◌<◌, ◌+◌, ◌-◌, ◌*◌, ◌^◌, ℕ, List, ◌++◌, take, length, drop, slice_range, Ok, Err, IsOk, IfOk, IfErr, vec_len, vec_capacity, [], ◌∷◌, true, false, max, nat_le, if◌then◌else◌};
ghost use Rattle.bufr_bits.specs.Prelude.{counted};
ghost use Rattle.bufr_frame.specs.Input.{read_failures_after, max_reads, ReadsOnce, ReadsInput, AddsReads, InputModel, FillsInput, SlidesOver, asked_by, new_input};

use crate::fault::RunFault;
use bufr_bits::{Failed, Source};
use std::alloc::Global;
use std::marker::Model;
use std::mem::replace;

/// The maximum number of reads from one input, which is 2^32.
const MAX_READS: u64 = 1 << 32;

/// The number of octets that [`read_to_end`] requests in each read.
const CHUNK: usize = 65536;

/// A buffer for octets that have been read from an input but not yet skipped. [`crate::Finder`]
/// uses this buffer to read a stream, and line readers use it to read text. To read a whole input,
/// use [`read_to_end`].
///
/// The buffered octets are moved to the start of the buffer only if they do not outnumber the
/// skipped octets. On average, each octet is therefore moved at most once.
///
/// ```
/// let mut input = InputBuffer::new(rt.alloc());
/// input.fill(&mut r, 4096, 8192)?;
/// let len = line_len(input.held());
/// input.skip(len);
/// ```
#[derive(Drop)]
pub struct InputBuffer {
    /// The underlying storage. The octets at the indices `start..filled` have been read but not yet
    /// skipped.
    octets: Vec<u8>,
    start: usize,
    filled: usize,
    /// The number of reads made so far, which is at most 2^32.
    reads: u64,
    /// Whether the end of the input has been reached.
    ended: bool,
}

impl Model for InputBuffer {
    ghost Value = { InputModel };

    ghost view = { λ f. record {
      held = slice_range f.octets.items f.start f.filled;
      ended = f.ended;
      reads = f.reads;
      room = vec_capacity f.octets;
      free = vec_len f.octets - f.filled;
      gap = f.start;
    } };

    ghost invariant = { λ f. (f.start ≤ f.filled) × (f.filled ≤ vec_len f.octets)
        × (f.reads ≤ max_reads) × (f.reads ≡ 0 → vec_len f.octets ≡ 0)
        × (vec_len f.octets ≡ vec_capacity f.octets) };
}

impl InputBuffer {
    /// Creates an empty buffer for an input that has not been read yet. This function does not
    /// allocate.
    pub fn new(alloc: Global) -> InputBuffer
        ensures { result ≡ new_input }
    {
        InputBuffer {
            octets: Vec::new(alloc),
            start: 0,
            filled: 0,
            reads: 0,
            ended: false,
        }
    }

    /// Returns the buffered octets, which have been read but not yet skipped.
    pub fn held(&self) -> &[u8]
        ensures { result.now ≡ self.now.held }
    {
        &self.octets[self.start..self.filled]
    }

    /// Returns whether the end of the input has been reached.
    pub fn ended(&self) -> bool
        ensures { result ≡ self.now.ended }
    {
        self.ended
    }

    /// Skips the first `n` buffered octets. At least `n` octets must be buffered.
    pub fn skip(&mut self, n: usize)
        requires { n ≤ length self.old.held }
        ensures { self.new
            ≡ record self.old { held = drop n self.old.held; gap = self.old.gap + n } }
    {
        self.start += n;
    }

    /// Appends an octet to the buffered octets. The buffer must have free space. When
    /// [`InputBuffer::fill`] reaches the end of the input, it leaves free space for at least one
    /// octet.
    pub fn push(&mut self, octet: u8)
        requires { 0 < self.old.free }
        ensures { self.new
            ≡ record self.old { held = self.old.held ++ octet ∷ []; free = self.old.free - 1 } }
    {
        self.octets[self.filled] = octet;
        self.filled += 1;
    }

    /// Reads up to `most` octets in a single read and appends them to the buffered octets. If there
    /// is no free space, the capacity of the buffer grows to `room` octets. `room` must be at least
    /// 1 and at least twice the number of buffered octets. `most` must be between 1 and 2^24. This
    /// function must not be called after the end of the input has been reached.
    ///
    /// # Errors
    ///
    /// [`RunFault::Read`] if the read fails. [`RunFault::InputTooLong`] if 2^32 reads have already
    /// been made. [`RunFault::Memory`] if the buffer cannot grow. A call that returns
    /// [`RunFault::InputTooLong`] or [`RunFault::Memory`] does not read. A fault leaves the
    /// buffered octets unchanged.
    pub fn fill<R: Source>(&mut self, r: &mut R, most: usize, room: usize) -> Result<(), RunFault>
        requires some { 0 < most }
        requires small { most ≤ 2 ^ 24 }
        requires fits { 2 * length self.old.held ≤ room }
        requires any { 0 < room }
        requires going { self.old.ended ≡ false }
        ensures fills { (bs : List ℕ) × FillsInput (R.left r.old) (R.left r.new) self.old self.new
            (self.old.room < room) result bs × (length bs ≤ most) }
        ensures grown { self.old.reads ≡ 0 → 0 < self.new.reads → room ≤ self.new.room }
        ensures grows { (self.new.room ≡ self.old.room) ⊎ (room ≤ self.new.room) }
        ensures most { self.new.room ≤ max self.old.room room }
        ensures free { self.new.ended ≡ true → 0 < self.new.free }
        // The capacity consists of the gap of skipped octets, the buffered octets and the free
        // space.
        ensures whole { self.new.room ≡ self.new.gap + length self.new.held + self.new.free }
        ensures slides { SlidesOver self.old self.new }
        ensures sure { R.waits r.old ≡ false → result ≢ Err RunFault.Read }
        ensures failed { R.failures r.new ≡ read_failures_after (R.failures r.old) result }
        ensures counts { AddsReads (R.reads r.old) (R.reads r.new) self.old.reads self.new.reads }
        // The read requests as many octets as fit in the free space, but at most `most`.
        ensures asked { R.asked r.new ≡ counted (R.asked r.old) (asked_by most self.old self.new) }
    {
        if self.reads == MAX_READS {
            return Err(RunFault::InputTooLong);
        }
        let slid = make_room(&mut self.octets, self.start, self.filled, room)?;
        self.start -= slid;
        self.filled -= slid;
        self.reads += 1;
        let to = self.octets.len().min(self.filled + most);
        let n = read_after(r, &mut self.octets, self.filled, to)?;
        self.filled += n;
        self.ended = n == 0;
        Ok(())
    }
}

/// Makes free space for at least one octet after the buffered octets, which are at the indices
/// `start..filled`. Returns how far the buffered octets were moved toward the start of the buffer.
#[inline(always)]
fn make_room(
    octets: &mut Vec<u8>,
    start: usize,
    filled: usize,
    room: usize,
) -> Result<usize, RunFault>
    requires order { start ≤ filled }
    requires within { filled ≤ vec_len octets.old }
    requires fits { 2 * (filled - start) ≤ room }
    requires any { 0 < room }
    requires whole { vec_len octets.old ≡ vec_capacity octets.old }
    ensures free { IfOk result (λ slid. (slid ≤ start) × (filled - slid < vec_len octets.new)) }
    ensures held { IfOk result (λ slid. slice_range octets.new.items (start - slid) (filled - slid)
        ≡ slice_range octets.old.items start filled) }
    ensures slides { IfOk result
        (λ slid. slid ≡ (if nat_le (filled - start) start then start else 0)) }
    ensures whole { vec_len octets.new ≡ vec_capacity octets.new }
    ensures grown { IfOk result (λ _. vec_len octets.old ≡ 0 → vec_len octets.new ≡ room) }
    ensures refused { IfErr result (λ fault. (fault ≡ RunFault.Memory)
        × (vec_capacity octets.old < room) × (octets.new.items ≡ octets.old.items)
        × (vec_len octets.new ≡ vec_len octets.old)) }
    ensures room { vec_capacity octets.old ≤ vec_capacity octets.new }
    ensures grows { (vec_capacity octets.new ≡ vec_capacity octets.old)
        ⊎ (room ≤ vec_capacity octets.new) }
    ensures most { vec_capacity octets.new ≤ max (vec_capacity octets.old) room }
{
    if start > 0 && filled - start <= start {
        octets.copy_within(start..filled, 0);
        return Ok(start);
    }
    if filled < octets.len() {
        return Ok(0);
    }
    if octets.reserve_exact(room - octets.len()).is_err() {
        return Err(RunFault::Memory);
    }
    fill_up(octets, room);
    Ok(0)
}

/// Appends zeros to a buffer until its length is `len`. The capacity of the buffer must be at least
/// `len`.
fn fill_up(octets: &mut Vec<u8>, len: usize)
    requires order { vec_len octets.old ≤ len }
    requires room { len ≤ vec_capacity octets.old }
    ensures before { take (vec_len octets.old) octets.new.items ≡ octets.old.items }
    ensures len { vec_len octets.new ≡ len }
    ensures capacity { vec_capacity octets.new ≡ vec_capacity octets.old }
{
    let alloc = *octets.allocator();
    // With a local vector, this loop compiles to a single `memset`.
    let mut grown = replace(octets, Vec::new(alloc));
    'places: while grown.len() < len {
        grown.push_reserved(0);
    }
    *octets = grown;
}

/// Reads into `buffer[filled..to]` once and returns the number of octets read.
#[inline(always)]
fn read_after<R: Source>(
    r: &mut R,
    buffer: &mut Vec<u8>,
    filled: usize,
    to: usize,
) -> Result<usize, RunFault>
    requires order { filled < to }
    requires within { to ≤ vec_len buffer.old }
    ensures read { (bs : List ℕ) × ReadsOnce (R.left r.old) (R.left r.new)
        (take filled buffer.old.items) (take (filled + length bs) buffer.new.items) result bs }
    ensures len { vec_len buffer.new ≡ vec_len buffer.old }
    ensures room { vec_capacity buffer.new ≡ vec_capacity buffer.old }
    ensures fits { IfOk result (λ n. filled + n ≤ to) }
    ensures sure { R.waits r.old ≡ false → IsOk result }
    ensures failed { R.failures r.new ≡ read_failures_after (R.failures r.old) result }
    ensures made { R.reads r.new ≡ counted (R.reads r.old) 1 }
    ensures asked { R.asked r.new ≡ counted (R.asked r.old) (to - filled) }
{
    match r.read(&mut buffer[filled..to]) {
        Ok(n) => Ok(n),
        Err(_) => Err(RunFault::Read),
    }
}

/// Reads all remaining octets of an input and appends them to `octets`. Use this function for an
/// input that is needed all at once, such as a table. For a stream of messages, use
/// [`crate::Finder`]. `reads` is the number of reads already made from the input and must be at
/// most 2^32. Each further read adds 1 to `reads`.
///
/// # Errors
///
/// [`RunFault::Read`] if a read fails. [`RunFault::InputTooLong`] if the end of the input is not
/// reached within 2^32 reads. [`RunFault::Memory`] if `octets` cannot grow. After a fault, `octets`
/// contains all octets that were read before the fault.
pub fn read_to_end<R: Source>(
    r: &mut R,
    octets: &mut Vec<u8>,
    reads: &mut u64,
) -> Result<(), RunFault>
    requires { reads.old ≤ max_reads }
    ensures read { (bs : List ℕ) × ReadsInput (R.left r.old) (R.left r.new) octets.old.items
        octets.new.items reads.new result bs }
    ensures failed { R.failures r.new ≡ read_failures_after (R.failures r.old) result }
    ensures made { R.reads r.new ≡ counted (R.reads r.old) (reads.new - reads.old) }
    ensures within { (reads.old ≤ reads.new) × (reads.new ≤ max_reads) }
    // Each read except the last returned at least one octet.
    ensures each { reads.new - reads.old ≤ length octets.new.items - length octets.old.items + 1 }
    ensures asked { R.asked r.new ≡ counted (R.asked r.old) (65536 * (reads.new - reads.old)) }
    // If the capacity of `octets` grows, the new capacity is at most twice the final number of
    // octets plus 65,536.
    ensures capacity { vec_capacity octets.new
        ≤ max (vec_capacity octets.old) (2 * length octets.new.items + 65536) }
{
    while *reads < MAX_READS {
        let held = octets.len();
        let full = octets.capacity() - held < CHUNK;
        octets.reserve_exact(if full { held + CHUNK } else { CHUNK })?;
        fill_up(octets, held + CHUNK);
        *reads += 1;
        let read = read_after(r, octets, held, held + CHUNK);
        octets.truncate(held + read.unwrap_or(0));
        if read? == 0 {
            return Ok(());
        }
    }
    Err(RunFault::InputTooLong)
}
