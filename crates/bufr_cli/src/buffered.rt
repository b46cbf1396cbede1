//! A buffered writer that stops calling its sink after the first failure.
ghost use Rattle.std.specs.Prelude.{◌≡◌, ◌≤◌, ◌<◌, ◌+◌, ◌-◌, min, ℕ, List, [], length, drop, false, Ok, IfOk, IsErr, OnOk, vec_len, vec_capacity};
ghost use Rattle.std.specs.Io.KnownBytes.{Keeps, WriteAppends};
ghost use Rattle.bufr_bits.specs.Device.{all_flushed_after_flush, all_flushed_after_write, counted, empty_writes_after, failures_after, flushes_after, whole_writes_after};
ghost use Rattle.bufr_text.specs.Prelude.{Fails, MovesPrefix, Stays};
ghost use Rattle.bufr_cli.specs.Prelude.{CallsAtMost, CountsCall, StaysBounded, flushed_by, flushes_by, taken_by};

use bufr_bits::{Failed, Sink};
use std::alloc::{AllocError, Global};

/// The size of the program's read and write buffers, in octets. A buffer of this size combines many
/// small reads or writes into a single system call.
pub const BUFFERED: usize = 65_536;

/// A buffered writer that stops calling its sink after the first failure.
///
/// Once a call has failed, every later call fails immediately. After a successful flush, nothing is
/// buffered. Dropping the writer discards any octets that are still buffered.
///
/// ```
/// let mut w = Buffered::new(rt.alloc(), BUFFERED, Device::new(rt.stdout()))?;
/// w.write(b"abc")?; // buffered
/// w.flush()?;
/// ```
#[derive(Drop)]
pub struct Buffered<S: Sink> {
    sink: S,
    held: Vec<u8>,
    capacity: usize,
    failures: u64,
    flushes: u64,
    failed_flushes: u64,
}

impl<S: Sink> Buffered<S> {
    /// Creates a writer that buffers at most `capacity` octets before writing them to `sink`.
    ///
    /// # Errors
    ///
    /// [`AllocError`] if the buffer cannot be allocated.
    pub fn new(alloc: Global, capacity: usize, sink: S) -> Result<Buffered<S>, AllocError>
    where
        S: Drop,
        ensures sink { IfOk result (λ b. b.sink ≡ sink) }
        ensures none { IfOk result (λ b. b.held.items ≡ []) }
        ensures room { IfOk result (λ b. vec_capacity b.held ≡ capacity) }
        ensures capacity { IfOk result (λ b. b.capacity ≡ capacity) }
        ensures failures { IfOk result (λ b. b.failures ≡ 0) }
        ensures flushes { IfOk result (λ b. flushes_by b ≡ record { made = 0; failed = 0 }) }
    {
        Ok(Buffered {
            sink,
            held: Vec::with_capacity(alloc, capacity)?,
            capacity,
            failures: 0,
            flushes: 0,
            failed_flushes: 0,
        })
    }
}

/// Writes `octets` to `sink`, stopping if a write fails or returns 0. Returns the number of octets
/// that were not written.
#[tactic(auto, using(bufr_text::proofs::PushLemmas::write_steps))]
fn write_out<S: Sink>(octets: &[u8], sink: &mut S) -> usize
    ensures moved { (rest : List ℕ) × (result ≡ length rest)
        × MovesPrefix (S.taken sink.old) (S.taken sink.new) octets.now rest }
    ensures whole { result ≡ 0 → Stays (S.failures sink.old) (S.failures sink.new)
        (S.empty_writes sink.old) (S.empty_writes sink.new) }
    ensures cut { 0 < result → Fails (S.failures sink.old) (S.failures sink.new)
        (S.empty_writes sink.old) (S.empty_writes sink.new) }
    // Each write passes all remaining octets to the sink, so at most one write is accepted in full.
    ensures few { S.whole_writes sink.new ≤ counted (S.whole_writes sink.old) 1 }
    ensures flushes { S.flushes sink.new ≡ S.flushes sink.old }
    ensures unflushed { result < length octets.now → S.all_flushed sink.new ≡ false }
    ensures same { result ≡ length octets.now
        → S.all_flushed sink.new ≡ S.all_flushed sink.old }
{
    let mut rest = octets;
    while !rest.is_empty() {
        match sink.write(rest) {
            Ok(0) => return rest.len(),
            Ok(n) => rest = &rest[n..],
            Err(_) => return rest.len(),
        }
    }
    0
}

/// Removes all elements of `octets` except the last `left`.
fn remove_front(octets: &mut Vec<u8>, left: usize)
    requires { left ≤ vec_len octets.old }
    ensures items { octets.new.items ≡ drop (vec_len octets.old - left) octets.old.items }
    ensures capacity { vec_capacity octets.new ≡ vec_capacity octets.old }
{
    let len = octets.len();
    octets.copy_within(len - left..len, 0);
    octets.truncate(left);
}

impl<S: Sink> Buffered<S> {
    /// Writes the buffered octets to the sink. Octets that the sink does not accept remain
    /// buffered.
    fn flush_buf(&mut self) -> Result<(), Failed>
        ensures octets { Keeps (taken_by S.taken self.old) (taken_by S.taken self.new) }
        ensures none { OnOk result (self.new.held.items ≡ []) }
        ensures flushed { flushed_by S.all_flushed self.new
            ≡ flushed_by S.all_flushed self.old }
        ensures bounded { StaysBounded self.old self.new }
        ensures counts { CountsCall S.Sink self.old.sink self.new.sink result }
        ensures failures { self.new.failures ≡ self.old.failures }
        ensures flushes { flushes_by self.new ≡ flushes_by self.old }
        ensures calls { CallsAtMost S.Sink 1 0 self.old.sink self.new.sink }
    {
        let left = write_out(self.held.as_slice(), &mut self.sink);
        remove_front(&mut self.held, left);
        if left > 0 {
            return Err(Failed);
        }
        Ok(())
    }

    /// Writes octets that do not fit in the buffer's remaining space. The buffered octets are
    /// written to the sink first. Then `buf` is buffered if it fits in the empty buffer; otherwise,
    /// it is written to the sink.
    fn write_through(&mut self, buf: &[u8]) -> Result<usize, Failed>
        ensures bound { IfOk result (λ n. n ≤ length buf.now) }
        ensures octets { WriteAppends (taken_by S.taken self.old) (taken_by S.taken self.new)
            result buf.now }
        ensures some { IfOk result (λ n. 0 < length buf.now → 0 < n) }
        ensures flushed { flushed_by S.all_flushed self.new
            ≡ all_flushed_after_write (flushed_by S.all_flushed self.old) result }
        ensures bounded { StaysBounded self.old self.new }
        ensures counts { CountsCall S.Sink self.old.sink self.new.sink result }
        ensures failures { self.new.failures ≡ self.old.failures }
        ensures flushes { flushes_by self.new ≡ flushes_by self.old }
        ensures calls { CallsAtMost S.Sink 2 0 self.old.sink self.new.sink }
        ensures full { IfOk result (λ n. n < length buf.now
            → CallsAtMost S.Sink 1 0 self.old.sink self.new.sink) }
    {
        self.flush_buf()?;
        if buf.len() <= self.capacity && self.held.extend_from_slice(buf).is_ok() {
            return Ok(buf.len());
        }
        let n = self.sink.write(buf)?;
        if n == 0 {
            return Err(Failed);
        }
        Ok(n)
    }

    /// Writes the buffered octets to the sink, and then flushes the sink.
    fn flush_through(&mut self) -> Result<(), Failed>
        ensures octets { Keeps (taken_by S.taken self.old) (taken_by S.taken self.new) }
        ensures flushed { flushed_by S.all_flushed self.new
            ≡ all_flushed_after_flush (flushed_by S.all_flushed self.old) result }
        ensures bounded { StaysBounded self.old self.new }
        ensures counts { CountsCall S.Sink self.old.sink self.new.sink result }
        ensures failures { self.new.failures ≡ self.old.failures }
        ensures flushes { flushes_by self.new ≡ flushes_by self.old }
        ensures calls { CallsAtMost S.Sink 1 1 self.old.sink self.new.sink }
    {
        self.flush_buf()?;
        self.sink.flush()
    }

    /// The slow path of [`Buffered::write`], for octets that do not fit in the buffer. Fails if an
    /// earlier call failed.
    #[inline(never)]
    fn write_or_fail(&mut self, buf: &[u8]) -> Result<usize, Failed>
        ensures bound { IfOk result (λ n. n ≤ length buf.now) }
        ensures octets { WriteAppends (taken_by S.taken self.old) (taken_by S.taken self.new)
            result buf.now }
        ensures failed { self.new.failures ≡ failures_after self.old.failures result }
        ensures some { IfOk result (λ n. 0 < length buf.now → 0 < n) }
        ensures flushes { flushes_by self.new ≡ flushes_by self.old }
        ensures flushed { flushed_by S.all_flushed self.new
            ≡ all_flushed_after_write (flushed_by S.all_flushed self.old) result }
        ensures bounded { StaysBounded self.old self.new }
        ensures counts { self.old.failures ≡ 0
            → CountsCall S.Sink self.old.sink self.new.sink result }
        ensures again { 0 < self.old.failures → IsErr result × (self.new.sink ≡ self.old.sink)
            × (self.new.held ≡ self.old.held) }
        ensures calls { CallsAtMost S.Sink 2 0 self.old.sink self.new.sink }
        ensures full { IfOk result (λ n. n < length buf.now
            → CallsAtMost S.Sink 1 0 self.old.sink self.new.sink) }
    {
        if self.failures == 0
            && let Ok(n) = self.write_through(buf)
        {
            return Ok(n);
        }
        self.failures = self.failures.saturating_add(1);
        Err(Failed)
    }
}

impl<S: Sink> Sink for Buffered<S> {
    ghost taken = { λ b. taken_by S.taken b };

    ghost failures = { λ b. b.failures };

    ghost empty_writes = { λ _. 0 };

    ghost flushes = { λ b. flushes_by b };

    ghost all_flushed = { λ b. flushed_by S.all_flushed b };

    #[inline]
    fn write(&mut self, buf: &[u8]) -> Result<usize, Failed>
        ensures bound { IfOk result (λ n. n ≤ length buf.now) }
        ensures octets { WriteAppends (taken_by S.taken self.old) (taken_by S.taken self.new)
            result buf.now }
        ensures failed { self.new.failures ≡ failures_after self.old.failures result }
        // Before the first failure, octets that fit in the buffer are buffered, and the sink is not
        // called. A nonempty write either fails or returns at least 1.
        ensures takes { self.old.failures ≡ 0
            → vec_len self.old.held + length buf.now
            ≤ min self.old.capacity (vec_capacity self.old.held)
            → (result ≡ Ok (length buf.now)) × (self.new.sink ≡ self.old.sink) }
        // If the octets do not fit, at most two writes to the sink are accepted in full: the write
        // of the buffered octets, and the write of `buf`. If the result is less than the length of
        // `buf`, the sink was passed all of `buf` and accepted only part of it.
        ensures calls { CallsAtMost S.Sink 2 0 self.old.sink self.new.sink }
        ensures full { IfOk result (λ n. n < length buf.now
            → CallsAtMost S.Sink 1 0 self.old.sink self.new.sink) }
        ensures empty { 0 ≡ empty_writes_after 0 buf.now result }
        ensures flushed { flushes_by self.new ≡ flushes_by self.old }
        ensures handed { flushed_by S.all_flushed self.new
            ≡ all_flushed_after_write (flushed_by S.all_flushed self.old) result }
        ensures bounded { StaysBounded self.old self.new }
        // Before the first failure, a call fails if and only if a call to the sink fails or a
        // nonempty write returns 0. After the first failure, the sink is not called.
        ensures counts { self.old.failures ≡ 0
            → CountsCall S.Sink self.old.sink self.new.sink result }
        ensures again { 0 < self.old.failures → IsErr result × (self.new.sink ≡ self.old.sink)
            × (self.new.held ≡ self.old.held) }
    {
        if self.failures == 0
            && buf.len() <= self.capacity.saturating_sub(self.held.len())
            && self.held.extend_from_slice(buf).is_ok()
        {
            return Ok(buf.len());
        }
        self.write_or_fail(buf)
    }

    fn flush(&mut self) -> Result<(), Failed>
        ensures octets { Keeps (taken_by S.taken self.old) (taken_by S.taken self.new) }
        ensures failed { self.new.failures ≡ failures_after self.old.failures result }
        ensures empty { ◌≡◌ {A = ℕ} 0 0 }
        ensures flushed { flushes_by self.new ≡ flushes_after (flushes_by self.old) result }
        ensures handed { flushed_by S.all_flushed self.new
            ≡ all_flushed_after_flush (flushed_by S.all_flushed self.old) result }
        ensures bounded { StaysBounded self.old self.new }
        // At most one write to the sink is accepted in full, and the sink is flushed at most once.
        ensures calls { CallsAtMost S.Sink 1 1 self.old.sink self.new.sink }
        // Before the first failure, a call fails if and only if a call to the sink fails or a
        // nonempty write returns 0. After the first failure, the sink is not called.
        ensures counts { self.old.failures ≡ 0
            → CountsCall S.Sink self.old.sink self.new.sink result }
        ensures again { 0 < self.old.failures → IsErr result × (self.new.sink ≡ self.old.sink)
            × (self.new.held ≡ self.old.held) }
    {
        self.flushes = self.flushes.saturating_add(1);
        if self.failures == 0 && self.flush_through().is_ok() {
            return Ok(());
        }
        self.failures = self.failures.saturating_add(1);
        self.failed_flushes = self.failed_flushes.saturating_add(1);
        Err(Failed)
    }
}
