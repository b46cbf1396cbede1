//! An in-memory reader and an in-memory writer for tests. The reader and the writer process octets
//! in small chunks and can be made to fail after a given number of octets.
ghost use Rattle.std.specs.Prelude.{◌≤◌, ◌<◌, vec_len, vec_capacity, ◌≡◌, Some, length, IfOk, IsOk, [], true, false, ◌-◌};
ghost use Rattle.std.specs.Io.KnownBytes.{ReadConsumes, WriteAppends, Keeps};
ghost use Rattle.bufr_bits.specs.Device.{counted, failures_after, empty_writes_after, flushes_after, whole_writes_after, all_flushed_after_write, all_flushed_after_flush};

use crate::bit_writer::put;
use crate::{Failed, Sink, Source};
use std::alloc::{AllocError, Global};

/// A [`Source`] that reads octets from memory, for tests. The reader returns the octets in small
/// chunks and can be made to fail after a given number of octets.
#[derive(Drop)]
pub struct ScriptIn<'a> {
    rest: &'a [u8],
    before_failure: Option<usize>,
    step: usize,
    failures: u64,
    reads: u64,
    asked: u64,
    ghost has_step: { 0 < step },
}

impl<'a> ScriptIn<'a> {
    /// Creates a reader that reads from `octets` and returns at most `step` octets per read. The
    /// step must be at least 1. If `fails_at` is `Some(n)`, every read fails once the reader has
    /// returned `n` octets.
    pub fn new(octets: &'a [u8], step: usize, fails_at: Option<usize>) -> ScriptIn<'a>
        requires { 0 < step }
        ensures octets { result.rest.now ≡ octets.now }
        ensures step { result.step ≡ step }
        ensures fails_at { result.before_failure ≡ fails_at }
        ensures failures { result.failures ≡ 0 }
        ensures reads { result.reads ≡ 0 }
        ensures asked { result.asked ≡ 0 }
    {
        ScriptIn {
            rest: octets,
            before_failure: fails_at,
            step,
            failures: 0,
            reads: 0,
            asked: 0,
        }
    }
}

impl<'a> Source for ScriptIn<'a> {
    ghost use Rattle.bufr_bits.specs.Script.{read_answer, octets_moved, failure_after};

    ghost left = { λ s. Some s.rest.now };

    ghost failures = { λ s. s.failures };

    ghost reads = { λ s. s.reads };

    ghost asked = { λ s. s.asked };

    fn read(&mut self, buf: &mut [u8]) -> Result<usize, Failed>
        ensures bound { IfOk result (λ n. n ≤ length buf.new) }
        ensures octets { ReadConsumes (Some self.old.rest.now) (Some self.new.rest.now) result
            buf.new }
        ensures failed { self.new.failures ≡ failures_after self.old.failures result }
        ensures made { self.new.reads ≡ counted self.old.reads 1 }
        ensures asked { self.new.asked ≡ counted self.old.asked (length buf.new) }
        // Any read may block or fail.
        ensures sure { true ≡ false → IsOk result }
        // The step and the number of octets before the failure determine the result of each read.
        ensures answer { result ≡ read_answer self.old.step (length buf.old)
            (length self.old.rest.now) self.old.before_failure }
        ensures failing { self.new.before_failure
            ≡ failure_after self.old.before_failure (octets_moved result) }
        ensures step { self.new.step ≡ self.old.step }
    {
        self.reads = self.reads.saturating_add(1);
        self.asked = self.asked.saturating_add(buf.len() as u64);
        let mut given = self.step.min(buf.len()).min(self.rest.len());
        if let Some(before) = self.before_failure {
            if before == 0 {
                self.failures = self.failures.saturating_add(1);
                return Err(Failed);
            }
            given = given.min(before);
            self.before_failure = Some(before - given);
        }
        buf[..given].copy_from_slice(&self.rest[..given]);
        self.rest = &self.rest[given..];
        Ok(given)
    }
}

/// How a full [`ScriptOut`] responds to writes, and whether flushes fail.
#[derive(Clone, Copy, Debug, PartialEq, Eq)]
pub enum End {
    /// If the writer is full, writes return 0.
    Zero,
    /// If the writer is full, writes fail.
    Fail,
    /// If the writer is full, writes fail. Every flush also fails, even if the writer is not full.
    Flush,
}

/// A [`Sink`] that writes octets to memory, for tests. The writer accepts octets in small chunks.
/// All memory is allocated when the writer is created.
#[derive(Drop)]
pub struct ScriptOut {
    taken: Vec<u8>,
    room: usize,
    step: usize,
    end: End,
    failures: u64,
    empty_writes: u64,
    whole_writes: u64,
    flushes: u64,
    failed_flushes: u64,
    all_flushed: bool,
    ghost has_step: { 0 < step },
    ghost within_room: { vec_len taken ≤ room },
    ghost reserved: { room ≤ vec_capacity taken },
}

impl ScriptOut {
    ghost use Rattle.bufr_bits.specs.Script.{left_of};

    /// Creates a writer that accepts at most `room` octets in total and at most `step` octets per
    /// write. The step must be at least 1. All memory is allocated up front, so writes cannot run
    /// out of memory. Writing an empty buffer returns 0, or fails if the writer is full and `end`
    /// is not [`End::Zero`].
    ///
    /// # Errors
    ///
    /// [`AllocError`] if the memory cannot be allocated.
    pub fn new(alloc: Global, room: usize, step: usize, end: End) -> Result<ScriptOut, AllocError>
        requires { 0 < step }
        ensures taken { IfOk result (λ s. s.taken.items ≡ []) }
        ensures left { IfOk result (λ s. left_of s ≡ room) }
        ensures step { IfOk result (λ s. s.step ≡ step) }
        ensures end { IfOk result (λ s. s.end ≡ end) }
        ensures failures { IfOk result (λ s. s.failures ≡ 0) }
        ensures empty_writes { IfOk result (λ s. s.empty_writes ≡ 0) }
        ensures whole_writes { IfOk result (λ s. s.whole_writes ≡ 0) }
        ensures flushes { IfOk result (λ s. s.flushes ≡ 0) }
        ensures failed_flushes { IfOk result (λ s. s.failed_flushes ≡ 0) }
        ensures all_flushed { IfOk result (λ s. s.all_flushed ≡ true) }
    {
        let taken = Vec::with_capacity(alloc, room)?;
        Ok(ScriptOut {
            taken,
            room,
            step,
            end,
            failures: 0,
            empty_writes: 0,
            whole_writes: 0,
            flushes: 0,
            failed_flushes: 0,
            all_flushed: true,
        })
    }

    /// Returns the octets accepted so far.
    pub fn taken(&self) -> &[u8]
        ensures { result.now ≡ self.now.taken.items }
    {
        self.taken.as_slice()
    }
}

impl Sink for ScriptOut {
    ghost use Rattle.bufr_bits.specs.Script.{flushes_of, left_of, write_answer, flush_answer, octets_moved};

    ghost taken = { λ s. Some s.taken.items };

    ghost failures = { λ s. s.failures };

    ghost empty_writes = { λ s. s.empty_writes };

    ghost whole_writes = { λ s. s.whole_writes };

    ghost flushes = { λ s. flushes_of s };

    ghost all_flushed = { λ s. s.all_flushed };

    fn write(&mut self, buf: &[u8]) -> Result<usize, Failed>
        ensures bound { IfOk result (λ n. n ≤ length buf.now) }
        ensures octets { WriteAppends (Some self.old.taken.items) (Some self.new.taken.items)
            result buf.now }
        ensures failed { self.new.failures ≡ failures_after self.old.failures result }
        ensures empty { self.new.empty_writes
            ≡ empty_writes_after self.old.empty_writes buf.now result }
        ensures whole { self.new.whole_writes
            ≡ whole_writes_after self.old.whole_writes buf.now result }
        ensures flushed { flushes_of self.new ≡ flushes_of self.old }
        ensures handed { self.new.all_flushed
            ≡ all_flushed_after_write self.old.all_flushed result }
        // The step, `end` and the remaining room determine the result of each write.
        ensures answer { result ≡ write_answer self.old.end self.old.step
            (left_of self.old) (length buf.now) }
        ensures left { left_of self.new ≡ left_of self.old - octets_moved result }
        ensures step { self.new.step ≡ self.old.step }
        ensures end { self.new.end ≡ self.old.end }
    {
        let left = self.room - self.taken.len();
        if left == 0 && self.end != End::Zero {
            self.failures = self.failures.saturating_add(1);
            return Err(Failed);
        }
        let n = self.step.min(buf.len()).min(left);
        if n == buf.len() {
            self.whole_writes = self.whole_writes.saturating_add(1);
        } else if n == 0 {
            self.empty_writes = self.empty_writes.saturating_add(1);
        }
        self.all_flushed = self.all_flushed && n == 0;
        put(&mut self.taken, &buf[..n]);
        Ok(n)
    }

    fn flush(&mut self) -> Result<(), Failed>
        ensures octets { Keeps (Some self.old.taken.items) (Some self.new.taken.items) }
        ensures failed { self.new.failures ≡ failures_after self.old.failures result }
        ensures empty { self.new.empty_writes ≡ self.old.empty_writes }
        ensures whole { self.new.whole_writes ≡ self.old.whole_writes }
        ensures flushed { flushes_of self.new ≡ flushes_after (flushes_of self.old) result }
        ensures handed { self.new.all_flushed ≡ all_flushed_after_flush self.old.all_flushed
            result }
        ensures answer { result ≡ flush_answer self.old.end }
        ensures left { left_of self.new ≡ left_of self.old }
        ensures step { self.new.step ≡ self.old.step }
        ensures end { self.new.end ≡ self.old.end }
    {
        self.flushes = self.flushes.saturating_add(1);
        if self.end == End::Flush {
            self.failures = self.failures.saturating_add(1);
            self.failed_flushes = self.failed_flushes.saturating_add(1);
            return Err(Failed);
        }
        self.all_flushed = true;
        Ok(())
    }
}
