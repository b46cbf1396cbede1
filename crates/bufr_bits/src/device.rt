//! Readers and writers that count their calls, and adapters for readers and writers from `std`.
ghost use Rattle.std.specs.Prelude.{◌≡◌, ◌≤◌, ◌<◌, ℕ, Bool, true, false, List, Option, length, min, IfOk, IsOk, nat_eq};
ghost use Rattle.std.specs.Io.Buffered.{reader_remaining, reader_buffer};
ghost use Rattle.std.specs.Io.KnownBytes.{ReadConsumes, WriteAppends, Keeps};
ghost use Rattle.bufr_bits.specs.Device.{Flushes, counted, failures_after, empty_writes_after, whole_writes_after, flushes_after, all_flushed_after_write, all_flushed_after_flush, fresh_device};

use std::io::{BufRead, BufReader, Read, Write};
use thiserror::Error;

/// The error that a device returns if a read, write or flush fails. An interrupted call counts as a
/// failure. Failed calls are not retried.
#[derive(Clone, Copy, Debug, PartialEq, Eq, Error)]
#[error("the device failed")]
pub struct Failed;

/// An octet reader that counts its calls.
///
/// The contract of this trait uses ghost items, which exist only in proofs. All counts saturate at
/// `u64::MAX`.
pub trait Source {
    /// The octets that future reads will return, if known.
    ghost left: { Self → Option (List ℕ) };

    /// The number of reads that have failed.
    ghost failures: { Self → ℕ };

    /// The number of reads made so far.
    ghost reads: { Self → ℕ };

    /// The total number of octets requested, which is the sum of the lengths of all buffers passed
    /// to `read`. The contract of the program's `run` function ignores this count.
    ghost asked: { Self → ℕ };

    /// Whether the next read may block or fail.
    ghost waits: { Self → Bool } = { λ _. true };

    /// Returns whether the next read may block or fail. If the result is `false`, the next read
    /// neither blocks nor fails. If the result is `true`, the program flushes its output before the
    /// read, so that live feeds work.
    fn may_wait(&self) -> bool
        ensures { result ≡ false → waits self.now ≡ false }
    {
        true
    }

    /// Reads octets into the start of `buf` and returns the number of octets read. The result is 0
    /// only at the end of the input or if `buf` is empty.
    ///
    /// # Errors
    ///
    /// [`Failed`] if the device fails. In that case, no octets are read.
    fn read(&mut self, buf: &mut [u8]) -> Result<usize, Failed>
        ensures bound { IfOk result (λ n. n ≤ length buf.new) }
        ensures octets { ReadConsumes (left self.old) (left self.new) result buf.new }
        ensures failed { failures self.new ≡ failures_after (failures self.old) result }
        ensures made { reads self.new ≡ counted (reads self.old) 1 }
        ensures asked { asked self.new ≡ counted (asked self.old) (length buf.new) }
        ensures sure { waits self.old ≡ false → IsOk result };
}

/// An octet writer that counts its calls.
///
/// The contract of this trait uses ghost items, which exist only in proofs. All counts saturate at
/// `u64::MAX`.
pub trait Sink {
    /// The octets accepted so far, if known.
    ghost taken: { Self → Option (List ℕ) };

    /// The number of writes and flushes that have failed.
    ghost failures: { Self → ℕ };

    /// The number of nonempty writes that returned 0.
    ghost empty_writes: { Self → ℕ };

    /// The number of writes in which the sink accepted the whole buffer, or 0 if the sink does not
    /// count such writes.
    ghost whole_writes: { Self → ℕ } = { λ _. 0 };

    /// The number of flushes and the number of failed flushes.
    ghost flushes: { Self → Flushes };

    /// Whether all octets accepted so far have been flushed.
    ghost all_flushed: { Self → Bool };

    /// Writes octets from the start of `buf`, and returns the number of octets accepted.
    ///
    /// # Errors
    ///
    /// [`Failed`] if the device fails. In that case, no octets are accepted.
    fn write(&mut self, buf: &[u8]) -> Result<usize, Failed>
        ensures bound { IfOk result (λ n. n ≤ length buf.now) }
        ensures octets { WriteAppends (taken self.old) (taken self.new) result buf.now }
        ensures failed { failures self.new ≡ failures_after (failures self.old) result }
        ensures empty { empty_writes self.new
            ≡ empty_writes_after (empty_writes self.old) buf.now result }
        ensures whole { whole_writes self.new
            ≤ whole_writes_after (whole_writes self.old) buf.now result }
        ensures flushed { flushes self.new ≡ flushes self.old }
        ensures handed { all_flushed self.new ≡ all_flushed_after_write (all_flushed self.old)
            result };

    /// Flushes the accepted octets.
    ///
    /// # Errors
    ///
    /// [`Failed`] if the device fails.
    fn flush(&mut self) -> Result<(), Failed>
        ensures octets { Keeps (taken self.old) (taken self.new) }
        ensures failed { failures self.new ≡ failures_after (failures self.old) result }
        ensures empty { empty_writes self.new ≡ empty_writes self.old }
        ensures whole { whole_writes self.new ≡ whole_writes self.old }
        ensures flushed { flushes self.new ≡ flushes_after (flushes self.old) result }
        ensures handed { all_flushed self.new ≡ all_flushed_after_flush (all_flushed self.old)
            result };
}

/// An adapter that turns a reader from `std` into a [`Source`], or a writer from `std` into a
/// [`Sink`].
///
/// ```
/// let mut source = Device::new(b"abc".as_slice());
/// let mut buf = [0u8; 2];
/// assert_eq!(rt; source.read(&mut buf), Ok(2));
/// assert_eq!(rt; source.read(&mut buf), Ok(1));
/// ```
#[derive(Drop)]
pub struct Device<T> {
    inner: T,
    failures: u64,
    reads: u64,
    asked: u64,
    empty_writes: u64,
    whole_writes: u64,
    flushes: u64,
    failed_flushes: u64,
    all_flushed: bool,
}

impl<T> Device<T> {
    /// Wraps `inner`. All call counts start at 0.
    pub fn new(inner: T) -> Device<T>
        ensures { result ≡ fresh_device inner }
    {
        Device {
            inner,
            failures: 0,
            reads: 0,
            asked: 0,
            empty_writes: 0,
            whole_writes: 0,
            flushes: 0,
            failed_flushes: 0,
            all_flushed: true,
        }
    }
}

impl<T: Read> Source for Device<T> {
    ghost left = { λ d. T.remaining d.inner };

    ghost failures = { λ d. d.failures };

    ghost reads = { λ d. d.reads };

    ghost asked = { λ d. d.asked };

    fn read(&mut self, buf: &mut [u8]) -> Result<usize, Failed> {
        self.reads = self.reads.saturating_add(1);
        self.asked = self.asked.saturating_add(buf.len() as u64);
        match self.inner.read(buf) {
            Ok(n) => Ok(n),
            Err(_) => {
                self.failures = self.failures.saturating_add(1);
                Err(Failed)
            }
        }
    }
}

/// An adapter that turns a `BufReader` into a [`Source`]. A read does not block if octets are
/// already buffered.
#[derive(Drop)]
pub struct BufferedDevice<T: Read> {
    device: Device<BufReader<T>>,
}

impl<T: Read> BufferedDevice<T> {
    /// Wraps `inner`. All call counts start at 0.
    pub fn new(inner: BufReader<T>) -> BufferedDevice<T>
        ensures { result.device ≡ fresh_device inner }
    {
        BufferedDevice {
            device: Device::new(inner),
        }
    }
}

impl<T: Read> Source for BufferedDevice<T> {
    ghost left = { λ d. reader_remaining T.remaining d.device.inner };

    ghost failures = { λ d. d.device.failures };

    ghost reads = { λ d. d.device.reads };

    ghost asked = { λ d. d.device.asked };

    ghost waits = { λ d. nat_eq (length (reader_buffer d.device.inner)) 0 };

    fn may_wait(&self) -> bool
        ensures { result ≡ nat_eq (length (reader_buffer self.now.device.inner)) 0 }
    {
        self.device.inner.buffer().is_empty()
    }

    fn read(&mut self, buf: &mut [u8]) -> Result<usize, Failed>
        ensures bound { IfOk result (λ n. n ≤ length buf.new) }
        ensures octets { ReadConsumes (reader_remaining T.remaining self.old.device.inner)
            (reader_remaining T.remaining self.new.device.inner) result buf.new }
        ensures failed { self.new.device.failures
            ≡ failures_after self.old.device.failures result }
        ensures made { self.new.device.reads ≡ counted self.old.device.reads 1 }
        ensures asked { self.new.device.asked ≡ counted self.old.device.asked (length buf.new) }
        ensures sure { nat_eq (length (reader_buffer self.old.device.inner)) 0 ≡ false
            → IsOk result }
        // If octets are already buffered, a read returns as many of those octets as fit in `buf`.
        ensures answer { 0 < length (reader_buffer self.old.device.inner)
            → result ≡ Ok (min (length (reader_buffer self.old.device.inner)) (length buf.old)) }
    {
        let held = self.device.inner.buffer();
        if !held.is_empty() {
            let n = held.len().min(buf.len());
            buf[..n].copy_from_slice(&held[..n]);
            self.device.inner.consume(n);
            self.device.reads = self.device.reads.saturating_add(1);
            self.device.asked = self.device.asked.saturating_add(buf.len() as u64);
            return Ok(n);
        }
        self.device.read(buf)
    }
}

impl<T: Write> Sink for Device<T> {
    ghost taken = { λ d. T.contents d.inner };

    ghost failures = { λ d. d.failures };

    ghost empty_writes = { λ d. d.empty_writes };

    ghost whole_writes = { λ d. d.whole_writes };

    ghost flushes = { λ d. record { made = d.flushes; failed = d.failed_flushes } };

    ghost all_flushed = { λ d. d.all_flushed };

    fn write(&mut self, buf: &[u8]) -> Result<usize, Failed> {
        match self.inner.write(buf) {
            Ok(n) => {
                if n == buf.len() {
                    self.whole_writes = self.whole_writes.saturating_add(1);
                } else if n == 0 {
                    self.empty_writes = self.empty_writes.saturating_add(1);
                }
                self.all_flushed = self.all_flushed && n == 0;
                Ok(n)
            }
            Err(_) => {
                self.failures = self.failures.saturating_add(1);
                Err(Failed)
            }
        }
    }

    fn flush(&mut self) -> Result<(), Failed> {
        self.flushes = self.flushes.saturating_add(1);
        match self.inner.flush() {
            Ok(()) => {
                self.all_flushed = true;
                Ok(())
            }
            Err(_) => {
                self.failures = self.failures.saturating_add(1);
                self.failed_flushes = self.failed_flushes.saturating_add(1);
                Err(Failed)
            }
        }
    }
}
