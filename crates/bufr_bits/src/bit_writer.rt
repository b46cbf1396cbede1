//! A writer that packs bits into octets, most significant bit first.
ghost use Rattle.std.specs.Prelude.{◌≡◌, ◌⊎◌, ◌≤◌, ◌<◌, ◌+◌, ◌-◌, ◌*◌, ◌/◌, ◌%◌, ◌^◌, ◌++◌, [], Bool, List, ℕ, length, slice_index, min, max, vec_len, vec_capacity, OnOk, OnErr};
ghost use Rattle.bufr_bits.specs.Bits.{bits_of, bits_in, bits_at, number_of, padding, BitWriterModel, IsWriting, room_after};

use std::alloc::{AllocError, Global};
use std::marker::Model;

/// A writer that appends bits to a buffer. The buffer can contain at most 2^63 bits. Contracts
/// model a writer as the bits written so far and the room reserved for more, in bits.
///
/// ```
/// let mut bits = BitWriter::new(rt.alloc());
/// bits.push(5, 3)?;
/// bits.push_octets(&[0xFF])?;
/// assert_eq!(rt; bits.len_bits(), 11);
/// assert_eq!(rt; bits.into_octets().as_slice(), [0xBF, 0xE0].as_slice());
/// ```
#[derive(Drop)]
pub struct BitWriter {
    octets: Vec<u8>,
    /// The last `count` bits written, which follow the bits in `octets`. `count` is less than 64.
    last: u64,
    count: u32,
    /// The number of free bits in `last`. The spare capacity of `octets` is large enough for both
    /// the free and the used bits of `last`.
    free: u32,
}

impl Model for BitWriter {
    ghost Value = { BitWriterModel };

    ghost view = { λ w. record {
      bits = bits_of w.octets.items ++ bits_in w.last w.count;
      room = room_after (vec_len w.octets) (vec_capacity w.octets) w.count;
    } };

    ghost invariant = { λ w. IsWriting (vec_len w.octets) (vec_capacity w.octets) w.last w.count
        w.free };
}

impl BitWriter {
    /// Creates an empty writer. This function does not allocate.
    pub fn new(alloc: Global) -> BitWriter
        ensures bits { result.bits ≡ [] }
        ensures room { result.room ≡ 0 }
    {
        BitWriter {
            octets: Vec::new(alloc),
            last: 0,
            count: 0,
            free: 0,
        }
    }

    /// Returns the number of bits written so far.
    pub fn len_bits(&self) -> u64
        ensures { result ≡ length self.now.bits }
    {
        8 * self.octets.len() as u64 + u64::from(self.count)
    }

    /// Reserves room for `bits` additional bits. The number of bits already written plus `bits`
    /// must be at most 2^63. If the buffer must grow, its new spare capacity is at least its old
    /// total capacity.
    ///
    /// # Errors
    ///
    /// [`AllocError`] if the buffer cannot grow. In that case, the bits already written are left
    /// unchanged.
    #[inline(always)]
    pub fn reserve(&mut self, bits: u64) -> Result<(), AllocError>
        requires { length self.old.bits + bits ≤ 2 ^ 63 }
        ensures bits { self.new.bits ≡ self.old.bits }
        ensures room { OnOk result (bits ≤ self.new.room) }
        // The new room is at most 128 bits more than requested, or at most the old capacity in bits
        // if that is greater. The old capacity is the number of bits already written plus the old
        // room.
        ensures most { self.new.room ≤ max (bits + 128) (length self.old.bits + self.old.room) }
        // If the room changes, the new room is at least
        // `min(old capacity, 2^63 - bits written) - 64`, in bits.
        ensures grows { (self.new.room ≡ self.old.room)
            ⊎ (min (length self.old.bits + self.old.room) (2 ^ 63 - length self.old.bits)
            ≤ self.new.room + 64) }
        // If there is already room for at least 128 bits more than requested, the room does not
        // change.
        ensures stays { bits + 128 ≤ self.old.room → self.new.room ≡ self.old.room }
    {
        if bits <= u64::from(self.free) {
            return Ok(());
        }
        let count = (bits / 8) as usize + 16;
        if count > self.octets.capacity() - self.octets.len() {
            grow(&mut self.octets, count)?;
        }
        self.free = 63 - self.count;
        Ok(())
    }

    /// Appends `value` as a `width`-bit number, most significant bit first. The width must be at
    /// most 63, and the value must be less than 2^`width`. Room for the bits must already be
    /// reserved (see [`BitWriter::reserve`]).
    #[inline(always)]
    pub fn put(&mut self, value: u64, width: u32)
        requires width { width ≤ 63 }
        requires value { value < 2 ^ width }
        requires room { width ≤ self.old.room }
        ensures bits { self.new.bits ≡ self.old.bits ++ bits_in value width }
        ensures len { length self.new.bits ≡ length self.old.bits + width }
        ensures room { self.old.room ≤ self.new.room + width }
    {
        if width > self.free {
            self.put_over(value, width);
        } else {
            self.last = (self.last << width) + value;
            self.count += width;
            self.free -= width;
        }
    }

    /// Implements [`BitWriter::put`] for widths greater than `free`.
    #[inline(never)]
    fn put_over(&mut self, value: u64, width: u32)
        requires width { width ≤ 63 }
        requires value { value < 2 ^ width }
        requires room { width ≤ self.old.room }
        ensures bits { self.new.bits ≡ self.old.bits ++ bits_in value width }
        ensures len { length self.new.bits ≡ length self.old.bits + width }
        ensures room { self.old.room ≤ self.new.room + width }
    {
        let free = 64 - self.count;
        if width < free {
            self.last = (self.last << width) + value;
            self.count += width;
            self.free = free_after(&self.octets, self.count);
            return;
        }
        // `last` is full, so its 64 bits are appended to `octets` as eight octets.
        let rest = width - free;
        let full = (self.last << free) + (value >> rest);
        put(&mut self.octets, &full.to_be_bytes());
        self.free = free_after(&self.octets, rest);
        self.last = value % (1 << rest);
        self.count = rest;
    }

    /// Appends all bits of `octets`. Room for the bits must already be reserved (see
    /// [`BitWriter::reserve`]).
    pub fn put_octets(&mut self, octets: &[u8])
        requires { 8 * length octets.now ≤ self.old.room }
        ensures bits { self.new.bits ≡ self.old.bits ++ bits_of octets.now }
        ensures len { length self.new.bits ≡ length self.old.bits + 8 * length octets.now }
        ensures room { self.old.room ≤ self.new.room + 8 * length octets.now }
    {
        if self.count % 8 == 0 {
            put_last(&mut self.octets, self.last, self.count);
            put(&mut self.octets, octets);
            self.free = free_after(&self.octets, 0);
            self.last = 0;
            self.count = 0;
        } else {
            for octet in octets {
                self.put(u64::from(*octet), 8);
            }
        }
    }

    /// Appends `value` as a `width`-bit number, most significant bit first. The buffer grows if
    /// necessary. The width must be at most 63, the value must be less than 2^`width`, and the
    /// total number of bits must be at most 2^63.
    ///
    /// # Errors
    ///
    /// [`AllocError`] if the buffer cannot grow. In that case, the bits already written are left
    /// unchanged.
    #[inline(always)]
    pub fn push(&mut self, value: u64, width: u32) -> Result<(), AllocError>
        requires width { width ≤ 63 }
        requires value { value < 2 ^ width }
        requires room { length self.old.bits + width ≤ 2 ^ 63 }
        ensures ok { OnOk result (self.new.bits ≡ self.old.bits ++ bits_in value width) }
        ensures len { OnOk result (length self.new.bits ≡ length self.old.bits + width) }
        ensures err { OnErr result (self.new.bits ≡ self.old.bits) }
    {
        self.reserve(u64::from(width))?;
        self.put(value, width);
        Ok(())
    }

    /// Appends all bits of `octets`. The buffer grows if necessary. The total number of bits must
    /// be at most 2^63.
    ///
    /// # Errors
    ///
    /// [`AllocError`] if the buffer cannot grow. In that case, the bits already written are left
    /// unchanged.
    pub fn push_octets(&mut self, octets: &[u8]) -> Result<(), AllocError>
        requires { length self.old.bits + 8 * length octets.now ≤ 2 ^ 63 }
        ensures ok { OnOk result (self.new.bits ≡ self.old.bits ++ bits_of octets.now) }
        ensures len { OnOk result
            (length self.new.bits ≡ length self.old.bits + 8 * length octets.now) }
        ensures err { OnErr result (self.new.bits ≡ self.old.bits) }
    {
        self.reserve(8 * octets.len() as u64)?;
        self.put_octets(octets);
        Ok(())
    }

    /// Returns the written bits, packed into octets. The last octet is padded with zero bits. This
    /// function does not allocate.
    pub fn into_octets(self) -> Vec<u8>
        ensures bits { bits_of result.items ≡ self.bits ++ padding (length self.bits) }
        ensures len { vec_len result ≡ (length self.bits + 7) / 8 }
    {
        let BitWriter {
            mut octets,
            last,
            count,
            ..
        } = self;
        put_last(&mut octets, last, count);
        octets
    }
}

/// Reserves room for `count` more octets, or for as many as the old capacity if that is greater.
#[cold]
#[inline(never)]
fn grow(out: &mut Vec<u8>, count: usize) -> Result<(), AllocError>
    ensures items { out.new.items ≡ out.old.items }
    ensures len { vec_len out.new ≡ vec_len out.old }
    ensures ok { OnOk result (vec_len out.old + count ≤ vec_capacity out.new) }
    ensures capacity { vec_capacity out.old ≤ vec_capacity out.new }
    ensures most { vec_capacity out.new ≤ vec_len out.old + max count (vec_capacity out.old) }
    ensures grows { (vec_capacity out.new ≡ vec_capacity out.old)
        ⊎ (vec_len out.old + vec_capacity out.old ≤ vec_capacity out.new) }
{
    out.reserve_exact(count.max(out.capacity()))
}

/// Appends octets to `out`. The spare capacity of `out` must be large enough for the octets.
pub(crate) fn put(out: &mut Vec<u8>, octets: &[u8])
    requires { vec_len out.old + length octets.now ≤ vec_capacity out.old }
    ensures items { out.new.items ≡ out.old.items ++ octets.now }
    ensures len { vec_len out.new ≡ vec_len out.old + length octets.now }
    ensures capacity { vec_capacity out.old ≤ vec_capacity out.new }
{
    if out.extend_from_slice(octets).is_err() {
        unreachable!();
    }
}

/// Returns the number of bits that can still be added to `last` if it already contains `count`
/// bits. `count` must be at most 63, and that many bits must fit in the spare capacity of `octets`.
fn free_after(octets: &Vec<u8>, count: u32) -> u32
    requires few { count < 64 }
    requires room { 8 * vec_len octets.now + count ≤ 8 * vec_capacity octets.now }
    ensures few { count + result < 64 }
    ensures room { 8 * vec_len octets.now + count + result ≤ 8 * vec_capacity octets.now }
{
    let room = 8 * (octets.capacity() - octets.len()).min(8) as u32;
    room.min(63) - count
}

/// Appends the `count` bits in `last`, padded with zero bits to a whole number of octets.
fn put_last(out: &mut Vec<u8>, last: u64, count: u32)
    requires few { count < 64 }
    requires low { last < 2 ^ count }
    requires room { vec_len out.old + (count + 7) / 8 ≤ vec_capacity out.old }
    ensures bits { bits_of out.new.items
        ≡ bits_of out.old.items ++ (bits_in last count ++ padding count) }
    ensures len { vec_len out.new ≡ vec_len out.old + (count + 7) / 8 }
    ensures capacity { vec_capacity out.old ≤ vec_capacity out.new }
{
    if count > 0 {
        let whole = (count as usize + 7) / 8;
        put(out, &(last << (64 - count)).to_be_bytes()[..whole]);
    }
}

/// Law: Wherever a value's bits lie in a sequence of octets, reading those bits with
/// [`BitSlice::get`](crate::BitSlice::get) returns the value.
pub fn pushed_reads_back(value: u64, width: u32)
    requires { value < 2 ^ width }
    ensures { (before after : List Bool) (octets : List ℕ) → bits_of octets ≡ before ++ bits_in
        value width ++ after → number_of (bits_at octets (length before) width) ≡ value }
{}

/// Law: Wherever the bits of `octets` lie in another sequence of octets,
/// [`BitSlice::octet`](crate::BitSlice::octet) returns each octet when called with the position of
/// its first bit.
pub fn pushed_octets_read_back(octets: &[u8])
    ensures bits { (before after : List Bool) (among : List ℕ)
        → bits_of among ≡ before ++ bits_of octets.now ++ after
        → bits_at among (length before) (8 * length octets.now) ≡ bits_of octets.now }
    ensures octets { (before after : List Bool) (among : List ℕ)
        → bits_of among ≡ before ++ bits_of octets.now ++ after
        → (k : ℕ) → k < length octets.now
        → number_of (bits_at among (length before + 8 * k) 8) ≡ slice_index octets.now k }
{}
