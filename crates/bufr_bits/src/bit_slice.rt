//! A reader for bits that are packed into octets, most significant bit first.
ghost use Rattle.std.specs.Prelude.{◌≡◌, ◌≤◌, ◌<◌, ◌+◌, ◌-◌, ◌/◌, ◌%◌, ◌^◌, ◌==◌, ℕ, MatchOption, length, slice_index, slice_range, ◌*◌, option_map, SomeIff, IfSome};
ghost use Rattle.bufr_bits.specs.Bits.{are_all_ones, IsWindow, number_of, bits_at};

/// A slice of octets that is read as a sequence of bits. The slice contains at most 2^60 octets.
/// Bits are counted from 0, starting with the most significant bit of the first octet.
///
/// ```
/// let bits = BitSlice::new(&[0x46, 0x59]);
/// assert_eq!(rt; bits.get(4, 8), Some(0x65));
/// assert_eq!(rt; bits.get(9, 8), None);
/// assert_eq!(rt; bits.all_ones(5, 2), Some(true));
/// ```
#[derive(Clone, Copy, Debug)]
pub struct BitSlice<'a> {
    octets: &'a [u8],
    ghost within: { length octets.now ≤ 2 ^ 60 },
}

impl<'a> BitSlice<'a> {
    ghost use Rattle.bufr_bits.specs.BitSlice.{octets_of};

    /// Creates a bit slice from at most 2^60 octets.
    pub fn new(octets: &'a [u8]) -> BitSlice<'a>
        requires { length octets.now ≤ 2 ^ 60 }
        ensures { octets_of result ≡ octets.now }
    {
        BitSlice { octets }
    }

    /// Returns the length of the slice in bits.
    pub fn len_bits(&self) -> u64
        ensures { result ≡ 8 * length (octets_of self.now) }
    {
        8 * self.octets.len() as u64
    }

    /// Reads the `width` bits that begin at bit `at` as an unsigned number, most significant bit
    /// first. Returns `None` if the number extends past the end of the slice. The width must be at
    /// most 63. If the width is 0, the number is 0.
    // rule: bit-order, field-number, past-last-bit
    pub fn get(&self, at: u64, width: u32) -> Option<u64>
        requires { width ≤ 63 }
        ensures value { SomeIff result (at + width ≤ 8 * length (octets_of self.now))
            (number_of (bits_at (octets_of self.now) at width)) }
        ensures below { IfSome result (λ value. value < 2 ^ width) }
    {
        let len = self.len_bits();
        if at > len || u64::from(width) > len - at {
            return None;
        }
        if width == 0 {
            return Some(0);
        }
        Some(self.number(at, width))
    }

    /// Reads the `width` bits that begin at bit `at` as an unsigned number, most significant bit
    /// first. The width must be 1 to 63, and the number must not extend past the end of the slice.
    #[inline(always)]
    pub fn number(&self, at: u64, width: u32) -> u64
        requires some { 1 ≤ width }
        requires few { width ≤ 63 }
        requires within { at + width ≤ 8 * length (octets_of self.now) }
        ensures value { result ≡ number_of (bits_at (octets_of self.now) at width) }
        ensures below { result < 2 ^ width }
    {
        let from = (at % 8) as u32;
        match first_window(&self.octets[(at / 8) as usize..]) {
            Some(window) if from + width <= 64 => (window >> (64 - from - width)) % (1 << width),
            _ => self.by_octets(at, width),
        }
    }

    /// Like [`BitSlice::number`], but for numbers that span nine octets or begin in the last seven
    /// octets of the slice. If the last eight octets of the slice contain the whole number, it is
    /// read from those octets. Otherwise, the number is read octet by octet.
    #[inline(never)]
    fn by_octets(&self, at: u64, width: u32) -> u64
        requires some { 1 ≤ width }
        requires few { width ≤ 63 }
        requires within { at + width ≤ 8 * length (octets_of self.now) }
        ensures { result ≡ number_of (bits_at (octets_of self.now) at width) }
    {
        let first = self.octets.len().saturating_sub(8);
        if at >= 8 * first as u64 {
            if let Some(window) = first_window(&self.octets[first..]) {
                let from = (at - 8 * first as u64) as u32;
                return (window >> (64 - from - width)) % (1 << width);
            }
        }
        let mut value = 0u64;
        let mut done = 0u32;
        while done < width {
            let place = at + u64::from(done);
            let from = (place % 8) as u32;
            let taken = (8 - from).min(width - done);
            let octet = self.octets[(place / 8) as usize];
            value = (value << taken) + u64::from(octet >> (8 - from - taken)) % (1 << taken);
            done += taken;
        }
        value
    }

    /// Returns the octet that begins at bit `at`, or `None` if it extends past the end of the
    /// slice.
    pub fn octet(&self, at: u64) -> Option<u8>
        ensures { SomeIff result (at + 8 ≤ 8 * length (octets_of self.now))
            (number_of (bits_at (octets_of self.now) at 8)) }
    {
        let octet = self.get(at, 8)?;
        Some(octet as u8)
    }

    /// Borrows the `count` octets that begin at bit `at`, without copying them. Returns `None` if
    /// `at` is not a multiple of 8 or if the octets extend past the end of the slice.
    pub fn octets(&self, at: u64, count: usize) -> Option<&'a [u8]>
        ensures value { SomeIff (option_map (λ s. s.now) result)
            ((at % 8 ≡ 0) × (at + 8 * count ≤ 8 * length (octets_of self.now)))
            (slice_range (octets_of self.now) (at / 8) (at / 8 + count)) }
        ensures octets { IfSome result (λ s. (k : ℕ) → slice_index s.now k < 2 ^ 8) }
    {
        let len = self.len_bits();
        if at % 8 != 0 || at > len {
            return None;
        }
        if count as u64 > (len - at) / 8 {
            return None;
        }
        Some(part(self.octets, (at / 8) as usize, count))
    }

    /// Returns whether the `width` bits that begin at bit `at` are all ones. Returns `None` if the
    /// bits extend past the end of the slice. The width may be greater than 63. An empty range of
    /// bits counts as all ones.
    pub fn all_ones(&self, at: u64, width: u32) -> Option<bool>
        ensures { SomeIff result (at + width ≤ 8 * length (octets_of self.now))
            (are_all_ones (bits_at (octets_of self.now) at width)) }
    {
        let len = self.len_bits();
        if at > len || u64::from(width) > len - at {
            return None;
        }
        let mut from = at;
        let mut left = width;
        while left > 0 {
            let some = left.min(56);
            if self.number(from, some) != (1 << some) - 1 {
                return Some(false);
            }
            from += u64::from(some);
            left -= some;
        }
        Some(true)
    }
}

fn part(octets: &[u8], first: usize, count: usize) -> &[u8]
    requires { first + count ≤ length octets.now }
    ensures value { result.now ≡ slice_range octets.now first (first + count) }
    ensures octets { (k : ℕ) → slice_index result.now k < 2 ^ 8 }
{
    &octets[first..first + count]
}

/// Returns the first eight octets as a big-endian number, or `None` if there are fewer than eight.
#[inline(always)]
fn first_window(octets: &[u8]) -> Option<u64>
    ensures { MatchOption result (length octets.now < 8) (λ window. IsWindow window 0 octets.now) }
{
    match octets.first_chunk::<8>() {
        Some(window) => Some(u64::from_be_bytes(*window)),
        None => None,
    }
}
