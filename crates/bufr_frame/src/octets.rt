//! Conversion between numbers and the two or three octets that store them in big-endian order.
ghost use Rattle.std.specs.Prelude.{◌≡◌, ◌≤◌, ◌<◌, ◌+◌, ◌/◌, ◌%◌, ◌^◌, length};
ghost use Rattle.bufr_frame.specs.Octets.{u16_at, u24_at};

/// Returns the big-endian 16-bit number at index `p`.
pub(crate) fn u16_at(m: &[u8], p: usize) -> u16
    requires { p + 2 ≤ length m.now }
    ensures { result ≡ u16_at m.now p }
{
    256 * u16::from(m[p]) + u16::from(m[p + 1])
}

/// Returns the big-endian 24-bit number at index `p`.
pub(crate) fn u24_at(m: &[u8], p: usize) -> usize
    requires { p + 3 ≤ length m.now }
    ensures value { result ≡ u24_at m.now p }
    ensures most { result < 2 ^ 24 }
{
    65536 * (m[p] as usize) + 256 * (m[p + 1] as usize) + m[p + 2] as usize
}

/// Returns the high-order octet of a 16-bit number.
pub(crate) fn high_octet(number: u16) -> u8
    ensures { result ≡ number / 256 }
{
    (number / 256) as u8
}

/// Returns the low-order octet of a 16-bit number.
pub(crate) fn low_octet(number: u16) -> u8
    ensures { result ≡ number % 256 }
{
    (number % 256) as u8
}
