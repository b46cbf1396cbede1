//! Descriptors (F X Y), which appear in section 3 of messages, in templates and in tables.
ghost use Rattle.std.specs.Prelude.{◌≡◌, ◌<◌, ◌≤◌, IsTrue, Some, length, ℕ};
ghost use Rattle.std.specs.Char.{is_ascii_digit};
ghost use Rattle.std.specs.List.{list_all};
ghost use Rattle.bufr_tables.specs.Fxy.{f_of, x_of, y_of, fxy_text, fxy_of, is_factor, key_of, number_at};
ghost use Rattle.bufr_tables.specs.Tree.{gives_width, is_legal_operator};

use std::fmt;
use std::marker::Model;

/// A descriptor (F X Y), as used in section 3 of a message. F has two bits, X has six and Y has
/// eight (FM 94 BUFR).
///
/// F is 0 for an element of Table B, 1 for a replication, 2 for an operator and 3 for a sequence of
/// Table D. In contracts, a descriptor is represented by the 16-bit number that encodes it.
///
/// ```
/// let temperature = Fxy::from_word(0x0c65);
/// assert_eq!(rt; temperature.text(), *b"012101");
/// assert_eq!(rt; (temperature.f(), temperature.x(), temperature.y()), (0, 12, 101));
/// ```
#[derive(Clone, Copy, Debug, PartialEq, Eq)]
pub struct Fxy {
    word: u16,
}

impl Model for Fxy {
    ghost Value = { ℕ };

    ghost view = { λ d. d.word };

    ghost inverse = { λ n. record { word = n } };
}

impl Fxy {
    /// Creates a descriptor from the 16-bit number that encodes it.
    pub const fn from_word(word: u16) -> Fxy
        ensures { result ≡ word }
    {
        Fxy { word }
    }

    /// Returns the 16-bit number that encodes the descriptor.
    pub const fn word(self) -> u16
        ensures { result ≡ self }
    {
        self.word
    }

    /// Returns F (0 to 3).
    pub const fn f(self) -> u8
        ensures value { result ≡ f_of self }
        ensures most { result ≤ 3 }
    {
        (self.word / 16384) as u8
    }

    /// Returns X (0 to 63). X is the class of an element, the category of a sequence, the number of
    /// descriptors that a replication repeats, or the kind of an operator.
    pub const fn x(self) -> u8
        ensures value { result ≡ x_of self }
        ensures most { result ≤ 63 }
    {
        (self.word / 256 % 64) as u8
    }

    /// Returns Y (0 to 255). Y is the number of an element within its class, the number of a
    /// sequence within its category, the repetition count of a replication, or the operand of an
    /// operator.
    pub const fn y(self) -> u8
        ensures { result ≡ y_of self }
    {
        (self.word % 256) as u8
    }

    /// Returns whether this is a replication factor (0 31 000, 0 31 001 or 0 31 002).
    pub const fn is_factor(self) -> bool
        ensures { result ≡ is_factor self }
    {
        self.f() == 0 && self.x() == 31 && self.y() <= 2
    }

    /// Returns whether this is the operator 2 06 Y, which specifies the data width of the next
    /// descriptor.
    pub(crate) const fn gives_width(self) -> bool
        ensures { result ≡ gives_width self }
    {
        self.f() == 2 && self.x() == 6
    }

    /// Returns whether a template may contain this operator (Table C) with this operand.
    // rule: operators-known
    pub(crate) const fn is_legal_operator(self) -> bool
        ensures { result ≡ is_legal_operator self }
    {
        let operand = self.y();
        match self.x() {
            1 | 2 | 8 => true,
            3 => operand <= 63 || operand == 255,
            5 | 6 => operand >= 1,
            7 => operand <= 18,
            _ => false,
        }
    }

    /// Returns X and Y as one 14-bit number (`256 * X + Y`).
    pub(crate) const fn key(self) -> usize
        ensures value { result ≡ key_of self }
        ensures most { result < 16384 }
    {
        (self.word % 16384) as usize
    }

    /// Returns the descriptor as six digits, for example `012101`.
    // rule: descriptor-fxy
    pub const fn text(self) -> [u8; 6]
        ensures value { result ≡ fxy_text self }
        ensures reads_back { fxy_of result ≡ Some self }
    {
        let (x, y) = (self.x(), self.y());
        [
            b'0' + self.f(),
            b'0' + x / 10,
            b'0' + x % 10,
            b'0' + y / 100,
            b'0' + y / 10 % 10,
            b'0' + y % 10,
        ]
    }

    /// Parses a descriptor of the form `FXXYYY`, which has one digit for F, two for X and three for
    /// Y. Returns `None` if `text` does not consist of six digits, or if F exceeds 3 (two bits), X
    /// exceeds 63 (six bits) or Y exceeds 255 (eight bits).
    ///
    /// ```
    /// assert_eq!(rt; Fxy::read(b"012101"), Some(Fxy::from_word(0x0c65)));
    /// assert_eq!(rt; Fxy::read(b"064000"), None);
    /// ```
    // rule: descriptor-fxy
    pub fn read(text: &[u8]) -> Option<Fxy>
        ensures { result ≡ fxy_of text.now }
    {
        if text.len() != 6 || !are_digits(text) {
            return None;
        }
        let f = digit_at(text, 0);
        let x = 10 * digit_at(text, 1) + digit_at(text, 2);
        let y = 100 * digit_at(text, 3) + 10 * digit_at(text, 4) + digit_at(text, 5);
        if f > 3 || x > 63 || y > 255 {
            return None;
        }
        Some(Fxy {
            word: f * 16384 + x * 256 + y,
        })
    }
}

/// Formats a descriptor as six digits, for example `012101`.
impl fmt::Display for Fxy {
    fn fmt<W: fmt::Write>(&self, f: &mut fmt::Formatter<W>) -> fmt::Result {
        write!(f, "{}{:02}{:03}", self.f(), self.x(), self.y())
    }
}

/// Returns the value of the digit at index `place`. All octets in `text` must be digits.
fn digit_at(text: &[u8], place: usize) -> u16
    requires digits { IsTrue (list_all is_ascii_digit text.now) }
    requires inside { place < length text.now }
    ensures value { result ≡ number_at text.now place }
    ensures most { result ≤ 9 }
{
    u16::from(text[place] - b'0')
}

pub(crate) fn are_digits(text: &[u8]) -> bool
    ensures { result ≡ list_all is_ascii_digit text.now }
{
    text.iter().all(|octet| octet.is_ascii_digit())
}
