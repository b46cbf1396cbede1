//! The values in section 1, and the minimum lengths of the sections (FM 94 BUFR).
ghost use Rattle.std.specs.Prelude.{◌≡◌, ◌≤◌, ◌<◌, ◌-◌, ◌^◌};
ghost use Rattle.bufr_frame.specs.Layout.{even_size};
ghost use Rattle.bufr_frame.specs.Section1.{min_section_1};
ghost use Rattle.bufr_frame.specs.Sections.{is_padded};

/// The edition (octet 8 of section 0) and the values in section 1, exactly as stored in a message.
///
/// The values are not checked. For example, a month of 14 is accepted. In edition 3, the centre,
/// the sub-centre and the year occupy one octet each. Edition 3 has no octets for
/// `local_subcategory` and `second`, so both are 0 (FM 94 BUFR, section 1).
#[derive(Clone, Copy, Debug, PartialEq, Eq)]
pub struct Head {
    /// The edition of FM 94 (octet 8 of section 0).
    pub edition: u8,
    /// The master table number (octet 4).
    pub master: u8,
    /// The originating centre (octets 5 and 6, or octet 6 in edition 3).
    pub centre: u16,
    /// The originating sub-centre (octets 7 and 8, or octet 5 in edition 3).
    pub subcentre: u16,
    /// The update sequence number (octet 9, or octet 7 in edition 3).
    pub update: u8,
    /// The data category (octet 11, or octet 9 in edition 3).
    pub category: u8,
    /// The international data sub-category (octet 12). In edition 3, this field is the data
    /// sub-category (octet 10).
    pub subcategory: u8,
    /// The local data sub-category (octet 13).
    pub local_subcategory: u8,
    /// The version of the master table (octet 14, or octet 11 in edition 3).
    pub master_version: u8,
    /// The version of the local tables (octet 15, or octet 12 in edition 3).
    pub local_version: u8,
    /// The four-digit year (octets 16 and 17). In edition 3, this field is the year of the century
    /// (octet 13).
    pub year: u16,
    /// The month (octet 18, or octet 14 in edition 3).
    pub month: u8,
    /// The day (octet 19, or octet 15 in edition 3).
    pub day: u8,
    /// The hour (octet 20, or octet 16 in edition 3).
    pub hour: u8,
    /// The minute (octet 21, or octet 17 in edition 3).
    pub minute: u8,
    /// The second (octet 22).
    pub second: u8,
}

/// The length of section 0, in octets.
pub(crate) const SECTION_0: usize = 8;

/// Returns the minimum length, in octets, of section 1 in the given edition.
#[tactic(auto, unfolding(crate::specs::Section1::min_section_1))]
// rule: length-under-least
pub(crate) fn min_section_1(edition: u8) -> usize
    ensures value { result ≡ min_section_1 edition }
    ensures least { 17 ≤ result }
{
    if edition == 3 { 17 } else { 22 }
}

/// The length, in octets, of section 2 without the octets for local use.
pub(crate) const SECTION_2: usize = 4;

/// The length, in octets, of section 3 without descriptors.
pub(crate) const SECTION_3: usize = 7;

/// The length, in octets, of section 4 without data.
pub(crate) const SECTION_4: usize = 4;

/// The length of section 5, in octets.
pub(crate) const SECTION_5: usize = 4;

/// Returns whether section 3 or 4 is padded with a zero octet when it is written. `len` is the
/// unpadded length of the section, in octets.
// rule: least-lengths
pub(crate) fn is_padded(edition: u8, len: usize) -> bool
    ensures { result ≡ is_padded edition len }
{
    edition == 3 && len % 2 == 1
}

/// Returns the padded length of section 3 or 4, in octets. `len` is the unpadded length.
// rule: least-lengths
pub(crate) fn even_len(edition: u8, len: usize) -> usize
    requires { len < 2 ^ 64 - 1 }
    ensures { result ≡ even_size edition len }
{
    if is_padded(edition, len) {
        len + 1
    } else {
        len
    }
}
