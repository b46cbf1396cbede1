//! Splitting a message into its sections (FM 94 BUFR).
ghost use Rattle.std.specs.Prelude.{◌≡◌, ◌≤◌, ◌+◌, length, IsTrue, Some, None, slice_range, if◌then◌else◌, ◌<◌, ◌*◌, ◌^◌, ◌-◌, Ok, IfOk, slice_get, ◌↔◌, []};
ghost use Rattle.std.specs.Option.{option_map};
ghost use Rattle.bufr_frame.specs.Section1.{edition_of, min_section_1, head_of};
ghost use Rattle.bufr_frame.specs.Sections.{has_section2, section_end, sections_of, Sections};
ghost use Rattle.bufr_frame.specs.Octets.{words_left, words};
ghost use Rattle.bufr_bits.specs.Prelude.{octets_of};
ghost use Rattle.std.specs.Iterator.{YieldsFirst, item_count};

use crate::fault::SectionFault;
use crate::octets::{u16_at, u24_at};
use crate::section1::{
    Head, SECTION_0, SECTION_2, SECTION_3, SECTION_4, SECTION_5, is_padded, min_section_1,
};
use bufr_bits::BitSlice;
use std::marker::Model;

/// An edition 3 or 4 message, split into its sections. This type borrows the message's octets.
///
/// ```
/// if let Event::Frame(offset, octets) = finder.next(&mut input)? {
///     let message = Message::parse(octets)?;
///     let centre = message.head().centre;
///     for word in message.descriptors() {
///         // ..
///     }
/// }
/// ```
///
/// (FM 94 BUFR, sections 0 to 5)
#[derive(Debug, Drop)]
pub struct Message<'a> {
    octets: &'a [u8],
    head: Head,
    local1: &'a [u8],
    section2: Option<&'a [u8]>,
    descriptors: &'a [u8],
    subsets: u16,
    observed: bool,
    compressed: bool,
    payload: &'a [u8],
}

impl<'a> Model for Message<'a> {
    ghost Value = { Sections };

    ghost view = { λ m. record {
      head = m.head;
      local1 = m.local1.now;
      section2 = option_map (λ s. s.now) m.section2;
      descriptors = words m.descriptors.now;
      subsets = m.subsets;
      observed = m.observed;
      compressed = m.compressed;
      payload = m.payload.now;
      size = length m.octets.now;
    } };

    ghost invariant = { λ m. length m.payload.now < 2 ^ 24 };
}

/// Returns the edition (octet 8 of section 0) and the values in section 1.
// rule: odd-values-kept, section-1-of-edition-3, edition-3-lacks, year-of-the-century
// rule: listing-of-edition-3, section-1-of-edition-4
#[tactic(auto, unfolding(crate::specs::Section1::min_section_1))]
#[inline(always)]
fn head_at(m: &[u8]) -> Head
    requires long { 8 ≤ length m.now }
    requires first { 8 + min_section_1 (edition_of m.now) ≤ length m.now }
    ensures { result ≡ head_of m.now }
{
    if m[7] == 3 {
        return Head {
            edition: m[7],
            master: m[11],
            subcentre: u16::from(m[12]),
            centre: u16::from(m[13]),
            update: m[14],
            category: m[16],
            subcategory: m[17],
            local_subcategory: 0,
            master_version: m[18],
            local_version: m[19],
            year: u16::from(m[20]),
            month: m[21],
            day: m[22],
            hour: m[23],
            minute: m[24],
            second: 0,
        };
    }
    Head {
        edition: m[7],
        master: m[11],
        centre: u16_at(m, 12),
        subcentre: u16_at(m, 14),
        update: m[16],
        category: m[18],
        subcategory: m[19],
        local_subcategory: m[20],
        master_version: m[21],
        local_version: m[22],
        year: u16_at(m, 23),
        month: m[25],
        day: m[26],
        hour: m[27],
        minute: m[28],
        second: m[29],
    }
}

// rule: section-2
fn section2_of(m: &[u8], first: usize, second: usize) -> Option<&[u8]>
    requires long { 18 ≤ length m.now }
    requires within { second ≤ length m.now }
    requires section2 { IsTrue (has_section2 m.now) → first + 4 ≤ second }
    ensures { option_map (λ s. s.now) result
        ≡ (if has_section2 m.now then Some (slice_range m.now (first + 4) second) else None) }
{
    if has_second(m) {
        Some(&m[first + SECTION_2..second])
    } else {
        None
    }
}

impl<'a> Message<'a> {
    /// Splits a message into its sections. The message must have at least 12 octets. Octets 1 to 7
    /// and the last four octets are neither read nor checked. This function does not allocate.
    ///
    /// # Errors
    ///
    /// Returns the first of the following faults that applies:
    ///
    /// - [`SectionFault::Edition`] if the edition is neither 3 nor 4.
    /// - Sections 1 to 4 are checked in order (section 2 only if bit 1 of the flags in section 1 is
    ///   set). [`SectionFault::SectionPast`] if the section's length field extends into the last
    ///   four octets of the message. [`SectionFault::SectionShort`] if section 1 has fewer than 22
    ///   octets (17 in edition 3), section 2 or 4 has fewer than 4, or section 3 has fewer than 7.
    ///   [`SectionFault::SectionPast`] if the section extends into the last four octets.
    /// - [`SectionFault::SectionsEnd`] if section 4 does not end directly before the last four
    ///   octets.
    /// - [`SectionFault::Edition3Long`] if an edition 3 message is longer than 16,777,213 octets
    ///   and its section 3 or 4 has an odd length.
    #[tactic(auto, unfolding(crate::specs::Sections::sections_of))]
    // rule: edition-first, sections-in-order, section-4-end, local-use, section-3, section-4
    // rule: reserved-ignored, edition-3-length, order-of-sections
    #[inline(always)]
    pub fn parse(octets: &'a [u8]) -> Result<Message<'a>, SectionFault>
        requires { 12 ≤ length octets.now }
        ensures { result ≡ sections_of octets.now }
    {
        let edition = octets[7];
        if edition != 3 && edition != 4 {
            return Err(SectionFault::Edition(edition));
        }
        let first = section_end_at(octets, 1, min_section_1(edition), SECTION_0)?;
        let second = second_end(octets, first)?;
        let third = section_end_at(octets, 3, SECTION_3, second)?;
        let fourth = section_end_at(octets, 4, SECTION_4, third)?;
        if fourth != octets.len() - SECTION_5 {
            return Err(SectionFault::SectionsEnd);
        }
        let is_odd = is_padded(edition, third - second) || is_padded(edition, fourth - third);
        if is_odd && octets.len() > MOST_ODD {
            return Err(SectionFault::Edition3Long);
        }
        let flags = octets[second + 6];
        Ok(Message {
            octets,
            head: head_at(octets),
            local1: &octets[SECTION_0 + min_section_1(edition)..first],
            section2: section2_of(octets, first, second),
            descriptors: &octets[second + SECTION_3..third],
            subsets: u16_at(octets, second + 4),
            observed: flags >= 128,
            compressed: flags % 128 >= 64,
            payload: &octets[third + SECTION_4..fourth],
        })
    }

    /// Returns the edition and the values in section 1.
    pub fn head(&self) -> Head
        ensures { result ≡ self.now.head }
    {
        self.head
    }

    /// Returns the octets for local use in section 1, which begin at octet 23 (octet 18 in edition
    /// 3).
    pub fn local1(&self) -> &'a [u8]
        ensures { result.now ≡ self.now.local1 }
    {
        self.local1
    }

    /// Returns section 2 from octet 5 on, or `None` if the message has no section 2.
    pub fn section2(&self) -> Option<&'a [u8]>
        ensures { option_map (λ s. s.now) result ≡ self.now.section2 }
    {
        self.section2
    }

    /// Returns descriptor `i` of section 3 as a 16-bit number, or `None` if section 3 has no such
    /// descriptor. Descriptors are counted from 0. A single octet after the last complete
    /// descriptor is ignored.
    pub fn descriptor(&self, i: usize) -> Option<u16>
        ensures { result ≡ slice_get self.now.descriptors i }
    {
        if i >= self.descriptors.len() / 2 {
            return None;
        }
        Some(u16_at(self.descriptors, 2 * i))
    }

    /// Returns an iterator over the descriptors of section 3. The iterator yields the descriptors
    /// in order, as 16-bit numbers.
    pub fn descriptors(&self) -> Words<'a>
        ensures { words_left result ≡ self.now.descriptors }
    {
        Words {
            octets: self.descriptors,
        }
    }

    /// Returns the number of subsets (octets 5 and 6 of section 3).
    pub fn subsets(&self) -> u16
        ensures { result ≡ self.now.subsets }
    {
        self.subsets
    }

    /// Returns whether the message contains observed data (bit 1 of octet 7 in section 3).
    pub fn observed(&self) -> bool
        ensures { result ≡ self.now.observed }
    {
        self.observed
    }

    /// Returns whether the data are compressed (bit 2 of octet 7 in section 3).
    pub fn compressed(&self) -> bool
        ensures { result ≡ self.now.compressed }
    {
        self.compressed
    }

    /// Returns the octets of section 4 from octet 5 on, which contain the data and padding. The
    /// result has fewer than 2^24 octets.
    pub fn payload(&self) -> BitSlice<'a>
        ensures value { octets_of result ≡ self.now.payload }
        ensures short { length self.now.payload < 2 ^ 24 }
    {
        BitSlice::new(self.payload)
    }

    /// Returns the length of the message in octets.
    pub fn length(&self) -> u64
        ensures { result ≡ self.now.size }
    {
        self.octets.len() as u64
    }
}

/// An iterator over the words in a slice of octets. Each word is a big-endian 16-bit number. If the
/// number of octets is odd, the last one is ignored.
#[derive(Debug, Drop)]
pub struct Words<'a> {
    octets: &'a [u8],
}

impl<'a> Words<'a> {
    /// Returns the number of remaining words.
    pub fn len(&self) -> usize
        ensures { result ≡ length (words_left self.now) }
    {
        self.octets.len() / 2
    }

    /// Returns whether no words remain.
    pub fn is_empty(&self) -> bool
        ensures { IsTrue result ↔ (words_left self.now ≡ []) }
    {
        self.octets.len() < 2
    }
}

impl<'a> Iterator for Words<'a> {
    type Item = u16;

    ghost next_gives = { YieldsFirst words_left };

    ghost remaining = { item_count words_left };

    // rule: descriptors-of-section-3
    fn next(&mut self) -> Option<u16> {
        match self.octets {
            [first, second, rest @ ..] => {
                let word = 256 * u16::from(*first) + u16::from(*second);
                self.octets = rest;
                Some(word)
            }
            _ => None,
        }
    }
}

/// Returns the index just after section `k`. The section begins at index `p` and must be at least
/// `least` octets long.
#[tactic(auto, unfolding(crate::specs::Sections::section_end))]
// rule: odd-sections-read, length-past-end, length-under-least, section-past-end
// rule: order-of-sections
fn section_end_at(m: &[u8], k: u8, least: usize, p: usize) -> Result<usize, SectionFault>
    requires long { 12 ≤ length m.now }
    requires near { p < 2 ^ 33 }
    ensures value { result ≡ section_end m.now k least p }
    ensures end { IfOk result (λ q. q ≤ length m.now - 4) }
    ensures least { IfOk result (λ q. p + least ≤ q) }
    ensures most { IfOk result (λ q. q < p + 2 ^ 24) }
{
    let end = m.len() - SECTION_5;
    if end < p + 3 {
        return Err(SectionFault::SectionPast(k));
    }
    let len = u24_at(m, p);
    if len < least {
        return Err(SectionFault::SectionShort(k));
    }
    if end < p + len {
        return Err(SectionFault::SectionPast(k));
    }
    Ok(p + len)
}

// rule: section-2-flag
fn has_second(m: &[u8]) -> bool
    requires { 18 ≤ length m.now }
    ensures { result ≡ has_section2 m.now }
{
    let flags = if m[7] == 3 { m[15] } else { m[17] };
    flags >= 128
}

/// Returns the index just after section 2. If the message has no section 2, returns `first`, which
/// is the index just after section 1.
fn second_end(m: &[u8], first: usize) -> Result<usize, SectionFault>
    requires long { 18 ≤ length m.now }
    requires near { first < 2 ^ 31 }
    ensures value { result ≡ (if has_section2 m.now
        then section_end m.now 2 4 first else Ok first) }
    ensures end { first ≤ length m.now - 4 → IfOk result (λ q. q ≤ length m.now - 4) }
    ensures least { IfOk result (λ q. first ≤ q) }
    ensures section2 { IsTrue (has_section2 m.now) → IfOk result (λ q. first + 4 ≤ q) }
    ensures most { IfOk result (λ q. q < 2 ^ 32) }
{
    if has_second(m) {
        section_end_at(m, 2, SECTION_2, first)
    } else {
        Ok(first)
    }
}

/// The maximum length, in octets, that leaves room for two padding octets in an edition 3 message.
const MOST_ODD: usize = 16_777_213;
