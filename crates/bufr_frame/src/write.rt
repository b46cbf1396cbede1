//! Writing a message from its parts.
ghost use Rattle.std.specs.Prelude.{◌≡◌, ◌≤◌, ◌<◌, ◌+◌, ◌*◌, ◌/◌, ◌%◌, ◌^◌, ◌↔◌, ◌++◌, length, IfOk, OnOk, Ok, Err, Some, SomeIff, IsTrue, false, if◌then◌else◌};
ghost use Rattle.std.specs.Option.{option_map};
ghost use Rattle.bufr_frame.specs.Prelude.{three_octets, octets_of_words, sections_of, even_size, with_even_length, is_writable, message_octets, message_size, max_octets, with_pad_octet, parts_of, sections_from, head_octets, section2_octets, section3_octets, section4_octets, size_from, octets_3, octets_4};

use crate::fault::WriteFault;
use crate::octets::{high_octet, low_octet};
use crate::section1::{
    Head, SECTION_0, SECTION_2, SECTION_3, SECTION_4, SECTION_5, even_len, is_padded, min_section_1,
};
use std::alloc::{AllocError, Global};

/// The maximum length of a message, in octets. A message declares its length in three octets.
const MAX_OCTETS: usize = 16_777_215;

/// Returns the length, in octets, of a message that is written from the given parts. Returns `None`
/// if the message would be too long.
#[tactic(auto, unfolding(crate::specs::Section1::min_section_1))]
// rule: greatest-length
fn size_of(
    edition: u8,
    local1: &[u8],
    section2: Option<&[u8]>,
    descriptors: &[u16],
    payload: &[u8],
) -> Option<usize>
    ensures lengths { let n = size_from edition (length local1.now) (option_map (λ s. s.now)
        section2.entry) (length descriptors.now) (length payload.now) in
        SomeIff result (n ≤ max_octets) n }
    ensures size { let p = parts_of local1.now (option_map (λ s. s.now) section2.entry)
        descriptors.now 0 false false payload.now in
        SomeIff result (message_size edition p ≤ max_octets) (message_size edition p) }
{
    let second = match section2 {
        None => 0,
        Some(octets) => octets.len().saturating_add(SECTION_2),
    };
    let third = even_len(edition, SECTION_3 + 2 * descriptors.len());
    let fourth = even_len(edition, SECTION_4 + payload.len());
    let size = (SECTION_0 + SECTION_5 + min_section_1(edition))
        .saturating_add(local1.len())
        .saturating_add(second)
        .saturating_add(third)
        .saturating_add(fourth);
    if size > MAX_OCTETS { None } else { Some(size) }
}

fn push_three(octets: &mut Vec<u8>, n: usize) -> Result<(), AllocError>
    requires { n < 2 ^ 24 }
    ensures { OnOk result (octets.new.items ≡ octets.old.items ++ three_octets n) }
{
    octets.extend_from_slice(&[(n / 65536) as u8, (n / 256 % 256) as u8, (n % 256) as u8])
}

/// Returns octets 4 to 17 of section 1 in edition 3. Octets for local use begin at octet 18.
// rule: section-1-of-edition-3, year-of-the-century
fn head_octets_3(head: &Head, optional: bool) -> [u8; 14]
    requires centre { head.now.centre ≤ 255 }
    requires subcentre { head.now.subcentre ≤ 255 }
    requires year { head.now.year ≤ 255 }
    ensures { result ≡ octets_3 head.now (if optional then 128 else 0) }
{
    [
        head.master,
        head.subcentre as u8,
        head.centre as u8,
        head.update,
        if optional { 128 } else { 0 },
        head.category,
        head.subcategory,
        head.master_version,
        head.local_version,
        head.year as u8,
        head.month,
        head.day,
        head.hour,
        head.minute,
    ]
}

/// Returns octets 4 to 22 of section 1 in edition 4. Octets for local use begin at octet 23.
// rule: section-1-of-edition-4
fn head_octets_4(head: &Head, optional: bool) -> [u8; 19]
    ensures { result ≡ octets_4 head.now (if optional then 128 else 0) }
{
    [
        head.master,
        high_octet(head.centre),
        low_octet(head.centre),
        high_octet(head.subcentre),
        low_octet(head.subcentre),
        head.update,
        if optional { 128 } else { 0 },
        head.category,
        head.subcategory,
        head.local_subcategory,
        head.master_version,
        head.local_version,
        high_octet(head.year),
        low_octet(head.year),
        head.month,
        head.day,
        head.hour,
        head.minute,
        head.second,
    ]
}

/// Appends section 1 from octet 4 on, without the octets for local use.
fn push_head(octets: &mut Vec<u8>, head: &Head, optional: bool) -> Result<(), AllocError>
    requires { IsTrue (is_writable head.now) }
    ensures { OnOk result (octets.new.items ≡ octets.old.items ++ head_octets head.now optional) }
{
    if head.edition == 3 {
        octets.extend_from_slice(&head_octets_3(head, optional))
    } else {
        octets.extend_from_slice(&head_octets_4(head, optional))
    }
}

// rule: writes-even-sections
fn push_padding(octets: &mut Vec<u8>, pads: bool) -> Result<(), AllocError>
    ensures { OnOk result (octets.new.items ≡ with_pad_octet pads octets.old.items) }
{
    if pads {
        octets.push(0)?;
    }
    Ok(())
}

/// Appends section 2 or 4. The section consists of its length, a reserved octet and its content. If
/// `pads` is true, a zero octet follows the content.
fn push_plain(octets: &mut Vec<u8>, content: &[u8], pads: bool) -> Result<(), AllocError>
    requires { 4 + length (with_pad_octet pads content.now) < 2 ^ 24 }
    ensures { OnOk result
        (octets.new.items ≡ octets.old.items ++ section4_octets (with_pad_octet pads content.now)) }
{
    let len = SECTION_4 + content.len();
    push_three(octets, if pads { len + 1 } else { len })?;
    octets.push(0)?;
    octets.extend_from_slice(content)?;
    push_padding(octets, pads)
}

// rule: section-2, sections-1-and-2-as-given
fn push_section2(octets: &mut Vec<u8>, section2: Option<&[u8]>) -> Result<(), AllocError>
    requires { length (section2_octets (option_map (λ s. s.now) section2)) < 2 ^ 24 }
    ensures { OnOk result (octets.new.items
        ≡ octets.old.items ++ section2_octets (option_map (λ s. s.now) section2.entry)) }
{
    match section2 {
        None => Ok(()),
        Some(content) => push_plain(octets, content, false),
    }
}

fn push_words(octets: &mut Vec<u8>, words: &[u16]) -> Result<(), AllocError>
    ensures { OnOk result (octets.new.items ≡ octets.old.items ++ octets_of_words words.now) }
{
    for word in words {
        octets.extend_from_slice(&[high_octet(*word), low_octet(*word)])?;
    }
    Ok(())
}

// rule: section-3, reserved-zero, writes-no-pad-octet
fn push_section3(
    octets: &mut Vec<u8>,
    edition: u8,
    descriptors: &[u16],
    subsets: u16,
    flags: u8,
) -> Result<(), AllocError>
    requires { even_size edition (7 + 2 * length descriptors.now) < 2 ^ 24 }
    ensures { OnOk result (octets.new.items ≡ octets.old.items
        ++ section3_octets (with_even_length edition 7 (octets_of_words descriptors.now)) subsets
        flags) }
{
    let len = SECTION_3 + 2 * descriptors.len();
    push_three(octets, even_len(edition, len))?;
    octets.extend_from_slice(&[0, high_octet(subsets), low_octet(subsets), flags])?;
    push_words(octets, descriptors)?;
    push_padding(octets, is_padded(edition, len))
}

/// Writes an edition 3 or 4 message from its parts. The message begins with `BUFR`, declares its
/// length in octets 5 to 7, and ends with `7777`. Each section is as short as possible, and
/// reserved octets and bits are zero. `local1` begins at octet 23 of section 1 (octet 18 in edition
/// 3), `section2` at octet 5 of section 2, and `payload` at octet 5 of section 4. In edition 3,
/// section 3 is padded with a zero octet, and so is section 4 if its length would otherwise be odd.
///
/// `head.edition` must be 3 or 4. In edition 3, the centre, the sub-centre and the year must each
/// fit in one octet, and the local sub-category and the second must be 0 (FM 94 BUFR, sections 0 to
/// 5).
///
/// ```
/// let message = Message::parse(octets)?;
/// let without_section2 = write_message(
///     alloc, &message.head(), message.local1(), None, &descriptors,
///     message.subsets(), message.observed(), message.compressed(), &payload,
/// )?;
/// ```
///
/// # Errors
///
/// [`WriteFault::TooLong`] if and only if the message would be longer than 16,777,215 octets.
/// [`WriteFault::Memory`] if memory runs out.
// rule: reserved-zero, section-0, section-4, section-5, sections-1-and-2-as-given
pub fn write_message(
    alloc: Global,
    head: &Head,
    local1: &[u8],
    section2: Option<&[u8]>,
    descriptors: &[u16],
    subsets: u16,
    observed: bool,
    compressed: bool,
    payload: &[u8],
) -> Result<Vec<u8>, WriteFault>
    requires { IsTrue (is_writable head.now) }
    ensures layout { IfOk result (λ octets. octets.items ≡ message_octets head.now
        (parts_of local1.now (option_map (λ s. s.now) section2.entry) descriptors.now subsets
        observed compressed payload.now)) }
    // Parsing the written message returns the same parts, except that a payload in edition 3 may
    // then end with an additional padding octet.
    ensures read_back { IfOk result (λ octets. sections_of octets.items ≡ Ok (sections_from head.now
        (parts_of local1.now (option_map (λ s. s.now) section2.entry) descriptors.now subsets
        observed compressed payload.now))) }
    ensures too_long { (result ≡ Err WriteFault.TooLong) ↔
        (max_octets < message_size head.now.edition
        (parts_of local1.now (option_map (λ s. s.now) section2.entry) descriptors.now subsets
        observed compressed payload.now)) }
{
    let Some(size) = size_of(head.edition, local1, section2, descriptors, payload) else {
        return Err(WriteFault::TooLong);
    };
    let mut octets = Vec::with_capacity(alloc, size)?;
    octets.extend_from_slice(b"BUFR")?;
    push_three(&mut octets, size)?;
    octets.extend_from_slice(&[head.edition])?;
    push_three(&mut octets, min_section_1(head.edition) + local1.len())?;
    push_head(&mut octets, head, section2.is_some())?;
    octets.extend_from_slice(local1)?;
    push_section2(&mut octets, section2)?;
    push_section3(
        &mut octets,
        head.edition,
        descriptors,
        subsets,
        128 * u8::from(observed) + 64 * u8::from(compressed),
    )?;
    let pads = is_padded(head.edition, SECTION_4 + payload.len());
    push_plain(&mut octets, payload, pads)?;
    octets.extend_from_slice(b"7777")?;
    Ok(octets)
}
