//! The twenty header keys of a dump, and the parser for the descriptors on a line.
ghost use Rattle.std.specs.Prelude.{get_or, ◌≡◌, ◌<◌, ◌++◌, [], ◌∷◌, length, map, position, true, IfSome, ◌+◌, ◌*◌, ◌≤◌, option_map};
ghost use Rattle.bufr_text.specs.Prelude.{in_range, is_named, lead_of, keys, leasts, mosts, Describes, fxy_read};
ghost use Rattle.std.specs.Str.{bytes_eq};
ghost use Rattle.std.specs.List.{position_from};

use crate::slices::{is, prefix, suffix};
use bufr_tables::Fxy;

/// A header key. The fields are its name (between a line feed and a space), its minimum value, and
/// its maximum values in editions 3 and 4.
pub(crate) struct Key(pub(crate) &'static [u8], u16, u16, u16);

/// The header keys, in the order in which they are written.
pub(crate) static KEYS: [Key; 20] = [
    Key(b"\nedition ", 3, 4, 4),
    Key(b"\nmaster ", 0, 255, 255),
    Key(b"\ncentre ", 0, 255, 65535),
    Key(b"\nsubcentre ", 0, 255, 65535),
    Key(b"\nupdate ", 0, 255, 255),
    Key(b"\ncategory ", 0, 255, 255),
    Key(b"\nsubcategory ", 0, 255, 255),
    Key(b"\nlocalsubcategory ", 0, 0, 255),
    Key(b"\nmasterversion ", 0, 255, 255),
    Key(b"\nlocalversion ", 0, 255, 255),
    Key(b"\nyear ", 0, 255, 65535),
    Key(b"\nmonth ", 0, 255, 255),
    Key(b"\nday ", 0, 255, 255),
    Key(b"\nhour ", 0, 255, 255),
    Key(b"\nminute ", 0, 255, 255),
    Key(b"\nsecond ", 0, 0, 255),
    Key(b"\nobserved ", 0, 1, 1),
    Key(b"\ncompressed ", 0, 1, 1),
    Key(b"\noptional ", 0, 1, 1),
    Key(b"\nsubsets ", 0, 65535, 65535),
];

/// Returns all header keys, in the order in which they are written.
fn keys() -> &'static [Key]
    ensures count { length result.now ≡ 20 }
    ensures leads { map (λ key. key.0.now) result.now ≡ map lead_of keys }
    ensures leasts { map (λ key. key.1) result.now ≡ leasts }
    ensures mosts_3 { map (λ key. key.2) result.now ≡ mosts 3 }
    ensures mosts_4 { map (λ key. key.3) result.now ≡ mosts 4 }
{
    &KEYS
}

/// Returns whether a key has the given name. `lead` contains the octets that precede the key's
/// value (a line feed, the key's name, and a space).
fn is_named(lead: &[u8], name: &[u8]) -> bool
    ensures { result ≡ is_named lead.now name.now }
{
    match lead {
        [_, own @ .., _] => is(name, own),
        _ => false,
    }
}

/// Returns the index of the first key with the given name.
fn position(keys: &[Key], name: &[u8]) -> Option<usize>
    ensures { result ≡ position (λ key. is_named key.0.now name.now) keys.now }
{
    keys.iter().position(|key| is_named(key.0, name))
}

/// Returns the name of the key at the given index, followed by a space.
pub(crate) fn word_at(index: usize) -> Option<&'static [u8]>
    ensures few { IfSome result (λ _. index < 20) }
    ensures word { IfSome result (λ word. word.now ≡ get_or keys index [] ++ 32 ∷ []) }
{
    match keys().get(index)?.0 {
        [_, word @ ..] => Some(word),
        [] => None,
    }
}

/// Returns the index of the key with the given name.
pub(crate) fn key_index(name: &[u8]) -> Option<usize>
    ensures value { result ≡ position_from (bytes_eq name.now) 0 keys }
    ensures few { IfSome result (λ index. index < 20) }
{
    position(keys(), name)
}

/// Returns whether a value is valid for a header key in the given edition.
#[tactic(auto, unfolding(crate::specs::Line::mosts))]
// rule: reading-header-ranges
pub(crate) fn in_range(edition: u16, key: usize, value: u32) -> bool
    requires { key < 20 }
    ensures value { result ≡ in_range edition key value }
    ensures few { result ≡ true → value < 65536 }
{
    let key = &keys()[key];
    let most = if edition == 3 { key.2 } else { key.3 };
    u32::from(key.1) <= value && value <= u32::from(most)
}

/// The number of octets that a descriptor occupies in a line, including the space before it.
const SPACED: usize = 7;

/// The maximum number of descriptors in one line.
pub(crate) const MOST_WORDS: usize = 8;

/// Parses a descriptor from the first six octets of `text`. Returns the descriptor as a 16-bit
/// word, along with the octets after it.
#[tactic(auto, using(crate::proofs::ItemLemmas::by_six))]
pub(crate) fn fxy_prefix<'a>(text: &'a [u8]) -> Option<(u16, &'a [u8])>
    ensures value { option_map (λ read. (read.0, read.1.now)) result ≡ fxy_read text.now }
    ensures within { IfSome result (λ read. length read.1.now ≤ length text.now) }
{
    if text.len() < 6 {
        return None;
    }
    let fxy = Fxy::read(prefix(text, 6))?;
    Some((fxy.word(), suffix(text, 6)))
}

/// Parses 1 to 8 descriptors, each preceded by one space. Stores the descriptors at the start of
/// `out`, and returns how many it stored.
#[tactic(auto, using(crate::proofs::ItemLemmas::describing_steps))]
// rule: reading-descriptor
pub(crate) fn describe(text: &[u8], out: &mut [u16]) -> Option<usize>
    requires { length out.old ≡ 8 }
    ensures { Describes text.now out.new result }
{
    if text.is_empty() || text.len() > SPACED * MOST_WORDS {
        return None;
    }
    let mut count = 0;
    while SPACED * count < text.len() {
        let next = suffix(text, SPACED * count);
        if next.len() < SPACED || next[0] != b' ' {
            return None;
        }
        let fxy = Fxy::read(prefix(suffix(next, 1), 6))?;
        out[count] = fxy.word();
        count += 1;
    }
    Some(count)
}
