//! The parser for a single line and its parts (the first word, numbers, items, quoted strings and
//! octets).
ghost use Rattle.std.specs.Prelude.{◌≡◌, ℕ, ◌<◌, ◌≤◌, ◌==◌, IfSome, List, length, take, drop, option_map, if◌then◌else◌, min, ◌+◌, ◌-◌, slice_index, Some, ◌*◌};
ghost use Rattle.std.specs.List.{prefix_len};
ghost use Rattle.std.specs.Option.{option_and_then, unwrap_or};
ghost use Rattle.bufr_text.specs.Prelude.{max_line, read_line, without_space, hex_read, number_read, without_prefix, is_number_octet, is_hashed, is_end_or_comment, is_unescaped, upper_value, quoting_of, either_value, Line, with_one_to, worded, line_of, value_read, item_line, number_value, ItemLine, item_if_comment, short_form, Unquotes, Unhexes, meaning, Invalid};
ghost use Rattle.bufr_fill.specs.Prelude.{reference_token, form_in};

use crate::header::{MOST_WORDS, describe, fxy_prefix, key_index, word_at};
use crate::slices::{is, prefix, suffix};
use bufr_bits::ShortDecimal;
use bufr_fill::DraftValue;
use bufr_tables::Fxy;
use memchr::memchr;

/// The maximum length of a line, in octets, without its line feed.
pub(crate) const MAX_LINE: usize = 4096;

/// A parsed line. Hexadecimal digits and quoted strings have already been decoded into octets.
#[derive(Clone, Copy)]
pub(crate) enum ParsedLine<'a> {
    Skipped,
    Message,
    Header { key: usize, value: u32 },
    Local1(&'a [u8]),
    Section2(&'a [u8]),
    Descriptors(&'a [u16]),
    Subset(u32),
    Item { fxy: u16, form: DraftValue<'a> },
    End,
    Invalid,
}

/// Decodes hexadecimal digits that follow a single space, and stores the octets in `scratch`. The
/// digits must encode 1 to 32 octets.
// rule: reading-long-lists
fn octets_after<'a>(rest: &[u8], scratch: &'a mut [u8]) -> Option<&'a [u8]>
    requires { length rest.now ≤ length scratch.old }
    ensures { (line : List ℕ → Line) → option_map line (option_map (λ s. s.now) result)
        ≡ option_and_then (with_one_to 32 line) (option_and_then hex_read
        (without_space rest.now)) }
{
    let count = decode_hex(without_space(rest)?, scratch)?;
    if count == 0 || count > 32 {
        return None;
    }
    Some(prefix(scratch, count))
}

/// Parses a line that begins with the given word. `rest` is the text after the word.
// rule: reading-long-lists
#[tactic(auto, unfolding(crate::specs::Line::worded))]
fn worded<'a>(
    word: &[u8],
    rest: &'a [u8],
    octets: &'a mut [u8; MAX_LINE],
    words: &'a mut [u16; MOST_WORDS],
) -> Option<ParsedLine<'a>>
    requires { length rest.now ≤ max_line }
    ensures { option_map meaning result ≡ worded word.now rest.now }
{
    if is(word, b"message") {
        return rest.is_empty().then_some(ParsedLine::Message);
    }
    if is(word, b"local1") {
        let octets = octets_after(rest, octets.as_mut_slice())?;
        return Some(ParsedLine::Local1(octets));
    }
    if is(word, b"section2") {
        let octets = octets_after(rest, octets.as_mut_slice())?;
        return Some(ParsedLine::Section2(octets));
    }
    if is(word, b"descriptors") {
        let words = words.as_mut_slice();
        let count = describe(rest, words)?;
        return Some(ParsedLine::Descriptors(&words[..count]));
    }
    if is(word, b"subset") {
        return Some(ParsedLine::Subset(number(without_space(rest)?)?));
    }
    if is(word, b"R") {
        return reference(without_space(rest)?);
    }
    if is(word, b"end") {
        return rest.is_empty().then_some(ParsedLine::End);
    }
    let key = key_index(word)?;
    let value = number(without_space(rest)?)?;
    Some(ParsedLine::Header { key, value })
}

/// Parses a line of at most 4,096 octets. If the line begins with a word, the header key at index
/// `next` is tried first, because it is the most likely word.
#[tactic(auto, using(crate::proofs::ItemLemmas::read_steps))]
fn line_of<'a>(
    line: &'a [u8],
    next: usize,
    octets: &'a mut [u8; MAX_LINE],
    words: &'a mut [u16; MOST_WORDS],
) -> Option<ParsedLine<'a>>
    requires { length line.now ≤ max_line }
    ensures { unwrap_or (option_map meaning result) Invalid ≡ line_of line.now }
{
    let first = octet_at(line, 0);
    if first.is_ascii_digit() {
        return item(line, octets.as_mut_slice());
    }
    if line.is_empty() {
        return Some(ParsedLine::Skipped);
    }
    if first == b'#' {
        return Some(ParsedLine::Skipped);
    }
    if let Some(word) = word_at(next)
        && let Some(rest) = without_prefix(line, word)
        && let Some(value) = number(rest)
    {
        return Some(ParsedLine::Header { key: next, value });
    }
    let len = memchr(b' ', line).unwrap_or(line.len());
    worded(prefix(line, len), suffix(line, len), octets, words)
}

/// Parses a line. Decoded octets are stored in `octets`, and descriptors in `words`.
// rule: reading-empty-lines, reading-carriage-return, reading-blanks
pub(crate) fn read_line<'a>(
    line: &'a [u8],
    next: usize,
    octets: &'a mut [u8; MAX_LINE],
    words: &'a mut [u16; MOST_WORDS],
) -> ParsedLine<'a>
    ensures { meaning result ≡ read_line line.now }
{
    if line.len() > MAX_LINE {
        return ParsedLine::Invalid;
    }
    match line_of(line, next, octets, words) {
        Some(said) => said,
        None => ParsedLine::Invalid,
    }
}

/// Parses a decimal number. If the number is greater than 65,535, returns 65,536.
// rule: reading-header-number
pub(crate) fn number(text: &[u8]) -> Option<u32>
    ensures { result ≡ number_read text.now }
{
    if text.is_empty() {
        return None;
    }
    let mut number = 0;
    for octet in text {
        if !octet.is_ascii_digit() {
            return None;
        }
        number = (10 * number + u32::from(*octet - b'0')).min(65536);
    }
    Some(number)
}

/// Returns whether an octet can be part of a number.
fn is_number_octet(octet: u8) -> bool
    ensures { result ≡ is_number_octet octet }
{
    // A number is usually followed by a space, so the space is ruled out first.
    octet > b' ' && (octet.is_ascii_digit() || octet == b'-' || octet == b'.')
}

/// Returns the length of the number token at the start of `text`.
// rule: reading-number
fn token(text: &[u8]) -> usize
    ensures within { result ≤ length text.now }
    ensures count { result ≡ prefix_len is_number_octet text.now }
{
    let mut at = 0;
    while at < text.len() && is_number_octet(text[at]) {
        at += 1;
    }
    at
}

/// Parses a value. Returns the value, along with the octets after it. The octets of a quoted string
/// are stored in `scratch`.
#[tactic(auto, using(crate::proofs::ItemLemmas::value_steps))]
fn value<'a>(text: &'a [u8], scratch: &'a mut [u8]) -> Option<(DraftValue<'a>, &'a [u8])>
    requires { length text.now ≤ length scratch.old }
    ensures { option_map (λ read. (form_in read.0, read.1.now)) result ≡ value_read text.now }
{
    let first = octet_at(text, 0);
    if first == b'"' {
        let text = suffix(text, 1);
        let (count, at) = decode_quoted(text, scratch)?;
        Some((DraftValue::Text(prefix(scratch, count)), suffix(text, at)))
    } else if is_number_octet(first) {
        let count = token(text);
        Some((DraftValue::Number(prefix(text, count)), suffix(text, count)))
    } else {
        let rest = without_prefix(text, b"MISSING")?;
        Some((DraftValue::Missing, rest))
    }
}

/// Returns whether `text` consists of spaces followed by a comment. A comment begins with `#`.
#[tactic(auto, using(crate::proofs::ItemLemmas::hash_steps))]
fn is_hashed(text: &[u8]) -> bool
    ensures { result ≡ is_hashed text.now }
{
    for octet in text {
        if *octet != b' ' {
            return *octet == b'#';
        }
    }
    false
}

/// Returns whether `text`, the rest of a line after a value, is empty or consists of spaces and a
/// comment.
#[tactic(auto, using(crate::proofs::ItemLemmas::hash_steps))]
// rule: reading-after-a-value
fn is_end_or_comment(text: &[u8]) -> bool
    ensures { result ≡ is_end_or_comment text.now }
{
    if let [b' ', b' ', b'#', ..] = text {
        return true;
    }
    text.is_empty() || text[0] == b' ' && is_hashed(text)
}

/// Parses the descriptor at the start of an item line. The descriptor must be followed by a space
/// and at least one more octet.
#[inline(always)]
fn spaced_fxy(line: &[u8]) -> Option<Fxy>
    ensures within { IfSome result (λ _. 7 ≤ length line.now) }
    ensures value { IfSome result (λ fxy. line_of line.now ≡ unwrap_or
        (option_and_then (item_if_comment fxy) (value_read (drop 7 line.now))) Invalid) }
{
    let [a, b, c, d, e, f, space, _, ..] = line else {
        return None;
    };
    let (a, b, c) = (
        a.wrapping_sub(b'0'),
        b.wrapping_sub(b'0'),
        c.wrapping_sub(b'0'),
    );
    let (d, e, f) = (
        d.wrapping_sub(b'0'),
        e.wrapping_sub(b'0'),
        f.wrapping_sub(b'0'),
    );
    // A single branch for all of these octets is faster than a separate branch for each octet.
    if !((a < 4) & (b < 10) & (c < 10) & (d < 10) & (e < 10) & (f < 10) & (*space == b' ')) {
        return None;
    }
    let x = 10 * u16::from(b) + u16::from(c);
    let y = 100 * u16::from(d) + 10 * u16::from(e) + u16::from(f);
    if x > 63 || y > 255 {
        return None;
    }
    Some(Fxy::from_word(u16::from(a) * 16384 + x * 256 + y))
}

/// Parses an item line whose value is a short decimal number or is missing. Most item lines are of
/// this kind. Returns the descriptor and the number, which is `None` if the value is missing.
#[inline(always)]
pub(crate) fn short_item(line: &[u8]) -> Option<(Fxy, Option<ShortDecimal>)>
    ensures { IfSome result (λ read. line_of line.now ≡ ItemLine read.0 (short_form read.1)) }
{
    // Strings are ruled out first, because their lines are parsed again.
    if octet_at(line, 7) == b'"' {
        return None;
    }
    let fxy = spaced_fxy(line)?;
    let text = suffix(line, 7);
    if octet_at(text, 0) == b'M' {
        let rest = without_prefix(text, b"MISSING")?;
        if !is_end_or_comment(rest) {
            return None;
        }
        return Some((fxy, None));
    }
    let (number, count) = ShortDecimal::prefix(text)?;
    let rest = suffix(text, count);
    if is_number_octet(octet_at(rest, 0)) {
        return None;
    }
    if !is_end_or_comment(rest) {
        return None;
    }
    Some((fxy, Some(number)))
}

/// Parses an item line that begins with a descriptor.
pub(crate) fn item<'a>(text: &'a [u8], scratch: &'a mut [u8]) -> Option<ParsedLine<'a>>
    requires { length text.now ≤ length scratch.old }
    ensures { option_map meaning result ≡ item_line value_read text.now }
{
    let (fxy, rest) = fxy_prefix(text)?;
    let text = without_space(rest)?;
    let (form, rest) = value(text, scratch)?;
    if !is_end_or_comment(rest) {
        return None;
    }
    Some(ParsedLine::Item { fxy, form })
}

/// Parses the line for a redefined reference value. `text` is the remainder of the line after `R`
/// and a space.
#[tactic(auto, using(crate::proofs::ItemLemmas::reference_steps))]
// rule: reading-reference
pub(crate) fn reference<'a>(text: &'a [u8]) -> Option<ParsedLine<'a>>
    ensures { option_map meaning result ≡ item_line (number_value reference_token) text.now }
{
    let (fxy, rest) = fxy_prefix(text)?;
    let rest = without_space(rest)?;
    if !is_number_octet(octet_at(rest, 0)) {
        return None;
    }
    let count = token(rest);
    if !is_end_or_comment(suffix(rest, count)) {
        return None;
    }
    let form = DraftValue::Reference(prefix(rest, count));
    Some(ParsedLine::Item { fxy, form })
}

/// The next token of a quoted string.
#[derive(Clone, Copy)]
pub(crate) enum QuotedToken {
    /// The quote that ends the string.
    Closed,
    /// An octet of the string, and the number of octets that represent it in the line.
    Octet { octet: u8, written: usize },
    /// There is no valid token.
    Nothing,
}

/// Returns the value of an upper-case hexadecimal digit.
fn upper_value(octet: u8) -> Option<u8>
    ensures value { result ≡ upper_value octet }
    ensures few { IfSome result (λ n. n < 16) }
{
    match octet {
        b'0'..=b'9' => Some(octet - b'0'),
        b'A'..=b'F' => Some(octet - b'A' + 10),
        _ => None,
    }
}

/// A table that contains `1` for each octet that can appear unescaped in a quoted string, and `0`
/// for each octet that must be escaped.
static UNESCAPED: [u8; 256] =
    *b"0000000000000000000000000000000011011111111111111111111111111111111111111111111111111111111101111111111111111111111111111111111000000000000000000000000000000000000000000000000000000000000000000000000000000000000000000000000000000000000000000000000000000000";

/// Returns whether an octet can appear unescaped in a quoted string.
#[inline(always)]
pub(crate) fn is_unescaped(octet: u8) -> bool
    ensures { result ≡ is_unescaped octet }
{
    UNESCAPED[octet as usize] == b'1'
}

/// Returns the first token of `text`, the remainder of a quoted string.
// rule: reading-quoted
fn first_part(text: &[u8]) -> QuotedToken
    ensures { result ≡ quoting_of text.now }
{
    match octet_at(text, 0) {
        b'"' => QuotedToken::Closed,
        b'\\' => {
            let octet = octet_at(text, 1);
            if octet == b'"' || octet == b'\\' {
                return QuotedToken::Octet { octet, written: 2 };
            }
            if octet != b'x' {
                return QuotedToken::Nothing;
            }
            let Some(high) = upper_value(octet_at(text, 2)) else {
                return QuotedToken::Nothing;
            };
            let Some(low) = upper_value(octet_at(text, 3)) else {
                return QuotedToken::Nothing;
            };
            QuotedToken::Octet {
                octet: 16 * high + low,
                written: 4,
            }
        }
        octet if is_unescaped(octet) => QuotedToken::Octet { octet, written: 1 },
        _ => QuotedToken::Nothing,
    }
}

/// Decodes a quoted string, and stores its octets at the start of `out`. Returns the number of
/// octets stored and the index after the closing quote.
pub(crate) fn decode_quoted(text: &[u8], out: &mut [u8]) -> Option<(usize, usize)>
    requires { length text.now ≤ length out.old }
    ensures { Unquotes text.now out.new result }
{
    let mut at = 0;
    let mut count = 0;
    while at < text.len() {
        match first_part(suffix(text, at)) {
            QuotedToken::Closed => return Some((count, at + 1)),
            QuotedToken::Octet { octet, written } => {
                out[count] = octet;
                count += 1;
                at += written;
            }
            QuotedToken::Nothing => return None,
        }
    }
    None
}

/// Returns the value of a hexadecimal digit in upper or lower case.
// rule: reading-hexadecimal
fn either_value(octet: u8) -> Option<u8>
    ensures value { result ≡ either_value octet }
    ensures few { IfSome result (λ n. n < 16) }
{
    match octet {
        b'a'..=b'f' => Some(octet - b'a' + 10),
        _ => upper_value(octet),
    }
}

/// Decodes hexadecimal digits, and stores the octets at the start of `out`. Returns the number of
/// octets stored.
#[tactic(auto, using(crate::proofs::ItemLemmas::unhexing_steps))]
pub(crate) fn decode_hex(text: &[u8], out: &mut [u8]) -> Option<usize>
    requires { length text.now ≤ 2 * length out.old }
    ensures { Unhexes text.now out.new result }
{
    let mut count = 0;
    while 2 * count + 1 < text.len() {
        let high = either_value(text[2 * count])?;
        let low = either_value(text[2 * count + 1])?;
        out[count] = 16 * high + low;
        count += 1;
    }
    (2 * count == text.len()).then_some(count)
}

/// Returns the octet at an index, or 0 if the index is past the end.
pub(crate) fn octet_at(text: &[u8], index: usize) -> u8
    ensures { result ≡ slice_index text.now index }
{
    if index < text.len() { text[index] } else { 0 }
}

/// Returns the octets after `word`, or `None` if `text` does not begin with that word.
pub(crate) fn without_prefix<'a>(text: &'a [u8], word: &[u8]) -> Option<&'a [u8]>
    ensures value { option_map (λ s. s.now) result ≡ without_prefix word.now text.now }
    ensures within { IfSome result (λ s. length s.now ≤ length text.now) }
{
    text.strip_prefix(word)
}

/// Returns `text` without its leading space, or `None` if it does not begin with a space.
#[tactic(auto, using(crate::proofs::ItemLemmas::space_steps))]
#[inline(always)]
pub(crate) fn without_space<'a>(text: &'a [u8]) -> Option<&'a [u8]>
    ensures value { option_map (λ s. s.now) result ≡ without_space text.now }
    ensures within { IfSome result (λ s. length s.now ≤ length text.now) }
{
    without_prefix(text, b" ")
}
