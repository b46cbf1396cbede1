//! Documents, and the parser that builds them line by line.
ghost use Rattle.std.specs.Prelude.{◌==◌, ◌≡◌, ◌+◌, ◌<◌, ◌≤◌, length, IsTrue, slice_index, option_map, true, IfOk, OnErr, ◌^◌, false};
ghost use Rattle.bufr_fill.specs.Prelude.{subsets_of};
ghost use Rattle.bufr_frame.specs.Prelude.{is_writable};
ghost use Rattle.bufr_text.specs.Prelude.{header_in, beginning, closing, line_step, adds, read_line, section2_in, most_entries, IsWhole, mosts, meaning, IsParsing, parsing_of, TakesLines, WantsAt, has_no_feed, Header, blank};

use crate::fault::TextLineFault;
use crate::header::{MOST_WORDS, in_range};
use crate::line::{MAX_LINE, ParsedLine, read_line, short_item};
use crate::slices::{prefix, suffix};
use bufr_fill::{DraftItem, DraftValue, Entries};
use bufr_frame::Head;
use bufr_tables::Fxy;
use memchr::memchr;
use std::alloc::{AllocError, Global};
use std::marker::Model;

/// The number of keys in the header.
const KEYS: usize = 20;

/// The parts of a document that have been read so far.
#[derive(Drop)]
pub(crate) struct DocumentParts {
    line: u64,
    header: [u16; KEYS],
    /// The number of header values that have been read.
    known: usize,
    local1: Vec<u8>,
    section2: Vec<u8>,
    descriptors: Vec<u16>,
    entries: Entries,
}

impl Model for DocumentParts {
    ghost use Rattle.bufr_text.specs.Documents as documents;

    ghost Value = { documents.Document };

    ghost use Rattle.std.specs.Prelude.{◌≡◌, ◌≤◌, length};
    ghost use Rattle.bufr_text.specs.Taking.{document_model};

    ghost view = { document_model };

    ghost invariant = { λ d. (d.known ≤ 20) × (length d.header ≡ 20) };
}

impl DocumentParts {
    /// Creates an empty document. `line` is the line number of its `message` line.
    pub(crate) fn blank(alloc: Global, line: u64) -> DocumentParts
        ensures { result ≡ blank line }
    {
        DocumentParts {
            line,
            header: [0; KEYS],
            known: 0,
            local1: Vec::new(alloc),
            section2: Vec::new(alloc),
            descriptors: Vec::new(alloc),
            entries: Entries::new(alloc),
        }
    }

    /// Clears the document, but keeps its memory for reuse.
    pub(crate) fn clear(&mut self)
        ensures { self.new ≡ blank 0 }
    {
        self.line = 0;
        self.known = 0;
        self.local1.clear();
        self.section2.clear();
        self.descriptors.clear();
        self.entries.clear();
    }

    /// Returns the value of a header key, or 0 if that key has not been read yet.
    pub(crate) fn value(&self, key: usize) -> u16
        requires { key < 20 }
        ensures { result ≡ slice_index self.now.header key }
    {
        if key < self.known {
            self.header[key]
        } else {
            0
        }
    }
}

/// The parsed dump of one message. It contains the header, the octets for local use, the octets of
/// section 2, the descriptors, and the items of all subsets in order. The items are not checked
/// until the document is encoded. Encoding fails if an item does not match the descriptors or if a
/// value does not fit in its field.
///
/// Documents are created only by [`crate::DumpReader`].
#[derive(Drop)]
pub struct Document {
    pub(crate) parts: DocumentParts,
}

impl Model for Document {
    ghost use Rattle.bufr_text.specs.Documents as documents;
    ghost use Rattle.bufr_text.specs.Spelling.{IsWhole};

    ghost Value = { documents.Document };

    ghost view = { λ d. d.parts };

    ghost invariant = { λ d. IsWhole d.parts };
}

impl Document {
    /// Returns the line number (counted from 1) of the document's `message` line.
    pub fn line(&self) -> u64
        ensures { result ≡ self.now.line }
    {
        self.parts.line
    }

    /// Returns the value of a header key as an octet. The key must not allow values greater than
    /// 255.
    #[tactic(auto, using(crate::proofs::HeaderLemmas::octet_steps))]
    fn octet(&self, key: usize) -> u8
        requires key { key < 20 }
        requires few { slice_index (mosts 4) key ≤ 255 }
        ensures { result ≡ slice_index self.now.header key }
    {
        self.parts.value(key) as u8
    }

    /// Returns the edition (3 or 4) and the values of section 1. Every value fits in its field in
    /// that edition.
    #[tactic(auto, unfolding(crate::specs::Line::mosts))]
    pub fn head(&self) -> Head
        ensures value { result ≡ (header_in self.now).head }
        ensures writable { IsTrue (is_writable result) }
    {
        Head {
            edition: self.octet(0),
            master: self.octet(1),
            centre: self.parts.value(2),
            subcentre: self.parts.value(3),
            update: self.octet(4),
            category: self.octet(5),
            subcategory: self.octet(6),
            local_subcategory: self.octet(7),
            master_version: self.octet(8),
            local_version: self.octet(9),
            year: self.parts.value(10),
            month: self.octet(11),
            day: self.octet(12),
            hour: self.octet(13),
            minute: self.octet(14),
            second: self.octet(15),
        }
    }

    /// Returns whether the document contains observed data (octet 7 of section 3, bit 1).
    pub fn observed(&self) -> bool
        ensures { result ≡ (header_in self.now).observed }
    {
        self.parts.value(16) == 1
    }

    /// Returns whether the data are compressed (octet 7 of section 3, bit 2).
    pub fn compressed(&self) -> bool
        ensures { result ≡ (header_in self.now).compressed }
    {
        self.parts.value(17) == 1
    }

    /// Returns the number of subsets.
    pub fn subsets(&self) -> u16
        ensures { result ≡ (header_in self.now).subsets }
    {
        self.parts.value(19)
    }

    /// Returns the octets for local use at the end of section 1.
    pub fn local1(&self) -> &[u8]
        ensures { result.now ≡ self.now.local1 }
    {
        &self.parts.local1
    }

    /// Returns section 2 from octet 5 onward, or `None` if the document has no section 2.
    pub fn section2(&self) -> Option<&[u8]>
        ensures { option_map (λ octets. octets.now) result ≡ section2_in self.now }
    {
        if self.parts.value(18) == 1 {
            Some(&self.parts.section2)
        } else {
            None
        }
    }

    /// Returns the descriptors of section 3, each as a 16-bit word.
    pub fn descriptors(&self) -> &[u16]
        ensures { result.now ≡ self.now.descriptors }
    {
        &self.parts.descriptors
    }

    /// Returns the number of entries, each of which is an item or marks the end of a subset.
    pub fn entries(&self) -> usize
        ensures value { result ≡ length self.now.entries }
        ensures few { result ≤ most_entries }
    {
        self.parts.entries.len()
    }

    /// Returns the entries (items and subset ends), along with their line numbers.
    pub(crate) fn items(&self) -> &Entries
        ensures same { result.now ≡ self.now.entries }
        ensures few { length result.now ≤ most_entries }
        ensures many { length (subsets_of result.now) ≡ (header_in self.now).subsets }
    {
        &self.parts.entries
    }
}

/// The groups of lines between the header and the subsets, in the order in which they appear.
#[derive(Clone, Copy)]
pub(crate) enum LineGroup {
    Local1,
    Section2,
    Descriptors,
}

/// The state of the parser that reads dump text.
#[derive(Clone, Copy)]
pub(crate) enum ParserState {
    /// The parser is between documents.
    Between,
    /// The parser is reading header lines.
    Heading,
    /// The parser is reading this group of lines between the header and the first subset.
    BeforeSubsets(LineGroup),
    /// The parser is reading the subset with this number.
    Filling(u32),
    /// A line was invalid, and the remaining text is ignored.
    Stopped,
}

/// The effect of a line on the parser.
#[derive(Clone, Copy)]
pub(crate) enum LineEffect {
    /// Parsing continues in this state.
    Continues(ParserState),
    /// The document is complete.
    Completes,
    /// The line is invalid.
    Refuses(TextLineFault),
}

/// Returns the effect of a `subset` line after `read` subsets have been read. `subset` is the
/// number on the line.
// rule: reading-subsets, fault-57
fn beginning(parts: &DocumentParts, read: u32, subset: u32) -> LineEffect
    requires { read < 65536 }
    ensures { result ≡ beginning read parts.now subset }
{
    if subset == read + 1 && subset <= u32::from(parts.value(19)) {
        LineEffect::Continues(ParserState::Filling(subset))
    } else {
        LineEffect::Refuses(TextLineFault::SubsetCount)
    }
}

/// Returns the effect of an `end` line after `read` subsets have been read.
// rule: reading-subsets, fault-57
fn closing(parts: &DocumentParts, read: u32) -> LineEffect
    ensures { result ≡ closing read parts.now }
{
    if read == u32::from(parts.value(19)) {
        LineEffect::Completes
    } else {
        LineEffect::Refuses(TextLineFault::SubsetCount)
    }
}

/// Adds a line to the document being read. Returns the effect of the line when the parser is in the
/// given state.
#[tactic(auto, unfolding(crate::specs::Documents::line_step))]
// rule: fault-50, fault-61, fault-order-of-a-line, reading-header-order, reading-section2
// rule: reading-subset-end, reading-between-documents
pub(crate) fn line_step(
    state: ParserState,
    parts: &mut DocumentParts,
    at: u64,
    said: ParsedLine<'_>,
) -> Result<LineEffect, AllocError>
    requires { IsParsing at (state, parts.old) }
    ensures turns { IfOk result
        (λ effect. (effect, parts.new) ≡ line_step at (state, parts.old) (meaning said.entry)) }
    ensures wants { OnErr result (adds state (meaning said.entry) ≡ true) }
{
    if matches!(said, ParsedLine::Skipped) {
        return Ok(LineEffect::Continues(state));
    }
    let effect = match state {
        // The state is never `Stopped`, because no line is processed after an invalid line.
        ParserState::Between | ParserState::Stopped => match said {
            ParsedLine::Message => {
                parts.line = at;
                LineEffect::Continues(ParserState::Heading)
            }
            _ => LineEffect::Refuses(TextLineFault::NotAllowed),
        },
        ParserState::Heading => match said {
            ParsedLine::Header { key, value } => {
                if key != parts.known {
                    return Ok(LineEffect::Refuses(TextLineFault::NotAllowed));
                }
                // The edition is the first header value, and the range of the edition itself is the
                // same in both editions.
                if !in_range(parts.value(0), key, value) {
                    return Ok(LineEffect::Refuses(TextLineFault::HeaderRange));
                }
                parts.header[parts.known] = value as u16;
                parts.known += 1;
                if key == 19 {
                    LineEffect::Continues(ParserState::BeforeSubsets(LineGroup::Local1))
                } else {
                    LineEffect::Continues(ParserState::Heading)
                }
            }
            _ => LineEffect::Refuses(TextLineFault::NotAllowed),
        },
        ParserState::BeforeSubsets(part) => match said {
            ParsedLine::Local1(octets) if matches!(part, LineGroup::Local1) => {
                parts.local1.extend_from_slice(octets)?;
                LineEffect::Continues(ParserState::BeforeSubsets(LineGroup::Local1))
            }
            ParsedLine::Section2(octets)
                if !matches!(part, LineGroup::Descriptors) && parts.value(18) == 1 => {
                parts.section2.extend_from_slice(octets)?;
                LineEffect::Continues(ParserState::BeforeSubsets(LineGroup::Section2))
            }
            ParsedLine::Descriptors(words) => {
                parts.descriptors.extend_from_slice(words)?;
                LineEffect::Continues(ParserState::BeforeSubsets(LineGroup::Descriptors))
            }
            ParsedLine::Subset(subset) => beginning(parts, 0, subset),
            ParsedLine::End => closing(parts, 0),
            _ => LineEffect::Refuses(TextLineFault::NotAllowed),
        },
        ParserState::Filling(subset) => match said {
            ParsedLine::Item { fxy, form } => {
                let (line, fxy) = (at, Fxy::from_word(fxy));
                parts.entries.push_item(DraftItem { line, fxy, form })?;
                LineEffect::Continues(ParserState::Filling(subset))
            }
            ParsedLine::Subset(next) => {
                parts.entries.push_end(at)?;
                beginning(parts, subset, next)
            }
            ParsedLine::End => {
                parts.entries.push_end(at)?;
                closing(parts, subset)
            }
            _ => LineEffect::Refuses(TextLineFault::NotAllowed),
        },
    };
    Ok(effect)
}

/// The state of the parser, the number of the next line, and the document being built.
#[derive(Drop)]
pub(crate) struct Progress {
    pub(crate) state: ParserState,
    /// The number of the next line.
    pub(crate) at: u64,
    pub(crate) parts: DocumentParts,
}

/// Processes one complete line. Most lines contain an item whose value is a short decimal number or
/// is missing, so this case is tried first.
#[inline(always)]
// rule: reading-longest-line
fn take_line(
    progress: &mut Progress,
    line: &[u8],
    octets: &mut [u8; MAX_LINE],
    words: &mut [u16; MOST_WORDS],
) -> Result<LineEffect, AllocError>
    requires holds { IsParsing progress.old.at (parsing_of progress.old) }
    ensures turns { IfOk result (λ effect. (effect, progress.new.parts) ≡ line_step progress.old.at
        (parsing_of progress.old) (read_line line.now)) }
    ensures at { progress.new.at ≡ progress.old.at }
    ensures wants { OnErr result (adds progress.old.state (read_line line.now) ≡ true) }
{
    if let ParserState::Filling(_) = progress.state
        && line.len() <= MAX_LINE
        && let Some((fxy, number)) = short_item(line)
    {
        let (line, entries) = (progress.at, &mut progress.parts.entries);
        let Some(number) = number else {
            let form = DraftValue::Missing;
            entries.push_item(DraftItem { line, fxy, form })?;
            return Ok(LineEffect::Continues(progress.state));
        };
        entries.push_decimal(line, fxy, number)?;
        return Ok(LineEffect::Continues(progress.state));
    }
    let said = read_line(line, progress.parts.known, octets, words);
    line_step(progress.state, &mut progress.parts, progress.at, said)
}

/// Processes complete lines from `held`, stopping after the first line that completes a document or
/// is invalid. Returns the number of octets processed, along with the effect of the last line.
// rule: reading-line-numbers
pub(crate) fn take_lines(
    progress: &mut Progress,
    held: &[u8],
    octets: &mut [u8; MAX_LINE],
) -> Result<(usize, LineEffect), AllocError>
    requires holds { IsParsing progress.old.at (parsing_of progress.old) }
    requires some { 0 < progress.old.at }
    requires few { progress.old.at + length held.now < 2 ^ 63 }
    ensures takes { IfOk result (λ r. TakesLines progress.old progress.new held.now r.0 r.1) }
    ensures wants { OnErr result (has_no_feed held.now ≡ false) }
    ensures adds { OnErr result (WantsAt progress.old held.now) }
{
    let mut words = [0; MOST_WORDS];
    let mut from = 0;
    while let Some(length) = memchr(b'\n', suffix(held, from)) {
        let line = prefix(suffix(held, from), length);
        let effect = take_line(progress, line, octets, &mut words)?;
        progress.at += 1;
        from += length + 1;
        match effect {
            LineEffect::Continues(state) => progress.state = state,
            _ => return Ok((from, effect)),
        }
    }
    Ok((from, LineEffect::Continues(progress.state)))
}
