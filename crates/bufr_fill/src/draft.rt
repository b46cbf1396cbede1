//! The items of a dump, and a list that stores them. The list stores all its strings in one block
//! of memory.
ghost use Rattle.std.specs.Prelude.{◌≡◌, ◌≤◌, ℕ, List, length, option_map, slice_get, ◌<◌, [], ◌∷◌, ◌++◌, Some, OnOk, OnErr};
ghost use Rattle.bufr_fill.specs.Prelude.{draft, DraftEntry, Holds, form_in, value_by, entry_with, AreOctetsInside, is_end, has_octets, number_token, Ends, draft_in, ends_of};
ghost use Rattle.bufr_bits.specs.Prelude.{short_text};

use bufr_bits::ShortDecimal;
use bufr_tables::Fxy;
use std::alloc::{AllocError, Global};
use std::marker::Model;

/// The value of an item, as it appears in the dump.
#[derive(Clone, Copy, Debug, PartialEq, Eq)]
pub enum DraftValue<'a> {
    /// The text of a decimal number, which is parsed later.
    Number(&'a [u8]),
    /// A string, with the quotes removed and all escape sequences decoded.
    Text(&'a [u8]),
    /// The word `MISSING`.
    Missing,
    /// The text of a redefined reference value (from a line that begins with `R`), which is parsed
    /// later.
    Reference(&'a [u8]),
}

/// An item of a dump.
#[derive(Clone, Copy, Debug, PartialEq, Eq)]
pub struct DraftItem<'a> {
    /// The item's line number in the dump, counted from 1.
    pub line: u64,
    /// The descriptor of the item.
    pub fxy: Fxy,
    /// The value of the item.
    pub form: DraftValue<'a>,
}

/// The kind of an item's value, which determines how the value is stored.
#[derive(Clone, Copy)]
pub(crate) enum ValueKind {
    /// A short decimal number, whose digits are stored as an integer.
    Decimal { places: u8, negative: bool },
    /// Any other number, which is stored as octets and parsed later.
    Number,
    /// A string, which is stored as octets.
    Text,
    /// A missing value.
    Missing,
    /// A redefined reference value, which is stored as octets.
    Reference,
}

/// A stored entry. `start..end` is the range of the entry's octets in the block. For a short
/// decimal number, `start` contains the digits.
#[derive(Clone, Copy)]
pub(crate) struct StoredEntry {
    pub(crate) line: u64,
    pub(crate) start: usize,
    end: usize,
    pub(crate) fxy: Fxy,
    /// The kind of the value, or `None` if the entry marks the end of a subset.
    pub(crate) kind: Option<ValueKind>,
}

impl StoredEntry {
    /// Returns whether the entry marks the end of a subset.
    pub(crate) fn is_end(&self) -> bool
        ensures { (octets : List ℕ) → result ≡ is_end (entry_with self.now octets) }
    {
        self.kind.is_none()
    }

    /// Returns whether the entry has octets in the block.
    pub(crate) fn has_octets(&self) -> bool
        ensures { result ≡ has_octets self.now }
    {
        matches!(
            self.kind,
            Some(ValueKind::Number | ValueKind::Text | ValueKind::Reference)
        )
    }
}

/// Returns the kind of a value, along with the octets to store.
#[inline(always)]
fn parts_of<'a>(form: DraftValue<'a>) -> (ValueKind, &'a [u8])
    ensures is { (digits : ℕ) → value_by result.0 digits result.1.now ≡ form_in form.entry }
    ensures inside { (size start end : ℕ) → start ≤ end → end ≤ size
        → AreOctetsInside result.0 size start end }
{
    match form {
        DraftValue::Number(octets) => (ValueKind::Number, octets),
        DraftValue::Text(octets) => (ValueKind::Text, octets),
        DraftValue::Missing => (ValueKind::Missing, &[]),
        DraftValue::Reference(octets) => (ValueKind::Reference, octets),
    }
}

/// The entries of a dump, in order. Each entry is an item or a line that ends a subset.
///
/// Short decimal numbers are stored in their entries. All other numbers and all strings are stored
/// in one block of memory. Each entry occupies 32 octets, plus any octets in the block and, if it
/// ends a subset, 8 octets for its index. In contracts, a value of this type is a list of entries.
///
/// ```
/// let mut entries = Entries::new(alloc);
/// let (fxy, form) = (Fxy::from_word(257), DraftValue::Number(b"10"));
/// entries.push_item(DraftItem { line: 9, fxy, form })?;
/// entries.push_end(10)?;
/// assert_eq!(rt; entries.len(), 2);
/// ```
#[derive(Drop)]
pub struct Entries {
    /// The concatenated octets of strings and of numbers that are not stored in their entries.
    octets: Vec<u8>,
    kept: Vec<StoredEntry>,
    /// The indices of the entries that end subsets.
    ends: Vec<usize>,
}

impl Model for Entries {
    ghost use Rattle.std.specs.Prelude.{◌≡◌, List, length};
    ghost use Rattle.bufr_fill.specs.Draft.{DraftEntry};
    ghost use Rattle.bufr_fill.specs.Draft.{entries_stored, AreInside, octets_stored, ends_of};

    ghost Value = { List DraftEntry };

    ghost view = { λ e. entries_stored e.octets.items e.kept.items };

    ghost invariant = { λ e. AreInside (length e.octets.items) e.kept.items
        × (length e.octets.items ≡ octets_stored e.kept.items)
        × (e.ends.items ≡ ends_of 0 (entries_stored e.octets.items e.kept.items)) };
}

impl Entries {
    /// Creates an empty list of entries. This function does not allocate.
    pub fn new(alloc: Global) -> Entries
        ensures { result ≡ [] }
    {
        Entries {
            octets: Vec::new(alloc),
            kept: Vec::new(alloc),
            ends: Vec::new(alloc),
        }
    }

    /// Removes all entries, but retains the allocated memory.
    pub fn clear(&mut self)
        ensures { self.new ≡ [] }
    {
        self.octets.clear();
        self.kept.clear();
        self.ends.clear();
    }

    /// Appends an item.
    ///
    /// # Errors
    ///
    /// [`AllocError`] if the list cannot grow, in which case it is left unchanged.
    #[inline(always)]
    pub fn push_item(&mut self, item: DraftItem<'_>) -> Result<(), AllocError>
        ensures item { OnOk result (self.new ≡ self.old ++ Holds (draft_in item.entry) ∷ []) }
        ensures same { OnErr result (self.new ≡ self.old) }
    {
        let (kind, octets) = parts_of(item.form);
        self.kept.reserve(1)?;
        let start = self.octets.len();
        self.octets.extend_from_slice(octets)?;
        let end = self.octets.len();
        self.kept.push_reserved(StoredEntry {
            line: item.line,
            start,
            end,
            fxy: item.fxy,
            kind: Some(kind),
        });
        Ok(())
    }

    /// Appends an item whose value is a short decimal number. The result is the same as appending
    /// the number as text with [`Entries::push_item`].
    ///
    /// # Errors
    ///
    /// [`AllocError`] if the list cannot grow, in which case it is left unchanged.
    #[inline(always)]
    pub fn push_decimal(
        &mut self,
        line: u64,
        fxy: Fxy,
        number: ShortDecimal,
    ) -> Result<(), AllocError>
        ensures item { OnOk result (self.new
            ≡ self.old ++ Holds (draft line fxy (number_token (short_text number))) ∷ []) }
        ensures same { OnErr result (self.new ≡ self.old) }
    {
        self.kept.push(StoredEntry {
            line,
            start: number.digits as usize,
            end: 0,
            fxy,
            kind: Some(ValueKind::Decimal {
                places: number.places,
                negative: number.negative,
            }),
        })?;
        Ok(())
    }

    /// Appends an entry that marks the end of a subset. `line` is the number of the line that ends
    /// the subset.
    ///
    /// # Errors
    ///
    /// [`AllocError`] if the list cannot grow, in which case it is left unchanged.
    #[inline(never)]
    pub fn push_end(&mut self, line: u64) -> Result<(), AllocError>
        ensures end { OnOk result (self.new ≡ self.old ++ Ends line ∷ []) }
        ensures same { OnErr result (self.new ≡ self.old) }
    {
        let end = self.octets.len();
        let index = self.kept.len();
        self.ends.reserve(1)?;
        self.kept.push(StoredEntry {
            line,
            start: end,
            end,
            fxy: Fxy::from_word(0),
            kind: None,
        })?;
        self.ends.push_reserved(index);
        Ok(())
    }

    /// Returns the number of entries.
    pub fn len(&self) -> usize
        ensures { result ≡ length self.now }
    {
        self.kept.len()
    }

    /// Returns the entry at the given index (counted from 0), along with its octets, or `None` if
    /// the index is out of range.
    #[inline(always)]
    pub(crate) fn get(&self, index: usize) -> Option<(StoredEntry, &[u8])>
        ensures { option_map (λ found. entry_with found.0 found.1.now) result
            ≡ slice_get self.now index }
    {
        if index >= self.kept.len() {
            return None;
        }
        Some(self.entry_at(index))
    }

    /// Returns the entry at the given index, along with its octets. The index must be in range.
    #[inline(always)]
    pub(crate) fn entry_at(&self, index: usize) -> (StoredEntry, &[u8])
        requires { index < length self.now }
        ensures { Some (entry_with result.0 result.1.now) ≡ slice_get self.now index }
    {
        let entry = self.kept[index];
        if entry.has_octets() {
            (entry, &self.octets[entry.start..entry.end])
        } else {
            (entry, &[])
        }
    }

    /// Returns the indices of the entries that end subsets.
    #[inline(always)]
    pub(crate) fn ends(&self) -> &[usize]
        ensures { result.now ≡ ends_of 0 self.now }
    {
        &self.ends
    }
}
