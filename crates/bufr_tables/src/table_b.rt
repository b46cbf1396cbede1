//! Reads Table B, which defines the elements, from a CSV file. An element's unit determines what
//! kind of values it has.
ghost use Rattle.std.specs.Prelude.{◌≡◌, ◌≢◌, ◌<◌, [], ◌∷◌, ◌++◌, None, length, OnOk, IfErr, IfOk, IfSome, option_map, Ok, Err};
ghost use Rattle.std.specs.List.{list_all};
ghost use Rattle.csv.specs.Records.{fields_of};
ghost use Rattle.bufr_tables.specs.declared.fault.TableFault.TheVariants.{Memory};
ghost use Rattle.bufr_tables.specs.TableB.{ExtendsBlock, IsStored, row_parsed, IsRowKept, AreRows, IsRow, Row, element_of, entry_of, is_valid_factor, is_printed, plain_of, row_of, scale_of, table_b_of, width_of, with_record_b, begins_with, kind_of};
ghost use Rattle.bufr_tables.specs.Records.{records_of, ReturnsUnlessMemory};

use crate::fault::TableFault;
use crate::fxy::Fxy;
use crate::index::FxyIndex;
use crate::rows::{RecordReader, field, integer, magnitude};
use csv::ByteRecord;
use std::alloc::{AllocError, Global};
use std::fmt;
use std::marker::Model;

/// The fields that the header must contain.
const HEADER: [&[u8]; 6] = [b"fxy", b"name", b"unit", b"scale", b"reference", b"width"];

/// An element as stored in the table. The octets at indices `start..end` are
/// `FXXYYY   # NAME [UNIT]` and a line feed. The name ends just before index `middle`.
#[derive(Clone, Copy)]
struct Stored {
    fxy: Fxy,
    start: usize,
    middle: usize,
    end: usize,
    kind: Kind,
    scale: i16,
    reference: i64,
    width: u32,
}

/// An element's row in Table B, borrowed from the table.
///
/// Every entry returned by [`TableB::get`] satisfies the limits stated for the methods below. For
/// the replication factors 031000, 031001 and 031002, the kind is not text, the width is 1, 8 or 16
/// bits, respectively, and the scale and the reference value are 0. Two entries are equal if their
/// rows are equal.
#[derive(Clone, Copy)]
pub struct Entry<'a> {
    /// The descriptors, names and units of all rows in the table.
    octets: &'a [u8],
    stored: &'a Stored,
    ghost kept: { IsRowKept octets.now stored.now },
}

impl<'a> Entry<'a> {
    ghost use Rattle.std.specs.Prelude.{◌≡◌, ◌≤◌, ◌+◌, drop, length, take};
    ghost use Rattle.bufr_tables.specs.Entry.{row_of_entry};
    ghost use Rattle.bufr_tables.specs.TableB.{row_comment, row_line_start};

    /// Returns the element's descriptor.
    #[inline(always)]
    pub fn fxy(&self) -> Fxy
        ensures { result ≡ (row_of_entry self.now).fxy }
    {
        self.stored.fxy
    }

    /// Returns the element's name. The name has at most 512 octets and contains no ASCII control
    /// characters. The name is not necessarily valid UTF-8.
    #[inline(always)]
    pub fn name(&self) -> &'a [u8]
        ensures { result.now ≡ (row_of_entry self.now).name }
    {
        let stored = self.stored;
        &self.octets[stored.start + 11..stored.middle]
    }

    /// Returns the element's unit. The unit has at most 512 octets and contains no ASCII control
    /// characters.
    #[inline(always)]
    pub fn unit(&self) -> &'a [u8]
        ensures { result.now ≡ (row_of_entry self.now).unit }
    {
        let stored = self.stored;
        &self.octets[stored.middle + 2..stored.end - 2]
    }

    /// Returns the start of an item's line in a dump (the descriptor's six digits and a space).
    #[inline(always)]
    pub fn line_start(&self) -> &'a [u8]
        ensures { result.now ≡ row_line_start (row_of_entry self.now) }
    {
        let start = self.stored.start;
        &self.octets[start..start + 7]
    }

    /// Returns the comment at the end of an item's line in a dump (`  # NAME [UNIT]` and a line
    /// feed).
    #[inline(always)]
    pub fn comment(&self) -> &'a [u8]
        ensures { result.now ≡ row_comment (row_of_entry self.now) }
    {
        let stored = self.stored;
        &self.octets[stored.start + 7..stored.end]
    }

    /// Returns the table's octets, beginning with this element's [`Entry::line_start`], and the
    /// length of its [`Entry::comment`]. The comment begins at index 7 of the returned octets. The
    /// returned octets may extend past the comment, so that callers can copy blocks of a fixed
    /// size.
    #[inline(always)]
    pub fn line_on(&self) -> (&'a [u8], usize)
        ensures within { 7 + result.1 ≤ length result.0.now }
        ensures start { take 7 result.0.now ≡ row_line_start (row_of_entry self.now) }
        ensures comment { take result.1 (drop 7 result.0.now)
            ≡ row_comment (row_of_entry self.now) }
    {
        let stored = self.stored;
        (
            &self.octets[stored.start..],
            stored.end - (stored.start + 7),
        )
    }

    /// Returns the kind of values that the element has, as determined by its unit.
    #[inline(always)]
    pub fn kind(&self) -> Kind
        ensures { result ≡ (row_of_entry self.now).kind }
    {
        self.stored.kind
    }

    /// Returns the scale, from -127 to 127. The value of an item is `(raw + reference) / 10^scale`,
    /// where `raw` is the number in the data.
    #[inline(always)]
    pub fn scale(&self) -> i16
        ensures { result ≡ (row_of_entry self.now).scale }
    {
        self.stored.scale
    }

    /// Returns the reference value, which is added to the raw value before the scale is applied.
    #[inline(always)]
    pub fn reference(&self) -> i64
        ensures { result ≡ (row_of_entry self.now).reference }
    {
        self.stored.reference
    }

    /// Returns the data width in bits. The width of text is a multiple of 8 from 8 to 2,040. All
    /// other elements are 1 to 63 bits wide.
    #[inline(always)]
    pub fn width(&self) -> u32
        ensures { result ≡ (row_of_entry self.now).width }
    {
        self.stored.width
    }
}

impl<'a> PartialEq for Entry<'a> {
    ghost use Rattle.std.specs.Cmp.{on_per, partial_equiv_from_equiv};
    ghost use Rattle.std.specs.Ordering.{on};
    ghost use Rattle.bufr_tables.specs.Entry.{is_same_row, row_of_entry, same_row_equiv};

    ghost eq = { on row_of_entry is_same_row };

    ghost laws = { on_per row_of_entry (partial_equiv_from_equiv same_row_equiv) };

    fn eq(&self, other: &Self) -> bool {
        let (row, others) = (self.stored, other.stored);
        let numbers = (row.fxy, row.scale, row.reference, row.width);
        self.name() == other.name()
            && self.unit() == other.unit()
            && row.kind == others.kind
            && numbers == (others.fxy, others.scale, others.reference, others.width)
    }
}

impl<'a> Eq for Entry<'a> {
    ghost use Rattle.std.specs.Cmp.{on_equiv};
    ghost use Rattle.bufr_tables.specs.Entry.{row_of_entry, same_row_equiv};

    ghost laws = { on_equiv row_of_entry same_row_equiv };
}

impl<'a> fmt::Debug for Entry<'a> {
    fn fmt<W: fmt::Write>(&self, f: &mut fmt::Formatter<W>) -> fmt::Result {
        f.debug_struct("Entry")
            .field("fxy", &self.fxy())
            .field("name", &self.name())
            .field("unit", &self.unit())
            .field("kind", &self.kind())
            .field("scale", &self.scale())
            .field("reference", &self.reference())
            .field("width", &self.width())
            .finish()
    }
}

/// Returns `text` if it is valid as a name or a unit, that is, if it has at most 512 octets and
/// contains no ASCII control characters. Otherwise, returns `None`.
#[tactic(auto, unfolding(crate::specs::TableB::plain_of))]
fn read_plain(text: &[u8]) -> Option<&[u8]>
    ensures { option_map (λ s. s.now) result ≡ plain_of text.now }
{
    if text.len() > 512 || !is_printable_text(text) {
        return None;
    }
    Some(text)
}

fn is_printable_text(text: &[u8]) -> bool
    ensures { result ≡ list_all is_printed text.now }
{
    text.iter().all(|octet| *octet >= 32 && *octet != 127)
}

/// Parses the data width of an element, in bits. Returns `None` if `text` is not a number or if the
/// width is invalid for an element of this kind.
#[tactic(auto, unfolding(crate::specs::TableB::width_of))]
fn read_width(kind: Kind, text: &[u8]) -> Option<u32>
    ensures { result ≡ width_of kind text.now }
{
    let width = magnitude(text)?;
    let (least, most) = match kind {
        Kind::Character => (8, 2040),
        Kind::Coded | Kind::Numeric => (1, 63),
    };
    if width < least || width > most {
        return None;
    }
    let width = width as u32;
    if kind == Kind::Character && width % 8 != 0 {
        return None;
    }
    Some(width)
}

/// A row of Table B, parsed from a record.
#[derive(Clone, Copy)]
struct ParsedRow<'a> {
    fxy: Fxy,
    name: &'a [u8],
    unit: &'a [u8],
    kind: Kind,
    scale: i16,
    reference: i64,
    width: u32,
}

/// Returns whether a row meets the additional conditions for replication factors. Returns `true` if
/// the element is not a replication factor.
#[tactic(auto, unfolding(crate::specs::TableB::is_valid_factor))]
fn is_valid_factor(row: &ParsedRow) -> bool
    ensures { result ≡ is_valid_factor (row_parsed row.now) }
{
    if !row.fxy.is_factor() {
        return true;
    }
    let width = match row.fxy.y() {
        0 => 1,
        1 => 8,
        _ => 16,
    };
    row.width == width && row.scale == 0 && row.reference == 0 && row.kind != Kind::Character
}

/// Parses a record as a row of Table B. Returns `None` if the record is not a valid row.
#[tactic(auto, unfolding(crate::specs::TableB::row_of, crate::specs::TableB::element_of, crate::specs::TableB::scale_of))]
// rule: fault-41-of-table-b
fn parse_row(fields: &ByteRecord) -> Option<ParsedRow<'_>>
    ensures value { option_map row_parsed result ≡ row_of (fields_of fields.now) }
    ensures element { IfSome result (λ row. row.fxy < 16384) }
{
    let fxy = Fxy::read(field(fields, 0))?;
    if fxy.f() != 0 {
        return None;
    }
    let name = read_plain(field(fields, 1))?;
    let unit = read_plain(field(fields, 2))?;
    let scale = integer(field(fields, 3))?;
    if scale < -127 || scale > 127 {
        return None;
    }
    let reference = integer(field(fields, 4))?;
    let kind = Kind::of(unit);
    let width = read_width(kind, field(fields, 5))?;
    let row = ParsedRow {
        fxy,
        name,
        unit,
        kind,
        scale: scale as i16,
        reference,
        width,
    };
    if !is_valid_factor(&row) {
        return None;
    }
    Some(row)
}

/// Table B, indexed by descriptor.
///
/// In contracts, the table is represented by the list of its rows, in file order.
///
/// ```
/// let text = b"fxy,name,unit,scale,reference,width\n012101,AIR TEMPERATURE,K,2,0,16\n";
/// let table = TableB::read(rt.alloc(), text)?;
/// let entry = table.get(Fxy::from_word(0x0c65)).ok_or("lacks the element")?;
/// assert_eq!(rt; (entry.scale(), entry.width()), (2, 16));
/// ```
#[derive(Drop)]
pub struct TableB {
    /// The descriptors, names and units of all elements, in the format described for `Stored`.
    octets: Vec<u8>,
    stored: Vec<Stored>,
    /// An index for looking up an element in `stored` by its descriptor.
    directory: FxyIndex,
}

impl Model for TableB {
    ghost use Rattle.std.specs.Prelude.{List};
    ghost use Rattle.bufr_tables.specs.TableB.{Row};

    ghost Value = { List Row };

    ghost use Rattle.bufr_tables.specs.TableB.{IsTableB, table_b_rows};

    ghost view = { table_b_rows };

    ghost invariant = { IsTableB };
}

impl TableB {
    ghost use Rattle.bufr_tables.specs.Entry.{row_of_entry};

    /// Reads Table B from the contents of a CSV file.
    ///
    /// The header must be `fxy,name,unit,scale,reference,width`. Each subsequent record defines one
    /// element. `fxy` is the element's descriptor, written as six digits. The name and the unit may
    /// have at most 512 octets each and must not contain ASCII control characters. The other fields
    /// are integers within the limits stated for [`Entry`]. For the replication factors 031000,
    /// 031001 and 031002, the kind must not be text, the width must be 1, 8 or 16 bits,
    /// respectively, and the scale and the reference value must be 0.
    ///
    /// # Errors
    ///
    /// [`TableFault::Header`] if the first record is not the header. Otherwise, the fault is the
    /// first of [`TableFault::Csv`], [`TableFault::Row`] and [`TableFault::Duplicate`] that applies
    /// to the first invalid record. [`TableFault::Memory`] if memory cannot be allocated.
    // rule: first-record-decides
    pub fn read(alloc: Global, text: &[u8]) -> Result<TableB, TableFault>
        ensures read { ReturnsUnlessMemory (table_b_of (records_of text.now)) result }
        ensures rows { IfOk result (AreRows (records_of text.now)) }
    {
        let mut records = RecordReader::open(alloc, text, &HEADER)?;
        let mut table = TableB {
            octets: Vec::new(alloc),
            stored: Vec::new(alloc),
            directory: FxyIndex::new(alloc)?,
        };
        while records.advance()? {
            table.add(records.number, &records.row)?;
        }
        Ok(table)
    }

    /// Returns an element's entry, or `None` if the table does not contain the element. The
    /// returned entry satisfies the limits stated for [`Entry`].
    #[inline(always)]
    pub fn get(&self, fxy: Fxy) -> Option<Entry<'_>>
        ensures value { option_map row_of_entry result ≡ entry_of self.now fxy }
        ensures limits { IfSome result (λ e. IsRow (row_of_entry e)) }
    {
        let directory = &self.directory;
        if fxy.f() != 0 {
            return None;
        }
        let place = directory.place(fxy.key())?;
        let octets = self.octets.as_slice();
        let stored = &self.stored[place];
        Some(Entry { octets, stored })
    }

    /// Parses a record and adds the element that it defines to the table. `number` is the number of
    /// the record (the header is record 1).
    #[tactic(auto, unfolding(crate::specs::TableB::with_record_b))]
    // rule: fault-42, fault-45, order-in-a-record
    fn add(&mut self, number: u64, fields: &ByteRecord) -> Result<(), TableFault>
        ensures ok { OnOk result
            (with_record_b number self.old (fields_of fields.now) ≡ Ok self.new) }
        ensures err { IfErr result
            (λ e. (e ≢ Memory) → with_record_b number self.old (fields_of fields.now) ≡ Err e) }
    {
        if fields.len() != 6 {
            return Err(TableFault::Csv);
        }
        let Some(row) = parse_row(fields) else {
            return Err(TableFault::Row(number));
        };
        if self.get(row.fxy).is_some() {
            return Err(TableFault::Duplicate(row.fxy));
        }
        self.push(&row)?;
        Ok(())
    }

    fn push(&mut self, row: &ParsedRow) -> Result<(), AllocError>
        requires element { row.now.fxy < 16384 }
        requires absent { entry_of self.old row.now.fxy ≡ None }
        requires limits { IsRow (row_parsed row.now) }
        ensures ok { OnOk result (self.new ≡ self.old ++ row_parsed row.now ∷ []) }
    {
        let stored = store(&mut self.octets, row)?;
        self.stored.push(stored)?;
        self.directory.add(row.fxy.key());
        Ok(())
    }
}

/// Appends a row's descriptor, name and unit to `octets`, and returns the resulting `Stored`.
fn store(octets: &mut Vec<u8>, row: &ParsedRow) -> Result<Stored, AllocError>
    ensures grows { ExtendsBlock octets.old.items octets.new.items }
    ensures ok { IfOk result (λ s. IsStored octets.new.items row.now s) }
{
    let start = octets.len();
    octets.extend_from_slice(&row.fxy.text())?;
    octets.extend_from_slice(b" ")?;
    octets.extend_from_slice(b"  # ")?;
    octets.extend_from_slice(row.name)?;
    let middle = octets.len();
    octets.extend_from_slice(b" [")?;
    octets.extend_from_slice(row.unit)?;
    octets.extend_from_slice(b"]\n")?;
    let end = octets.len();
    Ok(Stored {
        fxy: row.fxy,
        start,
        middle,
        end,
        kind: row.kind,
        scale: row.scale,
        reference: row.reference,
        width: row.width,
    })
}

/// The kind of values that an element has, as determined by its unit.
#[derive(Clone, Copy, Debug, PartialEq, Eq)]
pub enum Kind {
    /// Text. The element's unit is `CCITT IA5`.
    Character,
    /// Values whose meanings are listed in a code table, a common code table or a flag table.
    Coded,
    /// Quantities, measured in the element's unit.
    Numeric,
}

impl Kind {
    /// Returns the kind of values that an element with this unit has. ASCII case is ignored.
    #[tactic(auto, unfolding(crate::specs::TableB::kind_of))]
    // rule: kind-by-unit
    pub(crate) fn of(unit: &[u8]) -> Kind
        ensures { result ≡ kind_of unit.now }
    {
        if unit.eq_ignore_ascii_case(b"CCITT IA5") {
            Kind::Character
        } else if starts_with(unit, b"Code table")
            || starts_with(unit, b"Common code table")
            || starts_with(unit, b"Flag table")
        {
            Kind::Coded
        } else {
            Kind::Numeric
        }
    }
}

/// Returns whether `text` begins with `words`. ASCII case is ignored.
#[tactic(auto, unfolding(crate::specs::TableB::begins_with))]
fn starts_with(text: &[u8], words: &[u8]) -> bool
    ensures { result ≡ begins_with text.now words.now }
{
    if text.len() < words.len() {
        return false;
    }
    text[..words.len()].eq_ignore_ascii_case(words)
}
