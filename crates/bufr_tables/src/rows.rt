//! Reads the CSV records of a table and parses the integers in their fields.
ghost use Rattle.std.specs.Prelude.{◌≡◌, ◌≢◌, ◌-◌, ◌^◌, ◌<◌, ◌==◌, IfOk, IfErr, false, min, option_map, slice_index};
ghost use Rattle.bufr_tables.specs.TableB.{i64_of, natural_of};
ghost use Rattle.bufr_tables.specs.Records.{GivesNext, IsBetween, IsOpened, field_texts, field_of, records_of, has_header};
ghost use Rattle.std.specs.Str.{bytes_eq};
ghost use Rattle.std.specs.Cmp.Lexicographic.{pointwise};
ghost use Rattle.bufr_tables.specs.declared.fault.TableFault.TheVariants.{Header, Memory};
ghost use Rattle.csv.specs.Records.{fields_of};

use crate::fault::TableFault;
use crate::fxy::are_digits;
use csv::{ByteRecord, Reader, ReaderBuilder};
use std::alloc::Global;

/// A reader for CSV records. Records are numbered from 1.
#[derive(Drop)]
pub(crate) struct RecordReader<'a> {
    reader: Reader<&'a [u8]>,
    /// The most recently read record.
    pub(crate) row: ByteRecord,
    /// The number of records read so far.
    pub(crate) number: u64,
}

impl<'a> RecordReader<'a> {
    /// Creates a reader and reads the header. The first record must consist of exactly the fields
    /// in `header`.
    pub(crate) fn open(
        alloc: Global,
        text: &'a [u8],
        header: &[&[u8]],
    ) -> Result<RecordReader<'a>, TableFault>
        ensures ok { IfOk result (IsOpened (field_texts header.now) (records_of text.now)) }
        ensures err { IfErr result
            (λ e. e ≢ Memory
            → (e ≡ Header) × (has_header (field_texts header.now) (records_of text.now) ≡ false)) }
    {
        let reader = ReaderBuilder::new()
            .has_headers(false)
            .flexible(true)
            .from_reader(alloc, text);
        let mut records = RecordReader {
            reader,
            row: ByteRecord::new(alloc),
            number: 0,
        };
        if !records.advance()? || !has_fields(&records.row, header) {
            return Err(TableFault::Header);
        }
        Ok(records)
    }

    /// Reads the next record into `row`. Returns `false` if there are no more records.
    pub(crate) fn advance(&mut self) -> Result<bool, TableFault>
        requires { IsBetween self.old }
        ensures memory { IfErr result (λ e. e ≡ Memory) }
        ensures next { IfOk result (λ found. GivesNext self.old self.new found) }
    {
        match self.reader.read_byte_record(&mut self.row) {
            Ok(false) => Ok(false),
            Ok(true) => {
                self.number += 1;
                Ok(true)
            }
            // The only possible cause of an error here is a failed allocation: reading from a slice
            // never fails, and records may have any number of fields.
            Err(_) => Err(TableFault::Memory),
        }
    }
}

/// Returns the field at index `place` (counted from 0), or an empty slice if the record has no such
/// field.
pub(crate) fn field(fields: &ByteRecord, place: usize) -> &[u8]
    ensures { result.now ≡ field_of (fields_of fields.now) place }
{
    fields.get(place).unwrap_or(&[])
}

// rule: fault-40
fn has_fields(fields: &ByteRecord, names: &[&[u8]]) -> bool
    ensures { result ≡ pointwise bytes_eq (fields_of fields.now) (field_texts names.now) }
{
    if fields.len() != names.len() {
        return false;
    }
    for (place, name) in names.iter().enumerate() {
        if field(fields, place) != *name {
            return false;
        }
    }
    true
}

/// Parses an integer, which consists of an optional `-` followed by one or more digits. Returns
/// `None` if `text` is not an integer or if the integer does not fit in an `i64`.
#[tactic(auto, unfolding(crate::specs::TableB::i64_of))]
pub(crate) fn integer(text: &[u8]) -> Option<i64>
    ensures { result ≡ i64_of text.now }
{
    if is_negative(text) {
        let size = magnitude(&text[1..])?;
        return 0i64.checked_sub_unsigned(size);
    }
    let size = magnitude(text)?;
    0i64.checked_add_unsigned(size)
}

/// Returns whether `text` begins with `-`. (Calling `strip_prefix` here would stop the compiler
/// from inlining it in the code that reads dumps, and encoding would take 3% more instructions.)
fn is_negative(text: &[u8]) -> bool
    ensures { result ≡ (slice_index text.now 0 == 45) }
{
    !text.is_empty() && text[0] == b'-'
}

/// Parses an unsigned integer, which consists of one or more digits. The result is capped at
/// `u64::MAX`. Returns `None` if `digits` is not an unsigned integer.
#[tactic(auto, unfolding(crate::specs::TableB::natural_of))]
pub(crate) fn magnitude(digits: &[u8]) -> Option<u64>
    ensures { result ≡ option_map (λ n. min n (2 ^ 64 - 1)) (natural_of digits.now) }
{
    if digits.is_empty() || !are_digits(digits) {
        return None;
    }
    let mut number: u64 = 0;
    for octet in digits {
        number = number
            .saturating_mul(10)
            .saturating_add(u64::from(*octet - b'0'));
    }
    Some(number)
}
