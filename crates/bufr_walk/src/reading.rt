//! Functions that read the data of a message and return a [`Reading`].
ghost use Rattle.std.specs.Prelude.{◌≡◌, ◌≤◌, ◌+◌, ◌*◌, length, IfOk, IfErr, IfSome, is_some, false};
ghost use Rattle.bufr_tables.specs.Prelude.{places};
ghost use Rattle.bufr_walk.specs.Prelude.{bits_before, data_of, AnswersReading, calls_of, turns_shown, items_called, Shows, values_read, stored_count, max_values, IsPackedOf};

use crate::compressed::{PackedData, PackedIn, PackedItems};
use crate::fault::{ShowFault, WalkFault, fault_at};
use crate::item_index::ItemIndex;
use crate::plain::{PlainData, read_plain, show_plain};
use crate::spec_cache::SpecCache;
use crate::visitor::Visitor;
use crate::walker::{Steps, walk_by};
use bufr_bits::BitSlice;
use bufr_frame::Message;
use bufr_tables::{TableB, Template};
use std::alloc::Global;
use std::marker::Model;

/// The items stored in a [`Reading`]. Only the items of compressed data are stored, in an index.
#[derive(Drop)]
enum StoredItems {
    Apart,
    Together(ItemIndex),
}

/// The result of reading a message's data. The result borrows the message's octets, the template,
/// and the table (FM 94 BUFR, section 4).
#[derive(Drop)]
pub struct Reading<'a> {
    bits: BitSlice<'a>,
    template: &'a Template,
    table: &'a TableB,
    compressed: bool,
    subsets: u16,
    used: u64,
    kept: StoredItems,
}

impl<'a> Model for Reading<'a> {
    ghost use Rattle.std.specs.Coded.{codes};
    ghost use Rattle.bufr_bits.specs.Prelude.{octets_of};
    ghost use Rattle.bufr_tables.specs.Prelude.{tree_code};
    ghost use Rattle.bufr_walk.specs.Reading.{Read};
    ghost use Rattle.bufr_walk.specs.Readers.{data_in, read_by};

    ghost Value = { Read };

    ghost coded = { Prim.hlevel (codes, tree_code) };

    ghost use Rattle.bufr_walk.specs.Readers.{held_of, IsStoredReading};

    ghost view = { λ r. read_by r.table.now r.template.now
        (data_in r.compressed r.subsets (octets_of r.bits)) r.used (held_of r.kept) };

    ghost invariant = { λ r. IsStoredReading (read_by r.table.now r.template.now
        (data_in r.compressed r.subsets (octets_of r.bits)) r.used (held_of r.kept)) r.kept };
}

/// Reads the data of a message according to its template. Plain data requires one walk over the
/// template per subset, and compressed data requires only one walk in total (FM 94 BUFR, sections 3
/// and 4).
///
/// Sets `steps` to the total number of steps. If the template has `p` cells and the items occupy
/// `n` bits, there are at most `p * n` steps. If reading fails, the limit is `p * (n + 1)` steps,
/// where `n` is the number of bits before the invalid item or, if memory ran out, the number of
/// data bits.
///
/// ```
/// let mut steps = Steps::new();
/// let reading = read_message(alloc, &message, &template, &table_b, &mut steps)?;
/// assert_eq!(rt; (reading.bits(), steps.count()), (7, 2)); // one 7-bit block number
/// ```
///
/// # Errors
///
/// Returns the first fault in the data. The fault contains the subset number (0 for compressed
/// data), the descriptor, and the number of bits before the item. If an item has several faults,
/// the first one in the following list is returned:
/// - [`WalkFault::Defining`] if the descriptor is not allowed while reference values are being
///   redefined;
/// - [`WalkFault::Width`] if a non-text field is not 1 to 63 bits wide, or if the table does not
///   contain the element;
/// - [`WalkFault::TooManyValues`] if compressed data would contain more than 134,217,728 values;
/// - [`WalkFault::DataEnd`] if the item extends past the end of the data;
/// - [`WalkFault::Increment`] if the increments are invalid;
/// - [`WalkFault::UnequalFactor`] if a replication factor differs between subsets.
///
/// [`WalkFault::Memory`] if memory runs out. Memory can run out before a redefined reference value
/// is read and, in compressed data, at the first item and at every 64th item after it.
pub fn read_message<'a>(
    alloc: Global,
    message: &Message<'a>,
    template: &'a Template,
    table: &'a TableB,
    steps: &mut Steps,
) -> Result<Reading<'a>, WalkFault>
    ensures reads { AnswersReading table.now template.now (data_of message.now) result steps.new }
    ensures accepted { IfOk result (λ r. steps.new ≤ places template.now * r.bits) }
    ensures refused { IfErr result (λ why. steps.new
        ≤ places template.now * (bits_before why (length (data_of message.now).bits) + 1)) }
{
    let mut cache = SpecCache::new(alloc, table);
    read_by(message, template, &mut cache, steps)
}

/// Like [`read_message`], but uses cached specs.
///
/// # Errors
///
/// Returns the same errors as [`read_message`].
// rule: no-subsets
pub fn read_by<'a, 't: 'a>(
    message: &Message<'a>,
    template: &'a Template,
    cache: &mut SpecCache<'t>,
    steps: &mut Steps,
) -> Result<Reading<'a>, WalkFault>
    ensures same { cache.new ≡ cache.old }
    ensures reads { AnswersReading cache.old template.now (data_of message.now) result steps.new }
    ensures accepted { IfOk result (λ r. steps.new ≤ places template.now * r.bits) }
    ensures refused { IfErr result (λ why. steps.new
        ≤ places template.now * (bits_before why (length (data_of message.now).bits) + 1)) }
{
    *steps = Steps::new();
    let bits = message.payload();
    let subsets = message.subsets();
    let table = cache.table;
    if message.compressed() {
        if subsets == 0 {
            return Ok(Reading {
                bits,
                template,
                table,
                compressed: true,
                subsets,
                used: 0,
                kept: StoredItems::Together(ItemIndex::new(cache.alloc)),
            });
        }
        let mut fields = PackedIn::new(cache.alloc, bits, subsets);
        match walk_by(template, cache, &mut fields, steps) {
            Ok(()) => {}
            Err(why) => return Err(fault_at(why, 0, fields.at)),
        }
        return Ok(Reading {
            bits,
            template,
            table,
            compressed: true,
            subsets,
            used: fields.at,
            kept: StoredItems::Together(fields.kept),
        });
    }
    let used = read_plain(bits, subsets, template, cache, steps)?;
    Ok(Reading {
        bits,
        template,
        table,
        compressed: false,
        subsets,
        used,
        kept: StoredItems::Apart,
    })
}

impl<'a> Reading<'a> {
    /// Returns the number of subsets.
    pub fn subsets(&self) -> u16
        ensures { result ≡ self.now.source.subsets }
    {
        self.subsets
    }

    /// Returns the Table B that was used to read the items.
    pub fn table(&self) -> &'a TableB
        ensures { result.now ≡ self.now.table }
    {
        self.table
    }

    /// Returns the number of data bits that the items occupy.
    pub fn bits(&self) -> u64
        ensures { result ≡ self.now.bits }
    {
        self.used
    }

    /// Returns the number of stored items, which is 0 for plain data. Each item of compressed data
    /// is counted once, not once per subset, and occupies at least seven bits.
    pub fn held(&self) -> u64
        ensures value { result ≡ self.now.held }
        ensures items { result ≡ stored_count (values_read self.now) }
        ensures few { 7 * result ≤ self.now.bits }
        ensures none { self.now.source.compressed ≡ false → result ≡ 0 }
    {
        match &self.kept {
            StoredItems::Apart => 0,
            StoredItems::Together(items) => items.len() as u64,
        }
    }

    /// Returns the items of compressed data, or `None` if the data is plain. Each item encodes one
    /// value per subset.
    #[inline(always)]
    pub fn packed(&self) -> Option<PackedItems<'_, 'a>>
        ensures some { is_some result ≡ self.now.source.compressed }
        ensures items { IfSome result (λ p. IsPackedOf p self.now) }
    {
        match &self.kept {
            StoredItems::Apart => None,
            StoredItems::Together(kept) => {
                let data = PackedData {
                    bits: self.bits,
                    subsets: self.subsets,
                    table: self.table,
                };
                Some(PackedItems { data, kept })
            }
        }
    }

    /// Passes the subsets to a visitor one at a time, each followed by its items, and stops if the
    /// visitor returns a fault. At most 134,217,728 items are passed to the visitor.
    ///
    /// Sets `steps` to the total number of steps, which is 0 for compressed data. If the template
    /// has `p` cells and the items occupy `n` bits, there are at most `p * n` steps.
    ///
    /// # Errors
    ///
    /// - [`ShowFault::Visitor`] if the visitor returns a fault.
    /// - [`ShowFault::Memory`] if memory runs out. Memory is allocated only for redefined reference
    ///   values, before they are passed to the visitor.
    pub fn show<V: Visitor>(
        &self,
        alloc: Global,
        visitor: &mut V,
        steps: &mut Steps,
    ) -> Result<(), ShowFault<V::Fault>>
        ensures shown { Shows V.sees visitor.old (calls_of self.now) (turns_shown self.now) result
            visitor.new steps.new }
        ensures few { items_called (calls_of self.now) ≤ max_values }
        ensures bounded { steps.new ≤ places self.now.template * self.now.bits }
    {
        let mut cache = SpecCache::new(alloc, self.table);
        self.show_by(&mut cache, visitor, steps)
    }

    /// Like [`Reading::show`], but uses cached specs. The cache must use the same table as this
    /// `Reading`.
    ///
    /// # Errors
    ///
    /// Returns the same errors as [`Reading::show`].
    #[tactic(auto, using(crate::proofs::PlainLemmas::readable_of, crate::proofs::PackedShowing::packed_shown, crate::proofs::ShownLemmas::apart_shown))]
    pub fn show_by<V: Visitor>(
        &self,
        cache: &mut SpecCache<'_>,
        visitor: &mut V,
        steps: &mut Steps,
    ) -> Result<(), ShowFault<V::Fault>>
        requires { cache.old ≡ self.now.table }
        ensures same { cache.new ≡ cache.old }
        ensures shown { Shows V.sees visitor.old (calls_of self.now) (turns_shown self.now) result
            visitor.new steps.new }
        ensures few { items_called (calls_of self.now) ≤ max_values }
        ensures bounded { steps.new ≤ places self.now.template * self.now.bits }
    {
        // This call is needed only for the proof: its contract describes the template's groups and
        // thereby limits the number of steps.
        let _ = self.template.cells();
        *steps = Steps::new();
        if let Some(items) = self.packed() {
            return items.show_all(visitor);
        }
        let data = PlainData {
            bits: self.bits,
            subsets: self.subsets,
            template: self.template,
        };
        show_plain(&data, cache, visitor, steps)
    }
}
