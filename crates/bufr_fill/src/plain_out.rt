//! A writer that converts the items of a document to plain data.
ghost use Rattle.std.specs.Prelude.{◌≡◌, ◌≤◌, ◌+◌, ◌/◌, ◌^◌, ◌++◌, [], length, vec_len};
ghost use Rattle.bufr_bits.specs.Prelude.{bits_of, padding};
ghost use Rattle.bufr_fill.specs.Writers.{plain_out_model, line_at, EndsSubset};
ghost use Rattle.std.proofs.Common.{ap};
ghost use Rattle.bufr_fill.specs.Prelude.{PlainFills};

use crate::draft::Entries;
use crate::fault::{DraftFault, Expected, ItemFault};
use crate::field_value::{field_content, push_content, taken_of, wrong_item};
use bufr_bits::BitWriter;
use bufr_walk::{Fields, Spec, Taken};
use std::alloc::Global;
use std::marker::Model;

/// A writer that converts the items of a document to plain data, one subset after another. Each
/// walk writes the items of one subset (FM 94 BUFR, section 4).
///
/// In contracts, a writer consists of the remaining entries and the bits written so far.
///
/// ```
/// let mut out = PlainOut::new(alloc, &entries);
/// walk(alloc, &template, &table_b, &mut out, &mut steps)?;
/// let payload = out.into_octets();
/// ```
#[derive(Drop)]
pub struct PlainOut<'s> {
    entries: &'s Entries,
    index: usize,
    out: BitWriter,
}

impl<'s> Model for PlainOut<'s> {
    ghost use Rattle.std.specs.Prelude.{length, drop};
    ghost use Rattle.bufr_fill.specs.Writers.{PlainOutModel, plain_out_model, IsPlainOut};

    ghost Value = { PlainOutModel };

    ghost view = { λ s. plain_out_model (drop s.index s.entries.now) s.out.bits };

    ghost invariant = { λ s. IsPlainOut s.index (length s.entries.now) (length s.out.bits) };
}

impl<'s> PlainOut<'s> {
    /// Creates a writer for the entries of a document. The entries are the items of all subsets and
    /// the lines that end the subsets. The number of entries must be at most 2^45. This function
    /// does not allocate.
    pub fn new(alloc: Global, entries: &'s Entries) -> PlainOut<'s>
        requires { length entries.now ≤ 2 ^ 45 }
        ensures { result ≡ plain_out_model entries.now [] }
    {
        PlainOut {
            entries,
            index: 0,
            out: BitWriter::new(alloc),
        }
    }

    /// Returns the line number of the next item. If the subset has no items left, the result is the
    /// number of the line that ends it. After the last subset, the result is 0.
    pub fn line(&self) -> u64
        ensures { result ≡ line_at self.now.left }
    {
        match self.entries.get(self.index) {
            Some((entry, _)) => entry.line,
            None => 0,
        }
    }

    /// Moves past the end of a subset.
    ///
    /// # Errors
    ///
    /// [`ItemFault::WrongDescriptor`] if the next entry does not mark the end of a subset, in which
    /// case the writer is left unchanged.
    // rule: fault-51
    pub fn end_subset(&mut self) -> Result<(), DraftFault>
        ensures { EndsSubset self.old result self.new }
    {
        if let Some((entry, _)) = self.entries.get(self.index) {
            if entry.is_end() {
                self.index += 1;
                return Ok(());
            }
        }
        let line = self.line();
        let why = ItemFault::WrongDescriptor(Expected::EndOfSubset);
        Err(DraftFault::Item(line, why))
    }

    /// Returns the written bits, packed into octets. The last octet is padded with zero bits. This
    /// function does not allocate.
    // rule: writes-section-4
    pub fn into_octets(self) -> Vec<u8>
        ensures bits { bits_of result.items ≡ self.entry.bits ++ padding (length self.entry.bits) }
        ensures len { vec_len result ≡ (length self.entry.bits + 7) / 8 }
    {
        self.out.into_octets()
    }
}

impl<'s> Fields for PlainOut<'s> {
    type Fault = DraftFault;

    ghost used = { λ s. length s.bits };

    ghost takes = { PlainFills };

    ghost advances = { λ s spec t next h. h.forth };

    ghost refuses = { λ s spec e next h. ap (λ c. length c.bits) h.1 };

    #[inline(always)]
    fn take(&mut self, spec: &Spec) -> Result<Taken, DraftFault> {
        let (entry, octets) = match self.entries.get(self.index) {
            Some(found) => found,
            None => return Err(wrong_item(spec, 0)),
        };
        let content = field_content(&entry, octets, spec)?;
        match push_content(&mut self.out, content, spec) {
            Ok(()) => {
                self.index += 1;
                Ok(taken_of(content, spec))
            }
            Err(_) => Err(DraftFault::Memory),
        }
    }

    fn bits(&self) -> u64 {
        self.out.len_bits()
    }
}
