//! Builds the rows for the items of one message.
ghost use Rattle.std.specs.Prelude.{◌≡◌, ◌≤◌, length, OnOk, IfOk, [], pos};
ghost use Rattle.bufr_frame.specs.Prelude.{sections_of, FrameAt, StartsWithBufr};
ghost use Rattle.bufr_c.specs.Leaving.{FindsEvent};
ghost use Rattle.bufr_c.specs.Rows.{PutsCall, is_wanted, message_fault, message_put, no_items, row_place, rows_in, rows_of, with_number, with_item, with_text, with_wide};

use crate::events::{Candidate, classify};
use crate::rows::{Counts, MISSING, MessageRow, NUMBER, REFERENCE, TEXT, ValueRow, WIDE};
use crate::tables::Tables;
use bufr_frame::Message;
use bufr_tables::{Fxy, Template};
use bufr_walk::{ItemView, SpecCache, Steps, TemplateCache, Value, Visitor, WalkFault, read_by};
use std::alloc::{AllocError, Global};
use std::marker::Model;

/// The rows for the items of one message, and the octets of its strings and wide numbers (numbers
/// that do not fit in 64 bits).
#[derive(Drop)]
pub(crate) struct ItemsOut<'w> {
    wanted: &'w [u16],
    /// The index of the message's row in the caller's buffer.
    message: u32,
    /// The index in the caller's buffer at which the message's strings and wide numbers begin.
    base: usize,
    subset: u16,
    pub(crate) items: Vec<ValueRow>,
    pub(crate) octets: Vec<u8>,
}

impl<'w> Model for ItemsOut<'w> {
    ghost use Rattle.bufr_c.specs.Rows.{Put};

    ghost Value = { Put };

    ghost view = { λ o. record {
      wanted = o.wanted.now;
      message = o.message;
      base = o.base;
      subset = o.subset;
      items = o.items.items;
      octets = o.octets.items;
    } };
}

impl<'w> ItemsOut<'w> {
    fn new(alloc: Global, wanted: &'w [u16]) -> ItemsOut<'w>
        ensures { result ≡ no_items wanted.now 0 0 }
    {
        ItemsOut {
            wanted,
            message: 0,
            base: 0,
            subset: 0,
            items: Vec::new(alloc),
            octets: Vec::new(alloc),
        }
    }

    /// Clears all rows without freeing their memory, and prepares for the next message.
    fn restart(&mut self, wanted: &'w [u16], message: u32, base: usize)
        ensures { self.new ≡ no_items wanted.now message base }
    {
        self.wanted = wanted;
        self.items.clear();
        self.octets.clear();
        self.message = message;
        self.base = base;
        self.subset = 0;
    }

    /// Returns whether the caller requested items with the given descriptor.
    fn is_wanted(&self, fxy: u16) -> bool
        ensures { result ≡ is_wanted self.now.wanted fxy }
    {
        self.wanted.is_empty() || self.wanted.contains(&fxy)
    }

    /// Appends a row for an item whose value is stored in the row itself.
    fn put_row(&mut self, fxy: u16, kind: u8, scale: i16, value: i64) -> Result<(), AllocError>
        ensures { OnOk result (self.new ≡ with_item self.old fxy kind scale value 0) }
    {
        self.items.push(ValueRow {
            value,
            message: self.message,
            length: 0,
            subset: self.subset,
            fxy,
            scale,
            kind,
            reserved: 0,
        })?;
        Ok(())
    }

    /// Appends the octets of a string or a wide number, and a row for the item.
    fn put_text(&mut self, fxy: u16, kind: u8, scale: i16, octets: &[u8]) -> Result<(), AllocError>
        ensures { OnOk result (self.new ≡ with_text self.old fxy kind scale octets.now) }
    {
        let Ok(length) = u32::try_from(octets.len()) else {
            return Err(AllocError);
        };
        let Ok(value) = i64::try_from(self.base as u128 + self.octets.len() as u128) else {
            return Err(AllocError);
        };
        self.octets.extend_from_slice(octets)?;
        self.items.push(ValueRow {
            value,
            message: self.message,
            length,
            subset: self.subset,
            fxy,
            scale,
            kind,
            reserved: 0,
        })?;
        Ok(())
    }

    /// Appends a row for a number that does not fit in 64 bits, and the number itself as 16 octets.
    fn put_wide(&mut self, fxy: u16, scale: i16, number: i128) -> Result<(), AllocError>
        ensures { OnOk result (self.new ≡ with_wide self.old fxy scale number) }
    {
        let octets = number.to_le_bytes();
        self.put_text(fxy, WIDE, scale, &octets)
    }

    /// Appends a row for a number. If the number does not fit in 64 bits, the row's kind is
    /// [`WIDE`].
    fn put_number(&mut self, fxy: u16, scale: i16, number: i128) -> Result<(), AllocError>
        ensures { OnOk result (self.new ≡ with_number self.old fxy scale number) }
    {
        if number < (i64::MIN as i128) {
            return self.put_wide(fxy, scale, number);
        }
        if (i64::MAX as i128) < number {
            return self.put_wide(fxy, scale, number);
        }
        self.put_row(fxy, NUMBER, scale, number as i64)
    }
}

impl<'w> Visitor for ItemsOut<'w> {
    type Fault = AllocError;

    ghost sees = { λ s call r t. PutsCall s call r t };

    fn subset(&mut self, number: u16) -> Result<(), AllocError> {
        self.subset = number;
        Ok(())
    }

    fn item(&mut self, item: &ItemView<'_>) -> Result<(), AllocError> {
        let fxy = item.fxy.word();
        if !self.is_wanted(fxy) {
            return Ok(());
        }
        match item.value {
            Value::Number(number, scale) => self.put_number(fxy, scale, number),
            Value::Text(octets) => self.put_text(fxy, TEXT, 0, octets),
            Value::Missing => self.put_row(fxy, MISSING, 0, 0),
            Value::Reference(reference) => self.put_row(fxy, REFERENCE, 0, reference),
        }
    }
}

/// Sets `list` to the descriptor list of `message`.
fn set_descriptors(list: &mut Vec<Fxy>, message: &Message<'_>) -> Result<(), AllocError>
    ensures { OnOk result (list.new.items ≡ message.now.descriptors) }
{
    list.clear();
    let words = message.descriptors();
    list.reserve(words.len())?;
    for word in words {
        list.push(Fxy::from_word(word))?;
    }
    Ok(())
}

/// A message and its template, which are borrowed for the same lifetime.
struct Expanded<'a, 'o> {
    message: &'a Message<'o>,
    template: &'a Template,
}

/// Appends rows for the items of a message, using the template currently selected in `templates`.
/// Returns the fault number if the message is rejected, and 0 otherwise.
#[tactic(auto, using(crate::proofs::RowLemmas::message_done, crate::proofs::RowLemmas::message_refused, crate::proofs::RowLemmas::template_refused, crate::proofs::RowLemmas::message_done_fault, crate::proofs::RowLemmas::message_refused_fault, crate::proofs::RowLemmas::template_refused_fault))]
fn put_selected(
    message: &Message<'_>,
    templates: &TemplateCache<'_>,
    specs: &mut SpecCache<'_>,
    out: &mut ItemsOut<'_>,
) -> Result<u8, AllocError>
    requires list { templates.now.list ≡ message.now.descriptors }
    requires cached { specs.old ≡ templates.now.table_b }
    ensures specs { specs.new ≡ specs.old }
    ensures puts { OnOk result (out.new ≡ message_put templates.now.table_b templates.now.table_d
        message.now out.old) }
    ensures fault { IfOk result (λ fault. fault ≡ message_fault templates.now.table_b
        templates.now.table_d message.now) }
{
    match templates.answer() {
        Ok(template) => {
            let Expanded { message, template } = Expanded { message, template };
            let mut steps = Steps::new();
            match read_by(message, template, specs, &mut steps) {
                Ok(reading) => match reading.show_by(specs, out, &mut steps) {
                    Ok(()) => Ok(0),
                    Err(_) => Err(AllocError),
                },
                Err(WalkFault::Memory) => Err(AllocError),
                Err(why) => Ok(why.number()),
            }
        }
        Err(fault) => Ok(fault.number()),
    }
}

/// The rows for one message or stray `BUFR`, with caches and buffers that are reused for the next
/// one.
#[derive(Drop)]
pub(crate) struct EventRows<'t> {
    templates: TemplateCache<'t>,
    descriptors: Vec<Fxy>,
    wanted: &'t [u16],
    /// The rows for the items of the message.
    pub(crate) out: ItemsOut<'t>,
    /// The row for the message or the stray `BUFR`.
    pub(crate) row: MessageRow,
}

impl<'t> EventRows<'t> {
    pub(crate) fn new(alloc: Global, tables: &'t Tables, wanted: &'t [u16]) -> EventRows<'t>
        ensures table_b { result.templates.table_b ≡ tables.now.b }
        ensures table_d { result.templates.table_d ≡ tables.now.d }
        ensures wanted { result.wanted.now ≡ wanted.now }
    {
        EventRows {
            templates: TemplateCache::new(alloc, &tables.b, &tables.d),
            descriptors: Vec::new(alloc),
            wanted,
            out: ItemsOut::new(alloc, wanted),
            row: MessageRow::plain(0, 0, 0, 0),
        }
    }

    /// Builds the rows for a message. `counts` contains the indices at which the rows will be
    /// written to the caller's buffers.
    fn set_message(&mut self, offset: u64, octets: &[u8], counts: &Counts) -> Result<(), AllocError>
        requires { 12 ≤ length octets.now }
        ensures table_b { self.new.templates.table_b ≡ self.old.templates.table_b }
        ensures table_d { self.new.templates.table_d ≡ self.old.templates.table_d }
        ensures wanted { self.new.wanted.now ≡ self.old.wanted.now }
        ensures rows { OnOk result (rows_in self.new.out self.new.row
            ≡ rows_of self.old.templates.table_b self.old.templates.table_d self.old.wanted.now
            (row_place counts.now) (FrameAt offset octets.now)) }
    {
        let Ok(index) = u32::try_from(counts.messages) else {
            return Err(AllocError);
        };
        self.out.restart(self.wanted, index, counts.octets);
        match Message::parse(octets) {
            Ok(message) => {
                set_descriptors(&mut self.descriptors, &message)?;
                self.templates.select(&self.descriptors)?;
                let mut specs = self.templates.take_specs();
                let outcome = put_selected(&message, &self.templates, &mut specs, &mut self.out);
                self.templates.put_specs(specs);
                let fault = outcome?;
                let items = self.out.items.len();
                self.row = MessageRow::of(&message, offset, counts.items, items, fault);
            }
            Err(fault) => {
                let length = octets.len() as u64;
                self.row = MessageRow::plain(offset, length, counts.items, fault.number());
            }
        }
        Ok(())
    }

    /// Builds the rows for the message or stray `BUFR` that `m` begins with. Returns the number of
    /// octets to skip before searching for the next `BUFR`.
    pub(crate) fn set_event(
        &mut self,
        offset: u64,
        m: &[u8],
        counts: &Counts,
    ) -> Result<usize, AllocError>
        requires { StartsWithBufr m.now }
        ensures table_b { self.new.templates.table_b ≡ self.old.templates.table_b }
        ensures table_d { self.new.templates.table_d ≡ self.old.templates.table_d }
        ensures wanted { self.new.wanted.now ≡ self.old.wanted.now }
        ensures rows { IfOk result (λ moves. FindsEvent (λ event. rows_in self.new.out self.new.row
            ≡ rows_of self.old.templates.table_b self.old.templates.table_d self.old.wanted.now
            (row_place counts.now) event) offset m.now moves) }
    {
        match classify(m) {
            Candidate::Stray(cause) => {
                self.out.restart(self.wanted, 0, 0);
                self.row = MessageRow::plain(offset, 4, counts.items, cause.number());
                Ok(4)
            }
            Candidate::Frame(len) => {
                self.set_message(offset, &m[..len], counts)?;
                Ok(len)
            }
        }
    }
}
