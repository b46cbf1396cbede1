//! Functions that encode documents as messages, in plain or compressed form.
ghost use Rattle.std.specs.Prelude.{ℕ, ◌≡◌, ◌≢◌, ◌≤◌, ◌*◌, ◌+◌, ◌^◌, List, Bool, length, IfOk, IfErr, OnOk, OnErr, Ok, false, true};
ghost use Rattle.bufr_tables.specs.Prelude.{Tree, places, Record, AreRows, tree_of, tables_of};
ghost use Rattle.bufr_frame.specs.Prelude.{Sections};
ghost use Rattle.bufr_walk.specs.Prelude.{Values, counted_item, ticked};
ghost use Rattle.bufr_text.specs.Prelude.{header_in, document_of, IsAccepted, dump_items, EncodesAgain, EncodesForm, encoding_in, encoding_of, octets_of_bits, message_of, compressed_as, parts_as, IsDocumentRefusal, AreOctetsOf, WritesData, stop_fault, CountsSteps, places_by, bits_by, turns_by, compressed_by, AsWritten, WritesForm};
ghost use Rattle.bufr_fill.specs.Prelude.{subsets_of};

use crate::document::Document;
use crate::fault::DocumentFault;
use bufr_fill::{DraftFault, Entries, ItemFault, PackedOut, PlainOut, WalkRefusal};
use bufr_frame::{WriteFault, write_message};
use bufr_tables::{Fxy, TableB, TableD, Template, TemplateFault};
use bufr_walk::{SpecCache, Steps, TemplateCache, WalkStop, walk_by};
use std::alloc::{AllocError, Global};

/// Converts a [`WalkStop`] into a fault. `line` is the line number of the next entry.
// rule: fault-62
fn of_stop(stop: WalkStop<DraftFault>, line: u64) -> DraftFault
    ensures { result ≡ stop_fault line stop }
{
    let refusal = match stop {
        WalkStop::Width(fxy) => WalkRefusal::Width(fxy),
        WalkStop::Defining(fxy) => WalkRefusal::Defining(fxy),
        WalkStop::Field(fault) => return fault,
        WalkStop::Memory => return DraftFault::Memory,
    };
    DraftFault::Item(line, ItemFault::Walk(refusal))
}

/// Returns the descriptors of a document.
fn descriptors_of(alloc: Global, words: &[u16]) -> Result<Vec<Fxy>, AllocError>
    ensures { IfOk result (λ descriptors. descriptors.items ≡ words.now) }
{
    let mut descriptors = Vec::with_capacity(alloc, words.len())?;
    for word in words {
        descriptors.push(Fxy::from_word(*word))?;
    }
    Ok(descriptors)
}

/// Encodes the given number of subsets as plain data. `entries` contains their items. Returns the
/// encoded octets.
fn write_plain(
    template: &Template,
    entries: &Entries,
    subsets: u16,
    cache: &mut SpecCache<'_>,
    steps: &mut Steps,
) -> Result<Vec<u8>, DocumentFault>
    requires none { steps.old ≡ 0 }
    requires few { length entries.now ≤ 2 ^ 45 }
    requires many { length (subsets_of entries.now) ≡ subsets }
    ensures same { cache.new ≡ cache.old }
    ensures written { WritesData (places template.now) false (counted_item cache.old template.now)
        (subsets_of entries.now) result steps.new }
{
    let mut out = PlainOut::new(cache.allocator(), entries);
    'subsets: for done in 0..subsets {
        match walk_by(template, cache, &mut out, steps) {
            Ok(()) => out.end_subset()?,
            Err(why) => return Err(of_stop(why, out.line()).into()),
        }
    }
    Ok(out.into_octets())
}

/// Encodes entries as compressed data. Returns the encoded octets.
fn write_packed(
    template: &Template,
    entries: &Entries,
    cache: &mut SpecCache<'_>,
    steps: &mut Steps,
) -> Result<Vec<u8>, DocumentFault>
    requires none { steps.old ≡ 0 }
    requires few { length entries.now ≤ 2 ^ 45 }
    ensures same { cache.new ≡ cache.old }
    ensures written { WritesData (places template.now) true (counted_item cache.old template.now)
        (subsets_of entries.now) result steps.new }
{
    let alloc = cache.allocator();
    let mut out = match PackedOut::new(alloc, entries)? {
        Some(out) => out,
        None => return Ok(Vec::new(alloc)),
    };
    match walk_by(template, cache, &mut out, steps) {
        Ok(()) => {
            out.end()?;
            Ok(out.into_octets())
        }
        Err(why) => Err(of_stop(why, out.line()).into()),
    }
}

/// Encodes the data of a document in the given form, using the template selected in `templates`.
/// Returns the encoded octets.
// rule: form-option, fault-56
fn write_data(
    document: &Document,
    form: Form,
    templates: &TemplateCache<'_>,
    cache: &mut SpecCache<'_>,
    steps: &mut Steps,
) -> Result<Vec<u8>, DocumentFault>
    requires none { steps.old ≡ 0 }
    requires list { templates.now.list ≡ document.now.descriptors }
    requires cached { cache.old ≡ templates.now.table_b }
    ensures same { cache.new ≡ cache.old }
    ensures written { WritesForm form templates.now.table_b document.now
        (tree_of (tables_of templates.now.table_b templates.now.table_d) document.now.descriptors)
        result steps.new }
{
    let template = match templates.answer() {
        Ok(template) => template,
        Err(why) => return Err(DocumentFault::Template(document.line(), *why)),
    };
    if form.is_compressed(document.compressed()) {
        write_packed(template, document.items(), cache, steps)
    } else {
        write_plain(template, document.items(), document.subsets(), cache, steps)
    }
}

/// Builds the message for a document. `payload` contains the data, already encoded in the given
/// form.
// rule: writes-local-use, fault-60
fn write_whole(
    alloc: Global,
    document: &Document,
    form: Form,
    payload: &[u8],
) -> Result<Vec<u8>, DocumentFault>
    ensures octets { IfOk result (λ octets. message_of document.now.line
        (header_in document.now).head
        (parts_as (compressed_as form document.now) document.now payload.now) ≡ Ok octets.items) }
    ensures fault { IfErr result (λ why. IsDocumentRefusal why
        (message_of document.now.line (header_in document.now).head
        (parts_as (compressed_as form document.now) document.now payload.now))) }
    ensures payload { (bits : List Bool) → AreOctetsOf payload.now bits
        → payload.now ≡ octets_of_bits bits }
{
    let written = write_message(
        alloc,
        &document.head(),
        document.local1(),
        document.section2(),
        document.descriptors(),
        document.subsets(),
        document.observed(),
        form.is_compressed(document.compressed()),
        payload,
    );
    match written {
        Ok(octets) => Ok(octets),
        Err(WriteFault::TooLong) => Err(DocumentFault::TooLong(document.line())),
        Err(WriteFault::Memory) => Err(DocumentFault::Memory),
    }
}

/// Encodes a document as a message in the given form, using the tables in `templates`. Returns the
/// same result as [`encode_form`]. Because `templates` caches the most recent templates, this
/// function is faster if many documents have the same descriptors.
///
/// ```
/// let mut templates = TemplateCache::new(alloc, &table_b, &table_d);
/// while let Some(document) = reader.next_document(&mut r)? {
///     let octets = encode_by(alloc, &document, Form::Plain, &mut templates, &mut steps)?;
/// }
/// ```
///
/// # Errors
///
/// Returns the same errors as [`encode_form`].
// rule: fault-56-first-60-last
pub fn encode_by(
    alloc: Global,
    document: &Document,
    form: Form,
    templates: &mut TemplateCache<'_>,
    steps: &mut Steps,
) -> Result<Vec<u8>, DocumentFault>
    ensures table_b { templates.new.table_b ≡ templates.old.table_b }
    ensures table_d { templates.new.table_d ≡ templates.old.table_d }
    ensures octets { IfOk result (λ octets.
        encoding_in form templates.old.table_b templates.old.table_d document.now
        ≡ Ok octets.items) }
    // The fault is the one that the definition specifies, unless memory ran out.
    ensures fault { IfErr result (λ why. IsDocumentRefusal why
        (encoding_in form templates.old.table_b templates.old.table_d document.now)) }
    // If memory runs out, the fault is always `Memory`.
    ensures memory { IfErr result
        (λ why. (line : ℕ) → why ≢ DocumentFault.Template line TemplateFault.Memory) }
    ensures made { OnOk result (steps.new
        ≡ ticked 0 (turns_by form templates.old.table_b templates.old.table_d document.now)) }
    ensures made_refused { IfErr result (λ why. CountsSteps (why ≡ DocumentFault.Memory) 0
        (turns_by form templates.old.table_b templates.old.table_d document.now) steps.new) }
    ensures accepted { OnOk result (steps.new
        ≤ places_by templates.old.table_b templates.old.table_d document.now
        * bits_by form templates.old.table_b templates.old.table_d document.now) }
    ensures refused { OnErr result (steps.new
        ≤ places_by templates.old.table_b templates.old.table_d document.now
        * (bits_by form templates.old.table_b templates.old.table_d document.now + 1)) }
{
    *steps = Steps::new();
    let descriptors = descriptors_of(alloc, document.descriptors())?;
    templates.select(&descriptors)?;
    let mut cache = templates.take_specs();
    let payload = write_data(document, form, templates, &mut cache, steps);
    templates.put_specs(cache);
    write_whole(alloc, document, form, &payload?)
}

/// Encodes a document as a message in the given form, using the given tables (FM 94 BUFR, sections
/// 0 to 5).
///
/// First, the template is built. Then the items are encoded in the order of the template. Finally,
/// the length of the message is checked. The form determines whether the data are compressed and
/// how the compression flag is set. A document can therefore be encoded in a form other than the
/// one it specifies, provided that the form can represent its values.
///
/// Sets `steps` to the number of steps taken to walk the template, saturating at `u64::MAX`. Each
/// step processes a descriptor (a replication, a factor, an element or an operator), the end of one
/// repetition of a group, or the end of the template. The template is walked once for each subset
/// or, if the data are compressed, once for all subsets. The step in which a fault occurs is also
/// counted. Extra items are not rejected until the end of the template is reached. If there are no
/// subsets, or if the descriptors cannot be expanded into a template, no steps are taken. If memory
/// runs out, fewer steps may be taken.
///
/// If the encoded data are `n` bits long and [`Template::places`] returns `p`, at most `p * n`
/// steps are taken. If the document is rejected, at most `p * (n + 1)` steps are taken, where `n`
/// is the number of data bits before the fault.
///
/// ```
/// let document = reader.next_document(&mut r)?.ok_or("a document")?;
/// let mut steps = Steps::new();
/// let octets = encode_form(alloc, &document, Form::Plain, &table_b, &table_d, &mut steps)?;
/// ```
///
/// # Errors
///
/// Returns the first of the following faults to occur:
/// - [`DocumentFault::Template`] if the descriptors cannot be expanded into a template;
/// - [`DocumentFault::Item`] if an item cannot be encoded; the variant contains the fault in the
///   first such item. If this item has several faults, [`ItemFault::Walk`] takes precedence,
///   followed by [`ItemFault::WrongDescriptor`], [`ItemFault::Number`],
///   [`ItemFault::MissingForbidden`], [`ItemFault::TextLong`] and [`ItemFault::OutOfRange`] (for
///   each subset in turn, if the data are compressed), and finally by
///   [`ItemFault::UnequalFactor`] and [`ItemFault::Increment`];
/// - [`DocumentFault::TooLong`] if the message would be longer than 16,777,215 octets.
///
/// If memory runs out, the fault is always [`DocumentFault::Memory`].
pub fn encode_form(
    alloc: Global,
    document: &Document,
    form: Form,
    table_b: &TableB,
    table_d: &TableD,
    steps: &mut Steps,
) -> Result<Vec<u8>, DocumentFault>
    ensures octets { IfOk result
        (λ octets. encoding_in form table_b.now table_d.now document.now ≡ Ok octets.items) }
    // The fault is the one that the definition specifies, unless memory ran out.
    ensures fault { IfErr result (λ why. IsDocumentRefusal why
        (encoding_in form table_b.now table_d.now document.now)) }
    // If memory runs out, the fault is always `Memory`.
    ensures memory { IfErr result
        (λ why. (line : ℕ) → why ≢ DocumentFault.Template line TemplateFault.Memory) }
    ensures made { OnOk result
        (steps.new ≡ ticked 0 (turns_by form table_b.now table_d.now document.now)) }
    ensures made_refused { IfErr result (λ why. CountsSteps (why ≡ DocumentFault.Memory) 0
        (turns_by form table_b.now table_d.now document.now) steps.new) }
    ensures accepted { OnOk result (steps.new ≤ places_by table_b.now table_d.now document.now
        * bits_by form table_b.now table_d.now document.now) }
    ensures refused { OnErr result (steps.new ≤ places_by table_b.now table_d.now document.now
        * (bits_by form table_b.now table_d.now document.now + 1)) }
    // If the document of an accepted message is encoded in any form, reading the encoded message
    // gives the same result, except for the compression flag. Unless memory runs out, the document
    // is rejected only if the form cannot represent it.
    ensures again { (records : List Record) (m : List ℕ) (s : Sections) (template : Tree)
        (values : Values) (used at : ℕ)
        → AreRows records table_b.now → IsAccepted table_b.now table_d.now m s template values used
        → document.now ≡ document_of at s (dump_items table_b.now s.subsets values)
        → EncodesForm form table_b.now s template values result }
{
    let mut templates = TemplateCache::new(alloc, table_b, table_d);
    encode_by(alloc, document, form, &mut templates, steps)
}

/// Encodes a document as a message in the form that the document specifies. This function is
/// equivalent to [`encode_form`] with [`Form::AsWritten`].
///
/// ```
/// let document = reader.next_document(&mut r)?.ok_or("a document")?;
/// let mut steps = Steps::new();
/// let octets = encode_document(alloc, &document, &table_b, &table_d, &mut steps)?;
/// ```
///
/// # Errors
///
/// Returns the same errors as [`encode_form`].
pub fn encode_document(
    alloc: Global,
    document: &Document,
    table_b: &TableB,
    table_d: &TableD,
    steps: &mut Steps,
) -> Result<Vec<u8>, DocumentFault>
    ensures octets { IfOk result
        (λ octets. encoding_of table_b.now table_d.now document.now ≡ Ok octets.items) }
    // The fault is the one that the definition specifies, unless memory ran out.
    ensures fault { IfErr result (λ why. IsDocumentRefusal why
        (encoding_of table_b.now table_d.now document.now)) }
    // If memory runs out, the fault is always `Memory`.
    ensures memory { IfErr result
        (λ why. (line : ℕ) → why ≢ DocumentFault.Template line TemplateFault.Memory) }
    ensures made { OnOk result
        (steps.new ≡ ticked 0 (turns_by AsWritten table_b.now table_d.now document.now)) }
    ensures made_refused { IfErr result (λ why. CountsSteps (why ≡ DocumentFault.Memory) 0
        (turns_by AsWritten table_b.now table_d.now document.now) steps.new) }
    ensures accepted { OnOk result (steps.new ≤ places_by table_b.now table_d.now document.now
        * bits_by AsWritten table_b.now table_d.now document.now) }
    ensures refused { OnErr result (steps.new ≤ places_by table_b.now table_d.now document.now
        * (bits_by AsWritten table_b.now table_d.now document.now + 1)) }
    // If the document of an accepted message is encoded, reading the encoded message gives the same
    // result. The encoded message is no longer than the accepted one, except that in edition 3 it
    // can be up to two octets longer. The document is rejected only if memory runs out.
    ensures again { (records : List Record) (m : List ℕ) (s : Sections) (template : Tree)
        (values : Values) (used at : ℕ)
        → AreRows records table_b.now → IsAccepted table_b.now table_d.now m s template values used
        → document.now ≡ document_of at s (dump_items table_b.now s.subsets values)
        → EncodesAgain table_b.now m s template values result }
{
    encode_form(alloc, document, Form::AsWritten, table_b, table_d, steps)
}

/// The form (plain or compressed) in which the data of a document are encoded. (FM 94 BUFR, section
/// 4, defines compression; we chose to let the caller select the form.)
#[derive(Clone, Copy, Debug, PartialEq, Eq)]
pub enum Form {
    /// The form specified by the document's `compressed` line.
    AsWritten,
    /// The plain form, in which the subsets are encoded one after another.
    Plain,
    /// The compressed form, in which each item is encoded once for all subsets.
    Compressed,
}

impl Form {
    /// Returns whether the encoded data are compressed. `written` indicates whether the document
    /// specifies compressed data.
    // rule: writes-form
    pub(crate) fn is_compressed(self, written: bool) -> bool
        ensures { result ≡ compressed_by self written }
    {
        match self {
            Form::AsWritten => written,
            Form::Plain => false,
            Form::Compressed => true,
        }
    }
}
