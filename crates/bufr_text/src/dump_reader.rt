//! A reader that splits dump text into documents.
ghost use Rattle.std.specs.Prelude.{◌≡◌, ◌≢◌, ◌≤◌, ◌<◌, ◌-◌, ◌*◌, ℕ, List, None, Some, Err, true, false, length, max, IfSome, IfOk};
ghost use Rattle.bufr_text.specs.Prelude.{max_line, IsProper, has_no_feed, ReaderModel, new_reader, unfed, ReturnsNextDocument, failures_by, TakesHeldLines, GivesHeldDocument, FillsBuffer, ReadsMoreText, stopped, text_input};
ghost use Rattle.bufr_bits.specs.Prelude.{counted};
ghost use Rattle.bufr_frame.specs.Prelude.{read_failures_after, AddsReads, AsksAtMost, asked_by};

use crate::document::{Document, DocumentParts, LineEffect, ParserState, Progress, take_lines};
use crate::fault::{ReadFault, TextLineFault};
use crate::line::MAX_LINE;
use bufr_bits::Source;
use bufr_frame::{InputBuffer, RunFault};
use std::alloc::Global;
use std::marker::Model;

/// A reader that returns the documents in dump text, one after another.
///
/// The reader requests more input only if no complete line is buffered, so it returns each document
/// without waiting for the next one. Each read requests at most 4,096 octets, and at most 8,192
/// octets are buffered. Apart from its buffer, the reader allocates memory only for the document
/// that it is reading. To reuse a document's memory, pass the document to [`DumpReader::reuse`].
///
/// ```
/// let mut reader = DumpReader::new(rt.alloc());
/// while let Some(document) = reader.next_document(&mut input)? {
///     write(&document)?;
///     reader.reuse(document);
/// }
/// ```
#[derive(Drop)]
pub struct DumpReader {
    alloc: Global,
    /// The octets that have been read but not yet processed. At the end of input, a line feed is
    /// added if the last line has none.
    input: InputBuffer,
    /// A buffer for octets decoded from hexadecimal digits or from a quoted string.
    scratch: [u8; MAX_LINE],
    /// The current state of the parser.
    progress: Progress,
    /// The fault that stopped the reader.
    fault: Option<ReadFault>,
}

impl Model for DumpReader {
    ghost use Rattle.bufr_text.specs.Reader.{ReaderModel};
    ghost use Rattle.bufr_text.specs.Taking.{parsing_of, IsReader};

    ghost Value = { ReaderModel };

    ghost view = { λ f. record {
      at = f.progress.at;
      parsing = parsing_of f.progress;
      held = f.input.held;
      ended = f.input.ended;
      fault = f.fault;
      reads = f.input.reads;
      room = f.input.room;
      free = f.input.free;
    } };

    ghost invariant = { λ f. IsReader f.fault f.progress f.input };
}

impl DumpReader {
    /// Creates a reader that has not read any input yet. This function does not allocate.
    pub fn new(alloc: Global) -> DumpReader
        ensures { result ≡ new_reader }
    {
        DumpReader {
            alloc,
            input: InputBuffer::new(alloc),
            scratch: [0; MAX_LINE],
            progress: Progress {
                state: ParserState::Between,
                at: 1,
                parts: DocumentParts::blank(alloc, 0),
            },
            fault: None,
        }
    }

    /// Reuses the memory of a document for later documents, which saves allocations. Nothing else
    /// changes. If another document is being read, or if a fault has occurred, the memory is freed
    /// instead.
    pub fn reuse(&mut self, document: Document)
        ensures { self.new ≡ self.old }
    {
        if self.fault.is_none() && matches!(self.progress.state, ParserState::Between) {
            self.progress.parts = document.parts;
            self.progress.parts.clear();
        }
    }

    /// Returns the number of octets (at most 8,192) that have been read but not yet processed.
    pub fn held(&self) -> usize
        ensures value { result ≡ length (unfed self.now) }
        ensures bound { result ≤ 2 * max_line }
    {
        let held = self.input.held().len();
        // At the end of input, a line feed may have been added to an incomplete last line. The
        // added line feed was not read, so it is not counted.
        if self.input.ended() {
            held.saturating_sub(1)
        } else {
            held
        }
    }

    /// Stops the reader and returns `fault`. Every later attempt to read returns the same fault.
    fn stop(&mut self, fault: ReadFault) -> ReadFault
        requires { self.old.fault ≡ None }
        ensures new { self.new ≡ stopped self.old fault }
        ensures value { result ≡ fault }
        ensures bound { length self.new.held ≤ 2 * max_line }
    {
        if let ReadFault::Line(_, _) = fault {
            self.progress.state = ParserState::Stopped;
        }
        self.fault = Some(fault);
        fault
    }

    /// Processes buffered lines, stopping at the end of a document.
    fn take_held(&mut self) -> Result<Option<Document>, ReadFault>
        requires sound { self.old.fault ≡ None }
        ensures went { TakesHeldLines self.old self.new result }
        ensures proper { IfOk result (λ found. IfSome found (λ document. IsProper document)) }
        ensures bound { length self.new.held ≤ 2 * max_line }
        ensures ended { self.new.ended ≡ self.old.ended }
        ensures reads { self.new.reads ≡ self.old.reads }
    {
        let held = self.input.held();
        let Ok((len, effect)) = take_lines(&mut self.progress, held, &mut self.scratch) else {
            let fault = ReadFault::Run(RunFault::Memory);
            self.fault = Some(fault);
            return Err(fault);
        };
        self.input.skip(len);
        match effect {
            LineEffect::Continues(_) => Ok(None),
            LineEffect::Completes => {
                self.progress.state = ParserState::Between;
                let blank = DocumentParts::blank(self.alloc, 0);
                let parts = std::mem::replace(&mut self.progress.parts, blank);
                Ok(Some(Document { parts }))
            }
            LineEffect::Refuses(fault) => {
                let fault = ReadFault::Line(self.progress.at - 1, fault);
                self.progress.state = ParserState::Stopped;
                self.fault = Some(fault);
                Err(fault)
            }
        }
    }

    /// Performs one read and appends the octets to the buffer. At the end of input, adds a line
    /// feed to an incomplete last line.
    #[tactic(auto, using(crate::proofs::ReaderLemmas::more_steps))]
    // rule: reading-last-line
    fn fill<R: Source>(&mut self, r: &mut R) -> Result<(), RunFault>
        requires sound { self.old.fault ≡ None }
        requires going { self.old.ended ≡ false }
        requires short { length self.old.held ≤ max_line }
        ensures read { (bs : List ℕ)
            × ReadsMoreText (R.left r.old) (R.left r.new) self.old self.new result bs }
        ensures failed { R.failures r.new ≡ read_failures_after (R.failures r.old) result }
        ensures sure { R.waits r.old ≡ false → result ≢ Err RunFault.Read }
        ensures counts { AddsReads (R.reads r.old) (R.reads r.new) self.old.reads self.new.reads }
        // A read requests as many octets as fit in the buffer, up to the maximum length of a line.
        ensures asked { R.asked r.new ≡ counted (R.asked r.old)
            (asked_by max_line (text_input self.old self.old.held)
            (text_input self.new self.new.held)) }
        // The capacity of the buffer becomes 8,192 octets at the first read, and does not grow
        // after that.
        ensures least { 0 < self.new.reads → 2 * max_line ≤ self.new.room }
        ensures most { self.new.room ≤ max self.old.room (2 * max_line) }
    {
        self.input.fill(r, MAX_LINE, 2 * MAX_LINE)?;
        if self.input.ended() && !self.input.held().is_empty() {
            self.input.push(b'\n');
        }
        Ok(())
    }

    /// Like [`DumpReader::next_document`], but never reads. If more input is needed, returns
    /// `None`; call [`DumpReader::read_more`] to read it.
    #[inline(never)]
    pub fn next_held(&mut self) -> Option<Result<Option<Document>, ReadFault>>
        ensures gives { self.old.fault ≡ None → GivesHeldDocument self.old self.new result }
        ensures proper { IfSome result (λ next. IfOk next (λ found. IfSome found
            (λ document. IsProper document))) }
        ensures reads { self.new.reads ≡ self.old.reads }
        ensures unread { self.old.fault ≡ None
            → result ≢ Some (Err (ReadFault.Run RunFault.Read)) }
        ensures short { self.old.fault ≡ None
            → result ≢ Some (Err (ReadFault.Run RunFault.InputTooLong)) }
        ensures held { length self.new.held ≤ 2 * max_line }
        ensures again { IfSome self.old.fault (λ fault. result ≡ Some (Err fault)) }
        ensures same_self { IfSome self.old.fault (λ _. self.new ≡ self.old) }
    {
        if let Some(fault) = self.fault {
            return Some(Err(fault));
        }
        match self.take_held() {
            Err(fault) => return Some(Err(fault)),
            Ok(Some(document)) => return Some(Ok(Some(document))),
            Ok(None) => {}
        }
        if self.input.ended() {
            // The input must not end within a document.
            if let ParserState::Between = self.progress.state {
                return Some(Ok(None));
            }
            let fault = ReadFault::Line(self.progress.at, TextLineFault::NotAllowed);
            return Some(Err(self.stop(fault)));
        }
        if self.input.held().len() > MAX_LINE {
            let fault = ReadFault::Line(self.progress.at, TextLineFault::NotAllowed);
            return Some(Err(self.stop(fault)));
        }
        None
    }

    /// Performs one read from `r`, which must be the same input in every call. Call this function
    /// after [`DumpReader::next_held`] has returned `None`.
    ///
    /// # Errors
    ///
    /// [`ReadFault::Run`] if the read fails, if the end of input is not reached within 2^32 reads,
    /// or if the buffer cannot be allocated before the first read. After a fault, every call
    /// returns the same fault and reads nothing.
    pub fn read_more<R: Source>(&mut self, r: &mut R) -> Result<(), ReadFault>
        requires going { self.old.ended ≡ false }
        requires short { length self.old.held ≤ max_line }
        ensures read { self.old.fault ≡ None → (bs : List ℕ)
            × FillsBuffer (R.left r.old) (R.left r.new) self.old self.new result bs }
        ensures failed { self.old.fault ≡ None
            → R.failures r.new ≡ failures_by (R.failures r.old) result }
        ensures sure { self.old.fault ≡ None → R.waits r.old ≡ false
            → result ≢ Err (ReadFault.Run RunFault.Read) }
        ensures counts { AddsReads (R.reads r.old) (R.reads r.new) self.old.reads self.new.reads }
        // A read requests as many octets as fit in the buffer, up to the maximum length of a line.
        ensures asked { R.asked r.new ≡ counted (R.asked r.old)
            (asked_by max_line (text_input self.old self.old.held)
            (text_input self.new self.new.held)) }
        // The capacity of the buffer becomes 8,192 octets at the first read, and does not grow
        // after that.
        ensures least { 0 < self.new.reads → 2 * max_line ≤ self.new.room }
        ensures most { self.new.room ≤ max self.old.room (2 * max_line) }
        ensures held { length self.new.held ≤ 2 * max_line }
        ensures again { IfSome self.old.fault (λ fault. result ≡ Err fault) }
        ensures same { IfSome self.old.fault (λ _. r.new ≡ r.old) }
        ensures same_self { IfSome self.old.fault (λ _. self.new ≡ self.old) }
    {
        if let Some(fault) = self.fault {
            return Err(fault);
        }
        match self.fill(r) {
            Ok(()) => Ok(()),
            Err(fault) => Err(self.stop(ReadFault::Run(fault))),
        }
    }

    /// Returns the next document from `r`, which must be the same input in every call. Returns
    /// `None` once all the input has been processed; every later call also returns `None`. Each
    /// document has as many subsets as its header declares, ends after the last subset, and has
    /// section 2 octets only if the header declares a section 2.
    ///
    /// # Errors
    ///
    /// [`ReadFault::Line`] if the next document is invalid, or [`ReadFault::Run`] with one of the
    /// following faults:
    ///
    /// - [`RunFault::Read`] if a read fails;
    /// - [`RunFault::InputTooLong`] if the end of input is not reached within 2^32 reads;
    /// - [`RunFault::Memory`] if memory runs out while a line is being added to a document, or if
    ///   the buffer cannot be allocated before the first read.
    ///
    /// Complete documents that precede the fault are returned first. After a fault, every call
    /// returns the same fault and reads nothing.
    // rule: fault-50, input-ends-early
    pub fn next_document<R: Source>(&mut self, r: &mut R) -> Result<Option<Document>, ReadFault>
        ensures next { self.old.fault ≡ None
            → ReturnsNextDocument (R.left r.old) (R.left r.new) self.old self.new result }
        ensures proper { IfOk result (λ found. IfSome found (λ document. IsProper document)) }
        ensures failed { self.old.fault ≡ None
            → R.failures r.new ≡ failures_by (R.failures r.old) result }
        ensures counts { AddsReads (R.reads r.old) (R.reads r.new) self.old.reads self.new.reads }
        ensures asked { AsksAtMost (R.asked r.old) (R.asked r.new)
            (max_line * (self.new.reads - self.old.reads)) }
        ensures held { length self.new.held ≤ 2 * max_line }
        ensures again { IfSome self.old.fault (λ fault. result ≡ Err fault) }
        ensures same { IfSome self.old.fault (λ _. r.new ≡ r.old) }
        ensures same_self { IfSome self.old.fault (λ _. self.new ≡ self.old) }
    {
        if let Some(fault) = self.fault {
            return Err(fault);
        }
        loop {
            match self.next_held() {
                Some(next) => return next,
                None => self.read_more(r)?,
            }
        }
    }
}
