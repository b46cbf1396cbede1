//! Theorems about dumping messages, encoding the dumps, and reading the encoded messages.
ghost use Rattle.std.specs.Prelude.{◌≡◌, ℕ, ◌+◌, true, false, List, [], ◌∷◌, ◌++◌, length, Option, None, Result, Ok};
ghost use Rattle.bufr_frame.specs.Prelude.{Sections};
ghost use Rattle.bufr_text.specs.Prelude.{between, ParseResult, Complete, documents_of, open_documents_of, lines_of, parse_lines, Document, document_of, dump_lines, dump_text_of, IsDumpable, TakesWholeLines, parse, parse_open, ReaderModel, new_reader, unfed, position_of, IsMissingFeed, ReadsLines, ReturnsNextDocument, HasNoMoreLines, HasNoWholeLine, AreReported, numbered_lines, AreProper, normal, IsProper, ReadFault, DocumentFault, IsCanonical, HasSameReading, IsAccepted, IsEncodedAgain, dump_items, HasReadingIn, IsFaultIn, IsFormed, IsReadAs, encoding_in, encoding_of, IsDocumentRefusal, compressed_by, form_of_flag, Form, AsWritten};
ghost use Rattle.bufr_tables.specs.Prelude.{Record, AreRows, Row, Sequence, Tree};
ghost use Rattle.bufr_walk.specs.Prelude.{Values, View};
ghost use Rattle.bufr_text.specs.declared.fault.DocumentFault.TheVariants.{Memory};

/// Parsing the dump of a message produces the document that represents the message. Parsing then
/// continues with the text after the dump. Parsing text that consists of one dump produces exactly
/// one document.
pub fn dump_text_spells_its_document()
    ensures { (s : Sections) (subsets : List (List View)) → IsDumpable s subsets
        → ((at : ℕ) (t : List ℕ) → parse_lines at between (lines_of (dump_text_of s subsets ++ t))
        ≡ Complete (document_of at s subsets)
        ∷ parse_lines (at + length (dump_lines s subsets)) between (lines_of t))
        × (documents_of (dump_text_of s subsets) ≡ Complete (document_of 1 s subsets) ∷ []) }
{}

/// Every document in dump text is valid. A valid document has a complete header with values in
/// range, as many subsets as the header declares, nothing after the last subset, and section 2
/// octets only if the header declares a section 2. The lines that are neither comments nor empty
/// are exactly the lines of the documents. The documents follow one another until the text ends or
/// a line is invalid. The documents found in part of a text, while more may follow, are the first
/// ones found in the whole text.
#[tactic(auto, using(crate::proofs::LawLemmas::proper_steps))]
pub fn texts_are_their_documents()
    ensures proper { (text : List ℕ) → AreProper (documents_of text) }
    ensures lines { (text : List ℕ)
        → AreReported (numbered_lines 1 (lines_of text)) (documents_of text) }
    ensures prefix { (s t : List ℕ)
        → (more : List ParseResult) × (documents_of (s ++ t) ≡ open_documents_of s ++ more) }
{}

/// Consecutive calls to a reader have the same effect as a single call that reads the same octets
/// and reports the same results.
pub fn calls_compose()
    ensures { (left mid left' : Option (List ℕ)) (old s s' : ReaderModel)
        (results results' : List ParseResult) (bs bs' : List ℕ)
        → ReadsLines left mid old s results bs → ReadsLines mid left' s s' results' bs'
        → ReadsLines left left' old s' (results ++ results') (bs ++ bs') }
{}

/// The documents that a reader has reported are the first documents in its input, no matter what
/// input follows. Once the end of input has been reported, all documents in the input have been
/// reported. An open document is one that can be reported before it is known whether more input
/// follows. Before the end of input is reached, the documents reported so far are the first open
/// documents in the input. If the end of input has not been reached and no complete line is
/// buffered, every open document in the octets read so far has been reported.
///
/// The octets that were read consist of the processed lines, followed by the buffered octets. The
/// line number has increased by one for each processed line. At the end of input, a line feed is
/// added to an incomplete last line, but it does not count as a buffered octet.
pub fn documents_reported_are_the_first()
    ensures { (left left' : Option (List ℕ)) (s : ReaderModel) (results : List ParseResult)
        (bs : List ℕ) → ReadsLines left left' new_reader s results bs
        → ((t : List ℕ) → (s.ended ≡ true → t ≡ [])
        → documents_of (bs ++ t) ≡ results ++ parse (position_of s) t)
        × ((t : List ℕ) → s.ended ≡ false
        → open_documents_of (bs ++ t) ≡ results ++ parse_open (position_of s) t)
        × (HasNoMoreLines s → documents_of bs ≡ results)
        × (HasNoWholeLine s → open_documents_of bs ≡ results)
        × ((feed : List ℕ) × IsMissingFeed false s.ended feed
        × TakesWholeLines 1 (bs ++ feed) s.at s.held
        × ((taken : List ℕ) × (bs ≡ taken ++ unfed s))) }
{}

/// Once the end of input has been reported, each later call reports it again and reads nothing.
pub fn none_comes_again()
    ensures { (left left' : Option (List ℕ)) (old new : ReaderModel)
        (result : Result (Option Document) ReadFault)
        → ReturnsNextDocument left left' old new result → HasNoMoreLines old
        → (result ≡ Ok None) × (new.reads ≡ old.reads) }
{}

/// An accepted message can be dumped, and the dump consists of exactly one document. Wherever this
/// document occurs in an input, it is encoded as a message with the same edition, section 1 values,
/// octets for local use, section 2, descriptors, number of subsets, flags and values. The encoded
/// message is not longer than the accepted one, except that in edition 3 up to two octets are added
/// to make the lengths of sections 3 and 4 even. The document is rejected only if memory runs out,
/// with the fault [`DocumentFault::Memory`](crate::DocumentFault::Memory).
// rule: becomes-canonical
pub fn dumped_messages_are_encoded_again()
    ensures { (records : List Record) (table : List Row) (sequences : List Sequence) (m : List ℕ)
        (s : Sections) (template : Tree) (values : Values) (used : ℕ)
        → AreRows records table → IsAccepted table sequences m s template values used
        → let items = dump_items table s.subsets values in IsDumpable s items
        × (documents_of (dump_text_of s items) ≡ Complete (document_of 1 s items) ∷ [])
        × ((at : ℕ) → IsEncodedAgain table sequences m s template values (document_of at s items))
        × ((at : ℕ) (why : DocumentFault) → IsDocumentRefusal why
        (encoding_of table sequences (document_of at s items)) → why ≡ Memory) }
{}

/// If the dump of an accepted message is encoded, the encoded message is also accepted, and reading
/// and dumping it gives the same results as for the original. At the start of a stream, the encoded
/// message is recognized as one message. The encoded message has the same sections and template as
/// the dumped message, and the same items are read from both. A message that was encoded in another
/// form is also accepted and has the same items in each subset. The dump of that message differs
/// only in the compression flag, which depends on the form.
pub fn encoded_messages_are_accepted()
    ensures same_text { (table : List Row) (m : List ℕ) (s : Sections) (template : Tree)
        (values : Values) (octets : List ℕ)
        → (again : HasSameReading table m s template values octets)
        → dump_text_of again.sections (dump_items table again.sections.subsets values)
        ≡ dump_text_of s (dump_items table s.subsets values) }
    ensures accepted { (table : List Row) (sequences : List Sequence) (m : List ℕ) (s : Sections)
        (template : Tree) (values : Values) (used : ℕ) (octets : List ℕ)
        → IsAccepted table sequences m s template values used
        → (again : HasSameReading table m s template values octets)
        → IsAccepted table sequences octets again.sections template values again.used }
    ensures formed { (form : Form) (table : List Row) (sequences : List Sequence) (m : List ℕ)
        (s : Sections) (template : Tree) (values : Values) (used : ℕ) (octets : List ℕ)
        → IsAccepted table sequences m s template values used
        → (again : HasReadingIn form table s template values octets)
        → IsAccepted table sequences octets again.sections template again.found again.used }
    ensures formed_text { (form : Form) (table : List Row) (s : Sections) (template : Tree)
        (values : Values) (octets : List ℕ)
        → (again : HasReadingIn form table s template values octets)
        → dump_text_of again.sections (dump_items table again.sections.subsets again.found)
        ≡ dump_text_of (record s { compressed = compressed_by form s.compressed })
        (dump_items table s.subsets values) }
{}

/// The dump of an accepted message can be encoded in any form, with the exceptions described below.
/// Reading the encoded message gives the same result as reading the accepted message, except for
/// the compression flag. The encoded message has the same edition, section 1 values, octets for
/// local use, section 2, descriptors and number of subsets, and the same items in each subset.
/// Encoding the dump in the form that it specifies fails only if memory runs out. Encoding it in
/// plain or compressed form can also fail because the message would be too long. Encoding it in
/// compressed form can also fail because a factor differs between subsets, or because the values of
/// an item differ between subsets and cannot be stored as increments.
///
/// The only possible faults are [`DocumentFault::Memory`](crate::DocumentFault::Memory),
/// [`DocumentFault::TooLong`](crate::DocumentFault::TooLong) (in plain or compressed form), and
/// [`ItemFault::UnequalFactor`](bufr_fill::ItemFault::UnequalFactor) and
/// [`ItemFault::Increment`](bufr_fill::ItemFault::Increment) (in compressed form).
pub fn dumped_messages_are_encoded_in_each_form()
    ensures { (records : List Record) (table : List Row) (sequences : List Sequence) (m : List ℕ)
        (s : Sections) (template : Tree) (values : Values) (used at : ℕ) (form : Form)
        → AreRows records table → IsAccepted table sequences m s template values used
        → let result = encoding_in form table sequences
        (document_of at s (dump_items table s.subsets values)) in
        IsFormed form table s template values result × ((why : DocumentFault)
        → IsDocumentRefusal why result → IsFaultIn form why) }
{}

/// Encoding the dump of a canonical message reproduces the message octet for octet. The same is
/// true if the dump is first encoded in another form, and the dump of that message is then encoded
/// in the form of the original message.
// rule: canonical
pub fn canonical_messages_are_encoded_to_themselves()
    ensures { (records : List Record) (table : List Row) (sequences : List Sequence) (m : List ℕ)
        (s : Sections) (template : Tree) (values : Values) (used at : ℕ)
        → AreRows records table → IsAccepted table sequences m s template values used
        → IsCanonical m s values used
        → (encoding_of table sequences (document_of at s (dump_items table s.subsets values))
        ≡ Ok m) × ((form : Form) (octets : List ℕ)
        → (again : HasReadingIn form table s template values octets)
        → encoding_in (form_of_flag s.compressed) table sequences
        (document_of at again.sections (dump_items table again.sections.subsets again.found))
        ≡ Ok m) }
{}

/// If a document is encoded in any form, the encoded message is accepted and contains the same
/// information as the document. The encoded message has the same edition, section 1 values, octets
/// for local use, section 2, descriptors, number of subsets and flags, except that the compression
/// flag depends on the form. Each item has the value that is given on its line in the document. In
/// a stream, the encoded message is recognized as one message.
///
/// The dump of the encoded message has, except for that flag, the document's content in the normal
/// spelling, which all dumps use. Text that is already in the normal spelling is left unchanged.
/// The dump contains one document, and encoding that document in the form that it specifies gives
/// the same octets.
pub fn encoded_documents_are_read()
    ensures { (form : Form) (records : List Record) (table : List Row) (sequences : List Sequence)
        (d : Document) (octets : List ℕ) → AreRows records table → IsProper d
        → (encoding_in form table sequences d ≡ Ok octets → IsReadAs form table sequences d octets)
        × ((read : IsReadAs form table sequences d octets)
        → let items = dump_items table read.sections.subsets read.values in
        (dump_text_of read.sections items ≡ normal form table read.template d)
        × (normal AsWritten table read.template (document_of 1 read.sections items)
        ≡ normal form table read.template d) × (documents_of (normal form table read.template d)
        ≡ Complete (document_of 1 read.sections items) ∷ [])
        × (encoding_in form table sequences d ≡ Ok octets
        → encoding_of table sequences (document_of 1 read.sections items) ≡ Ok octets)) }
{}
