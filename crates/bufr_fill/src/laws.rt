//! Laws about writing data. A walk writes the bits that the definition specifies for the given
//! items. If a dump is encoded in its original form (compressed or plain), the new data contain the
//! same values and are never longer than the original data. In compressed data, each item is
//! written with the smallest possible increment width `k`.
ghost use Rattle.std.specs.Prelude.{◌≡◌, ◌≤◌, ℕ, List, [], Bool, false, length, Ok, Err};
ghost use Rattle.bufr_walk.specs.Prelude.{FieldSpec, IsSpec, Content, found, packed_field, Course, at_end, TakenField, Takes, oks, answers_of, max_values, Item, Data, Values, apart, together, each_subset, subsets_from};
ghost use Rattle.bufr_fill.specs.Prelude.{AllAlike, OfTemplates, WritesDrafts, AllFit, AllHaveOctets, AreSpecified, HasReading, IsReadBack, IsWritten, IsTogetherOrNot, AreDumped, IsWrittenAgain, plain_filler, fill, cells_at, packed_filler, packed_data, data_bits, HasLeastK, packing, DraftEntry, Subset, DraftFault, PackedOutModel, new_packed_out, PackedFills, all_at_end, rows_left, IsFaultHere, PlainOutModel, PlainFills, IsFaultNext, items_left, end_left};

/// Law: if the data of a message can be read, the items of its dump can be written in the same form
/// (compressed or plain). Reading the written bits gives the same values as reading the original
/// data, and the number of bits does not increase (FM 94 BUFR, section 4).
pub fn data_round_trip()
    ensures { OfTemplates (λ course. (d : Data) (values : Values) (used : ℕ) (drafts : List Subset)
        → HasReading course d values used → AreDumped (each_subset d.subsets values) drafts
        → IsWrittenAgain course d values used drafts) }
{}

/// Law: an item of compressed data is written with the smallest `k` that allows its contents to be
/// read back. Therefore, reading an item and writing it again never increases its `k` or its number
/// of bits. The law also applies to contents that do not come from a message, provided that they
/// fit in the field (FM 94 BUFR, section 4, compression). We chose the smallest `k`; FM 94 BUFR
/// does not require it.
pub fn items_are_packed_with_the_least_k()
    ensures read { (n : ℕ) (spec : FieldSpec) (contents : List Content) (bits suffix : List Bool)
        → 1 ≤ n → IsSpec spec
        → packed_field n spec bits ≡ Ok (found contents suffix) → HasLeastK n spec contents }
    ensures fitting { (n : ℕ) (spec : FieldSpec) (contents : List Content) (out : List Bool)
        → 1 ≤ n → IsSpec spec → AllFit spec contents → length contents ≡ n
        → packing spec contents ≡ Ok out → HasLeastK n spec contents }
{}

/// Law: if the items of a document can be written as compressed or plain data, the contents of
/// their fields can be read back from the written bits, even if other bits follow (FM 94 BUFR,
/// section 4).
pub fn written_data_are_read()
    ensures { OfTemplates (λ course. (compressed : Bool) (drafts : List Subset) (bits : List Bool)
        → AllHaveOctets drafts → data_bits compressed course drafts ≡ Ok bits
        → IsReadBack course compressed drafts bits) }
{}

/// Law: if the items read from a message are written in the original form (compressed or plain),
/// the written bits depend only on the items. Two documents that specify the same contents for all
/// fields produce the same bits.
pub fn items_determine_the_data()
    ensures { OfTemplates (λ course. (d : Data) (values : Values) (used : ℕ)
        (drafts others : List Subset) → HasReading course d values used
        → AreSpecified (each_subset d.subsets values) drafts
        → AreSpecified (each_subset d.subsets values) others
        → data_bits d.compressed course drafts ≡ data_bits d.compressed course others) }
{}

/// Law: if the items of a document can be written (as compressed or plain data), any other document
/// that specifies the same contents for all fields produces the same bits.
pub fn alike_drafts_have_the_same_data()
    ensures { OfTemplates (λ course. (compressed : Bool) (drafts others : List Subset)
        (bits : List Bool) → AllHaveOctets drafts → AllAlike drafts others
        → data_bits compressed course drafts ≡ Ok bits
        → data_bits compressed course others ≡ Ok bits) }
{}

/// Law: if compressed data can be read, the items of the dump can always be written as plain data.
/// If plain data of at most 134,217,728 bits can be read, the items of the dump can be written as
/// compressed data, unless replication factors or redefined reference values differ between
/// subsets, or strings do not fit in increments. No other fault is possible. In both cases, the
/// items of each subset can be read back from the written bits (FM 94 BUFR, section 4,
/// compression).
pub fn data_are_written_in_the_other_form()
    ensures apart { OfTemplates (λ course. (d : Data) (items : List (Item (List Content)))
        (used : ℕ) (drafts : List Subset) → HasReading course d (together items) used
        → AreDumped (subsets_from d.subsets 0 items) drafts
        → IsWritten course false d.subsets (apart (subsets_from d.subsets 0 items)) drafts) }
    ensures together { OfTemplates (λ course. (d : Data) (subsets : List (List (Item Content)))
        (used : ℕ) (drafts : List Subset) → length d.bits ≤ max_values
        → HasReading course d (apart subsets) used → AreDumped subsets drafts
        → IsTogetherOrNot course subsets drafts) }
{}

/// Law: a walk over the items of one subset (plain data) or of all subsets (compressed data) writes
/// the bits that the definition specifies for the items processed so far. If the walk over all
/// subsets reaches the end of the template and no items remain, the written bits are the data of
/// all subsets.
#[tactic(auto, using(crate::proofs::PackedWalks::written_as_defined))]
pub fn walks_write_as_defined()
    ensures plain { (end : ℕ) (course : Course) (s : PlainOutModel) (items : List TakenField)
        (s' : PlainOutModel)
        → Takes (oks PlainFills) course s items s'
        → WritesDrafts (plain_filler end) course items s.bits s'.bits (items_left s.left)
        (items_left s'.left) }
    ensures packed { (end : ℕ) (many : Bool) (course : Course) (s : PackedOutModel)
        (items : List TakenField) (s' : PackedOutModel)
        → Takes (oks PackedFills) course s items s'
        → WritesDrafts (packed_filler end many) course items s.bits s'.bits
        (rows_left s) (rows_left s') }
    ensures whole { (course : Course) (subsets : List Subset) (items : List TakenField)
        (s : PackedOutModel) → 1 ≤ length subsets
        → Takes (oks PackedFills) course (new_packed_out subsets) items s
        → course (answers_of items) ≡ at_end
        → all_at_end (cells_at s.index s.subsets) ≡ Ok tt → packed_data course subsets ≡ Ok s.bits }
{}

/// Law: if a walk over the items of one subset (plain data) or of all subsets (compressed data)
/// fails, it reports the fault that the definition specifies. The fault is caused by an invalid or
/// missing item, an extra item after the end of the template, or an invalid width or descriptor. An
/// invalid width or descriptor is reported with the line number of the next entry (in compressed
/// data, the next entry of the first subset).
#[tactic(auto, using(crate::proofs::WalkLemmas::fault_as_defined, crate::proofs::PackedWalks::fault_as_defined))]
pub fn faults_are_as_defined()
    ensures plain { (course : Course) (left : List DraftEntry) (f : DraftFault)
        → IsFaultNext (course [])
        left f → fill (plain_filler (end_left left)) course (items_left left) ≡ Err f }
    ensures packed { (course : Course) (subsets : List Subset) (items : List TakenField)
        (s : PackedOutModel) (f : DraftFault) → 1 ≤ length subsets
        → Takes (oks PackedFills) course (new_packed_out subsets) items s
        → IsFaultHere (course (answers_of items)) s f → packed_data course subsets ≡ Err f }
{}
