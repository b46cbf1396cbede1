//! Reads Table D, which defines the sequences, from a CSV file. The table is rejected if a sequence
//! contains itself, directly or through other sequences.
ghost use Rattle.std.specs.Prelude.{◌≡◌, ◌≢◌, ◌≤◌, ◌<◌, [], ◌∷◌, ◌++◌, None, length, slice_index, OnOk, IfErr, IfOk, IfSome, is_some, option_map, Ok, Err, IsTrue, MatchOption, ◌↔◌, List, ℕ};
ghost use Rattle.csv.specs.Records.{fields_of};
ghost use Rattle.bufr_tables.specs.declared.fault.TableFault.TheVariants.{Memory};
ghost use Rattle.bufr_tables.specs.TableD.{ReadsTableD, IsFirstCycle, ReachesItself, AreSequences, extended, fxys_of, is_last, members_or_none, member_of, members_of, with_record_d, IsAbove, IsVisited, Falls, Sequence, IsTableD, table_d_rows};
ghost use Rattle.bufr_tables.specs.Records.{records_of};

use crate::fault::TableFault;
use crate::fxy::Fxy;
use crate::index::{FxyIndex, KEYS};
use crate::rows::{RecordReader, field};
use csv::ByteRecord;
use std::alloc::{AllocError, Global};
use std::marker::Model;

/// The fields that the header must contain.
const HEADER: [&[u8]; 2] = [b"fxy", b"member"];

/// The maximum number of rows in Table D.
const ROWS: u64 = 65536;

/// Parses a record as a row of Table D. Returns the sequence and one of its members, or `None` if
/// the record is not a valid row.
#[tactic(auto, unfolding(crate::specs::TableD::member_of, crate::specs::TableD::sequence_of))]
// rule: fault-41-of-table-d
fn row(fields: &ByteRecord) -> Option<(Fxy, Fxy)>
    ensures value { option_map (λ p. record { sequence = p.0; fxy = p.1 }) result
        ≡ member_of (fields_of fields.now) }
    ensures sequence { IfSome result (λ p. (49152 ≤ p.0) × (p.0 < 65536)) }
{
    let sequence = Fxy::read(field(fields, 0))?;
    if sequence.f() != 3 {
        return None;
    }
    let member = Fxy::read(field(fields, 1))?;
    Some((sequence, member))
}

/// A sequence and the index range `start..end` of its members in the list of all members.
#[derive(Clone, Copy)]
struct MemberRange {
    fxy: Fxy,
    start: usize,
    end: usize,
}

/// Table D, indexed by descriptor.
///
/// In contracts, the table is represented by the list of its sequences, in file order.
///
/// ```
/// let text = b"fxy,member\n360192,001001\n360192,012101\n";
/// let table = TableD::read(rt.alloc(), text)?;
/// let members = table.members(Fxy::from_word(0xfcc0)).ok_or("lacks the sequence")?;
/// assert_eq!(rt; members.len(), 2);
/// ```
#[derive(Drop)]
pub struct TableD {
    /// The members of all sequences. The members of each sequence are contiguous.
    members: Vec<Fxy>,
    runs: Vec<MemberRange>,
    /// An index for looking up a sequence in `runs` by the X and Y of its descriptor.
    directory: FxyIndex,
}

impl Model for TableD {
    ghost Value = { List Sequence };

    ghost view = { table_d_rows };

    ghost invariant = { IsTableD };
}

impl TableD {
    /// Reads Table D from the contents of a CSV file.
    ///
    /// The header must be `fxy,member`. Each subsequent record defines one member of a sequence.
    /// `fxy` is the sequence's descriptor, and `member` is one of its members, which may be any
    /// descriptor. Descriptors are written as six digits. The rows of each sequence must be
    /// contiguous and list the members in order. The table may have at most 65,536 rows.
    ///
    /// # Errors
    ///
    /// [`TableFault::Header`] if the first record is not the header. Otherwise, the fault is the
    /// first of [`TableFault::Csv`], [`TableFault::Row`], [`TableFault::Duplicate`] and
    /// [`TableFault::TableSize`] that applies to the first invalid record. [`TableFault::Cycle`] if
    /// all records are valid but a sequence contains itself, directly or through other sequences.
    /// [`TableFault::Memory`] if memory cannot be allocated.
    // rule: first-record-decides, fault-43-last
    pub fn read(alloc: Global, text: &[u8]) -> Result<TableD, TableFault>
        ensures read { ReadsTableD (records_of text.now) result }
        ensures rows { IfOk result (AreSequences (records_of text.now)) }
    {
        let mut records = RecordReader::open(alloc, text, &HEADER)?;
        let mut table = TableD {
            members: Vec::new(alloc),
            runs: Vec::new(alloc),
            directory: FxyIndex::new(alloc)?,
        };
        while records.advance()? {
            table.add(records.number, &records.row)?;
        }
        match first_cycle(alloc, &table)? {
            Some(sequence) => Err(TableFault::Cycle(sequence)),
            None => Ok(table),
        }
    }

    /// Returns the members of a sequence in order, or `None` if the table does not contain the
    /// sequence.
    pub fn members(&self, fxy: Fxy) -> Option<&[Fxy]>
        ensures { option_map (λ s. s.now) result ≡ members_of self.now fxy }
    {
        let directory = &self.directory;
        if fxy.f() != 3 {
            return None;
        }
        let place = directory.place(fxy.key())?;
        let run = &self.runs[place];
        Some(&self.members[run.start..run.end])
    }

    pub(crate) fn members_or_none(&self, fxy: Fxy) -> &[Fxy]
        ensures { result.now ≡ members_or_none self.now fxy }
    {
        self.members(fxy).unwrap_or(&[])
    }

    pub(crate) fn is_sequence(&self, fxy: Fxy) -> bool
        ensures { result ≡ is_some (members_of self.now fxy) }
    {
        self.members(fxy).is_some()
    }

    pub(crate) fn count(&self) -> usize
        ensures { result ≡ length self.now }
    {
        self.runs.len()
    }

    /// Returns the descriptor of the sequence at index `place`. Sequences are counted from 0, in
    /// file order.
    pub(crate) fn sequence_at(&self, place: usize) -> Fxy
        requires { place < length self.now }
        ensures { result ≡ slice_index (fxys_of self.now) place }
    {
        self.runs[place].fxy
    }

    /// Parses a record and adds the member that it defines to the table. `number` is the number of
    /// the record (the header is record 1).
    #[tactic(auto, unfolding(crate::specs::TableD::with_record_d, crate::specs::TableD::added))]
    // rule: fault-42, fault-44, fault-45, order-in-a-record
    fn add(&mut self, number: u64, fields: &ByteRecord) -> Result<(), TableFault>
        ensures ok { OnOk result
            (with_record_d number self.old (fields_of fields.now) ≡ Ok self.new) }
        ensures err { IfErr result
            (λ e. (e ≢ Memory) → with_record_d number self.old (fields_of fields.now) ≡ Err e) }
    {
        if fields.len() != 2 {
            return Err(TableFault::Csv);
        }
        let Some((sequence, member)) = row(fields) else {
            return Err(TableFault::Row(number));
        };
        let continues = self.is_last(sequence);
        if !continues && self.is_sequence(sequence) {
            return Err(TableFault::Duplicate(sequence));
        }
        if number.saturating_sub(2) >= ROWS {
            return Err(TableFault::TableSize);
        }
        if continues {
            self.extend(member)?;
        } else {
            self.begin(sequence, member)?;
        }
        Ok(())
    }

    fn is_last(&self, sequence: Fxy) -> bool
        ensures { result ≡ is_last self.now sequence }
    {
        match self.runs.last() {
            Some(run) => run.fxy == sequence,
            None => false,
        }
    }

    fn extend(&mut self, member: Fxy) -> Result<(), AllocError>
        requires { self.old ≢ [] }
        ensures ok { OnOk result (self.new ≡ extended self.old member) }
    {
        let last = self.runs.len() - 1;
        self.members.push(member)?;
        self.runs[last].end += 1;
        Ok(())
    }

    fn begin(&mut self, sequence: Fxy, member: Fxy) -> Result<(), AllocError>
        requires low { 49152 ≤ sequence }
        requires high { sequence < 65536 }
        requires absent { members_of self.old sequence ≡ None }
        ensures ok { OnOk result
            (self.new ≡ self.old ++ record { fxy = sequence; members = member ∷ [] } ∷ []) }
    {
        self.runs.reserve(1)?;
        let start = self.members.len();
        self.members.push(member)?;
        self.runs
            .push(MemberRange {
                fxy: sequence,
                start,
                end: start + 1,
            })
            .unwrap();
        self.directory.add(sequence.key());
        Ok(())
    }
}

/// The number of possible descriptors.
const WORDS: usize = 65536;

/// Returns the first sequence that contains itself, directly or through other sequences, or `None`
/// if no sequence contains itself. The ranks rule out all earlier sequences, so a search is needed
/// only for the returned sequence.
// rule: fault-43
pub(crate) fn first_cycle(alloc: Global, table: &TableD) -> Result<Option<Fxy>, AllocError>
    ensures { IfOk result (λ o. MatchOption o ((fxy : ℕ) → ¬ ReachesItself table.now fxy)
        (IsFirstCycle table.now)) }
{
    let ranks = ranks_of(alloc, table)?;
    let falls = falls(table, &ranks);
    for place in 0..table.count() {
        let sequence = table.sequence_at(place);
        if falls && is_above(table, &ranks, sequence, ranks[sequence.key()]) {
            continue;
        }
        if reaches_itself(alloc, table, sequence)? {
            return Ok(Some(sequence));
        }
    }
    Ok(None)
}

/// Returns whether the rank of every sequence is at least as high as the ranks of its members.
/// Members that are not sequences are ignored.
fn falls(table: &TableD, ranks: &[u32]) -> bool
    requires { length ranks.now ≡ 16384 }
    ensures { IsTrue result → Falls table.now ranks.now }
{
    for place in 0..table.count() {
        let sequence = table.sequence_at(place);
        let limit = ranks[sequence.key()].saturating_add(1);
        if !is_above(table, ranks, sequence, limit) {
            return false;
        }
    }
    true
}

/// Returns whether all members of `sequence` have ranks below `limit`. Members that are not
/// sequences are ignored.
fn is_above(table: &TableD, ranks: &[u32], sequence: Fxy, limit: u32) -> bool
    requires { length ranks.now ≡ 16384 }
    ensures { IsTrue result → IsAbove table.now ranks.now sequence limit }
{
    for member in table.members_or_none(sequence) {
        if table.is_sequence(*member) && ranks[member.key()] >= limit {
            return false;
        }
    }
    true
}

fn reaches_itself(alloc: Global, table: &TableD, sequence: Fxy) -> Result<bool, AllocError>
    ensures { IfOk result (λ yes. IsTrue yes ↔ ReachesItself table.now sequence) }
{
    let mut seen = vec![in alloc; false; WORDS]?;
    let mut queue = Vec::new(alloc);
    visit(table, sequence, &mut seen, &mut queue)?;
    let mut next = 0;
    while next < queue.len() {
        let member = queue[next];
        visit(table, member, &mut seen, &mut queue)?;
        next += 1;
    }
    Ok(seen[usize::from(sequence.word())])
}

/// Finds the members of `sequence` that are themselves sequences and have not been seen before.
/// Appends these members to `queue` and marks them as seen.
fn visit(
    table: &TableD,
    sequence: Fxy,
    seen: &mut [bool],
    queue: &mut Vec<Fxy>,
) -> Result<(), AllocError>
    requires { length seen.old ≡ 65536 }
    ensures { OnOk result
        (IsVisited table.now sequence (length (members_or_none table.now sequence)) seen.old
        queue.old.items
        seen.new queue.new.items) }
{
    for member in table.members_or_none(sequence) {
        let word = usize::from(member.word());
        if table.is_sequence(*member) && !seen[word] {
            queue.push(*member)?;
            seen[word] = true;
        }
    }
    Ok(())
}

/// Computes a rank for each sequence in the table. The returned vector is indexed by a descriptor's
/// key (its X and Y as one number). If a sequence and one of its members contain each other, they
/// have the same rank. Otherwise, the member has a lower rank. Until a visited sequence gets its
/// rank, it has a mark, which is higher than any rank.
fn ranks_of(alloc: Global, table: &TableD) -> Result<Vec<u32>, AllocError>
    ensures { IfOk result (λ v. length v.items ≡ 16384) }
{
    let mut ranks = vec![in alloc; 0u32; KEYS]?;
    // The stack of the depth-first search. Each sequence is pushed once at the start and once more
    // when it is visited. Each member is pushed once. In total, there are fewer than 131,072
    // entries.
    let mut left = Vec::new(alloc);
    for place in 0..table.count() {
        left.push((table.sequence_at(place), false))?;
    }
    // Sequences that have been completed but have no rank yet. If a member has a greater mark, the
    // sequence takes over that mark.
    let mut marked = Vec::new(alloc);
    let mut rank = 0u32;
    let mut mark = u32::MAX;
    for _ in 0..2 * WORDS {
        let Some((sequence, again)) = left.pop() else {
            break;
        };
        let members = table.members_or_none(sequence);
        let own = ranks[sequence.key()];
        if !again && own > 0 {
            continue;
        }
        if !again {
            ranks[sequence.key()] = mark;
            mark = mark.saturating_sub(1);
            left.push((sequence, true))?;
            for member in members {
                if table.is_sequence(*member) {
                    left.push((*member, false))?;
                }
            }
            continue;
        }
        let mut most = own;
        for member in members {
            if table.is_sequence(*member) {
                most = most.max(ranks[member.key()]);
            }
        }
        ranks[sequence.key()] = most;
        marked.push(sequence)?;
        if most > own {
            continue;
        }
        // This sequence and the unranked sequences that were marked after it contain one another,
        // so all of these sequences get the same rank.
        rank = rank.saturating_add(1);
        for _ in 0..marked.len() {
            let Some(last) = marked.pop() else {
                break;
            };
            if ranks[last.key()] > own {
                marked.push(last)?;
                break;
            }
            ranks[last.key()] = rank;
        }
    }
    Ok(ranks)
}
