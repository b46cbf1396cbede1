//! The finder, which searches a stream for messages and returns them in order.
ghost use Rattle.std.specs.Prelude.{◌≡◌, ◌≢◌, ◌⊎◌, ◌≤◌, false, List, ℕ, ◌<◌, ◌+◌, ◌-◌, ◌*◌, ◌^◌, length, take, drop, codes, IfSome, Some, None, Option, max, Err};
ghost use Rattle.memchr.specs.Find.{FindsNeedle};
ghost use Rattle.bufr_frame.specs.Scan.{classify, stated_length};
ghost use Rattle.bufr_frame.specs.Finder.{IsSearchResult, passed_by, len_at, IsEventAt, GivesHeldEvent, ReadsMore, input_left, gone_to, StartsWithBufr, FinderModel, held, min_held, new_finder, ReturnsNextEvent, IsFinder};
ghost use Rattle.bufr_bits.specs.Prelude.{counted};
ghost use Rattle.bufr_frame.specs.Input.{read_failures_after, AddsReads, asked_by, max_reads};
ghost use Rattle.std.specs.Borrow.{sem};
ghost use Rattle.std.specs.Io.BufRead.{Rests};

use crate::fault::{Cause, RunFault};
use crate::input::InputBuffer;
use crate::octets::u24_at;
use crate::section1::{SECTION_0, SECTION_5};
use bufr_bits::Source;
use memchr::memmem;
use std::alloc::Global;
use std::marker::Model;

/// The maximum number of octets to buffer, unless a greater message length has been declared.
const MIN_HELD: usize = 4096;

/// An event that a finder returns. Offsets are in octets and are counted from 0 at the start of the
/// stream.
#[derive(Clone, Copy, Debug)]
pub enum Event<'a> {
    /// A message. The fields are the message's offset and its octets, from `BUFR` to `7777`.
    Frame(u64, &'a [u8]),
    /// An occurrence of `BUFR` at which no message begins (a stray). The fields are the offset of
    /// the stray and the reason why no message begins there.
    Stray(u64, Cause),
    /// The end of the stream.
    Done,
}

/// A finder searches a stream for messages, which are also called frames. Each `BUFR` that the
/// search finds either begins a frame or is a stray. The search then continues after the frame or
/// after the four octets of the stray.
///
/// The finder stops reading as soon as it can determine the next event, so it returns a message
/// without waiting for the next one. The finder buffers at most 4,096 octets or the greatest
/// message length declared so far, whichever is greater. The buffer's capacity is at most twice
/// this limit.
///
/// ```
/// let mut finder = Finder::new(rt.alloc());
/// loop {
///     match finder.next(&mut input)? {
///         Event::Frame(offset, octets) => list(offset, octets),
///         Event::Stray(offset, cause) => refuse(offset, cause),
///         Event::Done => break,
///     }
/// }
/// ```
///
/// (FM 94 BUFR, section 0, except for the treatment of strays, which is our choice)
#[derive(Drop)]
pub struct Finder {
    /// A substring searcher for `BUFR`.
    word: memmem::Finder<'static>,
    /// The buffered octets. The first `passed` octets have already been searched.
    input: InputBuffer,
    passed: usize,
    /// The stream offset at which the search continues.
    offset: u64,
    /// The fault that stopped the finder, if any.
    fault: Option<RunFault>,
    /// The greatest message length declared so far, in octets.
    longest: usize,
}

impl Model for Finder {
    ghost Value = { FinderModel };

    ghost view = { λ f. record {
      before = take f.passed f.input.held;
      rest = drop f.passed f.input.held;
      at = f.offset;
      ended = f.input.ended;
      fault = f.fault;
      reads = f.input.reads;
      longest = f.longest;
      room = f.input.room;
      free = f.input.free;
    } };

    ghost invariant = { IsFinder };
}

impl Finder {
    ghost use Rattle.bufr_frame.specs.contracts.finder.Finder.{the_row};

    /// Creates a finder that has read nothing yet.
    pub fn new(alloc: Global) -> Finder
        ensures { result ≡ new_finder }
    {
        Finder {
            word: memmem::Finder::new(b"BUFR"),
            input: InputBuffer::new(alloc),
            passed: 0,
            offset: 0,
            fault: None,
            longest: 0,
        }
    }

    /// Returns the number of buffered octets. The buffer contains the octets searched since the
    /// last read, including any returned frame, followed by the octets that have not been searched
    /// yet. The number is at most 4,096 or [`Finder::longest`], whichever is greater.
    pub fn held(&self) -> usize
        ensures value { result ≡ held self.now }
        ensures bound { result ≤ max min_held self.now.longest }
    {
        self.input.held().len()
    }

    /// Returns the greatest length, in octets, declared by any message or stray returned so far, or
    /// 0 if none has been returned. After a fault, or after [`Finder::next_held`] has returned
    /// `None`, the length declared after the next `BUFR` also counts if it has already been read.
    pub fn longest(&self) -> usize
        ensures { result ≡ self.now.longest }
    {
        self.longest
    }

    /// Moves the search forward by `n` octets. Also raises `longest` to `stated_length` if
    /// `longest` is smaller.
    #[inline(always)]
    fn advance_to(&mut self, n: usize, stated_length: usize)
        requires within { n ≤ length self.old.rest }
        requires most { stated_length < 2 ^ 24 }
        ensures gone { self.new ≡ gone_to self.old n stated_length }
        ensures near { self.new.at < 2 ^ 63 }
        ensures bound { held self.new ≤ max min_held self.new.longest }
    {
        self.passed += n;
        self.offset += n as u64;
        self.longest = self.longest.max(stated_length);
    }

    /// Moves the search past the next event, if any, and returns the result of the search. If more
    /// octets are needed to identify the next event, the search stops where that event may begin.
    #[inline(always)]
    fn pass(&mut self) -> SearchResult
        ensures shows { IsSearchResult self.old.ended self.old.rest result }
        ensures gone { self.new ≡ passed_by self.old result }
        ensures most { self.old.reads ≤ max_reads }
        ensures near { self.new.at < 2 ^ 63 }
        ensures bound { held self.new ≤ max min_held self.new.longest }
    {
        let rest = &self.input.held()[self.passed..];
        let shown = find_event(&self.word, rest, self.input.ended());
        match shown {
            SearchResult::End => {}
            SearchResult::Found {
                place,
                here,
                stated_length,
            } => self.advance_to(place + candidate_len(here, stated_length), stated_length),
            SearchResult::NeedsMore {
                place,
                stated_length,
            } => self.advance_to(place, stated_length),
        }
        shown
    }

    /// Returns the event that the search has just moved past.
    #[inline(always)]
    fn passed_event(&self, here: Candidate, stated_length: usize) -> Event<'_>
        requires within { here ≡ Candidate.Frame → stated_length ≤ length self.now.before }
        requires order { len_at here stated_length ≤ self.now.at }
        ensures { IsEventAt self.now here stated_length result }
    {
        let len = candidate_len(here, stated_length);
        let offset = self.offset - len as u64;
        match here {
            Candidate::Stray(cause) => Event::Stray(offset, cause),
            Candidate::Frame => {
                let before = &self.input.held()[..self.passed];
                Event::Frame(offset, &before[before.len() - len..])
            }
        }
    }

    /// Like [`Finder::next`], but never reads from the stream. Returns `None` if the next event
    /// cannot be determined without reading more octets (see [`Finder::read_more`]). A returned
    /// frame is borrowed until the next call. After a fault, every call returns the same fault.
    #[inline(always)]
    pub fn next_held(&mut self) -> Option<Result<Event<'_>, RunFault>>
        ensures* next { sem 𝓛 (Rests the_row self.entry
            (λ new. GivesHeldEvent self.old new result)) }
    {
        if let Some(fault) = self.fault {
            return Some(Err(fault));
        }
        match self.pass() {
            SearchResult::End => Some(Ok(Event::Done)),
            SearchResult::NeedsMore { .. } => None,
            SearchResult::Found {
                here,
                stated_length,
                ..
            } => Some(Ok(self.passed_event(here, stated_length))),
        }
    }

    /// Performs a single read from the stream `r`. Call this function if [`Finder::next_held`]
    /// returned `None`. Every call must use the same stream.
    ///
    /// # Errors
    ///
    /// Returns the same errors as [`Finder::next`]. After a fault, every call returns the same
    /// fault and reads nothing.
    pub fn read_more<R: Source>(&mut self, r: &mut R) -> Result<(), RunFault>
        requires going { self.old.ended ≡ false }
        requires few { length self.old.rest < max min_held self.old.longest }
        ensures read { self.old.fault ≡ None → (bs : List ℕ)
            × ReadsMore (R.left r.old) (R.left r.new) self.old self.new result bs }
        ensures failed { self.old.fault ≡ None
            → R.failures r.new ≡ read_failures_after (R.failures r.old) result }
        ensures sure { self.old.fault ≡ None → R.waits r.old ≡ false
            → result ≢ Err RunFault.Read }
        ensures counts { AddsReads (R.reads r.old) (R.reads r.new) self.old.reads self.new.reads }
        // The read requests as many octets as fit in the free space, up to the number that may
        // still be buffered.
        ensures asked { R.asked r.new ≡ counted (R.asked r.old)
            (asked_by (max min_held self.old.longest - length self.old.rest)
            (input_left self.old) (input_left self.new)) }
        // After a read, the capacity is at least 8,192 octets. If the capacity grows, the new
        // capacity is twice the number of octets that were still to be searched, but at least
        // 8,192.
        ensures least { 0 < self.new.reads → 2 * min_held ≤ self.new.room }
        ensures grows { (self.new.room ≡ self.old.room)
            ⊎ (2 * length self.old.rest ≤ self.new.room) }
        ensures most { self.new.room
            ≤ max self.old.room (max (2 * min_held) (2 * length self.old.rest)) }
        ensures bound { held self.new ≤ max min_held self.new.longest }
        ensures again { IfSome self.old.fault (λ fault. result ≡ Err fault) }
        ensures same { IfSome self.old.fault (λ _. r.new ≡ r.old) }
        ensures same_self { IfSome self.old.fault (λ _. self.new ≡ self.old) }
    {
        if let Some(fault) = self.fault {
            return Err(fault);
        }
        // The octets that have already been searched are dropped to make space.
        self.input.skip(self.passed);
        self.passed = 0;
        let limit = self.longest.max(MIN_HELD);
        let held = self.input.held().len();
        // The buffer grows only as octets arrive, because a stray may declare any length.
        let room = (2 * limit).min((2 * MIN_HELD).max(2 * held));
        let read = self.input.fill(r, limit - held, room);
        self.fault = read.err();
        read
    }

    /// Returns the next event in the stream `r`. Every call must use the same stream. A returned
    /// frame is borrowed until the next call. Once a call has returned [`Event::Done`], every later
    /// call also returns `Done`.
    ///
    /// # Errors
    ///
    /// [`RunFault::Read`] if a read in this call fails. [`RunFault::InputTooLong`] if the end of
    /// the stream is not reached within 2^32 reads. [`RunFault::Memory`] if the buffer cannot grow.
    /// The finder returns a fault only when it cannot determine the next event from the octets that
    /// it has read. After a fault, every call returns the same fault and reads nothing.
    pub fn next<R: Source>(&mut self, r: &mut R) -> Result<Event<'_>, RunFault>
        ensures failed { self.old.fault ≡ None
            → R.failures r.new ≡ read_failures_after (R.failures r.old) result }
        ensures again { IfSome self.old.fault (λ fault. result ≡ Err fault) }
        ensures same { IfSome self.old.fault (λ _. r.new ≡ r.old) }
        ensures* next { sem 𝓛 (Rests the_row self.entry
            (λ new. ReturnsNextEvent (R.left r.old) (R.left r.new)
            (R.reads r.old) (R.reads r.new) self.old new result)) }
    {
        if let Some(fault) = self.fault {
            return Err(fault);
        }
        loop {
            match self.pass() {
                SearchResult::End => return Ok(Event::Done),
                SearchResult::NeedsMore { .. } => self.read_more(r)?,
                SearchResult::Found {
                    here,
                    stated_length,
                    ..
                } => return Ok(self.passed_event(here, stated_length)),
            }
        }
    }
}

/// The index of a message's length field, which consists of octets 5 to 7.
const LENGTH: usize = 4;

/// The number of indices to check one by one before a full search, which is expensive to start.
const NEAR: usize = 16;

/// The message or stray that begins at an occurrence of `BUFR` in a stream.
#[derive(Clone, Copy)]
pub(crate) enum Candidate {
    /// A stray. The field is the reason why no message begins here.
    Stray(Cause),
    /// A message.
    Frame,
}

/// Returns the length of a candidate in octets, which is the declared length for a message and 4
/// for a stray.
fn candidate_len(here: Candidate, stated_length: usize) -> usize
    ensures { result ≡ len_at here stated_length }
{
    match here {
        Candidate::Stray(_) => 4,
        Candidate::Frame => stated_length,
    }
}

/// The result of searching the remaining octets. `place` is an index into the remaining octets,
/// counted from 0. `stated_length` is the length declared after the `BUFR` at `place`, or 0 if
/// there are fewer than eight octets from `place` on.
#[derive(Clone, Copy)]
pub(crate) enum SearchResult {
    /// The next event begins at `place`, and `here` specifies whether it is a message or a stray.
    Found {
        place: usize,
        here: Candidate,
        stated_length: usize,
    },
    /// No event begins before `place`, and more octets are needed to determine what begins there.
    NeedsMore {
        place: usize,
        stated_length: usize,
    },
    /// There are no further events.
    End,
}

/// Determines whether the `BUFR` at the start of `m` begins a message or is a stray, assuming that
/// no octets follow `m`. `m` must begin with `BUFR`. If a stray has several causes, the one with
/// the lowest fault number is returned.
#[inline(always)]
// rule: stray-cut, stray-short-length, stray-no-end, input-ends-early, order-of-causes
pub(crate) fn classify(m: &[u8]) -> Candidate
    requires { StartsWithBufr m.now }
    ensures { classify m.now ≡ Some result }
{
    if m.len() < SECTION_0 {
        return Candidate::Stray(Cause::Cut);
    }
    let len = u24_at(m, LENGTH);
    if m.len() < len {
        return Candidate::Stray(Cause::Cut);
    }
    if len < SECTION_0 + SECTION_5 {
        return Candidate::Stray(Cause::ShortLength);
    }
    if !m[len - SECTION_5..].starts_with(b"7777") {
        return Candidate::Stray(Cause::NoEnd);
    }
    Candidate::Frame
}

/// Returns the index of the first `BUFR` in `rest`, or `None` if `rest` contains no `BUFR`. `word`
/// must search for `BUFR`. This function is not inlined so that its callers stay small.
#[inline(never)]
fn find_far(word: &memmem::Finder<'_>, rest: &[u8]) -> Option<usize>
    requires { word.now ≡ codes "BUFR" }
    ensures { FindsNeedle rest.now (codes "BUFR") 0 result }
{
    word.find(rest)
}

/// Like [`find_far`], but checks the first few indices one by one before a full search.
#[inline(always)]
fn find_word(word: &memmem::Finder<'_>, rest: &[u8]) -> Option<usize>
    requires { word.now ≡ codes "BUFR" }
    ensures { FindsNeedle rest.now (codes "BUFR") 0 result }
{
    // Messages and strays often follow one another without a gap.
    let near = rest.len().min(NEAR);
    'places: for place in 0..near {
        if rest[place..].starts_with(b"BUFR") {
            return Some(place);
        }
    }
    let place = find_far(word, &rest[near..])?;
    Some(near + place)
}

/// Searches `rest` for the next event. If `ended` is false, more octets may follow `rest`. `word`
/// must search for `BUFR`.
#[inline(always)]
// rule: first-bufr, output-waits
pub(crate) fn find_event(word: &memmem::Finder<'_>, rest: &[u8], ended: bool) -> SearchResult
    requires { word.now ≡ codes "BUFR" }
    ensures { IsSearchResult ended rest.now result }
{
    let Some(place) = find_word(word, rest) else {
        if ended {
            return SearchResult::End;
        }
        // The last three octets may contain the start of a `BUFR`.
        return SearchResult::NeedsMore {
            place: rest.len() - rest.len().min(3),
            stated_length: 0,
        };
    };
    let m = &rest[place..];
    let stated_length = if m.len() < SECTION_0 {
        0
    } else {
        u24_at(m, LENGTH)
    };
    if !ended && m.len() < stated_length.max(SECTION_0) {
        return SearchResult::NeedsMore {
            place,
            stated_length,
        };
    }
    SearchResult::Found {
        place,
        here: classify(m),
        stated_length,
    }
}
