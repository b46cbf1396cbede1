//! Proved properties of sequences of calls. Some concern the events in a stream, and others concern
//! messages that are read and then written again.
ghost use Rattle.std.specs.Prelude.{◌≡◌, List, [], ◌+◌, ◌++◌, ℕ, Option, Result, Ok, ◌<◌, ◌≤◌, ◌%◌, Bool, length, slice_index, true, false};
ghost use Rattle.bufr_frame.specs.Prelude.{StreamEvent, scan, scan_from, open_scan, Advances, NoEventCertain, longest_of, first_event, FinderModel, new_finder, ReadsAndPasses, RaisesLongest, HasNoMoreEvents, ReturnsNextEvent, HoldsUnread, IsFitting, with_even_length, is_writable, max_extra_octets, message_octets, message_size, max_octets, parts_in, parts_of, size_from, u24_at, IsPlain, section3_begins, section4_begins, Sections, edition_of, sections_of, Head};
ghost use Rattle.bufr_frame.specs.declared.fault.RunFault.{RunFault};
ghost use Rattle.bufr_frame.specs.declared.finder.Event.{Event};

/// Law: The events that are already certain are the first events of the stream, no matter which
/// octets follow.
pub fn open_scan_is_prefix()
    ensures { (s t : List ℕ) → (more : List StreamEvent) × (scan (s ++ t) ≡ open_scan s ++ more) }
{}

/// Law: If a finder has reached the end of a stream and the remaining octets contain no event, the
/// finder has returned all events in the stream.
pub fn events_to_the_end_are_the_scan()
    ensures { (s rest : List ℕ) (events : List StreamEvent) (at : ℕ)
        → Advances true 0 s events at rest → scan_from 0 at rest ≡ [] → scan s ≡ events }
{}

/// Law: Until a finder reaches the end of a stream, it returns only events that are certain, in
/// order and without gaps.
pub fn events_before_the_end_are_certain()
    ensures { (s rest : List ℕ) (events : List StreamEvent) (at : ℕ) → Advances false 0 s events at
        rest → (more : List StreamEvent) × (open_scan s ≡ events ++ more) }
{}

/// Law: If a finder has not reached the end of a stream and no event in the remaining octets is
/// certain, the finder has returned every event that is certain.
pub fn events_at_a_fault_are_the_open_scan()
    ensures { (s rest : List ℕ) (events : List StreamEvent) (at : ℕ)
        → Advances false 0 s events at rest → NoEventCertain at rest → open_scan s ≡ events }
{}

/// Law: When a call returns a frame, the buffer contains the frame and all octets read after it.
/// When a call returns a stray, the buffer contains all octets read after the stray.
pub fn octets_from_an_event_on_are_held()
    ensures { (left left' : Option (List ℕ)) (reads reads' : ℕ) (old new : FinderModel)
        (result : Result Event RunFault)
        → (next : ReturnsNextEvent left left' reads reads' old new result)
        → HoldsUnread (old.at + length (old.rest ++ next.steps.0)) new result }
{}

/// Law: After a call, [`Finder::longest`](crate::Finder::longest) is the greatest length declared
/// by any message or stray returned so far.
pub fn longest_is_that_of_the_events()
    ensures { (left mid left' : Option (List ℕ)) (s s' : FinderModel) (bs bs' : List ℕ)
        (events es : List StreamEvent)
        → ReadsAndPasses left mid new_finder s bs events → s.longest ≡ longest_of 0 bs events
        → ReadsAndPasses mid left' s s' bs' es → RaisesLongest s s' bs' es
        → s'.longest ≡ longest_of 0 (bs ++ bs') (events ++ es) }
{}

/// Law: After a fault, [`Finder::longest`](crate::Finder::longest) also takes into account the
/// length declared after the first `BUFR` in the remaining octets.
pub fn longest_at_a_fault_counts_the_open_word()
    ensures { (left mid left' : Option (List ℕ)) (s s' : FinderModel) (bs bs' : List ℕ)
        (events : List StreamEvent)
        → ReadsAndPasses left mid new_finder s bs events → s.longest ≡ longest_of 0 bs events
        → ReadsAndPasses mid left' s s' bs' [] → RaisesLongest s s' bs'
        (first_event (scan_from 0 s'.at s'.rest))
        → s'.longest
        ≡ longest_of 0 (bs ++ bs') (events ++ first_event (scan_from 0 s'.at s'.rest)) }
{}

/// Law: Two successive steps of a finder have the same effect as one combined step. The effect of
/// several calls therefore follows from the effects of the individual calls.
pub fn steps_compose()
    ensures { (left mid left' : Option (List ℕ)) (old s s' : FinderModel) (bs bs' : List ℕ)
        (events es : List StreamEvent)
        → ReadsAndPasses left mid old s bs events → ReadsAndPasses mid left' s s' bs' es
        → ReadsAndPasses left left' old s' (bs ++ bs') (events ++ es) }
{}

/// Law: After a call has returned `Done`, every later call returns `Done` without reading.
pub fn done_comes_again()
    ensures { (left left' : Option (List ℕ)) (reads reads' : ℕ) (old new : FinderModel)
        (result : Result Event RunFault)
        → ReturnsNextEvent left left' reads reads' old new result → HasNoMoreEvents old
        → (result ≡ Ok Event.Done) × (new.reads ≡ old.reads) }
{}

/// Law: In edition 4, a message that is written from the parts of another message is no longer than
/// the original. In edition 3, the written message may be up to two octets longer, because sections
/// 3 and 4 are padded to even lengths.
pub fn written_again_is_no_longer()
    ensures { (m : List ℕ) (s : Sections) → sections_of m ≡ Ok s
        → message_size s.head.edition (parts_in s) ≤ length m + max_extra_octets s.head.edition }
{}

/// Law: If sections 3 and 4 of an edition 3 message have even lengths, a message that is written
/// from its parts is no longer than the original. Therefore, the written message is the shortest
/// one that has the same parts and even lengths for both sections.
pub fn even_sections_are_written_no_longer()
    ensures { (m : List ℕ) (s : Sections) → sections_of m ≡ Ok s → edition_of m ≡ 3
        → u24_at m (section3_begins m) % 2 ≡ 0 → u24_at m (section4_begins m) % 2 ≡ 0
        → message_size s.head.edition (parts_in s) ≤ length m }
{}

/// Law: If a message does not exceed the maximum length, neither does the message that is written
/// from its parts.
pub fn written_again_is_not_too_long()
    ensures { (m : List ℕ) (s : Sections) → sections_of m ≡ Ok s → length m ≤ max_octets
        → message_size s.head.edition (parts_in s) ≤ max_octets }
{}

/// Law: Writing a plain message again from its own parts reproduces it exactly. In a plain message,
/// all reserved octets and bits are zero. In edition 4, section 3 of a plain message ends directly
/// after the descriptors. In edition 3, sections 3 and 4 of a plain message have even lengths, and
/// the octet after the descriptors is zero.
pub fn plain_messages_are_written_again()
    ensures { (m : List ℕ) (s : Sections) → IsPlain m → sections_of m ≡ Ok s
        → message_octets s.head (parts_in s) ≡ m }
{}

/// Law: If a message can be split into its sections, the values in its section 1 are in range for
/// its edition and can be written.
pub fn heads_of_messages_can_be_written()
    ensures { (m : List ℕ) (s : Sections) → ((place : ℕ) → slice_index m place < 256)
        → sections_of m ≡ Ok s → IsFitting s.head × (is_writable s.head ≡ true) }
{}

/// Law: If section 4 must be padded to an even length, the written message is the same whether or
/// not the payload already ends with the padding octet.
pub fn even_payloads_have_one_layout()
    ensures { (h : Head) (local1 : List ℕ) (section2 : Option (List ℕ)) (descriptors : List ℕ)
        (subsets : ℕ) (observed compressed : Bool) (payload : List ℕ)
        → message_octets h (parts_of local1 section2 descriptors subsets observed compressed
        (with_even_length h.edition 4 payload))
        ≡ message_octets h
        (parts_of local1 section2 descriptors subsets observed compressed payload) }
{}

/// Law: Replacing the payload with a shorter one does not make a message longer.
pub fn shorter_payloads_make_no_longer_messages()
    ensures { (edition local1 : ℕ) (section2 : Option (List ℕ)) (descriptors n k most : ℕ) → n ≤ k
        → size_from edition local1 section2 descriptors k ≤ most
        → size_from edition local1 section2 descriptors n ≤ most }
{}
