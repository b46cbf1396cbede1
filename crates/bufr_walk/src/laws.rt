//! Laws about reading data. Items are read in template order, and each item begins where the
//! previous one ends.
ghost use Rattle.std.specs.Prelude.{◌≡◌, ◌≤◌, ℕ, List, Bool, false, length, drop, is_some};
ghost use Rattle.bufr_tables.specs.Prelude.{IsLegal, Record, Row, AreRows, Tree, entry_of};
ghost use Rattle.bufr_tables.specs.Expansion.{IsKnown};
ghost use Rattle.bufr_walk.specs.KnownRows.{HasRows};
ghost use Rattle.bufr_walk.specs.Course.{turns_of, counts_of};
ghost use Rattle.bufr_walk.specs.Rules.{begin};
ghost use Rattle.bufr_walk.specs.Prelude.{next_item, Data, Content, Taken, FieldSpec, AreWithin, IsField, take_next, reading_of, read_pass, DataPass, ReadsTo, plain, packed, would_be_many};

/// Law: given a legal template and a valid Table B, the items are read from the data in template
/// order. Each item begins where the previous one ends. Each pass stops at the end of the template,
/// or earlier if the next item cannot be read or, in compressed data, would exceed the limit on the
/// number of values. These rules fully determine the result, so reading the same data always
/// produces the same items and the same fault, if any. Any unread bits are at the end of the data
/// (FM 94 BUFR, sections 3 and 4).
pub fn data_are_read_item_by_item()
    ensures plain { (records : List Record) (table : List Row) (template : Tree) (bits : List Bool)
        → AreRows records table → IsLegal template
        → ReadsTo plain (λ items. false) (next_item table template)
        (record { items = 0; left = bits })
        (read_pass plain (λ items. false) (next_item table template) bits) }
    ensures only_plain { (records : List Record) (table : List Row) (template : Tree)
        (bits : List Bool) (p : DataPass Content) → AreRows records table → IsLegal template
        → ReadsTo plain (λ items. false) (next_item table template)
        (record { items = 0; left = bits }) p
        → read_pass plain (λ items. false) (next_item table template) bits ≡ p }
    ensures packed { (records : List Record) (table : List Row) (template : Tree) (n : ℕ)
        (bits : List Bool) → AreRows records table → IsLegal template → 1 ≤ n
        → ReadsTo (packed n) (would_be_many n) (next_item table template)
        (record { items = 0; left = bits })
        (read_pass (packed n) (would_be_many n) (next_item table template) bits) }
    ensures only_packed { (records : List Record) (table : List Row) (template : Tree) (n : ℕ)
        (bits : List Bool) (p : DataPass (List Content)) → AreRows records table
        → IsLegal template → 1 ≤ n
        → ReadsTo (packed n) (would_be_many n) (next_item table template)
        (record { items = 0; left = bits }) p
        → read_pass (packed n) (would_be_many n) (next_item table template) bits ≡ p }
    ensures left { (records : List Record) (table : List Row) (template : Tree) (d : Data)
        → AreRows records table → IsLegal template
        → (used : ℕ) × (used ≤ length d.bits)
        × ((reading_of (next_item table template) d).left ≡ drop used d.bits) }
{}

/// Law: in a walk over a legal template, every field has a valid spec and a 16-bit descriptor if
/// Table B is valid and no reference value redefined so far has a magnitude greater than 2^63.
pub fn next_fields_are_fields()
    ensures { (records : List Record) (table : List Row) (template : Tree) (answers : List Taken)
        (spec : FieldSpec) → AreRows records table → IsLegal template → AreWithin answers
        → next_item table template answers ≡ take_next spec → IsField spec }
{}

/// Law: if [`Template::build`](bufr_tables::Template::build) returns a template, a walk over that
/// template finds every element and every replication factor in the table. The only exception is
/// the descriptor after 2 06 Y, which gets its width from that operator. Therefore, a walk never
/// rejects a field because the table has no entry for it. Every template that `build` returns
/// satisfies `IsLegal` and `IsKnown` (FM 94 BUFR, section 3).
pub fn elements_have_their_rows()
    ensures { (table : List Row) (template : Tree) (answers : List Taken) → IsLegal template
        → IsKnown (λ fxy. is_some (entry_of table fxy)) template
        → HasRows table (turns_of template (counts_of answers)) begin answers }
{}
