//! A cache of recently used descriptor lists. Each list is cached together with its template and
//! the template's field specs.
ghost use Rattle.std.specs.Prelude.{◌≡◌, ◌<◌, Ok, IfOk, IfSome, ◌≢◌, ◌≤◌, ◌++◌, ◌∷◌, [], ℕ, length, vec_len, vec_capacity, true, false, IfErr, OnOk, OnErr, List, Err, Contains, IfNone, get_or};
ghost use Rattle.bufr_tables.specs.Prelude.{Row, Sequence, tree_of, tables_of};
ghost use Rattle.std.specs.List.{All};
ghost use Rattle.bufr_walk.specs.Prelude.{MayStay, IsSlotBy, IsKept, with_room};
ghost use Rattle.bufr_walk.specs.declared.lists.Slot.{Slot};

use crate::spec_cache::SpecCache;
use bufr_tables::{Fxy, TableB, TableD, Template, TemplateFault};
use std::alloc::{AllocError, Global};
use std::marker::Model;
use std::mem;

/// The maximum number of cached lists, not counting the list that was selected last.
const MAX_OTHERS: usize = 127;

/// The maximum number of descriptors in a cached list, and the maximum number of cells in its
/// template. Neither limit applies to the list that was selected last.
const MAX_KEPT: usize = 1024;

/// A cached descriptor list, the template or fault that results from expanding it, and the
/// template's field specs.
#[derive(Drop)]
struct Slot<'a> {
    list: Vec<Fxy>,
    answer: Result<Template, TemplateFault>,
    specs: SpecCache<'a>,
}

impl<'a> Slot<'a> {
    /// Creates a slot that contains an empty descriptor list. This function does not allocate.
    fn new(alloc: Global, table_b: &'a TableB) -> Slot<'a>
        ensures slot { (table_d : List Sequence) → IsSlotBy table_b.now table_d result }
        ensures list { result.list.items ≡ [] }
    {
        Slot {
            list: Vec::new(alloc),
            answer: Err(TemplateFault::EmptyGroup(Fxy::from_word(0))),
            specs: SpecCache::new(alloc, table_b),
        }
    }

    /// Expands a list and allocates memory for the template's field specs.
    ///
    /// # Errors
    ///
    /// [`AllocError`] if memory runs out.
    fn expand(
        alloc: Global,
        descriptors: &[Fxy],
        table_b: &'a TableB,
        table_d: &TableD,
    ) -> Result<Slot<'a>, AllocError>
        ensures slot { IfOk result (λ slot. IsSlotBy table_b.now table_d.now slot) }
        ensures list { IfOk result (λ slot. slot.list.items ≡ descriptors.now) }
    {
        let mut specs = SpecCache::new(alloc, table_b);
        let answer = Template::build(alloc, descriptors, table_b, table_d);
        match &answer {
            Ok(template) => specs.reset(template.cells().len())?,
            Err(TemplateFault::Memory) => return Err(AllocError),
            Err(_) => {}
        }
        let list = Vec::from_slice(alloc, descriptors)?;
        Ok(Slot {
            list,
            answer,
            specs,
        })
    }

    /// Returns whether the descriptor list in this slot equals `descriptors`.
    fn has(&self, descriptors: &[Fxy]) -> bool
        ensures same { result ≡ true → self.now.list.items ≡ descriptors.now }
        ensures other { result ≡ false → self.now.list.items ≢ descriptors.now }
    {
        self.list.as_slice() == descriptors
    }

    /// Returns whether the slot may remain in the cache after another list is selected. A slot may
    /// remain if its list was expanded successfully and neither the list nor the template has more
    /// than [`MAX_KEPT`] entries.
    fn may_stay(&self) -> bool
        ensures stays { result ≡ true → (table_b : List Row) (table_d : List Sequence)
            → IsSlotBy table_b table_d self.now → MayStay table_b table_d self.now.list.items }
        ensures goes { result ≡ false → (table_b : List Row) (table_d : List Sequence)
            → IsSlotBy table_b table_d self.now → ¬ MayStay table_b table_d self.now.list.items }
    {
        if self.list.len() > MAX_KEPT {
            return false;
        }
        match &self.answer {
            Ok(template) => template.places() as usize <= MAX_KEPT,
            Err(_) => false,
        }
    }
}

/// Returns the index of the first slot whose list equals `descriptors`, or `None` if no such slot
/// exists.
fn index_of(slots: &[Slot<'_>], descriptors: &[Fxy]) -> Option<usize>
    ensures inside { IfSome result (λ index. index < length slots.now) }
    ensures there { IfSome result (λ index. (slot : Slot) → slot ≡ get_or slots.now index slot
        → slot.list.items ≡ descriptors.now) }
    ensures none { IfNone result (All (λ slot. slot.list.items ≢ descriptors.now) slots.now) }
{
    slots.iter().position(|slot| slot.has(descriptors))
}

/// Drops the first slot if there are already [`MAX_OTHERS`] slots.
fn drop_first(slots: &mut Vec<Slot<'_>>)
    requires { length slots.old.items ≤ 127 }
    ensures items { slots.new.items ≡ with_room slots.old.items }
    ensures few { vec_len slots.new ≤ vec_len slots.old }
    ensures room { vec_capacity slots.new ≡ vec_capacity slots.old }
{
    if slots.len() == MAX_OTHERS {
        let _ = slots.remove(0);
    }
}

/// A cache of templates built from one Table B and one Table D.
///
/// If a cached descriptor list is selected again, its template and field specs are reused.
/// Contracts model a cache as its two tables, the list that was selected last, and the other cached
/// lists.
///
/// ```
/// let mut templates = TemplateCache::new(alloc, &table_b, &table_d);
/// templates.select(&descriptors)?;
/// let mut specs = templates.take_specs();
/// match templates.answer() {
///     Ok(template) => read(template, &mut specs),
///     Err(fault) => refuse(fault),
/// }
/// templates.put_specs(specs);
/// ```
#[derive(Drop)]
pub struct TemplateCache<'a> {
    alloc: Global,
    table_b: &'a TableB,
    table_d: &'a TableD,
    last: Slot<'a>,
    others: Vec<Slot<'a>>,
}

impl<'a> Model for TemplateCache<'a> {
    ghost use Rattle.bufr_walk.specs.TemplateCache.{Lists, AreSlots, lists_of};

    ghost Value = { Lists };

    ghost view = { λ t. record {
      table_b = t.table_b.now;
      table_d = t.table_d.now;
      list = t.last.list.items;
      others = lists_of t.others.items;
    } };

    ghost invariant = { λ t. AreSlots t.table_b.now t.table_d.now t.last t.others.items };
}

impl<'a> TemplateCache<'a> {
    /// Creates a cache for the given tables, with the empty list selected. This function does not
    /// allocate.
    pub fn new(alloc: Global, table_b: &'a TableB, table_d: &'a TableD) -> TemplateCache<'a>
        ensures { result ≡ record {
          table_b = table_b.now;
          table_d = table_d.now;
          list = [];
          others = [];
        } }
    {
        TemplateCache {
            alloc,
            table_b,
            table_d,
            last: Slot::new(alloc, table_b),
            others: Vec::new(alloc),
        }
    }

    /// Selects a descriptor list, and expands it if it is not cached.
    ///
    /// The previously selected list remains in the cache if it has at most 1,024 descriptors and
    /// was expanded into a template of at most 1,024 cells. In addition to the selected list, the
    /// cache can contain 127 others. When it is full, it drops the first of these to make room.
    /// Selecting a cached list does not allocate.
    ///
    /// Lists other than the selected one use at most 9 MB in total. Each of these lists uses at
    /// most 67,584 octets (2 per descriptor, up to 16 per cell, including spare capacity, and 48
    /// per spec).
    ///
    /// # Errors
    ///
    /// [`AllocError`] if memory runs out, in which case the cache is left unchanged.
    pub fn select(&mut self, descriptors: &[Fxy]) -> Result<(), AllocError>
        ensures table_b { self.new.table_b ≡ self.old.table_b }
        ensures table_d { self.new.table_d ≡ self.old.table_d }
        ensures list { OnOk result (self.new.list ≡ descriptors.now) }
        ensures found { IsKept self.old descriptors.now → result ≡ Ok tt }
        ensures before { OnOk result (MayStay self.old.table_b self.old.table_d self.old.list
            → IsKept self.new self.old.list) }
        ensures stay { IsKept self.old descriptors.now
            → (list : List ℕ) → Contains self.old.others list → IsKept self.new list }
        ensures added { OnOk result (¬ IsKept self.old descriptors.now
            → MayStay self.old.table_b self.old.table_d self.old.list
            → self.new.others ≡ with_room self.old.others ++ self.old.list ∷ []) }
        ensures others { OnOk result (¬ IsKept self.old descriptors.now
            → ¬ MayStay self.old.table_b self.old.table_d self.old.list
            → self.new.others ≡ self.old.others) }
        ensures same { OnErr result (self.new ≡ self.old) }
    {
        if self.last.has(descriptors) {
            return Ok(());
        }
        if let Some(index) = index_of(&self.others, descriptors) {
            if self.last.may_stay() {
                mem::swap(&mut self.last, &mut self.others[index]);
            } else {
                self.last = self.others.remove(index);
            }
            return Ok(());
        }
        let slot = Slot::expand(self.alloc, descriptors, self.table_b, self.table_d)?;
        if !self.last.may_stay() {
            self.last = slot;
            return Ok(());
        }
        self.others.reserve(1)?;
        drop_first(&mut self.others);
        let before = mem::replace(&mut self.last, slot);
        self.others.push_reserved(before);
        Ok(())
    }

    /// Takes the selected template's field specs out of the cache, for use in a walk. If the specs
    /// are not put back with [`TemplateCache::put_specs`], they must be computed again.
    pub fn take_specs(&mut self) -> SpecCache<'a>
        ensures specs { result ≡ self.old.table_b }
        ensures same { self.new ≡ self.old }
    {
        mem::replace(
            &mut self.last.specs,
            SpecCache::new(self.alloc, self.table_b),
        )
    }

    /// Puts back the specs that [`TemplateCache::take_specs`] returned.
    pub fn put_specs(&mut self, specs: SpecCache<'a>)
        requires { specs ≡ self.old.table_b }
        ensures { self.new ≡ self.old }
    {
        self.last.specs = specs;
    }

    /// Returns the template or fault that [`Template::build`] returned for the selected list. The
    /// fault is never [`TemplateFault::Memory`]. This method does not allocate.
    pub fn answer(&self) -> &Result<Template, TemplateFault>
        ensures answer { tree_of (tables_of self.now.table_b self.now.table_d)
            self.now.list ≡ result.now }
        ensures reported { IfErr result.now (λ why. why ≢ TemplateFault.Memory) }
    {
        &self.last.answer
    }

    /// Returns the Table B that is used to build the templates.
    pub fn table_b(&self) -> &'a TableB
        ensures { result.now ≡ self.now.table_b }
    {
        self.table_b
    }

    /// Returns the number of cached lists (at most 127), not counting the selected list.
    pub fn others(&self) -> usize
        ensures value { result ≡ length self.now.others }
        ensures few { length self.now.others ≤ 127 }
        ensures stay { All (MayStay self.now.table_b self.now.table_d) self.now.others }
    {
        self.others.len()
    }
}
