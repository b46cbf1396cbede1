//! An index of the items in compressed data.
ghost use Rattle.bufr_walk.specs.declared.fault.DataFault.TheVariants as wrong;
ghost use Rattle.std.specs.Prelude.{◌≡◌, ◌≤◌, ◌<◌, ◌+◌, ◌*◌, max, ◌%◌, ◌++◌, ◌∷◌, [], length, vec_len, vec_capacity, IfErr, OnOk, OnErr, get_or};
ghost use Rattle.bufr_walk.specs.Prelude.{items_at_once, start_of};

use crate::fault::DataFault;
use crate::spec::Spec;
use std::alloc::Global;
use std::marker::Model;

/// An index entry for an item. `base` is 0 if the field is text, and `step` is the 6-bit increment
/// width `k`.
// The position of the first bit is below 2^48. It is stored in two parts, so that an entry takes up
// only 48 octets.
#[derive(Clone, Copy)]
pub(crate) struct IndexedItem {
    pub(crate) spec: Spec,
    pub(crate) base: u64,
    pub(crate) at_low: u32,
    pub(crate) at_high: u16,
    pub(crate) step: u8,
}

impl IndexedItem {
    /// Returns the position of the item's first bit.
    #[inline(always)]
    pub(crate) fn at(self) -> u64
        ensures { result ≡ start_of self }
    {
        (u64::from(self.at_high) << 32) + u64::from(self.at_low)
    }
}

/// Memory is reserved for at least this many items at a time.
const ITEMS_AT_ONCE: usize = 64;

/// Reserves memory for at least 64 more items. If the vector has to be reallocated, its capacity
/// roughly doubles.
#[inline(always)]
fn reserve(items: &mut Vec<IndexedItem>) -> Result<(), DataFault>
    ensures same { items.new.items ≡ items.old.items }
    ensures len { vec_len items.new ≡ vec_len items.old }
    ensures room { OnOk result (vec_len items.old + items_at_once ≤ vec_capacity items.new) }
    ensures least { vec_capacity items.old ≤ vec_capacity items.new }
    ensures most { vec_capacity items.new
        ≤ max (vec_capacity items.old) (2 * vec_len items.old + items_at_once) }
    ensures fault { IfErr result (λ e. e ≡ wrong.Memory) }
{
    let len = items.len();
    let full = items.capacity() - len < ITEMS_AT_ONCE;
    let more = len.max(ITEMS_AT_ONCE);
    match items.reserve_exact(if full { more } else { ITEMS_AT_ONCE }) {
        Ok(()) => Ok(()),
        Err(_) => Err(DataFault::Memory),
    }
}

/// The stored items, in the order in which they were read.
#[derive(Drop)]
pub(crate) struct ItemIndex {
    items: Vec<IndexedItem>,
}

impl Model for ItemIndex {
    ghost use Rattle.std.specs.Prelude.{List, length, vec_capacity};
    ghost use Rattle.bufr_walk.specs.declared.item_index.IndexedItem.{IndexedItem};

    ghost Value = { List IndexedItem };

    ghost use Rattle.bufr_walk.specs.Readers.{HasRoom};

    ghost view = { λ k. k.items.items };

    ghost invariant = { λ k. HasRoom (length k.items.items) (vec_capacity k.items) };
}

impl ItemIndex {
    /// Creates an empty index.
    pub(crate) fn new(alloc: Global) -> ItemIndex
        ensures { result ≡ [] }
    {
        ItemIndex {
            items: Vec::new(alloc),
        }
    }

    /// Returns the number of items.
    #[inline(always)]
    pub(crate) fn len(&self) -> usize
        ensures { result ≡ length self.now }
    {
        self.items.len()
    }

    /// Returns the item at the given index.
    #[inline(always)]
    pub(crate) fn item(&self, index: usize) -> IndexedItem
        requires { index < length self.now }
        ensures { result ≡ get_or self.now index result }
    {
        self.items[index]
    }

    /// Appends an item. Memory is reserved only once every 64 items.
    #[inline(always)]
    pub(crate) fn keep(&mut self, item: IndexedItem) -> Result<(), DataFault>
        ensures kept { OnOk result (self.new ≡ self.old ++ item ∷ []) }
        ensures same { OnErr result (self.new ≡ self.old) }
        ensures fault { IfErr result (λ e. e ≡ wrong.Memory) }
        ensures full { OnErr result (length self.old % items_at_once ≡ 0) }
    {
        if self.items.len() % ITEMS_AT_ONCE == 0 {
            reserve(&mut self.items)?;
        }
        self.items.push_reserved(item);
        Ok(())
    }
}
