//! A cache for the specs of a template's cells. The specs can be reused for later messages.
ghost use Rattle.std.specs.Prelude.{◌≡◌, ◌<◌, ◌≤◌, ◌^◌, IfSome};
ghost use Rattle.bufr_walk.specs.Prelude.{IsSpecBy, IsSpecFor};

use crate::spec::{Role, Spec};
use bufr_tables::{Fxy, TableB};
use std::alloc::{AllocError, Global};
use std::marker::Model;

/// The maximum number of specs in a cache. If a template has more cells than this, only the specs
/// of the first 1,024 are cached.
const MAX_CELLS: usize = 1024;

/// A number that is greater than every valid key.
pub(crate) const NO_KEY: u64 = 0x4000_0000_0000_0000;

/// The key of an empty cache entry.
const EMPTY: u64 = u64::MAX;

/// The key under which the spec of a field is cached. `operators` encodes the operators and the
/// descriptor. `number` is a redefined reference value, the width of a new reference value, or 0.
#[derive(Clone, Copy)]
pub(crate) struct SpecKey {
    pub(crate) operators: u64,
    pub(crate) number: i64,
}

/// A cached spec and its key.
#[derive(Clone, Copy)]
pub(crate) struct CachedSpec {
    key: SpecKey,
    pub(crate) spec: Spec,
}

/// A cache for the specs of a template's first 1,024 cells. All specs are computed from the same
/// Table B. For each cell, the cache contains the most recently computed spec.
///
/// Contracts model a cache as its table alone. A cached spec always equals a newly computed one,
/// because its key encodes everything that the spec depends on.
///
/// ```
/// let mut cache = SpecCache::new(alloc, &table_b);
/// cache.reset(template.cells().len())?;
/// walk_by(&template, &mut cache, &mut fields, &mut steps)?;
/// ```
#[derive(Drop)]
pub struct SpecCache<'a> {
    pub(crate) alloc: Global,
    /// The table from which the specs are computed.
    pub(crate) table: &'a TableB,
    entries: Vec<CachedSpec>,
}

impl<'a> Model for SpecCache<'a> {
    ghost use Rattle.std.specs.Prelude.{List};
    ghost use Rattle.bufr_tables.specs.Prelude.{Row};

    ghost Value = { List Row };

    ghost use Rattle.bufr_walk.specs.TemplateCache.{AreFewCached};

    ghost view = { λ c. c.table.now };

    ghost invariant = { λ c. AreFewCached c.table.now c.entries.items };
}

impl<'a> SpecCache<'a> {
    /// Creates an empty cache that has no space for specs yet. This function does not allocate.
    pub fn new(alloc: Global, table: &'a TableB) -> SpecCache<'a>
        ensures { result ≡ table.now }
    {
        SpecCache {
            alloc,
            table,
            entries: Vec::new(alloc),
        }
    }

    /// Returns the allocator that the cache uses.
    #[inline(always)]
    pub fn allocator(&self) -> Global {
        self.alloc
    }

    /// Returns the number of specs for which the cache has space.
    pub fn cells(&self) -> usize
        ensures few { result ≤ 1024 }
    {
        self.entries.len()
    }

    /// Drops all specs, and reserves memory for the specs of a template with the given number of
    /// cells. Memory is reserved for at most 1,024 specs.
    ///
    /// # Errors
    ///
    /// [`AllocError`] if memory runs out.
    pub fn reset(&mut self, cells: usize) -> Result<(), AllocError>
        ensures { self.new ≡ self.old }
    {
        self.entries.clear();
        let spec = Spec::text(Role::Element, Fxy::from_word(0), 8, false);
        let key = SpecKey {
            operators: EMPTY,
            number: 0,
        };
        let empty = CachedSpec { key, spec };
        self.entries.resize(cells.min(MAX_CELLS), empty)
    }

    /// Returns the spec that is cached for a cell under the given key, or `None` if there is none.
    /// If a reference value is being redefined or has been redefined, the result is always `None`.
    #[tactic(auto, using(crate::proofs::CacheLemmas::plain_spec))]
    #[inline(always)]
    pub(crate) fn get(&self, place: u32, key: u64) -> Option<&Spec>
        requires { key < 2 ^ 63 }
        ensures { IfSome result (λ spec. IsSpecBy self.now key spec.now) }
    {
        let place = place as usize;
        if place < self.entries.len() {
            let cached = &self.entries[place];
            if cached.key.operators == key {
                return Some(&cached.spec);
            }
        }
        None
    }

    /// Returns the spec that is cached for a cell under the given key, or `None` if there is none.
    #[inline(always)]
    pub(crate) fn get_by(&self, place: u32, key: SpecKey) -> Option<&Spec>
        requires { key.operators < 2 ^ 62 }
        ensures { IfSome result (λ spec. IsSpecFor self.now key spec.now) }
    {
        let place = place as usize;
        if place < self.entries.len() {
            let cached = &self.entries[place];
            if cached.key.operators == key.operators && cached.key.number == key.number {
                return Some(&cached.spec);
            }
        }
        None
    }

    /// Caches a cell's spec under the given key, if the cache has space for the cell.
    pub(crate) fn insert(&mut self, place: u32, key: SpecKey, spec: &Spec)
        requires { IsSpecFor self.old key spec.now }
        ensures { self.new ≡ self.old }
    {
        let place = place as usize;
        if place < self.entries.len() {
            self.entries[place] = CachedSpec { key, spec: *spec };
        }
    }
}
