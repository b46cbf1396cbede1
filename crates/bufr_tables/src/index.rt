//! An index that finds a descriptor by its X and Y in constant time.
ghost use Rattle.std.specs.Prelude.{◌≡◌, ◌<◌, [], ◌∷◌, ◌++◌, length, None, IfOk, IfSome, List, ℕ};
ghost use Rattle.bufr_tables.specs.Fxy.{place_of, IsDirectory};

use std::alloc::{AllocError, Global};
use std::marker::Model;

/// The number of possible combinations of X and Y.
pub(crate) const KEYS: usize = 16384;

/// A list of keys, indexed so that a key's position can be looked up in constant time. A key is a
/// 14-bit number that combines the X and Y of a descriptor. In contracts, an index is represented
/// by the list of its keys.
#[derive(Drop)]
pub(crate) struct FxyIndex {
    /// The list of keys, with enough capacity for all possible keys.
    keys: Vec<u16>,
    /// For each possible key, the key's position in the list plus 1, or 0 if the list does not
    /// contain the key.
    marks: Vec<u16>,
}

impl Model for FxyIndex {
    ghost Value = { List ℕ };

    ghost view = { λ a. a.keys.items };

    ghost invariant = { IsDirectory };
}

impl FxyIndex {
    /// Creates an empty index.
    pub(crate) fn new(alloc: Global) -> Result<FxyIndex, AllocError>
        ensures { IfOk result (λ d. d ≡ []) }
    {
        let marks = vec![in alloc; 0u16; KEYS]?;
        Ok(FxyIndex {
            keys: Vec::with_capacity(alloc, KEYS)?,
            marks,
        })
    }

    /// Returns the position of a key in the list, counted from 0, or `None` if the list does not
    /// contain the key.
    #[inline(always)]
    pub(crate) fn place(&self, key: usize) -> Option<usize>
        requires { key < 16384 }
        ensures value { result ≡ place_of self.now key }
        ensures inside { IfSome result (λ place. place < length self.now) }
    {
        match self.marks[key] {
            0 => None,
            mark => Some(usize::from(mark) - 1),
        }
    }

    /// Appends a key to the list. The list must not already contain the key.
    pub(crate) fn add(&mut self, key: usize)
        requires small { key < 16384 }
        requires absent { place_of self.old key ≡ None }
        ensures { self.new ≡ self.old ++ key ∷ [] }
    {
        let mark = self.keys.len() as u16 + 1;
        self.keys.push(key as u16).unwrap();
        self.marks[key] = mark;
    }
}
