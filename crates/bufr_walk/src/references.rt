//! The reference values that the data has redefined.
ghost use Rattle.std.specs.Prelude.{◌≡◌, ◌<◌, [], true, Option, OnOk};
ghost use Rattle.arrayvec.specs.ArrayVec.{array_vec_len};
ghost use Rattle.bufr_walk.specs.Prelude.{known_by, known_of, last_of, redefined, with_all, with_reference};

use arrayvec::ArrayVec;
use std::alloc::{AllocError, Global};
use std::collections::BTreeMap;

/// An element's descriptor (as a 16-bit number) and its redefined reference value.
#[derive(Clone, Copy, Default)]
pub(crate) struct NewReference {
    word: u16,
    reference: i64,
}

/// The reference values that the data has redefined. The most recent values are stored in an array,
/// which needs no allocation, and earlier values are stored in a map. A map is used because a
/// message can redefine thousands of reference values, and every item requires a lookup.
#[derive(Drop)]
pub(crate) struct References {
    sorted: BTreeMap<u16, i64>,
    recent: ArrayVec<NewReference, 4>,
}

/// Adds the values in `recent` to the map `sorted`.
fn sort(sorted: &mut BTreeMap<u16, i64>, recent: &[NewReference]) -> Result<(), AllocError>
    ensures { OnOk result
        (known_by sorted.new.entries ≡ with_all recent.now (known_by sorted.old.entries)) }
{
    for new in recent {
        sorted.insert(new.word, new.reference)?;
    }
    Ok(())
}

/// Returns the last reference value in `recent` for the given descriptor, or `before` if there is
/// none.
fn last_of(recent: &[NewReference], word: u16, before: Option<i64>) -> Option<i64>
    ensures { result ≡ last_of recent.now word before }
{
    let mut found = before;
    for new in recent {
        if new.word == word {
            found = Some(new.reference);
        }
    }
    found
}

impl References {
    /// Creates an empty collection. This function does not allocate.
    pub(crate) fn new(alloc: Global) -> References
        ensures { known_of result ≡ [] }
    {
        References {
            sorted: BTreeMap::new(alloc),
            recent: ArrayVec::new(),
        }
    }

    /// Returns whether the collection is empty.
    pub(crate) fn is_empty(&self) -> bool
        ensures { result ≡ true → known_of self.now ≡ [] }
    {
        self.recent.is_empty() && self.sorted.is_empty()
    }

    /// Returns the reference value of an element if it has been redefined, and `None` otherwise.
    #[tactic(auto, using(crate::proofs::SpecLemmas::reference_found, crate::proofs::SpecLemmas::last_found))]
    pub(crate) fn get(&self, word: u16) -> Option<i64>
        ensures { result ≡ redefined (known_of self.now) word }
    {
        let before = self.sorted.get(&word).copied();
        last_of(self.recent.as_slice(), word, before)
    }

    /// Reserves space for one more reference value.
    pub(crate) fn reserve(&mut self) -> Result<(), AllocError>
        ensures same { OnOk result (known_of self.new ≡ known_of self.old) }
        ensures room { OnOk result (array_vec_len self.new.recent < 4) }
    {
        if self.recent.is_full() {
            sort(&mut self.sorted, self.recent.as_slice())?;
            self.recent.clear();
        }
        Ok(())
    }

    /// Adds a redefined reference value for an element. Space for the value must already have been
    /// reserved.
    #[tactic(auto, using(crate::proofs::SpecLemmas::all_more))]
    pub(crate) fn push(&mut self, word: u16, reference: i64)
        requires { array_vec_len self.old.recent < 4 }
        ensures { known_of self.new ≡ with_reference word reference (known_of self.old) }
    {
        self.recent.push(NewReference { word, reference });
    }

    /// Removes all reference values.
    pub(crate) fn clear(&mut self)
        ensures { known_of self.new ≡ [] }
    {
        self.sorted.clear();
        self.recent.clear();
    }
}
