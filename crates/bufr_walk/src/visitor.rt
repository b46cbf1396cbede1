//! The `Visitor` trait, and the items that are passed to a visitor.
ghost use Rattle.std.specs.Prelude.{Result, ◌≡◌, ◌<◌, ◌^◌, ◌+ℤ◌, pos};
ghost use Rattle.bufr_walk.specs.Prelude.{Call, subset_call, item_call, seen, seen_value, shown_number, IsPlainNumber};

use crate::spec::Spec;
use bufr_tables::{Entry, Fxy};

/// The value of an item.
#[derive(Clone, Copy, Debug, PartialEq, Eq)]
pub enum Value<'a> {
    /// A number and its scale. The value is the number divided by ten to the power of the scale.
    Number(i128, i16),
    /// The octets of a string. A string stored as an increment in compressed data is padded with
    /// spaces to the length of the field.
    Text(&'a [u8]),
    /// A missing value.
    Missing,
    /// A new reference value, stored in place of the element's value while 2 03 Y is in effect.
    Reference(i64),
}

/// Converts the raw number in a plain numeric field to a [`Value`].
#[inline(always)]
pub(crate) fn plain_number<'t>(spec: &Spec, raw: u64) -> Value<'t>
    requires plain { IsPlainNumber spec.now }
    requires below { raw < 2 ^ 62 }
    ensures { seen_value result
        ≡ shown_number (pos raw +ℤ spec.now.reference) spec.now.scale }
{
    // The sum is computed in 64 bits, so that a visitor's check that the sum fits in 64 bits can be
    // optimized away.
    let number = raw as i64 + spec.reference as i64;
    Value::Number(i128::from(number), spec.scale)
}

/// An item, as passed to a visitor.
#[derive(Clone, Copy, Debug, PartialEq, Eq)]
pub struct ItemView<'a> {
    /// The descriptor of an element, a replication factor, or operator 2 05 Y.
    pub fxy: Fxy,
    /// The Table B entry that was used to read the item, or `None` if no entry was used.
    pub entry: Option<Entry<'a>>,
    /// The value of the item.
    pub value: Value<'a>,
}

/// A visitor for the subsets and items of a message.
pub trait Visitor {
    /// The reason why a visitor stops.
    type Fault;

    /// Specifies what a method can return and how a call changes the visitor's state.
    ghost sees: { Self → Call → Result (Unit {0}) Self.Fault → Self → Type 0 };

    /// Called at the start of each subset. `number` is the subset number, counted from 1.
    ///
    /// # Errors
    ///
    /// [`Visitor::Fault`] if the visitor stops. The visitor is not called again after a fault.
    fn subset(&mut self, number: u16) -> Result<(), Self::Fault>
        ensures { sees self.old (subset_call number) result self.new };

    /// Called for each item of the current subset.
    ///
    /// # Errors
    ///
    /// [`Visitor::Fault`] if the visitor stops. The visitor is not called again after a fault.
    fn item(&mut self, item: &ItemView<'_>) -> Result<(), Self::Fault>
        ensures { sees self.old (item_call (seen item.now)) result self.new };
}
