//! Faults in the items of a document. We chose the fault numbers and the order of the checks; FM 94
//! BUFR defines neither.
ghost use Rattle.std.specs.Prelude.{◌≡◌};
ghost use Rattle.bufr_fill.specs.Draft.{item_report, number_of_draft_fault, refusal_parts};
ghost use Rattle.bufr_fill.specs.declared.fault.DraftFault.TheVariants.{Memory};

use bufr_tables::Fxy;
use bufr_walk::{DEFINING, TOO_MANY_VALUES, WIDTH, WalkFault};
use std::alloc::AllocError;
use std::fmt;
use thiserror::Error;

/// What was expected at this point in the document (an item or the end of a subset).
#[derive(Clone, Copy, Debug, PartialEq, Eq)]
pub enum Expected {
    /// An item with this descriptor.
    Item(Fxy),
    /// A redefined reference value (`R`) with this descriptor.
    Reference(Fxy),
    /// The end of a subset. No further items were expected.
    EndOfSubset,
}

/// Formats the expected item as it appears in fault lines.
impl fmt::Display for Expected {
    fn fmt<W: fmt::Write>(&self, f: &mut fmt::Formatter<W>) -> fmt::Result {
        match self {
            Expected::Item(fxy) => write!(f, "{fxy}"),
            Expected::Reference(fxy) => write!(f, "R {fxy}"),
            Expected::EndOfSubset => f.write_str("end of subset"),
        }
    }
}

/// The reason why the walk over a template rejects an item. Each variant contains the rejected
/// descriptor.
#[derive(Clone, Copy, Debug, PartialEq, Eq)]
pub enum WalkRefusal {
    /// The width is invalid, as described for
    /// [`TurnRefusal::Width`](bufr_walk::TurnRefusal::Width).
    Width(Fxy),
    /// The descriptor is not allowed, as described for
    /// [`TurnRefusal::Defining`](bufr_walk::TurnRefusal::Defining).
    Defining(Fxy),
    /// This item would exceed the limit of 134,217,728 values in compressed data.
    TooManyValues(Fxy),
}

impl WalkRefusal {
    /// Returns the fault number (31, 32 or 35). The same numbers are used for the corresponding
    /// faults in message data.
    pub fn number(self) -> u8
        ensures { result ≡ (refusal_parts self).0 }
    {
        match self {
            WalkRefusal::Width(_) => WIDTH,
            WalkRefusal::Defining(_) => DEFINING,
            WalkRefusal::TooManyValues(_) => TOO_MANY_VALUES,
        }
    }

    /// Returns the rejected descriptor.
    pub fn fxy(self) -> Fxy
        ensures { result ≡ (refusal_parts self).1 }
    {
        match &self {
            WalkRefusal::Width(fxy)
            | WalkRefusal::Defining(fxy)
            | WalkRefusal::TooManyValues(fxy) => *fxy,
        }
    }
}

/// The reason why an item cannot be written.
#[derive(Clone, Copy, Debug, PartialEq, Eq, Error)]
pub enum ItemFault {
    /// The document contains an unexpected item, or an expected item is missing.
    #[error("expected {0}")]
    WrongDescriptor(Expected),
    /// The value is not a decimal number, is not an integer after scaling, or does not match the
    /// field's kind.
    #[error("number")]
    Number,
    /// The number does not fit in the field, or the value would be read back as missing.
    #[error("out of range")]
    OutOfRange,
    /// The string is longer than the field.
    #[error("text long")]
    TextLong,
    /// The value is missing, but the field does not allow missing values.
    #[error("missing forbidden")]
    MissingForbidden,
    /// A replication factor in compressed data differs from the one in the first subset.
    #[error("unequal factor")]
    UnequalFactor,
    /// The values of an item in compressed data are different strings that are too long for
    /// increments, or different redefined reference values.
    #[error("increment")]
    Increment,
    /// The walk over the template rejects this item.
    #[error("walk {number} descriptor {fxy}", number = .0.number(), fxy = .0.fxy())]
    Walk(WalkRefusal),
}

impl ItemFault {
    /// Returns the fault number (51 to 55, 58, 59 or 62).
    pub fn number(self) -> u8
        ensures { result ≡ (item_report self).0 }
    {
        match self {
            ItemFault::WrongDescriptor(_) => 51,
            ItemFault::Number => 52,
            ItemFault::OutOfRange => 53,
            ItemFault::TextLong => 54,
            ItemFault::MissingForbidden => 55,
            ItemFault::UnequalFactor => 58,
            ItemFault::Increment => 59,
            ItemFault::Walk(_) => 62,
        }
    }
}

/// The reason why the items of a document cannot be written.
#[derive(Clone, Copy, Debug, PartialEq, Eq, Error)]
pub enum DraftFault {
    /// The line number of an item, and the reason why the item cannot be written. If an expected
    /// item is missing, the number of the line that ends the subset is used instead.
    #[error("{1}")]
    Item(u64, ItemFault),
    /// Memory ran out.
    #[error("out of memory")]
    Memory,
}

impl DraftFault {
    /// Returns the fault number. If the walk rejected an item, the result is 31, 32 or 35,
    /// depending on the reason. If memory ran out, the result is 73. Otherwise, the result is the
    /// same as for [`ItemFault::number`].
    pub fn number(self) -> u8
        ensures { result ≡ number_of_draft_fault self }
    {
        match self {
            DraftFault::Item(_, ItemFault::Walk(why)) => why.number(),
            DraftFault::Item(_, fault) => fault.number(),
            DraftFault::Memory => WalkFault::Memory.number(),
        }
    }
}

impl From<AllocError> for DraftFault {
    ghost from_gives = { λ _ e. e ≡ Memory };

    fn from(_: AllocError) -> DraftFault {
        DraftFault::Memory
    }
}
