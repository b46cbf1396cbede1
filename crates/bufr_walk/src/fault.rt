//! Faults in the data of a message. We chose the fault numbers and the order of the checks.
ghost use Rattle.std.specs.Prelude.{◌≡◌};
ghost use Rattle.bufr_walk.specs.Prelude.{data_report, fault_at};
ghost use Rattle.bufr_walk.specs.declared.walker.WalkStop.TheVariants as stops;

use crate::walker::WalkStop;
use bufr_frame::RunFault;
use bufr_tables::Fxy;
use std::fmt;
use thiserror::Error;

/// The location of an item in the data.
#[derive(Clone, Copy, Debug, PartialEq, Eq)]
pub struct Spot {
    /// The subset number, counted from 1 (0 for compressed data).
    pub subset: u16,
    /// The descriptor of an element, a replication factor, or an operator.
    pub fxy: Fxy,
    /// The number of data bits before the item.
    pub bit: u64,
}

/// Formats the location as it appears in fault lines.
impl fmt::Display for Spot {
    fn fmt<W: fmt::Write>(&self, f: &mut fmt::Formatter<W>) -> fmt::Result {
        let Spot { subset, fxy, bit } = self;
        write!(f, "at subset {subset} descriptor {fxy} bit {bit}")
    }
}

/// The fault number for an invalid width. Encoding a document can also cause this fault.
pub const WIDTH: u8 = 31;

/// The fault number for a descriptor that is not allowed while 2 03 Y redefines reference values.
/// Encoding a document can also cause this fault.
pub const DEFINING: u8 = 32;

/// The fault number for too many values in compressed data. Encoding a document can also cause this
/// fault.
pub const TOO_MANY_VALUES: u8 = 35;

/// The reason why the data of a message cannot be read.
#[derive(Clone, Copy, Debug, PartialEq, Eq, Error)]
pub enum WalkFault {
    /// The item extends past the end of the data.
    #[error("data end {0}")]
    DataEnd(Spot),
    /// A non-text field is not 1 to 63 bits wide, or Table B does not contain the element.
    #[error("width {0}")]
    Width(Spot),
    /// The descriptor is not allowed while 2 03 Y redefines reference values.
    #[error("defining {0}")]
    Defining(Spot),
    /// A replication factor in compressed data differs between subsets.
    #[error("unequal factor {0}")]
    UnequalFactor(Spot),
    /// The increments of an item in compressed data are invalid.
    #[error("increment {0}")]
    Increment(Spot),
    /// With this item, the compressed data would contain more than 134,217,728 values.
    #[error("too many values {0}")]
    TooManyValues(Spot),
    /// Memory ran out.
    #[error("out of memory")]
    Memory,
}

impl WalkFault {
    /// Returns the fault number (30 to 35, or 73 if memory ran out).
    pub fn number(self) -> u8
        ensures { result ≡ (data_report self).0 }
    {
        match self {
            WalkFault::DataEnd(_) => 30,
            WalkFault::Width(_) => WIDTH,
            WalkFault::Defining(_) => DEFINING,
            WalkFault::UnequalFactor(_) => 33,
            WalkFault::Increment(_) => 34,
            WalkFault::TooManyValues(_) => TOO_MANY_VALUES,
            WalkFault::Memory => RunFault::Memory.number(),
        }
    }
}

/// The reason why an item in the data cannot be read. Each variant except `Memory` contains the
/// item's descriptor.
#[derive(Clone, Copy, Debug, PartialEq, Eq, Error)]
pub enum DataFault {
    /// The item extends past the end of the data.
    #[error("the data end inside an item")]
    DataEnd(Fxy),
    /// The sum of the base and an increment does not fit in the field, a text increment is longer
    /// than its field, or a redefined reference value has increments.
    #[error("an increment that cannot be")]
    Increment(Fxy),
    /// A replication factor in compressed data differs between subsets.
    #[error("a factor is not the same in all subsets")]
    UnequalFactor(Fxy),
    /// With this item, the compressed data would contain more than 134,217,728 values.
    #[error("too many values")]
    TooManyValues(Fxy),
    /// Memory ran out.
    #[error("out of memory")]
    Memory,
}

impl DataFault {
    /// Returns the fault number of the corresponding [`WalkFault`] (30, 33 to 35, or 73 if memory
    /// ran out).
    pub fn number(self) -> u8
        ensures { result ≡ (data_report (fault_at (stops.Field self) 0 0)).0 }
    {
        fault_at(WalkStop::Field(self), 0, 0).number()
    }
}

/// Converts a [`WalkStop`] to a [`WalkFault`]. `bit` is the number of bits that were read before
/// the walk stopped.
pub(crate) fn fault_at(why: WalkStop<DataFault>, subset: u16, bit: u64) -> WalkFault
    ensures { result ≡ fault_at why subset bit }
{
    match why {
        WalkStop::Width(fxy) => WalkFault::Width(Spot { subset, fxy, bit }),
        WalkStop::Defining(fxy) => WalkFault::Defining(Spot { subset, fxy, bit }),
        WalkStop::Field(wrong) => match wrong {
            DataFault::DataEnd(fxy) => WalkFault::DataEnd(Spot { subset, fxy, bit }),
            DataFault::Increment(fxy) => WalkFault::Increment(Spot { subset, fxy, bit }),
            DataFault::UnequalFactor(fxy) => WalkFault::UnequalFactor(Spot { subset, fxy, bit }),
            DataFault::TooManyValues(fxy) => WalkFault::TooManyValues(Spot { subset, fxy, bit }),
            DataFault::Memory => WalkFault::Memory,
        },
        WalkStop::Memory => WalkFault::Memory,
    }
}

/// The error returned by functions that pass items to a visitor.
#[derive(Debug, PartialEq, Eq, Drop, Error)]
pub enum ShowFault<E> {
    /// The fault that the visitor returned.
    #[error("the visitor stopped the showing")]
    Visitor(E),
    /// Memory ran out.
    #[error("out of memory")]
    Memory,
}
