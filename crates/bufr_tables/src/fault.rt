//! The reasons why a table cannot be read or a descriptor list cannot be expanded into a template.
ghost use Rattle.std.specs.Prelude.{◌≡◌};
ghost use Rattle.bufr_tables.specs.declared.fault.TableFault.TheVariants.{Memory};
ghost use Rattle.bufr_tables.specs.FaultNumber.{table_report, template_report};

use crate::fxy::Fxy;
use std::alloc::{AllocError, AllocFailed};
use thiserror::Error;

/// The reason why a table cannot be read.
///
/// Only the first invalid record is reported. If several faults apply to a record, the first of
/// [`TableFault::Csv`], [`TableFault::Row`], [`TableFault::Duplicate`] and
/// [`TableFault::TableSize`] is reported. [`TableFault::Cycle`] is reported only if all records are
/// valid.
#[derive(Clone, Copy, Debug, PartialEq, Eq, Drop, Error)]
pub enum TableFault {
    /// The file contains no records, or the first record is not the required header.
    #[error("header")]
    Header,
    /// The record with this number is not a valid row. The header is record 1, and empty lines are
    /// not counted.
    #[error("row {0}")]
    Row(u64),
    /// An earlier record already defines this element of Table B, or the rows of this sequence of
    /// Table D are not contiguous.
    #[error("duplicate {0}")]
    Duplicate(Fxy),
    /// This sequence is the first one in the file that contains itself, directly or through other
    /// sequences.
    #[error("cycle {0}")]
    Cycle(Fxy),
    /// Table D has more than 65,536 rows.
    #[error("table size")]
    TableSize,
    /// A record does not have the same number of fields as the header.
    #[error("csv")]
    Csv,
    /// Memory could not be allocated.
    #[error("out of memory")]
    Memory,
}

impl TableFault {
    /// Returns the fault number (40 to 45, or 73).
    pub fn number(self) -> u8
        ensures { result ≡ (table_report self).0 }
    {
        match self {
            TableFault::Header => 40,
            TableFault::Row(_) => 41,
            TableFault::Duplicate(_) => 42,
            TableFault::Cycle(_) => 43,
            TableFault::TableSize => 44,
            TableFault::Csv => 45,
            TableFault::Memory => 73,
        }
    }
}

/// The reason why a descriptor list cannot be expanded into a template. Descriptor lists are
/// expanded depth first and from left to right, and expansion stops at the first fault.
#[derive(Clone, Copy, Debug, PartialEq, Eq, Drop, Error)]
pub enum TemplateFault {
    /// Table B does not contain this element or replication factor.
    #[error("unknown element {0}")]
    UnknownElement(Fxy),
    /// Table D does not contain this sequence.
    #[error("unknown sequence {0}")]
    UnknownSequence(Fxy),
    /// This operator (Table C) is not supported, or its operand is not allowed.
    #[error("operator {0}")]
    Operator(Fxy),
    /// This replication repeats no descriptors, or more descriptors than follow it in the list.
    #[error("group shape {0}")]
    GroupShape(Fxy),
    /// This delayed replication is not followed by a factor (0 31 000, 0 31 001 or 0 31 002).
    #[error("no factor {0}")]
    NoFactor(Fxy),
    /// The body of this replication consumes no data bits. If the whole list consumes no data bits,
    /// the variant contains the first descriptor of the list, or 000000 if the list is empty.
    #[error("empty group {0}")]
    EmptyGroup(Fxy),
    /// This replication or sequence is nested more than 32 levels deep.
    #[error("depth {0}")]
    Depth(Fxy),
    /// With this element, operator or replication, the template would have more than 65,535 cells.
    #[error("template size {0}")]
    TemplateSize(Fxy),
    /// This 2 06 Y operator is not directly followed by an element in the same list.
    #[error("local shape {0}")]
    LocalShape(Fxy),
    /// Memory could not be allocated.
    #[error("out of memory")]
    Memory,
}

impl TemplateFault {
    /// Returns the fault number (20 to 28, or 73).
    pub fn number(self) -> u8
        ensures { result ≡ (template_report self).0 }
    {
        match self {
            TemplateFault::UnknownElement(_) => 20,
            TemplateFault::UnknownSequence(_) => 21,
            TemplateFault::Operator(_) => 22,
            TemplateFault::GroupShape(_) => 23,
            TemplateFault::NoFactor(_) => 24,
            TemplateFault::EmptyGroup(_) => 25,
            TemplateFault::Depth(_) => 26,
            TemplateFault::TemplateSize(_) => 27,
            TemplateFault::LocalShape(_) => 28,
            TemplateFault::Memory => TableFault::Memory.number(),
        }
    }
}

impl<T: Drop> From<AllocFailed<T>> for TableFault {
    ghost from_gives = { λ _ e. e ≡ Memory };

    fn from(_refused: AllocFailed<T>) -> TableFault {
        TableFault::Memory
    }
}

impl From<AllocError> for TableFault {
    ghost from_gives = { λ _ e. e ≡ Memory };

    fn from(_refused: AllocError) -> TableFault {
        TableFault::Memory
    }
}
