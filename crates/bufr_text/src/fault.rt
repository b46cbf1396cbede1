//! Faults in dump text, and the reasons why a document cannot be encoded. (We chose the fault
//! numbers and the order of the checks.)
ghost use Rattle.std.specs.Prelude.{◌≡◌};
ghost use Rattle.bufr_text.specs.Prelude.{document_fault, document_report, line_of_fault, line_report, number_of_read_fault};
ghost use Rattle.bufr_text.specs.declared.fault.DocumentFault.TheVariants.{Memory};

use bufr_fill::{DraftFault, ItemFault};
use bufr_frame::{RunFault, WriteFault};
use bufr_tables::TemplateFault;
use std::alloc::AllocError;
use thiserror::Error;

/// The reason why a line is invalid.
#[derive(Clone, Copy, Debug, PartialEq, Eq, Error)]
pub enum TextLineFault {
    /// The line is not allowed at this point, is longer than 4,096 octets, or is missing because
    /// the input ends in the middle of a document.
    #[error("line")]
    NotAllowed,
    /// The number on a `subset` line is out of sequence or exceeds the number of subsets given in
    /// the header, or an `end` line comes before the last subset.
    #[error("subset count")]
    SubsetCount,
    /// The value of a header line is out of range.
    #[error("header range")]
    HeaderRange,
}

impl TextLineFault {
    /// Returns the fault number (50, 57 or 61).
    pub fn number(self) -> u8
        ensures { result ≡ (line_report self).0 }
    {
        match self {
            TextLineFault::NotAllowed => 50,
            TextLineFault::SubsetCount => 57,
            TextLineFault::HeaderRange => 61,
        }
    }
}

/// The reason why dump text cannot be read any further.
#[derive(Clone, Copy, Debug, PartialEq, Eq, Error)]
pub enum ReadFault {
    /// The line number of an invalid line, and the fault in that line. Lines are numbered from 1
    /// across all documents in the input.
    #[error("{1}")]
    Line(u64, TextLineFault),
    /// A read failed, the input is too long, or memory ran out.
    #[error("{0}")]
    Run(RunFault),
}

impl ReadFault {
    /// Returns the fault number.
    pub fn number(self) -> u8
        ensures { result ≡ number_of_read_fault self }
    {
        match self {
            ReadFault::Line(_, fault) => fault.number(),
            ReadFault::Run(fault) => fault.number(),
        }
    }
}

/// The reason why a document cannot be encoded.
#[derive(Clone, Copy, Debug, PartialEq, Eq, Error)]
pub enum DocumentFault {
    /// The line number of an item (counted from 1), and the fault in that item. If an item is
    /// missing, the line number refers to the line that ends the subset.
    #[error("{1}")]
    Item(u64, ItemFault),
    /// The descriptors cannot be expanded into a template. The line number refers to the `message`
    /// line.
    #[error("template {number} {why}", number = .1.number(), why = .1)]
    Template(u64, TemplateFault),
    /// The message would be longer than 16,777,215 octets. The line number refers to the `message`
    /// line.
    #[error("too long")]
    TooLong(u64),
    /// Memory ran out.
    #[error("out of memory")]
    Memory,
}

impl DocumentFault {
    /// Returns the fault number (51 to 56, 58 to 60, 62 or 73).
    pub fn number(self) -> u8
        ensures { result ≡ (document_report self).0 }
    {
        match self {
            DocumentFault::Item(_, why) => why.number(),
            DocumentFault::Template(_, _) => 56,
            DocumentFault::TooLong(_) => WriteFault::TooLong.number(),
            DocumentFault::Memory => DraftFault::Memory.number(),
        }
    }

    /// Returns the line number of the fault, or `None` if memory ran out.
    pub fn line(self) -> Option<u64>
        ensures { result ≡ line_of_fault self }
    {
        match self {
            DocumentFault::Item(line, _)
            | DocumentFault::Template(line, _)
            | DocumentFault::TooLong(line) => Some(line),
            DocumentFault::Memory => None,
        }
    }
}

impl From<AllocError> for DocumentFault {
    ghost from_gives = { λ _ e. e ≡ Memory };

    fn from(_fault: AllocError) -> DocumentFault {
        DocumentFault::Memory
    }
}

impl From<DraftFault> for DocumentFault {
    ghost from_gives = { λ fault e. e ≡ document_fault fault };

    fn from(fault: DraftFault) -> DocumentFault {
        match fault {
            DraftFault::Item(line, why) => DocumentFault::Item(line, why),
            DraftFault::Memory => DocumentFault::Memory,
        }
    }
}
