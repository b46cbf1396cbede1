//! Faults in streams and messages, and faults that prevent reading or writing. Each fault has a
//! number and a description, which are reported together.

ghost use Rattle.std.specs.Prelude.{◌≡◌};
ghost use Rattle.bufr_frame.specs.Numbers.{cause_report, section_report, run_report, number_of_write_fault};

use std::alloc::AllocError;
use thiserror::Error;

/// The reason why an occurrence of `BUFR` is not the start of a message.
#[derive(Clone, Copy, Debug, PartialEq, Eq, Error)]
pub enum Cause {
    /// The stream ends before the 8 octets of section 0 are complete, or before the declared length
    /// is reached.
    #[error("cut")]
    Cut,
    /// The declared length is less than 12 octets.
    #[error("short length")]
    ShortLength,
    /// A message of the declared length would not end with `7777`.
    #[error("no end")]
    NoEnd,
}

/// A fault that prevents a message from being split into its sections.
#[derive(Clone, Copy, Debug, PartialEq, Eq, Error)]
pub enum SectionFault {
    /// The edition is neither 3 nor 4.
    #[error("edition {0}")]
    Edition(u8),
    /// The section with this number is shorter than its minimum length.
    #[error("section {0} short")]
    SectionShort(u8),
    /// The section with this number, or its length field, extends into section 5.
    #[error("section {0} past the end")]
    SectionPast(u8),
    /// Section 4 does not end where section 5 begins.
    #[error("sections do not meet the end")]
    SectionsEnd,
    /// An edition 3 message is longer than 16,777,213 octets, and its section 3 or 4 has an odd
    /// length. Writing the message again would pad the section to an even length, which could make
    /// the message too long.
    #[error("edition 3 length")]
    Edition3Long,
}

/// A fault that stops a run early.
#[derive(Clone, Copy, Debug, PartialEq, Eq, Error)]
pub enum RunFault {
    /// A read failed.
    #[error("read failed")]
    Read,
    /// A write or a flush failed, or a write accepted no octets.
    #[error("write failed")]
    Write,
    /// The input did not end within 2^32 reads.
    #[error("input too long")]
    InputTooLong,
    /// Memory could not be allocated.
    #[error("out of memory")]
    Memory,
}

/// A fault that prevents a message from being written.
#[derive(Clone, Copy, Debug, PartialEq, Eq, Error)]
pub enum WriteFault {
    /// The message would have more than 16,777,215 octets.
    #[error("too long")]
    TooLong,
    /// Memory could not be allocated.
    #[error("out of memory")]
    Memory,
}

impl Cause {
    /// Returns the fault number (1 to 3).
    pub fn number(self) -> u8
        ensures { result ≡ (cause_report self).0 }
    {
        match self {
            Cause::Cut => 1,
            Cause::ShortLength => 2,
            Cause::NoEnd => 3,
        }
    }
}

impl SectionFault {
    /// Returns the fault number (10 to 14).
    pub fn number(self) -> u8
        ensures { result ≡ (section_report self).0 }
    {
        match self {
            SectionFault::Edition(_) => 10,
            SectionFault::SectionShort(_) => 11,
            SectionFault::SectionPast(_) => 12,
            SectionFault::SectionsEnd => 13,
            SectionFault::Edition3Long => 14,
        }
    }
}

impl RunFault {
    /// Returns the fault number (70 to 73).
    pub fn number(self) -> u8
        ensures { result ≡ (run_report self).0 }
    {
        match self {
            RunFault::Read => 70,
            RunFault::Write => 71,
            RunFault::InputTooLong => 72,
            RunFault::Memory => 73,
        }
    }
}

impl WriteFault {
    /// Returns the fault number (60 or 73).
    pub fn number(self) -> u8
        ensures { result ≡ number_of_write_fault self }
    {
        match self {
            WriteFault::TooLong => 60,
            WriteFault::Memory => RunFault::Memory.number(),
        }
    }
}

impl From<AllocError> for RunFault {
    ghost use Rattle.bufr_frame.specs.declared.fault.RunFault.TheVariants.{Memory};

    ghost from_gives = { λ _ e. e ≡ Memory };

    fn from(_fault: AllocError) -> RunFault {
        RunFault::Memory
    }
}

impl From<AllocError> for WriteFault {
    ghost use Rattle.bufr_frame.specs.declared.fault.WriteFault.TheVariants.{Memory};

    ghost from_gives = { λ _ e. e ≡ Memory };

    fn from(_fault: AllocError) -> WriteFault {
        WriteFault::Memory
    }
}
