//! This crate, the lowest layer of `bufr`, reads and writes octets and bits, and converts between
//! numbers and decimal text.
//!
//! *Octet* is WMO's word for byte. A device is either a [`Source`], from which octets are read, or
//! a [`Sink`], to which octets are written. Bits are counted from 0, and the most significant bit
//! of an octet comes first.
#![tactic(auto)]

mod bit_slice;
mod bit_writer;
mod decimal;
mod device;
mod script;

pub use bit_slice::BitSlice;
pub use bit_writer::{BitWriter, pushed_octets_read_back, pushed_reads_back};
pub use decimal::{NumberFault, ShortDecimal, decimal_read, decimal_reads_back, decimal_text};
pub use device::{BufferedDevice, Device, Failed, Sink, Source};
pub use script::{End, ScriptIn, ScriptOut};
