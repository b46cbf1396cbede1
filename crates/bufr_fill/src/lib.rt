//! This crate encodes the items of a document as the data of an FM 94 BUFR message.
//!
//! An encoder passes the items of a document ([`Entries`]) to a writer. [`PlainOut`] writes plain
//! data, one subset after another, and [`PackedOut`] writes compressed data, in which each item
//! contains the values for all subsets. Both writers are used with the `walk` function from
//! `bufr_walk`. After the walk, the encoder takes the written octets from the writer.
#![tactic(auto)]

mod draft;
mod fault;
mod field_value;
pub mod laws;
mod packed_out;
mod plain_out;

pub use draft::{DraftItem, DraftValue, Entries};
pub use fault::{DraftFault, Expected, ItemFault, WalkRefusal};
pub use packed_out::PackedOut;
pub use plain_out::PlainOut;
