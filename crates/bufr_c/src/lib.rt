//! A library for C and any other language that can call C functions. The library runs `bufr ls`,
//! `bufr dump` and `bufr encode` on data in memory, and returns the items of messages as rows of
//! numbers.
#![tactic(auto)]

mod calls;
mod command;
mod events;
mod items;
mod row_events;
mod rows;
mod tables;
#[cfg(test)]
mod tests;
mod text_out;
mod texts;

pub use calls::{bufr_dump, bufr_encode, bufr_items, bufr_list, bufr_version};
pub use rows::{Counts, MessageRow, RowBuffers, ValueRow};
pub use texts::{CallInput, Texts};
