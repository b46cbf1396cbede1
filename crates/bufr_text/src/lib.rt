//! Text formats for FM 94 BUFR messages. This crate lists messages, dumps them, and encodes dumps
//! as messages.
#![tactic(auto)]

mod alike;
mod document;
mod dump;
mod dump_reader;
mod encode;
mod fault;
mod header;
pub mod laws;
mod line;
mod line_writer;
mod ls;
mod numbers;
mod slices;

pub use document::Document;
pub use dump::{DumpMemory, write_dump, write_dump_by};
pub use dump_reader::DumpReader;
pub use encode::{Form, encode_by, encode_document, encode_form};
pub use fault::{DocumentFault, ReadFault, TextLineFault};
pub use line_writer::{LineWriter, write_all};
pub use ls::write_ls;
