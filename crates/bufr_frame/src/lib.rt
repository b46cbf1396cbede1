//! Framing of FM 94 BUFR messages. This crate finds the messages in a stream, splits messages into
//! sections, and writes messages from their parts.
#![tactic(auto)]

mod fault;
mod finder;
mod input;
pub mod laws;
mod message;
mod octets;
mod section1;
mod write;

pub use fault::{Cause, RunFault, SectionFault, WriteFault};
pub use finder::{Event, Finder};
pub use input::{InputBuffer, read_to_end};
pub use message::{Message, Words};
pub use section1::Head;
pub use write::write_message;
