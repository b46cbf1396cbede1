//! The program `bufr` as a library that works with any inputs and writers. The function [`run`]
//! parses the command line, runs the subcommand, and reports any error that stops the run. The
//! program `bufr` calls [`run`] with its own [`Inputs`] and with [`Buffered`] writers.
#![tactic(auto)]

mod buffered;
mod dump;
mod encode;
mod fault_line;
mod job;
pub mod laws;
mod ls;
mod outcome;
mod program;
mod run_events;
mod run_pieces;

pub use buffered::{BUFFERED, Buffered};
pub use dump::run_dump;
pub use encode::{run_encode, run_encode_form};
pub use job::{Job, LineFault, Subcommand, TableNames, parse_line};
pub use laws::{Round, RunInMemory, dump_encode_dump};
pub use ls::run_ls;
pub use outcome::{Outcome, Tally, finish};
pub use program::{Inputs, OpenFault, read_all, run};
