//! The program `bufr`, which lists, dumps and encodes FM 94 BUFR messages.
//!
//! `bufr ls [FILE]` prints one line for each message in a stream.
//! `bufr dump -B FILE -D FILE [FILE]` prints each message as text, using Tables B and D.
//! `bufr encode -B FILE -D FILE [--form WORD] [FILE]` converts text in the format of `dump` into
//! messages. Faults are reported on standard error, one per line. The exit status is 0 if nothing
//! was rejected. The exit status is 1 if a message or a document was rejected, or if the input
//! contained a stray (an occurrence of `BUFR` where no message begins). The exit status is 2 if the
//! command line or a table was invalid, a file could not be opened, reading or writing failed, or
//! memory ran out.
//!
//! This crate only passes the arguments, inputs and writers of the process to [`run`] in
//! `bufr_cli`.
#![tactic(auto)]

ghost use Rattle.bufr.specs.Calling.{IsWordless, RunsArguments};
ghost use Rattle.bufr_cli.specs.Prelude.{input_of, known_inputs, writers_of};

mod process;

use bufr_bits::{Device, Sink};
use bufr_cli::{BUFFERED, Buffered, Inputs, Outcome, finish, run};
use bufr_frame::RunFault;
use process::Process;
use std::io::{Error, ErrorKind};
use std::process::ExitCode;

/// Runs the program and exits with its status.
fn main(rt: HostRuntime) -> ExitCode {
    ExitCode::from(status(&rt))
}

/// Runs the program with the inputs and writers of the process, and returns the exit status.
// rule: output-held-back
fn status(rt: &HostRuntime) -> u8 {
    let Ok(mut e) = Buffered::new(rt.alloc(), BUFFERED, Device::new(rt.stderr())) else {
        return finish(
            &Outcome::Run(RunFault::Memory),
            &mut Device::new(rt.stderr()),
        );
    };
    let status = match Buffered::new(rt.alloc(), BUFFERED, Device::new(rt.stdout())) {
        Ok(mut w) => run_words(rt, &mut Process { runtime: rt }, &mut w, &mut e),
        Err(_) => finish(&Outcome::Run(RunFault::Memory), &mut e),
    };
    let _ = e.flush();
    status
}

/// Returns the outcome to report if the command-line arguments cannot be read.
// rule: argument-not-utf-8
fn argument_fault(error: &Error) -> Outcome<'static>
    ensures { IsWordless result }
{
    if error.kind() == ErrorKind::OutOfMemory {
        Outcome::Run(RunFault::Memory)
    } else {
        Outcome::Usage("error: an argument is not UTF-8\n")
    }
}

/// Runs the program with the process's arguments and with the given inputs and writers.
fn run_words<I: Inputs, W: Sink, E: Sink>(
    rt: &HostRuntime,
    inputs: &mut I,
    w: &mut W,
    e: &mut E,
) -> u8
    ensures { RunsArguments (known_inputs (I.standard_octets inputs.old) (I.file_octets inputs.old)
        (input_of I.Standard.Source) (input_of I.File.Source))
        (I.opened inputs.old) (I.opened inputs.new)
        (writers_of W.Sink w.old E.Sink e.old) (writers_of W.Sink w.new E.Sink e.new) result }
{
    let words: Result<Vec<String>, _> = match std::env::args(rt) {
        Ok(words) => words.collect(rt.alloc()),
        Err(error) => return finish(&argument_fault(&error), e),
    };
    match words {
        Ok(words) => run(rt.alloc(), words.as_slice(), inputs, w, e),
        Err(_) => finish(&Outcome::Run(RunFault::Memory), e),
    }
}
