//! Functions that run the three commands with in-memory input and output.
//!
//! The functions here have no contracts, which keeps the contracts of `run_ls`, `run_dump` and
//! `run_encode` out of the tests' proofs.

use crate::messages::STRAY;
use crate::support::{Runtime, assert_same, joined, ok, some, table_b, table_d};
use bufr_bits::{Device, End, ScriptIn, ScriptOut, Sink, Source};
use bufr_cli::{Tally, run_dump, run_encode, run_encode_form, run_ls};
use bufr_frame::RunFault;
use bufr_tables::{TableB, TableD};
use bufr_text::Form;
use std::alloc::Global;
use std::cell::Cell;
use std::io::{self, ErrorKind, Read, Write};

/// The three commands. `EncodeIn` is `encode` with the `--form` option.
#[derive(Clone, Copy)]
pub(crate) enum Command {
    Ls,
    Dump,
    Encode,
    EncodeIn(Form),
}

/// Returns a tally of accepted and rejected messages or documents.
pub(crate) fn tally(accepted: u64, refused: u64) -> Tally {
    Tally { accepted, refused }
}

/// The input of a run, with its expected result and output.
#[derive(Clone, Copy)]
pub(crate) struct Run<'a> {
    pub(crate) command: Command,
    pub(crate) name: &'a str,
    pub(crate) input: &'a [u8],
    pub(crate) output: &'a [u8],
    pub(crate) errors: &'a [u8],
    pub(crate) outcome: Result<Tally, RunFault>,
}

/// Returns a run that should accept one message or document and write the given output.
pub(crate) fn accepted<'a>(
    command: Command,
    name: &'a str,
    input: &'a [u8],
    output: &'a [u8],
) -> Run<'a> {
    Run {
        command,
        name,
        input,
        output,
        errors: b"",
        outcome: Ok(tally(1, 0)),
    }
}

/// Returns a run that should reject one message or document and report the given fault line.
pub(crate) fn refused<'a>(
    command: Command,
    name: &'a str,
    input: &'a [u8],
    errors: &'a [u8],
) -> Run<'a> {
    let run = accepted(command, name, input, b"");
    run.counting(0, 1).with_errors(errors)
}

impl<'a> Run<'a> {
    /// Returns this run with the given expected counts of accepted and rejected messages or
    /// documents.
    pub(crate) fn counting(self, accepted: u64, refused: u64) -> Run<'a> {
        Run {
            outcome: Ok(tally(accepted, refused)),
            ..self
        }
    }

    /// Returns this run with the given expected fault lines.
    pub(crate) fn with_errors(self, errors: &'a [u8]) -> Run<'a> {
        Run { errors, ..self }
    }
}

/// A command, an allocator, and the tables for the test messages.
#[derive(Drop)]
pub(crate) struct Task {
    pub(crate) alloc: Global,
    pub(crate) command: Command,
    pub(crate) b: TableB,
    pub(crate) d: TableD,
}

impl Task {
    pub(crate) fn new(rt: &impl Runtime, command: Command) -> Task {
        Task {
            alloc: rt.alloc(),
            command,
            b: table_b(rt),
            d: table_d(rt),
        }
    }
}

/// Runs `ls`.
pub(crate) fn list<R: Source, W: Sink, E: Sink>(
    alloc: Global,
    r: &mut R,
    w: &mut W,
    e: &mut E,
) -> Result<Tally, RunFault> {
    run_ls(alloc, r, w, e)
}

/// The result of a run, with the writers that contain its output and error output.
#[derive(Drop)]
pub(crate) struct Ran {
    outcome: Result<Tally, RunFault>,
    output: ScriptOut,
    errors: ScriptOut,
}

impl Ran {
    /// Returns the octets that were written to the output.
    pub(crate) fn output(&self) -> &[u8] {
        self.output.taken()
    }

    /// Asserts that the result, the output and the error output are as expected. `index` identifies
    /// the run if an assertion fails.
    pub(crate) fn assert(&self, rt: &impl Runtime, run: Run<'_>, index: usize) {
        let case = (run.name, index);
        assert_same(rt, &self.outcome, &run.outcome, &case);
        assert_same(rt, &self.output.taken(), &run.output, &case);
        assert_same(rt, &self.errors.taken(), &run.errors, &case);
    }
}

/// Runs a command with the given reader and writers.
fn run_over<R: Source>(
    task: &Task,
    input: &mut R,
    mut output: ScriptOut,
    mut errors: ScriptOut,
) -> Ran {
    let (w, e) = (&mut output, &mut errors);
    let outcome = match task.command {
        Command::Ls => list(task.alloc, input, w, e),
        Command::Dump => run_dump(task.alloc, input, w, e, &task.b, &task.d),
        Command::Encode => run_encode(task.alloc, input, w, e, &task.b, &task.d),
        Command::EncodeIn(form) => {
            run_encode_form(task.alloc, input, w, e, &task.b, &task.d, form)
        }
    };
    Ran {
        outcome,
        output,
        errors,
    }
}

/// Returns a writer with space for `room` octets that accepts at most `step` octets per write.
/// `end` specifies how the writer behaves when it is full or flushed.
pub(crate) fn writer(rt: &impl Runtime, step: usize, (room, end): (usize, End)) -> ScriptOut {
    assert!(rt; step > 0);
    ok(rt, ScriptOut::new(rt.alloc(), room, step, end))
}

/// The behavior of the reader and the writers in a run.
#[derive(Clone, Copy)]
pub(crate) struct Devices {
    /// The maximum number of octets that a read returns or a write accepts.
    pub(crate) step: usize,
    /// The offset at which reads begin to fail, if any.
    pub(crate) fails_at: Option<usize>,
    /// The output's capacity in octets, and its behavior when it is full or flushed.
    pub(crate) output: (usize, End),
    /// The error output's capacity in octets, and its behavior when it is full or flushed.
    pub(crate) errors: (usize, End),
}

/// Returns devices whose writers have space for 65,536 octets each.
pub(crate) fn roomy(step: usize) -> Devices {
    Devices {
        step,
        fails_at: None,
        output: (65_536, End::Fail),
        errors: (65_536, End::Fail),
    }
}

/// Runs the command in `task`, with a reader and writers that behave as `devices` specifies.
fn run_on(rt: &impl Runtime, task: &Task, input: &[u8], devices: Devices) -> Ran {
    assert!(rt; devices.step > 0);
    let mut r = ScriptIn::new(input, devices.step, devices.fails_at);
    let w = writer(rt, devices.step, devices.output);
    let e = writer(rt, devices.step, devices.errors);
    run_over(task, &mut r, w, e)
}

/// Runs a command with the given input, and with outputs that have space for 65,536 octets each.
pub(crate) fn run_whole(rt: &impl Runtime, command: Command, input: &[u8]) -> Ran {
    run_on(rt, &Task::new(rt, command), input, roomy(4096))
}

pub(crate) fn assert_ran(rt: &impl Runtime, task: &Task, run: Run<'_>, devices: Devices) {
    let index = devices.fails_at.unwrap_or(devices.step);
    run_on(rt, task, run.input, devices).assert(rt, run, index)
}

pub(crate) fn assert_run(rt: &impl Runtime, run: Run<'_>) {
    let task = Task::new(rt, run.command);
    for step in [1, 3, 7, 4096] {
        assert_ran(rt, &task, run, roomy(step));
    }
}

/// Checks the result of a run whose output and error output have limited space. If the fault lines
/// do not fit in the error output, the output must be exactly `before`.
fn assert_room<'a>(
    rt: &impl Runtime,
    task: &Task,
    run: Run<'a>,
    before: &'a [u8],
    (output, errors): ((usize, End), (usize, End)),
) {
    let (first, second) = (output.0 < run.output.len(), errors.0 < run.errors.len());
    let fails = first || second || output.1 == End::Flush || errors.1 == End::Flush;
    let whole = run.output.get(..output.0).unwrap_or(run.output);
    let wanted = Run {
        output: if second { before } else { whole },
        errors: run.errors.get(..errors.0).unwrap_or(run.errors),
        outcome: if fails {
            Err(RunFault::Write)
        } else {
            run.outcome
        },
        ..run
    };
    let devices = Devices {
        output,
        errors,
        ..roomy(5)
    };
    run_on(rt, task, run.input, devices).assert(rt, wanted, output.0.saturating_add(errors.0))
}

/// Checks the results of runs whose output has limited space. When the output is full, a write
/// fails or writes nothing, and in some runs a flush also fails. The run must write as much of the
/// output as fits.
pub(crate) fn assert_stops_at_output(rt: &impl Runtime, run: Run<'_>) {
    let (task, errors) = (Task::new(rt, run.command), (run.errors.len(), End::Fail));
    for room in 0..run.output.len().saturating_add(1) {
        for end in [End::Fail, End::Zero, End::Flush] {
            assert_room(rt, &task, run, b"", ((room, end), errors));
        }
    }
}

/// Checks the results of runs whose error output has limited space. When the error output is full,
/// a write fails or writes nothing, and in some runs a flush also fails. The run must write as much
/// of the error output as fits. The output must be exactly `before`, or the complete output if all
/// fault lines fit.
pub(crate) fn assert_stops_at_errors(rt: &impl Runtime, run: Run<'_>, before: &[u8]) {
    let (task, output) = (Task::new(rt, run.command), (run.output.len(), End::Fail));
    for room in 0..run.errors.len().saturating_add(1) {
        for end in [End::Fail, End::Zero, End::Flush] {
            assert_room(rt, &task, run, before, (output, (room, end)));
        }
    }
}

/// Asserts that the run fails with fault 71 if everything is written, but the output or the error
/// output cannot be flushed.
pub(crate) fn assert_fails_to_flush(rt: &impl Runtime, run: Run<'_>) {
    let task = Task::new(rt, run.command);
    let (flushed, unflushed) = ((65_536, End::Fail), (65_536, End::Flush));
    assert_room(rt, &task, run, b"", (unflushed, flushed));
    assert_room(rt, &task, run, b"", (flushed, unflushed));
}

/// Asserts that a failed read at the given offset stops the run.
fn assert_read_fails(rt: &impl Runtime, task: &Task, run: Run<'_>, place: usize) {
    let outcome = Err(RunFault::Read);
    for step in [1, 7] {
        let devices = Devices {
            fails_at: Some(place),
            ..roomy(step)
        };
        assert_ran(rt, task, Run { outcome, ..run }, devices);
    }
}

/// Asserts that if a read fails or is interrupted, the output contains the results for every
/// complete message or document. The input consists of two messages or documents of the same
/// length, and `first` is the expected output for the first one.
pub(crate) fn assert_stops_at_reads(rt: &impl Runtime, run: Run<'_>, first: &[u8]) {
    let task = Task::new(rt, run.command);
    let (half, whole) = (run.input.len() / 2, run.input.len());
    for place in 0..whole.saturating_add(1) {
        let output = if place == whole {
            run.output
        } else if place < half {
            b""
        } else {
            first
        };
        assert_read_fails(rt, &task, Run { output, ..run }, place);
        if place < 2 || place == half.saturating_sub(1) || place == half || place == whole {
            assert_read_interrupted(rt, &task, Run { output, ..run }, place);
        }
    }
}

/// A reader that returns `prefix` and is then interrupted once. The reader records whether it is
/// read again.
#[derive(Drop)]
struct Interrupted<'a> {
    prefix: &'a [u8],
    rest: &'a [u8],
    interrupted: &'a Cell<bool>,
    tried_again: &'a Cell<bool>,
}

impl<'a> Read for Interrupted<'a> {
    fn read(&mut self, buf: &mut [u8]) -> io::Result<usize> {
        if !self.prefix.is_empty() {
            return self.prefix.read(buf);
        }
        if self.interrupted.get() {
            self.tried_again.set(true);
            return self.rest.read(buf);
        }
        self.interrupted.set(true);
        Err(ErrorKind::Interrupted.into())
    }
}

/// Asserts that an interrupted read is not retried and, like a failed read, stops the run.
fn assert_read_interrupted(rt: &impl Runtime, task: &Task, run: Run<'_>, place: usize) {
    let (interrupted, tried_again) = (Cell::new(false), Cell::new(false));
    let mut r = Device::new(Interrupted {
        prefix: some(rt, run.input.get(..place)),
        rest: some(rt, run.input.get(place..)),
        interrupted: &interrupted,
        tried_again: &tried_again,
    });
    let w = writer(rt, 7, (4096, End::Fail));
    let e = writer(rt, 7, (0, End::Fail));
    let outcome = Err(RunFault::Read);
    run_over(task, &mut r, w, e).assert(rt, Run { outcome, ..run }, place);
    let notes = (interrupted.get(), tried_again.get());
    assert_same(rt, &notes, &(true, false), &place)
}

/// Asserts that a message is rejected no matter where it is cut off, or ignored if fewer than four
/// octets remain.
pub(crate) fn assert_cut_anywhere(rt: &impl Runtime, command: Command, name: &str, whole: &[u8]) {
    for length in 0..whole.len() {
        let prefix = whole.get(..length).unwrap_or(b"");
        let run = refused(command, name, prefix, b"offset 0: 1 cut\n");
        let none = run.counting(0, 0).with_errors(b"");
        assert_run(rt, if length < 4 { none } else { run });
    }
}

/// Checks the results of runs whose input consists of `STRAY`, a message, and zeros (64 octets in
/// total).
///
/// The run must read the last octet before it can determine that `STRAY` does not begin a message.
/// The run then writes the fault line for `STRAY` before it writes the output.
pub(crate) fn assert_stops_after_a_stray(
    rt: &impl Runtime,
    command: Command,
    message: &[u8],
    output: &[u8],
) {
    let mut input = joined(rt, &[STRAY, message]);
    ok(rt, input.resize(64, 0));
    let undecided = accepted(command, "stray", &input, b"");
    let run = Run {
        output,
        ..undecided.counting(1, 1)
    };
    let run = run.with_errors(b"offset 0: 3 no end\n");
    assert_stops_at_output(rt, run);
    assert_stops_at_errors(rt, run, b"");
    let task = Task::new(rt, command);
    for place in 0..64 {
        assert_read_fails(rt, &task, undecided, place);
    }
    assert_read_fails(rt, &task, run, 64)
}

/// A writer that counts its writes and their octets, and records whether any write ended without a
/// line feed.
#[derive(Drop)]
pub(crate) struct Watched<'a> {
    pub(crate) octets: &'a Cell<usize>,
    pub(crate) writes: &'a Cell<usize>,
    pub(crate) torn: &'a Cell<bool>,
}

impl<'a> Write for Watched<'a> {
    fn write(&mut self, buf: &[u8]) -> io::Result<usize> {
        self.octets.set(self.octets.get().saturating_add(buf.len()));
        self.writes.set(self.writes.get().saturating_add(1));
        self.torn.set(self.torn.get() || !buf.ends_with(b"\n"));
        Ok(buf.len())
    }

    fn flush(&mut self) -> io::Result<()> {
        Ok(())
    }
}
