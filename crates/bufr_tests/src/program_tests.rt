//! Tests for parsing command lines and for running the program with inputs in memory.

use crate::messages::{ONE_BLOCK_NUMBER, line_of_one, table_b, table_d, text_of_one};
use crate::runs::writer;
use crate::support::{Runtime, assert_same, assert_that, joined, ok};
use bufr_bits::{Device, End, ScriptIn, ScriptOut, Sink};
use bufr_cli::{
    BUFFERED, Buffered, Inputs, LineFault, OpenFault, Subcommand, TableNames, parse_line, read_all,
    run,
};
use bufr_frame::RunFault;
use bufr_text::Form;
use std::alloc::{AllocError, Global};
use std::cell::Cell;
use std::io::{self, ErrorKind, Read, Write};

/// Returns a command line that consists of the program's name, a command and its arguments.
fn line_of(
    rt: &impl Runtime,
    command: &'static str,
    arguments: &'static [&'static str],
) -> Vec<&'static str> {
    let mut words = Vec::new(rt.alloc());
    ok(rt, words.extend_from_slice(&["bufr", command]));
    ok(rt, words.extend_from_slice(arguments));
    words
}

fn assert_parsed(rt: &impl Runtime, words: &[&str], command: Subcommand<'_>, file: Option<&str>) {
    let job = ok(rt, parse_line(rt.alloc(), words));
    assert_that(rt, job.command == command, &words);
    assert_that(rt, job.file == file, &words);
}

const TABLES: TableNames<'static> = TableNames {
    table_b: "b.csv",
    table_d: "d.csv",
};

// Arguments of a command that needs tables, each with the expected FILE. The expected tables are
// the same in every row.
#[rattlefmt::skip]
static ARGUMENTS: &[(&[&str], Option<&str>)] = &[
    (&["-B", "b.csv", "-D", "d.csv"], None),
    (&["-B", "b.csv", "-D", "d.csv", "x.bufr"], Some("x.bufr")),
    (&["x.bufr", "-D", "d.csv", "-B", "b.csv"], Some("x.bufr")),
    (&["-Bb.csv", "x.bufr", "-D=d.csv"], Some("x.bufr")),
    (&["-B", "b.csv", "-D", "d.csv", "--", "-B"], Some("-B")),
];

// Lists of arguments for `encode`, each with the form that it specifies.
#[rattlefmt::skip]
static FORMS: &[(&[&str], Form)] = &[
    (&["-B", "b.csv", "-D", "d.csv", "--form", "plain"], Form::Plain),
    (&["--form=compressed", "-B", "b.csv", "-D", "d.csv"], Form::Compressed),
];

#[test]
// rule: form-words
fn parses_command_lines(rt: HostRuntime) {
    let (none, one) = (["bufr", "ls"], ["bufr", "ls", "bulletins.bufr"]);
    assert_parsed(&rt, none.as_slice(), Subcommand::Ls, None);
    assert_parsed(&rt, one.as_slice(), Subcommand::Ls, Some("bulletins.bufr"));
    let encode = Subcommand::Encode(TABLES, Form::AsWritten);
    for (arguments, file) in ARGUMENTS {
        let words = line_of(&rt, "dump", *arguments);
        assert_parsed(&rt, words.as_slice(), Subcommand::Dump(TABLES), *file);
        let words = line_of(&rt, "encode", *arguments);
        assert_parsed(&rt, words.as_slice(), encode, *file);
    }
    for (arguments, form) in FORMS {
        let words = line_of(&rt, "encode", *arguments);
        let encode = Subcommand::Encode(TABLES, *form);
        assert_parsed(&rt, words.as_slice(), encode, None);
    }
}

/// Returns the usage error for an invalid command line.
fn usage_of(rt: &impl Runtime, words: &[&str]) -> String {
    match parse_line(rt.alloc(), words) {
        Err(LineFault::Usage(text)) => text,
        _ => panic!(rt; "{words:?} gave no usage fault"),
    }
}

fn assert_usage(rt: &impl Runtime, words: &[&str], part: &str) {
    let text = usage_of(rt, words);
    assert_that(rt, text.as_str().contains(part), &text);
}

// Invalid command lines, each with a part of the expected usage error.
#[rattlefmt::skip]
static MISTAKEN: &[(&[&str], &str)] = &[
    (&["bufr"], "Usage: bufr <COMMAND>"),
    (&["/usr/bin/other"], "Usage: bufr <COMMAND>"),
    (&["bufr", "ls", "--long"], "unexpected argument '--long' found"),
    (&["bufr", "ls", "-B", "b.csv"], "unexpected argument '-B' found"),
    (&["bufr", "dump", "-B", "b", "-D", "d", "--form", "plain"], "unexpected argument '--form' found"),
    (&["bufr", "encode", "-B", "b", "-D", "d", "--form", "plain", "--form", "plain"], "cannot be used multiple times"),
];

// Invalid values of the option `--form`.
static NO_FORMS: &[&str] = &["other", "", "Plain", "plain ", "compress"];

#[test]
// rule: one-file, usage
fn rejects_invalid_command_lines(rt: HostRuntime) {
    for (words, part) in MISTAKEN {
        assert_usage(&rt, *words, *part);
    }
    for word in NO_FORMS {
        let words = ["bufr", "encode", "-B", "b", "-D", "d", "--form", *word];
        let part = "[possible values: plain, compressed]";
        assert_usage(&rt, words.as_slice(), part);
    }
}

// Arguments that are invalid for every command that needs tables, each with a part of the expected
// usage error.
#[rattlefmt::skip]
static MISTAKEN_ARGUMENTS: &[(&[&str], &str)] = &[
    (&["-B", "b", "-D", "d", "--long"], "unexpected argument '--long' found"),
    (&[], "required arguments were not provided:\n  -B <FILE>\n  -D <FILE>\n"),
    (&["-D", "d.csv", "-B"], "value is required"),
    (&["-B", "b", "-D", "d", "-B", "c"], "cannot be used multiple times"),
    (&["-B", "b", "-D", "d", "x", "y"], "unexpected argument 'y' found"),
];

#[test]
// rule: usage
fn rejects_invalid_arguments_for_dump_and_encode(rt: HostRuntime) {
    for (arguments, part) in MISTAKEN_ARGUMENTS {
        assert_usage(&rt, line_of(&rt, "dump", *arguments).as_slice(), *part);
        assert_usage(&rt, line_of(&rt, "encode", *arguments).as_slice(), *part);
    }
}

/// Runs the program. This function has no contract, which keeps the contract of `run` out of the
/// tests' proofs.
fn call<'a, I: Inputs, W: Sink, E: Sink>(
    alloc: Global,
    words: &'a [&'static str],
    inputs: &mut I,
    w: &mut W,
    e: &mut E,
) -> u8 {
    run(alloc, words, inputs, w, e)
}

/// Returns the text that was written to `writer`.
fn text_on<'a>(rt: &impl Runtime, writer: &'a ScriptOut) -> &'a str {
    ok(rt, str::from_utf8(writer.taken()))
}

/// The program's exit status, output and error output.
#[derive(Drop)]
struct Reply {
    status: u8,
    output: ScriptOut,
    errors: ScriptOut,
}

/// Runs the program with an output that has space for 4,096 octets. `end` specifies how the output
/// behaves when it is full or flushed.
fn reply_to<'a, I: Inputs>(
    rt: &impl Runtime,
    words: &'a [&'static str],
    inputs: &mut I,
    end: End,
) -> Reply {
    let mut output = writer(rt, 4096, (4096, end));
    let mut errors = writer(rt, 4096, (4096, End::Fail));
    let status = call(rt.alloc(), words, inputs, &mut output, &mut errors);
    Reply {
        status,
        output,
        errors,
    }
}

fn assert_contains(rt: &impl Runtime, text: &str, part: &str) {
    assert_that(rt, text.contains(part), &text);
    assert_that(rt, text.is_empty() == part.is_empty(), &text);
}

fn assert_called<'a, I: Inputs>(
    rt: &impl Runtime,
    words: &'a [&'static str],
    inputs: &mut I,
    (status, output): (u8, &[u8]),
    errors: &str,
) {
    let reply = reply_to(rt, words, inputs, End::Fail);
    assert_same(rt, &reply.status, &status, &words);
    assert_same(rt, &reply.output.taken(), &output, &words);
    assert_contains(rt, text_on(rt, &reply.errors), errors);
}

/// A file. If `torn` is set, reads fail after the last octet.
#[derive(Drop)]
struct Page<'a> {
    octets: &'a [u8],
    torn: bool,
}

impl<'a> Read for Page<'a> {
    fn read(&mut self, buf: &mut [u8]) -> io::Result<usize> {
        if self.torn && self.octets.is_empty() {
            return Err(ErrorKind::Other.into());
        }
        self.octets.read(buf)
    }
}

/// In-memory inputs (standard input, the file `one`, two valid tables, an invalid table, and two
/// files that cannot be read to the end).
#[derive(Drop)]
struct Library<'a> {
    one: &'a [u8],
    standard: &'a [u8],
}

impl<'a> Inputs for Library<'a> {
    ghost use Rattle.std.specs.Prelude.{None};

    type Standard = Device<Page<'a>>;

    type File = Device<Page<'a>>;

    ghost standard_octets = { λ _. None };

    ghost file_octets = { λ _ _. None };

    fn standard(&mut self) -> Result<Device<Page<'a>>, AllocError> {
        Ok(Device::new(Page {
            octets: self.standard,
            torn: false,
        }))
    }

    fn open(&mut self, name: &str) -> Result<Device<Page<'a>>, OpenFault> {
        let octets = match name.as_bytes() {
            b"b.csv" => table_b(),
            b"d.csv" => table_d(),
            b"cycle.csv" => b"fxy,member\n300001,300002\n300002,300001\n",
            b"one" => self.one,
            b"torn" => b"fxy",
            b"torn.bufr" => self.standard,
            _ => return Err(OpenFault::CannotOpen),
        };
        let torn = name == "torn" || name == "torn.bufr";
        Ok(Device::new(Page { octets, torn }))
    }
}

/// Inputs in which both standard input and the file `one` contain the message `ONE_BLOCK_NUMBER`.
const ONE: Library<'static> = Library {
    one: ONE_BLOCK_NUMBER,
    standard: ONE_BLOCK_NUMBER,
};

/// The line that the program prints if a write fails.
const WRITE_FAILED: &str = "bufr: 71 write failed\n";

fn assert_shown(rt: &impl Runtime, words: &'static [&'static str]) {
    let mut inputs = ONE;
    let reply = reply_to(rt, words, &mut inputs, End::Zero);
    assert_same(rt, &reply.status, &0, &words);
    assert_contains(rt, text_on(rt, &reply.output), "Exit status:");
    assert_same(rt, &text_on(rt, &reply.errors), &"", &words);
    let reply = reply_to(rt, words, &mut inputs, End::Flush);
    assert_same(rt, &reply.status, &2, &words);
    assert_same(rt, &text_on(rt, &reply.errors), &WRITE_FAILED, &words);
}

#[test]
// rule: status-of-help, help
fn prints_help(rt: HostRuntime) {
    assert_shown(&rt, &["bufr", "--help"]);
    assert_shown(&rt, &["bufr", "encode", "--help"]);
}

// Each row contains a command line, the exit status, the output, and a part of the error output.
#[rattlefmt::skip]
static CALLED: &[(&[&str], u8, &str, &str)] = &[
    (&["bufr", "ls", "two"], 2, "", "bufr: cannot open two\n"),
    (&["bufr", "ls", "-"], 2, "", "bufr: cannot open -\n"),
    (&["bufr"], 2, "", "Usage: bufr <COMMAND>"),
    (&["bufr", "--version"], 0, "bufr 0.1.0\n", ""),
    (&["bufr", "ls", "one", "two"], 2, "", "unexpected argument 'two' found"),
];

/// Tests command lines that do not need tables. The test file `one` contains a stray `BUFR`
/// followed by a message.
#[test]
// rule: dash-is-a-name, status-of-help, status-of-usage, version
fn runs_commands_that_need_no_tables(rt: HostRuntime) {
    let one = joined(&rt, &[b"BUFR", ONE_BLOCK_NUMBER]);
    let mut library = Library { one: &one, ..ONE };
    let (first, fourth) = (line_of_one(&rt, "0"), line_of_one(&rt, "4"));
    let words = ["bufr", "ls"];
    assert_called(
        &rt,
        words.as_slice(),
        &mut library,
        (0, first.as_bytes()),
        "",
    );
    let words = ["bufr", "ls", "one"];
    let (want, errors) = ((1, fourth.as_bytes()), "offset 0: 1 cut\n");
    assert_called(&rt, words.as_slice(), &mut library, want, errors);
    for (words, status, output, errors) in CALLED {
        assert_called(
            &rt,
            *words,
            &mut library,
            (*status, output.as_bytes()),
            *errors,
        );
    }
}

// Each row contains the arguments of a command that needs tables, the exit status, whether the
// command writes its output, and a part of the error output. For the file `one`, the error output
// depends on the command, and the row contains `None`. The program reads Table B first, then Table
// D, and then FILE.
#[rattlefmt::skip]
static RUNS: &[(&[&str], u8, bool, Option<&str>)] = &[
    (&["-B", "b.csv", "-D", "d.csv"], 0, true, Some("")),
    (&["-B", "b.csv", "-D", "d.csv", "one"], 1, true, None),
    (&["-B", "b.csv", "-D", "d.csv", "two"], 2, false, Some("bufr: cannot open two\n")),
    (&["-B", "no.csv", "-D", "none.csv"], 2, false, Some("bufr: cannot open no.csv\n")),
    (&["-B", "b.csv", "-D", "none.csv", "two"], 2, false, Some("bufr: cannot open none.csv\n")),
    (&["-B", "d.csv", "-D", "none.csv"], 2, false, Some("table B: 40 header\n")),
    (&["-B", "b.csv", "-D", "b.csv", "two"], 2, false, Some("table D: 40 header\n")),
    (&["-B", "b.csv", "-D", "cycle.csv", "two"], 2, false, Some("table D: 43 cycle 300001\n")),
    (&["-B", "torn", "-D", "none.csv"], 2, false, Some("bufr: 70 read failed\n")),
    (&["-B", "b.csv", "-D", "torn", "two"], 2, false, Some("bufr: 70 read failed\n")),
    (&["-B", "b.csv", "-D", "d.csv", "torn"], 2, false, Some("bufr: 70 read failed\n")),
    (&["-D", "d.csv"], 2, false, Some("required arguments were not provided")),
];

/// Runs a command with the arguments in each row, and checks the exit status and the output.
/// `output` is what the command writes if it completes, and `errors` is part of the error output
/// for the file `one`.
fn assert_runs(
    rt: &impl Runtime,
    runs: &[(&'static [&'static str], u8, bool, Option<&'static str>)],
    command: &'static str,
    library: &mut Library<'_>,
    (output, errors): (&[u8], &str),
) {
    for (arguments, status, written, other) in runs {
        let words = line_of(rt, command, *arguments);
        let output = if *written { output } else { b"" };
        let errors = other.unwrap_or(errors);
        assert_called(rt, words.as_slice(), library, (*status, output), errors);
    }
}

/// Tests `dump` with valid and invalid command lines. The test file `one` contains a stray `BUFR`
/// followed by a message.
#[test]
// rule: tables-before-input, table-not-read
fn runs_dump_with_valid_and_invalid_arguments(rt: HostRuntime) {
    let one = joined(&rt, &[b"BUFR", ONE_BLOCK_NUMBER]);
    let mut library = Library { one: &one, ..ONE };
    let text = text_of_one(&rt);
    let want: (&[u8], &str) = (text.as_bytes(), "offset 0: 1 cut\n");
    assert_runs(&rt, RUNS, "dump", &mut library, want)
}

/// The test file `one` contains a document followed by a misplaced line.
#[test]
// rule: tables-before-input
fn runs_encode_with_valid_and_invalid_arguments(rt: HostRuntime) {
    let text = text_of_one(&rt);
    let one = joined(&rt, &[text.as_bytes(), b"subset 1\n"]);
    let mut library = Library {
        one: &one,
        standard: text.as_bytes(),
    };
    let want = (ONE_BLOCK_NUMBER, "line 26: 50 line\n");
    assert_runs(&rt, RUNS, "encode", &mut library, want)
}

/// Runs the program with a buffered writer that flushes to `octets`. Returns the exit status.
fn status_on(
    rt: &impl Runtime,
    words: &[&'static str],
    inputs: &mut Library<'_>,
    octets: &mut Vec<u8>,
) -> u8 {
    let mut w = ok(rt, Buffered::new(rt.alloc(), BUFFERED, Device::new(octets)));
    let mut e = writer(rt, 4096, (4096, End::Fail));
    call(rt.alloc(), words, inputs, &mut w, &mut e)
}

fn assert_flushed(
    rt: &impl Runtime,
    command: &'static str,
    arguments: &'static [&'static str],
    input: &[u8],
    output: &[u8],
) {
    let words = line_of(rt, command, arguments);
    let mut torn = Library {
        one: b"",
        standard: input,
    };
    let mut octets = Vec::new(rt.alloc());
    let status = status_on(rt, words.as_slice(), &mut torn, &mut octets);
    assert_same(rt, &status, &2, &command);
    assert_same(rt, &octets.as_slice(), &output, &command);
}

/// If a read fails, the program flushes its buffered output before it drops the writer.
#[test]
fn flushes_output_if_read_fails(rt: HostRuntime) {
    let (line, text) = (line_of_one(&rt, "0"), text_of_one(&rt));
    let (line, text) = (line.as_bytes(), text.as_bytes());
    let arguments = &["-B", "b.csv", "-D", "d.csv", "torn.bufr"];
    assert_flushed(&rt, "ls", &["torn.bufr"], ONE_BLOCK_NUMBER, line);
    assert_flushed(&rt, "dump", arguments, ONE_BLOCK_NUMBER, text);
    assert_flushed(&rt, "encode", arguments, text, ONE_BLOCK_NUMBER);
}

/// A full writer that counts the calls to `write`, and the calls to `flush` after the first write.
#[derive(Drop)]
struct Full<'a> {
    calls: &'a Cell<usize>,
}

impl<'a> Write for Full<'a> {
    fn write(&mut self, _buf: &[u8]) -> io::Result<usize> {
        self.calls.set(self.calls.get().saturating_add(1));
        Err(ErrorKind::Other.into())
    }

    fn flush(&mut self) -> io::Result<()> {
        if self.calls.get() > 0 {
            self.calls.set(self.calls.get().saturating_add(1));
        }
        Ok(())
    }
}

/// Runs the program with a buffered writer of the given capacity, which flushes to a full writer.
/// After the run, flushes and drops the buffered writer. Returns the exit status.
fn status_if_full(
    rt: &impl Runtime,
    words: &[&'static str],
    inputs: &mut Library<'_>,
    capacity: usize,
    calls: &Cell<usize>,
) -> u8 {
    let full = Device::new(Full { calls });
    let mut w = ok(rt, Buffered::new(rt.alloc(), capacity, full));
    let mut e = writer(rt, 4096, (4096, End::Fail));
    let status = call(rt.alloc(), words, inputs, &mut w, &mut e);
    assert_that(rt, w.flush().is_err(), &"flush");
    assert_same(rt, &text_on(rt, &e), &WRITE_FAILED, &"errors");
    status
}

fn assert_one_call(
    rt: &impl Runtime,
    words: &[&'static str],
    inputs: &mut Library<'_>,
    capacity: usize,
) {
    let calls = Cell::new(0);
    let status = status_if_full(rt, words, inputs, capacity, &calls);
    assert_same(rt, &(status, calls.get()), &(2, 1), &capacity);
}

fn assert_tried_once(
    rt: &impl Runtime,
    command: &'static str,
    arguments: &'static [&'static str],
    standard: &[u8],
) {
    let words = line_of(rt, command, arguments);
    let mut inputs = Library { one: b"", standard };
    assert_one_call(rt, words.as_slice(), &mut inputs, 10);
    assert_one_call(rt, words.as_slice(), &mut inputs, 1000);
}

/// A failed write is never retried, not even by a later flush or when the writer is dropped.
#[test]
fn does_not_retry_failed_write(rt: HostRuntime) {
    let text = text_of_one(&rt);
    let arguments = &["-B", "b.csv", "-D", "d.csv"];
    assert_tried_once(&rt, "ls", &[], ONE_BLOCK_NUMBER);
    assert_tried_once(&rt, "dump", arguments, ONE_BLOCK_NUMBER);
    assert_tried_once(&rt, "encode", arguments, text.as_bytes());
}

/// Reads all octets of a message from a reader that returns up to seven octets at a time. If
/// `fails_at` is set, reads fail from offset `fails_at` on.
fn read_all_in_parts(rt: &impl Runtime, fails_at: Option<usize>) -> Result<Vec<u8>, RunFault> {
    let mut r = ScriptIn::new(ONE_BLOCK_NUMBER, 7, fails_at);
    read_all(rt.alloc(), &mut r)
}

#[test]
fn reads_all_octets_unless_read_fails(rt: HostRuntime) {
    let octets = ok(&rt, read_all_in_parts(&rt, None));
    assert_same(&rt, &octets.as_slice(), &ONE_BLOCK_NUMBER, &"octets");
    let torn = read_all_in_parts(&rt, Some(20));
    assert_that(&rt, matches!(torn, Err(RunFault::Read)), &"torn");
}
