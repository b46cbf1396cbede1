//! Executes a command line with the given inputs and writers. The entry point is [`run`].
ghost use Rattle.std.specs.Prelude.{◌≡◌, ◌⊎◌, ◌≤◌, ◌+◌, ◌*◌, ℕ, true, List, Option, None, [], ◌∷◌, Ok, IfOk, IfErr, IfSome, OnOk, length, map};
ghost use Rattle.bufr_bits.specs.Prelude.{counted};
ghost use Rattle.bufr_frame.specs.Prelude.{read_failures_after, MakesReads};
ghost use Rattle.bufr_tables.specs.Prelude.{Record, AreRows};
ghost use Rattle.bufr_text.specs.Prelude.{Writes};
ghost use Rattle.bufr_cli.specs.declared.program.OpenFault.TheVariants.{CannotOpen};
ghost use Rattle.bufr_cli.specs.Prelude.{LeavesDevices, CountsCalls, input_of, writer_of, writers_of, ReadsAll, EndsRun, FlushesRest, AreTables, AreUnread, IsClosed, IsUnread, CommandOutcome, InputName, Opens, RunOutcome, file_name, input_name, known_inputs, command_pieces, ran_outcome, standard_name, table_names, RunsProgram};

use crate::dump::run_dump;
use crate::encode::run_encode_form;
use crate::job::{Job, LineFault, Subcommand, TableNames, parse_line};
use crate::ls::run_ls;
use crate::outcome::{Outcome, Tally, finish};
use crate::run_pieces::flush;
use bufr_bits::{Sink, Source};
use bufr_frame::{RunFault, read_to_end};
use bufr_tables::{TableB, TableD};
use bufr_text::{Form, write_all};
use std::alloc::{AllocError, Global};
use std::convert::AsStr;
use thiserror::Error;

/// The reason why opening a file failed.
#[derive(Clone, Copy, Debug, PartialEq, Eq, Error)]
pub enum OpenFault {
    /// The file cannot be opened.
    #[error("the file cannot be opened")]
    CannotOpen,
    /// Memory ran out.
    #[error("out of memory")]
    Memory,
}

/// The inputs of the program. Each input counts its reads so that contracts can specify which read
/// failed.
pub trait Inputs {
    /// The type of the reader for standard input.
    type Standard: Source + Drop;

    /// The type of the reader for a file.
    type File: Source + Drop;

    /// The octets of standard input, if they are known.
    ghost standard_octets: { Self → Option (List ℕ) };

    /// The octets of the file with the given name, if they are known. If the octets of a file are
    /// known, the file can be opened.
    ghost file_octets: { Self → List ℕ → Option (List ℕ) };

    /// The inputs that the program has opened or tried to open so far, in order, if they are known.
    ghost opened: { Self → Option (List InputName) } = { λ _. None };

    /// Opens standard input. After this call, the contract no longer covers files, because the
    /// program opens standard input last.
    ///
    /// # Errors
    ///
    /// [`AllocError`] if memory runs out.
    fn standard(&mut self) -> Result<Self::Standard, AllocError>
        ensures octets { IfOk result
            (λ input. Self.Standard.left input ≡ standard_octets self.old) }
        ensures opens { Opens (opened self.old) (opened self.new) (standard_name ∷ []) };

    /// Opens the file with the given name.
    ///
    /// # Errors
    ///
    /// [`OpenFault::CannotOpen`] if the file cannot be opened, and [`OpenFault::Memory`] if memory
    /// runs out.
    fn open(&mut self, name: &str) -> Result<Self::File, OpenFault>
        ensures octets { IfOk result
            (λ file. Self.File.left file ≡ file_octets self.old name.now) }
        ensures unknown { IfErr result
            (λ fault. fault ≡ CannotOpen → file_octets self.old name.now ≡ None) }
        ensures opens { Opens (opened self.old) (opened self.new) (file_name name.now ∷ []) }
        ensures files { file_octets self.new ≡ file_octets self.old }
        ensures standard { standard_octets self.new ≡ standard_octets self.old };
}

/// Reads all octets from `r`.
///
/// # Errors
///
/// [`RunFault::Read`] if a read fails, [`RunFault::InputTooLong`] if the end of input is not
/// reached within 2^32 reads, and [`RunFault::Memory`] if memory runs out.
pub fn read_all<R: Source>(alloc: Global, r: &mut R) -> Result<Vec<u8>, RunFault>
    ensures read { (bs : List ℕ) × ReadsAll (R.left r.old) (R.left r.new) result bs }
    ensures failed { R.failures r.new ≡ read_failures_after (R.failures r.old) result }
    ensures reads { MakesReads (R.reads r.old) (R.reads r.new) result }
    // Every read except the last one returned at least one octet.
    ensures each { IfOk result (λ octets. (n : ℕ) × (n ≤ length octets.items + 1)
        × (R.reads r.new ≡ counted (R.reads r.old) n)
        × (R.asked r.new ≡ counted (R.asked r.old) (65536 * n))) }
{
    let mut octets = Vec::new(alloc);
    let mut reads = 0;
    read_to_end(r, &mut octets, &mut reads)?;
    Ok(octets)
}

/// Executes a command line and returns the exit status. The first word of the command line is the
/// name of the program.
///
/// The exit status is 0 if nothing was rejected (or if help or the version was written to `w`), 1
/// if anything was rejected, and 2 if the program could not complete its task. `dump` and `encode`
/// open Table B first, then Table D if Table B is valid, and then the input if both tables are
/// valid. `ls` opens only the input. Each table and each input is opened at most once.
pub fn run<'a, S: AsStr, I: Inputs, W: Sink, E: Sink>(
    alloc: Global,
    words: &'a [S],
    inputs: &mut I,
    w: &mut W,
    e: &mut E,
) -> u8
    // `RunsProgram` (specs/Program) relates the following, in this order: the words of the command
    // line, what is known about the inputs, the inputs that had been opened before and after the
    // call, the writers before and after the call, and the exit status. `known_inputs`, `input_of`
    // and `writers_of` only group ghost items.
    ensures { RunsProgram (map S.text words.entry.now)
        (known_inputs (I.standard_octets inputs.old) (I.file_octets inputs.old)
        (input_of I.Standard.Source) (input_of I.File.Source))
        (I.opened inputs.old) (I.opened inputs.new)
        (writers_of W.Sink w.old E.Sink e.old) (writers_of W.Sink w.new E.Sink e.new) result }
{
    match parse_line(alloc, words) {
        Ok(job) => {
            let outcome = run_job(alloc, job, inputs, w, e);
            finish(&outcome, e)
        }
        Err(LineFault::Help(text)) => match write_and_flush(text.as_bytes(), w) {
            Ok(()) => 0,
            Err(fault) => finish(&Outcome::Run(fault), e),
        },
        Err(LineFault::Usage(text)) => finish(&Outcome::Usage(text.as_str()), e),
        Err(LineFault::Memory) => finish(&Outcome::Run(RunFault::Memory), e),
    }
}

// rule: status-of-help
fn write_and_flush<W: Sink>(text: &[u8], w: &mut W) -> Result<(), RunFault>
    ensures writes { Writes (W.taken w.old) (W.taken w.new) text.now result }
    ensures handed { OnOk result (W.all_flushed w.new ≡ true) }
    ensures counts { CountsCalls (writer_of W.Sink w.old) (writer_of W.Sink w.new) result }
{
    write_all(text, w)?;
    flush(w)
}

/// The allocator that a command uses, and the name of the command's input file.
#[derive(Clone, Copy, Drop)]
struct Call<'a> {
    alloc: Global,
    file: Option<&'a str>,
}

/// Reads the tables that a job needs, opens its input, and then runs the job.
// rule: tables-before-input
fn run_job<'a, I: Inputs, W: Sink, E: Sink>(
    alloc: Global,
    job: Job<'a>,
    inputs: &mut I,
    w: &mut W,
    e: &mut E,
) -> Outcome<'a>
    ensures comes { CommandOutcome
        (known_inputs (I.standard_octets inputs.old) (I.file_octets inputs.old)
        (input_of I.Standard.Source) (input_of I.File.Source))
        (Opens (I.opened inputs.old) (I.opened inputs.new)) job.entry.command job.entry.file
        (writers_of W.Sink w.old E.Sink e.old) (writers_of W.Sink w.new E.Sink e.new) result }
{
    let Job { command, file } = job;
    let call = Call { alloc, file };
    match command {
        Subcommand::Ls => run_input(call, inputs, Command::Ls, w, e),
        Subcommand::Dump(names) => match read_tables(alloc, names, inputs) {
            Ok(tables) => {
                let command = Command::Dump(&tables.table_b, &tables.table_d);
                run_input(call, inputs, command, w, e)
            }
            Err(outcome) => outcome,
        },
        Subcommand::Encode(names, form) => match read_tables(alloc, names, inputs) {
            Ok(tables) => {
                let command = Command::Encode(form, &tables.table_b, &tables.table_d);
                run_input(call, inputs, command, w, e)
            }
            Err(outcome) => outcome,
        },
    }
}

fn open_file<'a, I: Inputs>(name: &'a str, inputs: &mut I) -> Result<I::File, Outcome<'a>>
    ensures file { IfOk result
        (λ file. I.File.left file ≡ I.file_octets inputs.old name.entry.now) }
    ensures closed { IfErr result (IsClosed (I.file_octets inputs.old) name.entry) }
    ensures opens { Opens (I.opened inputs.old) (I.opened inputs.new)
        (file_name name.entry.now ∷ []) }
    ensures files { I.file_octets inputs.new ≡ I.file_octets inputs.old }
    ensures standard { I.standard_octets inputs.new ≡ I.standard_octets inputs.old }
{
    match inputs.open(name) {
        Ok(file) => Ok(file),
        Err(OpenFault::CannotOpen) => Err(Outcome::CannotOpen(name)),
        Err(OpenFault::Memory) => Err(Outcome::Run(RunFault::Memory)),
    }
}

// rule: table-not-read
fn read_file<'a, I: Inputs>(
    alloc: Global,
    name: &'a str,
    inputs: &mut I,
) -> Result<Vec<u8>, Outcome<'a>>
    ensures octets { IfOk result
        (λ octets. IfSome (I.file_octets inputs.old name.entry.now) (λ text. octets.items ≡ text)) }
    ensures unread { IfErr result (λ outcome.
        IsClosed (I.file_octets inputs.old) name.entry outcome
        ⊎ IsUnread (input_of I.File.Source) (I.file_octets inputs.old name.entry.now) outcome) }
    ensures opens { Opens (I.opened inputs.old) (I.opened inputs.new)
        (file_name name.entry.now ∷ []) }
    ensures files { I.file_octets inputs.new ≡ I.file_octets inputs.old }
    ensures standard { I.standard_octets inputs.new ≡ I.standard_octets inputs.old }
{
    let mut file = match open_file(name, inputs) {
        Ok(file) => file,
        Err(outcome) => return Err(outcome),
    };
    match read_all(alloc, &mut file) {
        Ok(octets) => Ok(octets),
        Err(fault) => Err(Outcome::Run(fault)),
    }
}

/// The tables (Table B and Table D) that a command uses.
#[derive(Drop)]
struct Tables {
    table_b: TableB,
    table_d: TableD,
}

/// Reads Table B, and then Table D, from the files with the given names.
fn read_tables<'a, I: Inputs>(
    alloc: Global,
    names: TableNames<'a>,
    inputs: &mut I,
) -> Result<Tables, Outcome<'a>>
    ensures tables { IfOk result
        (λ tables. AreTables (I.file_octets inputs.old) names.entry tables.table_b tables.table_d) }
    ensures rows { IfOk result
        (λ tables. (records : List Record) × AreRows records tables.table_b) }
    ensures unread { IfErr result (AreUnread (input_of I.File.Source) (I.file_octets inputs.old)
        names.entry (Opens (I.opened inputs.old) (I.opened inputs.new))) }
    ensures opens { OnOk result (Opens (I.opened inputs.old) (I.opened inputs.new)
        (table_names names.entry)) }
    ensures files { I.file_octets inputs.new ≡ I.file_octets inputs.old }
    ensures standard { I.standard_octets inputs.new ≡ I.standard_octets inputs.old }
{
    let text = match read_file(alloc, names.table_b, inputs) {
        Ok(text) => text,
        Err(outcome) => return Err(outcome),
    };
    let table_b = match TableB::read(alloc, text.as_slice()) {
        Ok(table) => table,
        Err(fault) => return Err(Outcome::TableB(fault)),
    };
    let text = match read_file(alloc, names.table_d, inputs) {
        Ok(text) => text,
        Err(outcome) => return Err(outcome),
    };
    let table_d = match TableD::read(alloc, text.as_slice()) {
        Ok(table) => table,
        Err(fault) => return Err(Outcome::TableD(fault)),
    };
    Ok(Tables { table_b, table_d })
}

fn outcome_of<'a>(ran: Result<Tally, RunFault>) -> Outcome<'a>
    ensures { result ≡ ran_outcome ran }
{
    match ran {
        Ok(tally) => Outcome::Ran(tally),
        Err(fault) => Outcome::Run(fault),
    }
}

/// A command and the tables that it needs.
#[derive(Drop)]
enum Command<'t> {
    /// Lists the messages in an input.
    Ls,
    /// Dumps the messages in an input, using the given tables.
    Dump(&'t TableB, &'t TableD),
    /// Encodes the documents in an input as messages in the given form, using the given tables.
    Encode(Form, &'t TableB, &'t TableD),
}

/// Runs a command on a file or on standard input.
// rule: dash-is-a-name
fn run_input<'a, I: Inputs, W: Sink, E: Sink>(
    call: Call<'a>,
    inputs: &mut I,
    command: Command<'_>,
    w: &mut W,
    e: &mut E,
) -> Outcome<'a>
    ensures comes { RunOutcome (command_pieces command.entry)
        (known_inputs (I.standard_octets inputs.old) (I.file_octets inputs.old)
        (input_of I.Standard.Source) (input_of I.File.Source)) call.entry.file
        (writers_of W.Sink w.old E.Sink e.old) (writers_of W.Sink w.new E.Sink e.new) result }
    ensures opens { Opens (I.opened inputs.old) (I.opened inputs.new)
        (input_name call.entry.file ∷ []) }
{
    match call.file {
        None => match inputs.standard() {
            Ok(mut input) => outcome_of(run_source(call.alloc, command, &mut input, w, e)),
            Err(_) => Outcome::Run(RunFault::Memory),
        },
        Some(name) => match open_file(name, inputs) {
            Ok(mut input) => outcome_of(run_source(call.alloc, command, &mut input, w, e)),
            Err(outcome) => outcome,
        },
    }
}

/// Runs a command on an input, and then flushes any remaining output.
fn run_source<R: Source, W: Sink, E: Sink>(
    alloc: Global,
    command: Command<'_>,
    r: &mut R,
    w: &mut W,
    e: &mut E,
) -> Result<Tally, RunFault>
    ensures { EndsRun (command_pieces command.entry) (input_of R.Source r.old)
        (input_of R.Source r.new) (writers_of W.Sink w.old E.Sink e.old)
        (writers_of W.Sink w.new E.Sink e.new) result }
{
    let ran = run_command(alloc, command, r, w, e);
    flush_rest(ran, w)
}

fn run_command<R: Source, W: Sink, E: Sink>(
    alloc: Global,
    command: Command<'_>,
    r: &mut R,
    w: &mut W,
    e: &mut E,
) -> Result<Tally, RunFault>
    ensures { LeavesDevices (command_pieces command.entry) (input_of R.Source r.old)
        (input_of R.Source r.new) (writers_of W.Sink w.old E.Sink e.old)
        (writers_of W.Sink w.new E.Sink e.new) result }
{
    match command {
        Command::Ls => run_ls(alloc, r, w, e),
        Command::Dump(table_b, table_d) => run_dump(alloc, r, w, e, table_b, table_d),
        Command::Encode(form, table_b, table_d) => {
            run_encode_form(alloc, r, w, e, table_b, table_d, form)
        }
    }
}

/// Flushes the output if the run stopped because memory ran out or the input was too long. If a
/// read failed, the output was flushed before that read.
fn flush_rest<W: Sink>(ran: Result<Tally, RunFault>, w: &mut W) -> Result<Tally, RunFault>
    ensures same { result ≡ ran }
    ensures rest { FlushesRest (writer_of W.Sink w.old) (writer_of W.Sink w.new) ran }
{
    match ran {
        Ok(_) | Err(RunFault::Read | RunFault::Write) => {}
        Err(RunFault::InputTooLong | RunFault::Memory) => {
            let _ = w.flush();
        }
    }
    ran
}
