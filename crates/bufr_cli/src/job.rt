//! Defines and parses the command line.
ghost use Rattle.std.specs.Prelude.{◌≡◌, [], IfErr, IfNone, IfOk, IfSome, codes, map, false, Some};
ghost use Rattle.clap.specs.declared.builder.command.Command.TheViews.{out-Command};
ghost use Rattle.clap.specs.Words.{app_of, fault_of, first_of, found_of, new_app, new_rule, rows_of, rule_of, subcommand_of, with_rule, with_subcommand};
ghost use Rattle.bufr_cli.specs.declared.job.LineFault.TheVariants.{Memory};
ghost use Rattle.bufr_text.specs.declared.encode.Form.{Form};
ghost use Rattle.bufr_cli.specs.Prelude.{bufr_app, form_rule, name_of, no_job_text, table_rule, tables_app, top_app, word_of, AreNamed, HasTables, IsJobOf, IsWhyNoJob, SaysWhy};

use bufr_text::Form;
use clap::error::ErrorKind;
use clap::{Arg, ArgMatches};
use std::alloc::{AllocError, Global};
use std::convert::AsStr;

/// The names of the files that contain Tables B and D.
#[derive(Clone, Copy, Debug, PartialEq, Eq)]
pub struct TableNames<'a> {
    /// The value of `-B`.
    pub table_b: &'a str,
    /// The value of `-D`.
    pub table_d: &'a str,
}

/// The subcommands of `bufr`.
#[derive(Clone, Copy, Debug, PartialEq, Eq)]
pub enum Subcommand<'a> {
    /// The command `bufr ls`, which lists the messages.
    Ls,
    /// The command `bufr dump`, which writes the messages as text, using the tables in the given
    /// files.
    Dump(TableNames<'a>),
    /// The command `bufr encode`, which encodes documents as messages in the given form, using the
    /// tables in the given files.
    Encode(TableNames<'a>, Form),
}

/// The subcommand and the input file that a command line specifies.
#[derive(Clone, Copy, Debug)]
pub struct Job<'a> {
    /// The subcommand.
    pub command: Subcommand<'a>,
    /// The name of the input file, or `None` for standard input.
    pub file: Option<&'a str>,
}

/// The reason why [`parse_line`] did not return a job.
#[derive(Debug, Drop, thiserror::Error)]
pub enum LineFault {
    /// The command line requests help or the version. This variant contains the text to print on
    /// standard output.
    #[error("help was asked for")]
    Help(String),
    /// The command line is invalid. This variant contains the text to print on standard error.
    #[error("the command line is not understood")]
    Usage(String),
    /// Memory ran out.
    #[error("out of memory")]
    Memory,
}

/// The version that `bufr --version` prints.
const VERSION: &str = "0.1.0";

/// The notes at the end of the program's help text.
const PROGRAM_NOTES: &str = "\
Exit status:
  0  no faults were reported
  1  a message or a document was rejected, or the input contained a stray (an
     occurrence of BUFR that is not the start of a complete message)
  2  the command line or a table was invalid, a file could not be opened,
     reading or writing failed, or memory ran out

Examples:
  bufr ls bulletins.bufr
  bufr dump -B B.csv -D D.csv bulletins.bufr > bulletins.txt
  bufr encode -B B.csv -D D.csv bulletins.txt > again.bufr";

/// The notes at the end of the help text for `ls`.
const LS_NOTES: &str = "\
Each line on standard output describes one message.
Each line on standard error reports one fault. For a fault in the stream, it
also gives the byte offset. Fault numbers:
  1-3    an occurrence of BUFR that does not start a complete message (a stray)
  10     an edition other than 3 or 4
  11-13  invalid section lengths
  14     an edition 3 message that is too long to re-encode
  70-73  a read error, a write error, too much input, or not enough memory

Exit status:
  0  no faults were reported
  1  a message was rejected, or the input contained a stray
  2  the command line was invalid, the file could not be opened, reading or
     writing failed, or memory ran out

Example:
  bufr ls bulletins.bufr 2> faults.txt";

/// The notes at the end of the help text for `dump`.
const DUMP_NOTES: &str = "\
Every message is printed on standard output unless it has a fault.
Each line on standard error reports one fault. For a fault in the stream, it
also gives the byte offset. Fault numbers:
  1-3    an occurrence of BUFR that does not start a complete message (a stray)
  10     an edition other than 3 or 4
  11-13  invalid section lengths
  14     an edition 3 message that is too long to re-encode
  20-28  an unknown or unsupported descriptor, or an invalid descriptor list
  30-35  data that does not match the descriptors
  40-45  an invalid table (bufr checks the tables before it opens the input)
  70-73  a read error, a write error, too much input, or not enough memory

The first line of each table contains the column names:
  B  fxy,name,unit,scale,reference,width
  D  fxy,member

WMO's tables are in share/bufr/tables under the directory where bufr was
installed. Use the table set (a directory with both tables) for the version that
bufr ls prints: for example, tables=0/24/0 means version 24, so use the set
wmo-37. If you use the wrong tables, values can be wrong even though no fault is
reported. The bufr-auto script chooses the table set for each message.

Exit status:
  0  no faults were reported
  1  a message was rejected, or the input contained a stray
  2  the command line or a table was invalid, a file could not be opened,
     reading or writing failed, or memory ran out

Example:
  bufr dump -B B.csv -D D.csv bulletins.bufr > bulletins.txt";

/// The notes at the end of the help text for `encode`.
const ENCODE_NOTES: &str = "\
Each document (the dump of one message) is encoded as soon as it is complete.
bufr stops at the first invalid document and writes nothing for that document.
Each line on standard error reports one fault. For a fault in the dump, it also
gives the line number. Fault numbers:
  50     a line that is invalid, misplaced or too long, or a missing end line
  51     an unexpected item, a missing item, or too many items
  52-55  an invalid value
  56     an unknown or unsupported descriptor, or an invalid descriptor list
  57     an incorrect subset number, or the wrong number of subsets
  58-59  data that cannot be compressed
  60-61  a message that is too long, or a header value that is out of range
  62     data that would cause fault 31, 32 or 35 when the message is decoded
  40-45  an invalid table (bufr checks the tables before it opens the input)
  70-73  a read error, a write error, too much input, or not enough memory

The first line of each table contains the column names:
  B  fxy,name,unit,scale,reference,width
  D  fxy,member

Use the same tables that were used to make the dump.

With --form, bufr encodes every message in the given form, regardless of what
its document specifies. Data cannot be compressed if replication factors differ
between subsets (fault 58). Strings that differ between subsets cannot be
compressed if any of them is longer than 63 bytes, not counting trailing spaces
(fault 59). Reference values that differ between subsets cannot be compressed at
all (also fault 59). With --form plain, a message can become too long (fault
60).

Exit status:
  0  no faults were reported
  1  a document was rejected
  2  the command line or a table was invalid, a file could not be opened,
     reading or writing failed, or memory ran out

Examples:
  bufr encode -B B.csv -D D.csv bulletins.txt > bulletins.bufr
  bufr dump -B B.csv -D D.csv plain.bufr |
    bufr encode -B B.csv -D D.csv --form compressed > compressed.bufr";

impl From<AllocError> for LineFault {
    ghost from_gives = { λ _ e. e ≡ Memory };

    fn from(_fault: AllocError) -> LineFault {
        LineFault::Memory
    }
}

/// Creates a command with the given name and description. Its help text ends with `notes`.
fn named_command<'a>(
    alloc: Global,
    name: &'a str,
    about: &'a str,
    notes: &'a str,
) -> clap::Command<'a>
    ensures app { app_of result ≡ new_app name.entry.now }
    ensures local { (out-Command result).has_globals ≡ false }
{
    clap::Command::new(alloc, name)
        .about(about)
        .after_help(notes)
}

/// Creates the argument that names the input file. `help` describes the argument in the help text.
fn file_argument<'a>(alloc: Global, help: &'a str) -> Arg<'a>
    ensures rule { rule_of result ≡ new_rule (codes "FILE") }
    ensures global { result.global ≡ false }
{
    Arg::new(alloc, "FILE").help(help)
}

/// Creates a required one-letter option that names a table file. `help` describes the option in the
/// help text.
fn table_option<'a>(alloc: Global, id: &'a str, letter: char, help: &'a str) -> Arg<'a>
    ensures rule { rule_of result ≡ table_rule id.entry.now letter }
    ensures global { result.global ≡ false }
{
    Arg::new(alloc, id)
        .short(letter)
        .value_name("FILE")
        .required(true)
        .help(help)
}

/// Creates a command with the options and arguments `-B FILE -D FILE [FILE]`.
fn command_with_tables<'a>(
    alloc: Global,
    name: &'a str,
    about: &'a str,
    notes: &'a str,
    file: &'a str,
) -> Result<clap::Command<'a>, AllocError>
    ensures app { IfOk result (λ c. app_of c ≡ tables_app name.entry.now) }
    ensures local { IfOk result (λ c. (out-Command c).has_globals ≡ false) }
{
    let table_b = table_option(alloc, "B", 'B', "CSV file with Table B (the elements)");
    let command = named_command(alloc, name, about, notes).arg(table_b)?;
    let table_d = table_option(alloc, "D", 'D', "CSV file with Table D (the sequences)");
    let command = command.arg(table_d)?;
    command.arg(file_argument(alloc, file))
}

/// Creates the command `bufr encode -B FILE -D FILE [--form WORD] [FILE]`.
fn encode_command<'a>(alloc: Global) -> Result<clap::Command<'a>, AllocError>
    ensures app { IfOk result (λ c. app_of c ≡ with_rule (tables_app (codes "encode")) form_rule) }
    ensures local { IfOk result (λ c. (out-Command c).has_globals ≡ false) }
{
    let about = "Encode the messages in a dump";
    let file = "Dump to encode (default: standard input)";
    let command = command_with_tables(alloc, "encode", about, ENCODE_NOTES, file)?;
    let form = Arg::new(alloc, "form").long("form").value_name("WORD").help(
        "plain or compressed (default: as each document specifies)",
    );
    command.arg(form)
}

/// Creates the command `bufr` with `ls` as its only subcommand.
fn top_command<'a>(alloc: Global) -> Result<clap::Command<'a>, AllocError>
    ensures { IfOk result (λ c. app_of c ≡ with_subcommand top_app
        (with_rule (new_app (codes "ls")) (new_rule (codes "FILE"))).top) }
{
    let about = "List, dump and encode FM 94 BUFR messages";
    let command = named_command(alloc, "bufr", about, PROGRAM_NOTES).bin_name("bufr")?;
    let command = command.version(VERSION).subcommand_required(true);
    let file = file_argument(alloc, "File to list (default: standard input)");
    let ls = named_command(alloc, "ls", "List the messages, one per line", LS_NOTES).arg(file)?;
    command.subcommand(ls)
}

/// Creates the command `bufr` with all its subcommands.
// rule: version, one-file
fn command_line<'a>(alloc: Global) -> Result<clap::Command<'a>, AllocError>
    ensures { IfOk result (λ c. app_of c ≡ bufr_app) }
{
    let command = top_command(alloc)?;
    let about = "Print each message as text";
    let file = "File to dump (default: standard input)";
    let dump = command_with_tables(alloc, "dump", about, DUMP_NOTES, file)?;
    let command = command.subcommand(dump)?;
    command.subcommand(encode_command(alloc)?)
}

fn tables_of<'a>(found: &ArgMatches<'a>) -> Option<TableNames<'a>>
    ensures names { IfSome result (AreNamed (rows_of (found_of found.now))) }
    ensures lacks { IfNone result
        ((tables : TableNames) → ¬ AreNamed (rows_of (found_of found.now)) tables) }
{
    let table_b = found.get_str("B")?;
    let table_d = found.get_str("D")?;
    Some(TableNames { table_b, table_d })
}

// rule: form-words
fn form_named(word: &str) -> Option<Form>
    ensures named { IfSome result (λ form. word_of form ≡ Some word.now) }
    ensures lacks { IfNone result ((form : Form) → ¬ (word_of form ≡ Some word.now)) }
{
    if word == "plain" {
        return Some(Form::Plain);
    }
    if word == "compressed" {
        return Some(Form::Compressed);
    }
    None
}

fn form_of(found: &ArgMatches<'_>) -> Option<Form>
    ensures named { IfSome result
        (λ form. word_of form ≡ first_of (codes "form") (rows_of (found_of found.now))) }
    ensures lacks { IfNone result
        ((form : Form) → ¬ (word_of form ≡ first_of (codes "form") (rows_of (found_of found.now)))) }
{
    match found.get_str("form") {
        None => Some(Form::AsWritten),
        Some(word) => form_named(word),
    }
}

/// The reason why `bufr` rejects arguments that clap accepted. In practice, clap catches the first
/// two cases, but the code must still handle them. The third case can occur because clap does not
/// check the name of the form.
#[derive(Clone, Copy, Debug, PartialEq, Eq)]
enum NoJob {
    /// No subcommand has the given name.
    UnknownCommand,
    /// A required table is missing.
    MissingTable,
    /// No form has the given name.
    UnknownForm,
}

impl NoJob {
    fn text(self) -> &'static str
        ensures { result.now ≡ no_job_text self }
    {
        match self {
            NoJob::UnknownCommand => "error: no command\n",
            NoJob::MissingTable => "error: -B or -D is missing\n",
            NoJob::UnknownForm => {
                "error: invalid value for '--form <WORD>'\n  [possible values: plain, compressed]\n\nFor more information, try '--help'.\n"
            }
        }
    }
}

/// Returns the subcommand with the given name, along with its table files and its form, if any.
fn command_of<'a>(name: &str, found: &ArgMatches<'a>) -> Result<Subcommand<'a>, NoJob>
    ensures name { IfOk result (λ command. name.now ≡ name_of command) }
    ensures tables { IfOk result (HasTables (rows_of (found_of found.now))) }
    ensures lacks { IfErr result (IsWhyNoJob name.now (rows_of (found_of found.now))) }
{
    if name == "ls" {
        return Ok(Subcommand::Ls);
    }
    if name == "dump" {
        let Some(tables) = tables_of(found) else {
            return Err(NoJob::MissingTable);
        };
        return Ok(Subcommand::Dump(tables));
    }
    if name == "encode" {
        let Some(tables) = tables_of(found) else {
            return Err(NoJob::MissingTable);
        };
        let Some(form) = form_of(found) else {
            return Err(NoJob::UnknownForm);
        };
        return Ok(Subcommand::Encode(tables, form));
    }
    Err(NoJob::UnknownCommand)
}

/// Parses a command line. The first word is the name of the program.
///
/// ```
/// let words = ["bufr", "ls", "bulletins.bufr"];
/// let job = parse_line(rt.alloc(), words.as_slice())?;
/// assert!(rt; job.command == Subcommand::Ls && job.file == Some("bulletins.bufr"));
/// ```
///
/// # Errors
///
/// [`LineFault::Help`] if help or the version is requested. [`LineFault::Usage`] if clap rejects
/// the command line, if the subcommand or a table is missing, or if the form is unknown.
/// [`LineFault::Memory`] if memory runs out.
// rule: help, usage
pub fn parse_line<'a, S: AsStr>(alloc: Global, words: &'a [S]) -> Result<Job<'a>, LineFault>
    ensures job { IfOk result
        (λ job. IsJobOf (subcommand_of bufr_app (map S.text words.entry.now)) job) }
    ensures accepted { IfOk result (λ _.
        fault_of bufr_app (map S.text words.entry.now) ≡ []) }
    // Help is returned only if clap's rules produce help for the command line. A usage fault is
    // returned only if those rules reject the command line, or if the command line does not specify
    // a job.
    ensures fault { IfErr result (SaysWhy (fault_of bufr_app (map S.text words.entry.now))
        (subcommand_of bufr_app (map S.text words.entry.now))) }
{
    let command = command_line(alloc)?;
    let matches = match command.try_get_matches_from(words) {
        Ok(matches) => matches,
        Err(error) => {
            if error.kind() == ErrorKind::OutOfMemory {
                return Err(LineFault::Memory);
            }
            let text = format!(in alloc; "{error}")?;
            if error.use_stderr() {
                return Err(LineFault::Usage(text));
            }
            return Err(LineFault::Help(text));
        }
    };
    match matches.subcommand() {
        Some((name, found)) => match command_of(name, found) {
            Ok(command) => Ok(Job {
                command,
                file: found.get_str("FILE"),
            }),
            Err(why) => Err(LineFault::Usage(String::from_str(alloc, why.text())?)),
        },
        None => {
            let text = NoJob::UnknownCommand.text();
            Err(LineFault::Usage(String::from_str(alloc, text)?))
        }
    }
}
