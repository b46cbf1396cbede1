//! The outcome of a run, including its counts, exit status and last line of error output.
ghost use Rattle.std.specs.Prelude.{◌≡◌, ◌<◌, ◌-◌, ◌^◌, ◌∷◌, [], codes, decimal, ◌+◌};
ghost use Rattle.std.specs.Io.KnownBytes.{Appends};
ghost use Rattle.bufr_text.specs.Prelude.{Pushes, GrowsByPrefix};
ghost use Rattle.bufr_cli.specs.Prelude.{last_line, run_line, status_of, table_line, HasNotFailed, writer_of, tally_after};
ghost use Rattle.std.specs.List.{concat};

use bufr_bits::Sink;
use bufr_frame::RunFault;
use bufr_tables::TableFault;
use bufr_text::LineWriter;

/// The size, in octets, of the block in which a line is assembled. A longer line is written in
/// several parts.
const LINE: usize = 320;

/// The outcome of running the program.
#[derive(Clone, Copy, Debug)]
pub enum Outcome<'a> {
    /// The run completed.
    Ran(Tally),
    /// The command line is invalid. This variant contains the error message.
    Usage(&'a str),
    /// The file with the given name cannot be opened.
    CannotOpen(&'a str),
    /// Reading Table B failed with the given fault.
    TableB(TableFault),
    /// Reading Table D failed with the given fault.
    TableD(TableFault),
    /// The run stopped because of the given fault.
    Run(RunFault),
}

// rule: status-0-and-1
fn status(outcome: &Outcome<'_>) -> u8
    ensures { result ≡ status_of outcome.now }
{
    match outcome {
        Outcome::Ran(tally) if tally.refused == 0 => 0,
        Outcome::Ran(_) => 1,
        _ => 2,
    }
}

fn push_numbered<E: Sink>(line: &mut LineWriter<'_, '_, E>, name: &[u8], number: u8, text: &[u8])
    ensures { Pushes line.old (concat (name.now ∷ decimal number ∷ codes " " ∷ text.now ∷ []))
        line.new }
{
    line.push(name);
    line.push_decimal(u64::from(number));
    line.push(b" ");
    line.push(text);
}

// rule: fault-70, fault-71, fault-72, fault-73
fn push_run_fault<E: Sink>(line: &mut LineWriter<'_, '_, E>, fault: RunFault)
    ensures { Pushes line.old (run_line fault) line.new }
{
    let number = fault.number();
    match fault {
        RunFault::Read => push_numbered(line, b"bufr: ", number, b"read failed\n"),
        RunFault::Write => push_numbered(line, b"bufr: ", number, b"write failed\n"),
        RunFault::InputTooLong => push_numbered(line, b"bufr: ", number, b"input too long\n"),
        RunFault::Memory => push_numbered(line, b"bufr: ", number, b"out of memory\n"),
    }
}

// rule: status-of-table, fault-73
fn push_table_fault<E: Sink>(line: &mut LineWriter<'_, '_, E>, table: &[u8], fault: &TableFault)
    ensures { Pushes line.old (table_line table.now fault.now) line.new }
{
    let number = fault.number();
    match fault {
        TableFault::Header => push_numbered(line, table, number, b"header\n"),
        TableFault::Row(record) => {
            push_numbered(line, table, number, b"row ");
            line.push_decimal(*record);
            line.push(b"\n");
        }
        TableFault::Duplicate(fxy) => {
            push_numbered(line, table, number, b"duplicate ");
            line.push(&fxy.text());
            line.push(b"\n");
        }
        TableFault::Cycle(fxy) => {
            push_numbered(line, table, number, b"cycle ");
            line.push(&fxy.text());
            line.push(b"\n");
        }
        TableFault::TableSize => push_numbered(line, table, number, b"table size\n"),
        TableFault::Csv => push_numbered(line, table, number, b"csv\n"),
        TableFault::Memory => push_run_fault(line, RunFault::Memory),
    }
}

/// Pushes the usage error or the reason why the run did not complete, or nothing if it completed.
// rule: status-of-usage, status-of-open
fn push_last<E: Sink>(line: &mut LineWriter<'_, '_, E>, outcome: &Outcome<'_>)
    ensures { Pushes line.old (last_line outcome.now) line.new }
{
    match outcome {
        Outcome::Ran(_) => {}
        Outcome::Usage(text) => line.push(text.as_bytes()),
        Outcome::CannotOpen(name) => {
            line.push(b"bufr: cannot open ");
            line.push(name.as_bytes());
            line.push(b"\n");
        }
        Outcome::TableB(fault) => push_table_fault(line, b"table B: ", fault),
        Outcome::TableD(fault) => push_table_fault(line, b"table D: ", fault),
        Outcome::Run(fault) => push_run_fault(line, *fault),
    }
}

/// Writes the last line of the error output to `e`, and returns the exit status.
///
/// The last line is the usage error or the reason why the run did not complete. If the run
/// completed, nothing is written. The exit status is 0 if nothing was rejected, 1 if anything was
/// rejected, and 2 if the run did not complete. A failed write does not change the exit status.
/// This function does not allocate.
pub fn finish<E: Sink>(outcome: &Outcome<'_>, e: &mut E) -> u8
    ensures status { result ≡ status_of outcome.now }
    // A prefix of the line is written. The whole line is written if no call to the writer fails and
    // no nonempty write returns 0.
    ensures prefix { GrowsByPrefix (E.taken e.old) (E.taken e.new) (last_line outcome.now) }
    ensures whole { E.failures e.old < 2 ^ 64 - 1 → E.empty_writes e.old < 2 ^ 64 - 1
        → HasNotFailed (writer_of E.Sink e.old) (writer_of E.Sink e.new)
        → Appends (E.taken e.old) (E.taken e.new) (last_line outcome.now) }
    ensures flushes { E.flushes e.new ≡ E.flushes e.old }
{
    let mut block = [0; LINE];
    let mut line = LineWriter::new(&mut block, e);
    push_last(&mut line, outcome);
    line.flush_buf();
    let _ = line.into_sink();
    status(outcome)
}

/// The verdict on a message, a document or a stray `BUFR`.
#[derive(Clone, Copy, Debug, PartialEq, Eq)]
pub enum Verdict {
    /// The message or document was accepted, and the result was written to the output.
    Accepted,
    /// The message, document or stray `BUFR` was rejected, and its fault line was written to the
    /// error output.
    Refused,
}

/// The number of messages or documents that a run accepted, and the number of fault lines that it
/// wrote.
#[derive(Clone, Copy, Debug, PartialEq, Eq)]
pub struct Tally {
    /// The number of accepted messages or documents.
    pub accepted: u64,
    /// The number of fault lines that were written to the error output, including those for strays.
    pub refused: u64,
}

impl Tally {
    pub(crate) fn count(&mut self, verdict: Verdict)
        requires few { self.old.accepted + self.old.refused < 2 ^ 63 }
        ensures value { self.new ≡ tally_after self.old verdict }
        ensures one { self.new.accepted + self.new.refused
            ≡ self.old.accepted + self.old.refused + 1 }
    {
        match verdict {
            Verdict::Accepted => self.accepted += 1,
            Verdict::Refused => self.refused += 1,
        }
    }
}
