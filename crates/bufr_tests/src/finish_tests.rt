//! Tests for a run's exit status and the last line of its error output.

use crate::runs::{tally, writer};
use crate::support::{Runtime, assert_same, joined, ok, read_d, some};
use bufr_bits::End;
use bufr_cli::{Outcome, finish};
use bufr_frame::RunFault;
use bufr_tables::{Fxy, TableFault};

/// Finishes a run whose error output has space for `room.0` octets. `room.1` specifies how the
/// error output behaves when it is full. Returns the exit status and the line that was written.
fn finished(rt: &impl Runtime, run: &Outcome<'_>, room: (usize, End)) -> (u8, Vec<u8>) {
    let mut e = writer(rt, 3, room);
    let status = finish(run, &mut e);
    (status, joined(rt, &[e.taken()]))
}

fn assert_finished(rt: &impl Runtime, run: &Outcome<'_>, line: &str, status: u8) {
    let (found, octets) = finished(rt, run, (100, End::Fail));
    assert_same(rt, &found, &status, &line);
    assert_same(rt, &octets.as_slice(), &line.as_bytes(), &line);
    let (found, _) = finished(rt, run, (4, End::Zero));
    assert_same(rt, &found, &status, &line);
}

/// Asserts that the fault line consists of `bufr`, the fault number and the description.
fn assert_run_fault(rt: &impl Runtime, fault: RunFault, text: &str) {
    let shown = ok(rt, format!(in rt.alloc(); "{} {fault}", fault.number()));
    assert_same(rt, &shown.as_str(), &text, &fault);
    let line = ok(rt, format!(in rt.alloc(); "bufr: {text}\n"));
    assert_finished(rt, &Outcome::Run(fault), line.as_str(), 2);
}

#[test]
// rule: status-0-and-1, status-of-usage, status-of-open, fault-70, fault-71, fault-72, fault-73
fn prints_final_line_and_returns_exit_status(rt: HostRuntime) {
    assert_finished(&rt, &Outcome::Ran(tally(3, 0)), "", 0);
    assert_finished(&rt, &Outcome::Ran(tally(3, 1)), "", 1);
    let usage = "error: no command\n";
    assert_finished(&rt, &Outcome::Usage(usage), usage, 2);
    let line = "bufr: cannot open x.bufr\n";
    assert_finished(&rt, &Outcome::CannotOpen("x.bufr"), line, 2);
    assert_run_fault(&rt, RunFault::Read, "70 read failed");
    assert_run_fault(&rt, RunFault::Write, "71 write failed");
    assert_run_fault(&rt, RunFault::InputTooLong, "72 input too long");
    assert_run_fault(&rt, RunFault::Memory, "73 out of memory");
}

/// Asserts that the line for a table fault consists of the table's name, the fault number and the
/// description. If memory ran out, the line contains `bufr` instead of the table's name.
fn assert_table_fault(rt: &impl Runtime, fault: TableFault, text: &str) {
    let shown = ok(rt, format!(in rt.alloc(); "{} {fault}", fault.number()));
    assert_same(rt, &shown.as_str(), &text, &fault);
    let (b, d) = (Outcome::TableB(fault), Outcome::TableD(fault));
    let whole = fault == TableFault::Memory;
    for (outcome, name) in &[(b, "table B"), (d, "table D")] {
        let of = if whole { "bufr" } else { *name };
        let line = ok(rt, format!(in rt.alloc(); "{of}: {text}\n"));
        assert_finished(rt, outcome, line.as_str(), 2);
    }
}

#[test]
// rule: status-of-table
fn reports_table_faults(rt: HostRuntime) {
    assert_table_fault(&rt, TableFault::Header, "40 header");
    let row = TableFault::Row(18_446_744_073_709_551_615);
    assert_table_fault(&rt, row, "41 row 18446744073709551615");
    let duplicate = TableFault::Duplicate(Fxy::from_word(0xC001));
    assert_table_fault(&rt, duplicate, "42 duplicate 300001");
    let rows = b"fxy,member\n300001,300002\n300002,300001\n";
    let cycle = some(&rt, read_d(rt.alloc(), rows).err());
    assert_table_fault(&rt, cycle, "43 cycle 300001");
    assert_table_fault(&rt, TableFault::TableSize, "44 table size");
    assert_table_fault(&rt, TableFault::Csv, "45 csv");
    assert_table_fault(&rt, TableFault::Memory, "73 out of memory");
}
