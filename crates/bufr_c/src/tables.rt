//! Functions that read the tables passed by the caller.
ghost use Rattle.std.specs.Prelude.{◌≡◌, ◌+◌, IfErr, IfOk, Ok, pos};
ghost use Rattle.bufr_tables.specs.Prelude.{records_of, table_b_of, table_d_of, table_report};
ghost use Rattle.bufr_c.specs.Leaving.{CallStatus, HasRun};

use crate::texts::{CallInput, OUT_OF_MEMORY};
use bufr_tables::{TableB, TableD, TableFault};
use std::alloc::Global;

/// Table B and Table D, read from the input passed by the caller.
#[derive(Drop)]
pub(crate) struct Tables {
    pub(crate) b: TableB,
    pub(crate) d: TableD,
}

/// Returns the status that reports a fault in Table D.
fn table_d_status(fault: TableFault) -> i32
    ensures { result ≡ pos (100 + (table_report fault).0) }
{
    100 + i32::from(fault.number())
}

/// Reads both tables. If a table is invalid or memory runs out, the error is the status that the
/// call should return.
#[tactic(auto, using(crate::proofs::EventLemmas::memory_status, crate::proofs::EventLemmas::table_b_status, crate::proofs::EventLemmas::table_d_status, crate::proofs::EventLemmas::stopped_73, crate::proofs::EventLemmas::stopped_by_b, crate::proofs::EventLemmas::stopped_by_d))]
pub(crate) fn read_tables(alloc: Global, input: &CallInput<'_>) -> Result<Tables, i32>
    ensures b { IfOk result (λ t. table_b_of (records_of input.now.table_b.now) ≡ Ok t.b) }
    ensures d { IfOk result (λ t. table_d_of (records_of input.now.table_d.now) ≡ Ok t.d) }
    ensures status { IfErr result (λ status.
        CallStatus input.now.table_b.now input.now.table_d.now status) }
    ensures stopped { IfErr result (λ status. ¬ HasRun status) }
{
    let b = match TableB::read(alloc, input.table_b) {
        Ok(b) => b,
        Err(TableFault::Memory) => return Err(OUT_OF_MEMORY),
        Err(fault) => return Err(i32::from(fault.number())),
    };
    let d = match TableD::read(alloc, input.table_d) {
        Ok(d) => d,
        Err(TableFault::Memory) => return Err(OUT_OF_MEMORY),
        Err(fault) => return Err(table_d_status(fault)),
    };
    Ok(Tables { b, d })
}
