//! The tables of cases, and the loops over them.
ghost use Rattle.std.specs.Prelude.{◌≤◌, length, IfOk};

use crate::calls::Calls;
use crate::case::Case;
use crate::charges::charge_table;
use crate::choices::choice_table;
use crate::collections::collection_table;
use crate::limits::limit_table;
use crate::numbers::number_table;
use crate::run::holds;
use crate::shaped::shaped_table;
pub use crate::trailing::trailing_cases;
use std::alloc::Global;
use std::io;
use std::io::Write;

/// A case with its label.
#[derive(Drop)]
pub struct Row {
    pub label: &'static str,
    pub case: Case,
}

/// The tables of the cases that the program runs.
pub fn tables() -> [&'static [Row]; 6] {
    [
        number_table(),
        limit_table(),
        collection_table(),
        choice_table(),
        charge_table(),
        shaped_table(),
    ]
}

/// Runs the cases of some tables by the calls of `K`. Writes a line for each case, whether it holds, and a last line
/// with the number of cases and of failures, and returns the latter. Fails where `out` does, and where memory is
/// refused.
pub fn run<K: Calls, W: Write>(alloc: Global, tables: &[&[Row]], out: &mut W) -> io::Result<usize> {
    let mut count = 0usize;
    let mut failed = 0usize;
    for table in tables {
        failed = failed.saturating_add(run_table::<K, W>(alloc, table, out)?);
        count = count.saturating_add(table.len());
    }
    writeln!(out, "rows {count} failed {failed}")?;
    Ok(failed)
}

/// Runs the cases of a table, writes a line for each, and returns the number of failures.
fn run_table<K: Calls, W: Write>(alloc: Global, table: &[Row], out: &mut W) -> io::Result<usize>
    ensures { IfOk result (λ failed. failed ≤ length table.now) }
{
    let mut failed = 0;
    for row in table {
        let label = row.label;
        if holds::<K>(alloc, &row.case)? {
            writeln!(out, "{label} ok")?;
        } else {
            writeln!(out, "{label} FAIL")?;
            failed += 1;
        }
    }
    Ok(failed)
}
