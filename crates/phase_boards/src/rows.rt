//! The rows of commits, and of a run's last phase.
ghost use Rattle.std.specs.Prelude.{◌≡◌, ◌++◌, IfOk, OnOk, option_to_list};
ghost use Rattle.auction_rows.specs.History.{rows_of};
ghost use Rattle.worker_journals.specs.Merged.{merged};

use auction_rows::{Entry, Row, row_of};
use std::alloc::{AllocError, Global};
use worker_journals::History;

/// The rows of the accepted stores of these entries, in order.
pub fn rows_of(alloc: Global, entries: &[Entry]) -> Result<Vec<Row>, AllocError>
    ensures { IfOk result (λ rows. rows.items ≡ rows_of entries.now) }
{
    let mut rows = Vec::new(alloc);
    for entry in entries {
        push_row(&mut rows, row_of(entry.worker, entry.request, entry.reply))?;
    }
    Ok(rows)
}

/// The rows of the accepted stores of a history's last phase, in order.
pub fn last_rows(alloc: Global, history: &History) -> Result<Vec<Row>, AllocError>
    ensures { IfOk result (λ rows. rows.items ≡ rows_of (merged history.now.last)) }
{
    let mut rows = Vec::new(alloc);
    for entry in history.last_entries() {
        push_row(&mut rows, entry.row())?;
    }
    Ok(rows)
}

// Puts a row at the end, if there is one.
fn push_row(rows: &mut Vec<Row>, row: Option<Row>) -> Result<(), AllocError>
    ensures { OnOk result (rows.new.items ≡ rows.old.items ++ option_to_list row) }
{
    if let Some(row) = row {
        rows.push(row)?;
    }
    Ok(())
}
