//! Where a text is not that of rows.
ghost use Rattle.std.specs.Prelude.{◌≡◌, ◌≤◌, [], IfNone, IfOk, IfSome, length};
ghost use Rattle.auction_text.specs.RowLines.{rows_text};
ghost use Rattle.log_opening.specs.Differences.{IsFirstDifference};

use auction_rows::Row;
use auction_text::write_rows;
use byte_texts::WriteFault;
use std::alloc::Global;
use worker_journals::History;

// The first place at which two texts differ, if they do.
fn first_difference(text: &[u8], other: &[u8]) -> Option<usize>
    ensures same { IfNone result (text.now ≡ other.now) }
    ensures first { IfSome result (λ at. IsFirstDifference text.now other.now at) }
{
    if text == other {
        return None;
    }
    let shorter = text.len().min(other.len());
    for at in 0..shorter {
        if text[at] != other[at] {
            return Some(at);
        }
    }
    Some(shorter)
}

/// The first place at which a text differs from that of these rows, if it does.
pub(crate) fn difference_from(
    alloc: Global,
    text: &[u8],
    rows: &[Row],
) -> Result<Option<usize>, WriteFault>
    ensures same { IfOk result (λ at. IfNone at (text.now ≡ rows_text rows.now [])) }
    ensures first { IfOk result (λ at. IfSome at
        (λ at. IsFirstDifference text.now (rows_text rows.now []) at)) }
{
    let mut made = Vec::new(alloc);
    write_rows(alloc, &mut made, rows, &History::new(alloc))?;
    Ok(first_difference(text, made.as_slice()))
}
