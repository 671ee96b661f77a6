//! Marks: of each request of some scripts, whether a line of a history had it.
ghost use Rattle.std.specs.Prelude.{◌≡◌, ◌<◌, ℕ, Bool, true, false, Some, [], List, length, slice_get, slice_set, IfOk, MatchOption};
ghost use Rattle.split_engine.specs.Serving.{lists, request_at};
ghost use Rattle.application_check.specs.inner.Marking.{no_marks};

use std::alloc::{AllocError, Global};

/// No request is marked.
pub(crate) fn new_marks<Q>(alloc: Global, scripts: &[Vec<Q>]) -> Result<Vec<Vec<bool>>, AllocError>
    ensures { IfOk result (λ marks. lists marks.items ≡ no_marks (lists scripts.now)) }
{
    let mut marks = Vec::with_capacity(alloc, scripts.len())?;
    for script in scripts {
        marks.push(vec![in alloc; false; script.len()]?)?;
    }
    Ok(marks)
}

// Marks a request of one script; this says whether it was marked.
fn mark_in(row: &mut Vec<bool>, index: usize) -> bool
    requires { index < length row.old.items }
    ensures was { slice_get row.old.items index ≡ Some result }
    ensures row { row.new.items ≡ slice_set row.old.items index true }
{
    let was = row[index];
    row[index] = true;
    was
}

/// Marks a request; this says whether it was marked.
pub(crate) fn mark(marks: &mut Vec<Vec<bool>>, worker: usize, index: usize) -> bool
    requires { (was : Bool) × (request_at (lists marks.old.items) worker index ≡ Some was) }
    ensures was { request_at (lists marks.old.items) worker index ≡ Some result }
    ensures here { request_at (lists marks.new.items) worker index ≡ Some true }
    ensures others { (w i : ℕ) → (w ≡ worker → i ≡ index → ⊥) →
        request_at (lists marks.new.items) w i ≡ request_at (lists marks.old.items) w i }
{
    mark_in(&mut marks[worker], index)
}

// The first request of a script that is not marked.
fn unmarked_in(row: &[bool]) -> Option<usize>
    ensures { MatchOption result ((i : ℕ) → slice_get row.now i ≡ Some false → ⊥)
        (λ index. slice_get row.now index ≡ Some false) }
{
    for (index, is_marked) in row.iter().enumerate() {
        if !*is_marked {
            return Some(index);
        }
    }
    None
}

/// The first request that is not marked: its worker and index.
pub(crate) fn unmarked(marks: &[Vec<bool>]) -> Option<(usize, usize)>
    ensures { MatchOption result ((w i : ℕ) → request_at (lists marks.now) w i ≡ Some false → ⊥)
        (λ call. request_at (lists marks.now) call.0 call.1 ≡ Some false) }
{
    for (worker, row) in marks.iter().enumerate() {
        if let Some(index) = unmarked_in(row) {
            return Some((worker, index));
        }
    }
    None
}
