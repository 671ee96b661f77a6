//! The plain lines at the front of a text, read where they lie.
ghost use Rattle.std.specs.Prelude.{ℕ, ◌<◌, ◌≤◌, drop, length, vec_len, IfOk, List, OnOk};
ghost use Rattle.record_reading.specs.{Lines.{EndsLine, IsLine}, Reading.{HasNoInputFault}};
ghost use Rattle.record_reading.specs.declared.inputs.TheConstants.{MOST_RECORDS};
ghost use Rattle.auction_reading.specs.inner.Progress.{HasAdded};
ghost use Rattle.auction_reading.specs.inner.Said.{HasRead, MayReadLine, ReadsLine, read_by};

use record_reading::{CompactInput, MOST_RECORDS, ReadFault, Record, bid_at, line_at};

/// What was read of an input so far.
#[derive(Drop)]
pub(crate) struct Progress {
    /// What its records ask for.
    pub(crate) input: CompactInput,
    /// How many they are.
    pub(crate) count: u32,
    /// Whether a request is among them: a row is late then.
    pub(crate) begun: bool,
}

/// Adds a record to what was read.
#[inline(always)]
pub(crate) fn add(progress: &mut Progress, said: &Record) -> Result<(), ReadFault>
    requires worker { said.now.worker < vec_len progress.old.input.scripts }
    requires room { progress.old.count < MOST_RECORDS }
    ensures adds { OnOk result (HasAdded progress.old said.now progress.new) }
    ensures fails { HasNoInputFault result }
{
    progress.input.add(said)?;
    progress.count += 1;
    progress.begun |= !said.is_row;
    Ok(())
}

// Adds what the line from `at` to `next` says and returns `next`, or returns `at` if its record has
// a fault.
#[inline(always)]
fn add_line(
    progress: &mut Progress,
    said: &Record,
    at: usize,
    next: usize,
) -> Result<usize, ReadFault>
    requires room { progress.old.count < MOST_RECORDS }
    ensures reads { IfOk result (λ place. (text : List ℕ) → IsLine text at said.now next →
        ReadsLine progress.old text at progress.new place) }
    ensures fails { HasNoInputFault result }
{
    if said.worker as usize >= progress.input.scripts.len() {
        return Ok(at);
    }
    if said.is_row && progress.begun {
        return Ok(at);
    }
    add(progress, said)?;
    Ok(next)
}

// Reads the line at a place, unless a bid's, and returns the place after it: the same place if it
// is not plain or has a fault.
#[inline(never)]
fn read_other(progress: &mut Progress, text: &[u8], at: usize) -> Result<usize, ReadFault>
    requires { MayReadLine progress.old text.now at }
    ensures line { IfOk result (ReadsLine progress.old text.now at progress.new) }
    ensures fails { HasNoInputFault result }
{
    match line_at(text, at) {
        Some((said, next)) => add_line(progress, &said, at, next),
        None => Ok(at),
    }
}

// Reads the line at a place, and returns the place after it: a bid's, of which there are most, in
// place.
#[inline(always)]
fn read_line(progress: &mut Progress, text: &[u8], at: usize) -> Result<usize, ReadFault>
    requires { MayReadLine progress.old text.now at }
    ensures line { IfOk result (ReadsLine progress.old text.now at progress.new) }
    ensures fails { HasNoInputFault result }
{
    match bid_at(text, at) {
        Some((said, next)) => add_line(progress, &said, at, next),
        None => read_other(progress, text, at),
    }
}

/// Reads the plain lines at the front of a text, and returns the place after them.
#[inline(never)]
pub(crate) fn read_plain(progress: &mut Progress, text: &[u8]) -> Result<usize, ReadFault>
    requires ends { EndsLine text.now }
    requires room { progress.old.count ≤ MOST_RECORDS }
    ensures within { IfOk result (λ at. at ≤ length text.now) }
    ensures reads { IfOk result (λ at.
        HasRead (read_by progress.old) text.now (read_by progress.new) (drop at text.now)) }
    ensures fails { HasNoInputFault result }
{
    let mut at = 0;
    while at < text.len() && progress.count < MOST_RECORDS {
        let next = read_line(progress, text, at)?;
        if next == at {
            break;
        }
        at = next;
    }
    Ok(at)
}
