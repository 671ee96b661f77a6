//! The lines of an input that are taken for a part of it, each a text of its own.
ghost use Rattle.std.specs.Io.KnownBytes.{IsAtEnd};
ghost use Rattle.std.specs.Prelude.{◌≡◌, ◌<◌, ◌≤◌, drop, length, IfNone, IfOk, IsTrue, OnOk, true, false};
ghost use Rattle.record_reading.specs.Lines.{EndsLine, IsWhole, has_no_feed};
ghost use Rattle.record_reading.specs.Reading.{HasNoInputFault};
ghost use Rattle.record_reading.specs.declared.buffers.TheConstants.{ROOM_TO_READ};
ghost use Rattle.live_reading.specs.{LineBuffers.{held}, LiveLines.{is_long}};
ghost use Rattle.live_reading.specs.declared.line_taking.LineStop.TheVariants.{Full};
ghost use Rattle.live_reading.specs.inner.Lines.{underneath};
ghost use Rattle.live_reading.specs.inner.Taking.{HasRoom, IsOpen, MayEnd, TakesFrom, TakesSaid, TakesText, next_says, stop_at};

use crate::line_buffer::LineBuffer;
use crate::line_skipping::{Front, skip};
use crate::live_lines::{LineFault, Said, first_worker, line_len, plain_record, said_of};
use crate::part_records::Taken;
use record_reading::{Cause, MOST_ROWS_OF_A_PART, ROOM_TO_READ, ReadFault, bid_at, lines_end};
use std::alloc::Global;
use std::io::Read;

/// Where the taking of a part stopped.
#[derive(Clone, Copy, Drop)]
pub(crate) enum LineStop {
    /// At its most requests or rows, or where more would have to be waited for.
    Full,
    /// At the input's end.
    End,
    /// Behind a line with a fault.
    Fault(LineFault),
}

// Takes what a line says as `csv` reads it, and returns its fault, if it has one.
#[inline(never)]
fn take_read(alloc: Global, taken: &mut Taken, line: &[u8]) -> Result<Option<LineFault>, ReadFault>
    requires short { is_long line.now ≡ false }
    requires room { HasRoom taken.old }
    ensures takes { IfOk result (λ fault.
        TakesSaid taken.old (next_says taken.old line.now) taken.new fault) }
    ensures fails { HasNoInputFault result }
{
    let Some(place) = taken.count.checked_add(1) else {
        return Err(ReadFault::Read);
    };
    let said = said_of(alloc, line, taken.workers, place, taken.begun)?;
    match said {
        None => Ok(None),
        Some(Said::Record(one)) => {
            taken.add(&one)?;
            Ok(None)
        }
        Some(Said::Fault(fault)) => {
            taken.count_to(place);
            Ok(Some(fault))
        }
    }
}

// Takes what a whole line says, and returns its fault, if it has one: in place if it is plain.
#[inline(never)]
fn take_other(alloc: Global, taken: &mut Taken, line: &[u8]) -> Result<Option<LineFault>, ReadFault>
    requires whole { IsWhole line.now }
    requires long { length line.now ≤ ROOM_TO_READ }
    requires room { HasRoom taken.old }
    ensures takes { IfOk result (λ fault.
        TakesSaid taken.old (next_says taken.old line.now) taken.new fault) }
    ensures fails { HasNoInputFault result }
{
    match plain_record(line, taken.workers, taken.begun) {
        Some(one) => {
            taken.add(&one)?;
            Ok(None)
        }
        None => take_read(alloc, taken, line),
    }
}

// Takes the bids from a place on, as long as their lines are plain and their records have no fault,
// and returns the place behind them. Most lines are bids: nothing is done here that another line
// needs.
#[inline(never)]
fn take_bids(taken: &mut Taken, text: &[u8], from: usize) -> Result<usize, ReadFault>
    requires ends { 0 < length text.now → EndsLine text.now }
    requires long { length text.now ≤ ROOM_TO_READ }
    requires room { HasRoom taken.old }
    ensures within { IfOk result (λ at. from < at → at ≤ length text.now) }
    ensures takes { IfOk result (λ at.
        TakesText taken.old (drop from text.now) taken.new Full (drop at text.now)) }
    ensures none { IfOk result (λ at. at ≤ from → taken.new ≡ taken.old) }
    ensures fails { HasNoInputFault result }
{
    let mut at = from;
    while at < text.len() && taken.requests < taken.most {
        let Some((one, next)) = bid_at(text, at) else {
            break;
        };
        if one.worker >= taken.workers {
            break;
        }
        taken.add(&one)?;
        at = next;
    }
    Ok(at)
}

// Takes the whole lines of a text, up to the requests or rows that a part may have, and to the
// first fault, and returns the place behind them, and the fault.
fn take_text(
    alloc: Global,
    taken: &mut Taken,
    text: &[u8],
) -> Result<(usize, Option<LineFault>), ReadFault>
    requires long { length text.now ≤ ROOM_TO_READ }
    ensures within { IfOk result (λ p. p.0 ≤ length text.now) }
    ensures takes { IfOk result (λ p.
        TakesText taken.old text.now taken.new (stop_at p.1) (drop p.0 text.now)) }
    ensures up { IfOk result (λ p. IfNone p.1 (HasRoom taken.new →
        has_no_feed (drop p.0 text.now) ≡ true)) }
    ensures fails { HasNoInputFault result }
{
    let whole = &text[..lines_end(text)];
    let mut at = 0;
    while taken.requests < taken.most && taken.input.rows.len() < MOST_ROWS_OF_A_PART {
        let behind = take_bids(taken, whole, at)?;
        if behind > at {
            at = behind;
            continue;
        }
        let rest = &text[at..];
        let Some(len) = line_len(rest) else {
            break;
        };
        let fault = take_other(alloc, taken, &rest[..len])?;
        at += len;
        let None = fault else {
            return Ok((at, fault));
        };
    }
    Ok((at, None))
}

// Takes the whole lines of what a buffer holds, up to the requests or rows that a part may have,
// and to the first fault, which it returns.
fn take_held<R>(
    alloc: Global,
    lines: &mut LineBuffer<R>,
    taken: &mut Taken,
) -> Result<Option<LineFault>, ReadFault>
    ensures takes { IfOk result (λ fault.
        TakesText taken.old (held lines.old) taken.new (stop_at fault) (held lines.new)) }
    ensures underneath { OnOk result (underneath lines.new ≡ underneath lines.old) }
    ensures up { IfOk result (λ fault. IfNone fault (HasRoom taken.new →
        has_no_feed (held lines.new) ≡ true)) }
    ensures fails { HasNoInputFault result }
{
    let (at, fault) = take_text(alloc, taken, lines.held())?;
    lines.take(at);
    Ok(fault)
}

// Takes the line that a buffer has no room for: it has a fault.
fn take_long<R: Read>(
    alloc: Global,
    lines: &mut LineBuffer<R>,
    taken: &mut Taken,
) -> Result<LineFault, ReadFault>
    requires full { length (held lines.old) ≡ ROOM_TO_READ }
    requires no_feed { has_no_feed (held lines.old) ≡ true }
    ensures takes { IfOk result (λ fault. TakesFrom R.remaining lines.old taken.old
        lines.new taken.new (LineStop.Fault fault)) }
    ensures fails { HasNoInputFault result }
{
    let Some(place) = taken.count.checked_add(1) else {
        return Err(ReadFault::Read);
    };
    let worker = first_worker(alloc, lines.held(), taken.workers)?;
    lines.clear();
    skip(lines, Front::Line)?;
    taken.count_to(place);
    Ok(LineFault {
        worker,
        fault: ReadFault::Line(place, Cause::Long),
    })
}

// Takes what a buffer holds if no more is read: the last line, or one that it has no room for.
fn take_last<R: Read>(
    alloc: Global,
    lines: &mut LineBuffer<R>,
    taken: &mut Taken,
) -> Result<LineStop, ReadFault>
    requires end { length (held lines.old) < ROOM_TO_READ →
        IsAtEnd (R.remaining (underneath lines.old)) }
    requires no_feed { has_no_feed (held lines.old) ≡ true }
    requires open { IsOpen taken.old }
    ensures takes { IfOk result (λ stop. TakesFrom R.remaining lines.old taken.old
        lines.new taken.new stop) }
    ensures stops { IfOk result (λ stop. stop ≡ LineStop.Full → ⊥) }
    ensures fails { HasNoInputFault result }
{
    if lines.held().len() >= ROOM_TO_READ {
        let fault = take_long(alloc, lines, taken)?;
        return Ok(LineStop::Fault(fault));
    }
    let fault = take_read(alloc, taken, lines.held())?;
    lines.clear();
    match fault {
        Some(fault) => Ok(LineStop::Fault(fault)),
        None => Ok(LineStop::End),
    }
}

// Whether a part may end after whole lines.
#[inline(always)]
fn may_end(taken: &Taken) -> bool
    ensures ends { IsTrue result → MayEnd taken.now }
    ensures open { result ≡ false → IsOpen taken.now }
{
    taken.requests > 0 || taken.input.rows.len() >= MOST_ROWS_OF_A_PART
}

/// Takes lines for a part: up to the requests or rows that it may have, or all that are whole of
/// what was read, if a request is among them; and to the first fault.
pub(crate) fn take_lines<R: Read>(
    alloc: Global,
    lines: &mut LineBuffer<R>,
    taken: &mut Taken,
) -> Result<LineStop, ReadFault>
    requires none { taken.old.requests ≡ 0 }
    ensures takes { IfOk result (λ stop. TakesFrom R.remaining lines.old taken.old
        lines.new taken.new stop) }
    ensures some { IfOk result (λ stop. stop ≡ LineStop.Full → MayEnd taken.new) }
    ensures fails { HasNoInputFault result }
{
    for _ in 0..u64::MAX {
        let fault = take_held(alloc, lines, taken)?;
        if let Some(fault) = fault {
            return Ok(LineStop::Fault(fault));
        }
        if may_end(taken) {
            return Ok(LineStop::Full);
        }
        if !lines.read_on()? {
            return take_last(alloc, lines, taken);
        }
    }
    Err(ReadFault::Read)
}
