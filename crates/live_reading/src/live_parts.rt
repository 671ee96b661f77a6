//! An input that is read part by part and line by line while it goes on: a line with a fault ends a
//! part, and not the input.
ghost use Rattle.std.specs.Prelude.{ℕ, ◌≡◌, ◌≤◌, List, Some, vec_len, IfOk, IfSome, if◌then◌else◌};
ghost use Rattle.csv.specs.Reading.{strip_bom};
ghost use Rattle.live_reading.specs.{LineBuffers.{lines_left}, LiveLines.{live_says}};
ghost use Rattle.live_reading.specs.LiveParts.{HasToSay, IsLivePart, KeepsLiveWorkers, live_workers};
ghost use Rattle.live_reading.specs.inner.Taking.{end_at, left_after};
ghost use Rattle.live_reading.specs.declared.live_lines.Said.{Said as Says};
ghost use Rattle.record_reading.specs.Reading.{HasNoInputFault};

use crate::line_buffer::LineBuffer;
use crate::line_skipping::{Front, skip};
use crate::line_taking::{LineStop, take_lines};
use crate::live_lines::LineFault;
use crate::part_records::Taken;
use record_reading::{CompactInput, ReadFault};
use std::alloc::Global;
use std::io::Read;

/// What is left of an input that is read line by line.
#[derive(Drop)]
pub struct LiveInput<R> {
    lines: LineBuffer<R>,
    workers: u32,
    count: u64,
    begun: bool,
    is_unmarked: bool,
}

/// How an input that is read line by line goes on after a part.
#[derive(Drop)]
pub enum LiveEnd<R> {
    /// More may come.
    More(LiveInput<R>),
    /// The next line has a fault, and more may come behind it.
    Fault(LineFault, LiveInput<R>),
    /// The input has ended.
    All,
}

/// A part of an input that is read line by line.
#[derive(Drop)]
pub struct LivePart<R> {
    /// What its records ask for.
    pub input: CompactInput,
    /// How the input goes on.
    pub end: LiveEnd<R>,
}

// The lines of an input, without the byte order mark that it may begin with.
fn unmarked<R: Read + Drop>(
    lines: LineBuffer<R>,
    is_unmarked: bool,
) -> Result<LineBuffer<R>, ReadFault>
    ensures left { IfOk result (λ next. (bytes : List ℕ) →
        lines_left R.remaining lines ≡ Some bytes →
        lines_left R.remaining next ≡ Some (if is_unmarked then bytes else strip_bom bytes)) }
    ensures fails { HasNoInputFault result }
{
    let mut lines = lines;
    if is_unmarked {
        return Ok(lines);
    }
    skip(&mut lines, Front::Mark)?;
    Ok(lines)
}

// The part that was taken, after which the input goes on with these lines.
fn part_before<R: Drop>(taken: Taken, lines: LineBuffer<R>, stop: LineStop) -> LivePart<R>
    ensures { result ≡ record { input = taken.input; end = end_at stop (left_after taken lines) } }
{
    let Taken {
        workers,
        most: _,
        input,
        requests: _,
        count,
        begun,
    } = taken;
    let left = LiveInput {
        lines,
        workers,
        count,
        begun,
        is_unmarked: true,
    };
    let end = match stop {
        LineStop::Full => LiveEnd::More(left),
        LineStop::Fault(fault) => LiveEnd::Fault(fault, left),
        LineStop::End => LiveEnd::All,
    };
    LivePart { input, end }
}

impl<R: Read + Drop> LiveInput<R> {
    /// An input of so many workers, of which nothing was read yet.
    pub fn of(alloc: Global, reader: R, workers: u32) -> Result<LiveInput<R>, ReadFault>
        ensures says { IfOk result (λ left. IfSome (R.remaining reader) (λ bytes.
            HasToSay R.remaining left (live_says workers bytes))) }
        ensures workers { IfOk result (λ left. live_workers left ≡ workers) }
        ensures fails { HasNoInputFault result }
    {
        let lines = LineBuffer::new(alloc, reader)?;
        Ok(LiveInput {
            lines,
            workers,
            count: 0,
            begun: false,
            is_unmarked: false,
        })
    }

    /// Reads the next part: rows, if no request was read yet, and at most so many requests. Once it
    /// has one it ends where no whole line is left of what was read, and does not wait for more. It
    /// also ends after `MOST_ROWS_OF_A_PART` rows, and before a line with a fault, behind which the
    /// next part begins. Only a read that failed, or refused memory, ends the input, with no part.
    pub fn next_part(self, alloc: Global, most: u32) -> Result<LivePart<R>, ReadFault>
        requires { 1 ≤ most }
        ensures part { IfOk result (λ part. (all : List Says) → HasToSay R.remaining self all →
            IsLivePart R.remaining (live_workers self) most all part) }
        ensures count { IfOk result (λ part. vec_len part.input.scripts ≡ live_workers self) }
        ensures workers { IfOk result (λ part. KeepsLiveWorkers (live_workers self) part.end) }
        ensures fails { HasNoInputFault result }
    {
        let LiveInput {
            lines,
            workers,
            count,
            begun,
            is_unmarked,
        } = self;
        let mut lines = unmarked(lines, is_unmarked)?;
        let input = CompactInput::new(alloc, workers)?;
        let mut taken = Taken {
            workers,
            most,
            input,
            requests: 0,
            count,
            begun,
        };
        let stop = take_lines(alloc, &mut lines, &mut taken)?;
        Ok(part_before(taken, lines, stop))
    }
}
