//! Parcels of a text, each read as if nothing stood before it.
ghost use Rattle.std.specs.Prelude.{◌≡◌, ◌<◌, ◌≤◌, drop, length, take, vec_len, IfOk, IfSome};
ghost use Rattle.std.specs.Thread.{IsSync};
ghost use Rattle.record_reading.specs.{Lines.{EndsLine}, Reading.{HasNoInputFault}};
ghost use Rattle.record_reading.specs.declared.inputs.TheConstants.{MOST_RECORDS};
ghost use Rattle.auction_reading.specs.inner.Parcels.{AreParcels, Follows, IsParcel};
ghost use Rattle.auction_reading.specs.inner.Said.{HasRead, read_by};

use crate::joins::{can_join, clear};
use crate::plain_text::{Progress, read_plain};
use record_reading::{CompactInput, ReadFault, lines_end};
use std::alloc::Global;
use std::thread::{Threads, join_mut};

/// A thread is started for no less than so many bytes.
pub(crate) const LEAST_OF_A_THREAD: usize = 32_768;

// Few lines have fewer bytes.
const BYTES_OF_A_LINE: usize = 16;

/// Whole lines of a text, and what the plain ones at their front ask for.
#[derive(Drop)]
pub(crate) struct Parcel {
    /// Where the lines begin in the text.
    pub(crate) from: usize,
    /// How far they were read: not known if memory was refused.
    pub(crate) to: Option<usize>,
    /// What was read of them.
    pub(crate) progress: Progress,
}

impl Parcel {
    /// A parcel of no lines, for so many workers, with room for what so many bytes mostly ask for.
    pub(crate) fn new(alloc: Global, workers: u32, bytes: usize) -> Result<Parcel, ReadFault>
        requires some { 0 < workers }
        ensures workers { IfOk result (λ parcel. vec_len parcel.progress.input.scripts ≡ workers) }
        ensures fails { HasNoInputFault result }
    {
        let requests = bytes / BYTES_OF_A_LINE / workers as usize;
        let input = CompactInput::with_room(alloc, workers, requests)?;
        let progress = Progress {
            input,
            count: 0,
            begun: false,
        };
        Ok(Parcel {
            from: 0,
            to: None,
            progress,
        })
    }

    // Reads the plain lines of the parcel of a text that begins about at a place, and is about so
    // long.
    fn read(&mut self, text: &[u8], begins: usize, size: usize)
        ensures { IsParcel text.now self.new }
    {
        let from = cut(text, begins);
        let end = cut(text, begins.saturating_add(size));
        clear(&mut self.progress);
        self.from = from;
        self.to = read_piece(&mut self.progress, text, from, end);
    }

    /// Up to which place in the text all is read once the parcel follows what was read up to
    /// another one: none if its lines begin elsewhere, or cannot follow.
    pub(crate) fn end_after(
        &self,
        progress: &Progress,
        at: usize,
    ) -> Result<Option<usize>, ReadFault>
        requires { progress.now.count ≤ MOST_RECORDS }
        ensures follows { IfOk result (λ end. IfSome end (λ to.
            Follows (read_by progress.now) at self.now to)) }
        ensures fails { HasNoInputFault result }
    {
        if self.from != at {
            return Ok(None);
        }
        let Some(to) = self.to else {
            return Err(ReadFault::Memory);
        };
        if !can_join(progress, &self.progress) {
            return Ok(None);
        }
        Ok(Some(to))
    }
}

// Reads the plain lines of a text that lie between two places, and returns the place after them:
// none if memory was refused.
fn read_piece(progress: &mut Progress, text: &[u8], from: usize, end: usize) -> Option<usize>
    requires from { from ≤ length text.now }
    requires end { end ≤ length text.now }
    requires ends { from < end → EndsLine (take end text.now) }
    requires room { progress.old.count ≤ MOST_RECORDS }
    ensures within { IfSome result (λ to. to ≤ length text.now) }
    ensures reads { IfSome result (λ to.
        HasRead (read_by progress.old) (drop from text.now) (read_by progress.new)
        (drop to text.now)) }
{
    if end <= from {
        return Some(from);
    }
    match read_plain(progress, &text[from..end]) {
        Ok(at) => Some(from + at),
        Err(_) => None,
    }
}

// The place after the last end of a line in so much of a text.
fn cut(text: &[u8], about: usize) -> usize
    ensures within { result ≤ length text.now }
    ensures ends { 0 < result → EndsLine (take result text.now) }
{
    let part = about.min(text.len());
    lines_end(&text[..part])
}

// Reads parcels of a text one after the other: the first begins about at a place, and each is about
// so long.
fn read_in_turn(text: &[u8], begins: usize, size: usize, parcels: &mut [Parcel])
    ensures { AreParcels text.now parcels.new }
{
    let mut next = begins;
    for parcel in parcels.iter_mut() {
        parcel.read(text, next, size);
        next = next.saturating_add(size);
    }
}

// Reads parcels in the same way, each but the last in a thread of its own. The thread that calls
// starts the others one after the other: in halves of halves the last would begin later.
#[cycle(reading)]
fn read_from<R: Threads + Sync>(
    rt: &R,
    text: &[u8],
    begins: usize,
    size: usize,
    parcels: &mut [Parcel],
)
    ensures { AreParcels text.now parcels.new }
{
    if parcels.len() < 2 {
        read_in_turn(text, begins, size, parcels);
        return;
    }
    let next = begins.saturating_add(size);
    let (first, rest) = parcels.split_at_mut(1);
    let mut one = ||
        ensures { AreParcels text.entry.now first.exit.now }
    { read_in_turn(text, begins, size, first) };
    let mut others = ||
        requires { IsSync R.row }
        ensures { AreParcels text.entry.now rest.exit.now }
    { read_from(rt, text, next, size, rest) };
    join_mut(rt, &mut one, &mut others);
}

/// Cuts a text of whole lines into parcels of about one length, and reads the plain lines at the
/// front of each, by threads if the text is long. How far that is, no clause says: what is left is
/// read by `csv`.
pub(crate) fn read_parcels<R: Threads + Sync>(rt: &R, parcels: &mut [Parcel], text: &[u8])
    ensures { AreParcels text.now parcels.new }
{
    let size = (text.len() / parcels.len().max(1)).saturating_add(1);
    if text.len() / LEAST_OF_A_THREAD < parcels.len() {
        read_in_turn(text, 0, size, parcels);
    } else {
        read_from(rt, text, 0, size, parcels);
    }
}
