//! The replies of each worker in the order of its requests, also as a text of its own, which a
//! thread of its own makes.
ghost use Rattle.std.specs.List.{AllByRecursion};
ghost use Rattle.std.specs.Prelude.{◌≡◌, ◌≤◌, ◌<◌, ◌^◌, None, Ok, length, map, nat_lt, vec_len, IfOk};
ghost use Rattle.phase_laws.specs.Order.{part};
ghost use Rattle.worker_journals.specs.Journals.{entry_worker};
ghost use Rattle.auction_text.specs.{Moved.{gone_by, all_moved}, Order.{comes_before, in_order}};
ghost use Rattle.auction_text.specs.Replies.{lines, replies_text};
ghost use Rattle.auction_text.specs.inner.{Putting.{PutsFront, PutsText, line_after}, Turns.{late}};
ghost use Rattle.auction_text.specs.inner.Workers.{AreEach, late_of, replies_of};

use crate::writing::Before;
use crate::writing::replies::TextBlock;
use crate::writing::text_blocks::put_reply;
use byte_texts::{WriteFault, push_text};
use std::alloc::{AllocError, Global};
use std::io::Write;
use std::thread::{Threads, map_indices};
use worker_journals::{EntryRef, History};

fn comes_before(one: &EntryRef<'_>, other: &EntryRef<'_>) -> bool
    ensures { result ≡ comes_before one.now other.now }
{
    (one.worker(), one.index()) < (other.worker(), other.index())
}

// Whether an entry of a worker does not come after the last one of it that stood in turn: those
// from this index on do.
#[inline(always)]
fn is_late(next: u64, entry: &EntryRef<'_>) -> bool
    ensures { result ≡ nat_lt entry.now.index next }
{
    u64::from(entry.index()) < next
}

// The entries of a worker that were committed after a later request of its script, as those put off
// are, in the order of their commits: they are few.
fn late_as_committed(
    alloc: Global,
    history: &History,
    worker: u32,
) -> Result<Vec<EntryRef<'_>>, AllocError>
    ensures { IfOk result (λ entries. entries.items
        ≡ late comes_before None (part entry_worker worker history.now.entries)) }
{
    let mut entries = Vec::new(alloc);
    let mut left = history.of_worker(worker);
    // No entry of a journal whose indexes rise is late, so none of it is looked at.
    let mut next = left.pass_rising(0);
    while let Some(entry) = left.next() {
        if is_late(next, &entry) {
            entries.push(entry)?;
        } else {
            next = u64::from(entry.index()) + 1;
        }
        next = left.pass_rising(next);
    }
    Ok(entries)
}

/// The late entries of a worker in the order of their indexes.
pub(crate) fn late_entries(
    alloc: Global,
    history: &History,
    worker: u32,
) -> Result<Vec<EntryRef<'_>>, AllocError>
    ensures { IfOk result (λ entries. entries.items ≡ late_of history.now.entries worker) }
{
    let mut entries = late_as_committed(alloc, history, worker)?;
    entries.sort_by_cached_key(|entry| (entry.worker(), entry.index()))?;
    Ok(entries)
}

/// The late entries of each worker, in order, up to the last worker that has an entry.
pub(crate) fn all_late_entries(
    alloc: Global,
    history: &History,
) -> Result<Vec<Vec<EntryRef<'_>>>, AllocError>
    ensures late { IfOk result (λ lists. AreEach (late_of history.now.entries) lists.items) }
    ensures workers { IfOk result (λ lists.
        AllByRecursion (λ entry. entry.worker < length lists.items) history.now.entries) }
    ensures few { IfOk result (λ lists. length lists.items ≤ 2 ^ 32) }
{
    let mut lists = Vec::new(alloc);
    for worker in 0..u64::from(history.last_worker()) + 1 {
        let late = late_entries(alloc, history, worker as u32)?;
        lists.push(late)?;
    }
    Ok(lists)
}

// Puts the lines of the entries from a place on that come before another, and gives the place after
// them.
#[inline(never)]
fn put_before<W: Write>(
    writer: &mut W,
    block: &mut TextBlock,
    entries: &[EntryRef<'_>],
    from: usize,
    entry: &EntryRef<'_>,
    gone: u64,
) -> Result<usize, WriteFault>
    requires { from ≤ length entries.now }
    ensures { PutsFront W.contents writer.old writer.new block.old block.new
        gone entries.now from entry.now result }
{
    let mut place = from;
    while let Some(next) = entries.get(place) {
        if !comes_before(next, entry) {
            break;
        }
        put_reply(writer, block, next, gone)?;
        place += 1;
    }
    Ok(place)
}

// Puts the lines of the entries that come before another, of which mostly none is left.
#[inline(always)]
fn put_any_before<W: Write>(
    writer: &mut W,
    block: &mut TextBlock,
    entries: &[EntryRef<'_>],
    from: usize,
    entry: &EntryRef<'_>,
    gone: u64,
) -> Result<usize, WriteFault>
    requires { from ≤ length entries.now }
    ensures { PutsFront W.contents writer.old writer.new block.old block.new
        gone entries.now from entry.now result }
{
    if from < entries.len() {
        return put_before(writer, block, entries, from, entry, gone);
    }
    Ok(from)
}

#[inline(never)]
fn put_replies<W: Write>(
    writer: &mut W,
    block: &mut TextBlock,
    entries: &[EntryRef<'_>],
    gone: u64,
) -> Result<(), WriteFault>
    ensures { PutsText W.contents writer.old writer.new block.old block.new
        (lines (line_after gone) entries.now) result }
{
    for entry in entries {
        put_reply(writer, block, entry, gone)?;
    }
    Ok(())
}

/// Puts the lines of a worker's entries among the replies, by index, then place, after so many
/// requests of it. They are read where they lie, in the order of their commits, and those that are
/// late, which are given in order, are put in between.
pub(crate) fn put_replies_of<W: Write>(
    writer: &mut W,
    block: &mut TextBlock,
    history: &History,
    worker: u32,
    delayed: &[EntryRef<'_>],
    gone: u64,
) -> Result<(), WriteFault>
    requires { delayed.now ≡ late_of history.now.entries worker }
    ensures { PutsText W.contents writer.old writer.new block.old block.new
        (lines (line_after gone) (in_order (part entry_worker worker history.now.entries))) result }
{
    let mut told = 0;
    let mut next = 0;
    for entry in history.of_worker(worker) {
        if !is_late(next, &entry) {
            told = put_any_before(writer, block, delayed, told, &entry, gone)?;
            put_reply(writer, block, &entry, gone)?;
            next = u64::from(entry.index()) + 1;
        }
    }
    put_replies(writer, block, &delayed[told..], gone)
}

/// Puts the lines of all workers' entries among the replies, by worker, then index, then place,
/// after what went before.
pub(crate) fn put_all_replies<W: Write>(
    writer: &mut W,
    block: &mut TextBlock,
    history: &History,
    delayed: &[Vec<EntryRef<'_>>],
    before: &Before,
) -> Result<(), WriteFault>
    requires late { AreEach (late_of history.now.entries) delayed.now }
    requires workers { AllByRecursion (λ entry. entry.worker < length delayed.now)
        history.now.entries }
    requires few { length delayed.now ≤ 2 ^ 32 }
    ensures { PutsText W.contents writer.old writer.new block.old block.new
        (replies_text (all_moved (gone_by before.now) history.now.entries)) result }
{
    for worker in 0..delayed.len() {
        put_replies_of(
            writer,
            block,
            history,
            worker as u32,
            delayed[worker].as_slice(),
            before.requests_of(worker as u32),
        )?;
    }
    Ok(())
}

// So much room is asked for ahead for each of a worker's replies: few take more, and of it all only
// what is filled is touched. A text that grows is copied, and the memory that it leaves may stay
// with the program.
const ROOM_OF_A_REPLY: usize = 128;

// A worker's replies, with room for so many.
fn worker_text(
    alloc: Global,
    history: &History,
    worker: u32,
    replies: usize,
) -> Result<Vec<u8>, AllocError>
    ensures { IfOk result (λ text. text.items ≡ replies_of history.now.entries worker) }
{
    let late = late_entries(alloc, history, worker)?;
    let mut text = Vec::with_capacity(alloc, replies.saturating_mul(ROOM_OF_A_REPLY))?;
    let mut block = TextBlock::new();
    let Ok(()) = put_replies_of(&mut text, &mut block, history, worker, late.as_slice(), 0) else {
        return Err(AllocError);
    };
    push_text(&mut text, block.bytes())?;
    Ok(text)
}

// The texts, if all were made.
fn all_made(
    alloc: Global,
    made: Vec<Result<Vec<u8>, AllocError>>,
) -> Result<Vec<Vec<u8>>, AllocError>
    ensures { IfOk result (λ texts. map Ok texts.items ≡ made.items) }
{
    let mut texts = Vec::with_capacity(alloc, made.len())?;
    for text in made {
        texts.push(text?)?;
    }
    Ok(texts)
}

/// The replies of so many workers, each made by a thread of its own where one can be started.
pub(crate) fn worker_texts<R: Threads + Sync>(
    rt: &R,
    alloc: Global,
    history: &History,
    workers: usize,
) -> Result<Vec<Vec<u8>>, AllocError>
    requires some { 1 ≤ workers }
    requires few { workers ≤ 2 ^ 32 }
    ensures each { IfOk result (λ texts. AreEach (replies_of history.now.entries) texts.items) }
    ensures count { IfOk result (λ texts. vec_len texts ≡ workers) }
{
    // Workers have about as many requests.
    let replies = history.len() / workers;
    let make = move |worker: usize| -> Result<Vec<u8>, AllocError>
        requires { worker < 2 ^ 32 }
        ensures { IfOk result (λ text. text.items ≡ replies_of history.entry.now.entries worker) }
    { worker_text(alloc, history, worker as u32, replies) };
    let made = map_indices(rt, alloc, workers, &make)?;
    all_made(alloc, made)
}
