//! The writing of replies, histories, rows and reports.
ghost use Rattle.std.specs.Io.KnownBytes.{Appends};
ghost use Rattle.std.specs.Prelude.{◌≡◌, ◌↔◌, ◌++◌, map, IfOk, IsErr, IsOkAnd, OnOk};
ghost use Rattle.auction_text.specs.Moved.{all_moved, gone_by};
ghost use Rattle.auction_text.specs.{Replies.{history_text, replies_text}, Report.{report_text}};
ghost use Rattle.auction_text.specs.{RowLines.{rows_text}, inner.Putting.{PutsText}};
ghost use Rattle.byte_texts.specs.Writing.{IsPartWritten, WritesText};

use crate::writing::Before;
use crate::writing::replies::TextBlock;
use crate::writing::reply_order::{all_late_entries, put_all_replies, worker_texts};
use crate::writing::report::{
    ReportLines, push_category_lines, push_counts, push_hot_lines, push_user_lines,
};
use crate::writing::rows::{push_rows, push_rows_of};
use crate::writing::text_blocks::{put_entry, write_parts};
use auction_rows::{Object, Row};
use byte_texts::{WriteFault, flush, write_last};
use indexmap::IndexSet;
use std::alloc::{AllocError, Global};
use std::io::Write;
use std::thread::Threads;
use worker_journals::History;

// The bytes that the line of a bid takes at most where numbers have six digits: so much room is
// asked for ahead for each entry and row, and longer lines make a text grow.
const ROOM_OF_A_LINE: usize = 40;

// Of fewer replies one thread makes the text as soon.
const MANY_REPLIES: usize = 20_000;

// The lines of counts that a report begins with.
const COUNT_LINES: usize = 3;

// Writes a text, where there was memory to make it.
fn write_made<W: Write>(writer: &mut W, made: Result<Vec<u8>, AllocError>) -> Result<(), WriteFault>
    ensures whole { OnOk result (IsOkAnd made (λ text.
        Appends (W.contents writer.old) (W.contents writer.new) text.items)) }
    ensures part { result ≡ Err WriteFault.Write → IsOkAnd made (λ text.
        IsPartWritten (W.contents writer.old) (W.contents writer.new) text.items) }
    ensures memory { result ≡ Err WriteFault.Memory → writer.new ≡ writer.old }
    ensures unmade { (result ≡ Err WriteFault.Memory) ↔ IsErr made }
{
    let Ok(text) = made else {
        return Err(WriteFault::Memory);
    };
    write_last(writer, text.as_slice())
}

// Puts the line of each entry, in the order given, after what went before.
fn put_entries<W: Write>(
    writer: &mut W,
    block: &mut TextBlock,
    history: &History,
    before: &Before,
) -> Result<(), WriteFault>
    ensures { PutsText W.contents writer.old writer.new block.old block.new
        (history_text (all_moved (gone_by before.now) history.now.entries)) result }
{
    for entry in history.iter() {
        put_entry(writer, block, &entry, before)?;
    }
    Ok(())
}

fn rows_text(alloc: Global, rows: &[Row], history: &History) -> Result<Vec<u8>, AllocError>
    ensures { IfOk result (λ text. text.items ≡ rows_text rows.now history.now.entries) }
{
    let most = rows.len().saturating_add(history.len());
    let mut text = Vec::with_capacity(alloc, most.saturating_mul(ROOM_OF_A_LINE))?;
    push_rows(&mut text, rows)?;
    push_rows_of(&mut text, history)?;
    Ok(text)
}

// Adds the parts of a report, one after the other.
fn push_report(
    text: &mut Vec<u8>,
    history: &History,
    hot: &[IndexSet<Object>],
    lines: &ReportLines,
) -> Result<(), AllocError>
    ensures { OnOk result (text.new.items ≡ text.old.items
        ++ report_text history.now.entries (map (λ set. set.keys) hot.now)
        lines.now.categories.items lines.now.users.items) }
{
    push_counts(text, hot.len(), history)?;
    push_hot_lines(text, hot)?;
    push_category_lines(text, lines.categories.as_slice())?;
    push_user_lines(text, lines.users.as_slice())
}

fn report_text(
    alloc: Global,
    history: &History,
    hot: &[IndexSet<Object>],
    lines: &ReportLines,
) -> Result<Vec<u8>, AllocError>
    ensures { IfOk result (λ text. text.items
        ≡ report_text history.now.entries (map (λ set. set.keys) hot.now)
        lines.now.categories.items lines.now.users.items) }
{
    let sure = lines.categories.len().saturating_add(COUNT_LINES);
    let mut text = Vec::with_capacity(alloc, sure.saturating_mul(ROOM_OF_A_LINE))?;
    push_report(&mut text, history, hot, lines)?;
    Ok(text)
}

/// Writes the reply of each entry as a line, by worker, then index, then place, and flushes.
///
/// `Memory` comes before the first byte is written; after `Write` a prefix of the text was written.
pub fn write_replies<W: Write>(
    alloc: Global,
    writer: &mut W,
    history: &History,
) -> Result<(), WriteFault>
    ensures { WritesText W.contents writer.old writer.new
        (replies_text history.now.entries) result }
{
    write_replies_on(alloc, writer, history, &Before::none())
}

/// Writes the replies of a part of a run as `write_replies` does: their indexes go on from the
/// requests that went before.
///
/// `Memory` comes before the first byte is written; after `Write` a prefix of the text was written.
/// An index past 64 bits is not written: `Write`.
pub fn write_replies_on<W: Write>(
    alloc: Global,
    writer: &mut W,
    history: &History,
    before: &Before,
) -> Result<(), WriteFault>
    ensures { WritesText W.contents writer.old writer.new
        (replies_text (all_moved (gone_by before.now) history.now.entries)) result }
{
    let mut block = TextBlock::new();
    write_replies_by(alloc, writer, history, before, &mut block)
}

/// Writes the replies of a part of a run as `write_replies_on` does, by a block that the caller
/// keeps from part to part: to clear one takes longer than to write a few lines.
pub fn write_replies_by<W: Write>(
    alloc: Global,
    writer: &mut W,
    history: &History,
    before: &Before,
    block: &mut TextBlock,
) -> Result<(), WriteFault>
    ensures { WritesText W.contents writer.old writer.new
        (replies_text (all_moved (gone_by before.now) history.now.entries)) result }
{
    let Ok(delayed) = all_late_entries(alloc, history) else {
        return Err(WriteFault::Memory);
    };
    block.clear();
    put_all_replies(writer, block, history, delayed.as_slice(), before)?;
    write_last(writer, block.bytes())
}

/// Writes the replies as `write_replies` does. Where there are many, of several workers, each
/// worker's are put together by a thread of its own, and are written once all are there.
///
/// `Memory` comes before the first byte is written; after `Write` a prefix of the text was written.
pub fn write_replies_by_threads<R: Threads + Sync, W: Write>(
    rt: &R,
    alloc: Global,
    writer: &mut W,
    history: &History,
) -> Result<(), WriteFault>
    ensures { WritesText W.contents writer.old writer.new
        (replies_text history.now.entries) result }
{
    let workers = history.last_worker() as usize + 1;
    if workers == 1 || history.len() < MANY_REPLIES {
        return write_replies(alloc, writer, history);
    }
    let Ok(texts) = worker_texts(rt, alloc, history, workers) else {
        return Err(WriteFault::Memory);
    };
    write_parts(writer, texts.as_slice())?;
    flush(writer)
}

/// Writes each entry of a history as a line, in the order given, and flushes. It takes no memory.
///
/// After `Write` a prefix of the text was written.
pub fn write_history<W: Write>(writer: &mut W, history: &History) -> Result<(), WriteFault>
    ensures { WritesText W.contents writer.old writer.new
        (history_text history.now.entries) result }
{
    write_history_on(writer, history, &Before::none())
}

/// Writes the entries of a part of a run as `write_history` does: their phases and indexes go on
/// from what went before.
///
/// After `Write` a prefix of the text was written. A phase or an index past 64 bits is not written:
/// `Write`.
pub fn write_history_on<W: Write>(
    writer: &mut W,
    history: &History,
    before: &Before,
) -> Result<(), WriteFault>
    ensures { WritesText W.contents writer.old writer.new
        (history_text (all_moved (gone_by before.now) history.now.entries)) result }
{
    let mut block = TextBlock::new();
    put_entries(writer, &mut block, history, before)?;
    write_last(writer, block.bytes())
}

/// Writes these rows, and then those of the accepted stores among the entries, as records that can
/// be read again, each a line, in the order given, and flushes.
///
/// `Memory` comes before the first byte is written; after `Write` a prefix of the text was written.
pub fn write_rows<W: Write>(
    alloc: Global,
    writer: &mut W,
    rows: &[Row],
    history: &History,
) -> Result<(), WriteFault>
    ensures { WritesText W.contents writer.old writer.new
        (rows_text rows.now history.now.entries) result }
{
    write_made(writer, rows_text(alloc, rows, history))
}

/// Writes a report of a run, and flushes: how many phases, requests and refusals there were, the
/// hot set of each phase, where it is not empty, and the replies to the views of each category and
/// of each user with comments.
///
/// `hot` has a set for each phase. `Memory` comes before the first byte is written; after `Write` a
/// prefix of the text was written.
pub fn write_report<W: Write>(
    alloc: Global,
    writer: &mut W,
    history: &History,
    hot: &[IndexSet<Object>],
    lines: &ReportLines,
) -> Result<(), WriteFault>
    ensures { WritesText W.contents writer.old writer.new
        (report_text history.now.entries (map (λ set. set.keys) hot.now)
        lines.now.categories.items lines.now.users.items) result }
{
    write_made(writer, report_text(alloc, history, hot, lines))
}
