//! Texts that are written a block at a time.
ghost use Rattle.std.specs.{List.{flat_map}, Prelude.{◌≡◌, ◌+◌, ◌≤◌, [], length, OnOk}};
ghost use Rattle.auction_text.specs.{Moved.{gone_by, moved}, Replies.{history_line}};
ghost use Rattle.auction_text.specs.inner.Putting.{PutsText, line_after};

use crate::writing::Before;
use crate::writing::replies::{MOST_OF_A_LINE, ROOM, TextBlock, put_history_line, put_reply_line};
use byte_texts::{WriteFault, write_part};
use std::io::Write;
use worker_journals::EntryRef;

// Writes what a block has, and makes it empty.
#[inline(never)]
fn write_block<W: Write>(writer: &mut W, block: &mut TextBlock) -> Result<(), WriteFault>
    ensures puts { PutsText W.contents writer.old writer.new block.old block.new [] result }
    ensures empty { OnOk result (block.new ≡ []) }
{
    write_part(writer, block.bytes())?;
    block.clear();
    Ok(())
}

// Writes what a block has, where there may be no room for a line.
#[inline(always)]
fn make_room<W: Write>(writer: &mut W, block: &mut TextBlock) -> Result<(), WriteFault>
    ensures puts { PutsText W.contents writer.old writer.new block.old block.new [] result }
    ensures room { OnOk result (MOST_OF_A_LINE + length block.new ≤ ROOM) }
{
    if block.len() > ROOM - MOST_OF_A_LINE {
        return write_block(writer, block);
    }
    Ok(())
}

/// Puts the line of an entry among the replies, after so many requests of its worker. An index past
/// 64 bits is not written.
#[inline(always)]
pub(crate) fn put_reply<W: Write>(
    writer: &mut W,
    block: &mut TextBlock,
    entry: &EntryRef<'_>,
    gone: u64,
) -> Result<(), WriteFault>
    ensures { PutsText W.contents writer.old writer.new block.old block.new
        (line_after gone entry.now) result }
{
    let Some(index) = gone.checked_add(u64::from(entry.index())) else {
        return Err(WriteFault::Write);
    };
    make_room(writer, block)?;
    put_reply_line(block, entry, index);
    Ok(())
}

/// Puts the line of an entry in a history, after what went before. A phase or an index past 64 bits
/// is not written.
pub(crate) fn put_entry<W: Write>(
    writer: &mut W,
    block: &mut TextBlock,
    entry: &EntryRef<'_>,
    before: &Before,
) -> Result<(), WriteFault>
    ensures { PutsText W.contents writer.old writer.new block.old block.new
        (history_line (moved (gone_by before.now) entry.now)) result }
{
    let Some((phase, index)) = before.place_of(entry) else {
        return Err(WriteFault::Write);
    };
    make_room(writer, block)?;
    put_history_line(block, entry, phase, index);
    Ok(())
}

/// Writes texts one after the other.
pub(crate) fn write_parts<W: Write>(writer: &mut W, parts: &[Vec<u8>]) -> Result<(), WriteFault>
    ensures { PutsText W.contents writer.old writer.new [] []
        (flat_map (λ part. part.items) parts.now) result }
{
    for part in parts {
        write_part(writer, part.as_slice())?;
    }
    Ok(())
}
