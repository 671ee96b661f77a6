//! What is logged of a part and what is written of it, and what is told of a line that is turned
//! away. Nothing is written anywhere else.
ghost use Rattle.std.specs.Prelude.{◌≡◌, [], IfErr, IfOk, IfSome, OnOk};
ghost use Rattle.auction_text.specs.{Moved.{gone_by}, RowLines.{rows_text}};
ghost use Rattle.byte_texts.specs.Writing.{WritesText};
ghost use Rattle.program_serving.specs.{ErrorFaults.{AddsTold, turned_faults}, ServeFaults.{AreToldAt}};
ghost use Rattle.program_serving.specs.Serving.{OfPart, part_text, told_by};
ghost use Rattle.program_serving.specs.inner.Sessions.{answer_to};

use crate::error_place::{ErrorPlace, tell_error};
use crate::fault_lines::{TurnedLine, answer_to};
use auction_rows::Row;
use auction_text::{Before, TextBlock, write_history_on, write_replies_by, write_rows};
use byte_texts::WriteFault;
use part_log::{Log, Teller};
use program_opening::{Fault, Options};
use std::alloc::Global;
use std::io::Write;
use worker_journals::History;

/// What a part commits, after what went before it: the rows that it adds, and then the history of
/// its requests.
#[derive(Drop)]
pub(crate) struct Committed {
    pub(crate) before: Before,
    pub(crate) rows: Vec<Row>,
    pub(crate) history: History,
}

// Room for the text of a part, which is kept from part to part: to make it anew takes longer than
// to write a few lines.
#[derive(Drop)]
struct TextRoom {
    block: TextBlock,
    text: Vec<u8>,
}

/// A log and a writer, where faults are told that have no place among the replies, and room for the
/// text of a part. Only the functions of this file reach them: what is written of a part is made of
/// what it commits, and so are the rows that are logged before it.
#[derive(Drop)]
pub struct LiveTeller<L, W, E> {
    // The log, and the writer of the replies.
    teller: Teller<L, W>,
    // Where a fault is told of a line that names no worker, or if no replies are asked for.
    errors: E,
    room: TextRoom,
}

impl<L, W, E> LiveTeller<L, W, E> {
    /// A teller by this log and writer, that tells other faults there.
    pub fn of(alloc: Global, teller: Teller<L, W>, errors: E) -> LiveTeller<L, W, E>
        ensures teller { result.teller ≡ teller }
        ensures errors { result.errors ≡ errors }
    {
        let room = TextRoom {
            block: TextBlock::new(),
            text: Vec::new(alloc),
        };
        LiveTeller {
            teller,
            errors,
            room,
        }
    }
}

// The text of the rows that a part adds, for a log that keeps it: of one that keeps nothing no
// bytes are known.
fn logged_text<L: Log, W: Write>(
    alloc: Global,
    teller: &Teller<L, W>,
    committed: &Committed,
) -> Result<Vec<u8>, Fault>
    ensures text { IfOk result (λ text. IfSome (L.accepted teller.now.log) (λ _.
        text.items ≡ rows_text committed.now.rows.items committed.now.history.entries)) }
    ensures memory { IfErr result (λ fault. fault ≡ Fault.Write WriteFault.Memory) }
{
    let mut text = Vec::new(alloc);
    if !teller.keeps() {
        return Ok(text);
    }
    match write_rows(
        alloc,
        &mut text,
        committed.rows.as_slice(),
        &committed.history,
    ) {
        Ok(()) => Ok(text),
        Err(_) => Err(Fault::Write(WriteFault::Memory)),
    }
}

// Writes what the options ask for of a part, by a block.
fn write_asked<W: Write>(
    alloc: Global,
    writer: &mut W,
    options: &Options,
    committed: &Committed,
    block: &mut TextBlock,
) -> Result<(), WriteFault>
    ensures { WritesText W.contents writer.old writer.new (part_text options.now
        (gone_by committed.now.before) committed.now.rows.items committed.now.history.entries)
        result }
{
    let Committed {
        before,
        rows,
        history,
    } = committed;
    if options.rows {
        write_rows(alloc, writer, rows.as_slice(), history)
    } else if options.history {
        write_history_on(writer, history, before)
    } else {
        write_replies_by(alloc, writer, history, before, block)
    }
}

// Makes what the options ask for of a part in memory.
fn make_text(
    alloc: Global,
    room: &mut TextRoom,
    options: &Options,
    committed: &Committed,
) -> Result<(), Fault>
    ensures text { OnOk result (room.new.text.items ≡ part_text options.now
        (gone_by committed.now.before) committed.now.rows.items committed.now.history.entries) }
    ensures memory { IfErr result (λ fault. fault ≡ Fault.Write WriteFault.Memory) }
{
    room.text.clear();
    match write_asked(alloc, &mut room.text, options, committed, &mut room.block) {
        Ok(()) => Ok(()),
        Err(_) => Err(Fault::Write(WriteFault::Memory)),
    }
}

/// Logs the rows that a part adds, and then writes what the options ask for of it.
pub(crate) fn tell_committed<L: Log, W: Write, E>(
    alloc: Global,
    teller: &mut LiveTeller<L, W, E>,
    options: &Options,
    committed: &Committed,
) -> Result<(), Fault>
    ensures told { OnOk result (OfPart options.now (gone_by committed.now.before)
        committed.now.rows.items committed.now.history.entries
        (told_by L.accepted W.contents teller.old.teller teller.new.teller).whole) }
    ensures so_far { IfErr result (λ fault. OfPart options.now (gone_by committed.now.before)
        committed.now.rows.items committed.now.history.entries
        (AreToldAt (told_by L.accepted W.contents teller.old.teller teller.new.teller) fault)) }
    ensures errors { teller.new.errors ≡ teller.old.errors }
{
    let rows = logged_text(alloc, &teller.teller, committed)?;
    make_text(alloc, &mut teller.room, options, committed)?;
    let text = &teller.room.text;
    teller.teller.tell(rows.as_slice(), text.as_slice())?;
    Ok(())
}

/// Answers a line that is turned away after what went before it, or if it has no answer tells why
/// where faults are told.
pub(crate) fn tell_turned<L: Log, W: Write, E: ErrorPlace>(
    alloc: Global,
    teller: &mut LiveTeller<L, W, E>,
    options: &Options,
    before: &Before,
    line: TurnedLine,
) -> Result<(), Fault>
    ensures told { OnOk result (
        (told_by L.accepted W.contents teller.old.teller teller.new.teller).whole
        [] (answer_to options.now (gone_by before.now) line)) }
    ensures so_far { IfErr result (λ fault.
        AreToldAt (told_by L.accepted W.contents teller.old.teller teller.new.teller) fault
        [] (answer_to options.now (gone_by before.now) line)) }
    ensures errors { OnOk result (AddsTold (E.told teller.old.errors) (E.told teller.new.errors)
        (turned_faults options.now line)) }
{
    let answer = answer_to(alloc, options, before, line)?;
    tell_error(&mut teller.errors, options, line);
    teller.teller.tell(&[], answer.as_slice())?;
    Ok(())
}
