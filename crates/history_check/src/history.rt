//! The check of a whole history, line by line, and what holds of the lines of the product's
//! histories.
ghost use Rattle.std.specs.{Bool.{OnFalse, OnTrue}, Io.KnownBytes.{Keeps}, List.{AllByRecursion}};
ghost use Rattle.std.specs.Prelude.{◌≡◌, ◌<◌, ◌≤◌, ◌+◌, [], true, length, IfOk, IfSome, IsErrOf, ℕ, List};
ghost use Rattle.auction_rows.specs.declared.rows.Entry.{Entry};
ghost use Rattle.item_shards.specs.OpeningBooks.{opening_of, rows_of_book};
ghost use Rattle.auction_text.specs.Replies.{history_line, history_text, reply_text};
ghost use Rattle.history_check.specs.Checking.{IsAccepted, IsVerdict};
ghost use Rattle.history_check.specs.CommitIds.{line_at, commit_id_of};
ghost use Rattle.history_check.specs.Texts.{lines_of, ShowsName, history_lines};
ghost use Rattle.history_check.specs.declared.lines.CheckFault.TheVariants.{TooLong};
ghost use Rattle.history_check.specs.declared.lines.Verdict.TheVariants.{Replays};
ghost use Rattle.history_check.specs.inner.Reading.{ReadsLine};

use crate::lines::{CheckFault, Order, Verdict};
use crate::replay::Replay;
use auction_rows::{MOST_ROWS, MOST_WORKERS};
use item_shards::OpeningBook;
use memchr::memchr;
use std::alloc::Global;
use std::io::{BufRead, Error, ErrorKind};
use worker_journals::Script;

// Why a read failed.
fn fault_of(error: Error) -> CheckFault
    ensures { result ≡ TooLong → ⊥ }
{
    if error.kind() == ErrorKind::OutOfMemory {
        CheckFault::Memory
    } else {
        CheckFault::Read(error)
    }
}

// Takes the next line with its line feed, if the reader holds the whole of it.
fn take_held<R: BufRead>(reader: &mut R, line: &mut Vec<u8>) -> Result<bool, CheckFault>
    requires { line.old.items ≡ [] }
    ensures line { IfOk result (λ found. OnTrue found (
        ReadsLine (R.remaining reader.old) (R.remaining reader.new) true line.new.items)) }
    ensures none { IfOk result (λ found. OnFalse found (
        Keeps (R.remaining reader.old) (R.remaining reader.new) × (line.new.items ≡ []))) }
    ensures fault { IsErrOf result TooLong → ⊥ }
{
    let held = match reader.fill_buf() {
        Ok(held) => held,
        Err(error) => {
            return if error.kind() == ErrorKind::Interrupted {
                Ok(false)
            } else {
                Err(fault_of(error))
            };
        }
    };
    let Some(place) = memchr(b'\n', held) else {
        return Ok(false);
    };
    line.extend_from_slice(&held[..place + 1])?;
    reader.consume(place + 1);
    Ok(true)
}

// Reads the next line with its line feed, if there is one.
fn read_next<R: BufRead>(reader: &mut R, line: &mut Vec<u8>) -> Result<bool, CheckFault>
    ensures line { IfOk result (λ found.
        ReadsLine (R.remaining reader.old) (R.remaining reader.new) found line.new.items) }
    ensures fault { IsErrOf result TooLong → ⊥ }
{
    line.clear();
    if take_held(reader, line)? {
        return Ok(true);
    }
    match reader.read_until(b'\n', line) {
        Ok(0) => Ok(false),
        Ok(_) => Ok(true),
        Err(error) => Err(fault_of(error)),
    }
}

/// Replays a text, line by line, on an auction of one thread from the book that it is opened with,
/// and compares each reply with that of the line. `scripts` are those of at most 16 workers. If a
/// line is wrong, `line` holds it. It takes time in proportion to the text, the rows, the requests,
/// the users and the categories. It takes memory for the rows, the users, the categories, 16 marks
/// for each index of the longest script, and a line.
pub fn check_history<R: BufRead>(
    alloc: Global,
    book: &OpeningBook,
    scripts: &[Script],
    order: Order,
    reader: &mut R,
    line: &mut Vec<u8>,
) -> Result<Verdict, CheckFault>
    requires workers { length scripts.now ≤ MOST_WORKERS }
    ensures verdict { IfOk result (λ verdict. IfSome (R.remaining reader.old) (λ text.
        IsVerdict (opening_of book.now) (rows_of_book book.now) scripts.now order text
        line.new.items verdict)) }
    ensures accepted { IfOk result (λ verdict. IfSome (R.remaining reader.old) (λ text.
        IsAccepted (opening_of book.now) (rows_of_book book.now) scripts.now order text →
        verdict ≡ Replays)) }
    ensures too_long { IsErrOf result TooLong → IfSome (R.remaining reader.old) (λ text.
        MOST_ROWS < length (rows_of_book book.now) + length (lines_of text)) }
{
    let mut replay = Replay::new(alloc, book, scripts, order)?;
    for number in 0..MOST_ROWS + 1 {
        if !read_next(reader, line)? {
            if let Some((worker, index)) = replay.lacks(scripts) {
                return Ok(Verdict::Lacks(worker, index));
            }
            return Ok(Verdict::Replays);
        }
        if !replay.perform(scripts, line)? {
            return Ok(Verdict::WrongAt(number + 1, replay.wrong()));
        }
    }
    Err(CheckFault::TooLong)
}

/// The line of an entry in a history is that of the text of its reply after its id.
pub fn lines_are_placed()
    ensures { (entry : Entry) →
        history_line entry ≡ line_at (commit_id_of entry) (reply_text entry.reply) }
{}

/// A text whose lines are those of a history is the history's text; and if each name that a
/// history shows is a name, as every `Name` is, the lines of its text are those of the history.
pub fn texts_are_lines()
    ensures text { (history : List Entry) (text : List ℕ) → history_lines history ≡ lines_of text →
        history_text history ≡ text }
    ensures lines { (history : List Entry) →
        AllByRecursion (λ entry. ShowsName entry.reply) history →
        lines_of (history_text history) ≡ history_lines history }
{}
