//! From the bytes of rows and scripts and those of a history to what is found of the history, as a
//! line and as an exit status.
ghost use Rattle.std.specs.Io.KnownBytes.{Appends};
ghost use Rattle.std.specs.Prelude.{◌≡◌, ◌≤◌, ◌++◌, Err, IfErr, IfOk, IfSome, OnOk, map};
ghost use Rattle.byte_texts.specs.Writing.{IsPartWritten};
ghost use Rattle.byte_texts.specs.declared.writing.WriteFault.{WriteFault};
ghost use Rattle.rubis_check.specs.{Causes.{IsCausedBy}, Faults.{verdict_status}};
ghost use Rattle.rubis_check.specs.Finding.{Tells, TellsSome};
ghost use Rattle.rubis_check.specs.VerdictLines.{place_text, reason_text, shown_byte, Says, SaysWrong};

use crate::faults::Fault;
use crate::options::Options;
use auction_rows::MOST_WORKERS;
use auction_text::{push_reply, read_compact_scripts};
use byte_texts::{WriteFault, push_labelled, push_number, push_text, write_last};
use history_check::{CommitId, Verdict, Wrong, check_history, read_line};
use item_shards::OpeningBook;
use std::alloc::{AllocError, Global};
use std::io::{BufRead, Read, Write};

/// Opens an auction with the rows that the first reader gives, replays the history that the second
/// gives on it, and writes what is found as a line. If the writer fails, a prefix of that line was
/// written, and after any other fault nothing. A fault has its cause.
pub fn execute<I: Read + Drop, H: BufRead, W: Write>(
    alloc: Global,
    reader: I,
    history: &mut H,
    writer: &mut W,
    options: &Options,
) -> Result<Verdict, Fault>
    requires { options.now.workers ≤ MOST_WORKERS }
    ensures tells { IfOk result (λ verdict. Tells options.now (I.remaining reader)
        (H.remaining history.old) verdict
        (Appends (W.contents writer.old) (W.contents writer.new))) }
    ensures part { result ≡ Err (Fault.Write WriteFault.Write) → TellsSome options.now
        (I.remaining reader) (H.remaining history.old)
        (IsPartWritten (W.contents writer.old) (W.contents writer.new)) }
    ensures unwritten { IfErr result (λ fault. ¬ (fault ≡ Fault.Write WriteFault.Write) →
        writer.new ≡ writer.old) }
    ensures cause { IfErr result (λ fault. IfSome (I.remaining reader) (λ input.
        IsCausedBy options.now input (H.remaining history.old) fault)) }
{
    let input = read_compact_scripts(alloc, reader, options.workers)?;
    let book = OpeningBook::new(alloc, options.opening, input.rows)?;
    let mut line = Vec::new(alloc);
    let verdict = check_history(
        alloc,
        &book,
        &input.scripts,
        options.order,
        history,
        &mut line,
    )?;
    write_verdict(alloc, writer, &verdict, &line)?;
    Ok(verdict)
}

/// The exit status of what was found: 0 if the history replays, 5 for another reply than the one
/// due, 6 for a request that stands in no line, in two, or in no script, 7 for an order, 8 for a
/// line that can't be read.
pub fn verdict_status(verdict: &Verdict) -> u8
    ensures { result ≡ verdict_status verdict.now }
{
    match verdict {
        Verdict::Replays => 0,
        Verdict::WrongAt(_, Wrong::Due(_)) => 5,
        Verdict::WrongAt(_, Wrong::NoRequest | Wrong::Again) | Verdict::Lacks(..) => 6,
        Verdict::WrongAt(_, Wrong::Late) => 7,
        Verdict::WrongAt(_, Wrong::Unreadable) => 8,
    }
}

// A byte as it is shown: a question mark in place of one that does not print, which could steer a
// terminal.
fn shown(byte: u8) -> u8
    ensures { result ≡ shown_byte byte }
{
    if 0x20 <= byte && byte <= 0x7E {
        byte
    } else {
        b'?'
    }
}

// Adds a text as it is shown.
fn push_shown(text: &mut Vec<u8>, bytes: &[u8]) -> Result<(), AllocError>
    ensures { OnOk result (text.new.items ≡ text.old.items ++ map shown_byte bytes.now) }
{
    for byte in bytes {
        text.push(shown(*byte))?;
    }
    Ok(())
}

// Adds what is wrong with a line of a history that has this reply.
fn push_reason(text: &mut Vec<u8>, reply: &[u8], wrong: &Wrong) -> Result<(), AllocError>
    ensures { OnOk result (text.new.items ≡ text.old.items ++ reason_text reply.now wrong.now) }
{
    match wrong {
        Wrong::Unreadable => push_text(
            text,
            b"not PHASE NUMBER WORKER INDEX TEXT and a line feed\n",
        ),
        Wrong::NoRequest => push_text(text, b"stands in no script\n"),
        Wrong::Again => push_text(text, b"stands in an earlier line\n"),
        Wrong::Late => push_text(text, b"stands after a later request of its script\n"),
        Wrong::Due(due) => {
            push_shown(text, reply)?;
            push_text(text, b" but ")?;
            push_reply(text, due)?;
            push_text(text, b" was due\n")
        }
    }
}

// Adds the worker and the index of a commit.
fn push_place(text: &mut Vec<u8>, commit_id: CommitId) -> Result<(), AllocError>
    ensures { OnOk result (text.new.items ≡ text.old.items ++ place_text commit_id) }
{
    push_number(text, u64::from(commit_id.worker))?;
    push_labelled(text, b",", u64::from(commit_id.index))?;
    push_text(text, b" ")
}

// Adds what is said of a line of a history that is wrong.
fn push_wrong(text: &mut Vec<u8>, wrong: &Wrong, line: &[u8]) -> Result<(), AllocError>
    ensures { OnOk result (SaysWrong line.now wrong.now
        (λ said. text.new.items ≡ text.old.items ++ said)) }
{
    match read_line(line) {
        Some((commit_id, reply)) => {
            push_place(text, commit_id)?;
            push_reason(text, reply, wrong)
        }
        None => push_reason(text, b"", wrong),
    }
}

// Adds what was found, as a line.
fn push_verdict(text: &mut Vec<u8>, verdict: &Verdict, line: &[u8]) -> Result<(), AllocError>
    ensures { OnOk result (Says line.now verdict.now
        (λ said. text.new.items ≡ text.old.items ++ said)) }
{
    match verdict {
        Verdict::Replays => push_text(text, b"the history replays\n"),
        Verdict::WrongAt(number, wrong) => {
            push_labelled(text, b"line ", *number as u64)?;
            push_text(text, b": ")?;
            push_wrong(text, wrong, line)
        }
        Verdict::Lacks(worker, index) => {
            push_number(text, *worker as u64)?;
            push_labelled(text, b",", *index as u64)?;
            push_text(text, b" stands in no line\n")
        }
    }
}

// Writes the line of what was found, and flushes. `line` is the line of the history that is wrong,
// if one is.
//
// `Memory` comes before the first byte is written; after `Write` a prefix of the line was written.
fn write_verdict<W: Write>(
    alloc: Global,
    writer: &mut W,
    verdict: &Verdict,
    line: &[u8],
) -> Result<(), WriteFault>
    ensures whole { OnOk result (Says line.now verdict.now
        (Appends (W.contents writer.old) (W.contents writer.new))) }
    ensures part { result ≡ Err WriteFault.Write → Says line.now verdict.now
        (IsPartWritten (W.contents writer.old) (W.contents writer.new)) }
    ensures memory { result ≡ Err WriteFault.Memory → writer.new ≡ writer.old }
{
    let mut text = Vec::new(alloc);
    let Ok(()) = push_verdict(&mut text, verdict, line) else {
        return Err(WriteFault::Memory);
    };
    write_last(writer, text.as_slice())
}
