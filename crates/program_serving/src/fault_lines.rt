//! The answers to lines that are turned away, which have a fault or are past a limit.
ghost use Rattle.std.specs.Prelude.{◌≡◌, ◌++◌, IfErr, IfOk, OnOk};
ghost use Rattle.auction_text.specs.Moved.{gone_by};
ghost use Rattle.program_serving.specs.FaultLines.{answer_line, fault_text, record_text};
ghost use Rattle.program_serving.specs.inner.Sessions.{answer_to, turned_text};

use auction_text::{Before, MOST_RECORDS, ReadFault};
use byte_texts::{WriteFault, push_labelled, push_number, push_text};
use program_opening::{Fault, Options};
use std::alloc::{AllocError, Global};

/// Why a line is turned away.
#[derive(Clone, Copy)]
pub(crate) enum Turned {
    /// It has a fault.
    Line(ReadFault),
    /// It is a request of a worker that has as many rows as this limit.
    Past(u64),
}

/// A line that is turned away.
#[derive(Clone, Copy)]
pub(crate) struct TurnedLine {
    /// The worker that it names, if it names one.
    pub(crate) worker: Option<u32>,
    /// Why it is.
    pub(crate) turned: Turned,
}

// Adds the number of a record, and what is wrong with it.
fn push_record(text: &mut Vec<u8>, place: u64, words: &[u8]) -> Result<(), AllocError>
    ensures { OnOk result (text.new.items
        ≡ text.old.items ++ record_text place words.now) }
{
    push_labelled(text, b"record ", place)?;
    push_text(text, b": ")?;
    push_text(text, words)
}

// Adds the text of a fault.
fn push_fault(text: &mut Vec<u8>, fault: ReadFault) -> Result<(), AllocError>
    ensures { OnOk result (text.new.items ≡ text.old.items ++ fault_text fault) }
{
    match fault {
        ReadFault::Line(place, cause) => push_record(text, place, cause.text().as_bytes()),
        ReadFault::Worker(place) => push_record(text, place, b"no such worker"),
        ReadFault::Read => push_text(text, b"input cannot be read"),
        ReadFault::Memory => push_text(text, b"no memory"),
        ReadFault::Long => {
            push_labelled(text, b"more than ", u64::from(MOST_RECORDS))?;
            push_text(text, b" records")
        }
    }
}

// Adds why a line is turned away.
fn push_turned(text: &mut Vec<u8>, turned: Turned) -> Result<(), AllocError>
    ensures { OnOk result (text.new.items ≡ text.old.items ++ turned_text turned) }
{
    match turned {
        Turned::Line(fault) => push_fault(text, fault),
        Turned::Past(limit) => {
            push_labelled(text, b"more than ", limit)?;
            push_text(text, b" requests for a worker")
        }
    }
}

// Adds the answer to a worker's line that is turned away, with the index of its next request.
fn push_answer(
    text: &mut Vec<u8>,
    worker: u32,
    index: u64,
    turned: Turned,
) -> Result<(), AllocError>
    ensures { OnOk result (text.new.items
        ≡ text.old.items ++ answer_line worker index (turned_text turned)) }
{
    push_number(text, u64::from(worker))?;
    push_labelled(text, b",", index)?;
    push_text(text, b",fault ")?;
    push_turned(text, turned)?;
    push_text(text, b"\n")
}

/// The answer to a line that is turned away: none if it names no worker, or no replies are asked
/// for.
pub(crate) fn answer_to(
    alloc: Global,
    options: &Options,
    before: &Before,
    line: TurnedLine,
) -> Result<Vec<u8>, Fault>
    ensures text { IfOk result (λ text.
        text.items ≡ answer_to options.now (gone_by before.now) line) }
    ensures memory { IfErr result (λ fault. fault ≡ Fault.Write WriteFault.Memory) }
{
    let mut text = Vec::new(alloc);
    if options.rows || options.history {
        return Ok(text);
    }
    let Some(worker) = line.worker else {
        return Ok(text);
    };
    match push_answer(&mut text, worker, before.requests_of(worker), line.turned) {
        Ok(()) => Ok(text),
        Err(_) => Err(Fault::Write(WriteFault::Memory)),
    }
}
