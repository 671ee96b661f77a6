//! What records ask for, and what is wrong with one that has a fault.
ghost use Rattle.std.specs.Prelude.{◌≡◌, ◌<◌, vec_len, IfOk, OnOk};
ghost use Rattle.record_reading.specs.Asking.{asked_of, nothing_asked, with_record};
ghost use Rattle.record_reading.specs.Reading.{HasNoInputFault};

use crate::record::Record;
use auction_rows::{MOST_ROWS, Opened};
use std::alloc::Global;
use thiserror::Error;
use worker_journals::Script;

/// The most records of an input: as many as a book has rows.
pub const MOST_RECORDS: u32 = MOST_ROWS as u32;

/// The most rows of a part of an input that is read line by line: rows may flood in before the
/// first request.
pub const MOST_ROWS_OF_A_PART: usize = 65_536;

/// What records ask for: the rows that the auction is opened with, and each worker's script.
#[derive(Drop)]
pub struct CompactInput {
    /// The rows, in their order.
    pub rows: Vec<Opened>,
    /// The script of each worker, by the worker's number.
    pub scripts: Vec<Script>,
}

impl CompactInput {
    /// No rows, and an empty script for each worker.
    pub fn new(alloc: Global, workers: u32) -> Result<CompactInput, ReadFault>
        ensures empty { IfOk result (λ input. asked_of input ≡ nothing_asked workers) }
        ensures count { IfOk result (λ input. vec_len input.scripts ≡ workers) }
        ensures fails { HasNoInputFault result }
    {
        CompactInput::with_room(alloc, workers, 0)
    }

    /// No rows, and for each worker an empty script with room for so many requests.
    pub fn with_room(
        alloc: Global,
        workers: u32,
        requests: usize,
    ) -> Result<CompactInput, ReadFault>
        ensures empty { IfOk result (λ input. asked_of input ≡ nothing_asked workers) }
        ensures count { IfOk result (λ input. vec_len input.scripts ≡ workers) }
        ensures fails { HasNoInputFault result }
    {
        let Ok(mut scripts) = Vec::with_capacity(alloc, workers as usize) else {
            return Err(ReadFault::Memory);
        };
        for _ in 0..workers {
            let Ok(script) = Script::with_room(alloc, requests) else {
                return Err(ReadFault::Memory);
            };
            if scripts.push(script).is_err() {
                return Err(ReadFault::Memory);
            }
        }
        let rows = Vec::new(alloc);
        Ok(CompactInput { rows, scripts })
    }

    /// Puts a row at the end of the rows, and a request at the end of its worker's script.
    #[inline(always)]
    pub fn add(&mut self, said: &Record) -> Result<(), ReadFault>
        requires { said.now.worker < vec_len self.old.scripts }
        ensures adds { OnOk result (asked_of self.new ≡ with_record said.now (asked_of self.old)) }
        ensures count { vec_len self.new.scripts ≡ vec_len self.old.scripts }
        ensures fails { HasNoInputFault result }
    {
        let worker = said.worker;
        let request = said.request;
        let refused = if said.is_row {
            self.rows.push(Opened { worker, request }).is_err()
        } else {
            let script = &mut self.scripts[worker as usize];
            script.push(&request).is_err()
        };
        if refused {
            return Err(ReadFault::Memory);
        }
        Ok(())
    }
}

/// What is wrong with a record.
#[derive(Clone, Copy, Debug, PartialEq, Eq, Drop, Error)]
#[error("{text}", text = Cause::text(*self))]
pub enum Cause {
    /// A field is not a number of its type.
    Number,
    /// The second field is not a kind.
    Kind,
    /// A row stands after a request.
    Late,
    /// There are more or fewer fields than the kind has.
    Fields,
    /// A field is not an item's id.
    Item,
    /// A field is not a name.
    Name,
    /// A field is not a number from 1 to 1,000,000.
    Quantity,
    /// A field is not a number from -5 to 5.
    Stars,
    /// A line has more bytes than are read at a time.
    Long,
}

impl Cause {
    ghost use Rattle.record_reading.specs.Causes.{cause_text};

    /// Its words in the line of a fault.
    pub fn text(self) -> &'static str
        ensures { result.now ≡ cause_text self }
    {
        match self {
            Cause::Number => "not a number",
            Cause::Kind => "unknown kind",
            Cause::Late => "row after a request",
            Cause::Fields => "wrong number of fields",
            Cause::Item => "not an item id",
            Cause::Name => "not a name",
            Cause::Quantity => "not a quantity",
            Cause::Stars => "not stars",
            Cause::Long => "too long",
        }
    }
}

/// Why an input gives no scripts. Records are counted from 1.
#[derive(Clone, Copy, Debug, PartialEq, Eq, Drop, Error)]
pub enum ReadFault {
    /// A record is not what its kind asks for.
    #[error("record {0}: {1}")]
    Line(u64, Cause),
    /// A record's worker is not below the number of workers.
    #[error("record {0}: no such worker")]
    Worker(u64),
    /// A read of the input failed.
    #[error("input cannot be read")]
    Read,
    /// No memory was left.
    #[error("no memory")]
    Memory,
    /// There are more records than `MOST_RECORDS`.
    #[error("more than {} records", MOST_RECORDS)]
    Long,
}
