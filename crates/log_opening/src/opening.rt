//! What the text of a log opens, and which text is refused.
ghost use Rattle.std.specs.Prelude.{◌≡◌, [], IfErr, IfOk, IfSome};
ghost use Rattle.phase_floor.specs.Adding.{IsSameAuction, IsStartOf};
ghost use Rattle.log_opening.specs.Opening.{IsRefusedBy, Opens, TellsFirst};

use crate::parts::{PART_LEN, ReadRows};
use auction_text::ReadFault;
use phase_floor::{AddFault, Joined};
use std::alloc::Global;
use std::io::{Read, Write};
use thiserror::Error;

/// Why the text of a log opens no auction. Lines, records and rows are counted from 1.
#[derive(Clone, Copy, Debug, PartialEq, Eq, Drop, Error)]
pub enum OpenFault {
    /// The last line, the one with this number, has no end and is not the beginning of a row.
    #[error("line {0}: no line end, and not the beginning of a row")]
    Tail(u64),
    /// The line with this number is longer than a row.
    #[error("line {0}: longer than a row")]
    Long(u64),
    /// A record cannot be read.
    #[error("{0}")]
    Record(ReadFault),
    /// The row with this number is not added.
    #[error("row {0}: {1}")]
    Row(u64, AddFault),
    /// The line with this number is the first that is not as rows are written.
    #[error("line {0}: not as rows are written")]
    Line(u64),
    /// No memory was left.
    #[error("no memory")]
    Memory,
    /// The rows that were read could not be told.
    #[error("output cannot be written")]
    Write,
}

/// What the text of a log opens.
#[derive(Drop)]
pub struct LoggedAuction {
    /// An auction with its rows.
    pub auction: Joined,
    /// How many they are.
    pub rows: u64,
    /// How many bytes of the text these rows have.
    pub kept: u64,
    /// The bytes behind them: a cut row.
    pub tail: Vec<u8>,
}

/// Adds the rows of a log to an auction while its text is read: its whole lines are rows as they
/// are written, and what is behind them is the beginning of a row that was being written, or
/// nothing. Any other text is refused. It holds 64 KiB of the text at a time, and writes the text
/// of the rows to `told` as they are read: to `io::sink()` if nobody wants it.
pub fn open_parts<R: Read, W: Write>(
    alloc: Global,
    reader: &mut R,
    auction: Joined,
    told: &mut W,
) -> Result<LoggedAuction, OpenFault>
    requires { IsStartOf auction [] }
    ensures opens { IfOk result (Opens (R.remaining reader.old)
        (W.contents told.old) (W.contents told.new)) }
    ensures same { IfOk result (λ opened. IsSameAuction auction opened.auction) }
    ensures refused { IfErr result (λ fault. IfSome (R.remaining reader.old)
        (IsRefusedBy fault auction)) }
    ensures told { IfErr result (λ _. TellsFirst (R.remaining reader.old)
        (W.contents told.old) (W.contents told.new)) }
{
    let mut reading = ReadRows {
        auction,
        rows: 0,
        kept: 0,
    };
    let Ok(mut buffer) = vec![in alloc; 0u8; PART_LEN] else {
        return Err(OpenFault::Memory);
    };
    let filled = reading.read_parts(alloc, reader, &mut buffer, told)?;
    reading.end(buffer, filled)
}
