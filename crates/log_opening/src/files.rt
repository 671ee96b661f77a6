//! The file of a log: how it is read, and how it goes on as a log.
ghost use Rattle.std.specs.Prelude.{◌≡◌, false, [], Some, IfErr, IfOk, IfSome};
ghost use Rattle.auction_rows.specs.Book.{Book};
ghost use Rattle.phase_floor.specs.Adding.{IsSameAuction, IsStartOf};
ghost use Rattle.auction_text.specs.RowLines.{rows_text};
ghost use Rattle.log_opening.specs.Opening.{IsRefusedBy, Opens, OpensWith, TellsFirst};

use crate::opening::{LoggedAuction, OpenFault, open_parts};
use byte_texts::UntilEnd;
use log_file::FromStart;
use part_log::{AppendFile, FileLog};
use phase_floor::Joined;
use std::alloc::Global;
use std::io;
use std::io::Write;

/// Reads the file of a log, as `open_parts` does. The file stays as it is: what is behind the rows
/// is cut off by `cut_log`, once it is kept elsewhere.
pub fn read_log<F: AppendFile, W: Write>(
    alloc: Global,
    file: &F,
    auction: Joined,
    told: &mut W,
) -> Result<LoggedAuction, OpenFault>
    requires { IsStartOf auction [] }
    ensures opens { IfOk result (Opens (F.held file.now)
        (W.contents told.old) (W.contents told.new)) }
    ensures same { IfOk result (λ opened. IsSameAuction auction opened.auction) }
    ensures refused { IfErr result (λ fault. IfSome (F.held file.now) (IsRefusedBy fault auction)) }
    ensures told { IfErr result (λ _. TellsFirst (F.held file.now)
        (W.contents told.old) (W.contents told.new)) }
{
    let mut reader = UntilEnd::of(FromStart::of(file));
    open_parts(alloc, &mut reader, auction, told)
}

/// The log of a file that was read: it has accepted just the rows. What is behind them is cut off,
/// also if that is nothing, so a file that cannot be cut is no log.
pub fn cut_log<F: AppendFile + Drop>(file: F, logged: &LoggedAuction) -> io::Result<FileLog<F>>
    requires { (book : Book) × OpensWith (F.held file) book logged.now }
    ensures accepted { IfOk result (λ log. (book : Book) →
        OpensWith (F.held file) book logged.now →
        IfSome (F.held file) (λ _. log.accepted ≡ Some (rows_text book []))) }
    ensures found { IfOk result (λ log. log.found ≡ log.accepted) }
    ensures goes_on { IfOk result (λ log. log.has_ended ≡ false) }
{
    FileLog::open(file, logged.kept)
}
