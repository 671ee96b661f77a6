//! How the text of a log is read part by part: each row is added to an auction as it is read, and
//! then forgotten.
ghost use Rattle.std.specs.Prelude.{◌≡◌, ◌≤◌, ◌<◌, ◌+◌, ◌^◌, ◌++◌, ℕ, true, List, [], length, take, IfErr, IfOk, IfSome, OnOk};
ghost use Rattle.auction_rows.specs.Book.{Book};
ghost use Rattle.phase_floor.specs.Adding.{IsSameAuction};
ghost use Rattle.log_opening.specs.{CutRows.{is_cut_row}, Lines.{AreLines}};
ghost use Rattle.log_opening.specs.Opening.{IsRefusedBy, TellsFirst, counted_after};
ghost use Rattle.log_opening.specs.Parts.{HasNoEnd};
ghost use Rattle.log_opening.specs.inner.Reading.{AreNotRowsOf, CanReadOn, HasRead, HasReadAll, IsReadTo, IsRefusedBehind, LeavesRest, OpensReading, ReadsRows, TellsRows, TellsSome, place_of};

use crate::adding::{Refused, add_rows};
use crate::lines::line_at;
use crate::opening::{LoggedAuction, OpenFault};
use crate::row_texts::difference_from;
use crate::tails::{LONGEST_ROW, is_cut_row};
use auction_text::{CompactInput, ReadFault, read_compact_scripts};
use byte_texts::write_last;
use phase_floor::Joined;
use record_reading::{lines_end, read_more};
use std::alloc::Global;
use std::io::{Read, Write};

/// How many bytes of a text are held at a time.
pub(crate) const PART_LEN: usize = 65_536;

/// How many parts of a text are read at most: more than any file has.
const MOST_PARTS: u64 = 1 << 40;

/// How far the text of a log is read.
#[derive(Drop)]
pub(crate) struct ReadRows {
    /// The auction with the rows that were read.
    pub(crate) auction: Joined,
    /// How many they are.
    pub(crate) rows: u64,
    /// How many bytes of the text they are.
    pub(crate) kept: u64,
}

// The fault of a record that is counted after so many others.
fn counted_after(rows: u64, fault: ReadFault) -> ReadFault
    requires { rows + place_of fault < 2 ^ 64 }
    ensures { result ≡ counted_after rows fault }
{
    match fault {
        ReadFault::Line(place, cause) => ReadFault::Line(rows + place, cause),
        ReadFault::Worker(place) => ReadFault::Worker(rows + place),
        other => other,
    }
}

impl ReadRows {
    // Reads lines, which are to be the text of rows.
    fn add_lines(&mut self, alloc: Global, lines: &[u8]) -> Result<(), OpenFault>
        requires lines { AreLines lines.now }
        requires can { CanReadOn self.old (length lines.now) }
        ensures reads { OnOk result ((book : Book) → HasRead self.old book →
            ReadsRows self.new book lines.now []) }
        ensures kept { OnOk result (self.new.kept ≡ self.old.kept + length lines.now) }
        ensures same { IsSameAuction self.old.auction self.new.auction }
        ensures refused { IfErr result (λ fault. (book : Book) → HasRead self.old book →
            (behind : List ℕ) → AreNotRowsOf fault self.old.auction book lines.now behind) }
    {
        let input = match read_compact_scripts(alloc, lines, self.auction.workers()) {
            Ok(input) => input,
            Err(fault) => return Err(OpenFault::Record(counted_after(self.rows, fault))),
        };
        let CompactInput { rows, scripts: _ } = input;
        let added = match add_rows(alloc, &mut self.auction, rows.as_slice()) {
            Ok(added) => added,
            Err(Refused { place, fault }) => {
                return Err(OpenFault::Row(self.rows + place as u64 + 1, fault));
            }
        };
        match difference_from(alloc, lines, added.as_slice()) {
            Ok(None) => {}
            Ok(Some(at)) => return Err(OpenFault::Line(self.rows + line_at(lines, at))),
            Err(_) => return Err(OpenFault::Memory),
        }
        self.rows += added.len() as u64;
        self.kept += lines.len() as u64;
        Ok(())
    }

    /// Reads the lines that a buffer holds to their ends, tells them, and moves what is behind them
    /// to the front. Returns how much that is.
    pub(crate) fn take_lines<W: Write>(
        &mut self,
        alloc: Global,
        buffer: &mut [u8],
        filled: usize,
        told: &mut W,
    ) -> Result<usize, OpenFault>
        requires filled { filled ≤ length buffer.old }
        requires part { length buffer.old ≡ PART_LEN }
        requires can { CanReadOn self.old filled }
        ensures len { length buffer.new ≡ length buffer.old }
        ensures leaves { IfOk result (λ left. LeavesRest self.old self.new filled left buffer.new) }
        ensures reads { IfOk result (λ left. (book : Book) → HasRead self.old book →
            TellsRows self.new book (take filled buffer.old) (take left buffer.new)
            (W.contents told.old) (W.contents told.new)) }
        ensures refused { IfErr result (λ fault. (book : Book) → HasRead self.old book →
            (behind : List ℕ) → IsRefusedBehind fault self.old.auction book
            (take filled buffer.old ++ behind)) }
        ensures told { IfErr result (λ _. TellsSome (take filled buffer.old)
            (W.contents told.old) (W.contents told.new)) }
    {
        let whole = lines_end(&buffer[..filled]);
        self.add_lines(alloc, &buffer[..whole])?;
        match write_last(told, &buffer[..whole]) {
            Ok(()) => {}
            Err(_) => return Err(OpenFault::Write),
        }
        buffer.copy_within(whole..filled, 0);
        Ok(filled - whole)
    }

    /// Reads a text to its end through a buffer, and tells its rows. Returns how many bytes behind
    /// them the buffer holds.
    pub(crate) fn read_parts<R: Read, W: Write>(
        &mut self,
        alloc: Global,
        reader: &mut R,
        buffer: &mut [u8],
        told: &mut W,
    ) -> Result<usize, OpenFault>
        requires part { length buffer.old ≡ PART_LEN }
        requires start { HasRead self.old [] }
        ensures len { length buffer.new ≡ length buffer.old }
        ensures few { IfOk result (λ filled. filled ≤ LONGEST_ROW) }
        ensures all { IfOk result (λ filled.
            HasReadAll self.old self.new filled buffer.new (R.remaining reader.new)) }
        ensures read { IfOk result (λ filled.
            IsReadTo (R.remaining reader.old) (R.remaining reader.new)
            (W.contents told.old) (W.contents told.new) self.new (take filled buffer.new)) }
        ensures refused { IfErr result (λ fault. IfSome (R.remaining reader.old)
            (IsRefusedBy fault self.old.auction)) }
        ensures told { IfErr result (λ _. TellsFirst (R.remaining reader.old)
            (W.contents told.old) (W.contents told.new)) }
    {
        let mut filled = 0;
        for _ in 0..MOST_PARTS {
            let Ok(now) = read_more(buffer, filled, reader) else {
                return Err(OpenFault::Record(ReadFault::Read));
            };
            if now == filled {
                return Ok(filled);
            }
            filled = self.take_lines(alloc, buffer, now, told)?;
            if filled > LONGEST_ROW {
                return Err(OpenFault::Long(self.rows + 1));
            }
        }
        Err(OpenFault::Record(ReadFault::Read))
    }

    /// What a text opens, of which a buffer holds the bytes behind the rows.
    pub(crate) fn end(self, buffer: Vec<u8>, filled: usize) -> Result<LoggedAuction, OpenFault>
        requires filled { filled ≤ length buffer.items }
        requires few { filled ≤ PART_LEN }
        requires no_end { HasNoEnd (take filled buffer.items) }
        requires can { CanReadOn self 1 }
        ensures opens { IfOk result (OpensReading self) }
        ensures tail { IfOk result (λ opened. opened.tail.items ≡ take filled buffer.items) }
        ensures cut { IfOk result (λ opened. is_cut_row opened.tail.items ≡ true) }
        ensures refused { IfErr result (λ fault. (book : Book) → HasRead self book →
            IsRefusedBehind fault self.auction book (take filled buffer.items)) }
    {
        let mut tail = buffer;
        tail.truncate(filled);
        if !is_cut_row(tail.as_slice()) {
            return Err(OpenFault::Tail(self.rows + 1));
        }
        let ReadRows {
            auction,
            rows,
            kept,
        } = self;
        Ok(LoggedAuction {
            auction,
            rows,
            kept,
            tail,
        })
    }
}
