//! Which texts of a log are opened, what is cut off them, and why the others are refused.
ghost use Rattle.std.specs.Prelude.{[], IfOk};
ghost use Rattle.phase_floor.specs.Adding.{HasBook, IsStartOf};

use crate::logs::mem_file::MemFile;
use crate::testing::extend;
use auction_rows::Refusal;
use auction_text::{Cause, ReadFault};
use log_opening::{LONGEST_ROW, OpenFault, cut_log, is_cut_row, open_parts, read_log};
use part_log::AppendFile;
use phase_floor::{AddFault, Joined};
use record_reading::lines_end;
use std::alloc::{AllocError, Global};
use std::io;
use std::io::Write;
use std::process::Abort;
use test_values::OPENING;

const ITEM: &[u8] = b"0,+item,0,0,\"Vase\",10,100,1,1\n";

const BID: &[u8] = b"1,+bid,1,0.0,20,5\n";

// An auction of two workers, in which nothing is stored.
fn auction(alloc: Global) -> Result<Joined, AllocError>
    ensures start { IfOk result (λ auction. IsStartOf auction []) }
    ensures has { IfOk result HasBook }
{
    match Joined::new(alloc, OPENING, 2, 4) {
        Ok(auction) => Ok(auction.lasting()),
        Err(_) => Err(AllocError),
    }
}

// What a text opens to: how many rows there are, and how many bytes are kept. The rows are told.
fn told<W: Write>(
    rt: &impl Abort,
    alloc: Global,
    text: &[u8],
    rows: &mut W,
) -> Result<(u64, u64), OpenFault> {
    let mut reader = text;
    let auction = auction(alloc).expect(rt, "memory");
    match open_parts(alloc, &mut reader, auction, rows) {
        Ok(opened) => Ok((opened.rows, opened.kept)),
        Err(fault) => Err(fault),
    }
}

// The same, with the rows told to nobody.
fn opened(rt: &impl Abort, alloc: Global, text: &[u8]) -> Result<(u64, u64), OpenFault> {
    told(rt, alloc, text, &mut io::sink())
}

// Asserts what an item, then a bid, and then these bytes open to.
fn assert_after_rows(
    rt: &(impl Abort + Alloc<A = Global>),
    tail: &[u8],
    wanted: Result<(u64, u64), OpenFault>,
) {
    let mut text = Vec::new(rt.alloc());
    extend(rt, &mut text, ITEM);
    extend(rt, &mut text, BID);
    extend(rt, &mut text, tail);
    assert_eq!(rt; opened(rt, rt.alloc(), text.as_slice()), wanted);
}

#[test]
fn a_log_opens_to_its_whole_rows(rt: HostRuntime) {
    assert_eq!(rt; opened(&rt, rt.alloc(), b""), Ok((0, 0)));
    assert_eq!(rt; opened(&rt, rt.alloc(), b"0,+it"), Ok((0, 0)));
    for tail in [b"".as_slice(), b"1", b"1,+bid,1,0.0,2", b"15,+comment,1"] {
        assert_after_rows(&rt, tail, Ok((2, 48)));
    }
    assert_after_rows(&rt, BID, Ok((3, 66)));
    assert_after_rows(&rt, b"1,+buynow,2,0.0,1,5\n1,+b", Ok((3, 68)));
}

#[test]
fn what_is_no_cut_row_is_not_cut(rt: HostRuntime) {
    for text in [
        b"{\"accounts\": [1, 2]}".as_slice(),
        b"0,+item,0,0,\r",
        b"\0\0",
        b"0,item",
    ] {
        let refused = Err(OpenFault::Tail(1));
        assert_eq!(rt; opened(&rt, rt.alloc(), text), refused);
    }
}

#[test]
fn what_is_no_cut_row_behind_rows_is_not_cut(rt: HostRuntime) {
    for tail in [b"\0".as_slice(), b"x", b"1,+bid,1\r", b"1,bid"] {
        assert_after_rows(&rt, tail, Err(OpenFault::Tail(3)));
    }
}

#[test]
fn what_is_cut_is_no_longer_than_a_row(rt: HostRuntime) {
    let mut tail = Vec::new(rt.alloc());
    extend(&rt, &mut tail, b"1,+");
    for _ in tail.len()..LONGEST_ROW {
        tail.push(b'0').expect(&rt, "memory");
    }
    assert_eq!(rt; is_cut_row(tail.as_slice()), true);
    tail.push(b'0').expect(&rt, "memory");
    assert_eq!(rt; is_cut_row(tail.as_slice()), false);
}

#[test]
fn a_line_that_is_no_row_as_written_is_named(rt: HostRuntime) {
    let number = OpenFault::Record(ReadFault::Line(3, Cause::Number));
    assert_after_rows(&rt, b"1,+bid,x,0.0,30,6\n", Err(number));
    let worker = OpenFault::Record(ReadFault::Worker(3));
    assert_after_rows(&rt, b"2,+bid,1,0.0,30,6\n", Err(worker));
    let low = OpenFault::Row(3, AddFault::Refused(Refusal::BelowStart));
    assert_after_rows(&rt, b"1,+bid,1,0.0,9,6\n", Err(low));
    for line in [
        b"1,+buynow,2,0.0,1,5\r\n".as_slice(),
        b"\n",
        b"1,+buynow,\"2\",0.0,1,5\n",
        b"1,buynow,2,0.0,1,5\n",
        b"1,+item,0,0,Vase,10,100,1,1\n",
        b"1,+item,0,0,\"Vase\",10,100,1\n",
    ] {
        assert_after_rows(&rt, line, Err(OpenFault::Line(3)));
    }
}

#[test]
fn a_line_that_was_cut_is_not_whole(rt: HostRuntime) {
    let texts: [(&[u8], usize); 6] = [
        (b"", 0),
        (b"a", 0),
        (b"\n", 1),
        (b"a\nb", 2),
        (b"a\nb\n", 4),
        (b"a\n\n", 3),
    ];
    for (text, whole) in texts {
        assert_eq!(rt; lines_end(text), whole);
    }
}

// So many rows: an item, and then bids of which each is higher than the last.
fn many_rows(rt: &impl Abort, alloc: Global, count: u64) -> Vec<u8> {
    let mut text = Vec::new(alloc);
    extend(rt, &mut text, ITEM);
    for row in 1..count {
        let amount = row.saturating_add(20);
        write!(text, "1,+bid,1,0.0,{amount},5\n").expect(rt, "memory");
    }
    text
}

#[test]
fn rows_are_counted_through_all_parts(rt: HostRuntime) {
    let alloc = rt.alloc();
    let mut text = many_rows(&rt, alloc, 10_000);
    let len = text.len() as u64;
    assert_eq!(rt; opened(&rt, alloc, text.as_slice()), Ok((10_000, len)));
    extend(&rt, &mut text, b"1,+bid,1,0.0,9,5\n");
    let low = OpenFault::Row(10_001, AddFault::Refused(Refusal::BelowStart));
    assert_eq!(rt; opened(&rt, alloc, text.as_slice()), Err(low));
}

#[test]
fn rows_are_told_as_they_are_read(rt: HostRuntime) {
    let alloc = rt.alloc();
    let text = many_rows(&rt, alloc, 10_000);
    let mut rows = Vec::new(alloc);
    let opened = told(&rt, alloc, text.as_slice(), &mut rows);
    assert_eq!(rt; opened.is_ok(), true);
    assert_eq!(rt; rows.as_slice() == text.as_slice(), true);
}

// A file of an item, and of a row that was cut.
fn cut_short(rt: &impl Abort, alloc: Global) -> MemFile {
    let mut file = MemFile::new(alloc, 99);
    file.append(ITEM).expect(rt, "memory");
    file.append(b"1,+bi").expect(rt, "memory");
    file
}

#[test]
fn a_file_is_cut_to_its_rows(rt: HostRuntime) {
    let alloc = rt.alloc();
    let file = cut_short(&rt, alloc);
    let empty = auction(alloc).expect(&rt, "memory");
    let Ok(logged) = read_log(alloc, &file, empty, &mut io::sink()) else {
        panic!(rt; "the log is refused");
    };
    assert_eq!(rt; (logged.rows, logged.kept), (1, 30));
    assert_eq!(rt; logged.tail.as_slice(), b"1,+bi".as_slice());
    assert_eq!(rt; cut_log(file, &logged).is_ok(), true);
}
