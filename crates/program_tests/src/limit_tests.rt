//! Requests past their worker's limit. The auction of these tests does not last, so a worker may
//! commit 1,000,000 requests in place of 2^31.
ghost use Rattle.phase_floor.specs.Adding.{HasBook};

use crate::testing::line_of;
use auction_program::{
    ErrorWriter, Fault, Joined, LiveTeller, LoggedInput, NoLog, Options, Teller, serve,
};
use auction_rows::{Facts, Opening, Request, Stars};
use std::alloc::Global;
use std::process::Abort;
use std::sync::Wait;
use std::thread::Threads;
use test_values::{comment, opened, put_up, vases};

// Of the options of these tests.
const OPENING: Opening = Opening {
    users: 100,
    categories: 10,
};

// An auction of two workers in which nothing is stored.
fn auction(rt: &impl Abort, alloc: Global) -> Joined
    ensures { HasBook result }
{
    Joined::new(alloc, OPENING, 2, 4).expect(rt, "memory")
}

// Adds a row of worker 0.
fn add(rt: &impl Abort, auction: &mut Joined, request: Request)
    requires { HasBook auction.old }
    ensures { HasBook auction.new }
{
    let Ok(_row) = auction.add(&opened(0, request)) else {
        panic!(rt; "a row is refused");
    };
}

// An auction of two workers, of whom worker 0 may commit three requests more.
fn almost_full(rt: &impl Abort, alloc: Global) -> Joined
    ensures { HasBook result }
{
    let mut auction = auction(rt, alloc);
    let facts = Facts {
        closes: 1000,
        ..vases(10, 3)
    };
    add(rt, &mut auction, put_up(facts));
    for _comment in 0..999_996 {
        add(rt, &mut auction, comment(1, 2, Stars { value: 1 }));
    }
    auction
}

// A row, which is taken in, and requests of which worker 0 commits two.
const LINES: &[u8] = b"\
0,+comment,1,2,0.0,1
0,comment,1,3,0.0,5
0,viewuser,3
0,comment,1,3,0.0,5
0,viewuser,3
1,comment,1,3,0.0,-1
0,bid,1,0.0,20,5
0,foo
1,viewitem,0.0
1,viewuser,3
";

// Of an auction of two workers, whose requests are answered as they come, ten at a time.
fn options(rows: bool, ends_at_fault: bool) -> Options {
    Options {
        workers: 2,
        shards: 4,
        joined: 64,
        split: 64,
        threshold: 8,
        hot: 8,
        users: OPENING.users,
        categories: OPENING.categories,
        live: 10,
        ends_at_fault,
        log: None,
        history: false,
        rows,
        report: false,
    }
}

// Serves these lines. The faults are what is told apart from the replies.
fn serve_lines<R: Abort + Alloc<A = Global> + Threads + Wait + Sync>(
    rt: &R,
    options: &Options,
    replies: &mut Vec<u8>,
    faults: &mut Vec<u8>,
) -> Result<(), Fault> {
    let alloc = rt.alloc();
    let source = LoggedInput {
        auction: almost_full(rt, alloc),
        reader: LINES,
    };
    let texts = Teller::new(NoLog, replies);
    let mut teller = LiveTeller::of(alloc, texts, ErrorWriter::of(faults));
    serve(rt, alloc, source, &mut teller, options)
}

// Asserts how these lines are served: what is written, what is told apart from it, and the line of
// the fault that ends them.
fn assert_served<R: Abort + Alloc<A = Global> + Threads + Wait + Sync>(
    rt: &R,
    options: &Options,
    written: &[u8],
    errors: &[u8],
    ended: &[u8],
) {
    let alloc = rt.alloc();
    let mut replies = Vec::new(alloc);
    let mut faults = Vec::new(alloc);
    let served = serve_lines(rt, options, &mut replies, &mut faults);
    assert_eq!(rt; line_of(rt, alloc, &served).as_slice(), ended);
    assert_eq!(rt; replies.as_slice(), written);
    assert_eq!(rt; faults.as_slice(), errors);
}

#[test]
fn a_request_past_a_limit_is_answered_and_changes_nothing(rt: HostRuntime) {
    let answers: &[u8] = b"\
0,0,comment 0.999997
0,1,user rating=5 comments=1
0,2,comment 0.999998
0,3,fault more than 1000000 requests for a worker
1,0,comment 1.0
0,3,fault more than 1000000 requests for a worker
0,3,fault record 8: unknown kind
1,1,viewitem seller=0 category=0 start=10 closes=1000 highest=- bidder=- bids=0 left=3 name=Vase
1,2,user rating=9 comments=3
";
    assert_served(&rt, &options(false, false), answers, b"", b"");
}

#[test]
fn beside_the_rows_a_request_past_a_limit_is_told_as_a_fault(rt: HostRuntime) {
    let rows: &[u8] = b"\
0,+comment,1,2,0.0,1
0,+comment,1,3,0.0,5
0,+comment,1,3,0.0,5
1,+comment,1,3,0.0,-1
";
    let faults: &[u8] = b"\
rubis_auction: more than 1000000 requests for a worker
rubis_auction: more than 1000000 requests for a worker
rubis_auction: record 8: unknown kind
";
    assert_served(&rt, &options(true, false), rows, faults, b"");
}

#[test]
fn a_request_past_a_limit_may_end_the_input(rt: HostRuntime) {
    let answers: &[u8] = b"\
0,0,comment 0.999997
0,1,user rating=5 comments=1
0,2,comment 0.999998
";
    let limit = b"rubis_auction: more than 1000000 requests for a worker\n";
    assert_served(&rt, &options(false, true), answers, b"", limit);
}
