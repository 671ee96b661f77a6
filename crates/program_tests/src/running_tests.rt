//! The program's library, from words and an input to what is written. Other words and inputs are
//! tried on the built program, in `tests/`.
use crate::testing::line_of;
use auction_program::{execute, read_options};
use std::alloc::Global;
use std::process::Abort;
use std::sync::Wait;
use std::thread::Threads;

fn to_strings(rt: &impl Abort, alloc: Global, words: &[&str]) -> Vec<String> {
    let mut strings = Vec::new(alloc);
    for word in words {
        let string = String::from_str(alloc, word).expect(rt, "memory");
        strings.push(string).expect(rt, "memory");
    }
    strings
}

// Asserts how an input is performed, by the words of a command line: the line of the fault that ends
// it, and what is written.
fn assert_performed<R: Abort + Alloc<A = Global> + Threads + Wait + Sync>(
    rt: &R,
    words: &[&str],
    input: &[u8],
    ended: &[u8],
    written: &[u8],
) {
    let alloc = rt.alloc();
    let read = read_options(alloc, &to_strings(rt, alloc, words));
    let options = read.expect(rt, "options");
    let mut text = Vec::new(alloc);
    let performed = execute(rt, alloc, input, &mut text, &options);
    assert_eq!(rt; line_of(rt, alloc, &performed).as_slice(), ended);
    assert_eq!(rt; text.as_slice(), written);
}

// In the second phase user 3 and category 0 are hot, and the view of the user is put off.
const COMMENTS: &[u8] = b"\
0,item,0,0,Vase,10,100,1
0,comment,0,3,0.0,0
0,comment,0,3,0.0,-5
0,viewuser,3
1,viewuser,1
1,viewuser,1
1,comment,1,3,0.0,5
";

#[test]
fn an_input_is_performed_and_reported(rt: HostRuntime) {
    let words = [
        "rubis_auction",
        "--workers=2",
        "--joined=2",
        "--split=2",
        "--threshold=1",
        "--users",
        "10",
        "--categories",
        "2",
        "--report",
    ];
    let reported: &[u8] = b"\
0,0,item 0.0
0,1,comment 0.0
0,2,comment 0.1
0,3,user rating=0 comments=3
1,0,user rating=0 comments=0
1,1,user rating=0 comments=0
1,2,comment 1.0
phases 3
requests 7
refused 0
hot 1 u3 c0
category 0 latest 1:0.0
category 1 latest
user 3 rating=0 comments=3
";
    assert_performed(&rt, &words, COMMENTS, b"", reported);
}

#[test]
fn an_input_with_a_fault_is_not_performed(rt: HostRuntime) {
    let input: &[u8] = b"0,item,0,0,Vase,10,100,1\n5,foo";
    let fault = b"rubis_auction: record 2: no such worker\n";
    assert_performed(&rt, &["rubis_auction"], input, fault, b"");
}
