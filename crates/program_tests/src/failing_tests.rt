//! Faults to which the built program can't be brought. The others stand in tests/limits.py, ends.py
//! and refused_memory.py.
use crate::testing::line_of;
use auction_program::{AddFault, Fault, status, write_fault};
use auction_rows::{Refusal, Reply};
use auction_run::RunFault;
use auction_text::{WriteFault, push_reply};
use auction_window::MakeFault;
use std::alloc::Global;
use std::io;
use std::io::Write;
use std::process::Abort;

// Asserts that a fault is told in these words, with status 3.
fn assert_told(rt: &impl Abort, alloc: Global, fault: Fault, words: &[u8]) {
    let mut wanted = Vec::new(alloc);
    for part in [b"rubis_auction: ".as_slice(), words, b"\n"] {
        wanted.extend_from_slice(part).expect(rt, "memory");
    }
    assert_eq!(rt; status(&fault), 3);
    let line = line_of(rt, alloc, &Err(fault));
    assert_eq!(rt; line.as_slice(), wanted.as_slice());
}

#[test]
fn faults_have_their_status_and_line(rt: HostRuntime) {
    let faults: [(Fault, &[u8]); 7] = [
        (Fault::Make(MakeFault::Reader), b"no window"),
        (Fault::Run(RunFault::Workers), b"number of workers"),
        (Fault::Run(RunFault::Shards), b"number of shards"),
        (
            Fault::Run(RunFault::Quota),
            b"quota, threshold or hot limit",
        ),
        (Fault::Run(RunFault::NumberFull), b"commit numbers used up"),
        (
            Fault::Row(3, AddFault::BadRow),
            b"row 3: not a store of a worker",
        ),
        (Fault::Row(3, AddFault::Memory), b"row 3: no memory"),
    ];
    for (fault, words) in faults {
        assert_told(&rt, rt.alloc(), fault, words);
    }
}

#[test]
fn a_refused_row_is_told_in_the_words_of_replies(rt: HostRuntime) {
    for reason in [
        Refusal::NoSuchUser,
        Refusal::NoSuchCategory,
        Refusal::NoSuchItem,
        Refusal::BelowStart,
        Refusal::Closed,
        Refusal::SoldOut,
        Refusal::NotEnough,
    ] {
        let mut words = Vec::new(rt.alloc());
        words.extend_from_slice(b"row 3: ").expect(&rt, "memory");
        push_reply(&mut words, &Reply::Refused(reason)).expect(&rt, "memory");
        let refused = Fault::Row(3, AddFault::Refused(reason));
        assert_told(&rt, rt.alloc(), refused, words.as_slice());
    }
}

// Takes nothing.
#[derive(Drop)]
struct Full;

impl Write for Full {
    fn write(&mut self, _buf: &[u8]) -> io::Result<usize> {
        Err(io::Error::from(io::ErrorKind::BrokenPipe))
    }

    fn flush(&mut self) -> io::Result<()> {
        Ok(())
    }
}

#[test]
fn a_full_writer_refuses_the_line_of_a_fault(rt: HostRuntime) {
    let refused = write_fault(&mut Full, &Fault::Run(RunFault::Memory));
    assert_eq!(rt; refused, Err(WriteFault::Write));
}
