//! Replies that are written, whole and in part. Each kind of reply stands in tests/worked, and
//! other writers in tests/ends.py.
use crate::testing::add_commit;
use auction_rows::{Refusal, Reply};
use auction_text::{WriteFault, write_replies};
use std::alloc::Global;
use std::io;
use std::io::{ErrorKind, Write};
use std::process::Abort;
use test_values::FIRST;
use worker_journals::History;

// Takes one byte a call, but one call of `write` has an error, and it takes more after it. Its
// flush fails where `is_stuck` says so. Counts what is called.
#[derive(Drop)]
struct Lapse {
    held: Vec<u8>,
    fails_at: usize,
    error: ErrorKind,
    is_stuck: bool,
    writes: usize,
    flushes: usize,
}

impl Write for Lapse {
    fn write(&mut self, buf: &[u8]) -> io::Result<usize> {
        let call = self.writes;
        self.writes = call.saturating_add(1);
        if call == self.fails_at {
            return Err(io::Error::from(self.error));
        }
        let most = buf.len().min(1);
        self.held.extend_from_slice(&buf[..most])?;
        Ok(most)
    }

    fn flush(&mut self) -> io::Result<()> {
        self.flushes = self.flushes.saturating_add(1);
        if self.is_stuck {
            return Err(io::Error::from(ErrorKind::BrokenPipe));
        }
        Ok(())
    }
}

fn lapse_at(alloc: Global, fails_at: usize, is_stuck: bool) -> Lapse {
    Lapse {
        held: Vec::new(alloc),
        fails_at,
        error: ErrorKind::BrokenPipe,
        is_stuck,
        writes: 0,
        flushes: 0,
    }
}

// Whether replies written to this writer are answered as wanted, and leave it with the text that is
// wanted after so many calls of each kind.
fn replies_leave(
    alloc: Global,
    history: &History,
    mut writer: Lapse,
    wanted: (Result<(), WriteFault>, &[u8], (usize, usize)),
) -> bool {
    let (answer, text, calls) = wanted;
    let written = write_replies(alloc, &mut writer, history);
    written == answer && writer.held.as_slice() == text && (writer.writes, writer.flushes) == calls
}

const OUTPUT: &[u8] = b"0,0,item 0.0\n0,1,refused 5 Closed\n";

fn two_replies(rt: &(impl Abort + Alloc<A = Global>)) -> History {
    let mut history = History::new(rt.alloc());
    add_commit(rt, &mut history, 0, 1, Reply::Refused(Refusal::Closed));
    add_commit(rt, &mut history, 0, 0, Reply::ItemStored(FIRST));
    history
}

#[test]
fn a_write_that_fails_is_the_last_call(rt: HostRuntime) {
    let alloc = rt.alloc();
    let history = two_replies(&rt);
    let cut = Err(WriteFault::Write);
    for call in 0..OUTPUT.len() {
        let writer = lapse_at(alloc, call, false);
        let wanted = (cut, &OUTPUT[..call], (call + 1, 0));
        let right = replies_leave(alloc, &history, writer, wanted);
        assert_eq!(rt; (call, right), (call, true));
    }
}

#[test]
fn a_write_that_a_signal_interrupts_is_tried_again(rt: HostRuntime) {
    let alloc = rt.alloc();
    let history = two_replies(&rt);
    for call in 0..OUTPUT.len() {
        let mut writer = lapse_at(alloc, call, false);
        writer.error = ErrorKind::Interrupted;
        let calls = (OUTPUT.len() + 1, 1);
        let right = replies_leave(alloc, &history, writer, (Ok(()), OUTPUT, calls));
        assert_eq!(rt; (call, right), (call, true));
    }
}

// A flush that fails is told as a write that does.
#[test]
fn a_text_that_was_written_whole_is_flushed_once(rt: HostRuntime) {
    let alloc = rt.alloc();
    let history = two_replies(&rt);
    let calls = (OUTPUT.len(), 1);
    for (is_stuck, answer) in [(false, Ok(())), (true, Err(WriteFault::Write))] {
        let writer = lapse_at(alloc, OUTPUT.len(), is_stuck);
        let right = replies_leave(alloc, &history, writer, (answer, OUTPUT, calls));
        assert_eq!(rt; (is_stuck, right), (is_stuck, true));
    }
}
