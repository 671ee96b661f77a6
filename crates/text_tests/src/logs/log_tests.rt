//! What a log has accepted, and what was told, after each call that fails.
ghost use Rattle.std.specs.Prelude.{false, [], Some};

use crate::logs::mem_file::{MemFile, put_known};
use part_log::{FileLog, Log, LogFault, NoLog, TellFault, tell_part};
use std::alloc::Global;
use std::io;
use std::io::Write;
use std::process::Abort;

// What a log in a file answers to three parts: the system's words are not compared.
fn three_parts(rt: &impl Abort, file: MemFile) -> [&'static str; 3] {
    let mut log = FileLog::open(file, 0).expect(rt, "a log");
    [
        answer_of(put_known(&mut log, b"one\n")),
        answer_of(put_known(&mut log, b"two\n")),
        answer_of(put_known(&mut log, b"three\n")),
    ]
}

fn answer_of(put: Result<(), LogFault>) -> &'static str {
    match put {
        Ok(()) => "accepted",
        Err(LogFault::Write(_)) => "not written",
        Err(LogFault::Sync(_)) => "not synced",
        Err(LogFault::Cut(_)) => "not cut back",
        Err(LogFault::Read(_)) => "not read",
        Err(LogFault::Changed) => "changed",
        Err(LogFault::Ended) => "ended",
    }
}

// After those of `open`, call 2 is the append of the first part and call 3 its sync.
#[test]
fn a_log_goes_on_after_a_write_that_failed_alone(rt: HostRuntime) {
    for (fails_at, answers) in [
        (99, ["accepted", "accepted", "accepted"]),
        (2, ["not written", "accepted", "accepted"]),
        (3, ["not synced", "ended", "ended"]),
        (4, ["accepted", "not written", "accepted"]),
        (5, ["accepted", "not synced", "ended"]),
    ] {
        let found = three_parts(&rt, MemFile::new(rt.alloc(), fails_at));
        assert_eq!(rt; (fails_at, found), (fails_at, answers));
    }
}

#[test]
fn a_log_whose_name_leads_elsewhere_ends(rt: HostRuntime) {
    let found = three_parts(&rt, MemFile::lost(rt.alloc()));
    assert_eq!(rt; found, ["changed", "ended", "ended"]);
}

// Takes nothing.
#[derive(Drop)]
struct Full;

impl Log for Full {
    ghost accepted = { λ _. Some [] };

    ghost found = { λ _. Some [] };

    ghost has_ended = { λ _. false };

    ghost is_lost = { λ _. false };

    fn put(&mut self, _bytes: &[u8]) -> Result<(), LogFault> {
        Err(LogFault::Write(io::Error::from(io::ErrorKind::StorageFull)))
    }
}

#[test]
fn a_part_whose_rows_are_refused_is_not_told(rt: HostRuntime) {
    let mut told = Vec::new(rt.alloc());
    let refused = tell_part(&mut Full, &mut told, b"row\n", b"reply\n");
    let is_refused = matches!(refused, Err(TellFault::Log(LogFault::Write(_))));
    assert_eq!(rt; is_refused, true);
    assert_eq!(rt; told.as_slice(), b"".as_slice());
    // A part without rows asks nothing of the log.
    let seen = tell_part(&mut Full, &mut told, b"", b"seen\n");
    assert_eq!(rt; seen.is_ok(), true);
    let unlogged = tell_part(&mut NoLog, &mut told, b"row\n", b"reply\n");
    assert_eq!(rt; unlogged.is_ok(), true);
    assert_eq!(rt; told.as_slice(), b"seen\nreply\n".as_slice());
}

// Knows how much of what was written was flushed.
#[derive(Drop)]
struct Flushing {
    written: Vec<u8>,
    flushed: usize,
}

impl Write for Flushing {
    fn write(&mut self, buf: &[u8]) -> io::Result<usize> {
        self.written.extend_from_slice(buf)?;
        Ok(buf.len())
    }

    fn flush(&mut self) -> io::Result<()> {
        self.flushed = self.written.len();
        Ok(())
    }
}

#[test]
fn each_part_is_flushed(rt: HostRuntime) {
    let mut writer = Flushing {
        written: Vec::new(rt.alloc()),
        flushed: 0,
    };
    for (text, flushed) in [("one\n", 4), ("two\n", 8), ("", 8)] {
        let told = tell_part(&mut NoLog, &mut writer, b"row\n", text.as_bytes());
        assert_eq!(rt; told.is_ok(), true);
        assert_eq!(rt; writer.flushed, flushed);
    }
    assert_eq!(rt; writer.written.as_slice(), b"one\ntwo\n".as_slice());
}

#[test]
fn only_a_log_that_keeps_rows_asks_for_them(rt: HostRuntime) {
    assert_eq!(rt; (NoLog.keeps(), Full.keeps()), (false, true));
}
