//! What a log opens, which logs are refused, and what a fault leaves.
use crate::POLICY;
use crate::ledger::LedgerRequest::{Add, Held, Take};
use crate::ledger::{Ledger, LedgerReply, LedgerRequest};
use application_log::{
    CommitFault, CommitLog, MOST_LINES, OpenFault, OpenedLog, a_log_is_never_refused, open_log,
    parts_are_one_history, what_is_acknowledged_is_there,
};
use part_log::{Log, LogFault, NoLog};
use split_engine::{History, Outcome, check_scripts, run};
use std::alloc::{AllocError, Global};
use std::io;
use std::io::{BufReader, ErrorKind, Read};
use std::sync::Wait;
use std::test::Fail;
use std::thread::Threads;

// A reader that gives a line and then fails.
#[derive(Drop)]
struct Broken {
    has_given: bool,
}

impl Read for Broken {
    fn read(&mut self, buf: &mut [u8]) -> io::Result<usize> {
        let line = b"add 0 5\n";
        if self.has_given || buf.len() < line.len() {
            return Err(io::Error::from(ErrorKind::Other));
        }
        self.has_given = true;
        buf[..line.len()].copy_from_slice(line);
        Ok(line.len())
    }
}

// A log that has no room.
#[derive(Drop)]
struct NoRoom;

impl Log for NoRoom {
    ghost use Rattle.std.specs.Prelude.{false, None};

    ghost accepted = { λ _. None };

    ghost found = { λ _. None };

    ghost has_ended = { λ _. false };

    ghost is_lost = { λ _. false };

    fn put(&mut self, _bytes: &[u8]) -> Result<(), LogFault> {
        Err(LogFault::Write(io::Error::from(ErrorKind::StorageFull)))
    }
}

// Opens bytes over two accounts that hold nothing.
fn opened(
    alloc: Global,
    mut bytes: &[u8],
) -> Result<Result<OpenedLog<Ledger>, OpenFault>, AllocError> {
    let accounts = vec![in alloc; 0, 0]?;
    Ok(open_log::<Ledger, _>(alloc, &mut bytes, accounts))
}

// The history of one worker's script over two accounts that hold nothing.
pub(crate) fn history<R: Threads + Wait + Sync + Alloc<A = Global>>(
    rt: &R,
    script: Vec<LedgerRequest>,
) -> Result<History<LedgerRequest, LedgerReply>, Fail> {
    let alloc = rt.alloc();
    let accounts = vec![in alloc; 0, 0]?;
    let scripts = [script];
    check_scripts::<Ledger>(&scripts, accounts.len())?;
    let Outcome { history, table: _ } = run::<Ledger, R>(rt, alloc, accounts, &scripts, POLICY)?;
    Ok(history)
}

#[test]
fn a_cut_line_is_not_performed(rt: HostRuntime) -> Result<(), Fail> {
    let log = opened(rt.alloc(), b"add 0 5\ntake 0 2\nadd 1 4294967295\nadd 1 7")??;
    assert_eq!(rt; log.table.as_slice(), [3, 4294967295].as_slice());
    assert_eq!(rt; log.lines, 3);
    assert_eq!(rt; log.kept, 34);
    assert_eq!(rt; log.tail.as_slice(), b"add 1 7".as_slice());
    Ok(())
}

// What no crash leaves of a line: the file is no log, or another program has written to it.
#[test]
fn an_end_that_begins_no_line_is_named(rt: HostRuntime) -> Result<(), Fail> {
    let alloc = rt.alloc();
    for end in [
        r#"{"accounts": [1, 2, 3]}"#,
        "adds",
        "held 0",
        "add 0 5\0",
        "take 0 5\r",
        "take the bus",
        "take 4294967295 42949672950",
    ] {
        for (before, number) in [("", 1), ("add 0 5\n", 2)] {
            let text = format!(in alloc; "{before}{end}")?;
            let fault = opened(alloc, text.as_bytes())?.err();
            assert!(rt;
                matches!(fault, Some(OpenFault::Tail(line)) if line == number),
                "{end}"
            );
        }
    }
    Ok(())
}

#[test]
fn each_beginning_of_a_line_may_be_cut(rt: HostRuntime) -> Result<(), Fail> {
    let alloc = rt.alloc();
    for line in ["add 0 0", "take 4294967295 4294967295"] {
        for end in 0..line.len() {
            let log = opened(alloc, &line.as_bytes()[..end])??;
            assert_eq!(rt; log.tail.as_slice(), &line.as_bytes()[..end]);
        }
    }
    Ok(())
}

#[test]
fn an_empty_log_opens_nothing(rt: HostRuntime) -> Result<(), Fail> {
    let log = opened(rt.alloc(), b"")??;
    assert_eq!(rt; log.table.as_slice(), [0, 0].as_slice());
    assert_eq!(rt; log.lines, 0);
    assert_eq!(rt; log.kept, 0);
    Ok(())
}

// Each line is the second, and is not as a request is written, or is of no request that is logged.
#[test]
fn a_line_that_is_no_request_is_named(rt: HostRuntime) -> Result<(), Fail> {
    let alloc = rt.alloc();
    for line in [
        "",
        "add 0",
        "add 0 05",
        "add 0 4294967296",
        "held 0",
        "add 0 5 ",
        "adds 0 5",
    ] {
        let text = format!(in alloc; "add 0 5\n{line}\nadd 0 5\n")?;
        let fault = opened(alloc, text.as_bytes())?.err();
        assert!(rt; matches!(fault, Some(OpenFault::NoRequest(2))), "{line}");
    }
    Ok(())
}

#[test]
fn a_line_that_is_no_text_is_named(rt: HostRuntime) -> Result<(), Fail> {
    let fault = opened(rt.alloc(), b"add 0 \xff\n")?.err();
    assert!(rt; matches!(fault, Some(OpenFault::NoRequest(1))));
    Ok(())
}

#[test]
fn a_key_that_is_not_there_is_named(rt: HostRuntime) -> Result<(), Fail> {
    let fault = opened(rt.alloc(), b"add 1 5\nadd 0 5\ntake 2 5\n")?.err();
    assert!(rt; matches!(fault, Some(OpenFault::NoSuchKey(3))));
    Ok(())
}

#[test]
fn a_read_that_fails_opens_nothing(rt: HostRuntime) -> Result<(), Fail> {
    let alloc = rt.alloc();
    let mut reader = BufReader::new(alloc, Broken { has_given: false })?;
    let accounts = vec![in alloc; 0, 0]?;
    let fault = open_log::<Ledger, _>(alloc, &mut reader, accounts).err();
    assert!(rt; matches!(fault, Some(OpenFault::Read(_))));
    Ok(())
}

#[test]
fn lines_are_in_commit_order_and_views_have_none(rt: HostRuntime) -> Result<(), Fail> {
    let alloc = rt.alloc();
    let add = Add { to: 1, amount: 5 };
    let take = Take {
        from: 0,
        amount: 20,
    };
    let first = history(&rt, vec![in alloc; add, Held { of: 1 }, take]?)?;
    let second = history(&rt, vec![in alloc; add]?)?;
    let mut log = CommitLog::new(alloc, NoLog, 0);
    log.log_commits::<Ledger>(&first)?;
    assert_eq!(rt; log.buffer.as_slice(), b"add 1 5\ntake 0 20\n".as_slice());
    assert_eq!(rt; log.lines, 2);
    log.log_commits::<Ledger>(&second)?;
    assert_eq!(rt; log.buffer.as_slice(), b"add 1 5\n".as_slice());
    assert_eq!(rt; log.lines, 3);
    Ok(())
}

#[test]
fn a_log_that_fails_counts_no_line(rt: HostRuntime) -> Result<(), Fail> {
    let alloc = rt.alloc();
    let add = history(&rt, vec![in alloc; Add { to: 1, amount: 5 }]?)?;
    let view = history(&rt, vec![in alloc; Held { of: 1 }]?)?;
    let mut log = CommitLog::new(alloc, NoRoom, 7);
    let fault = log.log_commits::<Ledger>(&add).err();
    assert!(rt; matches!(fault, Some(CommitFault::Log(LogFault::Write(_)))));
    assert_eq!(rt; log.lines, 7);
    log.log_commits::<Ledger>(&view)?;
    assert_eq!(rt; log.lines, 7);
    Ok(())
}

#[test]
fn a_full_log_is_told(rt: HostRuntime) -> Result<(), Fail> {
    let alloc = rt.alloc();
    let add = history(&rt, vec![in alloc; Add { to: 1, amount: 5 }]?)?;
    let view = history(&rt, vec![in alloc; Held { of: 1 }]?)?;
    let mut log = CommitLog::new(alloc, NoLog, MOST_LINES - 1);
    log.log_commits::<Ledger>(&view)?;
    let fault = log.log_commits::<Ledger>(&add).err();
    assert!(rt; matches!(fault, Some(CommitFault::Full)));
    Ok(())
}

#[test]
fn laws_hold_of_the_ledger(_rt: HostRuntime) {
    what_is_acknowledged_is_there::<Ledger>();
    parts_are_one_history::<Ledger>();
    a_log_is_never_refused::<Ledger>();
}
