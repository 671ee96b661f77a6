//! A log that is written and opened. What the calls answer stands in `tests/library_calls.txt`.
use crate::ledger::Ledger;
use crate::ledger::LedgerRequest::{Add, Held, Take};
use crate::tests::history;
use application_log::{CommitLog, open_log};
use part_log::NoLog;
use std::test::Fail;

#[test]
fn log(rt: HostRuntime) -> Result<(), Fail> {
    let alloc = rt.alloc();
    let script = vec![in alloc;
        Add { to: 1, amount: 5 },
        Held { of: 1 },
        Take { from: 1, amount: 2 },
    ]?;
    let history = history(&rt, script)?;
    let accounts = vec![in alloc; 0, 0]?;
    let _ = println!(rt; "log ready: {} entries", history.len());
    let mut log = CommitLog::new(alloc, NoLog, 0);
    log.log_commits::<Ledger>(&history)?;
    let _ = println!(rt; "log written: {} lines", log.lines);
    let opened = open_log::<Ledger, _>(alloc, &mut log.buffer.as_slice(), accounts)?;
    let _ = println!(rt; "log opened: {} lines, {} bytes", opened.lines, opened.kept);
    assert_eq!(rt; opened.table.as_slice(), [0, 3].as_slice());
    Ok(())
}
