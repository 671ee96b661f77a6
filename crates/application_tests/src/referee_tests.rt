//! The referee: its verdicts on histories of two scripts.
ghost use Rattle.std.specs.Prelude.{◌<◌, length};

use crate::counters::CounterRequest::{Add, Read};
use crate::counters::{CounterReply, Counters};
use application_check::HistoryFault::{Lacking, Wrong};
use application_check::{HistoryFault, HistoryLine, check_history};
use split_engine::perform;
use std::alloc::{AllocError, Global};
use std::test::Fail;

/// A line of a history.
pub(crate) fn line(worker: u32, index: u32, reply: CounterReply) -> HistoryLine<CounterReply> {
    HistoryLine {
        worker,
        index,
        reply,
    }
}

// What the referee finds of lines for two scripts over counters that show 1 and 2.
fn verdict(
    alloc: Global,
    lines: &[HistoryLine<CounterReply>],
) -> Result<Result<(), HistoryFault>, AllocError>
    requires { length lines.now < 1000 }
{
    let first = vec![in alloc; Add { to: (0, 1), by: 4 }, Read { counter: 1 }]?;
    let second = vec![in alloc; Read { counter: 0 }]?;
    let scripts = [first, second];
    let mut counters = vec![in alloc; 1u64, 2u64]?;
    Ok(check_history::<Counters>(alloc, &mut counters, &scripts, lines))
}

#[test]
fn verdicts(rt: HostRuntime) -> Result<(), Fail> {
    let alloc = rt.alloc();
    let read = line(1, 0, CounterReply::Shows(1));
    let added = line(0, 0, CounterReply::Added);
    let six = line(0, 1, CounterReply::Shows(6));
    let seven = line(0, 1, CounterReply::Shows(7));
    let unasked = line(0, 2, CounterReply::Added);
    let stranger = line(2, 0, CounterReply::Added);
    assert_eq!(rt; verdict(alloc, &[read, added, six])?, Ok(()));
    assert_eq!(rt; verdict(alloc, &[read, added, seven])?, Err(Wrong(2)));
    assert_eq!(rt; verdict(alloc, &[added, read, six])?, Err(Wrong(1)));
    assert_eq!(rt; verdict(alloc, &[read, unasked, added])?, Err(Wrong(1)));
    assert_eq!(rt; verdict(alloc, &[stranger, read, added])?, Err(Wrong(0)));
    assert_eq!(rt; verdict(alloc, &[read, added, read])?, Err(Wrong(2)));
    assert_eq!(rt;
        verdict(alloc, &[added, six])?,
        Err(Lacking {
            worker: 1,
            index: 0
        })
    );
    Ok(())
}

#[test]
fn requests_one_by_one(rt: HostRuntime) -> Result<(), Fail> {
    let mut counters = vec![in rt.alloc(); 1u64, 2u64]?;
    let add = Add { to: (1, 1), by: 4 };
    assert_eq!(rt;
        perform::<Counters>(&mut counters, &add),
        CounterReply::Added
    );
    let read = Read { counter: 1 };
    assert_eq!(rt;
        perform::<Counters>(&mut counters, &read),
        CounterReply::Shows(10)
    );
    Ok(())
}
