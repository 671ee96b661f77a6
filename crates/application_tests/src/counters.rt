//! Counters, each a number with no operation but addition.
ghost use Rattle.std.specs.Prelude.{◌≡◌, [], ◌*◌, ◌≤◌};
ghost use Rattle.application_tests.specs.Model.{decided};
ghost use Rattle.application_tests.specs.declared.counters.CounterReply.TheVariants.{Shows};

use application_check::Checkable;
use split_engine::{Application, Decision, Few};

/// What is asked of counters.
#[derive(Clone, Copy)]
pub enum CounterRequest {
    /// To add so much to two counters, or twice to one.
    Add {
        to: (u32, u32),
        by: u32,
    },
    /// What a counter shows.
    Read {
        counter: u32,
    },
    /// The least that four counters show.
    Least {
        first: u32,
        second: u32,
        third: u32,
        fourth: u32,
    },
    /// What counters cannot do: it names none.
    Unknown,
}

/// What is answered.
#[derive(Clone, Copy, PartialEq, Eq, Debug)]
pub enum CounterReply {
    Added,
    Shows(u64),
    Refused,
}

/// The application.
pub struct Counters;

// A number is shown, and nothing done.
fn shown(number: u64) -> Decision<CounterReply, u32>
    ensures { result ≡ decided (Shows number) [] }
{
    Decision {
        reply: CounterReply::Shows(number),
        acts: Few::none(),
    }
}

impl Application for Counters {
    ghost use Rattle.application_tests.specs.Model.{counters, counter_laws, IsMadeBy, IsWord};

    type Record = u64;

    type Slice = u64;

    type Look = u64;

    type Request = CounterRequest;

    type Reply = CounterReply;

    type Act = u32;

    ghost rules = { counters };

    ghost fits = { IsMadeBy };

    ghost slice_fits = { IsMadeBy };

    ghost is_small = { IsWord };

    ghost laws = { counter_laws };

    fn keys(request: &CounterRequest) -> Few<u32> {
        let request = *request;
        match request {
            CounterRequest::Add { to, .. } => Few::two(to.0, to.1),
            CounterRequest::Read { counter } => Few::one(counter),
            CounterRequest::Least {
                first,
                second,
                third,
                fourth,
            } => Few::two(first, second).and(third).and(fourth),
            CounterRequest::Unknown => Few::none(),
        }
    }

    fn look(held: &u64) -> u64 {
        *held
    }

    fn decide(request: &CounterRequest, looks: &Few<u64>) -> Decision<CounterReply, u32> {
        let request = *request;
        match request {
            CounterRequest::Add { by, .. } => Decision {
                reply: CounterReply::Added,
                acts: Few::two(by, by),
            },
            CounterRequest::Read { .. } => shown(looks.at(0)),
            CounterRequest::Least { .. } => {
                let front = looks.at(0).min(looks.at(1));
                let back = looks.at(2).min(looks.at(3));
                shown(front.min(back))
            }
            CounterRequest::Unknown => Decision {
                reply: CounterReply::Refused,
                acts: Few::none(),
            },
        }
    }

    fn splits(request: &CounterRequest) -> bool {
        matches!(*request, CounterRequest::Add { .. })
    }

    fn apply(held: &mut u64, by: u32) {
        *held += by as u64;
    }

    fn empty_slice() -> u64 {
        0
    }

    fn apply_to_slice(slice: &mut u64, by: u32) {
        *slice += by as u64;
    }

    fn merge(held: &mut u64, slice: u64) {
        *held += slice;
    }
}

impl Checkable for Counters {
    fn is_same_reply(told: &CounterReply, given: &CounterReply) -> bool {
        *told == *given
    }
}
