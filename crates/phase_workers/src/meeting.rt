//! Whether one thread performs a phase as soon as several do: if it is short, or if its requests
//! meet on one shard.
ghost use Rattle.std.specs.Prelude.{◌<◌};

use crate::round::Round;
use crate::worker::waiting;
use auction_rows::{MOST_SHARDS, Request, shard_of, touches};
use phase_permits::{Kind, Permit};
use shard_boxes::PhaseName;
use worker_journals::Script;

// To start a thread, end it and wait for it takes longer than to perform so many requests.
const SHORT_TASK: u64 = 128;

// About so many requests of a round are looked at, so many in a row: scripts may have a period.
const LOOKS: usize = 64;

const IN_A_ROW: usize = 8;

/// Whether one thread performs a round as soon as several do: if its workers have few requests
/// each, or if at least half of these meet on one shard, as far as some of them tell. To hand a
/// shard to another thread takes as long as a request.
pub(crate) fn is_for_one_thread<N: PhaseName, K: Kind, G>(
    permits: &[Permit<N, K>],
    round: &Round<'_, G>,
    shards: u32,
) -> bool
    requires { 0 < shards }
{
    let requests = requests_of(permits);
    if requests <= SHORT_TASK.saturating_mul(permits.len() as u64) {
        return true;
    }
    let mut looks = Looks::apart(requests as usize / (LOOKS / IN_A_ROW));
    for (worker, permit) in permits.iter().enumerate() {
        if let Some(script) = round.scripts.get(worker) {
            looks.look_at(permit, script, round.first as usize, shards);
        }
    }
    looks.do_meet()
}

// How many requests are to be performed by these permits.
fn requests_of<N: PhaseName, K: Kind>(permits: &[Permit<N, K>]) -> u64 {
    let mut requests = 0u64;
    for permit in permits {
        requests = requests.saturating_add(waiting(permit) as u64);
        requests = requests.saturating_add(u64::from(permit.left()));
    }
    requests
}

// The requests that are looked at.
#[derive(Drop)]
struct Looks {
    // How far apart rows begin.
    stride: usize,
    all: u32,
    // How many of them take each shard.
    taking: [u32; MOST_SHARDS],
}

impl Looks {
    fn apart(stride: usize) -> Looks {
        Looks {
            stride,
            all: 0,
            taking: [0; MOST_SHARDS],
        }
    }

    // Looks at some of what a worker is to perform.
    fn look_at<N: PhaseName, K: Kind>(
        &mut self,
        permit: &Permit<N, K>,
        script: &Script,
        first: usize,
        shards: u32,
    )
        requires { 0 < shards }
    {
        for look in 0..LOOKS {
            let row = (look / IN_A_ROW).wrapping_mul(self.stride);
            let place = row.saturating_add(look % IN_A_ROW);
            let Some(request) = request_at(permit, script, first, place) else {
                return;
            };
            self.add(shard_taken(permit, request, shards));
        }
    }

    // Adds a request that takes this shard, if it takes one.
    fn add(&mut self, shard: Option<u32>) {
        self.all = self.all.saturating_add(1);
        let Some(shard) = shard else {
            return;
        };
        if let Some(taking) = self.taking.get_mut(shard as usize) {
            *taking = taking.saturating_add(1);
        }
    }

    // Whether half of them take the same shard.
    fn do_meet(&self) -> bool {
        for taking in self.taking.iter() {
            if taking.saturating_mul(2) >= self.all {
                return true;
            }
        }
        false
    }
}

// The request at a place of what a worker is to perform: first comes what waits.
fn request_at<N: PhaseName, K: Kind>(
    permit: &Permit<N, K>,
    script: &Script,
    first: usize,
    place: usize,
) -> Option<Request> {
    let waiting = waiting(permit);
    if place < waiting {
        let (_, request) = permit.stashed_at(place)?;
        return Some(request);
    }
    let given = place - waiting;
    if given >= permit.left() as usize {
        return None;
    }
    let index = first.saturating_add(given);
    if index < script.len() {
        Some(script.request(index))
    } else {
        None
    }
}

// The shard that a request takes for the object that it touches first: none if that is hot.
fn shard_taken<N: PhaseName, K: Kind>(
    permit: &Permit<N, K>,
    request: Request,
    shards: u32,
) -> Option<u32>
    requires { 0 < shards }
{
    let [first, _] = touches(request);
    let object = first?;
    if permit.is_hot(object) {
        None
    } else {
        Some(shard_of(object, shards))
    }
}
