//! Phases of one worker that are begun, or are not, and in which nothing is done.
ghost use Rattle.std.specs.Prelude.{◌≡◌, ◌≤◌, length, vec_len, IfErr};
ghost use Rattle.phase_floor.specs.States.{states_of};

use auction_rows::Object;
use indexmap::IndexSet;
use phase_floor::{BeginFault, Joined};
use phase_permits::{Kind, Permit, Stash};
use shard_boxes::PhaseName;
use std::alloc::Global;
use std::sync::Wait;
use test_values::only;

// The quota of the one worker, whose permit is spent.
fn quota_of<N: PhaseName, K: Kind>(permits: Vec<Permit<N, K>>) -> u32
    requires { vec_len permits ≡ 1 }
{
    let permit = only(permits);
    let left = permit.left();
    drop(permit.finish());
    left
}

/// The quota with which a joined phase begins, or what came back.
pub(crate) fn begin_joined<N: PhaseName, R: Wait>(
    rt: &R,
    alloc: Global,
    state: Joined,
    quota: u32,
    stashes: Vec<Stash>,
) -> Result<u32, (Joined, Vec<Stash>, BeginFault)>
    requires shards { states_of state ≡ N.initial }
    requires workers { length state.counters ≡ N.workers }
    requires one { N.workers ≡ 1 }
    requires stashes { vec_len stashes ≡ 1 }
    requires phase { state.phase ≤ 1 }
    ensures state { IfErr result (λ refused. refused.0 ≡ state) }
    ensures stashes { IfErr result (λ refused. refused.1 ≡ stashes) }
{
    match state.begin_joined::<N, R>(rt, alloc, &[quota], stashes) {
        Ok((_floor, permits)) => Ok(quota_of(permits)),
        Err(refused) => Err(refused),
    }
}

/// The quota with which a split phase begins, or what came back.
pub(crate) fn begin_split<N: PhaseName, R: Wait>(
    rt: &R,
    alloc: Global,
    state: Joined,
    quota: u32,
    hot: &IndexSet<Object>,
) -> Result<u32, (Joined, BeginFault)>
    requires shards { states_of state ≡ N.initial }
    requires workers { length state.counters ≡ N.workers }
    requires one { N.workers ≡ 1 }
    requires phase { state.phase ≡ 0 }
    ensures state { IfErr result (λ refused. refused.0 ≡ state) }
{
    match state.begin_split::<N, R>(rt, alloc, &[quota], hot) {
        Ok((_floor, permits)) => Ok(quota_of(permits)),
        Err(refused) => Err(refused),
    }
}
