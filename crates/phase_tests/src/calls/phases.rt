//! A joined phase of one worker, in whose stash a view waits, and a split phase in which the vases
//! are hot.
ghost use Rattle.std.specs.Prelude.{◌≡◌, ◌+◌, ◌<◌, ◌∷◌, [], ℕ, length, vec_len, IfErr, IfOk, ⊤};
ghost use Rattle.phase_floor.specs.{Begins.{CanBegin}, Closings.{AreReceiptsOf, IsReceipt}};

use crate::calls::printing::{
    kind_name, look_for_memory, print_answer, print_count, print_waiting,
};
use crate::testing::waiting;
use auction_rows::{MOST_TRIES, Object, Reply, Request};
use indexmap::IndexSet;
use phase_floor::{BeginFault, Floor, Joined, JoinedFloor, SplitFloor};
use phase_permits::{
    Done, JoinedPermit, JoinedPhase, Kind, Permit, PermitFault, SplitPermit, SplitPhase, Stash,
};
use shard_boxes::PhaseName;
use std::alloc::{AllocError, Global};
use std::fmt::Debug;
use std::marker::Brand;
use std::sync::Wait;
use std::test::Fail;
use test_values::{FIRST, OPENING, VIEW, bid, only, print_view, put_up, vases};
use worker_journals::History;

// A phase that has begun, and the permits of its workers.
type Begun<N, K> = (Floor<N, K>, Vec<Permit<N, K>>);

// A kind of phase: what it begins with beside the state, and what its permits answer.
trait Performs: Kind {
    type Given: Drop;

    type Answer: Debug + Drop;

    // What is given is for so many workers.
    ghost suits: { ℕ → Self.Given → Type 0 };

    // Begins a phase in which each worker has a quota of eight. If it does not begin, the state and
    // what was given come back.
    fn begin<N: PhaseName, R: Wait>(
        rt: &R,
        alloc: Global,
        state: Joined,
        given: Self::Given,
    ) -> Result<Begun<N, Self>, (Joined, Self::Given, BeginFault)>
        requires can { CanBegin N.initial N.workers state (8 ∷ []) }
        requires suits { suits N.workers given }
        ensures workers { IfOk result (λ begun. length begun.0.counters ≡ 1) }
        ensures phase { IfOk result (λ begun. begun.0.phase ≡ state.phase) }
        ensures receipts { IfOk result (λ begun. AreReceiptsOf begun.0 begun.1.items) }
        ensures state { IfErr result (λ refused. refused.0 ≡ state) }
        ensures given { IfErr result (λ refused. refused.1 ≡ given) };

    // Performs a request of the quota.
    fn perform<N: PhaseName, R: Wait>(
        rt: &R,
        floor: &Floor<N, Self>,
        permit: &mut Permit<N, Self>,
        request: &Request,
        index: u32,
    ) -> Result<Self::Answer, PermitFault>
        requires left { 0 < permit.old.left }
        requires tries { permit.old.tries < MOST_TRIES }
        requires receipt { IsReceipt floor.now 0 permit.old }
        ensures { IsReceipt floor.now 0 permit.new };
}

impl Performs for JoinedPhase {
    type Given = Vec<Stash>;

    type Answer = Reply;

    ghost suits = { λ workers stashes. vec_len stashes ≡ workers };

    fn begin<N: PhaseName, R: Wait>(
        rt: &R,
        alloc: Global,
        state: Joined,
        stashes: Vec<Stash>,
    ) -> Result<Begun<N, JoinedPhase>, (Joined, Vec<Stash>, BeginFault)> {
        match state.begin_joined::<N, R>(rt, alloc, &[8], stashes) {
            Ok(begun) => Ok(begun),
            Err(refused) => Err(refused),
        }
    }

    fn perform<N: PhaseName, R: Wait>(
        rt: &R,
        floor: &JoinedFloor<N>,
        permit: &mut JoinedPermit<N>,
        request: &Request,
        index: u32,
    ) -> Result<Reply, PermitFault> {
        permit.perform(rt, floor.boxes(), request, index)
    }
}

impl Performs for SplitPhase {
    type Given = IndexSet<Object>;

    type Answer = Done;

    ghost suits = { λ _ _. ⊤ };

    fn begin<N: PhaseName, R: Wait>(
        rt: &R,
        alloc: Global,
        state: Joined,
        hot: IndexSet<Object>,
    ) -> Result<Begun<N, SplitPhase>, (Joined, IndexSet<Object>, BeginFault)> {
        match state.begin_split::<N, R>(rt, alloc, &[8], &hot) {
            Ok(begun) => Ok(begun),
            Err((state, fault)) => Err((state, hot, fault)),
        }
    }

    fn perform<N: PhaseName, R: Wait>(
        rt: &R,
        floor: &SplitFloor<N>,
        permit: &mut SplitPermit<N>,
        request: &Request,
        index: u32,
    ) -> Result<Done, PermitFault> {
        permit.perform(rt, floor.boxes(), request, index)
    }
}

// Begins a phase; where memory is refused, once more on what came back.
fn begin<N: PhaseName, K: Performs, R: Wait + Print>(
    rt: &R,
    alloc: Global,
    state: Joined,
    given: K::Given,
) -> Result<Begun<N, K>, Fail>
    requires can { CanBegin N.initial N.workers state (8 ∷ []) }
    requires suits { K.suits N.workers given }
    ensures workers { IfOk result (λ begun. length begun.0.counters ≡ 1) }
    ensures phase { IfOk result (λ begun. begun.0.phase ≡ state.phase) }
    ensures receipts { IfOk result (λ begun. AreReceiptsOf begun.0 begun.1.items) }
{
    let kind = kind_name::<K>();
    match K::begin::<N, R>(rt, alloc, state, given) {
        Ok(begun) => Ok(begun),
        Err((state, given, fault)) => {
            let _ = println!(rt; "{kind} begin: {fault}");
            match K::begin::<N, R>(rt, alloc, state, given) {
                Ok(begun) => Ok(begun),
                Err((_state, _given, fault)) => Err(Fail::new(fault)),
            }
        }
    }
}

// Whether a request was performed or put off, with so much of the quota left before.
fn attempt<N: PhaseName, K: Performs, R: Wait + Print>(
    rt: &R,
    floor: &Floor<N, K>,
    permit: &mut Permit<N, K>,
    request: &Request,
    index: u32,
) -> bool
    requires { IsReceipt floor.now 0 permit.old }
    ensures { IsReceipt floor.now 0 permit.new }
{
    let left = permit.left();
    if left == 0 || permit.tries() >= MOST_TRIES {
        return false;
    }
    let answer = K::perform(rt, floor, permit, request, index);
    print_answer(rt, kind_name::<K>(), index, left, &answer)
}

// Performs requests, each with its index, and once more where it is refused: after a second refusal
// none.
fn perform_each<N: PhaseName, K: Performs, R: Wait + Print>(
    rt: &R,
    floor: &Floor<N, K>,
    permit: &mut Permit<N, K>,
    calls: &[(u32, Request)],
)
    requires { IsReceipt floor.now 0 permit.old }
    ensures { IsReceipt floor.now 0 permit.new }
{
    for (index, request) in calls {
        let is_done = attempt(rt, floor, permit, request, *index);
        if !is_done && !attempt(rt, floor, permit, request, *index) {
            return;
        }
    }
}

// Performs what waits first.
fn perform_first<N: PhaseName, R: Wait + Print>(
    rt: &R,
    floor: &JoinedFloor<N>,
    permit: &mut JoinedPermit<N>,
)
    requires { IsReceipt floor.now 0 permit.old }
    ensures { IsReceipt floor.now 0 permit.new }
{
    if permit.tries() >= MOST_TRIES {
        return;
    }
    let _ = match permit.perform_stashed(rt, floor.boxes()) {
        Ok(answer) => println!(rt; "joined stash: {answer:?}"),
        Err(fault) => println!(rt; "joined stash: {fault}"),
    };
}

// Closes the phase: the state after it. Of a split phase it prints how many requests wait.
fn close<N: PhaseName, K: Kind, R: Wait + Print>(
    rt: &R,
    alloc: Global,
    floor: Floor<N, K>,
    permit: Permit<N, K>,
    history: &mut History,
) -> Result<Joined, Fail>
    requires workers { length floor.counters ≡ 1 }
    requires permit { IsReceipt floor 0 permit }
    ensures workers { IfOk result (λ after. length after.counters ≡ 1) }
    ensures phase { IfOk result (λ after. after.phase ≡ floor.phase + 1) }
{
    let kind = kind_name::<K>();
    let receipts = vec![in alloc; permit.finish()]?;
    let _ = println!(rt; "{kind} receipts: {}", receipts.len());
    match floor.close(rt, alloc, history, receipts) {
        Ok((state, stashes)) => {
            let _ = println!(rt; "{kind} close: {} entries", history.len());
            if !K::IS_JOINED {
                print_waiting(rt, &stashes);
            }
            Ok(state)
        }
        Err(fault) => Err(Fail::new(fault)),
    }
}

// A joined phase: what waits, a view of an unknown user between two looks for memory, a store, and
// a bid.
fn joined_phase<N: PhaseName, R: Wait + Print>(
    rt: &R,
    alloc: Global,
    state: Joined,
    stashes: Vec<Stash>,
    history: &mut History,
) -> Result<Joined, Fail>
    requires can { CanBegin N.initial N.workers state (8 ∷ []) }
    requires stashes { vec_len stashes ≡ N.workers }
    ensures workers { IfOk result (λ after. length after.counters ≡ 1) }
    ensures phase { IfOk result (λ after. after.phase ≡ state.phase + 1) }
{
    let (floor, permits) = begin::<N, JoinedPhase, R>(rt, alloc, state, stashes)?;
    print_count(rt, "joined begin", permits.len(), " permit");
    let mut permit = only(permits);
    perform_first(rt, &floor, &mut permit);
    look_for_memory(rt, alloc);
    perform_each(
        rt,
        &floor,
        &mut permit,
        &[(1, Request::ViewUser { user: 10 })],
    );
    look_for_memory(rt, alloc);
    perform_each(
        rt,
        &floor,
        &mut permit,
        &[(2, put_up(vases(10, 2))), (3, bid(1, 20, 5))],
    );
    close(rt, alloc, floor, permit, history)
}

// A split phase: a bid on the hot item, a view of it, and a store.
fn split_phase<N: PhaseName, R: Wait + Print>(
    rt: &R,
    alloc: Global,
    state: Joined,
    hot: IndexSet<Object>,
    history: &mut History,
) -> Result<Joined, Fail>
    requires { CanBegin N.initial N.workers state (8 ∷ []) }
{
    let (floor, permits) = begin::<N, SplitPhase, R>(rt, alloc, state, hot)?;
    print_count(rt, "split begin", permits.len(), " permit");
    let mut permit = only(permits);
    let calls = [(4, bid(2, 30, 5)), (5, VIEW), (6, put_up(vases(10, 2)))];
    perform_each(rt, &floor, &mut permit, &calls);
    close(rt, alloc, floor, permit, history)
}

// The vases.
fn hot_item(alloc: Global) -> Result<IndexSet<Object>, AllocError> {
    let mut hot = IndexSet::new(alloc);
    match hot.insert(Object::Item(FIRST)) {
        Ok(_is_new) => Ok(hot),
        Err(_refused) => Err(AllocError),
    }
}

/// Makes the calls: the state after both phases.
pub(crate) fn phases_by_hand<R: Wait + Print>(
    rt: &R,
    alloc: Global,
    history: &mut History,
) -> Result<Joined, Fail> {
    let stashes = vec![in alloc; waiting(alloc, 0, 3)?]?;
    let hot = hot_item(alloc)?;
    let state = Joined::new(alloc, OPENING, 1, 4)?;
    let _ = println!(rt; "phases ready: a state, a stash and a hot item");
    let state = joined_phase::<Brand, R>(rt, alloc, state, stashes, history)?;
    print_view(rt, state.phase(), state.view(&VIEW));
    let state = split_phase::<Brand, R>(rt, alloc, state, hot, history)?;
    print_view(rt, state.phase(), state.view(&VIEW));
    Ok(state)
}
