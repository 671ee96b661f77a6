//! How a phase closes: its receipts and their parts; and the slices of all workers, merged into the
//! shards.
ghost use Rattle.std.specs.{List.{AllByRecursion, flat_map}, Option.{ForSome}};
ghost use Rattle.std.specs.Prelude.{length, IfOk, OnOk, ◌≡◌, ◌≤◌, ◌<◌, ◌+◌, [], ◌∷◌, map, fold, ◌++◌, true, false, OnErr, vec_len, vec_capacity};
ghost use Rattle.phase_laws.specs.Replay.{SawInTurn};
ghost use Rattle.worker_journals.specs.Merged.{added, merged};
ghost use Rattle.shard_boxes.specs.States.{state_of};
ghost use Rattle.auction_shards.specs.Merging.{CanMerge, after_merge};
ghost use Rattle.auction_shards.specs.Shards.{AreOfOne, at_start};
ghost use Rattle.phase_floor.specs.Closings.{AreOfScripts, AreReceiptsOf, HasSettled, HasReconciled, Leaves};
ghost use Rattle.phase_floor.specs.States.{states_of};
ghost use Rattle.phase_floor.specs.inner.Parts.{ArePartsOf, IsFinished, AreKnown, from_the_last, slices_kept};

use crate::floor::{Floor, FloorFault};
use crate::joined::Joined;
use crate::memory::Memory;
use auction_shards::Shards;
use item_shards::Shard;
use phase_permits::{Counters, Kind, Receipt, Slices, Stash};
use shard_boxes::{Key, PhaseName};
use std::alloc::{AllocError, Global};
use std::sync::Wait;
use worker_journals::{History, Journal, SharedScripts};

/// The journals, stashes, keys, counters and slices of a phase's workers, each in the order of the
/// workers.
#[derive(Drop)]
pub(crate) struct Parts<N: PhaseName> {
    pub(crate) journals: Vec<Journal>,
    pub(crate) stashes: Vec<Stash>,
    pub(crate) keys: Vec<Key<N>>,
    pub(crate) counters: Vec<Counters>,
    pub(crate) slices: Vec<Slices>,
}

impl<N: PhaseName> Parts<N> {
    /// Those of receipts, the counters in a list that has room for them. All memory is asked for
    /// before a receipt is opened. In a joined phase no worker has a slice, and no list of them is
    /// made.
    pub(crate) fn of<K: Kind>(
        alloc: Global,
        receipts: Vec<Receipt<N, K>>,
        mut counters: Vec<Counters>,
    ) -> Result<Parts<N>, AllocError>
        requires room { vec_len receipts ≤ vec_capacity counters }
        ensures parts { IfOk result (λ parts. ArePartsOf receipts.items
            parts.journals.items parts.stashes.items parts.keys.items parts.counters.items) }
        ensures slices { IfOk result (λ parts.
            parts.slices.items ≡ slices_kept K.IS_JOINED receipts.items) }
        ensures finished { OnOk result
            (AllByRecursion (IsFinished (length N.initial)) receipts.items) }
    {
        let workers = receipts.len();
        let mut journals = Vec::with_capacity(alloc, workers)?;
        let mut stashes = Vec::with_capacity(alloc, workers)?;
        let mut keys = Vec::with_capacity(alloc, workers)?;
        let mut slices = Vec::with_capacity(alloc, room_for_slices::<K>(workers))?;
        counters.clear();
        for receipt in receipts {
            let (journal, own, stash, key, counted) = receipt.parts();
            journals.push_reserved(journal);
            stashes.push_reserved(stash);
            keys.push_reserved(key);
            counters.push_reserved(counted);
            keep_slices::<K>(&mut slices, own);
        }
        Ok(Parts {
            journals,
            stashes,
            keys,
            counters,
            slices,
        })
    }
}

// For the slices of how many workers there is to be room.
fn room_for_slices<K: Kind>(workers: usize) -> usize
    ensures { K.IS_JOINED ≡ false → result ≡ workers }
{
    if K::IS_JOINED { 0 } else { workers }
}

// Keeps the slices of a worker, but in a joined phase.
fn keep_slices<K: Kind>(kept: &mut Vec<Slices>, own: Slices)
    requires room { K.IS_JOINED ≡ false → vec_len kept.old < vec_capacity kept.old }
    ensures none { K.IS_JOINED ≡ true → kept.new.items ≡ kept.old.items }
    ensures one { K.IS_JOINED ≡ false → kept.new.items ≡ kept.old.items ++ own ∷ [] }
    ensures len { K.IS_JOINED ≡ false → vec_len kept.new ≡ vec_len kept.old + 1 }
    ensures capacity { vec_capacity kept.new ≡ vec_capacity kept.old }
{
    if !K::IS_JOINED {
        kept.push_reserved(own);
    }
}

// Merges the slices of a worker, from the last on, and gives back their memory.
fn merge_own(shards: &mut Shards, mut slices: Slices) -> Slices
    requires known { AreKnown (map state_of shards.old) (from_the_last slices) }
    requires can { SawInTurn CanMerge after_merge (map state_of shards.old)
        (from_the_last slices) }
    ensures { map state_of shards.new
        ≡ fold after_merge (map state_of shards.old) (from_the_last slices) }
{
    while let Some((object, slice)) = slices.pop() {
        shards.merge(object, slice);
    }
    slices
}

// Merges the slices of all workers, one worker's after the other, and keeps their memory.
fn merge_all(shards: &mut Shards, slices: Vec<Slices>, memory: &mut Memory)
    requires known { AreKnown (map state_of shards.old) (flat_map from_the_last slices.items) }
    requires can { SawInTurn CanMerge after_merge (map state_of shards.old)
        (flat_map from_the_last slices.items) }
    ensures { map state_of shards.new
        ≡ fold after_merge (map state_of shards.old) (flat_map from_the_last slices.items) }
{
    for own in slices {
        memory.keep(merge_own(shards, own));
    }
}

// The shards that the boxes gave back, with the slices of all workers merged and their clocks at 0:
// numbers are those of one phase.
fn reconciled(given: Vec<Shard>, slices: Vec<Slices>, memory: &mut Memory) -> Shards
    requires shards { AreOfOne (map state_of given.items) }
    requires known { AreKnown (map state_of given.items) (flat_map from_the_last slices.items) }
    requires can { SawInTurn CanMerge after_merge (map state_of given.items)
        (flat_map from_the_last slices.items) }
    ensures { map state_of result
        ≡ map at_start (fold after_merge (map state_of given.items)
        (flat_map from_the_last slices.items)) }
{
    let mut shards = Shards::from_vec(given);
    merge_all(&mut shards, slices, memory);
    shards.reset_clocks();
    shards
}

impl<N: PhaseName, K: Kind> Floor<N, K> {
    /// Closes the phase, by one receipt of each worker, in order: the state after it, into which
    /// all slices are merged, and of each stash what was not performed. The phase's journals go to
    /// the history: their entries, by number and then worker, are at its end. All memory is asked
    /// for first; if it is refused, the history is as it was, and the run is over.
    pub fn close<R: Wait>(
        self,
        rt: &R,
        alloc: Global,
        history: &mut History,
        receipts: Vec<Receipt<N, K>>,
    ) -> Result<(Joined, Vec<Stash>), FloorFault>
        requires { AreReceiptsOf self receipts.items }
        ensures history { history.new.entries
            ≡ history.old.entries ++ added history.old.entries history.new.entries }
        ensures refused { OnErr result (history.new.entries ≡ history.old.entries) }
        ensures last { OnOk result
            (merged history.new.last ≡ added history.old.entries history.new.entries) }
        ensures closed { IfOk result (λ closed.
            HasReconciled N.initial self receipts.items (states_of closed.0)
            (added history.old.entries history.new.entries)) }
        ensures joined { IfOk result (λ closed. K.IS_JOINED ≡ true →
            HasSettled N.initial self receipts.items (states_of closed.0)
            (added history.old.entries history.new.entries)) }
        ensures leaves { IfOk result (λ closed.
            Leaves N.initial self receipts.items (added history.old.entries history.new.entries)
            closed.0 closed.1.items) }
    {
        self.close_on(rt, alloc, history, receipts, None)
    }

    /// As `close`. If each entry's request is the one of its worker's script at its index, the
    /// scripts may be given: then the history reads the requests there, and keeps no copy of them.
    pub fn close_on<R: Wait>(
        self,
        rt: &R,
        alloc: Global,
        history: &mut History,
        receipts: Vec<Receipt<N, K>>,
        scripts: Option<&SharedScripts>,
    ) -> Result<(Joined, Vec<Stash>), FloorFault>
        requires receipts { AreReceiptsOf self receipts.items }
        requires asked { ForSome scripts (λ scripts. AreOfScripts scripts.now receipts.items) }
        ensures history { history.new.entries
            ≡ history.old.entries ++ added history.old.entries history.new.entries }
        ensures refused { OnErr result (history.new.entries ≡ history.old.entries) }
        ensures last { OnOk result
            (merged history.new.last ≡ added history.old.entries history.new.entries) }
        ensures closed { IfOk result (λ closed.
            HasReconciled N.initial self receipts.items (states_of closed.0)
            (added history.old.entries history.new.entries)) }
        ensures joined { IfOk result (λ closed. K.IS_JOINED ≡ true →
            HasSettled N.initial self receipts.items (states_of closed.0)
            (added history.old.entries history.new.entries)) }
        ensures leaves { IfOk result (λ closed.
            Leaves N.initial self receipts.items (added history.old.entries history.new.entries)
            closed.0 closed.1.items) }
    {
        let Floor {
            opening,
            limit,
            phase,
            counters,
            boxes,
            mut memory,
            ..
        } = self;
        let Parts {
            journals,
            stashes,
            keys,
            counters,
            slices,
        } = Parts::of(alloc, receipts, counters)?;
        memory.spent.reserve(slices.len())?;
        history.add_phase_on(journals, scripts, &mut memory.lists)?;
        let (given, spare) = boxes.close_kept(rt, keys);
        let shards = reconciled(given, slices, &mut memory);
        let state = Joined {
            opening,
            limit,
            phase: phase + 1,
            shards,
            spare,
            memory,
            counters,
        };
        Ok((state, stashes))
    }
}
