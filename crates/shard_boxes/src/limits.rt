//! Limits of every phase, within which sums fit their types. An auction may have lower ones.
ghost use Rattle.std.specs.Prelude.{◌<◌, ◌∷◌, []};
ghost use Rattle.phase_laws.specs.Replay.{SawInTurn};
ghost use Rattle.item_shards.specs.{CommitNumbers.{last_number}, Contents.{after_act}};
ghost use Rattle.item_shards.specs.Events.{Event};
ghost use Rattle.shard_boxes.specs.{Limits.{SumsFit}, States.{ShardState, IsWithin}};

/// How many requests a worker may commit, at most: its counters have 32 bits.
pub const MOST_COMMITS: u64 = 1 << 31;

/// How many rows an auction of 16 workers has, at most.
pub const MOST_KEPT: u64 = 16 * MOST_COMMITS;

/// While a shard's clock is below the last number, the sums that two acts make on it fit their
/// types.
pub fn sums_fit()
    ensures { (state : ShardState) (first second : Event) →
        IsWithin state → state.clock < last_number →
        SawInTurn SumsFit after_act state.contents (first ∷ second ∷ []) }
{}
