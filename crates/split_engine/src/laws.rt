//! Why split phases replay, for every application.
ghost use Rattle.std.specs.{List.{AllByRecursion}, Prelude.{◌≡◌, ◌++◌, ℕ, List}};
ghost use Rattle.split_engine.specs.Serial.{ReplaysFrom, table_after};
ghost use Rattle.split_engine.specs.Splitting.{InterleavesAll, IsSplitEntry, all_merged};
ghost use Rattle.split_engine.specs.declared.entry.Entry.{Entry as Commit};

use crate::application::Application;

/// However workers' commits of a split phase are interleaved, they replay on one thread, and the
/// table after them is the one into which all workers' slices are merged.
pub fn split_phases_replay<A: Application>()
    ensures replays { (table : List A.Record) (all : List (Commit A.Request A.Reply)) →
        AllByRecursion (IsSplitEntry A.rules A.is_small table) all →
        ReplaysFrom A.rules table all }
    ensures merged { (n : ℕ) (table : List A.Record)
        (journals : List (List (Commit A.Request A.Reply)))
        (all : List (Commit A.Request A.Reply)) → AllByRecursion (A.fits n) table →
        InterleavesAll journals all → AllByRecursion (IsSplitEntry A.rules A.is_small table) all →
        all_merged A.rules table table journals ≡ table_after A.rules table all }
{}

/// If a run goes on from the table that another has left, both replay as one, and the table that
/// the second leaves is the one after both histories.
pub fn runs_replay_as_one<A: Application>()
    ensures { (table between : List A.Record)
        (first second : List (Commit A.Request A.Reply)) →
        ReplaysFrom A.rules table first → between ≡ table_after A.rules table first →
        ReplaysFrom A.rules between second →
        ReplaysFrom A.rules table (first ++ second)
        × (table_after A.rules between second ≡ table_after A.rules table (first ++ second)) }
{}
