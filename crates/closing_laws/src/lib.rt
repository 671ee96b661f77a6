//! Why a phase that has closed replays: what permits, boxes and journals tell, each of its own
//! part, comes to one history of the auction of one thread. The functions compute nothing: each
//! carries laws in its contract.
#![tactic(auto)]

mod commits;

ghost use Rattle.std.specs.List.{Sorted.{IsPermutation}, AllByRecursion, flat_map};
ghost use Rattle.std.specs.Prelude.{◌≡◌, ◌+◌, ◌<◌, ◌≤◌, ℕ, [], length, List, map, reverse};
ghost use Rattle.phase_laws.specs.Replay.{SawInTurn};
ghost use Rattle.closing_laws.specs.Example.{example_book, example_phase};
ghost use Rattle.closing_laws.specs.Histories.{HoldTheEntries, FollowWhatTheyShare, ReplaysAndStands, book_left};
ghost use Rattle.closing_laws.specs.Lawful.{AreHotMerged, AreSliced, ClosesLawfully};
ghost use Rattle.closing_laws.specs.Merging.{IsReconciled, CanMerge, after_merge, slices_left};
ghost use Rattle.closing_laws.specs.Phases.{Phase, HasClosed, receipt_at, counters_of, journal_of};
ghost use Rattle.closing_laws.specs.Standing.{StandFor, AreOfWorkers, counters_at, stores};
ghost use Rattle.auction_rows.specs.{Book.{Book}, History.{IsBook}};
ghost use Rattle.auction_rows.specs.declared.requests.{Facts.{Facts}, Object.{Object}, Request.{Request}};
ghost use Rattle.item_shards.specs.CommitNumbers.{last_number};
ghost use Rattle.item_shards.specs.declared.shard.slices.Slice.{Slice};
ghost use Rattle.shard_boxes.specs.States.{ShardState, AreInitial};
ghost use Rattle.phase_transactions.specs.Performing.{greatest_seen};
ghost use Rattle.phase_transactions.specs.{Txns.{hot_of}, Workers.{WorkerState}};
ghost use Rattle.worker_slices.specs.Slicing.{HaveAtMost, slices_in};

use auction_rows::MOST_WORKERS;
pub use commits::{
    commits_keep_work, commits_stay_explained, empty_footprints_leave_keys, one_shard_put,
    replies_are_right, slices_of_rows,
};
use shard_boxes::MOST_COMMITS;

/// Each shard's list holds the lines of the entries whose footprint has the shard, in the entries'
/// order, and nothing else.
pub fn lists_hold_the_entries()
    ensures { (p : Phase) (closed : HasClosed p) → HoldTheEntries p closed }
{}

/// Each entry's number is 1 + the greatest of the entries before it that are of its worker or share
/// a shard with it, and 1 if there is none.
pub fn numbers_follow_what_entries_share()
    ensures { (p : Phase) → HasClosed p →
        FollowWhatTheyShare p.setting.opening p.setting.shards (hot_of p.setting) p.entries }
{}

/// In a phase that has closed no request meets the end of commit numbers: the greatest clock that a
/// worker has seen for any request is at most the number of entries, and these are at most
/// `MOST_COMMITS` for each of 16 workers.
pub fn numbers_suffice()
    ensures few { (p : Phase) → HasClosed p → AreInitial p.initial →
        (w : ℕ) → w < length p.receipts → (request : Request) →
        let receipt = receipt_at p.receipts w in
        greatest_seen p.initial receipt receipt.key request ≤ length p.entries }
    ensures suffice { (p : Phase) → HasClosed p → AreInitial p.initial →
        length p.receipts ≤ MOST_WORKERS →
        ((w : ℕ) → w < length p.receipts →
        length (journal_of (receipt_at p.receipts w)).entries ≤ MOST_COMMITS) →
        (w : ℕ) → w < length p.receipts → (request : Request) →
        let receipt = receipt_at p.receipts w in
        greatest_seen p.initial receipt receipt.key request < last_number }
{}

/// From every book for which the shards and the counters stood as the phase began, the entries
/// replay, and the shards that the boxes gave back stand for the book after them, but for hot
/// objects, as do the counters.
pub fn entries_replay()
    ensures { (p : Phase) → HasClosed p → (book : Book) → StandFor p.initial p.counters book [] →
        ReplaysAndStands p book }
{}

/// A book of the opening leaves one. Its rows are of the phase's workers, if those of the book are.
pub fn books_go_on()
    ensures books { (p : Phase) → HasClosed p →
        (book : Book) → StandFor p.initial p.counters book [] →
        IsBook p.setting.opening book → IsBook p.setting.opening (book_left p book) }
    ensures workers { (p : Phase) → HasClosed p →
        (book : Book) → StandFor p.initial p.counters book [] →
        AreOfWorkers (length p.counters) book →
        AreOfWorkers (length p.receipts) (book_left p book) }
{}

/// A worker's commits grow by the entries of its journal. Its stores are no more than its commits
/// after the phase, if they were no more before.
pub fn commits_grow()
    ensures commits { (p : Phase) → HasClosed p → (w : ℕ) → w < length p.receipts →
        let receipt = receipt_at p.receipts w in
        (counters_of receipt).commits
        ≡ (counters_at p.counters w).commits + length (journal_of receipt).entries }
    ensures stores { (p : Phase) → HasClosed p → (w : ℕ) → w < length p.receipts →
        let after = counters_of (receipt_at p.receipts w) in
        stores (counters_at p.counters w) ≤ (counters_at p.counters w).commits →
        stores after ≤ after.commits }
{}

/// After all slices of all workers are merged, in any order, into the shards that the boxes gave
/// back, shards and counters stand for the book after the entries, hot objects included. If nothing
/// was hot, they do so without a merge.
pub fn reconciled_shards_stand()
    ensures split { (p : Phase) → HasClosed p →
        (closing : List ShardState) → IsReconciled p closing →
        (book : Book) → StandFor p.initial p.counters book [] →
        StandFor closing (map counters_of p.receipts) (book_left p book) [] }
    ensures joined { (p : Phase) → HasClosed p → hot_of p.setting ≡ [] →
        (book : Book) → StandFor p.initial p.counters book [] →
        StandFor p.given (map counters_of p.receipts) (book_left p book) [] }
{}

/// After all slices of all workers are merged, in any order, each hot object has what it had as the
/// phase began, with one slice of each worker merged, and each worker's slice has the value that
/// its journal's accepted stores give the object.
pub fn hot_objects_are_merged()
    ensures merged { (p : Phase) → HasClosed p →
        (closing : List ShardState) → IsReconciled p closing →
        AreHotMerged p closing }
    ensures slices { (p : Phase) → HasClosed p → AreSliced p }
{}

/// A phase closes lawfully, if all slices are merged. If nothing was hot, it does so with the
/// shards as they were given back.
pub fn phases_close_lawfully()
    ensures split { (p : Phase) → HasClosed p →
        (closing : List ShardState) → IsReconciled p closing →
        ClosesLawfully p closing }
    ensures joined { (p : Phase) → HasClosed p → hot_of p.setting ≡ [] → ClosesLawfully p p.given }
{}

/// In whatever order the slices are merged into the shards that the boxes gave back, each can be
/// merged in its turn: its object is of its kind, an item is stored, and the sums fit. There are at
/// most 16 workers, and each slice has at most `MOST_COMMITS` operations.
pub fn slices_can_be_merged()
    ensures { (p : Phase) → HasClosed p → AreInitial p.initial → length p.receipts ≤ MOST_WORKERS →
        AllByRecursion (λ receipt. HaveAtMost MOST_COMMITS receipt.slices) p.receipts →
        (order : List (Object × Slice)) → IsPermutation (slices_left p.receipts) order →
        SawInTurn CanMerge after_merge p.given order }
{}

/// If the workers' slices are taken out one worker after the other, each from the last on, all are
/// taken once.
pub fn slices_may_be_popped()
    ensures { (receipts : List WorkerState) → IsPermutation (slices_left receipts)
        (flat_map (λ receipt. reverse (slices_in receipt.slices)) receipts) }
{}

/// What the laws ask of a phase can be met: a phase with a hot user and a comment over one shard
/// has closed, and there is a book for which it began.
pub fn a_phase_closes()
    ensures closed { (facts : Facts) → HasClosed (example_phase facts) }
    ensures stood { (facts : Facts) →
        let p = example_phase facts in StandFor p.initial p.counters (example_book facts) [] }
{}
