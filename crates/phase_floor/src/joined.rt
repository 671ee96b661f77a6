//! The state between two phases, what it shows, and how it is made ready for another run.
ghost use Rattle.std.specs.List.{AllByRecursion};
ghost use Rattle.std.specs.Prelude.{◌≡◌, [], is_some, IfSome, ℕ, ◌<◌, ◌≤◌, length, map};
ghost use Rattle.closing_laws.specs.Standing.{counters_at, stores};
ghost use Rattle.phase_floor.specs.NextRun.{stores_as_commits};

use crate::memory::Memory;
use auction_rows::{MOST_WORKERS, Object, Opening, Reply, Request};
use auction_shards::Shards;
use item_shards::Shard;
use phase_permits::Counters;
use shard_boxes::{MOST_COMMITS, Spare};
use std::marker::Model;

/// An auction between two phases: its 1 to 64 shards, what each of 1 to 16 workers has committed,
/// and how many requests it may commit.
#[derive(Drop)]
pub struct Joined {
    pub(crate) opening: Opening,
    pub(crate) limit: u64,
    pub(crate) phase: u64,
    pub(crate) shards: Shards,
    pub(crate) spare: Spare,
    pub(crate) memory: Memory,
    pub(crate) counters: Vec<Counters>,
}

impl Model for Joined {
    ghost use Rattle.std.specs.{Coded.{codes}, Prelude.{map}};
    ghost use Rattle.item_shards.specs.contracts.shard.Shard as shard;
    ghost use Rattle.shard_boxes.specs.States.{state_of};
    ghost use Rattle.phase_floor.specs.States.{JoinedState, joined_of, IsKept};

    ghost Value = { JoinedState };

    ghost coded = { Prim.hlevel (codes, shard.the_row.coded) };

    ghost view = { λ j. joined_of j.opening j.limit j.phase j.shards j.counters.items };

    ghost invariant = { λ j.
        IsKept j.opening j.limit (map state_of j.shards) j.counters.items };
}

impl Joined {
    /// The number of the next phase.
    pub fn phase(&self) -> u64
        ensures { result ≡ self.now.phase }
    {
        self.phase
    }
}

impl Joined {
    ghost use Rattle.auction_rows.specs.{Book.{Book}, Replies.{reply}, Requests.{is_view}};
    ghost use Rattle.item_shards.specs.ShardContents.{LiesIn, opening, contents, ShardStandsFor};
    ghost use Rattle.closing_laws.specs.Phases.{value_on};
    ghost use Rattle.phase_floor.specs.States.{states_of, StandsFor};

    /// The reply to a view: None exactly where the request is none. It takes no memory.
    pub fn view(&self, request: &Request) -> Option<Reply>
        ensures none { is_some result ≡ is_view request.now }
        ensures book { IfSome result (λ seen. (book : Book) (worker : ℕ) → StandsFor self.now book →
            seen ≡ reply self.now.opening book worker request.now) }
    {
        self.shards.view(request)
    }

    // The shard in which an object lies.
    pub(crate) fn shard(&self, object: Object) -> &Shard
        ensures here { LiesIn result.now object }
        ensures opening { opening result.now ≡ self.now.opening }
        ensures value { contents result.now object ≡ value_on (states_of self.now) object }
        ensures books { (book : Book) →
            StandsFor self.now book → ShardStandsFor result.now book [] }
    {
        self.shards.of(object)
    }
}

impl Joined {
    ghost use Rattle.auction_rows.specs.Book.{Book};
    ghost use Rattle.phase_floor.specs.NextRun.{for_next_run, lasting};
    ghost use Rattle.phase_floor.specs.States.{StandsFor, HasNoBook, IsBookOf};

    /// How many shards there are.
    pub fn shards(&self) -> u32
        ensures { result ≡ length self.now.shards }
    {
        self.shards.count()
    }

    /// How many workers there are.
    pub fn workers(&self) -> u32
        ensures count { result ≡ length self.now.counters }
        ensures few { result ≤ MOST_WORKERS }
    {
        self.counters.len() as u32
    }

    /// How many requests each worker may commit: 1,000,000, or `MOST_COMMITS` if the auction lasts.
    pub fn limit(&self) -> u64
        ensures limit { result ≡ self.now.limit }
        ensures most { result ≤ MOST_COMMITS }
    {
        self.limit
    }

    /// How many rows a worker has stored: no more than its commits, which are at most
    /// `MOST_COMMITS`.
    pub fn stored_by(&self, worker: usize) -> u32
        requires { worker < length self.now.counters }
        ensures stored { result ≡ stores (counters_at self.now.counters worker) }
        ensures commits { result ≤ (counters_at self.now.counters worker).commits }
        ensures most { (counters_at self.now.counters worker).commits ≤ MOST_COMMITS }
    {
        stores(&self.counters[worker])
    }

    /// The same auction before the first phase of another run: its next phase has number 0, and
    /// each worker's commits are its rows, as after a resume. It stands for the same books.
    pub fn for_next_run(self) -> Joined
        ensures next { result ≡ for_next_run self }
        ensures stands { (book : Book) → StandsFor self book → StandsFor result book }
        ensures of_a_book { ¬ HasNoBook self }
    {
        let Joined {
            opening,
            limit,
            phase: _,
            shards,
            spare,
            memory,
            mut counters,
        } = self;
        set_commits(&mut counters);
        Joined {
            opening,
            limit,
            phase: 0,
            shards,
            spare,
            memory,
            counters,
        }
    }

    /// The same auction, which lasts: each worker may commit `MOST_COMMITS` requests, in place of
    /// 1,000,000. It stands for the same books.
    pub fn lasting(self) -> Joined
        ensures lasts { result ≡ lasting self }
        ensures books { (book : Book) → IsBookOf self book → IsBookOf result book }
    {
        Joined {
            limit: MOST_COMMITS,
            ..self
        }
    }
}

// How many stores of all kinds were accepted.
fn stores(counters: &Counters) -> u32
    requires { stores counters.now ≤ MOST_COMMITS }
    ensures { result ≡ stores counters.now }
{
    counters.items + counters.bids + counters.comments + counters.buys
}

// Counts the accepted stores of each worker as its commits, and nothing else.
fn set_commits(counters: &mut Vec<Counters>)
    requires { AllByRecursion (λ c. stores c ≤ MOST_COMMITS) counters.old.items }
    ensures { counters.new.items ≡ map stores_as_commits counters.old.items }
{
    for worker in 0..counters.len() {
        let commits = stores(&counters[worker]);
        counters[worker].commits = commits;
    }
}
