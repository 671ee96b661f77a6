//! The limits of an auction and of a run, each at one name, and how a run is divided within them.
ghost use Rattle.std.specs.Prelude.{◌≡◌, ◌<◌, ◌≤◌, ◌*◌};

/// Workers of a run, and of a book.
pub const MOST_WORKERS: usize = 16;

/// Shards in which the records of a run lie.
pub const MOST_SHARDS: usize = 64;

/// Objects that may be hot at a time.
pub const MOST_HOT: usize = 64;

/// Rows of a worker in the opening book and requests of its script, together.
pub const MOST_OF_A_WORKER: u64 = 1_000_000;

/// Rows of a book.
pub const MOST_ROWS: usize = 16_000_000;

/// Requests that a permit tries in a phase.
pub const MOST_TRIES: u32 = 1_000_000_000;

/// Bids or items that a view shows.
pub const MOST_SHOWN: usize = 10;

/// Of an item that are put up or bought.
pub const MOST_QUANTITY: u32 = 1_000_000;

/// How a run is divided into shards and phases, and which objects its split phases split.
#[derive(Clone, Copy, PartialEq, Eq, Debug)]
pub struct Policy {
    /// The number of shards, 1 to 64.
    pub shards: u32,
    /// How many requests of its script each worker is given in a joined phase, at least 1.
    pub joined_quota: u32,
    /// How many it is given in a split phase, at least 1.
    pub split_quota: u32,
    /// How many accepted splittable stores of a phase have to write an object for it to be hot in
    /// the next one, at least 1.
    pub threshold: u32,
    /// How many objects are hot at most, 0 to 64.
    pub hot_max: u32,
}

impl Policy {
    /// The policy for throughput of 1 to 16 workers: four shards for each, and long split phases.
    /// No run refuses it.
    pub fn for_throughput(workers: u32) -> Policy
        ensures shards { 0 < workers → workers ≤ MOST_WORKERS → result.shards ≡ 4 * workers }
        ensures some_shards { 0 < result.shards }
        ensures few_shards { result.shards ≤ MOST_SHARDS }
        ensures quotas { (result.joined_quota ≡ 64) × (result.split_quota ≡ 4096) }
        ensures hot { (result.threshold ≡ 8) × (result.hot_max ≡ 8) }
    {
        Policy {
            shards: 4 * workers.clamp(1, MOST_WORKERS as u32),
            joined_quota: 64,
            split_quota: 4_096,
            threshold: 8,
            hot_max: 8,
        }
    }
}
