//! What a user of the engine gives.
ghost use Rattle.std.specs.{List.{AllByRecursion}, Prelude.{◌≡◌, ℕ, ◌+◌, ◌<◌, ◌≤◌, true, length}};
ghost use Rattle.split_engine.specs.Rules.{most_acts, looks_in};

use crate::entry::Decision;
use crate::few::Few;

/// Records, and requests that name at most `MOST_KEYS` of them.
///
/// A request looks at its records and decides its reply and one act on each; then the acts are
/// done. So it reads and writes no other record, by its form. One that names no record is answered
/// by itself. The laws speak of one record, one slice and two acts.
///
/// An impl has five types beside the record; the model (`rules`), which says in definitions what
/// the functions do; three facts on what fits; and the laws. `example_bank` and `example_likes` are
/// whole ones.
pub trait Application {
    ghost use Rattle.split_engine.specs.Rules.{Rules, SplitLaws};

    /// What is kept at a key.
    type Record: Drop;

    /// What a worker keeps of a record while the record is split.
    type Slice: Drop;

    /// What a request sees of a record.
    type Look: Copy;

    /// What is asked.
    type Request: Copy;

    /// What is answered.
    type Reply: Copy;

    /// What is done to a record.
    type Act: Copy;

    /// The model.
    ghost rules: { Rules Self.Record Self.Slice Self.Look Self.Request Self.Reply Self.Act };

    /// Holds of a record that at most so many acts can make: one act more does not overflow it, if
    /// they are fewer than 2^32.
    ghost fits: { ℕ → Self.Record → Type 0 };

    /// The same of a slice.
    ghost slice_fits: { ℕ → Self.Slice → Type 0 };

    /// Holds of each act that a request decides.
    ghost is_small: { Self.Act → Type 0 };

    /// The keys of the records that a request names: one may stand there twice.
    fn keys(request: &Self::Request) -> Few<u32>
        ensures { result ≡ rules.keys request.now };

    /// What a request sees of a record.
    fn look(held: &Self::Record) -> Self::Look
        ensures { result ≡ rules.look held.now };

    /// What a request is answered and does, by what it sees at each of its keys.
    fn decide(request: &Self::Request, looks: &Few<Self::Look>) -> Decision<Self::Reply, Self::Act>
        requires { length looks.now ≡ length (rules.keys request.now) }
        ensures value { result ≡ rules.decide request.now (looks_in rules looks.now) }
        ensures small { AllByRecursion is_small result.acts };

    /// Whether a request can be performed on slices of its records. If not, a split phase puts it
    /// off to the next joined one.
    fn splits(request: &Self::Request) -> bool
        ensures { result ≡ rules.splits request.now };

    /// Does an act on a record.
    fn apply(held: &mut Self::Record, act: Self::Act)
        requires fits { (n : ℕ) × (n < most_acts) × fits n held.old }
        requires small { is_small act }
        ensures { held.new ≡ rules.applied held.old act };

    /// A slice to which nothing was done.
    fn empty_slice() -> Self::Slice
        ensures { result ≡ rules.empty };

    /// Does an act on a slice.
    fn apply_to_slice(slice: &mut Self::Slice, act: Self::Act)
        requires fits { (n : ℕ) × (n < most_acts) × slice_fits n slice.old }
        requires small { is_small act }
        requires splits { rules.is_splittable act ≡ true }
        ensures { slice.new ≡ rules.sliced slice.old act };

    /// Merges a slice into a record.
    fn merge(held: &mut Self::Record, slice: Self::Slice)
        requires fits { (n : ℕ) × (m : ℕ) × (n + m ≤ most_acts)
            × fits n held.old × slice_fits m slice }
        ensures { held.new ≡ rules.merged held.old slice };

    /// Why acts may be done on slices.
    ghost laws: { SplitLaws rules fits slice_fits is_small };
}

/// An application that may be run on threads: what it is made of may go from one to another. Each
/// one of which this is true has it, without an impl of its own.
pub trait Threaded: Application<
    Record: Send + Sync,
    Slice: Send,
    Look: Send,
    Request: Send + Sync,
    Reply: Send,
    Act: Send,
>
    + Send
    + Sync {}

impl<A> Threaded for A
where
    A: Application<
        Record: Send + Sync,
        Slice: Send,
        Look: Send,
        Request: Send + Sync,
        Reply: Send,
        Act: Send,
    >
        + Send
        + Sync,
{}
