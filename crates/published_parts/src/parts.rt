//! A list of parts, its length, and its prefixes. The parts in the list stand in proofs alone; at
//! run time there is one word, its length, and each part is added by an exchange of that word.
ghost use mathlib.Core.List.{IsPrefix};
ghost use Rattle.std.specs.Prelude.{◌≡◌, [], ◌+◌, ◌==◌, ◌<◌, ◌++◌, ◌∷◌, ◌⊎◌, length, MatchBool};
ghost use Rattle.published_parts.specs.Parts.{AreComparable};

use logbook::{Gain, Offer, Plain, Play, Rule, Seen, Start, Word};
use std::marker::{Model, PhantomData};

/// Names a list of parts, so that a prefix is of the list that its type names.
pub trait ListName {
    ghost use Rattle.logbook.specs.Pages.{Book};

    /// The list.
    ghost log: { Book };
}

// What a part has. A clause reads an array as a list of any length, and no value of this type is
// made.
type Part<X> = [X; 0];

// The rule of the list.
pub(crate) struct PartRule;

impl<E> Rule<E, u64> for PartRule {
    ghost use Rattle.std.specs.Prelude.{[]};
    ghost use base.Fml.{ftrue};
    ghost use Rattle.published_parts.specs.inner.PartRule.{IsKept};

    ghost holds = { λ cells log. IsKept cells log };

    ghost first = { [] };

    ghost hinted = { λ n log. Unit {0} };

    ghost shows = { λ log. [] };

    ghost keeps = { λ names log. ftrue };

    ghost moves = { λ ask before after answer. Unit {0} };
}

// A step gains its caller nothing but what it knows.
pub(crate) struct NoGain;

impl<E> Gain<E, u64> for NoGain {
    ghost use base.Fml.{ftrue};

    ghost after = { λ names about answer. ftrue };
}

// The step that adds a part.
pub(crate) struct Add;

impl<E> Play<E, u64> for Add {
    ghost use Rattle.published_parts.specs.inner.PartRule.{Adds};

    ghost then = { Adds };
}

// What the step that adds a part asks for: what the part has.
impl<X> Plain<Vec<X>, [X; 0], u64> for Add {
    ghost use Rattle.std.specs.Prelude.{None};

    ghost ask = { λ part. part.items };

    ghost state = { λ part. None };
}

/// A list of parts that has no name yet. It is empty. Contracts see which list it is.
#[derive(Drop)]
pub struct PartList<X> {
    head: Word<Part<X>, u64, PartRule>,
    seen: Seen<Part<X>, u64, PartRule>,
}

impl<X> Model for PartList<X> {
    ghost use Rattle.std.specs.Prelude.{◌≡◌, []};
    ghost use Rattle.logbook.specs.Pages.{Book, book_coded};

    ghost Value = { Book };

    ghost coded = { book_coded };

    ghost use Rattle.published_parts.specs.inner.PartRule.{head_of};

    ghost view = { λ l. l.seen.book };

    ghost invariant = { λ l. (l.seen.log ≡ []) × (l.head ≡ head_of l.seen.book) };
}

impl<X> PartList<X> {
    /// A new list. It takes no memory.
    pub fn new() -> PartList<X> {
        let (seen, mut first, _second) = Seen::open(Start::alone(), 0, 0);
        PartList {
            head: Word::tracked(0, &mut first),
            seen,
        }
    }

    /// The list's length under a name, and its empty prefix.
    pub fn named<L: ListName>(self) -> (PartCount<X, L>, Prefix<X, L>)
        requires { self ≡ L.log }
        ensures { result.1 ≡ [] }
    {
        let PartList { head, seen } = self;
        let count = PartCount {
            head,
            name: PhantomData,
        };
        (count, Prefix::empty(seen))
    }
}

/// The length of a list. There is one of each list, and only by it are parts added. Contracts see
/// which list it is.
#[derive(Drop)]
pub struct PartCount<X, L: ListName> {
    head: Word<Part<X>, u64, PartRule>,
    name: PhantomData<L>,
}

impl<X, L: ListName> Model for PartCount<X, L> {
    ghost use Rattle.std.specs.Prelude.{◌≡◌};
    ghost use Rattle.logbook.specs.Pages.{Book, book_coded};

    ghost Value = { Book };

    ghost coded = { book_coded };

    ghost use Rattle.published_parts.specs.inner.PartRule.{head_of};

    ghost view = { λ c. c.head.book };

    ghost invariant = { λ c. c.head ≡ head_of L.log };
}

/// A prefix of a list of parts: how many they are, and, only for proofs, which. Contracts see it as
/// its parts.
#[derive(Drop)]
pub struct Prefix<X, L: ListName> {
    count: u64,
    seen: Seen<Part<X>, u64, PartRule>,
    name: PhantomData<L>,
}

impl<X, L: ListName> Model for Prefix<X, L> {
    ghost use Rattle.std.specs.Prelude.{◌≡◌, List, length};

    ghost Value = { List (List X) };

    ghost view = { λ p. p.seen.log };

    ghost invariant = { λ p. (p.count ≡ length p.seen.log) × (p.seen.book ≡ L.log) };
}

impl<X, L: ListName> Prefix<X, L> {
    // The prefix without a part.
    fn empty(seen: Seen<Part<X>, u64, PartRule>) -> Prefix<X, L>
        requires empty { seen.log ≡ [] }
        requires name { seen.book ≡ L.log }
        ensures { result ≡ [] }
    {
        Prefix {
            count: 0,
            seen,
            name: PhantomData,
        }
    }

    /// How many parts it has.
    #[inline(always)]
    pub fn len(&self) -> u64
        ensures { result ≡ length self.now }
    {
        self.count
    }

    /// A copy.
    #[inline(always)]
    pub fn again(&self) -> Prefix<X, L>
        ensures { result ≡ self.now }
    {
        Prefix {
            count: self.count,
            seen: self.seen.again(),
            name: PhantomData,
        }
    }

    /// The longer of two, which begins with the other.
    #[inline(always)]
    pub fn longer(&self, other: &Prefix<X, L>) -> Prefix<X, L>
        ensures one { (result ≡ self.now) ⊎ (result ≡ other.now) }
        ensures this { IsPrefix self.now result }
        ensures that { IsPrefix other.now result }
    {
        let mut both = self.seen.again();
        both.learn(&other.seen);
        if self.count < other.count {
            other.again()
        } else {
            self.again()
        }
    }

    /// Of two one begins with the other. It does nothing else than to say so.
    #[inline(always)]
    pub fn agrees(&self, other: &Prefix<X, L>)
        ensures { AreComparable self.now other.now }
    {
        self.longer(other);
    }

    /// Adds a part to the list, if this is all of it, and says whether it did. Else it becomes all
    /// of the list. It takes no memory.
    pub fn add(&mut self, count: &PartCount<X, L>, part: &Vec<X>) -> bool
        requires { length self.old < u64.MAX }
        ensures { MatchBool result
            (self.new ≡ self.old ++ part.now.items ∷ [])
            (IsPrefix self.old self.new) }
    {
        let mut offer: Offer<Part<X>, u64, PartRule, NoGain> = self
            .seen
            .plain::<NoGain, Vec<X>, Add>(part);
        let mut pen = self.seen.no_pen();
        let known = self.count;
        let found = count
            .head
            .compare_exchange::<Add, NoGain>(
                known,
                known + 1,
                &mut self.seen,
                &mut offer,
                &mut pen,
            );
        self.count = if found == known { known + 1 } else { found };
        found == known
    }
}
