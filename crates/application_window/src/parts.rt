//! The name of a publisher and its windows, the list of the parts that it was handed, and the
//! prefixes of that list.
ghost use Rattle.std.specs.Prelude.{◌≡◌, []};

use published_parts::{ListName, PartList};
use split_engine::{Application, Entry};
use std::marker::{Brand, Model, PhantomData};

/// Names the list of parts that a publisher and its windows share, and the table before the first
/// of them, so that a window learns only from its own publisher. Who makes a publisher is generic
/// in the name, and is called with `Brand`.
pub trait WindowName<T> {
    ghost use Rattle.std.specs.Prelude.{List};
    ghost use Rattle.logbook.specs.Pages as pages;

    /// The list of parts.
    ghost log: { pages.Book };

    /// The table before the first part.
    ghost opened: { List T };
}

impl<T> WindowName<T> for Brand {
    ghost use Rattle.std.specs.Prelude.{[]};

    ghost log = { record { number = 0; log_name = 0; cells_name = 0 } };

    ghost opened = { [] };
}

// A commit.
pub(crate) type CommitOf<A> = Entry<<A as Application>::Request, <A as Application>::Reply>;

// The commits of a part. A clause reads an array as a list of any length, and no value of this type
// is made.
pub(crate) type Part<A> = [CommitOf<A>; 0];

// The list that a publisher's name names.
pub(crate) struct ListOf<T, J> {
    name: PhantomData<(T, J)>,
}

impl<T, J: WindowName<T>> ListName for ListOf<T, J> {
    ghost log = { J.log };
}

// The length of the list. Its publisher alone has it, so that nobody else adds a part.
pub(crate) type PartCount<A, J> = published_parts::PartCount<
    CommitOf<A>,
    ListOf<<A as Application>::Record, J>,
>;

// A prefix of the list. Contracts see it as its parts.
pub(crate) type Prefix<A, J> = published_parts::Prefix<
    CommitOf<A>,
    ListOf<<A as Application>::Record, J>,
>;

/// The list of parts of a publisher that is yet to be made. It is empty. Contracts see which list
/// it is.
#[derive(Drop)]
pub struct PartLog<A: Application> {
    parts: PartList<Entry<A::Request, A::Reply>>,
}

impl<A: Application> Model for PartLog<A> {
    ghost use Rattle.logbook.specs.Pages.{Book, book_coded};

    ghost Value = { Book };

    ghost coded = { book_coded };

    ghost view = { λ l. l.parts };
}

impl<A: Application> PartLog<A> {
    /// A new list. It takes no memory.
    pub fn new() -> PartLog<A> {
        PartLog {
            parts: PartList::new(),
        }
    }

    // The list's length under a name, and its empty prefix.
    pub(crate) fn named<J: WindowName<A::Record>>(self) -> (PartCount<A, J>, Prefix<A, J>)
        requires { self ≡ J.log }
        ensures { result.1 ≡ [] }
    {
        let PartLog { parts } = self;
        parts.named::<ListOf<A::Record, J>>()
    }
}
