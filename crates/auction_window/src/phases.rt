//! The name of a publisher and its windows; and the list of the phases that it was handed, with the
//! prefixes of that list.
use auction_rows::Row;
use published_parts::{ListName, PartCount, PartList};
use std::marker::{Brand, PhantomData};

/// Names the list of phases that a publisher and its windows share, and the book before the first
/// of them, so that a window learns only from its own publisher. Who makes a publisher is generic
/// in the name, and is called with `Brand`.
pub trait WindowName {
    ghost use Rattle.auction_rows.specs.{Book.{Book}, declared.values.Opening.{Opening}};
    ghost use Rattle.logbook.specs.Pages as pages;

    /// The list of phases.
    ghost log: { pages.Book };

    /// How many users and categories there are.
    ghost opening: { Opening };

    /// The rows before the first phase.
    ghost rows: { Book };
}

impl WindowName for Brand {
    ghost use Rattle.std.specs.Prelude.{[]};

    ghost log = { record { number = 0; log_name = 0; cells_name = 0 } };

    ghost opening = { record { users = 0; categories = 0 } };

    ghost rows = { [] };
}

// The list that a publisher's name names.
pub(crate) struct ListOf<J> {
    name: PhantomData<J>,
}

impl<J: WindowName> ListName for ListOf<J> {
    ghost log = { J.log };
}

/// The list of phases of a publisher that is yet to be made. It is empty. Contracts see which list
/// it is.
pub type PhaseLog = PartList<Row>;

// The length of the list. Its publisher alone has it, so that nobody else adds a phase.
pub(crate) type PhaseCount<J> = PartCount<Row, ListOf<J>>;

// A prefix of the list. Contracts see it as its phases.
pub(crate) type Prefix<J> = published_parts::Prefix<Row, ListOf<J>>;
