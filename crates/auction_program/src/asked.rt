//! What an input asks for: a run, what is told of it, and what is written of that.
ghost use Rattle.std.specs.Prelude.{◌≡◌};
ghost use Rattle.item_shards.specs.OpeningBooks.{opening_of};
ghost use Rattle.program_opening.specs.Options.{opening_asked};

use auction_rows::{Object, Row};
use auction_text::ReportLines;
use indexmap::IndexSet;
use item_shards::OpeningBook;
use program_opening::Options;
use worker_journals::{History, Script};

/// A run of an input's scripts from the book of its rows, by these options.
#[derive(Drop)]
pub(crate) struct AskedRun<'a> {
    pub(crate) book: &'a OpeningBook,
    pub(crate) scripts: Vec<Script>,
    pub(crate) options: &'a Options,
    ghost opens: { opening_of book.now ≡ opening_asked options.now },
}

/// What is told of a run, whose state is gone.
#[derive(Drop)]
pub(crate) struct Performed {
    pub(crate) history: History,
    /// What was hot in each phase.
    pub(crate) hot: Vec<IndexSet<Object>>,
    /// The lines of the report: none if it is not asked for, or memory was refused for them.
    pub(crate) lines: Option<ReportLines>,
}

/// What is written of a run from these rows.
#[derive(Clone, Copy)]
pub(crate) struct AskedTexts<'a> {
    pub(crate) options: &'a Options,
    pub(crate) rows: &'a [Row],
    pub(crate) performed: &'a Performed,
}
