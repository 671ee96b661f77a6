//! What publishes the rows of phases.
ghost use Rattle.std.specs.Prelude.{◌≡◌, ◌++◌, ◌∷◌, ◌<◌, ◌≤◌, [], true, false, length, All, alloc_error, Err, IfOk, OnOk, OnErr};
ghost use Rattle.item_shards.specs.{OpeningBooks.{opening_of, rows_of_book}, Serial.{CanFollow}};
ghost use Rattle.phase_boards.specs.Boards.{book_of};
ghost use Rattle.published_parts.specs.Parts.{AreComparable};

use crate::auction_copy::{AddPhase, AuctionCopy};
use crate::phases::{ListOf, PhaseCount, PhaseLog, Prefix, WindowName};
use crate::window::{Told, Window};
use auction_rows::{MOST_WORKERS, Row};
use item_shards::OpeningBook;
use published_parts::{CopyWriter, MakeFault};
use std::alloc::{AllocError, Global};
use std::marker::Model;
use std::sync::Wait;

/// Publishes the phases of an auction to its windows. It must be spent by `end`. Contracts see the
/// phases that windows read, and whether it was refused memory.
///
/// It keeps two copies of the auction's records, of all users, categories and items, and the rows
/// of the phase published last: one copy lacks them, and takes them in at the next publish, which
/// then lets them go. It keeps no other rows. After a refusal it keeps the refused rows too, until
/// `end`.
pub struct Publisher<J: WindowName> {
    copies: CopyWriter<AuctionCopy<J>, AddPhase<J>>,
    count: PhaseCount<J>,
    phases: Prefix<J>,
    failed: bool,
}

impl<J: WindowName> Model for Publisher<J> {
    ghost use Rattle.std.specs.Prelude.{◌≡◌};
    ghost use Rattle.auction_window.specs.Published.{Published};

    ghost Value = { Published };

    ghost view = { λ p. record { phases = p.phases; failed = p.failed } };

    ghost invariant = { λ p. p.copies ≡ p.phases };
}

impl<J: WindowName> Publisher<J> {
    /// A publisher that has published nothing, and 1 to 16 windows on the auction that is opened
    /// with the book. It takes time and memory for two such auctions, and waits for nobody. An
    /// error leaves neither publisher nor window.
    pub fn new<R: Wait>(
        rt: &R,
        alloc: Global,
        log: PhaseLog,
        book: &OpeningBook,
        windows: u32,
    ) -> Result<(Publisher<J>, Vec<Window<J>>), MakeFault>
        requires log { log ≡ J.log }
        requires opening { opening_of book.now ≡ J.opening }
        requires rows { rows_of_book book.now ≡ J.rows }
        requires count { (0 < windows) × (windows ≤ MOST_WORKERS) }
        ensures publisher { IfOk result (λ made. made.0 ≡ record { phases = []; failed = false }) }
        ensures windows { IfOk result (λ made. length made.1.items ≡ windows) }
        ensures nothing { IfOk result (λ made. All (λ window. window ≡ []) made.1.items) }
    {
        let (count, phases) = log.named::<ListOf<J>>();
        let first = AuctionCopy::new(alloc, book, phases.again())?;
        let second = AuctionCopy::new(alloc, book, phases.again())?;
        let copies = CopyWriter::new(alloc, first, second, windows)?;
        match copies.windows(alloc, windows, |reader| Window::new(reader, &phases)) {
            Ok(made) => {
                let publisher = Publisher {
                    copies,
                    count,
                    phases,
                    failed: false,
                };
                Ok((publisher, made))
            }
            Err(fault) => {
                copies.end(rt);
                Err(fault)
            }
        }
    }

    /// How many phases are published.
    pub fn phases(&self) -> u64
        ensures { result ≡ length self.now.phases }
    {
        self.phases.len()
    }

    /// Publishes the rows of one phase, all at once. It costs in proportion to the rows of this
    /// phase and of the one before, and to the windows. Where memory is refused, windows read what
    /// they read before, and so they do from then on: every later publish is refused. A phase past
    /// 2^64 - 1 is want of memory.
    ///
    /// It waits for those views alone that began before the publish before it returned, until they
    /// are done, since they may read the copy that it is to change. The first publish waits for
    /// none, and no view waits for a publish.
    pub fn publish<R: Wait>(&mut self, rt: &R, rows: Vec<Row>) -> Result<Told<J>, AllocError>
        requires rows { CanFollow J.opening (book_of J.rows self.old.phases) rows.items }
        ensures published { OnOk result
            (self.new ≡ record { phases = self.old.phases ++ rows.items ∷ []; failed = false }) }
        ensures told { IfOk result (λ told. told ≡ self.new.phases) }
        ensures refused { OnErr result (self.new ≡ record { phases = self.old.phases; failed = true }) }
        ensures for_good { self.old.failed ≡ true → result ≡ Err alloc_error }
    {
        if self.failed {
            return Err(AllocError);
        }
        // It has failed until all is done.
        self.failed = true;
        if self.phases.len() == u64::MAX {
            return Err(AllocError);
        }
        let mut phases = self.phases.again();
        if !phases.add(&self.count, &rows) {
            return Err(AllocError);
        }
        let told = phases.again();
        self.copies.show(rt, AddPhase::new(rows, phases))?;
        self.phases = told.again();
        self.failed = false;
        Ok(Told::new(told))
    }

    /// Of the phases that a window knows and those that are published, one list begins with the
    /// other. It does nothing else than to say so.
    pub fn agrees(&self, window: &Window<J>)
        ensures { AreComparable window.now self.now.phases }
    {
        window.known().agrees(&self.phases);
    }

    /// Ends it: from now on windows answer `NoGuard`. It waits until each view that is under way is
    /// done, and takes no memory.
    pub fn end<R: Wait>(self, rt: &R) {
        let Publisher {
            copies,
            count: _,
            phases: _,
            failed: _,
        } = self;
        copies.end(rt);
    }
}
