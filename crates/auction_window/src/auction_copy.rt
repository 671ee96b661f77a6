//! The auction that windows read, of which there are two copies, and how a copy takes in one phase
//! more.
ghost use Rattle.std.specs.Prelude.{◌≡◌, ◌++◌, ◌∷◌, [], List, IfOk, IfSome};
ghost use mathlib.Core.List.{IsPrefix};
ghost use Rattle.auction_rows.specs.Replies.{reply};
ghost use Rattle.item_shards.specs.OpeningBooks.{opening_of, rows_of_book};
ghost use Rattle.auction_window.specs.inner.Copies.{IsLastPhase};
ghost use Rattle.phase_boards.specs.Boards.{book_of};

use crate::phases::{Prefix, WindowName};
use auction_rows::{Reply, Request, Row};
use item_shards::{OpeningBook, SerialAuction};
use left_right::Absorb;
use std::alloc::{AllocError, Global};
use std::marker::Model;

/// The operation on a copy: the rows of one phase, with the phases up to it. Contracts see these
/// phases.
#[derive(Drop)]
pub struct AddPhase<J: WindowName> {
    rows: Vec<Row>,
    phases: Prefix<J>,
}

impl<J: WindowName> Model for AddPhase<J> {
    ghost use Rattle.std.specs.Prelude.{List};
    ghost use Rattle.auction_rows.specs.declared.rows.Row.{Row};
    ghost use Rattle.auction_window.specs.inner.Copies.{IsLastPhase};

    ghost Value = { List (List Row) };

    ghost view = { λ a. a.phases };

    ghost invariant = { λ a. IsLastPhase J.opening J.rows a.rows.items a.phases };
}

impl<J: WindowName> AddPhase<J> {
    pub(crate) fn new(rows: Vec<Row>, phases: Prefix<J>) -> AddPhase<J>
        requires { IsLastPhase J.opening J.rows rows.items phases }
        ensures { result ≡ phases }
    {
        AddPhase { rows, phases }
    }
}

/// One of the two copies of the auction, with the phases whose rows it has. Contracts see these
/// phases. Where memory was refused for a phase the auction is gone, and such a copy takes in
/// nothing more. `left_right` shows a copy only once it has absorbed all.
#[derive(Drop)]
pub struct AuctionCopy<J: WindowName> {
    auction: Option<SerialAuction>,
    phases: Prefix<J>,
}

impl<J: WindowName> Model for AuctionCopy<J> {
    ghost use Rattle.std.specs.Prelude.{List};
    ghost use Rattle.auction_rows.specs.declared.rows.Row.{Row};
    ghost use Rattle.auction_window.specs.inner.Copies.{HasPhases};

    ghost Value = { List (List Row) };

    ghost view = { λ a. a.phases };

    ghost invariant = { λ a. HasPhases J.opening J.rows a.auction a.phases };
}

impl<J: WindowName> AuctionCopy<J> {
    // A copy of the opening book's auction, before the first phase.
    pub(crate) fn new(
        alloc: Global,
        book: &OpeningBook,
        phases: Prefix<J>,
    ) -> Result<AuctionCopy<J>, AllocError>
        requires opening { opening_of book.now ≡ J.opening }
        requires rows { rows_of_book book.now ≡ J.rows }
        requires phases { phases ≡ [] }
        ensures { IfOk result (λ copy. copy ≡ []) }
    {
        let auction = SerialAuction::resume(alloc, book)?;
        Ok(AuctionCopy {
            auction: Some(auction),
            phases,
        })
    }

    // The reply to a view, with the phases that the copy has. None comes where it lacks phases that
    // are known, or its auction is gone: neither is so of a copy that windows read.
    pub(crate) fn view(&self, known: &Prefix<J>, request: Request) -> Option<(Prefix<J>, Reply)>
        ensures onward { IfSome result (λ seen. IsPrefix known.now seen.0) }
        ensures reply { IfSome result (λ seen. seen.1 ≡ reply J.opening (book_of J.rows seen.0) 0 request) }
    {
        if self.phases.len() < known.len() {
            return None;
        }
        let auction = self.auction.as_ref()?;
        // The longer begins with the shorter.
        known.agrees(&self.phases);
        Some((self.phases.again(), auction.reply_to(0, request)))
    }
}

impl<J: WindowName> Absorb<AddPhase<J>> for AuctionCopy<J> {
    type State = [[Row; 0]; 0];

    ghost state = { λ a. a };

    ghost applied = { λ _ added. added };

    fn absorb_first(
        &mut self,
        added: &AddPhase<J>,
        _other: &AuctionCopy<J>,
    ) -> Result<(), AllocError> {
        // The count is always the next one: a writer applies each phase once, in order.
        let count = added.phases.len();
        if count == 0 || count - 1 != self.phases.len() {
            return Err(AllocError);
        }
        // The phases added begin with those that the copy has.
        self.phases.agrees(&added.phases);
        // The auction is put back once it has all the rows, so that half a phase is never shown.
        let Some(mut auction) = self.auction.take() else {
            return Err(AllocError);
        };
        auction.add_rows(&added.rows)?;
        self.auction = Some(auction);
        self.phases = added.phases.again();
        Ok(())
    }
}
