//! What readers beside a running auction hold.
ghost use Rattle.std.specs.Prelude.{◌≡◌, ◌⊎◌, ◌↔◌, List, length, false, Ok, None, IfOk, OnErr, IfSome, IfNone};
ghost use mathlib.Core.List.{IsPrefix};
ghost use Rattle.auction_rows.specs.{Replies.{reply}, Requests.{is_view}};
ghost use Rattle.phase_boards.specs.Boards.{book_of};

use crate::auction_copy::AuctionCopy;
use crate::phases::{Prefix, WindowName};
use auction_rows::{Reply, Request, is_view};
use published_parts::{CopyReader, NoGuard};
use std::marker::Model;

/// What a view shows.
#[derive(Clone, Copy, PartialEq, Eq, Debug)]
pub struct Seen {
    /// How many phases the reply is of.
    pub phases: u64,
    /// What an auction of one thread answers after the opening book and the rows of these phases.
    pub reply: Reply,
}

/// What a publisher has published so far, for one window to learn. Contracts see the phases.
#[derive(Drop)]
pub struct Told<J: WindowName> {
    phases: Prefix<J>,
}

impl<J: WindowName> Model for Told<J> {
    ghost use Rattle.std.specs.Prelude.{List};
    ghost use Rattle.auction_rows.specs.declared.rows.Row.{Row};

    ghost Value = { List (List Row) };

    ghost view = { λ t. t.phases };
}

impl<J: WindowName> Told<J> {
    pub(crate) fn new(phases: Prefix<J>) -> Told<J>
        ensures { result ≡ phases }
    {
        Told { phases }
    }
}

/// Shows what is published, in any thread, and never goes back. Contracts see the phases of its
/// last view, or those that it was told of if they are more.
#[derive(Drop)]
pub struct Window<J: WindowName> {
    reader: CopyReader<AuctionCopy<J>>,
    phases: Prefix<J>,
}

impl<J: WindowName> Model for Window<J> {
    ghost use Rattle.std.specs.Prelude.{List};
    ghost use Rattle.auction_rows.specs.declared.rows.Row.{Row};

    ghost Value = { List (List Row) };

    ghost view = { λ w. w.phases };
}

impl<J: WindowName> Window<J> {
    pub(crate) fn new(reader: CopyReader<AuctionCopy<J>>, phases: &Prefix<J>) -> Window<J>
        ensures { result ≡ phases.now }
    {
        Window {
            reader,
            phases: phases.again(),
        }
    }

    // The phases that it has shown or was told of.
    pub(crate) fn known(&self) -> &Prefix<J>
        ensures { result.now ≡ self.now }
    {
        &self.phases
    }

    /// The reply to a view, by the phases that are published: at least all that this window has
    /// shown or was told of. `None` comes exactly where the request is no view, and `NoGuard` once
    /// the publisher has ended. It waits for nobody and takes no lock: beside the look-up it makes
    /// three atomic steps.
    pub fn view(&mut self, request: Request) -> Result<Option<Seen>, NoGuard>
        ensures none { (result ≡ Ok None) ↔ (is_view request ≡ false) }
        ensures shown { IfOk result (λ shown. IfSome shown (λ seen.
            seen.reply ≡ reply J.opening (book_of J.rows self.new) 0 request)) }
        ensures phases { IfOk result (λ shown. IfSome shown (λ seen. seen.phases ≡ length self.new)) }
        ensures onward { IsPrefix self.old self.new }
        ensures no_view { IfOk result (λ shown. IfNone shown (self.new ≡ self.old)) }
        ensures refused { OnErr result (self.new ≡ self.old) }
    {
        if !is_view(request) {
            return Ok(None);
        }
        let known = &self.phases;
        let (phases, reply) = self
            .reader
            .read(|copy: &AuctionCopy<J>| copy.view(known, request))?;
        let count = phases.len();
        self.phases = phases;
        Ok(Some(Seen {
            phases: count,
            reply,
        }))
    }

    /// From now on it shows no less than what was told. It takes no memory.
    pub fn learn(&mut self, told: Told<J>)
        ensures longer { (self.new ≡ self.old) ⊎ (self.new ≡ told) }
        ensures shown { IsPrefix self.old self.new }
        ensures told { IsPrefix told self.new }
    {
        self.phases = self.phases.longer(&told.phases);
    }
}
