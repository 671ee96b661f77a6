//! The commits of a run.
ghost use Rattle.std.specs.{List.{flat_map}, Prelude.{◌≡◌, ◌++◌, ◌∷◌, ◌≤◌, [], length, OnOk}};

use crate::entry::Entry;
use crate::state::MOST_COMMITS;
use std::alloc::{AllocError, Global};
use std::marker::Model;

/// Commits, in the order in which they replay.
///
/// They lie in pieces: those of a joined phase, and those of each worker in a split phase, which
/// become part of the history as they are. So the thread that closes a phase copies none.
#[derive(Drop)]
pub struct History<Q, R> {
    pieces: Vec<Vec<Entry<Q, R>>>,
}

impl<Q, R> Model for History<Q, R> {
    ghost use Rattle.std.specs.{List.{flat_map}, Prelude.{List}};
    ghost use Rattle.split_engine.specs.declared.entry.Entry.{Entry as Commit};

    ghost Value = { List (Commit Q R) };

    ghost view = { λ h. flat_map (λ piece. piece.items) h.pieces.items };
}

impl<Q: Drop, R: Drop> History<Q, R> {
    /// No commits.
    pub(crate) fn new(alloc: Global) -> History<Q, R>
        ensures { result ≡ [] }
    {
        History {
            pieces: Vec::new(alloc),
        }
    }

    /// All commits: those of the first piece, then those of the next one, and so on.
    pub fn pieces(&self) -> &[Vec<Entry<Q, R>>]
        ensures { flat_map (λ piece. piece.items) result.now ≡ self.now }
    {
        &self.pieces
    }

    /// The pieces, for whoever keeps them.
    pub fn into_pieces(self) -> Vec<Vec<Entry<Q, R>>>
        ensures { flat_map (λ piece. piece.items) result.items ≡ self }
    {
        let History { pieces } = self;
        pieces
    }

    /// How many there are.
    pub fn len(&self) -> usize
        ensures { length self.now ≤ MOST_COMMITS → result ≡ length self.now }
    {
        let mut len: usize = 0;
        for piece in self.pieces() {
            len = len.saturating_add(piece.len());
        }
        len
    }

    /// The commits of the last piece.
    pub(crate) fn last(&self) -> &[Entry<Q, R>] {
        match self.pieces.last() {
            Some(piece) => piece,
            None => &[],
        }
    }

    /// Makes a worker's commits the last piece.
    pub(crate) fn add(&mut self, piece: Vec<Entry<Q, R>>) -> Result<(), AllocError>
        ensures { OnOk result (self.new ≡ self.old ++ piece.items) }
    {
        self.pieces.push(piece)?;
        Ok(())
    }

    /// Begins a piece, with room for so many commits.
    pub(crate) fn open(&mut self, room: usize) -> Result<(), AllocError>
        ensures { OnOk result (self.new ≡ self.old) }
    {
        let alloc = *self.pieces.allocator();
        self.add(Vec::with_capacity(alloc, room)?)
    }

    /// Makes a commit the last of the last piece.
    #[inline(always)]
    pub(crate) fn push(&mut self, entry: Entry<Q, R>) -> Result<(), AllocError>
        ensures { OnOk result (self.new ≡ self.old ++ entry ∷ []) }
    {
        if let Some(last) = self.pieces.last_mut() {
            last.push(entry)?;
            return Ok(());
        }
        self.add_one(entry)
    }

    // Makes a commit a piece.
    #[inline(never)]
    fn add_one(&mut self, entry: Entry<Q, R>) -> Result<(), AllocError>
        ensures { OnOk result (self.new ≡ self.old ++ entry ∷ []) }
    {
        let mut piece = Vec::new(*self.pieces.allocator());
        piece.push(entry)?;
        self.add(piece)
    }
}
