//! Whom a run shows its phases.
use auction_rows::Row;
use std::alloc::AllocError;
use std::sync::Wait;

/// What is given the rows of each phase of a run, once the phase has closed.
pub trait Board {
    ghost use Rattle.std.specs.Prelude.{◌≡◌, ◌++◌, ◌∷◌, [], false, List, OnOk, OnErr};
    ghost use Rattle.auction_rows.specs.{Book.{Book}, declared.values.Opening.{Opening}};
    ghost use Rattle.auction_rows.specs.declared.rows.Row.{Row as Stored};
    ghost use Rattle.phase_boards.specs.Boards.{CanShow};

    /// It has these phases, each a list of rows, of an auction that was opened with these rows.
    ghost has: { Self → Opening → Book → List (List Stored) → Type 0 };

    /// It has these phases, and has refused the next.
    ghost has_refused: { Self → Opening → Book → List (List Stored) → Type 0 };

    /// Somebody can look at it, as at every board that does not say otherwise. If nobody can,
    /// nothing is asked of its phases.
    ghost can_be_watched: { Type 0 } = { Unit {0} };

    /// Whether anybody looks at it. If nobody does, it counts as having every phase, so a run makes
    /// no rows for it.
    fn is_watched(&self) -> bool
        ensures { result ≡ false →
            (opening : Opening) (rows : Book) (phases : List (List Stored)) (last : List Stored) →
            has self.now opening rows phases → has self.now opening rows (phases ++ last ∷ []) }
    {
        true
    }

    /// Takes the rows of one phase. Its only error is want of memory, after which it has refused
    /// this phase; a run then ends and calls it no more.
    fn publish<R: Wait>(&mut self, rt: &R, last: Vec<Row>) -> Result<(), AllocError>
        requires { can_be_watched → CanShow has self.old last.items }
        ensures taken { OnOk result (
            (opening : Opening) (rows : Book) (phases : List (List Stored)) →
            has self.old opening rows phases →
            has self.new opening rows (phases ++ last.items ∷ [])) }
        ensures refused { OnErr result (
            (opening : Opening) (rows : Book) (phases : List (List Stored)) →
            has self.old opening rows phases → has_refused self.new opening rows phases) };
}

/// A board at which nobody looks.
#[derive(Clone, Copy, Debug, Default)]
pub struct NoBoard;

impl Board for NoBoard {
    ghost has = { λ board opening rows phases. Unit {0} };

    ghost has_refused = { λ board opening rows phases. Unit {0} };

    ghost can_be_watched = { ⊥ };

    fn is_watched(&self) -> bool {
        false
    }

    fn publish<R: Wait>(&mut self, _rt: &R, _last: Vec<Row>) -> Result<(), AllocError> {
        Ok(())
    }
}
