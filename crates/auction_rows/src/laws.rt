//! What the definitions of orders, requests and refusals say, what a history that replays leaves,
//! and what holds of every book. Laws are for readers: each is what a function with an
//! empty body ensures.
ghost use Rattle.std.specs.{Cmp.{IsTotalOrder}, FinMap.{IsAntisymmetric}, Option.{option_or}};
ghost use Rattle.std.specs.Prelude.{◌≡◌, ◌↔◌, ◌&&◌, not, ℕ, Some, Contains, IsTrue, is_some, is_none, ◌+◌, ◌≤◌, ◌++◌, List, map, filter, nat_le};
ghost use Rattle.phase_laws.specs.Ranking.{IsTop};
ghost use Rattle.auction_rows.specs.Book.{Book, same_item, put_up, bought, left};
ghost use Rattle.auction_rows.specs.Choosing.{heat_cmp, heat, objects_written, choose};
ghost use Rattle.auction_rows.specs.History.{ReplaysFrom, book_after, rows_of, commit_of, GoOn, IsBook, AllFresh, AllDistinct};
ghost use Rattle.auction_rows.specs.Orders.{bid_cmp, item_cmp, object_cmp};
ghost use Rattle.auction_rows.specs.Refusals.{refusal, number_refusal, item_refusal, facts_for, left_for};
ghost use Rattle.auction_rows.specs.Replies.{reply, row_of};
ghost use Rattle.auction_rows.specs.Requests.{touches, writes, is_view, same_object};
ghost use Rattle.auction_rows.specs.declared.{requests.Request.{Request}, rows.Entry.{Entry}};
ghost use Rattle.auction_rows.specs.declared.{rows.Row.{Row}, values.Opening.{Opening}};
ghost use Rattle.auction_rows.specs.declared.requests.ItemId.{ItemId as Id};
ghost use Rattle.auction_rows.specs.declared.requests.BidEntry.{BidEntry as Bid};
ghost use Rattle.auction_rows.specs.declared.requests.ItemEntry.{ItemEntry as Listed};
ghost use Rattle.auction_rows.specs.declared.requests.Object.{Object as Thing};

use crate::requests::{BidEntry, ItemEntry, ItemId, Object};

/// The orders of bids, of the items of a category and of objects: they are total, and values that
/// tie are equal.
pub fn orders()
    ensures bids { (a b : Bid) → ⟦<BidEntry as Ord>⟧.cmp a b ≡ bid_cmp a b }
    ensures bids_total { IsTotalOrder bid_cmp }
    ensures bids_tell_apart { IsAntisymmetric bid_cmp }
    ensures items { (a b : Listed) → ⟦<ItemEntry as Ord>⟧.cmp a b ≡ item_cmp a b }
    ensures items_total { IsTotalOrder item_cmp }
    ensures items_tell_apart { IsAntisymmetric item_cmp }
    ensures objects { (a b : Thing) → ⟦<Object as Ord>⟧.cmp a b ≡ object_cmp a b }
    ensures objects_total { IsTotalOrder object_cmp }
    ensures objects_tell_apart { IsAntisymmetric object_cmp }
{}

/// Items, and objects, are equal exactly where they are the same one.
pub fn equalities()
    ensures items { (a b : Id) → ⟦<ItemId as PartialEq>⟧.eq a b ≡ same_item a b }
    ensures items_same { (a b : Id) → IsTrue (same_item a b) ↔ (a ≡ b) }
    ensures objects { (a b : Thing) → ⟦<Object as PartialEq>⟧.eq a b ≡ same_object a b }
    ensures objects_same { (a b : Thing) → IsTrue (same_object a b) ↔ (a ≡ b) }
{}

/// A request is refused by the opening first, and then by its item.
pub fn refusals_in_order()
    ensures { (opening : Opening) (book : Book) (request : Request) →
        refusal opening book request
        ≡ option_or (number_refusal opening request)
        (item_refusal request (facts_for book request) (left_for book request)) }
{}

/// What a request writes is one of the objects that it touches.
pub fn writes_are_touched()
    ensures { (request : Request) (object : Thing) →
        writes request ≡ Some object → Contains (touches request) (Some object) }
{}

/// A request adds a row exactly where it is a store that isn't refused.
pub fn stores_add_rows()
    ensures { (opening : Opening) (book : Book) (worker : ℕ) (request : Request) →
        is_some (row_of worker request (reply opening book worker request))
        ≡ (not (is_view request) && is_none (refusal opening book request)) }
{}

/// A history that replays from a book leaves the book followed by the history's rows, and these go
/// on the book. A history replays exactly where its two parts do, one after the other.
pub fn histories()
    ensures left { (opening : Opening) (book : Book) (entries : List Entry) →
        ReplaysFrom opening book entries →
        book_after opening book entries ≡ book ++ rows_of entries }
    ensures rows { (opening : Opening) (book : Book) (entries : List Entry) →
        ReplaysFrom opening book entries → GoOn opening book (rows_of entries) }
    ensures parts { (opening : Opening) (book : Book) (first second : List Entry) →
        ReplaysFrom opening book (first ++ second)
        ↔ (ReplaysFrom opening book first
        × ReplaysFrom opening (book_after opening book first) second) }
{}

/// Rows are a book exactly where a front of them is one and the rest goes on it. The rows of a book
/// are those that its own commits leave.
pub fn books()
    ensures parts { (opening : Opening) (book rows : List Row) →
        IsBook opening (book ++ rows) ↔ (IsBook opening book × GoOn opening book rows) }
    ensures own_rows { (rows : List Row) → rows_of (map commit_of rows) ≡ rows }
{}

/// In a book the ids that are yet to be given are on no row, and no two rows of one kind have one
/// id.
pub fn fresh_ids()
    ensures fresh { (opening : Opening) (book : Book) → IsBook opening book → AllFresh book }
    ensures distinct { (opening : Opening) (book : Book) →
        IsBook opening book → AllDistinct book }
{}

/// In a book no more of an item was bought than was put up: what is left and what was bought are
/// together what was put up.
pub fn never_oversold()
    ensures at_most { (opening : Opening) (book : Book) (item : Id) →
        IsBook opening book → bought book item ≤ put_up book item }
    ensures together { (opening : Opening) (book : Book) (item : Id) →
        IsBook opening book → left book item + bought book item ≡ put_up book item }
{}

/// The objects chosen to be split are those that enough accepted splittable stores write: the ones
/// with most of them first, of two with equally many the one that is first as an object, and at
/// most so many.
pub fn choices()
    ensures chosen { (entries : List Entry) (threshold most : ℕ) →
        let hot = filter (λ object. nat_le threshold (heat entries object))
        (objects_written entries) in
        IsTop (heat_cmp entries) most hot (choose entries threshold most) }
    ensures total { (entries : List Entry) → IsTotalOrder (heat_cmp entries) }
    ensures tell_apart { (entries : List Entry) → IsAntisymmetric (heat_cmp entries) }
{}
