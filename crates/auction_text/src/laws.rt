//! What holds of the texts that are written.
ghost use Rattle.std.specs.{List.Sorted.{IsPermutation, IsSorted, IsStable}, Prelude.{◌≡◌, List}};
ghost use Rattle.auction_rows.specs.{Book.{Book}, History.{ReplaysFrom, book_after}};
ghost use Rattle.auction_rows.specs.declared.values.Opening.{Opening};
ghost use Rattle.auction_rows.specs.declared.rows.Entry.{Entry as Commit};
ghost use Rattle.auction_text.specs.{Moved.{Gone, all_moved}, Order.{in_order, precedence}};
ghost use Rattle.auction_text.specs.Replies.{lines, replies_text, reply_line};
ghost use Rattle.auction_text.specs.RowLines.{row_line, rows_text};

/// The replies stand by worker, then index, then place, each once; entries that are in order
/// already give a line each as they stand.
pub fn replies_in_order()
    ensures same { (entries : List Commit) → IsPermutation entries (in_order entries) }
    ensures sorted { (entries : List Commit) → IsSorted precedence (in_order entries) }
    ensures stable { (entries : List Commit) → IsStable precedence entries (in_order entries) }
    ensures already { (entries : List Commit) → IsSorted precedence entries →
        replies_text entries ≡ lines reply_line entries }
{}

/// The rows written of a book, and of a history that replays from it, are the lines of the book
/// that the history leaves.
pub fn rows_of_histories()
    ensures { (opening : Opening) (book : Book) (entries : List Commit) →
        ReplaysFrom opening book entries →
        rows_text book entries ≡ lines row_line (book_after opening book entries) }
{}

/// The entries of a part stand in the same order if they are moved to where they stand in the
/// whole.
pub fn moved_in_order()
    ensures { (gone : Gone) (entries : List Commit) →
        in_order (all_moved gone entries) ≡ all_moved gone (in_order entries) }
{}
