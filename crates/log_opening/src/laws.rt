//! Laws of the text of a log: what a crash leaves of it opens, and its bytes are an auction's rows.
ghost use Rattle.std.specs.Io.KnownBytes.{Appends};
ghost use Rattle.std.specs.Prelude.{◌≡◌, ◌≤◌, ◌<◌, ◌^◌, ◌++◌, All, ℕ, List, [], Ok, Option, Some, drop, length, take, true};
ghost use Rattle.auction_rows.specs.{Book.{Book}, History.{IsBook}};
ghost use Rattle.auction_rows.specs.declared.limits.TheConstants.{MOST_WORKERS};
ghost use Rattle.auction_rows.specs.declared.{requests.Opened.{Opened}, values.Opening.{Opening}};
ghost use Rattle.auction_rows.specs.declared.rows.Entry.{Entry as Commit};
ghost use Rattle.item_shards.specs.Counting.{worker_of};
ghost use Rattle.item_shards.specs.OpeningRows.{AreRows, opening_rows, rows_by};
ghost use Rattle.auction_text.specs.{InputLimits.{MOST_RECORDS}, RowLines.{rows_text}};
ghost use Rattle.auction_text.specs.Scripts.{input_of};
ghost use Rattle.log_opening.specs.Accepted.{GoOnFrom, added_rows, book_past_all};
ghost use Rattle.log_opening.specs.{CutRows.{is_cut_row}, Lines.{AreWholeLines}};
ghost use Rattle.log_opening.specs.Opening.{IsForMemory, IsRefused, OpensWith};
ghost use Rattle.log_opening.specs.ReadBack.{IsWritten, book_asked};
ghost use Rattle.log_opening.specs.Recovery.{AreFirstOf, OpensTo};
ghost use Rattle.log_opening.specs.declared.opening.LoggedAuction.{LoggedAuction};
ghost use Rattle.log_opening.specs.declared.opening.OpenFault.{OpenFault};

/// Rows are read back as they were printed: the text of a book's rows asks for these rows, and for
/// nothing else.
pub fn rows_are_read_back()
    ensures { (workers : ℕ) (book : Book) → workers ≤ 2 ^ 32 → All (IsWritten workers) book →
        length book ≤ MOST_RECORDS →
        input_of workers (rows_text book []) ≡ Ok (book_asked workers book) }
{}

/// A prefix of a log opens to the first rows of its book, and to all those whose lines are there.
/// Whatever a crash leaves behind the bytes that were accepted, a start has all accepted rows.
pub fn a_prefix_opens()
    ensures { (opening : Opening) (workers : ℕ) (book : Book) (n whole : ℕ) → workers ≤ 2 ^ 32 →
        IsBook opening book → All (λ row. worker_of row < MOST_WORKERS) book →
        All (IsWritten workers) book → length book ≤ MOST_RECORDS →
        AreWholeLines (take n (rows_text book [])) whole →
        OpensTo opening workers book n whole }
{}

/// What `open_parts` opens of a prefix of a log is an auction with the first rows of its book, and
/// all those whose lines are there. Whatever a crash leaves behind the bytes that were accepted, a
/// start has all accepted rows, and no row that is not the book's.
pub fn a_prefix_opens_its_rows()
    ensures { (opening : Opening) (workers : ℕ) (book rows : Book) (n : ℕ)
        (opened : LoggedAuction) → workers ≤ MOST_WORKERS → IsBook opening book →
        All (IsWritten workers) book → opened.auction.opening ≡ opening →
        length opened.auction.counters ≡ workers →
        OpensWith (Some (take n (rows_text book []))) rows opened → AreFirstOf book n rows }
{}

/// What a prefix of a log has behind its whole lines is a cut row, which a start takes off.
pub fn a_tail_is_a_cut_row()
    ensures { (workers : ℕ) (book : Book) (n whole : ℕ) → workers ≤ MOST_WORKERS →
        All (IsWritten workers) book → AreWholeLines (take n (rows_text book [])) whole →
        is_cut_row (drop whole (take n (rows_text book []))) ≡ true }
{}

/// Whatever prefix a crash leaves of a log, `open_parts` refuses it only for want of memory, or if
/// a read or a write fails. It may have more rows than fit into memory.
pub fn a_prefix_is_never_refused()
    ensures { (opening : Opening) (limit workers : ℕ) (book : Book) (n : ℕ) (fault : OpenFault) →
        workers ≤ MOST_WORKERS → IsBook opening book → All (IsWritten workers) book →
        ((worker : ℕ) → rows_by book worker ≤ limit) →
        IsRefused fault limit workers opening (take n (rows_text book [])) → IsForMemory fault }
{}

/// A log that has the rows that an auction was opened with, and then accepted those of the opening
/// that it had not and those that each part added, has the rows of the auction: of the book that
/// the last part left, each once, in commit order, and nothing else.
pub fn a_log_has_its_book()
    ensures { (opening : Opening) (logged more : List Opened) (histories : List (List Commit))
        (old new : Option (List ℕ)) → AreRows opening (logged ++ more) →
        GoOnFrom opening (opening_rows opening (logged ++ more)) histories →
        old ≡ Some (rows_text (opening_rows opening logged) []) →
        Appends old new (added_rows opening logged more histories) →
        new ≡ Some (rows_text
        (book_past_all opening (opening_rows opening (logged ++ more)) histories) []) }
{}
