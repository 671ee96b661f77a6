//! What a user gives for a log of requests.
ghost use Rattle.std.specs.Prelude.{◌≡◌, ℕ, Bool, true, List, [], Option, None, Some, IfOk, IfSome, OnOk, take};
ghost use Rattle.application_log.specs.Lines.{HasNoEnd, IsWritten};

use split_engine::Application;
use std::alloc::AllocError;

/// A log has fewer lines than this, 2^28, so that a run may go on from what it opens.
pub const MOST_LINES: usize = 268_435_456;

/// An application whose requests are the lines of a log.
///
/// An impl says in definitions what the line of a request is, if it has one, which requests are in
/// range, and what a crash can leave of a line. Its functions write a line, and read one back.
pub trait Loggable: Application {
    /// The line of a request, without its end. A request that does nothing, as a view, need not be
    /// logged: then it has none.
    ghost line: { Self.Request → Option (List ℕ) };

    /// Holds of a request whose numbers fit their types, as those of every value do.
    ghost is_in_range: { Self.Request → Type 0 };

    /// Whether bytes may be the beginning of a line that was being written. The fewer they are, the
    /// safer is a file that is no log: any other bytes behind the last line are refused.
    ghost is_cut: { List ℕ → Bool };

    /// Appends the line of a request, without its end, and gives true; or nothing, and false, if it
    /// has none.
    fn write_line(request: &Self::Request, buffer: &mut Vec<u8>) -> Result<bool, AllocError>
        ensures line { IfOk result (IsWritten (line request.now)
            buffer.old.items buffer.new.items) }
        ensures in_range { OnOk result (is_in_range request.now) };

    /// The request whose line this is. Of what is no request's line it may give any or none:
    /// `open_log` writes it again and compares.
    fn read_line(text: &[u8]) -> Option<Self::Request>
        ensures { (q : Self.Request) → is_in_range q → line q ≡ Some text.now →
            result ≡ Some q };

    /// Whether bytes may be the beginning of a line that was being written.
    fn is_cut_line(text: &[u8]) -> bool
        ensures { result ≡ is_cut text.now };

    /// A line may be cut at each of its bytes.
    ghost cut_anywhere: { (q : Self.Request) (n : ℕ) → is_in_range q →
        IfSome (line q) (λ line. is_cut (take n line) ≡ true) };

    /// A line has no line feed.
    ghost one_line: { (q : Self.Request) → is_in_range q → IfSome (line q) HasNoEnd };

    /// A request without a line does nothing.
    ghost does_nothing: { (q : Self.Request) (looks : ℕ → Self.Look) → line q ≡ None →
        (Self.rules.decide q looks).acts ≡ [] };
}
