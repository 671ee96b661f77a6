//! Which bytes behind the last line of a log are a cut row.
ghost use Rattle.std.specs.{List.{list_all}, Prelude.{◌≡◌, length, nat_le}};
ghost use Rattle.auction_text.specs.Fields.{is_printing};
ghost use Rattle.log_opening.specs.CutRows.{begins_row, has_at, has_digit_at, is_cut_row};

/// The most bytes that the text of a row has, without its line end.
pub const LONGEST_ROW: usize = 189;

// Whether the byte at a place is this one, or the text ends before it.
fn has_at(text: &[u8], at: usize, byte: u8) -> bool
    ensures { result ≡ has_at text.now at byte }
{
    text.len() <= at || text[at] == byte
}

// Whether the byte at a place is a digit, or the text ends before it.
fn has_digit_at(text: &[u8], at: usize) -> bool
    ensures { result ≡ has_digit_at text.now at }
{
    text.len() <= at || text[at].is_ascii_digit()
}

// Whether a text begins as a row does, as far as it goes: with a worker, a comma and a plus.
fn begins_row(text: &[u8]) -> bool
    ensures { result ≡ begins_row text.now }
{
    let one = has_at(text, 1, b',') && has_at(text, 2, b'+');
    let two = has_digit_at(text, 1) && (has_at(text, 2, b',') && has_at(text, 3, b'+'));
    has_digit_at(text, 0) && (one || two)
}

// Whether a byte prints.
fn prints(byte: u8) -> bool
    ensures { result ≡ is_printing byte }
{
    0x20 <= byte && byte <= 0x7E
}

// Whether each byte of a text prints.
fn all_print(text: &[u8]) -> bool
    ensures { result ≡ list_all is_printing text.now }
{
    text.iter().all(|byte| prints(*byte))
}

// Whether a text is no longer than a row.
fn is_short(text: &[u8]) -> bool
    ensures { result ≡ nat_le (length text.now) LONGEST_ROW }
{
    text.len() <= LONGEST_ROW
}

/// Whether a text may be the beginning of a row that was being written: it is no longer than a row,
/// each byte prints, and it begins as a row does.
pub fn is_cut_row(text: &[u8]) -> bool
    ensures { result ≡ is_cut_row text.now }
{
    is_short(text) && (all_print(text) && begins_row(text))
}
