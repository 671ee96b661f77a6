//! The lines of a text.
ghost use Rattle.std.specs.Prelude.{◌≡◌, ◌≤◌, length};
ghost use Rattle.log_opening.specs.Lines.{line_at};

// The byte that ends a line.
const LINE_END: u8 = b'\n';

/// The number, from 1, of the line in which a place of a text is.
pub(crate) fn line_at(text: &[u8], at: usize) -> u64
    requires { at ≤ length text.now }
    ensures { result ≡ line_at text.now at }
{
    let ends = text[..at].iter().filter(|byte| **byte == LINE_END).count();
    ends as u64 + 1
}
