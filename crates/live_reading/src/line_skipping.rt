//! What is passed over at the front of an input: its byte order mark, or a line.
ghost use Rattle.std.specs.Prelude.{ℕ, ◌≡◌, ◌<◌, ◌≤◌, ◌++◌, drop, length, IfNone, IfSome, List, OnOk, Some};
ghost use Rattle.csv.specs.Reading.{strip_bom};
ghost use Rattle.record_reading.specs.Reading.{HasNoInputFault};
ghost use Rattle.live_reading.specs.{LineBuffers.{lines_left}, inner.Lines.{HasPassed, Passes}};

use crate::line_buffer::LineBuffer;
use crate::live_lines::line_len;
use record_reading::ReadFault;
use std::io::Read;

/// What is passed over.
#[derive(Clone, Copy)]
pub(crate) enum Front {
    /// The byte order mark that an input may begin with.
    Mark,
    /// A line, or what is left of it.
    Line,
}

// How long the byte order mark in front of a text is; none if it takes more of the text to know.
#[tactic(auto, using(crate::proofs::MarkLemmas::no_mark_first, crate::proofs::MarkLemmas::no_mark_second, crate::proofs::MarkLemmas::no_mark_third, crate::proofs::MarkLemmas::short_no_mark))]
fn mark_len(text: &[u8]) -> Option<usize>
    ensures within { IfSome result (λ len. len ≤ length text.now) }
    ensures mark { IfSome result (λ len. (more : List ℕ) →
        strip_bom (text.now ++ more) ≡ drop len text.now ++ more) }
    ensures none { IfNone result (length text.now < 3) }
    ensures alone { IfNone result (strip_bom text.now ≡ text.now) }
{
    if text.is_empty() {
        return None;
    }
    if text[0] != 0xEF {
        return Some(0);
    }
    if text.len() == 1 {
        return None;
    }
    if text[1] != 0xBB {
        return Some(0);
    }
    if text.len() == 2 {
        return None;
    }
    if text[2] == 0xBF { Some(3) } else { Some(0) }
}

// How much of a text is passed over, and whether that is the whole front.
fn front_len(text: &[u8], front: Front) -> (usize, bool)
    ensures within { result.0 ≤ length text.now }
    ensures passes { Passes front text.now (drop result.0 text.now) result.1 }
{
    match front {
        Front::Mark => match mark_len(text) {
            Some(len) => (len, true),
            None => (0, false),
        },
        Front::Line => match line_len(text) {
            Some(len) => (len, true),
            None => (text.len(), false),
        },
    }
}

/// Passes over the front of what a buffer has left.
pub(crate) fn skip<R: Read>(lines: &mut LineBuffer<R>, front: Front) -> Result<(), ReadFault>
    ensures passes { OnOk result ((bytes : List ℕ) → lines_left R.remaining lines.old ≡ Some bytes →
        HasPassed R.remaining front bytes lines.new) }
    ensures fails { HasNoInputFault result }
{
    for _ in 0..u64::MAX {
        let (len, is_whole) = front_len(lines.held(), front);
        lines.take(len);
        if is_whole {
            return Ok(());
        }
        if !lines.read_on()? {
            return Ok(());
        }
    }
    Err(ReadFault::Read)
}
