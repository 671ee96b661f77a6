//! Bytes that are read into a buffer, and the whole lines among them.
ghost use Rattle.std.specs.Io.KnownBytes.{IsAtEnd};
ghost use Rattle.std.specs.Prelude.{ℕ, ◌≡◌, ◌<◌, ◌≤◌, ◌++◌, drop, length, take, true, List, Some, IfOk, OnOk};
ghost use Rattle.record_reading.specs.{Lines.{EndsLine, has_no_feed}, Reading.{HasNoInputFault}};

use crate::inputs::ReadFault;
use memchr::memrchr;
use std::io::Read;

/// How many bytes are read at a time.
pub const ROOM_TO_READ: usize = 65536;

/// Fills a buffer on from a place, and returns the place after what was read: the same if nothing
/// is left, or no room.
pub fn read_more<R: Read>(
    buffer: &mut [u8],
    filled: usize,
    reader: &mut R,
) -> Result<usize, ReadFault>
    requires filled { filled ≤ length buffer.old }
    ensures len { length buffer.new ≡ length buffer.old }
    ensures more { IfOk result (λ now. filled ≤ now) }
    ensures within { IfOk result (λ now. now ≤ length buffer.new) }
    ensures reads { IfOk result (λ now. (all : List ℕ) → R.remaining reader.old ≡ Some all →
        (left : List ℕ) × (R.remaining reader.new ≡ Some left)
        × (take filled buffer.old ++ all ≡ take now buffer.new ++ left)) }
    ensures keeps { OnOk result (take filled buffer.new ≡ take filled buffer.old) }
    ensures end { IfOk result (λ now. now ≡ filled → filled < length buffer.old →
        IsAtEnd (R.remaining reader.new)) }
    ensures fails { HasNoInputFault result }
{
    match reader.read(&mut buffer[filled..]) {
        Ok(given) => Ok(filled + given),
        Err(_) => Err(ReadFault::Read),
    }
}

/// The place after the last end of a line in a text: 0 if it has none.
pub fn lines_end(text: &[u8]) -> usize
    ensures within { result ≤ length text.now }
    ensures ends { 0 < result → EndsLine (take result text.now) }
    ensures rest { has_no_feed (drop result text.now) ≡ true }
{
    match memrchr(b'\n', text) {
        Some(place) => place + 1,
        None => 0,
    }
}
