//! What was read of an input and not taken yet.
ghost use Rattle.std.specs.Prelude.{◌≡◌, ◌≤◌, ◌<◌, [], Some, ℕ, List, drop, false, length, take, vec_len, IfOk, OnOk};
ghost use Rattle.record_reading.specs.Reading.{HasNoInputFault};
ghost use Rattle.record_reading.specs.declared.buffers.TheConstants.{ROOM_TO_READ};

use record_reading::{ROOM_TO_READ, ReadFault, read_more};
use std::alloc::Global;
use std::io::Read;

/// A reader, and what was read of it and not taken yet.
#[derive(Drop)]
pub struct LineBuffer<R> {
    reader: R,
    buffer: Vec<u8>,
    at: usize,
    filled: usize,
    ghost in_order: { at ≤ filled },
    ghost within: { filled ≤ vec_len buffer },
    ghost whole_room: { vec_len buffer ≡ ROOM_TO_READ },
}

impl<R> LineBuffer<R> {
    ghost use Rattle.live_reading.specs.{LineBuffers.{held}, inner.Lines.{underneath}};

    /// What was read and not taken yet.
    pub(crate) fn held(&self) -> &[u8]
        ensures value { result.now ≡ held self.now }
        ensures room { length (held self.now) ≤ ROOM_TO_READ }
    {
        &self.buffer[self.at..self.filled]
    }

    /// Takes the first so many bytes of what it holds.
    pub(crate) fn take(&mut self, count: usize)
        requires { count ≤ length (held self.old) }
        ensures held { held self.new ≡ drop count (held self.old) }
        ensures underneath { underneath self.new ≡ underneath self.old }
    {
        self.at += count;
    }

    /// Takes all of what it holds.
    pub(crate) fn clear(&mut self)
        ensures held { held self.new ≡ [] }
        ensures underneath { underneath self.new ≡ underneath self.old }
    {
        self.at = 0;
        self.filled = 0;
    }

    // Moves what it holds to the front of the buffer.
    fn move_up(&mut self)
        ensures at { self.new.at ≡ 0 }
        ensures held { held self.new ≡ held self.old }
        ensures underneath { underneath self.new ≡ underneath self.old }
    {
        self.buffer.copy_within(self.at..self.filled, 0);
        self.filled -= self.at;
        self.at = 0;
    }
}

impl<R: Read + Drop> LineBuffer<R> {
    ghost use Rattle.live_reading.specs.LineBuffers.{lines_left};

    /// A buffer that holds nothing yet of what a reader gives.
    pub(crate) fn new(alloc: Global, reader: R) -> Result<LineBuffer<R>, ReadFault>
        ensures reads { IfOk result (λ lines. (bytes : List ℕ) → R.remaining reader ≡ Some bytes →
            lines_left R.remaining lines ≡ Some bytes) }
        ensures fails { HasNoInputFault result }
    {
        let Ok(buffer) = vec![in alloc; 0u8; ROOM_TO_READ] else {
            return Err(ReadFault::Memory);
        };
        Ok(LineBuffer {
            reader,
            buffer,
            at: 0,
            filled: 0,
        })
    }
}

impl<R: Read> LineBuffer<R> {
    ghost use Rattle.std.specs.Io.KnownBytes.{IsAtEnd};
    ghost use Rattle.live_reading.specs.{LineBuffers.{held, lines_left}, inner.Lines.{underneath}};

    /// Reads more, and returns whether there was any, and room for it.
    pub(crate) fn read_on(&mut self) -> Result<bool, ReadFault>
        ensures reads { OnOk result ((bytes : List ℕ) →
            lines_left R.remaining self.old ≡ Some bytes →
            lines_left R.remaining self.new ≡ Some bytes) }
        ensures none { IfOk result (λ is_more. is_more ≡ false → held self.new ≡ held self.old) }
        ensures end { IfOk result (λ is_more. is_more ≡ false →
            length (held self.new) < ROOM_TO_READ →
            IsAtEnd (R.remaining (underneath self.new))) }
        ensures fails { HasNoInputFault result }
    {
        self.move_up();
        let now = read_more(&mut self.buffer, self.filled, &mut self.reader)?;
        let is_more = now > self.filled;
        self.filled = now;
        Ok(is_more)
    }
}
