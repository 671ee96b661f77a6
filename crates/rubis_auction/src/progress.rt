//! How much of a long input is read, as its user sees it at a terminal.
ghost use Rattle.std.specs.Prelude.{◌≡◌};
ghost use Rattle.rubis_auction.specs.Noted.{noted_remaining};

use std::io;
use std::io::{Eprint, Read};
use std::rt::Clock;
use std::time::{Duration, Instant};

/// A reader that gives the bytes of another one, and notes how many: after a second, after twice as
/// long, and so on, and at the end.
#[derive(Drop)]
pub struct Noted<'a, R, I> {
    rt: &'a R,
    reader: I,
    bytes: u64,
    // None if nobody sees notes.
    begun: Option<Instant>,
    due: Duration,
}

impl<'a, R: Clock + Eprint, I: Read> Noted<'a, R, I> {
    /// A reader that was not read yet. The clock is read only if notes are seen.
    pub fn of(rt: &'a R, reader: I, is_seen: bool) -> Noted<'a, R, I>
        ensures { noted_remaining I.remaining result ≡ I.remaining reader }
    {
        let begun = if is_seen { Instant::now(rt).ok() } else { None };
        Noted {
            rt,
            reader,
            bytes: 0,
            begun,
            due: Duration::from_secs(1),
        }
    }
}

impl<R: Clock + Eprint, I: Read> Read for Noted<'_, R, I> {
    ghost remaining = { λ r. noted_remaining I.remaining r };

    fn read(&mut self, buf: &mut [u8]) -> io::Result<usize> {
        let given = self.reader.read(buf)?;
        self.bytes = self.bytes.saturating_add(given as u64);
        let is_ended = given == 0 && !buf.is_empty();
        if let Some(spent) = self.begun.and_then(|begun| begun.elapsed(self.rt).ok()) {
            if spent >= self.due || is_ended && spent.as_secs() > 0 {
                self.due = spent.saturating_mul(2);
                note(self.rt, self.bytes, is_ended);
            }
        }
        Ok(given)
    }
}

// It stands apart, because printing takes a large part of a stack.
#[inline(never)]
fn note<R: Eprint>(rt: &R, bytes: u64, is_ended: bool) {
    let next = if is_ended { ", performing" } else { "" };
    // A note that can't be written changes nothing.
    let _ = eprintln!(rt; "rubis_auction: {} KB read{next}", bytes / 1_000);
}
