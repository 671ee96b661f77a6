//! A part of a text, put together from its front.
ghost use Rattle.std.specs.Fmt.{signed_decimal};
ghost use Rattle.std.specs.Prelude.{◌≡◌, ◌+◌, ◌≤◌, ◌++◌, decimal, length, []};
ghost use Rattle.byte_texts.specs.Labels.{labelled, labelled_id, labelled_optional};

use crate::numeral::{Numeral, put_digits};
use itoa::Buffer;
use std::marker::Model;

/// A part of a text, of at most `N` bytes, put together in place from its front. Contracts see it.
/// A number takes at most 20 bytes, and an id 41.
#[derive(Drop)]
pub struct Block<const N: usize> {
    bytes: [u8; N],
    len: usize,
}

impl<const N: usize> Model for Block<N> {
    ghost use Rattle.std.specs.Prelude.{◌≤◌, ℕ, List, take};

    ghost Value = { List ℕ };

    ghost view = { λ b. take b.len b.bytes };

    ghost invariant = { λ b. b.len ≤ N };
}

impl<const N: usize> Block<N> {
    /// An empty one.
    pub fn new() -> Block<N>
        ensures { result ≡ [] }
    {
        Block {
            bytes: [0; N],
            len: 0,
        }
    }

    /// How many bytes it has.
    #[inline(always)]
    pub fn len(&self) -> usize
        ensures { result ≡ length self.now }
    {
        self.len
    }

    /// Its bytes.
    pub fn bytes(&self) -> &[u8]
        ensures { result.now ≡ self.now }
    {
        let all = &self.bytes[..];
        &all[..self.len]
    }

    /// Makes it empty.
    pub fn clear(&mut self)
        ensures { self.new ≡ [] }
    {
        self.len = 0;
    }

    /// Adds a part as it is.
    #[inline(always)]
    pub fn push(&mut self, part: &[u8])
        requires { length part.now + length self.old ≤ N }
        ensures text { self.new ≡ self.old ++ part.now }
        ensures length { length self.new ≡ length part.now + length self.old }
    {
        let end = self.len + part.len();
        let all = &mut self.bytes[..];
        all[self.len..end].copy_from_slice(part);
        self.len = end;
    }

    /// Adds a number in decimal.
    #[inline(always)]
    pub fn push_number(&mut self, number: u64)
        requires { 20 + length self.old ≤ N }
        ensures text { self.new ≡ self.old ++ decimal number }
        ensures length { length self.new ≤ 20 + length self.old }
    {
        // A number of one digit needs no call.
        if number < 10 {
            self.push(&[b'0' + number as u8]);
        } else {
            self.push_digits(number);
        }
    }

    #[inline(never)]
    fn push_digits(&mut self, number: u64)
        requires { 20 + length self.old ≤ N }
        ensures text { self.new ≡ self.old ++ decimal number }
        ensures length { length self.new ≤ 20 + length self.old }
    {
        let all = &mut self.bytes[..];
        self.len = put_digits(all, self.len, number);
    }

    /// Adds a label and a number.
    #[inline(always)]
    pub fn push_labelled(&mut self, label: &[u8], number: u64)
        requires { length label.now + 20 + length self.old ≤ N }
        ensures text { self.new ≡ self.old ++ labelled label.now number }
        ensures length { length self.new ≤ length label.now + 20 + length self.old }
    {
        self.push(label);
        self.push_number(number);
    }

    /// Adds a label and a number that may be negative.
    pub fn push_signed(&mut self, label: &[u8], number: i64)
        requires { length label.now + 20 + length self.old ≤ N }
        ensures text { self.new ≡ self.old ++ (label.now ++ signed_decimal number) }
        ensures length { length self.new ≤ length label.now + 20 + length self.old }
    {
        self.push(label);
        self.push(Buffer::new().format(number).as_bytes());
    }

    /// Adds a label and a number, or `-` where there is none.
    pub fn push_optional(&mut self, label: &[u8], number: Option<u64>)
        requires { length label.now + 20 + length self.old ≤ N }
        ensures text { self.new ≡ self.old ++ labelled_optional label.now number }
        ensures length { length self.new ≤ length label.now + 20 + length self.old }
    {
        self.push(label);
        match number {
            Some(number) => self.push_number(number),
            None => self.push(b"-"),
        }
    }

    /// Adds a label and an id: a worker, a point and a serial.
    #[inline(never)]
    pub fn push_id(&mut self, label: &[u8], worker: u32, serial: u32)
        requires { length label.now + 41 + length self.old ≤ N }
        ensures text { self.new ≡ self.old ++ labelled_id label.now worker serial }
        ensures length { length self.new ≤ length label.now + 41 + length self.old }
    {
        self.push_labelled(label, u64::from(worker));
        self.push_labelled(b".", u64::from(serial));
    }

    /// Adds a number in decimal by a numeral, which becomes its own: in few instructions if it was
    /// that of the number before.
    #[inline(always)]
    pub fn push_counted(&mut self, number: u64, numeral: &mut Numeral)
        requires { 20 + length self.old ≤ N }
        ensures text { self.new ≡ self.old ++ decimal number }
        ensures length { length self.new ≤ 20 + length self.old }
        ensures counted { numeral.new ≡ number }
    {
        numeral.turn(number);
        let all = &mut self.bytes[..];
        self.len = numeral.put(all, self.len);
    }

    /// Adds a label and an id as `push_id` does, and its serial as `push_counted` does.
    #[inline(always)]
    pub fn push_counted_id(&mut self, label: &[u8], worker: u32, serial: u32, numeral: &mut Numeral)
        requires { length label.now + 41 + length self.old ≤ N }
        ensures text { self.new ≡ self.old ++ labelled_id label.now worker serial }
        ensures length { length self.new ≤ length label.now + 41 + length self.old }
        ensures counted { numeral.new ≡ serial }
    {
        self.push_labelled(label, u64::from(worker));
        self.push(b".");
        self.push_counted(u64::from(serial), numeral);
    }
}
