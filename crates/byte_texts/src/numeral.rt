//! Numbers with their digits, which are counted up where they lie.
ghost use Rattle.std.specs.Prelude.{◌≡◌, ◌+◌, ◌≤◌, ◌++◌, decimal, length, IsTrue, take};

use itoa::write_digits;
use std::marker::Model;

// The most digits of a number.
const MOST_DIGITS: usize = 20;

/// Puts a number's digits down at a place, and gives the place after them. What lies behind that is
/// overwritten too.
pub(crate) fn put_digits(bytes: &mut [u8], at: usize, number: u64) -> usize
    requires { at + MOST_DIGITS ≤ length bytes.old }
    ensures place { result ≡ at + length (decimal number) }
    ensures within { result ≤ at + MOST_DIGITS }
    ensures text { take result bytes.new ≡ take at bytes.old ++ decimal number }
{
    // The digits end in the middle, so that from the first one on there are as many bytes as the
    // most digits.
    let mut digits = [0; 2 * MOST_DIGITS];
    let start = write_digits(number, &mut digits, MOST_DIGITS);
    bytes[at..at + MOST_DIGITS].copy_from_slice(&digits[start..start + MOST_DIGITS]);
    at + MOST_DIGITS - start
}

/// A number and its digits, which are counted up where they lie. Contracts see the number.
#[derive(Drop)]
pub struct Numeral {
    number: u64,
    digits: [u8; MOST_DIGITS],
    len: usize,
}

impl Model for Numeral {
    ghost use Rattle.std.specs.Prelude.{ℕ};
    ghost use Rattle.byte_texts.specs.inner.Numerals.{HasDigits};

    ghost Value = { ℕ };

    ghost view = { λ n. n.number };

    ghost invariant = { λ n. HasDigits n.digits n.len n.number };
}

impl Numeral {
    /// That of 0.
    pub fn zero() -> Numeral
        ensures { result ≡ 0 }
    {
        Numeral {
            number: 0,
            digits: [b'0'; MOST_DIGITS],
            len: 1,
        }
    }

    /// Makes it that of another number, which mostly is the next one.
    #[inline(always)]
    pub(crate) fn turn(&mut self, number: u64)
        ensures { self.new ≡ number }
    {
        if !self.count_up_to(number) {
            self.turn_over(number);
        }
    }

    // Counts it up, where the number is the next one and the last digit is no nine.
    #[inline(always)]
    fn count_up_to(&mut self, number: u64) -> bool
        ensures { IsTrue result → self.new ≡ number }
    {
        let last = self.digits[self.len - 1];
        if number == 0 || self.number != number - 1 || last >= b'9' {
            return false;
        }
        self.digits[self.len - 1] = last + 1;
        self.number = number;
        true
    }

    // Turns it to a number that is not the next one, or that ends in a zero.
    #[inline(never)]
    fn turn_over(&mut self, number: u64)
        ensures { self.new ≡ number }
    {
        if !self.carry_to(number) {
            self.set(number);
        }
    }

    // Counts it up, where the number is the next one, the last digit is a nine and the one before
    // it is none.
    fn carry_to(&mut self, number: u64) -> bool
        ensures { IsTrue result → self.new ≡ number }
    {
        if self.len < 2 {
            return false;
        }
        let (tens, last) = (self.digits[self.len - 2], self.digits[self.len - 1]);
        if number == 0 || self.number != number - 1 || last != b'9' || tens >= b'9' {
            return false;
        }
        self.digits[self.len - 2] = tens + 1;
        self.digits[self.len - 1] = b'0';
        self.number = number;
        true
    }

    fn set(&mut self, number: u64)
        ensures { self.new ≡ number }
    {
        self.len = put_digits(&mut self.digits, 0, number);
        self.number = number;
    }

    /// Puts its digits down at a place, as `put_digits` does: a fixed number of bytes without a
    /// call, and a copy of the digits without a test for overlap.
    #[inline(always)]
    pub(crate) fn put(&self, bytes: &mut [u8], at: usize) -> usize
        requires { at + MOST_DIGITS ≤ length bytes.old }
        ensures place { result ≡ at + length (decimal self.now) }
        ensures within { result ≤ at + MOST_DIGITS }
        ensures text { take result bytes.new ≡ take at bytes.old ++ decimal self.now }
    {
        let digits = self.digits;
        bytes[at..at + MOST_DIGITS].copy_from_slice(&digits);
        at + self.len
    }
}
