//! The numbers of an opening, stars, quantities, the names of items, and a copied list of at most
//! ten values.
ghost use Rattle.std.specs.Prelude.{◌≡◌, ◌≤◌, ◌↔◌, ◌≤ℤ◌, pos, negsuc, IsSome, IfSome, IsTrue, ℕ, ◌+◌, ◌<◌, List, [], ◌∷◌, ◌++◌, length, slice_get};
ghost use Rattle.auction_rows.specs.Name.{IsName};

use crate::limits::{MOST_QUANTITY, MOST_SHOWN};
use std::alloc::AllocError;
use std::marker::Model;
use std::{fmt, str};

/// How many users and categories there are: users and categories are the numbers below these.
#[derive(Clone, Copy, PartialEq, Eq, Debug)]
pub struct Opening {
    pub users: u32,
    pub categories: u32,
}

/// How an author rates a user: a whole number from -5 to 5.
#[derive(Clone, Copy, PartialEq, Eq, Debug)]
pub struct Stars {
    pub value: i64,
    pub ghost at_least: { negsuc 4 ≤ℤ value },
    pub ghost at_most: { value ≤ℤ pos 5 },
}

impl Stars {
    ghost use Rattle.auction_rows.specs.Stars.{stars_of};

    /// The stars of a number: None exactly where it is not from -5 to 5.
    #[tactic(auto, unfolding(crate::specs::Stars::stars_of))]
    pub fn new(value: i64) -> Option<Stars>
        ensures variant { IsSome result ↔ ((negsuc 4 ≤ℤ value) × (value ≤ℤ pos 5)) }
        ensures value { IfSome result (λ stars. stars.value ≡ value) }
        ensures exact { result ≡ stars_of value }
    {
        if -5 <= value && value <= 5 {
            Some(Stars { value })
        } else {
            None
        }
    }

    /// The number handed to `new`.
    pub fn value(self) -> i64
        ensures { result ≡ self.value }
    {
        self.value
    }
}

/// How many of an item are put up or bought: a whole number from 1 to 1,000,000, seen as that
/// number.
#[derive(Clone, Copy, PartialEq, Eq, Debug)]
pub struct Quantity {
    count: u32,
}

impl Model for Quantity {
    ghost use Rattle.std.specs.Prelude.{ℕ, ◌≤◌};
    ghost use Rattle.auction_rows.specs.declared.limits.TheConstants.{MOST_QUANTITY};

    ghost Value = { ℕ };

    ghost view = { λ q. q.count };

    ghost invariant = { λ q. (1 ≤ q.count) × (q.count ≤ MOST_QUANTITY) };

    ghost inverse = { λ v. record { count = v } };
}

impl Quantity {
    /// The quantity of a number: None exactly where it is not from 1 to 1,000,000.
    pub fn new(value: u64) -> Option<Quantity>
        ensures variant { IsSome result ↔ ((1 ≤ value) × (value ≤ MOST_QUANTITY)) }
        ensures value { IfSome result (λ quantity. quantity ≡ value) }
    {
        if 1 <= value && value <= u64::from(MOST_QUANTITY) {
            Some(Quantity {
                count: value as u32,
            })
        } else {
            None
        }
    }

    /// The number handed to `new`.
    pub fn value(self) -> u32
        ensures value { result ≡ self }
        ensures low { 1 ≤ result }
        ensures high { result ≤ MOST_QUANTITY }
    {
        self.count
    }
}

/// An item's name: 1 to 32 bytes, each from 0x20 to 0x7E, which are kept inline.
#[derive(Clone, Copy, PartialEq, Eq)]
pub struct Name {
    places: [u8; 32],
    len: u8,
}

impl Model for Name {
    ghost use Rattle.std.specs.Prelude.{ℕ, List, ◌≡◌, ◌-◌, ◌++◌, length, take, replicate};
    ghost use Rattle.auction_rows.specs.Name.{IsName};

    ghost Value = { List ℕ };

    ghost view = { λ n. take n.len n.places };

    ghost invariant = { λ n. IsName (take n.len n.places)
        × (take n.len n.places ++ replicate (32 - length (take n.len n.places)) 0 ≡ n.places)
        × (length (take n.len n.places) ≡ n.len) };

    ghost inverse = { λ bytes. record {
      places = bytes ++ replicate (32 - length bytes) 0;
      len = length bytes;
    } };

    ghost inverse_ok = { λ n h i. record { places = h.1 i; len = h.2 i } };
}

impl Name {
    /// The name of these bytes: None exactly where they are not 1 to 32 bytes of 0x20 to 0x7E.
    pub fn new(bytes: &[u8]) -> Option<Name>
        ensures variant { IsSome result ↔ IsName bytes.now }
        ensures value { IfSome result (λ name. name ≡ bytes.now) }
    {
        if !is_name(bytes) {
            return None;
        }
        let mut places = [0; 32];
        places[..bytes.len()].copy_from_slice(bytes);
        Some(Name {
            places,
            len: bytes.len() as u8,
        })
    }

    /// The bytes handed to `new`.
    pub fn bytes(&self) -> &[u8]
        ensures value { result.now ≡ self.now }
        ensures name { IsName result.now }
    {
        &self.places[..self.len as usize]
    }
}

/// Prints the name as a text in quotes.
impl fmt::Debug for Name {
    fn fmt<W: fmt::Write>(&self, f: &mut fmt::Formatter<W>) -> fmt::Result {
        match str::from_utf8(self.bytes()) {
            Ok(text) => write!(f, "{text:?}"),
            Err(_) => Err(fmt::Error),
        }
    }
}

fn is_name(bytes: &[u8]) -> bool
    ensures { IsTrue result ↔ IsName bytes.now }
{
    !bytes.is_empty() && bytes.len() <= 32 && bytes.iter().all(|b| 0x20 <= *b && *b <= 0x7E)
}

/// A list of at most ten values, which is copied as a whole.
#[derive(PartialEq, Eq, Debug)]
pub struct Ten<E> {
    places: [Option<E>; MOST_SHOWN],
    len: u8,
}

impl<E> Model for Ten<E> {
    ghost use Rattle.std.specs.Prelude.{List, [], ◌∷◌, ◌≡◌, ◌≤◌, length};
    ghost use Rattle.auction_rows.specs.Ten.{filled, ten_places};
    ghost use Rattle.auction_rows.specs.declared.limits.TheConstants.{MOST_SHOWN};

    ghost Value = { List E };

    ghost view = { λ t. filled t.places };

    ghost invariant = { λ t. (ten_places (filled t.places) ≡ t.places)
        × (length (filled t.places) ≡ t.len)
        × (t.len ≤ MOST_SHOWN) };

    ghost inverse = { λ xs. record { places = ten_places xs; len = length xs } };

    ghost inverse_ok = { λ t h i. record { places = h.0 i; len = h.1 i } };
}

impl<E: Copy> Clone for Ten<E> {
    ghost is_clone = { λ x y. y ≡ x };

    ghost is_infallible = { λ _. Unit {0} };

    fn clone(&self) -> Result<Ten<E>, AllocError> {
        Ok(*self)
    }
}

impl<E: Copy> Copy for Ten<E> {}

impl<E: Copy> Ten<E> {
    /// The empty list.
    pub fn new() -> Self
        ensures { result ≡ [] }
    {
        Ten {
            places: [None; MOST_SHOWN],
            len: 0,
        }
    }

    /// How many values it has.
    pub fn len(&self) -> usize
        ensures length { result ≡ length self.now }
        ensures at_most_ten { result ≤ MOST_SHOWN }
    {
        self.len as usize
    }

    /// The value at a place from 0, or None past the last one.
    pub fn get(&self, place: usize) -> Option<E>
        ensures { result ≡ slice_get self.now place }
    {
        if place < self.len() {
            self.places[place]
        } else {
            None
        }
    }

    /// Adds a value at the end.
    pub fn push(&mut self, value: E)
        requires room { length self.old < MOST_SHOWN }
        ensures added { self.new ≡ self.old ++ value ∷ [] }
    {
        let place = self.len();
        self.places[place] = Some(value);
        self.len += 1;
    }
}
