//! Short lists: the keys that a request names, what it sees there, and what it does.
ghost use Rattle.std.specs.Iterator.{YieldsFirst, item_count};
ghost use Rattle.std.specs.Prelude.{◌≡◌, ◌<◌, ◌≤◌, [], ◌∷◌, ◌++◌, length, slice_index_or};

use std::marker::Model;

/// How many records a request may name.
pub const MOST_KEYS: usize = 4;

/// At most `MOST_KEYS` things: the keys that a request names, what it sees there, or what it does.
#[derive(Drop)]
pub struct Few<T> {
    kept: Kept<T>,
}

// They have no blank, so an array would not do.
#[derive(Clone, Copy)]
enum Kept<T> {
    Nothing,
    One(T),
    Two(T, T),
    Three(T, T, T),
    Four(T, T, T, T),
}

impl<T> Model for Few<T> {
    ghost use Rattle.std.specs.Prelude.{List};
    ghost use Rattle.split_engine.specs.inner.Listed.{listed};

    ghost Value = { List T };

    ghost view = { λ few. listed few.kept };
}

impl<T: Copy> Few<T> {
    /// Nothing.
    pub fn none() -> Few<T>
        ensures { result ≡ [] }
    {
        Few {
            kept: Kept::Nothing,
        }
    }

    /// One thing.
    pub fn one(first: T) -> Few<T>
        ensures { result ≡ first ∷ [] }
    {
        Few {
            kept: Kept::One(first),
        }
    }

    /// Two things.
    pub fn two(first: T, second: T) -> Few<T>
        ensures { result ≡ first ∷ second ∷ [] }
    {
        Few {
            kept: Kept::Two(first, second),
        }
    }

    /// These, and one more.
    pub fn and(self, more: T) -> Few<T>
        requires { length self < MOST_KEYS }
        ensures { result ≡ self ++ more ∷ [] }
    {
        let kept = match self.kept {
            Kept::Nothing => Kept::One(more),
            Kept::One(first) => Kept::Two(first, more),
            Kept::Two(first, second) => Kept::Three(first, second, more),
            Kept::Three(first, second, third) => Kept::Four(first, second, third, more),
            Kept::Four(_, _, _, _) => unreachable!(),
        };
        Few { kept }
    }

    /// How many there are.
    pub fn len(&self) -> usize
        ensures value { result ≡ length self.now }
        ensures few { length self.now ≤ MOST_KEYS }
    {
        match self.kept {
            Kept::Nothing => 0,
            Kept::One(_) => 1,
            Kept::Two(_, _) => 2,
            Kept::Three(_, _, _) => 3,
            Kept::Four(_, _, _, _) => 4,
        }
    }

    /// The one at a place.
    pub fn at(&self, place: usize) -> T
        requires { place < length self.now }
        ensures { result ≡ slice_index_or self.now place result }
    {
        match self.kept {
            Kept::Nothing => unreachable!(),
            Kept::One(first) => first,
            Kept::Two(first, second) => match place {
                0 => first,
                _ => second,
            },
            Kept::Three(first, second, third) => match place {
                0 => first,
                1 => second,
                _ => third,
            },
            Kept::Four(first, second, third, fourth) => match place {
                0 => first,
                1 => second,
                2 => third,
                _ => fourth,
            },
        }
    }

    /// The things, from the first on.
    #[inline(always)]
    pub fn iter(&self) -> FewIter<'_, T>
        ensures things { result ≡ self.now }
        ensures few { length self.now ≤ MOST_KEYS }
    {
        FewIter {
            few: self,
            place: 0,
            end: self.len(),
        }
    }
}

/// The things of a `Few` that are left.
#[derive(Drop)]
pub struct FewIter<'a, T> {
    few: &'a Few<T>,
    // The place of the next one.
    place: usize,
    // How many there are.
    end: usize,
}

impl<'a, T> Model for FewIter<'a, T> {
    ghost use Rattle.std.specs.Prelude.{◌≡◌, List, drop, length};

    ghost Value = { List T };

    ghost view = { λ left. drop left.place left.few.now };

    ghost invariant = { λ left. left.end ≡ length left.few.now };
}

impl<'a, T: Copy> Iterator for FewIter<'a, T> {
    type Item = T;

    ghost next_gives = { YieldsFirst (λ left. left) };

    ghost remaining = { item_count (λ left. left) };

    #[inline(always)]
    fn next(&mut self) -> Option<T> {
        if self.place >= self.end {
            return None;
        }
        let thing = self.few.at(self.place);
        self.place += 1;
        Some(thing)
    }
}
