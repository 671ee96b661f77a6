//! A place in a list, in two halves, and a value at the end of a list.
ghost use Rattle.std.specs.Prelude.{◌≡◌, ◌++◌, ◌∷◌, [], vec_len, vec_capacity};
ghost use Rattle.request_scripts.specs.ShortRequests.{HasListRoom};

use std::marker::Model;

// What the halves of a place count to.
const HALF: usize = 4_294_967_296;

/// A place in a list, in two halves: so what has one is aligned to four bytes, and not to eight.
#[derive(Clone, Copy)]
pub struct SideIndex {
    low: u32,
    high: u32,
}

impl Model for SideIndex {
    ghost use Rattle.std.proofs.{Common.{◌∙◌}, Math.Nat.{mul-add-mod_self_right, mod-eq_of_lt}};
    ghost use Rattle.std.proofs.lemmas.Nat.{div-mul-add};
    ghost use Rattle.std.specs.Prelude.{ℕ, ◌+◌, ◌*◌, ◌^◌, ◌<◌, ◌/◌, ◌%◌};

    ghost Value = { ℕ };

    ghost view = { λ p. p.high * 2 ^ 32 + p.low };

    ghost invariant = { λ p. p.low < 2 ^ 32 };

    ghost inverse = { λ place. record { low = place % 2 ^ 32; high = place / 2 ^ 32 } };

    ghost inverse_ok = { λ p low i. record {
      low = (mul-add-mod_self_right p.high (2 ^ 32) p.low ∙ mod-eq_of_lt low) i;
      high = div-mul-add p.high (2 ^ 32) p.low low i;
    } };
}

impl SideIndex {
    /// The place with this number.
    pub fn of(place: usize) -> SideIndex
        ensures { result ≡ place }
    {
        SideIndex {
            low: (place % HALF) as u32,
            high: (place / HALF) as u32,
        }
    }

    /// The place, as one number.
    pub fn get(self) -> usize
        ensures { result ≡ self }
    {
        self.high as usize * HALF + self.low as usize
    }
}

/// Puts a value at the end of a list, and gives its place. It takes no memory.
pub fn keep_one<T>(list: &mut Vec<T>, value: T) -> SideIndex
    requires { HasListRoom 1 (vec_len list.old) (vec_capacity list.old) }
    ensures place { result ≡ vec_len list.old }
    ensures kept { list.new.items ≡ list.old.items ++ value ∷ [] }
    ensures capacity { vec_capacity list.new ≡ vec_capacity list.old }
{
    let place = SideIndex::of(list.len());
    list.push_reserved(value);
    place
}
