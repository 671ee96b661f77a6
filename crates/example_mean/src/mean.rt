//! The mean of numbers.
ghost use Rattle.std.specs.Prelude.{◌≡◌, ◌+◌, ◌<◌, ◌^◌, ◌/◌, MatchOption};
ghost use Rattle.example_mean.specs.Totals.{Fits, Totals, after, mean_laws, mean_values, nothing, together, totals_of};

use split_records::Splittable;
use std::marker::Model;

/// Keeps what the mean of numbers is made of: their sum, and how many they are.
#[derive(Drop)]
pub struct MeanRec {
    sum: u64,
    count: u64,
}

impl Model for MeanRec {
    ghost Value = { Totals };

    ghost view = { λ r. record { total = r.sum; numbers = r.count } };
}

impl MeanRec {
    /// The mean, rounded down, or none before the first number.
    pub fn value(&self) -> Option<u64>
        ensures { MatchOption result (self.now.numbers ≡ 0) (λ mean. (0 < self.now.numbers) × (mean ≡ self.now.total / self.now.numbers)) }
    {
        self.sum.checked_div(self.count)
    }

    /// How many numbers there are.
    pub fn count(&self) -> u64
        ensures { result ≡ self.now.numbers }
    {
        self.count
    }
}

impl Splittable for MeanRec {
    type Op = u64;

    ghost ties_are_equal = { Unit {0} };

    ghost is_record = { λ _. Unit {0} };

    ghost empty = { nothing };

    ghost applied = { after };

    ghost merged = { together };

    ghost can_apply = { λ a x. Fits (after a x) };

    ghost can_merge = { λ a b. Fits (together a b) };

    ghost value_of = { totals_of };

    ghost laws = { λ _. mean_laws };

    ghost values = { λ _. mean_values };

    fn identity() -> Self {
        MeanRec { sum: 0, count: 0 }
    }

    fn apply(&mut self, number: u64) {
        self.sum += number;
        self.count += 1;
    }

    fn merge(&mut self, other: Self) {
        self.sum += other.sum;
        self.count += other.count;
    }
}
