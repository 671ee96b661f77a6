//! Ranks drawn by Zipf's law, in whole numbers: the same on every machine.
ghost use Rattle.std.specs.Prelude.{◌≤◌};

use rand::RngExt;
use rand_xoshiro::Xoshiro256PlusPlus;
use std::alloc::{AllocError, Global};

// The binary places of a logarithm.
const LOG_PLACES: u32 = 24;

// One, in a logarithm or an exponent.
const ONE: u64 = 1 << LOG_PLACES;

// One, in a power of a half: it has 32 binary places.
const WHOLE: u64 = 1 << 32;

// The greatest weight, which the first rank has: so many sums of a million ranks fit into 64 bits.
const MOST_WEIGHT: u64 = 1 << 40;

// The roots 2^(-1/2), 2^(-1/4), .. of a half, with 32 binary places.
const ROOTS: [u64; 24] = [
    3037000499, 3611622602, 3938502375, 4112874773, 4202935003, 4248701964, 4271771996, 4283353945,
    4289156690, 4292061009, 4293513906, 4294240539, 4294603902, 4294785595, 4294876444, 4294921870,
    4294944583, 4294955939, 4294961617, 4294964456, 4294965876, 4294966586, 4294966941, 4294967118,
];

// The logarithm of a number from 1 to the base 2, by squaring.
fn log_of(number: u32) -> u64 {
    let zeros = number.leading_zeros();
    let mut log = u64::from(31u32.saturating_sub(zeros));
    let mut rest = u64::from(number.wrapping_shl(zeros));
    for _place in 0..LOG_PLACES {
        rest = rest.wrapping_mul(rest) >> 31;
        let place = rest >> 32;
        log = log << 1 | place;
        if place > 0 {
            rest /= 2;
        }
    }
    log
}

// Two to the power of minus a fraction, by roots of a half.
fn half_by(fraction: u64) -> u64 {
    let mut power = WHOLE;
    let mut left = fraction;
    for root in ROOTS {
        left = left.wrapping_mul(2);
        if left >= ONE {
            power = power.wrapping_mul(root) >> 32;
            left -= ONE;
        }
    }
    power
}

// The weight of a rank from 1, at least 1: 2^40 divided by the rank to the power of the skew, which
// is in hundredths.
fn weight_of(rank: u32, skew: u32) -> u64 {
    let log = log_of(rank).wrapping_mul(u64::from(skew)) / 100;
    // The weight has 40 binary places, of which 63 halvings leave none.
    let weight = half_by(log % ONE).wrapping_mul(256) >> (log / ONE).min(63);
    weight.clamp(1, MOST_WEIGHT)
}

/// How popular things are: of ranks from 0, the first is drawn most.
#[derive(Drop)]
pub struct Popularity {
    count: u32,
    // The sums of the weights up to each rank, and of all: none where all ranks are alike.
    sums: Vec<u64>,
    total: u64,
    ghost some: { 1 ≤ count },
}

impl Popularity {
    /// The popularity of so many things by Zipf's law, with an exponent in hundredths: 0 makes all
    /// alike. It takes eight bytes for each, and none without skew.
    pub fn new(alloc: Global, count: u32, skew: u32) -> Result<Popularity, AllocError>
        requires { 1 ≤ count }
    {
        let mut sums = Vec::new(alloc);
        let mut total: u64 = 0;
        if skew > 0 {
            sums.reserve_exact(count as usize)?;
            for rank in 1..=count {
                total = total.saturating_add(weight_of(rank, skew));
                sums.push(total)?;
            }
        }
        Ok(Popularity { count, sums, total })
    }

    /// A rank, by its weight.
    pub fn draw(&self, rng: &mut Xoshiro256PlusPlus) -> u64 {
        if self.total == 0 {
            return u64::from(rng.random_range(0..self.count));
        }
        let point = rng.random_range(0..self.total);
        self.sums.partition_point(|sum| *sum <= point) as u64
    }
}
