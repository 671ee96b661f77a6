//! The mean of the prices that two threads are given: a record type of one's own, split into slices
//! and merged.
#![tactic(auto)]

mod mean;

ghost use Rattle.std.specs.List.Sorted.{IsPermutation};
ghost use Rattle.std.specs.Prelude.{◌≡◌, ◌<◌, ◌^◌, ◌++◌, ℕ, List, sum};
ghost use Rattle.example_mean.specs.Totals.{totals_of};

use crate::mean::MeanRec;
use split_records::Splittable;
use std::thread::Threads;
use std::{io, thread};

// A worker's slice: what its own prices make of a record to which nothing was applied.
fn slice_of(prices: &[u64]) -> MeanRec
    requires { sum prices.now < 2 ^ 64 }
    ensures { result ≡ totals_of prices.now }
{
    let mut slice = MeanRec::identity();
    for price in prices {
        slice.apply(*price);
    }
    slice
}

// The record of two workers' prices, each with a slice and a thread of its own. In which order they
// came does not matter.
fn mean_of<R: Threads + Sync>(rt: &R, first: &[u64], second: &[u64]) -> MeanRec
    requires { sum (first.now ++ second.now) < 2 ^ 64 }
    ensures { (all : List ℕ) → IsPermutation (first.now ++ second.now) all → result ≡ totals_of all }
{
    let (mut record, slice) = thread::join(rt, || slice_of(first), || slice_of(second));
    record.merge(slice);
    record
}

fn main(rt: HostRuntime) -> io::Result<()> {
    let record = mean_of(&rt, &[10, 20, 30], &[25, 15]);
    match record.value() {
        Some(mean) => println!(rt; "{} prices, their mean is {mean}", record.count()),
        None => println!(rt; "no price"),
    }
}
