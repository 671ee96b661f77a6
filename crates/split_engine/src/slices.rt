//! A worker's slices in a split phase.
ghost use Rattle.std.specs.List.{AllByRecursion};
ghost use Rattle.std.specs.Prelude.{◌≡◌, ℕ, suc, ◌+◌, ◌<◌, ◌≤◌, true, length, replicate, slice_index_or, IfOk, IfErr, OnOk};
ghost use Rattle.split_engine.specs.{Rules.{most_acts}, Splitting.{after_slice_act, merged_all}};
ghost use Rattle.split_engine.specs.inner.Kept.{AreKept, spread};

use crate::application::Application;
use crate::hints::Guesses;
use std::alloc::{AllocError, Global};
use std::marker::Model;

/// A worker's slices of the records on which it acted, each made when it is first needed. Contracts
/// see a slice of each record of the table: those that are not kept are empty.
#[derive(Drop)]
pub(crate) struct Slices<A: Application> {
    guesses: Guesses,
    keys: Vec<u32>,
    slices: Vec<A::Slice>,
}

impl<A: Application> Model for Slices<A> {
    ghost use Rattle.std.specs.Prelude.{List};
    ghost use Rattle.split_engine.specs.inner.Kept.{AreKept, spread};

    ghost Value = { List A.Slice };

    ghost view = { λ s. spread A.rules s.guesses.items s.keys.items s.slices.items };

    ghost invariant = { λ s. AreKept s.guesses.items s.keys.items s.slices.items };
}

// Where the slice of a key stands: it is made if there is none.
fn place_of<A: Application>(
    guesses: &mut Guesses,
    keys: &mut Vec<u32>,
    slices: &mut Vec<A::Slice>,
    key: u32,
) -> Result<usize, AllocError>
    requires within { key < length guesses.old.items }
    requires kept { AreKept guesses.old.items keys.old.items slices.old.items }
    ensures kept { AreKept guesses.new.items keys.new.items slices.new.items }
    ensures same { spread A.rules guesses.new.items keys.new.items slices.new.items
        ≡ spread A.rules guesses.old.items keys.old.items slices.old.items }
    ensures at { IfOk result (λ place. (place < length keys.new.items)
        × (slice_index_or keys.new.items place 0 ≡ key)) }
{
    let guess = guesses[key as usize];
    if let Some(there) = keys.get(guess) {
        if *there == key {
            return Ok(guess);
        }
    }
    keys.reserve(1)?;
    slices.reserve(1)?;
    let place = keys.len();
    guesses[key as usize] = place;
    keys.push_reserved(key);
    slices.push_reserved(A::empty_slice());
    Ok(place)
}

impl<A: Application> Slices<A> {
    /// No slices of so many records, and room for some. Guesses for as many records are used again;
    /// others are made anew.
    pub(crate) fn new(
        alloc: Global,
        size: usize,
        guesses: Guesses,
        room: usize,
    ) -> Result<Slices<A>, AllocError>
        ensures { IfOk result (λ slices. slices ≡ replicate size A.rules.empty) }
    {
        let guesses = if guesses.len() == size {
            guesses
        } else {
            vec![in alloc; 0usize; size]?
        };
        let keys = Vec::with_capacity(alloc, room)?;
        let slices = Vec::with_capacity(alloc, room)?;
        Ok(Slices {
            guesses,
            keys,
            slices,
        })
    }

    /// How many of them are kept.
    pub(crate) fn count(&self) -> usize {
        self.keys.len()
    }

    /// Does an act on the slice of a key.
    pub(crate) fn act(&mut self, key: u32, act: A::Act) -> Result<(), AllocError>
        requires within { key < length self.old }
        requires fits { (n : ℕ) × (n < most_acts) × AllByRecursion (A.slice_fits n) self.old }
        requires small { A.is_small act }
        requires splits { A.rules.is_splittable act ≡ true }
        ensures slices { OnOk result (self.new ≡ after_slice_act A.rules self.old key act) }
        ensures fault { IfErr result (λ _. self.new ≡ self.old) }
        ensures len { length self.new ≡ length self.old }
        ensures fits { (n : ℕ) → AllByRecursion (A.slice_fits n) self.old →
            OnOk result (AllByRecursion (A.slice_fits (suc n)) self.new) }
    {
        let place = place_of::<A>(&mut self.guesses, &mut self.keys, &mut self.slices, key)?;
        A::apply_to_slice(&mut self.slices[place], act);
        Ok(())
    }

    /// Merges the slices into the records of a table, and gives the guesses for the next phase.
    pub(crate) fn merge_into(self, table: &mut Vec<A::Record>) -> Guesses
        requires len { length self ≡ length table.old.items }
        requires fits { (n : ℕ) × (m : ℕ) × (n + m ≤ most_acts)
            × AllByRecursion (A.fits n) table.old.items × AllByRecursion (A.slice_fits m) self }
        ensures { table.new.items ≡ merged_all A.rules table.old.items self }
    {
        let Slices {
            guesses,
            keys,
            slices,
        } = self;
        for (key, slice) in keys.into_iter().zip(slices) {
            A::merge(&mut table[key as usize], slice);
        }
        guesses
    }
}
