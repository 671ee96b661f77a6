//! Guesses of the places of the objects in a list.
ghost use Rattle.std.specs.Prelude.{◌≡◌, ◌<◌, IfNone};
ghost use Rattle.auction_rows.specs.Requests.{shard_of};
ghost use Rattle.auction_rows.specs.declared.requests.Object.{Object as ObjectValue};
ghost use Rattle.worker_slices.specs.Guessing.{MayStand};

use auction_rows::{Object, shard_of};

// How many guesses there are.
const GUESSES: usize = 64;

// The guess of objects of which none stands in the list.
const NOWHERE: u8 = 255;

/// Where objects may stand in a list: a guess of the place for those of one remainder, or that none
/// of them stands there.
#[derive(Clone, Copy)]
pub(crate) struct Guesses {
    places: [u8; GUESSES],
}

impl Guesses {
    /// Those of an empty list.
    pub(crate) fn none() -> Guesses {
        Guesses {
            places: [NOWHERE; GUESSES],
        }
    }

    /// Notes that an object stands at a place.
    pub(crate) fn note(&mut self, object: Object, place: usize)
        ensures noted { MayStand self.new.places object }
        ensures kept { (other : ObjectValue) → MayStand self.old.places other →
            MayStand self.new.places other }
    {
        self.places[guess_for(object)] = (place % NOWHERE as usize) as u8;
    }

    /// The guess of an object's place: None only of one that does not stand in the list.
    #[inline(always)]
    pub(crate) fn of(&self, object: Object) -> Option<usize>
        ensures { IfNone result (MayStand self.now.places object → ⊥) }
    {
        let guess = self.places[guess_for(object)];
        if guess == NOWHERE {
            return None;
        }
        Some(guess as usize)
    }
}

// Which of the guesses is that of an object's place.
#[inline(always)]
fn guess_for(object: Object) -> usize
    ensures place { result ≡ shard_of object 64 }
    ensures within { result < 64 }
{
    shard_of(object, GUESSES as u32) as usize
}
