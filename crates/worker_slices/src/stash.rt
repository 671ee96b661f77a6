//! Requests that wait for the next joined phase.
ghost use Rattle.std.specs.Prelude.{◌≡◌, ◌+◌, ◌-◌, ◌<◌, ◌≤◌, ◌++◌, ◌∷◌, ◌↔◌, [], length, slice_get, take, drop, vec_len, vec_capacity, IfOk, IsTrue};
ghost use Rattle.worker_slices.specs.Stashes.{StashState, without_first};

use auction_rows::Request;
use std::alloc::{AllocError, Global};
use std::marker::Model;

/// The requests that a worker put off in a split phase, each with its index in the script, in
/// order. Contracts see the list of these, those that were taken out of it so far, which a fault
/// puts back, and for how many more there is room.
pub struct Stash {
    stored: Vec<(u32, Request)>,
    // The first of these are performed.
    performed: usize,
    // For how many more there is to be room.
    room: usize,
}

// Not derived: a derived drop is made and proved anew in each crate that lets one go.
impl Drop for Stash {
    fn drop(self) {
        let Self {
            stored,
            performed: _,
            room: _,
        } = self;
        drop(stored);
    }
}

impl Model for Stash {
    ghost Value = { StashState };

    ghost view = { λ s. record {
      requests = drop s.performed s.stored.items;
      done = take s.performed s.stored.items;
      room = s.room;
    } };

    ghost invariant = { λ s. (s.performed ≤ vec_len s.stored)
        × (vec_len s.stored + s.room ≤ vec_capacity s.stored) };
}

impl Stash {
    /// An empty stash with room for so many requests.
    pub fn with_room(alloc: Global, room: usize) -> Result<Stash, AllocError>
        ensures empty { IfOk result (λ stash. stash.requests ≡ []) }
        ensures fresh { IfOk result (λ stash. stash.done ≡ []) }
        ensures room { IfOk result (λ stash. stash.room ≡ room) }
    {
        Ok(Stash {
            stored: Vec::with_capacity(alloc, room)?,
            performed: 0,
            room,
        })
    }

    /// As `with_room`, in the memory of this stash if that is enough.
    pub fn emptied(self, room: usize) -> Result<Stash, AllocError>
        ensures empty { IfOk result (λ stash. stash.requests ≡ []) }
        ensures fresh { IfOk result (λ stash. stash.done ≡ []) }
        ensures room { IfOk result (λ stash. stash.room ≡ room) }
    {
        let Stash {
            mut stored,
            performed: _,
            room: _,
        } = self;
        if stored.capacity() < room {
            return Stash::with_room(*stored.allocator(), room);
        }
        stored.clear();
        Ok(Stash {
            stored,
            performed: 0,
            room,
        })
    }

    /// What its memory is of.
    pub fn alloc(&self) -> Global {
        *self.stored.allocator()
    }

    /// Adds a request at the end, where there is room. It takes no memory.
    pub fn push(&mut self, index: u32, request: Request)
        requires room { 0 < self.old.room }
        ensures added { self.new.requests ≡ self.old.requests ++ (index, request) ∷ [] }
        ensures room { self.new.room ≡ self.old.room - 1 }
        ensures done { self.new.done ≡ self.old.done }
    {
        self.stored.push_reserved((index, request));
        self.room -= 1;
    }

    /// How many requests wait.
    pub fn len(&self) -> usize
        ensures { result ≡ length self.now.requests }
    {
        self.stored.len() - self.performed
    }

    /// Whether none waits.
    pub fn is_empty(&self) -> bool
        ensures { IsTrue result ↔ (length self.now.requests ≡ 0) }
    {
        self.len() == 0
    }

    /// The request at a place, with its index in the script: the first has waited longest.
    pub fn get(&self, place: usize) -> Option<(u32, Request)>
        ensures { result ≡ slice_get self.now.requests place }
    {
        if place >= self.len() {
            return None;
        }
        Some(self.stored[self.performed + place])
    }

    /// Takes out the first request: there is one.
    pub fn forget_first(&mut self)
        requires { 0 < length self.old.requests }
        ensures { self.new ≡ without_first self.old }
    {
        self.performed += 1;
    }

    /// Puts the request that was last taken out back in front: there is one.
    pub fn recall(&mut self)
        requires { 0 < length self.old.done }
        ensures some { 0 < length self.new.requests }
        ensures first { self.old ≡ without_first self.new }
    {
        self.performed -= 1;
    }
}
