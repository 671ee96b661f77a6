//! Requests in a list that takes no memory as it grows, and that can be filled anew.
ghost use Rattle.std.specs.Prelude.{◌≡◌, ◌<◌, ◌≤◌, ◌++◌, ◌∷◌, [], Some, length, slice_get, vec_len, vec_capacity, IfOk};

use crate::short_request::{ShortRequest, keep_request};
use auction_rows::{Facts, Request};
use std::alloc::{AllocError, Global};
use std::marker::Model;

/// Requests in their order, each in 32 bytes, for which room was asked ahead. Contracts see the
/// requests, and the room: for how many in all a place was asked.
#[derive(Drop)]
pub struct KeptRequests {
    requests: Vec<ShortRequest>,
    facts: Vec<Facts>,
}

impl Model for KeptRequests {
    ghost use Rattle.std.specs.Prelude.{◌≤◌, min, vec_len, vec_capacity};
    ghost use Rattle.request_scripts.specs.KeptLists.{KeptList};
    ghost use Rattle.request_scripts.specs.ShortRequests.{requests_from, HaveRequests};

    ghost Value = { KeptList };

    ghost view = { λ k. record {
      requests = requests_from k.facts.items k.requests.items;
      room = min (vec_capacity k.requests) (vec_capacity k.facts);
    } };

    ghost invariant = { λ k. HaveRequests k.facts.items k.requests.items
        × (vec_len k.facts ≤ vec_len k.requests) };
}

impl KeptRequests {
    /// No request, and no room.
    pub fn new(alloc: Global) -> KeptRequests
        ensures { result.requests ≡ [] }
    {
        KeptRequests {
            requests: Vec::new(alloc),
            facts: Vec::new(alloc),
        }
    }

    /// These lists, emptied, with room for so many.
    pub fn emptied(self, room: usize) -> Result<KeptRequests, AllocError>
        ensures requests { IfOk result (λ kept. kept.requests ≡ []) }
        ensures room { IfOk result (λ kept. room ≤ kept.room) }
    {
        let KeptRequests { requests, facts } = self;
        Ok(KeptRequests {
            requests: emptied(requests, room)?,
            facts: emptied(facts, room)?,
        })
    }

    /// Adds a request at the end. It takes no memory.
    #[inline(always)]
    pub fn push(&mut self, request: &Request)
        requires { length self.old.requests < self.old.room }
        ensures { self.new ≡ record self.old {
          requests = self.old.requests ++ request.now ∷ [];
        } }
    {
        let short = keep_request(&mut self.facts, request);
        self.requests.push_reserved(short);
    }

    /// The request at a place from 0, made whole.
    #[inline(always)]
    pub fn request(&self, place: usize) -> Request
        requires { place < length self.now.requests }
        ensures { slice_get self.now.requests place ≡ Some result }
    {
        self.requests[place].whole(&self.facts)
    }

    /// Gives back the memory that no request fills.
    pub fn shrink_to_fit(&mut self)
        ensures { self.new.requests ≡ self.old.requests }
    {
        self.requests.shrink_to_fit();
        self.facts.shrink_to_fit();
    }
}

/// This list, emptied, if it has so much room, else a new one: to enlarge it would move its memory.
pub fn emptied<T: Copy>(mut list: Vec<T>, room: usize) -> Result<Vec<T>, AllocError>
    ensures items { IfOk result (λ list. list.items ≡ []) }
    ensures len { IfOk result (λ list. vec_len list ≡ 0) }
    ensures capacity { IfOk result (λ list. room ≤ vec_capacity list) }
{
    if room <= list.capacity() {
        list.clear();
        return Ok(list);
    }
    let alloc = *list.allocator();
    drop(list);
    Vec::with_capacity(alloc, room)
}
