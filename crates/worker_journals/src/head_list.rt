//! The heads of a journal, and their requests, which lie in a list of their own or in a script.
ghost use Rattle.std.specs.List.{AllByRecursion};
ghost use Rattle.std.specs.Prelude.{◌≡◌, ◌==◌, ◌<◌, ◌≤◌, ◌^◌, ◌++◌, ◌∷◌, [], Some, length, map, slice_get, IfOk};

use crate::asked::Asked;
use crate::heads::{Head, ShortReply};
use auction_rows::Request;
use request_scripts::{KeptRequests, OwnScript};
use std::alloc::{AllocError, Global};
use std::marker::Model;
use std::mem::replace;

/// The heads of a journal. Contracts see each with its request, and for how many in all there is
/// room.
#[derive(Drop)]
pub(crate) struct Heads {
    asked: Asked,
    heads: Vec<Head>,
}

impl Model for Heads {
    ghost use Rattle.std.specs.Prelude.{min, vec_capacity};
    ghost use Rattle.worker_journals.specs.inner.Asked.{HaveRequests, requests_of, room_of};
    ghost use Rattle.worker_journals.specs.inner.HeadLists.{HeadList, heads_of};

    ghost Value = { HeadList };

    ghost view = { λ h. record {
      heads = heads_of (requests_of h.asked h.heads.items) h.heads.items;
      room = min (room_of h.asked) (vec_capacity h.heads);
    } };

    ghost invariant = { λ h. HaveRequests h.asked h.heads.items };
}

impl Heads {
    ghost use Rattle.worker_journals.specs.inner.HeadLists.{IsHeadOf, asked_head, head_by, head_in, request_in};

    /// No head, with room for so many; the requests lie in these lists, emptied.
    pub(crate) fn with_room(
        alloc: Global,
        room: usize,
        lists: KeptRequests,
    ) -> Result<Heads, AllocError>
        ensures heads { IfOk result (λ list. list.heads ≡ []) }
        ensures room { IfOk result (λ list. room ≤ list.room) }
    {
        Ok(Heads {
            asked: Asked::Kept(lists.emptied(room)?),
            heads: Vec::with_capacity(alloc, room)?,
        })
    }

    /// How many heads there are. As many as there is room for are a `usize`.
    #[inline(always)]
    pub(crate) fn len(&self) -> usize
        ensures len { result ≡ length self.now.heads }
        ensures fits { self.now.room < 2 ^ 64 }
    {
        self.heads.len()
    }

    /// Whether there is no head.
    #[inline(always)]
    pub(crate) fn is_empty(&self) -> bool
        ensures { result ≡ (length self.now.heads == 0) }
    {
        self.len() == 0
    }

    /// Adds a head at the end, with its request. It takes no memory.
    #[inline(always)]
    pub(crate) fn push(&mut self, number: u64, index: u32, request: &Request, reply: ShortReply)
        requires { length self.old.heads < self.old.room }
        ensures heads { self.new.heads
            ≡ self.old.heads ++ asked_head (head_by number index reply) request.now ∷ [] }
        ensures room { self.new.room ≡ self.old.room }
    {
        self.asked.push(request);
        self.heads.push_reserved(Head {
            number,
            index,
            reply,
        });
    }

    /// The head at a place from 0.
    #[inline(always)]
    pub(crate) fn head(&self, place: usize) -> Head
        requires { place < length self.now.heads }
        ensures { slice_get (map head_in self.now.heads) place ≡ Some result }
    {
        self.heads[place]
    }

    /// The request of the head at a place from 0, made whole.
    #[inline(always)]
    pub(crate) fn request(&self, place: usize) -> Request
        requires { place < length self.now.heads }
        ensures { slice_get (map request_in self.now.heads) place ≡ Some result }
    {
        self.asked.request(place, self.heads[place].index)
    }

    /// The first head, if there is one.
    #[inline(always)]
    pub(crate) fn first(&self) -> Option<Head>
        ensures { result ≡ slice_get (map head_in self.now.heads) 0 }
    {
        if self.is_empty() {
            return None;
        }
        Some(self.head(0))
    }

    /// Gives back the memory that no head fills.
    pub(crate) fn shrink_to_fit(&mut self)
        ensures { self.new.heads ≡ self.old.heads }
    {
        self.asked.shrink_to_fit();
        self.heads.shrink_to_fit();
    }

    /// As `shrink_to_fit`. From now on the requests are read in the script of the worker, and the
    /// memory of their list is given to the caller.
    pub(crate) fn close_on(&mut self, alloc: Global, script: OwnScript) -> KeptRequests
        requires { AllByRecursion (IsHeadOf script) self.old.heads }
        ensures { self.new.heads ≡ self.old.heads }
    {
        self.heads.shrink_to_fit();
        let asked = replace(&mut self.asked, Asked::Own(script));
        asked.into_list(alloc)
    }
}
