//! Where the requests of a journal's heads lie.
ghost use Rattle.std.specs.Prelude.{◌≡◌, Some, List};
ghost use Rattle.worker_journals.specs.inner.Asked.{CanKeep, HasRequestAt, HaveRequests, request_at, requests_of, with_request};
ghost use Rattle.worker_journals.specs.declared.heads.Head.{Head as Short};

use auction_rows::Request;
use request_scripts::{KeptRequests, OwnScript};
use std::alloc::Global;

/// Where the requests of heads lie.
#[derive(Drop)]
pub(crate) enum Asked {
    /// In a list of their own, each at its head's place.
    Kept(KeptRequests),
    /// In their worker's script, each at its head's index.
    Own(OwnScript),
}

impl Asked {
    /// Keeps a request, at the place of the next head. It takes no memory.
    #[inline(always)]
    pub(crate) fn push(&mut self, request: &Request)
        requires { CanKeep self.old }
        ensures { self.new ≡ with_request self.old request.now }
    {
        match self {
            Asked::Kept(kept) => kept.push(request),
            Asked::Own(_) => unreachable!(),
        }
    }

    /// The request of the head at this place, which has this index.
    #[inline(always)]
    pub(crate) fn request(&self, place: usize, index: u32) -> Request
        requires { HasRequestAt self.now place index }
        ensures { request_at self.now place index ≡ Some result }
    {
        match self {
            Asked::Kept(kept) => kept.request(place),
            Asked::Own(script) => script.request(index as usize),
        }
    }

    /// The memory of the list, or none.
    pub(crate) fn into_list(self, alloc: Global) -> KeptRequests {
        match self {
            Asked::Kept(kept) => kept,
            Asked::Own(_) => KeptRequests::new(alloc),
        }
    }

    /// Gives back the memory that no request fills.
    pub(crate) fn shrink_to_fit(&mut self)
        ensures requests { (heads : List Short) →
            requests_of self.new heads ≡ requests_of self.old heads }
        ensures have { (heads : List Short) →
            HaveRequests self.old heads → HaveRequests self.new heads }
    {
        if let Asked::Kept(kept) = self {
            kept.shrink_to_fit();
        }
    }
}
