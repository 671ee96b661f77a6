//! A worker's script, compact: in few bytes a request.
ghost use Rattle.std.specs.Prelude.{◌≡◌, ◌<◌, ◌++◌, ◌∷◌, ◌==◌, [], List, Some, length, map, option_map, slice_get, vec_len, vec_capacity, IfOk, IfSome, OnOk, OnErr};
ghost use Rattle.auction_rows.specs.declared.requests.Facts.{Facts as FactsKept};
ghost use Rattle.request_scripts.specs.ShortRequests.{HasListRoom, HaveRequests};
ghost use Rattle.request_scripts.specs.inner.Shifting.{CanShift, shifted};

use crate::short_request::{ShortRequest, facts_stored, keep_request};
use auction_rows::{Facts, ItemId, Request};
use std::alloc::{AllocError, Global};
use std::marker::Model;

// For how many requests more a full script asks for room, at least.
const REQUESTS_MORE: usize = 128;

// For how many requests ahead a script that others join asks for room, at most.
const REQUESTS_AHEAD: usize = 65_536;

/// A bid that a script asks for.
#[derive(Clone, Copy)]
pub struct BidRequest {
    pub bidder: u32,
    pub item: ItemId,
    pub amount: u64,
    pub time: u64,
}

/// A worker's script, compact: its requests in their order, each in 32 bytes; the facts of items
/// that they store lie in a list of their own. Contracts see the list of requests.
#[derive(Drop)]
pub struct Script {
    requests: Vec<ShortRequest>,
    facts: Vec<Facts>,
}

impl Model for Script {
    ghost use Rattle.std.specs.Prelude.{List};
    ghost use Rattle.auction_rows.specs.declared.requests.Request.{Request as Asked};
    ghost use Rattle.request_scripts.specs.ShortRequests.{requests_from, HaveRequests};

    ghost Value = { List Asked };

    ghost view = { λ s. requests_from s.facts.items s.requests.items };

    ghost invariant = { λ s. HaveRequests s.facts.items s.requests.items };
}

impl Script {
    ghost use Rattle.auction_rows.specs.declared.requests.Request.{Request as Asked};
    ghost use Rattle.request_scripts.specs.Scripts.{only_bid, request_of};

    /// A script with no request.
    pub fn new(alloc: Global) -> Script
        ensures { result ≡ [] }
    {
        Script {
            requests: Vec::new(alloc),
            facts: Vec::new(alloc),
        }
    }

    /// A script with no request, with room for so many that make no item.
    pub fn with_room(alloc: Global, requests: usize) -> Result<Script, AllocError>
        ensures { IfOk result (λ script. script ≡ []) }
    {
        Ok(Script {
            requests: Vec::with_capacity(alloc, requests)?,
            facts: Vec::new(alloc),
        })
    }

    /// The script of these requests.
    pub fn of(alloc: Global, requests: &[Request]) -> Result<Script, AllocError>
        ensures { IfOk result (λ script. script ≡ requests.now) }
    {
        let mut script = Script::new(alloc);
        for request in requests {
            script.push(request)?;
        }
        Ok(script)
    }

    /// Adds a request. If memory is refused, the script has the requests that it had.
    #[inline(always)]
    pub fn push(&mut self, request: &Request) -> Result<(), AllocError>
        ensures pushed { OnOk result (self.new ≡ self.old ++ request.now ∷ []) }
        ensures refused { OnErr result (self.new ≡ self.old) }
    {
        self.facts.reserve(facts_stored(request))?;
        make_room(&mut self.requests)?;
        let short = keep_request(&mut self.facts, request);
        self.requests.push_reserved(short);
        Ok(())
    }

    /// Puts the requests of another script at the end. If memory is refused, the script has the
    /// requests that it had.
    pub fn append(&mut self, other: &Script) -> Result<(), AllocError>
        ensures appended { OnOk result (self.new ≡ self.old ++ other.now) }
        ensures refused { OnErr result (self.new ≡ self.old) }
    {
        let before = self.facts.len();
        make_room_for(&mut self.requests, other.requests.len())?;
        self.facts.extend_from_slice(&other.facts)?;
        push_after(&mut self.requests, &other.requests, before);
        Ok(())
    }

    /// Lets all requests go, and keeps the memory.
    pub fn clear(&mut self)
        ensures { self.new ≡ [] }
    {
        self.requests.clear();
        self.facts.clear();
    }

    /// How many requests there are.
    #[inline(always)]
    pub fn len(&self) -> usize
        ensures { result ≡ length self.now }
    {
        self.requests.len()
    }

    /// Whether there is no request.
    pub fn is_empty(&self) -> bool
        ensures { result ≡ (length self.now == 0) }
    {
        self.requests.is_empty()
    }

    /// The request at a place from 0, made whole.
    #[inline(always)]
    pub fn request(&self, place: usize) -> Request
        requires { place < length self.now }
        ensures { slice_get self.now place ≡ Some result }
    {
        self.requests[place].whole(&self.facts)
    }

    /// The request at a place from 0, if it is a bid.
    #[inline(always)]
    pub fn bid(&self, place: usize) -> Option<BidRequest>
        requires { place < length self.now }
        ensures bid { IfSome result (λ bid. slice_get self.now place ≡ Some (request_of bid)) }
        ensures all { (request : Asked) → slice_get self.now place ≡ Some request →
            option_map request_of result ≡ only_bid request }
    {
        match self.requests[place] {
            ShortRequest::StoreBid(bidder, item, amount, time) => Some(BidRequest {
                bidder,
                item,
                amount,
                time,
            }),
            _ => None,
        }
    }

    /// All requests, made whole.
    pub fn to_requests(&self, alloc: Global) -> Result<Vec<Request>, AllocError>
        ensures { IfOk result (λ requests. requests.items ≡ self.now) }
    {
        let mut requests = Vec::with_capacity(alloc, self.len())?;
        for place in 0..self.len() {
            requests.push(self.request(place))?;
        }
        Ok(requests)
    }
}

// Puts short requests at the end of a list, with their facts after so many others. It takes no
// memory.
fn push_after(requests: &mut Vec<ShortRequest>, others: &[ShortRequest], before: usize)
    requires facts { (all : List FactsKept) × HaveRequests all others.now × CanShift all before }
    requires room { HasListRoom (length others.now) (vec_len requests.old)
        (vec_capacity requests.old) }
    ensures { requests.new.items ≡ requests.old.items ++ map (shifted before) others.now }
{
    for short in others {
        requests.push_reserved(short.after(before));
    }
}

// Room for so many requests more. A list that is full gets sixteen times what it is to hold: more
// will join, to enlarge it may copy it, and what nothing fills is never touched.
fn make_room_for(requests: &mut Vec<ShortRequest>, more: usize) -> Result<(), AllocError>
    ensures same { requests.new.items ≡ requests.old.items }
    ensures room { OnOk result (HasListRoom more (vec_len requests.new)
        (vec_capacity requests.new)) }
{
    if more <= requests.capacity() - requests.len() {
        return Ok(());
    }
    let needed = requests.len().saturating_add(more);
    requests.reserve(more.max(needed.saturating_mul(16).min(REQUESTS_AHEAD)))
}

// Room for one request more.
#[inline(always)]
fn make_room(requests: &mut Vec<ShortRequest>) -> Result<(), AllocError>
    ensures same { requests.new.items ≡ requests.old.items }
    ensures room { OnOk result (vec_len requests.new < vec_capacity requests.new) }
{
    if requests.len() < requests.capacity() {
        return Ok(());
    }
    make_more_room(requests)
}

// Room for many requests more, apart so that the test is inlined.
#[cold]
#[inline(never)]
fn make_more_room(requests: &mut Vec<ShortRequest>) -> Result<(), AllocError>
    ensures same { requests.new.items ≡ requests.old.items }
    ensures room { OnOk result (vec_len requests.new < vec_capacity requests.new) }
{
    requests.reserve(REQUESTS_MORE)
}
