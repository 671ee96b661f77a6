//! What a part may ask of an auction whose workers each have a limit.
ghost use Rattle.std.specs.Prelude.{◌≡◌, ◌<◌, ◌≤◌, [], false, length, map, IfNone, IfSome, IsTrue};
ghost use Rattle.auction_run.specs.GoingOn.{AreShortOn, HasScripts};
ghost use Rattle.closing_laws.specs.Standing.{counters_at, stores};
ghost use Rattle.shard_boxes.specs.declared.limits.TheConstants.{MOST_COMMITS};
ghost use Rattle.program_serving.specs.Serving.{ends_at_fault};
ghost use Rattle.program_serving.specs.inner.Parts.{AreWithinLimit, HasRoomForPart, IsPastOn};

use auction_rows::MOST_OF_A_WORKER;
use auction_text::MOST_ROWS_OF_A_PART;
use phase_floor::Joined;
use program_opening::Options;
use std::alloc::Global;
use worker_journals::Script;

/// Whether a line that is turned away ends the input.
pub(crate) fn ends_at_fault(options: &Options) -> bool
    ensures { result ≡ ends_at_fault options.now }
{
    options.ends_at_fault || options.live == 0
}

// Whether each worker has room for all rows and requests that a part may have.
fn has_room(auction: &Joined) -> bool
    ensures room { IsTrue result → HasRoomForPart auction.now }
    ensures full { HasRoomForPart auction.now → IsTrue result }
{
    for worker in 0..auction.workers() {
        let stored = u64::from(auction.stored_by(worker as usize));
        let room = auction.limit().saturating_sub(stored);
        if room < MOST_ROWS_OF_A_PART as u64 + MOST_OF_A_WORKER {
            return false;
        }
    }
    true
}

/// How many requests the next part has at most: what is asked for, or as many as a script may have;
/// one if a worker is near its limit.
pub(crate) fn most_of_a_part(options: &Options, auction: &Joined) -> u32
    ensures some { 1 ≤ result }
    ensures asked { 1 ≤ options.now.live → result ≤ options.now.live }
    ensures few { result ≤ MOST_OF_A_WORKER }
    ensures room { 1 < result → HasRoomForPart auction.now }
    ensures full { HasRoomForPart auction.now → 1 ≤ options.now.live →
        options.now.live ≤ MOST_OF_A_WORKER → result ≡ options.now.live }
{
    let most = MOST_OF_A_WORKER as u32;
    if !has_room(auction) {
        return 1;
    }
    if options.live == 0 || options.live > most {
        return most;
    }
    options.live
}

// A worker whose script is past its limit, if there is one.
fn past_worker(auction: &Joined, scripts: &[Script]) -> Option<u32>
    ensures none { IfNone result (AreWithinLimit auction.now → HasScripts auction.now scripts.now →
        AreShortOn auction.now scripts.now) }
    ensures some { IfSome result (IsPastOn auction.now scripts.now) }
    ensures within { auction.now.limit ≡ MOST_COMMITS → AreWithinLimit auction.now }
{
    let mut past = None;
    for worker in 0..auction.workers() {
        let stored = u64::from(auction.stored_by(worker as usize));
        let room = auction.limit().saturating_sub(stored);
        let asked = match scripts.get(worker as usize) {
            Some(script) => script.len() as u64,
            None => 0,
        };
        if asked > room || asked > MOST_OF_A_WORKER {
            past = Some(worker);
        }
    }
    past
}

// Takes the requests out of scripts.
fn clear(alloc: Global, scripts: &mut Vec<Script>)
    ensures { scripts.new.items ≡ map (λ script. []) scripts.old.items }
{
    for worker in 0..scripts.len() {
        scripts[worker] = Script::new(alloc);
    }
}

/// Takes the requests out of the scripts of a part, and gives the worker, if a script is past its
/// worker's limit and this does not end the input. Such a part has no other request: see
/// `most_of_a_part`.
pub(crate) fn take_past(
    alloc: Global,
    auction: &Joined,
    scripts: &mut Vec<Script>,
    options: &Options,
) -> Option<u32>
    ensures none { IfNone result (scripts.new.items ≡ scripts.old.items) }
    ensures some { IfSome result (λ worker. (ends_at_fault options.now ≡ false)
        × (IsPastOn auction.now scripts.old.items worker
        × (scripts.new.items ≡ map (λ script. []) scripts.old.items))) }
    ensures short { ends_at_fault options.now ≡ false → auction.now.limit ≡ MOST_COMMITS →
        HasScripts auction.now scripts.old.items → AreShortOn auction.now scripts.new.items }
{
    if ends_at_fault(options) {
        return None;
    }
    let worker = past_worker(auction, scripts.as_slice())?;
    clear(alloc, scripts);
    Some(worker)
}
