//! What is hot and what waits, and room for receipts.
ghost use Rattle.std.specs.Prelude.{◌≡◌, ◌≤◌, [], vec_capacity, vec_len, IfOk};

use auction_rows::Object;
use indexmap::IndexSet;
use phase_permits::Stash;
use std::alloc::{AllocError, Global};
use std::process::Abort;

/// The one hot object.
pub(crate) fn only_hot(rt: &impl Abort, alloc: Global, object: Object) -> IndexSet<Object> {
    let mut hot = IndexSet::new(alloc);
    let _is_new = hot.insert(object).ok().expect(rt, "memory");
    hot
}

/// Nothing waits for so many workers.
pub(crate) fn nothing_waits(alloc: Global, workers: u32) -> Result<Vec<Stash>, AllocError>
    ensures { IfOk result (λ stashes. vec_len stashes ≡ workers) }
{
    let mut stashes = Vec::new(alloc);
    for _worker in 0..workers {
        stashes.push(Stash::with_room(alloc, 0)?)?;
    }
    Ok(stashes)
}

/// Room for so many.
pub(crate) fn room_for<T>(rt: &impl Abort, alloc: Global, count: usize) -> Vec<T>
    ensures empty { result.items ≡ [] }
    ensures room { count ≤ vec_capacity result }
{
    Vec::with_capacity(alloc, count).expect(rt, "memory")
}
