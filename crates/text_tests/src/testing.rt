//! What tests add to a history and to a text.
use auction_rows::Reply;
use std::alloc::Global;
use std::process::Abort;
use test_values::VIEW;
use worker_journals::{History, Journal};

/// Adds a phase in which worker 0 commits a view alone, with this index and reply.
pub fn add_commit(
    rt: &(impl Abort + Alloc<A = Global>),
    history: &mut History,
    phase: u64,
    index: u32,
    reply: Reply,
) {
    let alloc = rt.alloc();
    let mut journal = Journal::with_room(alloc, phase, 0, 1).expect(rt, "memory");
    journal.push(1, index, VIEW, reply);
    let journals = vec![in alloc; journal].expect(rt, "memory");
    history.add_phase(journals).expect(rt, "memory");
}

/// Adds bytes to a text.
pub fn extend(rt: &impl Abort, text: &mut Vec<u8>, bytes: &[u8]) {
    text.extend_from_slice(bytes).expect(rt, "memory");
}
