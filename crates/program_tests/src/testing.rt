//! The line of a fault.
use auction_program::{Fault, write_fault};
use std::alloc::Global;
use std::process::Abort;

/// The line of the fault with which the program ended: empty if it did not fail.
pub fn line_of(rt: &impl Abort, alloc: Global, ended: &Result<(), Fault>) -> Vec<u8> {
    let mut line = Vec::new(alloc);
    if let Err(fault) = ended {
        write_fault(&mut line, fault).expect(rt, "memory");
    }
    line
}
