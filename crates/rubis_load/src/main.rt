//! A generator of loads for the auction: the rows of items, and then requests in a given mix.
//!
//! Nothing is proved of a load but that the program is safe and ends: `tests/loads.py` compares its
//! bytes with those of a model.
#![tactic(auto)]

mod faults;
mod load;
mod options;
mod popularity;

use crate::faults::{Fault, status, write_fault};
use crate::load::write_load;
use crate::options::read_plan;
use program_options::program_words;
use std::alloc::Global;
use std::io;
use std::process::ExitCode;
use std::rt::Env;

fn main(rt: HostRuntime) -> ExitCode {
    match perform(&rt) {
        Ok(()) => ExitCode::SUCCESS,
        Err(fault) => {
            // A fault that can't be written still has its status.
            let _ = write_fault(&mut rt.stderr(), &fault);
            ExitCode::from(status(&fault))
        }
    }
}

// Writes the load that the program's words ask for.
fn perform<R: Env + Print + Alloc<A = Global>>(rt: &R) -> Result<(), Fault> {
    let alloc = rt.alloc();
    let words = program_words(rt).map_err(Fault::Usage)?;
    let plan = read_plan(alloc, words.as_slice())?;
    write_load(alloc, &mut io::writer(rt), plan)
}
