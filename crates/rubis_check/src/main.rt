//! A history of any engine is replayed on an auction of one thread, and what is found of it written
//! as a line.
#![tactic(auto)]

mod execution;
mod faults;
mod options;
mod short_lines;

ghost use Rattle.std.specs.Prelude.{◌≤◌};

use crate::execution::{execute, verdict_status};
use crate::faults::{Fault, status, write_fault};
use crate::options::{Options, read_options};
use crate::short_lines::ShortLines;
use byte_texts::UntilEnd;
use history_check::{CheckFault, Verdict};
use program_options::program_words;
use std::alloc::Global;
use std::fs::File;
use std::io;
use std::io::{BufReader, Eprint, IsTerminal};
use std::process::ExitCode;
use std::rt::{Env, Files};

// How many bytes of the history are read at once.
const HISTORY_ROOM: usize = 1 << 16;

fn main(rt: HostRuntime) -> ExitCode {
    let is_asked = rt.stderr().is_terminal() && rt.stdin().is_terminal();
    match perform(&rt, is_asked) {
        Ok(verdict) => ExitCode::from(verdict_status(&verdict)),
        Err(fault) => {
            // A fault that can't be written still has its status.
            let _ = write_fault(&mut rt.stderr(), &fault);
            ExitCode::from(status(&fault))
        }
    }
}

// Checks the history that the program's words name, with the scripts of standard input. A user who
// types these is asked for them.
fn perform<R>(rt: &R, is_asked: bool) -> Result<Verdict, Fault>
where
    R: Env + Files + Input + Print + Eprint + Alloc<A = Global>,
{
    let words = program_words(rt).map_err(Fault::Usage)?;
    match read_options(rt.alloc(), words.as_slice()) {
        Ok(options) => check(rt, options, is_asked),
        Err(fault) => Err(Fault::Usage(fault)),
    }
}

// Checks the history that the options name.
fn check<R>(rt: &R, options: Options, is_asked: bool) -> Result<Verdict, Fault>
where
    R: Files + Input + Print + Eprint + Alloc<A = Global>,
    requires { options.workers ≤ 16 }
{
    let alloc = rt.alloc();
    let file = match File::open(rt, options.history.as_str()) {
        Ok(file) => ShortLines::of(file),
        Err(why) => return Err(Fault::History(options.history, why)),
    };
    let Ok(mut history) = BufReader::with_capacity(alloc, HISTORY_ROOM, file) else {
        return Err(Fault::Check(CheckFault::Memory));
    };
    if is_asked {
        // What can't be written changes nothing.
        let _ = eprintln!(rt;
            "rubis_check: reads rows and scripts from the terminal until Ctrl-D; --help lists the options"
        );
    }
    let input = UntilEnd::of(rt.reader());
    match execute(alloc, input, &mut history, &mut io::writer(rt), &options) {
        Err(Fault::Check(CheckFault::Read(why))) => Err(Fault::History(options.history, why)),
        checked => checked,
    }
}
