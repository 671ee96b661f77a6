//! An auction that is opened with the rows of its input, performs its scripts on threads and writes
//! the replies.
#![tactic(auto)]

mod progress;

ghost use Rattle.std.specs.Prelude.{[]};
ghost use Rattle.phase_floor.specs.Adding.{HasBook, IsStartOf};

use crate::progress::Noted;
use auction_program::{
    ErrorWriter, Fault, Joined, LiveTeller, Log, LogCause, LogFileFault, LoggedInput, NoLog,
    OpenedLog, Options, Teller, UntilEnd, execute, new_auction, open_log, read_options, serve,
    status, write_fault,
};
use program_options::program_words;
use std::alloc::Global;
use std::fs::File;
use std::io;
use std::io::{Eprint, IsTerminal, Read, Write};
use std::process::ExitCode;
use std::rt::{Clock, Env, Files};
use std::sync::Wait;
use std::thread::Threads;

fn main(rt: HostRuntime) -> ExitCode {
    let user = if !rt.stderr().is_terminal() {
        User::Away
    } else if rt.stdin().is_terminal() {
        User::Types
    } else {
        User::Watches
    };
    match perform(&rt, &mut rt.stderr(), user) {
        Ok(()) => ExitCode::SUCCESS,
        Err(fault) => {
            // A fault that can't be written still has its status.
            let _ = write_fault(&mut rt.stderr(), &fault);
            ExitCode::from(status(&fault))
        }
    }
}

// What the user does.
#[derive(Clone, Copy)]
enum User {
    // Does not see standard error.
    Away,
    // Types standard input, and is asked for it.
    Types,
    // Is told how much is read.
    Watches,
}

// Performs standard input as the program's words say.
fn perform<R, E>(rt: &R, errors: &mut E, user: User) -> Result<(), Fault>
where
    E: Write,
    R: Env + Files<File = File> + Input + Print + Alloc<A = Global> + Threads + Wait + Sync,
    R: Clock + Eprint,
{
    let words = program_words(rt).map_err(Fault::Usage)?;
    let options = match read_options(rt.alloc(), words.as_slice()) {
        Ok(options) => options,
        Err(fault) => return Err(Fault::Usage(fault)),
    };
    if options.live == 0 && options.log.is_none() {
        return perform_input(rt, &mut rt.reader(), user, &options);
    }
    if options.report {
        return Err(Fault::Report);
    }
    let auction = new_auction(rt.alloc(), &options)?;
    match &options.log {
        Some(path) => serve_logged(rt, errors, auction, path.as_str(), user, &options),
        None => serve_unlogged(rt, errors, auction, user, &options),
    }
}

// Standard input, of which a user who types it is told.
fn input<'a, R, I>(rt: &'a R, stdin: I, user: User) -> UntilEnd<Noted<'a, R, I>>
where
    I: Read,
    R: Clock + Eprint,
{
    if matches!(user, User::Types) {
        ask_user(rt);
    }
    UntilEnd::of(Noted::of(rt, stdin, matches!(user, User::Watches)))
}

// Its buffers are not on the stack of the others.
#[inline(never)]
fn ask_user<R: Eprint>(rt: &R) {
    // What can't be written changes nothing.
    let _ = eprintln!(rt;
        "rubis_auction: reads rows and scripts from the terminal until Ctrl-D; --help lists the options"
    );
}

// Performs an input that is read first. Its buffers are not on the stack of the others.
#[inline(never)]
fn perform_input<R, I>(rt: &R, stdin: I, user: User, options: &Options) -> Result<(), Fault>
where
    I: Read + Drop,
    R: Print + Alloc<A = Global> + Threads + Wait + Sync + Clock + Eprint,
{
    let reader = input(rt, stdin, user);
    execute(rt, rt.alloc(), reader, &mut io::writer(rt), options)
}

// Serves an input.
fn serve_input<R, E, I, L>(
    rt: &R,
    errors: &mut E,
    source: LoggedInput<I>,
    log: L,
    user: User,
    options: &Options,
) -> Result<(), Fault>
where
    E: Write,
    I: Read + Drop,
    L: Log + Drop,
    R: Print + Alloc<A = Global> + Threads + Wait + Sync + Clock + Eprint,
    requires { HasBook source.auction }
{
    let teller = Teller::new(log, io::writer(rt));
    let user = match user {
        // Its replies show how far it is.
        User::Watches if options.live > 0 => User::Away,
        user => user,
    };
    let LoggedInput { auction, reader } = source;
    let source = LoggedInput {
        auction,
        reader: input(rt, reader, user),
    };
    let alloc = rt.alloc();
    let mut teller = LiveTeller::of(alloc, teller, ErrorWriter::of(errors));
    serve(rt, alloc, source, &mut teller, options)
}

// Serves standard input, and keeps no log. Its buffers are not on the stack of the others.
#[inline(never)]
fn serve_unlogged<R, E>(
    rt: &R,
    errors: &mut E,
    auction: Joined,
    user: User,
    options: &Options,
) -> Result<(), Fault>
where
    E: Write,
    R: Input + Print + Alloc<A = Global> + Threads + Wait + Sync + Clock + Eprint,
    requires { HasBook auction }
{
    // The reader is large, and what is left of the input moves from part to part.
    let mut reader = rt.reader();
    let source = LoggedInput {
        auction,
        reader: &mut reader,
    };
    serve_input(rt, errors, source, NoLog, user, options)
}

// Serves standard input after the rows of the log at a path, and logs those that are added.
fn serve_logged<R, E>(
    rt: &R,
    errors: &mut E,
    auction: Joined,
    path: &str,
    user: User,
    options: &Options,
) -> Result<(), Fault>
where
    E: Write,
    R: Files<File = File> + Input + Print + Alloc<A = Global> + Threads + Wait + Sync,
    R: Clock + Eprint,
    requires { IsStartOf auction [] }
{
    let alloc = rt.alloc();
    let opened = if options.rows {
        open_log(rt, alloc, path, auction, &mut io::writer(rt))?
    } else {
        open_log(rt, alloc, path, auction, &mut io::sink())?
    };
    let OpenedLog { auction, log, cut } = opened;
    if cut > 0 {
        // A note that can't be written changes nothing.
        let _ = writeln!(
            errors,
            "rubis_auction: {cut} bytes of a cut line taken off the log, kept in {path}.cut"
        );
    }
    let mut reader = rt.reader();
    let source = LoggedInput {
        auction,
        reader: &mut reader,
    };
    match serve_input(rt, errors, source, log, user, options) {
        Err(Fault::Log(why)) => Err(LogFileFault::at(alloc, path, LogCause::Log(why)).into()),
        served => served,
    }
}
