//! What a parse finds in a program's words, and why these are refused.
ghost use Rattle.std.specs.IoError.{error_kind};
ghost use Rattle.std.specs.Prelude.{◌≡◌, IfOk, IfErr, true, map, string_bytes};
ghost use Rattle.std.specs.declared.io.ErrorKind.{ErrorKind as IoErrorKind};
ghost use Rattle.clap.specs.{Faults.{is_simple_and_free}, Words.{kind_of, app_of, found_of}};
ghost use Rattle.clap.specs.declared.error.kind.ErrorKind.{ErrorKind};
ghost use Rattle.program_options.specs.Words.{AreTaken, FindsSaid};
ghost use Rattle.program_options.specs.declared.words.UsageFault.{UsageFault};

use clap::error::ErrorKind;
use clap::{ArgMatches, Command};
use std::alloc::Global;
use std::rt::Env;
use std::{env, io};
use thiserror::Error;

/// Why a program's words are refused: in the words of the parser of options, or for want of memory.
#[derive(Debug, PartialEq, Eq, Drop, Error)]
pub enum UsageFault {
    /// What the parser of options says: a word is refused, or help or the version is asked for.
    #[error("{0}")]
    Text(String),
    /// No memory was left while the words were read.
    #[error("no memory")]
    Memory,
}

/// Why words are refused that `clap` has refused.
pub fn parse_fault(alloc: Global, error: &clap::Error) -> UsageFault
    ensures { kind_of error.now ≡ ErrorKind.OutOfMemory → result ≡ UsageFault.Memory }
{
    if error.kind() == ErrorKind::OutOfMemory {
        return UsageFault::Memory;
    }
    format!(in alloc; "{error}").map_or(UsageFault::Memory, UsageFault::Text)
}

/// Why a program's words could not be had: memory was refused, or a word is no text.
pub fn words_fault(alloc: Global, error: &io::Error) -> UsageFault
    ensures { error_kind error.now ≡ IoErrorKind.OutOfMemory → result ≡ UsageFault.Memory }
{
    if error.kind() == io::ErrorKind::OutOfMemory {
        return UsageFault::Memory;
    }
    format!(in alloc; "error: {error}\n").map_or(UsageFault::Memory, UsageFault::Text)
}

/// What a command finds in a program's words, the first of which is the program's name. Words that
/// are refused, or that ask for help or the version, are answered in `clap`'s words.
pub fn parse_words<'a>(
    alloc: Global,
    mut command: Command<'a>,
    words: &'a [String],
) -> Result<ArgMatches<'a>, UsageFault>
    ensures finds { is_simple_and_free (app_of command.entry) ≡ true
        → IfOk result (λ matches. FindsSaid (app_of command.entry) (map string_bytes words.now)
        (found_of matches)) }
    ensures memory { is_simple_and_free (app_of command.entry) ≡ true
        → IfErr result (λ fault. AreTaken (app_of command.entry) (map string_bytes words.now)
        → fault ≡ UsageFault.Memory) }
{
    match command.try_get_matches_from_mut(words) {
        Ok(matches) => Ok(matches),
        Err(error) => Err(parse_fault(alloc, &error)),
    }
}

/// The words that a program was started with, the first of which is its name.
pub fn program_words<R: Env + Alloc<A = Global>>(rt: &R) -> Result<Vec<String>, UsageFault> {
    let alloc = rt.alloc();
    match env::args(rt) {
        Ok(words) => words.collect(alloc).map_err(|_| UsageFault::Memory),
        Err(error) => Err(words_fault(alloc, &error)),
    }
}
