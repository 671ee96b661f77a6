//! The options of the program.
ghost use Rattle.std.specs.Prelude.{◌≡◌, ◌≤◌, IfOk, IfErr, OnOk, false, map, string_bytes};
ghost use Rattle.clap.specs.Words.{app_of, first_value, found_of, one_text, rule_of};
ghost use Rattle.program_options.specs.Words.{AreTaken, HaveNumbers, text_in, value_in};
ghost use Rattle.program_options.specs.declared.words.UsageFault.{UsageFault};
ghost use Rattle.rubis_check.specs.Words.{SayOptions, order_of, history_rule, plain_history_rule, program};

use auction_rows::{MOST_WORKERS, Opening};
use clap::{Arg, ArgAction, ArgMatches, Command};
use history_check::Order;
use program_options::{
    Description, FROM_ZERO, NumberRange, UsageFault, described_flag, described_number,
    described_program, flag_of, number_of, parse_words,
};
use std::alloc::{AllocError, Global};

/// What the program is asked to do: how many workers, users and categories the auction has, which
/// history is checked, and in which order its entries are to stand.
#[derive(Drop)]
pub struct Options {
    /// How many workers there are, 1 to 16.
    pub workers: u32,
    /// The users and categories of the auction, at most 1,000,000 of each.
    pub opening: Opening,
    /// The order of each worker's entries.
    pub order: Order,
    /// The name of the file that has the history.
    pub history: String,
}

const WORKERS: NumberRange = NumberRange {
    least: 1,
    greatest: MOST_WORKERS as u32,
};

fn plain_history<'a>(alloc: Global) -> Arg<'a>
    ensures rule { rule_of result ≡ plain_history_rule }
    ensures local { result.global ≡ false }
{
    Arg::new(alloc, "history")
        .long("history")
        .action(ArgAction::Set)
        .required(true)
}

fn history_option<'a>(alloc: Global) -> Arg<'a>
    ensures rule { rule_of result ≡ history_rule }
    ensures local { result.global ≡ false }
{
    plain_history(alloc).value_name("FILE").help(HISTORY_HELP)
}

fn command<'a>(alloc: Global) -> Result<Command<'a>, AllocError>
    ensures { IfOk result (λ command. app_of command ≡ program) }
{
    let options = vec![in alloc;
        history_option(alloc),
        described_number(alloc, "workers", WORKERS, "1", WORKERS_HELP),
        described_number(alloc, "users", FROM_ZERO, "100", USERS_HELP),
        described_number(alloc, "categories", FROM_ZERO, "10", CATEGORIES_HELP),
        described_flag(alloc, "order", ORDER_HELP),
        described_flag(alloc, "strict", STRICT_HELP),
    ]?;
    described_program(alloc, "rubis_check", DESCRIPTION).args(options)
}

// The order that flags ask for.
fn order_of(first: bool, strict: bool) -> Order
    ensures { result ≡ order_of first strict }
{
    if strict {
        Order::Strict
    } else if first {
        Order::StoresFirst
    } else {
        Order::Any
    }
}

fn options_of(alloc: Global, matches: &ArgMatches<'_>) -> Result<Options, UsageFault>
    ensures given { IfOk result (λ options. HaveNumbers program (one_text (found_of matches.now)) →
        SayOptions (one_text (found_of matches.now)) (first_value (found_of matches.now)) options) }
    ensures workers { IfOk result (λ options. options.workers ≤ MOST_WORKERS) }
    ensures memory { IfErr result (λ fault. fault ≡ UsageFault.Memory) }
{
    let name = matches.get_str("history").unwrap_or("");
    let Ok(history) = name.to_owned(alloc) else {
        return Err(UsageFault::Memory);
    };
    Ok(Options {
        workers: number_of(matches, "workers", WORKERS),
        opening: Opening {
            users: number_of(matches, "users", FROM_ZERO),
            categories: number_of(matches, "categories", FROM_ZERO),
        },
        order: order_of(flag_of(matches, "order"), flag_of(matches, "strict")),
        history,
    })
}

/// The options that the words give, the first of which is the program's name. Where they say
/// nothing else: one worker, 100 users, 10 categories, any order; a file with a history has to be
/// named. Words that are refused, or that ask for help, are answered in `clap`'s words.
pub fn read_options(alloc: Global, words: &[String]) -> Result<Options, UsageFault>
    ensures given { IfOk result (SayOptions (text_in program (map string_bytes words.now))
        (value_in program (map string_bytes words.now))) }
    ensures workers { IfOk result (λ options. options.workers ≤ MOST_WORKERS) }
    ensures taken { OnOk result (AreTaken program (map string_bytes words.now)) }
    ensures memory { IfErr result (λ fault. AreTaken program (map string_bytes words.now) →
        fault ≡ UsageFault.Memory) }
{
    let Ok(command) = command(alloc) else {
        return Err(UsageFault::Memory);
    };
    let matches = parse_words(alloc, command, words)?;
    options_of(alloc, &matches)
}

// What the program says of itself and of its options.
const DESCRIPTION: Description<'static> = Description {
    about: "Checks whether a single-threaded auction gives the replies of a history, in its order.",
    usage: "rubis_check [OPTIONS] --history <FILE> < INPUT",
    after: "\
Reads rows and scripts from standard input, as rubis_auction does, and from FILE, which may be
a pipe, a line per request in commit order: PHASE NUMBER WORKER INDEX REPLY.
Writes one line to standard output, the verdict.
Faults, this help and the version go to standard error.
Status: 0 the history replays, 5 wrong reply, 6 wrong request, 7 wrong order, 8 unreadable line;
1 options or help, 2 input or history not read, 3 row refused, limits or memory, 4 output.

Examples:
  rubis_check --workers 2 --strict --history engine.history < scripts.csv
  rubis_check --workers 2 --order \
      --history <(rubis_auction --workers 2 --history < scripts.csv) < scripts.csv",
};

const HISTORY_HELP: &str = "History to check; required";

const WORKERS_HELP: &str = "Workers, each with a script in the input, 1 to 16";

const USERS_HELP: &str = "Users of the auction, 0 to 1000000";

const CATEGORIES_HELP: &str = "Categories of the auction, 0 to 1000000";

const ORDER_HELP: &str = "Refuse a request before an earlier item, bid or comment of its script";

const STRICT_HELP: &str =
    "Refuse any request before an earlier one of its script; real time is not judged";
