//! The options of the program.
ghost use Rattle.std.specs.Prelude.{◌≡◌, ◌≤◌, Bool, IfOk, IfErr, OnOk, codes, false, map, string_bytes, true};
ghost use Rattle.clap.specs.Words.{app_of, first_value, found_of, one_text, rule_of};
ghost use Rattle.program_options.specs.Options.{SaysNumber, file_rule, is_given, number_of};
ghost use Rattle.program_options.specs.Words.{AreTaken, HaveNumbers, given_in, text_in, value_in};
ghost use Rattle.program_options.specs.declared.words.UsageFault.{UsageFault};
ghost use Rattle.program_opening.specs.Options.{AreInRange};
ghost use Rattle.program_opening.specs.Words.{SayOptions, SaysEnd, is_fast, program};

use auction_rows::{MOST_HOT, MOST_SHARDS, MOST_WORKERS, Opening, Policy};
use clap::{Arg, ArgMatches, Command};
use program_options::{
    Description, FROM_ONE, FROM_ZERO, NumberRange, UsageFault, described_file, described_flag,
    described_number, described_program, flag_of, is_given, number_of, parse_words, text_of,
    text_option,
};
use std::alloc::{AllocError, Global};

/// What the program is asked to do: how the auction is run, how many users and categories it has,
/// whether a log keeps its rows, and what is written.
#[derive(Drop)]
pub struct Options {
    /// How many workers there are, 1 to 16.
    pub workers: u32,
    /// How many shards there are, 1 to 64.
    pub shards: u32,
    /// How many requests a worker is given in a joined phase, 1 to 1,000,000.
    pub joined: u32,
    /// How many it is given in a split phase, 1 to 1,000,000.
    pub split: u32,
    /// How many accepted stores of a phase make an object hot in the next one, 1 to 1,000,000.
    pub threshold: u32,
    /// How many objects are hot at most, 0 to 64.
    pub hot: u32,
    /// How many users there are, at most 1,000,000.
    pub users: u32,
    /// How many categories there are, at most 1,000,000.
    pub categories: u32,
    /// How many requests are answered at a time at most, while more are to come: at most 1,000,000,
    /// and 0 if all are read first.
    pub live: u32,
    /// Whether a line with a fault ends the input, even if requests are answered while more come.
    pub ends_at_fault: bool,
    /// The name of the log's file, if there is to be a log.
    pub log: Option<String>,
    /// Whether the history is written in place of the replies.
    pub history: bool,
    /// Whether the rows are written in place of the replies, and of the history.
    pub rows: bool,
    /// Whether the report is written after them.
    pub report: bool,
}

impl Options {
    ghost use Rattle.program_opening.specs.Options.{opening_asked, policy_of};

    /// The users and categories of the auction.
    pub fn opening(&self) -> Opening
        ensures { result ≡ opening_asked self.now }
    {
        Opening {
            users: self.users,
            categories: self.categories,
        }
    }

    /// How its run is divided into shards and phases.
    pub fn policy(&self) -> Policy
        ensures { result ≡ policy_of self.now }
    {
        Policy {
            shards: self.shards,
            joined_quota: self.joined,
            split_quota: self.split,
            threshold: self.threshold,
            hot_max: self.hot,
        }
    }
}

const WORKERS: NumberRange = NumberRange {
    least: 1,
    greatest: MOST_WORKERS as u32,
};

const SHARDS: NumberRange = NumberRange {
    least: 1,
    greatest: MOST_SHARDS as u32,
};

const HOT: NumberRange = NumberRange {
    least: 0,
    greatest: MOST_HOT as u32,
};

// `--faults HOW`.
fn described_faults<'a>(alloc: Global) -> Arg<'a>
    ensures rule { rule_of result ≡ file_rule (codes "faults") }
    ensures local { result.global ≡ false }
{
    text_option(alloc, "faults")
        .value_name("HOW")
        .help(FAULTS_HELP)
}

fn command<'a>(alloc: Global) -> Result<Command<'a>, AllocError>
    ensures { IfOk result (λ command. app_of command ≡ program) }
{
    let options = vec![in alloc;
        described_number(alloc, "workers", WORKERS, "1", WORKERS_HELP),
        described_number(alloc, "shards", SHARDS, "4", SHARDS_HELP),
        described_number(alloc, "joined", FROM_ONE, "64", JOINED_HELP),
        described_number(alloc, "split", FROM_ONE, "64", SPLIT_HELP),
        described_number(alloc, "threshold", FROM_ONE, "8", THRESHOLD_HELP),
        described_number(alloc, "hot", HOT, "8", HOT_HELP),
        described_flag(alloc, "fast", FAST_HELP),
        described_number(alloc, "users", FROM_ZERO, "100", USERS_HELP),
        described_number(alloc, "categories", FROM_ZERO, "10", CATEGORIES_HELP),
        described_number(alloc, "live", FROM_ZERO, "0", LIVE_HELP),
        described_faults(alloc),
        described_file(alloc, "log", LOG_HELP),
        described_flag(alloc, "history", HISTORY_HELP),
        described_flag(alloc, "rows", ROWS_HELP),
        described_flag(alloc, "report", REPORT_HELP),
    ]?;
    described_program(alloc, "rubis_auction", DESCRIPTION).args(options)
}

// Why a word for `--faults` is refused.
fn refused_how(alloc: Global, how: &str) -> UsageFault {
    let text = if how == "answer" {
        format!(in alloc; "error: '--faults answer' needs '--live <N>' of at least 1\n{SEE_HELP}")
    } else {
        format!(in alloc; "error: invalid value '{how}' for '--faults <HOW>'\n{HOWS}{SEE_HELP}")
    };
    text.map_or(UsageFault::Memory, UsageFault::Text)
}

// Whether a line with a fault ends the input. It can be answered only while requests come.
fn is_end(alloc: Global, matches: &ArgMatches<'_>, live: u32) -> Result<bool, UsageFault>
    ensures said { IfOk result
        (SaysEnd (first_value (found_of matches.now) (codes "faults")) live) }
    ensures refused { IfErr result (λ fault. (ends : Bool) →
        SaysEnd (first_value (found_of matches.now) (codes "faults")) live ends →
        fault ≡ UsageFault.Memory) }
{
    let Some(how) = matches.get_str("faults") else {
        return Ok(false);
    };
    if how == "end" {
        return Ok(true);
    }
    if how == "answer" && live > 0 {
        return Ok(false);
    }
    Err(refused_how(alloc, how))
}

// Whether `--fast` says the number of an option: the words do not give the option.
fn is_fast(matches: &ArgMatches<'_>, id: &str) -> bool
    ensures { result ≡ is_fast (one_text (found_of matches.now)) (is_given (found_of matches.now))
        id.now }
{
    flag_of(matches, "fast") && !is_given(matches, id)
}

// The number of an option: this one if `--fast` says it.
fn number_or(matches: &ArgMatches<'_>, id: &str, range: NumberRange, fast: u32) -> u32
    ensures fast { is_fast (one_text (found_of matches.now)) (is_given (found_of matches.now))
        id.now ≡ true → result ≡ fast }
    ensures said { is_fast (one_text (found_of matches.now)) (is_given (found_of matches.now))
        id.now ≡ false → SaysNumber range.least range.greatest
        (one_text (found_of matches.now) id.now) result }
    ensures least { range.least ≤ fast → range.least ≤ result }
    ensures greatest { fast ≤ range.greatest → result ≤ range.greatest }
{
    if is_fast(matches, id) {
        return fast;
    }
    number_of(matches, id, range)
}

fn options_of(alloc: Global, matches: &ArgMatches<'_>) -> Result<Options, UsageFault>
    ensures given { IfOk result (λ options. HaveNumbers program (one_text (found_of matches.now)) →
        SayOptions (one_text (found_of matches.now)) (first_value (found_of matches.now))
        (is_given (found_of matches.now)) options) }
    ensures range { IfOk result AreInRange }
    ensures memory { IfErr result (λ fault. HaveNumbers program (one_text (found_of matches.now)) →
        (ends : Bool) → SaysEnd (first_value (found_of matches.now) (codes "faults"))
        (number_of (one_text (found_of matches.now) (codes "live"))) ends →
        fault ≡ UsageFault.Memory) }
{
    let live = number_of(matches, "live", FROM_ZERO);
    let ends_at_fault = is_end(alloc, matches, live)?;
    let log = text_of(alloc, matches, "log")?;
    let workers = number_of(matches, "workers", WORKERS);
    let fast = Policy::for_throughput(workers);
    Ok(Options {
        workers,
        shards: number_or(matches, "shards", SHARDS, fast.shards),
        joined: number_or(matches, "joined", FROM_ONE, fast.joined_quota),
        split: number_or(matches, "split", FROM_ONE, fast.split_quota),
        threshold: number_of(matches, "threshold", FROM_ONE),
        hot: number_of(matches, "hot", HOT),
        users: number_of(matches, "users", FROM_ZERO),
        categories: number_of(matches, "categories", FROM_ZERO),
        live,
        ends_at_fault,
        log,
        history: flag_of(matches, "history"),
        rows: flag_of(matches, "rows"),
        report: flag_of(matches, "report"),
    })
}

/// The options that the words give, the first of which is the program's name. If they say nothing
/// else: one worker, 4 shards, phases of 64 requests, the threshold 8, 8 hot objects, 100 users, 10
/// categories, all requests are read first, there is no log, and only the replies are written.
/// With `--fast` the shards and the phases are those of `Policy::for_throughput`, but for what the
/// words give themselves. Words that are refused, or that ask for help, are answered in `clap`'s
/// words.
pub fn read_options(alloc: Global, words: &[String]) -> Result<Options, UsageFault>
    ensures given { IfOk result (SayOptions (text_in program (map string_bytes words.now))
        (value_in program (map string_bytes words.now))
        (given_in program (map string_bytes words.now))) }
    ensures range { IfOk result AreInRange }
    ensures taken { OnOk result (AreTaken program (map string_bytes words.now)) }
    ensures memory { IfErr result (λ fault. AreTaken program (map string_bytes words.now) →
        (ends : Bool) → SaysEnd (value_in program (map string_bytes words.now) (codes "faults"))
        (number_of (text_in program (map string_bytes words.now) (codes "live"))) ends →
        fault ≡ UsageFault.Memory) }
{
    let Ok(command) = command(alloc) else {
        return Err(UsageFault::Memory);
    };
    let matches = parse_words(alloc, command, words)?;
    options_of(alloc, &matches)
}

// What the program says of itself and of its options.
const DESCRIPTION: Description<'static> = Description {
    about: "\
Performs the scripts of up to 16 workers on an auction in memory, and writes the replies.",
    usage: "rubis_auction [OPTIONS] < INPUT",
    after: FORMATS,
};

const WORKERS_HELP: &str = "Workers, each with a script in the input, 1 to 16";

const SHARDS_HELP: &str = "Parts of the data, each held by one worker at a time, 1 to 64";

const JOINED_HELP: &str = "Requests of each worker in a joined phase, 1 to 1000000";

const SPLIT_HELP: &str = "Requests of each worker in a split phase, 1 to 1000000";

const THRESHOLD_HELP: &str =
    "New items, bids and comments on an object in a joined phase that make it hot, 1 to 1000000";

const HOT_HELP: &str = "Objects that may be hot, and are split, at a time, 0 to 64";

const FAST_HELP: &str =
    "For speed, with W workers: --shards 4*W --joined 64 --split 4096, each unless it is given";

const USERS_HELP: &str = "Users of the auction, 0 to 1000000";

const CATEGORIES_HELP: &str = "Categories of the auction, 0 to 1000000";

const LIVE_HELP: &str =
    "Reply while requests come, to at most N at a time, 0 to 1000000; 0 reads all first";

const FAULTS_HELP: &str =
    "With --live, 'answer' each line with a fault (the default), or 'end' the input there";

// The words that `--faults` takes, told as `clap` tells them.
const HOWS: &str = "  [possible values: answer, end]\n";

const SEE_HELP: &str = "\nFor more information, try '--help'.\n";

const LOG_HELP: &str =
    "File that keeps the rows, each before its reply is written; the auction opens with them";

const HISTORY_HELP: &str = "Write the history, in the serial order, instead of the replies";

const ROWS_HELP: &str = "Write the rows, from which a later run can continue, instead of either";

const REPORT_HELP: &str = "Then also write a report of counts, hot sets, categories and users";

// What is read and written.
const FORMATS: &str = "\
Reads one record per line from standard input; ITEM is an item's worker and serial, such as 0.0:
  WORKER,item,SELLER,CATEGORY,NAME,START,CLOSES,TIME[,QUANTITY]
  WORKER,bid,BIDDER,ITEM,AMOUNT,TIME
  WORKER,comment,AUTHOR,ABOUT,ITEM,STARS
  WORKER,buynow,BUYER,ITEM,QUANTITY,TIME
  WORKER,viewitem,ITEM
  WORKER,viewbids,ITEM
  WORKER,viewcategory,CATEGORY
  WORKER,viewuser,USER
Rows that open the auction come first; their kinds are +item, +bid, +comment and +buynow.

Writes one line per request to standard output, WORKER,INDEX,REPLY: after all are performed, or
with --live while more requests come.
Faults, this help and the version go to standard error.
Status: 0 all written, 1 options or help, 2 input, 3 run, 4 output, 5 log.
A refused request is no fault: its reply says why.

The defaults are for small inputs: phases are short, and --history shows how they alternate.
Phases of at most 128 requests a worker, or with half of them on one shard, run on one thread.
For speed use --fast; views of busy items then wait longer for the next joined phase.
Options given beside --fast win: --fast --split 1024.

Examples:
  rubis_auction < first.csv
  rubis_auction --workers 4 --fast < load.csv > replies.txt";
