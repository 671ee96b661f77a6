//! The options of the program, and the load that they ask for.
ghost use Rattle.std.specs.Prelude.{◌+◌, ◌≤◌};
ghost use Rattle.auction_rows.specs.declared.limits.TheConstants.{MOST_ROWS};
ghost use Rattle.program_options.specs.declared.options.TheConstants.{MOST_ASKED};

use crate::faults::Fault;
use auction_rows::{MOST_OF_A_WORKER, MOST_ROWS, MOST_WORKERS};
use clap::{Arg, ArgAction, ArgMatches, Command};
use program_options::{
    Description, FROM_ONE, NumberRange, UsageFault, described_number, described_program, number_of,
    parse_words,
};
use std::alloc::{AllocError, Global};

const REQUESTS: NumberRange = NumberRange {
    least: 0,
    greatest: MOST_ROWS as u32,
};

const WORKERS: NumberRange = NumberRange {
    least: 1,
    greatest: MOST_WORKERS as u32,
};

const SKEWS: NumberRange = NumberRange {
    least: 0,
    greatest: 200,
};

const SHARES: NumberRange = NumberRange {
    least: 0,
    greatest: 100,
};

/// The shares of the kinds of requests in percent. The rest are bids.
#[derive(Clone, Copy)]
pub struct Mix {
    /// The views, of the four kinds alike.
    pub views: u32,
    /// The comments.
    pub comments: u32,
    /// The purchases.
    pub purchases: u32,
    /// The items that requests put up.
    pub new_items: u32,
    ghost whole: { views + comments + purchases + new_items ≤ 100 },
}

/// What a load is made of.
#[derive(Clone, Copy)]
pub struct Plan {
    /// The requests, 0 to 16,000,000.
    pub requests: u32,
    /// The workers, 1 to 16.
    pub workers: u32,
    /// The items that rows store before the first request, 1 to 1,000,000.
    pub items: u32,
    /// The users, 1 to 1,000,000.
    pub users: u32,
    /// The categories, 1 to 1,000,000.
    pub categories: u32,
    /// The exponent of Zipf's law of the items, in hundredths, 0 to 200: 0 makes all items alike.
    pub skew: u32,
    /// The shares of the kinds of requests.
    pub mix: Mix,
    /// Where the draws begin: one seed gives one load.
    pub seed: u64,
    ghost requests_limit: { requests ≤ MOST_ROWS },
    ghost some_workers: { 1 ≤ workers },
    ghost some_items: { 1 ≤ items },
    ghost items_limit: { items ≤ MOST_ASKED },
    ghost some_users: { 1 ≤ users },
    ghost some_categories: { 1 ≤ categories },
}

fn command<'a>(alloc: Global) -> Result<Command<'a>, AllocError> {
    let seed = Arg::new(alloc, "seed")
        .long("seed")
        .action(ArgAction::Set)
        .value_parser(clap::value_parser!(u64))
        .default_value("1");
    let options = vec![in alloc;
        described_number(alloc, "requests", REQUESTS, "1000", REQUESTS_HELP),
        described_number(alloc, "workers", WORKERS, "1", WORKERS_HELP),
        described_number(alloc, "items", FROM_ONE, "100", ITEMS_HELP),
        described_number(alloc, "users", FROM_ONE, "100", USERS_HELP),
        described_number(alloc, "categories", FROM_ONE, "10", CATEGORIES_HELP),
        described_number(alloc, "skew", SKEWS, "0", SKEW_HELP),
        described_number(alloc, "views", SHARES, "85", VIEWS_HELP),
        described_number(alloc, "comments", SHARES, "3", COMMENTS_HELP),
        described_number(alloc, "purchases", SHARES, "2", PURCHASES_HELP),
        described_number(alloc, "new-items", SHARES, "2", NEW_ITEMS_HELP),
        seed.value_name("N").help(SEED_HELP),
    ]?;
    described_program(alloc, "rubis_load", DESCRIPTION).args(options)
}

fn mix_of(matches: &ArgMatches<'_>) -> Option<Mix> {
    let views = number_of(matches, "views", SHARES);
    let comments = number_of(matches, "comments", SHARES);
    let purchases = number_of(matches, "purchases", SHARES);
    let new_items = number_of(matches, "new-items", SHARES);
    if views + comments + purchases + new_items > 100 {
        return None;
    }
    Some(Mix {
        views,
        comments,
        purchases,
        new_items,
    })
}

// The rows and requests of the first worker, who has the most: both are dealt out to the workers in
// turn.
fn most_of_a_worker(items: u32, requests: u32, workers: u32) -> u64
    requires { 1 ≤ workers }
{
    u64::from(items.div_ceil(workers)) + u64::from(requests.div_ceil(workers))
}

fn plan_of(matches: &ArgMatches<'_>) -> Result<Plan, Fault> {
    let requests = number_of(matches, "requests", REQUESTS);
    let workers = number_of(matches, "workers", WORKERS);
    let items = number_of(matches, "items", FROM_ONE);
    if most_of_a_worker(items, requests, workers) > MOST_OF_A_WORKER {
        return Err(Fault::TooLong);
    }
    let Some(mix) = mix_of(matches) else {
        return Err(Fault::Shares);
    };
    Ok(Plan {
        requests,
        workers,
        items,
        users: number_of(matches, "users", FROM_ONE),
        categories: number_of(matches, "categories", FROM_ONE),
        skew: number_of(matches, "skew", SKEWS),
        mix,
        seed: matches.get_one::<u64>("seed").unwrap_or(1),
    })
}

/// The load that the words ask for, the first of which is the program's name. Where they say
/// nothing else: 1,000 requests of one worker, 100 items, 100 users, 10 categories, no skew, the
/// bidding mix and the seed 1. Words that are refused, or that ask for help, are answered in
/// `clap`'s words; then come `TooLong` and `Shares`, in this order.
pub fn read_plan(alloc: Global, words: &[String]) -> Result<Plan, Fault> {
    let Ok(command) = command(alloc) else {
        return Err(Fault::Usage(UsageFault::Memory));
    };
    match parse_words(alloc, command, words) {
        Ok(matches) => plan_of(&matches),
        Err(fault) => Err(Fault::Usage(fault)),
    }
}

// What the program says of itself and of its options.
const DESCRIPTION: Description<'static> = Description {
    about: "Writes a load for rubis_auction: rows with items, then requests of all workers.",
    usage: "rubis_load [OPTIONS] > OUTPUT",
    after: "\
All other requests are bids. The same options give the same bytes.
Reads nothing. Writes a record per line to standard output, in the format that rubis_auction reads;
give that program at least the same --workers, --users and --categories.
Faults, this help and the version go to standard error.
Status: 0 all written, 1 options or help, 3 no memory, 4 output or memory.

Examples:
  rubis_load --workers 4 --requests 100000 --skew 100 > load.csv
  rubis_load --items 1 --views 0 --comments 0 --purchases 0 --new-items 0 > bids.csv",
};

const REQUESTS_HELP: &str = "Requests, 0 to 16000000";

const WORKERS_HELP: &str = "Workers that get the requests in turn, 1 to 16";

const ITEMS_HELP: &str = "Items, each in a row at the beginning, 1 to 1000000";

const USERS_HELP: &str = "Users, 1 to 1000000";

const CATEGORIES_HELP: &str = "Categories, 1 to 1000000";

const SKEW_HELP: &str =
    "Exponent of Zipf's law for items, in hundredths (100 is exponent 1), 0 to 200";

const VIEWS_HELP: &str = "Percentage of views, 0 to 100";

const COMMENTS_HELP: &str = "Percentage of comments, 0 to 100";

const PURCHASES_HELP: &str = "Percentage of purchases, 0 to 100";

const NEW_ITEMS_HELP: &str = "Percentage of new items, 0 to 100";

const SEED_HELP: &str = "Seed of the draws, 0 to 18446744073709551615";
