//! Options that take a number or a text, and flags; programs and options with what help says of
//! them.
ghost use Rattle.std.specs.Prelude.{◌≡◌, ◌≤◌, IfErr, IfOk, false, option_map, pos, string_bytes};
ghost use Rattle.clap.specs.Words.{first_value, found_of, one_text, rule_of, app_of};
ghost use Rattle.clap.specs.declared.builder.value_parser.ValueParser.TheVariants as vp;
ghost use Rattle.program_options.specs.Options.{SaysNumber, flag_rule, is_given, is_set, number_rule, text_rule, file_rule, named_rule, versioned_program};
ghost use Rattle.program_options.specs.declared.words.UsageFault.{UsageFault};

use crate::words::UsageFault;
use clap::builder::ValueParser;
use clap::parser::ValueSource;
use clap::{Arg, ArgAction, ArgMatches, Command};
use std::alloc::Global;

/// The greatest number that an option takes where nothing else limits it: of users, categories,
/// items, or requests of a phase.
pub const MOST_ASKED: u32 = 1_000_000;

/// The least and the greatest number that an option takes.
#[derive(Clone, Copy)]
pub struct NumberRange {
    /// The least one.
    pub least: u32,
    /// The greatest one.
    pub greatest: u32,
    ghost ordered: { least ≤ greatest },
}

/// The numbers from 0 to `MOST_ASKED`.
pub const FROM_ZERO: NumberRange = NumberRange {
    least: 0,
    greatest: MOST_ASKED,
};

/// The numbers from 1 to `MOST_ASKED`.
pub const FROM_ONE: NumberRange = NumberRange {
    least: 1,
    greatest: MOST_ASKED,
};

/// `--id NUMBER`, with a number of a range; the usual one where the words don't have it.
pub fn number_option<'a>(alloc: Global, id: &'a str, range: NumberRange, usual: &'a str) -> Arg<'a>
    ensures rule { rule_of result ≡ number_rule id.entry.now range.least range.greatest usual.entry.now }
    ensures local { result.global ≡ false }
{
    Arg::new(alloc, id)
        .long(id)
        .action(ArgAction::Set)
        .value_parser(number_parser(range))
        .default_value(usual)
}

/// Reads a number of a range.
fn number_parser<'a>(range: NumberRange) -> ValueParser<'a>
    ensures { result ≡ vp.Signed (pos range.least) (pos range.greatest) }
{
    let parser = clap::value_parser!(u32);
    parser.range(i64::from(range.least)..=i64::from(range.greatest))
}

/// `--id`, which is there or not.
pub fn flag<'a>(alloc: Global, id: &'a str) -> Arg<'a>
    ensures rule { rule_of result ≡ flag_rule id.entry.now }
    ensures local { result.global ≡ false }
{
    Arg::new(alloc, id).long(id).action(ArgAction::SetTrue)
}

/// `--id TEXT`, which need not be there.
pub fn text_option<'a>(alloc: Global, id: &'a str) -> Arg<'a>
    ensures rule { rule_of result ≡ text_rule id.entry.now }
    ensures local { result.global ≡ false }
{
    Arg::new(alloc, id).long(id).action(ArgAction::Set)
}

/// The number of an option. Where its parser found it to be in the range, it is the one that its
/// text says.
pub fn number_of(matches: &ArgMatches<'_>, id: &str, range: NumberRange) -> u32
    ensures least { range.least ≤ result }
    ensures greatest { result ≤ range.greatest }
    ensures said { SaysNumber range.least range.greatest (one_text (found_of matches.now) id.now) result }
{
    matches
        .get_one::<u32>(id)
        .unwrap_or(range.least)
        .clamp(range.least, range.greatest)
}

/// The text of an option, if it is there.
pub fn text_of(
    alloc: Global,
    matches: &ArgMatches<'_>,
    id: &str,
) -> Result<Option<String>, UsageFault>
    ensures said { IfOk result (λ text. option_map string_bytes text ≡ first_value (found_of matches.now) id.now) }
    ensures memory { IfErr result (λ fault. fault ≡ UsageFault.Memory) }
{
    let Some(text) = matches.get_str(id) else {
        return Ok(None);
    };
    match text.to_owned(alloc) {
        Ok(owned) => Ok(Some(owned)),
        Err(_) => Err(UsageFault::Memory),
    }
}

/// Whether a flag is there.
pub fn flag_of(matches: &ArgMatches<'_>, id: &str) -> bool
    ensures { result ≡ is_set (one_text (found_of matches.now) id.now) }
{
    matches.get_one(id).unwrap_or(false)
}

/// Whether the words give an option: if not, its text is the usual one.
pub fn is_given(matches: &ArgMatches<'_>, id: &str) -> bool
    ensures { result ≡ is_given (found_of matches.now) id.now }
{
    matches.value_source(id) == Some(ValueSource::CommandLine)
}

/// What `--version` prints after a program's name.
pub const VERSION: &str = "0.1.0";

/// What a program says of itself in its help.
#[derive(Clone, Copy)]
pub struct Description<'a> {
    /// What it does.
    pub about: &'a str,
    /// How it is called.
    pub usage: &'a str,
    /// What stands after the options: formats, exit statuses and examples.
    pub after: &'a str,
}

/// A program without its options: it has a version and a description.
pub fn described_program<'a>(
    alloc: Global,
    name: &'a str,
    description: Description<'a>,
) -> Command<'a>
    ensures { app_of result ≡ versioned_program name.entry.now }
{
    Command::new(alloc, name)
        .version(VERSION)
        .about(description.about)
        .override_usage(description.usage)
        .after_help(description.after)
}

/// `--id N`, with a number of a range; the usual one where the words don't have it.
pub fn described_number<'a>(
    alloc: Global,
    id: &'a str,
    range: NumberRange,
    usual: &'a str,
    help: &'a str,
) -> Arg<'a>
    ensures rule { rule_of result ≡ named_rule id.entry.now range.least range.greatest usual.entry.now }
    ensures local { result.global ≡ false }
{
    number_option(alloc, id, range, usual)
        .value_name("N")
        .help(help)
}

/// `--id FILE`, with the name of a file, which need not be there.
pub fn described_file<'a>(alloc: Global, id: &'a str, help: &'a str) -> Arg<'a>
    ensures rule { rule_of result ≡ file_rule id.entry.now }
    ensures local { result.global ≡ false }
{
    text_option(alloc, id).value_name("FILE").help(help)
}

/// `--id`, which is there or not.
pub fn described_flag<'a>(alloc: Global, id: &'a str, help: &'a str) -> Arg<'a>
    ensures rule { rule_of result ≡ flag_rule id.entry.now }
    ensures local { result.global ≡ false }
{
    flag(alloc, id).help(help)
}
