//! What the programs' options have in common: numbers of a range, texts and flags, their help, what
//! `clap` finds in a program's words, and why words are refused.
#![tactic(auto)]

mod options;
mod words;

pub use options::{
    Description, FROM_ONE, FROM_ZERO, MOST_ASKED, NumberRange, VERSION, described_file,
    described_flag, described_number, described_program, flag, flag_of, is_given, number_of,
    number_option, text_of, text_option,
};
pub use words::{UsageFault, parse_words, program_words, words_fault};
