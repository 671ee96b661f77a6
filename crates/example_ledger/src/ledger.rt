//! A ledger of accounts, whose requests are lines of a log.
ghost use Rattle.std.specs.List.{list_all, AllByRecursion};
ghost use Rattle.std.specs.Prelude.{◌≡◌, ◌++◌, ◌<◌, ◌^◌, ℕ, List, Some, IsSomeAnd, IsUtf8, OnOk, codes, decimal};
ghost use Rattle.example_ledger.specs.Log.{begins, is_of_numbers, numbers, words, HasNoBlank};
ghost use Rattle.example_ledger.specs.Model.{refused, taken, IsSmall};
ghost use Rattle.example_ledger.specs.declared.ledger.LedgerRequest.TheVariants.{Add, Take};

use application_log::Loggable;
use itoa::Buffer;
use split_engine::{Application, Decision, Few};
use std::alloc::AllocError;
use std::str;

/// What the ledger is asked.
#[derive(Clone, Copy)]
pub enum LedgerRequest {
    /// To add an amount to an account.
    Add { to: u32, amount: u32 },
    /// To take an amount from an account, if it is there.
    Take { from: u32, amount: u32 },
    /// What an account holds.
    Held { of: u32 },
}

/// What the ledger answers.
#[derive(Clone, Copy, PartialEq, Eq, Debug)]
pub enum LedgerReply {
    Done,
    /// The amount is not there.
    NotEnough,
    /// The account holds this.
    Holds(u64),
}

/// What is done to an account.
#[derive(Clone, Copy)]
pub enum Change {
    Plus(u32),
    Minus(u32),
}

/// The ledger. A slice of an account is what a worker added to it.
pub struct Ledger;

// The most bytes that a line has, without its end: a word of four letters and two u32.
const LONGEST: usize = 26;

// Nothing is done.
fn refused(reply: LedgerReply) -> Decision<LedgerReply, Change>
    ensures value { result ≡ refused reply }
    ensures small { AllByRecursion IsSmall result.acts }
{
    Decision {
        reply,
        acts: Few::none(),
    }
}

// An amount that is taken from what an account holds.
fn taken(held: u64, amount: u32) -> Decision<LedgerReply, Change>
    ensures value { result ≡ taken held amount }
    ensures small { AllByRecursion IsSmall result.acts }
{
    if held < amount as u64 {
        return refused(LedgerReply::NotEnough);
    }
    Decision {
        reply: LedgerReply::Done,
        acts: Few::one(Change::Minus(amount)),
    }
}

impl Application for Ledger {
    ghost use Rattle.example_ledger.specs.Laws.{ledger_laws};
    ghost use Rattle.example_ledger.specs.Model.{ledger, Fits, SliceFits, IsSmall};

    type Record = u64;

    type Slice = u64;

    type Look = u64;

    type Request = LedgerRequest;

    type Reply = LedgerReply;

    type Act = Change;

    ghost rules = { ledger };

    ghost fits = { Fits };

    ghost slice_fits = { SliceFits };

    ghost is_small = { IsSmall };

    ghost laws = { ledger_laws };

    fn keys(request: &LedgerRequest) -> Few<u32> {
        match *request {
            LedgerRequest::Add { to: of, .. }
            | LedgerRequest::Take { from: of, .. }
            | LedgerRequest::Held { of } => Few::one(of),
        }
    }

    fn look(held: &u64) -> u64 {
        *held
    }

    fn decide(request: &LedgerRequest, looks: &Few<u64>) -> Decision<LedgerReply, Change> {
        let request = *request;
        match request {
            LedgerRequest::Add { amount, .. } => Decision {
                reply: LedgerReply::Done,
                acts: Few::one(Change::Plus(amount)),
            },
            LedgerRequest::Take { amount, .. } => taken(looks.at(0), amount),
            LedgerRequest::Held { .. } => refused(LedgerReply::Holds(looks.at(0))),
        }
    }

    fn splits(request: &LedgerRequest) -> bool {
        matches!(*request, LedgerRequest::Add { .. })
    }

    fn apply(held: &mut u64, act: Change) {
        match act {
            Change::Plus(amount) => *held += amount as u64,
            Change::Minus(amount) => *held = held.saturating_sub(amount as u64),
        }
    }

    fn empty_slice() -> u64 {
        0
    }

    fn apply_to_slice(slice: &mut u64, act: Change) {
        if let Change::Plus(amount) = act {
            *slice += amount as u64;
        }
    }

    fn merge(held: &mut u64, slice: u64) {
        *held += slice;
    }
}

// Appends a word and two numbers.
fn write_words(
    buffer: &mut Vec<u8>,
    word: &str,
    account: u32,
    amount: u32,
) -> Result<(), AllocError>
    ensures text { OnOk result (buffer.new.items
        ≡ buffer.old.items ++ words word.now account amount) }
    ensures account { account < 2 ^ 32 }
    ensures amount { amount < 2 ^ 32 }
{
    buffer.extend_from_slice(word.as_bytes())?;
    buffer.push(b' ')?;
    buffer.extend_from_slice(Buffer::new().format(account).as_bytes())?;
    buffer.push(b' ')?;
    buffer.extend_from_slice(Buffer::new().format(amount).as_bytes())?;
    Ok(())
}

// A number.
fn number(text: &str) -> Option<u32>
    ensures { (n : ℕ) → n < 2 ^ 32 → text.now ≡ decimal n → result ≡ Some n }
{
    text.parse::<u32>().ok()
}

// The two numbers of a text.
fn two_numbers(text: &str) -> Option<(u32, u32)>
    ensures { (account amount : ℕ) → account < 2 ^ 32 → amount < 2 ^ 32 →
        text.now ≡ numbers account amount → result ≡ Some (account, amount) }
{
    let (first, second) = text.split_once(' ')?;
    let account = number(first)?;
    let amount = number(second)?;
    Some((account, amount))
}

// The word and the two numbers of a text.
fn words_of(text: &str) -> Option<(&str, u32, u32)>
    ensures { (word : List ℕ) (account amount : ℕ) → account < 2 ^ 32 → amount < 2 ^ 32 →
        HasNoBlank word → text.now ≡ words word account amount →
        IsSomeAnd result (λ found.
        (found.0.now ≡ word) × (found.1 ≡ account) × (found.2 ≡ amount)) }
{
    let (word, rest) = text.split_once(' ')?;
    let (account, amount) = two_numbers(rest)?;
    Some((word, account, amount))
}

// A line as a text, if it is one.
fn text_of(line: &[u8]) -> Option<&str>
    ensures { IsUtf8 line.now → IsSomeAnd result (λ text. text.now ≡ line.now) }
{
    let Ok(text) = str::from_utf8(line) else {
        return None;
    };
    Some(text)
}

// The request of a word and two numbers.
fn request_of(word: &str, account: u32, amount: u32) -> Option<LedgerRequest>
    ensures add { word.now ≡ codes "add" → result ≡ Some (Add account amount) }
    ensures take { word.now ≡ codes "take" → result ≡ Some (Take account amount) }
{
    match word {
        "add" => Some(LedgerRequest::Add {
            to: account,
            amount,
        }),
        "take" => Some(LedgerRequest::Take {
            from: account,
            amount,
        }),
        _ => None,
    }
}

/// The request of a line of standard input: `add` or `take` with an account and an amount, or `held`
/// with an account.
pub fn read_request(line: &str) -> Option<LedgerRequest> {
    if let Some(account) = line.strip_prefix("held ") {
        return number(account).map(|of| LedgerRequest::Held { of });
    }
    let (word, account, amount) = words_of(line)?;
    request_of(word, account, amount)
}

// Whether a byte is of a number, or the blank before one.
fn is_of_numbers(byte: u8) -> bool
    ensures { result ≡ is_of_numbers byte }
{
    byte.is_ascii_digit() || byte == b' '
}

// Whether each byte is of numbers.
fn are_of_numbers(bytes: &[u8]) -> bool
    ensures { result ≡ list_all is_of_numbers bytes.now }
{
    bytes.iter().all(|byte| is_of_numbers(*byte))
}

// Whether bytes may be the beginning of this word and two numbers.
fn begins(word: &[u8], text: &[u8]) -> bool
    ensures { result ≡ begins word.now text.now }
{
    if text.starts_with(word) {
        are_of_numbers(&text[word.len()..])
    } else {
        word.starts_with(text)
    }
}

impl Loggable for Ledger {
    ghost use Rattle.example_ledger.specs.Log.{line_of, is_cut, IsInRange};
    ghost use Rattle.example_ledger.specs.LogLaws.{ledger_one_line, ledger_cut_anywhere, ledger_does_nothing};

    ghost line = { line_of };

    ghost is_in_range = { IsInRange };

    ghost is_cut = { is_cut };

    fn write_line(request: &LedgerRequest, buffer: &mut Vec<u8>) -> Result<bool, AllocError> {
        match *request {
            LedgerRequest::Add { to, amount } => write_words(buffer, "add", to, amount)?,
            LedgerRequest::Take { from, amount } => write_words(buffer, "take", from, amount)?,
            LedgerRequest::Held { .. } => return Ok(false),
        }
        Ok(true)
    }

    fn read_line(text: &[u8]) -> Option<LedgerRequest> {
        let line = text_of(text)?;
        let (word, account, amount) = words_of(line)?;
        request_of(word, account, amount)
    }

    fn is_cut_line(text: &[u8]) -> bool {
        text.len() <= LONGEST && (begins(b"add ", text) || begins(b"take ", text))
    }

    ghost cut_anywhere = { ledger_cut_anywhere };

    ghost one_line = { ledger_one_line };

    ghost does_nothing = { ledger_does_nothing };
}
