//! The bank: its accounts, and the requests that name one or two of them.
ghost use Rattle.std.specs.{List.{AllByRecursion}, Prelude.{◌≡◌, ◌*◌, ◌≤◌}};
ghost use Rattle.example_bank.specs.Model.{deposited, unchanged, transferred, IsSmall};

use application_check::Checkable;
use split_engine::{Application, Decision, Few};

/// What the bank is asked.
#[derive(Clone, Copy)]
pub enum BankRequest {
    /// To put an amount into an account, if it is open.
    Deposit { to: u32, amount: u32 },
    /// To take an amount from one account to another, if both are open and it is there.
    Transfer { from: u32, to: u32, amount: u32 },
    /// What is in an account.
    Balance { of: u32 },
    /// To close an account for good.
    Close { of: u32 },
}

/// What the bank answers.
#[derive(Clone, Copy, PartialEq, Eq, Debug)]
pub enum BankReply {
    Done,
    /// An account is closed.
    Closed,
    /// The amount is not there.
    NotEnough,
    /// This is in the account.
    Holds(u64),
}

/// What is done to an account.
#[derive(Clone, Copy)]
pub enum Change {
    Add(u32),
    Take(u32),
    Shut,
}

/// What is kept of an account.
#[derive(Clone, Copy)]
pub struct Account {
    /// What is in it.
    pub held: u64,
    /// Whether it takes deposits and transfers.
    pub is_open: bool,
}

/// The bank. A slice of an account is what a worker deposited into it.
pub struct Bank;

// Nothing is done.
fn unchanged(reply: BankReply) -> Decision<BankReply, Change>
    ensures value { result ≡ unchanged reply }
    ensures small { AllByRecursion IsSmall result.acts }
{
    Decision {
        reply,
        acts: Few::none(),
    }
}

// A deposit into an account.
fn deposited(to: Account, amount: u32) -> Decision<BankReply, Change>
    ensures value { result ≡ deposited to amount }
    ensures small { AllByRecursion IsSmall result.acts }
{
    if !to.is_open {
        return unchanged(BankReply::Closed);
    }
    Decision {
        reply: BankReply::Done,
        acts: Few::one(Change::Add(amount)),
    }
}

// A transfer from one account to another.
fn transferred(from: Account, to: Account, amount: u32) -> Decision<BankReply, Change>
    ensures value { result ≡ transferred from to amount }
    ensures small { AllByRecursion IsSmall result.acts }
{
    if !from.is_open {
        return unchanged(BankReply::Closed);
    }
    if !to.is_open {
        return unchanged(BankReply::Closed);
    }
    if from.held < amount as u64 {
        return unchanged(BankReply::NotEnough);
    }
    Decision {
        reply: BankReply::Done,
        acts: Few::two(Change::Take(amount), Change::Add(amount)),
    }
}

impl Application for Bank {
    ghost use Rattle.example_bank.specs.{Laws.{bank_laws}, Model.{bank, Fits, SliceFits, IsSmall}};

    type Record = Account;

    type Slice = u64;

    type Look = Account;

    type Request = BankRequest;

    type Reply = BankReply;

    type Act = Change;

    ghost rules = { bank };

    ghost fits = { Fits };

    ghost slice_fits = { SliceFits };

    ghost is_small = { IsSmall };

    ghost laws = { bank_laws };

    fn keys(request: &BankRequest) -> Few<u32> {
        match *request {
            BankRequest::Transfer { from, to, .. } => Few::two(from, to),
            BankRequest::Deposit { to: of, .. }
            | BankRequest::Balance { of }
            | BankRequest::Close { of } => Few::one(of),
        }
    }

    fn look(held: &Account) -> Account {
        *held
    }

    fn decide(request: &BankRequest, looks: &Few<Account>) -> Decision<BankReply, Change> {
        let request = *request;
        match request {
            BankRequest::Deposit { amount, .. } => deposited(looks.at(0), amount),
            BankRequest::Transfer { amount, .. } => transferred(looks.at(0), looks.at(1), amount),
            BankRequest::Balance { .. } => unchanged(BankReply::Holds(looks.at(0).held)),
            BankRequest::Close { .. } => Decision {
                reply: BankReply::Done,
                acts: Few::one(Change::Shut),
            },
        }
    }

    fn splits(request: &BankRequest) -> bool {
        matches!(*request, BankRequest::Deposit { .. })
    }

    fn apply(held: &mut Account, act: Change) {
        match act {
            Change::Add(amount) => held.held += amount as u64,
            Change::Take(amount) => held.held = held.held.saturating_sub(amount as u64),
            Change::Shut => held.is_open = false,
        }
    }

    fn empty_slice() -> u64 {
        0
    }

    fn apply_to_slice(slice: &mut u64, act: Change) {
        if let Change::Add(amount) = act {
            *slice += amount as u64;
        }
    }

    fn merge(held: &mut Account, slice: u64) {
        held.held += slice;
    }
}

impl Checkable for Bank {
    fn is_same_reply(told: &BankReply, given: &BankReply) -> bool {
        *told == *given
    }
}
