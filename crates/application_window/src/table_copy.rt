//! The table that windows read, of which there are two copies, and how a copy takes in one part
//! more.
ghost use Rattle.std.specs.List.{AllByRecursion};
ghost use Rattle.std.specs.Prelude.{◌≡◌, ℕ, ◌++◌, ◌∷◌, ◌+◌, ◌*◌, ◌<◌, ◌≤◌, [], List, length, IfSome};
ghost use mathlib.Core.List.{IsPrefix};
ghost use Rattle.split_engine.specs.Rules.{most_acts};
ghost use Rattle.split_engine.specs.Serial.{IsWithin, table_after, record_at, reply};
ghost use Rattle.split_engine.specs.Serving.{total};
ghost use Rattle.application_window.specs.Published.{table_of, AreWithin};
ghost use Rattle.application_window.specs.inner.Copies.{IsLastPart, Shows};

use crate::parts::{Part, Prefix, WindowName};
use crate::window::Seen;
use left_right::Absorb;
use split_engine::{Application, Entry, MOST_KEYS, looks_at, perform};
use std::alloc::AllocError;
use std::marker::Model;

/// How many acts a record may have, with those before the first part.
pub(crate) const MOST_ACTS: u64 = 1 << 32;

/// The operation on a copy: the commits of one part, with the parts up to it. Contracts see these
/// parts.
#[derive(Drop)]
pub struct AddPart<A: Application, J: WindowName<A::Record>> {
    commits: Vec<Entry<A::Request, A::Reply>>,
    parts: Prefix<A, J>,
}

impl<A: Application, J: WindowName<A::Record>> Model for AddPart<A, J> {
    ghost use Rattle.std.specs.Prelude.{List};
    ghost use Rattle.split_engine.specs.declared.entry.Entry.{Entry as Commit};
    ghost use Rattle.application_window.specs.inner.Copies.{IsLastPart};

    ghost Value = { List (List (Commit A.Request A.Reply)) };

    ghost view = { λ a. a.parts };

    ghost invariant = { λ a. IsLastPart A.rules J.opened a.commits.items a.parts };
}

impl<A: Application, J: WindowName<A::Record>> AddPart<A, J> {
    pub(crate) fn new(
        commits: Vec<Entry<A::Request, A::Reply>>,
        parts: Prefix<A, J>,
    ) -> AddPart<A, J>
        requires { IsLastPart A.rules J.opened commits.items parts }
        ensures { result ≡ parts }
    {
        AddPart { commits, parts }
    }
}

/// One of the two copies of the table, with the parts whose commits it has. Contracts see these
/// parts.
#[derive(Drop)]
pub struct TableCopy<A: Application, J: WindowName<A::Record>> {
    table: Vec<A::Record>,
    /// At most so many acts make each record.
    acts: u64,
    commits: u64,
    parts: Prefix<A, J>,
}

impl<A: Application, J: WindowName<A::Record>> Model for TableCopy<A, J> {
    ghost use Rattle.std.specs.Prelude.{List};
    ghost use Rattle.split_engine.specs.declared.entry.Entry.{Entry as Commit};
    ghost use Rattle.application_window.specs.inner.Copies.{HasParts};

    ghost Value = { List (List (Commit A.Request A.Reply)) };

    ghost view = { λ a. a.parts };

    ghost invariant = { λ a.
        HasParts A.rules A.fits J.opened a.table.items a.acts a.commits a.parts };
}

impl<A: Application, J: WindowName<A::Record>> TableCopy<A, J> {
    // A copy of the table before the first part.
    pub(crate) fn new(table: Vec<A::Record>, acts: u32, parts: Prefix<A, J>) -> TableCopy<A, J>
        requires opened { table.items ≡ J.opened }
        requires fits { AllByRecursion (A.fits acts) table.items }
        requires parts { parts ≡ [] }
        ensures { result ≡ [] }
    {
        TableCopy {
            table,
            acts: acts as u64,
            commits: 0,
            parts,
        }
    }

    // The parts that it has. None comes where it lacks some that are known: never so of a copy that
    // windows read. By this test a window is proved never to go back.
    fn parts_after(&self, known: &Prefix<A, J>) -> Option<Prefix<A, J>>
        ensures parts { IfSome result (λ parts. parts ≡ self.now) }
        ensures onward { IfSome result (λ parts. IsPrefix known.now parts) }
    {
        let parts = self.parts.longer(known);
        if parts.len() > self.parts.len() {
            return None;
        }
        Some(parts)
    }

    // What a request sees of a record, with the parts that the copy has. None comes as above.
    pub(crate) fn look(
        &self,
        known: &Prefix<A, J>,
        key: u32,
    ) -> Option<(Prefix<A, J>, Seen<A::Look>)>
        requires { key < length J.opened }
        ensures { IfSome result (Shows A.rules J.opened known.now
            (λ table. A.rules.look (record_at A.rules table key))) }
    {
        let parts = self.parts_after(known)?;
        let seen = Seen {
            commits: self.commits,
            value: A::look(&self.table[key as usize]),
        };
        Some((parts, seen))
    }

    // The reply to a request, with the parts that the copy has. None comes as above.
    pub(crate) fn answer(
        &self,
        known: &Prefix<A, J>,
        request: &A::Request,
    ) -> Option<(Prefix<A, J>, Seen<A::Reply>)>
        requires { IsWithin A.rules (length J.opened) request.now }
        ensures { IfSome result (Shows A.rules J.opened known.now
            (λ table. reply A.rules table request.now)) }
    {
        let parts = self.parts_after(known)?;
        let seen = Seen {
            commits: self.commits,
            value: reply_to::<A>(&self.table, request),
        };
        Some((parts, seen))
    }
}

impl<A: Application, J: WindowName<A::Record>> Absorb<AddPart<A, J>> for TableCopy<A, J> {
    type State = [Part<A>; 0];

    ghost state = { λ a. a };

    ghost applied = { λ _ added. added };

    fn absorb_first(
        &mut self,
        added: &AddPart<A, J>,
        _other: &TableCopy<A, J>,
    ) -> Result<(), AllocError> {
        let count = added.parts.len();
        let more = added.commits.len() as u64;
        // Never so: a publisher adds each part once, in order, and only where there is room. By
        // this test a copy's table is proved to be the one after its parts.
        if count == 0
            || count - 1 != self.parts.len()
            || more > (MOST_ACTS - self.acts) / MOST_KEYS as u64
        {
            return Err(AllocError);
        }
        perform_part::<A>(&mut self.table, &added.commits);
        self.acts += more * MOST_KEYS as u64;
        self.commits += more;
        self.parts = self.parts.longer(&added.parts);
        Ok(())
    }
}

// Performs the requests of a part, in their order.
fn perform_part<A: Application>(table: &mut Vec<A::Record>, commits: &[Entry<A::Request, A::Reply>])
    requires within { AreWithin A.rules (length table.old.items) commits.now }
    requires fits { (n : ℕ) × (n + MOST_KEYS * length commits.now ≤ most_acts)
        × AllByRecursion (A.fits n) table.old.items }
    ensures table { table.new.items ≡ table_after A.rules table.old.items commits.now }
    ensures fits { (n : ℕ) → AllByRecursion (A.fits n) table.old.items →
        AllByRecursion (A.fits (n + MOST_KEYS * length commits.now)) table.new.items }
{
    for commit in commits {
        perform::<A>(table, &commit.request);
    }
}

// The reply to a request, which is not performed.
fn reply_to<A: Application>(table: &[A::Record], request: &A::Request) -> A::Reply
    requires { IsWithin A.rules (length table.now) request.now }
    ensures { result ≡ reply A.rules table.now request.now }
{
    let keys = A::keys(request);
    let looks = looks_at::<A>(table, &keys);
    A::decide(request, &looks).reply
}
