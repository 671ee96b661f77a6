//! What readers beside a publisher hold.
ghost use Rattle.std.specs.Prelude.{◌≡◌, ◌⊎◌, ◌↔◌, ◌<◌, ◌≤◌, List, length, Ok, None, IfOk, OnErr, IfSome, IfNone};
ghost use mathlib.Core.List.{IsPrefix};
ghost use Rattle.split_engine.specs.{Serial.{IsWithin, record_at, reply}, Serving.{total}};
ghost use Rattle.application_window.specs.Published.{table_of};

use crate::parts::{Prefix, WindowName};
use crate::table_copy::TableCopy;
use published_parts::{CopyReader, NoGuard};
use split_engine::{Application, is_within};
use std::marker::Model;

/// What a window shows.
#[derive(Clone, Copy, PartialEq, Eq, Debug)]
pub struct Seen<T> {
    /// How many commits are before it: all those of the parts that are shown.
    pub commits: u64,
    /// What is seen of the table after these commits.
    pub value: T,
}

/// What a publisher has published so far, for one window to learn. Contracts see the parts.
#[derive(Drop)]
pub struct Told<A: Application, J: WindowName<A::Record>> {
    parts: Prefix<A, J>,
}

impl<A: Application, J: WindowName<A::Record>> Model for Told<A, J> {
    ghost use Rattle.std.specs.Prelude.{List};
    ghost use Rattle.split_engine.specs.declared.entry.Entry.{Entry as Commit};

    ghost Value = { List (List (Commit A.Request A.Reply)) };

    ghost view = { λ t. t.parts };
}

impl<A: Application, J: WindowName<A::Record>> Told<A, J> {
    pub(crate) fn new(parts: Prefix<A, J>) -> Told<A, J>
        ensures { result ≡ parts }
    {
        Told { parts }
    }
}

/// Shows what is published, in any thread, and never goes back. Contracts see the parts that it
/// showed last, or those that it was told of if they are more.
#[derive(Drop)]
pub struct Window<A: Application, J: WindowName<A::Record>> {
    reader: CopyReader<TableCopy<A, J>>,
    records: usize,
    parts: Prefix<A, J>,
}

impl<A: Application, J: WindowName<A::Record>> Model for Window<A, J> {
    ghost use Rattle.std.specs.Prelude.{◌≡◌, List, length};
    ghost use Rattle.split_engine.specs.declared.entry.Entry.{Entry as Commit};

    ghost Value = { List (List (Commit A.Request A.Reply)) };

    ghost view = { λ w. w.parts };

    ghost invariant = { λ w. w.records ≡ length J.opened };
}

impl<A: Application, J: WindowName<A::Record>> Window<A, J> {
    pub(crate) fn new(
        reader: CopyReader<TableCopy<A, J>>,
        records: usize,
        parts: &Prefix<A, J>,
    ) -> Window<A, J>
        requires { records ≡ length J.opened }
        ensures { result ≡ parts.now }
    {
        Window {
            reader,
            records,
            parts: parts.again(),
        }
    }

    // The parts that it has shown or was told of.
    pub(crate) fn known(&self) -> &Prefix<A, J>
        ensures { result.now ≡ self.now }
    {
        &self.parts
    }

    /// What a request sees of the record at a key, after the parts that are published: at least all
    /// that this window has shown or was told of. `None` comes exactly where the table has no such
    /// key. `NoGuard` comes once the publisher has ended; no clause says when. It waits for nobody
    /// and takes no lock.
    pub fn look(&mut self, key: u32) -> Result<Option<Seen<A::Look>>, NoGuard>
        ensures none { (result ≡ Ok None) ↔ (length J.opened ≤ key) }
        ensures shown { IfOk result (λ shown. IfSome shown (λ seen. seen.value
            ≡ A.rules.look (record_at A.rules (table_of A.rules J.opened self.new) key))) }
        ensures commits { IfOk result (λ shown. IfSome shown (λ seen.
            seen.commits ≡ total self.new)) }
        ensures onward { IsPrefix self.old self.new }
        ensures no_key { IfOk result (λ shown. IfNone shown (self.new ≡ self.old)) }
        ensures refused { OnErr result (self.new ≡ self.old) }
    {
        if key as usize >= self.records {
            return Ok(None);
        }
        let known = &self.parts;
        let (parts, seen) = self
            .reader
            .read(|copy: &TableCopy<A, J>| copy.look(known, key))?;
        self.parts = parts;
        Ok(Some(seen))
    }

    /// The reply that a request would have after the parts that are published: at least all that
    /// this window has shown or was told of. The request is not performed. `None` comes exactly
    /// where it names a key that the table does not have. `NoGuard` comes once the publisher has
    /// ended; no clause says when. It waits for nobody and takes no lock.
    pub fn answer(&mut self, request: A::Request) -> Result<Option<Seen<A::Reply>>, NoGuard>
        ensures none { (result ≡ Ok None) ↔ (IsWithin A.rules (length J.opened) request → ⊥) }
        ensures shown { IfOk result (λ shown. IfSome shown (λ seen. seen.value
            ≡ reply A.rules (table_of A.rules J.opened self.new) request)) }
        ensures commits { IfOk result (λ shown. IfSome shown (λ seen.
            seen.commits ≡ total self.new)) }
        ensures onward { IsPrefix self.old self.new }
        ensures no_key { IfOk result (λ shown. IfNone shown (self.new ≡ self.old)) }
        ensures refused { OnErr result (self.new ≡ self.old) }
    {
        if !is_within::<A>(&request, self.records) {
            return Ok(None);
        }
        let known = &self.parts;
        let (parts, seen) = self
            .reader
            .read(|copy: &TableCopy<A, J>| copy.answer(known, &request))?;
        self.parts = parts;
        Ok(Some(seen))
    }

    /// From now on it shows no less than what was told. It takes no memory.
    pub fn learn(&mut self, told: Told<A, J>)
        ensures longer { (self.new ≡ self.old) ⊎ (self.new ≡ told) }
        ensures shown { IsPrefix self.old self.new }
        ensures told { IsPrefix told self.new }
    {
        self.parts = self.parts.longer(&told.parts);
    }
}
