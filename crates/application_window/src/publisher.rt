//! What publishes the parts of a history.
ghost use Rattle.std.specs.List.{AllByRecursion};
ghost use Rattle.std.specs.Prelude.{◌≡◌, ◌↔◌, ◌++◌, ◌∷◌, ◌-◌, ◌<◌, ◌≤◌, [], true, false, length, All, Err, IfOk, OnOk, IfErr, OnErr, IsTrue};
ghost use Rattle.application_window.specs.Published.{room_after, with_part, with_failure, AreWithin, IsRefused};
ghost use Rattle.application_window.specs.declared.publisher.PublishFault.TheVariants.{Memory};
ghost use Rattle.published_parts.specs.Parts.{AreComparable};

use crate::parts::{PartCount, PartLog, Prefix, WindowName};
use crate::table_copy::{AddPart, MOST_ACTS, TableCopy};
use crate::window::{Told, Window};
use published_parts::{CopyWriter, MakeFault};
use split_engine::{Application, Entry, MOST_KEYS, is_within};
use std::alloc::{AllocError, Global};
use std::marker::Model;
use std::sync::Wait;
use thiserror::Error;

/// Why a part was not published.
#[derive(Clone, Copy, Debug, PartialEq, Eq, Drop, Error)]
pub enum PublishFault {
    /// A commit names a key that the table does not have. The next part may be published.
    #[error("no such key")]
    NoSuchKey,
    /// It has more commits than `room`: records might have more than 2^32 acts. A shorter part may
    /// be published.
    #[error("too many commits")]
    Full,
    /// No memory was left, now or before.
    #[error("no memory")]
    Memory,
}

/// The table before the first part.
#[derive(Drop)]
pub struct OpeningTable<A: Application> {
    /// The records, each at its key.
    pub table: Vec<A::Record>,
    /// The same table again.
    pub copy: Vec<A::Record>,
    /// At most so many acts made each record: 0 if nothing was done to any.
    pub acts: u32,
}

/// Publishes the parts of a history to its windows. It must be spent by `end`. Contracts see the
/// parts that windows read, how many commits more there can be, and whether it was refused memory.
/// It keeps two copies of the table, and the commits of the last part, which one copy takes in at
/// the next publish. A part that was refused for want of memory stays until `end`.
pub struct Publisher<A: Application, J: WindowName<A::Record>> {
    copies: CopyWriter<TableCopy<A, J>, AddPart<A, J>>,
    count: PartCount<A, J>,
    parts: Prefix<A, J>,
    records: usize,
    room: u64,
    failed: bool,
}

impl<A: Application, J: WindowName<A::Record>> Model for Publisher<A, J> {
    ghost use Rattle.std.specs.Prelude.{◌≡◌, length};
    ghost use Rattle.split_engine.specs.declared.entry.Entry.{Entry as Commit};
    ghost use Rattle.application_window.specs.Published.{Published};

    ghost Value = { Published (Commit A.Request A.Reply) };

    ghost view = { λ p. record { parts = p.parts; room = p.room; failed = p.failed } };

    ghost invariant = { λ p. (p.copies ≡ p.parts) × (p.records ≡ length J.opened) };
}

impl<A: Application, J: WindowName<A::Record>> Publisher<A, J> {
    /// A publisher that has published nothing, and windows on its table. It waits for nobody. An
    /// error leaves neither publisher nor window; no clause says when it comes.
    pub fn new<R: Wait>(
        rt: &R,
        alloc: Global,
        log: PartLog<A>,
        opening: OpeningTable<A>,
        windows: u32,
    ) -> Result<(Publisher<A, J>, Vec<Window<A, J>>), MakeFault>
        requires log { log ≡ J.log }
        requires opened { opening.table.items ≡ J.opened }
        requires alike { opening.copy.items ≡ opening.table.items }
        requires fits { AllByRecursion (A.fits opening.acts) opening.table.items }
        requires count { 0 < windows }
        ensures publisher { IfOk result (λ made. made.0
            ≡ record { parts = []; room = room_after opening.acts; failed = false }) }
        ensures windows { IfOk result (λ made. length made.1.items ≡ windows) }
        ensures nothing { IfOk result (λ made. All (λ window. window ≡ []) made.1.items) }
    {
        let OpeningTable { table, copy, acts } = opening;
        let records = table.len();
        let (count, parts) = log.named::<J>();
        let first = TableCopy::new(table, acts, parts.again());
        let second = TableCopy::new(copy, acts, parts.again());
        let copies = CopyWriter::new(alloc, first, second, windows)?;
        match copies.windows(
            alloc,
            windows,
            |reader|
                requires { records ≡ length J.opened }
                ensures { result ≡ parts }
            { Window::new(reader, records, &parts) },
        ) {
            Ok(made) => {
                let publisher = Publisher {
                    copies,
                    count,
                    parts,
                    records,
                    room: (MOST_ACTS - acts as u64) / MOST_KEYS as u64,
                    failed: false,
                };
                Ok((publisher, made))
            }
            Err(fault) => {
                copies.end(rt);
                Err(fault)
            }
        }
    }

    /// How many parts are published.
    pub fn parts(&self) -> u64
        ensures { result ≡ length self.now.parts }
    {
        self.parts.len()
    }

    /// How many commits more it can take in.
    pub fn room(&self) -> u64
        ensures { result ≡ self.now.room }
    {
        self.room
    }

    /// Publishes one part, all at once, and looks at no reply in it. It costs in proportion to this
    /// part and the one before, and to the windows. Where memory is refused, as for a part past
    /// 2^64 - 1, windows read what they read before, and every later publish is refused. It waits
    /// for the views that began before the publish before it returned: the first waits for none.
    /// No view waits for a publish.
    pub fn publish<R: Wait>(
        &mut self,
        rt: &R,
        part: Vec<Entry<A::Request, A::Reply>>,
    ) -> Result<Told<A, J>, PublishFault>
        ensures published { OnOk result (self.new ≡ with_part self.old part.items) }
        ensures told { IfOk result (λ told. told ≡ self.new.parts) }
        ensures refused { IfErr result
            (IsRefused A.rules (length J.opened) part.items self.old self.new) }
        ensures for_good { self.old.failed ≡ true → result ≡ Err Memory }
    {
        if self.failed {
            return Err(PublishFault::Memory);
        }
        if !are_within::<A>(&part, self.records) {
            return Err(PublishFault::NoSuchKey);
        }
        if part.len() as u64 > self.room {
            return Err(PublishFault::Full);
        }
        match self.publish_part(rt, part) {
            Ok(told) => Ok(told),
            Err(_refused) => Err(PublishFault::Memory),
        }
    }

    // Publishes a part whose keys are all there, and for which there is room.
    fn publish_part<R: Wait>(
        &mut self,
        rt: &R,
        part: Vec<Entry<A::Request, A::Reply>>,
    ) -> Result<Told<A, J>, AllocError>
        requires within { AreWithin A.rules (length J.opened) part.items }
        requires room { length part.items ≤ self.old.room }
        ensures published { OnOk result (self.new ≡ with_part self.old part.items) }
        ensures told { IfOk result (λ told. told ≡ self.new.parts) }
        ensures refused { OnErr result (self.new ≡ with_failure self.old) }
    {
        let more = part.len() as u64;
        // It has failed until all is done.
        self.failed = true;
        if self.parts.len() == u64::MAX {
            return Err(AllocError);
        }
        let mut parts = self.parts.again();
        if !parts.add(&self.count, &part) {
            return Err(AllocError);
        }
        let told = parts.again();
        self.copies.show(rt, AddPart::new(part, parts))?;
        self.parts = told.again();
        self.room -= more;
        self.failed = false;
        Ok(Told::new(told))
    }

    /// Of the parts that a window knows and those that are published, one list begins with the
    /// other. It does nothing at run time: a proof calls it to compare a window with its publisher.
    pub fn agrees(&self, window: &Window<A, J>)
        ensures { AreComparable window.now self.now.parts }
    {
        window.known().agrees(&self.parts);
    }

    /// Ends it: from now on windows answer `NoGuard`. It waits until each view that is under way is
    /// done, and takes no memory.
    pub fn end<R: Wait>(self, rt: &R) {
        let Publisher {
            copies,
            count: _,
            parts: _,
            records: _,
            room: _,
            failed: _,
        } = self;
        copies.end(rt);
    }
}

// Whether the commits of a part name keys of a table of so many records alone.
fn are_within<A: Application>(part: &[Entry<A::Request, A::Reply>], records: usize) -> bool
    ensures { IsTrue result ↔ AreWithin A.rules records part.now }
{
    for commit in part {
        if !is_within::<A>(&commit.request, records) {
            return false;
        }
    }
    true
}
