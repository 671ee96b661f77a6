//! The two copies of a value, of which windows read one while their publisher changes the other.
ghost use Rattle.std.specs.Prelude.{◌≡◌, ◌<◌, length, All, IfOk, OnOk, OnErr};
ghost use Rattle.published_parts.specs.Views.{IsGivenBy, IsMadeBy};

use core::mem::replace_with;
use crossbeam_utils::rule::Unruled;
use left_right::Absorb;
use left_right::reader::Reader;
use left_right::writer::Writer;
use std::alloc::{AllocError, Global};
use std::marker::Model;
use std::sync::Wait;
use thiserror::Error;

/// Why no publisher was made.
#[derive(Clone, Copy, Debug, PartialEq, Eq, Drop, Error)]
pub enum MakeFault {
    /// No memory was left.
    #[error("no memory")]
    Memory,
    /// `left_right` gave a window no reader.
    #[error("no window")]
    Reader,
}

impl From<AllocError> for MakeFault {
    ghost use Rattle.published_parts.specs.declared.copies.MakeFault.TheVariants.{Memory};

    ghost from_gives = { λ _ fault. fault ≡ Memory };

    fn from(_refused: AllocError) -> MakeFault {
        MakeFault::Memory
    }
}

/// Nothing was seen, since the publisher has ended.
#[derive(Clone, Copy, Debug, PartialEq, Eq, Error)]
#[error("the publisher has ended")]
pub struct NoGuard;

type Copies<T, O> = Writer<T, O, (), Unruled>;

type Reading<T> = Reader<T, (), Unruled>;

/// What changes the two copies. It must be spent by `end`. Contracts see the state that is shown.
pub struct CopyWriter<T: Absorb<O> + Drop, O: Drop> {
    copies: Copies<T, O>,
}

impl<T: Absorb<O> + Drop, O: Drop> Model for CopyWriter<T, O> {
    ghost Value = { T.State };

    ghost view = { λ w. T.state w.copies.desk.shown.value };
}

impl<T: Absorb<O> + Drop, O: Drop> CopyWriter<T, O> {
    /// Two copies that are alike, for so many readers.
    pub fn new(
        alloc: Global,
        first: T,
        second: T,
        readers: u32,
    ) -> Result<CopyWriter<T, O>, AllocError>
        requires readers { 0 < readers }
        requires alike { T.state first ≡ T.state second }
        ensures { IfOk result (λ made. made ≡ T.state first) }
    {
        let copies: Copies<T, O> = Writer::new(alloc, first, second, readers as usize)?;
        Ok(CopyWriter { copies })
    }

    // One reader more.
    fn reader(&self) -> Result<CopyReader<T>, MakeFault> {
        match self.copies.factory().reader() {
            Ok(reading) => Ok(CopyReader { reading }),
            Err(_refused) => Err(MakeFault::Reader),
        }
    }

    /// So many windows, each made of a reader of its own. An error leaves none; no clause says when
    /// it comes.
    pub fn windows<W: Drop, F: Fn(CopyReader<T>) -> W>(
        &self,
        alloc: Global,
        count: u32,
        make: F,
    ) -> Result<Vec<W>, MakeFault>
        requires { F.IsAlwaysCallable make }
        ensures count { IfOk result (λ made. length made.items ≡ count) }
        ensures made { IfOk result (λ made. All (IsMadeBy F.Fn make) made.items) }
    {
        let mut made = Vec::with_capacity(alloc, count as usize)?;
        for _window in 0..count {
            if made.push(make(self.reader()?)).is_err() {
                return Err(MakeFault::Memory);
            }
        }
        Ok(made)
    }

    /// Shows one operation more, after those that were refused before. It waits for views of the
    /// copy that is to be changed. Where memory is refused, readers see what they saw before.
    pub fn show<R: Wait>(&mut self, rt: &R, operation: O) -> Result<(), AllocError>
        ensures shown { OnOk result
            ((before : T.State) × (self.new ≡ T.applied before operation)) }
        ensures refused { OnErr result (self.new ≡ self.old) }
    {
        replace_with(
            &mut self.copies,
            operation,
            |copies, operation| show(copies, rt, operation),
        )
    }

    /// Ends it: from now on readers see nothing. It waits until each view that is under way is done.
    pub fn end<R: Wait>(self, rt: &R) {
        let CopyWriter { copies } = self;
        copies.take(rt);
    }
}

// Shows one operation more.
fn show<T: Absorb<O> + Drop, O: Drop, R: Wait>(
    mut copies: Copies<T, O>,
    rt: &R,
    operation: O,
) -> (Copies<T, O>, Result<(), AllocError>)
    ensures shown { OnOk result.1 ((before : T.State)
        × (T.state result.0.desk.shown.value ≡ T.applied before operation)) }
    ensures refused { OnErr result.1
        (T.state result.0.desk.shown.value ≡ T.state copies.desk.shown.value) }
{
    match copies.append(operation) {
        Ok(()) => copies.publish_as::<Unruled, R>(rt),
        Err(_refused) => (copies, Err(AllocError)),
    }
}

/// What reads the copy that is shown.
#[derive(Drop)]
pub struct CopyReader<T: Drop> {
    reading: Reading<T>,
}

impl<T: Drop> CopyReader<T> {
    /// What a view gives of the copy that is shown. `NoGuard` comes where it gives nothing, and
    /// once the writer has ended.
    pub fn read<V, F: FnOnce(&T) -> Option<V>>(&mut self, view: F) -> Result<V, NoGuard>
        requires { F.IsAlwaysCallable view }
        ensures { IfOk result (IsGivenBy F.FnOnce view) }
    {
        replace_with(&mut self.reading, view, |reading, view| read(reading, view))
    }
}

// One view of the copy that is shown.
fn read<T: Drop, V, F: FnOnce(&T) -> Option<V>>(
    reading: Reading<T>,
    view: F,
) -> (Reading<T>, Result<V, NoGuard>)
    requires { F.IsAlwaysCallable view }
    ensures { IfOk result.1 (IsGivenBy F.FnOnce view) }
{
    match reading.enter_as::<Unruled>() {
        Ok(entered) => {
            let seen = view(entered.get()).ok_or(NoGuard);
            (entered.leave(), seen)
        }
        Err(reading) => (reading, Err(NoGuard)),
    }
}
