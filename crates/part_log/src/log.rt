//! Where lines are put by for good: of a part that is told, before its text is written.
ghost use Rattle.std.specs.Io.KnownBytes.{Appends, Keeps};
ghost use Rattle.std.specs.Prelude.{◌≡◌, ◌≢◌, ℕ, Bool, true, false, List, [], Option, None, Err, IsErr, OnOk, IfErr};
ghost use Rattle.part_log.specs.Files.{IsEndedAfter, IsFoundAfter};
ghost use Rattle.part_log.specs.Telling.{IsEndedBy, IsFoundBy, IsLoggedFirst, IsToldSoFar, IsUnlogged};

use byte_texts::{WriteFault, write_last};
use std::io;
use std::io::Write;
use thiserror::Error;

/// Why bytes were not put by.
#[derive(Clone, Copy, Debug, Drop, Error)]
pub enum LogFault {
    /// They could not be written, and were taken back: a later call may put other bytes by.
    #[error("cannot be written: {0}")]
    Write(io::Error),
    /// They were written but not synced, and were taken back: no later call puts anything by.
    #[error("cannot be synced: {0}")]
    Sync(io::Error),
    /// They were not put by, and could not be taken back: no later call puts anything by.
    #[error("cannot be cut back: {0}")]
    Cut(io::Error),
    /// What was accepted could not be looked for, and nothing was written: no later call puts
    /// anything by.
    #[error("cannot be read: {0}")]
    Read(io::Error),
    /// Its file is not as it was left, and nothing was written: no later call puts anything by.
    #[error("changed, moved or removed by another program")]
    Changed,
    /// It had ended before.
    #[error("has ended")]
    Ended,
}

/// Where bytes are put by for good.
pub trait Log {
    /// The bytes that it has accepted, if they are known: they outlast a crash.
    ghost accepted: { Self → Option (List ℕ) };

    /// The bytes that a start would find, if they are known: those that it has accepted, and once
    /// it has ended maybe others behind them.
    ghost found: { Self → Option (List ℕ) };

    /// Whether it puts nothing by any more.
    ghost has_ended: { Self → Bool };

    /// Whether it is known that no start would find it.
    ghost is_lost: { Self → Bool };

    /// Puts these bytes by, after those before, all or none: after `Ok` they outlast a crash. A log
    /// that has ended answers `Ended`.
    fn put(&mut self, bytes: &[u8]) -> Result<(), LogFault>
        ensures accepted { OnOk result (Appends (accepted self.old) (accepted self.new) bytes.now) }
        ensures found { OnOk result (found self.new ≡ accepted self.new) }
        ensures goes_on { OnOk result (has_ended self.new ≡ has_ended self.old) }
        ensures refused { IsErr result → Keeps (accepted self.old) (accepted self.new) }
        ensures taken_back { has_ended self.old ≡ false →
            IfErr result (λ fault. IsFoundAfter fault
            (accepted self.new) (found self.new) bytes.now) }
        ensures ended_after { IfErr result (λ fault.
            IsEndedAfter fault (has_ended self.old) (has_ended self.new)) }
        ensures ended_before { has_ended self.old ≡ true →
            (result ≡ Err LogFault.Ended) × (self.new ≡ self.old) }
        ensures lost { is_lost self.old ≡ true → IsErr result };

    /// Whether it keeps what is put by: if not, nothing need be put by.
    fn keeps(&self) -> bool
        ensures { result ≡ false → accepted self.now ≡ None }
    {
        true
    }
}

/// The log of a run that keeps none.
#[derive(Clone, Copy, Drop)]
pub struct NoLog;

impl Log for NoLog {
    ghost accepted = { λ _. None };

    ghost found = { λ _. None };

    ghost has_ended = { λ _. false };

    ghost is_lost = { λ _. false };

    fn put(&mut self, _bytes: &[u8]) -> Result<(), LogFault> {
        Ok(())
    }

    fn keeps(&self) -> bool {
        false
    }
}

/// Why a part was not told.
#[derive(Clone, Copy, Debug, Drop, Error)]
pub enum TellFault {
    /// Its rows were not put by, and no byte was written.
    #[error("log {0}")]
    Log(LogFault),
    /// Its rows were put by, and a prefix of its text was written.
    #[error("{0}")]
    Write(WriteFault),
}

/// Puts the rows of a part by, if it has any, and then writes its text: not one byte before the log
/// has accepted the rows.
pub fn tell_part<L: Log, W: Write>(
    log: &mut L,
    writer: &mut W,
    rows: &[u8],
    text: &[u8],
) -> Result<(), TellFault>
    ensures logged { OnOk result (Appends (L.accepted log.old) (L.accepted log.new) rows.now) }
    ensures told { OnOk result (Appends (W.contents writer.old) (W.contents writer.new) text.now) }
    ensures first { IsLoggedFirst (L.accepted log.old) (L.accepted log.new) rows.now
        (W.contents writer.old) (W.contents writer.new) text.now }
    ensures unlogged { IfErr result (λ fault. IsUnlogged fault → writer.new ≡ writer.old) }
    ensures fault { IfErr result (λ fault. IsToldSoFar fault
        (L.accepted log.old) (L.accepted log.new) rows.now
        (W.contents writer.old) (W.contents writer.new) text.now) }
    ensures some { IfErr result (λ fault. IsUnlogged fault → rows.now ≢ []) }
    ensures found { L.has_ended log.old ≡ false → L.found log.old ≡ L.accepted log.old →
        IsFoundBy result (L.accepted log.new) (L.found log.new) rows.now }
    ensures ended { IsEndedBy result (L.has_ended log.old) (L.has_ended log.new) }
{
    if !rows.is_empty() {
        if let Err(fault) = log.put(rows) {
            return Err(TellFault::Log(fault));
        }
    }
    write_last(writer, text).map_err(TellFault::Write)
}

/// A log, and a writer that is told what the log has accepted: by `tell` alone.
#[derive(Drop)]
pub struct Teller<L, W> {
    log: L,
    writer: W,
}

impl<L: Log, W: Write> Teller<L, W> {
    /// A teller by this log and writer.
    pub fn new(log: L, writer: W) -> Teller<L, W>
        ensures log { result.log ≡ log }
        ensures writer { result.writer ≡ writer }
    {
        Teller { log, writer }
    }

    /// Whether the log keeps what is put by.
    pub fn keeps(&self) -> bool
        ensures { result ≡ false → L.accepted self.now.log ≡ None }
    {
        self.log.keeps()
    }

    /// Puts the rows of a part by, and then writes its text, as `tell_part` does.
    pub fn tell(&mut self, rows: &[u8], text: &[u8]) -> Result<(), TellFault>
        ensures logged { OnOk result
            (Appends (L.accepted self.old.log) (L.accepted self.new.log) rows.now) }
        ensures told { OnOk result
            (Appends (W.contents self.old.writer) (W.contents self.new.writer) text.now) }
        ensures fault { IfErr result (λ fault. IsToldSoFar fault
            (L.accepted self.old.log) (L.accepted self.new.log) rows.now
            (W.contents self.old.writer) (W.contents self.new.writer) text.now) }
        ensures some { IfErr result (λ fault. IsUnlogged fault → rows.now ≢ []) }
    {
        tell_part(&mut self.log, &mut self.writer, rows, text)
    }
}
