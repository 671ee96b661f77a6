//! Files that can be read at any place, added to at the end, and cut; and a log in such a file.
ghost use Rattle.std.specs.{Io.KnownBytes.{append_known}, Option.{option_map}};
ghost use Rattle.std.specs.Prelude.{◌≡◌, ◌==◌, ◌≤◌, ◌<◌, ℕ, Bool, true, false, List, Option, IsErr, OnOk, length, take, IfErr, IfOk, IfSome};
ghost use Rattle.std.specs.declared.io.Error.{Error};
ghost use Rattle.part_log.specs.Files.{HoldsSoMany, IsReadAt};

use crate::log::{Log, LogFault};
use std::io;
use std::io::ErrorKind;
use std::marker::Model;

/// A file with a name, which can be read at any place, added to at the end, and cut.
pub trait AppendFile {
    /// The bytes that it holds, if they are known: those that a read gives.
    ghost held: { Self → Option (List ℕ) };

    /// The bytes that the disk keeps, if they are known: those that outlast a crash.
    ghost synced: { Self → Option (List ℕ) };

    /// Whether it is known that its name leads elsewhere or nowhere.
    ghost is_lost: { Self → Bool };

    /// Whether its name leads to it: else no start finds it.
    fn is_at_its_name(&self) -> io::Result<bool>
        ensures lost { is_lost self.now ≡ true → IfOk result (λ found. found ≡ false) };

    /// Reads bytes from a place on: none only at the end, or into no room.
    fn read_at(&self, at: u64, buffer: &mut [u8]) -> io::Result<usize>
        ensures bound { IfOk result (λ given. given ≤ length buffer.new) }
        ensures read { IfOk result (λ given. IfSome (held self.now) (λ bytes.
            IsReadAt bytes at (take given buffer.new))) }
        ensures end { IfOk result (λ given. given ≡ 0 → 0 < length buffer.new →
            IfSome (held self.now) (λ bytes. length bytes ≤ at)) };

    /// Adds bytes at the end: of those that it fails to add, a prefix may be there.
    fn append(&mut self, bytes: &[u8]) -> io::Result<()>
        ensures whole { OnOk result (held self.new ≡ append_known (held self.old) bytes.now) }
        ensures part { (n : ℕ) × (held self.new ≡ append_known (held self.old) (take n bytes.now)) }
        ensures synced { synced self.new ≡ synced self.old };

    /// Cuts off what is past its first bytes.
    fn cut(&mut self, len: u64) -> io::Result<()>
        ensures cut { OnOk result (held self.new ≡ option_map (take len) (held self.old)) }
        ensures cut_synced { OnOk result
            (synced self.new ≡ option_map (take len) (synced self.old)) }
        ensures kept { IsErr result → held self.new ≡ held self.old }
        ensures kept_synced { IsErr result → synced self.new ≡ synced self.old };

    /// Has the disk keep what it holds.
    fn sync(&mut self) -> io::Result<()>
        ensures held { held self.new ≡ held self.old }
        ensures synced { OnOk result (synced self.new ≡ held self.new) }
        ensures kept { IsErr result → synced self.new ≡ synced self.old };
}

/// A log at the end of a file. Contracts see the bytes that it has accepted, which the disk keeps,
/// those that a start would find, whether it has ended, and whether its name leads elsewhere.
#[derive(Drop)]
pub struct FileLog<F: AppendFile + Drop> {
    file: F,
    // So many of the file's bytes were accepted.
    kept: u64,
    // Whether nothing more is put by: the file may hold other bytes, or its disk has failed.
    has_ended: bool,
}

impl<F: AppendFile + Drop> Model for FileLog<F> {
    ghost use Rattle.std.specs.{Option.{option_map}, Prelude.{◌≡◌, take}};
    ghost use Rattle.part_log.specs.Files.{IsKeptIn, LogState};

    ghost Value = { LogState };

    ghost view = { λ l. record {
      accepted = option_map (take l.kept) (F.synced l.file);
      found = F.held l.file;
      has_ended = l.has_ended;
      is_lost = F.is_lost l.file;
    } };

    ghost invariant = { λ l. IsKeptIn (F.held l.file) l.kept l.has_ended
        × (option_map (take l.kept) (F.held l.file) ≡ option_map (take l.kept) (F.synced l.file)) };
}

impl<F: AppendFile + Drop> FileLog<F> {
    /// The log that a file's first bytes are: what is past them is cut off.
    pub fn open(file: F, kept: u64) -> io::Result<FileLog<F>>
        requires { HoldsSoMany (F.held file) kept }
        ensures accepted { IfOk result (λ log.
            log.accepted ≡ option_map (take kept) (F.held file)) }
        ensures found { IfOk result (λ log. log.found ≡ log.accepted) }
        ensures goes_on { IfOk result (λ log. log.has_ended ≡ false) }
    {
        let mut file = file;
        file.cut(kept)?;
        file.sync()?;
        Ok(FileLog {
            file,
            kept,
            has_ended: false,
        })
    }

    // Cuts off what was not accepted.
    fn take_back(&mut self) -> Result<(), LogFault>
        ensures accepted { self.new.accepted ≡ self.old.accepted }
        ensures ended { self.new.has_ended ≡ self.old.has_ended }
        ensures taken { OnOk result (self.new.found ≡ self.new.accepted) }
        ensures left { IfErr result (λ fault. (why : Error) × (fault ≡ LogFault.Cut why)) }
        ensures kept { IsErr result → self.new.found ≡ self.old.found }
    {
        match self.file.cut(self.kept) {
            Ok(()) => Ok(()),
            Err(why) => Err(LogFault::Cut(why)),
        }
    }
}

// Whether a file holds so many bytes and no more.
fn holds_just<F: AppendFile>(file: &F, count: u64) -> io::Result<bool>
    ensures just { IfOk result (λ holds. IfSome (F.held file.now) (λ bytes.
        holds ≡ (length bytes == count))) }
{
    let mut byte = [0];
    if count > 0 && file.read_at(count - 1, &mut byte)? == 0 {
        return Ok(false);
    }
    Ok(file.read_at(count, &mut byte)? == 0)
}

// Whether a file is as it was left: at its name, with so many bytes and no more.
fn is_as_left<F: AppendFile>(file: &F, count: u64) -> io::Result<bool>
    ensures lost { F.is_lost file.now ≡ true → IfOk result (λ same. same ≡ false) }
    ensures just { IfOk result (λ same. same ≡ true →
        IfSome (F.held file.now) (λ bytes. length bytes ≡ count)) }
{
    if !file.is_at_its_name()? {
        return Ok(false);
    }
    holds_just(file, count)
}

impl<F: AppendFile + Drop> Log for FileLog<F> {
    ghost accepted = { λ log. log.accepted };

    ghost found = { λ log. log.found };

    ghost has_ended = { λ log. log.has_ended };

    ghost is_lost = { λ log. log.is_lost };

    fn put(&mut self, bytes: &[u8]) -> Result<(), LogFault> {
        if self.has_ended {
            return Err(LogFault::Ended);
        }
        let Some(kept) = self.kept.checked_add(bytes.len() as u64) else {
            return Err(LogFault::Write(io::Error::from(ErrorKind::FileTooLarge)));
        };
        self.has_ended = true;
        // Rows in a file that another program has changed, moved or removed could be lost.
        match is_as_left(&self.file, self.kept) {
            Ok(true) => {}
            Ok(false) => return Err(LogFault::Changed),
            Err(why) => return Err(LogFault::Read(why)),
        }
        if let Err(why) = self.file.append(bytes) {
            self.take_back()?;
            self.has_ended = false;
            return Err(LogFault::Write(why));
        }
        // After a sync that failed the disk may have let go what it was given, so it is asked to
        // keep nothing more. No start finds what was not accepted.
        if let Err(why) = self.file.sync() {
            self.take_back()?;
            return Err(LogFault::Sync(why));
        }
        self.kept = kept;
        self.has_ended = false;
        Ok(())
    }
}
