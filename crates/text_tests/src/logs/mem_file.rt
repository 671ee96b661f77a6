//! A file in memory whose bytes contracts know.
ghost use Rattle.std.specs.Prelude.{◌≡◌, ◌≤◌, ◌++◌, ℕ, true, List, Some, IsErr, OnOk, take, vec_len};

use part_log::{AppendFile, FileLog, Log, LogFault};
use std::alloc::Global;
use std::io;

/// A file in memory of which one call fails: an append then adds half of its bytes.
#[derive(Drop)]
pub(crate) struct MemFile {
    bytes: Vec<u8>,
    // So many of its bytes were synced.
    synced: usize,
    // The number of the call that fails, from 0.
    fails_at: usize,
    calls: usize,
    // Whether its name leads elsewhere.
    is_lost: bool,
    ghost few: { synced ≤ vec_len bytes },
}

impl MemFile {
    /// An empty file.
    pub(crate) fn new(alloc: Global, fails_at: usize) -> MemFile {
        MemFile {
            bytes: Vec::new(alloc),
            synced: 0,
            fails_at,
            calls: 0,
            is_lost: false,
        }
    }

    /// An empty file of which no call fails, and whose name leads elsewhere.
    pub(crate) fn lost(alloc: Global) -> MemFile {
        let mut file = MemFile::new(alloc, usize::MAX);
        file.is_lost = true;
        file
    }

    // Whether this call is the one that fails.
    fn fails(&mut self) -> bool
        ensures bytes { self.new.bytes ≡ self.old.bytes }
        ensures synced { self.new.synced ≡ self.old.synced }
    {
        let call = self.calls;
        self.calls = call.saturating_add(1);
        call == self.fails_at
    }
}

impl AppendFile for MemFile {
    ghost held = { λ f. Some f.bytes.items };

    ghost synced = { λ f. Some (take f.synced f.bytes.items) };

    ghost is_lost = { λ f. f.is_lost };

    fn is_at_its_name(&self) -> io::Result<bool> {
        Ok(!self.is_lost)
    }

    fn read_at(&self, at: u64, buffer: &mut [u8]) -> io::Result<usize> {
        let bytes = self.bytes.as_slice();
        let rest = &bytes[(at as usize).min(bytes.len())..];
        let given = rest.len().min(buffer.len());
        buffer[..given].copy_from_slice(&rest[..given]);
        Ok(given)
    }

    fn append(&mut self, bytes: &[u8]) -> io::Result<()> {
        if self.fails() {
            self.bytes.extend_from_slice(&bytes[..bytes.len() / 2])?;
            return Err(io::Error::from(io::ErrorKind::StorageFull));
        }
        self.bytes.extend_from_slice(bytes)?;
        Ok(())
    }

    fn cut(&mut self, len: u64) -> io::Result<()> {
        if self.fails() {
            return Err(io::Error::from(io::ErrorKind::StorageFull));
        }
        let len = (len as usize).min(self.bytes.len());
        self.synced = self.synced.min(len);
        self.bytes.truncate(len);
        Ok(())
    }

    fn sync(&mut self) -> io::Result<()> {
        if self.fails() {
            return Err(io::Error::from(io::ErrorKind::StorageFull));
        }
        self.synced = self.bytes.len();
        Ok(())
    }
}

/// Puts bytes by in such a file: what the log has accepted, and what a start would find, is known.
pub(crate) fn put_known(log: &mut FileLog<MemFile>, bytes: &[u8]) -> Result<(), LogFault>
    ensures accepted { OnOk result ((xs : List ℕ) → log.old.accepted ≡ Some xs →
        log.new.accepted ≡ Some (xs ++ bytes.now)) }
    ensures found { OnOk result (log.new.found ≡ log.new.accepted) }
    ensures lost { log.old.is_lost ≡ true → IsErr result }
{
    log.put(bytes)
}
