//! The rows and scripts of a whole input, read by threads.
ghost use Rattle.std.specs.{Prelude.{◌≡◌, ◌<◌, vec_len, IfErr, IfOk, IfSome}, Thread.{IsSync}};
ghost use Rattle.record_reading.specs.{Asking.{asked_of}, Reading.{HasNoInputFault, IsInputFault}};
ghost use Rattle.auction_reading.specs.Scripts.{input_of};

use crate::buffered_lines::LineReading;
use crate::parcel_joins::join_parcels;
use crate::parcels::{Parcel, read_parcels};
use crate::plain_text::Progress;
use crate::scripts::{read_compact_scripts, read_input};
use record_reading::{CompactInput, ReadFault};
use std::alloc::Global;
use std::io::Read;
use std::thread::Threads;

// So many bytes are read at a time, for all workers.
const ROOM: usize = 524_288;

// A parcel for each worker.
fn parcels_of(alloc: Global, workers: u32) -> Result<Vec<Parcel>, ReadFault>
    requires some { 0 < workers }
    ensures { HasNoInputFault result }
{
    let Ok(mut parcels) = Vec::with_capacity(alloc, workers as usize) else {
        return Err(ReadFault::Memory);
    };
    let bytes = ROOM / workers as usize;
    for _ in 0..workers {
        if parcels.push(Parcel::new(alloc, workers, bytes)?).is_err() {
            return Err(ReadFault::Memory);
        }
    }
    Ok(parcels)
}

// By several threads, once the buffer is full: a parcel for each worker.
#[derive(Drop)]
struct ByThreads<'a, R> {
    rt: &'a R,
    parcels: Vec<Parcel>,
}

impl<R: Threads + Sync> LineReading for ByThreads<'_, R> {
    ghost can_read = { IsSync R.row };

    fn wanted(&self) -> usize {
        ROOM
    }

    fn read_front(&mut self, progress: &mut Progress, text: &[u8]) -> Result<usize, ReadFault> {
        read_parcels(self.rt, &mut self.parcels, text);
        join_parcels(self.rt, progress, &self.parcels)
    }
}

/// Reads an input as `read_compact_scripts` does, in a thread for each worker if there are several
/// and the input is long.
#[inline(never)]
pub fn read_scripts_by_threads<R: Threads + Sync, I: Read + Drop>(
    rt: &R,
    alloc: Global,
    reader: I,
    workers: u32,
) -> Result<CompactInput, ReadFault>
    ensures input { IfOk result (λ input. IfSome (I.remaining reader) (λ bytes.
        input_of workers bytes ≡ Ok (asked_of input))) }
    ensures count { IfOk result (λ input. vec_len input.scripts ≡ workers) }
    ensures fault { IfErr result (λ fault. IsInputFault fault →
        IfSome (I.remaining reader) (λ bytes. input_of workers bytes ≡ Err fault)) }
{
    if workers < 2 {
        return read_compact_scripts(alloc, reader, workers);
    }
    let parcels = parcels_of(alloc, workers)?;
    let Ok(mut buffer) = vec![in alloc; 0u8; ROOM] else {
        return Err(ReadFault::Memory);
    };
    let mut lines = ByThreads { rt, parcels };
    read_input(&mut lines, &mut buffer, alloc, reader, workers)
}
