//! What was read of a parcel, joined to what was read before it.
ghost use Rattle.std.specs.Prelude.{◌≡◌, ◌≤◌, ◌↔◌, [], length, replicate, IsTrue, OnOk};
ghost use Rattle.record_reading.specs.Reading.{HasNoInputFault};
ghost use Rattle.record_reading.specs.declared.inputs.TheConstants.{MOST_RECORDS};
ghost use Rattle.auction_reading.specs.inner.Parcels.{CanJoin, but_requests, nothing_read, read_with};
ghost use Rattle.auction_reading.specs.inner.Said.{read_by};

use crate::plain_text::Progress;
use record_reading::{MOST_RECORDS, ReadFault};
use worker_journals::Script;

// Lets the requests of all scripts go.
fn clear_scripts(scripts: &mut [Script])
    ensures { scripts.new ≡ replicate (length scripts.old) [] }
{
    for script in scripts.iter_mut() {
        script.clear();
    }
}

/// Lets all that was read go, and keeps the memory.
pub(crate) fn clear(progress: &mut Progress)
    ensures { read_by progress.new ≡ nothing_read (length progress.new.input.scripts.items) }
{
    progress.input.rows.clear();
    clear_scripts(&mut progress.input.scripts);
    progress.count = 0;
    progress.begun = false;
}

/// Whether what a parcel asks for can follow what was read before it.
pub(crate) fn can_join(progress: &Progress, parcel: &Progress) -> bool
    requires { progress.now.count ≤ MOST_RECORDS }
    ensures { IsTrue result ↔ CanJoin (read_by progress.now) (read_by parcel.now) }
{
    if progress.input.scripts.len() != parcel.input.scripts.len() {
        return false;
    }
    if parcel.count > MOST_RECORDS - progress.count {
        return false;
    }
    !progress.begun || parcel.input.rows.is_empty()
}

/// Adds what was read of a parcel to what was read before it, but for its requests. After a fault
/// what was read is not known.
pub(crate) fn join_rows(progress: &mut Progress, parcel: &Progress) -> Result<(), ReadFault>
    requires { CanJoin (read_by progress.old) (read_by parcel.now) }
    ensures joins { OnOk result (read_by progress.new ≡ but_requests (read_by progress.old)
        (read_with (read_by progress.old) (read_by parcel.now))) }
    ensures fails { HasNoInputFault result }
{
    let Ok(()) = progress.input.rows.extend_from_slice(&parcel.input.rows) else {
        return Err(ReadFault::Memory);
    };
    progress.count += parcel.count;
    progress.begun |= parcel.begun;
    Ok(())
}
