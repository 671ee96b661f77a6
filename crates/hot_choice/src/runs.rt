//! The objects that entries write, in runs of the same object.
ghost use Rattle.std.specs.Prelude.{◌≡◌, suc, ◌+◌, ◌++◌, ◌∷◌, [], IfOk, IfSome, OnOk, option_to_list};
ghost use Rattle.auction_rows.specs.Choosing.{objects_written, written_by};
ghost use Rattle.worker_journals.specs.Merged.{merged};
ghost use Rattle.hot_choice.specs.inner.Runs.{AreWritten, objects_of, open_objects, run_objects};

use auction_rows::{Entry, Object, is_splittable, row_of, writes};
use std::alloc::{AllocError, Global};
use worker_journals::{History, Journal};

// For so many runs there is room at first.
const FEW_RUNS: usize = 48;

/// An object that an entry writes, and how many entries after it write the same. On a busy object
/// most stores follow each other.
#[derive(Clone, Copy)]
pub(crate) struct Run {
    pub(crate) object: Object,
    pub(crate) more: u32,
}

impl Run {
    /// This run, with one object more, if that is the same.
    #[inline(always)]
    fn with(self, object: Object) -> Option<Run>
        ensures { IfSome result (λ run. run_objects run ≡ run_objects self ++ object ∷ []) }
    {
        if self.object == object {
            if self.more < u32::MAX {
                return Some(Run {
                    object: self.object,
                    more: self.more + 1,
                });
            }
        }
        None
    }

    /// A count with the objects of this run. A count past 64 bits is want of memory.
    #[inline(always)]
    pub(crate) fn add_to(self, count: u64) -> Result<u64, AllocError>
        ensures { IfOk result (λ sum. sum ≡ count + suc self.more) }
    {
        let sum = count
            .checked_add(u64::from(self.more) + 1)
            .ok_or(AllocError)?;
        Ok(sum)
    }
}

/// The objects that these entries write, each once for each accepted splittable store that does:
/// `choose_hot` alone calls it.
pub(crate) fn objects_written(alloc: Global, entries: &[Entry]) -> Result<Vec<Run>, AllocError>
    ensures { IfOk result (λ runs. objects_of runs.items ≡ objects_written entries.now) }
{
    let mut runs = Vec::with_capacity(alloc, FEW_RUNS)?;
    let mut run = None;
    for entry in entries {
        run = with_written(&mut runs, run, object_written(entry))?;
    }
    end_run(&mut runs, run)?;
    Ok(runs)
}

/// Those that the last phase's entries write, one journal after the other: heats have no order.
pub(crate) fn objects_written_last(alloc: Global, history: &History) -> Result<Vec<Run>, AllocError>
    ensures { IfOk result (λ runs. AreWritten (merged history.now.last) (objects_of runs.items)) }
{
    let mut runs = Vec::with_capacity(alloc, FEW_RUNS)?;
    let journals = history.last_phase();
    for journal in journals {
        add_objects(&mut runs, journal)?;
    }
    Ok(runs)
}

/// Adds the objects that a journal's entries write.
fn add_objects(runs: &mut Vec<Run>, journal: &Journal) -> Result<(), AllocError>
    ensures { OnOk result (objects_of runs.new.items
        ≡ objects_of runs.old.items ++ objects_written journal.now.entries) }
{
    let mut run = None;
    for entry in journal.entries() {
        run = with_written(runs, run, entry.object_written())?;
    }
    end_run(runs, run)?;
    Ok(())
}

/// The run that goes on after the object that an entry writes, if it does: where that is another
/// one, the run so far is put behind the others.
#[inline(always)]
fn with_written(
    runs: &mut Vec<Run>,
    run: Option<Run>,
    written: Option<Object>,
) -> Result<Option<Run>, AllocError>
    ensures { IfOk result (λ next. objects_of runs.new.items ++ open_objects next
        ≡ (objects_of runs.old.items ++ open_objects run) ++ option_to_list written) }
{
    let Some(object) = written else {
        return Ok(run);
    };
    let Some(last) = run else {
        return Ok(Some(Run { object, more: 0 }));
    };
    if let Some(grown) = last.with(object) {
        return Ok(Some(grown));
    }
    runs.push(last)?;
    Ok(Some(Run { object, more: 0 }))
}

/// Puts the last run behind the others, if there is one.
fn end_run(runs: &mut Vec<Run>, run: Option<Run>) -> Result<(), AllocError>
    ensures { OnOk result (objects_of runs.new.items
        ≡ objects_of runs.old.items ++ open_objects run) }
{
    if let Some(last) = run {
        runs.push(last)?;
    }
    Ok(())
}

/// The object that an entry writes, where it is an accepted splittable store: `objects_written`
/// alone calls it, since a journal's entries know theirs.
fn object_written(entry: &Entry) -> Option<Object>
    ensures { result ≡ written_by entry.now }
{
    let added = row_of(entry.worker, entry.request, entry.reply);
    if is_splittable(entry.request) && added.is_some() {
        return writes(entry.request);
    }
    None
}
