//! What is taken of an input for a part of it.
ghost use Rattle.std.specs.Prelude.{◌≡◌, ◌<◌, ◌≤◌, true, vec_len, OnOk};
ghost use Rattle.record_reading.specs.Reading.{HasNoInputFault};
ghost use Rattle.record_reading.specs.declared.inputs.TheConstants.{MOST_ROWS_OF_A_PART};

use record_reading::{CompactInput, ReadFault, Record};

/// What was taken of an input for a part.
#[derive(Drop)]
pub(crate) struct Taken {
    /// Of how many workers the input is.
    pub(crate) workers: u32,
    /// How many requests the part may have.
    pub(crate) most: u32,
    /// What its records ask for.
    pub(crate) input: CompactInput,
    /// How many of them are requests.
    pub(crate) requests: u32,
    /// How many records of the input were taken, with those of the parts before.
    pub(crate) count: u64,
    /// Whether a request is among these: a row is late then.
    pub(crate) begun: bool,
    ghost some: { 1 ≤ most },
    ghost few: { requests ≤ most },
    ghost few_rows: { vec_len input.rows ≤ MOST_ROWS_OF_A_PART },
    ghost has_scripts: { vec_len input.scripts ≡ workers },
    ghost knows_begun: { 0 < requests → begun ≡ true },
}

impl Taken {
    ghost use Rattle.live_reading.specs.inner.Taking.{HasCounted, HasRoom, HasTaken};

    /// Adds a record to what was taken. No input has 2^64 records.
    #[inline(always)]
    pub(crate) fn add(&mut self, said: &Record) -> Result<(), ReadFault>
        requires worker { said.now.worker < self.old.workers }
        requires room { HasRoom self.old }
        ensures adds { OnOk result (HasTaken self.old said.now self.new) }
        ensures fails { HasNoInputFault result }
    {
        let Some(count) = self.count.checked_add(1) else {
            return Err(ReadFault::Read);
        };
        if let Err(fault) = self.input.add(said) {
            // How many rows it has then is not known.
            self.input.rows.clear();
            return Err(fault);
        }
        self.count = count;
        self.requests += u32::from(!said.is_row);
        self.begun |= !said.is_row;
        Ok(())
    }

    /// Counts a record that has a fault, as this one of the input's.
    pub(crate) fn count_to(&mut self, place: u64)
        ensures { HasCounted self.old place self.new }
    {
        self.count = place;
    }
}
