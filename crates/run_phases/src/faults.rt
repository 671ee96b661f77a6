//! Why a run gives no outcome.
ghost use Rattle.std.specs.Prelude.{◌≡◌};

use job_threads::JobFault;
use phase_floor::FloorFault;
use std::alloc::{AllocError, AllocFailed};
use thiserror::Error;

/// Why a run gives no outcome. The first four are found before it begins, in this order; after any
/// fault every worker that was started has ended, and no part of a history is given.
#[derive(Clone, Copy, Debug, PartialEq, Eq, Drop, Error)]
pub enum RunFault {
    /// There are not 1 to 16 scripts, or a row of the opening book is of a worker without one.
    #[error("number of workers")]
    Workers,
    /// There are not 1 to 64 shards.
    #[error("number of shards")]
    Shards,
    /// A quota or the threshold is 0, or more than 64 objects may be hot.
    #[error("quota, threshold or hot limit")]
    Quota,
    /// A worker's script and its rows in the opening book have more than 1,000,000 together; or, of
    /// a run that goes on from a lasting state, the script has more, or both have more than the
    /// state's limit.
    #[error("more than 1000000 requests for a worker")]
    TooLong,
    /// A worker's thread could not be started, whatever the cause.
    #[error("thread not started")]
    Spawn,
    /// No memory was left.
    #[error("no memory")]
    Memory,
    /// A worker found the end of commit numbers, 2^59. No run is long enough for it.
    #[error("commit numbers used up")]
    NumberFull,
}

impl From<AllocError> for RunFault {
    ghost use Rattle.run_phases.specs.declared.faults.RunFault.TheVariants.{Memory};

    ghost from_gives = { λ _ fault. fault ≡ Memory };

    fn from(_refused: AllocError) -> RunFault {
        RunFault::Memory
    }
}

impl<T: Drop> From<AllocFailed<T>> for RunFault {
    ghost use Rattle.run_phases.specs.declared.faults.RunFault.TheVariants.{Memory};

    ghost from_gives = { λ _ fault. fault ≡ Memory };

    fn from(_refused: AllocFailed<T>) -> RunFault {
        RunFault::Memory
    }
}

impl From<JobFault> for RunFault {
    ghost use Rattle.run_phases.specs.Phases.{told};

    ghost from_gives = { λ fault run. run ≡ told fault };

    fn from(fault: JobFault) -> RunFault {
        match fault {
            JobFault::Spawn => RunFault::Spawn,
            JobFault::Memory => RunFault::Memory,
        }
    }
}

impl From<FloorFault> for RunFault {
    ghost use Rattle.run_phases.specs.declared.faults.RunFault.TheVariants.{Memory};

    ghost from_gives = { λ _ fault. fault ≡ Memory };

    fn from(fault: FloorFault) -> RunFault {
        match fault {
            FloorFault::Memory => RunFault::Memory,
        }
    }
}
