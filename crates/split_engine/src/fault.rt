//! Why a run gives no outcome.
ghost use Rattle.std.specs.Prelude.{◌≡◌};

use job_threads::JobFault;
use std::alloc::{AllocError, AllocFailed};
use thiserror::Error;

/// Why a run gives no outcome. Every thread that was started has ended.
#[derive(Clone, Copy, Debug, PartialEq, Eq, Drop, Error)]
pub enum RunFault {
    /// A worker's thread could not be started, whatever the cause.
    #[error("thread not started")]
    Spawn,
    /// No memory was left.
    #[error("no memory")]
    Memory,
}

impl From<AllocError> for RunFault {
    ghost use Rattle.split_engine.specs.declared.fault.RunFault.TheVariants.{Memory};

    ghost from_gives = { λ _ fault. fault ≡ Memory };

    fn from(_refused: AllocError) -> RunFault {
        RunFault::Memory
    }
}

impl From<JobFault> for RunFault {
    ghost use Rattle.split_engine.specs.Faults.{fault_of_jobs};

    ghost from_gives = { λ job fault. fault ≡ fault_of_jobs job };

    fn from(job: JobFault) -> RunFault {
        match job {
            JobFault::Spawn => RunFault::Spawn,
            JobFault::Memory => RunFault::Memory,
        }
    }
}
