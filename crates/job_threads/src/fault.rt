//! Why jobs are not done.
use std::alloc::{AllocError, AllocFailed};
use thiserror::Error;

/// Why jobs leave no answers. Every thread that was started has ended.
#[derive(Clone, Copy, Debug, PartialEq, Eq, Drop, Error)]
pub enum JobFault {
    /// A thread could not be started, whatever the cause.
    #[error("thread not started")]
    Spawn,
    /// No memory was left.
    #[error("no memory")]
    Memory,
}

impl From<AllocError> for JobFault {
    ghost use Rattle.std.specs.Prelude.{◌≡◌};
    ghost use Rattle.job_threads.specs.declared.fault.JobFault.TheVariants.{Memory};

    ghost from_gives = { λ _ fault. fault ≡ Memory };

    fn from(_refused: AllocError) -> JobFault {
        JobFault::Memory
    }
}

impl<T: Drop> From<AllocFailed<T>> for JobFault {
    ghost use Rattle.std.specs.Prelude.{◌≡◌};
    ghost use Rattle.job_threads.specs.declared.fault.JobFault.TheVariants.{Memory};

    ghost from_gives = { λ _ fault. fault ≡ Memory };

    fn from(_refused: AllocFailed<T>) -> JobFault {
        JobFault::Memory
    }
}
