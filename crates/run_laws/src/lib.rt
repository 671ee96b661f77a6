//! When the requests of workers' scripts commit, in a run of phases that take them by quotas, and
//! what such a run has to give: a history that serves its scripts, hot sets that are chosen from
//! it, and books that it replays.
//!
//! Joined and split phases take turns (Doppel: Narula et al., OSDI 2014), and a split phase may put
//! requests off to the next one. `specs/Phases.antt` and `specs/Turns.antt` say which phase takes a
//! request of any kind. `specs/Serving.antt` says what serving scripts means, `specs/Run.antt` what
//! is done of them before a phase and what a phase does, `specs/Books.antt` what becomes of the
//! opening book, `specs/Answers.antt` what a run may answer. The functions compute nothing: each
//! carries laws in its contract.
#![tactic(auto)]

mod runs;
mod turns;

pub use runs::{
    PhaseBooks, one_worker_one_answer, phase_closes, phase_replays, phase_runs, phases_are_few,
    quota_gives, run_begins, run_serves, run_starts,
};
pub use turns::{phases_follow, phases_reached, phases_take, quotas_give, turns_are_whole};
