//! An engine for transactions of your own over records of your own. Each worker has a script of
//! them, which is performed in joined phases, where one worker follows the other on the thread that
//! calls `run`, and in split phases, where each worker but the first has a thread of its own. The
//! history that they leave replays on one thread.
//!
//! You implement `Application`: what a request looks at, decides and does, and a few laws of one
//! record. `run` does the rest, and `application_check` judges a history of your application,
//! whoever made it.
//!
//! In a split phase each worker acts on slices of its own of the records that many requests name,
//! if these acts commute. The slices are merged as the phase closes (Doppel: Narula et al., OSDI
//! 2014).
#![tactic(auto)]

mod application;
mod entry;
mod fault;
mod few;
mod hints;
mod history;
mod joined;
mod laws;
mod looks;
mod phases;
mod phasing;
mod runs;
mod scripts;
mod slices;
mod split;
mod state;

pub use application::{Application, Threaded};
pub use entry::{Decision, Entry};
pub use fault::RunFault;
pub use few::{Few, FewIter, MOST_KEYS};
pub use history::History;
pub use joined::perform;
pub use laws::{runs_replay_as_one, split_phases_replay};
pub use looks::looks_at;
pub use runs::{Policy, run};
pub use scripts::{ScriptFault, check_scripts, is_within};
pub use state::{MOST_COMMITS, Outcome};
