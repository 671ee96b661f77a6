//! The scripts of a run, in both forms in which a run takes them.
ghost use Rattle.std.specs.Prelude.{◌≡◌, IfOk};
ghost use Rattle.run_laws.specs.Serving.{lists};

use auction_rows::Request;
use std::alloc::{AllocError, Global};
use worker_journals::{Script, SharedScripts};

/// The scripts of a run's workers: lists of requests, or compact ones.
pub trait Scripts: Drop {
    ghost use Rattle.std.specs.Prelude.{◌≡◌, List, length, IfOk};
    ghost use Rattle.auction_rows.specs.declared.requests.Request.{Request as Asked};
    ghost use Rattle.run_laws.specs.Serving.{script_of};

    /// What each worker asks for, in order.
    ghost asked: { Self → List (List Asked) };

    /// How many workers have one.
    fn workers(&self) -> usize
        ensures { result ≡ length (asked self.now) };

    /// How many requests a worker has: none if it has no script.
    fn requests_of(&self, worker: usize) -> usize
        ensures { result ≡ length (script_of (asked self.now) worker) };

    /// The same scripts, compact, as a run performs them.
    fn into_compact(self, alloc: Global) -> Result<Vec<Script>, AllocError>
        ensures { IfOk result (λ compact. compact.items ≡ asked self) };
}

impl Scripts for Vec<Script> {
    ghost asked = { λ scripts. scripts.items };

    fn workers(&self) -> usize {
        self.len()
    }

    fn requests_of(&self, worker: usize) -> usize {
        match self.get(worker) {
            Some(script) => script.len(),
            None => 0,
        }
    }

    #[inline(always)]
    fn into_compact(self, _alloc: Global) -> Result<Vec<Script>, AllocError> {
        Ok(self)
    }
}

// Each list is let go once it is copied.
impl Scripts for Vec<Vec<Request>> {
    ghost asked = { λ scripts. lists scripts.items };

    fn workers(&self) -> usize {
        self.len()
    }

    fn requests_of(&self, worker: usize) -> usize {
        match self.get(worker) {
            Some(script) => script.len(),
            None => 0,
        }
    }

    fn into_compact(self, alloc: Global) -> Result<Vec<Script>, AllocError> {
        let mut compact = Vec::with_capacity(alloc, self.len())?;
        for script in self {
            compact.push(Script::of(alloc, &script)?)?;
        }
        Ok(compact)
    }
}

/// The same scripts, as a run shares them with its history.
#[inline(always)]
pub(crate) fn share<S: Scripts>(alloc: Global, scripts: S) -> Result<SharedScripts, AllocError>
    ensures { IfOk result (λ shared. shared ≡ S.asked scripts) }
{
    SharedScripts::new(alloc, scripts.into_compact(alloc)?)
}
