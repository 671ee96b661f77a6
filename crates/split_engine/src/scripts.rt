//! Whether scripts can be run.
ghost use Rattle.std.specs.List.{AllByRecursion};
ghost use Rattle.std.specs.Prelude.{◌≡◌, ◌↔◌, ◌+◌, ◌≤◌, Some, MatchOption, length, slice_get, IfOk, IfErr, IsTrue};
ghost use Rattle.split_engine.specs.{Faults.{IsScriptFault}, Serial.{IsWithin}};
ghost use Rattle.split_engine.specs.Serving.{lists, total, AreScripts};

use crate::application::Application;
use crate::state::MOST_COMMITS;
use thiserror::Error;

/// Why scripts cannot be run.
#[derive(Clone, Copy, Debug, PartialEq, Eq, Drop, Error)]
pub enum ScriptFault {
    /// There are more than 2^29 scripts and requests.
    #[error("more than 536870912 scripts and requests")]
    TooLong,
    /// The request with this index of a worker's script names a key that the table does not have.
    #[error("worker {worker}, request {index}: no such key")]
    NoSuchKey { worker: usize, index: usize },
}

// Whether there are at most 2^29 scripts and requests.
fn are_few<Q>(scripts: &[Vec<Q>]) -> bool
    ensures { IsTrue result ↔ (length scripts.now + total (lists scripts.now) ≤ MOST_COMMITS) }
{
    if scripts.len() > MOST_COMMITS {
        return false;
    }
    let mut left = MOST_COMMITS - scripts.len();
    for script in scripts {
        let long = script.len();
        if long > left {
            return false;
        }
        left -= long;
    }
    true
}

/// Whether a request names keys of a table of so many records.
pub fn is_within<A: Application>(request: &A::Request, records: usize) -> bool
    ensures { IsTrue result ↔ IsWithin A.rules records request.now }
{
    let keys = A::keys(request);
    for key in keys.iter() {
        if key as usize >= records {
            return false;
        }
    }
    true
}

// The index of the first request that names a key which is not there.
fn without_key<A: Application>(script: &[A::Request], records: usize) -> Option<usize>
    ensures { MatchOption result (AllByRecursion (IsWithin A.rules records) script.now)
        (λ index. (q : A.Request) × (slice_get script.now index ≡ Some q)
        × (IsWithin A.rules records q → ⊥)) }
{
    for (index, request) in script.iter().enumerate() {
        if !is_within::<A>(request, records) {
            return Some(index);
        }
    }
    None
}

/// Whether scripts can be run over a table of so many records; if not, this is why.
pub fn check_scripts<A: Application>(
    scripts: &[Vec<A::Request>],
    records: usize,
) -> Result<(), ScriptFault>
    ensures ok { IfOk result (λ _. AreScripts A.rules records (lists scripts.now)) }
    ensures fault { IfErr result (IsScriptFault A.rules records (lists scripts.now)) }
{
    if !are_few(scripts) {
        return Err(ScriptFault::TooLong);
    }
    for (worker, script) in scripts.iter().enumerate() {
        if let Some(index) = without_key::<A>(script, records) {
            return Err(ScriptFault::NoSuchKey { worker, index });
        }
    }
    Ok(())
}
