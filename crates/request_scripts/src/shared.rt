//! The scripts of a run, which it shares with the journals that it leaves.
ghost use Rattle.std.specs.Prelude.{◌≡◌, ◌<◌, Some, length, slice_get, IfOk};
ghost use Rattle.request_scripts.specs.Scripts.{script_at};

use crate::script::Script;
use auction_rows::Request;
use std::alloc::{AllocError, Global};
use std::marker::Model;
use std::sync::Arc;

/// The scripts of a run's workers, in memory of which there may be several owners. Contracts see
/// the scripts.
#[derive(Drop)]
pub struct SharedScripts {
    scripts: Arc<Vec<Script>, Global>,
}

impl Model for SharedScripts {
    ghost use Rattle.std.specs.{Arc.{arc_value}, Prelude.{List}};
    ghost use Rattle.auction_rows.specs.declared.requests.Request.{Request as Asked};

    ghost Value = { List (List Asked) };

    ghost view = { λ s. (arc_value s.scripts).items };
}

impl SharedScripts {
    /// These scripts. It errs only for want of memory.
    pub fn new(alloc: Global, scripts: Vec<Script>) -> Result<SharedScripts, AllocError>
        ensures { IfOk result (λ shared. shared ≡ scripts.items) }
    {
        let scripts = Arc::new(alloc, scripts)?;
        Ok(SharedScripts { scripts })
    }

    /// The scripts, in the order of their workers.
    #[inline(always)]
    pub fn as_slice(&self) -> &[Script]
        ensures { result.now ≡ self.now }
    {
        self.scripts.as_slice()
    }

    /// A worker's script, which then has one owner more. It errs only for want of memory.
    pub fn own(&self, worker: u32) -> Result<OwnScript, AllocError>
        ensures { IfOk result (λ script. script ≡ script_at self.now worker) }
    {
        Ok(OwnScript {
            scripts: Arc::try_clone(&self.scripts)?,
            worker,
        })
    }
}

/// A worker's script among those of a run. Contracts see its requests.
#[derive(Drop)]
pub struct OwnScript {
    scripts: Arc<Vec<Script>, Global>,
    worker: u32,
}

impl Model for OwnScript {
    ghost use Rattle.std.specs.{Arc.{arc_value}, Prelude.{List}};
    ghost use Rattle.auction_rows.specs.declared.requests.Request.{Request as Asked};
    ghost use Rattle.request_scripts.specs.Scripts.{script_at};

    ghost Value = { List Asked };

    ghost view = { λ s. script_at (arc_value s.scripts).items s.worker };
}

impl OwnScript {
    /// The request at a place from 0, made whole.
    #[inline(always)]
    pub fn request(&self, place: usize) -> Request
        requires { place < length self.now }
        ensures { slice_get self.now place ≡ Some result }
    {
        self.scripts[self.worker as usize].request(place)
    }
}
