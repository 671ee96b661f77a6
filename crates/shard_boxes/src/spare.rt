//! Boxes between two phases: each is empty, and may be opened for another phase.
ghost use Rattle.std.specs.Prelude.{◌≡◌, IfOk, vec_len};
ghost use Rattle.shard_boxes.specs.inner.Grants.{AreSpare};

use crate::shard_box::{Grant, ShardBox};
use std::alloc::{AllocError, Global};
use std::marker::Model;

/// Empty boxes, kept for another phase. Contracts see how many there are.
pub struct Spare {
    pub(crate) boxes: Vec<ShardBox>,
    pub(crate) grants: Vec<Grant>,
}

// Not derived: a derived drop is made and proved anew in each crate that lets one go.
impl Drop for Spare {
    fn drop(self) {
        let Self { boxes, grants } = self;
        drop(boxes);
        drop(grants);
    }
}

impl Model for Spare {
    ghost use Rattle.std.specs.Prelude.{ℕ, length};
    ghost use Rattle.shard_boxes.specs.inner.Grants.{AreSpare};

    ghost Value = { ℕ };

    ghost view = { λ s. length s.boxes.items };

    ghost invariant = { λ s. AreSpare s.boxes.items s.grants.items };
}

impl Spare {
    /// No boxes. It takes no memory.
    pub fn none(alloc: Global) -> Spare
        ensures { result ≡ 0 }
    {
        let boxes = Vec::new(alloc);
        let grants = Vec::new(alloc);
        Spare { boxes, grants }
    }

    // So many boxes, with the right to open each: these, if they are as many, else new ones.
    pub(crate) fn boxes(
        self,
        alloc: Global,
        count: usize,
    ) -> Result<(Vec<ShardBox>, Vec<Grant>), AllocError>
        ensures len { IfOk result (λ r. vec_len r.0 ≡ count) }
        ensures spare { IfOk result (λ r. AreSpare r.0.items r.1.items) }
    {
        let Spare { boxes, grants } = self;
        if boxes.len() == count {
            return Ok((boxes, grants));
        }
        make_boxes(alloc, count)
    }
}

// Makes empty boxes, with their makers' grants.
fn make_boxes(alloc: Global, count: usize) -> Result<(Vec<ShardBox>, Vec<Grant>), AllocError>
    ensures len { IfOk result (λ r. vec_len r.0 ≡ count) }
    ensures spare { IfOk result (λ r. AreSpare r.0.items r.1.items) }
{
    let mut boxes = Vec::new(alloc);
    let mut grants = Vec::new(alloc);
    for _ in 0..count {
        let (shard_box, grant) = ShardBox::new(alloc)?;
        boxes.push(shard_box)?;
        grants.push(grant)?;
    }
    Ok((boxes, grants))
}
