//! One box, the passes to it, its rule, and what each step of a pass tells.
ghost use Rattle.std.specs.Prelude.{◌≡◌, ◌≢◌, [], true, false, IfOk};
ghost use Rattle.crossbeam_queue.specs.Passes.{view, IsPassOf, IsSamePass, ruled_capacity};
ghost use Rattle.shard_boxes.specs.{Lines.{after_lines}, Passes.{start_of}};
ghost use Rattle.shard_boxes.specs.{States.{state_of, IsWithin}, inner.Grants.{CanUnite}};
ghost use Rattle.shard_boxes.specs.inner.Passing.{MayPut, Speaks, SpeaksForAll, IsSpare};
ghost use Rattle.shard_boxes.specs.inner.Steps.{TakenBy, maker, opened, put, first_of, rest_of, joined};

use crate::boxes::PhaseName;
use crate::line::{KnownLine, LineName};
use crossbeam_queue::protocol::{Join, Lesson, Outcome, Protocol, Split};
use crossbeam_queue::{Pass, RuledArrayQueue};
use crossbeam_utils::Backoff;
use item_shards::Shard;
use std::alloc::{AllocError, Global};
use std::collections::LinkedList;
use std::marker::{Model, PhantomData};
use std::sync::Wait;

/// What a pass knows; no value of it is made. It is of a phase of so many `workers` that opened
/// with the shard `start`, and speaks for the workers from `first` on, one for each list in `own`.
pub struct Knowledge {
    pub start: Option<Shard>,
    pub workers: u64,
    pub first: u64,
    pub own: LinkedList<LinkedList<KnownLine>>,
    pub seen: LinkedList<(u32, KnownLine)>,
    pub holds: bool,
}

/// The shard lies in the box, or one pass holds it.
pub struct OneShard;

impl Protocol<Shard, Knowledge> for OneShard {
    ghost use Rattle.shard_boxes.specs.inner.{Rule.{BoxRule}, Steps.{maker}};

    ghost holds = { BoxRule };

    ghost first = { maker };
}

/// The holder that speaks for all workers opens a phase: it puts the phase's shard into the box.
pub struct OpenStep<N>(PhantomData<N>);

impl<N: PhaseName> Outcome<Shard, Knowledge> for OpenStep<N> {
    ghost use Rattle.shard_boxes.specs.inner.Steps.{opened};

    ghost then = { λ v shard w. w ≡ opened N.workers shard };
}

impl<N: PhaseName> Lesson<Shard, Knowledge> for OpenStep<N> {
    ghost fact = { λ v items. items ≡ [] };
}

/// A pass takes the shard, if it is there.
pub struct TakeStep;

impl Outcome<Shard, Knowledge> for TakeStep {
    ghost use Rattle.shard_boxes.specs.inner.Steps.{TakenBy};

    ghost then = { TakenBy };
}

/// A pass that speaks for all workers takes the shard: it is there.
pub struct TakeLastStep;

impl Outcome<Shard, Knowledge> for TakeLastStep {
    ghost use Rattle.shard_boxes.specs.inner.Steps.{TakenBy};

    ghost then = { TakenBy };
}

impl Lesson<Shard, Knowledge> for TakeLastStep {
    ghost fact = { λ v items. items ≢ [] };
}

/// The holder puts the shard back, after the line named, if there is one: the box is empty.
pub struct PutStep<L>(PhantomData<L>);

impl<L: LineName> Outcome<Shard, Knowledge> for PutStep<L> {
    ghost use Rattle.shard_boxes.specs.inner.Steps.{put};

    ghost then = { λ v shard w. w ≡ put v L.line };
}

impl<L: LineName> Lesson<Shard, Knowledge> for PutStep<L> {
    ghost fact = { λ v items. items ≡ [] };
}

/// The new pass speaks for the first worker.
pub struct DealStep;

impl Split<Knowledge> for DealStep {
    ghost use Rattle.shard_boxes.specs.inner.Steps.{rest_of, first_of};

    ghost left = { rest_of };

    ghost right = { first_of };
}

/// Unites two passes: the one that stays speaks for the workers of both.
pub struct CollectStep;

impl Join<Knowledge> for CollectStep {
    ghost use Rattle.shard_boxes.specs.inner.Steps.{joined, spent};

    ghost both = { joined };

    ghost spent = { spent };
}

/// A box for one shard.
pub struct ShardBox {
    queue: RuledArrayQueue<Shard, Knowledge, OneShard>,
}

// Not derived: a derived drop is made and proved anew in each crate that lets one go.
impl Drop for ShardBox {
    fn drop(self) {
        let Self { queue } = self;
        drop(queue);
    }
}

impl Model for ShardBox {
    ghost use Rattle.std.specs.Prelude.{◌≡◌};
    ghost use Rattle.atomic_table.specs.Seated.{TableId};
    ghost use Rattle.crossbeam_queue.specs.Passes.{ruled_capacity};

    ghost Value = { TableId };

    ghost view = { λ p. p.queue.table.shared.table_id };

    ghost invariant = { λ p. ruled_capacity p.queue ≡ 1 };
}

/// A right to a box. It has no bytes.
#[derive(Drop)]
pub struct Grant {
    pass: Pass<Shard, Knowledge>,
}

impl Model for Grant {
    ghost use Rattle.std.specs.{Coded.{codes}, Prelude.{◌≡◌, []}};
    ghost use Rattle.item_shards.specs.contracts.shard.Shard as shard;
    ghost use Rattle.shard_boxes.specs.{Passes.{GrantState}, inner.GrantViews.{grant_of}};

    ghost Value = { GrantState };

    ghost coded = { Prim.hlevel (codes, shard.the_row.coded) };

    ghost view = { λ l. grant_of l.pass };

    ghost invariant = { λ l. l.pass.me.1 ≡ [] };
}

impl ShardBox {
    /// An empty box, with its maker's right to open it.
    pub fn new(alloc: Global) -> Result<(ShardBox, Grant), AllocError>
        ensures { IfOk result (λ r. (r.1.box_id ≡ r.0) × (r.1.knows ≡ maker)) }
    {
        let (queue, pass) = RuledArrayQueue::<Shard, Knowledge, OneShard>::ruled(alloc, 1)?;
        Ok((ShardBox { queue }, Grant { pass }))
    }

    /// A phase opens: its shard goes into the box.
    pub fn open<N: PhaseName, R: Wait>(&self, rt: &R, grant: &mut Grant, shard: Shard)
        requires place { grant.old.box_id ≡ self.now }
        requires spare { IsSpare grant.old.knows }
        requires within { IsWithin (state_of shard) }
        ensures { grant.new ≡ record grant.old { knows = opened N.workers shard } }
    {
        match self
            .queue
            .push_as::<OpenStep<N>, R>(rt, &mut grant.pass, shard)
        {
            Ok(()) => (),
            Err(_) => unreachable!(),
        }
    }

    /// Takes the shard: at the first attempt, or once it is in the box.
    #[inline(always)]
    pub fn take<R: Wait>(&self, rt: &R, grant: &mut Grant) -> Shard
        requires place { grant.old.box_id ≡ self.now }
        requires speaks { Speaks grant.old.knows }
        ensures place { grant.new.box_id ≡ grant.old.box_id }
        ensures taken { TakenBy grant.old.knows result grant.new.knows }
    {
        match self.queue.try_pop_as::<TakeStep>(&mut grant.pass) {
            Some(shard) => shard,
            None => take_from(rt, &self.queue, &mut grant.pass),
        }
    }

    /// The holder puts the shard back, after the line that `L` names, if there is one.
    #[inline(always)]
    pub fn put<L: LineName, R: Wait>(&self, rt: &R, grant: &mut Grant, shard: Shard)
        requires place { grant.old.box_id ≡ self.now }
        requires holds { grant.old.knows.holds ≡ true }
        requires may { MayPut (after_lines (start_of grant.old.knows) grant.old.knows.seen)
            (state_of shard) L.line }
        ensures { grant.new ≡ record grant.old { knows = put grant.old.knows L.line } }
    {
        if let Err(shard) = self.queue.try_push_as::<PutStep<L>>(&mut grant.pass, shard) {
            put_into::<L, R>(rt, &self.queue, &mut grant.pass, shard);
        }
    }

    /// A grant for the first worker for which this one speaks.
    pub fn deal(&self, grant: &mut Grant) -> Grant
        requires place { grant.old.box_id ≡ self.now }
        requires speaks { Speaks grant.old.knows }
        requires free { grant.old.knows.holds ≡ false }
        ensures left { grant.new ≡ record grant.old { knows = rest_of grant.old.knows } }
        ensures right { result ≡ record grant.old { knows = first_of grant.old.knows } }
    {
        Grant {
            pass: self.queue.another::<DealStep>(&mut grant.pass),
        }
    }

    /// Unites two grants, the second for the workers that follow those of the first.
    pub fn collect(&self, grant: &mut Grant, other: Grant)
        requires { CanUnite self.now grant.old other }
        ensures { grant.new ≡ record grant.old { knows = joined grant.old.knows other.knows } }
    {
        let Grant { pass } = other;
        self.queue.absorb::<CollectStep>(&mut grant.pass, pass);
    }

    /// Takes the shard by a grant that speaks for all workers.
    pub fn take_last<R: Wait>(&self, rt: &R, grant: &mut Grant) -> Shard
        requires place { grant.old.box_id ≡ self.now }
        requires all { SpeaksForAll grant.old.knows }
        requires free { grant.old.knows.holds ≡ false }
        ensures place { grant.new.box_id ≡ grant.old.box_id }
        ensures taken { TakenBy grant.old.knows result grant.new.knows }
    {
        match self.queue.pop_as::<TakeLastStep, R>(rt, &mut grant.pass) {
            Some(shard) => shard,
            None => unreachable!(),
        }
    }
}

// Tries until the shard is in the box.
#[cold]
#[inline(never)]
fn take_from<R: Wait>(
    rt: &R,
    queue: &RuledArrayQueue<Shard, Knowledge, OneShard>,
    pass: &mut Pass<Shard, Knowledge>,
) -> Shard
    requires queue { IsPassOf queue.now pass.old }
    requires speaks { Speaks (view pass.old) }
    ensures queue { IsSamePass pass.old pass.new }
    ensures taken { TakenBy (view pass.old) result (view pass.new) }
{
    let backoff = Backoff::new();
    for _ in rt.forever() {
        if let Some(shard) = queue.try_pop_as::<TakeStep>(pass) {
            return shard;
        }
        backoff.snooze();
    }
    unreachable!()
}

// Puts the shard into the box, which is empty: an attempt that fails does not tell so.
#[cold]
#[inline(never)]
fn put_into<L: LineName, R: Wait>(
    rt: &R,
    queue: &RuledArrayQueue<Shard, Knowledge, OneShard>,
    pass: &mut Pass<Shard, Knowledge>,
    shard: Shard,
)
    requires queue { IsPassOf queue.now pass.old }
    requires one { ruled_capacity queue.now ≡ 1 }
    requires holds { (view pass.old).holds ≡ true }
    requires may { MayPut (after_lines (start_of (view pass.old)) (view pass.old).seen)
        (state_of shard) L.line }
    ensures queue { IsSamePass pass.old pass.new }
    ensures put { view pass.new ≡ put (view pass.old) L.line }
{
    match queue.push_as::<PutStep<L>, R>(rt, pass, shard) {
        Ok(()) => (),
        Err(_) => unreachable!(),
    }
}
