//! One phase of a run, joined or split: what it gives each worker, its begin and its close.
ghost use Rattle.std.specs.Prelude.{◌≡◌, ◌++◌, ◌-◌, ◌<◌, ℕ, length, min, slice_index, not, IfOk, OnOk, IfErr};
ghost use Rattle.run_laws.specs.{Phases.{is_split}, Serving.{script_of}};
ghost use Rattle.worker_journals.specs.Merged.{added, merged};
ghost use Rattle.phase_floor.specs.States.{states_of};
ghost use Rattle.phase_floor.specs.declared.floor.BeginFault.TheVariants.{Memory};
ghost use Rattle.phase_workers.specs.Tasks.{tasks};
ghost use Rattle.run_phases.specs.{Phases.{IsMet}, declared.faults.RunFault.{RunFault}};
ghost use Rattle.run_phases.specs.inner.{Closed.{HasPerformedPhase}, Plans.{IsPlanOf, MayPerform}};
ghost use Rattle.run_phases.specs.inner.Serving.{CanPerform, HasBegunPhase, HasEnded};

use crate::faults::RunFault;
use crate::plan::PhasePlan;
use auction_rows::{Object, Policy};
use indexmap::IndexSet;
use phase_floor::{BeginFault, Floor, Joined, JoinedFloor, SplitFloor};
use phase_permits::{
    JoinedPermit, JoinedPhase, Kind, Permit, PermitFault, SplitPermit, SplitPhase, Stash,
};
use phase_workers::{Gate, serve_all};
use shard_boxes::PhaseName;
use std::alloc::{AllocError, Global};
use std::marker::Brand;
use std::sync::Wait;
use std::thread::Threads;
use worker_journals::{History, Script, SharedScripts};

/// What a run performs.
#[derive(Drop)]
pub struct Workload<'a, G> {
    /// The scripts of its workers.
    pub scripts: &'a SharedScripts,
    /// How they are divided into phases.
    pub policy: Policy,
    /// What is told of each request, before and after it.
    pub gate: &'a G,
}

/// A run between two phases.
#[derive(Drop)]
pub(crate) struct Running {
    pub(crate) state: Joined,
    pub(crate) history: History,
    pub(crate) hot: Vec<IndexSet<Object>>,
    pub(crate) stashes: Vec<Stash>,
}

/// How many requests each worker is given: the quota, or what is left of its script from its
/// request `first` on.
#[inline(always)]
pub(crate) fn worker_quotas(
    alloc: Global,
    scripts: &[Script],
    quota: u32,
    first: u64,
) -> Result<Vec<u32>, AllocError>
    ensures len { IfOk result (λ quotas. length quotas.items ≡ length scripts.now) }
    ensures each { IfOk result (λ quotas. (worker : ℕ) → worker < length scripts.now →
        slice_index quotas.items worker
        ≡ min quota (length (script_of scripts.now worker) - first)) }
{
    let mut quotas = Vec::with_capacity(alloc, scripts.len())?;
    for script in scripts {
        let left = (script.len() as u64).saturating_sub(first);
        quotas.push(left.min(u64::from(quota)) as u32)?;
    }
    Ok(quotas)
}

/// One phase, from its begin to its close: its entries go to the end of the history. Its hot set
/// is not yet among those of the run.
#[inline(always)]
pub(crate) fn perform_phase<R: Threads + Wait + Sync, G: Gate + Sync>(
    rt: &R,
    alloc: Global,
    running: Running,
    hot: &IndexSet<Object>,
    plan: PhasePlan<'_, G>,
) -> Result<Running, RunFault>
    requires plan { IsPlanOf plan running.state.phase }
    requires may { MayPerform plan.policy plan.round.scripts.now running.state
        running.stashes.items hot.now.keys }
    ensures performed { IfOk result (HasPerformedPhase plan.entry.policy
        plan.entry.round.scripts.now hot.now.keys running) }
    ensures fault { IfErr result (IsMet plan.entry.round.scripts.now) }
{
    if running.state.phase() % 2 == 0 {
        return perform_kind::<Brand, JoinedPhase, R, G>(rt, alloc, running, hot, plan);
    }
    perform_kind::<Brand, SplitPhase, R, G>(rt, alloc, running, hot, plan)
}

/// What a run answers where a phase does not begin.
pub(crate) fn begin_fault(fault: BeginFault) -> RunFault
    requires { fault ≡ Memory }
    ensures { result ≡ RunFault.Memory }
{
    match fault {
        BeginFault::Memory => RunFault::Memory,
        BeginFault::UnknownHot | BeginFault::TooLong => unreachable!(),
    }
}

/// How a phase of a kind begins.
pub(crate) trait BeginKind: Kind {
    ghost use Rattle.std.specs.Prelude.{◌≡◌, not, length, IfOk, IfErr};
    ghost use Rattle.run_laws.specs.{Phases.{is_split}, Run.{first_index}};
    ghost use Rattle.phase_floor.specs.States.{states_of};
    ghost use Rattle.run_phases.specs.declared.faults.RunFault.TheVariants.{Memory};
    ghost use Rattle.run_phases.specs.inner.{Plans.{MayPerform}, Serving.{HasBegunPhase}};

    /// Begins it: each worker is given its quota, and what waits in its stash.
    fn begin<N: PhaseName, R: Wait, G>(
        rt: &R,
        alloc: Global,
        before: (Joined, Vec<Stash>),
        hot: &IndexSet<Object>,
        plan: &PhasePlan<'_, G>,
    ) -> Result<(Floor<N, Self>, Vec<Permit<N, Self>>), RunFault>
        requires shards { states_of before.0 ≡ N.initial }
        requires workers { length before.0.counters ≡ N.workers }
        requires kind { is_split before.0.phase ≡ not Self.IS_JOINED }
        requires first { plan.now.round.first ≡ first_index plan.now.policy before.0.phase }
        requires may { MayPerform plan.now.policy plan.now.round.scripts.now before.0
            before.1.items hot.now.keys }
        ensures begun { IfOk result (λ begun.
            HasBegunPhase plan.entry.now.policy plan.entry.now.round.scripts.now before.0
            before.1.items hot.now.keys begun.0 begun.1.items) }
        ensures fault { IfErr result (λ fault. fault ≡ Memory) };
}

impl BeginKind for JoinedPhase {
    fn begin<N: PhaseName, R: Wait, G>(
        rt: &R,
        alloc: Global,
        before: (Joined, Vec<Stash>),
        _hot: &IndexSet<Object>,
        plan: &PhasePlan<'_, G>,
    ) -> Result<(JoinedFloor<N>, Vec<JoinedPermit<N>>), RunFault> {
        let quotas = worker_quotas(
            alloc,
            plan.round.scripts,
            plan.policy.joined_quota,
            plan.round.first,
        )?;
        let (state, stashes) = before;
        match state.begin_joined::<N, R>(rt, alloc, &quotas, stashes) {
            Ok(begun) => Ok(begun),
            Err((_state, _stashes, fault)) => Err(begin_fault(fault)),
        }
    }
}

// Nothing waits before a split phase, so the stashes are memory alone.
impl BeginKind for SplitPhase {
    fn begin<N: PhaseName, R: Wait, G>(
        rt: &R,
        alloc: Global,
        before: (Joined, Vec<Stash>),
        hot: &IndexSet<Object>,
        plan: &PhasePlan<'_, G>,
    ) -> Result<(SplitFloor<N>, Vec<SplitPermit<N>>), RunFault> {
        let quotas = worker_quotas(
            alloc,
            plan.round.scripts,
            plan.policy.split_quota,
            plan.round.first,
        )?;
        let (state, stashes) = before;
        match state.begin_split_in::<N, R>(rt, alloc, &quotas, hot, stashes) {
            Ok(begun) => Ok(begun),
            Err((_state, fault)) => Err(begin_fault(fault)),
        }
    }
}

/// A phase of a kind, under a name of its shards and workers.
pub(crate) fn perform_kind<N, K, R, G>(
    rt: &R,
    alloc: Global,
    running: Running,
    hot: &IndexSet<Object>,
    plan: PhasePlan<'_, G>,
) -> Result<Running, RunFault>
where
    N: PhaseName + Send + Sync,
    K: BeginKind + Send,
    R: Threads + Wait + Sync,
    G: Gate + Sync,
    requires shards { states_of running.state ≡ N.initial }
    requires workers { length running.state.counters ≡ N.workers }
    requires kind { is_split running.state.phase ≡ not K.IS_JOINED }
    requires plan { IsPlanOf plan running.state.phase }
    requires may { MayPerform plan.policy plan.round.scripts.now running.state
        running.stashes.items hot.now.keys }
    ensures performed { IfOk result (HasPerformedPhase plan.entry.policy
        plan.entry.round.scripts.now hot.now.keys running) }
    ensures fault { IfErr result (IsMet plan.entry.round.scripts.now) }
{
    let Running {
        state,
        mut history,
        hot: hot_before,
        stashes,
    } = running;
    let begun = K::begin::<N, R, G>(rt, alloc, (state, stashes), hot, &plan)?;
    let (state, stashes) = perform_begun(rt, alloc, &mut history, begun, plan)?;
    Ok(Running {
        state,
        history,
        hot: hot_before,
        stashes,
    })
}

// What a phase of either kind does once it has begun: its workers do their tasks, and it closes.
fn perform_begun<N, K, R, G>(
    rt: &R,
    alloc: Global,
    history: &mut History,
    begun: (Floor<N, K>, Vec<Permit<N, K>>),
    plan: PhasePlan<'_, G>,
) -> Result<(Joined, Vec<Stash>), RunFault>
where
    N: PhaseName + Send + Sync,
    K: Kind + Send,
    R: Threads + Wait + Sync,
    G: Gate + Sync,
    requires ready { CanPerform K.IS_JOINED N.initial begun.0 begun.1.items
        plan.round.scripts.now plan.round.phase plan.round.first }
    ensures history { OnOk result (history.new.entries
        ≡ history.old.entries ++ added history.old.entries history.new.entries) }
    ensures last { OnOk result
        (merged history.new.last ≡ added history.old.entries history.new.entries) }
    ensures ended { IfOk result (λ ended. HasEnded K.IS_JOINED N.initial begun.0
        (tasks begun.1.items plan.entry.round.scripts.now plan.entry.round.first)
        (added history.old.entries history.new.entries) ended.0 ended.1.items) }
    ensures fault { IfErr result (IsMet plan.entry.round.scripts.now) }
{
    let (floor, permits) = begun;
    let (receipts, done) = serve_all(rt, alloc, floor.boxes(), permits, plan.round)?;
    match done {
        Ok(()) => {
            let ended = floor.close_on(rt, alloc, history, receipts, Some(plan.scripts))?;
            Ok(ended)
        }
        Err(met) => match met {
            PermitFault::Memory => Err(RunFault::Memory),
            // A phase that closes had numbers enough.
            PermitFault::NumberFull => match floor.close(rt, alloc, history, receipts) {
                Ok(_) => unreachable!(),
                Err(fault) => Err(fault.into()),
            },
        },
    }
}
