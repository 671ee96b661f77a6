//! The auction that is served, before it has rows.
ghost use Rattle.std.specs.Prelude.{[], IfErr, IfOk, ◌≡◌};
ghost use Rattle.phase_floor.specs.Adding.{HasBook, IsStartOf};
ghost use Rattle.program_opening.specs.Options.{AreInRange, FitsOptions};

use crate::faults::Fault;
use crate::options::Options;
use phase_floor::Joined;
use run_phases::RunFault;
use std::alloc::Global;

/// The auction that the options ask for, in which nothing is stored, and which lasts. It fails only
/// for want of memory.
pub fn new_auction(alloc: Global, options: &Options) -> Result<Joined, Fault>
    requires { AreInRange options.now }
    ensures fits { IfOk result (FitsOptions options.now) }
    ensures start { IfOk result (λ auction. IsStartOf auction []) }
    ensures has { IfOk result HasBook }
    ensures memory { IfErr result (λ fault. fault ≡ Fault.Run RunFault.Memory) }
{
    match Joined::new(alloc, options.opening(), options.workers, options.shards) {
        Ok(auction) => Ok(auction.lasting()),
        Err(_) => Err(Fault::Run(RunFault::Memory)),
    }
}
