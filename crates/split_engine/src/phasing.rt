//! Which keys are hot: those that many splittable requests named. No promise of a run depends on
//! this choice.
ghost use Rattle.std.specs.Prelude.{◌≡◌, length, IfOk};

use crate::application::Application;
use crate::entry::Entry;
use crate::few::Few;
use crate::runs::Policy;
use std::alloc::{AllocError, Global};

/// How a run is divided into phases, and which keys are hot in the next split one. A choice costs
/// what the requests name by which it is made.
#[derive(Drop)]
pub(crate) struct Phasing {
    pub(crate) policy: Policy,
    /// Of each key, whether it is hot.
    pub(crate) hot: Vec<bool>,
    // How often splittable requests named each key, and which keys they named.
    counts: Vec<u32>,
    named: Vec<u32>,
}

impl Phasing {
    /// Of so many keys none is hot, unless the threshold is 0: then all are.
    pub(crate) fn new(alloc: Global, size: usize, policy: Policy) -> Result<Phasing, AllocError>
        ensures { IfOk result (λ phasing. length phasing.hot.items ≡ size) }
    {
        let hot = vec![in alloc; policy.threshold == 0; size]?;
        let counts = vec![in alloc; 0u32; size]?;
        Ok(Phasing {
            policy,
            hot,
            counts,
            named: Vec::new(alloc),
        })
    }

    // A key is named this often.
    fn set_count(&mut self, key: u32, count: u32)
        ensures hot { length self.new.hot.items ≡ length self.old.hot.items }
        ensures named { self.new.named ≡ self.old.named }
    {
        if let Some(counted) = self.counts.get_mut(key as usize) {
            *counted = count;
        }
        let is_hot = count >= self.policy.threshold;
        if let Some(hot) = self.hot.get_mut(key as usize) {
            *hot = is_hot;
        }
    }

    // No key is named.
    fn forget(&mut self)
        ensures { length self.new.hot.items ≡ length self.old.hot.items }
    {
        for place in 0..self.named.len() {
            let key = self.named[place];
            self.set_count(key, 0);
        }
        self.named.clear();
    }

    // One more request names a key.
    fn count_key(&mut self, key: u32) -> Result<(), AllocError>
        ensures { length self.new.hot.items ≡ length self.old.hot.items }
    {
        let count = self.counts.get(key as usize).copied().unwrap_or(0);
        if count == 0 {
            self.named.push(key)?;
        }
        self.set_count(key, count.saturating_add(1));
        Ok(())
    }

    // One more request names these keys.
    fn count_keys(&mut self, keys: &Few<u32>) -> Result<(), AllocError>
        ensures { length self.new.hot.items ≡ length self.old.hot.items }
    {
        for key in keys.iter() {
            self.count_key(key)?;
        }
        Ok(())
    }

    /// Chooses by the splittable requests of these commits.
    pub(crate) fn choose<A: Application>(
        &mut self,
        commits: &[Entry<A::Request, A::Reply>],
    ) -> Result<(), AllocError>
        ensures { length self.new.hot.items ≡ length self.old.hot.items }
    {
        self.forget();
        for commit in commits {
            let request = commit.request;
            if A::splits(&request) {
                let keys = A::keys(&request);
                self.count_keys(&keys)?;
            }
        }
        Ok(())
    }
}
