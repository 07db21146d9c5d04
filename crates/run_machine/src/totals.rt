//! How often a run moved back into each head of a loop.

ghost use Rattle.std.specs.Prelude.{◌≡◌, ◌+◌, ◌-◌, ◌<◌, ◌^◌, not, IfOk, OnOk};
ghost use Rattle.wx_base.specs.Monitor.{exceeds};
ghost use Rattle.wx_base.specs.State.{replaced};
ghost use Rattle.run_machine.specs.Judging.{totals_of};

use std::alloc::Global;
use std::collections::HashMap;
use wx_base::NoMemory;

/// How often a run moved into each head of a loop along a back edge, over all activations: a count for each head to
/// which it did.
#[derive(Drop)]
pub(crate) struct Totals {
    pub(crate) counts: HashMap<u32, u32>,
}

impl Totals {
    /// No move was made.
    pub(crate) fn new(alloc: Global) -> Totals
        ensures { totals_of result ≡ (λ head. 0) }
    {
        Totals {
            counts: HashMap::new(alloc),
        }
    }

    /// How often the run moved back into a head.
    fn get(&self, head: u32) -> u32
        ensures { result ≡ totals_of self.now head }
    {
        match self.counts.get(&head) {
            Some(count) => *count,
            None => 0,
        }
    }

    /// Counts a move back into a head; says whether there are not more of them than the bound, if there is one.
    ///
    /// `NoMemory` where there is no room for the first count of a head.
    pub(crate) fn count(&mut self, head: u32, most: Option<u32>) -> Result<bool, NoMemory>
        requires few { totals_of self.old head < 2 ^ 32 - 1 }
        ensures kept { IfOk result (λ kept. kept ≡ not (exceeds (totals_of self.old head + 1) most)) }
        ensures counted { OnOk result (totals_of self.new
            ≡ replaced (totals_of self.old) head (totals_of self.old head + 1)) }
    {
        let total = self.get(head) + 1;
        self.counts.insert(head, total)?;
        match most {
            Some(most) => Ok(total <= most),
            None => Ok(true),
        }
    }
}
