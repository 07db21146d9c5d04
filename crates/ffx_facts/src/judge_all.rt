ghost use Rattle.std.specs.Prelude.{◌≡◌, ◌&&◌, ◌||◌, ℕ, not, map, IfOk, OnOk, MatchResult, false};
ghost use Rattle.ffx_facts.specs.declared.kind.Kind.{Kind as Sort};
ghost use Rattle.ffx_facts.specs.Faults.{AreFine, is_fact_at, states};
ghost use Rattle.ffx_facts.specs.Memory.{was_seen};
ghost use Rattle.ffx_facts.specs.Refusals.{IsValueRefusal};
ghost use Rattle.ffx_facts.specs.Scan.{element as read_as};

use crate::element::Element;
use crate::error::FactsError;
use crate::judge::judge;
use crate::kind::Kind;
use crate::says::Says;
use crate::seen::Seen;
use std::alloc::{AllocError, Global};
use std::collections::BTreeSet;
use wx_base::Symbol;

// What all elements say, or what is wrong with the first that has a fault.
pub(crate) fn judge_all(
    alloc: Global,
    symbols: &[Symbol],
    elements: &[Element],
) -> Result<Vec<Says>, FactsError>
    ensures { MatchResult result (λ v. AreFine symbols.now (map read_as elements.now) v.items)
        (IsValueRefusal symbols.now (map read_as elements.now)) }
{
    let mut all = Vec::new(alloc);
    let mut seen = Seen::new(alloc);
    for element in elements {
        let says = judge(symbols, element)?;
        if !seen.is_first(&says)? {
            let address = says.address;
            return Err(FactsError::Twice { address });
        }
        all.push(says)?;
    }
    Ok(all)
}

impl Seen {
    fn new(alloc: Global) -> Seen
        ensures { (kind : Sort) (address : ℕ) → was_seen result kind address ≡ false }
    {
        Seen {
            loops: BTreeSet::new(alloc),
            branches: BTreeSet::new(alloc),
            calls: BTreeSet::new(alloc),
        }
    }

    // Whether this is no fact, or the first of its kind at its address; then the address is kept.
    fn is_first(&mut self, says: &Says) -> Result<bool, AllocError>
        ensures first { IfOk result
            (λ first. first ≡ not (states says.now.kind says.now.bounds
            && was_seen self.old says.now.kind says.now.address)) }
        ensures seen { OnOk result ((kind : Sort) (address : ℕ) → was_seen self.new kind address
            ≡ (was_seen self.old kind address || is_fact_at kind address says.now)) }
    {
        match (says.kind, says.bounds) {
            (Kind::Loop, Some(_)) => Ok(self.loops.insert(says.address)?),
            (Kind::MultiBranch, _) => Ok(self.branches.insert(says.address)?),
            (Kind::MultiCall, _) => Ok(self.calls.insert(says.address)?),
            (Kind::Loop | Kind::FlowFacts | Kind::Function | Kind::Target, _) => Ok(true),
        }
    }
}
