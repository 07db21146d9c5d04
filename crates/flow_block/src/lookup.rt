//! What facts list for an address.

ghost use Rattle.std.specs.Prelude.{◌≡◌, IfSome};
ghost use Rattle.wx_base.specs.Facts.{LoopsAscend, TargetsAscend, targets_of};
ghost use Rattle.wx_base.specs.Functions.{fact_of};

use wx_base::{Facts, LoopFact, TargetFacts};

/// The targets that facts on jumps or calls list for the instruction at an address; none where they do not name it.
/// Logarithmic in the facts.
pub fn listed_targets(facts: &TargetFacts, address: u32) -> &[u32]
    requires { TargetsAscend facts.now }
    ensures { result.now ≡ targets_of facts.now address }
{
    let list = facts.as_slice();
    match list.binary_search_by_key(&address, |fact| fact.address) {
        Ok(at) => list[at].targets.as_slice(),
        Err(_) => &[],
    }
}

/// What the facts say of the back edges into a head, if one names it. Logarithmic in the facts.
pub fn loop_fact(facts: &Facts, head: u32) -> Option<LoopFact>
    requires { LoopsAscend facts.now.loops }
    ensures value { result ≡ fact_of facts.now head }
    ensures named { IfSome result (λ fact. fact.address ≡ head) }
{
    let loops = facts.loops.as_slice();
    match loops.binary_search_by_key(&head, |fact| fact.address) {
        Ok(at) => Some(loops[at]),
        Err(_) => None,
    }
}
