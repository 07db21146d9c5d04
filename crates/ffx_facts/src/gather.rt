//! From what elements say to facts in order.

ghost use Rattle.std.specs.Prelude.{◌≡◌, ◌⊎◌, [], ◌≤◌, IfOk, length, map, take_while};
ghost use Rattle.ffx_facts.specs.Pieces.{is_same_kind};
ghost use Rattle.ffx_facts.specs.declared.kind.Kind.TheVariants as Sort;
ghost use Rattle.std.specs.List.{IsDistinct};
ghost use Rattle.std.specs.List.Sorted.{IsPermutation};
ghost use Rattle.wx_base.specs.Facts.{AreAscending, LoopsAscend, TargetsAscend};
ghost use Rattle.ffx_facts.specs.Faults.{is_same_fact};
ghost use Rattle.ffx_facts.specs.Order.{AreFacts, leading_targets as targets_in, loop_facts, put_all, target_facts};

use crate::kind::Kind;
use crate::says::Says;
use std::alloc::{AllocError, Global};
use std::collections::BTreeSet;
use wx_base::{Addresses, Facts, LoopFact, LoopFacts, TargetFact, TargetFacts};

// The facts that elements say, each list in the order of addresses.
pub(crate) fn gather(alloc: Global, all: &[Says]) -> Result<Facts, AllocError>
    requires { IsDistinct is_same_fact all.now }
    ensures { IfOk result (AreFacts all.now) }
{
    Ok(Facts {
        loops: LoopFacts::new(gather_loops(alloc, all)?),
        branches: TargetFacts::new(gather_targets(alloc, all, Kind::MultiBranch)?),
        calls: TargetFacts::new(gather_targets(alloc, all, Kind::MultiCall)?),
    })
}

// The facts on loops.
fn gather_loops(alloc: Global, all: &[Says]) -> Result<Vec<LoopFact>, AllocError>
    requires { IsDistinct is_same_fact all.now }
    ensures facts { IfOk result (λ v. IsPermutation (loop_facts all.now) v.items) }
    ensures ascend { IfOk result (λ v. LoopsAscend v.items) }
{
    let mut loops = Vec::new(alloc);
    for says in all {
        if let (Kind::Loop, Some(bounds)) = (says.kind, says.bounds) {
            loops.push(LoopFact {
                address: says.address,
                maxcount: bounds.maxcount,
                totalcount: bounds.totalcount,
            })?;
        }
    }
    loops.sort_by_key(|fact| fact.address)?;
    Ok(loops)
}

// The facts on jumps or calls, whichever is asked for.
fn gather_targets(alloc: Global, all: &[Says], kind: Kind) -> Result<Vec<TargetFact>, AllocError>
    requires once { IsDistinct is_same_fact all.now }
    requires kind { (kind ≡ Kind.MultiBranch) ⊎ (kind ≡ Kind.MultiCall) }
    ensures facts { IfOk result (λ v. IsPermutation (target_facts kind all.now) v.items) }
    ensures ascend { IfOk result (λ v. TargetsAscend v.items) }
{
    let mut facts = Vec::new(alloc);
    for (i, says) in all.iter().enumerate() {
        if says.kind.is(kind) {
            facts.push(TargetFact {
                address: says.address,
                targets: targets_of(alloc, &all[i + 1..])?,
            })?;
        }
    }
    facts.sort_by_key(|fact| fact.address)?;
    Ok(facts)
}

// The addresses of the targets that come first in a list, in order and each once.
fn targets_of(alloc: Global, all: &[Says]) -> Result<Addresses, AllocError>
    ensures targets { IfOk result (λ a. a ≡ put_all [] (targets_in all.now)) }
    ensures ascend { IfOk result (λ a. AreAscending a) }
{
    let mut targets = BTreeSet::new(alloc);
    for says in leading_targets(all) {
        targets.insert(says.address)?;
    }
    Ok(Addresses::new(in_order(alloc, &targets)?))
}

// The addresses of a set, in order.
fn in_order(alloc: Global, addresses: &BTreeSet<u32>) -> Result<Vec<u32>, AllocError>
    ensures { IfOk result (λ v. v.items ≡ addresses.now.keys) }
{
    addresses.iter().copied().collect(alloc)
}

// The targets that come first in a list.
fn leading_targets(all: &[Says]) -> &[Says]
    ensures { result.now ≡ take_while (λ s. is_same_kind s.kind Sort.Target) all.now }
{
    &all[..count_targets(all)]
}

// How many targets come first in a list.
fn count_targets(all: &[Says]) -> usize
    ensures count { result ≡ length (take_while (λ s. is_same_kind s.kind Sort.Target) all.now) }
    ensures within { result ≤ length all.now }
{
    all.iter()
        .take_while(|says| says.kind.is(Kind::Target))
        .count()
}
