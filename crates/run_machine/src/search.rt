//! Searches in lists that ascend.

ghost use Rattle.std.specs.Prelude.{◌≡◌, ◌<◌, AllPairs};
ghost use Rattle.wx_base.specs.Facts.{AreAscending, TargetsAscend};
ghost use Rattle.wx_base.specs.Monitor.{is_one_of, is_target};
ghost use Rattle.run_machine.specs.Judging.{IsPlace};

use flow_graph::{Function, LoopInfo};
use wx_base::TargetFact;

/// Where the loop of a head stands, or where it would.
pub(crate) fn place_of_head(loops: &[LoopInfo], head: u32) -> Result<usize, usize>
    requires { AllPairs (λ l m. l.head < m.head) loops.now }
    ensures { IsPlace (λ l. l.head) loops.now head result }
{
    loops.binary_search_by_key(&head, |l| l.head)
}

/// Where the function of an entry stands, or where it would.
pub(crate) fn place_of_entry(functions: &[Function], entry: u32) -> Result<usize, usize>
    requires { AllPairs (λ f g. f.entry < g.entry) functions.now }
    ensures { IsPlace (λ f. f.entry) functions.now entry result }
{
    functions.binary_search_by_key(&entry, |f| f.entry)
}

/// Where the fact on an instruction stands, or where it would.
fn place_of_fact(facts: &[TargetFact], address: u32) -> Result<usize, usize>
    requires { AllPairs (λ f g. f.address < g.address) facts.now }
    ensures { IsPlace (λ f. f.address) facts.now address result }
{
    facts.binary_search_by_key(&address, |f| f.address)
}

/// Whether an address is in the list.
pub(crate) fn is_one_of(addresses: &[u32], address: u32) -> bool
    requires { AreAscending addresses.now }
    ensures { result ≡ is_one_of addresses.now address }
{
    addresses.binary_search(&address).is_ok()
}

/// Whether the facts list an address among the targets of an instruction.
pub(crate) fn is_target(facts: &[TargetFact], from: u32, to: u32) -> bool
    requires { TargetsAscend facts.now }
    ensures { result ≡ is_target facts.now from to }
{
    match place_of_fact(facts, from) {
        Ok(i) => is_one_of(facts[i].targets.as_slice(), to),
        Err(_) => false,
    }
}
