//! A part of a graph with numbers of its own, as a list of links, and how labels settle on it.
ghost use Rattle.std.specs.Prelude.{◌≡◌, ◌^◌, ◌<◌, ◌≤◌, List, length, replicate, slice_index_or};
ghost use Rattle.std.specs.Prelude.{IsTrue, IsFalse, IfOk, MatchOption};
ghost use Rattle.std.specs.Prelude.{if◌then◌else◌, ℤ, pos, ◌+ℤ◌, ◌-ℤ◌, FitsSigned};
ghost use Rattle.std.specs.Int.{w128};
ghost use Rattle.std.specs.List.{All};
ghost use Rattle.path_graph.specs.Conditions.{IsWithin};
ghost use Rattle.path_problem.specs.Net.{link_at, link_weight, AreLinks, AreLabels, gap};
ghost use Rattle.path_problem.specs.Net.{IsSettled, HasSettled, IsShortGain, SettlesOrGains};
ghost use Rattle.path_problem.specs.Window.{weight_limit};

use crate::chain::closed_chain;
use std::alloc::Global;
use wx_text::NoMemory;

/// An arc between two members of a part, which have numbers of their own there.
#[derive(Clone, Copy)]
pub(crate) struct Link {
    /// The number of the member that the arc leaves.
    pub(crate) from: usize,
    /// The number of the member that it leads to.
    pub(crate) to: usize,
    /// What a walk over the arc costs.
    pub(crate) weight: i128,
    /// Whether it is a back arc of the loop that the part is made of.
    pub(crate) back: bool,
    /// The number of the arc in the graph.
    pub(crate) arc: usize,
}

/// What labels come to.
#[derive(Drop)]
pub(crate) enum Settlement {
    /// The values of all members, which no link betters.
    Settled(Vec<i128>),
    /// A closed walk that gains, as numbers of links.
    Gains(Vec<usize>),
}

/// A value above this one, 2^126, is looked at before anything is added to it.
const LIMIT: i128 = 85_070_591_730_234_615_865_843_651_857_942_052_864;

/// What a link costs when a back link pays a price.
fn cost(link: &Link, price: u64) -> i128
    requires { FitsSigned w128 (link.now.weight -ℤ pos (if link.now.back then price else 0)) }
    ensures { result ≡ (link.now.weight -ℤ pos (if link.now.back then price else 0)) }
{
    if link.back {
        link.weight - i128::from(price)
    } else {
        link.weight
    }
}

/// What a number comes to along a link from it.
fn candidate(links: &[Link], price: u64, values: &[i128], number: usize) -> i128
    requires links { AreLinks links.now (length values.now) price (weight_limit (2 ^ 16)) }
    requires number { number < length links.now }
    requires small { All (IsWithin (2 ^ 126)) values.now }
    ensures { result
        ≡ (link_weight links.now price number +ℤ slice_index_or values.now (link_at links.now number).to (pos 0)) }
{
    let link = &links[number];
    cost(link, price) + values[link.to]
}

/// Betters values along each link in turn, and says whether one changed. It ends early where a value passes `LIMIT`.
fn relax(links: &[Link], price: u64, values: &mut [i128], next: &mut [Option<usize>]) -> bool
    requires links { AreLinks links.now (length values.old) price (weight_limit (2 ^ 16)) }
    requires next { length next.old ≡ length values.old }
    requires small { All (IsWithin (2 ^ 126)) values.old }
    ensures labels { (start : List ℤ) → AreLabels links.now (length values.old) price start values.old next.old
        → AreLabels links.now (length values.old) price start values.new next.new }
    ensures settled { IsFalse result → IsSettled links.now price values.new }
    ensures less { IsTrue result → gap values.new < gap values.old }
{
    let mut changed = false;
    for number in 0..links.len() {
        let from = links[number].from;
        let value = candidate(links, price, values, number);
        if value > values[from] {
            values[from] = value;
            next[from] = Some(number);
            changed = true;
            if value > LIMIT {
                return true;
            }
        }
    }
    changed
}

/// Betters labels that begin with some values and point nowhere, until nothing changes or a closed walk is found that
/// gains.
fn better(
    alloc: Global,
    links: &[Link],
    price: u64,
    values: &mut [i128],
    next: &mut [Option<usize>],
) -> Result<Option<Vec<usize>>, NoMemory>
    requires links { AreLinks links.now (length values.old) price (weight_limit (2 ^ 16)) }
    requires few { length values.old ≤ 2 ^ 18 }
    requires small { All (IsWithin (2 ^ 80)) values.old }
    requires next { next.old ≡ replicate (length values.old) None }
    ensures { IfOk result (λ walk. MatchOption walk (HasSettled links.now price values.old values.new)
        (λ w. IsShortGain links.now price w.items)) }
{
    'rounds: while relax(links, price, values, next) {
        match closed_chain(alloc, links, next)? {
            Some(walk) => return Ok(Some(walk)),
            None => {}
        }
    }
    Ok(None)
}

/// Labels that begin with some values, bettered until nothing changes or a closed walk is found that gains.
///
/// A round goes through all links. Where links lead to sources of earlier ones, but for back links, few rounds serve.
pub(crate) fn settle(
    alloc: Global,
    links: &[Link],
    price: u64,
    start: &[i128],
) -> Result<Settlement, NoMemory>
    requires links { AreLinks links.now (length start.now) price (weight_limit (2 ^ 16)) }
    requires few { length start.now ≤ 2 ^ 18 }
    requires small { All (IsWithin (2 ^ 80)) start.now }
    ensures { IfOk result (SettlesOrGains links.now price start.now) }
{
    let mut values = Vec::from_slice(alloc, start)?;
    let mut next = vec![in alloc; None; start.len()]?;
    match better(
        alloc,
        links,
        price,
        values.as_mut_slice(),
        next.as_mut_slice(),
    )? {
        Some(walk) => Ok(Settlement::Gains(walk)),
        None => Ok(Settlement::Settled(values)),
    }
}
