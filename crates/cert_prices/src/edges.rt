//! What edges cost for the loops that they enter, and give back for the loops that they go back in.

ghost use Rattle.std.specs.Prelude.{◌≡◌, ◌+◌, ◌<◌, ◌≤◌, ◌^◌, if◌then◌else◌, is_some, length, map, replicate, All, IfOk};
ghost use Rattle.flow_ctx.specs.Unfolding.{IsLoop, IsUnfolding};
ghost use Rattle.wx_base.specs.Facts.{AreAscending};
ghost use Rattle.cert_rules.specs.Rules.{HasSmallNumbers, greatest_number};
ghost use Rattle.cert_rules.specs.Prices.{head_address, total_price};
ghost use Rattle.cert_prices.specs.Sums.{AreBackPrices, AreEdgePrices, AreGiven, Sets};

use crate::loops::{entry_prices, zeros};
use crate::totals::{head_address, total_price};
use cert_text::{Certificate, TotalPrice};
use flow_ctx::{ULoop, Unfolded};
use std::alloc::Global;
use wx_text::{List, NoMemory};

/// What each edge of an unfolding costs and gives back, by its number, in cycles.
#[derive(Debug, Drop)]
pub struct EdgePrices {
    /// What an edge costs that enters a loop: the loop's charges, and its multiplier for each back edge that a stay may
    /// take.
    pub entering: List<u128>,
    /// What an edge gives back that goes back in a loop: the loop's multiplier, and the price of its total.
    pub returning: List<u128>,
}

/// What a back edge of each loop gives back.
fn back_prices(alloc: Global, u: &Unfolded, c: &Certificate) -> Result<Vec<u128>, NoMemory>
    requires unfolding { IsUnfolding u.now.program u.now }
    requires small { HasSmallNumbers c.now }
    requires multipliers { length c.now.multipliers ≡ length u.now.loops }
    requires ascending { AreAscending (map (λ t. t.address) c.now.totals) }
    ensures prices { IfOk result (λ prices. AreBackPrices c.now u.now u.now.loops prices.items) }
    ensures bound { IfOk result (λ prices. All (λ price. price < 2 ^ 126) prices.items) }
{
    let mut prices = Vec::new(alloc);
    let loops = u.loops.as_slice();
    let multipliers = c.multipliers.as_slice();
    let totals = c.totals.as_slice();
    for number in 0..loops.len() {
        prices.push(back_price(u, &loops[number], multipliers[number], totals))?;
    }
    Ok(prices)
}

/// What a back edge of a loop gives back.
fn back_price(u: &Unfolded, l: &ULoop, multiplier: u64, totals: &[TotalPrice]) -> u128
    requires is { IsLoop u.now.program u.now.nodes u.now.edges l.now }
    requires small { All (λ total. total.amount ≤ greatest_number) totals.now }
    requires ascending { AreAscending (map (λ t. t.address) totals.now) }
    ensures price { result ≡ multiplier
        + (if is_some l.now.totalcount then total_price totals.now (head_address u.now l.now) else 0) }
    ensures bound { result < 2 ^ 126 }
{
    match l.totalcount {
        Some(_) => u128::from(multiplier) + u128::from(total_price(totals, head_address(u, l))),
        None => u128::from(multiplier),
    }
}

/// Gives some edges an amount.
fn set_edges(amounts: &mut [u128], edges: &[u32], amount: u128)
    requires { All (λ edge. edge < length amounts.old) edges.now }
    ensures { Sets edges.now amount amounts.old amounts.new }
{
    for edge in edges {
        amounts[*edge as usize] = amount;
    }
}

/// Gives the edges of a loop the loop's prices.
fn set_loop(entering: &mut [u128], returning: &mut [u128], l: &ULoop, entry: u128, back: u128)
    requires entries { All (λ edge. edge < length entering.old) l.now.entries }
    requires backs { All (λ edge. edge < length returning.old) l.now.back }
    ensures entering { Sets l.now.entries entry entering.old entering.new }
    ensures returning { Sets l.now.back back returning.old returning.new }
{
    set_edges(entering, l.entries.as_slice(), entry);
    set_edges(returning, l.back.as_slice(), back);
}

/// Gives the edges of each loop the loop's prices.
fn set_loops(
    entering: &mut [u128],
    returning: &mut [u128],
    u: &Unfolded,
    entries: &[u128],
    backs: &[u128],
)
    requires unfolding { IsUnfolding u.now.program u.now }
    requires entering { entering.old ≡ replicate (length u.now.edges) 0 }
    requires returning { returning.old ≡ replicate (length u.now.edges) 0 }
    requires entries { length entries.now ≡ length u.now.loops }
    requires small_entries { All (λ price. price < 2 ^ 126) entries.now }
    requires backs { length backs.now ≡ length u.now.loops }
    requires small_backs { All (λ price. price < 2 ^ 126) backs.now }
    ensures entering { AreGiven (λ l. l.entries) u.now.loops (length u.now.edges) entries.now entering.new }
    ensures returning { AreGiven (λ l. l.back) u.now.loops (length u.now.edges) backs.now returning.new }
    ensures small_entering { All (λ price. price < 2 ^ 126) entering.new }
    ensures small_returning { All (λ price. price < 2 ^ 126) returning.new }
{
    let loops = u.loops.as_slice();
    for number in 0..loops.len() {
        set_loop(
            entering,
            returning,
            &loops[number],
            entries[number],
            backs[number],
        );
    }
}

/// What each edge costs and gives back. The time is that of the charges, the edges, and the loops with their edges.
pub fn edge_prices(alloc: Global, u: &Unfolded, c: &Certificate) -> Result<EdgePrices, NoMemory>
    requires unfolding { IsUnfolding u.now.program u.now }
    requires small { HasSmallNumbers c.now }
    requires multipliers { length c.now.multipliers ≡ length u.now.loops }
    requires ascending { AreAscending (map (λ t. t.address) c.now.totals) }
    ensures prices { IfOk result (λ prices. AreEdgePrices c.now u.now prices.entering prices.returning) }
    ensures bound { IfOk result (λ prices. All (λ price. price < 2 ^ 127) prices.entering
        × All (λ price. price < 2 ^ 127) prices.returning) }
{
    let loops = u.loops.as_slice();
    let entries = entry_prices(alloc, loops, c)?;
    let backs = back_prices(alloc, u, c)?;
    let count = u.edges.len();
    let mut entering = zeros(alloc, count)?;
    let mut returning = zeros(alloc, count)?;
    set_loops(
        entering.as_mut_slice(),
        returning.as_mut_slice(),
        u,
        entries.as_slice(),
        backs.as_slice(),
    );
    Ok(EdgePrices {
        entering: List::new(entering),
        returning: List::new(returning),
    })
}
