//! What some chosen totals come to: their prices, potentials and value, or why they are too large.
ghost use Rattle.std.specs.Prelude.{◌≡◌, ℕ, ◌+◌, ◌*◌, ◌/◌, ◌^◌, ◌<◌, ◌≤◌, ◌↔◌, length, slice_index, IfOk, IsTrue};
ghost use Rattle.std.specs.Prelude.{pos, ◌≤ℤ◌};
ghost use Rattle.path_problem.specs.Choice.{IsLess, origin_worth as worth_of_origin, path_value};
ghost use Rattle.path_graph.specs.Conditions.{IsGraph, IsBounded, HasPrices, AreBounded};
ghost use Rattle.path_graph.specs.Graph.{finish_at};
ghost use Rattle.path_problem.specs.Layout.{IsLayout};
ghost use Rattle.path_problem.specs.Need.{HasNeeds};
ghost use Rattle.path_problem.specs.Potential.{NoClosedGain};
ghost use Rattle.path_problem.specs.Solution.{number, IsOutcome, worth_of};

use crate::layout::Layout;
use crate::needs::prices_on;
use crate::path_error::PathError;
use crate::potential::potentials_on;
use path_graph::{Graph, LARGEST, LoopPrices};
use std::alloc::Global;
use wx_text::NoMemory;

/// A sum of products, which may pass 2^128: how often it has 2^64, and what is left.
#[derive(Clone, Copy)]
pub(crate) struct Amount {
    /// How often 2^64 is in it.
    pub(crate) high: u128,
    /// What is left.
    pub(crate) low: u64,
}

/// Prices and potentials with their value.
#[derive(Drop)]
pub(crate) struct Solution {
    /// The prices.
    pub(crate) prices: LoopPrices,
    /// The potentials at these prices.
    pub(crate) potentials: Vec<u64>,
    /// What walks from the start come to at most, with all that loops and totals allow.
    pub(crate) value: Amount,
}

/// What some chosen totals come to.
#[derive(Drop)]
pub(crate) enum Outcome {
    /// A value, with the prices and potentials that make it.
    Solved(Solution),
    /// A need or a potential is too large.
    TooLarge(PathError),
}

/// 2^64.
const LIMB: u128 = 18_446_744_073_709_551_616;

/// An amount with a term added.
fn plus(amount: Amount, term: u128) -> Amount
    requires term { term < 2 ^ 92 }
    requires room { amount.high < 2 ^ 127 }
    ensures number { number result ≡ number amount + term }
    ensures high { result.high ≤ amount.high + 2 ^ 29 }
{
    let sum = u128::from(amount.low) + term;
    Amount {
        high: amount.high + sum / LIMB,
        low: (sum % LIMB) as u64,
    }
}

/// A count at a price.
fn product(count: u64, price: u64) -> u128
    requires count { count < 2 ^ 32 }
    requires price { price ≤ LARGEST }
    ensures product { result ≡ count * price }
    ensures small { result < 2 ^ 92 }
{
    u128::from(count) * u128::from(price)
}

/// What the loop allows that the start is in from the beginning.
fn origin_worth(graph: &Graph, prices: &LoopPrices) -> u128
    requires graph { IsGraph graph.now }
    requires bounded { IsBounded graph.now }
    requires prices { HasPrices graph.now prices.now }
    requires few { AreBounded prices.now }
    ensures worth { result ≡ worth_of_origin graph.now prices.now graph.now.origin }
    ensures small { result < 2 ^ 92 }
{
    match graph.origin {
        Some(number) => {
            let number = number as usize;
            product(
                graph.loops.as_slice()[number].maxcount,
                prices.loops.as_slice()[number],
            )
        }
        None => 0,
    }
}

/// What walks from the start come to at most, with all that loops and totals allow.
fn value_of(graph: &Graph, prices: &LoopPrices, potentials: &[u64]) -> Amount
    requires graph { IsGraph graph.now }
    requires bounded { IsBounded graph.now }
    requires prices { HasPrices graph.now prices.now }
    requires few { AreBounded prices.now }
    requires potentials { length potentials.now ≡ length graph.now.finish }
    ensures { number result ≡ path_value graph.now prices.now potentials.now }
{
    let begin = Amount {
        high: 0,
        low: potentials[graph.start as usize],
    };
    let mut value = plus(begin, origin_worth(graph, prices));
    for (total, count) in graph.totals.as_slice().iter().enumerate() {
        value = plus(value, product(*count, prices.totals.as_slice()[total]));
    }
    value
}

/// Whether one outcome is less than another. What is too large is more than every number.
pub(crate) fn is_less(outcome: &Outcome, other: &Outcome) -> bool
    ensures { IsTrue result ↔ IsLess (worth_of outcome.now) (worth_of other.now) }
{
    match (outcome, other) {
        (Outcome::Solved(one), Outcome::Solved(two)) => is_lower(one.value, two.value),
        (Outcome::Solved(_), Outcome::TooLarge(_)) => true,
        (Outcome::TooLarge(_), _) => false,
    }
}

/// Whether an amount is below another.
fn is_lower(amount: Amount, other: Amount) -> bool
    ensures { IsTrue result ↔ (number amount < number other) }
{
    amount.high < other.high || amount.high == other.high && amount.low < other.low
}

/// What some chosen totals come to.
pub(crate) fn solve(
    alloc: Global,
    layout: &Layout<'_>,
    chosen: &[bool],
) -> Result<Outcome, NoMemory>
    requires layout { IsLayout layout.now }
    requires bounded { IsBounded layout.now.graph.now }
    requires finishes { let g = layout.now.graph.now in (v : ℕ) → v < length g.finish → pos 0 ≤ℤ finish_at g v }
    requires chosen { length chosen.now ≡ length layout.now.graph.now.totals }
    ensures { IfOk result (IsOutcome layout.now.graph.now chosen.now) }
{
    match prices_on(alloc, layout, chosen) {
        Ok(prices) => solve_at(alloc, layout, chosen, prices),
        Err(PathError::NoMemory) => Err(NoMemory),
        Err(refusal) => Ok(Outcome::TooLarge(refusal)),
    }
}

/// What some chosen totals come to at their prices.
fn solve_at(
    alloc: Global,
    layout: &Layout<'_>,
    chosen: &[bool],
    prices: LoopPrices,
) -> Result<Outcome, NoMemory>
    requires layout { IsLayout layout.now }
    requires bounded { IsBounded layout.now.graph.now }
    requires finishes { let g = layout.now.graph.now in (v : ℕ) → v < length g.finish → pos 0 ≤ℤ finish_at g v }
    requires needs { HasNeeds layout.now.graph.now chosen.now prices }
    requires prices { HasPrices layout.now.graph.now prices }
    requires few { AreBounded prices }
    requires closed { NoClosedGain layout.now.graph.now prices }
    ensures { IfOk result (IsOutcome layout.now.graph.now chosen.now) }
{
    match potentials_on(alloc, layout, &prices) {
        Ok(potentials) => {
            let value = value_of(layout.graph, &prices, potentials.as_slice());
            Ok(Outcome::Solved(Solution {
                prices,
                potentials,
                value,
            }))
        }
        Err(PathError::NoMemory) => Err(NoMemory),
        Err(refusal) => Ok(Outcome::TooLarge(refusal)),
    }
}
