//! The least price of back links at which no closed walk gains.
ghost use Rattle.std.specs.Prelude.{◌≡◌, ℕ, ◌+◌, ◌^◌, ◌<◌, ◌≤◌, length, IfOk, MatchOption, pos, ◌<ℤ◌};
ghost use Rattle.std.specs.List.{All};
ghost use Rattle.path_graph.specs.Conditions.{IsWithin};
ghost use Rattle.path_graph.specs.Graph.{weight_along};
ghost use Rattle.path_problem.specs.Least.{AreSmall, IsPart, GainsBelow, IsLeastPrice, PaysBelow, IsNextPrice};
ghost use Rattle.path_problem.specs.Least.{plain_weight, backs_of};

use crate::net::{Link, Settlement, settle};
use path_graph::LARGEST;
use std::alloc::Global;
use wx_text::NoMemory;

/// What a walk comes to without a price, and how often a price lessens that.
#[derive(Clone, Copy)]
struct Slope {
    weight: i128,
    backs: u64,
}

/// What a walk comes to without a price, and how many back links it takes.
fn slope_of(links: &[Link], walk: &[usize]) -> Slope
    requires links { AreSmall links.now }
    requires walk { All (λ i. i < length links.now) walk.now }
    requires few { length walk.now ≤ 2 ^ 18 }
    ensures weight { result.weight ≡ weight_along (plain_weight links.now) walk.now }
    ensures backs { result.backs ≡ backs_of links.now walk.now }
{
    let mut slope = Slope {
        weight: 0,
        backs: 0,
    };
    for number in walk {
        let link = &links[*number];
        slope.weight += link.weight;
        if link.back {
            slope.backs += 1;
        }
    }
    slope
}

/// The least price at which a walk does not gain; `None` if that is above `LARGEST`, or no price serves.
fn next_price(slope: Slope) -> Option<u64>
    requires { pos 0 <ℤ slope.weight }
    ensures { MatchOption result (PaysBelow slope.weight slope.backs (LARGEST + 1))
        (IsNextPrice slope.weight slope.backs) }
{
    if slope.backs == 0 {
        return None;
    }
    let next = (slope.weight as u128).div_ceil(u128::from(slope.backs));
    if next > u128::from(LARGEST) {
        None
    } else {
        Some(next as u64)
    }
}

/// The least price up to `LARGEST` at which no closed walk gains, if there is one. `start` has as many values as there
/// are numbers; which they are does not matter.
///
/// The walk that is found to gain at a price says which price comes next, so in practice few are tried.
pub(crate) fn least_price(
    alloc: Global,
    links: &[Link],
    start: &[i128],
) -> Result<Option<u64>, NoMemory>
    requires links { IsPart links.now (length start.now) }
    requires few { length start.now ≤ 2 ^ 18 }
    requires small { All (IsWithin (2 ^ 80)) start.now }
    ensures { IfOk result (λ least. MatchOption least (GainsBelow links.now (LARGEST + 1)) (IsLeastPrice links.now)) }
{
    let mut price = 0;
    'prices: loop {
        match settle(alloc, links, price, start)? {
            Settlement::Settled(_) => return Ok(Some(price)),
            Settlement::Gains(walk) => match next_price(slope_of(links, walk.as_slice())) {
                Some(next) => price = next,
                None => return Ok(None),
            },
        }
    }
}
