ghost use Rattle.std.specs.Prelude.{◌≡◌, ℕ, true, length, IfOk, slice_get, Some};
ghost use Rattle.wx_base.specs.Machine.{IsShape};
ghost use Rattle.cache_flow.specs.Flows.{IsFlow};
ghost use Rattle.cache_flow.specs.Solutions.{IsLeastMust};
ghost use Rattle.cache_solve.specs.Orders.{must_table};
ghost use Rattle.cache_ages.specs.Bounds.{Bounds, AreFor};

use crate::solver::solve;
use crate::state::State;
use cache_ages::Must;
use cache_flow::Flow;
use std::alloc::Global;
use wx_base::{NoMemory, Shape};

impl State for Must {
    ghost use Rattle.wx_base.specs.CacheStates.{Ages, must_accessed, must_start};
    ghost use Rattle.cache_ages.specs.Bounds.{must_ages, AreAges};
    ghost use Rattle.cache_solve.specs.Orders.{MustCoversAt, must_left};

    ghost Known = { Ages };

    ghost known = { must_ages };

    ghost shape_of = { λ state. state.shape };

    ghost lines_of = { λ state. state.lines };

    ghost Covers = { MustCoversAt };

    ghost IsWithin = { λ shape lines ages. AreAges shape ages };

    ghost accessed = { must_accessed };

    ghost start = { must_start };

    ghost IsFair = { λ shape ages. Unit {0} };

    ghost left = { must_left };

    fn first(alloc: Global, shape: Shape, lines: &[u32]) -> Result<Must, NoMemory> {
        let state = Must::start(alloc, shape, lines)?;
        state.are_bounds();
        Ok(state)
    }

    fn unreached(alloc: Global, shape: Shape, lines: &[u32]) -> Result<Must, NoMemory> {
        let state = Must::unreached(alloc, shape, lines)?;
        state.are_bounds();
        Ok(state)
    }

    fn copy(&self, alloc: Global) -> Result<Must, NoMemory> {
        self.duplicate(alloc)
    }

    fn pass(&mut self, line: u32) {
        self.are_bounds();
        let _ = self.access(line);
        self.are_bounds();
    }

    fn take_in(&mut self, other: &Must) -> bool {
        self.are_bounds();
        other.are_bounds();
        if other.leq(self) {
            return false;
        }
        let _ = self.join(other);
        self.are_bounds();
        true
    }

    fn order() {}
}

/// What is known for sure of a cache at each node of a flow: the least solution.
pub fn must_states(alloc: Global, shape: Shape, flow: &Flow) -> Result<Vec<Must>, NoMemory>
    requires shape { IsShape shape }
    requires flow { IsFlow flow.now }
    ensures least { IfOk result (λ states. IsLeastMust shape flow.now (must_table shape states.items)) }
    ensures long { IfOk result (λ states. length states.items ≡ length flow.now.nodes) }
    ensures each { IfOk result (λ states. (number : ℕ) (state : Bounds) → slice_get states.items number ≡ Some state
        → AreFor state shape flow.now.lines) }
{
    let states = solve(alloc, shape, flow, flow.moves.as_slice(), flow.start)?;
    Ok(states)
}
