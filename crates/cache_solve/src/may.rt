ghost use Rattle.std.specs.Prelude.{◌≡◌, ℕ, true, length, IfOk, slice_get, Some};
ghost use Rattle.wx_base.specs.Machine.{IsShape};
ghost use Rattle.cache_ages.specs.Bounds.{Bounds, AreFor};
ghost use Rattle.cache_flow.specs.Flows.{IsFlow};
ghost use Rattle.cache_flow.specs.Solutions.{IsLeastMay};
ghost use Rattle.cache_solve.specs.Orders.{may_table};

use crate::solver::solve;
use crate::state::State;
use cache_ages::May;
use cache_flow::Flow;
use std::alloc::Global;
use wx_base::{NoMemory, Shape};

impl State for May {
    ghost use Rattle.wx_base.specs.CacheStates.{Ages, may_accessed, may_start};
    ghost use Rattle.cache_ages.specs.Bounds.{may_ages, AreAges};
    ghost use Rattle.cache_solve.specs.Orders.{MayCoversAt, may_left};

    ghost Known = { Ages };

    ghost known = { may_ages };

    ghost shape_of = { λ state. state.shape };

    ghost lines_of = { λ state. state.lines };

    ghost Covers = { MayCoversAt };

    ghost IsWithin = { λ shape lines ages. AreAges shape ages };

    ghost accessed = { may_accessed };

    ghost start = { λ shape. may_start };

    ghost IsFair = { λ shape ages. AreAges shape ages };

    ghost left = { may_left };

    fn first(alloc: Global, shape: Shape, lines: &[u32]) -> Result<May, NoMemory> {
        let state = May::start(alloc, shape, lines)?;
        state.are_bounds();
        Ok(state)
    }

    fn unreached(alloc: Global, shape: Shape, lines: &[u32]) -> Result<May, NoMemory> {
        let state = May::unreached(alloc, shape, lines)?;
        state.are_bounds();
        Ok(state)
    }

    fn copy(&self, alloc: Global) -> Result<May, NoMemory> {
        self.duplicate(alloc)
    }

    fn pass(&mut self, line: u32) {
        self.are_bounds();
        let _ = self.access(line);
        self.are_bounds();
    }

    fn take_in(&mut self, other: &May) -> bool {
        self.are_bounds();
        other.are_bounds();
        if other.leq(self) {
            return false;
        }
        let _ = self.join(other);
        self.are_bounds();
        true
    }

    fn order() {}
}

/// What a cache may hold at each node of a flow: the least solution.
pub fn may_states(alloc: Global, shape: Shape, flow: &Flow) -> Result<Vec<May>, NoMemory>
    requires shape { IsShape shape }
    requires flow { IsFlow flow.now }
    ensures least { IfOk result (λ states. IsLeastMay shape flow.now (may_table states.items)) }
    ensures long { IfOk result (λ states. length states.items ≡ length flow.now.nodes) }
    ensures each { IfOk result (λ states. (number : ℕ) (state : Bounds) → slice_get states.items number ≡ Some state
        → AreFor state shape flow.now.lines) }
{
    let states = solve(alloc, shape, flow, flow.moves.as_slice(), flow.start)?;
    Ok(states)
}
