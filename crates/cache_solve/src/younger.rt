ghost use Rattle.std.specs.Prelude.{◌≡◌, ℕ, true, length, IfOk, slice_get, Some};
ghost use Rattle.wx_base.specs.Machine.{IsShape};
ghost use Rattle.cache_flow.specs.Flows.{IsFlow, Part};
ghost use Rattle.cache_flow.specs.Solutions.{IsLeastYounger};
ghost use Rattle.cache_pers.specs.Stays.{younger_of, Stay, IsFor};
ghost use Rattle.cache_solve.specs.Orders.{younger_table, IsOfLines};
ghost use Rattle.cache_solve.specs.Systems.{AreInner, AreWithin};

use crate::solver::solve;
use crate::state::State;
use cache_flow::{Flow, Move};
use cache_pers::Younger;
use std::alloc::Global;
use wx_base::{NoMemory, Shape};

impl State for Younger {
    ghost use Rattle.wx_base.specs.CacheStates.{Younger as Knowledge, younger_accessed, younger_start};
    ghost use Rattle.cache_flow.specs.Solutions.{YoungerCoversAt};
    ghost use Rattle.cache_solve.specs.Orders.{younger_left};

    ghost Known = { Knowledge };

    ghost known = { younger_of };

    ghost shape_of = { λ state. state.shape };

    ghost lines_of = { λ state. state.lines };

    ghost Covers = { YoungerCoversAt };

    ghost IsWithin = { λ shape lines younger. IsOfLines lines younger };

    ghost accessed = { younger_accessed };

    ghost start = { λ shape. younger_start };

    ghost IsFair = { λ shape younger. Unit {0} };

    ghost left = { younger_left };

    fn first(alloc: Global, shape: Shape, lines: &[u32]) -> Result<Younger, NoMemory> {
        let state = Younger::start(alloc, shape, lines)?;
        state.is_stay();
        Ok(state)
    }

    fn unreached(alloc: Global, shape: Shape, lines: &[u32]) -> Result<Younger, NoMemory> {
        let state = Younger::start(alloc, shape, lines)?;
        state.is_stay();
        Ok(state)
    }

    fn copy(&self, alloc: Global) -> Result<Younger, NoMemory> {
        self.duplicate(alloc)
    }

    fn pass(&mut self, line: u32) {
        self.is_stay();
        let _ = self.access(line);
        self.is_stay();
    }

    fn take_in(&mut self, other: &Younger) -> bool {
        self.is_stay();
        other.is_stay();
        if other.leq(self) {
            return false;
        }
        let _ = self.join(other);
        self.is_stay();
        true
    }

    fn order() {}
}

/// What came since lines were used last, at each node of a part of a flow that is entered at a head: the least solution.
/// The moves are those within the part. At other nodes of the flow nothing is known.
pub fn younger_states(
    alloc: Global,
    shape: Shape,
    flow: &Flow,
    inner: &[Move],
    head: u32,
) -> Result<Vec<Younger>, NoMemory>
    requires shape { IsShape shape }
    requires flow { IsFlow flow.now }
    requires inner { AreWithin flow.now inner.now }
    ensures least { IfOk result (λ states. (part : Part) → part.head ≡ head → AreInner flow.now part inner.now
        → IsLeastYounger shape flow.now part (younger_table states.items)) }
    ensures long { IfOk result (λ states. length states.items ≡ length flow.now.nodes) }
    ensures each { IfOk result (λ states. (number : ℕ) (state : Stay) → slice_get states.items number ≡ Some state
        → IsFor state shape flow.now.lines) }
    ensures within { IfOk result (λ states. (number : ℕ) (state : Stay) → slice_get states.items number ≡ Some state
        → IsOfLines flow.now.lines (younger_of state)) }
{
    let states = solve(alloc, shape, flow, inner, head)?;
    Ok(states)
}
