//! What is known behind some accesses of a node.

ghost use Rattle.std.specs.Prelude.{◌≡◌, ℕ, true, All, IfOk};
ghost use Rattle.cache_ages.specs.Bounds.{must_ages, may_ages, is_one_of, AreFor};
ghost use Rattle.cache_flow.specs.Solutions.{must_along, may_along, YoungerCoversAt};
ghost use Rattle.cache_pers.specs.Stays.{younger_along, younger_of, IsFor};
ghost use Rattle.cache_solve.specs.Orders.{IsOfLines};

use crate::solver::behind;
use cache_ages::{May, Must};
use cache_pers::Younger;
use std::alloc::Global;
use wx_base::NoMemory;

/// What is known for sure behind some accesses to lines of the state.
pub fn must_behind(alloc: Global, must: &Must, accesses: &[u32]) -> Result<Must, NoMemory>
    requires { All (λ line. is_one_of must.now.lines line ≡ true) accesses.now }
    ensures form { IfOk result (λ after. AreFor after must.now.shape must.now.lines) }
    ensures ages { IfOk result (λ after. (line : ℕ) → is_one_of must.now.lines line ≡ true
        → must_ages after line ≡ must_along must.now.shape (must_ages must.now) accesses.now line) }
{
    must.are_bounds();
    let after = behind(alloc, must, accesses)?;
    Ok(after)
}

/// What may be there behind some accesses to lines of the state.
pub fn may_behind(alloc: Global, may: &May, accesses: &[u32]) -> Result<May, NoMemory>
    requires { All (λ line. is_one_of may.now.lines line ≡ true) accesses.now }
    ensures form { IfOk result (λ after. AreFor after may.now.shape may.now.lines) }
    ensures ages { IfOk result (λ after. (line : ℕ) → is_one_of may.now.lines line ≡ true
        → may_ages after line ≡ may_along may.now.shape (may_ages may.now) accesses.now line) }
{
    may.are_bounds();
    let after = behind(alloc, may, accesses)?;
    Ok(after)
}

/// What came since lines were used last, behind some accesses to lines of the state.
pub fn younger_behind(
    alloc: Global,
    younger: &Younger,
    accesses: &[u32],
) -> Result<Younger, NoMemory>
    requires listed { All (λ line. is_one_of younger.now.lines line ≡ true) accesses.now }
    requires within { IsOfLines younger.now.lines (younger_of younger.now) }
    ensures form { IfOk result (λ after. IsFor after younger.now.shape younger.now.lines) }
    ensures covers { IfOk result (λ after. YoungerCoversAt younger.now.lines (younger_of after)
        (younger_along younger.now.shape (younger_of younger.now) accesses.now)) }
    ensures covered { IfOk result (λ after. YoungerCoversAt younger.now.lines
        (younger_along younger.now.shape (younger_of younger.now) accesses.now) (younger_of after)) }
{
    let after = behind(alloc, younger, accesses)?;
    Ok(after)
}
