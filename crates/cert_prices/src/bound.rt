//! The start of a run and the bound.

ghost use Rattle.std.specs.Prelude.{◌≡◌, ◌<◌, ◌+◌, ◌^◌, length, map, Decides, IfOk, MatchOption};
ghost use Rattle.wx_base.specs.Facts.{AreAscending};
ghost use Rattle.flow_ctx.specs.Unfolding.{IsUnfolding};
ghost use Rattle.cert_rules.specs.Rules.{HasBound, HasSmallNumbers, HasStart, IsFirstCovering};
ghost use Rattle.cert_prices.specs.Sums.{AreTotalCounts};

use crate::start::paid_at_start;
use crate::totals::TotalCounts;
use cert_text::{CertVector, Certificate};
use flow_ctx::Unfolded;
use std::alloc::Global;
use wx_text::NoMemory;

/// The first vector of the start's family: every vector covers that of the empty pipeline.
fn first_vector<'a>(u: &Unfolded, c: &'a Certificate) -> Option<&'a CertVector>
    requires families { length c.now.families ≡ length u.now.nodes }
    requires start { u.now.start < length u.now.nodes }
    ensures { MatchOption result (HasStart u.now c.now → ⊥) (λ v. IsFirstCovering u.now c.now v.now) }
{
    c.families.as_slice()[u.start as usize].as_slice().first()
}

/// Whether a vector of the start's family covers the empty pipeline.
pub fn has_start(u: &Unfolded, c: &Certificate) -> bool
    requires families { length c.now.families ≡ length u.now.nodes }
    requires start { u.now.start < length u.now.nodes }
    ensures { Decides result (HasStart u.now c.now) }
{
    first_vector(u, c).is_some()
}

/// Whether the bound is the potential of a vector and what is paid.
fn is_bound_of(c: &Certificate, v: &CertVector, paid: u128) -> bool
    requires { paid < 2 ^ 127 }
    ensures { Decides result (c.now.bound ≡ v.now.potential + paid) }
{
    u128::from(c.bound) == u128::from(v.potential) + paid
}

/// Whether the bound is the potential of the first vector of the start's family that covers the empty pipeline, and
/// what is paid at the start.
pub fn has_bound(
    alloc: Global,
    u: &Unfolded,
    c: &Certificate,
    counts: &TotalCounts,
) -> Result<bool, NoMemory>
    requires families { length c.now.families ≡ length u.now.nodes }
    requires unfolding { IsUnfolding u.now.program u.now }
    requires counts { AreTotalCounts u.now counts.now }
    requires small { HasSmallNumbers c.now }
    requires multipliers { length c.now.multipliers ≡ length u.now.loops }
    requires ascending { AreAscending (map (λ t. t.address) c.now.totals) }
    ensures { IfOk result (λ b. Decides b (HasBound u.now c.now)) }
{
    let paid = paid_at_start(alloc, u, c, counts)?;
    match first_vector(u, c) {
        Some(v) => Ok(is_bound_of(c, v, paid)),
        None => Ok(false),
    }
}
