//! Whether the numbers of a certificate are small.

ghost use Rattle.std.specs.Prelude.{◌≤◌, All, Decides};
ghost use Rattle.cert_rules.specs.Rules.{HasSmallNumbers, IsSmallVector, greatest_number};

use cert_text::{CertVector, Certificate, Charge, Family, TotalPrice};

/// The greatest number that a certificate may have.
const GREATEST: u64 = 1_000_000_000_000_000_000;

/// Whether the potential and the slots of a vector are small.
fn is_small(v: &CertVector) -> bool
    ensures { Decides result (IsSmallVector v.now) }
{
    v.potential <= GREATEST && v.slots.slots.iter().all(|time| *time <= GREATEST)
}

/// Whether all vectors of a family are.
fn is_small_family(family: &Family) -> bool
    ensures { Decides result (All (λ v. IsSmallVector v) family.now) }
{
    family.as_slice().iter().all(|v| is_small(v))
}

/// Whether no number of a certificate is greater than 10^18.
pub fn has_small_numbers(c: &Certificate) -> bool
    ensures { Decides result (HasSmallNumbers c.now) }
{
    c.families
        .as_slice()
        .iter()
        .all(|family| is_small_family(family))
        && c.charges
            .as_slice()
            .iter()
            .all(|charge| charge.amount <= GREATEST)
        && c.multipliers
            .as_slice()
            .iter()
            .all(|multiplier| *multiplier <= GREATEST)
        && c.totals
            .as_slice()
            .iter()
            .all(|total| total.amount <= GREATEST)
        && c.bound <= GREATEST
}
