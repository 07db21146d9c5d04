//! What is paid at the start of a run.

ghost use Rattle.std.specs.Prelude.{◌≡◌, ◌≤◌, ◌<◌, ◌*◌, ◌^◌, if◌then◌else◌, length, map, All, IfOk, sum_by};
ghost use Rattle.flow_ctx.specs.declared.scope.Scope.TheVariants.{Run};
ghost use Rattle.flow_ctx.specs.Unfolding.{IsUnfolding};
ghost use Rattle.wx_base.specs.Facts.{AreAscending};
ghost use Rattle.cert_rules.specs.Prices.{charges_in, paid_at_start, same_scope};
ghost use Rattle.cert_rules.specs.Rules.{HasSmallNumbers, greatest_number};
ghost use Rattle.cert_prices.specs.Sums.{AreTotalCounts, counted_worth, start_price};

use crate::loops::entry_prices;
use crate::totals::TotalCounts;
use cert_text::{Certificate, Charge, TotalPrice};
use flow_ctx::{Scope, ULoop, Unfolded};
use std::alloc::Global;
use wx_text::NoMemory;

/// What a charge adds to those of the whole run.
fn run_amount(charge: &Charge) -> u64
    ensures { result ≡ (if same_scope charge.now.scope Run then charge.now.amount else 0) }
{
    match charge.scope {
        Scope::Run => charge.amount,
        Scope::Loop { .. } => 0,
    }
}

/// The charges of the scope of the whole run.
fn run_charges(charges: &[Charge]) -> u128
    requires small { All (λ charge. charge.amount ≤ greatest_number) charges.now }
    ensures sum { result ≡ charges_in charges.now Run }
    ensures bound { result < 2 ^ 124 }
{
    let mut sum = 0;
    for charge in charges {
        sum += u128::from(run_amount(charge));
    }
    sum
}

/// The price of the loop that has the start as its head, 0 if there is none.
fn start_price(u: &Unfolded, prices: &[u128]) -> u128
    requires unfolding { IsUnfolding u.now.program u.now }
    requires long { length prices.now ≡ length u.now.loops }
    requires small { All (λ price. price < 2 ^ 126) prices.now }
    ensures price { result ≡ start_price u.now prices.now }
    ensures bound { result < 2 ^ 126 }
{
    match u
        .loops
        .as_slice()
        .binary_search_by_key(&u.start, |l| l.head)
    {
        Ok(at) => prices[at],
        Err(_) => 0,
    }
}

/// What so many back edges cost.
fn worth(count: u32, amount: u64) -> u128
    requires { amount ≤ greatest_number }
    ensures worth { result ≡ count * amount }
    ensures bound { result < 2 ^ 92 }
{
    u128::from(count) * u128::from(amount)
}

/// What a total costs.
fn total_worth(counts: &TotalCounts, total: &TotalPrice) -> u128
    requires small { total.now.amount ≤ greatest_number }
    ensures worth { result ≡ counted_worth counts.now total.now }
    ensures bound { result < 2 ^ 92 }
    ensures address { total.now.address < 2 ^ 32 }
{
    worth(counts.get(total.address).unwrap_or(0), total.amount)
}

/// What the totals cost.
fn totals_worth(counts: &TotalCounts, totals: &[TotalPrice]) -> u128
    requires small { All (λ total. total.amount ≤ greatest_number) totals.now }
    requires ascending { AreAscending (map (λ t. t.address) totals.now) }
    ensures sum { result ≡ sum_by (λ total. counted_worth counts.now total) totals.now }
    ensures bound { result < 2 ^ 125 }
{
    let mut sum = 0;
    for total in totals {
        sum += total_worth(counts, total);
    }
    sum
}

/// What is paid at the start of a run. The time is that of the charges, the loops and the totals.
pub(crate) fn paid_at_start(
    alloc: Global,
    u: &Unfolded,
    c: &Certificate,
    counts: &TotalCounts,
) -> Result<u128, NoMemory>
    requires unfolding { IsUnfolding u.now.program u.now }
    requires counts { AreTotalCounts u.now counts.now }
    requires small { HasSmallNumbers c.now }
    requires multipliers { length c.now.multipliers ≡ length u.now.loops }
    requires ascending { AreAscending (map (λ t. t.address) c.now.totals) }
    ensures paid { IfOk result (λ paid. paid ≡ paid_at_start c.now u.now) }
    ensures bound { IfOk result (λ paid. paid < 2 ^ 127) }
{
    let loops = u.loops.as_slice();
    let charges = c.charges.as_slice();
    let totals = c.totals.as_slice();
    let prices = entry_prices(alloc, loops, c)?;
    let run = run_charges(charges);
    let first = start_price(u, prices.as_slice());
    let back = totals_worth(counts, totals);
    Ok(run + first + back)
}
