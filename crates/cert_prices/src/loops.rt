//! What entering each loop costs.

ghost use Rattle.std.specs.Prelude.{◌≡◌, ◌<◌, ◌≤◌, ◌^◌, ◌+◌, ◌*◌, length, replicate, All, IfOk};
ghost use Rattle.cert_rules.specs.Rules.{HasSmallNumbers, greatest_number};
ghost use Rattle.cert_prices.specs.Sums.{AddsCharge, AddsMultipliers, AreEntryPrices, AreLoopCharges};

use cert_text::{Certificate, Charge};
use flow_ctx::{Scope, ULoop};
use std::alloc::Global;
use wx_text::NoMemory;

/// Adds a charge to the sum of its loop, if it has one.
fn add_charge(sums: &mut [u128], charge: &Charge)
    requires room { All (λ sum. sum + charge.now.amount < 2 ^ 128) sums.old }
    ensures { AddsCharge charge.now sums.old sums.new }
{
    if let Scope::Loop { number } = charge.scope {
        let number = number as usize;
        if number < sums.len() {
            sums[number] += u128::from(charge.amount);
        }
    }
}

/// Adds each charge to the sum of its loop.
fn add_charges(sums: &mut [u128], charges: &[Charge])
    requires small { All (λ charge. charge.amount ≤ greatest_number) charges.now }
    requires none { All (λ sum. sum ≡ 0) sums.old }
    ensures charges { AreLoopCharges charges.now (length sums.old) sums.new }
    ensures bound { All (λ sum. sum < 2 ^ 125) sums.new }
{
    for charge in charges {
        add_charge(sums, charge);
    }
}

/// So many zeros.
pub(crate) fn zeros(alloc: Global, count: usize) -> Result<Vec<u128>, NoMemory>
    ensures { IfOk result (λ zeros. zeros.items ≡ replicate count 0) }
{
    Ok(vec![in alloc; 0; count]?)
}

/// The charges of each of so many loops.
fn loop_charges(alloc: Global, charges: &[Charge], count: usize) -> Result<Vec<u128>, NoMemory>
    requires { All (λ charge. charge.amount ≤ greatest_number) charges.now }
    ensures charges { IfOk result (λ sums. AreLoopCharges charges.now count sums.items) }
    ensures bound { IfOk result (λ sums. All (λ sum. sum < 2 ^ 125) sums.items) }
{
    let mut sums = zeros(alloc, count)?;
    add_charges(sums.as_mut_slice(), charges);
    Ok(sums)
}

/// What entering each loop costs: its charges, and its multiplier for each back edge that a stay may take. The time is
/// that of the charges and the loops.
pub(crate) fn entry_prices(
    alloc: Global,
    loops: &[ULoop],
    c: &Certificate,
) -> Result<Vec<u128>, NoMemory>
    requires small { HasSmallNumbers c.now }
    requires multipliers { length c.now.multipliers ≡ length loops.now }
    ensures prices { IfOk result (λ prices. AreEntryPrices c.now loops.now prices.items) }
    ensures bound { IfOk result (λ prices. All (λ price. price < 2 ^ 126) prices.items) }
{
    let charges = c.charges.as_slice();
    let multipliers = c.multipliers.as_slice();
    let mut prices = loop_charges(alloc, charges, loops.len())?;
    add_multipliers(prices.as_mut_slice(), loops, multipliers);
    Ok(prices)
}

/// What entering a loop costs that has these charges.
fn with_multiplier(charges: u128, l: &ULoop, multiplier: u64) -> u128
    requires room { charges < 2 ^ 125 }
    ensures price { result ≡ charges + l.now.maxcount * multiplier }
    ensures bound { result < 2 ^ 126 }
{
    charges + u128::from(l.maxcount) * u128::from(multiplier)
}

/// Adds to the charges of each loop its multiplier for each back edge that a stay may take.
fn add_multipliers(prices: &mut [u128], loops: &[ULoop], multipliers: &[u64])
    requires long { length prices.old ≡ length loops.now }
    requires multipliers { length multipliers.now ≡ length loops.now }
    requires room { All (λ price. price < 2 ^ 125) prices.old }
    ensures prices { AddsMultipliers loops.now multipliers.now prices.old prices.new }
    ensures bound { All (λ price. price < 2 ^ 126) prices.new }
{
    for number in 0..loops.len() {
        prices[number] = with_multiplier(prices[number], &loops[number], multipliers[number]);
    }
}
