//! Amounts of groups, and groups with their amounts.

ghost use Rattle.std.specs.Prelude.{◌≡◌, length, replicate, IfOk};
ghost use Rattle.state_charges.specs.Misses.{HaveAmounts};

use cache_class::Group;
use cert_text::Charge;
use std::alloc::Global;
use wx_text::NoMemory;

/// So many zeros.
pub(crate) fn zeros(alloc: Global, count: usize) -> Result<Vec<u64>, NoMemory>
    ensures { IfOk result (λ zeros. zeros.items ≡ replicate count 0) }
{
    Ok(vec![in alloc; 0; count]?)
}

/// The charge of a group.
fn charge(group: &Group, amount: u64) -> Charge
    ensures { result ≡ record { line = group.now.line; scope = group.now.scope; amount = amount } }
{
    Charge {
        line: group.line,
        scope: group.scope,
        amount,
    }
}

/// The charges of groups that have these amounts.
pub(crate) fn with_amounts(
    alloc: Global,
    groups: &[Group],
    amounts: &[u64],
) -> Result<Vec<Charge>, NoMemory>
    requires { length amounts.now ≡ length groups.now }
    ensures { IfOk result (λ charges. HaveAmounts groups.now amounts.now charges.items) }
{
    let mut charges = Vec::new(alloc);
    for i in 0..groups.len() {
        charges.push(charge(&groups[i], amounts[i]))?;
    }
    Ok(charges)
}
