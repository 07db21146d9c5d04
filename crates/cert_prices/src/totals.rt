//! The prices of totals, and how often back edges are taken at most in a whole run.

ghost use Rattle.std.specs.Prelude.{◌≡◌, ℕ, map, IfOk, OnOk};
ghost use Rattle.wx_base.specs.Facts.{AreAscending};
ghost use Rattle.flow_ctx.specs.Unfolding.{IsLoop, IsUnfolding};
ghost use Rattle.cert_rules.specs.Prices.{head_address, total_price};
ghost use Rattle.cert_prices.specs.Sums.{AreTotalCounts, count_at, noted, total_in};

use cert_text::TotalPrice;
use flow_ctx::{ULoop, Unfolded};
use indexmap::IndexMap;
use std::alloc::Global;
use std::marker::Model;
use wx_text::NoMemory;

/// The address of a loop's head.
pub(crate) fn head_address(u: &Unfolded, l: &ULoop) -> u32
    requires { IsLoop u.now.program u.now.nodes u.now.edges l.now }
    ensures { result ≡ head_address u.now l.now }
{
    u.block(l.head).start
}

/// The price of the total with this address, 0 where none is listed.
pub(crate) fn total_price(totals: &[TotalPrice], address: u32) -> u64
    requires { AreAscending (map (λ t. t.address) totals.now) }
    ensures { result ≡ total_price totals.now address }
{
    match totals.binary_search_by_key(&address, |total| total.address) {
        Ok(at) => totals[at].amount,
        Err(_) => 0,
    }
}

/// How often back edges into the heads at an address are taken at most in a whole run, for each address at which loops
/// with a total have their heads: contracts see the list of both.
#[derive(Drop)]
pub struct TotalCounts {
    counts: IndexMap<u32, u32>,
}

impl Model for TotalCounts {
    ghost use Rattle.std.specs.Prelude.{ℕ, List};

    ghost Value = { List (ℕ × ℕ) };

    ghost view = { λ t. t.counts.entries };
}

impl TotalCounts {
    /// The greatest number of such back edges, where loops with their head at the address have a total.
    pub fn get(&self, address: u32) -> Option<u32>
        ensures { result ≡ count_at self.now address }
    {
        self.counts.get(&address).copied()
    }
}

/// Notes the total of a loop for its head's address, if it has one and none is noted there.
fn note_total(counts: &mut IndexMap<u32, u32>, u: &Unfolded, l: &ULoop) -> Result<(), NoMemory>
    requires is { IsLoop u.now.program u.now.nodes u.now.edges l.now }
    ensures { OnOk result ((address : ℕ) → count_at counts.new.entries address
        ≡ noted (count_at counts.old.entries address) (total_in u.now address l.now)) }
{
    if let Some(total) = l.totalcount {
        let address = head_address(u, l);
        if !counts.contains_key(&address) {
            counts.insert(address, total)?;
        }
    }
    Ok(())
}

/// How often back edges into each head with a total are taken at most in a whole run.
pub fn total_counts(alloc: Global, u: &Unfolded) -> Result<TotalCounts, NoMemory>
    requires { IsUnfolding u.now.program u.now }
    ensures { IfOk result (AreTotalCounts u.now) }
{
    let mut counts = IndexMap::new(alloc);
    for l in u.loops.as_slice() {
        note_total(&mut counts, u, l)?;
    }
    Ok(TotalCounts { counts })
}
