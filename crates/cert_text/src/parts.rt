//! What the lines of a text tell, part by part.

ghost use Rattle.std.specs.Prelude.{◌≡◌, All, IfOk, filter_map};
ghost use Rattle.cert_items.specs.Said.{Fits};
ghost use Rattle.cert_text.specs.Told.{charge_in, multiplier_in, total_in, listed_in, bound_in};

use crate::certificate::{Charge, TotalPrice};
use cert_items::{Item, slots_of};
use pipe_time::Vector;
use std::alloc::{AllocError, Global};
use wx_text::NoMemory;

/// The charge that a line tells.
fn charge_in(item: &Item) -> Option<Charge>
    ensures { result ≡ charge_in item.now }
{
    match item {
        Item::Charge {
            line,
            scope,
            amount,
        } => Some(Charge {
            line: *line,
            scope: *scope,
            amount: *amount,
        }),
        _ => None,
    }
}

/// The charges.
pub(crate) fn charges(alloc: Global, items: &[Item]) -> Result<Vec<Charge>, AllocError>
    ensures { IfOk result (λ charges. charges.items ≡ filter_map charge_in items.now) }
{
    items
        .iter()
        .filter_map(|item| charge_in(item))
        .collect(alloc)
}

/// The multiplier that a line tells.
fn multiplier_in(item: &Item) -> Option<u64>
    ensures { result ≡ multiplier_in item.now }
{
    match item {
        Item::Multiplier { amount, .. } => Some(*amount),
        _ => None,
    }
}

/// The multipliers.
pub(crate) fn multipliers(alloc: Global, items: &[Item]) -> Result<Vec<u64>, AllocError>
    ensures { IfOk result (λ multipliers. multipliers.items ≡ filter_map multiplier_in items.now) }
{
    items
        .iter()
        .filter_map(|item| multiplier_in(item))
        .collect(alloc)
}

/// The price that a line tells.
fn total_in(item: &Item) -> Option<TotalPrice>
    ensures { result ≡ total_in item.now }
{
    match item {
        Item::Total { address, amount } => Some(TotalPrice {
            address: *address,
            amount: *amount,
        }),
        _ => None,
    }
}

/// The totals with their prices.
pub(crate) fn totals(alloc: Global, items: &[Item]) -> Result<Vec<TotalPrice>, AllocError>
    ensures { IfOk result (λ totals. totals.items ≡ filter_map total_in items.now) }
{
    items
        .iter()
        .filter_map(|item| total_in(item))
        .collect(alloc)
}

/// The vector that a line of version 2 lists.
fn listed_in(item: &Item) -> Option<Vector>
    requires { Fits item.now }
    ensures { result ≡ listed_in item.now }
{
    match item {
        Item::Listed { slots } => Some(Vector {
            slots: slots_of(slots.as_slice()),
        }),
        _ => None,
    }
}

/// The different vectors that version 2 lists.
pub(crate) fn listed(alloc: Global, items: &[Item]) -> Result<Vec<Vector>, NoMemory>
    requires { All Fits items.now }
    ensures { IfOk result (λ vectors. vectors.items ≡ filter_map listed_in items.now) }
{
    let mut vectors = Vec::new(alloc);
    for item in items {
        if let Some(vector) = listed_in(item) {
            vectors.push(vector)?;
        }
    }
    Ok(vectors)
}

/// The bound.
pub(crate) fn bound(items: &[Item]) -> u64
    ensures { result ≡ bound_in items.now }
{
    for item in items {
        if let Item::Bound { amount } = item {
            return *amount;
        }
    }
    0
}
