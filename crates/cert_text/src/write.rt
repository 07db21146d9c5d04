//! The text of version 2 of a certificate.

ghost use Rattle.std.specs.Prelude.{◌≡◌, ◌++◌, map, length, All, IfOk, OnOk, OnErr};
ghost use Rattle.cert_text.specs.Pool.{Lists, IsPool, HasVectors};
ghost use Rattle.cert_text.specs.Written.{listed_item, node_items, charge_item, multiplier_items, total_item, text_of, items_of, IsWith};
ghost use Rattle.cert_text.specs.Writable.{IsWritable};

use crate::certificate::{Certificate, Charge, Family, TotalPrice};
use crate::pool::{Pool, Slots};
use crate::spell::{
    push_bound, push_charge, push_head, push_listed, push_multiplier, push_node, push_total,
};
use std::alloc::Global;
use wx_text::NoMemory;

/// Appends the lines of the different vectors.
fn push_vectors(out: &mut Vec<u8>, vectors: &[&Slots]) -> Result<(), NoMemory>
    ensures { OnOk result (out.new.items
        ≡ out.old.items ++ text_of (map listed_item (map (λ slots. slots.now) vectors.now))) }
{
    for slots in vectors {
        push_listed(out, slots)?;
    }
    Ok(())
}

/// Appends the lines of the nodes.
fn push_nodes<'a>(
    out: &mut Vec<u8>,
    pool: &Pool<'a>,
    families: &'a [Family],
) -> Result<(), NoMemory>
    requires { All (Lists pool.now) families.now }
    ensures { OnOk result (out.new.items ≡ out.old.items ++ text_of (node_items pool.now 0 families.now)) }
{
    for (number, family) in families.iter().enumerate() {
        push_node(out, pool, number as u64, family.as_slice())?;
    }
    Ok(())
}

/// Appends the lines of the charges.
fn push_charges(out: &mut Vec<u8>, charges: &[Charge]) -> Result<(), NoMemory>
    ensures { OnOk result (out.new.items ≡ out.old.items ++ text_of (map charge_item charges.now)) }
{
    for charge in charges {
        push_charge(out, charge)?;
    }
    Ok(())
}

/// Appends the lines of the multipliers.
fn push_multipliers(out: &mut Vec<u8>, amounts: &[u64]) -> Result<(), NoMemory>
    ensures { OnOk result (out.new.items ≡ out.old.items ++ text_of (multiplier_items 0 amounts.now)) }
{
    for (number, amount) in amounts.iter().enumerate() {
        push_multiplier(out, number as u64, *amount)?;
    }
    Ok(())
}

/// Appends the lines of the totals.
fn push_totals(out: &mut Vec<u8>, totals: &[TotalPrice]) -> Result<(), NoMemory>
    ensures { OnOk result (out.new.items ≡ out.old.items ++ text_of (map total_item totals.now)) }
{
    for total in totals {
        push_total(out, total)?;
    }
    Ok(())
}

/// Appends all lines, with these as the different vectors.
fn push_lines<'a>(out: &mut Vec<u8>, pool: &Pool<'a>, c: &'a Certificate) -> Result<(), NoMemory>
    requires { IsPool c.now.families pool.now }
    ensures { OnOk result (out.new.items ≡ out.old.items ++ text_of (items_of pool.now c.now)) }
{
    push_head(out, pool.len() as u64)?;
    push_vectors(out, pool.as_slice())?;
    push_nodes(out, pool, c.families.as_slice())?;
    push_charges(out, c.charges.as_slice())?;
    push_multipliers(out, c.multipliers.as_slice())?;
    push_totals(out, c.totals.as_slice())?;
    push_bound(out, c.bound)
}

/// Appends the text of version 2 of a certificate: the different vectors once each, sorted as lists of their slots, and
/// the nodes with the places of their vectors in this list.
///
/// What is appended is read as the same certificate. Linear in the text but for the sorting. The only error is want of
/// memory, and then nothing is appended.
pub fn write_cert(out: &mut Vec<u8>, c: &Certificate) -> Result<(), NoMemory>
    requires { IsWritable c.now }
    ensures written { OnOk result (IsWith out.new.items out.old.items c.now) }
    ensures kept { OnErr result (out.new.items ≡ out.old.items) }
{
    let _count = write_counted(out, c)?;
    Ok(())
}

/// Appends the text as `write_cert` does, and gives the number of its `v` lines: how many different vectors the nodes have.
pub fn write_counted(out: &mut Vec<u8>, c: &Certificate) -> Result<u64, NoMemory>
    requires { IsWritable c.now }
    ensures written { OnOk result (IsWith out.new.items out.old.items c.now) }
    ensures count { IfOk result (λ count. HasVectors c.now.families count) }
    ensures kept { OnErr result (out.new.items ≡ out.old.items) }
{
    let alloc = *out.allocator();
    let pool = Pool::new(alloc, c.families.as_slice())?;
    let mut text = Vec::new(alloc);
    push_lines(&mut text, &pool, c)?;
    out.extend_from_slice(text.as_slice())?;
    Ok(pool.len() as u64)
}

/// How many different vectors the nodes have: the number of `v` lines of the text of version 2.
pub fn count_vectors(alloc: Global, c: &Certificate) -> Result<u64, NoMemory>
    ensures { IfOk result (λ count. HasVectors c.now.families count) }
{
    let pool = Pool::new(alloc, c.families.as_slice())?;
    Ok(pool.len() as u64)
}
