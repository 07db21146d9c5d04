//! The lines of version 2 of a certificate's text.

ghost use Rattle.std.specs.Prelude.{◌≡◌, [], ◌∷◌, ◌++◌, Some, map, OnOk};
ghost use Rattle.wx_text.specs.Decimal.{decimal};
ghost use Rattle.cert_lines.specs.declared.kind.Version.TheVariants.{Two};
ghost use Rattle.cert_lines.specs.declared.kind.Kind.TheVariants as kind;
ghost use Rattle.cert_lines.specs.declared.kind.Role.TheVariants as role;
ghost use Rattle.cert_items.specs.declared.item.Item.TheVariants as item;
ghost use Rattle.cert_items.specs.Said.{scope_word, flat};
ghost use Rattle.cert_text.specs.Pool.{Lists};
ghost use Rattle.cert_text.specs.Written.{pairs_from, listed_item, place_of, charge_item, total_item, spelled, line_text};

use crate::certificate::{CertVector, Charge, TotalPrice};
use crate::pool::{Pool, Slots};
use flow_ctx::Scope;
use itoa::Buffer;
use wx_text::{NoMemory, push_word};

/// Appends a text.
fn push(out: &mut Vec<u8>, text: &[u8]) -> Result<(), NoMemory>
    ensures { OnOk result (out.new.items ≡ out.old.items ++ text.now) }
{
    out.extend_from_slice(text)?;
    Ok(())
}

/// Appends a number of cycles, or one that counts.
fn push_decimal(out: &mut Vec<u8>, number: u64) -> Result<(), NoMemory>
    ensures { OnOk result (out.new.items ≡ out.old.items ++ decimal number) }
{
    let mut digits = Buffer::new();
    push(out, digits.format(number).as_bytes())
}

/// Appends the last number of a line, and the line's end.
fn push_last(out: &mut Vec<u8>, number: u64) -> Result<(), NoMemory>
    ensures { OnOk result (out.new.items ≡ out.old.items ++ (32 ∷ decimal number ++ 10 ∷ [])) }
{
    push(out, b" ")?;
    push_decimal(out, number)?;
    push(out, b"\n")
}

/// Appends a pair with the space before it.
fn push_pair(out: &mut Vec<u8>, left: u64, right: u64) -> Result<(), NoMemory>
    ensures { OnOk result (out.new.items ≡ out.old.items ++ (32 ∷ decimal left ++ 58 ∷ decimal right)) }
{
    push(out, b" ")?;
    push_decimal(out, left)?;
    push(out, b":")?;
    push_decimal(out, right)
}

/// Appends the slots that are not 0, each with its number.
fn push_slots(out: &mut Vec<u8>, slots: &Slots) -> Result<(), NoMemory>
    ensures { OnOk result (out.new.items ≡ out.old.items
        ++ spelled kind.Listed (Some role.Left) (map decimal (flat (pairs_from 0 slots.now)))) }
{
    for (slot, value) in slots.iter().enumerate() {
        if *value != 0 {
            push_pair(out, slot as u64, *value)?;
        }
    }
    Ok(())
}

/// Appends the line of one of the different vectors.
pub(crate) fn push_listed(out: &mut Vec<u8>, slots: &Slots) -> Result<(), NoMemory>
    ensures { OnOk result (out.new.items ≡ out.old.items ++ line_text (listed_item slots.now)) }
{
    push(out, b"v")?;
    push_slots(out, slots)?;
    push(out, b"\n")
}

/// Appends the potentials of vectors, each with the place of its slots.
fn push_places<'a>(
    out: &mut Vec<u8>,
    pool: &Pool<'a>,
    family: &'a [CertVector],
) -> Result<(), NoMemory>
    requires { Lists pool.now family.now }
    ensures { OnOk result (out.new.items ≡ out.old.items
        ++ spelled kind.Places (Some role.Left) (map decimal (flat (map (place_of pool.now) family.now)))) }
{
    for vector in family {
        let place = pool.place(&vector.slots.slots);
        push_pair(out, vector.potential, place as u64)?;
    }
    Ok(())
}

/// Appends the line of a node.
pub(crate) fn push_node<'a>(
    out: &mut Vec<u8>,
    pool: &Pool<'a>,
    number: u64,
    family: &'a [CertVector],
) -> Result<(), NoMemory>
    requires { Lists pool.now family.now }
    ensures { OnOk result (out.new.items ≡ out.old.items
        ++ line_text (item.Places number (map (place_of pool.now) family.now))) }
{
    push(out, b"node ")?;
    push_decimal(out, number)?;
    push_places(out, pool, family)?;
    push(out, b"\n")
}

/// Appends a scope.
fn push_scope(out: &mut Vec<u8>, scope: Scope) -> Result<(), NoMemory>
    ensures { OnOk result (out.new.items ≡ out.old.items ++ scope_word scope) }
{
    match scope {
        Scope::Run => push(out, b"run"),
        Scope::Loop { number } => push_decimal(out, u64::from(number)),
    }
}

/// Appends the line of a charge.
pub(crate) fn push_charge(out: &mut Vec<u8>, charge: &Charge) -> Result<(), NoMemory>
    ensures { OnOk result (out.new.items ≡ out.old.items ++ line_text (charge_item charge.now)) }
{
    push(out, b"charge ")?;
    push_word(out, charge.line)?;
    push(out, b" ")?;
    push_scope(out, charge.scope)?;
    push_last(out, charge.amount)
}

/// Appends the line of a loop's multiplier.
pub(crate) fn push_multiplier(out: &mut Vec<u8>, number: u64, amount: u64) -> Result<(), NoMemory>
    ensures { OnOk result (out.new.items ≡ out.old.items ++ line_text (item.Multiplier number amount)) }
{
    push(out, b"multiplier ")?;
    push_decimal(out, number)?;
    push_last(out, amount)
}

/// Appends the line of a total.
pub(crate) fn push_total(out: &mut Vec<u8>, total: &TotalPrice) -> Result<(), NoMemory>
    ensures { OnOk result (out.new.items ≡ out.old.items ++ line_text (total_item total.now)) }
{
    push(out, b"total ")?;
    push_word(out, total.address)?;
    push_last(out, total.amount)
}

/// Appends the first two lines: the head, and how many different vectors there are.
pub(crate) fn push_head(out: &mut Vec<u8>, count: u64) -> Result<(), NoMemory>
    ensures { OnOk result (out.new.items ≡ out.old.items
        ++ (line_text (item.Head Two) ++ line_text (item.Count count))) }
{
    push(out, b"wx-cert 2\nvectors")?;
    push_last(out, count)
}

/// Appends the last two lines: the bound, and the end.
pub(crate) fn push_bound(out: &mut Vec<u8>, bound: u64) -> Result<(), NoMemory>
    ensures { OnOk result (out.new.items ≡ out.old.items ++ (line_text (item.Bound bound) ++ line_text item.End)) }
{
    push(out, b"bound ")?;
    push_decimal(out, bound)?;
    push(out, b"\nend\n")
}
