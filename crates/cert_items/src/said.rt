//! What the words of a line tell, kind by kind.

ghost use Rattle.std.specs.Prelude.{◌≡◌, ◌≢◌, ℕ, ◌<◌, ◌≤◌, ◌^◌, List, drop, length, map, All, Some, IfSome, IfOk, IsTrue, ◌↔◌};
ghost use Rattle.wx_text.specs.Hexadecimal.{hex_word};
ghost use Rattle.flow_ctx.specs.declared.scope.Scope.{Scope as AScope};
ghost use Rattle.cert_lines.specs.declared.kind.Version.{Version as AVersion};
ghost use Rattle.cert_lines.specs.declared.kind.Kind.TheVariants as kind;
ghost use Rattle.cert_lines.specs.Reading.{line_of};
ghost use Rattle.cert_items.specs.declared.item.Pair.{Pair as APair};
ghost use Rattle.cert_items.specs.declared.item.Item.{Item as AnItem};
ghost use Rattle.cert_items.specs.declared.item.Item.TheVariants as item;
ghost use Rattle.cert_items.specs.Said.{arguments, version_word, scope_word, most, Fits, FitsScope, IsSlot, IsPlace, Says, IsSaid};

use crate::item::Item;
use crate::numbers::{read_amount, read_places, read_slots};
use cert_lines::{Kind, Row, Version};
use flow_ctx::Scope;
use std::alloc::Global;
use wx_text::{NoMemory, read_number, read_word};

/// Whether two texts are one.
fn is(text: &[u8], other: &[u8]) -> bool
    ensures { IsTrue result ↔ (text.now ≡ other.now) }
{
    text == other
}

/// The version that a word is.
fn read_version(word: &[u8]) -> Option<Version>
    ensures sound { IfSome result (λ v. word.now ≡ version_word v) }
    ensures complete { (v : AVersion) → word.now ≡ version_word v → result ≡ Some v }
{
    if is(word, b"1".as_slice()) {
        Some(Version::One)
    } else if is(word, b"2".as_slice()) {
        Some(Version::Two)
    } else {
        None
    }
}

/// The scope that a word is.
fn read_scope(word: &[u8]) -> Option<Scope>
    ensures sound { IfSome result (λ s. word.now ≡ scope_word s) }
    ensures fits { IfSome result FitsScope }
    ensures complete { (s : AScope) → FitsScope s → word.now ≡ scope_word s → result ≡ Some s }
{
    if is(word, b"run".as_slice()) {
        return Some(Scope::Run);
    }
    let number = read_number(word)?;
    Some(Scope::Loop { number })
}

fn read_head(words: &[&[u8]]) -> Option<Item>
    ensures sound { IfSome result (λ x. Says kind.Head (map (λ w. w.now) words.now) x) }
    ensures fits { IfSome result Fits }
    ensures complete { (v : AVersion) → map (λ w. w.now) words.now ≡ arguments (item.Head v) → result
        ≡ Some (item.Head v) }
{
    let [version] = words else {
        return None;
    };
    let version = read_version(version)?;
    Some(Item::Head { version })
}

fn read_node(words: &[&[u8]]) -> Option<Item>
    ensures sound { IfSome result (λ x. Says kind.Node (map (λ w. w.now) words.now) x) }
    ensures fits { IfSome result Fits }
    ensures complete { (number count : ℕ) → number < 2 ^ 32 → count < 2 ^ 32 → map (λ w. w.now) words.now
        ≡ arguments (item.Node number count) → result ≡ Some (item.Node number count) }
{
    let [number, count] = words else {
        return None;
    };
    let number = read_number(number)?;
    let count = read_number(count)?;
    Some(Item::Node { number, count })
}

fn read_count(words: &[&[u8]]) -> Option<Item>
    ensures sound { IfSome result (λ x. Says kind.Count (map (λ w. w.now) words.now) x) }
    ensures fits { IfSome result Fits }
    ensures complete { (count : ℕ) → count < 2 ^ 32 → map (λ w. w.now) words.now ≡ arguments (item.Count count)
        → result ≡ Some (item.Count count) }
{
    let [count] = words else {
        return None;
    };
    let count = read_number(count)?;
    Some(Item::Count { count })
}

fn read_charge(words: &[&[u8]]) -> Option<Item>
    ensures sound { IfSome result (λ x. Says kind.Charge (map (λ w. w.now) words.now) x) }
    ensures fits { IfSome result Fits }
    ensures complete { (line : ℕ) (scope : AScope) (amount : ℕ) → line < 2 ^ 32 → FitsScope scope → amount ≤ most
        → map (λ w. w.now) words.now ≡ arguments (item.Charge line scope amount) → result
        ≡ Some (item.Charge line scope amount) }
{
    let [line, scope, amount] = words else {
        return None;
    };
    let line = read_word(line)?;
    let scope = read_scope(scope)?;
    let amount = read_amount(amount)?;
    Some(Item::Charge {
        line,
        scope,
        amount,
    })
}

fn read_multiplier(words: &[&[u8]]) -> Option<Item>
    ensures sound { IfSome result (λ x. Says kind.Multiplier (map (λ w. w.now) words.now) x) }
    ensures fits { IfSome result Fits }
    ensures complete { (number amount : ℕ) → number < 2 ^ 32 → amount ≤ most → map (λ w. w.now) words.now
        ≡ arguments (item.Multiplier number amount) → result ≡ Some (item.Multiplier number amount) }
{
    let [number, amount] = words else {
        return None;
    };
    let number = read_number(number)?;
    let amount = read_amount(amount)?;
    Some(Item::Multiplier { number, amount })
}

fn read_total(words: &[&[u8]]) -> Option<Item>
    ensures sound { IfSome result (λ x. Says kind.Total (map (λ w. w.now) words.now) x) }
    ensures fits { IfSome result Fits }
    ensures complete { (address amount : ℕ) → address < 2 ^ 32 → amount ≤ most → map (λ w. w.now) words.now
        ≡ arguments (item.Total address amount) → result ≡ Some (item.Total address amount) }
{
    let [address, amount] = words else {
        return None;
    };
    let address = read_word(address)?;
    let amount = read_amount(amount)?;
    Some(Item::Total { address, amount })
}

fn read_bound(words: &[&[u8]]) -> Option<Item>
    ensures sound { IfSome result (λ x. Says kind.Bound (map (λ w. w.now) words.now) x) }
    ensures fits { IfSome result Fits }
    ensures complete { (amount : ℕ) → amount ≤ most → map (λ w. w.now) words.now ≡ arguments (item.Bound amount)
        → result ≡ Some (item.Bound amount) }
{
    let [amount] = words else {
        return None;
    };
    let amount = read_amount(amount)?;
    Some(Item::Bound { amount })
}

fn read_end(words: &[&[u8]]) -> Option<Item>
    ensures sound { IfSome result (λ x. (x ≡ item.End) × (map (λ w. w.now) words.now ≡ arguments item.End)) }
    ensures complete { map (λ w. w.now) words.now ≡ arguments item.End → result ≡ Some item.End }
{
    if words.is_empty() {
        Some(Item::End)
    } else {
        None
    }
}

fn read_vector(alloc: Global, words: &[&[u8]]) -> Result<Option<Item>, NoMemory>
    ensures sound { IfOk result (λ o. IfSome o (λ x. Says kind.Vector (map (λ w. w.now) words.now) x)) }
    ensures fits { IfOk result (λ o. IfSome o Fits) }
    ensures complete { (potential : ℕ) (slots : List APair) → potential ≤ most → All IsSlot slots → map
        (λ w. w.now) words.now ≡ arguments (item.Vector potential slots) → IfOk result
        (λ o. o ≡ Some (item.Vector potential slots)) }
{
    let Some((potential, words)) = words.split_first() else {
        return Ok(None);
    };
    let Some(potential) = read_amount(potential) else {
        return Ok(None);
    };
    let Some(slots) = read_slots(alloc, words)? else {
        return Ok(None);
    };
    Ok(Some(Item::Vector { potential, slots }))
}

fn read_listed(alloc: Global, words: &[&[u8]]) -> Result<Option<Item>, NoMemory>
    ensures sound { IfOk result (λ o. IfSome o (λ x. Says kind.Listed (map (λ w. w.now) words.now) x)) }
    ensures fits { IfOk result (λ o. IfSome o Fits) }
    ensures complete { (slots : List APair) → All IsSlot slots → map (λ w. w.now) words.now
        ≡ arguments (item.Listed slots) → IfOk result (λ o. o ≡ Some (item.Listed slots)) }
{
    let Some(slots) = read_slots(alloc, words)? else {
        return Ok(None);
    };
    Ok(Some(Item::Listed { slots }))
}

fn read_named(alloc: Global, words: &[&[u8]]) -> Result<Option<Item>, NoMemory>
    ensures sound { IfOk result (λ o. IfSome o (λ x. Says kind.Places (map (λ w. w.now) words.now) x)) }
    ensures fits { IfOk result (λ o. IfSome o Fits) }
    ensures complete { (number : ℕ) (places : List APair) → number < 2 ^ 32 → All IsPlace places → map
        (λ w. w.now) words.now ≡ arguments (item.Places number places) → IfOk result
        (λ o. o ≡ Some (item.Places number places)) }
{
    let Some((number, words)) = words.split_first() else {
        return Ok(None);
    };
    let Some(number) = read_number(number) else {
        return Ok(None);
    };
    let Some(places) = read_places(alloc, words)? else {
        return Ok(None);
    };
    Ok(Some(Item::Places { number, places }))
}

/// What a line of the kind tells by the words behind its name, `None` where one of them is no number in its range.
fn read_arguments(alloc: Global, kind: Kind, words: &[&[u8]]) -> Result<Option<Item>, NoMemory>
    ensures sound { IfOk result (λ o. IfSome o (λ x. Says kind (map (λ w. w.now) words.now) x)) }
    ensures fits { IfOk result (λ o. IfSome o Fits) }
    ensures complete { (x : AnItem) → Fits x → Says kind (map (λ w. w.now) words.now) x → IfOk result
        (λ o. o ≡ Some x) }
{
    match kind {
        Kind::Head => Ok(read_head(words)),
        Kind::Node => Ok(read_node(words)),
        Kind::Vector => read_vector(alloc, words),
        Kind::Count => Ok(read_count(words)),
        Kind::Listed => read_listed(alloc, words),
        Kind::Places => read_named(alloc, words),
        Kind::Charge => Ok(read_charge(words)),
        Kind::Multiplier => Ok(read_multiplier(words)),
        Kind::Total => Ok(read_total(words)),
        Kind::Bound => Ok(read_bound(words)),
        Kind::End => Ok(read_end(words)),
    }
}

/// What a line tells, `None` where one of its numbers has a leading zero or is out of its range.
pub(crate) fn read_item(alloc: Global, row: &Row<'_>) -> Result<Option<Item>, NoMemory>
    ensures sound { IfOk result (λ o. IfSome o (λ x. IsSaid (line_of row.now) x)) }
    ensures complete { (x : AnItem) → IsSaid (line_of row.now) x → IfOk result (λ o. o ≡ Some x) }
{
    let words = row.words.as_slice();
    match words.split_first() {
        Some((_, others)) => read_arguments(alloc, row.kind, others),
        None => read_arguments(alloc, row.kind, words),
    }
}
