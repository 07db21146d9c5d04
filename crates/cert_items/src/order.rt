//! Whether what a line tells stands in order.

ghost use Rattle.std.specs.Prelude.{◌≡◌, ◌<◌, ◌≤◌, ◌+◌, false, length, drop, All, slice_index_or, slice_get, count_by};
ghost use Rattle.cert_lines.specs.Reading.{lines_of};
ghost use Rattle.cert_items.specs.Said.{Fits, IsSlot};
ghost use Rattle.cert_items.specs.Order.{is_kind, leading, is_named, is_listed, is_scope_less, is_above_vector, is_above_charge, is_above_total, counted, last_of, is_in_order};
ghost use Rattle.cert_items.specs.Counts.{AreCounts, AreMarks};

use crate::counts::Counts;
use crate::item::{Item, Pair};
use crate::slots::{are_in_order, are_placed, is_vector_less};
use cert_lines::{Kind, Row};
use flow_ctx::Scope;

/// Whether the kinds are one of those that are counted, and the same.
fn is_kind(a: Kind, b: Kind) -> bool
    ensures { result ≡ is_kind a b }
{
    matches!(
        (a, b),
        (Kind::Vector, Kind::Vector) | (Kind::Listed, Kind::Listed) | (Kind::Places, Kind::Places)
    )
}

/// How many lines of the kind stand at the front.
fn leading(kind: Kind, rows: &[Row<'_>]) -> usize
    ensures { result ≡ leading kind (lines_of rows.now) }
{
    for (index, row) in rows.iter().enumerate() {
        if !is_kind(kind, row.kind) {
            return index;
        }
    }
    rows.len()
}

/// How many lines of the kind stand right behind the first ones.
fn leading_behind(kind: Kind, rows: &[Row<'_>], count: usize) -> usize
    requires { count ≤ length rows.now }
    ensures { result ≡ leading kind (drop count (lines_of rows.now)) }
{
    leading(kind, &rows[count..])
}

/// Whether the place of the next vector is named.
fn is_named(rows: &[Row<'_>], marks: &[bool], counts: Counts, items: &[Item]) -> bool
    requires room { length items.now < length rows.now }
    requires marks { AreMarks (lines_of rows.now) marks.now }
    requires counts { AreCounts counts items.now }
    ensures { result ≡ is_named (lines_of rows.now) (count_by is_listed items.now) }
{
    let _lines = rows;
    let _before = items;
    marks[counts.listed]
}

/// Whether a vector comes behind the line before it, which may be another one.
fn is_above_vector(items: &[Item], next: &[Pair]) -> bool
    requires fits { All Fits items.now }
    requires slots { All IsSlot next.now }
    ensures { result ≡ is_above_vector (last_of items.now) next.now }
{
    match items.last() {
        Some(Item::Vector { slots, .. }) => is_vector_less(slots.as_slice(), next),
        Some(Item::Listed { slots }) => is_vector_less(slots.as_slice(), next),
        _ => true,
    }
}

/// Whether a scope comes before another: the run before loops, these by number.
fn is_scope_less(a: Scope, b: Scope) -> bool
    ensures { result ≡ is_scope_less a b }
{
    match (a, b) {
        (Scope::Run, Scope::Loop { .. }) => true,
        (Scope::Loop { number }, Scope::Loop { number: other }) => number < other,
        _ => false,
    }
}

/// Whether a charge comes behind the line before it.
fn is_above_charge(items: &[Item], next: u32, within: Scope) -> bool
    ensures { result ≡ is_above_charge (last_of items.now) next within }
{
    match items.last() {
        Some(Item::Charge { line, scope, .. }) => {
            *line < next || *line == next && is_scope_less(*scope, within)
        }
        _ => true,
    }
}

/// Whether a total comes behind the line before it.
fn is_above_total(items: &[Item], next: u32) -> bool
    ensures { result ≡ is_above_total (last_of items.now) next }
{
    match items.last() {
        Some(Item::Total { address, .. }) => *address < next,
        _ => true,
    }
}

/// How many vectors the second line counts.
fn counted(items: &[Item]) -> u32
    ensures { result ≡ counted (slice_get items.now 1) }
{
    match items.get(1) {
        Some(Item::Count { count }) => *count,
        _ => 0,
    }
}

/// Whether what a line tells may stand behind what the lines before it tell, and among the lines of the text.
pub(crate) fn is_in_order(
    rows: &[Row<'_>],
    marks: &[bool],
    counts: Counts,
    items: &[Item],
    item: &Item,
) -> bool
    requires room { length items.now < length rows.now }
    requires marks { AreMarks (lines_of rows.now) marks.now }
    requires counts { AreCounts counts items.now }
    requires items { All Fits items.now }
    requires item { Fits item.now }
    ensures { result ≡ is_in_order (lines_of rows.now) items.now item.now }
{
    match item {
        Item::Head { .. } | Item::Bound { .. } | Item::End => true,
        Item::Node { number, count } => {
            *number as usize == counts.nodes
                && *count as usize == leading_behind(Kind::Vector, rows, items.len() + 1)
        }
        Item::Vector { slots, .. } => {
            are_in_order(slots.as_slice()) && is_above_vector(items, slots.as_slice())
        }
        Item::Count { count } => {
            *count as usize == leading_behind(Kind::Listed, rows, items.len() + 1)
        }
        Item::Listed { slots } => {
            are_in_order(slots.as_slice())
                && is_above_vector(items, slots.as_slice())
                && is_named(rows, marks, counts, items)
        }
        Item::Places { number, places } => {
            *number as usize == counts.nodes
                && are_placed(u64::from(counted(items)), places.as_slice())
        }
        Item::Charge { line, scope, .. } => is_above_charge(items, *line, *scope),
        Item::Multiplier { number, .. } => *number as usize == counts.multipliers,
        Item::Total { address, amount } => is_above_total(items, *address) && *amount != 0,
    }
}
