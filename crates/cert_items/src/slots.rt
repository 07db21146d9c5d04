//! Pairs that ascend, and vectors as lists of their slots.

ghost use Rattle.std.specs.Prelude.{◌≡◌, ◌<◌, ◌≤◌, All, None, not, ◌==◌, nat_lt, length};
ghost use Rattle.std.specs.List.{list_all};
ghost use Rattle.cert_items.specs.Said.{IsSlot};
ghost use Rattle.cert_items.specs.Order.{above, ascend, lefts, rights, are_in_order, are_placed, slots_of, is_vector_less};

use crate::item::Pair;
use std::cmp::Ordering;

/// Whether the number is above the one before it.
fn above(last: Option<u64>, number: u64) -> bool
    ensures { result ≡ above last number }
{
    match last {
        None => true,
        Some(last) => last < number,
    }
}

/// Whether the numbers before the colons ascend.
fn lefts_ascend(pairs: &[Pair]) -> bool
    ensures { result ≡ ascend None (lefts pairs.now) }
{
    let mut last: Option<u64> = None;
    for pair in pairs {
        if !above(last, pair.left) {
            return false;
        }
        last = Some(pair.left);
    }
    true
}

/// Whether the numbers behind the colons ascend.
fn rights_ascend(pairs: &[Pair]) -> bool
    ensures { result ≡ ascend None (rights pairs.now) }
{
    let mut last: Option<u64> = None;
    for pair in pairs {
        if !above(last, pair.right) {
            return false;
        }
        last = Some(pair.right);
    }
    true
}

/// Whether no number behind a colon is 0.
fn are_some(pairs: &[Pair]) -> bool
    ensures { result ≡ list_all (λ p. not (p.right == 0)) pairs.now }
{
    pairs.iter().all(|pair| pair.right != 0)
}

/// Whether the numbers behind the colons are below the count.
fn are_below(pairs: &[Pair], count: u64) -> bool
    ensures { result ≡ list_all (λ p. nat_lt p.right count) pairs.now }
{
    pairs.iter().all(|pair| pair.right < count)
}

/// Whether the slots ascend and none is 0.
pub(crate) fn are_in_order(slots: &[Pair]) -> bool
    ensures { result ≡ are_in_order slots.now }
{
    lefts_ascend(slots) && are_some(slots)
}

/// Whether the place of each vector is above the one before and below the count.
pub(crate) fn are_placed(count: u64, places: &[Pair]) -> bool
    ensures { result ≡ are_placed count places.now }
{
    rights_ascend(places) && are_below(places, count)
}

/// The 35 slots of a vector: those that the pairs name have their values, all others are 0.
pub fn slots_of(pairs: &[Pair]) -> [u64; 35]
    requires { All IsSlot pairs.now }
    ensures { result ≡ slots_of pairs.now }
{
    let mut slots = [0; 35];
    for pair in pairs {
        slots[pair.left as usize] = pair.right;
    }
    slots
}

/// Whether a vector comes before another as a list of its slots.
pub(crate) fn is_vector_less(a: &[Pair], b: &[Pair]) -> bool
    requires first { All IsSlot a.now }
    requires second { All IsSlot b.now }
    ensures { result ≡ is_vector_less a.now b.now }
{
    let (a, b) = (slots_of(a), slots_of(b));
    matches!(a.as_slice().cmp(b.as_slice()), Ordering::Less)
}
