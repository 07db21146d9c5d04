//! Words that are numbers and pairs of numbers.

ghost use Rattle.std.specs.Prelude.{◌≡◌, ℕ, ◌<◌, ◌≤◌, ◌^◌, List, All, map, Some, IfOk, IfSome};
ghost use Rattle.std.specs.Bool.{Decides};
ghost use Rattle.wx_text.specs.Decimal.{decimal};
ghost use Rattle.cert_items.specs.declared.item.Pair.{Pair as APair};
ghost use Rattle.cert_items.specs.Said.{flat, most, IsSlot, IsPlace};

use crate::item::{Pair, Pairs};
use std::alloc::Global;
use wx_text::{List as ListOf, NoMemory, read_decimal};

/// Numbers in order: contracts see their list.
type Numbers = ListOf<u64>;

/// The greatest number of cycles in a certificate.
const MOST: u64 = 1_000_000_000_000_000_000;

/// The number of cycles that the word is.
pub(crate) fn read_amount(word: &[u8]) -> Option<u64>
    ensures sound { IfSome result (λ n. word.now ≡ decimal n) }
    ensures complete { (n : ℕ) → n ≤ most → word.now ≡ decimal n → result ≡ Some n }
    ensures small { IfSome result (λ n. n ≤ most) }
{
    let amount = read_decimal(word)?;
    if amount <= MOST { Some(amount) } else { None }
}

/// The numbers that the words are.
fn read_numbers(alloc: Global, words: &[&[u8]]) -> Result<Option<Numbers>, NoMemory>
    ensures sound { IfOk result (λ o. IfSome o (λ list. map (λ w. w.now) words.now ≡ map decimal list)) }
    ensures complete { (list : List ℕ) → All (λ n. n < 2 ^ 64) list → map (λ w. w.now) words.now ≡ map decimal list
        → IfOk result (λ o. o ≡ Some list) }
{
    let mut list = Vec::new(alloc);
    for word in words {
        let Some(number) = read_decimal(word) else {
            return Ok(None);
        };
        list.push(number)?;
    }
    Ok(Some(Numbers::new(list)))
}

/// The numbers two by two, if their number is even.
fn pair_up(alloc: Global, numbers: &[u64]) -> Result<Option<Pairs>, NoMemory>
    ensures sound { IfOk result (λ o. IfSome o (λ pairs. flat pairs ≡ numbers.now)) }
    ensures complete { (pairs : List APair) → flat pairs ≡ numbers.now → IfOk result (λ o. o ≡ Some pairs) }
{
    if numbers.len() % 2 != 0 {
        return Ok(None);
    }
    let mut pairs = Vec::new(alloc);
    for at in 0..numbers.len() / 2 {
        pairs.push(Pair {
            left: numbers[2 * at],
            right: numbers[2 * at + 1],
        })?;
    }
    Ok(Some(Pairs::new(pairs)))
}

/// Whether each pair is a slot of a vector with its value.
fn are_slots(pairs: &[Pair]) -> bool
    ensures { Decides result (All IsSlot pairs.now) }
{
    pairs.iter().all(|pair| is_slot(*pair))
}

fn is_slot(pair: Pair) -> bool
    ensures { Decides result (IsSlot pair) }
{
    pair.left <= 34 && pair.right <= MOST
}

/// Whether each pair is a potential with the place of its vector.
fn are_places(pairs: &[Pair]) -> bool
    ensures { Decides result (All IsPlace pairs.now) }
{
    pairs.iter().all(|pair| is_place(*pair))
}

fn is_place(pair: Pair) -> bool
    ensures { Decides result (IsPlace pair) }
{
    pair.left <= MOST && pair.right <= u64::from(u32::MAX)
}

/// The pairs that the words are.
fn read_pairs(alloc: Global, words: &[&[u8]]) -> Result<Option<Pairs>, NoMemory>
    ensures sound { IfOk result (λ o. IfSome o (λ pairs. map (λ w. w.now) words.now ≡ map decimal (flat pairs))) }
    ensures complete { (pairs : List APair) → All (λ n. n < 2 ^ 64) (flat pairs) → map (λ w. w.now) words.now
        ≡ map decimal (flat pairs) → IfOk result (λ o. o ≡ Some pairs) }
{
    let Some(numbers) = read_numbers(alloc, words)? else {
        return Ok(None);
    };
    pair_up(alloc, numbers.as_slice())
}

/// The slots of a vector with their values that the words are.
#[tactic(auto, using(crate::proofs::PairLemmas::slots_small))]
pub(crate) fn read_slots(alloc: Global, words: &[&[u8]]) -> Result<Option<Pairs>, NoMemory>
    ensures sound { IfOk result (λ o. IfSome o (λ pairs. map (λ w. w.now) words.now ≡ map decimal (flat pairs))) }
    ensures fits { IfOk result (λ o. IfSome o (λ pairs. All IsSlot pairs)) }
    ensures complete { (pairs : List APair) → All IsSlot pairs → map (λ w. w.now) words.now ≡ map decimal (flat pairs)
        → IfOk result (λ o. o ≡ Some pairs) }
{
    let Some(pairs) = read_pairs(alloc, words)? else {
        return Ok(None);
    };
    if are_slots(pairs.as_slice()) {
        Ok(Some(pairs))
    } else {
        Ok(None)
    }
}

/// The potentials with the places of their vectors that the words are.
#[tactic(auto, using(crate::proofs::PairLemmas::places_small))]
pub(crate) fn read_places(alloc: Global, words: &[&[u8]]) -> Result<Option<Pairs>, NoMemory>
    ensures sound { IfOk result (λ o. IfSome o (λ pairs. map (λ w. w.now) words.now ≡ map decimal (flat pairs))) }
    ensures fits { IfOk result (λ o. IfSome o (λ pairs. All IsPlace pairs)) }
    ensures complete { (pairs : List APair) → All IsPlace pairs → map (λ w. w.now) words.now ≡ map decimal (flat pairs)
        → IfOk result (λ o. o ≡ Some pairs) }
{
    let Some(pairs) = read_pairs(alloc, words)? else {
        return Ok(None);
    };
    if are_places(pairs.as_slice()) {
        Ok(Some(pairs))
    } else {
        Ok(None)
    }
}
