//! What data processing and multiplications compute. ARM Architecture Reference Manual, "Data-processing instructions"
//! and "Multiply instructions".

ghost use Rattle.std.specs.Prelude.{◌≡◌};
ghost use Rattle.wx_base.specs.Bits.{inverted};
ghost use Rattle.wx_base.specs.Arithmetic.{asked, passes, sum_with, difference_with, bitwise, is_arithmetic, arithmetic, combined, computed, flags_of, product_of, wide, long_product_of, product_flags, is_slow_factor};

use crate::shifter::{is_negative, low_word, sign_extended};
use wx_base::{Computed, Flags, Shifted};

/// What a pair of opposite conditions asks of the flags.
fn asked(pair: u8, flags: Flags) -> bool
    ensures { result ≡ asked pair flags }
{
    match pair {
        0 => flags.z,
        1 => flags.c,
        2 => flags.n,
        3 => flags.v,
        4 => flags.c && !flags.z,
        5 => flags.n == flags.v,
        6 => flags.n == flags.v && !flags.z,
        _ => true,
    }
}

/// Whether a condition holds: its pair's question is answered yes if its code is even, else no.
#[tactic(auto, unfolding(wx_base::specs::Arithmetic::passes))]
pub(crate) fn passes(cond: u8, flags: Flags) -> bool
    ensures { result ≡ passes cond flags }
{
    if cond % 2 == 0 {
        asked(cond / 2, flags)
    } else {
        !asked(cond / 2, flags)
    }
}

/// The sum of two words and a carry.
fn sum_with(a: u32, b: u32, carry: bool) -> Computed
    ensures { result ≡ sum_with a b carry }
{
    let sum = u64::from(a) + u64::from(b) + u64::from(carry);
    let value = low_word(sum);
    Computed {
        value,
        carry: sum >= 1 << 32,
        overflow: is_negative(a) == is_negative(b) && is_negative(value) != is_negative(a),
    }
}

/// A difference, less one unless the carry is set.
fn difference_with(a: u32, b: u32, carry: bool) -> Computed
    ensures { result ≡ difference_with a b carry }
{
    sum_with(a, !b, carry)
}

/// Whether an opcode is a sum or a difference.
fn is_arithmetic(code: u8) -> bool
    ensures { result ≡ is_arithmetic code }
{
    2 <= code && code <= 7 || code == 10 || code == 11
}

/// Sums and differences, by their opcodes.
fn arithmetic(code: u8, first: u32, second: u32, carry: bool) -> Computed
    ensures { result ≡ arithmetic code first second carry }
{
    match code {
        2 | 10 => difference_with(first, second, true),
        3 => difference_with(second, first, true),
        4 | 11 => sum_with(first, second, false),
        5 => sum_with(first, second, carry),
        6 => difference_with(first, second, carry),
        _ => difference_with(second, first, carry),
    }
}

/// What the other opcodes combine bit by bit.
fn combined(code: u8, first: u32, second: u32) -> u32
    ensures { result ≡ combined code first second }
{
    match code {
        0 | 8 => first & second,
        1 | 9 => first ^ second,
        12 => first | second,
        13 => second,
        14 => first & !second,
        _ => !second,
    }
}

/// What data processing computes of its operands, by its opcode.
#[tactic(auto, unfolding(wx_base::specs::Arithmetic::computed))]
pub(crate) fn computed(code: u8, first: u32, second: Shifted, flags: Flags) -> Computed
    ensures { result ≡ computed code first second flags }
{
    if is_arithmetic(code) {
        arithmetic(code, first, second.value, flags.c)
    } else {
        Computed {
            value: combined(code, first, second.value),
            carry: second.carry,
            overflow: flags.v,
        }
    }
}

/// The flags that data processing sets.
pub(crate) fn flags_of(computed: Computed) -> Flags
    ensures { result ≡ flags_of computed }
{
    Flags {
        n: is_negative(computed.value),
        z: computed.value == 0,
        c: computed.carry,
        v: computed.overflow,
    }
}

/// A product, and what is added to it, in 32 bits.
pub(crate) fn product_of(a: u32, b: u32, added: u32) -> u32
    ensures { result ≡ product_of a b added }
{
    a.wrapping_mul(b).wrapping_add(added)
}

/// A word in 64 bits, taken with its sign or without.
fn wide(signed: bool, word: u32) -> u64
    ensures { result ≡ wide signed word }
{
    if signed {
        sign_extended(word)
    } else {
        u64::from(word)
    }
}

/// A product, and what is added to it, in 64 bits.
pub(crate) fn long_product_of(signed: bool, a: u32, b: u32, added: u64) -> u64
    ensures { result ≡ long_product_of signed a b added }
{
    wide(signed, a)
        .wrapping_mul(wide(signed, b))
        .wrapping_add(added)
}

/// The flags that a multiplication sets: carry and overflow stay.
pub(crate) fn product_flags(negative: bool, zero: bool, flags: Flags) -> Flags
    ensures { result ≡ product_flags negative zero flags }
{
    Flags {
        n: negative,
        z: zero,
        ..flags
    }
}

/// Whether a multiplication by this factor is slow.
pub(crate) fn is_slow_factor(word: u32) -> bool
    ensures { result ≡ is_slow_factor word }
{
    word >= 65536
}
