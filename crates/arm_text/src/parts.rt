//! The smallest parts of an instruction's text: what stands before a separator, registers, and names of conditions and
//! shifts.

ghost use Rattle.std.specs.Prelude.{◌≡◌, ◌≢◌, ◌<◌, ◌++◌, ◌∷◌, ℕ, List, IsTrue, ◌↔◌, MatchOption, IfSome, IsSomeAnd, Some, true, codes};
ghost use Rattle.arm_text.specs.Names.{condition_suffix, register_name, shift_name};
ghost use Rattle.arm_text.specs.Text.{further};
ghost use Rattle.arm_text.specs.Mnemonics.{is_without};

use crate::names::{condition_suffix, register_name, shift_name};

/// Whether two texts are one.
pub(crate) fn is(text: &[u8], other: &[u8]) -> bool
    ensures { IsTrue result ↔ (text.now ≡ other.now) }
{
    text == other
}

/// The text behind `front`, if the text begins with it.
pub(crate) fn behind<'a>(text: &'a [u8], front: &[u8]) -> Option<&'a [u8]>
    ensures { MatchOption result ((tail : List ℕ) → text.now ≢ front.now ++ tail) (λ tail. text.now ≡ front.now
        ++ tail.now) }
{
    text.strip_prefix(front)
}

/// The text before `back`, if the text ends with it.
pub(crate) fn before<'a>(text: &'a [u8], back: &[u8]) -> Option<&'a [u8]>
    ensures { MatchOption result ((head : List ℕ) → text.now ≢ head ++ back.now) (λ head. text.now ≡ head.now
        ++ back.now) }
{
    text.strip_suffix(back)
}

/// What stands before and behind the first byte that is `separator`.
pub(crate) fn split(text: &[u8], separator: u8) -> Option<(&[u8], &[u8])>
    ensures sound { IfSome result (λ p. text.now ≡ p.0.now ++ separator ∷ p.1.now) }
    ensures complete { (head tail : List ℕ) → is_without separator head ≡ true → text.now ≡ head ++ separator ∷ tail
        → IsSomeAnd result (λ p. (p.0.now ≡ head) × (p.1.now ≡ tail)) }
{
    for (at, byte) in text.iter().enumerate() {
        if *byte == separator {
            return Some((&text[..at], &text[at + 1..]));
        }
    }
    None
}

/// The first of several operands, and the text of those behind it.
pub(crate) fn split_operand(text: &[u8]) -> Option<(&[u8], &[u8])>
    ensures sound { IfSome result (λ p. text.now ≡ p.0.now ++ further p.1.now) }
    ensures complete { (head tail : List ℕ) → is_without 44 head ≡ true → text.now ≡ head ++ further tail
        → IsSomeAnd result (λ p. (p.0.now ≡ head) × (p.1.now ≡ tail)) }
{
    let (operand, rest) = split(text, b',')?;
    Some((operand, behind(rest, b" ".as_slice())?))
}

/// The register that a text names.
pub(crate) fn read_register(text: &[u8]) -> Option<u8>
    ensures sound { IfSome result (λ r. (r < 16) × (text.now ≡ register_name r)) }
    ensures complete { (register : ℕ) → register < 16 → text.now ≡ register_name register → result ≡ Some register }
{
    for register in 0..16 {
        if is(text, register_name(register)) {
            return Some(register);
        }
    }
    None
}

/// The register that the first of several operands names, and the text of those behind it.
pub(crate) fn split_register(text: &[u8]) -> Option<(u8, &[u8])>
    ensures sound { IfSome result (λ p. (p.0 < 16) × (text.now ≡ register_name p.0 ++ further p.1.now)) }
    ensures complete { (register : ℕ) (tail : List ℕ) → register < 16 → text.now ≡ register_name register
        ++ further tail → IsSomeAnd result (λ p. (p.0 ≡ register) × (p.1.now ≡ tail)) }
{
    let (operand, rest) = split_operand(text)?;
    Some((read_register(operand)?, rest))
}

/// The condition whose suffix a text is, unless it is "always".
pub(crate) fn read_condition(text: &[u8]) -> Option<u8>
    ensures sound { IfSome result (λ cond. (cond < 14) × (text.now ≡ condition_suffix cond)) }
    ensures complete { (cond : ℕ) → cond < 14 → text.now ≡ condition_suffix cond → result ≡ Some cond }
{
    for cond in 0..14 {
        if is(text, condition_suffix(cond)) {
            return Some(cond);
        }
    }
    None
}

/// The kind of shift that a text names.
pub(crate) fn read_shift_kind(text: &[u8]) -> Option<u8>
    ensures sound { IfSome result (λ kind. (kind < 4) × (text.now ≡ shift_name kind)) }
    ensures complete { (kind : ℕ) → kind < 4 → text.now ≡ shift_name kind → result ≡ Some kind }
{
    for kind in 0..4 {
        if is(text, shift_name(kind)) {
            return Some(kind);
        }
    }
    None
}
