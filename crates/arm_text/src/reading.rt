//! Operands, offsets, addresses and lists, read from their whole texts.

ghost use Rattle.std.specs.Prelude.{◌≡◌, ◌≢◌, ◌<◌, ◌^◌, ◌*◌, ◌++◌, ℕ, true, false, Some, IfSome, IsSomeAnd, codes};
ghost use Rattle.wx_text.specs.Decimal.{decimal};
ghost use Rattle.arm_code.specs.declared.insn.Operand.{Operand};
ghost use Rattle.arm_text.specs.Names.{register_name, shift_name};
ghost use Rattle.arm_text.specs.Text.{further, numeral, rotated, is_least_rotation, immediate_text, shift_text, shifted_text, by_register_text, operand_text};
ghost use Rattle.arm_text.specs.Fields.{OperandFits};

use crate::numerals::read_numeral;
use crate::operands::{has_rotation, is_least_rotation};
use crate::parts::{behind, is, read_register, read_shift_kind, split, split_register};
use arm_code::Operand;
use wx_text::read_number;

/// The eight bits and the least rotation that stand for a number.
#[tactic(auto, using(crate::proofs::Ranges::any_more, crate::proofs::Ranges::any_found))]
fn least_rotation(n: u32) -> Option<(u8, u8)>
    ensures sound { IfSome result (λ p. (p.1 < 16) × (is_least_rotation p.0 p.1 ≡ true) × (rotated p.0 p.1 ≡ n)) }
    ensures complete { (value rot : ℕ) → value < 256 → rot < 16 → is_least_rotation value rot ≡ true → rotated value rot
        ≡ n → result ≡ Some (value, rot) }
{
    for rot in 0..16 {
        if has_rotation(n, rot) {
            return Some((n.rotate_left(2 * u32::from(rot)) as u8, rot));
        }
    }
    None
}

/// The bits and their rotation that a text gives one by one, unless a number would do.
fn read_rotation(bits: &[u8], by: &[u8]) -> Option<(u8, u8)>
    ensures sound { IfSome result (λ p. (p.1 < 16) × (is_least_rotation p.0 p.1 ≡ false) × (bits.now ≡ numeral p.0)
        × (by.now ≡ codes "ror " ++ decimal (2 * p.1))) }
    ensures complete { (value rot : ℕ) → value < 256 → rot < 16 → is_least_rotation value rot ≡ false → bits.now
        ≡ numeral value → by.now ≡ codes "ror " ++ decimal (2 * rot) → result ≡ Some (value, rot) }
{
    let value = u8::try_from(read_numeral(bits)?).ok()?;
    let twice = u8::try_from(read_number(behind(by, b"ror ".as_slice())?)?).ok()?;
    let rot = twice / 2;
    if twice % 2 == 0 && rot < 16 && !is_least_rotation(value, rot) {
        Some((value, rot))
    } else {
        None
    }
}

/// The bits and their rotation that an immediate operand stands for.
fn read_immediate(text: &[u8]) -> Option<(u8, u8)>
    ensures sound { IfSome result (λ p. (p.1 < 16) × (text.now ≡ immediate_text p.0 p.1)) }
    ensures complete { (value rot : ℕ) → value < 256 → rot < 16 → text.now ≡ immediate_text value rot → result
        ≡ Some (value, rot) }
{
    match split(text, b' ') {
        Some((bits, by)) => read_rotation(bits, by),
        None => least_rotation(read_numeral(text)?),
    }
}

/// The shift by a number that stands behind a register.
fn read_shift(text: &[u8]) -> Option<(u8, u8)>
    ensures sound { IfSome result (λ p. (p.0 < 4) × (p.1 < 32) × (further text.now ≡ shift_text p.0 p.1)) }
    ensures complete { (kind amount : ℕ) → kind < 4 → amount < 32 → further text.now ≡ shift_text kind amount → result
        ≡ Some (kind, amount) }
{
    if is(text, b"lsr #32".as_slice()) {
        return Some((1, 0));
    }
    if is(text, b"asr #32".as_slice()) {
        return Some((2, 0));
    }
    if is(text, b"rrx".as_slice()) {
        return Some((3, 0));
    }
    let (name, by) = split(text, b' ')?;
    let kind = read_shift_kind(name)?;
    let amount = read_numeral(by)?;
    if 0 < amount && amount < 32 {
        Some((kind, amount as u8))
    } else {
        None
    }
}

/// A register and its shift by a number.
pub(crate) fn read_shifted(text: &[u8]) -> Option<(u8, u8, u8)>
    ensures sound { IfSome result (λ p. (p.0 < 16) × (p.1 < 4) × (p.2 < 32) × (text.now ≡ shifted_text p.0 p.1 p.2)) }
    ensures complete { (register kind amount : ℕ) → register < 16 → kind < 4 → amount < 32 → text.now
        ≡ shifted_text register kind amount → result ≡ Some (register, kind, amount) }
{
    if let Some(register) = read_register(text) {
        return Some((register, 0, 0));
    }
    let (register, shift) = split_register(text)?;
    let (kind, amount) = read_shift(shift)?;
    Some((register, kind, amount))
}

/// A register, and the kind of its shift by another.
fn read_by_register(text: &[u8]) -> Option<(u8, u8, u8)>
    ensures sound { IfSome result (λ p. (p.0 < 16) × (p.1 < 4) × (p.2 < 16)
        × (text.now ≡ by_register_text p.0 p.1 p.2)) }
    ensures complete { (register kind amount : ℕ) → register < 16 → kind < 4 → amount < 16 → text.now
        ≡ by_register_text register kind amount → result ≡ Some (register, kind, amount) }
{
    let (register, shift) = split_register(text)?;
    let (name, by) = split(shift, b' ')?;
    Some((register, read_shift_kind(name)?, read_register(by)?))
}

/// The second operand of data processing.
pub(crate) fn read_operand(text: &[u8]) -> Option<Operand>
    ensures sound { IfSome result (λ operand. text.now ≡ operand_text operand) }
    ensures complete { (operand : Operand) → OperandFits operand → text.now ≡ operand_text operand → result
        ≡ Some operand }
{
    if let Some((value, rot)) = read_immediate(text) {
        return Some(Operand::Imm { value, rot });
    }
    if let Some((rm, kind, amount)) = read_shifted(text) {
        return Some(Operand::Shift { rm, kind, amount });
    }
    let (rm, kind, rs) = read_by_register(text)?;
    Some(Operand::ByReg { rm, kind, rs })
}
