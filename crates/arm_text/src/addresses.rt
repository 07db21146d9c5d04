//! Offsets and addresses of transfers, read from their whole texts.

ghost use Rattle.std.specs.Prelude.{◌≡◌, ◌≢◌, ◌<◌, ◌^◌, ◌++◌, ℕ, Bool, List, Some, IfSome, IsSomeAnd, slice_index};
ghost use Rattle.wx_text.specs.Decimal.{decimal};
ghost use Rattle.arm_code.specs.declared.insn.Offset.{Offset};
ghost use Rattle.arm_code.specs.declared.insn.HalfOffset.{HalfOffset};
ghost use Rattle.arm_code.specs.declared.insn.Index.{Index};
ghost use Rattle.arm_text.specs.Text.{sign, number_offset, offset_text, half_offset_text, address_text};
ghost use Rattle.arm_text.specs.Fields.{OffsetFits, HalfOffsetFits};

use crate::parts::{before, behind, read_register, split_operand};
use crate::reading::read_shifted;
use arm_code::{HalfOffset, Index, Offset};
use wx_text::read_number;

/// Whether an offset is added, and the text behind its sign.
fn split_sign(text: &[u8]) -> (bool, &[u8])
    ensures sound { text.now ≡ sign result.0 ++ result.1.now }
    ensures complete { (up : Bool) (tail : List ℕ) → slice_index tail 0 ≢ 45 → text.now ≡ sign up ++ tail
        → (result.0 ≡ up) × (result.1.now ≡ tail) }
{
    match behind(text, b"-".as_slice()) {
        Some(rest) => (false, rest),
        None => (true, text),
    }
}

/// Whether a number is added, and the number, behind its mark.
fn read_signed(text: &[u8]) -> Option<(bool, u32)>
    ensures sound { IfSome result (λ p. text.now ≡ sign p.0 ++ decimal p.1) }
    ensures complete { (up : Bool) (value : ℕ) → value < 2 ^ 32 → text.now ≡ sign up ++ decimal value → result
        ≡ Some (up, value) }
{
    let (up, digits) = split_sign(text);
    Some((up, read_number(digits)?))
}

/// The offset of a transfer of a word or a byte, and whether it is added.
pub(crate) fn read_offset(text: &[u8]) -> Option<(bool, Offset)>
    ensures sound { IfSome result (λ p. text.now ≡ offset_text p.0 p.1) }
    ensures complete { (up : Bool) (offset : Offset) → OffsetFits offset → text.now ≡ offset_text up offset → result
        ≡ Some (up, offset) }
{
    if let Some(number) = behind(text, b"#".as_slice()) {
        let (up, value) = read_signed(number)?;
        let value = u16::try_from(value).ok()?;
        return Some((up, Offset::Imm { value }));
    }
    let (up, register) = split_sign(text);
    let (rm, kind, amount) = read_shifted(register)?;
    Some((up, Offset::Reg { rm, kind, amount }))
}

/// The offset of a transfer of a half word or a signed byte, and whether it is added.
pub(crate) fn read_half_offset(text: &[u8]) -> Option<(bool, HalfOffset)>
    ensures sound { IfSome result (λ p. text.now ≡ half_offset_text p.0 p.1) }
    ensures complete { (up : Bool) (offset : HalfOffset) → HalfOffsetFits offset → text.now ≡ half_offset_text up offset
        → result ≡ Some (up, offset) }
{
    if let Some(number) = behind(text, b"#".as_slice()) {
        let (up, value) = read_signed(number)?;
        let value = u8::try_from(value).ok()?;
        return Some((up, HalfOffset::Imm { value }));
    }
    let (up, register) = split_sign(text);
    let rm = read_register(register)?;
    Some((up, HalfOffset::Reg { rm }))
}

/// The base of an address and how its offset is used, and the offset's text.
pub(crate) fn split_address(text: &[u8]) -> Option<(Index, u8, &[u8])>
    ensures sound { IfSome result (λ p. (p.1 < 16) × (text.now ≡ address_text p.0 p.1 p.2.now)) }
    ensures complete { (index : Index) (base : ℕ) (by : List ℕ) → base < 16 → text.now ≡ address_text index base by
        → IsSomeAnd result (λ p. (p.0 ≡ index) × (p.1 ≡ base) × (p.2.now ≡ by)) }
{
    let (base, rest) = split_operand(behind(text, b"[".as_slice())?)?;
    if let Some(base) = before(base, b"]".as_slice()) {
        return Some((Index::Post, read_register(base)?, rest));
    }
    let base = read_register(base)?;
    if let Some(by) = before(rest, b"]!".as_slice()) {
        return Some((Index::Pre, base, by));
    }
    Some((Index::Plain, base, before(rest, b"]".as_slice())?))
}
