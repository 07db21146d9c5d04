//! The parts of an instruction's text: registers, numbers, operands, offsets, addresses and lists. Each is appended to
//! a text; for want of memory a piece of it may have been appended.

ghost use Rattle.std.specs.Prelude.{◌≡◌, ◌<◌, ◌≤◌, ◌++◌, OnOk};
ghost use Rattle.wx_text.specs.Decimal.{decimal};
ghost use Rattle.arm_text.specs.Names.{register_name, where_set};
ghost use Rattle.arm_text.specs.Text.{further, numeral, rotated, has_rotation, is_least_rotation, immediate_text, shift_text, shifted_text, by_register_text, operand_text, number_offset, register_offset, offset_text, half_offset_text, base_end, address_end, address_text, listed, listed_below, list_text};

use crate::names::{register_name, shift_by_zero, shift_name};
use arm_code::{HalfOffset, Index, Offset, Operand};
use wx_base::{NoMemory, push_number};

/// Appends a text as it stands.
pub(crate) fn push(out: &mut Vec<u8>, text: &[u8]) -> Result<(), NoMemory>
    ensures { OnOk result (out.new.items ≡ out.old.items ++ text.now) }
{
    out.extend_from_slice(text)?;
    Ok(())
}

/// Appends a text if a condition holds.
pub(crate) fn push_where(out: &mut Vec<u8>, set: bool, text: &[u8]) -> Result<(), NoMemory>
    ensures { OnOk result (out.new.items ≡ out.old.items ++ where_set set text.now) }
{
    if set {
        push(out, text)?;
    }
    Ok(())
}

/// Appends a number.
pub(crate) fn push_decimal(out: &mut Vec<u8>, n: u32) -> Result<(), NoMemory>
    ensures { OnOk result (out.new.items ≡ out.old.items ++ decimal n) }
{
    push_number(out, i128::from(n))
}

/// Appends the name of a register.
pub(crate) fn push_register(out: &mut Vec<u8>, register: u8) -> Result<(), NoMemory>
    ensures { OnOk result (out.new.items ≡ out.old.items ++ register_name register) }
{
    push(out, register_name(register))
}

/// Appends a comma and a register.
pub(crate) fn push_further(out: &mut Vec<u8>, register: u8) -> Result<(), NoMemory>
    ensures { OnOk result (out.new.items ≡ out.old.items ++ further (register_name register)) }
{
    push(out, b", ".as_slice())?;
    push_register(out, register)
}

/// Appends a number with its mark.
fn push_numeral(out: &mut Vec<u8>, n: u32) -> Result<(), NoMemory>
    ensures { OnOk result (out.new.items ≡ out.old.items ++ numeral n) }
{
    push(out, b"#".as_slice())?;
    push_decimal(out, n)
}

/// What an immediate operand stands for.
fn rotated(value: u8, rot: u8) -> u32
    ensures { result ≡ rotated value rot }
{
    u32::from(value).rotate_right(2 * u32::from(rot))
}

/// Whether eight bits can stand for a number by a rotation.
pub(crate) fn has_rotation(n: u32, rot: u8) -> bool
    ensures { result ≡ has_rotation n rot }
{
    n.rotate_left(2 * u32::from(rot)) < 256
}

/// Whether no smaller rotation stands for the same number.
#[tactic(auto, using(crate::proofs::Ranges::any_more, crate::proofs::Ranges::any_found))]
pub(crate) fn is_least_rotation(value: u8, rot: u8) -> bool
    ensures { result ≡ is_least_rotation value rot }
{
    let n = rotated(value, rot);
    for smaller in 0..rot {
        if has_rotation(n, smaller) {
            return false;
        }
    }
    true
}

/// Appends an immediate operand.
fn push_immediate(out: &mut Vec<u8>, value: u8, rot: u8) -> Result<(), NoMemory>
    ensures { OnOk result (out.new.items ≡ out.old.items ++ immediate_text value rot) }
{
    if is_least_rotation(value, rot) {
        return push_numeral(out, rotated(value, rot));
    }
    push_numeral(out, u32::from(value))?;
    push(out, b" ror ".as_slice())?;
    push_decimal(out, 2 * u32::from(rot))
}

/// Appends the shift of a register by an amount.
fn push_shift(out: &mut Vec<u8>, kind: u8, amount: u8) -> Result<(), NoMemory>
    ensures { OnOk result (out.new.items ≡ out.old.items ++ shift_text kind amount) }
{
    if amount == 0 {
        return push(out, shift_by_zero(kind));
    }
    push(out, b", ".as_slice())?;
    push(out, shift_name(kind))?;
    push(out, b" ".as_slice())?;
    push_numeral(out, u32::from(amount))
}

/// Appends a register that is shifted by an amount.
fn push_shifted(out: &mut Vec<u8>, register: u8, kind: u8, amount: u8) -> Result<(), NoMemory>
    ensures { OnOk result (out.new.items ≡ out.old.items ++ shifted_text register kind amount) }
{
    push_register(out, register)?;
    push_shift(out, kind, amount)
}

/// Appends a register that is shifted by another.
fn push_by_register(out: &mut Vec<u8>, register: u8, kind: u8, amount: u8) -> Result<(), NoMemory>
    ensures { OnOk result (out.new.items ≡ out.old.items ++ by_register_text register kind amount) }
{
    push_register(out, register)?;
    push(out, b", ".as_slice())?;
    push(out, shift_name(kind))?;
    push(out, b" ".as_slice())?;
    push_register(out, amount)
}

/// Appends the second operand of data processing.
pub(crate) fn push_operand(out: &mut Vec<u8>, operand: Operand) -> Result<(), NoMemory>
    ensures { OnOk result (out.new.items ≡ out.old.items ++ operand_text operand) }
{
    match operand {
        Operand::Imm { value, rot } => push_immediate(out, value, rot),
        Operand::Shift { rm, kind, amount } => push_shifted(out, rm, kind, amount),
        Operand::ByReg { rm, kind, rs } => push_by_register(out, rm, kind, rs),
    }
}

/// Appends an offset that is a number.
fn push_number_offset(out: &mut Vec<u8>, up: bool, value: u16) -> Result<(), NoMemory>
    ensures { OnOk result (out.new.items ≡ out.old.items ++ number_offset up value) }
{
    push(out, b"#".as_slice())?;
    push_where(out, !up, b"-".as_slice())?;
    push_decimal(out, u32::from(value))
}

/// Appends an offset that is in a register.
fn push_register_offset(out: &mut Vec<u8>, up: bool, register: u8) -> Result<(), NoMemory>
    ensures { OnOk result (out.new.items ≡ out.old.items ++ register_offset up register) }
{
    push_where(out, !up, b"-".as_slice())?;
    push_register(out, register)
}

/// Appends the offset of a transfer of a word or a byte.
fn push_offset(out: &mut Vec<u8>, up: bool, offset: Offset) -> Result<(), NoMemory>
    ensures { OnOk result (out.new.items ≡ out.old.items ++ offset_text up offset) }
{
    match offset {
        Offset::Imm { value } => push_number_offset(out, up, value),
        Offset::Reg { rm, kind, amount } => {
            push_register_offset(out, up, rm)?;
            push_shift(out, kind, amount)
        }
    }
}

/// Appends the offset of a transfer of a half word or a signed byte.
fn push_half_offset(out: &mut Vec<u8>, up: bool, offset: HalfOffset) -> Result<(), NoMemory>
    ensures { OnOk result (out.new.items ≡ out.old.items ++ half_offset_text up offset) }
{
    match offset {
        HalfOffset::Imm { value } => push_number_offset(out, up, u16::from(value)),
        HalfOffset::Reg { rm } => push_register_offset(out, up, rm),
    }
}

/// What stands between the base and the offset.
fn base_end(index: Index) -> &'static [u8]
    ensures { result.now ≡ base_end index }
{
    match index {
        Index::Plain | Index::Pre => b", ".as_slice(),
        Index::Post => b"], ".as_slice(),
    }
}

/// What stands behind the offset.
fn address_end(index: Index) -> &'static [u8]
    ensures { result.now ≡ address_end index }
{
    match index {
        Index::Plain => b"]".as_slice(),
        Index::Pre => b"]!".as_slice(),
        Index::Post => b"".as_slice(),
    }
}

/// Appends the address of a transfer of a word or a byte.
pub(crate) fn push_address(
    out: &mut Vec<u8>,
    index: Index,
    base: u8,
    up: bool,
    offset: Offset,
) -> Result<(), NoMemory>
    ensures { OnOk result (out.new.items ≡ out.old.items ++ address_text index base (offset_text up offset)) }
{
    push(out, b"[".as_slice())?;
    push_register(out, base)?;
    push(out, base_end(index))?;
    push_offset(out, up, offset)?;
    push(out, address_end(index))
}

/// Appends the address of a transfer of a half word or a signed byte.
pub(crate) fn push_half_address(
    out: &mut Vec<u8>,
    index: Index,
    base: u8,
    up: bool,
    offset: HalfOffset,
) -> Result<(), NoMemory>
    ensures { OnOk result (out.new.items ≡ out.old.items ++ address_text index base (half_offset_text up offset)) }
{
    push(out, b"[".as_slice())?;
    push_register(out, base)?;
    push(out, base_end(index))?;
    push_half_offset(out, up, offset)?;
    push(out, address_end(index))
}

/// Appends a register of a list, if it is in it.
fn push_listed(out: &mut Vec<u8>, list: u16, register: u8) -> Result<(), NoMemory>
    requires { register < 16 }
    ensures { OnOk result (out.new.items ≡ out.old.items ++ listed list register) }
{
    if (list >> register) % 2 == 1 {
        push_where(out, list % (1 << register) != 0, b", ".as_slice())?;
        push_register(out, register)?;
    }
    Ok(())
}

/// Appends the registers of a list below a number.
#[tactic(auto, using(crate::proofs::Ranges::texts_more))]
fn push_below(out: &mut Vec<u8>, list: u16, end: u8) -> Result<(), NoMemory>
    requires { end ≤ 16 }
    ensures { OnOk result (out.new.items ≡ out.old.items ++ listed_below list end) }
{
    for register in 0..end {
        push_listed(out, list, register)?;
    }
    Ok(())
}

/// Appends the registers of a list.
#[tactic(auto, unfolding(crate::specs::Text::list_text))]
pub(crate) fn push_list(out: &mut Vec<u8>, list: u16) -> Result<(), NoMemory>
    ensures { OnOk result (out.new.items ≡ out.old.items ++ list_text list) }
{
    push_below(out, list, 16)
}
