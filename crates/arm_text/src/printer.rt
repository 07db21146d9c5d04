//! The text of a whole instruction.

ghost use Rattle.std.specs.Prelude.{◌≡◌, ◌++◌, OnOk, OnErr, codes};
ghost use Rattle.wx_text.specs.Hexadecimal.{hex_word};
ghost use Rattle.arm_code.specs.Encoding.{IsValid};
ghost use Rattle.arm_code.specs.Flows.{offset_target};
ghost use Rattle.arm_text.specs.Mnemonics.{name_text};
ghost use Rattle.arm_text.specs.Names.{register_name, where_set};
ghost use Rattle.arm_text.specs.Operands.{mul_operands, mul_long_operands, marked_base, name_of, operands_text};
ghost use Rattle.arm_text.specs.Text.{further, alu_registers, operand_text, offset_text, half_offset_text, address_text, list_text, text_of};

use crate::names::{
    block_name, condition_suffix, half_name, mul_long_name, mul_name, opcode_name, single_name,
};
use crate::operands::{
    push, push_address, push_decimal, push_further, push_half_address, push_list, push_operand,
    push_register, push_where,
};
use arm_code::{HalfOffset, Index, Insn, Offset, Op, Operand, is_compare, is_move, offset_target};
use wx_base::{NoMemory, push_word};

/// Appends a name, with an `s` behind it if flags are set.
fn push_with_flags(out: &mut Vec<u8>, name: &[u8], flags: bool) -> Result<(), NoMemory>
    ensures { OnOk result (out.new.items ≡ out.old.items ++ (name.now ++ where_set flags (codes "s"))) }
{
    push(out, name)?;
    push_where(out, flags, b"s".as_slice())
}

/// Appends the name of an operation.
fn push_name(out: &mut Vec<u8>, op: Op) -> Result<(), NoMemory>
    ensures { OnOk result (out.new.items ≡ out.old.items ++ name_text (name_of op)) }
{
    match op {
        Op::Alu { op, s, .. } => push_with_flags(out, opcode_name(op), s && !is_compare(op)),
        Op::Mul { accumulate, s, .. } => push_with_flags(out, mul_name(accumulate), s),
        Op::MulLong {
            signed,
            accumulate,
            s,
            ..
        } => push_with_flags(out, mul_long_name(signed, accumulate), s),
        Op::Single { load, byte, .. } => push(out, single_name(load, byte)),
        Op::Half { kind, .. } => push(out, half_name(kind)),
        Op::Block {
            load,
            before,
            up,
            ..
        } => push(out, block_name(load, before, up)),
        Op::Branch { link: false, .. } => push(out, b"b".as_slice()),
        Op::Branch { link: true, .. } => push(out, b"bl".as_slice()),
        Op::Exchange { link: false, .. } => push(out, b"bx".as_slice()),
        Op::Exchange { link: true, .. } => push(out, b"blx".as_slice()),
        Op::Svc { .. } => push(out, b"svc".as_slice()),
        Op::MovPcLr => push(out, b"mov".as_slice()),
    }
}

/// Appends the registers of data processing.
fn push_alu_registers(out: &mut Vec<u8>, code: u8, rn: u8, rd: u8) -> Result<(), NoMemory>
    ensures { OnOk result (out.new.items ≡ out.old.items ++ alu_registers code rn rd) }
{
    if is_compare(code) {
        return push_register(out, rn);
    }
    push_register(out, rd)?;
    if !is_move(code) {
        push_further(out, rn)?;
    }
    Ok(())
}

fn push_alu(out: &mut Vec<u8>, code: u8, rn: u8, rd: u8, operand: Operand) -> Result<(), NoMemory>
    ensures { OnOk result (out.new.items ≡ out.old.items
        ++ (alu_registers code rn rd ++ further (operand_text operand))) }
{
    push_alu_registers(out, code, rn, rd)?;
    push(out, b", ".as_slice())?;
    push_operand(out, operand)
}

fn push_mul(
    out: &mut Vec<u8>,
    accumulate: bool,
    rd: u8,
    rn: u8,
    rs: u8,
    rm: u8,
) -> Result<(), NoMemory>
    ensures { OnOk result (out.new.items ≡ out.old.items ++ mul_operands accumulate rd rn rs rm) }
{
    push_register(out, rd)?;
    push_further(out, rm)?;
    push_further(out, rs)?;
    if accumulate {
        push_further(out, rn)?;
    }
    Ok(())
}

fn push_mul_long(out: &mut Vec<u8>, hi: u8, lo: u8, rs: u8, rm: u8) -> Result<(), NoMemory>
    ensures { OnOk result (out.new.items ≡ out.old.items ++ mul_long_operands hi lo rs rm) }
{
    push_register(out, lo)?;
    push_further(out, hi)?;
    push_further(out, rm)?;
    push_further(out, rs)
}

fn push_single(
    out: &mut Vec<u8>,
    rd: u8,
    rn: u8,
    index: Index,
    up: bool,
    offset: Offset,
) -> Result<(), NoMemory>
    ensures { OnOk result (out.new.items ≡ out.old.items
        ++ (register_name rd ++ further (address_text index rn (offset_text up offset)))) }
{
    push_register(out, rd)?;
    push(out, b", ".as_slice())?;
    push_address(out, index, rn, up, offset)
}

fn push_half(
    out: &mut Vec<u8>,
    rd: u8,
    rn: u8,
    index: Index,
    up: bool,
    offset: HalfOffset,
) -> Result<(), NoMemory>
    ensures { OnOk result (out.new.items ≡ out.old.items
        ++ (register_name rd ++ further (address_text index rn (half_offset_text up offset)))) }
{
    push_register(out, rd)?;
    push(out, b", ".as_slice())?;
    push_half_address(out, index, rn, up, offset)
}

fn push_block(out: &mut Vec<u8>, wback: bool, rn: u8, list: u16) -> Result<(), NoMemory>
    ensures { OnOk result (out.new.items ≡ out.old.items
        ++ (marked_base wback rn ++ codes ", {" ++ list_text list ++ codes "}")) }
{
    push_register(out, rn)?;
    push_where(out, wback, b"!".as_slice())?;
    push(out, b", {".as_slice())?;
    push_list(out, list)?;
    push(out, b"}".as_slice())
}

fn push_target(out: &mut Vec<u8>, addr: u32, offset: i32) -> Result<(), NoMemory>
    ensures { OnOk result (out.new.items ≡ out.old.items ++ (codes "0x" ++ hex_word (offset_target addr offset))) }
{
    push(out, b"0x".as_slice())?;
    push_word(out, offset_target(addr, offset))
}

/// Appends the operands of an operation at an address.
fn push_operands(out: &mut Vec<u8>, addr: u32, op: Op) -> Result<(), NoMemory>
    ensures { OnOk result (out.new.items ≡ out.old.items ++ operands_text addr op) }
{
    match op {
        Op::Alu {
            op,
            rn,
            rd,
            operand,
            ..
        } => push_alu(out, op, rn, rd, operand),
        Op::Mul {
            accumulate,
            rd,
            rn,
            rs,
            rm,
            ..
        } => push_mul(out, accumulate, rd, rn, rs, rm),
        Op::MulLong { hi, lo, rs, rm, .. } => push_mul_long(out, hi, lo, rs, rm),
        Op::Single {
            rd,
            rn,
            index,
            up,
            offset,
            ..
        } => push_single(out, rd, rn, index, up, offset),
        Op::Half {
            rd,
            rn,
            index,
            up,
            offset,
            ..
        } => push_half(out, rd, rn, index, up, offset),
        Op::Block {
            wback,
            rn,
            list,
            ..
        } => push_block(out, wback, rn, list),
        Op::Branch { offset, .. } => push_target(out, addr, offset),
        Op::Exchange { rm, .. } => push_register(out, rm),
        Op::Svc { number } => push_decimal(out, number),
        Op::MovPcLr => push(out, b"pc, lr".as_slice()),
    }
}

/// Appends the one spelling of an instruction at an address, without a line end.
///
/// Registers are `r0` to `r12`, `sp`, `lr` and `pc`, numbers are decimal; branches show their target in hexadecimal.
/// The spelling is this project's own, after the assembly language of the ARM Architecture Reference Manual.
pub fn print_insn(out: &mut Vec<u8>, addr: u32, insn: &Insn) -> Result<(), NoMemory>
    requires { IsValid insn.now }
    ensures written { OnOk result (out.new.items ≡ out.old.items ++ text_of addr insn.now) }
    ensures kept { OnErr result (out.new.items ≡ out.old.items) }
{
    let mut text = Vec::new(*out.allocator());
    push_name(&mut text, insn.op)?;
    push(&mut text, condition_suffix(insn.cond))?;
    push(&mut text, b" ".as_slice())?;
    push_operands(&mut text, addr, insn.op)?;
    out.extend_from_slice(&text)?;
    Ok(())
}
