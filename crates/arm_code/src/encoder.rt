//! From instructions to words. The bits are put together in 64, so that fields past their place show as a long number.

ghost use Rattle.std.specs.Prelude.{◌≡◌, ℕ, ◌<◌, ◌≤◌, ◌^◌, ◌+◌, ◌*◌, Some, IsTrue, ◌↔◌};
ghost use Rattle.arm_code.specs.Encoding.{decoded, word_of, op_bits, operand_bits, offset_bits, half_offset_bits, index_bits, half_kind_bits, shift_bits, register_pair, factor_bits, flag_bit, IsValid, WordsAreSpelled};

use crate::decoder::decode;
use crate::insn::{HalfKind, HalfOffset, Index, Insn, Offset, Op, Operand};

/// A bit of a word, if it is set.
fn flag(set: bool, at: u32) -> u64
    requires { at ≤ 27 }
    ensures value { result ≡ flag_bit set at }
    ensures small { result ≤ 2 ^ 27 }
{
    if set { 1 << at } else { 0 }
}

fn shift_bits(amount: u8, kind: u8, register: u8) -> u64
    ensures value { result ≡ shift_bits amount kind register }
    ensures small { result < 2 ^ 16 }
{
    (u64::from(amount) << 7) + (u64::from(kind) << 5) + u64::from(register)
}

fn by_register_bits(register: u8, kind: u8, amount: u8) -> u64
    ensures value { result ≡ operand_bits (Operand.ByReg register kind amount) }
    ensures small { result < 2 ^ 27 }
{
    (u64::from(amount) << 8) + (u64::from(kind) << 5) + 16 + u64::from(register)
}

fn operand_bits(operand: Operand) -> u64
    ensures value { result ≡ operand_bits operand }
    ensures small { result < 2 ^ 27 }
{
    match operand {
        Operand::Imm { value, rot } => (1 << 25) + (u64::from(rot) << 8) + u64::from(value),
        Operand::Shift { rm, kind, amount } => shift_bits(amount, kind, rm),
        Operand::ByReg { rm, kind, rs } => by_register_bits(rm, kind, rs),
    }
}

fn offset_bits(offset: Offset) -> u64
    ensures value { result ≡ offset_bits offset }
    ensures small { result < 2 ^ 27 }
{
    match offset {
        Offset::Imm { value } => u64::from(value),
        Offset::Reg { rm, kind, amount } => (1 << 25) + shift_bits(amount, kind, rm),
    }
}

fn half_offset_bits(offset: HalfOffset) -> u64
    ensures value { result ≡ half_offset_bits offset }
    ensures small { result < 2 ^ 27 }
{
    match offset {
        HalfOffset::Imm { value } => (1 << 22)
            + (u64::from(value / 16) << 8)
            + u64::from(value % 16),
        HalfOffset::Reg { rm } => u64::from(rm),
    }
}

fn index_bits(index: Index) -> u64
    ensures value { result ≡ index_bits index }
    ensures small { result < 2 ^ 27 }
{
    match index {
        Index::Plain => 1 << 24,
        Index::Pre => (1 << 24) + (1 << 21),
        Index::Post => 0,
    }
}

fn half_kind_bits(kind: HalfKind) -> u64
    ensures value { result ≡ half_kind_bits kind }
    ensures small { result < 2 ^ 27 }
{
    match kind {
        HalfKind::Ldrh => (1 << 20) + (1 << 5),
        HalfKind::Strh => 1 << 5,
        HalfKind::Ldrsb => (1 << 20) + (2 << 5),
        HalfKind::Ldrsh => (1 << 20) + (3 << 5),
    }
}

fn register_pair(first: u8, to: u8) -> u64
    ensures value { result ≡ register_pair first to }
    ensures small { result < 2 ^ 27 }
{
    (u64::from(first) << 16) + (u64::from(to) << 12)
}

fn factor_bits(a: u8, b: u8) -> u64
    ensures value { result ≡ factor_bits a b }
    ensures small { result < 2 ^ 27 }
{
    (u64::from(a) << 8) + (9 << 4) + u64::from(b)
}

fn alu_bits(op: u8, s: bool, rn: u8, rd: u8, operand: Operand) -> u64
    ensures value { result ≡ op_bits (Op.Alu op s rn rd operand) }
    ensures small { result < 2 ^ 40 }
{
    (u64::from(op) << 21) + flag(s, 20) + register_pair(rn, rd) + operand_bits(operand)
}

fn mul_bits(accumulate: bool, s: bool, rd: u8, rn: u8, rs: u8, rm: u8) -> u64
    ensures value { result ≡ op_bits (Op.Mul accumulate s rd rn rs rm) }
    ensures small { result < 2 ^ 39 }
{
    flag(accumulate, 21) + flag(s, 20) + register_pair(rd, rn) + factor_bits(rs, rm)
}

/// The bits of a long product: those of a product, whose registers are the two halves, and two more.
fn mul_long_bits(signed: bool, product: u64) -> u64
    requires { product < 2 ^ 39 }
    ensures value { result ≡ 2 ^ 23 + flag_bit signed 22 + product }
    ensures small { result < 2 ^ 40 }
{
    (1 << 23) + flag(signed, 22) + product
}

/// The bits of a transfer of a word or byte, but for its offset.
fn single_bits(load: bool, byte: bool, rd: u8, rn: u8, index: Index, up: bool) -> u64
    ensures value { result ≡ 2 ^ 26 + index_bits index + flag_bit up 23 + flag_bit byte 22 + flag_bit load 20
        + register_pair rn rd }
    ensures small { result < 2 ^ 39 }
{
    (1 << 26)
        + index_bits(index)
        + flag(up, 23)
        + flag(byte, 22)
        + flag(load, 20)
        + register_pair(rn, rd)
}

fn half_bits(kind: HalfKind, rd: u8, rn: u8, index: Index, up: bool, offset: HalfOffset) -> u64
    ensures value { result ≡ op_bits (Op.Half kind rd rn index up offset) }
    ensures small { result < 2 ^ 40 }
{
    index_bits(index)
        + flag(up, 23)
        + register_pair(rn, rd)
        + (9 << 4)
        + half_kind_bits(kind)
        + half_offset_bits(offset)
}

fn block_bits(load: bool, before: bool, up: bool, wback: bool, rn: u8, list: u16) -> u64
    ensures value { result ≡ op_bits (Op.Block load before up wback rn list) }
    ensures small { result < 2 ^ 40 }
{
    (1 << 27)
        + flag(before, 24)
        + flag(up, 23)
        + flag(wback, 21)
        + flag(load, 20)
        + (u64::from(rn) << 16)
        + u64::from(list)
}

fn branch_bits(link: bool, offset: i32) -> u64
    ensures value { result ≡ op_bits (Op.Branch link offset) }
    ensures small { result < 2 ^ 40 }
{
    (5 << 25) + flag(link, 24) + u64::from(offset.cast_unsigned() % (1 << 24))
}

fn exchange_bits(link: bool, rm: u8) -> u64
    ensures value { result ≡ op_bits (Op.Exchange link rm) }
    ensures small { result < 2 ^ 40 }
{
    0x012f_ff10 + flag(link, 5) + u64::from(rm)
}

/// The bits of what an instruction does, below its condition.
fn op_bits(op: Op) -> u64
    ensures value { result ≡ op_bits op }
    ensures small { result < 2 ^ 40 }
{
    match op {
        Op::Alu {
            op,
            s,
            rn,
            rd,
            operand,
        } => alu_bits(op, s, rn, rd, operand),
        Op::Mul {
            accumulate,
            s,
            rd,
            rn,
            rs,
            rm,
        } => mul_bits(accumulate, s, rd, rn, rs, rm),
        Op::MulLong {
            signed,
            accumulate,
            s,
            hi,
            lo,
            rs,
            rm,
        } => mul_long_bits(signed, mul_bits(accumulate, s, hi, lo, rs, rm)),
        Op::Single {
            load,
            byte,
            rd,
            rn,
            index,
            up,
            offset,
        } => single_bits(load, byte, rd, rn, index, up) + offset_bits(offset),
        Op::Half {
            kind,
            rd,
            rn,
            index,
            up,
            offset,
        } => half_bits(kind, rd, rn, index, up, offset),
        Op::Block {
            load,
            before,
            up,
            wback,
            rn,
            list,
        } => block_bits(load, before, up, wback, rn, list),
        Op::Branch { link, offset } => branch_bits(link, offset),
        Op::Exchange { link, rm } => exchange_bits(link, rm),
        Op::Svc { number } => (15 << 24) + u64::from(number),
        Op::MovPcLr => 0x01a0_f00e,
    }
}

/// The bits of an instruction; a word if the instruction is valid.
#[tactic(auto, unfolding(crate::specs::Encoding::word_of))]
fn insn_bits(insn: &Insn) -> u64
    ensures value { result ≡ word_of insn.now }
{
    (u64::from(insn.cond) << 28) + op_bits(insn.op)
}

/// Whether some word decodes to the instruction: whether its own bits do.
pub fn is_valid(insn: &Insn) -> bool
    ensures { IsTrue result ↔ IsValid insn.now }
{
    let bits = insn_bits(insn);
    if bits < 1 << 32 {
        decode(bits as u32) == Some(*insn)
    } else {
        false
    }
}

/// The one word that decodes to the instruction.
pub fn encode(insn: &Insn) -> u32
    requires { IsValid insn.now }
    ensures value { result ≡ word_of insn.now }
    ensures decodes { decoded result ≡ Some insn.now }
    ensures only { (word : ℕ) → word < 2 ^ 32 → decoded word ≡ Some insn.now → word ≡ result }
{
    insn_bits(insn) as u32
}

/// A law of the table: a word of 32 bits that is an instruction is that instruction's word.
pub fn words_are_spelled()
    ensures { WordsAreSpelled }
{}
