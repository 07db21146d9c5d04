//! What the pipeline has to know of an instruction. ARM Architecture Reference Manual.

ghost use Rattle.std.specs.Prelude.{◌≡◌, ◌≤◌, bit_or};
ghost use Rattle.wx_base.specs.Instruction.{reads_of, writes_of, unit_of, transfers_of, register_bit, flags_bit, where_so, list_bits, alu_reads, shift_reads, two_registers, mul_reads, transfer_reads, result_writes, alu_writes, transfer_writes, link_writes};
ghost use Rattle.arm_code.specs.Encoding.{IsValid, word_of};
ghost use Rattle.arm_code.specs.Columns.{operand_reads, offset_reads, half_offset_reads, op_reads, insn_reads, op_writes, op_unit, op_transfers};

use crate::codes::{ALWAYS, LR};
use crate::insn::{HalfOffset, Insn, Offset, Op, Operand};
use crate::settings::{is_compare, is_move, takes_carry};
use wx_base::UnitKind;

/// The flags as a resource.
const FLAGS: u16 = 1 << 15;

/// A register as a resource; pc is none.
#[tactic(auto, using(std::proofs::lemmas::Nat::one_shl))]
fn register_bit(register: u8) -> u16
    ensures { result ≡ register_bit register }
{
    if register < 15 { 1 << register } else { 0 }
}

/// A set that counts only where something holds.
fn where_so(holds: bool, set: u16) -> u16
    ensures { result ≡ where_so holds set }
{
    if holds { set } else { 0 }
}

/// The registers of a block transfer as resources.
fn list_bits(list: u16) -> u16
    ensures { result ≡ list_bits list }
{
    list % (1 << 15)
}

fn two_registers(a: u8, b: u8) -> u16
    ensures { result ≡ two_registers a b }
{
    register_bit(a) | register_bit(b)
}

fn shift_reads(register: u8, kind: u8, amount: u8) -> u16
    ensures { result ≡ shift_reads register kind amount }
{
    register_bit(register) | where_so(kind == 3 && amount == 0, FLAGS)
}

fn operand_reads(operand: Operand) -> u16
    ensures { result ≡ operand_reads operand }
{
    match operand {
        Operand::Imm { .. } => 0,
        Operand::Shift { rm, kind, amount } => shift_reads(rm, kind, amount),
        Operand::ByReg { rm, rs, .. } => two_registers(rm, rs),
    }
}

fn alu_reads(code: u8, first: u8, operand: u16) -> u16
    ensures { result ≡ alu_reads code first operand }
{
    where_so(!is_move(code), register_bit(first)) | (where_so(takes_carry(code), FLAGS) | operand)
}

fn mul_reads(a: u8, b: u8, accumulate: bool, addends: u16) -> u16
    ensures { result ≡ mul_reads a b accumulate addends }
{
    two_registers(a, b) | where_so(accumulate, addends)
}

fn offset_reads(offset: Offset) -> u16
    ensures { result ≡ offset_reads offset }
{
    match offset {
        Offset::Imm { .. } => 0,
        Offset::Reg { rm, .. } => register_bit(rm),
    }
}

fn half_offset_reads(offset: HalfOffset) -> u16
    ensures { result ≡ half_offset_reads offset }
{
    match offset {
        HalfOffset::Imm { .. } => 0,
        HalfOffset::Reg { rm } => register_bit(rm),
    }
}

/// What a transfer reads: its base, its offset, and what it stores.
fn transfer_reads(load: bool, base: u8, index: u16, stored: u16) -> u16
    ensures { result ≡ transfer_reads load base index stored }
{
    register_bit(base) | (index | where_so(!load, stored))
}

/// What an operation reads, its condition aside.
fn op_reads(op: Op) -> u16
    ensures { result ≡ op_reads op }
{
    match op {
        Op::Alu {
            op,
            rn,
            operand,
            ..
        } => alu_reads(op, rn, operand_reads(operand)),
        Op::Mul {
            accumulate,
            rn,
            rs,
            rm,
            ..
        } => mul_reads(rm, rs, accumulate, register_bit(rn)),
        Op::MulLong {
            accumulate,
            hi,
            lo,
            rs,
            rm,
            ..
        } => mul_reads(rm, rs, accumulate, two_registers(hi, lo)),
        Op::Single {
            load,
            rd,
            rn,
            offset,
            ..
        } => transfer_reads(load, rn, offset_reads(offset), register_bit(rd)),
        Op::Half {
            kind,
            rd,
            rn,
            offset,
            ..
        } => {
            transfer_reads(
                kind.loads(),
                rn,
                half_offset_reads(offset),
                register_bit(rd),
            )
        }
        Op::Block { load, rn, list, .. } => transfer_reads(load, rn, 0, list_bits(list)),
        Op::Exchange { rm, .. } => register_bit(rm),
        Op::Branch { .. } | Op::Svc { .. } => 0,
        Op::MovPcLr => register_bit(LR),
    }
}

/// What an instruction reads, a bit for each resource: bits 0 to 14 are registers, bit 15 is the flags as one. Each
/// condition but "always" reads the flags; pc never counts.
pub fn reads(insn: &Insn) -> u16
    requires { IsValid insn.now }
    ensures value { result ≡ reads_of (word_of insn.now) }
{
    where_so(insn.cond != ALWAYS, FLAGS) | op_reads(insn.op)
}

fn result_writes(sets: bool, result_bits: u16) -> u16
    ensures { result ≡ result_writes sets result_bits }
{
    where_so(sets, FLAGS) | result_bits
}

fn alu_writes(code: u8, s: bool, to: u8) -> u16
    ensures { result ≡ alu_writes code s to }
{
    result_writes(s, where_so(!is_compare(code), register_bit(to)))
}

/// What a transfer writes: its base where that changes, and what it loads.
fn transfer_writes(load: bool, changes: bool, base: u8, loaded: u16) -> u16
    ensures { result ≡ transfer_writes load changes base loaded }
{
    where_so(changes, register_bit(base)) | where_so(load, loaded)
}

fn link_writes(link: bool) -> u16
    ensures { result ≡ link_writes link }
{
    where_so(link, register_bit(LR))
}

/// What an operation writes.
fn op_writes(op: Op) -> u16
    ensures { result ≡ op_writes op }
{
    match op {
        Op::Alu { op, s, rd, .. } => alu_writes(op, s, rd),
        Op::Mul { s, rd, .. } => result_writes(s, register_bit(rd)),
        Op::MulLong { s, hi, lo, .. } => result_writes(s, two_registers(hi, lo)),
        Op::Single {
            load,
            rd,
            rn,
            index,
            ..
        } => transfer_writes(load, index.changes_base(), rn, register_bit(rd)),
        Op::Half {
            kind,
            rd,
            rn,
            index,
            ..
        } => { transfer_writes(kind.loads(), index.changes_base(), rn, register_bit(rd)) }
        Op::Block {
            load,
            wback,
            rn,
            list,
            ..
        } => transfer_writes(load, wback, rn, list_bits(list)),
        Op::Branch { link, .. } | Op::Exchange { link, .. } => link_writes(link),
        Op::Svc { .. } | Op::MovPcLr => 0,
    }
}

/// What an instruction writes, a bit for each resource as in [`reads`].
pub fn writes(insn: &Insn) -> u16
    requires { IsValid insn.now }
    ensures value { result ≡ writes_of (word_of insn.now) }
{
    op_writes(insn.op)
}

/// The unit that an operation takes.
fn op_unit(op: Op) -> UnitKind
    ensures { result ≡ op_unit op }
{
    match op {
        Op::Mul { .. } | Op::MulLong { .. } => UnitKind::Mul,
        Op::Single { .. } | Op::Half { .. } | Op::Block { .. } => UnitKind::Mem,
        Op::Alu { .. } | Op::Branch { .. } | Op::Exchange { .. } | Op::Svc { .. } | Op::MovPcLr =>
            UnitKind::Alu,
    }
}

/// The unit that an instruction takes.
pub fn unit(insn: &Insn) -> UnitKind
    requires { IsValid insn.now }
    ensures value { result ≡ unit_of (word_of insn.now) }
{
    op_unit(insn.op)
}

/// How many registers an operation transfers as a block, else 1.
fn op_transfers(op: Op) -> u64
    ensures { result ≡ op_transfers op }
{
    if let Op::Block { list, .. } = op {
        u64::from(list.count_ones())
    } else {
        1
    }
}

/// How many registers a block transfer moves, pc among them; 1 for every other instruction.
pub fn transfers(insn: &Insn) -> u64
    requires { IsValid insn.now }
    ensures value { result ≡ transfers_of (word_of insn.now) }
    ensures few { result ≤ 16 }
    ensures some { 1 ≤ result }
{
    op_transfers(insn.op)
}
