//! What each row reads in a word.

ghost use Rattle.std.specs.Prelude.{◌≡◌, ◌<◌, ◌^◌};
ghost use Rattle.arm_code.specs.Encoding.{op_by, alu_with, single_with, half_with, index_by, half_kind_by, signed_offset};
ghost use Rattle.wx_base.specs.Instruction.{AluImmediate, AluShift, AluByRegister, Mul, MulLong, SingleImmediate, SingleRegister, HalfImmediate, HalfRegister, Block, Branch, Exchange, Svc, MovPcLr};

use crate::bits::field;
use crate::fields::{block_list, is_set, opcode, rd, rm, rn, rs, shift_amount, shift_kind};
use crate::insn::{HalfKind, HalfOffset, Index, Offset, Op, Operand};

/// How a transfer uses its offset.
fn index(before: bool, back: bool) -> Index
    ensures { result ≡ index_by before back }
{
    if before {
        if back { Index::Pre } else { Index::Plain }
    } else {
        Index::Post
    }
}

/// What a transfer of a half word or a signed byte moves, by the code of its sort.
fn half_kind(load: bool, sort: u32) -> HalfKind
    ensures { result ≡ half_kind_by load sort }
{
    if sort == 1 {
        if load { HalfKind::Ldrh } else { HalfKind::Strh }
    } else if sort == 2 {
        HalfKind::Ldrsb
    } else {
        HalfKind::Ldrsh
    }
}

/// A number of 24 bits with a sign.
fn signed(words: u32) -> i32
    requires { words < 2 ^ 24 }
    ensures { result ≡ signed_offset words }
{
    if words < 1 << 23 {
        words as i32
    } else {
        words as i32 - (1 << 24)
    }
}

fn alu(word: u32, operand: Operand) -> Op
    ensures { result ≡ alu_with word operand }
{
    Op::Alu {
        op: opcode(word),
        s: is_set::<20>(word),
        rn: rn(word),
        rd: rd(word),
        operand,
    }
}

pub(crate) fn alu_immediate(word: u32) -> Op
    ensures { result ≡ op_by word AluImmediate }
{
    alu(
        word,
        Operand::Imm {
            value: field::<7, 0>(word) as u8,
            rot: field::<11, 8>(word) as u8,
        },
    )
}

pub(crate) fn alu_shift(word: u32) -> Op
    ensures { result ≡ op_by word AluShift }
{
    alu(
        word,
        Operand::Shift {
            rm: rm(word),
            kind: shift_kind(word),
            amount: shift_amount(word),
        },
    )
}

pub(crate) fn alu_by_register(word: u32) -> Op
    ensures { result ≡ op_by word AluByRegister }
{
    alu(
        word,
        Operand::ByReg {
            rm: rm(word),
            kind: shift_kind(word),
            rs: rs(word),
        },
    )
}

pub(crate) fn mul(word: u32) -> Op
    ensures { result ≡ op_by word Mul }
{
    Op::Mul {
        accumulate: is_set::<21>(word),
        s: is_set::<20>(word),
        rd: rn(word),
        rn: rd(word),
        rs: rs(word),
        rm: rm(word),
    }
}

pub(crate) fn mul_long(word: u32) -> Op
    ensures { result ≡ op_by word MulLong }
{
    Op::MulLong {
        signed: is_set::<22>(word),
        accumulate: is_set::<21>(word),
        s: is_set::<20>(word),
        hi: rn(word),
        lo: rd(word),
        rs: rs(word),
        rm: rm(word),
    }
}

fn single(word: u32, offset: Offset) -> Op
    ensures { result ≡ single_with word offset }
{
    Op::Single {
        load: is_set::<20>(word),
        byte: is_set::<22>(word),
        rd: rd(word),
        rn: rn(word),
        index: index(is_set::<24>(word), is_set::<21>(word)),
        up: is_set::<23>(word),
        offset,
    }
}

pub(crate) fn single_immediate(word: u32) -> Op
    ensures { result ≡ op_by word SingleImmediate }
{
    single(
        word,
        Offset::Imm {
            value: field::<11, 0>(word) as u16,
        },
    )
}

pub(crate) fn single_register(word: u32) -> Op
    ensures { result ≡ op_by word SingleRegister }
{
    single(
        word,
        Offset::Reg {
            rm: rm(word),
            kind: shift_kind(word),
            amount: shift_amount(word),
        },
    )
}

fn half(word: u32, offset: HalfOffset) -> Op
    ensures { result ≡ half_with word offset }
{
    Op::Half {
        kind: half_kind(is_set::<20>(word), field::<6, 5>(word)),
        rd: rd(word),
        rn: rn(word),
        index: index(is_set::<24>(word), is_set::<21>(word)),
        up: is_set::<23>(word),
        offset,
    }
}

pub(crate) fn half_immediate(word: u32) -> Op
    ensures { result ≡ op_by word HalfImmediate }
{
    half(
        word,
        HalfOffset::Imm {
            value: (field::<11, 8>(word) * 16 + field::<3, 0>(word)) as u8,
        },
    )
}

pub(crate) fn half_register(word: u32) -> Op
    ensures { result ≡ op_by word HalfRegister }
{
    half(word, HalfOffset::Reg { rm: rm(word) })
}

pub(crate) fn block(word: u32) -> Op
    ensures { result ≡ op_by word Block }
{
    Op::Block {
        load: is_set::<20>(word),
        before: is_set::<24>(word),
        up: is_set::<23>(word),
        wback: is_set::<21>(word),
        rn: rn(word),
        list: block_list(word),
    }
}

pub(crate) fn branch(word: u32) -> Op
    ensures { result ≡ op_by word Branch }
{
    Op::Branch {
        link: is_set::<24>(word),
        offset: signed(field::<23, 0>(word)),
    }
}

pub(crate) fn exchange(word: u32) -> Op
    ensures { result ≡ op_by word Exchange }
{
    Op::Exchange {
        link: is_set::<5>(word),
        rm: rm(word),
    }
}

pub(crate) fn svc(word: u32) -> Op
    ensures { result ≡ op_by word Svc }
{
    Op::Svc {
        number: field::<23, 0>(word),
    }
}
