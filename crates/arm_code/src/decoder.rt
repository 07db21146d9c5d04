//! From words to instructions.

ghost use Rattle.std.specs.Prelude.{◌≡◌, IfSome, [], ◌∷◌, false, ◌==◌};
ghost use Rattle.arm_code.specs.Encoding.{decoded, read_among, word_of, IsValid, RowsAreApart};
ghost use Rattle.wx_base.specs.Bits.{bits};
ghost use Rattle.wx_base.specs.Instruction.{AluImmediate, AluShift, AluByRegister, Mul, MulLong, SingleImmediate, SingleRegister, HalfImmediate, HalfRegister, Block, Branch, Exchange, Svc, MovPcLr, kinds};

use crate::bits::field;
use crate::fields::condition;
use crate::insn::{Insn, Op};
use crate::{reading, rows};

fn read_alu_immediate(word: u32) -> Option<Op>
    ensures { result ≡ read_among word (AluImmediate ∷ []) }
{
    if rows::is_alu_immediate(word) {
        Some(reading::alu_immediate(word))
    } else {
        None
    }
}

fn read_alu_shift_or_return(word: u32) -> Option<Op>
    ensures { result ≡ read_among word (AluShift ∷ MovPcLr ∷ []) }
{
    if rows::is_alu_shift(word) {
        Some(reading::alu_shift(word))
    } else if rows::is_mov_pc_lr(word) {
        Some(Op::MovPcLr)
    } else {
        None
    }
}

fn read_alu_by_register_or_exchange(word: u32) -> Option<Op>
    ensures { result ≡ read_among word (AluByRegister ∷ Exchange ∷ []) }
{
    if rows::is_alu_by_register(word) {
        Some(reading::alu_by_register(word))
    } else if rows::is_exchange(word) {
        Some(reading::exchange(word))
    } else {
        None
    }
}

fn read_multiplication(word: u32) -> Option<Op>
    ensures { result ≡ read_among word (Mul ∷ MulLong ∷ []) }
{
    if rows::is_mul(word) {
        Some(reading::mul(word))
    } else if rows::is_mul_long(word) {
        Some(reading::mul_long(word))
    } else {
        None
    }
}

fn read_half(word: u32) -> Option<Op>
    ensures { result ≡ read_among word (HalfImmediate ∷ HalfRegister ∷ []) }
{
    if rows::is_half_immediate(word) {
        Some(reading::half_immediate(word))
    } else if rows::is_half_register(word) {
        Some(reading::half_register(word))
    } else {
        None
    }
}

fn read_single_immediate(word: u32) -> Option<Op>
    ensures { result ≡ read_among word (SingleImmediate ∷ []) }
{
    if rows::is_single_immediate(word) {
        Some(reading::single_immediate(word))
    } else {
        None
    }
}

fn read_single_register(word: u32) -> Option<Op>
    ensures { result ≡ read_among word (SingleRegister ∷ []) }
{
    if rows::is_single_register(word) {
        Some(reading::single_register(word))
    } else {
        None
    }
}

fn read_block(word: u32) -> Option<Op>
    ensures { result ≡ read_among word (Block ∷ []) }
{
    if rows::is_block(word) {
        Some(reading::block(word))
    } else {
        None
    }
}

fn read_branch(word: u32) -> Option<Op>
    ensures { result ≡ read_among word (Branch ∷ []) }
{
    if rows::is_branch(word) {
        Some(reading::branch(word))
    } else {
        None
    }
}

fn read_svc(word: u32) -> Option<Op>
    ensures { result ≡ read_among word (Svc ∷ []) }
{
    if rows::is_svc(word) {
        Some(reading::svc(word))
    } else {
        None
    }
}

/// The rows whose bits 27 to 25 are 0: bits 4 and 7 tell an operand by register, and then a multiplication or transfer
/// of a half word, whose sort is not 0.
fn read_mixed(word: u32) -> Option<Op>
    requires { bits 27 25 word ≡ 0 }
    ensures { result ≡ read_among word kinds }
{
    if field::<4, 4>(word) == 0 {
        read_alu_shift_or_return(word)
    } else if field::<7, 7>(word) == 0 {
        read_alu_by_register_or_exchange(word)
    } else if field::<6, 5>(word) == 0 {
        read_multiplication(word)
    } else {
        read_half(word)
    }
}

/// What a word says below its condition.
fn read(word: u32) -> Option<Op>
    ensures { result ≡ read_among word kinds }
{
    match field::<27, 25>(word) {
        0 => read_mixed(word),
        1 => read_alu_immediate(word),
        2 => read_single_immediate(word),
        3 => read_single_register(word),
        4 => read_block(word),
        5 => read_branch(word),
        6 => None,
        _ => read_svc(word),
    }
}

/// The instruction that a word is, or None where the word matches no row of the table. A match on bits 27 to 25 and at
/// most three further tests lead to the one or two rows that are left.
pub fn decode(word: u32) -> Option<Insn>
    ensures exact { result ≡ decoded word }
    ensures spelled { IfSome result (λ insn. word_of insn ≡ word) }
    ensures valid { IfSome result (λ insn. IsValid insn) }
{
    let cond = condition(word);
    if cond == 15 {
        return None;
    }
    let op = read(word)?;
    Some(Insn { cond, op })
}

/// A law of the table: no word matches two of its rows.
pub fn rows_are_apart()
    ensures { RowsAreApart }
{}
