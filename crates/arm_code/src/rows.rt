//! The rows of the instruction table: whether a word has what a row asks, its condition aside.

ghost use Rattle.std.specs.Prelude.{◌≡◌};
ghost use Rattle.wx_base.specs.Instruction.{AluImmediate, AluShift, AluByRegister, Mul, MulLong, SingleImmediate, SingleRegister, HalfImmediate, HalfRegister, Block, Branch, Exchange, Svc, MovPcLr, row_of, meets, has_rest, single_also, half_also, is_index_setting, is_before, writes_back, rn, rm};

use crate::bits::field;
use crate::fields::{block_list, is_set, opcode, rd, rm, rn, rs};
use crate::settings::{
    is_alu_setting, is_base_setting, is_block_setting, is_index_setting, is_not_pc,
    is_target_setting,
};

/// What data processing asks: its result is not pc, a comparison sets flags, and its registers fit its opcode.
fn is_alu(word: u32) -> bool
    ensures { result ≡ has_rest word (row_of AluImmediate) }
{
    rd(word) != 15
        && !(field::<24, 23>(word) == 2 && field::<20, 20>(word) == 0)
        && is_alu_setting(opcode(word), rn(word), rd(word))
}

/// What a transfer of a word or byte asks.
fn is_single(word: u32) -> bool
    ensures { result ≡ single_also word }
{
    is_base_setting(is_set::<24>(word), is_set::<21>(word), rn(word), rd(word))
        && is_target_setting(is_set::<20>(word), is_set::<22>(word), rd(word))
}

/// What a transfer of a half word asks, but for its sort.
fn is_half(word: u32) -> bool
    ensures { result ≡ half_also word }
{
    (is_set::<20>(word) || field::<6, 5>(word) == 1)
        && is_base_setting(is_set::<24>(word), is_set::<21>(word), rn(word), rd(word))
        && is_not_pc(rd(word))
}

/// What an offset register asks.
fn is_index(word: u32) -> bool
    ensures { result ≡ is_index_setting (is_before word) (writes_back word) (rn word) (rm word) }
{
    is_index_setting(is_set::<24>(word), is_set::<21>(word), rn(word), rm(word))
}

pub(crate) fn is_alu_immediate(word: u32) -> bool
    ensures { result ≡ meets word (row_of AluImmediate) }
{
    field::<27, 25>(word) == 1 && is_alu(word)
}

pub(crate) fn is_alu_shift(word: u32) -> bool
    ensures { result ≡ meets word (row_of AluShift) }
{
    field::<27, 25>(word) == 0 && field::<4, 4>(word) == 0 && is_alu(word)
}

pub(crate) fn is_mul(word: u32) -> bool
    ensures { result ≡ meets word (row_of Mul) }
{
    field::<27, 25>(word) == 0
        && field::<4, 4>(word) == 1
        && field::<7, 7>(word) == 1
        && field::<6, 5>(word) == 0
        && field::<24, 24>(word) == 0
        && field::<23, 23>(word) == 0
        && field::<22, 22>(word) == 0
        && is_not_pc(rn(word))
        && is_not_pc(rd(word))
        && is_not_pc(rs(word))
        && is_not_pc(rm(word))
        && (is_set::<21>(word) || rd(word) == 0)
}

pub(crate) fn is_alu_by_register(word: u32) -> bool
    ensures { result ≡ meets word (row_of AluByRegister) }
{
    field::<27, 25>(word) == 0
        && field::<4, 4>(word) == 1
        && field::<7, 7>(word) == 0
        && is_alu(word)
        && is_not_pc(rn(word))
        && is_not_pc(rs(word))
        && is_not_pc(rm(word))
}

pub(crate) fn is_mul_long(word: u32) -> bool
    ensures { result ≡ meets word (row_of MulLong) }
{
    field::<27, 25>(word) == 0
        && field::<4, 4>(word) == 1
        && field::<7, 7>(word) == 1
        && field::<6, 5>(word) == 0
        && field::<24, 24>(word) == 0
        && field::<23, 23>(word) == 1
        && is_not_pc(rn(word))
        && is_not_pc(rd(word))
        && is_not_pc(rs(word))
        && is_not_pc(rm(word))
        && rn(word) != rd(word)
}

pub(crate) fn is_single_immediate(word: u32) -> bool
    ensures { result ≡ meets word (row_of SingleImmediate) }
{
    field::<27, 25>(word) == 2 && is_single(word)
}

pub(crate) fn is_single_register(word: u32) -> bool
    ensures { result ≡ meets word (row_of SingleRegister) }
{
    field::<27, 25>(word) == 3 && field::<4, 4>(word) == 0 && is_single(word) && is_index(word)
}

pub(crate) fn is_half_immediate(word: u32) -> bool
    ensures { result ≡ meets word (row_of HalfImmediate) }
{
    field::<27, 25>(word) == 0
        && field::<4, 4>(word) == 1
        && field::<7, 7>(word) == 1
        && field::<22, 22>(word) == 1
        && field::<6, 5>(word) != 0
        && is_half(word)
}

pub(crate) fn is_half_register(word: u32) -> bool
    ensures { result ≡ meets word (row_of HalfRegister) }
{
    field::<27, 25>(word) == 0
        && field::<4, 4>(word) == 1
        && field::<7, 7>(word) == 1
        && field::<22, 22>(word) == 0
        && field::<11, 8>(word) == 0
        && field::<6, 5>(word) != 0
        && is_half(word)
        && is_index(word)
}

pub(crate) fn is_block(word: u32) -> bool
    ensures { result ≡ meets word (row_of Block) }
{
    field::<27, 25>(word) == 4
        && field::<22, 22>(word) == 0
        && is_block_setting(
            is_set::<20>(word),
            is_set::<21>(word),
            rn(word),
            block_list(word),
        )
}

pub(crate) fn is_branch(word: u32) -> bool
    ensures { result ≡ meets word (row_of Branch) }
{
    field::<27, 25>(word) == 5
}

pub(crate) fn is_exchange(word: u32) -> bool
    ensures { result ≡ meets word (row_of Exchange) }
{
    field::<27, 25>(word) == 0
        && field::<4, 4>(word) == 1
        && field::<7, 7>(word) == 0
        && field::<6, 6>(word) == 0
        && field::<24, 23>(word) == 2
        && field::<22, 22>(word) == 0
        && field::<21, 21>(word) == 1
        && field::<20, 20>(word) == 0
        && field::<19, 8>(word) == 0xfff
        && is_not_pc(rm(word))
}

pub(crate) fn is_svc(word: u32) -> bool
    ensures { result ≡ meets word (row_of Svc) }
{
    field::<27, 25>(word) == 7 && field::<24, 24>(word) == 1
}

pub(crate) fn is_mov_pc_lr(word: u32) -> bool
    ensures { result ≡ meets word (row_of MovPcLr) }
{
    field::<27, 25>(word) == 0
        && field::<4, 4>(word) == 0
        && field::<7, 7>(word) == 0
        && field::<6, 5>(word) == 0
        && field::<24, 16>(word) == 0x1a0
        && field::<15, 12>(word) == 15
        && field::<11, 8>(word) == 0
        && field::<3, 0>(word) == 14
}
