//! The fields of a word, by name.

ghost use Rattle.std.specs.Prelude.{◌≡◌, ◌<◌, ◌≤◌, ◌^◌};
ghost use Rattle.wx_base.specs.Instruction.{is_set, condition, opcode, rn, rd, rs, rm, shift_kind, shift_amount, immediate, rotation, offset, offset_high, offset_low, block_list, half_sort};

use crate::bits::field;

/// Whether bit `AT` of a word is set.
pub(crate) fn is_set<const AT: u32>(word: u32) -> bool
    requires { AT ≤ 31 }
    ensures { result ≡ is_set AT word }
{
    field::<AT, AT>(word) == 1
}

pub(crate) fn condition(word: u32) -> u8
    ensures value { result ≡ condition word }
{
    field::<31, 28>(word) as u8
}

pub(crate) fn opcode(word: u32) -> u8
    ensures value { result ≡ opcode word }
{
    field::<24, 21>(word) as u8
}

pub(crate) fn rn(word: u32) -> u8
    ensures value { result ≡ rn word }
    ensures small { result < 16 }
{
    field::<19, 16>(word) as u8
}

pub(crate) fn rd(word: u32) -> u8
    ensures value { result ≡ rd word }
{
    field::<15, 12>(word) as u8
}

pub(crate) fn rs(word: u32) -> u8
    ensures value { result ≡ rs word }
{
    field::<11, 8>(word) as u8
}

pub(crate) fn rm(word: u32) -> u8
    ensures value { result ≡ rm word }
{
    field::<3, 0>(word) as u8
}

pub(crate) fn shift_kind(word: u32) -> u8
    ensures value { result ≡ shift_kind word }
{
    field::<6, 5>(word) as u8
}

pub(crate) fn shift_amount(word: u32) -> u8
    ensures value { result ≡ shift_amount word }
{
    field::<11, 7>(word) as u8
}

pub(crate) fn block_list(word: u32) -> u16
    ensures value { result ≡ block_list word }
{
    field::<15, 0>(word) as u16
}
