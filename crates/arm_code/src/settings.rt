//! The side conditions of the instruction table, on the values of fields.

ghost use Rattle.std.specs.Prelude.{◌≡◌, ◌<◌};
ghost use Rattle.wx_base.specs.Bits.{is_in};
ghost use Rattle.wx_base.specs.Instruction.{is_compare, is_move, takes_carry, is_alu_setting, changes_base, is_not_pc, is_base_setting, is_target_setting, is_index_setting, is_block_setting};

use crate::codes::PC;

/// Whether an opcode only compares: tst, teq, cmp and cmn have no result.
pub fn is_compare(code: u8) -> bool
    ensures { result ≡ is_compare code }
{
    code / 4 == 2
}

/// Whether an opcode has no first operand.
pub fn is_move(code: u8) -> bool
    ensures { result ≡ is_move code }
{
    code == 13 || code == 15
}

/// Whether a comparison has no result, and a move no first operand.
pub(crate) fn is_alu_setting(code: u8, first: u8, to: u8) -> bool
    ensures { result ≡ is_alu_setting code first to }
{
    (!is_compare(code) || to == 0) && (!is_move(code) || first == 0)
}

/// Whether a transfer changes its base.
pub(crate) fn changes_base(before: bool, back: bool) -> bool
    ensures { result ≡ changes_base before back }
{
    !before || back
}

/// Whether a register is not pc.
pub(crate) fn is_not_pc(register: u8) -> bool
    ensures { result ≡ is_not_pc register }
{
    register != PC
}

/// Whether a transfer of one register may have this base.
pub(crate) fn is_base_setting(before: bool, back: bool, base: u8, to: u8) -> bool
    ensures { result ≡ is_base_setting before back base to }
{
    (before || !back) && (!changes_base(before, back) || is_not_pc(base) && base != to)
}

/// Whether a transfer may have this register: pc only at loads of words.
pub(crate) fn is_target_setting(load: bool, byte: bool, to: u8) -> bool
    ensures { result ≡ is_target_setting load byte to }
{
    is_not_pc(to) || load && !byte
}

/// Whether a transfer may have this register as its offset.
pub(crate) fn is_index_setting(before: bool, back: bool, base: u8, index: u8) -> bool
    ensures { result ≡ is_index_setting before back base index }
{
    is_not_pc(index) && (!changes_base(before, back) || index != base)
}

/// Whether a register, whose number is below 16, is in a list that has a bit for each.
pub fn is_listed(list: u16, register: u8) -> bool
    requires { register < 16 }
    ensures { result ≡ is_in list register }
{
    (list >> register) % 2 == 1
}

/// Whether a block transfer may have this base and list.
pub(crate) fn is_block_setting(load: bool, back: bool, base: u8, list: u16) -> bool
    requires { base < 16 }
    ensures { result ≡ is_block_setting load back base list }
{
    list != 0
        && is_not_pc(base)
        && !(back && is_listed(list, base))
        && (load || !is_listed(list, PC))
}

/// Whether an opcode takes the carry in.
pub(crate) fn takes_carry(code: u8) -> bool
    ensures { result ≡ takes_carry code }
{
    code == 5 || code == 6 || code == 7
}
