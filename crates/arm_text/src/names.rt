//! Names of operations, conditions and shifts.

ghost use Rattle.std.specs.Prelude.{◌≡◌};
ghost use Rattle.arm_text.specs.Names.{condition_suffix, opcode_name, mul_name, mul_long_name, single_name, half_name, block_name, shift_name, register_name};
ghost use Rattle.arm_text.specs.Text.{shift_by_zero};

use arm_code::HalfKind;

/// The suffix of a condition, which "always" has none of.
pub(crate) fn condition_suffix(cond: u8) -> &'static [u8]
    ensures { result.now ≡ condition_suffix cond }
{
    match cond {
        0 => b"eq".as_slice(),
        1 => b"ne".as_slice(),
        2 => b"cs".as_slice(),
        3 => b"cc".as_slice(),
        4 => b"mi".as_slice(),
        5 => b"pl".as_slice(),
        6 => b"vs".as_slice(),
        7 => b"vc".as_slice(),
        8 => b"hi".as_slice(),
        9 => b"ls".as_slice(),
        10 => b"ge".as_slice(),
        11 => b"lt".as_slice(),
        12 => b"gt".as_slice(),
        13 => b"le".as_slice(),
        _ => b"".as_slice(),
    }
}

/// The name of data processing by its opcode.
pub(crate) fn opcode_name(code: u8) -> &'static [u8]
    ensures { result.now ≡ opcode_name code }
{
    match code {
        0 => b"and".as_slice(),
        1 => b"eor".as_slice(),
        2 => b"sub".as_slice(),
        3 => b"rsb".as_slice(),
        4 => b"add".as_slice(),
        5 => b"adc".as_slice(),
        6 => b"sbc".as_slice(),
        7 => b"rsc".as_slice(),
        8 => b"tst".as_slice(),
        9 => b"teq".as_slice(),
        10 => b"cmp".as_slice(),
        11 => b"cmn".as_slice(),
        12 => b"orr".as_slice(),
        13 => b"mov".as_slice(),
        14 => b"bic".as_slice(),
        15 => b"mvn".as_slice(),
        _ => b"".as_slice(),
    }
}

pub(crate) fn mul_name(accumulate: bool) -> &'static [u8]
    ensures { result.now ≡ mul_name accumulate }
{
    if accumulate {
        b"mla".as_slice()
    } else {
        b"mul".as_slice()
    }
}

pub(crate) fn mul_long_name(signed: bool, accumulate: bool) -> &'static [u8]
    ensures { result.now ≡ mul_long_name signed accumulate }
{
    match (signed, accumulate) {
        (true, true) => b"smlal".as_slice(),
        (true, false) => b"smull".as_slice(),
        (false, true) => b"umlal".as_slice(),
        (false, false) => b"umull".as_slice(),
    }
}

/// The name of a transfer of a word or a byte.
pub(crate) fn single_name(load: bool, byte: bool) -> &'static [u8]
    ensures { result.now ≡ single_name load byte }
{
    match (load, byte) {
        (true, true) => b"ldrb".as_slice(),
        (true, false) => b"ldr".as_slice(),
        (false, true) => b"strb".as_slice(),
        (false, false) => b"str".as_slice(),
    }
}

/// The name of a transfer of a half word or a signed byte.
pub(crate) fn half_name(kind: HalfKind) -> &'static [u8]
    ensures { result.now ≡ half_name kind }
{
    match kind {
        HalfKind::Ldrh => b"ldrh".as_slice(),
        HalfKind::Strh => b"strh".as_slice(),
        HalfKind::Ldrsb => b"ldrsb".as_slice(),
        HalfKind::Ldrsh => b"ldrsh".as_slice(),
    }
}

/// The name of a transfer of a block.
pub(crate) fn block_name(load: bool, before: bool, up: bool) -> &'static [u8]
    ensures { result.now ≡ block_name load before up }
{
    match (load, before, up) {
        (true, true, true) => b"ldmib".as_slice(),
        (true, true, false) => b"ldmdb".as_slice(),
        (true, false, true) => b"ldmia".as_slice(),
        (true, false, false) => b"ldmda".as_slice(),
        (false, true, true) => b"stmib".as_slice(),
        (false, true, false) => b"stmdb".as_slice(),
        (false, false, true) => b"stmia".as_slice(),
        (false, false, false) => b"stmda".as_slice(),
    }
}

/// The name of a shift by its code.
pub(crate) fn shift_name(kind: u8) -> &'static [u8]
    ensures { result.now ≡ shift_name kind }
{
    match kind {
        0 => b"lsl".as_slice(),
        1 => b"lsr".as_slice(),
        2 => b"asr".as_slice(),
        3 => b"ror".as_slice(),
        _ => b"".as_slice(),
    }
}

/// What stands behind a register whose shift has the amount 0.
pub(crate) fn shift_by_zero(kind: u8) -> &'static [u8]
    ensures { result.now ≡ shift_by_zero kind }
{
    match kind {
        1 => b", lsr #32".as_slice(),
        2 => b", asr #32".as_slice(),
        3 => b", rrx".as_slice(),
        _ => b"".as_slice(),
    }
}

/// The name of a register.
pub(crate) fn register_name(register: u8) -> &'static [u8]
    ensures { result.now ≡ register_name register }
{
    match register {
        0 => b"r0".as_slice(),
        1 => b"r1".as_slice(),
        2 => b"r2".as_slice(),
        3 => b"r3".as_slice(),
        4 => b"r4".as_slice(),
        5 => b"r5".as_slice(),
        6 => b"r6".as_slice(),
        7 => b"r7".as_slice(),
        8 => b"r8".as_slice(),
        9 => b"r9".as_slice(),
        10 => b"r10".as_slice(),
        11 => b"r11".as_slice(),
        12 => b"r12".as_slice(),
        13 => b"sp".as_slice(),
        14 => b"lr".as_slice(),
        15 => b"pc".as_slice(),
        _ => b"".as_slice(),
    }
}
