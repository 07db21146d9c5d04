//! Data processing, multiplications and jumps. ARM Architecture Reference Manual.

ghost use Rattle.std.specs.Prelude.{◌≡◌, ◌<◌, ◌==◌, if◌then◌else◌};
ghost use Rattle.wx_base.specs.Bits.{is_in, is_negative};
ghost use Rattle.wx_base.specs.Arithmetic.{computed, product_flags, is_slow_factor};
ghost use Rattle.wx_base.specs.State.{pc, lr, replaced, value_of, next_address};
ghost use Rattle.wx_base.specs.Step.{alu_registers, alu_flags, product_in, long_product_in, long_registers};
ghost use Rattle.wx_base.specs.declared.image.Image.{Image};
ghost use Rattle.wx_base.specs.Shifter.{shifted_by_number, shifted_by_register};
ghost use Rattle.arm_step.specs.Cpu.{registers_of, flags_in, state_of};
ghost use Rattle.arm_step.specs.Effects.{OperandFits, operand_of};

use crate::arithmetic::{
    computed, flags_of, is_slow_factor, long_product_of, product_flags, product_of,
};
use crate::cpu::{Cpu, next_address, register, set, value_of};
use crate::shifter::{
    high_word, is_negative, is_set_long, low_word, rotated_immediate, shifted_by_number,
    shifted_by_register,
};
use arm_code::{LR, Operand, PC, is_compare};
use wx_base::Shifted;

/// Goes on behind the instruction, and does nothing else.
pub(crate) fn skip(cpu: &mut Cpu)
    ensures registers { registers_of cpu.new.regs
        ≡ replaced (registers_of cpu.old.regs) pc (next_address (registers_of cpu.old.regs)) }
    ensures flags { flags_in cpu.new ≡ flags_in cpu.old }
    ensures memory { cpu.new.memory ≡ cpu.old.memory }
{
    let next = next_address(&cpu.regs);
    set(&mut cpu.regs, PC, next);
}

/// A register shifted by an amount.
pub(crate) fn shift_operand(cpu: &Cpu, rm: u8, kind: u8, amount: u8) -> Shifted
    ensures { result ≡ shifted_by_number kind (value_of (registers_of cpu.now.regs) rm) amount cpu.now.c }
{
    shifted_by_number(kind, value_of(&cpu.regs, rm), amount, cpu.c)
}

/// A register shifted by another.
fn register_operand(cpu: &Cpu, rm: u8, kind: u8, rs: u8) -> Shifted
    ensures { result
        ≡ shifted_by_register kind (registers_of cpu.now.regs rm) (registers_of cpu.now.regs rs) cpu.now.c }
{
    shifted_by_register(
        kind,
        register(&cpu.regs, rm),
        register(&cpu.regs, rs),
        cpu.c,
    )
}

/// The value of an operand and the shifter's carry.
pub(crate) fn operand_of(cpu: &Cpu, operand: Operand) -> Shifted
    requires { OperandFits operand }
    ensures { (image : Image) → result ≡ operand_of (state_of image cpu.now) operand }
{
    match operand {
        Operand::Imm { value, rot } => rotated_immediate(value, rot, cpu.c),
        Operand::Shift { rm, kind, amount } => shift_operand(cpu, rm, kind, amount),
        Operand::ByReg { rm, kind, rs } => register_operand(cpu, rm, kind, rs),
    }
}

/// Data processing, with its second operand.
pub(crate) fn alu(cpu: &mut Cpu, code: u8, sets: bool, first: u8, to: u8, second: Shifted)
    requires { to < 16 }
    ensures registers { let old = registers_of cpu.old.regs in
        let value = (computed code (value_of old first) second (flags_in cpu.old)).value in
        registers_of cpu.new.regs ≡ replaced (alu_registers old code to value) pc (next_address old) }
    ensures flags { let first = value_of (registers_of cpu.old.regs) first in
        flags_in cpu.new ≡ alu_flags (flags_in cpu.old) sets (computed code first second (flags_in cpu.old)) }
    ensures memory { cpu.new.memory ≡ cpu.old.memory }
{
    let next = next_address(&cpu.regs);
    let computed = computed(code, value_of(&cpu.regs, first), second, cpu.flags());
    if !is_compare(code) {
        set(&mut cpu.regs, to, computed.value);
    }
    set(&mut cpu.regs, PC, next);
    if sets {
        cpu.set_flags(flags_of(computed));
    }
}

/// The product of two registers, to which another is added if `accumulate`.
fn product_in(regs: &[u32; 16], accumulate: bool, added: u8, factor: u8, multiplier: u8) -> u32
    ensures { result ≡ product_in (registers_of regs.now) accumulate added factor multiplier }
{
    let added = if accumulate { register(regs, added) } else { 0 };
    product_of(register(regs, factor), register(regs, multiplier), added)
}

/// The registers of a multiplication: of the result, of what is added, and of the two factors.
#[derive(Clone, Copy)]
pub(crate) struct ShortRegisters {
    pub to: u8,
    pub added: u8,
    pub factor: u8,
    pub multiplier: u8,
}

/// A multiplication, and whether it is slow.
pub(crate) fn mul(cpu: &mut Cpu, accumulate: bool, sets: bool, of: ShortRegisters) -> bool
    requires { of.to < 16 }
    ensures registers { let old = registers_of cpu.old.regs in
        let product = product_in old accumulate of.added of.factor of.multiplier in
        registers_of cpu.new.regs ≡ replaced (replaced old of.to product) pc (next_address old) }
    ensures flags { let product = product_in (registers_of cpu.old.regs) accumulate of.added of.factor of.multiplier in
        flags_in cpu.new ≡ (if sets then product_flags (is_negative product) (product == 0) (flags_in cpu.old)
        else flags_in cpu.old) }
    ensures memory { cpu.new.memory ≡ cpu.old.memory }
    ensures slow { result ≡ is_slow_factor (registers_of cpu.old.regs of.multiplier) }
{
    let next = next_address(&cpu.regs);
    let slow = is_slow_factor(register(&cpu.regs, of.multiplier));
    let product = product_in(&cpu.regs, accumulate, of.added, of.factor, of.multiplier);
    set(&mut cpu.regs, of.to, product);
    set(&mut cpu.regs, PC, next);
    if sets {
        cpu.set_flags(product_flags(is_negative(product), product == 0, cpu.flags()));
    }
    slow
}

/// The registers of a long multiplication: the halves of what is added and of the result, and the two factors.
#[derive(Clone, Copy)]
pub(crate) struct LongRegisters {
    pub hi: u8,
    pub lo: u8,
    pub factor: u8,
    pub multiplier: u8,
}

/// The product of two registers in 64 bits, to which two others are added if `accumulate`.
fn long_product_in(regs: &[u32; 16], signed: bool, accumulate: bool, of: LongRegisters) -> u64
    ensures { result ≡ long_product_in (registers_of regs.now) signed accumulate of.hi of.lo of.factor of.multiplier }
{
    let added = if accumulate {
        u64::from(register(regs, of.hi)) * (1 << 32) + u64::from(register(regs, of.lo))
    } else {
        0
    };
    long_product_of(
        signed,
        register(regs, of.factor),
        register(regs, of.multiplier),
        added,
    )
}

/// Sets the registers of a long multiplication to the halves of its product.
fn set_long(regs: &mut [u32; 16], of: LongRegisters, product: u64)
    requires hi { of.hi < 16 }
    requires lo { of.lo < 16 }
    ensures { registers_of regs.new ≡ long_registers (registers_of regs.old) of.hi of.lo product }
{
    set(regs, of.lo, low_word(product));
    set(regs, of.hi, high_word(product));
}

/// A long multiplication, and whether it is slow.
pub(crate) fn mul_long(
    cpu: &mut Cpu,
    signed: bool,
    accumulate: bool,
    sets: bool,
    of: LongRegisters,
) -> bool
    requires hi { of.hi < 16 }
    requires lo { of.lo < 16 }
    ensures registers { let old = registers_of cpu.old.regs in
        let product = long_product_in old signed accumulate of.hi of.lo of.factor of.multiplier in
        registers_of cpu.new.regs ≡ replaced (long_registers old of.hi of.lo product) pc (next_address old) }
    ensures flags { let old = registers_of cpu.old.regs in
        let product = long_product_in old signed accumulate of.hi of.lo of.factor of.multiplier in
        flags_in cpu.new ≡ (if sets then product_flags (is_in product 63) (product == 0) (flags_in cpu.old)
        else flags_in cpu.old) }
    ensures memory { cpu.new.memory ≡ cpu.old.memory }
    ensures slow { result ≡ is_slow_factor (registers_of cpu.old.regs of.multiplier) }
{
    let next = next_address(&cpu.regs);
    let slow = is_slow_factor(register(&cpu.regs, of.multiplier));
    let product = long_product_in(&cpu.regs, signed, accumulate, of);
    let flags = if sets {
        product_flags(is_set_long(product, 63), product == 0, cpu.flags())
    } else {
        cpu.flags()
    };
    set_long(&mut cpu.regs, of, product);
    set(&mut cpu.regs, PC, next);
    cpu.set_flags(flags);
    slow
}

/// A jump; a call leaves the address behind it in the link register.
pub(crate) fn jump(cpu: &mut Cpu, linked: bool, target: u32)
    ensures registers { let old = registers_of cpu.old.regs in
        registers_of cpu.new.regs ≡ replaced (if linked then replaced old lr (next_address old) else old) pc target }
    ensures flags { flags_in cpu.new ≡ flags_in cpu.old }
    ensures memory { cpu.new.memory ≡ cpu.old.memory }
{
    if linked {
        let next = next_address(&cpu.regs);
        set(&mut cpu.regs, LR, next);
    }
    set(&mut cpu.regs, PC, target);
}
