ghost use Rattle.std.specs.Prelude.{◌≡◌, IfOk, OnErr, MatchOption};
ghost use Rattle.std.specs.Prelude.{true, false};
ghost use Rattle.wx_base.specs.declared.image.Image.{Image};
ghost use Rattle.wx_base.specs.State.{pc};
ghost use Rattle.wx_base.specs.Step.{current_word, step};
ghost use Rattle.arm_code.specs.Encoding.{decoded};
ghost use Rattle.arm_step.specs.Cpu.{registers_of, state_of};
ghost use Rattle.arm_step.specs.declared.step_end.StepEnd.TheVariants.{Next};
ghost use Rattle.arm_step.specs.Stores.{NeedsRoom, WhereNext, stored_by, stored_bytes, stores_now, with_stored};
ghost use Rattle.arm_step.specs.Effects.{OpFits, op_effect, offset_value, half_offset_value, half_datum_of, single_datum, transfer_of, stores, outcome_of, GoesOn, Keeps, StopsAt};

use crate::access::word_at;
use crate::arithmetic::passes;
use crate::block::block;
use crate::cpu::{Cpu, register};
use crate::effects::{
    LongRegisters, ShortRegisters, alu, jump, mul, mul_long, operand_of, shift_operand, skip,
};
use crate::step_end::StepEnd;
use crate::transfer::transfer;
use arm_code::{
    HalfKind, HalfOffset, Index, LR, Offset, Op, PC, decode, offset_target, offsets_give_targets,
};
use std::alloc::Global;
use wx_base::{BlockTransfer, Datum, Image, Machine, NoMemory, Transfer, Why};

/// The value of an offset.
fn offset_value(cpu: &Cpu, offset: Offset) -> u32
    ensures { (image : Image) → result ≡ offset_value (state_of image cpu.now) offset }
{
    match offset {
        Offset::Imm { value } => u32::from(value),
        Offset::Reg { rm, kind, amount } => shift_operand(cpu, rm, kind, amount).value,
    }
}

/// The value of the offset of a transfer of a half word or a signed byte.
fn half_offset_value(cpu: &Cpu, offset: HalfOffset) -> u32
    ensures { (image : Image) → result ≡ half_offset_value (state_of image cpu.now) offset }
{
    match offset {
        HalfOffset::Imm { value } => u32::from(value),
        HalfOffset::Reg { rm } => register(&cpu.regs, rm),
    }
}

/// What a transfer of a half word or a signed byte moves.
fn half_datum(kind: HalfKind) -> Datum
    ensures { result ≡ half_datum_of kind }
{
    match kind {
        HalfKind::Ldrh | HalfKind::Strh => Datum::Half,
        HalfKind::Ldrsb => Datum::SignedByte,
        HalfKind::Ldrsh => Datum::SignedHalf,
    }
}

/// What a transfer of a word or byte moves.
fn single_datum(byte: bool) -> Datum
    ensures { result ≡ single_datum byte }
{
    if byte { Datum::Byte } else { Datum::Word }
}

/// It went on, and was slow or not.
fn went_on(slow: bool) -> StepEnd
    ensures { result ≡ Next false slow }
{
    StepEnd::Next { taken: false, slow }
}

/// It jumped.
fn jumped() -> StepEnd
    ensures { result ≡ Next true false }
{
    StepEnd::Next {
        taken: true,
        slow: false,
    }
}

/// Executes an operation whose condition holds.
fn execute(cpu: &mut Cpu, image: &Image, machine: &Machine, op: Op) -> Result<StepEnd, NoMemory>
    requires { OpFits op }
    ensures effect { IfOk result (λ end. outcome_of image.now cpu.new end
        ≡ op_effect machine.now image.now (state_of image.now cpu.old) op) }
    ensures kept { IfOk result (λ end. Keeps end cpu.old cpu.new) }
    ensures place { IfOk result (λ end. StopsAt (registers_of cpu.old.regs pc) end) }
    ensures starved { OnErr result (GoesOn (op_effect machine.now image.now (state_of image.now cpu.old) op)) }
    ensures storing { OnErr result (stores op ≡ true) }
    ensures quiet { stores op ≡ false → cpu.new.memory ≡ cpu.old.memory }
    ensures stored { IfOk result (λ end. WhereNext end (cpu.new.memory
        ≡ with_stored cpu.old.memory (stored_by (state_of image.now cpu.old) op))) }
    ensures absent { OnErr result (NeedsRoom cpu.old.memory (stored_by (state_of image.now cpu.old) op)) }
    ensures refused { OnErr result (cpu.new ≡ cpu.old) }
{
    match op {
        Op::Alu {
            op,
            s,
            rn,
            rd,
            operand,
        } => {
            let second = operand_of(cpu, operand);
            alu(cpu, op, s, rn, rd, second);
            Ok(went_on(false))
        }
        Op::Mul {
            accumulate,
            s,
            rd,
            rn,
            rs,
            rm,
        } => {
            let of = ShortRegisters {
                to: rd,
                added: rn,
                factor: rm,
                multiplier: rs,
            };
            let slow = mul(cpu, accumulate, s, of);
            Ok(went_on(slow))
        }
        Op::MulLong {
            signed,
            accumulate,
            s,
            hi,
            lo,
            rs,
            rm,
        } => {
            let of = LongRegisters {
                hi,
                lo,
                factor: rm,
                multiplier: rs,
            };
            let slow = mul_long(cpu, signed, accumulate, s, of);
            Ok(went_on(slow))
        }
        Op::Single {
            load,
            byte,
            rd,
            rn,
            index,
            up,
            offset,
        } => {
            let t = Transfer {
                load,
                datum: single_datum(byte),
                register: rd,
                base: rn,
                offset: offset_value(cpu, offset),
                up,
                before: index.adds_before(),
                changes: index.changes_base(),
            };
            transfer(cpu, image, machine, &t)
        }
        Op::Half {
            kind,
            rd,
            rn,
            index,
            up,
            offset,
        } => {
            let t = Transfer {
                load: kind.loads(),
                datum: half_datum(kind),
                register: rd,
                base: rn,
                offset: half_offset_value(cpu, offset),
                up,
                before: index.adds_before(),
                changes: index.changes_base(),
            };
            transfer(cpu, image, machine, &t)
        }
        Op::Block {
            load,
            before,
            up,
            wback,
            rn,
            list,
        } => {
            let t = BlockTransfer {
                load,
                before,
                up,
                changes: wback,
                base: rn,
                list,
            };
            block(cpu, image, machine, &t)
        }
        Op::Branch { link, offset } => {
            let target = offset_target(register(&cpu.regs, PC), offset);
            jump(cpu, link, target);
            Ok(jumped())
        }
        Op::Exchange { link, rm } => {
            let target = register(&cpu.regs, rm);
            jump(cpu, link, target);
            Ok(jumped())
        }
        Op::Svc { .. } => Ok(StepEnd::Ended),
        Op::MovPcLr => {
            let target = register(&cpu.regs, LR);
            jump(cpu, false, target);
            Ok(jumped())
        }
    }
}

/// One step of the machine: looks at the instruction at pc, and executes it if its condition holds.
///
/// It stops, and leaves `cpu` as it was, where pc is not the address of a word of code, the word is no instruction,
/// an access to data is not aligned, or a byte of code would be stored; the first of these decides. `Ended` comes
/// exactly for a call of the supervisor whose condition holds, and leaves `cpu` as it was.
///
/// An instruction stores exactly its bytes, none where its condition fails. It looks through the image's segments for
/// each byte that it reads, and through the machine's regions for an access to data.
///
/// `NoMemory` where there is no room for what would be stored, at an address that was never written; then `cpu` is as
/// it was. It comes of no step that stops, and of none that stores nothing.
pub fn step(
    _alloc: Global,
    cpu: &mut Cpu,
    image: &Image,
    machine: &Machine,
) -> Result<StepEnd, NoMemory>
    ensures outcome { IfOk result (λ end. outcome_of image.now cpu.new end
        ≡ step machine.now image.now (state_of image.now cpu.old)) }
    ensures kept { IfOk result (λ end. Keeps end cpu.old cpu.new) }
    ensures place { IfOk result (λ end. StopsAt (registers_of cpu.old.regs pc) end) }
    ensures starved { OnErr result (GoesOn (step machine.now image.now (state_of image.now cpu.old))) }
    ensures storing { OnErr result (MatchOption (decoded (current_word (state_of image.now cpu.old))) ⊥
        (λ insn. stores_now (state_of image.now cpu.old) insn ≡ true)) }
    ensures quiet { MatchOption (decoded (current_word (state_of image.now cpu.old))) (cpu.new.memory
        ≡ cpu.old.memory) (λ insn. stores_now (state_of image.now cpu.old) insn ≡ false
        → cpu.new.memory ≡ cpu.old.memory) }
    // Exactly the bytes that the instruction stores are written.
    ensures stored { IfOk result (λ end. WhereNext end
        (MatchOption (decoded (current_word (state_of image.now cpu.old))) ⊥ (λ insn. cpu.new.memory
        ≡ with_stored cpu.old.memory (stored_bytes (state_of image.now cpu.old) insn)))) }
    ensures absent { OnErr result (MatchOption (decoded (current_word (state_of image.now cpu.old))) ⊥
        (λ insn. NeedsRoom cpu.old.memory (stored_bytes (state_of image.now cpu.old) insn))) }
    ensures refused { OnErr result (cpu.new ≡ cpu.old) }
{
    let addr = register(&cpu.regs, PC);
    if !image.is_code_word(addr) {
        return Ok(StepEnd::Stopped {
            why: Why::Fetch,
            addr,
        });
    }
    let word = word_at(&cpu.memory, image, addr);
    let Some(insn) = decode(word) else {
        return Ok(StepEnd::Stopped {
            why: Why::Word,
            addr,
        });
    };
    if !passes(insn.cond, cpu.flags()) {
        skip(cpu);
        return Ok(went_on(false));
    }
    // The targets of branches are those that the word's bits say.
    offsets_give_targets();
    execute(cpu, image, machine, insn.op)
}
