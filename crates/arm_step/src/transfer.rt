//! Loads and stores of one register. ARM Architecture Reference Manual, "Load and store instructions".

ghost use Rattle.std.specs.Prelude.{◌≡◌, ◌<◌, ◌^◌, false, true, IfOk, OnOk, OnErr, take};
ghost use Rattle.wx_base.specs.Bits.{bytes_of_word};
ghost use Rattle.wx_base.specs.State.{replaced, value_of, overwritten, pc};
ghost use Rattle.wx_base.specs.Transfer.{moved, size_of, extended_from, loaded, moved_base, address_of, registers_behind, transfer_effect};
ghost use Rattle.wx_base.specs.declared.image.Image.{Image};
ghost use Rattle.arm_step.specs.Cpu.{held, registers_of, flags_in, state_of};
ghost use Rattle.arm_step.specs.Effects.{outcome_of, GoesOn, Keeps, StopsAt};
ghost use Rattle.arm_step.specs.Stores.{NeedsRoom, WhereNext, stored_by_transfer, with_stored};

use crate::access::{byte_at, half_at, is_slow_access, meets_code, word_at};
use crate::cpu::{Cpu, next_address, register, set, value_of};
use crate::step_end::StepEnd;
use arm_code::PC;
use wx_base::{Datum, Image, Machine, NoMemory, Transfer, Why};
use wx_mem::Memory;

/// A base after an offset was added or subtracted.
pub(crate) fn moved(up: bool, base: u32, by: u32) -> u32
    ensures { result ≡ moved up base by }
{
    if up {
        base.wrapping_add(by)
    } else {
        base.wrapping_sub(by)
    }
}

/// How many bytes a transfer of one register moves.
fn size_of(datum: Datum) -> u32
    ensures { result ≡ size_of datum }
{
    match datum {
        Datum::Word => 4,
        Datum::Half | Datum::SignedHalf => 2,
        Datum::Byte | Datum::SignedByte => 1,
    }
}

/// A byte as a word, with copies of its top bit in front.
fn extended_byte(number: u32) -> u32
    requires { number < 2 ^ 8 }
    ensures { result ≡ extended_from 8 number }
{
    number + if number >> 7 == 1 { 0xffff_ff00 } else { 0 }
}

/// Two bytes as a word, with copies of their top bit in front.
fn extended_half(number: u32) -> u32
    requires { number < 2 ^ 16 }
    ensures { result ≡ extended_from 16 number }
{
    number + if number >> 15 == 1 { 0xffff_0000 } else { 0 }
}

/// What a load gives the register.
#[tactic(auto, unfolding(wx_base::specs::Transfer::loaded))]
fn loaded(datum: Datum, memory: &Memory, image: &Image, addr: u32) -> u32
    ensures { result ≡ loaded datum (held image.now memory.now) addr }
{
    match datum {
        Datum::Word => word_at(memory, image, addr),
        Datum::Half => half_at(memory, image, addr),
        Datum::SignedHalf => extended_half(half_at(memory, image, addr)),
        Datum::Byte => u32::from(byte_at(memory, image, addr)),
        Datum::SignedByte => extended_byte(u32::from(byte_at(memory, image, addr))),
    }
}

/// The base with the offset.
fn moved_base(regs: &[u32; 16], t: &Transfer) -> u32
    ensures { result ≡ moved_base (registers_of regs.now) t.now }
{
    moved(t.up, value_of(regs, t.base), t.offset)
}

/// The address of the first byte that is moved.
fn address_of(regs: &[u32; 16], t: &Transfer) -> u32
    ensures { result ≡ address_of (registers_of regs.now) t.now }
{
    if t.before {
        moved_base(regs, t)
    } else {
        value_of(regs, t.base)
    }
}

/// Moves the base, if it is changed, and goes on behind the instruction.
fn move_on(regs: &mut [u32; 16], t: &Transfer)
    requires { t.now.base < 16 }
    ensures { registers_of regs.new ≡ registers_behind (registers_of regs.old) t.now }
{
    let next = next_address(regs);
    if t.changes {
        let base = moved_base(regs, t);
        set(regs, t.base, base);
    }
    set(regs, PC, next);
}

/// Loads the register.
fn load(cpu: &mut Cpu, image: &Image, t: &Transfer, addr: u32)
    requires base { t.now.base < 16 }
    requires register { t.now.register < 16 }
    ensures registers { registers_of cpu.new.regs
        ≡ replaced (registers_behind (registers_of cpu.old.regs) t.now) t.now.register
        (loaded t.now.datum (held image.now cpu.old.memory) addr) }
    ensures flags { flags_in cpu.new ≡ flags_in cpu.old }
    ensures memory { cpu.new.memory ≡ cpu.old.memory }
{
    let value = loaded(t.datum, &cpu.memory, image, addr);
    move_on(&mut cpu.regs, t);
    set(&mut cpu.regs, t.register, value);
}

/// Stores the register.
fn store(cpu: &mut Cpu, t: &Transfer, addr: u32) -> Result<(), NoMemory>
    requires { t.now.base < 16 }
    ensures registers { OnOk result (registers_of cpu.new.regs ≡ registers_behind (registers_of cpu.old.regs) t.now) }
    ensures flags { flags_in cpu.new ≡ flags_in cpu.old }
    ensures memory { OnOk result ((image : Image) → held image cpu.new.memory
        ≡ overwritten (held image cpu.old.memory) addr (take (size_of t.now.datum)
        (bytes_of_word (value_of (registers_of cpu.old.regs) t.now.register)))) }
    ensures stored { OnOk result (cpu.new.memory ≡ with_stored cpu.old.memory (record {
      first = addr;
      bytes = take (size_of t.now.datum)
          (bytes_of_word (value_of (registers_of cpu.old.regs) t.now.register));
    })) }
    ensures refused { OnErr result (cpu.new ≡ cpu.old) }
    ensures absent { OnErr result (NeedsRoom cpu.old.memory (record {
      first = addr;
      bytes = take (size_of t.now.datum)
          (bytes_of_word (value_of (registers_of cpu.old.regs) t.now.register));
    })) }
{
    let bytes = value_of(&cpu.regs, t.register).to_le_bytes();
    let size = size_of(t.datum) as usize;
    cpu.memory.write_many(addr, &bytes[..size])?;
    move_on(&mut cpu.regs, t);
    Ok(())
}

/// A transfer of one register: a word or half word is aligned to its size, and nothing is stored where code is.
#[tactic(auto, unfolding(wx_base::specs::Transfer::transfer_effect))]
pub(crate) fn transfer(
    cpu: &mut Cpu,
    image: &Image,
    machine: &Machine,
    t: &Transfer,
) -> Result<StepEnd, NoMemory>
    requires base { t.now.base < 16 }
    requires register { t.now.register < 16 }
    ensures effect { IfOk result (λ end. outcome_of image.now cpu.new end
        ≡ transfer_effect machine.now image.now (state_of image.now cpu.old) t.now) }
    ensures kept { IfOk result (λ end. Keeps end cpu.old cpu.new) }
    ensures place { IfOk result (λ end. StopsAt (registers_of cpu.old.regs pc) end) }
    ensures starved { OnErr result (GoesOn (transfer_effect machine.now image.now (state_of image.now cpu.old) t.now)) }
    ensures storing { OnErr result (t.now.load ≡ false) }
    ensures quiet { t.now.load ≡ true → cpu.new.memory ≡ cpu.old.memory }
    ensures stored { IfOk result (λ end. WhereNext end (cpu.new.memory
        ≡ with_stored cpu.old.memory (stored_by_transfer (registers_of cpu.old.regs) t.now))) }
    ensures absent { OnErr result (NeedsRoom cpu.old.memory (stored_by_transfer (registers_of cpu.old.regs) t.now)) }
    ensures refused { OnErr result (cpu.new ≡ cpu.old) }
{
    let here = register(&cpu.regs, PC);
    let addr = address_of(&cpu.regs, t);
    let size = size_of(t.datum);
    if addr % size != 0 {
        return Ok(StepEnd::Stopped {
            why: Why::Align,
            addr: here,
        });
    }
    let slow = is_slow_access(machine, addr, size);
    if t.load {
        load(cpu, image, t, addr);
        return Ok(StepEnd::Next {
            taken: t.register == PC,
            slow,
        });
    }
    if meets_code(image, addr, size) {
        return Ok(StepEnd::Stopped {
            why: Why::Store,
            addr: here,
        });
    }
    store(cpu, t, addr)?;
    Ok(StepEnd::Next { taken: false, slow })
}
