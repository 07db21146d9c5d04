//! Loads and stores of blocks of registers. ARM Architecture Reference Manual, "Load and Store Multiple".

ghost use Rattle.std.specs.Prelude.{◌≡◌, ◌≤◌, ◌+◌, ◌++◌, ◌<◌, false, true, IfOk, OnOk, OnErr, if◌then◌else◌, length};
ghost use Rattle.arrayvec.specs.ArrayVec.{array_vec_len};
ghost use Rattle.wx_base.specs.Bits.{is_in, add_words};
ghost use Rattle.wx_base.specs.declared.image.Image.{Image};
ghost use Rattle.wx_base.specs.State.{replaced, overwritten, word_in, pc};
ghost use Rattle.wx_base.specs.Transfer.{listed_below, block_size, moved_block_base, block_first, registers_behind_block, block_loaded, block_bytes, block_effect};
ghost use Rattle.arm_step.specs.Cpu.{held, registers_of, flags_in, state_of};
ghost use Rattle.arm_step.specs.Blocks.{bytes_at};
ghost use Rattle.arm_step.specs.Effects.{outcome_of, GoesOn, Keeps, StopsAt};
ghost use Rattle.arm_step.specs.Stores.{NeedsRoom, WhereNext, stored_by_block, with_stored};

use crate::access::{is_slow_access, meets_code, word_at};
use crate::cpu::{Cpu, next_address, register, set, value_of};
use crate::step_end::StepEnd;
use crate::transfer::moved;
use arm_code::{PC, is_listed};
use arrayvec::ArrayVec;
use wx_base::{BlockTransfer, Image, Machine, NoMemory, Why};
use wx_mem::Memory;

/// How many registers of a list are below a number.
#[tactic(auto, using(crate::proofs::Blocks::count_more, crate::proofs::Blocks::none_below))]
fn count_below(list: u16, end: u8) -> u32
    requires { end ≤ 16 }
    ensures count { result ≡ length (listed_below end list) }
    ensures bound { result ≤ end }
{
    let mut count = 0;
    for register in 0..end {
        count += u32::from(is_listed(list, register));
    }
    count
}

/// How many bytes a block has: four for each register.
#[tactic(auto, unfolding(wx_base::specs::Transfer::block_size))]
fn block_size(t: &BlockTransfer) -> u32
    ensures { result ≡ block_size t.now }
{
    4 * count_below(t.list, 16)
}

/// The base moved by the block's size.
fn moved_base(regs: &[u32; 16], t: &BlockTransfer) -> u32
    ensures { result ≡ moved_block_base (registers_of regs.now) t.now }
{
    moved(t.up, register(regs, t.base), block_size(t))
}

/// The lowest address of the block.
#[tactic(auto, unfolding(wx_base::specs::Transfer::block_first))]
fn block_first(regs: &[u32; 16], t: &BlockTransfer) -> u32
    ensures { result ≡ block_first (registers_of regs.now) t.now }
{
    match (t.up, t.before) {
        (true, true) => register(regs, t.base).wrapping_add(4),
        (true, false) => register(regs, t.base),
        (false, true) => moved_base(regs, t),
        (false, false) => moved_base(regs, t).wrapping_add(4),
    }
}

/// Moves the base, if it is changed, and goes on behind the instruction.
#[tactic(auto, unfolding(wx_base::specs::Transfer::registers_behind_block))]
fn move_on(regs: &mut [u32; 16], t: &BlockTransfer)
    requires { t.now.base < 16 }
    ensures { registers_of regs.new ≡ registers_behind_block (registers_of regs.old) t.now }
{
    let next = next_address(regs);
    if t.changes {
        let base = moved_base(regs, t);
        set(regs, t.base, base);
    }
    set(regs, PC, next);
}

/// Loads a register, if it is in the list, and gives the address of the next one.
fn load_one(
    regs: &mut [u32; 16],
    memory: &Memory,
    image: &Image,
    list: u16,
    register: u8,
    addr: u32,
) -> u32
    requires { register < 16 }
    ensures registers { registers_of regs.new
        ≡ (if is_in list register then replaced (registers_of regs.old) register
        (word_in (held image.now memory.now) addr) else registers_of regs.old) }
    ensures next { result ≡ (if is_in list register then add_words addr 4 else addr) }
{
    if is_listed(list, register) {
        set(regs, register, word_at(memory, image, addr));
        addr.wrapping_add(4)
    } else {
        addr
    }
}

/// Loads the registers of a list from an address on.
#[tactic(auto, using(crate::proofs::Blocks::loading))]
fn load_all(regs: &mut [u32; 16], memory: &Memory, image: &Image, list: u16, first: u32)
    ensures { registers_of regs.new ≡ block_loaded (registers_of regs.old) (held image.now memory.now) list first }
{
    let mut addr = first;
    for register in 0..16 {
        addr = load_one(regs, memory, image, list, register, addr);
    }
}

/// Appends the bytes of a register, if it is in the list.
fn push_one(bytes: &mut ArrayVec<u8, 64>, regs: &[u32; 16], list: u16, register: u8)
    requires register { register < 16 }
    requires room { array_vec_len bytes.old ≤ 60 }
    ensures items { bytes.new.items ≡ bytes.old.items ++ bytes_at (registers_of regs.now) list register }
    ensures len { array_vec_len bytes.new ≤ array_vec_len bytes.old + 4 }
{
    if is_listed(list, register) {
        // There is room for all sixteen registers.
        let _ = bytes.try_extend_from_slice(&value_of(regs, register).to_le_bytes());
    }
}

/// The bytes of the registers of a list.
#[tactic(auto, using(crate::proofs::Blocks::gathering))]
fn bytes_of(regs: &[u32; 16], list: u16) -> ArrayVec<u8, 64>
    ensures { result.items ≡ block_bytes (registers_of regs.now) list }
{
    let mut bytes = ArrayVec::new();
    for register in 0..16 {
        push_one(&mut bytes, regs, list, register);
    }
    bytes
}

/// Loads the block.
fn load(cpu: &mut Cpu, image: &Image, t: &BlockTransfer, first: u32)
    requires { t.now.base < 16 }
    ensures registers { registers_of cpu.new.regs
        ≡ block_loaded (registers_behind_block (registers_of cpu.old.regs) t.now)
        (held image.now cpu.old.memory) t.now.list first }
    ensures flags { flags_in cpu.new ≡ flags_in cpu.old }
    ensures memory { cpu.new.memory ≡ cpu.old.memory }
{
    move_on(&mut cpu.regs, t);
    load_all(&mut cpu.regs, &cpu.memory, image, t.list, first);
}

/// Stores the block.
fn store(cpu: &mut Cpu, t: &BlockTransfer, first: u32) -> Result<(), NoMemory>
    requires { t.now.base < 16 }
    ensures registers { OnOk result (registers_of cpu.new.regs
        ≡ registers_behind_block (registers_of cpu.old.regs) t.now) }
    ensures flags { flags_in cpu.new ≡ flags_in cpu.old }
    ensures memory { OnOk result ((image : Image) → held image cpu.new.memory
        ≡ overwritten (held image cpu.old.memory) first (block_bytes (registers_of cpu.old.regs) t.now.list)) }
    ensures stored { OnOk result (cpu.new.memory ≡ with_stored cpu.old.memory (record {
      first = first;
      bytes = block_bytes (registers_of cpu.old.regs) t.now.list;
    })) }
    ensures refused { OnErr result (cpu.new ≡ cpu.old) }
    ensures absent { OnErr result (NeedsRoom cpu.old.memory (record {
      first = first;
      bytes = block_bytes (registers_of cpu.old.regs) t.now.list;
    })) }
{
    let bytes = bytes_of(&cpu.regs, t.list);
    cpu.memory.write_many(first, bytes.as_slice())?;
    move_on(&mut cpu.regs, t);
    Ok(())
}

/// A transfer of a block: its base is a multiple of 4, and nothing is stored where code is.
#[tactic(auto, unfolding(wx_base::specs::Transfer::block_effect))]
pub(crate) fn block(
    cpu: &mut Cpu,
    image: &Image,
    machine: &Machine,
    t: &BlockTransfer,
) -> Result<StepEnd, NoMemory>
    requires { t.now.base < 16 }
    ensures effect { IfOk result (λ end. outcome_of image.now cpu.new end
        ≡ block_effect machine.now image.now (state_of image.now cpu.old) t.now) }
    ensures kept { IfOk result (λ end. Keeps end cpu.old cpu.new) }
    ensures place { IfOk result (λ end. StopsAt (registers_of cpu.old.regs pc) end) }
    ensures starved { OnErr result (GoesOn (block_effect machine.now image.now (state_of image.now cpu.old) t.now)) }
    ensures storing { OnErr result (t.now.load ≡ false) }
    ensures quiet { t.now.load ≡ true → cpu.new.memory ≡ cpu.old.memory }
    ensures stored { IfOk result (λ end. WhereNext end (cpu.new.memory
        ≡ with_stored cpu.old.memory (stored_by_block (registers_of cpu.old.regs) t.now))) }
    ensures absent { OnErr result (NeedsRoom cpu.old.memory (stored_by_block (registers_of cpu.old.regs) t.now)) }
    ensures refused { OnErr result (cpu.new ≡ cpu.old) }
{
    let here = register(&cpu.regs, PC);
    if register(&cpu.regs, t.base) % 4 != 0 {
        return Ok(StepEnd::Stopped {
            why: Why::Align,
            addr: here,
        });
    }
    let first = block_first(&cpu.regs, t);
    let size = block_size(t);
    let slow = is_slow_access(machine, first, size);
    if t.load {
        load(cpu, image, t, first);
        return Ok(StepEnd::Next {
            taken: is_listed(t.list, PC),
            slow,
        });
    }
    if meets_code(image, first, size) {
        return Ok(StepEnd::Stopped {
            why: Why::Store,
            addr: here,
        });
    }
    store(cpu, t, first)?;
    Ok(StepEnd::Next { taken: false, slow })
}
