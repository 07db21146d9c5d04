//! Where an instruction may go on. ARM Architecture Reference Manual; which forms are returns is this project's own.

ghost use Rattle.std.specs.Prelude.{◌≡◌, ℕ, ◌<◌, ◌^◌, true};
ghost use Rattle.wx_base.specs.Flow.{may_pass, no_flow, goes_on, flow_of, branch_flow, jump_flow, exchange_flow, block_flow, load_flow, pops};
ghost use Rattle.arm_code.specs.Encoding.{IsValid, word_of};
ghost use Rattle.wx_base.specs.Flow.{branch_target};
ghost use Rattle.arm_code.specs.Encoding.{signed_offset};
ghost use Rattle.arm_code.specs.Flows.{offset_target, takes_word, op_flow};

use crate::codes::{ALWAYS, LR, PC, SP};
use crate::insn::{Index, Insn, Offset, Op};
use crate::settings::is_listed;
use wx_base::FlowKind;

/// Whether an instruction of this condition may not be executed, and go on.
fn may_pass(cond: u8) -> bool
    ensures { result ≡ may_pass cond }
{
    cond != ALWAYS
}

/// What a word outside the subset is to the flow: nothing goes on.
pub fn no_flow() -> FlowKind
    ensures { result ≡ no_flow }
{
    FlowKind {
        next: false,
        jump: None,
        call: None,
        call_any: false,
        ret: false,
        indirect: false,
        stop: false,
    }
}

/// It goes on at the next address.
fn goes_on() -> FlowKind
    ensures { result ≡ goes_on }
{
    FlowKind {
        next: true,
        ..no_flow()
    }
}

/// The target of a branch at an address, by so many words from the instruction after the next. Modulo 2^32.
pub fn offset_target(addr: u32, words: i32) -> u32
    ensures { result ≡ offset_target addr words }
{
    addr.wrapping_add(8)
        .wrapping_add(words.cast_unsigned().wrapping_mul(4))
}

/// A law of branches: the target by the offset that is read in a word is the one that the word's bits say.
pub fn offsets_give_targets()
    ensures { (address words : ℕ) → words < 2 ^ 24 → offset_target address (signed_offset words)
        ≡ branch_target address words }
{}

/// A branch jumps, or calls if it links; behind a call it goes on.
fn branch_flow(cond: u8, link: bool, target: u32) -> FlowKind
    ensures { result ≡ branch_flow cond link target }
{
    if link {
        FlowKind {
            call: Some(target),
            ..goes_on()
        }
    } else {
        FlowKind {
            next: may_pass(cond),
            jump: Some(target),
            ..no_flow()
        }
    }
}

/// A jump to an address that is read is a return or an indirect jump.
fn jump_flow(cond: u8, returns: bool) -> FlowKind
    ensures { result ≡ jump_flow cond returns }
{
    FlowKind {
        next: may_pass(cond),
        ret: returns,
        indirect: !returns,
        ..no_flow()
    }
}

/// An exchange that links is a call by register; to the link register it returns.
fn exchange_flow(cond: u8, link: bool, register: u8) -> FlowKind
    ensures { result ≡ exchange_flow cond link register }
{
    if link {
        FlowKind {
            call_any: true,
            ..goes_on()
        }
    } else {
        jump_flow(cond, register == LR)
    }
}

/// A block transfer that loads pc jumps: from the stack it returns.
fn block_flow(cond: u8, load: bool, base: u8, list: u16) -> FlowKind
    ensures { result ≡ block_flow cond load base list }
{
    if load && is_listed(list, PC) {
        jump_flow(cond, base == SP)
    } else {
        goes_on()
    }
}

/// A load of pc jumps.
fn load_flow(cond: u8, load: bool, to: u8, returns: bool) -> FlowKind
    ensures { result ≡ load_flow cond load to returns }
{
    if load && to == PC {
        jump_flow(cond, returns)
    } else {
        goes_on()
    }
}

/// Whether a transfer takes one word from the stack.
fn takes_word(base: u8, index: Index, up: bool, offset: Offset) -> bool
    ensures { result ≡ takes_word base index up offset }
{
    match offset {
        Offset::Imm { value } => base == SP && !index.adds_before() && up && value == 4,
        Offset::Reg { .. } => false,
    }
}

/// What a call of the supervisor is to the flow.
fn stop_flow(cond: u8) -> FlowKind
    ensures { result ≡ record no_flow { next = may_pass cond; stop = true } }
{
    FlowKind {
        next: may_pass(cond),
        stop: true,
        ..no_flow()
    }
}

/// What an operation under a condition is to the flow at an address.
fn op_flow(cond: u8, addr: u32, op: Op) -> FlowKind
    ensures { result ≡ op_flow cond addr op }
{
    match op {
        Op::Single {
            load,
            rd,
            rn,
            index,
            up,
            offset,
            ..
        } => { load_flow(cond, load, rd, takes_word(rn, index, up, offset)) }
        Op::Block { load, rn, list, .. } => block_flow(cond, load, rn, list),
        Op::Branch { link, offset } => branch_flow(cond, link, offset_target(addr, offset)),
        Op::Exchange { link, rm } => exchange_flow(cond, link, rm),
        Op::Svc { .. } => stop_flow(cond),
        Op::MovPcLr => jump_flow(cond, true),
        Op::Alu { .. } | Op::Mul { .. } | Op::MulLong { .. } | Op::Half { .. } => goes_on(),
    }
}

/// What an instruction at an address is to the flow of its function.
///
/// `next` is false only where it surely jumps, returns or ends: where its condition is "always", and it is no call.
/// Returns are `bx lr`, `mov pc, lr`, a block transfer from sp that loads pc, and `ldr pc, [sp], #4`; other jumps to an
/// address that is read are indirect.
pub fn flow(insn: &Insn, addr: u32) -> FlowKind
    requires { IsValid insn.now }
    ensures value { result ≡ flow_of (word_of insn.now) addr }
{
    op_flow(insn.cond, addr, insn.op)
}
