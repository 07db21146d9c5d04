//! The operands of each operation, and the text of a whole instruction.

ghost use Rattle.std.specs.Prelude.{◌≡◌, ◌≢◌, ◌<◌, ◌^◌, ◌++◌, ℕ, ℤ, Bool, true, false, List, Some, IfSome, IsSomeAnd, Ok, IfOk, OnErr, codes};
ghost use Rattle.wx_text.specs.Decimal.{decimal};
ghost use Rattle.wx_text.specs.Hexadecimal.{hex_word};
ghost use Rattle.wx_base.specs.Instruction.{is_compare, is_move};
ghost use Rattle.arm_code.specs.declared.insn.Insn.{Insn};
ghost use Rattle.arm_code.specs.declared.insn.Op.{Op};
ghost use Rattle.arm_code.specs.declared.insn.Operand.{Operand};
ghost use Rattle.arm_code.specs.declared.insn.Offset.{Offset};
ghost use Rattle.arm_code.specs.declared.insn.HalfOffset.{HalfOffset};
ghost use Rattle.arm_code.specs.declared.insn.Index.{Index};
ghost use Rattle.arm_code.specs.Encoding.{IsValid};
ghost use Rattle.arm_code.specs.Flows.{offset_target};
ghost use Rattle.arm_text.specs.declared.mnemonics.Name.{Name};
ghost use Rattle.arm_text.specs.Names.{register_name};
ghost use Rattle.arm_text.specs.Text.{further, alu_registers, operand_text, offset_text, half_offset_text, address_text, list_text, text_of};
ghost use Rattle.arm_text.specs.Operands.{mul_operands, mul_long_operands, marked_base, name_of, operands_text};
ghost use Rattle.arm_text.specs.Fields.{OperandFits, OffsetFits, HalfOffsetFits, IsBranchOffset, OpFits};

use crate::addresses::{read_half_offset, read_offset, split_address};
use crate::error::Spelling;
use crate::lists::read_list;
use crate::mnemonics::{Name, read_mnemonic};
use crate::numerals::read_target;
use crate::parts::{before, behind, is, read_register, split, split_operand, split_register};
use crate::reading::read_operand;
use arm_code::{HalfKind, Insn, Op, is_compare, is_move, is_valid};
use wx_text::read_number;

/// Two registers, and the text of the operands behind them.
fn split_pair(text: &[u8]) -> Option<(u8, u8, &[u8])>
    ensures sound { IfSome result (λ p. (p.0 < 16) × (p.1 < 16)
        × (text.now ≡ register_name p.0 ++ further (register_name p.1) ++ further p.2.now)) }
    ensures complete { (first second : ℕ) (tail : List ℕ) → first < 16 → second < 16 → text.now ≡ register_name first
        ++ further (register_name second) ++ further tail
        → IsSomeAnd result (λ p. (p.0 ≡ first) × (p.1 ≡ second) × (p.2.now ≡ tail)) }
{
    let (first, rest) = split_register(text)?;
    let (second, rest) = split_register(rest)?;
    Some((first, second, rest))
}

/// The first operand and the result of data processing, and the text of its second operand.
fn split_alu(text: &[u8], op: u8) -> Option<(u8, u8, &[u8])>
    ensures sound { IfSome result (λ p. text.now ≡ alu_registers op p.0 p.1 ++ further p.2.now) }
    ensures complete { (first to : ℕ) (tail : List ℕ) → first < 16 → to < 16 → (is_compare op ≡ true → to ≡ 0)
        → (is_move op ≡ true → first ≡ 0) → text.now ≡ alu_registers op first to ++ further tail
        → IsSomeAnd result (λ p. (p.0 ≡ first) × (p.1 ≡ to) × (p.2.now ≡ tail)) }
{
    if is_compare(op) {
        let (rn, rest) = split_register(text)?;
        return Some((rn, 0, rest));
    }
    if is_move(op) {
        let (rd, rest) = split_register(text)?;
        return Some((0, rd, rest));
    }
    let (rd, rn, rest) = split_pair(text)?;
    Some((rn, rd, rest))
}

/// Data processing of an opcode, or the return that is spelled as a move.
fn read_alu(text: &[u8], op: u8, s: bool) -> Option<Op>
    ensures sound { IfSome result (λ read. (name_of read ≡ Name.Alu op s)
        × ((addr : ℕ) → text.now ≡ operands_text addr read)) }
    ensures complete { (first to : ℕ) (second : Operand) → first < 16 → to < 16 → to ≢ 15 → OperandFits second
        → (is_compare op ≡ true → to ≡ 0) → (is_move op ≡ true → first ≡ 0) → text.now ≡ alu_registers op first to
        ++ further (operand_text second) → result ≡ Some (Op.Alu op s first to second) }
    ensures back { op ≡ 13 → s ≡ false → text.now ≡ codes "pc, lr" → result ≡ Some Op.MovPcLr }
{
    if op == 13 && !s && is(text, b"pc, lr".as_slice()) {
        return Some(Op::MovPcLr);
    }
    let (rn, rd, operand) = split_alu(text, op)?;
    let operand = read_operand(operand)?;
    Some(Op::Alu {
        op,
        s,
        rn,
        rd,
        operand,
    })
}

/// A multiplication.
fn read_mul(text: &[u8], accumulate: bool, s: bool) -> Option<Op>
    ensures sound { IfSome result (λ read. (name_of read ≡ Name.Mul accumulate s)
        × ((addr : ℕ) → text.now ≡ operands_text addr read)) }
    ensures complete { (to added second first : ℕ) → to < 16 → added < 16 → second < 16 → first < 16
        → (accumulate ≡ false → added ≡ 0) → text.now ≡ mul_operands accumulate to added second first → result
        ≡ Some (Op.Mul accumulate s to added second first) }
{
    let (rd, rm, rest) = split_pair(text)?;
    let (rs, rn) = if accumulate {
        let (rs, rest) = split_register(rest)?;
        (rs, read_register(rest)?)
    } else {
        (read_register(rest)?, 0)
    };
    Some(Op::Mul {
        accumulate,
        s,
        rd,
        rn,
        rs,
        rm,
    })
}

/// A multiplication with a result of 64 bits.
fn read_mul_long(text: &[u8], signed: bool, accumulate: bool, s: bool) -> Option<Op>
    ensures sound { IfSome result (λ read. (name_of read ≡ Name.MulLong signed accumulate s)
        × ((addr : ℕ) → text.now ≡ operands_text addr read)) }
    ensures complete { (high low second first : ℕ) → high < 16 → low < 16 → second < 16 → first < 16 → text.now
        ≡ mul_long_operands high low second first → result
        ≡ Some (Op.MulLong signed accumulate s high low second first) }
{
    let (lo, hi, rest) = split_pair(text)?;
    let (rm, rest) = split_register(rest)?;
    let rs = read_register(rest)?;
    Some(Op::MulLong {
        signed,
        accumulate,
        s,
        hi,
        lo,
        rs,
        rm,
    })
}

/// A transfer of a word or a byte.
fn read_single(text: &[u8], load: bool, byte: bool) -> Option<Op>
    ensures sound { IfSome result (λ read. (name_of read ≡ Name.Single load byte)
        × ((addr : ℕ) → text.now ≡ operands_text addr read)) }
    ensures complete { (to base : ℕ) (index : Index) (up : Bool) (by : Offset) → to < 16 → base < 16 → OffsetFits by
        → text.now ≡ register_name to ++ further (address_text index base (offset_text up by)) → result
        ≡ Some (Op.Single load byte to base index up by) }
{
    let (rd, address) = split_register(text)?;
    let (index, rn, by) = split_address(address)?;
    let (up, offset) = read_offset(by)?;
    Some(Op::Single {
        load,
        byte,
        rd,
        rn,
        index,
        up,
        offset,
    })
}

/// A transfer of a half word or a signed byte.
fn read_half(text: &[u8], kind: HalfKind) -> Option<Op>
    ensures sound { IfSome result (λ read. (name_of read ≡ Name.Half kind)
        × ((addr : ℕ) → text.now ≡ operands_text addr read)) }
    ensures complete { (to base : ℕ) (index : Index) (up : Bool) (by : HalfOffset) → to < 16 → base < 16
        → HalfOffsetFits by → text.now ≡ register_name to ++ further (address_text index base (half_offset_text up by))
        → result ≡ Some (Op.Half kind to base index up by) }
{
    let (rd, address) = split_register(text)?;
    let (index, rn, by) = split_address(address)?;
    let (up, offset) = read_half_offset(by)?;
    Some(Op::Half {
        kind,
        rd,
        rn,
        index,
        up,
        offset,
    })
}

/// The base of a block transfer, and whether it is marked as changed.
fn read_base(text: &[u8]) -> Option<(bool, u8)>
    ensures sound { IfSome result (λ p. text.now ≡ marked_base p.0 p.1) }
    ensures complete { (wback : Bool) (base : ℕ) → base < 16 → text.now ≡ marked_base wback base → result
        ≡ Some (wback, base) }
{
    match before(text, b"!".as_slice()) {
        Some(base) => Some((true, read_register(base)?)),
        None => Some((false, read_register(text)?)),
    }
}

/// A block transfer.
fn read_block(text: &[u8], load: bool, before_base: bool, up: bool) -> Option<Op>
    ensures sound { IfSome result (λ read. (name_of read ≡ Name.Block load before_base up)
        × ((addr : ℕ) → text.now ≡ operands_text addr read)) }
    ensures complete { (wback : Bool) (base list : ℕ) → base < 16 → list < 2 ^ 16 → text.now ≡ marked_base wback base
        ++ codes ", {" ++ list_text list ++ codes "}" → result ≡ Some (Op.Block load before_base up wback base list) }
{
    let (base, rest) = split_operand(text)?;
    let (wback, rn) = read_base(base)?;
    let list = read_list(before(behind(rest, b"{".as_slice())?, b"}".as_slice())?)?;
    Some(Op::Block {
        load,
        before: before_base,
        up,
        wback,
        rn,
        list,
    })
}

/// A branch.
fn read_branch(text: &[u8], addr: u32, link: bool) -> Option<Op>
    ensures sound { IfSome result (λ read. (name_of read ≡ Name.Branch link) × (text.now ≡ operands_text addr read)) }
    ensures complete { (words : ℤ) → IsBranchOffset words → text.now ≡ codes "0x" ++ hex_word (offset_target addr words)
        → result ≡ Some (Op.Branch link words) }
{
    let offset = read_target(text, addr)?;
    Some(Op::Branch { link, offset })
}

/// A branch to the address in a register.
fn read_exchange(text: &[u8], link: bool) -> Option<Op>
    ensures sound { IfSome result (λ read. (name_of read ≡ Name.Exchange link)
        × ((addr : ℕ) → text.now ≡ operands_text addr read)) }
    ensures complete { (register : ℕ) → register < 16 → text.now ≡ register_name register → result
        ≡ Some (Op.Exchange link register) }
{
    let rm = read_register(text)?;
    Some(Op::Exchange { link, rm })
}

/// A call of the supervisor.
fn read_svc(text: &[u8]) -> Option<Op>
    ensures sound { IfSome result (λ read. (name_of read ≡ Name.Svc)
        × ((addr : ℕ) → text.now ≡ operands_text addr read)) }
    ensures complete { (number : ℕ) → number < 2 ^ 24 → text.now ≡ decimal number → result ≡ Some (Op.Svc number) }
{
    let number = read_number(text)?;
    Some(Op::Svc { number })
}

/// The operation of a name whose operands at an address a text is.
fn read_op(name: Name, text: &[u8], addr: u32) -> Option<Op>
    ensures sound { IfSome result (λ read. (name_of read ≡ name) × (text.now ≡ operands_text addr read)) }
    ensures complete { (read : Op) → OpFits read → name_of read ≡ name → text.now ≡ operands_text addr read → result
        ≡ Some read }
{
    match name {
        Name::Alu { op, s } => read_alu(text, op, s),
        Name::Mul { accumulate, s } => read_mul(text, accumulate, s),
        Name::MulLong {
            signed,
            accumulate,
            s,
        } => read_mul_long(text, signed, accumulate, s),
        Name::Single { load, byte } => read_single(text, load, byte),
        Name::Half { kind } => read_half(text, kind),
        Name::Block { load, before, up } => read_block(text, load, before, up),
        Name::Branch { link } => read_branch(text, addr, link),
        Name::Exchange { link } => read_exchange(text, link),
        Name::Svc => read_svc(text),
    }
}

/// The instruction whose text at an address a text is, be it valid or not.
fn read_parts(text: &[u8], addr: u32) -> Option<Insn>
    ensures sound { IfSome result (λ insn. text.now ≡ text_of addr insn) }
    ensures complete { (insn : Insn) → insn.cond < 15 → OpFits insn.op → text.now ≡ text_of addr insn → result
        ≡ Some insn }
{
    let (mnemonic, operands) = split(text, b' ')?;
    let (name, cond) = read_mnemonic(mnemonic)?;
    let op = read_op(name, operands, addr)?;
    Some(Insn { cond, op })
}

/// Reads the text of an instruction at an address, as [`print_insn`](crate::print_insn) writes it, without a line end.
/// It takes no memory.
///
/// Each valid instruction has one spelling at each address, and no two have the same.
///
/// # Errors
///
/// [`Spelling`] where the text is the text of no valid instruction at that address.
pub fn read_insn(text: &[u8], addr: u32) -> Result<Insn, Spelling>
    ensures sound { IfOk result (λ insn. IsValid insn × (text.now ≡ text_of addr insn)) }
    ensures complete { (insn : Insn) → IsValid insn → text.now ≡ text_of addr insn → result ≡ Ok insn }
    ensures refused { OnErr result ((insn : Insn) → IsValid insn → text.now ≢ text_of addr insn) }
    ensures one_each { (a b : Insn) → IsValid a → IsValid b → text.now ≡ text_of addr a → text.now ≡ text_of addr b → a
        ≡ b }
{
    match read_parts(text, addr) {
        Some(insn) if is_valid(&insn) => Ok(insn),
        _ => Err(Spelling),
    }
}
