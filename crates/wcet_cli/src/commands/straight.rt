ghost use Rattle.std.specs.Prelude.{◌≡◌, ℕ, ◌≤◌, ◌<◌, ◌^◌, ◌++◌, List, length, IfOk, IfErr, MatchOption};
ghost use Rattle.wx_base.specs.Bits.{bytes_of_word};
ghost use Rattle.wx_base.specs.Machine.{m1, IsMachine};
ghost use Rattle.wcet_cli.specs.Straight.{IsProgram, EachRunTakesAtMost, origin, image_of, bound_of, is_plain_alu, op_role};
ghost use Rattle.wcet_cli.specs.Refusal.{HasFault};

use arm_code::{ALWAYS, Insn, Op, Operand, PC, decode};
use pipe_time::{Entry, Vector, advance, windows_follow_the_past, worse_is_no_faster};
use wx_base::Machine;

/// Where the first word is placed.
const ORIGIN: u32 = 0x8000;

/// Why bytes are no straight program.
#[derive(Clone, Copy, Debug, PartialEq, Eq)]
pub enum Refusal {
    /// Fewer than four bytes are left at this address.
    LeavesCode { addr: u32 },
    /// This word is neither a plain one nor a call of the supervisor.
    Unsupported { addr: u32, word: u32 },
}

/// What an instruction is in a straight program.
#[derive(Clone, Copy, Debug, PartialEq, Eq)]
enum Role {
    /// It goes on to the next.
    Plain,
    /// It ends the program.
    Last,
}

/// The opcodes that a straight program may have.
const SUB: u8 = 2;

const ADD: u8 = 4;

const MOV: u8 = 13;

/// Whether data processing may stand in a straight program.
fn is_plain_alu(cond: u8, op: u8, s: bool, rn: u8) -> bool
    ensures { result ≡ is_plain_alu cond op s rn }
{
    cond == ALWAYS && (op == SUB || op == ADD || op == MOV) && !s && rn != PC
}

/// What an instruction is in a straight program: one of a short list, or None.
fn role_of(insn: &Insn) -> Option<Role>
    ensures { result ≡ op_role insn.now.cond insn.now.op }
{
    match insn.op {
        Op::Alu {
            op,
            s,
            rn,
            operand: Operand::Imm { .. },
            ..
        } => {
            if is_plain_alu(insn.cond, op, s, rn) {
                Some(Role::Plain)
            } else {
                None
            }
        }
        Op::Svc { .. } => {
            if insn.cond == ALWAYS {
                Some(Role::Last)
            } else {
                None
            }
        }
        _ => None,
    }
}

/// The cycles that a straight program takes if each fetch misses: the bytes are little-endian words from 0x8000 on, up
/// to the first call of the supervisor. Linear in the words up to there, and takes no memory.
pub fn bound_of_bytes(machine: &Machine, bytes: &[u8]) -> Result<u64, Refusal>
    requires machine { IsMachine machine.now }
    requires size { length bytes.now ≤ 16777216 }
    ensures bound { IfOk result (λ cycles. (program : List ℕ) × IsProgram bytes.now program × (cycles ≡ bound_of machine.now program)) }
    // And that many cycles are enough: for every run of the program's image on the machine.
    ensures safe { (program : List ℕ) → IsProgram bytes.now program → EachRunTakesAtMost machine.now (image_of program) origin (bound_of machine.now program) }
    ensures fault { IfErr result (HasFault bytes.now) }
{
    windows_follow_the_past();
    worse_is_no_faster();
    let mut pipeline = Vector::zero();
    let mut addr = ORIGIN;
    let mut rest = bytes;
    while let Some((word, behind)) = split_word(rest) {
        let Some(insn) = decode(word) else {
            return Err(Refusal::Unsupported { addr, word });
        };
        let Some(role) = role_of(&insn) else {
            return Err(Refusal::Unsupported { addr, word });
        };
        let entry = Entry {
            insn,
            miss: true,
            slow: false,
            taken: false,
        };
        let times = advance(&mut pipeline, &entry, machine);
        if let Role::Last = role {
            return Ok(times.c);
        }
        addr += 4;
        rest = behind;
    }
    Err(Refusal::LeavesCode { addr })
}

/// The little-endian word that begins the bytes, and what stands behind it; None where there are fewer than four bytes.
fn split_word(bytes: &[u8]) -> Option<(u32, &[u8])>
    ensures { MatchOption result (length bytes.now < 4) (λ x. (bytes.now ≡ bytes_of_word x.0 ++ x.1.now) × (x.0 < 2 ^ 32)) }
{
    let (word, rest) = bytes.split_first_chunk::<4>()?;
    Some((u32::from_le_bytes(*word), rest))
}
