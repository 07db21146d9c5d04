//! What the machine does with the instruction at pc.

ghost use Rattle.std.specs.Prelude.{IfOk};
ghost use Rattle.run_machine.specs.Look.{Looks};

use arm_code::{Insn, decode};
use arm_step::{Cpu, StepEnd, step, word_at};
use std::alloc::Global;
use wx_base::{Image, Machine, NoMemory, Why};

/// What a look at the instruction at pc came to.
#[derive(Clone, Copy, Debug, PartialEq, Eq)]
pub(crate) enum Looked {
    /// It was executed, and the machine goes on.
    Next { insn: Insn, taken: bool, slow: bool },
    /// It was executed, and ends the run.
    Ended { insn: Insn },
    /// Nothing was executed.
    Stopped { why: Why },
}

/// One step of the machine, with the instruction that was executed.
///
/// `NoMemory` where there is no room for what would be stored.
pub(crate) fn look(
    alloc: Global,
    cpu: &mut Cpu,
    image: &Image,
    machine: &Machine,
) -> Result<Looked, NoMemory>
    ensures { IfOk result (λ looked. Looks machine.now image.now cpu.old cpu.new looked) }
{
    let word = word_at(&cpu.memory, image, cpu.regs[15]);
    match step(alloc, cpu, image, machine)? {
        StepEnd::Stopped { why, .. } => Ok(Looked::Stopped { why }),
        StepEnd::Ended => match decode(word) {
            Some(insn) => Ok(Looked::Ended { insn }),
            // A word that is no instruction is not executed.
            None => unreachable!(),
        },
        StepEnd::Next { taken, slow } => match decode(word) {
            Some(insn) => Ok(Looked::Next { insn, taken, slow }),
            None => unreachable!(),
        },
    }
}
