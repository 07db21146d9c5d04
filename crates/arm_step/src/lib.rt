//! One step of the machine: what each instruction does to registers, flags and memory.
#![tactic(auto)]

mod access;
mod arithmetic;
mod block;
mod cpu;
mod effects;
mod execution;
mod shifter;
mod step_end;
mod transfer;

pub use access::word_at;
pub use cpu::Cpu;
pub use execution::step;
pub use step_end::StepEnd;
pub use wx_base::Why;
