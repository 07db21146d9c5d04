//! Functions, blocks and loops of an image, by the ways of its instructions and the facts on its flow. The types of
//! blocks are those of `flow_block`.
#![tactic(auto)]

mod construction;
mod early_refusals;
mod entries;
mod error;
mod explore;
mod function;
mod inputs;
mod insn_ways;
mod laws;
mod listing;
mod outline;
mod program;
mod site;

pub use construction::build;
pub use error::FlowError;
pub use flow_block::{Block, Insns, Slot, SlotKind, Slots};
pub use insn_ways::ways;
pub use laws::{program_is_one, rules_are_one};
pub use program::{Blocks, Function, Functions, LoopInfo, Loops, Program};
