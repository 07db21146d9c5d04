//! The blocks of a function: where they begin, how far they go, and what their last instruction leads to. The
//! function is given by the instructions that its ways reach.
#![tactic(auto)]

mod block;
mod blocks;
mod code;
mod events;
mod growth;
mod laws;
mod leaders;
mod lookup;
mod starts;
mod targets;

pub use block::{Block, Insns, Slot, SlotKind, Slots};
pub use blocks::blocks_of;
pub use code::{Code, place};
pub use laws::blocks_are_one;
pub use lookup::{listed_targets, loop_fact};
pub use targets::{callees, is_call, jumps};
