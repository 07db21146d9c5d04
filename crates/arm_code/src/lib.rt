//! Instructions of the ARM subset: their words, and what the pipeline has to know of them.
#![tactic(auto)]

mod bits;
mod codes;
mod columns;
mod decoder;
mod encoder;
mod fields;
mod flows;
mod insn;
mod reading;
mod rows;
mod settings;

pub use bits::field;
pub use codes::{ALWAYS, LR, PC, SP};
pub use columns::{reads, transfers, unit, writes};
pub use decoder::{decode, rows_are_apart};
pub use encoder::{encode, is_valid, words_are_spelled};
pub use flows::{flow, no_flow, offset_target, offsets_give_targets};
pub use insn::{HalfKind, HalfOffset, Index, Insn, Offset, Op, Operand};
pub use settings::{is_compare, is_listed, is_move};
pub use wx_base::{FlowKind, UnitKind};
