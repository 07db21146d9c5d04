//! The text of instructions: one spelling for each, at each address.
#![tactic(auto)]

mod addresses;
mod error;
mod lists;
mod mnemonics;
mod names;
mod numerals;
mod operands;
mod parts;
mod printer;
mod reader;
mod reading;

pub use error::Spelling;
pub use printer::print_insn;
pub use reader::read_insn;
