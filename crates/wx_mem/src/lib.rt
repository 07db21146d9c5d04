//! The bytes of a memory of 32-bit addresses: those that were written, and one byte everywhere else.
#![tactic(auto)]

mod memory;

pub use memory::Memory;
