//! Codes that fields of instructions have. ARM Architecture Reference Manual.

/// The condition "always".
pub const ALWAYS: u8 = 14;

/// The number of the stack pointer.
pub const SP: u8 = 13;

/// The number of the link register, in which calls leave their way back.
pub const LR: u8 = 14;

/// The number of the register that holds the address.
pub const PC: u8 = 15;
