//! The statuses that a call of the program can end with.

/// The defined answer.
pub const ANSWERED: u8 = 0;
/// The words fit no form.
pub const MISUSED: u8 = 1;
/// A file cannot be read.
pub const UNREAD: u8 = 2;
/// A file cannot be written, or a text cannot be handed over.
pub const UNWRITTEN: u8 = 3;
/// The image is refused.
pub const REFUSED_IMAGE: u8 = 4;
/// The facts are refused.
pub const REFUSED_FACTS: u8 = 5;
/// The machine's description is refused.
pub const REFUSED_MACHINE: u8 = 6;
/// The certificate is refused.
pub const REFUSED_CERTIFICATE: u8 = 7;
/// The certificate is not valid.
pub const REJECTED: u8 = 8;
/// Memory is wanting.
pub const STARVED: u8 = 9;
/// Something is too large.
pub const TOO_LARGE: u8 = 10;
/// The run breaks a fact.
pub const BREAKS_FACT: u8 = 11;
/// The start text is refused.
pub const REFUSED_START: u8 = 12;
