//! Reads executables in the ELF32 format for ARM into an image: what lies in memory before the
//! first instruction, where the first instruction is, and the symbols.
#![tactic(auto)]

mod bytes;
mod error;
mod fields;
mod identity;
mod laws;
mod load;
mod overlap;
mod read;
mod strings;
mod table;

pub use error::ElfError;
pub use laws::{images_are_loaded, one_answer_is_due};
pub use read::read_image;
pub use wx_base::{Image, Segment, Segments, Symbols};
