//! Where a run starts: the processor and the instruction cache, and the text that tells them.
#![tactic(auto)]

mod start_error;
mod start_flags;
mod start_item;
mod start_laws;
mod start_lines;
mod start_made;
mod start_order;
mod start_range;
mod start_read;
mod start_state;
mod start_text;
mod start_words;

pub use start_error::StartError;
pub use start_laws::{
    is_a_start, lines_are_a_start_text, lines_begin_as_bytes_do, start_text_is_its_lines,
};
pub use start_read::read_start;
pub use start_state::Start;
