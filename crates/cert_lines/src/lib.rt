//! The lines of a certificate's text, both versions: which texts are made of such lines, and where others stop being it.
#![tactic(auto)]

mod kind;
mod laws;
mod lines_error;
mod read;
mod reader;
mod row;
mod table;
mod words;

pub use kind::{Kind, Role, Version};
pub use laws::no_lines_within;
pub use lines_error::LinesError;
pub use read::read_lines;
pub use row::{Lines, Row};
