//! Texts: bytes that a type keeps as its text, and numbers, addresses and fixed words read from a text and written to one.
#![tactic(auto)]

mod cursor;
mod decimal;
mod hexadecimal;
mod list;
mod memory;
mod text;
mod whole;

pub use cursor::Cursor;
pub use decimal::{decimal_is_shortest, push_number};
pub use hexadecimal::push_word;
pub use list::List;
pub use memory::NoMemory;
pub use text::Text;
pub use whole::{read_byte, read_decimal, read_number, read_word};
