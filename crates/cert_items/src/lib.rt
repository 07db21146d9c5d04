//! What the lines of a certificate's text tell, as numbers, and the first line that is not as it must be.
#![tactic(auto)]

mod counts;
mod item;
mod items_error;
mod named;
mod numbers;
mod order;
mod read;
mod said;
mod slots;

pub use item::{Item, Pair, Pairs};
pub use items_error::ItemsError;
pub use read::read_items;
pub use slots::slots_of;
