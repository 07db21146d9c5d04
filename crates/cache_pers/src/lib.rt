//! What came since a line was used last, in one stay in a part of a program: lines that miss at most once in it.
#![tactic(auto)]

mod laws;
mod rows;
mod younger;

pub use laws::{
    covering_keeps, kept_is_held, one_miss_per_stay, younger_access_keeps_order,
    younger_join_covers,
};
pub use younger::Younger;
