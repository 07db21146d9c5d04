//! What is known of ages of lines in a cache that replaces the least recently used line: which lines it holds for sure,
//! and which it may hold.
#![tactic(auto)]

mod aging;
mod laws;
mod may;
mod must;

pub use laws::{
    among_covers, may_access_covers, may_access_keeps_order, may_bars_line, may_covering_covers,
    may_join_covers, may_start_covers, must_access_covers, must_access_keeps_order,
    must_covering_covers, must_holds_line, must_join_covers, must_start_covers,
};
pub use may::May;
pub use must::Must;
