//! States of a cache along the flow of a program: definitions of solutions, and what they are worth.
#![tactic(auto)]

mod flow;
mod laws;

pub use flow::{Accesses, Flow, Lines, Move, Moves};
pub use laws::{
    barred_lines_are_absent, held_lines_are_there, kept_in_stays, least_may_is_one,
    least_must_is_one, least_solutions_show, least_younger_is_one, may_solutions_hold,
    must_solutions_hold, younger_solutions_hold,
};
