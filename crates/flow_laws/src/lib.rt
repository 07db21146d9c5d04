//! Laws of programs: where loops and blocks meet, and that runs of a program find instructions. Nothing is computed here.
#![tactic(auto)]

mod programs;

pub use programs::{
    blocks_lie_in_loops, heads_begin_blocks, programs_lead_to_instructions, steps_go_past,
};
