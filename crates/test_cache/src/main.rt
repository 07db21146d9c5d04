//! Prints what states of a cache know behind the accesses of each line, behind the line.
#![tactic(auto)]

mod cases;
mod states;

use anyhow::Result;
use case_lines::{Cases, print_files};
use std::rt::Files;

/// The cases of this program.
struct CacheCases;

impl Cases for CacheCases {
    fn push_outcome<R: Files + AllocGlobal>(
        &self,
        rt: &R,
        out: &mut String,
        line: &str,
    ) -> Result<()> {
        cases::push_states(rt.alloc(), out, line)
    }
}

fn main(rt: HostRuntime) -> Result<()> {
    print_files(&rt, &CacheCases)
}
