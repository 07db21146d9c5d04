//! Prints what the words of each line do with diagrams, behind the line. A line has a table and a stack of its own.
#![tactic(auto)]

mod diagrams;
mod machine;
mod numerals;
mod texts;

use anyhow::Result;
use case_lines::{Cases, print_files};
use machine::Machine;
use std::rt::Files;

/// The cases of this program: words for a machine of its own.
struct DiagramCases;

impl Cases for DiagramCases {
    fn push_outcome<R: Files + AllocGlobal>(
        &self,
        rt: &R,
        out: &mut String,
        line: &str,
    ) -> Result<()> {
        Machine::new(rt.alloc()).run(out, line)
    }
}

fn main(rt: HostRuntime) -> Result<()> {
    print_files(&rt, &DiagramCases)
}
