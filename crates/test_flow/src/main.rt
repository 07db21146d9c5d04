//! Prints the ways of instructions, the programs of images with their unfoldings and the classes of their events, and the
//! loops of graphs that the lines of files name, each behind its line.
#![tactic(auto)]

mod classes;
mod graphs;
mod images;
mod parts;
mod programs;
mod sharing;
mod unfoldings;

use anyhow::{Result, bail};
use case_lines::{Cases, print_files};
use std::rt::Files;

/// The cases of this program.
struct FlowCases;

/// A case begins with its kind.
impl Cases for FlowCases {
    fn push_outcome<R: Files + AllocGlobal>(
        &self,
        rt: &R,
        out: &mut String,
        line: &str,
    ) -> Result<()> {
        let alloc = rt.alloc();
        let (kind, case) = parts::pair(line, " ")?;
        match kind {
            "ways" => programs::push_ways(alloc, out, case),
            "program" => programs::push_program(alloc, out, case),
            "unfold" => unfoldings::push_unfolding(alloc, out, case),
            "classes" => classes::push_classes(alloc, out, case),
            "nodes" => unfoldings::push_node_count(alloc, out, case),
            "share" => sharing::push_shared(alloc, out, case),
            "count" => programs::push_counts(alloc, out, case),
            "loops" => graphs::push_loops(alloc, out, case),
            "reach" => graphs::push_reached(alloc, out, case),
            _ => bail!("no kind of case"),
        }
    }
}

fn main(rt: HostRuntime) -> Result<()> {
    print_files(&rt, &FlowCases)
}
