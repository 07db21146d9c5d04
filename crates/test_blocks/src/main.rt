//! Prints what blocks take: their finish, what their edges hand on and the different outcomes, as diagrams over the
//! block's events; and what is kept of vectors.
#![tactic(auto)]

mod blocks;
mod machines;
mod many;
mod parts;
mod trials;
mod vectors;

use anyhow::{Result, bail};
use case_lines::{Cases, print_files};
use std::rt::Files;

/// The cases of this program.
struct BlockCases;

/// A case begins with its kind.
impl Cases for BlockCases {
    fn push_outcome<R: Files + AllocGlobal>(
        &self,
        rt: &R,
        out: &mut String,
        line: &str,
    ) -> Result<()> {
        let alloc = rt.alloc();
        let (kind, case) = parts::pair(line, ' ')?;
        match kind {
            "events" => blocks::push_events(alloc, out, case),
            "finish" => trials::push_finish(alloc, out, case),
            "time" => trials::push_times(alloc, out, case),
            "exit" => trials::push_exits(alloc, out, case),
            "outcomes" => trials::push_outcomes(alloc, out, case),
            "many" => many::push_total(alloc, out, case),
            "pool" => vectors::push_places(alloc, out, case),
            _ => bail!("no kind of case"),
        }
    }
}

fn main(rt: HostRuntime) -> Result<()> {
    print_files(&rt, &BlockCases)
}
