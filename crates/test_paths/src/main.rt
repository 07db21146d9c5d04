//! Prints what the path problem of each line of files comes to, behind the line.
#![tactic(auto)]

mod made;
mod parts;
mod problems;

use anyhow::{Result, bail};
use case_lines::{Cases, print_files};
use std::rt::Files;

/// The cases of this program.
struct PathCases;

/// A case begins with its kind.
impl Cases for PathCases {
    fn push_outcome<R: Files + AllocGlobal>(
        &self,
        rt: &R,
        out: &mut String,
        line: &str,
    ) -> Result<()> {
        let alloc = rt.alloc();
        let (kind, case) = parts::pair(line, " ")?;
        match kind {
            "prices" => problems::push_prices(alloc, out, case),
            "potentials" => problems::push_potentials(alloc, out, case),
            "check" => problems::push_check(alloc, out, case),
            "choose" => problems::push_choice(alloc, out, &made::graph_of(alloc, case)?),
            _ => bail!("no kind of case"),
        }
    }
}

fn main(rt: HostRuntime) -> Result<()> {
    print_files(&rt, &PathCases)
}
