//! Prints what instructions, steps, memory, cache and pipeline answer to cases: files of lines, each line a case.
#![tactic(auto)]

mod cache;
mod memory;
mod parts;
mod steps;
mod texts;
mod times;
mod words;

use anyhow::{Result, bail};
use case_lines::{Cases, print_files};
use std::rt::Files;

/// The cases of this program.
struct ArmCases;

/// A case begins with its kind.
impl Cases for ArmCases {
    fn push_outcome<R: Files + AllocGlobal>(
        &self,
        rt: &R,
        out: &mut String,
        line: &str,
    ) -> Result<()> {
        let alloc = rt.alloc();
        let (kind, case) = parts::pair(line, ' ')?;
        match kind {
            "bits" => words::push_bits(out, case),
            "word" => texts::push_text(alloc, out, case),
            "text" => texts::push_word(alloc, out, case),
            "columns" => words::push_columns(out, case),
            "flow" => words::push_flow(out, case),
            "step" => steps::push_step(alloc, out, case),
            "memory" => memory::push_memory(alloc, out, case),
            "cache" => cache::push_cache(alloc, out, case),
            "time" => times::push_times(alloc, out, case),
            _ => bail!("no kind of case"),
        }
    }
}

fn main(rt: HostRuntime) -> Result<()> {
    print_files(&rt, &ArmCases)
}
