//! Files of cases, each line a case: what the programs have in common that try the crates over such files.
#![tactic(auto)]

use anyhow::Result;
use std::rt::Files;
use std::{env, fs};

/// What tells the outcomes of cases.
pub trait Cases {
    /// Appends the outcome of the case that a line holds. An error where the line is no case.
    fn push_outcome<R: Files + AllocGlobal>(
        &self,
        rt: &R,
        out: &mut String,
        line: &str,
    ) -> Result<()>;
}

/// Prints the files that the command line names, with ` ->` and its outcome behind each case. Empty lines and lines that
/// begin with `#` are remarks.
pub fn print_files<C: Cases>(rt: &HostRuntime, cases: &C) -> Result<()> {
    for name in env::args(rt)?.skip(1) {
        print_file(rt, cases, name.as_str())?;
    }
    Ok(())
}

/// Prints one file.
fn print_file<C: Cases>(rt: &HostRuntime, cases: &C, name: &str) -> Result<()> {
    let text = fs::read_to_string(rt, name)?;
    for line in text.as_str().lines() {
        if line.is_empty() || line.starts_with('#') {
            println!(rt; "{line}")?;
        } else {
            let mut out = String::new(rt.alloc());
            cases.push_outcome(rt, &mut out, line)?;
            println!(rt; "{line} ->{out}")?;
        }
    }
    Ok(())
}
