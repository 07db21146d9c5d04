//! Prints the answers to certificates that the lines of files name, each with the code and the facts that it is for, on the
//! example machine.
#![tactic(auto)]

mod answers;
mod inputs;

use anyhow::Result;
use case_lines::{Cases, print_files};
use std::rt::Files;

/// The cases of this program.
struct CheckCases;

/// A case is the words of the code, the facts and the certificate, with ` | ` between. In the certificate `;` ends a line
/// and `_` is a space.
impl Cases for CheckCases {
    fn push_outcome<R: Files + AllocGlobal>(
        &self,
        rt: &R,
        out: &mut String,
        line: &str,
    ) -> Result<()> {
        answers::push_answer(rt.alloc(), out, line)
    }
}

fn main(rt: HostRuntime) -> Result<()> {
    print_files(&rt, &CheckCases)
}
