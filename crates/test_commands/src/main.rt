//! Calls the commands over files in memory, as the lines of a file say, and prints each line with the status and the text
//! that the call came to.
#![tactic(auto)]

mod contents;
mod outside;

use anyhow::{Context, Result};
use case_lines::{Cases, print_files};
use std::alloc::Global;
use std::fmt::Write;
use std::rt::Files;
use wcet_cli::wcet;

/// The cases of this program.
struct CommandCases;

/// A case is the words of a call, then ` | ` and the files of the store, then, perhaps, ` | ` and what fails or is shown. Its
/// outcome is the status and the text, and behind them the content of the name that is shown.
impl Cases for CommandCases {
    fn push_outcome<R: Files + AllocGlobal>(
        &self,
        rt: &R,
        out: &mut String,
        line: &str,
    ) -> Result<()> {
        let (words, rest) = line.split_once(" | ").context("files are wanted")?;
        let (files, faults) = rest.split_once(" | ").unwrap_or((rest, ""));
        let words = words_of(rt.alloc(), words)?;
        let mut store = outside::store_of(rt, files, faults)?;
        let mut sink = outside::sink_of(rt.alloc(), faults)?;
        let status = wcet(rt.alloc(), words.as_slice(), &mut store, &mut sink);
        let text = str::from_utf8(sink.bytes()).ok().context("no text")?;
        write!(out, " {status} {text:?}")?;
        if let Some(name) = outside::shown_in(faults) {
            push_content(out, store.get(name))?;
        }
        Ok(())
    }
}

fn main(rt: HostRuntime) -> Result<()> {
    print_files(&rt, &CommandCases)
}

/// Appends the content of a file as a text, or a dash where there is none.
fn push_content(out: &mut String, content: Option<&[u8]>) -> Result<()> {
    match content {
        Some(bytes) => {
            let text = str::from_utf8(bytes).ok().context("no text")?;
            write!(out, " {text:?}")?;
        }
        None => out.push_str(" -")?,
    }
    Ok(())
}

/// The words of a call, with spaces between them.
fn words_of(alloc: Global, text: &str) -> Result<Vec<String>> {
    let mut words = Vec::new(alloc);
    for word in text.split_whitespace() {
        words.push(String::from_str(alloc, word)?)?;
    }
    Ok(words)
}
