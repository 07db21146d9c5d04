//! A case: an input, and where its answer is looked at.

use crate::edits::edit;
use anyhow::Result;
use std::rt::Files;

/// A case of a suite.
#[derive(Drop)]
pub struct Case {
    pub name: String,
    /// The bytes for the reader.
    pub input: Vec<u8>,
    /// The addresses at which an image or a memory is looked at.
    pub addresses: Vec<u32>,
    /// The lines that are accessed in a cache, one after the other.
    pub accesses: Vec<u32>,
    /// The entry for a start text.
    pub entry: Option<u32>,
}

/// The case that a paragraph tells: its name in the first line, an edit in each other.
pub fn read_case<R: Files + AllocGlobal>(rt: &R, base: &[u8], paragraph: &str) -> Result<Case> {
    let (name, edits) = paragraph.split_once('\n').unwrap_or((paragraph, ""));
    let mut case = Case {
        name: String::from_str(rt.alloc(), name)?,
        input: Vec::from_slice(rt.alloc(), base)?,
        addresses: Vec::new(rt.alloc()),
        accesses: Vec::new(rt.alloc()),
        entry: None,
    };
    for line in edits.lines() {
        edit(rt, &mut case, line)?;
    }
    Ok(case)
}
