//! The store and the sink of a case.

use crate::contents::content_of;
use anyhow::{Context, Result, bail};
use std::alloc::Global;
use std::rt::Files;
use wx_base::{File, MemSink, MemStore};
use wx_text::read_decimal;

/// The store with files `NAME=CONTENT`, spaces between them, whose calls behind `calls=` fail.
pub fn store_of(rt: &(impl Files + AllocGlobal), files: &str, faults: &str) -> Result<MemStore> {
    let mut held = Vec::new(rt.alloc());
    for file in files.split_whitespace() {
        let (name, content) = file.split_once('=').context("a content is wanted")?;
        let name = String::from_str(rt.alloc(), name)?;
        held.push(File::new(name, content_of(rt, content)?))?;
    }
    let failing = numbers_behind(rt.alloc(), faults, "calls=")?;
    Ok(MemStore::new(rt.alloc(), held, failing))
}

/// The sink whose puts behind `puts=` fail, and which takes at most as many bytes at once as stand behind `most=`.
pub fn sink_of(alloc: Global, faults: &str) -> Result<MemSink> {
    let failing = numbers_behind(alloc, faults, "puts=")?;
    let most = numbers_behind(alloc, faults, "most=")?;
    match most.first().copied() {
        None => Ok(MemSink::new(alloc, failing)),
        Some(0) => bail!("a sink that takes nothing"),
        Some(most) => Ok(MemSink::with_most(alloc, failing, most as usize)),
    }
}

/// The name behind `shows=`, if there is one.
pub fn shown_in(faults: &str) -> Option<&str> {
    for fault in faults.split_whitespace() {
        if let Some(name) = fault.strip_prefix("shows=") {
            return Some(name);
        }
    }
    None
}

/// The numbers behind a word in a list of faults, commas between them; none where it is not there.
fn numbers_behind(alloc: Global, faults: &str, word: &str) -> Result<Vec<u64>> {
    let mut numbers = Vec::new(alloc);
    for fault in faults.split_whitespace() {
        if let Some(list) = fault.strip_prefix(word) {
            for digits in list.split(',') {
                numbers.push(read_decimal(digits.as_bytes()).context("a number is wanted")?)?;
            }
        }
    }
    Ok(numbers)
}
