//! Cases: the lines of a program and accesses to them.

use crate::states::States;
use anyhow::{Context, Result};
use std::alloc::Global;
use std::fmt::Write;
use wx_text::read_number;

/// Appends what is known of each line behind the accesses, in a cache of one set with two ways.
///
/// The case is the lines, ascending, and behind `:` the accesses; `enter` stands where a stay begins.
pub fn push_states(alloc: Global, out: &mut String, case: &str) -> Result<()> {
    let (lines, accesses) = case.split_once(':').context("two parts are wanted")?;
    let lines = numbers(alloc, lines)?;
    let mut states = States::new(alloc, lines.as_slice())?;
    for word in accesses.split_whitespace() {
        if word == "enter" {
            states.enter();
        } else {
            states.access(number(word)?)?;
        }
    }
    for line in &lines {
        write!(out, " {line}")?;
        states.push_known(out, *line)?;
    }
    Ok(())
}

/// The numbers of a list.
fn numbers(alloc: Global, text: &str) -> Result<Vec<u32>> {
    let mut numbers = Vec::new(alloc);
    for word in text.split_whitespace() {
        numbers.push(number(word)?)?;
    }
    Ok(numbers)
}

/// The number that decimal digits write.
fn number(text: &str) -> Result<u32> {
    read_number(text.as_bytes()).context("a number is wanted")
}
