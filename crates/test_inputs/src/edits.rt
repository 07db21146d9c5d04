//! The edits that make an input.

use crate::cases::Case;
use crate::hexadecimal::{push_bytes, push_words};
use crate::pieces::{copied_range, overwrite, push_copies, with_line};
use crate::suite::content;
use anyhow::{Result, bail};
use std::alloc::Global;
use std::rt::Files;

/// Does what a line of a case says: a word, and behind a space what it is for.
pub fn edit<R: Files + AllocGlobal>(rt: &R, case: &mut Case, line: &str) -> Result<()> {
    let (word, rest) = line.split_once(' ').unwrap_or((line, ""));
    match word {
        "#" => {}
        "look" => push_words(&mut case.addresses, rest)?,
        "access" => push_words(&mut case.accesses, rest)?,
        "entry" => case.entry = Some(u32::from_str_radix(rest, 16)?),
        "file" => case.input.extend_from_slice(&content(rt, rest)?)?,
        _ => edit_input(rt.alloc(), &mut case.input, word, rest)?,
    }
    Ok(())
}

/// Edits the bytes of an input.
fn edit_input(alloc: Global, input: &mut Vec<u8>, word: &str, rest: &str) -> Result<()> {
    match word {
        "text" => push_line(input, rest)?,
        "part" => input.extend_from_slice(rest.as_bytes())?,
        "bytes" => push_bytes(input, rest)?,
        "cut" => input.truncate(rest.parse()?),
        "pad" => input.resize(rest.parse()?, 0)?,
        _ => edit_by_number(alloc, input, word, rest)?,
    }
    Ok(())
}

/// Edits whose first word is a number.
fn edit_by_number(alloc: Global, input: &mut Vec<u8>, word: &str, rest: &str) -> Result<()> {
    let (number, rest) = rest.split_once(' ').unwrap_or((rest, ""));
    let number: usize = number.parse()?;
    match word {
        "line" => *input = with_line(alloc, input.as_slice(), number, rest, true)?,
        "above" => *input = with_line(alloc, input.as_slice(), number, rest, false)?,
        "repeat" => push_copies(alloc, input, number, rest, "")?,
        "lines" => push_copies(alloc, input, number, rest, "\n")?,
        "set" => overwrite(alloc, input.as_mut_slice(), number, rest)?,
        "twice" => *input = copied_range(alloc, input.as_slice(), number, rest.parse()?)?,
        _ => bail!("no edit is called {word:?}"),
    }
    Ok(())
}

/// Appends a line.
fn push_line(input: &mut Vec<u8>, line: &str) -> Result<()> {
    input.extend_from_slice(line.as_bytes())?;
    input.push(b'\n')?;
    Ok(())
}
