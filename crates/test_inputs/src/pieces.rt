//! Edits that take an input to pieces.

use crate::hexadecimal::push_bytes;
use anyhow::{Context, Result};
use std::alloc::Global;

/// An input with another line in place of that of a number, counted from 1, or above it.
pub fn with_line(
    alloc: Global,
    input: &[u8],
    number: usize,
    text: &str,
    replaces: bool,
) -> Result<Vec<u8>> {
    let mut lines: Vec<&[u8]> = Vec::new(alloc);
    for (index, line) in input.split(|byte| *byte == b'\n').enumerate() {
        let is_meant = number.checked_sub(1) == Some(index);
        if is_meant {
            lines.push(text.as_bytes())?;
        }
        if !(is_meant && replaces) {
            lines.push(line)?;
        }
    }
    joined(alloc, lines.as_slice())
}

/// Lines with a line end between two.
fn joined(alloc: Global, lines: &[&[u8]]) -> Result<Vec<u8>> {
    let mut text = Vec::new(alloc);
    for (index, line) in lines.iter().enumerate() {
        if index > 0 {
            text.push(b'\n')?;
        }
        text.extend_from_slice(line)?;
    }
    Ok(text)
}

/// An input in which the bytes between two places stand twice.
pub fn copied_range(alloc: Global, input: &[u8], from: usize, to: usize) -> Result<Vec<u8>> {
    let mut edited = Vec::from_slice(alloc, input.get(..to).context("no such place")?)?;
    edited.extend_from_slice(input.get(from..).context("no such place")?)?;
    Ok(edited)
}

/// Writes the bytes of a line over those that stand from a place on.
pub fn overwrite(alloc: Global, input: &mut [u8], at: usize, line: &str) -> Result<()> {
    let mut bytes = Vec::new(alloc);
    push_bytes(&mut bytes, line)?;
    let (_, behind) = input.split_at_mut_checked(at).context("no such place")?;
    for (byte, new) in behind.iter_mut().zip(bytes.iter()) {
        *byte = *new;
    }
    Ok(())
}

/// Appends copies of a text, in each of which `%` stands for the number of the copy, from 0, each with an end.
pub fn push_copies(
    alloc: Global,
    input: &mut Vec<u8>,
    count: usize,
    text: &str,
    end: &str,
) -> Result<()> {
    for number in 0..count {
        push_copy(alloc, input, number, text)?;
        input.extend_from_slice(end.as_bytes())?;
    }
    Ok(())
}

fn push_copy(alloc: Global, input: &mut Vec<u8>, number: usize, text: &str) -> Result<()> {
    for (index, piece) in text.split('%').enumerate() {
        if index > 0 {
            input.extend_from_slice(format!(in alloc; "{number}")?.as_bytes())?;
        }
        input.extend_from_slice(piece.as_bytes())?;
    }
    Ok(())
}
