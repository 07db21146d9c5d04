//! Arguments of words, and texts of diagrams on one line, where `;` ends a line and `_` is a space.

use anyhow::{Context, Result, ensure};
use std::alloc::Global;
use std::fmt::Write;
use xdd_ops::DiagramError;

/// What stands before and behind the first colon.
pub fn pair(text: &str) -> Result<(&str, &str)> {
    text.split_once(':').context("two parts are wanted")
}

/// Numbers with commas between them.
pub fn numbers(alloc: Global, text: &str) -> Result<Vec<u64>> {
    let mut numbers = Vec::new(alloc);
    for part in text.split(',') {
        numbers.push(part.parse()?)?;
    }
    Ok(numbers)
}

/// A combination, one digit for each event, `1` for a miss.
pub fn bits(alloc: Global, text: &str) -> Result<Vec<bool>> {
    let mut bits = Vec::new(alloc);
    for byte in text.bytes() {
        ensure!(
            byte == b'0' || byte == b'1',
            "a digit of a combination is 0 or 1"
        );
        bits.push(byte == b'1')?;
    }
    Ok(bits)
}

/// The bytes that a text on one line stands for.
pub fn bytes_of_text(alloc: Global, text: &str) -> Result<Vec<u8>> {
    let mut bytes = Vec::new(alloc);
    for byte in text.bytes() {
        bytes.push(match byte {
            b';' => b'\n',
            b'_' => b' ',
            other => other,
        })?;
    }
    Ok(bytes)
}

/// Appends a diagram's text on one line.
pub fn push_text(out: &mut String, text: &[u8]) -> Result<()> {
    out.push(' ')?;
    for byte in text {
        out.push(match *byte {
            b'\n' => ';',
            b' ' => '_',
            other => other as char,
        })?;
    }
    Ok(())
}

/// Appends why a text was refused.
pub fn push_refusal(out: &mut String, refusal: DiagramError) -> Result<()> {
    match refusal {
        DiagramError::Syntax { at } => write!(out, " syntax at byte {at}")?,
        DiagramError::NotReduced { line } => write!(out, " not reduced at line {line}")?,
        DiagramError::Order { line } => write!(out, " order at line {line}")?,
        DiagramError::NoMemory => write!(out, " no memory")?,
    }
    Ok(())
}
