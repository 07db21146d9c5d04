//! Parts of a case.

use anyhow::{Context, Result};
use wx_text::{read_decimal, read_word};

/// What stands before and behind the first text of this kind.
pub fn pair<'a>(text: &'a str, between: &str) -> Result<(&'a str, &'a str)> {
    text.split_once(between).context("two parts are wanted")
}

/// The word that eight hexadecimal digits write.
pub fn word(text: &str) -> Result<u32> {
    read_word(text.as_bytes()).context("eight digits are wanted")
}

/// The number that decimal digits write.
pub fn number(text: &str) -> Result<usize> {
    let number = read_decimal(text.as_bytes()).context("a number is wanted")?;
    Ok(number as usize)
}
