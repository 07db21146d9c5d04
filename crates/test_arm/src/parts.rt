//! Parts of a case.

use anyhow::{Context, Result};
use wx_text::{read_byte, read_number, read_word};

/// What stands before and behind the first of these characters.
pub fn pair(text: &str, between: char) -> Result<(&str, &str)> {
    text.split_once(between).context("two parts are wanted")
}

/// The word that eight hexadecimal digits write.
pub fn word(text: &str) -> Result<u32> {
    read_word(text.as_bytes()).context("eight digits are wanted")
}

/// The number that decimal digits write.
pub fn number(text: &str) -> Result<u32> {
    read_number(text.as_bytes()).context("a number is wanted")
}

/// The byte that two hexadecimal digits write.
pub fn byte(text: &str) -> Result<u8> {
    read_byte(text.as_bytes()).context("two digits are wanted")
}

/// A word and the address at which it stands, with `at` between them.
pub fn word_and_address(text: &str) -> Result<(u32, u32)> {
    let (first, rest) = pair(text, ' ')?;
    let address = rest.strip_prefix("at ").context("an address is wanted")?;
    Ok((word(first)?, word(address)?))
}

/// What a test answers.
pub fn yes_or_no(answer: bool) -> &'static str {
    if answer { "yes" } else { "no" }
}
