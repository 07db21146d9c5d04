//! Parts of a case.

use anyhow::{Context, Result};
use std::alloc::Global;
use wx_text::read_decimal;

/// What stands before and behind the first text of this kind.
pub fn pair<'a>(text: &'a str, between: &str) -> Result<(&'a str, &'a str)> {
    text.split_once(between).context("two parts are wanted")
}

/// The number that decimal digits write.
pub fn number(text: &str) -> Result<u64> {
    read_decimal(text.as_bytes()).context("a number is wanted")
}

/// The number that decimal digits write, if it is below 2^32.
pub fn small(text: &str) -> Result<u32> {
    text.parse::<u32>().context("a number below 2^32 is wanted")
}

/// The number that decimal digits write, behind a minus sign if it is negative.
pub fn whole(text: &str) -> Result<i128> {
    text.parse::<i128>().context("a whole number is wanted")
}

/// The numbers between the spaces of a text.
pub fn numbers(alloc: Global, text: &str) -> Result<Vec<u64>> {
    let mut numbers = Vec::new(alloc);
    for word in text.split_whitespace() {
        numbers.push(number(word)?)?;
    }
    Ok(numbers)
}

/// For each digit between the spaces of a text whether it is 1.
pub fn truths(alloc: Global, text: &str) -> Result<Vec<bool>> {
    let mut truths = Vec::new(alloc);
    for word in text.split_whitespace() {
        truths.push(word == "1")?;
    }
    Ok(truths)
}
