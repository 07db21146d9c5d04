//! Bytes and words that are spelled in hexadecimal digits.

use anyhow::Result;
use std::alloc::Global;

/// The bytes of a text: in each line, up to a `#`, words of two digits.
pub fn bytes_of(alloc: Global, text: &str) -> Result<Vec<u8>> {
    let mut bytes = Vec::new(alloc);
    for line in text.lines() {
        push_bytes(&mut bytes, line)?;
    }
    Ok(bytes)
}

/// Appends the bytes of a line.
pub fn push_bytes(bytes: &mut Vec<u8>, line: &str) -> Result<()> {
    for word in line.split_whitespace() {
        if word.starts_with('#') {
            break;
        }
        bytes.push(u8::from_str_radix(word, 16)?)?;
    }
    Ok(())
}

/// Appends the words of a line, each of up to eight digits.
pub fn push_words(words: &mut Vec<u32>, line: &str) -> Result<()> {
    for word in line.split_whitespace() {
        words.push(u32::from_str_radix(word, 16)?)?;
    }
    Ok(())
}
