//! What a file of a case holds.

use anyhow::{Context, Result};
use std::alloc::Global;
use std::fs;
use std::rt::Files;
use wx_text::{read_decimal, read_word};

/// An executable before the size of its one segment, which lies at 0x8000 and is code.
const HEADERS: [u32; 17] = [
    0x464c457f, 0x00010101, 0, 0, 0x00280002, 1, 0x8000, 0x34, 0, 0x05000000, 0x00200034,
    0x00280001, 0, 1, 0x54, 0x8000, 0x8000,
];

/// The bytes of a content: `image:` and the words of an executable's code, `words:` and words, each with commas between them;
/// `zeros:` and how many; or the name of a file beside the cases.
pub fn content_of(rt: &(impl Files + AllocGlobal), text: &str) -> Result<Vec<u8>> {
    if let Some(words) = text.strip_prefix("image:") {
        return image_of(rt.alloc(), words);
    }
    if let Some(words) = text.strip_prefix("words:") {
        return words_of(rt.alloc(), words);
    }
    if let Some(count) = text.strip_prefix("zeros:") {
        let count = read_decimal(count.as_bytes()).context("a number is wanted")?;
        return Ok(vec![in rt.alloc(); 0; count as usize]?);
    }
    Ok(fs::read(rt, text)?)
}

/// The executable with these words of code.
fn image_of(alloc: Global, words: &str) -> Result<Vec<u8>> {
    let code = words_of(alloc, words)?;
    let size = u32::try_from(code.len())
        .ok()
        .context("too long")?
        .to_le_bytes();
    let mut bytes = Vec::new(alloc);
    for word in HEADERS {
        bytes.extend_from_slice(&word.to_le_bytes())?;
    }
    bytes.extend_from_slice(&size)?;
    bytes.extend_from_slice(&size)?;
    bytes.extend_from_slice(&[5, 0, 0, 0, 4, 0, 0, 0])?;
    bytes.extend_from_slice(code.as_slice())?;
    Ok(bytes)
}

/// Words of eight hexadecimal digits as little-endian bytes. A word with `*` and a number behind it stands so many times.
fn words_of(alloc: Global, words: &str) -> Result<Vec<u8>> {
    let mut bytes = Vec::new(alloc);
    for part in words.split(',').filter(|part| !part.is_empty()) {
        let (digits, count) = part.split_once('*').unwrap_or((part, "1"));
        let word = read_word(digits.as_bytes()).context("eight digits are wanted")?;
        let count = read_decimal(count.as_bytes()).context("a number is wanted")?;
        for _ in 0..count {
            bytes.extend_from_slice(&word.to_le_bytes())?;
        }
    }
    Ok(bytes)
}
