//! Images of code, as lines write them.

use crate::parts::{number, pair, word};
use anyhow::Result;
use std::alloc::Global;
use wx_base::{Image, Segment, Segments, Symbols, Text};

/// The image of some segments with `; ` between two.
pub fn image_of(alloc: Global, text: &str) -> Result<Image> {
    let mut segments = Vec::new(alloc);
    for part in text.split(';') {
        segments.push(segment_of(alloc, part.trim())?)?;
    }
    Ok(Image {
        entry: 0,
        segments: Segments::new(segments),
        symbols: Symbols::new(Vec::new(alloc)),
    })
}

/// A segment of code: its address, a colon, and its words.
fn segment_of(alloc: Global, text: &str) -> Result<Segment> {
    let (first, words) = pair(text, ":")?;
    let mut bytes = Vec::new(alloc);
    for part in words.split_whitespace() {
        push_words(&mut bytes, part)?;
    }
    Ok(Segment {
        first: word(first)?,
        size: bytes.len() as u64,
        code: true,
        bytes: Text::new(bytes),
    })
}

/// Appends a word, or as many of it as stands behind a star.
fn push_words(bytes: &mut Vec<u8>, text: &str) -> Result<()> {
    let (digits, count) = text.split_once('*').unwrap_or((text, "1"));
    let word = word(digits)?;
    for _ in 0..number(count)? {
        bytes.extend_from_slice(&word.to_le_bytes())?;
    }
    Ok(())
}
