//! Parts of a case.

ghost use Rattle.std.specs.Prelude.{◌≡◌, length, IfOk};

use anyhow::{Context, Result, ensure};
use std::alloc::Global;
use wx_text::read_word;

/// What stands before and behind the first of these characters.
pub fn pair(text: &str, between: char) -> Result<(&str, &str)> {
    text.split_once(between).context("two parts are wanted")
}

/// The word that eight hexadecimal digits write.
pub fn word(text: &str) -> Result<u32> {
    read_word(text.as_bytes()).context("eight digits are wanted")
}

/// A combination of twelve events, one digit for each from event 0 on, `1` for a miss; the events behind its end hit.
pub fn combination(alloc: Global, text: &str) -> Result<Vec<bool>>
    ensures { IfOk result (λ bits. length bits.items ≡ 12) }
{
    let mut bits = Vec::new(alloc);
    for byte in text.bytes() {
        ensure!(
            byte == b'0' || byte == b'1',
            "a digit of a combination is 0 or 1"
        );
        bits.push(byte == b'1')?;
    }
    ensure!(bits.len() <= 12, "a block has at most twelve events");
    bits.resize(12, false)?;
    Ok(bits)
}

/// Appends a text of several lines on one line, where `;` ends a line and `_` is a space.
pub fn push_text(out: &mut String, text: &[u8]) -> Result<()> {
    out.push(' ')?;
    for byte in text {
        out.push(match *byte {
            b'\n' => ';',
            b' ' => '_',
            other => other as char,
        })?;
    }
    Ok(())
}
