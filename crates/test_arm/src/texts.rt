//! Texts of instructions.

use crate::parts::{pair, word, word_and_address};
use anyhow::{Context, Result};
use arm_code::{decode, encode};
use arm_text::{print_insn, read_insn};
use std::alloc::Global;

/// Appends the text of a word at an address, and the word that the text is read as.
pub fn push_text(alloc: Global, out: &mut String, case: &str) -> Result<()> {
    let (word, address) = word_and_address(case)?;
    let Some(insn) = decode(word) else {
        out.push_str(" none")?;
        return Ok(());
    };
    let mut bytes = Vec::new(alloc);
    print_insn(&mut bytes, address, &insn)?;
    let text = str::from_utf8(bytes.as_slice()).ok().context("text")?;
    write!(out, " {text} ->")?;
    push_read(out, bytes.as_slice(), address)
}

/// Appends the word whose text at an address stands behind the address, in quotes. A `/` stands for a line end.
pub fn push_word(alloc: Global, out: &mut String, case: &str) -> Result<()> {
    let (address, rest) = pair(case, ' ')?;
    let text = rest
        .strip_prefix('"')
        .and_then(|text| text.strip_suffix('"'))
        .context("quotes are wanted")?;
    let text = text.replace(alloc, '/', "\n")?;
    push_read(out, text.as_bytes(), word(address)?)
}

/// Appends the word of the instruction that a text is read as.
fn push_read(out: &mut String, text: &[u8], address: u32) -> Result<()> {
    match read_insn(text, address) {
        Ok(insn) => {
            let word = encode(&insn);
            write!(out, " {word:08x}")?;
        }
        Err(_) => out.push_str(" none")?,
    }
    Ok(())
}
