//! Words that read and write numbers, apart from any diagram.

use crate::texts::{bytes_of_text, push_text};
use anyhow::Result;
use std::alloc::Global;
use std::fmt::Write;
use wx_text::{Cursor, push_number};

/// Does what a word says of numbers, and appends what it shows.
pub fn push_numerals(alloc: Global, out: &mut String, name: &str, argument: &str) -> Result<bool> {
    match name {
        "least" => {
            let mut text = Vec::new(alloc);
            push_number(&mut text, i128::MIN)?;
            push_text(out, text.as_slice())?;
        }
        "register" => push_register(out, bytes_of_text(alloc, argument)?.as_slice())?,
        "addresses" => push_addresses(out, bytes_of_text(alloc, argument)?.as_slice())?,
        _ => return Ok(false),
    }
    Ok(true)
}

/// Whether a text begins with `set `, whether it does with `reg `, the two numbers behind that, and how far it was
/// read.
fn push_register(out: &mut String, text: &[u8]) -> Result<()> {
    let mut cursor = Cursor::new(text);
    write!(
        out,
        " {} {}",
        cursor.expect(b"set "),
        cursor.expect(b"reg ")
    )?;
    write!(out, " {:?} {}", cursor.number(), cursor.expect(b" "))?;
    write!(out, " {:?} {}", cursor.number(), cursor.place())?;
    Ok(())
}

/// Two addresses one behind the other, how far the text was read, and whether that is all of it.
fn push_addresses(out: &mut String, text: &[u8]) -> Result<()> {
    let mut cursor = Cursor::new(text);
    write!(out, " {:?} {:?}", cursor.hex(), cursor.hex())?;
    write!(out, " {} {}", cursor.place(), cursor.at_end())?;
    Ok(())
}
