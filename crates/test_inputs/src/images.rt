use crate::answers::shown_name;
use anyhow::Result;
use std::alloc::Global;
use std::fmt::Write;
use wx_base::{Image, Segment, Symbol};

/// An image in lines: the entry, the segments, the symbols, and what stands at some addresses.
pub fn image_lines(alloc: Global, image: &Image, addresses: &[u32]) -> Result<String> {
    let mut lines = format!(in alloc; "read, entry {:08x}", image.entry)?;
    for segment in image.segments.as_slice() {
        push_segment(&mut lines, segment)?;
    }
    for symbol in image.symbols.as_slice() {
        push_symbol(alloc, &mut lines, symbol)?;
    }
    for address in addresses {
        push_place(&mut lines, image, *address)?;
    }
    Ok(lines)
}

fn push_segment(lines: &mut String, segment: &Segment) -> Result<()> {
    let kind = if segment.code { "code" } else { "data" };
    let (first, size) = (segment.first, segment.size);
    let kept = segment.bytes.len();
    write!(
        lines,
        "\n  {kind} {first:08x}, {size} bytes, {kept} of them in the file"
    )?;
    Ok(())
}

fn push_symbol(alloc: Global, lines: &mut String, symbol: &Symbol) -> Result<()> {
    let kind = if symbol.global { "global" } else { "local" };
    let name = shown_name(alloc, &symbol.name)?;
    write!(lines, "\n  {kind} {name} {:08x}", symbol.value)?;
    Ok(())
}

/// What stands at an address: a byte, the word that begins there, and whether it is code.
fn push_place(lines: &mut String, image: &Image, address: u32) -> Result<()> {
    write!(lines, "\n  at {address:08x}")?;
    match image.byte_at(address) {
        Some(byte) => write!(lines, " byte {byte:02x}")?,
        None => write!(lines, " nothing")?,
    }
    if let Some(word) = image.word_at(address) {
        write!(lines, " word {word:08x}")?;
    }
    if image.is_code(address) {
        write!(lines, " code")?;
    }
    Ok(())
}
