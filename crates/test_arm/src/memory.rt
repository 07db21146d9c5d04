//! Memories.

use crate::parts::{byte, pair, word, yes_or_no};
use anyhow::{Context, Result, bail, ensure};
use std::alloc::Global;
use wx_mem::Memory;

/// Appends the answers of a memory to requests. The case is the byte of the fill, and requests behind commas.
pub fn push_memory(alloc: Global, out: &mut String, case: &str) -> Result<()> {
    let (fill, requests) = pair(case, ',')?;
    let mut memory = Memory::new(alloc, byte(fill)?);
    for request in requests.split(',') {
        push_answer(alloc, out, &mut memory, request.trim())?;
    }
    Ok(())
}

/// Appends the answer to `read ADDRESS` or `written ADDRESS`, or does `write ADDRESS BYTE..`, which has no answer.
fn push_answer(alloc: Global, out: &mut String, memory: &mut Memory, request: &str) -> Result<()> {
    let (verb, rest) = pair(request, ' ')?;
    match verb {
        "read" => {
            let byte = memory.read(word(rest)?);
            write!(out, " {byte:02x}")?;
        }
        "written" => {
            let answer = yes_or_no(memory.written(word(rest)?));
            write!(out, " {answer}")?;
        }
        "write" => write(alloc, memory, rest)?,
        _ => bail!("no such request"),
    }
    Ok(())
}

/// Writes one byte, or several at once.
fn write(alloc: Global, memory: &mut Memory, case: &str) -> Result<()> {
    let (address, texts) = pair(case, ' ')?;
    let first = word(address)?;
    let mut bytes = Vec::new(alloc);
    for text in texts.split(' ') {
        bytes.push(byte(text)?)?;
    }
    match bytes.as_slice() {
        [byte] => memory.write(first, *byte)?,
        several => {
            ensure!(several.len() <= 64, "at most 64 bytes are written at once");
            memory.write_many(first, several)?;
        }
    }
    Ok(())
}
