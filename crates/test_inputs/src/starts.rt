use crate::cases::Case;
use anyhow::Result;
use start_file::Start;
use std::alloc::Global;
use std::fmt::Write;

/// A start in lines: the registers that are not 0, the flags, bytes at some addresses, and whether accesses to lines
/// hit.
pub fn start_lines(alloc: Global, start: Start, case: &Case) -> Result<String> {
    let mut start = start;
    let mut lines = String::from_str(alloc, "read\n ")?;
    push_registers(&mut lines, &start)?;
    push_flags(&mut lines, &start)?;
    for address in case.addresses.iter() {
        push_byte(&mut lines, &start, *address)?;
    }
    for line in case.accesses.iter() {
        push_access(&mut lines, &mut start, *line)?;
    }
    Ok(lines)
}

fn push_registers(lines: &mut String, start: &Start) -> Result<()> {
    for (number, value) in start.cpu.regs.iter().enumerate() {
        if *value != 0 {
            write!(lines, " r{number} {value:08x}")?;
        }
    }
    Ok(())
}

fn push_flags(lines: &mut String, start: &Start) -> Result<()> {
    let cpu = &start.cpu;
    for (name, flag) in [("n", cpu.n), ("z", cpu.z), ("c", cpu.c), ("v", cpu.v)] {
        if flag {
            write!(lines, " {name}")?;
        }
    }
    Ok(())
}

/// The byte at an address of the memory, and whether it was written.
fn push_byte(lines: &mut String, start: &Start, address: u32) -> Result<()> {
    let memory = &start.cpu.memory;
    let byte = memory.read(address);
    let whence = if memory.written(address) {
        "byte"
    } else {
        "fill"
    };
    write!(lines, "\n  at {address:08x} {whence} {byte:02x}")?;
    Ok(())
}

fn push_access(lines: &mut String, start: &mut Start, line: u32) -> Result<()> {
    let end = if start.cache.access(line) {
        "miss"
    } else {
        "hit"
    };
    write!(lines, "\n  access {line:08x} {end}")?;
    Ok(())
}
