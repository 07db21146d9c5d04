//! One step of the machine.

use crate::parts::{byte, number, pair, word};
use anyhow::{Context, Result};
use arm_step::{Cpu, StepEnd, Why, step};
use std::alloc::{AllocError, Global};
use wx_base::{Image, Machine, Region, Regions, Segment, Segments, Symbols, Text};
use wx_mem::Memory;

/// The byte wherever nothing was written and no image lies.
const FILL: u8 = 0xee;

/// What fills the data segment, from 2000 on; behind it come zeros.
static DATA: [u8; 16] = [
    0x11, 0x22, 0x33, 0x44, 0x85, 0x86, 0x87, 0x88, 0x19, 0x1a, 0x1b, 0x1c, 0x2d, 0x2e, 0x2f, 0x20,
];

/// The first addresses of the 64 bytes each that are looked at for what was written.
static WINDOWS: [u32; 5] = [0xffff_ffe0, 0x1fe0, 0x2fe0, 0x4fe0, 0x7fe0];

/// A segment.
fn segment(
    alloc: Global,
    first: u32,
    size: u64,
    code: bool,
    bytes: &[u8],
) -> Result<Segment, AllocError> {
    Ok(Segment {
        first,
        size,
        code,
        bytes: Text::new(Vec::from_slice(alloc, bytes)?),
    })
}

/// An image with data from 2000 to 2017, and code from 8000 to 8011 that begins with a word.
fn image(alloc: Global, word: u32) -> Result<Image, AllocError> {
    let mut segments = Vec::new(alloc);
    segments.push(segment(alloc, 0x2000, 24, false, &DATA)?)?;
    segments.push(segment(alloc, 0x8000, 18, true, &word.to_le_bytes())?)?;
    Ok(Image {
        entry: 0x8000,
        segments: Segments::new(segments),
        symbols: Symbols::new(Vec::new(alloc)),
    })
}

/// A machine on which the byte at 3002 is slow, and so are those at both ends of memory.
fn machine(alloc: Global) -> Result<Machine, AllocError> {
    let mut regions = Vec::new(alloc);
    let rows = [
        (0x2000, 0x2fff, false),
        (0x3002, 0x3002, true),
        (0xffff_ffff, 0xffff_ffff, true),
        (0, 1, true),
    ];
    for (first, last, slow) in rows {
        regions.push(Region {
            name: Text::new(Vec::new(alloc)),
            first,
            last,
            slow,
        })?;
    }
    Ok(Machine {
        regions: Regions::new(regions),
        ..Machine::m1(alloc)
    })
}

/// A processor on which each register has its number, but pc has 8000; nothing was written, and no flag is set.
fn processor(alloc: Global) -> Cpu {
    Cpu {
        regs: [0, 1, 2, 3, 4, 5, 6, 7, 8, 9, 10, 11, 12, 13, 14, 0x8000],
        n: false,
        z: false,
        c: false,
        v: false,
        memory: Memory::new(alloc, FILL),
    }
}

/// Sets what a part of the case says: flags, as `nZCv`, a register, as `r1=00000007`, or a byte, as `00002001=aa`.
fn set(cpu: &mut Cpu, part: &str) -> Result<()> {
    let Some((place, value)) = part.split_once('=') else {
        cpu.n = part.contains('N');
        cpu.z = part.contains('Z');
        cpu.c = part.contains('C');
        cpu.v = part.contains('V');
        return Ok(());
    };
    match place.strip_prefix('r') {
        Some(register) => {
            let at = number(register)? as usize;
            *cpu.regs.get_mut(at).context("no such register")? = word(value)?;
        }
        None => cpu.memory.write(word(place)?, byte(value)?)?,
    }
    Ok(())
}

/// Appends what a word at 8000 does: how the step ends, which registers change, the flags behind it, and all bytes that
/// were written. The case is the word, and what differs from the processor above.
pub fn push_step(alloc: Global, out: &mut String, case: &str) -> Result<()> {
    let (first, parts) = pair(case, ' ')?;
    let mut cpu = processor(alloc);
    for part in parts.split(' ') {
        set(&mut cpu, part)?;
    }
    let before = cpu.regs;
    let image = image(alloc, word(first)?)?;
    let end = step(alloc, &mut cpu, &image, &machine(alloc)?)?;
    push_end(out, end)?;
    push_changes(out, &before, &cpu.regs)?;
    push_flags(out, &cpu)?;
    for first in WINDOWS {
        push_bytes(out, &cpu.memory, first)?;
    }
    Ok(())
}

/// Appends how a step ended.
fn push_end(out: &mut String, end: StepEnd) -> Result<(), AllocError> {
    match end {
        StepEnd::Next { taken, slow } => {
            out.push_str(if taken { " jump" } else { " on" })?;
            out.push_str(if slow { " slow" } else { "" })
        }
        StepEnd::Ended => out.push_str(" end"),
        StepEnd::Stopped { why, addr } => {
            let why = match why {
                Why::Fetch => "fetch",
                Why::Word => "word",
                Why::Align => "align",
                Why::Store => "store",
            };
            write!(out, " stop {why} {addr:08x}")
        }
    }
}

/// Appends the registers that changed, with what they have now.
fn push_changes(out: &mut String, before: &[u32; 16], now: &[u32; 16]) -> Result<(), AllocError> {
    for (register, (old, new)) in before.iter().zip(now).enumerate() {
        if *old != *new {
            let value = *new;
            write!(out, " r{register}={value:08x}")?;
        }
    }
    Ok(())
}

/// Appends the flags; those in capitals are set.
fn push_flags(out: &mut String, cpu: &Cpu) -> Result<(), AllocError> {
    out.push_str(if cpu.n { " N" } else { " n" })?;
    out.push_str(if cpu.z { "Z" } else { "z" })?;
    out.push_str(if cpu.c { "C" } else { "c" })?;
    out.push_str(if cpu.v { "V" } else { "v" })
}

/// Appends the bytes that were written among 64, each row of them behind its address.
fn push_bytes(out: &mut String, memory: &Memory, first: u32) -> Result<(), AllocError> {
    let mut follows = false;
    for offset in 0..64 {
        let at = first.wrapping_add(offset);
        let is_written = memory.written(at);
        if is_written && !follows {
            write!(out, " {at:08x}=")?;
        }
        if is_written {
            let byte = memory.read(at);
            write!(out, "{byte:02x}")?;
        }
        follows = is_written;
    }
    Ok(())
}
