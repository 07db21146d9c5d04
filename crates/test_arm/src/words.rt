//! What the pipeline and the flow have to know of a word.

use crate::parts::{word, word_and_address};
use anyhow::Result;
use arm_code::{FlowKind, UnitKind, decode, field, flow, reads, transfers, unit, writes};

/// Appends bits 11 to 8 of a word, and bits 31 to 0.
pub fn push_bits(out: &mut String, case: &str) -> Result<()> {
    let word = word(case)?;
    let (middle, whole) = (field::<11, 8>(word), field::<31, 0>(word));
    write!(out, " {middle:x} {whole:08x}")?;
    Ok(())
}

/// Appends what a word reads and writes, its unit, and how many words it transfers.
pub fn push_columns(out: &mut String, case: &str) -> Result<()> {
    let Some(insn) = decode(word(case)?) else {
        out.push_str(" none")?;
        return Ok(());
    };
    out.push_str(" reads")?;
    push_resources(out, reads(&insn))?;
    out.push_str(" writes")?;
    push_resources(out, writes(&insn))?;
    let unit = match unit(&insn) {
        UnitKind::Alu => "alu",
        UnitKind::Mul => "mul",
        UnitKind::Mem => "mem",
    };
    let transfers = transfers(&insn);
    write!(out, " unit {unit} transfers {transfers}")?;
    Ok(())
}

/// Appends the registers of a set, of which the flags are number 15.
fn push_resources(out: &mut String, set: u16) -> Result<()> {
    for resource in 0..15u32 {
        if (set >> resource) % 2 == 1 {
            write!(out, " r{resource}")?;
        }
    }
    if set >> 15 == 1 {
        out.push_str(" flags")?;
    }
    Ok(())
}

/// Appends where a word at an address goes on.
pub fn push_flow(out: &mut String, case: &str) -> Result<()> {
    let (word, address) = word_and_address(case)?;
    let Some(insn) = decode(word) else {
        out.push_str(" none")?;
        return Ok(());
    };
    let FlowKind {
        next,
        jump,
        call,
        call_any,
        ret,
        indirect,
        stop,
    } = flow(&insn, address);
    push_where(out, next, " next")?;
    push_target(out, " jump", jump)?;
    push_target(out, " call", call)?;
    push_where(out, call_any, " call-any")?;
    push_where(out, ret, " return")?;
    push_where(out, indirect, " indirect")?;
    push_where(out, stop, " stop")
}

fn push_where(out: &mut String, holds: bool, text: &str) -> Result<()> {
    if holds {
        out.push_str(text)?;
    }
    Ok(())
}

fn push_target(out: &mut String, text: &str, target: Option<u32>) -> Result<()> {
    if let Some(address) = target {
        write!(out, "{text} {address:08x}")?;
    }
    Ok(())
}
