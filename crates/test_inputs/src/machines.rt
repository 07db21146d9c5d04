use crate::answers::shown_name;
use anyhow::Result;
use machine_desc::MachineError;
use std::alloc::Global;
use std::fmt::Write;
use wx_base::{Machine, Region, Unit};

/// A machine in lines: all its numbers, and its regions.
pub fn machine_lines(alloc: Global, machine: &Machine) -> Result<String> {
    let mut lines = String::from_str(alloc, "read\n ")?;
    write!(lines, " width {} queue {}", machine.width, machine.queue)?;
    write!(
        lines,
        " horizon {} states {}",
        machine.horizon, machine.states
    )?;
    write!(lines, ", fetch {} {}", machine.hit, machine.miss)?;
    let shape = machine.shape;
    write!(
        lines,
        ", cache {} {} {}",
        shape.sets, shape.ways, shape.line
    )?;
    push_unit(&mut lines, "alu", machine.alu)?;
    push_unit(&mut lines, "mul", machine.mul)?;
    push_unit(&mut lines, "mem", machine.mem)?;
    for region in machine.regions.as_slice() {
        push_region(alloc, &mut lines, region)?;
    }
    Ok(lines)
}

fn push_unit(lines: &mut String, name: &str, unit: Unit) -> Result<()> {
    write!(
        lines,
        ", {name} {} {} {}",
        unit.latency, unit.occupancy, unit.slow
    )?;
    Ok(())
}

fn push_region(alloc: Global, lines: &mut String, region: &Region) -> Result<()> {
    let speed = if region.slow { "slow" } else { "fast" };
    let name = shown_name(alloc, &region.name)?;
    write!(
        lines,
        "\n  {speed} {name} {:08x} to {:08x}",
        region.first, region.last
    )?;
    Ok(())
}

/// Why a description was refused, with the key where there is one.
pub fn machine_refusal(alloc: Global, error: &MachineError) -> Result<String> {
    let mut text = format!(in alloc; "refused, {error}")?;
    if let MachineError::Unknown { key }
    | MachineError::Missing { key }
    | MachineError::Kind { key }
    | MachineError::Range { key, .. } = error
    {
        let key = shown_name(alloc, key)?;
        write!(text, ": {key}")?;
    }
    Ok(text)
}
