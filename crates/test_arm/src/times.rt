//! Times on the pipeline.

ghost use Rattle.std.specs.Prelude.{◌≡◌, ◌^◌, IsTrue, IfOk};
ghost use Rattle.arm_code.specs.Encoding.{IsValid};
ghost use Rattle.wx_base.specs.Machine.{IsMachine};
ghost use Rattle.wx_base.specs.Vector.{AreWithin};

use crate::parts::{pair, word};
use anyhow::{Context, Result, bail, ensure};
use arm_code::decode;
use pipe_time::{Entry, Vector, advance};
use std::alloc::Global;
use wx_base::{Machine, Times, Unit};

/// Appends the six times of each instruction of a run from the empty pipeline, and the slots behind it that are not 0.
///
/// The case is the machine and the words; behind a word stands `m` if its fetch misses, `s` if it is slow, and `t` if
/// it jumps.
pub fn push_times(alloc: Global, out: &mut String, case: &str) -> Result<()> {
    let (name, words) = pair(case, ' ')?;
    let machine = machine(alloc, name)?;
    let mut vector = Vector::zero();
    for word in words.split(' ') {
        let entry = entry(word)?;
        ensure!(is_small(&vector), "times are below 2^62");
        let Times { f, fe, d, x, xe, c } = advance(&mut vector, &entry, &machine);
        write!(out, " [{f} {fe} {d} {x} {xe} {c}]")?;
    }
    push_slots(out, &vector)
}

/// Appends the number and the time of each slot that is not 0.
fn push_slots(out: &mut String, vector: &Vector) -> Result<()> {
    out.push_str(" slots")?;
    for (number, slot) in vector.slots.iter().enumerate() {
        let time = *slot;
        if time != 0 {
            write!(out, " {number}:{time}")?;
        }
    }
    Ok(())
}

/// A machine by its name.
fn machine(alloc: Global, name: &str) -> Result<Machine>
    ensures { IfOk result (λ machine. IsMachine machine) }
{
    match name {
        "m1" => Ok(Machine::m1(alloc)),
        "wide" => Ok(wide(alloc)),
        "least" => Ok(least(alloc)),
        "most" => Ok(most(alloc)),
        _ => bail!("no such machine"),
    }
}

/// A unit, whose latency is its occupancy too.
fn unit(latency: u64, slow: u64) -> Unit
    ensures { result ≡ record { latency = latency; occupancy = latency; slow = slow } }
{
    Unit {
        latency,
        occupancy: latency,
        slow,
    }
}

/// The machine of the examples, but two instructions wide, and with an ALU that takes three cycles and is free for the
/// next instruction after two.
fn wide(alloc: Global) -> Machine
    ensures { IsMachine result }
{
    Machine {
        width: 2,
        alu: Unit {
            latency: 3,
            occupancy: 2,
            slow: 0,
        },
        ..Machine::m1(alloc)
    }
}

/// The machine of the examples with the least width, queue and times.
fn least(alloc: Global) -> Machine
    ensures { IsMachine result }
{
    Machine {
        queue: 1,
        miss: 0,
        mul: unit(1, 0),
        mem: unit(1, 0),
        ..Machine::m1(alloc)
    }
}

/// The machine of the examples with the greatest width, queue and times.
fn most(alloc: Global) -> Machine
    ensures { IsMachine result }
{
    Machine {
        width: 2,
        queue: 8,
        hit: 1000,
        miss: 1000,
        alu: unit(1000, 0),
        mul: unit(1000, 1000),
        mem: unit(1000, 1000),
        ..Machine::m1(alloc)
    }
}

/// An instruction of a run.
fn entry(text: &str) -> Result<Entry>
    ensures { IfOk result (λ entry. IsValid entry.insn) }
{
    let digits = text.get(..8).context("a word is wanted")?;
    let insn = decode(word(digits)?).context("an instruction is wanted")?;
    Ok(Entry {
        insn,
        miss: text.contains('m'),
        slow: text.contains('s'),
        taken: text.contains('t'),
    })
}

/// Whether every slot is at most 2^62.
fn is_small(vector: &Vector) -> bool
    ensures { IsTrue result → AreWithin (2 ^ 62) vector.now.slots }
{
    vector.slots.iter().all(|slot| *slot <= 1 << 62)
}
