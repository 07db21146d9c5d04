//! Classes of the events of unfoldings.

ghost use Rattle.std.specs.Prelude.{◌≤◌, length, IfOk};
ghost use Rattle.wx_base.specs.Machine.{IsMachine, IsShape};
ghost use Rattle.flow_ctx.specs.Unfolding.{IsUnfolding, most_nodes};

use crate::parts::pair;
use crate::programs::{program_of, push_refusal};
use crate::unfoldings::push_unfold_error;
use anyhow::{Result, bail};
use cache_class::{Class, classify};
use flow_ctx::{Scope, Unfolded, unfold};
use std::alloc::Global;
use std::fmt::Write;
use wx_base::{Machine, Shape};

/// Appends the classes of the events of a case's unfolding, node by node, or why there is none. The case is the number of
/// lines in a set of a cache of lines of 16 bytes, whose sets are as many, and the program.
pub fn push_classes(alloc: Global, out: &mut String, case: &str) -> Result<()> {
    let (name, case) = pair(case, " ")?;
    let machine = machine_of(alloc, name)?;
    match program_of(alloc, case, &machine)? {
        Ok(program) => match unfold(alloc, program) {
            Ok(unfolded) => push_table(alloc, out, &unfolded, &machine),
            Err(refusal) => push_unfold_error(out, refusal),
        },
        Err(refusal) => push_refusal(out, refusal),
    }
}

/// The machine of the examples, with the cache that a case names: `SETSxWAYS`.
fn machine_of(alloc: Global, name: &str) -> Result<Machine>
    ensures { IfOk result IsMachine }
{
    let shape = shape_of(name)?;
    let mut machine = Machine::m1(alloc);
    machine.shape = shape;
    Ok(machine)
}

/// The shape of a cache with lines of 16 bytes.
fn shape_of(name: &str) -> Result<Shape>
    ensures { IfOk result IsShape }
{
    match name {
        "1x1" => Ok(Shape {
            sets: 1,
            ways: 1,
            line: 16,
        }),
        "1x2" => Ok(Shape {
            sets: 1,
            ways: 2,
            line: 16,
        }),
        "2x2" => Ok(Shape {
            sets: 2,
            ways: 2,
            line: 16,
        }),
        _ => bail!("no shape"),
    }
}

fn push_table(alloc: Global, out: &mut String, u: &Unfolded, machine: &Machine) -> Result<()>
    requires unfolding { IsUnfolding u.now.program u.now }
    requires few { length u.now.nodes ≤ most_nodes }
    requires machine { IsMachine machine.now }
{
    let classes = classify(alloc, u, machine)?;
    for kinds in classes.slots.as_slice() {
        write!(out, "\n  node")?;
        for class in kinds.as_slice() {
            push_class(out, *class)?;
        }
    }
    Ok(())
}

fn push_class(out: &mut String, class: Class) -> Result<()> {
    match class {
        Class::AlwaysHit => write!(out, " hit")?,
        Class::AlwaysMiss => write!(out, " miss")?,
        Class::FirstMiss { scope: Scope::Run } => write!(out, " first run")?,
        Class::FirstMiss {
            scope: Scope::Loop { number },
        } => write!(out, " first loop {number}")?,
        Class::Open => write!(out, " open")?,
    }
    Ok(())
}
