//! Machines by their names.

ghost use Rattle.std.specs.Prelude.{IfOk};
ghost use Rattle.wx_base.specs.Machine.{IsMachine};

use anyhow::{Result, bail};
use std::alloc::Global;
use wx_base::Machine;

/// A machine by its name: that of the examples, or the same two instructions wide.
pub fn machine(alloc: Global, name: &str) -> Result<Machine>
    ensures { IfOk result (λ machine. IsMachine machine) }
{
    match name {
        "m1" => Ok(Machine::m1(alloc)),
        "wide" => Ok(wide(alloc)),
        _ => bail!("no such machine"),
    }
}

/// The machine of the examples, but two instructions wide.
fn wide(alloc: Global) -> Machine
    ensures { IsMachine result }
{
    Machine {
        width: 2,
        ..Machine::m1(alloc)
    }
}
