ghost use Rattle.std.specs.Prelude.{◌≡◌, ◌∷◌, map, IfOk};
ghost use Rattle.wx_base.specs.Machine.{IsMachine};
ghost use Rattle.xdd_table.specs.Diagram.{Keeps};
ghost use Rattle.pipe_block.specs.Times.{AreDiagrams};
ghost use Rattle.pipe_block.specs.Exits.{AreExits, exit_row_of};

use crate::columns::columns;
use crate::diagrams::{BlockExit, BlockVector};
use crate::gather::gather;
use crate::row::{Bundle, Row};
use indexmap::{IndexMap, IndexSet};
use pipe_time::{Vector, rebase};
use std::alloc::Global;
use wx_base::{Machine, NoMemory};
use xdd_table::Table;

/// What an edge makes of the row of a combination.
fn exit_row(row: &Row, taken: bool, m: &Machine) -> Row
    requires { IsMachine m.now }
    ensures { result ≡ exit_row_of m.now taken row.now }
{
    let mut vector = Vector { slots: row.slots };
    vector.slots[13] = if taken { row.number } else { 0 };
    let number = rebase(&mut vector, m);
    Row {
        number,
        slots: vector.slots,
    }
}

/// What an edge makes of each row.
pub fn exit_rows(
    alloc: Global,
    rows: &[Row],
    taken: bool,
    m: &Machine,
) -> Result<Vec<Row>, NoMemory>
    requires { IsMachine m.now }
    ensures { IfOk result (λ exits. exits.items ≡ map (exit_row_of m.now taken) rows.now) }
{
    let mut exits = Vec::new(alloc);
    for row in rows {
        exits.push(exit_row(row, taken, m))?;
    }
    Ok(exits)
}

/// What an edge hands on, by which the last instruction of the block jumps or does not: at each combination the cost that
/// is counted off, in cycles, and the vector from there. The only error is want of memory.
///
/// Equal diagrams are taken apart once, so the time goes by how many different ones there are.
pub fn exit(
    table: &mut Table,
    v: &BlockVector,
    taken: bool,
    m: &Machine,
) -> Result<BlockExit, NoMemory>
    requires diagrams { AreDiagrams table.old 12 (v.now.last ∷ v.now.slots) }
    requires machine { IsMachine m.now }
    ensures exits { IfOk result (AreExits table.old table.new m.now taken v.now) }
    ensures kept { Keeps table.old table.new }
{
    let alloc = table.allocator();
    let mut plan = Table::new(alloc);
    let mut rows = IndexSet::new(alloc);
    let mut known = IndexMap::new(alloc);
    let slots = v.slots;
    let bundle = Bundle {
        number: v.last,
        slots,
    };
    let root = gather(table, &bundle, 0, &mut plan, &mut rows, &mut known)?;
    let exits = exit_rows(alloc, rows.as_slice(), taken, m)?;
    let all = columns(table, &plan, root, exits.as_slice())?;
    let slots = all.slots;
    Ok(BlockExit {
        cost: all.number,
        slots,
    })
}
