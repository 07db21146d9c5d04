ghost use Rattle.std.specs.Prelude.{◌≡◌, ◌∷◌, map, IfOk, length};
ghost use Rattle.std.specs.List.{range_with_len};
ghost use Rattle.xdd_table.specs.Diagram.{Keeps};
ghost use Rattle.pipe_block.specs.Times.{AreDiagrams};
ghost use Rattle.pipe_block.specs.Outcomes.{AreOutcomes, outcome_of};

use crate::columns::column;
use crate::diagrams::{BlockExit, Outcome, OutcomeList, Outcomes};
use crate::gather::gather;
use crate::row::{Bundle, Row};
use indexmap::{IndexMap, IndexSet};
use pipe_time::Vector;
use std::alloc::Global;
use wx_base::NoMemory;
use xdd_table::Table;

/// Rows as outcomes.
pub fn listed(alloc: Global, rows: &[Row]) -> Result<Vec<Outcome>, NoMemory>
    ensures { IfOk result (λ list. list.items ≡ map outcome_of rows.now) }
{
    let mut list = Vec::new(alloc);
    for row in rows {
        let vector = Vector { slots: row.slots };
        list.push(Outcome {
            cost: row.number,
            vector,
        })?;
    }
    Ok(list)
}

/// The positions below a number.
fn positions(alloc: Global, count: usize) -> Result<Vec<u64>, NoMemory>
    ensures { IfOk result (λ places. places.items ≡ range_with_len 0 count) }
{
    let mut places = Vec::new(alloc);
    for place in 0..count {
        places.push(place as u64)?;
    }
    Ok(places)
}

/// The outcomes that some combination gives, each once, and the diagram whose time is the position of a combination's
/// outcome in the list. The only error is want of memory.
///
/// Equal diagrams are taken apart once, so the time goes by how many different ones there are.
pub fn outcomes(table: &mut Table, e: &BlockExit) -> Result<OutcomeList, NoMemory>
    requires { AreDiagrams table.old 12 (e.now.cost ∷ e.now.slots) }
    ensures outcomes { IfOk result (AreOutcomes table.old table.new e.now) }
    ensures kept { Keeps table.old table.new }
{
    let alloc = table.allocator();
    let mut plan = Table::new(alloc);
    let mut rows = IndexSet::new(alloc);
    let mut known = IndexMap::new(alloc);
    let slots = e.slots;
    let bundle = Bundle {
        number: e.cost,
        slots,
    };
    let root = gather(table, &bundle, 0, &mut plan, &mut rows, &mut known)?;
    let found = rows.as_slice();
    let list = listed(alloc, found)?;
    let places = positions(alloc, found.len())?;
    let place = column(table, &plan, root, places.as_slice())?;
    Ok(OutcomeList {
        list: Outcomes::new(list),
        place,
    })
}
