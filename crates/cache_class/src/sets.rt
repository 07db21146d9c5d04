//! What is known of lines, set by set of the cache.

ghost use Rattle.std.specs.Prelude.{◌≡◌, ◌<◌, length, IfOk};
ghost use Rattle.wx_base.specs.Cache.{set_of};
ghost use Rattle.wx_base.specs.Machine.{IsShape};
ghost use Rattle.cache_flow.specs.Flows.{IsFlow};
ghost use Rattle.cache_sets.specs.Sets.{of_set, place_in_set};
ghost use Rattle.cache_sets.specs.Verdicts.{IsVerdict};
ghost use Rattle.cache_class.specs.Tables.{AreSetTables, AreTables, IsAccess, IsSetTable};

use crate::tables::{Access, SetTable, Tables};
use cache_flow::Flow;
use cache_sets::{Verdict, set_flow, sets_tell, verdicts};
use std::alloc::Global;
use wx_base::Shape;
use wx_text::NoMemory;

/// What is known of the lines of each set.
pub(crate) fn set_tables(
    alloc: Global,
    shape: Shape,
    flow: &Flow,
) -> Result<Vec<SetTable>, NoMemory>
    requires shape { IsShape shape }
    requires flow { IsFlow flow.now }
    ensures { IfOk result (λ tables. AreSetTables shape flow.now shape.sets tables.items) }
{
    let mut tables = Vec::with_capacity(alloc, shape.sets as usize)?;
    for set in 0..shape.sets {
        let narrow = set_flow(alloc, shape, flow, set)?;
        let verdicts = verdicts(alloc, shape, &narrow)?;
        tables.push(SetTable {
            flow: narrow,
            verdicts,
        })?;
    }
    Ok(tables)
}

/// How many of some lines belong to the set of a line.
fn count_in_set(shape: Shape, lines: &[u32], line: u32) -> usize
    requires { IsShape shape }
    ensures { result ≡ length (of_set shape (set_of shape line) lines.now) }
{
    let set = line % shape.sets;
    let mut count = 0;
    for other in lines {
        if *other % shape.sets == set {
            count += 1;
        }
    }
    count
}

/// How many accesses to the line's set the node makes before.
pub(crate) fn place_in_set(tables: &Tables, access: Access) -> usize
    requires tables { AreTables tables.now }
    requires access { IsAccess tables.now.flow access.node access.place access.line }
    ensures { result ≡ place_in_set tables.now.shape (set_of tables.now.shape access.line) tables.now.flow
        access.node access.place }
{
    let accesses = tables.flow.nodes.as_slice()[access.node as usize].as_slice();
    count_in_set(tables.shape, &accesses[..access.place], access.line)
}

/// What is known of the lines of a line's set.
pub(crate) fn set_of_line<'a>(tables: &'a Tables, line: u32) -> &'a SetTable
    requires { AreTables tables.now }
    ensures { IsSetTable tables.entry.now.shape tables.entry.now.flow (set_of tables.entry.now.shape line) result.now }
{
    &tables.sets[(line % tables.shape.sets) as usize]
}

/// The verdict on the line at the access.
pub(crate) fn verdict_at(tables: &Tables, access: Access) -> Verdict
    requires tables { AreTables tables.now }
    requires access { IsAccess tables.now.flow access.node access.place access.line }
    ensures { IsVerdict tables.now.shape tables.now.flow access.node access.place access.line result }
{
    sets_tell();
    let table = set_of_line(tables, access.line);
    let place = place_in_set(tables, access);
    table.verdicts[access.node as usize].as_slice()[place]
}
