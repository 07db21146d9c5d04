//! Whether a line is kept in a scope.

ghost use Rattle.std.specs.Prelude.{◌≡◌, ◌<◌, true, length, Contains, IfOk};
ghost use Rattle.std.specs.Bool.{Decides};
ghost use Rattle.cache_flow.specs.Flows.{Part};
ghost use Rattle.cache_flow.specs.Shown.{IsKept};
ghost use Rattle.cache_kept.specs.Parts.{IsStretch};
ghost use Rattle.flow_ctx.specs.declared.scope.Scope.TheVariants as scope;
ghost use Rattle.cache_class.specs.Chains.{has_node};
ghost use Rattle.cache_class.specs.Classes.{IsKeptIn};
ghost use Rattle.cache_class.specs.Tables.{AreTables, IsAccess};

use crate::sets::{place_in_set, set_of_line};
use crate::tables::{Access, Tables};
use cache_kept::{Stretch, is_kept};
use cache_sets::sets_tell;
use std::alloc::Global;
use wx_text::NoMemory;

/// Whether the line is kept at the access, in a stay in a part.
fn is_kept_in(
    alloc: Global,
    tables: &Tables,
    stretch: &Stretch,
    access: Access,
) -> Result<bool, NoMemory>
    requires tables { AreTables tables.now }
    requires stretch { IsStretch (length tables.now.flow.nodes) tables.now.flow.moves stretch.now }
    requires member { Contains stretch.now.members.now access.node }
    requires access { IsAccess tables.now.flow access.node access.place access.line }
    ensures { IfOk result (λ kept. (part : Part) → part.members ≡ stretch.now.members.now
        → Decides kept (IsKept tables.now.shape tables.now.flow part access.node access.place access.line)) }
{
    sets_tell();
    let flow = &set_of_line(tables, access.line).flow;
    let place = place_in_set(tables, access);
    let kept = is_kept(
        alloc,
        tables.shape,
        flow,
        &tables.ways,
        stretch,
        access.node,
        place,
    )?;
    Ok(kept)
}

/// Whether the line is kept at the access in the run.
pub(crate) fn is_kept_in_run(
    alloc: Global,
    tables: &Tables,
    access: Access,
) -> Result<bool, NoMemory>
    requires tables { AreTables tables.now }
    requires access { IsAccess tables.now.flow access.node access.place access.line }
    ensures { IfOk result (λ kept. Decides kept (IsKeptIn tables.now.shape tables.now.u.now tables.now.flow access.node
        access.place access.line scope.Run)) }
{
    let kept = is_kept_in(alloc, tables, &tables.run, access)?;
    Ok(kept)
}

/// Whether the line is kept at the access in a loop that has the node.
pub(crate) fn is_kept_in_loop(
    alloc: Global,
    tables: &Tables,
    number: u32,
    access: Access,
) -> Result<bool, NoMemory>
    requires tables { AreTables tables.now }
    requires number { number < length tables.now.u.now.loops }
    requires member { has_node tables.now.u.now access.node number ≡ true }
    requires access { IsAccess tables.now.flow access.node access.place access.line }
    ensures { IfOk result (λ kept. Decides kept (IsKeptIn tables.now.shape tables.now.u.now tables.now.flow access.node
        access.place access.line (scope.Loop number))) }
{
    let stretch = &tables.loops[number as usize];
    let kept = is_kept_in(alloc, tables, stretch, access)?;
    Ok(kept)
}
