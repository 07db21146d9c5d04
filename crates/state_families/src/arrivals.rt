//! What arrives at a node in a round.

ghost use Rattle.std.specs.Prelude.{◌≡◌, ◌⊎◌, ◌↔◌, ◌<◌, ◌≤◌, ◌^◌, ℕ, List, length, slice_get, Some, Contains, IfOk, OnOk};
ghost use Rattle.wx_base.specs.Machine.{IsMachine};
ghost use Rattle.wx_base.specs.Vector.{AreWithin};
ghost use Rattle.flow_ctx.specs.Laws.{IsUnfoldedOn};
ghost use Rattle.xdd_table.specs.Diagram.{Keeps};
ghost use Rattle.cache_class.specs.Classes.{AreClasses};
ghost use Rattle.pipe_block.specs.Kept.{AreEndsRight};
ghost use Rattle.state_families.specs.Families.{IsListedAt};
ghost use Rattle.state_families.specs.Leaving.{IsExitAmong, IsExitFrom};

use crate::leaving::exits_from;
use crate::node_set::Slots;
use crate::subject::{Subject, edge_at};
use crate::work::Work;
use flow_ctx::Edge;
use wx_text::{List, NoMemory};
use xdd_table::Table;

/// Adds what an edge hands on from some vectors of its source.
fn add_exits(
    table: &mut Table,
    work: &mut Work,
    subject: &Subject,
    edge: Edge,
    sources: &[Slots],
    arrivals: &mut Vec<Slots>,
) -> Result<(), NoMemory>
    requires small { (source : List ℕ) → Contains sources.now source → AreWithin (10 ^ 18) source }
    requires node { edge.from < length subject.now.unfolded.now.nodes }
    requires unfolded { IsUnfoldedOn subject.now.machine.now subject.now.unfolded.now }
    requires classes { let s = subject.now in AreClasses s.unfolded.now s.machine.now s.classes.now }
    requires machine { IsMachine subject.now.machine.now }
    requires right { let s = subject.now in
        AreEndsRight table.old work.old.pool s.machine.now s.unfolded.now work.old.memo }
    ensures exits { let s = subject.now in OnOk result ((slots : List ℕ) → Contains arrivals.new.items slots
        ↔ (Contains arrivals.old.items slots
        ⊎ IsExitFrom s.unfolded.now s.machine.now s.classes.now edge sources.now slots)) }
    ensures right { let s = subject.now in
        AreEndsRight table.new work.new.pool s.machine.now s.unfolded.now work.new.memo }
    ensures kept { Keeps table.old table.new }
{
    for source in sources {
        let exits = exits_from(table, work, subject, edge, source)?;
        arrivals.extend_from_slice(exits.as_slice())?;
    }
    Ok(())
}

/// What arrives at a node, along the edges into it by their numbers, from the vectors that are new at their sources.
pub(crate) fn arrivals_at(
    table: &mut Table,
    work: &mut Work,
    subject: &Subject,
    numbers: &[usize],
    fresh: &[List<Slots>],
) -> Result<Vec<Slots>, NoMemory>
    requires small { (node : ℕ) (slots : List ℕ) → IsListedAt fresh.now node slots → AreWithin (10 ^ 18) slots }
    requires long { length fresh.now ≡ length subject.now.unfolded.now.nodes }
    requires numbers { (number : ℕ) → Contains numbers.now number → number < length subject.now.unfolded.now.edges }
    requires unfolded { IsUnfoldedOn subject.now.machine.now subject.now.unfolded.now }
    requires classes { let s = subject.now in AreClasses s.unfolded.now s.machine.now s.classes.now }
    requires machine { IsMachine subject.now.machine.now }
    requires right { let s = subject.now in
        AreEndsRight table.old work.old.pool s.machine.now s.unfolded.now work.old.memo }
    ensures arrivals { let s = subject.now in IfOk result (λ arrivals. (slots : List ℕ) → Contains arrivals.items slots
        ↔ IsExitAmong s.unfolded.now s.machine.now s.classes.now numbers.now fresh.now slots) }
    ensures right { let s = subject.now in
        AreEndsRight table.new work.new.pool s.machine.now s.unfolded.now work.new.memo }
    ensures kept { Keeps table.old table.new }
{
    let mut arrivals = Vec::new(table.allocator());
    for number in numbers {
        let edge = edge_at(subject.unfolded, *number);
        let sources = fresh[edge.from as usize].as_slice();
        add_exits(table, work, subject, edge, sources, &mut arrivals)?;
    }
    Ok(arrivals)
}
