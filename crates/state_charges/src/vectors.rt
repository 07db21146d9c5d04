//! The rises of an edge's costs from the vectors of the node that it leaves.

ghost use Rattle.std.specs.Prelude.{◌≡◌, ◌<◌, ◌^◌, ℕ, length, slice_get, Some, OnOk};
ghost use Rattle.wx_base.specs.Vector.{AreWithin};
ghost use Rattle.xdd_table.specs.Diagram.{Keeps};
ghost use Rattle.pipe_time.specs.declared.vector.Vector.{Vector as VectorOf};
ghost use Rattle.node_exits.specs.NodeExits.{IsNode, IsRight};
ghost use Rattle.state_charges.specs.Raising.{IsEarly, IsFamilyRise, IsVectorRise, Raises};
ghost use Rattle.state_charges.specs.Subject.{IsDeparture};

use crate::events::raise_events;
use crate::subject::Departure;
use cert_judge::settle;
use node_exits::{Work, exits_stay, leave_from};
use pipe_time::Vector;
use wx_text::NoMemory;
use xdd_table::Table;

/// Raises the amounts of groups to the greatest rises of an edge's cost from a vector.
fn raise_vector(
    table: &mut Table,
    work: &mut Work,
    departure: &Departure,
    v: &Vector,
    amounts: &mut [u64],
) -> Result<(), NoMemory>
    requires node { let s = departure.now.site in IsNode s.unfolded.now s.machine.now s.node }
    requires departure { let d = departure.now in
        IsDeparture d.site.unfolded.now d.site.node d.block.now d.classes.now d.misses.now (length amounts.old) }
    requires small { AreWithin (10 ^ 18) v.now.slots }
    requires right { let s = departure.now.site in IsRight table.old s.unfolded.now s.machine.now work.old }
    ensures raises { let d = departure.now in OnOk result (Raises
        (IsVectorRise d.site.machine.now d.block.now d.classes.now d.taken d.misses.now v.now)
        amounts.old amounts.new) }
    ensures right { let s = departure.now.site in
        OnOk result (IsRight table.new s.unfolded.now s.machine.now work.new) }
    ensures kept { Keeps table.old table.new }
{
    exits_stay();
    let place = work.place_of(v)?;
    let number = leave_from(table, work, &departure.site, place, departure.taken)?;
    let cost = settle(table, work.leaving(number).cost, departure.classes)?;
    raise_events(table, cost, departure.misses, amounts)?;
    Ok(())
}

/// Raises the amounts of groups to the greatest rises of an edge's cost from some vectors.
pub(crate) fn raise_vectors(
    table: &mut Table,
    work: &mut Work,
    departure: &Departure,
    family: &[Vector],
    amounts: &mut [u64],
) -> Result<(), NoMemory>
    requires node { let s = departure.now.site in IsNode s.unfolded.now s.machine.now s.node }
    requires departure { let d = departure.now in
        IsDeparture d.site.unfolded.now d.site.node d.block.now d.classes.now d.misses.now (length amounts.old) }
    requires small { (place : ℕ) (v : VectorOf) → slice_get family.now place ≡ Some v → AreWithin (10 ^ 18) v.slots }
    requires right { let s = departure.now.site in IsRight table.old s.unfolded.now s.machine.now work.old }
    ensures raises { let d = departure.now in OnOk result (Raises
        (IsEarly (IsFamilyRise d.site.machine.now d.block.now d.classes.now d.taken d.misses.now family.now)
        (length family.now)) amounts.old amounts.new) }
    ensures right { let s = departure.now.site in
        OnOk result (IsRight table.new s.unfolded.now s.machine.now work.new) }
    ensures kept { Keeps table.old table.new }
{
    for place in 0..family.len() {
        raise_vector(table, work, departure, &family[place], amounts)?;
    }
    Ok(())
}
