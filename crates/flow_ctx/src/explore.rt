//! The nodes that are reached.

ghost use Rattle.std.specs.Prelude.{◌≡◌, ◌≤◌, ◌⊎◌, length, IfOk, IfErr, OnOk};
ghost use Rattle.flow_ctx.specs.declared.error.UnfoldError.TheVariants as refusal;
ghost use Rattle.flow_ctx.specs.Found.{AreDifferent, AreFoundIn, IsGrown, nodes_of};
ghost use Rattle.flow_ctx.specs.Targets.{IsInOrder};
ghost use Rattle.flow_ctx.specs.Unfolding.{HasTooManyNodes, most_nodes};

use crate::error::UnfoldError;
use crate::leading::targets_of;
use crate::place::Place;
use crate::search::place_at;
use crate::target::Target;
use flow_graph::Program;
use indexmap::IndexSet;
use std::alloc::Global;
use wx_base::NoMemory;

/// The greatest number of nodes.
pub(crate) const MOST_NODES: usize = 4_096;

/// Adds those of some targets that are not yet known to be reached.
fn add(mut targets: Vec<Target>, places: &mut IndexSet<Place>) -> Result<(), NoMemory>
    ensures { OnOk result (IsGrown targets.items places.old.keys places.new.keys) }
{
    while let Some(target) = targets.pop() {
        places.insert(target.place)?;
    }
    Ok(())
}

/// The nodes that are reached, in the order in which they are found.
pub(crate) fn explore(alloc: Global, program: &Program) -> Result<IndexSet<Place>, UnfoldError>
    requires { IsInOrder program.now }
    ensures found { IfOk result (λ places. AreFoundIn program.now (nodes_of places.keys)) }
    ensures few { IfOk result (λ places. length places.keys ≤ most_nodes) }
    ensures refused { IfErr result (λ e. (e ≡ refusal.NoMemory)
        ⊎ ((e ≡ refusal.TooManyNodes) × HasTooManyNodes program.now)) }
{
    let mut places = IndexSet::new(alloc);
    let start = place_at(program, Vec::new(alloc), program.start).unwrap();
    places.insert(start)?;
    for i in 0..MOST_NODES {
        let Some(place) = places.get_index(i) else {
            break;
        };
        let targets = targets_of(alloc, program, place)?;
        add(targets, &mut places)?;
        if places.len() > MOST_NODES {
            return Err(UnfoldError::TooManyNodes);
        }
    }
    Ok(places)
}
