//! A search backwards from an access to a line.

ghost use Rattle.std.specs.Prelude.{◌≡◌, ◌<◌, ◌≤◌, nat_eq, length, Contains, IfOk, OnOk};
ghost use Rattle.std.specs.List.{IsDistinct};
ghost use Rattle.wx_base.specs.Machine.{IsShape};
ghost use Rattle.cache_flow.specs.Flows.{accesses_of};
ghost use Rattle.cache_kept.specs.Search.{IsLook, IsOver, IsStep};
ghost use Rattle.cache_kept.specs.Walk.{AreMarked};

use crate::look::Look;
use crate::newer::add_newer;
use crate::walk::{come_to_all, node_at};
use std::alloc::Global;
use wx_text::NoMemory;

/// What a search has so far.
#[derive(Drop)]
struct Trail {
    /// The rivals of the line that it met, each once.
    found: Vec<u32>,
    /// The nodes that it came to from behind, in the order in which it came to them.
    queue: Vec<u32>,
    /// These as marks.
    marks: Vec<bool>,
}

/// Goes back over some accesses of a node, the last first: notes the rivals that came since the line was accessed, and
/// comes to the sources of the moves to the node unless the line is accessed here.
fn go_back(look: &Look, trail: &mut Trail, node: u32, accesses: &[u32]) -> Result<(), NoMemory>
    requires shape { IsShape look.now.shape }
    requires look { IsLook look.now }
    requires node { node < length look.now.flow.now.nodes }
    requires member { Contains look.now.members.now node }
    requires distinct { IsDistinct nat_eq trail.old.found.items }
    requires marked { AreMarked trail.old.marks.items trail.old.queue.items }
    requires long { length trail.old.marks.items ≡ length look.now.flow.now.nodes }
    ensures distinct { OnOk result (IsDistinct nat_eq trail.new.found.items) }
    ensures marked { OnOk result (AreMarked trail.new.marks.items trail.new.queue.items) }
    ensures long { OnOk result (length trail.new.marks.items ≡ length look.now.flow.now.nodes) }
    ensures step { OnOk result (IsStep look.now node accesses.now trail.old.found.items trail.old.queue.items
        trail.new.found.items trail.new.queue.items) }
{
    let known = look.known[node as usize];
    add_newer(&mut trail.found, look.shape, look.line, known, accesses)?;
    if accesses.contains(&look.line) {
        return Ok(());
    }
    let sources = look.sources[node as usize].as_slice();
    come_to_all(&mut trail.marks, &mut trail.queue, look.inside, sources)?;
    Ok(())
}

/// The rivals of the line that are held for it at an access of a node: all, if they are fewer than there are ways.
pub(crate) fn search(
    alloc: Global,
    look: &Look,
    node: u32,
    place: usize,
) -> Result<Vec<u32>, NoMemory>
    requires shape { IsShape look.now.shape }
    requires look { IsLook look.now }
    requires node { node < length look.now.flow.now.nodes }
    requires member { Contains look.now.members.now node }
    requires place { place ≤ length (accesses_of look.now.flow.now node) }
    ensures { IfOk result (λ found. IsOver look.now node place found.items) }
{
    let accesses = look.flow.nodes.as_slice()[node as usize].as_slice();
    let mut trail = Trail {
        found: Vec::new(alloc),
        queue: Vec::new(alloc),
        marks: vec![in alloc; false; look.flow.nodes.len()]?,
    };
    go_back(look, &mut trail, node, &accesses[..place])?;
    for i in 0..usize::MAX {
        if trail.found.len() >= look.shape.ways as usize {
            break;
        }
        let Some(source) = node_at(trail.queue.as_slice(), i) else {
            break;
        };
        let accesses = look.flow.nodes.as_slice()[source as usize].as_slice();
        go_back(look, &mut trail, source, accesses)?;
    }
    Ok(trail.found)
}
