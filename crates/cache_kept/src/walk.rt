//! Walks over the nodes of a part of a flow.

ghost use Rattle.std.specs.Prelude.{◌≡◌, ◌<◌, ◌≤◌, ℕ, [], ◌∷◌, length, slice_index, IfOk, MatchOption, OnOk};
ghost use Rattle.cache_kept.specs.Ways.{list_at};
ghost use Rattle.cache_kept.specs.Walk.{AreMarked, AreNodes, CameTo, AreSpread};

use std::alloc::Global;
use wx_text::NoMemory;

/// Comes to a node, unless it is outside the part or come to before.
fn come_to(
    marks: &mut Vec<bool>,
    queue: &mut Vec<u32>,
    inside: &[bool],
    node: u32,
) -> Result<(), NoMemory>
    requires node { node < length marks.old.items }
    requires long { length inside.now ≡ length marks.old.items }
    requires marked { AreMarked marks.old.items queue.old.items }
    ensures count { OnOk result (length marks.new.items ≡ length marks.old.items) }
    ensures marked { OnOk result (AreMarked marks.new.items queue.new.items) }
    ensures came { OnOk result (CameTo queue.old.items queue.new.items inside.now (node ∷ [])) }
{
    let at = node as usize;
    if !inside[at] {
        return Ok(());
    }
    if marks[at] {
        return Ok(());
    }
    queue.push(node)?;
    marks[at] = true;
    Ok(())
}

/// Comes to each of some nodes.
pub(crate) fn come_to_all(
    marks: &mut Vec<bool>,
    queue: &mut Vec<u32>,
    inside: &[bool],
    nodes: &[u32],
) -> Result<(), NoMemory>
    requires nodes { AreNodes (length marks.old.items) nodes.now }
    requires long { length inside.now ≡ length marks.old.items }
    requires marked { AreMarked marks.old.items queue.old.items }
    ensures count { OnOk result (length marks.new.items ≡ length marks.old.items) }
    ensures marked { OnOk result (AreMarked marks.new.items queue.new.items) }
    ensures came { OnOk result (CameTo queue.old.items queue.new.items inside.now nodes.now) }
{
    for node in nodes {
        come_to(marks, queue, inside, *node)?;
    }
    Ok(())
}

/// The nodes of a part, as marks, to which lists lead from some roots. A root is come to if it is in the part.
pub(crate) fn spread(
    alloc: Global,
    lists: &[Vec<u32>],
    inside: &[bool],
    roots: &[u32],
) -> Result<Vec<bool>, NoMemory>
    requires long { length inside.now ≡ length lists.now }
    requires lists { (node : ℕ) → AreNodes (length lists.now) (list_at lists.now node) }
    requires roots { AreNodes (length lists.now) roots.now }
    ensures { IfOk result (λ marks. AreSpread lists.now inside.now roots.now marks.items) }
{
    let mut marks = vec![in alloc; false; lists.len()]?;
    let mut queue = Vec::new(alloc);
    come_to_all(&mut marks, &mut queue, inside, roots)?;
    for i in 0..usize::MAX {
        let Some(node) = node_at(queue.as_slice(), i) else {
            break;
        };
        come_to_all(
            &mut marks,
            &mut queue,
            inside,
            lists[node as usize].as_slice(),
        )?;
    }
    Ok(marks)
}

/// The node at a place of the queue, if one stands there.
pub(crate) fn node_at(queue: &[u32], i: usize) -> Option<u32>
    ensures { MatchOption result (length queue.now ≤ i)
        (λ node. (i < length queue.now) × (node ≡ slice_index queue.now i)) }
{
    queue.get(i).copied()
}
