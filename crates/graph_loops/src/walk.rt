ghost use Rattle.std.specs.Prelude.{◌≡◌, ◌<◌, ◌≤◌, List, [], ◌∷◌, length, option_to_list};
ghost use Rattle.std.specs.Prelude.{Contains, Decides, IfOk, OnOk};
ghost use Rattle.graph_loops.specs.Graph.{lists_of, AreReached, AreVertices, IsGraph};
ghost use Rattle.graph_loops.specs.Walk.{AreMarked, CameTo};

use crate::lists::{list_at, vertex_at};
use std::alloc::Global;
use wx_base::NoMemory;

/// The vertices, as marks, to which a path without the one avoided leads from some of the roots.
///
/// Linear in the vertices and edges.
pub(crate) fn walk(
    alloc: Global,
    lists: &[Vec<usize>],
    roots: &[usize],
    avoided: Option<usize>,
) -> Result<Vec<bool>, NoMemory>
    requires graph { IsGraph (lists_of lists.now) }
    requires roots { AreVertices (length lists.now) roots.now }
    ensures { IfOk result (λ marks. AreReached (lists_of lists.now) (option_to_list avoided) roots.now marks.items) }
{
    let mut marks = vec![in alloc; false; lists.len()]?;
    let mut queue = Vec::new(alloc);
    come_to_all(&mut marks, &mut queue, roots, avoided)?;
    for i in 0..usize::MAX {
        let Some(v) = vertex_at(queue.as_slice(), i) else {
            break;
        };
        come_to_all(&mut marks, &mut queue, list_at(lists, v), avoided)?;
    }
    Ok(marks)
}

/// Comes to each of some vertices.
fn come_to_all(
    marks: &mut Vec<bool>,
    queue: &mut Vec<usize>,
    vertices: &[usize],
    avoided: Option<usize>,
) -> Result<(), NoMemory>
    requires vertices { AreVertices (length marks.old.items) vertices.now }
    requires marked { AreMarked marks.old.items queue.old.items }
    ensures count { OnOk result (length marks.new.items ≡ length marks.old.items) }
    ensures marked { OnOk result (AreMarked marks.new.items queue.new.items) }
    ensures came { OnOk result (CameTo queue.old.items queue.new.items (option_to_list avoided) vertices.now) }
{
    for v in vertices {
        come_to(marks, queue, *v, avoided)?;
    }
    Ok(())
}

/// Comes to a vertex, unless it is avoided, or come to before.
fn come_to(
    marks: &mut Vec<bool>,
    queue: &mut Vec<usize>,
    v: usize,
    avoided: Option<usize>,
) -> Result<(), NoMemory>
    requires vertex { v < length marks.old.items }
    requires marked { AreMarked marks.old.items queue.old.items }
    ensures count { OnOk result (length marks.new.items ≡ length marks.old.items) }
    ensures marked { OnOk result (AreMarked marks.new.items queue.new.items) }
    ensures came { OnOk result (CameTo queue.old.items queue.new.items (option_to_list avoided) (v ∷ [])) }
{
    if marks[v] || is_avoided(v, avoided) {
        return Ok(());
    }
    queue.push(v)?;
    marks[v] = true;
    Ok(())
}

/// Whether the vertex is the one avoided.
fn is_avoided(v: usize, avoided: Option<usize>) -> bool
    ensures { Decides result (Contains (option_to_list avoided) v) }
{
    match avoided {
        Some(other) => v == other,
        None => false,
    }
}
