ghost use Rattle.std.specs.Prelude.{◌≡◌, ◌<◌, length, IfOk, OnOk};
ghost use Rattle.graph_loops.specs.Graph.{lists_of, AreVertices, IsGraph};

use crate::lists::{list_at, vertex_at};
use std::alloc::Global;
use wx_base::NoMemory;

/// Numbers for the vertices, which rise along each edge if the graph has no cycle: each vertex is numbered once all
/// that lead to it are. The others keep the greatest number.
///
/// Linear in the vertices and edges.
pub(crate) fn in_order(alloc: Global, lists: &[Vec<usize>]) -> Result<Vec<usize>, NoMemory>
    requires { IsGraph (lists_of lists.now) }
{
    let mut waiting = counts(alloc, lists)?;
    let mut queue = free(alloc, waiting.as_slice())?;
    let mut numbers = vec![in alloc; usize::MAX; lists.len()]?;
    for i in 0..usize::MAX {
        let Some(v) = vertex_at(queue.as_slice(), i) else {
            break;
        };
        numbers[v] = i;
        release(&mut waiting, &mut queue, list_at(lists, v))?;
    }
    Ok(numbers)
}

/// How many edges lead to each vertex.
fn counts(alloc: Global, lists: &[Vec<usize>]) -> Result<Vec<usize>, NoMemory>
    requires { IsGraph (lists_of lists.now) }
    ensures { IfOk result (λ counts. length counts.items ≡ length lists.now) }
{
    let mut counts = vec![in alloc; 0; lists.len()]?;
    for v in 0..lists.len() {
        count(&mut counts, list_at(lists, v));
    }
    Ok(counts)
}

/// Counts each target.
fn count(counts: &mut Vec<usize>, targets: &[usize])
    requires { AreVertices (length counts.old.items) targets.now }
    ensures { length counts.new.items ≡ length counts.old.items }
{
    for u in targets {
        counts[*u] = counts[*u].saturating_add(1);
    }
}

/// The vertices that wait for none.
fn free(alloc: Global, waiting: &[usize]) -> Result<Vec<usize>, NoMemory>
    ensures { IfOk result (λ free. AreVertices (length waiting.now) free.items) }
{
    let mut free = Vec::new(alloc);
    for (v, count) in waiting.iter().enumerate() {
        if *count == 0 {
            free.push(v)?;
        }
    }
    Ok(free)
}

/// Lets each target wait for one edge fewer. Those that wait for none then are queued.
fn release(
    waiting: &mut Vec<usize>,
    queue: &mut Vec<usize>,
    targets: &[usize],
) -> Result<(), NoMemory>
    requires targets { AreVertices (length waiting.old.items) targets.now }
    requires queue { AreVertices (length waiting.old.items) queue.old.items }
    ensures count { OnOk result (length waiting.new.items ≡ length waiting.old.items) }
    ensures queue { OnOk result (AreVertices (length waiting.new.items) queue.new.items) }
{
    for u in targets {
        if waiting[*u] == 1 {
            queue.push(*u)?;
        }
        waiting[*u] = waiting[*u].saturating_sub(1);
    }
    Ok(())
}
