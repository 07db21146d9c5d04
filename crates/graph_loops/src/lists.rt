ghost use Rattle.std.specs.Prelude.{◌≡◌, ◌<◌, ◌≤◌, length, slice_index, MatchOption};
ghost use Rattle.graph_loops.specs.Graph.{lists_of, edges};

/// The list at a place.
pub(crate) fn list_at(lists: &[Vec<usize>], v: usize) -> &[usize]
    requires { v < length lists.now }
    ensures { result.now ≡ edges (lists_of lists.now) v }
{
    lists[v].as_slice()
}

/// The vertex at a place of the queue, if one stands there.
pub(crate) fn vertex_at(queue: &[usize], i: usize) -> Option<usize>
    ensures { MatchOption result (length queue.now ≤ i) (λ v. (i < length queue.now) × (v ≡ slice_index queue.now i)) }
{
    queue.get(i).copied()
}
