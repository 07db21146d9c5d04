ghost use Rattle.std.specs.Prelude.{◌≡◌, ℕ, ◌<◌, ◌≤◌, ◌⊎◌, length, slice_get, slice_index, Some, EachIndex, IfOk};
ghost use Rattle.xdd_table.specs.Diagram.{Combination, time};

use wx_text::NoMemory;
use xdd_table::{Dd, Node, Table};

/// The greatest time of the diagram, in cycles.
pub fn greatest(table: &Table, d: Dd) -> Result<u64, NoMemory>
    requires { d.place < length table.now }
    ensures bound { IfOk result (λ n. (f : Combination) → time table.now f d.place ≤ n) }
    ensures attained { IfOk result (λ n. (f : Combination) × (n ≡ time table.now f d.place)) }
{
    let order = table.order(d)?;
    Ok(greatest_leaf(table, order.places()))
}

/// The greatest time of the leaves among the places, 0 where none is a leaf.
fn greatest_leaf(table: &Table, places: &[usize]) -> u64
    requires { EachIndex places.now (λ k. slice_index places.now k < length table.now) }
    ensures bound { (k t : ℕ) → k < length places.now → slice_get table.now (slice_index places.now k) ≡ Some
        (Node.Leaf t) → t ≤ result }
    ensures attained { (result ≡ 0) ⊎ ((k : ℕ) × (k < length places.now)
        × (slice_get table.now (slice_index places.now k) ≡ Some (Node.Leaf result))) }
{
    let mut greatest = 0;
    for place in places {
        if let Node::Leaf { time } = table.node(Dd { place: *place }) {
            greatest = greatest.max(time);
        }
    }
    greatest
}
