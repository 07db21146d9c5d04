ghost use Rattle.std.specs.Prelude.{◌≡◌, ◌<◌, ℕ, List, [], length, slice_get, Some, true, nat_eq, OnOk, IfOk, IfSome};
ghost use Rattle.std.specs.Prelude.{IfNone, EachIndex, slice_index, false};
ghost use Rattle.std.specs.List.{position};
ghost use Rattle.xdd_table.specs.Order.{has, Finishes, ListsBelow, IsSize, LeadsTo};
ghost use Rattle.xdd_table.specs.Diagram.{Combination, time};

use crate::node::{Dd, Node};
use crate::table::Table;
use indexmap::IndexSet;
use std::marker::Model;
use wx_text::NoMemory;

/// The places below a diagram and its own, each once: a walk goes to the hit branch first, and a place comes when it is
/// finished.
///
/// So both branches of a node come before it, and the diagram's root comes last.
#[derive(Drop)]
pub struct Order {
    places: IndexSet<usize>,
}

impl Model for Order {
    ghost Value = { List ℕ };

    ghost view = { λ o. o.places.keys };
}

impl Order {
    /// The places, in their order.
    pub fn places(&self) -> &[usize]
        ensures { result.now ≡ self.now }
    {
        self.places.as_slice()
    }

    /// The position of the diagram's root in the order.
    pub fn position(&self, d: Dd) -> Option<usize>
        ensures value { result ≡ position (nat_eq d.place) self.now }
        ensures found { IfSome result (λ i. slice_get self.now i ≡ Some d.place) }
        ensures missing { IfNone result (has self.now d.place ≡ false) }
    {
        self.places.get_index_of(&d.place)
    }
}

impl Table {
    /// The places below the diagram and its own, as a walk finishes them.
    pub fn order(&self, d: Dd) -> Result<Order, NoMemory>
        requires { d.place < length self.now }
        ensures walk { IfOk result (λ o. Finishes self.now d.place [] o) }
        ensures below { IfOk result (λ o. ListsBelow self.now d.place o) }
        ensures within { IfOk result (λ o. EachIndex o (λ k. slice_index o k < length self.now)) }
        ensures leaves { IfOk result (λ o. (f : Combination) → LeadsTo self.now f d.place o) }
        ensures led { IfOk result (λ o. (q t : ℕ) → has o q ≡ true → slice_get self.now q ≡ Some (Node.Leaf t)
            → (f : Combination) × (time self.now f d.place ≡ t)) }
    {
        let _nodes = &self.nodes;
        let mut places = IndexSet::new(self.allocator());
        finish(self, d, &mut places)?;
        Ok(Order { places })
    }

    /// The number of nodes below the diagram, its root among them.
    pub fn size(&self, d: Dd) -> Result<usize, NoMemory>
        requires { d.place < length self.now }
        ensures { IfOk result (IsSize self.now d.place) }
    {
        let order = self.order(d)?;
        Ok(order.places().len())
    }
}

/// Walks from a diagram, and adds each place that it finishes.
fn finish(table: &Table, d: Dd, done: &mut IndexSet<usize>) -> Result<(), NoMemory>
    requires { d.place < length table.now }
    ensures { OnOk result (Finishes table.now d.place done.old.keys done.new.keys) }
{
    if done.contains(&d.place) {
        return Ok(());
    }
    if let Node::Branch { hit, miss, .. } = table.node(d) {
        finish(table, hit, done)?;
        finish(table, miss, done)?;
    }
    done.insert(d.place)?;
    Ok(())
}
