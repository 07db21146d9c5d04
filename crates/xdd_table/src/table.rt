ghost use Rattle.std.specs.Prelude.{◌≡◌, ◌≢◌, ◌<◌, ◌↔◌, ℕ, Bool, List, [], length, slice_get, Some, IsTrue, IfOk, OnOk};
ghost use Rattle.std.specs.Prelude.{OnErr, if◌then◌else◌};
ghost use Rattle.xdd_table.specs.declared.node.Node.{Node as NodeOf};
ghost use Rattle.xdd_table.specs.Diagram.{Combination, with_event, AgreesWith, time, BeginsAfter, IsNodeAt, IsTable};
ghost use Rattle.xdd_table.specs.Diagram.{Keeps, Holds, Lacks, time_of_node, EventsLess};

use crate::node::{Dd, Node};
use indexmap::IndexSet;
use std::alloc::Global;
use std::marker::Model;
use wx_text::NoMemory;

/// A table of nodes, each stored once. A place is a position of the table, and no call changes the node at a place.
#[derive(Drop)]
pub struct Table {
    pub(crate) nodes: IndexSet<Node>,
}

impl Model for Table {
    ghost Value = { List NodeOf };

    ghost view = { λ t. t.nodes.keys };

    ghost invariant = { λ t. IsTable t.nodes.keys };
}

impl Table {
    /// An empty table.
    pub fn new(alloc: Global) -> Self
        ensures { result ≡ [] }
    {
        Table {
            nodes: IndexSet::new(alloc),
        }
    }

    /// The number of nodes.
    pub fn len(&self) -> usize
        ensures count { result ≡ length self.now }
        ensures table { IsTable self.now }
    {
        self.nodes.len()
    }

    /// The allocator that the table was made with.
    pub fn allocator(&self) -> Global {
        *self.nodes.allocator()
    }

    /// The place of the leaf with this time, in cycles.
    pub fn leaf(&mut self, t: u64) -> Result<Dd, NoMemory>
        ensures place { IfOk result (λ d. Holds self.old self.new (Node.Leaf t) d.place) }
        ensures times { IfOk result (λ d. (f : Combination) → time self.new f d.place ≡ t) }
        ensures within { IfOk result (λ d. d.place < length self.new) }
        ensures after { IfOk result (λ d. (e : ℕ) → BeginsAfter self.new e d.place) }
        ensures events { IfOk result (λ d. (bound : ℕ) → EventsLess self.new d.place bound) }
        ensures kept { Keeps self.old self.new }
        // Memory is wanted for a new node alone.
        ensures absent { OnErr result (Lacks self.old (Node.Leaf t)) }
        ensures unchanged { OnErr result (self.new ≡ self.old) }
        ensures table { IsTable self.new }
    {
        store(&mut self.nodes, Node::Leaf { time: t })
    }

    /// The place of the diagram that is `hit` where the event hits, and `miss` where it misses.
    ///
    /// Where the two are one diagram this is that diagram, and the table stays.
    pub fn branch(&mut self, event: u32, hit: Dd, miss: Dd) -> Result<Dd, NoMemory>
        requires hit_in { hit.place < length self.old }
        requires miss_in { miss.place < length self.old }
        requires hit_after { BeginsAfter self.old event hit.place }
        requires miss_after { BeginsAfter self.old event miss.place }
        ensures alike { IfOk result (λ d. hit.place ≡ miss.place → (d ≡ hit) × (self.new ≡ self.old)) }
        ensures place { IfOk result (λ d. hit.place ≢ miss.place
            → Holds self.old self.new (Node.Branch event hit miss) d.place) }
        ensures times { IfOk result (λ d. (f : Combination)
            → time self.new f d.place ≡ (if f event then time self.old f miss.place else time self.old f hit.place)) }
        ensures within { IfOk result (λ d. d.place < length self.new) }
        ensures after { IfOk result (λ d. (e : ℕ) → e < event → BeginsAfter self.new e d.place) }
        ensures events { IfOk result (λ d. (bound : ℕ) → event < bound → EventsLess self.old hit.place bound
            → EventsLess self.old miss.place bound → EventsLess self.new d.place bound) }
        ensures kept { Keeps self.old self.new }
        // Memory is wanted for a new node alone.
        ensures absent { OnErr result (hit.place ≢ miss.place × Lacks self.old (Node.Branch event hit miss)) }
        ensures unchanged { OnErr result (self.new ≡ self.old) }
        ensures table { IsTable self.new }
    {
        let _nodes = &self.nodes;
        if hit == miss {
            return Ok(hit);
        }
        store(&mut self.nodes, Node::Branch { event, hit, miss })
    }

    /// The node at the diagram's root.
    pub fn node(&self, d: Dd) -> Node
        requires { d.place < length self.now }
        ensures value { slice_get self.now d.place ≡ Some result }
        ensures shape { IsNodeAt self.now d.place result }
        ensures times { (f : Combination) → time self.now f d.place ≡ time_of_node self.now f result }
        ensures unread { (f : Combination) (e : ℕ) (b : Bool) → BeginsAfter self.now e d.place
            → time self.now (with_event f e b) d.place ≡ time self.now f d.place }
        ensures table { IsTable self.now }
    {
        self.nodes.as_slice()[d.place]
    }

    /// Whether the diagram is a leaf, or the event at its root comes after `event`.
    pub fn begins_after(&self, event: u32, d: Dd) -> bool
        requires { d.place < length self.now }
        ensures { IsTrue result ↔ BeginsAfter self.now event d.place }
    {
        match self.node(d) {
            Node::Leaf { .. } => true,
            Node::Branch { event: root, .. } => event < root,
        }
    }

    /// Whether the two diagrams are one: exactly if they have the same time at every combination.
    pub fn same(&self, a: Dd, b: Dd) -> bool
        requires first { a.place < length self.now }
        requires second { b.place < length self.now }
        ensures value { IsTrue result ↔ (a.place ≡ b.place) }
        ensures canonical { ((f : Combination) → time self.now f a.place ≡ time self.now f b.place)
            → a.place ≡ b.place }
    {
        let _nodes = &self.nodes;
        a == b
    }

    /// The diagram's time at a combination, in cycles. `true` is a miss, and `combo` is longer than every event below
    /// `d`.
    pub fn time(&self, d: Dd, combo: &[bool]) -> u64
        requires within { d.place < length self.now }
        requires events { EventsLess self.now d.place (length combo.now) }
        ensures { (f : Combination) → AgreesWith combo.now f → result ≡ time self.now f d.place }
    {
        let mut at = d;
        loop {
            match self.node(at) {
                Node::Leaf { time } => return time,
                Node::Branch { event, hit, miss } => {
                    at = if combo[event as usize] { miss } else { hit };
                }
            }
        }
    }
}

/// The place of the node, which is added last if the table lacks it.
fn store(nodes: &mut IndexSet<Node>, node: Node) -> Result<Dd, NoMemory>
    requires table { IsTable nodes.old.keys }
    requires shape { IsNodeAt nodes.old.keys (length nodes.old.keys) node }
    ensures place { IfOk result (λ d. Holds nodes.old.keys nodes.new.keys node d.place) }
    ensures times { IfOk result (λ d. (f : Combination)
        → time nodes.new.keys f d.place ≡ time_of_node nodes.old.keys f node) }
    ensures within { IfOk result (λ d. d.place < length nodes.new.keys) }
    ensures kept { Keeps nodes.old.keys nodes.new.keys }
    ensures absent { OnErr result (Lacks nodes.old.keys node) }
    ensures unchanged { OnErr result (nodes.new.keys ≡ nodes.old.keys) }
    ensures table { IsTable nodes.new.keys }
{
    let (place, _) = nodes.insert_full(node)?;
    Ok(Dd { place })
}
