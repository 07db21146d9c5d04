ghost use Rattle.std.specs.Prelude.{◌<◌, ◌⊎◌, length};
ghost use Rattle.xdd_table.specs.Diagram.{IsTable};
ghost use Rattle.xdd_ops.specs.Cofactors.{BeginsFrom, HasRoot, IsCofactors, IsExpansion, IsSplitOf};

use xdd_table::{Dd, Node, Table};

/// Two diagrams taken apart at the first event of either.
#[derive(Drop)]
pub struct Split {
    /// The two diagrams.
    pub pair: (Dd, Dd),
    /// The event.
    pub event: u32,
    /// The two where it hits.
    pub hits: (Dd, Dd),
    /// The two where it misses.
    pub misses: (Dd, Dd),
}

/// How two diagrams are taken apart.
#[derive(Drop)]
pub enum Expansion {
    /// Both are leaves, with these times.
    Leaves(u64, u64),
    /// One of them has an event.
    Branches(Split),
}

/// The diagram where the event hits and where it misses, if it reads no event before that one.
pub fn cofactors(table: &Table, d: Dd, event: u32) -> (Dd, Dd)
    requires within { d.place < length table.now }
    requires from { BeginsFrom table.now event d.place }
    ensures { IsCofactors table.now d.place event result.0.place result.1.place }
{
    match table.node(d) {
        Node::Branch {
            event: root,
            hit,
            miss,
        } if root == event => (hit, miss),
        _ => (d, d),
    }
}

/// Takes two diagrams apart at the first event of either.
pub fn expand(table: &Table, pair: (Dd, Dd)) -> Expansion
    requires first { pair.0.place < length table.now }
    requires second { pair.1.place < length table.now }
    ensures parts { IsExpansion table.now pair result }
    ensures table { IsTable table.now }
{
    match (table.node(pair.0), table.node(pair.1)) {
        (Node::Leaf { time: t }, Node::Leaf { time: u }) => Expansion::Leaves(t, u),
        (Node::Leaf { .. }, Node::Branch { event, .. }) => Expansion::Branches(take_apart(
            table, pair, event,
        )),
        (Node::Branch { event, .. }, Node::Leaf { .. }) => Expansion::Branches(take_apart(
            table, pair, event,
        )),
        (Node::Branch { event: e, .. }, Node::Branch { event: g, .. }) => {
            Expansion::Branches(take_apart(table, pair, e.min(g)))
        }
    }
}

fn take_apart(table: &Table, pair: (Dd, Dd), event: u32) -> Split
    requires first { pair.0.place < length table.now }
    requires second { pair.1.place < length table.now }
    requires first_from { BeginsFrom table.now event pair.0.place }
    requires second_from { BeginsFrom table.now event pair.1.place }
    requires root { HasRoot table.now event pair.0.place ⊎ HasRoot table.now event pair.1.place }
    ensures { IsSplitOf table.now pair result }
{
    let (a_hit, a_miss) = cofactors(table, pair.0, event);
    let (b_hit, b_miss) = cofactors(table, pair.1, event);
    Split {
        pair,
        event,
        hits: (a_hit, b_hit),
        misses: (a_miss, b_miss),
    }
}
