ghost use Rattle.std.specs.Prelude.{◌≡◌, ◌+◌, ◌<◌, ◌^◌, if◌then◌else◌};
ghost use Rattle.cert_items.specs.Order.{is_node, is_listed, is_multiplier};

use crate::item::Item;

/// How many lines of some kinds there were.
#[derive(Clone, Copy, Debug)]
pub(crate) struct Counts {
    /// Nodes.
    pub nodes: usize,
    /// Vectors of version 2.
    pub listed: usize,
    /// Multipliers.
    pub multipliers: usize,
}

/// The counts with one line more.
pub(crate) fn counted_with(counts: Counts, item: &Item) -> Counts
    requires nodes { counts.nodes < 2 ^ 63 }
    requires listed { counts.listed < 2 ^ 63 }
    requires multipliers { counts.multipliers < 2 ^ 63 }
    ensures nodes { result.nodes ≡ counts.nodes + (if is_node item.now then 1 else 0) }
    ensures listed { result.listed ≡ counts.listed + (if is_listed item.now then 1 else 0) }
    ensures multipliers { result.multipliers ≡ counts.multipliers + (if is_multiplier item.now then 1 else 0) }
{
    let Counts {
        nodes,
        listed,
        multipliers,
    } = counts;
    match item {
        Item::Node { .. } | Item::Places { .. } => Counts {
            nodes: nodes + 1,
            ..counts
        },
        Item::Listed { .. } => Counts {
            listed: listed + 1,
            ..counts
        },
        Item::Multiplier { .. } => Counts {
            multipliers: multipliers + 1,
            ..counts
        },
        _ => counts,
    }
}
