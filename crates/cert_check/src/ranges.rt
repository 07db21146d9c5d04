//! The edges of a node among those of an unfolding.

ghost use Rattle.std.specs.Prelude.{AllPairs};
ghost use Rattle.flow_ctx.specs.Order.{IsEdgeBefore};
ghost use Rattle.cert_check.specs.Judging.{IsCut, IsRange};

use flow_ctx::{Edge, Unfolded};

/// The number behind the last edge of a node, where no edge before `first` leaves it.
fn end_of(edges: &[Edge], node: u32, first: usize) -> usize
    requires order { AllPairs IsEdgeBefore edges.now }
    requires cut { IsCut edges.now node first }
    ensures { IsRange edges.now node first result }
{
    for number in first..edges.len() {
        let from = edges[number].from;
        if from != node {
            return number;
        }
    }
    edges.len()
}

/// The number behind the last edge of a node of an unfolding, where no edge before `first` leaves it. Its edges are
/// those from `first` up to there. The time is that of their number.
pub(crate) fn end_of_edges(u: &Unfolded, node: u32, first: usize) -> usize
    requires order { AllPairs IsEdgeBefore u.now.edges }
    requires cut { IsCut u.now.edges node first }
    ensures { IsRange u.now.edges node first result }
{
    end_of(u.edges.as_slice(), node, first)
}
