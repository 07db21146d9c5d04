//! What a node's block hands on from a vector, worked out once for the block and the vector.

ghost use Rattle.std.specs.Prelude.{◌≡◌, ◌<◌, length, IfOk};
ghost use Rattle.wx_base.specs.Machine.{IsMachine};
ghost use Rattle.flow_ctx.specs.Laws.{IsUnfoldedOn};
ghost use Rattle.xdd_table.specs.Diagram.{Keeps};
ghost use Rattle.node_exits.specs.NodeExits.{IsAnswer, IsRight};
ghost use Rattle.cert_rules.specs.Rules.{IsSmallVector};
ghost use Rattle.cert_check.specs.Places.{IsFinish};

use crate::subject::Subject;
use cert_text::CertVector;
use flow_ctx::Edge;
use node_exits::{Work, finish_of, leave_from};
use pipe_block::Site;
use wx_text::NoMemory;
use xdd_table::{Dd, Table};

/// The finish of a node's block from a vector.
pub(crate) fn finish_from(
    table: &mut Table,
    work: &mut Work,
    subject: &Subject,
    node: u32,
    v: &CertVector,
) -> Result<Dd, NoMemory>
    requires small { IsSmallVector v.now }
    requires node { node < length subject.now.unfolded.now.nodes }
    requires unfolded { IsUnfoldedOn subject.now.machine.now subject.now.unfolded.now }
    requires machine { IsMachine subject.now.machine.now }
    requires right { let s = subject.now in IsRight table.old s.unfolded.now s.machine.now work.old }
    ensures finish { let s = subject.now in
        IfOk result (IsFinish table.new s.unfolded.now s.machine.now node v.now) }
    ensures right { let s = subject.now in IsRight table.new s.unfolded.now s.machine.now work.new }
    ensures kept { Keeps table.old table.new }
{
    let site = Site {
        unfolded: subject.unfolded,
        node,
        machine: subject.machine,
    };
    let place = work.place_of(&v.slots)?;
    finish_of(table, work, &site, place)
}

/// What the block of an edge's source hands on along the edge from a vector: the number of the answer.
pub(crate) fn leave_along(
    table: &mut Table,
    work: &mut Work,
    subject: &Subject,
    edge: &Edge,
    v: &CertVector,
) -> Result<usize, NoMemory>
    requires small { IsSmallVector v.now }
    requires node { edge.now.from < length subject.now.unfolded.now.nodes }
    requires unfolded { IsUnfoldedOn subject.now.machine.now subject.now.unfolded.now }
    requires machine { IsMachine subject.now.machine.now }
    requires right { let s = subject.now in IsRight table.old s.unfolded.now s.machine.now work.old }
    ensures answer { let s = subject.now in let e = edge.now in
        IfOk result (IsAnswer table.new s.unfolded.now s.machine.now e.from v.now.slots e.taken work.new) }
    ensures right { let s = subject.now in IsRight table.new s.unfolded.now s.machine.now work.new }
    ensures kept { Keeps table.old table.new }
{
    let site = Site {
        unfolded: subject.unfolded,
        node: edge.from,
        machine: subject.machine,
    };
    let place = work.place_of(&v.slots)?;
    leave_from(table, work, &site, place, edge.taken)
}
