//! What the misses in a node's block are charged.

ghost use Rattle.std.specs.Prelude.{◌≡◌, ◌<◌, List, length, slice_get, Some, IfOk};
ghost use Rattle.cache_class.specs.declared.class.Class.{Class as ClassOf};
ghost use Rattle.xdd_table.specs.Diagram.{Keeps};
ghost use Rattle.cert_check.specs.Judging.{AreChargesOf, HasCharges, IsSite, IsSubject};

use crate::subject::{Subject, classes_at};
use cert_judge::{charged, misses_are_charged};
use cert_prices::event_charges;
use flow_ctx::nodes_have_blocks;
use pipe_block::blocks_are_timed;
use std::alloc::Global;
use wx_text::NoMemory;
use xdd_table::{Dd, Table};

/// What a miss of each event of a node's block is charged, in cycles.
fn charges_at(alloc: Global, subject: &Subject, node: u32) -> Result<Vec<u64>, NoMemory>
    requires subject { let s = subject.now in
        IsSubject s.unfolded.now s.machine.now s.classes.now s.certificate.now }
    requires charges { HasCharges subject.now.charges.now subject.now.certificate.now.charges }
    requires node { node < length subject.now.unfolded.now.nodes }
    ensures { let s = subject.now in (kinds : List ClassOf) → slice_get s.classes.now.slots node ≡ Some kinds
        → IfOk result (λ charges.
        AreChargesOf s.unfolded.now s.classes.now s.certificate.now node kinds charges.items) }
{
    nodes_have_blocks();
    blocks_are_timed();
    misses_are_charged();
    let events = subject.unfolded.block(node).slots.as_slice();
    event_charges(
        alloc,
        subject.charges,
        events,
        classes_at(subject.classes, node),
    )
}

/// What the misses of a node's block are charged, in cycles, as a diagram over the block's events.
pub(crate) fn charged_at(table: &mut Table, subject: &Subject, node: u32) -> Result<Dd, NoMemory>
    requires subject { let s = subject.now in
        IsSubject s.unfolded.now s.machine.now s.classes.now s.certificate.now }
    requires charges { HasCharges subject.now.charges.now subject.now.certificate.now.charges }
    requires node { node < length subject.now.unfolded.now.nodes }
    ensures site { let s = subject.now in (kinds : List ClassOf) → slice_get s.classes.now.slots node ≡ Some kinds
        → IfOk result (IsSite table.new s.unfolded.now s.classes.now s.certificate.now node kinds) }
    ensures kept { Keeps table.old table.new }
{
    let classes = classes_at(subject.classes, node);
    let charges = charges_at(table.allocator(), subject, node)?;
    charged(table, classes, charges.as_slice())
}
