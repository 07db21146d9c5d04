ghost use Rattle.std.specs.Prelude.{◌≡◌, ℕ, ◌<◌, List, ◌++◌, length, slice_get, slice_index, EachIndex, OnOk, OnErr};
ghost use Rattle.std.specs.Prelude.{IfOk, IfSome};
ghost use Rattle.xdd_table.specs.Diagram.{IsTable};
ghost use Rattle.xdd_ops.specs.Text.{leaf_line, branch_line, line_at, lines_of, FitsNode, IsTextOf};

use wx_text::{NoMemory, push_number};
use xdd_table::{Dd, Node, Order, Table};

/// Appends the diagram's text: `dd N` and N lines, each `leaf T` or `branch E H M`.
///
/// E is an event, T a time in cycles, H and M are the numbers, from 0, of the earlier lines of the branches where E
/// hits and misses. The lines are the nodes as a walk finishes them that goes to the hit branch first and to each node
/// once.
pub fn print_diagram(out: &mut Vec<u8>, table: &Table, d: Dd) -> Result<(), NoMemory>
    requires { d.place < length table.now }
    ensures written { OnOk result ((text : List ℕ) × IsTextOf table.now d.place text
        × (out.new.items ≡ out.old.items ++ text)) }
    ensures kept { OnErr result (out.new.items ≡ out.old.items) }
{
    let text = text_of(table, d)?;
    out.extend_from_slice(text.as_slice())?;
    Ok(())
}

/// The diagram's text.
fn text_of(table: &Table, d: Dd) -> Result<Vec<u8>, NoMemory>
    requires { d.place < length table.now }
    ensures { IfOk result (λ text. IsTextOf table.now d.place text.items) }
{
    let order = table.order(d)?;
    let mut text = Vec::from_slice(table.allocator(), b"dd ")?;
    push_number(&mut text, order.places().len() as i128)?;
    text.extend_from_slice(b"\n")?;
    push_lines(&mut text, table, &order)?;
    Ok(text)
}

fn push_lines(text: &mut Vec<u8>, table: &Table, order: &Order) -> Result<(), NoMemory>
    requires { EachIndex order.now (λ k. slice_index order.now k < length table.now) }
    ensures lines { OnOk result (text.new.items ≡ text.old.items ++ lines_of table.now order.now order.now) }
    ensures table { OnOk result (0 < length order.now → IsTable table.now) }
    ensures fit { OnOk result ((i : ℕ) → i < length order.now
        → IfSome (slice_get table.now (slice_index order.now i)) FitsNode) }
{
    for place in order.places() {
        push_line(text, table, order, Dd { place: *place })?;
    }
    Ok(())
}

fn push_line(text: &mut Vec<u8>, table: &Table, order: &Order, d: Dd) -> Result<(), NoMemory>
    requires { d.place < length table.now }
    ensures line { OnOk result (text.new.items ≡ text.old.items ++ line_at order.now (slice_get table.now d.place)) }
    ensures table { IsTable table.now }
    ensures fits { IfSome (slice_get table.now d.place) FitsNode }
{
    match table.node(d) {
        Node::Leaf { time } => push_leaf(text, time),
        Node::Branch { event, hit, miss } => {
            let hit = order.position(hit).unwrap_or(0);
            let miss = order.position(miss).unwrap_or(0);
            push_branch(text, event, hit, miss)
        }
    }
}

fn push_leaf(text: &mut Vec<u8>, time: u64) -> Result<(), NoMemory>
    ensures { OnOk result (text.new.items ≡ text.old.items ++ leaf_line time) }
{
    text.extend_from_slice(b"leaf ")?;
    push_number(text, i128::from(time))?;
    text.extend_from_slice(b"\n")?;
    Ok(())
}

fn push_branch(text: &mut Vec<u8>, event: u32, hit: usize, miss: usize) -> Result<(), NoMemory>
    ensures { OnOk result (text.new.items ≡ text.old.items ++ branch_line event hit miss) }
{
    text.extend_from_slice(b"branch ")?;
    push_number(text, i128::from(event))?;
    text.extend_from_slice(b" ")?;
    push_number(text, hit as i128)?;
    text.extend_from_slice(b" ")?;
    push_number(text, miss as i128)?;
    text.extend_from_slice(b"\n")?;
    Ok(())
}
