ghost use Rattle.std.specs.Prelude.{◌≡◌, ◌≢◌, ℕ, ◌<◌, length, slice_get, IfOk, IfErr, IfSome, IfNone};
ghost use Rattle.xdd_table.specs.Diagram.{Keeps, IsTable};
ghost use Rattle.xdd_ops.specs.Text.{IsTextOf};
ghost use Rattle.xdd_ops.specs.Read.{AreLines, ArePlaced, CanPlace, IsPlaceOf};
ghost use Rattle.xdd_ops.specs.Refusal.{IsRefusal, IsPlaceRefusal, AreReduced, IsDiagramText, IsReadAs, IsRefusedFor};

use crate::diagram_error::DiagramError;
use crate::lines::read_lines;
use indexmap::IndexSet;
use wx_text::NoMemory;
use xdd_table::{Dd, Node, Table};

/// The diagram whose text the bytes are, as `print_diagram` writes it. What was printed of a place of the table is read
/// as it.
///
/// `Syntax` where they are not `dd N` and N lines, then `NotReduced` where a line repeats an earlier one or has one
/// branch twice, then `Order` where a line is not the one that the walk finishes there, each at the first such place.
/// The nodes of lines that were read stay in the table.
pub fn read_diagram(table: &mut Table, bytes: &[u8]) -> Result<Dd, DiagramError>
    ensures read { IfOk result (λ d. IsTextOf table.new d.place bytes.now) }
    ensures within { IfOk result (λ d. d.place < length table.new) }
    ensures grammar { IfOk result (λ d. IsDiagramText bytes.now) }
    ensures taken { IsDiagramText bytes.now → IfErr result (λ e. e ≡ DiagramError.NoMemory) }
    ensures again { (p : ℕ) → IsTextOf table.old p bytes.now → IsReadAs result p }
    ensures refused { IfErr result (λ e. IsRefusal bytes.now e) }
    ensures due { (e : DiagramError) → IsRefusal bytes.now e → e ≢ DiagramError.NoMemory → IsRefusedFor result e }
    ensures kept { Keeps table.old table.new }
{
    let lines = read_lines(table.allocator(), bytes)?;
    let places = place_lines(table, lines.as_slice())?;
    let places = places.as_slice();
    let root = Dd {
        place: places[places.len() - 1],
    };
    let order = table.order(root)?;
    if let Some(index) = first_other(places, order.places()) {
        return Err(DiagramError::Order {
            line: index as u64 + 2,
        });
    }
    Ok(root)
}

/// The places of the lines in the table, in their order.
fn place_lines(table: &mut Table, lines: &[Node]) -> Result<IndexSet<usize>, DiagramError>
    requires { AreLines lines.now }
    ensures placed { IfOk result (λ places. ArePlaced table.new lines.now places.keys) }
    ensures count { IfOk result (λ places. length places.keys ≡ length lines.now) }
    ensures reduced { IfOk result (λ places. AreReduced lines.now) }
    ensures table { IfOk result (λ places. 0 < length lines.now → IsTable table.new) }
    ensures refused { IfErr result (λ e. IsPlaceRefusal lines.now e) }
    ensures kept { Keeps table.old table.new }
{
    let mut places = IndexSet::new(table.allocator());
    for (index, line) in lines.iter().enumerate() {
        let d = place_line(table, *line, places.as_slice())?;
        let (position, _) = places.insert_full(d.place)?;
        if position != index {
            return Err(DiagramError::NotReduced {
                line: index as u64 + 2,
            });
        }
    }
    Ok(places)
}

/// The place of a line in the table, where the earlier lines stand at `places`.
fn place_line(table: &mut Table, line: Node, places: &[usize]) -> Result<Dd, NoMemory>
    requires { CanPlace table.old places.now line }
    ensures place { IfOk result (λ d. IsPlaceOf table.new places.now line d.place) }
    ensures within { IfOk result (λ d. d.place < length table.new) }
    ensures kept { Keeps table.old table.new }
    ensures table { IsTable table.new }
{
    match line {
        Node::Leaf { time } => table.leaf(time),
        Node::Branch { event, hit, miss } => {
            let hit = Dd {
                place: places[hit.place],
            };
            let miss = Dd {
                place: places[miss.place],
            };
            table.branch(event, hit, miss)
        }
    }
}

/// The first position of `wanted` where `found` does not have the same place.
fn first_other(wanted: &[usize], found: &[usize]) -> Option<usize>
    ensures other { IfSome result (λ i. slice_get found.now i ≢ slice_get wanted.now i) }
    ensures first { IfSome result (λ i. (k : ℕ) → k < i → slice_get found.now k ≡ slice_get wanted.now k) }
    ensures within { IfSome result (λ i. i < length wanted.now) }
    ensures same { IfNone result ((k : ℕ) → k < length wanted.now → slice_get found.now k ≡ slice_get wanted.now k) }
{
    for (index, place) in wanted.iter().enumerate() {
        if found.get(index).copied() != Some(*place) {
            return Some(index);
        }
    }
    None
}
