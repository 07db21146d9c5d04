ghost use Rattle.std.specs.Prelude.{◌≡◌, ℕ, ◌<◌, ◌^◌, List, [], ◌++◌, codes, length, IfOk, IfErr, IfSome, IfNone};
ghost use Rattle.std.specs.Prelude.{IsSome};
ghost use Rattle.std.specs.Fmt.{decimal};
ghost use Rattle.wx_text.specs.Cursor.{rest, leading_digits};
ghost use Rattle.xdd_table.specs.Diagram.{BeginsAfter};
ghost use Rattle.xdd_ops.specs.Read.{line_text, lines_text, count_line, IsLineAt, AreLines, HasLines};
ghost use Rattle.xdd_ops.specs.Refusal.{BeginsWithLine, IsLineRefusal, IsCountedRefusal};

use crate::diagram_error::DiagramError;
use std::alloc::Global;
use wx_text::Cursor;
use xdd_table::{Dd, Node};

/// The lines of a text, whose places are the numbers of lines.
///
/// `Syntax` tells where the first line that is none begins or should begin, or where bytes behind the last do.
pub fn read_lines(alloc: Global, bytes: &[u8]) -> Result<Vec<Node>, DiagramError>
    ensures lines { IfOk result (λ lines. HasLines bytes.now lines.items) }
    ensures refused { IfErr result (λ e. IsLineRefusal bytes.now e) }
{
    let mut cursor = Cursor::new(bytes);
    let Some(count) = read_count(&mut cursor) else {
        return Err(DiagramError::Syntax { at: 0 });
    };
    let lines = read_counted(alloc, &mut cursor, count)?;
    if !cursor.at_end() {
        return Err(DiagramError::Syntax {
            at: cursor.place() as u64,
        });
    }
    Ok(lines)
}

fn read_counted(
    alloc: Global,
    cursor: &mut Cursor<'_>,
    count: u64,
) -> Result<Vec<Node>, DiagramError>
    ensures lines { IfOk result (λ lines. AreLines lines.items) }
    ensures count { IfOk result (λ lines. length lines.items ≡ count) }
    ensures text { IfOk result (λ lines. rest cursor.old ≡ lines_text lines.items ++ rest cursor.new) }
    ensures refused { IfErr result (λ e. IsCountedRefusal cursor.old count e) }
    ensures bytes { cursor.new.bytes ≡ cursor.old.bytes }
{
    let mut lines = Vec::new(alloc);
    for _ in 0..count {
        let at = cursor.place() as u64;
        let Some(line) = read_line(cursor, lines.as_slice()) else {
            return Err(DiagramError::Syntax { at });
        };
        lines.push(line)?;
    }
    Ok(lines)
}

/// The number of lines, at least 1.
fn read_count(cursor: &mut Cursor<'_>) -> Option<u64>
    ensures some { IfSome result (λ n. 0 < n) }
    ensures text { IfSome result (λ n. rest cursor.old ≡ count_line n ++ rest cursor.new) }
    ensures again { (n : ℕ) (tail : List ℕ) → 0 < n → n < 2 ^ 64 → rest cursor.old ≡ count_line n ++ tail
        → (result ≡ Some n) × (rest cursor.new ≡ tail) }
    ensures bytes { cursor.new.bytes ≡ cursor.old.bytes }
{
    if !cursor.expect(b"dd ") {
        return None;
    }
    let count = read_number(cursor)?;
    if count == 0 || !cursor.expect(b"\n") {
        return None;
    }
    Some(count)
}

/// The line that stands here, if it may stand behind `lines`.
fn read_line(cursor: &mut Cursor<'_>, lines: &[Node]) -> Option<Node>
    ensures line { IfSome result (λ x. IsLineAt lines.now (length lines.now) x) }
    ensures text { IfSome result (λ x. rest cursor.old ≡ line_text x ++ rest cursor.new) }
    ensures none { length lines.now < 2 ^ 64 → IfNone result (BeginsWithLine lines.now (rest cursor.old) → ⊥) }
    ensures bytes { cursor.new.bytes ≡ cursor.old.bytes }
{
    if cursor.expect(b"leaf ") {
        return read_leaf(cursor);
    }
    if !cursor.expect(b"branch ") {
        return None;
    }
    let (event, hit, miss) = read_branch(cursor)?;
    let (hit, miss) = (earlier(lines, event, hit)?, earlier(lines, event, miss)?);
    Some(Node::Branch { event, hit, miss })
}

/// What stands behind `leaf `.
fn read_leaf(cursor: &mut Cursor<'_>) -> Option<Node>
    ensures text { IfSome result (λ x. (t : ℕ) × (t < 2 ^ 64) × (x ≡ Node.Leaf t)
        × (rest cursor.old ≡ decimal t ++ codes "\n" ++ rest cursor.new)) }
    ensures again { (t : ℕ) (tail : List ℕ) → t < 2 ^ 64 → rest cursor.old ≡ decimal t ++ codes "\n" ++ tail
        → (result ≡ Some (Node.Leaf t)) × (rest cursor.new ≡ tail) }
    ensures bytes { cursor.new.bytes ≡ cursor.old.bytes }
{
    let time = read_number(cursor)?;
    if !cursor.expect(b"\n") {
        return None;
    }
    Some(Node::Leaf { time })
}

/// The event and the two numbers of lines behind `branch `.
fn read_branch(cursor: &mut Cursor<'_>) -> Option<(u32, u64, u64)>
    ensures text { IfSome result (λ x. rest cursor.old ≡ decimal x.0 ++ codes " " ++ decimal x.1 ++ codes " " ++ decimal
        x.2 ++ codes "\n" ++ rest cursor.new) }
    ensures again { (e h m : ℕ) (tail : List ℕ) → e < 2 ^ 32 → h < 2 ^ 64 → m < 2 ^ 64
        → rest cursor.old ≡ decimal e ++ codes " " ++ decimal h ++ codes " " ++ decimal m ++ codes "\n" ++ tail
        → (result ≡ Some (e, h, m)) × (rest cursor.new ≡ tail) }
    ensures bytes { cursor.new.bytes ≡ cursor.old.bytes }
{
    let event = u32::try_from(read_number(cursor)?).ok()?;
    if !cursor.expect(b" ") {
        return None;
    }
    let hit = read_number(cursor)?;
    if !cursor.expect(b" ") {
        return None;
    }
    let miss = read_number(cursor)?;
    if !cursor.expect(b"\n") {
        return None;
    }
    Some((event, hit, miss))
}

/// The number of an earlier line whose diagram begins after the event.
fn earlier(lines: &[Node], event: u32, number: u64) -> Option<Dd>
    ensures number { IfSome result (λ d. d.place ≡ number) }
    ensures within { IfSome result (λ d. d.place < length lines.now) }
    ensures after { IfSome result (λ d. BeginsAfter lines.now event d.place) }
    ensures found { number < length lines.now → BeginsAfter lines.now event number → IsSome result }
{
    let place = number as usize;
    match lines.get(place)? {
        Node::Branch { event: root, .. } if *root <= event => None,
        _ => Some(Dd { place }),
    }
}

/// A number in its shortest spelling.
fn read_number(cursor: &mut Cursor<'_>) -> Option<u64>
    ensures text { IfSome result (λ n. rest cursor.old ≡ decimal n ++ rest cursor.new) }
    ensures again { (n : ℕ) (tail : List ℕ) → n < 2 ^ 64 → leading_digits tail ≡ []
        → rest cursor.old ≡ decimal n ++ tail → (result ≡ Some n) × (rest cursor.new ≡ tail) }
    ensures bytes { cursor.new.bytes ≡ cursor.old.bytes }
{
    if cursor.expect(b"0") {
        return Some(0);
    }
    cursor.number()
}
