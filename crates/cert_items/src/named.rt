//! Which places the lines of a text name.

ghost use Rattle.std.specs.Prelude.{◌≡◌, ℕ, ◌<◌, ◌||◌, false, length, map, slice_index_or, IfOk};
ghost use Rattle.std.specs.List.{list_any};
ghost use Rattle.cert_lines.specs.Reading.{line_of, lines_of};
ghost use Rattle.cert_items.specs.Order.{seconds, names_in, writes, is_named};

use cert_lines::{Kind, Row};
use std::alloc::Global;
use wx_text::{Cursor, NoMemory};

/// Marks the place that the digits write, leading zeros or not.
fn mark(marks: &mut [bool], word: &[u8])
    ensures length { length marks.new ≡ length marks.old }
    ensures marks { (j : ℕ) → j < length marks.old → slice_index_or marks.new j false
        ≡ (slice_index_or marks.old j false || writes j word.now) }
{
    let mut cursor = Cursor::new(word);
    let Some(place) = cursor.number() else {
        return;
    };
    if place < marks.len() as u64 {
        marks[place as usize] = true;
    }
}

/// Marks the places of pairs.
fn mark_pairs(marks: &mut [bool], words: &[&[u8]])
    ensures length { length marks.new ≡ length marks.old }
    ensures marks { (j : ℕ) → j < length marks.old → slice_index_or marks.new j false
        ≡ (slice_index_or marks.old j false || list_any (writes j) (seconds (map (λ w. w.now) words.now))) }
{
    for at in 0..words.len() / 2 {
        mark(marks, words[2 * at + 1]);
    }
}

/// Marks the places that a line names.
fn mark_line(marks: &mut [bool], row: &Row<'_>)
    ensures length { length marks.new ≡ length marks.old }
    ensures marks { (j : ℕ) → j < length marks.old → slice_index_or marks.new j false
        ≡ (slice_index_or marks.old j false || list_any (writes j) (names_in (line_of row.now))) }
{
    if matches!(row.kind, Kind::Places) && row.words.len() > 2 {
        mark_pairs(marks, &row.words.as_slice()[2..]);
    }
}

/// For each number up to that of the lines whether a line names it as a place.
pub(crate) fn named_places(alloc: Global, rows: &[Row<'_>]) -> Result<Vec<bool>, NoMemory>
    ensures length { IfOk result (λ marks. length marks.items ≡ length rows.now) }
    ensures marks { IfOk result (λ marks. (j : ℕ) → j < length rows.now → slice_index_or marks.items j false
        ≡ is_named (lines_of rows.now) j) }
{
    let mut marks = vec![in alloc; false; rows.len()]?;
    for row in rows {
        mark_line(marks.as_mut_slice(), row);
    }
    Ok(marks)
}
