ghost use Rattle.std.specs.Prelude.{◌≡◌, ◌<◌, ◌==◌, ◌||◌, ℕ, Bool, true, false, List, [], length, map, count_by, slice_index, slice_index_or, All, MatchOption, IfOk, replicate};
ghost use Rattle.std.specs.Bool.{Decides};
ghost use Rattle.wx_base.specs.Facts.{AreAscending};
ghost use Rattle.cache_ages.specs.Bounds.{is_one_of};
ghost use Rattle.cache_pers.specs.Stays.{noted, is_set_at, is_set_in};
ghost use Rattle.cache_pers.specs.Rows.{rows_of};

use std::alloc::Global;
use wx_base::{NoMemory, Shape};

/// An access to a line of the list.
#[derive(Clone, Copy)]
pub(crate) struct Access {
    /// The shape of the cache.
    pub shape: Shape,
    /// The line's number.
    pub line: u32,
    /// The line's place in the list.
    pub at: usize,
}

/// Where a line stands in an ascending list. Logarithmic in the lines.
pub(crate) fn place_of(lines: &[u32], line: u32) -> Option<usize>
    requires { AreAscending lines.now }
    ensures { MatchOption result (is_one_of lines.now line
        ≡ false) (λ at. (at < length lines.now) × (slice_index lines.now at ≡ line)) }
{
    match lines.binary_search(&line) {
        Ok(at) => Some(at),
        Err(_) => None,
    }
}

/// As many rows as there are lines, each with `false` for each line.
pub(crate) fn make_rows(alloc: Global, lines: usize) -> Result<Vec<Vec<bool>>, NoMemory>
    ensures { IfOk result (λ rows. rows_of rows.items ≡ replicate lines (replicate lines false)) }
{
    let mut rows = Vec::new(alloc);
    for _row in 0..lines {
        let row = vec![in alloc; false; lines]?;
        rows.push(row)?;
    }
    Ok(rows)
}

/// The same rows once more.
pub(crate) fn copy_rows(alloc: Global, rows: &[Vec<bool>]) -> Result<Vec<Vec<bool>>, NoMemory>
    ensures { IfOk result (λ copy. rows_of copy.items ≡ rows_of rows.now) }
{
    let mut copy = Vec::with_capacity(alloc, rows.len())?;
    for row in rows {
        copy.push(Vec::from_slice(alloc, row.as_slice())?)?;
    }
    Ok(copy)
}

/// Marks the accessed line as known.
pub(crate) fn mark(known: &mut [bool], access: Access)
    requires { access.at < length known.old }
    ensures { (k : ℕ) → is_set_at known.new k ≡ ((k == access.at) || is_set_at known.old k) }
{
    known[access.at] = true;
}

/// Clears each entry.
pub(crate) fn clear(entries: &mut [bool])
    ensures { (k : ℕ) → is_set_at entries.new k ≡ false }
{
    for entry in entries.iter_mut() {
        *entry = false;
    }
}

/// Sets each entry that the other list has set.
pub(crate) fn unite(entries: &mut [bool], others: &[bool])
    requires { length entries.old ≡ length others.now }
    ensures { (k : ℕ) → is_set_at entries.new k ≡ (is_set_at entries.old k || is_set_at others.now k) }
{
    for (k, other) in others.iter().enumerate() {
        entries[k] = entries[k] || *other;
    }
}

/// Whether the other list has set each entry that this one has.
pub(crate) fn is_within(entries: &[bool], others: &[bool]) -> bool
    requires { length entries.now ≡ length others.now }
    ensures { Decides result ((k : ℕ) → is_set_at entries.now k ≡ true → is_set_at others.now k ≡ true) }
{
    for (k, entry) in entries.iter().enumerate() {
        if *entry && !others[k] {
            return false;
        }
    }
    true
}

/// How many entries are set.
pub(crate) fn count(entries: &[bool]) -> usize
    ensures { result ≡ count_by (λ entry. entry) entries.now }
{
    entries.iter().filter(|entry| **entry).count()
}

/// Notes an access in the row of one line: its own access clears it, and that of another line of its set is held.
fn note(row: &mut Vec<bool>, access: Access, line: u32, known: bool)
    requires sets { 0 < access.shape.sets }
    requires place { access.at < length row.old.items }
    ensures same { length row.new.items ≡ length row.old.items }
    ensures each { (k : ℕ) → is_set_at row.new.items k
        ≡ noted access.shape line known access.line (k == access.at) (is_set_at row.old.items k) }
{
    let sets = access.shape.sets;
    if line == access.line {
        clear(row.as_mut_slice());
    } else if known && line % sets == access.line % sets {
        row[access.at] = true;
    }
}

/// Notes an access in the row of each line.
pub(crate) fn note_each(access: Access, lines: &[u32], known: &[bool], rows: &mut [Vec<bool>])
    requires sets { 0 < access.shape.sets }
    requires place { access.at < length lines.now }
    requires known { length known.now ≡ length lines.now }
    requires rows { length rows.old ≡ length lines.now }
    requires square { All (λ row. length row ≡ length lines.now) (rows_of rows.old) }
    ensures rows { length rows.new ≡ length lines.now }
    ensures square { All (λ row. length row ≡ length lines.now) (rows_of rows.new) }
    ensures each { (i k : ℕ) → i < length lines.now → is_set_in (rows_of rows.new) i k
        ≡ noted access.shape (slice_index lines.now i) (is_set_at known.now i) access.line (k == access.at)
        (is_set_in (rows_of rows.old) i k) }
{
    for (i, line) in lines.iter().enumerate() {
        note(&mut rows[i], access, *line, known[i]);
    }
}

/// Sets each entry of a row that the other row has set.
fn unite_row(row: &mut Vec<bool>, other: &[bool])
    requires { length row.old.items ≡ length other.now }
    ensures same { length row.new.items ≡ length row.old.items }
    ensures each { (k : ℕ) → is_set_at row.new.items k ≡ (is_set_at row.old.items k || is_set_at other.now k) }
{
    unite(row.as_mut_slice(), other);
}

/// Sets each entry that the other rows have set.
pub(crate) fn unite_each(rows: &mut [Vec<bool>], others: &[Vec<bool>])
    requires rows { length rows.old ≡ length others.now }
    requires square { All (λ row. length row ≡ length others.now) (rows_of rows.old) }
    requires other_square { All (λ row. length row ≡ length others.now) (rows_of others.now) }
    ensures rows { length rows.new ≡ length others.now }
    ensures square { All (λ row. length row ≡ length others.now) (rows_of rows.new) }
    ensures each { (i k : ℕ) → i < length others.now → is_set_in (rows_of rows.new) i k
        ≡ (is_set_in (rows_of rows.old) i k || is_set_in (rows_of others.now) i k) }
{
    for (i, other) in others.iter().enumerate() {
        unite_row(&mut rows[i], other.as_slice());
    }
}

/// Clears the entries of a row.
fn clear_row(row: &mut Vec<bool>)
    ensures same { length row.new.items ≡ length row.old.items }
    ensures each { (k : ℕ) → is_set_at row.new.items k ≡ false }
{
    clear(row.as_mut_slice());
}

/// Clears all entries of all rows.
pub(crate) fn clear_each(rows: &mut [Vec<bool>])
    requires { All (λ row. length row ≡ length rows.old) (rows_of rows.old) }
    ensures square { All (λ row. length row ≡ length rows.old) (rows_of rows.new) }
    ensures each { (i k : ℕ) → is_set_in (rows_of rows.new) i k ≡ false }
{
    for i in 0..rows.len() {
        clear_row(&mut rows[i]);
    }
}

/// Whether each entry that is set in a known row is set in the other row of that place, which is known too.
pub(crate) fn are_covered(
    known: &[bool],
    rows: &[Vec<bool>],
    other_known: &[bool],
    others: &[Vec<bool>],
) -> bool
    requires known { length known.now ≡ length rows.now }
    requires other_known { length other_known.now ≡ length rows.now }
    requires others { length others.now ≡ length rows.now }
    requires square { All (λ row. length row ≡ length rows.now) (rows_of rows.now) }
    requires other_square { All (λ row. length row ≡ length rows.now) (rows_of others.now) }
    ensures { Decides result ((i : ℕ) → i < length rows.now → is_set_at known.now i ≡ true
        → (is_set_at other_known.now i ≡ true)
        × ((k : ℕ) → is_set_in (rows_of rows.now) i k ≡ true → is_set_in (rows_of others.now) i k ≡ true)) }
{
    for (i, row) in rows.iter().enumerate() {
        if known[i] && !(other_known[i] && is_within(row.as_slice(), others[i].as_slice())) {
            return false;
        }
    }
    true
}
