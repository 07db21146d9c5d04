ghost use Rattle.std.specs.Prelude.{◌≡◌, ◌<◌, ◌≤◌, ℕ, length, slice_index, min, max};
ghost use Rattle.std.specs.Bool.{Decides};
ghost use Rattle.wx_base.specs.Facts.{AreAscending};
ghost use Rattle.cache_ages.specs.Bounds.{beside, aged_as, is_one_of};

use wx_base::Shape;

/// A line that is accessed, and below which age its rivals become older.
#[derive(Clone, Copy)]
pub(crate) struct Accessed {
    /// The line's number.
    pub line: u32,
    /// Lines of its set that are younger than this age by one.
    pub below: u8,
}

/// The age of a line after an access.
fn aged(shape: Shape, accessed: Accessed, line: u32, age: u8) -> u8
    requires { 0 < shape.sets }
    ensures { result ≡ aged_as shape accessed.line accessed.below line age }
{
    if line == accessed.line {
        0
    } else if age < accessed.below && line % shape.sets == accessed.line % shape.sets {
        age + 1
    } else {
        age
    }
}

/// Accesses the line: its age is 0, and its younger rivals are older by one. Linear in the lines.
pub(crate) fn access(shape: Shape, lines: &[u32], ages: &mut [u8], accessed: Accessed)
    requires sets { 0 < shape.sets }
    requires each { length ages.old ≡ length lines.now }
    ensures each { length ages.new ≡ length lines.now }
    ensures aged { (k : ℕ) → k < length lines.now → slice_index ages.new k
        ≡ aged_as shape accessed.line accessed.below (slice_index lines.now k) (slice_index ages.old k) }
{
    for (i, line) in lines.iter().enumerate() {
        ages[i] = aged(shape, accessed, *line, ages[i]);
    }
}

/// The age that stands beside a line, or `outside` where the line is not listed. Logarithmic in the lines.
pub(crate) fn age_of(lines: &[u32], ages: &[u8], line: u32, outside: u8) -> u8
    requires ascending { AreAscending lines.now }
    requires each { length ages.now ≡ length lines.now }
    ensures { result ≡ beside outside lines.now ages.now line }
{
    match lines.binary_search(&line) {
        Ok(at) => ages[at],
        Err(_) => outside,
    }
}

/// Whether the line is listed. Logarithmic in the lines.
pub(crate) fn has(lines: &[u32], line: u32) -> bool
    requires { AreAscending lines.now }
    ensures { result ≡ is_one_of lines.now line }
{
    match lines.binary_search(&line) {
        Ok(_) => true,
        Err(_) => false,
    }
}

/// Raises each age to that of the second list where that is greater.
pub(crate) fn raise(ages: &mut [u8], others: &[u8])
    requires { length ages.old ≡ length others.now }
    ensures each { length ages.new ≡ length others.now }
    ensures greater { (k : ℕ) → k < length others.now → slice_index ages.new k
        ≡ max (slice_index ages.old k) (slice_index others.now k) }
{
    for (i, other) in others.iter().enumerate() {
        ages[i] = ages[i].max(*other);
    }
}

/// Lowers each age to that of the second list where that is less.
pub(crate) fn lower(ages: &mut [u8], others: &[u8])
    requires { length ages.old ≡ length others.now }
    ensures each { length ages.new ≡ length others.now }
    ensures less { (k : ℕ) → k < length others.now → slice_index ages.new k
        ≡ min (slice_index ages.old k) (slice_index others.now k) }
{
    for (i, other) in others.iter().enumerate() {
        ages[i] = ages[i].min(*other);
    }
}

/// Whether no age of the first list is above that of the second.
pub(crate) fn are_below(ages: &[u8], others: &[u8]) -> bool
    requires { length ages.now ≡ length others.now }
    ensures { Decides result ((k : ℕ) → k < length others.now → slice_index ages.now k ≤ slice_index others.now k) }
{
    for (i, other) in others.iter().enumerate() {
        if ages[i] > *other {
            return false;
        }
    }
    true
}
