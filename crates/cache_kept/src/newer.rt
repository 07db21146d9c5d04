//! What accesses add to what is held for a line.

ghost use Rattle.std.specs.Prelude.{◌≡◌, ◌≤◌, ◌⊎◌, ◌↔◌, ◌||◌, ℕ, nat_eq, [], ◌∷◌, drop, length, Contains, OnOk};
ghost use Rattle.std.specs.List.{filter, IsDistinct};
ghost use Rattle.wx_base.specs.CacheStates.{is_rival};
ghost use Rattle.wx_base.specs.Machine.{IsShape};
ghost use Rattle.cache_ages.specs.Bounds.{is_one_of};
ghost use Rattle.cache_kept.specs.Newer.{newer, since};

use wx_base::Shape;
use wx_text::NoMemory;

/// Whether two lines share a set and are not one.
fn is_rival(shape: Shape, a: u32, b: u32) -> bool
    requires { IsShape shape }
    ensures { result ≡ is_rival shape a b }
{
    a % shape.sets == b % shape.sets && a != b
}

/// The accesses behind the last one to a line; all of them, where there is none.
fn since(accesses: &[u32], line: u32) -> &[u32]
    ensures { result.now ≡ since line accesses.now }
{
    &accesses[start_of(accesses, line)..]
}

/// The place behind the last access to a line, from which on `since` has them all.
fn start_of(accesses: &[u32], line: u32) -> usize
    ensures within { result ≤ length accesses.now }
    ensures is { drop result accesses.now ≡ since line accesses.now }
{
    for i in 0..accesses.len() {
        let left = accesses.len() - i;
        if accesses[left - 1] == line {
            return left;
        }
    }
    0
}

/// Adds a line, if it is a rival and not there.
fn add_rival(found: &mut Vec<u32>, shape: Shape, line: u32, other: u32) -> Result<(), NoMemory>
    requires shape { IsShape shape }
    requires distinct { IsDistinct nat_eq found.old.items }
    ensures distinct { OnOk result (IsDistinct nat_eq found.new.items) }
    ensures exact { OnOk result ((rival : ℕ) → Contains found.new.items rival
        ↔ (Contains found.old.items rival ⊎ Contains (filter (is_rival shape line) (other ∷ [])) rival)) }
{
    if !is_rival(shape, line, other) {
        return Ok(());
    }
    if found.contains(&other) {
        return Ok(());
    }
    found.push(other)?;
    Ok(())
}

/// Adds those of some lines that are rivals, each once.
fn add_rivals(found: &mut Vec<u32>, shape: Shape, line: u32, others: &[u32]) -> Result<(), NoMemory>
    requires shape { IsShape shape }
    requires distinct { IsDistinct nat_eq found.old.items }
    ensures distinct { OnOk result (IsDistinct nat_eq found.new.items) }
    ensures exact { OnOk result ((rival : ℕ) → Contains found.new.items rival
        ↔ (Contains found.old.items rival ⊎ Contains (filter (is_rival shape line) others.now) rival)) }
{
    for other in others {
        add_rival(found, shape, line, *other)?;
    }
    Ok(())
}

/// Adds the rivals of a line that came since it was accessed, if it is known before the accesses or accessed by them.
pub(crate) fn add_newer(
    found: &mut Vec<u32>,
    shape: Shape,
    line: u32,
    known: bool,
    accesses: &[u32],
) -> Result<(), NoMemory>
    requires shape { IsShape shape }
    requires distinct { IsDistinct nat_eq found.old.items }
    ensures distinct { OnOk result (IsDistinct nat_eq found.new.items) }
    ensures exact { OnOk result ((rival : ℕ) → Contains found.new.items rival
        ↔ (Contains found.old.items rival ⊎ Contains (newer shape line known accesses.now) rival)) }
{
    if !is_known(known, line, accesses) {
        return Ok(());
    }
    add_rivals(found, shape, line, since(accesses, line))?;
    Ok(())
}

/// Whether a line is known behind accesses.
fn is_known(known: bool, line: u32, accesses: &[u32]) -> bool
    ensures { result ≡ (known || is_one_of accesses.now line) }
{
    known || accesses.contains(&line)
}
