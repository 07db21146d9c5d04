ghost use Rattle.std.specs.Prelude.{◌≡◌, ◌<◌, ◌≤◌, ◌-◌, Bool, false, not, ◌==◌, length, filter, take, slice_index, nat_eq, MatchOption, All};
ghost use Rattle.std.specs.Bool.{Decides};
ghost use Rattle.std.specs.List.{list_any, IsDistinct};
ghost use Rattle.std.specs.Vec.{vec_len, vec_capacity};
ghost use Rattle.wx_base.specs.Cache.{IsSet, set_of, touched};

use wx_base::Shape;

/// Whether no line stands twice.
fn are_different(lines: &[u32]) -> bool
    ensures { Decides result (IsDistinct nat_eq lines.now) }
{
    for (i, line) in lines.iter().enumerate() {
        if lines[..i].contains(line) {
            return false;
        }
    }
    true
}

/// Whether each line is one of the set.
fn are_own(shape: Shape, set: usize, lines: &[u32]) -> bool
    requires { 0 < shape.sets }
    ensures { Decides result (All (λ line. set_of shape line ≡ set) lines.now) }
{
    for line in lines {
        if (*line % shape.sets) as usize != set {
            return false;
        }
    }
    true
}

/// Whether the list is one of the set: different lines of this set, no more than there are ways.
pub(crate) fn is_set(shape: Shape, set: usize, lines: &[u32]) -> bool
    requires { 0 < shape.sets }
    ensures { Decides result (IsSet shape set lines.now) }
{
    lines.len() <= shape.ways as usize && are_different(lines) && are_own(shape, set, lines)
}

/// Where the line stands in the list.
fn place_of(lines: &[u32], line: u32) -> Option<usize>
    ensures { MatchOption result (list_any (λ other. other == line) lines.now
        ≡ false) (λ place. (place < length lines.now) × (slice_index lines.now place ≡ line)) }
{
    for (i, other) in lines.iter().enumerate() {
        if *other == line {
            return Some(i);
        }
    }
    None
}

/// Takes the line out of its set, or the last line if the set is full without it; says whether it was missing.
fn make_place(list: &mut Vec<u32>, ways: u32, line: u32) -> bool
    requires some_way { 0 < ways }
    requires fits { length list.old.items ≤ ways }
    requires different { IsDistinct nat_eq list.old.items }
    ensures missed { result ≡ not (list_any (λ other. other == line) list.old.items) }
    ensures lines { list.new.items ≡ take (ways - 1) (filter (λ other. not (other == line)) list.old.items) }
    ensures room { vec_capacity list.new ≡ vec_capacity list.old }
{
    match place_of(list.as_slice(), line) {
        Some(place) => {
            list.remove(place);
            false
        }
        None => {
            list.truncate(ways as usize - 1);
            true
        }
    }
}

/// Makes the line the youngest of its set; says whether it was missing. Linear in the ways.
pub(crate) fn touch(list: &mut Vec<u32>, ways: u32, line: u32) -> bool
    requires some_way { 0 < ways }
    requires fits { length list.old.items ≤ ways }
    requires different { IsDistinct nat_eq list.old.items }
    requires room { ways ≤ vec_capacity list.old }
    ensures missed { result ≡ not (list_any (λ other. other == line) list.old.items) }
    ensures lines { list.new.items ≡ touched ways list.old.items line }
    ensures room { ways ≤ vec_capacity list.new }
{
    let missed = make_place(list, ways, line);
    // A place is free, so this is never refused.
    let _ = list.insert(0, line);
    missed
}
