//! Chains of what numbers point to: whether one of them is closed.
ghost use Rattle.std.specs.Prelude.{◌≡◌, ℕ, ◌<◌, false, length, replicate, slice_index, IfOk, MatchOption};
ghost use Rattle.std.specs.List.{All};
ghost use Rattle.path_problem.specs.Net.{link_at};
ghost use Rattle.path_problem.specs.Chain.{ArePointers, HasRanks, IsChain, IsClosed, IsEndPart, IsTrail, Leaves};
ghost use Rattle.path_problem.specs.Chain.{CanRank, IsRanking, KeepsRanks};

use crate::net::Link;
use std::alloc::Global;
use wx_text::NoMemory;

/// The links along which one goes on from a number, and where one comes to.
#[derive(Drop)]
struct Trail {
    first: usize,
    links: Vec<usize>,
    end: usize,
}

/// A closed chain of what numbers point to, as numbers of links, if there is one. Linear in the numbers.
pub(crate) fn closed_chain(
    alloc: Global,
    links: &[Link],
    next: &[Option<usize>],
) -> Result<Option<Vec<usize>>, NoMemory>
    requires { ArePointers links.now next.now }
    ensures { IfOk result (λ chain. MatchOption chain (HasRanks links.now next.now)
        (λ walk. IsClosed links.now next.now walk.items)) }
{
    let mut marks = vec![in alloc; false; next.len()]?;
    let mut ranks = vec![in alloc; 0usize; next.len()]?;
    find_closed(
        alloc,
        links,
        next,
        marks.as_mut_slice(),
        ranks.as_mut_slice(),
    )
}

/// Gives ranks to all numbers, trail by trail, or finds a closed chain. Nothing has a mark or a rank at first.
fn find_closed(
    alloc: Global,
    links: &[Link],
    next: &[Option<usize>],
    marks: &mut [bool],
    ranks: &mut [usize],
) -> Result<Option<Vec<usize>>, NoMemory>
    requires pointers { ArePointers links.now next.now }
    requires marks { marks.old ≡ replicate (length next.now) false }
    requires ranks { ranks.old ≡ replicate (length next.now) 0 }
    ensures { IfOk result (λ chain. MatchOption chain (HasRanks links.now next.now)
        (λ walk. IsClosed links.now next.now walk.items)) }
{
    let mut count = 0;
    for first in 0..next.len() {
        let trail = trail_from(alloc, links, next, marks, first)?;
        let end = trail.end;
        if ranks[end] == 0 && next[end].is_some() {
            return Ok(Some(closed_part(alloc, links, &trail)?));
        }
        count = rank(links, next, ranks, count, end);
        count = rank_back(links, next, ranks, count, trail);
    }
    Ok(None)
}

/// Goes on from a number along what is pointed to, up to one that points nowhere or has a mark, and marks all on the
/// way.
fn trail_from(
    alloc: Global,
    links: &[Link],
    next: &[Option<usize>],
    marks: &mut [bool],
    first: usize,
) -> Result<Trail, NoMemory>
    requires pointers { ArePointers links.now next.now }
    requires marks { length marks.old ≡ length next.now }
    requires first { first < length next.now }
    ensures first { IfOk result (λ trail. trail.first ≡ first) }
    ensures trail { IfOk result
        (λ trail. IsTrail links.now next.now trail.first marks.old marks.new trail.links.items trail.end) }
{
    let mut trail = Vec::new(alloc);
    let mut end = first;
    'steps: while !marks[end] {
        marks[end] = true;
        match next[end] {
            Some(link) => {
                trail.push(link)?;
                end = links[link].to;
            }
            None => break,
        }
    }
    Ok(Trail {
        first,
        links: trail,
        end,
    })
}

/// The part of a trail from its end back to its end.
fn closed_part(alloc: Global, links: &[Link], trail: &Trail) -> Result<Vec<usize>, NoMemory>
    requires links { All (λ i. i < length links.now) trail.now.links.items }
    requires leaves { Leaves links.now trail.now.links.items trail.now.end }
    ensures { IfOk result (λ walk. IsEndPart links.now trail.now.links.items trail.now.end walk.items) }
{
    let mut place = 0;
    for (at, link) in trail.links.iter().enumerate() {
        if links[*link].from == trail.end {
            place = at;
            break;
        }
    }
    Ok(Vec::from_slice(alloc, &trail.links.as_slice()[place..])?)
}

/// Gives a number the next rank, unless it has one. The answer is how many have a rank then.
fn rank(
    links: &[Link],
    next: &[Option<usize>],
    ranks: &mut [usize],
    count: usize,
    number: usize,
) -> usize
    requires pointers { ArePointers links.now next.now }
    requires ranking { IsRanking links.now next.now ranks.old count }
    requires number { number < length next.now }
    requires can { slice_index ranks.old number ≡ 0 → CanRank links.now next.now ranks.old number }
    ensures ranking { IsRanking links.now next.now ranks.new result }
    ensures ranked { 0 < slice_index ranks.new number }
    ensures keeps { KeepsRanks ranks.old ranks.new }
{
    if ranks[number] == 0 {
        ranks[number] = count + 1;
        count + 1
    } else {
        count
    }
}

/// Gives ranks to what the links of a trail leave, the last first.
fn rank_back(
    links: &[Link],
    next: &[Option<usize>],
    ranks: &mut [usize],
    count: usize,
    trail: Trail,
) -> usize
    requires pointers { ArePointers links.now next.now }
    requires ranking { IsRanking links.now next.now ranks.old count }
    requires first { trail.first < length next.now }
    requires chain { IsChain links.now next.now trail.first trail.links.items trail.end }
    requires ranked { 0 < slice_index ranks.old trail.end }
    ensures ranking { IsRanking links.now next.now ranks.new result }
    ensures keeps { KeepsRanks ranks.old ranks.new }
    ensures all { (u : ℕ) → Leaves links.now trail.links.items u → 0 < slice_index ranks.new u }
{
    let mut walk = trail.links;
    let mut count = count;
    'steps: while let Some(link) = walk.pop() {
        count = rank(links, next, ranks, count, source_of(links, link));
    }
    count
}

/// What a link leaves.
fn source_of(links: &[Link], number: usize) -> usize
    requires { number < length links.now }
    ensures { result ≡ (link_at links.now number).from }
{
    links[number].from
}
