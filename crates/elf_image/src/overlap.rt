//! Load headers that fill an address in common.

ghost use Rattle.std.specs.Prelude.{◌≡◌, ◌<◌, ◌≤◌, ◌↔◌, ℕ, IfErr, IfOk, IsTrue, MatchOption, OnOk, length, map};
ghost use Rattle.std.specs.List.{AllAdjacentBelow};
ghost use Rattle.elf_image.specs.Causes.{IsRefusal, IsSoundHeader, Passes};
ghost use Rattle.elf_image.specs.Fields.{file_header, program_header, program_headers};
ghost use Rattle.elf_image.specs.Overlaps.{IsFirstMeeting, IsLeastMeeting, Meet, NoneMeet, NoneMeetsLater, header_in, memory_range};

use crate::error::ElfError;
use crate::fields::{FileHeader, ProgramHeader};
use crate::load::{is_filling, read_program_headers};
use std::alloc::{AllocError, Global};

// The program headers, each of which can be loaded, if it is to be, and of which no two fill an
// address in common.
pub(crate) fn read_apart_headers(
    alloc: Global,
    bytes: &[u8],
    header: &FileHeader,
) -> Result<Vec<ProgramHeader>, ElfError>
    requires header_of { header.now ≡ file_header bytes.now }
    requires before { Passes 6 bytes.now }
    ensures passes { OnOk result (Passes 8 bytes.now) }
    ensures headers { IfOk result (λ v. v.items ≡ program_headers bytes.now) }
    ensures sound { OnOk result ((i : ℕ) → i < (file_header bytes.now).phnum → IsSoundHeader bytes.now i) }
    ensures apart { OnOk result (NoneMeet (program_header bytes.now) (file_header bytes.now).phnum) }
    ensures refused { IfErr result (IsRefusal bytes.now) }
{
    let headers = read_program_headers(alloc, bytes, header)?;
    match find_overlap(alloc, &headers)? {
        None => Ok(headers),
        Some((a, b)) => {
            let (a, b) = (a as u64, b as u64);
            Err(ElfError::Overlap { a, b })
        }
    }
}

// The least pair of load headers that fill an address in common, by the first of them and then by
// the second.
//
// Where no two do, this takes as long as to sort the headers by their addresses. Where two do, each
// header up to the first of the pair is compared with each later one: quadratic in the number of
// headers, which is below 2^16.
fn find_overlap(
    alloc: Global,
    headers: &[ProgramHeader],
) -> Result<Option<(usize, usize)>, AllocError>
    ensures { IfOk result (λ found. MatchOption found
        (NoneMeet (header_in headers.now) (length headers.now))
        (λ p. IsLeastMeeting (header_in headers.now) (length headers.now) p.0 p.1)) }
{
    if lie_apart(alloc, headers)? {
        return Ok(None);
    }
    Ok(least_overlap(headers))
}

// Whether the headers, by their addresses, follow each other: then no two of them meet.
fn lie_apart(alloc: Global, headers: &[ProgramHeader]) -> Result<bool, AllocError>
    ensures { IfOk result (λ r. IsTrue r → NoneMeet (header_in headers.now) (length headers.now)) }
{
    let mut ranges = memory_ranges(alloc, headers)?;
    ranges.sort()?;
    Ok(follow_each_other(&ranges))
}

// The addresses that each header fills, as the first and the one behind the last.
fn memory_ranges(alloc: Global, headers: &[ProgramHeader]) -> Result<Vec<(u64, u64)>, AllocError>
    ensures { IfOk result (λ v. v.items ≡ map memory_range headers.now) }
{
    headers.iter().map(|h| range_of(h)).collect(alloc)
}

// The addresses that a header fills, none at 0 for one that fills nothing.
#[tactic(auto, unfolding(crate::specs::Overlaps::memory_range))]
fn range_of(header: &ProgramHeader) -> (u64, u64)
    ensures { result ≡ memory_range header.now }
{
    if is_filling(header) {
        let first = u64::from(header.vaddr);
        (first, first + u64::from(header.memsz))
    } else {
        (0, 0)
    }
}

// Whether each range ends before the next begins.
fn follow_each_other(ranges: &[(u64, u64)]) -> bool
    ensures { IsTrue result → AllAdjacentBelow (λ r s. r.1 ≤ s.0) ranges.now (length ranges.now) }
{
    for i in 1..ranges.len() {
        if ranges[i].0 < ranges[i - 1].1 {
            return false;
        }
    }
    true
}

// The least pair of headers that meet, by comparing each with each later one.
fn least_overlap(headers: &[ProgramHeader]) -> Option<(usize, usize)>
    ensures { MatchOption result
        (NoneMeet (header_in headers.now) (length headers.now))
        (λ p. IsLeastMeeting (header_in headers.now) (length headers.now) p.0 p.1) }
{
    for a in 0..headers.len() {
        if let Some(b) = first_meeting(headers, a) {
            return Some((a, b));
        }
    }
    None
}

// The first header behind header `a` that meets it.
fn first_meeting(headers: &[ProgramHeader], a: usize) -> Option<usize>
    requires { a < length headers.now }
    ensures { MatchOption result
        (NoneMeetsLater (header_in headers.now) a (length headers.now))
        (λ b. (b < length headers.now) × IsFirstMeeting (header_in headers.now) a b) }
{
    for b in a + 1..headers.len() {
        if meet(&headers[a], &headers[b]) {
            return Some(b);
        }
    }
    None
}

// Whether two headers fill an address in common.
fn meet(g: &ProgramHeader, h: &ProgramHeader) -> bool
    ensures { IsTrue result ↔ Meet g.now h.now }
{
    is_filling(g)
        && is_filling(h)
        && u64::from(g.vaddr) < u64::from(h.vaddr) + u64::from(h.memsz)
        && u64::from(h.vaddr) < u64::from(g.vaddr) + u64::from(g.memsz)
}
