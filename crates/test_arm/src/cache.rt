//! Caches.

use crate::parts::{number, pair};
use anyhow::Result;
use cache_lru::Lru;
use std::alloc::Global;
use wx_base::Machine;

/// Appends which accesses to lines hit and miss in a cache of two sets with two ways, or that there is no such cache.
///
/// The case is the lines of the two sets, with `|` between them, and behind `:` the accesses.
pub fn push_cache(alloc: Global, out: &mut String, case: &str) -> Result<()> {
    let (sets, accesses) = pair(case, ':')?;
    let (even, odd) = pair(sets, '|')?;
    let mut lists = Vec::new(alloc);
    lists.push(numbers(alloc, even)?)?;
    lists.push(numbers(alloc, odd)?)?;
    match Lru::of_lists(alloc, Machine::m1(alloc).shape, lists) {
        Ok(mut cache) => {
            for line in numbers(alloc, accesses)? {
                out.push_str(if cache.access(line) { " miss" } else { " hit" })?;
            }
        }
        Err(error) => write!(out, " {error}")?,
    }
    Ok(())
}

/// The numbers of a list.
fn numbers(alloc: Global, text: &str) -> Result<Vec<u32>> {
    let mut numbers = Vec::new(alloc);
    for word in text.split_whitespace() {
        numbers.push(number(word)?)?;
    }
    Ok(numbers)
}
