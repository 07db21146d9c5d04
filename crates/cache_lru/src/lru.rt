ghost use Rattle.std.specs.Prelude.{◌≡◌, ◌<◌, ◌≤◌, ◌⊎◌, ℕ, not, length, All, OnOk, IfOk, IfErr, IsErrAnd, MatchOption};
ghost use Rattle.std.specs.Vec.{vec_capacity};
ghost use Rattle.wx_base.specs.Machine.{IsShape};
ghost use Rattle.wx_base.specs.Cache.{IsCache, holds_line, accessed};
ghost use Rattle.cache_lru.specs.Lru.{lines_of, IsFirstBad};
ghost use Rattle.cache_lru.specs.declared.refusal.LruError.TheVariants as refusal;

use crate::refusal::LruError;
use crate::set::{is_set, touch};
use std::alloc::{AllocError, Global};
use std::marker::Model;
use wx_base::Shape;

/// A cache of lines that replaces the least recently used one.
#[derive(Drop)]
pub struct Lru {
    shape: Shape,
    lists: Vec<Vec<u32>>,
}

impl Model for Lru {
    ghost use Rattle.std.specs.Prelude.{◌≤◌, All};
    ghost use Rattle.std.specs.Vec.{vec_capacity};
    ghost use Rattle.wx_base.specs.Machine.{IsShape};
    ghost use Rattle.wx_base.specs.Cache.{IsCache};
    ghost use Rattle.cache_lru.specs.Lru.{lines_of, Cache};

    ghost Value = { Cache };

    ghost view = { λ c. record { shape = c.shape; lists = lines_of c.lists.items } };

    ghost invariant = { λ c. IsShape c.shape × IsCache c.shape (lines_of c.lists.items)
        × All (λ list. c.shape.ways ≤ vec_capacity list) c.lists.items };
}

impl Lru {
    /// The cache whose sets hold these lines, the youngest first.
    ///
    /// The shape is in range, and there is one list per set. `NotACache` names the first set whose list has a line
    /// twice, a line of another set, or more lines than ways; else `NoMemory` where there is no room for `ways` lines
    /// in each set. Room is taken here, so that no access takes memory.
    pub fn of_lists(_alloc: Global, shape: Shape, lists: Vec<Vec<u32>>) -> Result<Lru, LruError>
        requires shape { IsShape shape }
        requires sets { length lists.items ≡ shape.sets }
        ensures made { IfOk result (λ lru. (lru.shape ≡ shape) × (lru.lists ≡ lines_of lists.items)) }
        ensures cache { OnOk result (IsCache shape (lines_of lists.items)) }
        ensures accepted { IsCache shape (lines_of lists.items) → IfErr result (λ e. e ≡ refusal.NoMemory) }
        ensures refused { (set : ℕ) → IsFirstBad shape (lines_of lists.items) set
            → IsErrAnd result (λ e. (e ≡ refusal.NoMemory) ⊎ (e ≡ refusal.NotACache set)) }
        ensures cause { (set : ℕ) → result ≡ Err (refusal.NotACache set) → IsFirstBad shape (lines_of lists.items) set }
    {
        if let Some(set) = first_bad(shape, lists.as_slice()) {
            return Err(LruError::NotACache { set: set as u64 });
        }
        let mut lists = lists;
        make_room(lists.as_mut_slice(), shape.ways as usize)?;
        Ok(Lru { shape, lists })
    }

    /// The lists are those of a cache of the shape. A law: nothing is looked up.
    pub fn is_cache(&self)
        ensures { IsCache self.now.shape self.now.lists }
    {
        let _ = &self.lists;
    }

    /// Accesses a line, by its number: the line becomes the youngest of its set, and if it was missing and the set is
    /// full, the oldest drops out. The answer is whether it was missing. Linear in the ways; takes no memory.
    pub fn access(&mut self, line: u32) -> bool
        ensures missed { result ≡ not (holds_line self.old.shape self.old.lists line) }
        ensures lists { self.new.lists ≡ accessed self.old.shape self.old.lists line }
        ensures shape { self.new.shape ≡ self.old.shape }
        ensures cache { IsCache self.new.shape self.new.lists }
    {
        let set = (line % self.shape.sets) as usize;
        touch(&mut self.lists[set], self.shape.ways, line)
    }
}

/// The first set whose list is none of that set.
fn first_bad(shape: Shape, lists: &[Vec<u32>]) -> Option<usize>
    requires shape { IsShape shape }
    requires sets { length lists.now ≡ shape.sets }
    ensures { MatchOption result (IsCache shape (lines_of lists.now))
        (λ set. IsFirstBad shape (lines_of lists.now) set) }
{
    for (set, list) in lists.iter().enumerate() {
        if !is_set(shape, set, list.as_slice()) {
            return Some(set);
        }
    }
    None
}

/// Takes room for `ways` lines in each list.
fn make_room(lists: &mut [Vec<u32>], ways: usize) -> Result<(), AllocError>
    ensures lines { OnOk result (lines_of lists.new ≡ lines_of lists.old) }
    ensures room { OnOk result (All (λ list. ways ≤ vec_capacity list) lists.new) }
{
    for list in lists.iter_mut() {
        list.reserve(ways.saturating_sub(list.len()))?;
    }
    Ok(())
}
