ghost use Rattle.std.specs.Prelude.{◌≡◌, ℕ, true, IsOk, IfOk, IsTrue};
ghost use Rattle.std.specs.Bool.{Decides};
ghost use Rattle.wx_base.specs.CacheStates.{may_start, may_accessed, may_joined, may_hold, MayCovers};
ghost use Rattle.wx_base.specs.Facts.{AreAscending};
ghost use Rattle.wx_base.specs.Machine.{IsShape};
ghost use Rattle.cache_ages.specs.Bounds.{may_ages, among, is_one_of, AreBounds, AreFor};

use crate::aging::{Accessed, access, age_of, are_below, has, lower};
use std::alloc::Global;
use std::marker::Model;
use wx_base::{NoMemory, Shape};

/// Lower bounds on the ages of some lines: what a cache may hold.
///
/// The age of a line is its place in its set, the youngest at 0; the number of ways stands for 'not there'. Contracts
/// see the shape, the lines and their bounds. Of lines that are not listed nothing is known.
#[derive(Clone, Debug, Drop)]
pub struct May {
    shape: Shape,
    lines: Vec<u32>,
    ages: Vec<u8>,
}

impl Model for May {
    ghost use Rattle.cache_ages.specs.Bounds.{Bounds, AreBounds};

    ghost Value = { Bounds };

    ghost view = { λ m. record { shape = m.shape; lines = m.lines.items; ages = m.ages.items } };

    ghost invariant = { λ m. AreBounds (record { shape = m.shape; lines = m.lines.items; ages = m.ages.items }) };
}

impl May {
    /// Each line may be anywhere: the state at the start of a run. The lines are those that may be accessed.
    pub fn start(alloc: Global, shape: Shape, lines: &[u32]) -> Result<May, NoMemory>
        requires shape { IsShape shape }
        requires ascending { AreAscending lines.now }
        ensures made { IfOk result (λ may. AreFor may shape lines.now) }
        ensures anywhere { IfOk result (λ may. may_ages may ≡ may_start) }
    {
        let ages = vec![in alloc; 0u8; lines.len()]?;
        let lines = lines.to_vec(alloc)?;
        Ok(May { shape, lines, ages })
    }

    /// The state where no run comes: no line is there. Whatever else is allowed of these lines, this does not allow more.
    pub fn unreached(alloc: Global, shape: Shape, lines: &[u32]) -> Result<May, NoMemory>
        requires shape { IsShape shape }
        requires ascending { AreAscending lines.now }
        ensures made { IfOk result (λ may. AreFor may shape lines.now) }
        ensures absent { IfOk result (λ may. (line : ℕ) → is_one_of lines.now line ≡ true → may_ages may line ≡ shape.ways) }
    {
        let ages = vec![in alloc; shape.ways as u8; lines.len()]?;
        let lines = lines.to_vec(alloc)?;
        Ok(May { shape, lines, ages })
    }

    /// The same state once more. Linear in the lines.
    pub fn duplicate(&self, alloc: Global) -> Result<May, NoMemory>
        ensures { IfOk result (λ may. may ≡ self.now) }
    {
        let lines = Vec::from_slice(alloc, self.lines.as_slice())?;
        let ages = Vec::from_slice(alloc, self.ages.as_slice())?;
        Ok(May {
            shape: self.shape,
            lines,
            ages,
        })
    }

    /// The bounds are those of some lines, in range. A law: nothing is looked up.
    pub fn are_bounds(&self)
        ensures { AreBounds self.now }
    {
        let _ = &self.lines;
    }

    /// Whether the line is one of those that may be accessed. Logarithmic in the lines.
    pub fn has_line(&self, line: u32) -> bool
        ensures { result ≡ is_one_of self.now.lines line }
    {
        has(self.lines.as_slice(), line)
    }

    /// The state after an access to a line of the list. Linear in the lines; takes no memory, so the answer is Ok.
    pub fn access(&mut self, line: u32) -> Result<(), NoMemory>
        requires { IsTrue (is_one_of self.old.lines line) }
        ensures granted { IsOk result }
        ensures ages { may_ages self.new
            ≡ among self.old.lines (may_accessed self.old.shape (may_ages self.old) line) }
        ensures same { AreFor self.new self.old.shape self.old.lines }
    {
        let age = self.age_of(line);
        let below = (age + 1).min(self.shape.ways as u8);
        access(
            self.shape,
            self.lines.as_slice(),
            self.ages.as_mut_slice(),
            Accessed { line, below },
        );
        Ok(())
    }

    /// What one of the states allows. The other is one of the same shape and lines. Takes no memory, so the answer
    /// is Ok.
    pub fn join(&mut self, other: &May) -> Result<(), NoMemory>
        requires { AreFor other.now self.old.shape self.old.lines }
        ensures granted { IsOk result }
        ensures ages { may_ages self.new ≡ may_joined (may_ages self.old) (may_ages other.now) }
        ensures same { AreFor self.new self.old.shape self.old.lines }
    {
        lower(self.ages.as_mut_slice(), other.ages.as_slice());
        Ok(())
    }

    /// Whether the other state covers this one: it allows whatever this one allows.
    pub fn leq(&self, other: &May) -> bool
        requires { AreFor other.now self.now.shape self.now.lines }
        ensures { Decides result (MayCovers (may_ages other.now) (may_ages self.now)) }
    {
        are_below(other.ages.as_slice(), self.ages.as_slice())
    }

    /// Whether a cache that the state covers may hold the line.
    pub fn may_hold(&self, line: u32) -> bool
        ensures { result ≡ may_hold self.now.shape (may_ages self.now) line }
    {
        u32::from(self.age_of(line)) < self.shape.ways
    }

    /// The bound of a line.
    fn age_of(&self, line: u32) -> u8
        ensures { result ≡ may_ages self.now line }
    {
        age_of(self.lines.as_slice(), self.ages.as_slice(), line, 0)
    }
}
