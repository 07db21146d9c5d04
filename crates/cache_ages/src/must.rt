ghost use Rattle.std.specs.Prelude.{◌≡◌, ℕ, true, IsOk, IfOk, IsTrue};
ghost use Rattle.std.specs.Bool.{Decides};
ghost use Rattle.wx_base.specs.CacheStates.{must_start, must_accessed, must_joined, must_hold, MustCovers};
ghost use Rattle.wx_base.specs.Facts.{AreAscending};
ghost use Rattle.wx_base.specs.Machine.{IsShape};
ghost use Rattle.cache_ages.specs.Bounds.{must_ages, is_one_of, AreBounds, AreFor};

use crate::aging::{Accessed, access, age_of, are_below, has, raise};
use std::alloc::Global;
use std::marker::Model;
use wx_base::{NoMemory, Shape};

/// Upper bounds on the ages of some lines: what a cache holds for sure.
///
/// The age of a line is its place in its set, the youngest at 0; the number of ways stands for 'perhaps not there'.
/// Contracts see the shape, the lines and their bounds.
#[derive(Clone, Debug, Drop)]
pub struct Must {
    shape: Shape,
    lines: Vec<u32>,
    ages: Vec<u8>,
}

impl Model for Must {
    ghost use Rattle.cache_ages.specs.Bounds.{Bounds, AreBounds};

    ghost Value = { Bounds };

    ghost view = { λ m. record { shape = m.shape; lines = m.lines.items; ages = m.ages.items } };

    ghost invariant = { λ m. AreBounds (record { shape = m.shape; lines = m.lines.items; ages = m.ages.items }) };
}

impl Must {
    /// Nothing is known: the state at the start of a run. The lines are those that may be accessed.
    pub fn start(alloc: Global, shape: Shape, lines: &[u32]) -> Result<Must, NoMemory>
        requires shape { IsShape shape }
        requires ascending { AreAscending lines.now }
        ensures made { IfOk result (λ must. AreFor must shape lines.now) }
        ensures unknown { IfOk result (λ must. must_ages must ≡ must_start shape) }
    {
        let ages = vec![in alloc; shape.ways as u8; lines.len()]?;
        let lines = lines.to_vec(alloc)?;
        Ok(Must { shape, lines, ages })
    }

    /// The state where no run comes: each line is the youngest. Whatever else is known of these lines, this knows it too.
    pub fn unreached(alloc: Global, shape: Shape, lines: &[u32]) -> Result<Must, NoMemory>
        requires shape { IsShape shape }
        requires ascending { AreAscending lines.now }
        ensures made { IfOk result (λ must. AreFor must shape lines.now) }
        ensures youngest { IfOk result (λ must. (line : ℕ) → is_one_of lines.now line ≡ true → must_ages must line ≡ 0) }
    {
        let ages = vec![in alloc; 0u8; lines.len()]?;
        let lines = lines.to_vec(alloc)?;
        Ok(Must { shape, lines, ages })
    }

    /// The same state once more. Linear in the lines.
    pub fn duplicate(&self, alloc: Global) -> Result<Must, NoMemory>
        ensures { IfOk result (λ must. must ≡ self.now) }
    {
        let lines = Vec::from_slice(alloc, self.lines.as_slice())?;
        let ages = Vec::from_slice(alloc, self.ages.as_slice())?;
        Ok(Must {
            shape: self.shape,
            lines,
            ages,
        })
    }

    /// The bounds are those of some lines, in range. A law: nothing is looked up.
    pub fn are_bounds(&self)
        ensures { AreBounds self.now }
    {
        let _ = &self.lines;
    }

    /// Whether the line is one of those that may be accessed. Logarithmic in the lines.
    pub fn has_line(&self, line: u32) -> bool
        ensures { result ≡ is_one_of self.now.lines line }
    {
        has(self.lines.as_slice(), line)
    }

    /// The state after an access to a line of the list. Linear in the lines; takes no memory, so the answer is Ok.
    pub fn access(&mut self, line: u32) -> Result<(), NoMemory>
        requires { IsTrue (is_one_of self.old.lines line) }
        ensures granted { IsOk result }
        ensures ages { must_ages self.new ≡ must_accessed self.old.shape (must_ages self.old) line }
        ensures same { AreFor self.new self.old.shape self.old.lines }
    {
        let below = self.age_of(line);
        access(
            self.shape,
            self.lines.as_slice(),
            self.ages.as_mut_slice(),
            Accessed { line, below },
        );
        Ok(())
    }

    /// What both states know. The other is one of the same shape and lines. Takes no memory, so the answer is Ok.
    pub fn join(&mut self, other: &Must) -> Result<(), NoMemory>
        requires { AreFor other.now self.old.shape self.old.lines }
        ensures granted { IsOk result }
        ensures ages { must_ages self.new ≡ must_joined (must_ages self.old) (must_ages other.now) }
        ensures same { AreFor self.new self.old.shape self.old.lines }
    {
        raise(self.ages.as_mut_slice(), other.ages.as_slice());
        Ok(())
    }

    /// Whether the other state covers this one: it knows nothing that this one does not know as exactly.
    pub fn leq(&self, other: &Must) -> bool
        requires { AreFor other.now self.now.shape self.now.lines }
        ensures { Decides result (MustCovers (must_ages other.now) (must_ages self.now)) }
    {
        are_below(self.ages.as_slice(), other.ages.as_slice())
    }

    /// Whether every cache that the state covers holds the line.
    pub fn must_hold(&self, line: u32) -> bool
        ensures { result ≡ must_hold self.now.shape (must_ages self.now) line }
    {
        u32::from(self.age_of(line)) < self.shape.ways
    }

    /// The bound of a line.
    fn age_of(&self, line: u32) -> u8
        ensures { result ≡ must_ages self.now line }
    {
        age_of(
            self.lines.as_slice(),
            self.ages.as_slice(),
            line,
            self.shape.ways as u8,
        )
    }
}
