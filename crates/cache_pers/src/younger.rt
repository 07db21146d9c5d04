ghost use Rattle.std.specs.Prelude.{◌≡◌, IsOk, IfOk, IsTrue};
ghost use Rattle.std.specs.Bool.{Decides};
ghost use Rattle.wx_base.specs.CacheStates.{younger_start, younger_accessed, younger_joined, is_kept, YoungerCovers};
ghost use Rattle.wx_base.specs.Facts.{AreAscending};
ghost use Rattle.wx_base.specs.Machine.{IsShape};
ghost use Rattle.cache_ages.specs.Bounds.{is_one_of};
ghost use Rattle.cache_pers.specs.Stays.{younger_of, IsStay, IsFor};

use crate::rows::{
    Access, are_covered, clear, clear_each, copy_rows, count, make_rows, mark, note_each, place_of,
    unite, unite_each,
};
use std::alloc::Global;
use std::marker::Model;
use wx_base::{NoMemory, Shape};

/// For each line that was accessed in this stay, the other lines of its set that were accessed since.
///
/// Contracts see the shape, the lines, whether each is known, and the rows of lines that are held for each. A join and
/// a comparison take time and room in the square of the number of lines, so a state is best made for the lines of one
/// cache set.
#[derive(Debug, Drop)]
pub struct Younger {
    shape: Shape,
    lines: Vec<u32>,
    known: Vec<bool>,
    held: Vec<Vec<bool>>,
}

impl Model for Younger {
    ghost use Rattle.cache_pers.specs.Rows.{rows_of};
    ghost use Rattle.cache_pers.specs.Stays.{Stay, IsStay};

    ghost Value = { Stay };

    ghost view = { λ y. record {
      shape = y.shape;
      lines = y.lines.items;
      known = y.known.items;
      held = rows_of y.held.items;
    } };

    ghost invariant = { λ y. IsStay (record {
      shape = y.shape;
      lines = y.lines.items;
      known = y.known.items;
      held = rows_of y.held.items;
    }) };
}

impl Younger {
    /// Nothing is known: the state where a stay begins. The lines are those that may be accessed.
    pub fn start(alloc: Global, shape: Shape, lines: &[u32]) -> Result<Younger, NoMemory>
        requires shape { IsShape shape }
        requires ascending { AreAscending lines.now }
        ensures made { IfOk result (λ younger. IsFor younger shape lines.now) }
        ensures unknown { IfOk result (λ younger. younger_of younger ≡ younger_start) }
    {
        let known = vec![in alloc; false; lines.len()]?;
        let held = make_rows(alloc, lines.len())?;
        let lines = lines.to_vec(alloc)?;
        Ok(Younger {
            shape,
            lines,
            known,
            held,
        })
    }

    /// The same state once more.
    pub fn duplicate(&self, alloc: Global) -> Result<Younger, NoMemory>
        ensures { IfOk result (λ younger. younger ≡ self.now) }
    {
        let lines = Vec::from_slice(alloc, self.lines.as_slice())?;
        let known = Vec::from_slice(alloc, self.known.as_slice())?;
        let held = copy_rows(alloc, self.held.as_slice())?;
        Ok(Younger {
            shape: self.shape,
            lines,
            known,
            held,
        })
    }

    /// There is one entry for each line. A law: nothing is looked up.
    pub fn is_stay(&self)
        ensures { IsStay self.now }
    {
        let _ = &self.lines;
    }

    /// Whether the line is one of those that may be accessed. Logarithmic in the lines.
    pub fn has_line(&self, line: u32) -> bool
        ensures { result ≡ is_one_of self.now.lines line }
    {
        match place_of(self.lines.as_slice(), line) {
            Some(_) => true,
            None => false,
        }
    }

    /// The state after an access to a line of the list. Linear in the lines; takes no memory, so the answer is Ok.
    pub fn access(&mut self, line: u32) -> Result<(), NoMemory>
        requires { IsTrue (is_one_of self.old.lines line) }
        ensures granted { IsOk result }
        ensures younger { younger_of self.new ≡ younger_accessed self.old.shape (younger_of self.old) line }
        ensures same { IsFor self.new self.old.shape self.old.lines }
    {
        let shape = self.shape;
        match place_of(self.lines.as_slice(), line) {
            Some(at) => {
                let access = Access { shape, line, at };
                note_each(
                    access,
                    self.lines.as_slice(),
                    self.known.as_slice(),
                    self.held.as_mut_slice(),
                );
                mark(self.known.as_mut_slice(), access);
                Ok(())
            }
            None => Ok(()),
        }
    }

    /// What either state tells. The other is one of the same shape and lines. Takes no memory, so the answer is Ok.
    pub fn join(&mut self, other: &Younger) -> Result<(), NoMemory>
        requires { IsFor other.now self.old.shape self.old.lines }
        ensures granted { IsOk result }
        ensures younger { younger_of self.new ≡ younger_joined (younger_of self.old) (younger_of other.now) }
        ensures same { IsFor self.new self.old.shape self.old.lines }
    {
        unite(self.known.as_mut_slice(), other.known.as_slice());
        unite_each(self.held.as_mut_slice(), other.held.as_slice());
        Ok(())
    }

    /// Nothing is known any more, as where a stay begins. Takes no memory.
    pub fn enter(&mut self)
        ensures younger { younger_of self.new ≡ younger_start }
        ensures same { IsFor self.new self.old.shape self.old.lines }
    {
        clear(self.known.as_mut_slice());
        clear_each(self.held.as_mut_slice());
    }

    /// Whether the other state covers this one: it knows each line that this one knows, and holds no less for it.
    pub fn leq(&self, other: &Younger) -> bool
        requires { IsFor other.now self.now.shape self.now.lines }
        ensures { Decides result (YoungerCovers (younger_of other.now) (younger_of self.now)) }
    {
        are_covered(
            self.known.as_slice(),
            self.held.as_slice(),
            other.known.as_slice(),
            other.held.as_slice(),
        )
    }

    /// Whether the line is kept: it was not accessed in this stay, or fewer lines than ways are held for it.
    pub fn kept(&self, line: u32) -> bool
        ensures { result ≡ is_kept self.now.shape self.now.lines (younger_of self.now) line }
    {
        match place_of(self.lines.as_slice(), line) {
            Some(at) => !self.known[at]
                || count(self.held[at].as_slice()) < self.shape.ways as usize,
            None => true,
        }
    }
}
