//! What is known of a cache of one set with two ways.

ghost use Rattle.std.specs.Prelude.{IsTrue};
ghost use Rattle.wx_base.specs.Facts.{AreAscending};
ghost use Rattle.wx_base.specs.Machine.{IsShape};

use anyhow::{Result, ensure};
use cache_ages::{May, Must};
use cache_pers::Younger;
use std::alloc::Global;
use wx_base::Shape;

/// The three kinds of state, of the same lines.
#[derive(Drop)]
pub struct States {
    must: Must,
    may: May,
    younger: Younger,
}

impl States {
    /// What is known at the start.
    pub fn new(alloc: Global, lines: &[u32]) -> Result<States> {
        ensure!(are_ascending(lines), "the lines do not ascend");
        let shape = one_set();
        Ok(States {
            must: Must::start(alloc, shape, lines)?,
            may: May::start(alloc, shape, lines)?,
            younger: Younger::start(alloc, shape, lines)?,
        })
    }

    /// An access.
    pub fn access(&mut self, line: u32) -> Result<()> {
        ensure!(self.must.has_line(line), "the line is not listed");
        self.must.access(line)?;
        ensure!(self.may.has_line(line), "the line is not listed");
        self.may.access(line)?;
        ensure!(self.younger.has_line(line), "the line is not listed");
        self.younger.access(line)?;
        Ok(())
    }

    /// A stay begins.
    pub fn enter(&mut self) {
        self.younger.enter();
    }

    /// Appends what is known of a line: whether it is there for sure, or cannot be there, and whether it is kept.
    pub fn push_known(&self, out: &mut String, line: u32) -> Result<()> {
        if self.must.must_hold(line) {
            out.push_str(" there")?;
        }
        if !self.may.may_hold(line) {
            out.push_str(" gone")?;
        }
        if self.younger.kept(line) {
            out.push_str(" kept")?;
        }
        Ok(())
    }
}

/// A cache of one set with two ways and lines of 16 bytes.
fn one_set() -> Shape
    ensures { IsShape result }
{
    Shape {
        sets: 1,
        ways: 2,
        line: 16,
    }
}

/// Whether each line is below the next.
fn are_ascending(lines: &[u32]) -> bool
    ensures { IsTrue result → AreAscending lines.now }
{
    for (i, line) in lines.iter().enumerate() {
        if i > 0 && lines[i - 1] >= *line {
            return false;
        }
    }
    true
}
