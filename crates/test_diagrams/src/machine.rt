//! A stack of diagrams, and the words that work on it.

ghost use Rattle.std.specs.Prelude.{◌<◌, IfOk, length};

use crate::diagrams::{Pointwise, again, apply, branch, parity, replaced, time_of_branch};
use crate::numerals::push_numerals;
use crate::texts::{bits, bytes_of_text, numbers, pair, push_refusal, push_text};
use anyhow::{Context, Result, ensure};
use std::alloc::Global;
use std::collections::BTreeMap;
use std::fmt::Write;
use xdd_ops::{Pairs, fix, greatest, print_diagram, read_diagram, rise, zip};
use xdd_table::{Dd, Table};

/// The diagrams of one case.
#[derive(Drop)]
pub struct Machine {
    alloc: Global,
    table: Table,
    stack: Vec<Dd>,
    names: BTreeMap<String, Dd>,
    pairs: Pairs,
}

impl Machine {
    /// An empty table and an empty stack.
    pub fn new(alloc: Global) -> Self {
        Machine {
            alloc,
            table: Table::new(alloc),
            stack: Vec::new(alloc),
            names: BTreeMap::new(alloc),
            pairs: Pairs::new(alloc),
        }
    }

    /// Does what the words of a line say, and appends what they show.
    pub fn run(&mut self, out: &mut String, line: &str) -> Result<()> {
        for word in line.split_whitespace() {
            let (name, argument) = word.split_once(':').unwrap_or((word, ""));
            let known = self.make(name, argument)?
                || self.operate(name, argument)?
                || self.show(out, name)?
                || self.ask(out, name, argument)?
                || push_numerals(self.alloc, out, name, argument)?;
            ensure!(known, "there is no word {word}");
        }
        Ok(())
    }

    /// The diagram that was pushed last, which goes.
    fn pop(&mut self) -> Result<Dd>
        ensures within { IfOk result (λ d. d.place < length self.new.table) }
    {
        let d = self.stack.pop().context("the stack is empty")?;
        ensure!(d.place < self.table.len(), "there is no such place");
        Ok(d)
    }

    /// The two diagrams that were pushed last, which go: the earlier one, and the later one.
    fn two(&mut self) -> Result<(Dd, Dd)>
        ensures first { IfOk result (λ r. r.0.place < length self.new.table) }
        ensures second { IfOk result (λ r. r.1.place < length self.new.table) }
    {
        let later = self.pop()?;
        let earlier = self.pop()?;
        ensure!(later.place < self.table.len(), "there is no such place");
        Ok((earlier, later))
    }

    /// The diagram that was pushed last.
    fn top(&self) -> Result<Dd>
        ensures within { IfOk result (λ d. d.place < length self.now.table) }
    {
        let d = *self.stack.last().context("the stack is empty")?;
        ensure!(d.place < self.table.len(), "there is no such place");
        Ok(d)
    }

    /// A word that makes a diagram, or moves one.
    fn make(&mut self, name: &str, argument: &str) -> Result<bool> {
        match name {
            "leaf" => self.leaf(argument)?,
            "branch" => self.branch(argument)?,
            "parity" => self.parity(argument)?,
            "copy" => self.copy()?,
            "get" => self.get(argument)?,
            "set" => self.set(argument)?,
            _ => return Ok(false),
        }
        Ok(true)
    }

    fn leaf(&mut self, time: &str) -> Result<()> {
        let d = self.table.leaf(time.parse()?)?;
        self.stack.push(d)?;
        Ok(())
    }

    fn branch(&mut self, event: &str) -> Result<()> {
        let (hit, miss) = self.two()?;
        let d = branch(&mut self.table, event.parse()?, hit, miss)?;
        self.stack.push(d)?;
        Ok(())
    }

    fn parity(&mut self, last: &str) -> Result<()> {
        let (even, odd) = self.two()?;
        let d = parity(&mut self.table, last.parse()?, even, odd)?;
        self.stack.push(d)?;
        Ok(())
    }

    fn copy(&mut self) -> Result<()> {
        let d = self.top()?;
        self.stack.push(d)?;
        Ok(())
    }

    fn get(&mut self, name: &str) -> Result<()> {
        let d = *self.names.get(name).context("there is no such name")?;
        self.stack.push(d)?;
        Ok(())
    }

    fn set(&mut self, name: &str) -> Result<()> {
        let d = self.pop()?;
        let name = String::from_str(self.alloc, name)?;
        self.names.insert(name, d)?;
        Ok(())
    }

    /// A word that makes a diagram of others.
    fn operate(&mut self, name: &str, argument: &str) -> Result<bool> {
        match name {
            "max" => self.pointwise(Pointwise::Max)?,
            "plus" => self.pointwise(Pointwise::Plus)?,
            "minus" => self.pointwise(Pointwise::Minus)?,
            "again" => self.again(argument)?,
            "zip" => self.zip()?,
            "fix" => self.fix(argument)?,
            "replace" => self.replace(argument)?,
            _ => return Ok(false),
        }
        Ok(true)
    }

    fn pointwise(&mut self, operation: Pointwise) -> Result<()> {
        let (a, b) = self.two()?;
        let d = apply(&mut self.table, operation, a, b)?;
        self.stack.push(d)?;
        Ok(())
    }

    /// The sum of two diagrams, made a number of times.
    fn again(&mut self, times: &str) -> Result<()> {
        let (a, b) = self.two()?;
        let d = again(&mut self.table, times.parse()?, a, b)?;
        self.stack.push(d)?;
        Ok(())
    }

    fn zip(&mut self) -> Result<()> {
        let (a, b) = self.two()?;
        let d = zip(&mut self.table, a, b, &mut self.pairs)?;
        self.stack.push(d)?;
        Ok(())
    }

    fn fix(&mut self, argument: &str) -> Result<()> {
        let (event, way) = pair(argument)?;
        let event = event.parse()?;
        let d = self.pop()?;
        let d = fix(&mut self.table, d, event, way == "miss")?;
        self.stack.push(d)?;
        Ok(())
    }

    fn replace(&mut self, argument: &str) -> Result<()> {
        let d = self.pop()?;
        let times = numbers(self.alloc, argument)?;
        let d = replaced(&mut self.table, d, times.as_slice())?;
        self.stack.push(d)?;
        Ok(())
    }

    /// A word that shows something of the last diagram or of the table.
    fn show(&self, out: &mut String, name: &str) -> Result<bool> {
        match name {
            "print" => self.print(out)?,
            "place" => write!(out, " {}", self.top()?.place)?,
            "size" => self.size(out)?,
            "greatest" => self.greatest(out)?,
            "nodes" => write!(out, " {}", self.table.len())?,
            "order" => self.order(out)?,
            "pairs" => self.pairs(out)?,
            _ => return Ok(false),
        }
        Ok(true)
    }

    fn print(&self, out: &mut String) -> Result<()> {
        let mut text = Vec::new(self.alloc);
        print_diagram(&mut text, &self.table, self.top()?)?;
        push_text(out, text.as_slice())
    }

    fn size(&self, out: &mut String) -> Result<()> {
        let size = self.table.size(self.top()?)?;
        write!(out, " {size}")?;
        Ok(())
    }

    fn greatest(&self, out: &mut String) -> Result<()> {
        let greatest = greatest(&self.table, self.top()?)?;
        write!(out, " {greatest}")?;
        Ok(())
    }

    fn order(&self, out: &mut String) -> Result<()> {
        let order = self.table.order(self.top()?)?;
        for place in order.places() {
            write!(out, " {place}")?;
        }
        Ok(())
    }

    fn pairs(&self, out: &mut String) -> Result<()> {
        for i in 0..self.pairs.len() as u64 {
            let (a, b) = self.pairs.get(i).context("there is no such pair")?;
            write!(out, " {a},{b}")?;
        }
        Ok(())
    }

    /// A word that asks something of the last diagrams, or reads one.
    fn ask(&mut self, out: &mut String, name: &str, argument: &str) -> Result<bool> {
        match name {
            "time" => self.time(out, argument)?,
            "rise" => self.rise(out, argument)?,
            "same" => self.same(out)?,
            "read" => self.read(out, argument)?,
            "reread" => self.reread()?,
            _ => return Ok(false),
        }
        Ok(true)
    }

    fn time(&mut self, out: &mut String, argument: &str) -> Result<()> {
        let (event, combination) = pair(argument)?;
        let combination = bits(self.alloc, combination)?;
        let time = time_of_branch(&mut self.table, event.parse()?, combination.as_slice())?;
        write!(out, " {time}")?;
        Ok(())
    }

    fn rise(&mut self, out: &mut String, event: &str) -> Result<()> {
        let event = event.parse()?;
        let d = self.top()?;
        let most = rise(&mut self.table, d, event)?;
        write!(out, " {most}")?;
        Ok(())
    }

    fn same(&mut self, out: &mut String) -> Result<()> {
        let (a, b) = self.two()?;
        let same = self.table.same(a, b);
        write!(out, " {same}")?;
        Ok(())
    }

    fn read(&mut self, out: &mut String, argument: &str) -> Result<()> {
        let bytes = bytes_of_text(self.alloc, argument)?;
        match read_diagram(&mut self.table, bytes.as_slice()) {
            Ok(d) => self.stack.push(d)?,
            Err(refusal) => push_refusal(out, refusal)?,
        }
        Ok(())
    }

    /// Prints the last diagram, and reads that text.
    fn reread(&mut self) -> Result<()> {
        let mut text = Vec::new(self.alloc);
        print_diagram(&mut text, &self.table, self.top()?)?;
        let d = read_diagram(&mut self.table, text.as_slice())?;
        self.stack.push(d)?;
        Ok(())
    }
}
