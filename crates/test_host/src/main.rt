//! The store over the system's files and the sink over an output, as the lines of a file of steps call them: a line for each
//! step, with what it came to.
#![tactic(auto)]

use anyhow::{Context, Result, bail};
use case_lines::{Cases, print_files};
use std::alloc::Global;
use std::cell::Cell;
use std::fmt::{Display, Write};
use std::rt::Files;
use std::{fs, io};
use wx_host::{HostSink, HostStore, Sink, Store};
use wx_text::read_decimal;

/// An output that takes at most so many bytes of a piece, once so many signals have come.
#[derive(Drop)]
struct Narrow {
    most: usize,
    signals: Cell<usize>,
}

impl Print for Narrow {
    fn print<D: Display + Drop>(&self, _value: D) -> io::Result<()> {
        Ok(())
    }

    fn println<D: Display + Drop>(&self, _value: D) -> io::Result<()> {
        Ok(())
    }

    fn write_all(&self, _bytes: &[u8]) -> io::Result<()> {
        Ok(())
    }

    fn write_some(&self, bytes: &[u8]) -> io::Result<usize> {
        match self.signals.get() {
            0 => Ok(bytes.len().min(self.most)),
            left => {
                self.signals.set(left - 1);
                Err(io::Error::from(io::ErrorKind::Interrupted))
            }
        }
    }
}

/// The cases of this program.
struct HostCases;

/// A case is a step: `read NAME`, `write NAME COUNT`, `folder NAME`, `take FOLDER`, `free FOLDER` or
/// `put COUNT MOST SIGNALS`.
impl Cases for HostCases {
    fn push_outcome<R: Files + AllocGlobal>(
        &self,
        rt: &R,
        out: &mut String,
        line: &str,
    ) -> Result<()> {
        let (verb, rest) = line.split_once(' ').context("a step has a verb")?;
        match verb {
            "read" => read(rt, out, rest),
            "write" => write(rt, out, rest),
            "folder" => fs::create_dir(rt, rest).context("a folder is made"),
            "take" => take(rt, rest),
            "free" => free(rt, rest),
            "put" => put(rt.alloc(), out, rest),
            _ => bail!("no such step"),
        }
    }
}

fn main(rt: HostRuntime) -> Result<()> {
    print_files(&rt, &HostCases)
}

/// The answer to a read, how many bytes were handed over, and whether each is the letter a.
fn read(rt: &(impl Files + AllocGlobal), out: &mut String, name: &str) -> Result<()> {
    let mut bytes = Vec::new(rt.alloc());
    let answer = HostStore::new(rt).read(name, &mut bytes);
    let count = bytes.len();
    let same = bytes.iter().all(|byte| *byte == b'a');
    write!(out, " {answer:?} {count} {same}")?;
    Ok(())
}

/// The answer to a write of so many letters a.
fn write(rt: &(impl Files + AllocGlobal), out: &mut String, rest: &str) -> Result<()> {
    let (name, count) = rest.split_once(' ').context("a write has a count")?;
    let bytes = vec![in rt.alloc(); b'a'; number(count)?]?;
    let answer = HostStore::new(rt).write(name, bytes.as_slice());
    write!(out, " {answer:?}")?;
    Ok(())
}

/// Takes each name in a folder that the store may use for a new file.
fn take(rt: &(impl Files + AllocGlobal), folder: &str) -> Result<()> {
    for number in 0..10_u8 {
        fs::create_dir(rt, name_in(rt.alloc(), folder, number)?.as_str())?;
    }
    Ok(())
}

/// Frees the names that `take` took.
fn free(rt: &(impl Files + AllocGlobal), folder: &str) -> Result<()> {
    for number in 0..10_u8 {
        fs::remove_dir(rt, name_in(rt.alloc(), folder, number)?.as_str())?;
    }
    Ok(())
}

/// The name of that number which the store may use for a new file.
fn name_in(alloc: Global, folder: &str, number: u8) -> Result<String> {
    let mut name = String::new(alloc);
    write!(name, "{folder}/.wcet-{number}")?;
    Ok(name)
}

/// The answer to a put of so many letters a to an output that takes at most so many after so many signals.
fn put(alloc: Global, out: &mut String, rest: &str) -> Result<()> {
    let (count, rest) = rest.split_once(' ').context("a put has three counts")?;
    let (most, signals) = rest.split_once(' ').context("a put has three counts")?;
    let bytes = vec![in alloc; b'a'; number(count)?]?;
    let output = Narrow {
        most: number(most)?,
        signals: Cell::new(number(signals)?),
    };
    let answer = HostSink::new(output).put(bytes.as_slice());
    write!(out, " {answer:?}")?;
    Ok(())
}

/// The number that digits write.
fn number(text: &str) -> Result<usize> {
    let number = read_decimal(text.as_bytes()).context("a number is wanted")?;
    Ok(number as usize)
}
