//! A suite of cases, with what they begin with and what they are read for.

ghost use Rattle.std.specs.Prelude.{IfOk};
ghost use Rattle.wx_base.specs.Machine.{IsMachine};

use crate::hexadecimal::bytes_of;
use anyhow::{Context, Result, bail};
use elf_image::read_image;
use machine_desc::read_machine;
use std::fs;
use std::rt::Files;
use wx_base::{Image, Machine};

/// Which reader the inputs of a suite are for.
#[derive(Clone, Copy)]
pub enum Kind {
    Image,
    Machine,
    Facts,
    Start,
}

/// Cases of one kind.
#[derive(Drop)]
pub struct Suite {
    /// The line of the index.
    pub title: String,
    pub kind: Kind,
    /// The cases, with an empty line between two.
    pub cases: String,
    /// What each input is before its edits.
    pub base: Vec<u8>,
    /// The image that facts and start texts are read for.
    pub image: Image,
    /// The machine that start texts are read for.
    pub machine: Machine,
}

/// The suite that a line of the index names: its kind, and the files of its cases, of what they begin with, of the
/// image and of the machine.
pub fn read_suite<R: Files + AllocGlobal>(rt: &R, line: &str) -> Result<Suite>
    ensures { IfOk result (λ suite. IsMachine suite.machine) }
{
    let words: Vec<&str> = line.split_whitespace().collect(rt.alloc())?;
    let [kind, cases, base, image, machine] = words.as_slice() else {
        bail!("five words are to stand in {line:?}");
    };
    Ok(Suite {
        title: String::from_str(rt.alloc(), line)?,
        kind: kind_of(kind)?,
        cases: fs::read_to_string(rt, *cases).context(format_args!("reading {cases}"))?,
        base: content(rt, base)?,
        image: read_image(rt.alloc(), &content(rt, image)?)?,
        machine: read_machine(rt.alloc(), &content(rt, machine)?)?,
    })
}

fn kind_of(word: &str) -> Result<Kind> {
    Ok(match word {
        "image" => Kind::Image,
        "machine" => Kind::Machine,
        "facts" => Kind::Facts,
        "start" => Kind::Start,
        _ => bail!("{word:?} is no kind of cases"),
    })
}

/// The bytes of a file: those that its hexadecimal text spells where its name ends in `.hex`.
pub fn content<R: Files + AllocGlobal>(rt: &R, name: &str) -> Result<Vec<u8>> {
    if name.ends_with(".hex") {
        let text = fs::read_to_string(rt, name)?;
        bytes_of(rt.alloc(), text.as_str())
    } else {
        Ok(fs::read(rt, name)?)
    }
}
