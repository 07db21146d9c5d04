//! What a case is made of.

ghost use Rattle.std.specs.Prelude.{IfOk};
ghost use Rattle.wx_base.specs.Facts.{FactsAscend};
ghost use Rattle.wx_base.specs.Machine.{IsMachine};
ghost use Rattle.flow_ctx.specs.Laws.{IsBuilt, IsBuiltOn};

use anyhow::{Context, Result};
use cert_text::{Certificate, read_cert};
use ffx_facts::read_facts;
use flow_graph::{Program, build};
use std::alloc::Global;
use wx_base::{Facts, Image, Machine, Segment, Segments, Symbols, Text};
use wx_text::read_word;

/// Where the code stands, and runs start.
const START: u32 = 0x8000;

/// What stands before and behind the first ` | `.
pub fn pair(text: &str) -> Result<(&str, &str)> {
    text.split_once(" | ").context("two parts are wanted")
}

/// The image of some words of code.
fn image_of(alloc: Global, words: &str) -> Result<Image> {
    let mut bytes = Vec::new(alloc);
    for digits in words.split_whitespace() {
        let word = read_word(digits.as_bytes()).context("eight digits are wanted")?;
        bytes.extend_from_slice(&word.to_le_bytes())?;
    }
    let mut segments = Vec::new(alloc);
    segments.push(Segment {
        first: START,
        size: bytes.len() as u64,
        code: true,
        bytes: Text::new(bytes),
    })?;
    Ok(Image {
        entry: START,
        segments: Segments::new(segments),
        symbols: Symbols::new(Vec::new(alloc)),
    })
}

/// The facts of a text, without symbols.
fn facts_of(alloc: Global, text: &str) -> Result<Facts>
    ensures { IfOk result FactsAscend }
{
    Ok(read_facts(alloc, text.as_bytes(), &[])?)
}

/// The program of some words of code with facts, on a machine.
pub fn program_of(alloc: Global, words: &str, facts: &str, machine: &Machine) -> Result<Program>
    requires { IsMachine machine.now }
    ensures built { IfOk result IsBuilt }
    ensures on { IfOk result (IsBuiltOn machine.now) }
{
    let image = image_of(alloc, words)?;
    let facts = facts_of(alloc, facts)?;
    let program = build(alloc, &image, &facts, START, machine)?;
    Ok(program)
}

/// The certificate of a text in which `;` ends a line and `_` is a space.
pub fn certificate_of(alloc: Global, text: &str) -> Result<Certificate> {
    let mut bytes = Vec::new(alloc);
    for byte in text.bytes() {
        bytes.push(match byte {
            b';' => b'\n',
            b'_' => b' ',
            other => other,
        })?;
    }
    Ok(read_cert(alloc, bytes.as_slice())?)
}
