//! What a reader answers, in lines.

ghost use Rattle.wx_base.specs.Machine.{IsMachine};

use crate::cases::Case;
use crate::facts::facts_lines;
use crate::images::image_lines;
use crate::machines::{machine_lines, machine_refusal};
use crate::starts::start_lines;
use crate::suite::{Kind, Suite};
use anyhow::Result;
use elf_image::read_image;
use ffx_facts::read_facts;
use machine_desc::read_machine;
use start_file::read_start;
use std::alloc::Global;
use std::fmt::Display;
use wx_base::Text;

/// The answer to a case: `read` and what was read, in lines that begin with two spaces, or `refused` and why.
pub fn answer(alloc: Global, suite: &Suite, case: &Case) -> Result<String>
    requires { IsMachine suite.now.machine }
{
    match suite.kind {
        Kind::Image => image_answer(alloc, case),
        Kind::Machine => machine_answer(alloc, case),
        Kind::Facts => facts_answer(alloc, suite, case),
        Kind::Start => start_answer(alloc, suite, case),
    }
}

fn image_answer(alloc: Global, case: &Case) -> Result<String> {
    match read_image(alloc, &case.input) {
        Ok(image) => image_lines(alloc, &image, &case.addresses),
        Err(error) => refusal(alloc, error),
    }
}

fn machine_answer(alloc: Global, case: &Case) -> Result<String> {
    match read_machine(alloc, &case.input) {
        Ok(machine) => machine_lines(alloc, &machine),
        Err(error) => machine_refusal(alloc, &error),
    }
}

fn facts_answer(alloc: Global, suite: &Suite, case: &Case) -> Result<String> {
    match read_facts(alloc, &case.input, suite.image.symbols.as_slice()) {
        Ok(facts) => facts_lines(alloc, &facts),
        Err(error) => refusal(alloc, error),
    }
}

fn start_answer(alloc: Global, suite: &Suite, case: &Case) -> Result<String>
    requires { IsMachine suite.now.machine }
{
    let entry = case.entry.unwrap_or(suite.image.entry);
    match read_start(alloc, &case.input, &suite.image, entry, &suite.machine) {
        Ok(start) => start_lines(alloc, start, case),
        Err(error) => refusal(alloc, error),
    }
}

/// A refusal whose text says all.
fn refusal<E: Display + Drop>(alloc: Global, error: E) -> Result<String> {
    Ok(format!(in alloc; "refused, {error}")?)
}

/// The most bytes of a name that are printed.
const LONGEST_NAME: usize = 40;

/// A name, or how long it is where it is long.
pub fn shown_name(alloc: Global, name: &Text) -> Result<String> {
    if name.len() > LONGEST_NAME {
        return Ok(format!(in alloc; "(a name of {} bytes)", name.len())?);
    }
    let text = std::str::from_utf8(name.as_bytes()).unwrap_or("(no text)");
    Ok(String::from_str(alloc, text)?)
}
