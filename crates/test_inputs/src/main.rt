//! Prints what the readers of images, machine descriptions, facts and start texts make of the inputs in `data/`.
//!
//! `data/index` says how a case is written, and names the suites of cases.
#![tactic(auto)]

mod answers;
mod cases;
mod edits;
mod facts;
mod hexadecimal;
mod images;
mod machines;
mod pieces;
mod starts;
mod suite;

ghost use Rattle.wx_base.specs.Machine.{IsMachine};

use crate::answers::answer;
use crate::cases::read_case;
use crate::suite::{Suite, read_suite};
use anyhow::{Context, Result};
use std::fs;
use std::rt::Files;

fn main(rt: HostRuntime) -> Result<()> {
    let index = fs::read_to_string(&rt, "index")?;
    for line in index.lines() {
        if !line.starts_with('#') {
            print_suite(&rt, line)?;
        }
    }
    Ok(())
}

/// Prints the answers to the cases of a suite, which a line of the index names.
fn print_suite<R: Files + Print + AllocGlobal>(rt: &R, line: &str) -> Result<()> {
    let suite = read_suite(rt, line)?;
    println!(rt; "== {}", suite.title)?;
    for paragraph in suite.cases.split("\n\n") {
        if !paragraph.starts_with('#') {
            print_answer(rt, &suite, paragraph)?;
        }
    }
    Ok(())
}

/// Prints the answer to the case of one paragraph.
fn print_answer<R: Files + Print + AllocGlobal>(
    rt: &R,
    suite: &Suite,
    paragraph: &str,
) -> Result<()>
    requires { IsMachine suite.now.machine }
{
    let base = suite.base.as_slice();
    let case = read_case(rt, base, paragraph).context(format_args!("in {paragraph:?}"))?;
    let told = answer(rt.alloc(), suite, &case)?;
    println!(rt; "{}: {told}", case.name)?;
    Ok(())
}
