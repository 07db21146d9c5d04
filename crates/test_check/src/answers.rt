//! What certificates are answered with.

ghost use Rattle.std.specs.Prelude.{◌≤◌, length};
ghost use Rattle.wx_base.specs.Machine.{IsMachine};
ghost use Rattle.flow_ctx.specs.Laws.{IsUnfoldedOn};
ghost use Rattle.flow_ctx.specs.Unfolding.{most_nodes};

use crate::inputs::{certificate_of, pair, program_of};
use anyhow::Result;
use cert_check::{Refused, check};
use cert_text::Certificate;
use flow_ctx::{Unfolded, unfold};
use std::alloc::Global;
use std::fmt::Write;
use wx_base::Machine;
use xdd_table::Table;

/// Appends what the certificate of a case is answered with.
pub fn push_answer(alloc: Global, out: &mut String, case: &str) -> Result<()> {
    let (words, rest) = pair(case)?;
    let (facts, text) = pair(rest)?;
    let machine = Machine::m1(alloc);
    let certificate = certificate_of(alloc, text)?;
    let program = program_of(alloc, words, facts, &machine)?;
    let unfolded = unfold(alloc, program)?;
    push_checked(alloc, out, &unfolded, &machine, &certificate)
}

/// Appends the bound of a certificate, or why it is not valid.
fn push_checked(
    alloc: Global,
    out: &mut String,
    u: &Unfolded,
    machine: &Machine,
    c: &Certificate,
) -> Result<()>
    requires machine { IsMachine machine.now }
    requires unfolded { IsUnfoldedOn machine.now u.now }
    requires few { length u.now.nodes ≤ most_nodes }
{
    match check(u, machine, c, &mut Table::new(alloc)) {
        Ok(checked) => write!(out, " bound {}", checked.bound)?,
        Err(Refused::Rejected { rule, node, vector }) => {
            write!(out, " rejected {rule} {node} {vector}")?
        }
        Err(Refused::NoMemory) => write!(out, " memory")?,
    }
    Ok(())
}
