use anyhow::Result;
use ffx_facts::Facts;
use std::alloc::Global;
use std::fmt::Write;
use wx_base::{LoopFact, TargetFact, TargetFacts};

/// Facts in lines: those on loops, on branches, on calls.
pub fn facts_lines(alloc: Global, facts: &Facts) -> Result<String> {
    let mut lines = String::from_str(alloc, "read")?;
    for fact in facts.loops.as_slice() {
        push_loop(&mut lines, fact)?;
    }
    push_targets(&mut lines, "branch", &facts.branches)?;
    push_targets(&mut lines, "call", &facts.calls)?;
    Ok(lines)
}

fn push_loop(lines: &mut String, fact: &LoopFact) -> Result<()> {
    write!(
        lines,
        "\n  loop {:08x} maxcount {}",
        fact.address, fact.maxcount
    )?;
    if let Some(total) = fact.totalcount {
        write!(lines, " totalcount {total}")?;
    }
    Ok(())
}

fn push_targets(lines: &mut String, kind: &str, facts: &TargetFacts) -> Result<()> {
    for fact in facts.as_slice() {
        push_fact(lines, kind, fact)?;
    }
    Ok(())
}

fn push_fact(lines: &mut String, kind: &str, fact: &TargetFact) -> Result<()> {
    write!(lines, "\n  {kind} {:08x} to", fact.address)?;
    for target in fact.targets.as_slice() {
        write!(lines, " {target:08x}")?;
    }
    Ok(())
}
