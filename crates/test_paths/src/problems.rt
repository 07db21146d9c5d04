//! What path problems come to.

use crate::made::graph_of;
use crate::parts::{numbers, pair, truths};
use anyhow::{Result, ensure};
use path_graph::{Graph, LoopPrices, fit, has_natural_finishes, is_bounded, is_graph};
use path_problem::{PathError, check, choose, potentials, prices};
use std::alloc::Global;
use std::fmt::Write;
use wx_text::List;

/// Appends why there is no answer.
fn push_refusal(out: &mut String, refusal: &PathError) -> Result<()> {
    write!(out, " {refusal}")?;
    Ok(())
}

/// Appends a name and numbers.
fn push_numbers(out: &mut String, name: &str, numbers: &[u64]) -> Result<()> {
    write!(out, " {name}")?;
    for number in numbers {
        write!(out, " {number}")?;
    }
    Ok(())
}

/// Appends a digit for each total, 1 if it is chosen.
fn push_chosen(out: &mut String, chosen: &[bool]) -> Result<()> {
    write!(out, " chosen")?;
    for is_chosen in chosen {
        write!(out, " {}", u8::from(*is_chosen))?;
    }
    Ok(())
}

/// Appends the prices for chosen totals.
pub fn push_prices(alloc: Global, out: &mut String, case: &str) -> Result<()> {
    let (chosen, graph) = pair(case, ":")?;
    let chosen = truths(alloc, chosen)?;
    push_prices_of(alloc, out, &graph_of(alloc, graph)?, chosen.as_slice())
}

fn push_prices_of(alloc: Global, out: &mut String, graph: &Graph, chosen: &[bool]) -> Result<()> {
    ensure!(is_graph(alloc, graph)?, "no graph");
    ensure!(is_bounded(graph), "no bounded graph");
    ensure!(
        chosen.len() == graph.totals.len(),
        "a digit for each total is wanted"
    );
    match prices(alloc, graph, chosen) {
        Ok(made) => {
            push_numbers(out, "loops", made.loops.as_slice())?;
            push_numbers(out, "totals", made.totals.as_slice())
        }
        Err(refusal) => push_refusal(out, &refusal),
    }
}

/// Appends the potentials at the prices for chosen totals.
pub fn push_potentials(alloc: Global, out: &mut String, case: &str) -> Result<()> {
    let (chosen, graph) = pair(case, ":")?;
    let chosen = truths(alloc, chosen)?;
    push_potentials_of(alloc, out, &graph_of(alloc, graph)?, chosen.as_slice())
}

fn push_potentials_of(
    alloc: Global,
    out: &mut String,
    graph: &Graph,
    chosen: &[bool],
) -> Result<()> {
    ensure!(is_graph(alloc, graph)?, "no graph");
    ensure!(is_bounded(graph), "no bounded graph");
    ensure!(has_natural_finishes(graph), "no finish below 0 is wanted");
    ensure!(
        chosen.len() == graph.totals.len(),
        "a digit for each total is wanted"
    );
    let made = prices(alloc, graph, chosen)?;
    match potentials(alloc, graph, &made) {
        Ok(made) => push_numbers(out, "potentials", made.as_slice()),
        Err(refusal) => push_refusal(out, &refusal),
    }
}

/// Appends whether potentials pass at prices.
pub fn push_check(alloc: Global, out: &mut String, case: &str) -> Result<()> {
    let (loops, rest) = pair(case, ":")?;
    let (totals, rest) = pair(rest, ":")?;
    let (potentials, graph) = pair(rest, ":")?;
    let graph = graph_of(alloc, graph)?;
    let prices = LoopPrices {
        loops: List::new(numbers(alloc, loops)?),
        totals: List::new(numbers(alloc, totals)?),
    };
    let potentials = numbers(alloc, potentials)?;
    ensure!(is_graph(alloc, &graph)?, "no graph");
    ensure!(is_bounded(&graph), "no bounded graph");
    ensure!(
        fit(&graph, &prices, &potentials),
        "prices and potentials do not fit"
    );
    match check(&graph, &prices, &potentials) {
        Ok(()) => write!(out, " passes")?,
        Err(refusal) => write!(out, " {refusal}")?,
    }
    Ok(())
}

/// Appends the choice.
pub fn push_choice(alloc: Global, out: &mut String, graph: &Graph) -> Result<()> {
    ensure!(is_graph(alloc, graph)?, "no graph");
    ensure!(is_bounded(graph), "no bounded graph");
    ensure!(has_natural_finishes(graph), "no finish below 0 is wanted");
    match choose(alloc, graph) {
        Ok(made) => {
            push_chosen(out, made.chosen.as_slice())?;
            push_numbers(out, "loops", made.prices.loops.as_slice())?;
            push_numbers(out, "totals", made.prices.totals.as_slice())?;
            push_numbers(out, "potentials", made.potentials.as_slice())
        }
        Err(refusal) => push_refusal(out, &refusal),
    }
}
